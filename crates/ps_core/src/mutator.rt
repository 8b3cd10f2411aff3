//! The mutator's part of a state, when it may make an event, and what the event makes of it.
//!
//! Its functions speak of any part whose numbers are bounded; that it is the part of a run is kept
//! by `Core`.
#![tactic(auto)]

ghost use Rattle.std.specs.Bool.{Decides};
ghost use Rattle.std.specs.Prelude.{◌≡◌, ◌+◌, ◌^◌, ◌<◌, ◌++◌, ◌∷◌, false, slice_index, slice_set};
ghost use Rattle.std.specs.Prelude.{IfOk, OnOk, MatchBool, [], length, true};
ghost use Rattle.ps_core_machine.specs.Bounds.{AllLow, VmBounded, any_gc};
ghost use Rattle.ps_core_machine.specs.declared.events.Event.TheVariants.{CycleStore, EpochStore};
ghost use Rattle.ps_core_machine.specs.declared.events.Event.TheVariants.{HeaderStore};
ghost use Rattle.ps_core_machine.specs.Conditions as conditions;
ghost use Rattle.ps_core_machine.specs.Conditions.{VmMay, HasRoom, HasNumber};
ghost use Rattle.ps_core_machine.specs.Objects as objects;
ghost use Rattle.ps_core_machine.specs.Steps as steps;

use crate::values::{renamed_values, values_stand, word_stands};
use crate::written::{adjoins, fits, names_written, widened};
use ps_core_machine::events::{Event, Written};
use ps_core_machine::lists::{
    among, copy_logs, copy_objects, dictionary_stands, empty_logs, end_of_replicas, load,
    object_at, replicas, store, with_field,
};
use ps_core_machine::parts::{Log, Replica, StandingObject};
use ps_record::{HEADS_START, LOG_LIMIT, RING, Record, SLOTS, SPACES_START};
use ps_word::headers::{CYCLE_LIMIT, birth_in, fields_in, kind_in};
use std::alloc::{AllocError, Global};
use std::marker::Model;
use std::mem;

/// The mutator's part.
#[derive(Drop)]
pub struct Mutator {
    space: u64,
    cycle: u64,
    epoch: u64,
    heads: Vec<u64, Global>,
    logs: Vec<Log, Global>,
    written: Option<Written>,
    objects: Vec<StandingObject, Global>,
    fresh: Vec<u64, Global>,
    making: u64,
    end: u64,
    next_birth: u64,
    roots: Vec<u64, Global>,
    stored: bool,
}

impl Model for Mutator {
    ghost use Rattle.ps_core_machine.specs.declared.events.Vm.{Vm};

    ghost Value = { Vm };

    ghost view = { λ m. record {
      space = m.space;
      cycle = m.cycle;
      epoch = m.epoch;
      heads = m.heads.items;
      logs = m.logs.items;
      written = m.written;
      objects = m.objects.items;
      fresh = m.fresh.items;
      making = m.making;
      end = m.end;
      next_birth = m.next_birth;
      roots = m.roots.items;
      stored = m.stored;
    } };
}

impl Mutator {
    /// The part at the start, over spaces of so many words.
    pub fn start(alloc: Global, space: u64) -> Result<Mutator, AllocError>
        ensures { IfOk result (λ m. m ≡ (steps.start space).vm) }
    {
        Ok(Mutator {
            space,
            cycle: 0,
            epoch: 0,
            heads: Vec::from_elem(alloc, 0u64, SLOTS as usize)?,
            logs: empty_logs(alloc)?,
            written: None,
            objects: Vec::new(alloc),
            fresh: Vec::new(alloc),
            making: 0,
            end: SPACES_START,
            next_birth: 0,
            roots: Vec::new(alloc),
            stored: false,
        })
    }

    /// Whether a cycle is open.
    pub fn is_open(&self) -> bool
        ensures { result ≡ steps.is_open self.now }
    {
        self.epoch > 0 && self.epoch - 1 == self.cycle
    }

    fn log_closes(&self, slot: u64) -> u64
        ensures { result ≡ objects.closes (objects.log_of self.now.logs slot) }
    {
        if slot < self.logs.len() as u64 {
            self.logs[slot as usize].closes()
        } else {
            0
        }
    }

    fn log_length(&self, slot: u64) -> u64
        ensures { result ≡ length (objects.log_of self.now.logs slot) }
    {
        if slot < self.logs.len() as u64 {
            self.logs[slot as usize].len()
        } else {
            0
        }
    }

    /// Whether the slot's log is closed in the cycle that was opened last.
    fn is_closed(&self, slot: u64) -> bool
        ensures { Decides result (objects.closes (objects.log_of self.now.logs slot) ≡
            self.now.epoch) }
    {
        self.log_closes(slot) == self.epoch
    }

    /// Whether the slot's ring has room for one more record, by its head as it was last loaded.
    fn has_room(&self, slot: u64) -> bool
        ensures { Decides result (HasRoom self.now slot) }
    {
        let length = self.log_length(slot);
        length < RING || length - RING < load(self.heads.as_slice(), slot)
    }

    /// Whether the slot's log may get the record, by how many it has; a close it always may.
    fn has_number(&self, slot: u64, logged: Record) -> bool
        ensures { Decides result (HasNumber self.now slot logged) }
    {
        logged == Record::Close || self.log_length(slot) < LOG_LIMIT
    }

    fn all_closed(&self) -> bool
        ensures { Decides result (conditions.AllClosed self.now) }
    {
        for slot in 0..SLOTS {
            if !self.is_closed(slot) {
                return false;
            }
        }
        true
    }

    fn can_stand(&self, header: u64) -> bool
        ensures { Decides result (conditions.CanStand self.now header) }
    {
        let kind = kind_in(header);
        let count = fields_in(header);
        let birth = birth_in(header);
        let born = if kind == 11 {
            dictionary_stands(self.objects.as_slice(), birth)
        } else {
            birth == self.next_birth
        };
        6 <= kind && kind <= 11 && count < 1 << 16 && self.making == count + 1 && born
    }

    /// Whether the object is new.
    fn is_new(&self, address: u64) -> bool
        ensures { result ≡ objects.among self.now.fresh address }
    {
        among(self.fresh.as_slice(), address)
    }

    /// Whether the object has this field, and the word may be put there.
    fn has_field(&self, address: u64, field: u64, word: u64) -> bool
        ensures { Decides result (conditions.HasField self.now
            (objects.object_at self.now.objects address) field word) }
    {
        match object_at(self.objects.as_slice(), address) {
            None => false,
            Some(o) => field < o.len() && word_stands(self.objects.as_slice(), o.header(), word),
        }
    }

    /// Whether what is written and not logged stays one range of fields of one object.
    fn is_one_range(&self, address: u64, field: u64) -> bool
        ensures { Decides result (conditions.IsOneRange self.now address field) }
    {
        self.is_new(address) || !self.is_open() || adjoins(self.written, address, field)
    }

    fn can_store(&self, address: u64, field: u64, word: u64) -> bool
        ensures { Decides result (conditions.CanStoreField self.now address field word) }
    {
        self.has_field(address, field, word) && self.is_one_range(address, field)
    }

    fn can_log(&self, slot: u64, logged: Record) -> bool
        ensures { Decides result (conditions.CanLog self.now slot logged) }
    {
        slot < SLOTS
            && self.is_open()
            && !self.is_closed(slot)
            && self.has_room(slot)
            && self.has_number(slot, logged)
            && fits(logged)
            && names_written(self.written, logged)
    }

    /// Whether one more word of the object being made is in the current space.
    fn can_clear(&self) -> bool
        requires { VmBounded self.now }
        ensures { Decides result (conditions.CanClear self.now) }
    {
        self.end + 1 + self.making < SPACES_START + (self.cycle % 2) * self.space + self.space
    }

    /// Whether a cycle may be opened: none is open, there are cycles left, and nothing is written.
    fn can_open(&self) -> bool
        ensures { Decides result (VmMay self.now EpochStore) }
    {
        self.epoch == self.cycle && self.epoch < CYCLE_LIMIT - 1 && self.written.is_none()
    }

    /// Whether the open cycle may be flipped: all logs are closed in it, and nothing is written.
    fn can_flip(&self) -> bool
        ensures { Decides result (VmMay self.now (CycleStore [])) }
    {
        self.is_open() && self.all_closed() && self.written.is_none()
    }

    /// Whether the condition on this part holds; events of the other seat alone have none.
    pub fn may(&self, event: &Event) -> bool
        requires { VmBounded self.now }
        ensures { Decides result (VmMay self.now event.now) }
    {
        match event {
            Event::VmLoad { place, .. } => *place < SPACES_START + 2 * self.space,
            Event::HandOver { roots, .. } => values_stand(
                self.objects.as_slice(),
                roots.words.as_slice(),
            ),
            Event::ClearLoad | Event::ClearStore => self.can_clear(),
            Event::HeaderStore { header } => self.can_stand(*header),
            Event::FieldStore {
                address,
                field,
                word,
            } => self.can_store(*address, *field, *word),
            Event::RecordStore { slot, record } => self.can_log(*slot, *record),
            Event::EpochStore => self.can_open(),
            Event::CycleStore { .. } => self.can_flip(),
            _ => true,
        }
    }

    /// The same part once more; memory may be short.
    pub fn copy(&self) -> Result<Mutator, AllocError>
        ensures { IfOk result (λ m. m ≡ self.now) }
    {
        let alloc = *self.heads.allocator();
        Ok(Mutator {
            space: self.space,
            cycle: self.cycle,
            epoch: self.epoch,
            heads: self.heads.clone()?,
            logs: copy_logs(alloc, self.logs.as_slice())?,
            written: self.written,
            objects: copy_objects(alloc, self.objects.as_slice())?,
            fresh: self.fresh.clone()?,
            making: self.making,
            end: self.end,
            next_birth: self.next_birth,
            roots: self.roots.clone()?,
            stored: self.stored,
        })
    }

    /// The logs by slot, as far as this part knows them.
    pub fn logs(&self) -> &[Log]
        ensures { result.now ≡ self.now.logs }
    {
        self.logs.as_slice()
    }

    /// The number of flips.
    pub fn cycle(&self) -> u64
        ensures { result ≡ self.now.cycle }
    {
        self.cycle
    }

    /// The number of cycles that were opened.
    pub fn epoch(&self) -> u64
        ensures { result ≡ self.now.epoch }
    {
        self.epoch
    }

    /// The index of the next word of the object being made.
    pub fn next_clear(&self) -> u64
        requires { VmBounded self.now }
        ensures { result ≡ steps.next_word self.now }
    {
        self.end + 1 + self.making
    }

    /// Where the current space is no longer in use.
    pub fn end(&self) -> u64
        ensures { result ≡ self.now.end }
    {
        self.end
    }

    /// How many records the slot's log has.
    pub fn length_of(&self, slot: u64) -> u64
        ensures { result ≡ length (objects.log_of self.now.logs slot) }
    {
        self.log_length(slot)
    }

    /// After a load.
    pub fn load(&mut self, place: u64, word: u64)
        ensures { self.new
            ≡ record self.old { heads = steps.heads_after self.old.heads place word } }
    {
        if HEADS_START <= place && place < HEADS_START + SLOTS {
            store(&mut self.heads, place - HEADS_START, word);
        }
    }

    /// After roots were handed over.
    pub fn hand_over(&mut self)
        ensures { self.new ≡ record self.old { fresh = [] } }
    {
        self.fresh.clear();
    }

    /// After a word of the object being made was cleared, or found clear.
    pub fn clear(&mut self)
        requires { VmBounded self.old }
        ensures { self.new ≡ record self.old { making = self.old.making + 1 } }
    {
        self.making += 1;
    }

    /// After a header store.
    pub fn stand(&mut self, header: u64) -> Result<(), AllocError>
        requires { VmBounded self.old }
        ensures { OnOk result (self.new ≡ steps.vm_after self.old any_gc (HeaderStore header)) }
    {
        let alloc = *self.heads.allocator();
        self.objects
            .insert(0, StandingObject::new(alloc, self.end, header)?)?;
        self.fresh.insert(0, self.end)?;
        self.making = 0;
        self.end = self.end + 2 + fields_in(header);
        if kind_in(header) != 11 {
            self.next_birth += 1;
        }
        self.stored = true;
        Ok(())
    }

    /// After a store to a field of a standing object.
    pub fn store_field(&mut self, address: u64, field: u64, word: u64) -> Result<(), AllocError>
        requires bounded { VmBounded self.old }
        requires small { field < 2 ^ 20 }
        ensures { OnOk result (self.new ≡ steps.field_stored self.old address field word) }
    {
        let alloc = *self.heads.allocator();
        let objects = mem::replace(&mut self.objects, Vec::new(alloc));
        self.objects = with_field(alloc, objects, address, field, word)?;
        self.stored = true;
        if !self.is_new(address) {
            self.fresh.clear();
            if self.is_open() {
                self.written = Some(widened(self.written, address, field));
            }
        }
        Ok(())
    }

    /// After a record store.
    pub fn log(&mut self, slot: u64, logged: Record) -> Result<(), AllocError>
        requires { slot < length self.old.logs }
        ensures { OnOk result (self.new ≡ record self.old {
          fresh = [];
          logs = slice_set self.old.logs slot
              (objects.log_of self.old.logs slot ++ logged ∷ []);
          written =
              steps.unlogged_after self.old.written logged;
        }) }
    {
        self.logs[slot as usize].push(logged)?;
        self.fresh.clear();
        if let Record::Place { .. } = logged {
            self.written = None;
        }
        Ok(())
    }

    /// After an epoch store.
    pub fn open(&mut self)
        requires { VmBounded self.old }
        ensures { self.new ≡ record self.old
            { epoch = self.old.epoch + 1; fresh = []; stored = false } }
    {
        self.epoch += 1;
        self.fresh.clear();
        self.stored = false;
    }

    /// After a cycle store.
    pub fn flip(&mut self, pairs: Vec<Replica, Global>, roots: &[u64]) -> Result<(), AllocError>
        requires bounded { VmBounded self.old }
        requires low { AllLow pairs.items }
        requires end { objects.end_of_replicas (steps.other_base self.old.space self.old.cycle)
            pairs.items < 2 ^ 64 }
        ensures { OnOk result (self.new ≡ steps.vm_after self.old
            (record any_gc { pairs = pairs.items }) (CycleStore roots.now)) }
    {
        let alloc = *self.heads.allocator();
        self.roots = renamed_values(alloc, pairs.as_slice(), roots)?;
        self.end = end_of_replicas(
            SPACES_START + ((self.cycle + 1) % 2) * self.space,
            pairs.as_slice(),
        );
        self.objects = replicas(alloc, pairs)?;
        self.cycle += 1;
        self.fresh.clear();
        self.making = 0;
        Ok(())
    }
}
