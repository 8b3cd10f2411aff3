//! The collector's part of a state, when it may make an event, and what the event makes of it.
//!
//! Its functions speak of any part whose numbers are bounded; that it is the part of a run is kept
//! by `Core`.
#![tactic(auto)]

ghost use Rattle.std.specs.Bool.{Decides};
ghost use Rattle.std.specs.Prelude.{◌≡◌, ◌<◌, ◌++◌, if◌then◌else◌, ◌^◌, IfOk, OnOk, MatchOption};
ghost use Rattle.std.specs.Prelude.{None, [], length};
ghost use Rattle.std.specs.Option.{option_map};
ghost use Rattle.ps_core_machine.specs.Bounds.{GcBounded, IsSlot, any_vm, target_of};
ghost use Rattle.ps_core_machine.specs.declared.events.Event.TheVariants.{GcLoad, TakeLoad, CopyLoad};
ghost use Rattle.ps_core_machine.specs.declared.events.Event.TheVariants.{ReplicaHeaderStore};
ghost use Rattle.ps_core_machine.specs.declared.events.Event.TheVariants.{ReplicaFieldStore};
ghost use Rattle.ps_core_machine.specs.declared.events.Event.TheVariants.{ForwardStore, HeadStore};
ghost use Rattle.ps_core_machine.specs.declared.events.Event.TheVariants.{CycleStore};
ghost use Rattle.ps_core_machine.specs.Conditions as conditions;
ghost use Rattle.ps_core_machine.specs.Conditions.{GcMay};
ghost use Rattle.ps_core_machine.specs.Objects as objects;
ghost use Rattle.ps_core_machine.specs.Steps as steps;
ghost use Rattle.ps_core_machine.specs.Steps.{gc_after};

use crate::pairs::{copied, header_of, is_seen, leads_back, replica_of};
use crate::taking::{is_spent, lacks_replica, taken_up, with_load};
use crate::values::{
    address_in, addresses_named, holds_values, is_reference, renamed, values_have_replicas,
    word_has_replica,
};
use ps_core_machine::events::{Carried, Event, Half, Seen, Target};
use ps_core_machine::lists::{
    all_filled, among, copy_logs, copy_pairs, empty_logs, is_in_replica, pair_of, seen_at,
    with_front,
};
use ps_core_machine::parts::{Log, Replica};
use ps_record::{SLOTS, SPACES_START};
use ps_word::headers::fields_in;
use std::alloc::{AllocError, Global};
use std::marker::Model;
use std::mem;

/// The collector's part.
#[derive(Drop)]
pub struct CollectorPart {
    space: u64,
    cycle: u64,
    epoch: u64,
    taken: Vec<Log, Global>,
    taking: Option<Half>,
    copying: Option<Carried>,
    pairs: Vec<Replica, Global>,
    headers: Vec<Seen, Global>,
    placed: Vec<Seen, Global>,
    known: Vec<u64, Global>,
    handed: Vec<u64, Global>,
}

impl Model for CollectorPart {
    ghost use Rattle.ps_core_machine.specs.declared.events.Gc.{Gc};

    ghost Value = { Gc };

    ghost view = { λ m. record {
      space = m.space;
      cycle = m.cycle;
      epoch = m.epoch;
      taken = m.taken.items;
      taking = m.taking;
      copying = m.copying;
      pairs = m.pairs.items;
      headers = m.headers.items;
      placed = m.placed.items;
      known = m.known.items;
      handed = m.handed.items;
    } };
}

impl CollectorPart {
    /// The part at the start, over spaces of so many words.
    pub fn start(alloc: Global, space: u64) -> Result<CollectorPart, AllocError>
        ensures { IfOk result (λ m. m ≡ (steps.start space).gc) }
    {
        Ok(CollectorPart {
            space,
            cycle: 0,
            epoch: 0,
            taken: empty_logs(alloc)?,
            taking: None,
            copying: None,
            pairs: Vec::new(alloc),
            headers: Vec::new(alloc),
            placed: Vec::new(alloc),
            known: Vec::new(alloc),
            handed: Vec::new(alloc),
        })
    }

    fn is_done(&self) -> bool
        ensures { result ≡ objects.is_done self.now.pairs self.now.copying self.now.taking }
    {
        match self.taking {
            None => false,
            Some(h) => is_spent(h, self.copying) || lacks_replica(self.pairs.as_slice(), h.what),
        }
    }

    fn can_store(&self) -> bool
        ensures { Decides result (conditions.CanStore self.now self.now.copying) }
    {
        match self.copying {
            None => false,
            Some(k) => word_has_replica(
                self.pairs.as_slice(),
                header_of(pair_of(self.pairs.as_slice(), k.address)),
                k.word,
            ),
        }
    }

    fn is_pair_field(&self, address: u64, field: u64) -> bool
        ensures { Decides result (conditions.IsPairField self.now address field) }
    {
        match pair_of(self.pairs.as_slice(), address) {
            None => false,
            Some(p) => field < p.len(),
        }
    }

    fn other_base(&self) -> u64
        requires { GcBounded self.now }
        ensures { result ≡ steps.other_base self.now.space self.now.cycle }
    {
        SPACES_START + ((self.cycle + 1) % 2) * self.space
    }

    fn knows_open(&self) -> bool
        ensures { result ≡ steps.knows_open self.now }
    {
        self.epoch > 0 && self.epoch - 1 == self.cycle
    }

    /// Where the replica that was made last ends, so that the next one lies there.
    fn next_replica(&self) -> u64
        requires { GcBounded self.now }
        ensures { result ≡ objects.end_of_replicas (steps.other_base self.now.space self.now.cycle)
            self.now.pairs }
    {
        match self.pairs.first() {
            None => self.other_base(),
            Some(p) => p.end(),
        }
    }

    fn is_ready(&self, original: u64, replica: u64, header: u64) -> bool
        requires { GcBounded self.now }
        ensures { Decides result (conditions.IsReady self.now original replica header) }
    {
        let low = self.other_base();
        let high = low + self.space;
        let count = fields_in(header);
        if replica != self.next_replica() {
            return false;
        }
        if replica > high || high - replica < count + 2 {
            return false;
        }
        let first = is_seen(self.placed.as_slice(), replica, header);
        let second = leads_back(self.placed.as_slice(), replica + 1, self.epoch, original);
        first && second
    }

    /// Whether the object has no replica yet.
    fn is_single(&self, original: u64) -> bool
        ensures { Decides result (objects.pair_of self.now.pairs original ≡ None) }
    {
        pair_of(self.pairs.as_slice(), original).is_none()
    }

    /// Whether the object's first header was loaded, and a replica of it may stand there.
    fn is_headed(&self, original: u64, replica: u64) -> bool
        requires { GcBounded self.now }
        ensures { Decides result (MatchOption (objects.seen_at self.now.headers original) ⊥
            (conditions.IsReady self.now original replica)) }
    {
        match seen_at(self.headers.as_slice(), original) {
            None => false,
            Some(header) => self.is_ready(original, replica, header),
        }
    }

    fn can_forward(&self, original: u64, replica: u64) -> bool
        requires { GcBounded self.now }
        ensures { Decides result (conditions.CanForward self.now original replica) }
    {
        self.knows_open()
            && self.is_single(original)
            && among(self.known.as_slice(), original)
            && self.is_headed(original, replica)
    }

    /// Whether the word at the place is free for a header of a replica to be.
    fn can_place(&self, place: u64) -> bool
        requires { GcBounded self.now }
        ensures { Decides result (GcMay self.now (ReplicaHeaderStore place 0)) }
    {
        let low = self.other_base();
        low <= place && place < low + self.space && !is_in_replica(self.pairs.as_slice(), place)
    }

    /// Whether each of the roots that a flip carries has a replica.
    fn carries(&self, roots: &[u64]) -> bool
        ensures { result ≡ objects.values_have_replicas self.now.pairs roots.now }
    {
        values_have_replicas(self.pairs.as_slice(), roots)
    }

    /// Whether the replicas may become the standing objects.
    fn can_flip(&self, roots: &[u64]) -> bool
        ensures { Decides result (GcMay self.now (CycleStore roots.now)) }
    {
        self.taking.is_none()
            && self.copying.is_none()
            && all_filled(self.pairs.as_slice())
            && self.carries(roots)
    }

    /// Whether the condition on this part holds; events of the other seat alone have none.
    pub fn may(&self, event: &Event) -> bool
        requires { GcBounded self.now }
        ensures { Decides result (GcMay self.now event.now) }
    {
        match event {
            Event::GcLoad { place, .. } => *place < SPACES_START + 2 * self.space,
            Event::TakeLoad { slot, .. } => *slot < SLOTS && self.taking.is_none(),
            Event::CopyLoad { address, field, .. } => self.copying.is_none()
                && self.is_pair_field(*address, *field),
            Event::ReplicaHeaderStore { place, .. } => self.can_place(*place),
            Event::ReplicaFieldStore { .. } => self.can_store(),
            Event::ForwardStore { original, replica } => self.can_forward(*original, *replica),
            Event::HeadStore => self.is_done(),
            Event::CycleStore { roots } => self.can_flip(roots.words.as_slice()),
            _ => true,
        }
    }

    /// The same part once more; memory may be short.
    pub fn copy(&self) -> Result<CollectorPart, AllocError>
        ensures { IfOk result (λ m. m ≡ self.now) }
    {
        let alloc = *self.known.allocator();
        Ok(CollectorPart {
            space: self.space,
            cycle: self.cycle,
            epoch: self.epoch,
            taken: copy_logs(alloc, self.taken.as_slice())?,
            taking: self.taking,
            copying: self.copying,
            pairs: copy_pairs(alloc, self.pairs.as_slice())?,
            headers: self.headers.clone()?,
            placed: self.placed.clone()?,
            known: self.known.clone()?,
            handed: self.handed.clone()?,
        })
    }

    /// The logs by slot, as far as this part knows them.
    pub fn taken(&self) -> &[Log]
        ensures { result.now ≡ self.now.taken }
    {
        self.taken.as_slice()
    }

    /// The number of flips.
    pub fn cycle(&self) -> u64
        ensures { result ≡ self.now.cycle }
    {
        self.cycle
    }

    /// The epoch as it was last loaded.
    pub fn epoch(&self) -> u64
        ensures { result ≡ self.now.epoch }
    {
        self.epoch
    }

    /// How many records of the slot were taken.
    pub fn length_of(&self, slot: u64) -> u64
        ensures value { result ≡ length (objects.log_of self.now.taken slot) }
        ensures small { result < 2 ^ 63 }
    {
        if slot < self.taken.len() as u64 {
            self.taken[slot as usize].len()
        } else {
            0
        }
    }

    /// The slot of the record being taken.
    pub fn taking_slot(&self) -> Option<u64>
        ensures { result ≡ option_map (λ h. h.slot) self.now.taking }
    {
        match self.taking {
            None => None,
            Some(h) => Some(h.slot),
        }
    }

    /// Where the word being copied is put, and the word.
    pub fn copy_target(&self) -> Option<Target>
        requires { GcBounded self.now }
        ensures { result ≡ option_map (target_of self.now) self.now.copying }
    {
        let k = self.copying?;
        let pair = pair_of(self.pairs.as_slice(), k.address);
        let word = renamed(self.pairs.as_slice(), header_of(pair), k.word);
        Some(Target {
            replica: replica_of(pair),
            field: k.field,
            word,
        })
    }

    /// After a load to look.
    pub fn look(&mut self, place: u64, word: u64) -> Result<(), AllocError>
        ensures { OnOk result (self.new ≡ gc_after self.old any_vm (GcLoad place word)) }
    {
        if place == 1 {
            self.epoch = word;
        }
        if among(self.known.as_slice(), place) {
            self.headers.insert(0, Seen { place, word })?;
        }
        Ok(())
    }

    /// After a load of the ring place of the slot's next record.
    pub fn take_up(&mut self, slot: u64, word: u64)
        ensures { self.new ≡ gc_after self.old any_vm (TakeLoad slot word) }
    {
        self.taking = taken_up(slot, self.length_of(slot), word);
    }

    /// After a load of a field of an original.
    pub fn copy_from(&mut self, address: u64, field: u64, word: u64) -> Result<(), AllocError>
        ensures { OnOk result (self.new ≡ gc_after self.old any_vm
            (CopyLoad address field word)) }
    {
        self.taking = with_load(self.taking, address, field);
        self.copying = Some(Carried {
            address,
            field,
            word,
        });
        if holds_values(header_of(pair_of(self.pairs.as_slice(), address))) && is_reference(word) {
            self.known.insert(0, address_in(word))?;
        }
        Ok(())
    }

    /// After roots were handed over.
    pub fn hand_over(&mut self, epoch: u64, opened: bool, roots: &[u64]) -> Result<(), AllocError>
        ensures { OnOk result (self.new ≡ record self.old {
          epoch = epoch;
          known = (if opened then objects.addresses_named roots.now else [])
              ++ self.old.known;
          handed = (if opened then roots.now else []) ++ self.old.handed;
        }) }
    {
        let alloc = *self.known.allocator();
        self.epoch = epoch;
        if opened {
            self.known = with_front(addresses_named(alloc, roots)?, self.known.as_slice())?;
            self.handed = with_front(Vec::from_slice(alloc, roots)?, self.handed.as_slice())?;
        }
        Ok(())
    }

    /// After a store of a header of a replica to be.
    pub fn place(&mut self, place: u64, word: u64) -> Result<(), AllocError>
        ensures { OnOk result (self.new ≡ gc_after self.old any_vm
            (ReplicaHeaderStore place word)) }
    {
        self.placed.insert(0, Seen { place, word })?;
        Ok(())
    }

    /// After the store of the word being copied.
    pub fn store_copy(&mut self, scans: bool) -> Result<(), AllocError>
        requires { GcBounded self.old }
        ensures { OnOk result (self.new ≡ gc_after self.old any_vm (ReplicaFieldStore scans)) }
    {
        match self.copying {
            None => Ok(()),
            Some(k) => {
                let alloc = *self.known.allocator();
                let pairs = mem::replace(&mut self.pairs, Vec::new(alloc));
                self.pairs = copied(alloc, pairs, k, scans)?;
                self.copying = None;
                Ok(())
            }
        }
    }

    /// After a forwarding store.
    pub fn forward(&mut self, original: u64, replica: u64) -> Result<(), AllocError>
        ensures { OnOk result (self.new ≡ gc_after self.old any_vm
            (ForwardStore original replica)) }
    {
        let alloc = *self.known.allocator();
        let header = seen_at(self.headers.as_slice(), original).unwrap_or(0);
        self.pairs
            .insert(0, Replica::new(alloc, original, replica, header)?)?;
        Ok(())
    }

    /// After a head store.
    pub fn take(&mut self) -> Result<(), AllocError>
        requires { IsSlot self.old }
        ensures { OnOk result (self.new ≡ gc_after self.old any_vm HeadStore) }
    {
        if let Some(h) = self.taking {
            self.taken[h.slot as usize].push(h.what)?;
        }
        self.taking = None;
        Ok(())
    }

    /// After a cycle store; what is given back are the pairs.
    pub fn flip(&mut self, epoch: u64) -> Vec<Replica, Global>
        requires { GcBounded self.old }
        ensures pairs { result.items ≡ self.old.pairs }
        ensures flipped { self.new ≡ gc_after self.old (record any_vm { epoch = epoch })
            (CycleStore []) }
    {
        let alloc = *self.known.allocator();
        self.cycle += 1;
        self.epoch = epoch;
        self.headers.clear();
        self.placed.clear();
        self.known.clear();
        self.handed.clear();
        mem::replace(&mut self.pairs, Vec::new(alloc))
    }
}
