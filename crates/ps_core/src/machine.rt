//! The state as a plain value: whether an event may happen, and what it makes of the state.
//!
//! Its functions keep no invariant: each says what it makes of any state whose numbers are bounded,
//! as those of every run are.
#![tactic(auto)]

ghost use Rattle.std.specs.Bool.{Decides};
ghost use Rattle.std.specs.Prelude.{◌≡◌, ◌+◌, ◌<◌, ◌^◌, IfOk, OnOk, MatchBool, length, slice_index};
ghost use Rattle.ps_core_machine.specs.Bounds.{Bounded, CanStep, IsSlot};
ghost use Rattle.ps_core_machine.specs.Conditions as conditions;
ghost use Rattle.ps_core_machine.specs.Conditions.{Permitted, BothMay};
ghost use Rattle.ps_core_machine.specs.declared.events.Event.TheVariants.{TakeLoad, HandOver};
ghost use Rattle.ps_core_machine.specs.declared.events.Event.TheVariants.{ClearLoad, ClearStore};
ghost use Rattle.ps_core_machine.specs.declared.events.Event.TheVariants.{HeaderStore, FieldStore};
ghost use Rattle.ps_core_machine.specs.declared.events.Event.TheVariants.{RecordStore, EpochStore};
ghost use Rattle.ps_core_machine.specs.declared.events.Event.TheVariants.{ReplicaHeaderStore};
ghost use Rattle.ps_core_machine.specs.declared.events.Event.TheVariants.{ReplicaFieldStore};
ghost use Rattle.ps_core_machine.specs.declared.events.Event.TheVariants.{ForwardStore, HeadStore};
ghost use Rattle.ps_core_machine.specs.declared.events.Event.TheVariants.{CycleStore};
ghost use Rattle.ps_core_machine.specs.Objects as objects;
ghost use Rattle.ps_core_machine.specs.Steps as steps;
ghost use Rattle.ps_record.specs.Format as layout;
ghost use Rattle.ps_core_machine.specs.Steps.{State, happens};

use crate::collector::CollectorPart;
use crate::mutator::Mutator;
use ps_core_machine::events::{Event, Roots};
use ps_core_machine::lists::{load, load_field, same_logs, store, store_field};
use ps_record::slots::Slot;
use ps_record::{Record, SPACES_START, head_place, ring_place};
use std::alloc::{AllocError, Global};
use std::marker::Model;

/// A state of the machine.
#[derive(Drop)]
pub struct Machine {
    words: Vec<u64, Global>,
    vm: Mutator,
    gc: CollectorPart,
}

impl Model for Machine {
    ghost use Rattle.ps_core_machine.specs.Steps.{State};

    ghost Value = { State };

    ghost view = { λ m. record { words = m.words.items; vm = m.vm; gc = m.gc } };
}

impl Machine {
    /// Two empty spaces of so many words each.
    pub fn start(alloc: Global, space: u64) -> Result<Machine, AllocError>
        requires { space < 2 ^ 32 }
        ensures { IfOk result (λ m. m ≡ steps.start space) }
    {
        Ok(Machine {
            words: Vec::from_elem(alloc, 0u64, (SPACES_START + 2 * space) as usize)?,
            vm: Mutator::start(alloc, space)?,
            gc: CollectorPart::start(alloc, space)?,
        })
    }

    /// The same state once more; memory may be short.
    pub fn copy(&self) -> Result<Machine, AllocError>
        ensures { IfOk result (λ m. m ≡ self.now) }
    {
        Ok(Machine {
            words: self.words.clone()?,
            vm: self.vm.copy()?,
            gc: self.gc.copy()?,
        })
    }

    /// The word of the table at an index, and zero past its end.
    pub fn word(&self, index: u64) -> u64
        ensures { result ≡ slice_index self.now.words index }
    {
        load(self.words.as_slice(), index)
    }

    fn finds_field(&self, address: u64, field: u64, word: u64) -> bool
        ensures { Decides result (slice_index self.now.words (address + 2 + field) ≡ word) }
    {
        load_field(self.words.as_slice(), address, field) == word
    }

    fn finds_record(&self, slot: Slot, word: u64) -> bool
        ensures { Decides result (BothMay self.now.words self.now.vm self.now.gc
            (TakeLoad slot word)) }
    {
        self.word(ring_place(slot, self.gc.length_of(slot.index() as u64))) == word
    }

    fn finds_clear(&self) -> bool
        requires { Bounded self.now }
        ensures { Decides result (slice_index self.now.words (steps.next_word self.now.vm) ≡ 0) }
    {
        self.word(self.vm.next_clear()) == 0
    }

    fn are_drained(&self) -> bool
        ensures { Decides result (self.now.gc.taken ≡ self.now.vm.logs) }
    {
        same_logs(self.gc.taken(), self.vm.logs())
    }

    /// Whether the word that a load finds is the one that it carries, or zero where it carries
    /// none, and whether a flip finds all logs drained.
    fn both(&self, event: &Event) -> bool
        requires bounded { Bounded self.now }
        requires may { conditions.GcMay self.now.gc event.now }
        ensures { Decides result (BothMay self.now.words self.now.vm self.now.gc event.now) }
    {
        match event {
            Event::VmLoad { place, word } => self.word(*place) == *word,
            Event::GcLoad { place, word } => self.word(*place) == *word,
            Event::TakeLoad { slot, word } => self.finds_record(Slot::numbered(*slot), *word),
            Event::CopyLoad {
                address,
                field,
                word,
            } => self.finds_field(*address, *field, *word),
            Event::HandOver { word, .. } => self.word(0) == *word,
            Event::ClearLoad => self.finds_clear(),
            Event::CycleStore { .. } => self.are_drained(),
            _ => true,
        }
    }

    /// Whether the event may happen now.
    pub fn permits(&self, event: &Event) -> bool
        requires { Bounded self.now }
        ensures { Decides result (Permitted self.now event.now) }
    {
        self.vm.may(event) && self.gc.may(event) && self.both(event)
    }

    fn hand_over(&mut self, word: u64, roots: &Roots) -> Result<(), AllocError>
        ensures { OnOk result (self.new ≡ happens self.old (HandOver word roots.now)) }
    {
        let opened = self.vm.is_open();
        self.gc
            .hand_over(self.vm.epoch(), opened, roots.words.as_slice())?;
        self.vm.hand_over();
        Ok(())
    }

    fn find_clear(&mut self)
        requires { Bounded self.old }
        ensures { self.new ≡ happens self.old ClearLoad }
    {
        self.vm.clear();
    }

    fn clear(&mut self)
        requires { Bounded self.old }
        ensures { self.new ≡ happens self.old ClearStore }
    {
        store(&mut self.words, self.vm.next_clear(), 0);
        self.vm.clear();
    }

    fn stand(&mut self, header: u64) -> Result<(), AllocError>
        requires { Bounded self.old }
        ensures { OnOk result (self.new ≡ happens self.old (HeaderStore header)) }
    {
        store(&mut self.words, self.vm.end(), header);
        self.vm.stand(header)
    }

    fn store_field(&mut self, address: u64, field: u64, word: u64) -> Result<(), AllocError>
        requires bounded { Bounded self.old }
        requires small { field < 2 ^ 20 }
        ensures { OnOk result (self.new ≡ happens self.old (FieldStore address field word)) }
    {
        store_field(&mut self.words, address, field, word);
        self.vm.store_field(address, field, word)
    }

    fn log(&mut self, slot: Slot, logged: Record) -> Result<(), AllocError>
        requires logs { slot < length self.old.vm.logs }
        requires fits { layout.IsRecord logged }
        ensures { OnOk result (self.new ≡ happens self.old (RecordStore slot logged)) }
    {
        let place = slot.index() as u64;
        let number = self.vm.length_of(place);
        store(
            &mut self.words,
            ring_place(slot, number),
            logged.pack(number).0,
        );
        self.vm.log(place, logged)
    }

    fn open(&mut self)
        requires { Bounded self.old }
        ensures { self.new ≡ happens self.old EpochStore }
    {
        store(&mut self.words, 1, self.vm.epoch() + 1);
        self.vm.open();
    }

    fn place(&mut self, place: u64, word: u64) -> Result<(), AllocError>
        ensures { OnOk result (self.new ≡ happens self.old (ReplicaHeaderStore place word)) }
    {
        store(&mut self.words, place, word);
        self.gc.place(place, word)
    }

    fn store_copy(&mut self, scans: bool) -> Result<(), AllocError>
        requires { Bounded self.old }
        ensures { OnOk result (self.new ≡ happens self.old (ReplicaFieldStore scans)) }
    {
        if let Some(target) = self.gc.copy_target() {
            store_field(&mut self.words, target.replica, target.field, target.word);
        }
        self.gc.store_copy(scans)
    }

    #[tactic(auto, unfolding(ps_word::specs::Headers::forward_packed))]
    fn forward(&mut self, original: u64, replica: u64) -> Result<(), AllocError>
        requires bounded { Bounded self.old }
        requires original { original < 2 ^ 32 }
        requires replica { replica < 2 ^ 32 }
        ensures { OnOk result (self.new ≡ happens self.old (ForwardStore original replica)) }
    {
        store(
            &mut self.words,
            original + 1,
            self.gc.epoch() * (1 << 24) + replica,
        );
        self.gc.forward(original, replica)
    }

    /// The slot's head once the record being taken is taken.
    fn next_head(&self, slot: u64) -> u64
        ensures { result ≡ length (objects.log_of self.now.gc.taken slot) + 1 }
    {
        self.gc.length_of(slot) + 1
    }

    fn take(&mut self) -> Result<(), AllocError>
        requires { IsSlot self.old.gc }
        ensures { OnOk result (self.new ≡ happens self.old HeadStore) }
    {
        if let Some(slot) = self.gc.taking_slot() {
            let head = self.next_head(slot);
            store(&mut self.words, head_place(Slot::numbered(slot)), head);
        }
        self.gc.take()
    }

    fn flip(&mut self, roots: &Roots) -> Result<(), AllocError>
        requires bounded { Bounded self.old }
        requires end { objects.end_of_replicas
            (steps.other_base self.old.vm.space self.old.vm.cycle) self.old.gc.pairs < 2 ^ 64 }
        ensures { OnOk result (self.new ≡ happens self.old (CycleStore roots.now)) }
    {
        store(&mut self.words, 0, self.gc.cycle() + 1);
        let pairs = self.gc.flip(self.vm.epoch());
        self.vm.flip(pairs, roots.words.as_slice())
    }

    /// Makes the event. At `Err` the state may be broken, and is to be dropped.
    pub fn step(&mut self, event: &Event) -> Result<(), AllocError>
        requires bounded { Bounded self.old }
        requires may { Permitted self.old event.now }
        requires can { CanStep self.old event.now }
        ensures { OnOk result (self.new ≡ happens self.old event.now) }
    {
        match event {
            Event::VmLoad { place, word } => {
                self.vm.load(*place, *word);
                Ok(())
            }
            Event::GcLoad { place, word } => self.gc.look(*place, *word),
            Event::TakeLoad { slot, word } => {
                self.gc.take_up(*slot, *word);
                Ok(())
            }
            Event::CopyLoad {
                address,
                field,
                word,
            } => self.gc.copy_from(*address, *field, *word),
            Event::HandOver { word, roots } => self.hand_over(*word, roots),
            Event::ClearLoad => {
                self.find_clear();
                Ok(())
            }
            Event::ClearStore => {
                self.clear();
                Ok(())
            }
            Event::HeaderStore { header } => self.stand(*header),
            Event::FieldStore {
                address,
                field,
                word,
            } => self.store_field(*address, *field, *word),
            Event::RecordStore { slot, record } => self.log(Slot::numbered(*slot), *record),
            Event::EpochStore => {
                self.open();
                Ok(())
            }
            Event::ReplicaHeaderStore { place, word } => self.place(*place, *word),
            Event::ReplicaFieldStore { scans } => self.store_copy(*scans),
            Event::ForwardStore { original, replica } => self.forward(*original, *replica),
            Event::HeadStore => self.take(),
            Event::CycleStore { roots } => self.flip(roots),
        }
    }
}
