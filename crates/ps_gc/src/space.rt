//! Both sides in one value: a memory that its collector copies while it is used.
//!
//! One seat has both, at words of any kind. The numbers of the mutator's side are its part's
//! (`Sits`), and the slot that is drained next is one.
ghost use Rattle.std.specs.Prelude.{◌≡◌, ◌<◌, ◌+◌, ◌-◌, ◌^◌, ℕ, min, true, false, IfOk, refl};
ghost use Rattle.ps_mem.specs.Heap.{empty_heap};
ghost use Rattle.ps_mem.specs.Bounded.{bounded_space};
ghost use Rattle.ps_core_machine.specs.Objects.{all_filled};
ghost use Rattle.ps_core_machine.specs.Steps.{is_open, knows_open};
ghost use Rattle.ps_core_laws.specs.Runs.{IsSpace};
ghost use Rattle.ps_core_laws.specs.Memory.{heap_of, grants_of};
ghost use Rattle.ps_table.specs.Mirrored.{KeepsVm, Sits};
ghost use Rattle.ps_table.proofs.Addressed.{addressed};
ghost use Rattle.ps_gc.specs.Keeps.{taken_in_all};

use crate::collector::{ACTIONS_A_LOOK, Collector, Drained};
use ps_core_laws::Closing;
use ps_core_laws::collected::{CollectedMemory, Counts};
use ps_core_laws::sides::LoggedMemory;
use ps_language::kinds::Kind;
use ps_mem::{FieldAt, Memory, NeedFault, Permit};
use ps_record::SLOTS;
use ps_record::slots::Slot;
use ps_table::{GcSeat, Mirror, PlainWords, SharedWords, Words};
use ps_word::headers::Header;
use ps_word::words::Word;
use std::alloc::{AllocError, Global};

/// A memory with its collector, at words of any kind.
#[derive(Drop)]
pub struct CollectedSpace<W: Words> {
    /// Its seat has both sides.
    pub(crate) collector: Collector<W>,
    /// The numbers of the mutator's side.
    pub(crate) mirror: Mirror,
    /// The slot whose log is looked at next.
    slot: Slot,
    /// How many looks in a row found nothing.
    idle: u32,
    ghost sits: { Sits (W.id collector.gc.table).words collector.gc.seat.me mirror },
}

/// Over shared words, each step an atomic one.
pub type SharedSpaces = CollectedSpace<SharedWords>;

/// Over words of its own, each step a plain one.
pub type SerialSpaces = CollectedSpace<PlainWords>;

impl<W: Words> CollectedSpace<W> {
    /// Two spaces of so many words each, 4096 to 1048576, in which nothing stands; no cycle is
    /// open. `AllocError`: the allocator refused. No other call takes memory.
    pub fn new(alloc: Global, space: u32) -> Result<CollectedSpace<W>, AllocError>
        requires size { IsSpace space }
        ensures heap { IfOk result (λ s. heap_of s.collector.gc.seat.me.0.vm
            ≡ empty_heap (bounded_space space)) }
        ensures closed { IfOk result
            (λ s. (grants_of s.collector.gc.seat.me.0.vm).cycle_open ≡ false) }
    {
        let (gc, mirror) = GcSeat::<W>::both_sides(alloc, space)?;
        Ok(CollectedSpace {
            collector: Collector::new(gc, space),
            mirror,
            slot: Slot::of(0),
            idle: 0,
        })
    }

    /// A look at the log of the next slot, which stays the next where a record was taken.
    fn look(&mut self)
        requires open { knows_open self.old.collector.gc.seat.me.0.gc ≡ true }
        ensures knows { knows_open self.new.collector.gc.seat.me.0.gc ≡ true }
        ensures vm { KeepsVm self.old.collector.gc.seat.me.0 self.new.collector.gc.seat.me.0 }
    {
        if let Drained::Took(_) = self.collector.drain_one(self.slot) {
            self.idle = 0;
            return;
        }
        self.idle = self.idle.saturating_add(1);
        self.slot = self.slot.next();
    }

    /// So many looks at logs.
    fn drain_some(&mut self, looks: u32)
        requires open { knows_open self.old.collector.gc.seat.me.0.gc ≡ true }
        ensures open { knows_open self.new.collector.gc.seat.me.0.gc ≡ true }
        ensures vm { KeepsVm self.old.collector.gc.seat.me.0 self.new.collector.gc.seat.me.0 }
    {
        for _ in 0..looks {
            self.look();
        }
    }

    /// Copies so many fields, or as many as are left. False: none was.
    fn scan_some(&mut self, fields: u32) -> bool
        requires open { knows_open self.old.collector.gc.seat.me.0.gc ≡ true }
        ensures open { knows_open self.new.collector.gc.seat.me.0.gc ≡ true }
        ensures vm { KeepsVm self.old.collector.gc.seat.me.0 self.new.collector.gc.seat.me.0 }
    {
        for scanned in 0..fields {
            if !self.collector.scan_one() {
                return scanned > 0;
            }
        }
        fields > 0
    }
}

impl<W: Words> Memory for CollectedSpace<W> {
    ghost heap = { λ s. heap_of s.collector.gc.seat.me.0.vm };

    ghost grants = { λ s. grants_of s.collector.gc.seat.me.0.vm };

    fn used(&mut self) -> u32 {
        self.mirror.used(&self.collector.gc.seat)
    }

    fn size(&mut self) -> u32 {
        self.mirror.size(&self.collector.gc.seat)
    }

    fn room(&mut self, words: u32, births: u32) -> bool {
        self.mirror.room(&self.collector.gc.seat, words, births)
    }

    fn need(&mut self, words: u32, births: u32) -> Result<(), NeedFault> {
        self.mirror.need(&self.collector.gc.seat, words, births)
    }

    fn alloc(&mut self, kind: Kind, fields: u32) -> u32 {
        let gc = &mut self.collector.gc;
        self.mirror.alloc(&mut gc.table, &mut gc.seat, kind, fields)
    }

    fn alloc_body(&mut self, dictionary: u32, fields: u32) -> u32 {
        let gc = &mut self.collector.gc;
        self.mirror
            .alloc_body(&mut gc.table, &mut gc.seat, dictionary, fields)
    }

    fn header(&mut self, address: u32) -> Header {
        let gc = &mut self.collector.gc;
        self.mirror.header(&mut gc.table, &mut gc.seat, address)
    }

    fn load(&mut self, address: u32, place: u32) -> Word {
        let gc = &mut self.collector.gc;
        self.mirror
            .load(&mut gc.table, &mut gc.seat, address, place)
    }

    fn load_at(&mut self, address: u32, at: usize) -> Word {
        let gc = &mut self.collector.gc;
        self.mirror
            .load_at(&mut gc.table, &mut gc.seat, address, at)
    }

    fn fill(&mut self, address: u32, place: u32, word: Word) {
        let gc = &mut self.collector.gc;
        self.mirror
            .fill(&mut gc.table, &mut gc.seat, address, place, word);
    }

    fn store(&mut self, slot: Slot, address: u32, place: u32, items: &[Word]) {
        let gc = &mut self.collector.gc;
        self.mirror
            .store(&mut gc.table, &mut gc.seat, slot, address, place, items);
    }

    fn copy(&mut self, slot: Slot, from: FieldAt, to: FieldAt, count: u32) {
        let gc = &mut self.collector.gc;
        self.mirror
            .copy(&mut gc.table, &mut gc.seat, slot, from, to, count);
    }

    fn permit(&mut self, slot: Slot, count: u32) -> Permit {
        let gc = &mut self.collector.gc;
        self.mirror.permit(&mut gc.table, &mut gc.seat, slot, count)
    }
}

impl<W: Words> LoggedMemory for CollectedSpace<W> {
    ghost did = { λ s. s.collector.gc.seat.me.0.vm_events };

    fn is_open(&self) -> bool {
        self.mirror.is_open(&self.collector.gc.seat)
    }

    fn open_cycle(&mut self) -> bool {
        let gc = &mut self.collector.gc;
        self.mirror.open_cycle(&mut gc.table, &mut gc.seat)
    }

    fn close_log(&mut self, slot: Slot) -> Closing {
        let gc = &mut self.collector.gc;
        self.mirror.close(&mut gc.table, &mut gc.seat, slot)
    }

    /// As the memory's: the cycle word, and the sum of the heads, at most 2^64 - 1.
    fn counts(&mut self) -> Counts
        ensures flipped { result.flips ≡ self.old.collector.gc.seat.me.0.vm.cycle }
        ensures cycle { result.flips ≡ self.old.collector.gc.seat.me.0.gc.cycle }
        ensures taken { result.taken
            ≡ min (taken_in_all self.old.collector.gc.seat.me.0.gc) (2 ^ 64 - 1) }
        ensures heap { heap_of self.new.collector.gc.seat.me.0.vm
            ≡ heap_of self.old.collector.gc.seat.me.0.vm }
        ensures grants { grants_of self.new.collector.gc.seat.me.0.vm
            ≡ grants_of self.old.collector.gc.seat.me.0.vm }
    {
        // So both sides are known to count the same cycles.
        self.collector.gc.meet(&self.mirror);
        let mut taken: u64 = 0;
        for slot in 0..SLOTS {
            let slot = Slot::numbered(slot);
            taken = taken.saturating_add(self.collector.taken(slot));
        }
        Counts {
            flips: self.collector.flips(),
            taken,
        }
    }

    ghost bounded = { λ s. refl };

    ghost addressed = { λ s. addressed s.collector.gc.seat.me.0.vm s.sits.runs };
}

impl<W: Words> CollectedMemory for CollectedSpace<W> {
    /// As the memory's. One action of eight looks at a log, the others scan; where no field is left
    /// they look at logs too. False: each log was looked at in a row, nothing was found, and no
    /// field is unfilled. It is false too where the collector knows of no open cycle.
    fn work(&mut self, actions: u32) -> bool
        ensures heap { heap_of self.new.collector.gc.seat.me.0.vm
            ≡ heap_of self.old.collector.gc.seat.me.0.vm }
        ensures grants { grants_of self.new.collector.gc.seat.me.0.vm
            ≡ grants_of self.old.collector.gc.seat.me.0.vm }
        ensures filled { result ≡ false
            → knows_open self.new.collector.gc.seat.me.0.gc ≡ true
            → all_filled self.new.collector.gc.seat.me.0.gc.pairs ≡ true }
    {
        if !self.collector.begin_cycle() {
            return false;
        }
        let looks = actions / ACTIONS_A_LOOK;
        let left = actions - looks;
        self.drain_some(looks);
        if self.scan_some(left) {
            return true;
        }
        // The scan that found no field was an action too, and so may be the one below.
        self.drain_some(left.saturating_sub(2));
        self.idle < SLOTS as u32 || self.collector.scan_one()
    }
}
