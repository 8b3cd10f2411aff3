//! The two seats of a new table, and the collector by single calls. What a call asks of the open
//! cycle is tested before: none is answered where the call may not be made.
//!
//! It keeps that both seats are at the table of the name, whether the collector knows of an open
//! cycle, and that it knows what was handed over in it.

ghost use Rattle.std.specs.Prelude.{◌≡◌, true, slice_get};
ghost use Rattle.ps_core_machine.specs.Steps.{start, knows_open};
ghost use Rattle.ps_mem.specs.Bounded.{bounded_space};
ghost use Rattle.ps_mem.specs.Heap.{empty_heap};
ghost use Rattle.ps_core_laws.specs.Memory.{heap_of};
ghost use Rattle.ps_gc.specs.Known.{are_known};
ghost use Rattle.ps_test_seats.specs.declared.sides.TheConstants.{SPACE};

use crate::arrays::Arrays;
use ps_core_laws::Unready;
use ps_core_laws::sides::LoggedMemory;
use ps_gc::{Collector, Drained, MutatorSeat, Naming};
use ps_record::slots::Slot;
use ps_record::{SLOTS, SPACES_START};
use ps_table::{GcSeat, SharedSeats, VmSeat, join, part};
use ps_word::words::Word;
use std::alloc::{AllocError, Global};

/// The words of each space.
pub const SPACE: u32 = 4096;

/// The words of the table.
const TABLE: u64 = SPACES_START + 2 * SPACE as u64;

/// Two seats of a new table.
#[derive(Drop)]
pub struct Seats {
    pub vm: VmSeat,
    pub gc: GcSeat,
    pub ghost same: { gc.seat.table_id ≡ vm.seat.table_id },
    pub ghost starts: { gc.seat.me.0.gc ≡ (start SPACE).gc },
    pub ghost empty: { heap_of vm.seat.me.0.vm ≡ empty_heap (bounded_space SPACE) },
}

impl Seats {
    /// Those of a new table. `AllocError`: there is no room for it.
    pub fn new(alloc: Global) -> Result<Seats, AllocError> {
        let (vm, gc) = SharedSeats::new(alloc, SPACE)?;
        Ok(Seats { vm, gc })
    }
}

/// A memory with its arrays, and its collector.
#[derive(Drop)]
pub struct Sides<J: Naming> {
    pub arrays: Arrays<MutatorSeat<J>>,
    pub collector: Collector,
    /// The words that were handed over in the open cycle.
    handed: Vec<Word>,
    /// Whether the collector knows of an open cycle.
    in_cycle: bool,
    ghost named: { collector.gc.seat.table_id ≡ J.table },
    ghost knows: { knows_open collector.gc.seat.me.0.gc ≡ in_cycle },
    ghost known: { in_cycle ≡ true → are_known collector.gc.seat.me.0.gc handed.items ≡ true },
}

/// The word at a place of a list.
fn word_at(words: &[Word], place: usize) -> Option<Word>
    ensures { result ≡ slice_get words.now place }
{
    words.get(place).copied()
}

impl<J: Naming> Sides<J> {
    /// No array, and no cycle.
    pub fn new(alloc: Global, seats: Seats) -> Sides<J>
        requires { seats.vm.seat.table_id ≡ J.table }
    {
        let Seats { vm, gc } = seats;
        let mut collector = Collector::new(gc, SPACE);
        let in_cycle = collector.begin_cycle();
        Sides {
            arrays: Arrays::new(alloc, MutatorSeat::new(vm)),
            collector,
            handed: Vec::new(alloc),
            in_cycle,
        }
    }

    /// Hands the words of all arrays over.
    pub fn hand(&mut self) -> Result<(), AllocError> {
        self.handed.clear();
        let arrays = &mut self.arrays;
        let words = arrays.words.as_slice();
        self.collector.hand_over(&mut arrays.memory.vm, words);
        self.in_cycle = arrays.memory.vm.is_open();
        self.handed.extend_from_slice(words)
    }

    /// The word of an array, which was handed over, naming its replica.
    pub fn replicate(&mut self, array: usize) -> Option<Word> {
        if !self.in_cycle {
            return None;
        }
        match word_at(self.handed.as_slice(), array) {
            Some(word) => Some(self.collector.replicate(word)),
            None => None,
        }
    }

    /// All arrays that were handed over get replicas.
    pub fn replicate_all(&mut self) {
        if self.in_cycle {
            self.collector.add_roots(self.handed.as_slice());
        }
    }

    /// Copies the next field that isn't filled.
    pub fn scan(&mut self) -> Option<bool> {
        if !self.in_cycle {
            return None;
        }
        Some(self.collector.scan_one())
    }

    /// Fills all fields; no array that was handed over is replicated by itself then.
    pub fn scan_all(&mut self) {
        if self.in_cycle {
            self.handed.clear();
            self.collector.scan_all();
        }
    }

    /// Looks at the log of a slot.
    pub fn drain(&mut self, slot: u32) -> Option<Drained> {
        if slot >= SLOTS as u32 || !self.in_cycle {
            return None;
        }
        Some(self.collector.drain_one(Slot::of(slot)))
    }

    /// Tries to flip, with the words of all arrays as roots.
    pub fn try_flip(&mut self) -> Option<Result<(), Unready>> {
        let arrays = &mut self.arrays;
        if !arrays.memory.is_open() {
            return None;
        }
        let (vm, collector) = (&mut arrays.memory.vm, &mut self.collector);
        join(&vm.table, &mut vm.seat, &mut collector.gc.seat);
        let flip = collector.joined_try_flip(&mut vm.mirror, arrays.words.as_mut_slice());
        part(&vm.table, &mut vm.seat, &mut collector.gc.seat);
        if flip.is_ok() {
            self.handed.clear();
            self.in_cycle = self.collector.begin_cycle();
        }
        Some(flip)
    }

    /// Ends the open cycle, whatever is left to do.
    pub fn end(&mut self) -> bool {
        let arrays = &mut self.arrays;
        if !arrays.memory.is_open() {
            return false;
        }
        self.collector
            .end_cycle(&mut arrays.memory.vm, arrays.words.as_mut_slice());
        self.handed.clear();
        self.in_cycle = self.collector.begin_cycle();
        true
    }

    /// A word of the table, but for the epoch, which the collector would keep.
    pub fn word(&mut self, place: u64) -> Option<u64> {
        if place == 1 || place >= TABLE {
            return None;
        }
        Some(self.collector.gc.load(place))
    }
}
