//! The mutator's seat at a table with a name: a memory that a vault holds while a collector with a
//! seat of its own works beside it.
//!
//! What stands and what is granted are read off the seat's own part of the machine's state, which
//! no step of the other seat changes.
ghost use Rattle.std.specs.Prelude.{◌≡◌, ◌-◌, ◌^◌, ◌∷◌, min, sum, true, false, refl, IfOk};
ghost use Rattle.ps_core_laws.specs.Runs.{IsSpace};
ghost use Rattle.ps_core_machine.specs.declared.events.Event.TheVariants.{VmLoad};
ghost use Rattle.ps_core_machine.specs.Steps.{start};
ghost use Rattle.ps_core_laws.specs.Memory.{heap_of, grants_of};
ghost use Rattle.ps_table.specs.Events.{did_all, head_loads};
ghost use Rattle.ps_table.proofs.Addressed.{addressed};

use crate::Collector;
use crate::copiers::Copier;
use crate::naming::Naming;
use ps_core_laws::Closing;
use ps_core_laws::collected::Counts;
use ps_core_laws::sides::LoggedMemory;
use ps_language::kinds::Kind;
use ps_mem::{FieldAt, Memory, NeedFault, Permit};
use ps_record::SLOTS;
use ps_record::slots::Slot;
use ps_table::{GcSeat, VmSeat};
use ps_word::headers::Header;
use ps_word::words::Word;
use std::alloc::{AllocError, Global};
use std::marker::PhantomData;

/// The mutator's seat, at the table of this name.
#[derive(Drop)]
pub struct MutatorSeat<J: Naming> {
    /// The seat, with the numbers of its part.
    pub vm: VmSeat,
    of: PhantomData<J>,
    pub ghost named: { vm.seat.table_id ≡ J.table },
}

impl<J: Naming> MutatorSeat<J> {
    /// A seat at the table of this name.
    pub fn new(vm: VmSeat) -> MutatorSeat<J>
        requires { vm.seat.table_id ≡ J.table }
        ensures { result.vm ≡ vm }
    {
        MutatorSeat {
            vm,
            of: PhantomData,
        }
    }
}

/// The two seats of a new table under its name: a memory, and a collector with room for so many
/// roots. `AllocError`: that room can't be had.
pub fn named_seats<J: Naming>(
    alloc: Global,
    vm: VmSeat,
    gc: GcSeat,
    space: u32,
    roots: usize,
) -> Result<(MutatorSeat<J>, Copier<J>), AllocError>
    requires size { IsSpace space }
    requires start { gc.seat.me.0.gc ≡ (start space).gc }
    requires vm_named { vm.seat.table_id ≡ J.table }
    requires gc_named { gc.seat.table_id ≡ J.table }
    ensures vm { IfOk result (λ r. r.0.vm ≡ vm) }
{
    let copier = Copier::new(alloc, Collector::new(gc, space), roots)?;
    Ok((MutatorSeat::new(vm), copier))
}

impl<J: Naming> Memory for MutatorSeat<J> {
    ghost heap = { λ s. heap_of s.vm.seat.me.0.vm };

    ghost grants = { λ s. grants_of s.vm.seat.me.0.vm };

    fn used(&mut self) -> u32 {
        self.vm.used()
    }

    fn size(&mut self) -> u32 {
        self.vm.size()
    }

    fn room(&mut self, words: u32, births: u32) -> bool {
        self.vm.room(words, births)
    }

    fn need(&mut self, words: u32, births: u32) -> Result<(), NeedFault> {
        self.vm.need(words, births)
    }

    fn alloc(&mut self, kind: Kind, fields: u32) -> u32 {
        self.vm.alloc(kind, fields)
    }

    fn alloc_body(&mut self, dictionary: u32, fields: u32) -> u32 {
        self.vm.alloc_body(dictionary, fields)
    }

    fn header(&mut self, address: u32) -> Header {
        self.vm.header(address)
    }

    fn load(&mut self, address: u32, place: u32) -> Word {
        self.vm.load(address, place)
    }

    fn load_at(&mut self, address: u32, at: usize) -> Word {
        self.vm.load_at(address, at)
    }

    fn fill(&mut self, address: u32, place: u32, word: Word) {
        self.vm.fill(address, place, word);
    }

    fn store(&mut self, slot: Slot, address: u32, place: u32, items: &[Word]) {
        self.vm.store(slot, address, place, items);
    }

    fn copy(&mut self, slot: Slot, from: FieldAt, to: FieldAt, count: u32) {
        self.vm.copy(slot, from, to, count);
    }

    fn permit(&mut self, slot: Slot, count: u32) -> Permit {
        self.vm.permit(slot, count)
    }
}

impl<J: Naming> LoggedMemory for MutatorSeat<J> {
    ghost did = { λ s. s.vm.seat.me.0.vm_events };

    fn is_open(&self) -> bool {
        self.vm.is_open()
    }

    fn open_cycle(&mut self) -> bool {
        self.vm.open_cycle()
    }

    fn close_log(&mut self, slot: Slot) -> Closing {
        self.vm.close(slot)
    }

    /// As the memory's: the cycle word, and the sum of the heads, at most 2^64 - 1, as each was
    /// loaded in this call, in this order.
    fn counts(&mut self) -> Counts
        ensures did { self.new.vm.seat.me.0 ≡ did_all self.old.vm.seat.me.0
            (VmLoad 0 result.flips ∷ head_loads 0 self.new.vm.seat.me.0.vm.heads) }
        ensures taken { result.taken
            ≡ min (sum self.new.vm.seat.me.0.vm.heads) (2 ^ 64 - 1) }
        ensures heap { heap_of self.new.vm.seat.me.0.vm ≡ heap_of self.old.vm.seat.me.0.vm }
        ensures grants { grants_of self.new.vm.seat.me.0.vm
            ≡ record (grants_of self.old.vm.seat.me.0.vm)
            { records = (grants_of self.new.vm.seat.me.0.vm).records } }
        ensures flipped { result.flips ≡ self.old.vm.seat.me.0.vm.cycle }
    {
        let (flips, heads) = self.vm.counts();
        let mut taken: u64 = 0;
        for slot in 0..SLOTS {
            let slot = Slot::numbered(slot);
            taken = taken.saturating_add(heads[slot.index()]);
        }
        Counts {
            flips: flips as u32,
            taken,
        }
    }

    ghost bounded = { λ s. refl };

    ghost addressed = { λ s. addressed s.vm.seat.me.0.vm s.vm.sits.runs };
}
