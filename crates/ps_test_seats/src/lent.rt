//! The two seats of a new table under its name, and the collector as its thread has it, which is
//! lent the memory.

ghost use Rattle.std.specs.Prelude.{◌≡◌};

use crate::arrays::Arrays;
use crate::sides::{SPACE, Seats};
use ps_core_laws::Unready;
use ps_core_laws::sides::{Collects, LoggedMemory, Works};
use ps_gc::{Copier, MutatorSeat, Naming, named_seats};
use std::alloc::{AllocError, Global};

/// More actions than a row asks for.
const MOST_ACTIONS: u32 = 10000;

/// More roots than a row has.
const ROOTS: usize = 16;

/// A memory with its arrays, and its collector.
#[derive(Drop)]
pub struct Lent<J: Naming> {
    pub arrays: Arrays<MutatorSeat<J>>,
    pub copier: Copier<J>,
}

impl<J: Naming> Lent<J> {
    /// No array, and no cycle. `AllocError`: there is no room for the list of roots.
    pub fn new(alloc: Global, seats: Seats) -> Result<Lent<J>, AllocError>
        requires { seats.vm.seat.table_id ≡ J.table }
    {
        let Seats { vm, gc } = seats;
        let (memory, copier) = named_seats::<J>(alloc, vm, gc, SPACE, ROOTS)?;
        Ok(Lent {
            arrays: Arrays::new(alloc, memory),
            copier,
        })
    }

    /// Hands the words of all arrays over.
    pub fn hand(&mut self) {
        let arrays = &mut self.arrays;
        self.copier
            .hand_over(&mut arrays.memory, arrays.words.as_slice());
    }

    /// Tries to flip, with the words of all arrays as roots.
    pub fn try_flip(&mut self) -> Option<Result<(), Unready>> {
        let arrays = &mut self.arrays;
        if !arrays.memory.is_open() {
            return None;
        }
        Some(
            self.copier
                .try_flip(&mut arrays.memory, arrays.words.as_mut_slice()),
        )
    }

    /// Ends the open cycle, if there is one.
    pub fn end(&mut self) -> bool {
        let arrays = &mut self.arrays;
        self.copier
            .end_cycle(&mut arrays.memory, arrays.words.as_mut_slice())
    }

    /// Acts until nothing is found to do: how often.
    pub fn work(&mut self) -> u32 {
        let mut acts = 0u32;
        for _ in 0..MOST_ACTIONS {
            if !self.copier.act() {
                break;
            }
            acts = acts.saturating_add(1);
        }
        acts
    }
}
