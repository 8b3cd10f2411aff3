//! The words of a table, as one seat steps through them.
//!
//! Shared words are a table of atomic words: each step is one atomic load or store, whatever other
//! seats do meanwhile.
ghost use Rattle.std.specs.Prelude.{◌≡◌, ◌<◌, ℕ, [], IfOk};
ghost use mathlib.Core.Option.{none};
ghost use Rattle.atomic_table.specs.Table.{Allows, step};
ghost use Rattle.ps_core_machine.specs.Steps.{table_size};
ghost use Rattle.ps_core_laws.specs.Runs.{IsSpace};
ghost use Rattle.ps_table.specs.Shown.{GoesOnKnown, Shows, first_view};

use crate::plays::{Heap, View};
use atomic_table::{Play, Seat, Table};
use ps_record::SPACES_START;
use std::alloc::{AllocError, Global};
use std::sync::Arc;

/// A table of atomic words.
pub type SharedTable = Table<(), View, u64, Heap, Global>;

/// What two seats share.
pub type SharedWords = Arc<SharedTable, Global>;

/// Words that a seat loads and stores, each in a step that is the next event of a run (`Shows`). A
/// step does what its play says, where the rule allows it whatever the words are.
pub trait Words {
    ghost use Rattle.atomic_table.specs.Seated.{TableId};
    ghost use Rattle.atomic_table.specs.declared.shared.Seat.{Seat};
    ghost use Rattle.ps_table.specs.declared.plays.View.{View};

    /// Which table it is, and how many words it has.
    ghost id: { Self → TableId };

    /// The seat is at these words.
    ghost seats: { Self → Seat (Unit {0}) View → Type 0 };

    /// It is so in one way.
    ghost seats_once: { (w : Self) (s : Seat (Unit {0}) View) → IsProp (seats w s) };

    /// The words of two spaces of so many words each, 4096 to 1048576, in which nothing stands, and
    /// a seat at them that has both parts. `AllocError`: the allocator refused.
    fn new(alloc: Global, space: u32) -> Result<(Self, Seat<(), View>), AllocError>
        requires size { IsSpace space }
        ensures seats { IfOk result (λ r. seats r.0 r.1) }
        ensures wide { IfOk result (λ r. (id r.0).words ≡ table_size space) }
        ensures starts { IfOk result (λ r. r.1.me ≡ (first_view space, [])) };

    /// The word at a place.
    fn load<P: Play<(), View>>(&mut self, seat: &mut Seat<(), View>, place: u64) -> u64
        requires { seats self.old seat.old × (place < (id self.old).words)
            × ((space slots at : ℕ) → Allows (Shows space) slots at seat.old.me place (λ n. n)
            (P.then (step slots place 0 0 none) seat.old.me))
            × ((n : ℕ) → GoesOnKnown seat.old.me (P.then (step 0 place 0 0 none) seat.old.me n)) }
        ensures same { seats self.new seat.new × (id self.new ≡ id self.old) }
        ensures did { (slots : ℕ)
            × P.then (step slots place 0 0 none) seat.old.me result seat.new.me };

    /// Puts a word at a place.
    fn store<P: Play<(), View>>(&mut self, seat: &mut Seat<(), View>, place: u64, word: u64)
        requires { seats self.old seat.old × (place < (id self.old).words)
            × ((space slots at : ℕ) → Allows (Shows space) slots at seat.old.me place (λ _. word)
            (λ _. P.then (step slots place word 0 none) seat.old.me word))
            × GoesOnKnown seat.old.me (P.then (step 0 place word 0 none) seat.old.me word) }
        ensures same { seats self.new seat.new × (id self.new ≡ id self.old) }
        ensures did { (slots : ℕ)
            × P.then (step slots place word 0 none) seat.old.me word seat.new.me };
}

impl Words for SharedWords {
    ghost use Rattle.std.specs.Arc.{arc_value};
    ghost use Rattle.std.specs.Coded.{Coded-set};
    ghost use Rattle.atomic_table.specs.Seated.{table_id_coded};

    ghost id = { λ w. (arc_value w).shared.table_id };

    ghost seats = { λ w s. s.table_id ≡ (arc_value w).shared.table_id };

    ghost seats_once = { λ w s. Coded-set table_id_coded s.table_id
        (arc_value w).shared.table_id };

    fn new(alloc: Global, space: u32) -> Result<(Self, Seat<(), View>), AllocError> {
        let size = space as u64;
        let count = (SPACES_START + 2 * size) as usize;
        let words = Vec::from_elem(alloc, 0u64, count)?;
        let (table, seat): (SharedTable, Seat<(), View>) = Table::of_words(
            alloc,
            words.as_slice(),
            &size,
        )?;
        Ok((Arc::new(alloc, table)?, seat))
    }

    #[inline]
    fn load<P: Play<(), View>>(&mut self, seat: &mut Seat<(), View>, place: u64) -> u64 {
        self.shared.load::<P>(seat, place as usize)
    }

    #[inline]
    fn store<P: Play<(), View>>(&mut self, seat: &mut Seat<(), View>, place: u64, word: u64) {
        self.shared.store::<P>(seat, place as usize, word)
    }
}
