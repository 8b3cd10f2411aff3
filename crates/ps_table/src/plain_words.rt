//! Words in memory of their own, which one seat steps through that has both parts: each step is a
//! plain load or a plain store.
//!
//! They are the words of the run that the seat's view tells (`ShowWords`). A view goes on by a step
//! at a table of one word, which is loaded and means nothing.
ghost use Rattle.std.specs.Prelude.{◌≡◌, ◌<◌, ◌+◌, ℕ, [], length, IfOk, slice_set};
ghost use Rattle.atomic_table.specs.Table.{Allows};
ghost use Rattle.ps_core_laws.specs.Runs.{IsSpace};
ghost use Rattle.ps_core_machine.specs.Steps.{table_size};
ghost use Rattle.ps_table.specs.Plain.{AreNoted, DoesPlay};
ghost use Rattle.ps_table.specs.Shown.{first_view};

use crate::plays::View;
use crate::words::Words;
use atomic_table::{Play, Seat, Table, TableRule};
use ps_record::SPACES_START;
use std::alloc::{AllocError, Global};
use std::marker::{Brand, PhantomData};

/// The rule of the table that steps are noted by.
pub struct Noted;

impl TableRule<(), View, u64> for Noted {
    ghost use Rattle.ps_table.specs.Plain.{AreNoted};
    ghost use Rattle.ps_table.specs.Shown.{first_view};

    ghost holds = { AreNoted };

    ghost first = { first_view };
}

type NoteTable = Table<(), View, u64, Noted, Global>;

/// Names what a noted step did.
trait Noting {
    ghost use Rattle.std.specs.Prelude.{ℕ, List};

    ghost space: { ℕ };

    ghost place: { ℕ };

    ghost first: { ℕ };

    ghost word: { ℕ };

    ghost items: { List ℕ };
}

impl Noting for Brand {
    ghost use Rattle.std.specs.Prelude.{[]};

    ghost space = { 0 };

    ghost place = { 0 };

    ghost first = { 0 };

    ghost word = { 0 };

    ghost items = { [] };
}

struct Plays<P, N> {
    play: PhantomData<(P, N)>,
}

impl<P: Play<(), View>, N: Noting> Play<(), View> for Plays<P, N> {
    ghost use Rattle.ps_table.specs.Plain.{DoesPlay};

    ghost then = { λ st m n m'. DoesPlay N.space P.then N.place N.first N.word N.items m m' };
}

fn note_named<P: Play<(), View>, N: Noting>(
    table: &NoteTable,
    seat: &mut Seat<(), View>,
    items: &[u64],
    place: u64,
    first: u64,
    word: u64,
)
    requires named { (N.space ≡ table.now.shared.key) × (N.place ≡ place) × (N.first ≡ first)
        × (N.word ≡ word) × (N.items ≡ items.now) }
    requires same { (seat.old.table_id ≡ table.now.shared.table_id)
        × (table.now.shared.table_id.words ≡ 1) }
    requires allows { (slots id : ℕ) → Allows (AreNoted table.now.shared.key) slots id seat.old.me 0
        (λ n. n) (λ n. DoesPlay N.space P.then N.place N.first N.word N.items seat.old.me) }
    ensures same { seat.new.table_id ≡ seat.old.table_id }
    ensures does { DoesPlay N.space P.then N.place N.first N.word N.items seat.old.me
        seat.new.me }
{
    table.shared.load::<Plays<P, N>>(seat, 0);
}

/// The view goes on by a step of a play at a place of words, which came to a word.
#[inline]
fn note<P: Play<(), View>>(
    table: &NoteTable,
    seat: &mut Seat<(), View>,
    items: &[u64],
    place: u64,
    first: u64,
    word: u64,
)
    requires same { (seat.old.table_id ≡ table.now.shared.table_id)
        × (table.now.shared.table_id.words ≡ 1) }
    requires allows { (slots id : ℕ) → Allows (AreNoted table.now.shared.key) slots id seat.old.me 0
        (λ n. n)
        (λ n. DoesPlay table.now.shared.key P.then place first word items.now seat.old.me) }
    ensures same { seat.new.table_id ≡ seat.old.table_id }
    ensures does { DoesPlay table.now.shared.key P.then place first word items.now seat.old.me
        seat.new.me }
{
    note_named::<P, Brand>(table, seat, items, place, first, word);
}

/// Words of memory of their own.
#[derive(Drop)]
pub struct PlainWords {
    items: Vec<u64>,
    noted_by: NoteTable,
    ghost one: { noted_by.shared.table_id.words ≡ 1 },
}

impl Words for PlainWords {
    ghost use Rattle.ps_table.specs.Plain.{IsAt, is_at_once, noted_id};

    ghost id = { λ w. noted_id w.noted_by.shared.table_id w.items.items };

    ghost seats = { λ w s. IsAt w.noted_by.shared.table_id w.noted_by.shared.key w.items.items s };

    ghost seats_once = { λ w s.
        is_at_once w.noted_by.shared.table_id w.noted_by.shared.key w.items.items s };

    fn new(alloc: Global, space: u32) -> Result<(Self, Seat<(), View>), AllocError> {
        let size = space as u64;
        let count = (SPACES_START + 2 * size) as usize;
        let items = Vec::from_elem(alloc, 0u64, count)?;
        let (noted_by, seat): (NoteTable, Seat<(), View>) = Table::of_words(alloc, &[0], &size)?;
        Ok((PlainWords { items, noted_by }, seat))
    }

    #[inline]
    fn load<P: Play<(), View>>(&mut self, seat: &mut Seat<(), View>, place: u64) -> u64 {
        let found = self.items[place as usize];
        note::<P>(&self.noted_by, seat, self.items.as_slice(), place, 0, found);
        found
    }

    #[inline]
    fn store<P: Play<(), View>>(&mut self, seat: &mut Seat<(), View>, place: u64, word: u64) {
        // That it fits a word is known of what is read.
        let _was = self.items[place as usize];
        note::<P>(
            &self.noted_by,
            seat,
            self.items.as_slice(),
            place,
            word,
            word,
        );
        self.items[place as usize] = word;
    }
}
