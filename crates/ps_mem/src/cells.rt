//! Cells: for a name that one of two dictionaries has as a key, where its value stands.
//!
//! The two are mostly the lowest of each dictionary stack, and most names are looked for through
//! these alone. A cell that is kept needs no search and no test: what it tells holds until it is
//! forgotten. All are forgotten at once, by what might make one of them wrong.

ghost use Rattle.std.specs.Prelude.{◌≡◌, ◌<◌, ◌⊎◌, ℕ, [], true, slice_get, Some, IfSome};
ghost use Rattle.ps_mem.specs.Cells.{IsBelow, Leaves};

use ps_word::words::Word;
use std::alloc::Global;

/// How many cells are kept at most: those of the names of lower numbers. The names of the system's
/// operators are the first, and all that an ordinary program defines have room behind them.
pub const CELLS: u16 = 1024;

/// Where the value of a name stands.
#[derive(Clone, Copy, Debug, PartialEq, Eq)]
pub struct Cell {
    /// The address of the body that has the name as a key.
    pub body: u32,
    /// The sum of that address and the value's place; 0 where it isn't known.
    pub at: u32,
}

/// A dictionary by a word that refers to it, with its address and that of its body.
#[derive(Clone, Copy, Debug, PartialEq, Eq)]
pub struct DictionaryPlace {
    pub word: Word,
    pub address: u32,
    pub body: u32,
}

/// Two dictionaries, one above the other on a dictionary stack.
#[derive(Clone, Copy, Debug, PartialEq, Eq)]
pub struct DictionaryPair {
    pub upper: DictionaryPlace,
    pub lower: DictionaryPlace,
}

/// The cells of names for two dictionaries, by the numbers of the names.
#[derive(Drop)]
pub struct Cells {
    pub(crate) pair: DictionaryPair,
    /// No address of the two is above it.
    pub(crate) top: u32,
    pub(crate) items: Vec<Cell>,
    pub ghost upper: { IsBelow pair.upper top },
    pub ghost lower: { IsBelow pair.lower top },
}

const NO_CELL: Cell = Cell { body: 0, at: 0 };

/// In place of a dictionary, where none was met.
fn no_place() -> DictionaryPlace
    ensures { IsBelow result 0 }
{
    DictionaryPlace {
        word: Word::null(),
        address: 0,
        body: 0,
    }
}

impl Cells {
    /// None, with room for all.
    pub fn new(alloc: Global) -> Cells
        ensures { result.items.items ≡ [] }
    {
        let mut items = Vec::new(alloc);
        // Where there is no room, each that is kept asks for it anew.
        let _ = items.resize(CELLS as usize, NO_CELL);
        items.clear();
        Cells {
            pair: DictionaryPair {
                upper: no_place(),
                lower: no_place(),
            },
            top: 0,
            items,
        }
    }

    /// That of a name, where these are the two dictionaries and it is kept.
    #[inline(always)]
    pub(crate) fn of(&self, upper: Word, lower: Word, name: u16) -> Option<Cell>
        ensures upper { IfSome result (λ cell. self.now.pair.upper.word ≡ upper) }
        ensures lower { IfSome result (λ cell. self.now.pair.lower.word ≡ lower) }
        ensures kept { IfSome result (λ cell. slice_get self.now.items.items name ≡ Some cell) }
        ensures known { IfSome result (λ cell. 0 < cell.at) }
    {
        if upper != self.pair.upper.word || lower != self.pair.lower.word {
            return None;
        }
        match self.items.get(name as usize) {
            Some(cell) => if cell.at == 0 { None } else { Some(*cell) },
            None => None,
        }
    }

    /// Forgets all.
    pub fn forget(&mut self)
        ensures pair { self.new.pair ≡ self.old.pair }
        ensures items { self.new.items.items ≡ [] }
    {
        self.items.clear();
    }

    /// Lets so many have a place. Without room for them it changes nothing.
    fn lengthen(&mut self, count: usize)
        ensures pair { self.new.pair ≡ self.old.pair }
        ensures kept { (name : ℕ) (cell : Cell) → slice_get self.new.items.items name ≡ Some cell
            → 0 < cell.at → slice_get self.old.items.items name ≡ Some cell }
    {
        if self.items.len() < count {
            let _ = self.items.resize(count, NO_CELL);
        }
    }

    /// Speaks of these two dictionaries from here on, and has forgotten all if it spoke of others.
    fn turn_to(&mut self, pair: DictionaryPair)
        ensures pair { self.new.pair ≡ pair }
        ensures kept { (name : ℕ) (cell : Cell) → slice_get self.new.items.items name ≡ Some cell
            → (self.old.pair ≡ pair) × (slice_get self.old.items.items name ≡ Some cell) }
    {
        if pair == self.pair {
            return;
        }
        self.items.clear();
        self.pair = pair;
        let upper = pair.upper.address.max(pair.upper.body);
        let lower = pair.lower.address.max(pair.lower.body);
        self.top = upper.max(lower);
    }

    /// Keeps that of a name for two dictionaries, if it has one.
    #[inline(never)]
    pub(crate) fn keep(&mut self, pair: DictionaryPair, name: u16, cell: Cell)
        ensures { (n : ℕ) (c : Cell) → slice_get self.new.items.items n ≡ Some c → 0 < c.at
            → ((self.new.pair ≡ pair) × ((n ≡ name) × (c ≡ cell)))
            ⊎ ((self.new.pair ≡ self.old.pair) × (slice_get self.old.items.items n ≡ Some c)) }
    {
        if name >= CELLS {
            return;
        }
        let place = name as usize;
        self.turn_to(pair);
        self.lengthen(place + 1);
        if place < self.items.len() {
            self.items[place] = cell;
        }
    }

    /// Whether all hold behind the store of so many words: these go elsewhere, or replace a value.
    #[inline(always)]
    fn hold(&self, address: u32, place: u32, count: usize) -> bool
        ensures { result ≡ true → Leaves self.now.pair address place count }
    {
        if address == self.pair.upper.body || address == self.pair.lower.body {
            return count == 1 && place % 2 == 1;
        }
        address != self.pair.upper.address && address != self.pair.lower.address
    }

    /// Forgets all before such a store, unless they hold behind it.
    #[inline(always)]
    pub(crate) fn settle(&mut self, address: u32, place: u32, count: usize)
        ensures pair { self.new.pair ≡ self.old.pair }
        ensures kept { (self.new.items.items ≡ [])
            ⊎ ((self.new.items.items ≡ self.old.items.items)
            × Leaves self.old.pair address place count) }
    {
        if address <= self.top {
            if !self.hold(address, place, count) {
                self.forget();
            }
        }
    }
}
