//! A memory that keeps marks of the names that its dictionaries have as keys, so that a look-up
//! needn't search where a name can't be, and cells, so that mostly it needn't search at all.
//!
//! The marks cover what stands: each key that is a name is admitted by its mark. What is to become
//! one is marked before it is stored. The cells tell where values stand: what a store would make
//! untrue is forgotten before it.

ghost use Rattle.std.specs.Prelude.{◌≡◌, ◌≢◌, ℕ, ◌+◌, ◌≤◌, ◌<◌, None, IsSome, length, slice_range};
ghost use Rattle.ps_mem.specs.Cells.{AreCellsOf};
ghost use Rattle.ps_mem.specs.Heap.{empty_heap, fields_at, object_at};
ghost use Rattle.ps_mem.specs.Marks.{AreMarked, Covers, IsKeyMarked, IsMarked, Widens};
ghost use Rattle.ps_mem.specs.Plain.{plain_space};

use crate::cells::{Cell, Cells, DictionaryPair};
use crate::marks::{Mark, Marks};
use crate::plain::PlainMemory;
use crate::{FieldAt, Memory, NeedFault, Permit};
use ps_language::kinds::Kind;
use ps_record::slots::Slot;
use ps_word::headers::Header;
use ps_word::words::Word;
use std::alloc::Global;

/// A memory with its marks and its cells.
#[derive(Drop)]
pub struct Marked<M: Memory + Drop> {
    pub memory: M,
    pub marks: Marks,
    pub cells: Cells,
    pub ghost covers: { Covers (M.heap memory) marks.items.items },
    pub ghost tell: { AreCellsOf (M.heap memory) cells.pair cells.items.items },
}

impl<M: Memory + Drop> Marked<M> {
    /// A memory in which nothing stands, with marks and with room for cells.
    pub fn new(alloc: Global, memory: M) -> Marked<M>
        requires empty { (address : ℕ) → object_at (M.heap memory) address ≡ None }
        ensures { result.memory ≡ memory }
    {
        Marked {
            memory,
            marks: Marks::new(alloc),
            cells: Cells::new(alloc),
        }
    }

    /// Marks a name that is to be stored in an object, at an even place: a key, if it is a body.
    #[inline(never)]
    fn mark_key(&mut self, address: u32, name: u16)
        requires stands { IsSome (object_at (M.heap self.old.memory) address) }
        ensures heap { M.heap self.new.memory ≡ M.heap self.old.memory }
        ensures grants { M.grants self.new.memory ≡ M.grants self.old.memory }
        ensures widens { Widens self.old.marks.items.items self.new.marks.items.items }
        ensures marked { IsKeyMarked (M.heap self.old.memory) self.new.marks.items.items address
            name }
    {
        let header = self.memory.header(address);
        if header.kind == Kind::Body {
            self.marks.widen(name, header.birth);
        }
    }

    /// Marks a word that is to be stored, where it becomes a key.
    #[inline(always)]
    fn mark_word(&mut self, address: u32, place: u32, word: Word)
        requires stands { IsSome (object_at (M.heap self.old.memory) address) }
        ensures heap { M.heap self.new.memory ≡ M.heap self.old.memory }
        ensures grants { M.grants self.new.memory ≡ M.grants self.old.memory }
        ensures widens { Widens self.old.marks.items.items self.new.marks.items.items }
        ensures marked { IsMarked (M.heap self.old.memory) self.new.marks.items.items address
            place word }
    {
        if place % 2 != 0 {
            return;
        }
        if let Some(name) = word.as_name() {
            self.mark_key(address, name);
        }
    }

    /// Marks words that are to be stored from a place on, where they become keys.
    #[inline(never)]
    fn mark_words(&mut self, address: u32, place: u32, items: &[Word])
        requires place { place + length items.now
            ≤ length (fields_at (M.heap self.old.memory) address) }
        requires stands { IsSome (object_at (M.heap self.old.memory) address) }
        ensures heap { M.heap self.new.memory ≡ M.heap self.old.memory }
        ensures grants { M.grants self.new.memory ≡ M.grants self.old.memory }
        ensures widens { Widens self.old.marks.items.items self.new.marks.items.items }
        ensures marked { AreMarked (M.heap self.old.memory) self.new.marks.items.items address
            place items.now }
    {
        let header = self.memory.header(address);
        if header.kind != Kind::Body {
            return;
        }
        for index in 0..items.len() {
            self.mark_word(address, place + index as u32, items[index]);
        }
    }

    /// The same, at once of a single word.
    #[inline(always)]
    fn mark_stored(&mut self, address: u32, place: u32, items: &[Word])
        requires place { place + length items.now
            ≤ length (fields_at (M.heap self.old.memory) address) }
        requires stands { IsSome (object_at (M.heap self.old.memory) address) }
        ensures heap { M.heap self.new.memory ≡ M.heap self.old.memory }
        ensures grants { M.grants self.new.memory ≡ M.grants self.old.memory }
        ensures widens { Widens self.old.marks.items.items self.new.marks.items.items }
        ensures marked { AreMarked (M.heap self.old.memory) self.new.marks.items.items address
            place items.now }
    {
        if items.len() == 1 {
            self.mark_word(address, place, items[0]);
        } else {
            self.mark_words(address, place, items);
        }
    }

    /// The same of words that are copied there from the fields of an object.
    #[inline(never)]
    fn mark_copied(&mut self, from: FieldAt, to: FieldAt, count: u32)
        requires source { from.place + count
            ≤ length (fields_at (M.heap self.old.memory) from.address) }
        requires target { to.place + count
            ≤ length (fields_at (M.heap self.old.memory) to.address) }
        requires stands { IsSome (object_at (M.heap self.old.memory) to.address) }
        ensures heap { M.heap self.new.memory ≡ M.heap self.old.memory }
        ensures grants { M.grants self.new.memory ≡ M.grants self.old.memory }
        ensures widens { Widens self.old.marks.items.items self.new.marks.items.items }
        ensures marked { AreMarked (M.heap self.old.memory) self.new.marks.items.items
            to.address to.place (slice_range (fields_at (M.heap self.old.memory) from.address)
            from.place (from.place + count)) }
    {
        if from.address == to.address && from.place % 2 == to.place % 2 {
            return;
        }
        let header = self.memory.header(to.address);
        if header.kind != Kind::Body {
            return;
        }
        let first = from.address as usize + from.place as usize;
        for index in 0..count {
            let word = self.memory.load_at(from.address, first + index as usize);
            self.mark_word(to.address, to.place + index, word);
        }
    }
}

/// A plain memory with marks, in which nothing stands.
pub fn plain_with_marks(alloc: Global) -> Marked<PlainMemory>
    ensures { ⟦<Marked<PlainMemory> as Memory>⟧.heap result ≡ empty_heap plain_space }
{
    Marked::new(alloc, PlainMemory::new(alloc))
}

impl<M: Memory + Drop> Memory for Marked<M> {
    ghost heap = { λ m. M.heap m.memory };

    ghost grants = { λ m. M.grants m.memory };

    fn used(&mut self) -> u32 {
        self.memory.used()
    }

    fn size(&mut self) -> u32 {
        self.memory.size()
    }

    fn room(&mut self, words: u32, births: u32) -> bool {
        self.memory.room(words, births)
    }

    #[inline]
    fn need(&mut self, words: u32, births: u32) -> Result<(), NeedFault> {
        self.memory.need(words, births)
    }

    #[inline]
    fn alloc(&mut self, kind: Kind, fields: u32) -> u32 {
        self.memory.alloc(kind, fields)
    }

    #[inline]
    fn alloc_body(&mut self, dictionary: u32, fields: u32) -> u32 {
        self.memory.alloc_body(dictionary, fields)
    }

    #[inline(always)]
    fn header(&mut self, address: u32) -> Header {
        self.memory.header(address)
    }

    #[inline(always)]
    fn load(&mut self, address: u32, place: u32) -> Word {
        self.memory.load(address, place)
    }

    #[inline(always)]
    fn load_at(&mut self, address: u32, at: usize) -> Word {
        self.memory.load_at(address, at)
    }

    #[inline(always)]
    fn fill(&mut self, address: u32, place: u32, word: Word) {
        self.mark_word(address, place, word);
        self.cells.settle(address, place, 1);
        self.memory.fill(address, place, word);
    }

    #[inline(always)]
    fn store(&mut self, slot: Slot, address: u32, place: u32, items: &[Word]) {
        self.mark_stored(address, place, items);
        self.cells.settle(address, place, items.len());
        self.memory.store(slot, address, place, items);
    }

    fn copy(&mut self, slot: Slot, from: FieldAt, to: FieldAt, count: u32) {
        self.mark_copied(from, to, count);
        self.cells.settle(to.address, to.place, count as usize);
        self.memory.copy(slot, from, to, count);
    }

    #[inline]
    fn permit(&mut self, slot: Slot, count: u32) -> Permit {
        self.memory.permit(slot, count)
    }

    #[inline(always)]
    fn mark(&mut self, name: u16) -> Mark {
        self.marks.of(name)
    }

    #[inline(always)]
    fn known(&mut self, upper: Word, lower: Word, name: u16) -> Option<Word> {
        match self.cells.of(upper, lower, name) {
            Some(cell) => Some(self.memory.load_at(cell.body, cell.at as usize)),
            None => None,
        }
    }

    #[inline]
    fn keep(&mut self, pair: DictionaryPair, name: u16, cell: Cell) {
        self.cells.keep(pair, name, cell);
    }
}
