//! Arrays in a memory of any kind, and the words that refer to them. What a row says is tested
//! before it is used: none is answered where there is no such array, field or word.
//!
//! It keeps that the memory is sound, and that each of the words is a value there.

ghost use Rattle.std.specs.Prelude.{◌≡◌, ◌+◌, ◌<◌, ◌^◌, IfSome};
ghost use Rattle.ps_mem.specs.Heap.{Heap, empty_heap};
ghost use Rattle.ps_mem.specs.References.{StandsAs};
ghost use Rattle.ps_mem.specs.Shows.{AreValues, IsValue};

use ps_core_laws::Closing;
use ps_core_laws::collected::Counts;
use ps_core_laws::sides::LoggedMemory;
use ps_language::kinds::Kind;
use ps_mem::{Memory, NeedFault, Permit};
use ps_ops_operands::readers::{array_of, array_word};
use ps_record::SLOTS;
use ps_record::slots::Slot;
use ps_seq::arrays::{copy_elements, element, interval, make_array, new_array, set_element};
use ps_word::headers::Header;
use ps_word::values::Part;
use ps_word::words::Word;
use std::alloc::{AllocError, Global};
use std::marker::Model;

/// What stands in a field: a number, or one of the arrays, by the order of their making.
#[derive(Clone, Copy, PartialEq, Eq)]
pub enum Item {
    Number(i32),
    Array(usize),
}

/// A memory, and the words of its arrays in the order of their making.
#[derive(Drop)]
pub struct Arrays<M: Memory + Drop> {
    pub memory: M,
    pub words: Vec<Word>,
}

impl<M: Memory + Drop> Model for Arrays<M> {
    ghost use Rattle.std.specs.Prelude.{List};
    ghost use Rattle.ps_word.specs.declared.words.Word.{Word};
    ghost use Rattle.ps_mem.specs.Shows.{IsReady};

    ghost Value = { List Word };

    ghost view = { λ a. a.words.items };

    ghost invariant = { λ a. IsReady (M.heap a.memory) a.words.items };
}

/// An item that is stored in a field of an array, under a slot.
#[derive(Clone, Copy)]
pub struct Store {
    pub slot: u32,
    pub array: usize,
    pub field: u16,
    pub item: Item,
}

/// Some fields of an array.
#[derive(Clone, Copy)]
pub struct Fields {
    pub array: usize,
    pub first: u16,
    pub count: u16,
}

/// The array of this number.
pub fn array_at(words: &[Word], number: usize) -> Option<Part>
    ensures { (h : Heap) → AreValues h words.now → IfSome result (λ part.
        StandsAs h Kind.Array part.address (part.offset + part.length)
        × (part.offset + part.length < 2 ^ 16)) }
{
    match words.get(number) {
        Some(word) => array_of(*word),
        None => None,
    }
}

/// The word of an item.
pub fn word_of(words: &[Word], item: Item) -> Option<Word>
    ensures { (h : Heap) → AreValues h words.now → IfSome result (λ word. IsValue h word) }
{
    match item {
        Item::Number(number) => Some(Word::integer(number)),
        Item::Array(number) => words.get(number).copied(),
    }
}

/// The item whose word it is.
pub fn item_of(words: &[Word], word: Word) -> Option<Item> {
    match word.as_integer() {
        Some(number) => Some(Item::Number(number)),
        None => words
            .iter()
            .position(|known| *known == word)
            .map(|number| Item::Array(number)),
    }
}

impl<M: Memory + Drop> Arrays<M> {
    /// No array, in a memory in which nothing stands.
    pub fn new(alloc: Global, memory: M) -> Arrays<M>
        requires { M.heap memory ≡ empty_heap (M.heap memory).space }
    {
        Arrays {
            memory,
            words: Vec::new(alloc),
        }
    }

    /// The word of a new array of so many nulls.
    pub fn make(&mut self, count: u16) -> Result<Option<Word>, AllocError> {
        if self.memory.need(2 + count as u32, 1).is_err() {
            return Ok(None);
        }
        let part = new_array(&mut self.memory, count);
        let word = array_word(part, false);
        self.words.push(word)?;
        Ok(Some(word))
    }

    /// The word of a new array of this item alone.
    pub fn make_of(&mut self, item: Item) -> Result<Option<Word>, AllocError> {
        let Some(held) = word_of(self.words.as_slice(), item) else {
            return Ok(None);
        };
        if self.memory.need(3, 1).is_err() {
            return Ok(None);
        }
        let part = make_array(&mut self.memory, &[held]);
        let word = array_word(part, false);
        self.words.push(word)?;
        Ok(Some(word))
    }

    /// What a field holds.
    pub fn load(&mut self, array: usize, field: u16) -> Option<Word> {
        let part = array_at(self.words.as_slice(), array)?;
        if field >= part.length {
            return None;
        }
        Some(element(&mut self.memory, part, field))
    }

    /// The first header of an array.
    pub fn header(&mut self, array: usize) -> Option<Header> {
        let part = array_at(self.words.as_slice(), array)?;
        Some(self.memory.header(part.address))
    }

    /// Makes a store where a record is permitted.
    pub fn store(&mut self, store: Store) -> Option<Permit> {
        let part = array_at(self.words.as_slice(), store.array)?;
        let word = word_of(self.words.as_slice(), store.item)?;
        if store.field >= part.length || store.slot >= SLOTS as u32 {
            return None;
        }
        let permit = self.memory.permit(Slot::of(store.slot), 1);
        if let Permit::Yes = permit {
            set_element(
                &mut self.memory,
                Slot::of(store.slot),
                part,
                store.field,
                word,
            );
        }
        Some(permit)
    }

    /// Copies fields to a place of an array, under a slot, where a record is permitted.
    pub fn copy(&mut self, slot: u32, from: Fields, array: usize, place: u16) -> Option<Permit> {
        let source = array_at(self.words.as_slice(), from.array)?;
        let target = array_at(self.words.as_slice(), array)?;
        if from.first as u32 + from.count as u32 > source.length as u32 {
            return None;
        }
        if place as u32 + from.count as u32 > target.length as u32 || slot >= SLOTS as u32 {
            return None;
        }
        let permit = self.memory.permit(Slot::of(slot), 1);
        if let Permit::Yes = permit {
            let part = interval(source, from.first, from.count);
            copy_elements(&mut self.memory, Slot::of(slot), part, target, place);
        }
        Some(permit)
    }
}

impl<M: LoggedMemory + Drop> Arrays<M> {
    /// How many words stand.
    pub fn used(&mut self) -> u32 {
        self.memory.used()
    }

    /// How many words there are.
    pub fn size(&mut self) -> u32 {
        self.memory.size()
    }

    /// Whether so many words and birth numbers are left.
    pub fn room(&mut self, words: u32, births: u32) -> bool {
        self.memory.room(words, births)
    }

    /// Asks for so many words and birth numbers.
    pub fn need(&mut self, words: u32, births: u32) -> Result<(), NeedFault> {
        self.memory.need(words, births)
    }

    /// Asks for so many records in the log of a slot.
    pub fn permit(&mut self, slot: Slot, count: u32) -> Permit {
        self.memory.permit(slot, count)
    }

    /// Whether a cycle is open.
    pub fn is_open(&self) -> bool {
        self.memory.is_open()
    }

    /// How much the collector has done.
    pub fn counts(&mut self) -> Counts {
        self.memory.counts()
    }

    /// Whether a cycle was opened.
    pub fn open(&mut self) -> bool {
        self.memory.open_cycle()
    }

    /// Closes the log of a slot, in an open cycle.
    pub fn close(&mut self, slot: u32) -> Option<Closing> {
        if slot >= SLOTS as u32 || !self.memory.is_open() {
            return None;
        }
        Some(self.memory.close_log(Slot::of(slot)))
    }
}
