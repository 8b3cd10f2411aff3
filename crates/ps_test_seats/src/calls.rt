//! Rows of single calls: the name of a call, its numbers, and what is stored, as `7` or as `@1`,
//! the second array; then a colon and the answer. A word is written as `x` and its sixteen digits.

ghost use Rattle.std.specs.Prelude.{◌<◌};

use crate::arrays::{Arrays, Fields, Item, Store};
use crate::lent::Lent;
use crate::sides::Sides;
use ps_core_laws::sides::Works;
use ps_gc::{MutatorSeat, Naming};
use ps_record::SLOTS;
use ps_record::slots::Slot;
use ps_word::words::Word;
use std::alloc::{AllocError, Global};
use std::fmt::Debug;

/// A call of a row.
#[derive(Drop)]
pub struct SeatCall<'a> {
    alloc: Global,
    name: &'a str,
    numbers: Vec<u32>,
    item: Item,
}

/// An answer; none: there is no such call.
pub type Answer = Result<Option<String>, AllocError>;

/// The item that a row names.
fn item_of(text: &str) -> Item {
    match text.strip_prefix('@') {
        Some(digits) => Item::Array(digits.parse::<usize>().unwrap_or(usize::MAX)),
        None => Item::Number(text.parse::<i32>().unwrap_or(0)),
    }
}

impl<'a> SeatCall<'a> {
    /// Read from a row.
    pub fn read(alloc: Global, row: &'a str) -> Result<SeatCall<'a>, AllocError> {
        let (name, rest) = row.split_once(' ').unwrap_or((row, ""));
        let (_, last) = rest.rsplit_once(' ').unwrap_or(("", rest));
        let mut numbers = Vec::new(alloc);
        for text in rest.split_whitespace() {
            numbers.push(text.parse::<u32>().unwrap_or(u32::MAX))?;
        }
        Ok(SeatCall {
            alloc,
            name,
            numbers,
            item: item_of(last),
        })
    }

    /// The number at a place.
    fn at(&self, place: usize) -> u32 {
        self.numbers.get(place).copied().unwrap_or(u32::MAX)
    }

    /// The number at a place as that of a field.
    fn field(&self, place: usize) -> u16 {
        u16::try_from(self.at(place)).unwrap_or(u16::MAX)
    }

    /// The slot at a place.
    fn slot(&self, place: usize) -> Slot {
        Slot::of(self.at(place))
    }

    /// An answer as text.
    fn text<T: Debug + Drop>(&self, answer: T) -> Answer {
        Ok(Some(format!(in self.alloc; "{answer:?}")?))
    }

    /// A word as text; none where there is none.
    fn word(&self, word: Option<u64>) -> Answer {
        match word {
            Some(number) => Ok(Some(format!(in self.alloc; "x{number:016x}")?)),
            None => self.text(word),
        }
    }

    /// A value's word as text.
    fn value(&self, word: Option<Word>) -> Answer {
        self.word(word.map(|word| word.0))
    }

    /// A call of a memory with its arrays.
    fn of_arrays<J: Naming>(&self, arrays: &mut Arrays<MutatorSeat<J>>) -> Answer {
        match self.name {
            "array" => self.value(arrays.make(self.field(0))?),
            "array-of" => self.value(arrays.make_of(self.item)?),
            "load" => self.value(arrays.load(self.at(0) as usize, self.field(1))),
            "header" => self.text(arrays.header(self.at(0) as usize)),
            "store" => self.text(arrays.store(Store {
                slot: self.at(0),
                array: self.at(1) as usize,
                field: self.field(2),
                item: self.item,
            })),
            "copy" => {
                let from = Fields {
                    array: self.at(1) as usize,
                    first: self.field(2),
                    count: self.field(3),
                };
                let copied = arrays.copy(self.at(0), from, self.at(4) as usize, self.field(5));
                self.text(copied)
            }
            "open" => self.text(arrays.open()),
            "close" => self.text(arrays.close(self.at(0))),
            _ => self.of_memory(arrays),
        }
    }

    /// A call of a memory.
    fn of_memory<J: Naming>(&self, arrays: &mut Arrays<MutatorSeat<J>>) -> Answer {
        match self.name {
            "used" => self.text(arrays.used()),
            "size" => self.text(arrays.size()),
            "room" => self.text(arrays.room(self.at(0), self.at(1))),
            "need" => self.text(arrays.need(self.at(0), self.at(1))),
            "permit" => self.text(arrays.permit(self.slot(0), self.at(1))),
            "is-open" => self.text(arrays.is_open()),
            "is-closed" => self.text(arrays.memory.vm.is_closed(self.slot(0))),
            "logged" => self.text(arrays.memory.vm.logged(self.slot(0))),
            "counts" => self.text(arrays.counts()),
            _ => Ok(None),
        }
    }

    /// A call of the two seats, the collector's by single steps.
    pub fn of_sides<J: Naming>(&self, sides: &mut Sides<J>) -> Answer {
        match self.name {
            "hand" => self.text(sides.hand()?),
            "replicate" => self.value(sides.replicate(self.at(0) as usize)),
            "replicate-all" => self.text(sides.replicate_all()),
            "scan" => self.text(sides.scan()),
            "scan-all" => self.text(sides.scan_all()),
            "drain" => self.text(sides.drain(self.at(0))),
            "taken" => self.text(sides.collector.taken(self.slot(0))),
            "flips" => self.text(sides.collector.flips()),
            "flip" => self.text(sides.try_flip()),
            "end" => self.text(sides.end()),
            "word" => self.word(sides.word(self.at(0) as u64)),
            _ => self.of_arrays(&mut sides.arrays),
        }
    }

    /// A call of the two seats, the collector as its thread has it.
    pub fn of_lent<J: Naming>(&self, lent: &mut Lent<J>) -> Answer {
        match self.name {
            "hand" => self.text(lent.hand()),
            "act" => self.text(lent.copier.act()),
            "work" => self.text(lent.work()),
            "has-drained" => self.text(lent.copier.has_drained()),
            "copied" => self.text(lent.copier.copied()),
            "look-anew" => self.text(lent.copier.look_anew()),
            "flip" => self.text(lent.try_flip()),
            "end" => self.text(lent.end()),
            _ => self.of_arrays(&mut lent.arrays),
        }
    }
}
