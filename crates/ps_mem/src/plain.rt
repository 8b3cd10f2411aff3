//! A memory that grows and is never collected.

ghost use Rattle.std.specs.Prelude.{◌≡◌, ◌+◌, ◌≤◌, [], length, IfOk, OnOk, OnErr};
ghost use Rattle.ps_mem.specs.Heap.{Space, empty_heap};
ghost use Rattle.ps_mem.specs.Objects.{heap_in};
ghost use Rattle.ps_mem.specs.Plain.{plain_space, plain_grants, heap_of_image};

use crate::region::{REGION_LIMIT, Region};
use crate::{FieldAt, Memory, NeedFault, Permit};
use ps_language::kinds::Kind;
use ps_record::slots::Slot;
use ps_word::headers::Header;
use ps_word::words::Word;
use std::alloc::{AllocError, Global};

/// The words of the first growth, if no more are asked for.
const FIRST_SIZE: u32 = 1024;

/// A memory that grows up to 16,777,215 words and is never collected. No cycle is ever open, so
/// each `permit` answers `Yes`; `room` is always true.
#[derive(Drop)]
pub struct PlainMemory {
    region: Region,
}

/// The words of a memory that has so many and is to have `wanted`: at least double, as far as the
/// limit lets it.
fn grown(size: u32, wanted: u32) -> u32
    requires size { size ≤ plain_space.size }
    requires wanted { wanted ≤ plain_space.size }
    ensures enough { wanted ≤ result }
    ensures limit { result ≤ plain_space.size }
{
    wanted.max(2 * size).max(FIRST_SIZE).min(REGION_LIMIT)
}

/// What stands in a memory: two memories with equal images have the same heap.
#[derive(Debug, PartialEq, Eq, Hash, Drop)]
pub struct PlainImage {
    /// The words of the objects, one object after another.
    pub words: Vec<u64>,
    /// The next birth number.
    pub next: u64,
}

impl PlainMemory {
    /// A memory in which nothing stands.
    pub fn new(alloc: Global) -> PlainMemory
        ensures { ⟦<PlainMemory as Memory>⟧.heap result ≡ empty_heap plain_space }
    {
        PlainMemory {
            region: Region::empty(alloc),
        }
    }

    /// What stands in it. `AllocError`: room for its words was refused.
    pub fn image(&self, alloc: Global) -> Result<PlainImage, AllocError>
        ensures { IfOk result (λ image. ⟦<PlainMemory as Memory>⟧.heap self.now
            ≡ heap_of_image image.words.items image.next) }
    {
        let words = self.region.written(alloc)?;
        Ok(PlainImage {
            words,
            next: self.region.next(),
        })
    }
}

impl Memory for PlainMemory {
    ghost heap = { λ m. heap_in m.region.words m.region.used m.region.next plain_space };

    ghost grants = { λ m. plain_grants (length m.region.words) m.region.used m.region.next };

    fn used(&mut self) -> u32 {
        self.region.used()
    }

    fn size(&mut self) -> u32 {
        REGION_LIMIT
    }

    fn room(&mut self, _words: u32, _births: u32) -> bool {
        true
    }

    fn need(&mut self, words: u32, _births: u32) -> Result<(), NeedFault> {
        let used = self.region.used();
        let size = self.region.size();
        if words <= size - used {
            return Ok(());
        }
        if words > REGION_LIMIT - used {
            return Err(NeedFault::Memory);
        }
        match self.region.grow(grown(size, used + words)) {
            Ok(()) => Ok(()),
            Err(_) => Err(NeedFault::Memory),
        }
    }

    fn alloc(&mut self, kind: Kind, fields: u32) -> u32 {
        self.region.alloc(kind, fields)
    }

    fn alloc_body(&mut self, dictionary: u32, fields: u32) -> u32 {
        let birth = self.region.header(dictionary).birth;
        self.region.alloc_body(birth, fields)
    }

    #[inline]
    fn header(&mut self, address: u32) -> Header {
        self.region.header(address)
    }

    #[inline]
    fn load(&mut self, address: u32, place: u32) -> Word {
        self.region.load(address, place)
    }

    #[inline]
    fn load_at(&mut self, address: u32, at: usize) -> Word {
        self.region.load_at(address, at)
    }

    #[inline]
    fn fill(&mut self, address: u32, place: u32, word: Word) {
        self.region.put(address, place, word);
    }

    #[inline]
    fn store(&mut self, _slot: Slot, address: u32, place: u32, items: &[Word]) {
        self.region.write(address, place, items);
    }

    fn copy(&mut self, _slot: Slot, from: FieldAt, to: FieldAt, count: u32) {
        self.region.copy(from, to, count);
    }

    #[inline]
    fn permit(&mut self, _slot: Slot, _count: u32) -> Permit {
        Permit::Yes
    }
}
