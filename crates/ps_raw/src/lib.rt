//! A run of machine words, reached through raw pointers.
//!
//! Why so:
//! - A run of words is a `Vec` of the toolchain's library. A block of our own would need proofs
//!   about layout and freeing, and would make no step faster.
//! - A word is read and written through a raw pointer without a test of bounds, in small functions
//!   whose contracts name slices and numbers alone.
#![tactic(auto)]

ghost use Rattle.std.specs.Prelude.{◌≡◌, ◌+◌, ◌-◌, ◌<◌, ◌≤◌, ℕ, List, [], ◌++◌, length};
ghost use Rattle.std.specs.Prelude.{slice_index, slice_set, slice_range, take, drop, replicate};
ghost use Rattle.std.specs.Prelude.{IfOk, OnOk, OnErr, IsTrue, ◌↔◌};

use std::alloc::{AllocError, Global};
use std::marker::Model;

mod pointers;

use pointers::{move_down, move_up, read_at, write_at};

/// A run of 64-bit words on the heap, freed at its end. A contract sees it as the list of its
/// words. An index counts words from 0; that it lies within the run is the caller's condition, and
/// no test is made.
#[derive(Drop)]
pub struct RawWords {
    words: Vec<u64>,
}

impl Model for RawWords {
    ghost Value = { List ℕ };

    ghost view = { λ r. r.words.items };
}

impl RawWords {
    /// A run of `count` words, each 0. `AllocError`: the allocator refused.
    pub fn new(alloc: Global, count: usize) -> Result<RawWords, AllocError>
        ensures { IfOk result (λ words. words ≡ replicate count 0) }
    {
        let mut words = Vec::new(alloc);
        words.resize(count, 0)?;
        Ok(RawWords { words })
    }

    /// A run of no words, which takes no memory.
    pub fn empty(alloc: Global) -> RawWords
        ensures { result ≡ [] }
    {
        RawWords {
            words: Vec::new(alloc),
        }
    }

    /// How many words there are.
    pub fn len(&self) -> usize
        ensures { result ≡ length self.now }
    {
        self.words.len()
    }

    /// Whether there is none.
    pub fn is_empty(&self) -> bool
        ensures { IsTrue result ↔ (self.now ≡ []) }
    {
        self.words.is_empty()
    }

    /// The words.
    pub fn as_slice(&self) -> &[u64]
        ensures { result.now ≡ self.now }
    {
        self.words.as_slice()
    }

    /// The word at an index.
    #[inline]
    pub fn load(&self, index: usize) -> u64
        requires { index < length self.now }
        ensures { result ≡ slice_index self.now index }
    {
        read_at(&self.words, index)
    }

    /// Puts a word at an index.
    #[inline]
    pub fn store(&mut self, index: usize, word: u64)
        requires { index < length self.old }
        ensures { self.new ≡ slice_set self.old index word }
    {
        write_at(&mut self.words, index, word);
    }

    /// Copies `count` words from `from` on to the places from `to` on, as if all were read before
    /// any was written: the two runs may overlap.
    pub fn copy_within(&mut self, from: usize, to: usize, count: usize)
        requires source { from + count ≤ length self.old }
        requires target { to + count ≤ length self.old }
        ensures { self.new ≡ take to self.old
            ++ (slice_range self.old from (from + count) ++ drop (to + count) self.old) }
    {
        if to <= from {
            move_down(&mut self.words, from, to, count);
        } else {
            move_up(&mut self.words, from, to, count);
        }
    }

    /// Grows the run to `count` words: the old ones stay, and new ones are 0. `AllocError`: the
    /// allocator refused, and all is as it was.
    pub fn grow(&mut self, count: usize) -> Result<(), AllocError>
        requires { length self.old ≤ count }
        ensures ok { OnOk result (self.new ≡ self.old ++ replicate (count - length self.old) 0) }
        ensures err { OnErr result (self.new ≡ self.old) }
    {
        self.words.resize(count, 0)
    }
}
