//! What is kept of the memory of a world.

ghost use Rattle.std.specs.Prelude.{◌≡◌, ◌≤◌, IfOk, length, take};
ghost use Rattle.ps_mem.specs.Plain.{heap_of_image};
ghost use Rattle.ps_worlds.specs.Images.{words_in};

use ps_mem::Memory;
use ps_mem::plain::PlainMemory;
use std::alloc::{AllocError, Global};

/// What stands in a memory: how many of its first words are those that stood at the start of the
/// program, the words behind them, and the next birth number.
#[derive(Debug, PartialEq, Eq, Hash, Drop)]
pub struct MemoryImage {
    pub same: usize,
    pub words: Vec<u64>,
    pub next: u64,
}

/// How many words two lists begin with that are the same.
fn same_front(one: &[u64], other: &[u64]) -> usize
    ensures within { result ≤ length other.now }
    ensures same { take result one.now ≡ take result other.now }
{
    let most = one.len().min(other.len());
    let mut same = 0;
    while same < most && one[same] == other[same] {
        same += 1;
    }
    same
}

impl MemoryImage {
    /// That of a memory, beside the words that stood at the start. `AllocError`: room for its words
    /// was refused.
    pub(crate) fn of(
        alloc: Global,
        memory: &PlainMemory,
        first: &[u64],
    ) -> Result<MemoryImage, AllocError>
        ensures { IfOk result (λ image. ⟦<PlainMemory as Memory>⟧.heap memory.now
            ≡ heap_of_image (words_in first.now image) image.next) }
    {
        let whole = memory.image(alloc)?;
        let same = same_front(first, whole.words.as_slice());
        let words = whole.words[same..].to_vec(alloc)?;
        Ok(MemoryImage {
            same,
            words,
            next: whole.next,
        })
    }
}
