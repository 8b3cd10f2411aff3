//! Bytes of strings, read by whole words.

ghost use Rattle.std.specs.Prelude.{◌≡◌, ℕ, ◌+◌, ◌*◌, ◌%◌, ◌<◌, ◌≤◌, ◌^◌, List, length, slice_range};
ghost use Rattle.ps_language.specs.Value.{Store};
ghost use Rattle.ps_language.specs.Access.{bytes, part_bytes};
ghost use Rattle.ps_mem.specs.Heap.{birth_at};
ghost use Rattle.ps_mem.specs.Meaning.{part_of};
ghost use Rattle.ps_mem.specs.References.{StandsAs, words_for};
ghost use Rattle.ps_mem.specs.Shows.{IsSound, Shows};

use crate::strings::BYTES;
use ps_language::kinds::Kind;
use ps_mem::Memory;
use ps_word::values::Part;

/// Puts the bytes of whole words, from a word on, into a list of as many bytes. The memory stays as
/// it is.
#[inline]
fn read_words<M: Memory>(memory: &mut M, address: u32, first: u32, text: &mut [u8])
    requires known { StandsAs (M.heap memory.old) Kind.Text address (words_for
        (8 * first + length text.old)) }
    requires first { first < 2 ^ 16 }
    requires whole { length text.old % 8 ≡ 0 }
    requires short { length text.old < 2 ^ 20 }
    ensures heap { M.heap memory.new ≡ M.heap memory.old }
    ensures grants { M.grants memory.new ≡ M.grants memory.old }
    ensures length { length text.new ≡ length text.old }
    ensures value { (names : List (List ℕ)) (s : Store) → Shows (M.heap memory.old) names s
        → 8 * first + length text.old ≤ length (bytes s (birth_at (M.heap memory.old) address))
        → text.new ≡ slice_range (bytes s (birth_at (M.heap memory.old) address)) (8 * first)
        (8 * first + length text.old) }
{
    let start = address as usize + first as usize;
    for index in 0..text.len() / 8 {
        let bytes = memory.load_at(address, start + index).0.to_le_bytes();
        text[8 * index..8 * index + 8].copy_from_slice(&bytes);
    }
}

/// Puts the bytes of a string from one on into a list, as many as it has. The memory stays as it
/// is.
#[inline]
pub(crate) fn read_run<M: Memory>(memory: &mut M, address: u32, start: u32, text: &mut [u8])
    requires known { StandsAs (M.heap memory.old) Kind.Text address (words_for
        (start + length text.old)) }
    requires short { start + length text.old < 2 ^ 18 }
    ensures heap { M.heap memory.new ≡ M.heap memory.old }
    ensures grants { M.grants memory.new ≡ M.grants memory.old }
    ensures length { length text.new ≡ length text.old }
    ensures value { (names : List (List ℕ)) (s : Store) → Shows (M.heap memory.old) names s
        → start + length text.old ≤ length (bytes s (birth_at (M.heap memory.old) address))
        → text.new ≡ slice_range (bytes s (birth_at (M.heap memory.old) address)) start
        (start + length text.old) }
{
    let end = start + text.len() as u32;
    let mut place = start;
    while place < end {
        let first = place % BYTES;
        let at = (place - start) as usize;
        let left = end - place;
        if first == 0 && left >= BYTES {
            let whole = left - left % BYTES;
            let words = &mut text[at..at + whole as usize];
            read_words(memory, address, place / BYTES, words);
            place += whole;
        } else {
            let bytes = memory.load(address, place / BYTES).0.to_le_bytes();
            let count = (BYTES - first).min(left);
            let run = &bytes[first as usize..(first + count) as usize];
            text[at..at + count as usize].copy_from_slice(run);
            place += count;
        }
    }
}

/// Puts the bytes of a part into a list of as many bytes. The memory stays as it is.
pub fn read_part<M: Memory>(memory: &mut M, part: Part, text: &mut [u8])
    requires sound { IsSound (M.heap memory.old) }
    requires known { StandsAs (M.heap memory.old) Kind.Text part.address (words_for
        (part.offset + part.length)) }
    requires length { length text.old ≡ part.length }
    ensures heap { M.heap memory.new ≡ M.heap memory.old }
    ensures grants { M.grants memory.new ≡ M.grants memory.old }
    ensures length { length text.new ≡ part.length }
    ensures value { (names : List (List ℕ)) (s : Store) → Shows (M.heap memory.old) names s
        → part.offset + part.length ≤ length (bytes s (birth_at (M.heap memory.old) part.address))
        → text.new ≡ part_bytes s (part_of (birth_at (M.heap memory.old)) part) }
{
    read_run(memory, part.address, part.offset as u32, text);
}
