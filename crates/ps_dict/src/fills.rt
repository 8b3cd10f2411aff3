//! Words filled into objects that are new.

ghost use Rattle.std.specs.Prelude.{◌≡◌, ◌≢◌, ℕ, ◌+◌, ◌*◌, ◌++◌, ◌<◌, ◌≤◌, ◌^◌, [], ◌∷◌, None, IsTrue, length, take, drop, replicate};
ghost use Rattle.ps_language.specs.Limits.{capacity_limit};
ghost use Rattle.ps_mem.specs.Heap.{object_at, birth_at, fields_at, stored, made_body, AfterNew, IsKind, zero_word};
ghost use Rattle.ps_mem.specs.Index.{pairs_of_words, index_words};
ghost use Rattle.ps_mem.specs.References.{StandsAs, AreKnown};
ghost use Rattle.ps_mem.specs.Shows.{IsValue, AreValues, IsSound};
ghost use Rattle.ps_dict.specs.Places.{count_at, body_at, pairs_at};
ghost use Rattle.ps_dict.specs.Bodies.{with_body};

use crate::changes::natural_word;
use crate::dictionaries::{body, length};
use crate::index::free_place;
use ps_language::kinds::Kind;
use ps_mem::Memory;
use ps_word::words::Word;

/// Fills the first words of one object into another.
fn fill_from<M: Memory>(memory: &mut M, to: u32, from: u32, count: u32)
    requires fresh { IsTrue ((M.grants memory.old).fresh to) }
    requires apart { to ≢ from }
    requires source { count ≤ length (fields_at (M.heap memory.old) from) }
    requires target { count ≤ length (fields_at (M.heap memory.old) to) }
    requires known { AreKnown (M.heap memory.old) (fields_at (M.heap memory.old) from) }
    ensures heap { M.heap memory.new ≡ stored (M.heap memory.old) to 0
        (take count (fields_at (M.heap memory.old) from)) }
    ensures grants { M.grants memory.new ≡ M.grants memory.old }
{
    for place in 0..count {
        let word = memory.load(from, place);
        memory.fill(to, place, word);
    }
}

/// Fills words into the first fields of an object.
pub(crate) fn fill_words<M: Memory>(memory: &mut M, address: u32, words: &[Word])
    requires fresh { IsTrue ((M.grants memory.old).fresh address) }
    requires few { length words.now < 2 ^ 16 }
    requires target { length words.now ≤ length (fields_at (M.heap memory.old) address) }
    requires known { AreKnown (M.heap memory.old) words.now }
    ensures heap { M.heap memory.new ≡ stored (M.heap memory.old) address 0 words.now }
    ensures grants { M.grants memory.new ≡ M.grants memory.old }
{
    let mut place = 0;
    for word in words {
        memory.fill(address, place, *word);
        place += 1;
    }
}

/// A new body for a dictionary, with its pairs and one more, and no index yet.
fn paired_body<M: Memory>(
    memory: &mut M,
    address: u32,
    capacity: u32,
    key: Word,
    value: Word,
) -> u32
    requires words { 2 + 3 * capacity ≤ (M.grants memory.old).words }
    requires capacity { capacity ≤ capacity_limit }
    requires room { count_at (M.heap memory.old) address < capacity }
    requires sound { IsSound (M.heap memory.old) }
    requires known { StandsAs (M.heap memory.old) Kind.Dictionary address 4 }
    requires key { IsValue (M.heap memory.old) key }
    requires value { IsValue (M.heap memory.old) value }
    ensures address { result < 2 ^ 24 }
    ensures free { object_at (M.heap memory.old) result ≡ None }
    ensures heap { M.heap memory.new ≡ stored
        (made_body (M.heap memory.old) result (birth_at (M.heap memory.old) address) (3 * capacity))
        result 0 (take (2 * count_at (M.heap memory.old) address)
        (fields_at (M.heap memory.old) (body_at (M.heap memory.old) address)) ++ key ∷ value ∷ []) }
    ensures grants { AfterNew (M.grants memory.old) (M.grants memory.new) result (2 + 3 * capacity)
        0 }
{
    let count = length(memory, address);
    let old = body(memory, address);
    let new = memory.alloc_body(address, 3 * capacity);
    fill_from(memory, new, old, 2 * count);
    memory.fill(new, 2 * count, key);
    memory.fill(new, 2 * count + 1, value);
    new
}

/// Fills the index of a body, whose places are free, with the positions of its first pairs, so
/// many.
fn fill_index<M: Memory>(memory: &mut M, body: u32, capacity: u32, count: u32)
    requires fresh { IsTrue ((M.grants memory.old).fresh body) }
    requires few { capacity ≤ capacity_limit }
    requires room { count ≤ capacity }
    requires stands { IsKind Kind.Body (object_at (M.heap memory.old) body) }
    requires fields { length (fields_at (M.heap memory.old) body) ≡ 3 * capacity }
    requires values { AreValues (M.heap memory.old) (fields_at (M.heap memory.old) body) }
    requires free { drop (2 * capacity) (fields_at (M.heap memory.old) body) ≡ replicate capacity
        zero_word }
    ensures heap { M.heap memory.new ≡ stored (M.heap memory.old) body (2 * capacity)
        (index_words (birth_at (M.heap memory.old)) capacity
        (take count (pairs_of_words (fields_at (M.heap memory.old) body)))) }
    ensures grants { M.grants memory.new ≡ M.grants memory.old }
{
    for position in 0..count {
        let key = memory.load(body, 2 * position);
        let place = free_place(memory, body, capacity, key);
        let word = natural_word(position);
        memory.fill(body, 2 * capacity + place, word);
    }
}

/// A new body for a dictionary, with its pairs, one more, and their index.
pub(crate) fn new_body<M: Memory>(
    memory: &mut M,
    address: u32,
    capacity: u32,
    key: Word,
    value: Word,
) -> u32
    requires words { 2 + 3 * capacity ≤ (M.grants memory.old).words }
    requires capacity { capacity ≤ capacity_limit }
    requires room { count_at (M.heap memory.old) address < capacity }
    requires sound { IsSound (M.heap memory.old) }
    requires known { StandsAs (M.heap memory.old) Kind.Dictionary address 4 }
    requires key { IsValue (M.heap memory.old) key }
    requires value { IsValue (M.heap memory.old) value }
    ensures address { result < 2 ^ 24 }
    ensures free { object_at (M.heap memory.old) result ≡ None }
    ensures heap { M.heap memory.new ≡ with_body (M.heap memory.old) address result capacity
        (pairs_at (M.heap memory.old) address ++ (key, value) ∷ []) }
    ensures grants { AfterNew (M.grants memory.old) (M.grants memory.new) result (2 + 3 * capacity)
        0 }
{
    let count = length(memory, address);
    let body = paired_body(memory, address, capacity, key, value);
    fill_index(memory, body, capacity, count + 1);
    body
}
