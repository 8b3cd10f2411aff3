//! The words of a whole body, put together in a list outside the memory.

ghost use Rattle.std.specs.Prelude.{◌≡◌, ◌≢◌, ℕ, ◌+◌, ◌*◌, ◌/◌, ◌++◌, ◌<◌, ◌≤◌, List, [], OnOk, OnErr, length, map, replicate, take, vec_capacity};
ghost use Rattle.ps_language.specs.Limits.{capacity_limit};
ghost use Rattle.ps_language.specs.Value.{Store};
ghost use Rattle.ps_language.specs.Access.{dictionary_at, with_dictionary};
ghost use Rattle.ps_mem.specs.Heap.{birth_at, object_at, zero_word};
ghost use Rattle.ps_mem.specs.Index.{pairs_of_words};
ghost use Rattle.ps_mem.specs.Keeps.{Keeps};
ghost use Rattle.ps_mem.specs.References.{StandsAs};
ghost use Rattle.ps_mem.specs.Shows.{AreValues, AreWithin, IsSound, Shows, pair_of, words_of_pairs};
ghost use Rattle.ps_dict.specs.Bodies.{whole_body};
ghost use Rattle.ps_dict.specs.Places.{body_at, capacity_at};
ghost use Rattle.ps_dict.specs.Puts.{AfterChange};

use crate::changes::natural_word;
use crate::dictionaries::{ACCESS, COUNT, body};
use crate::fills::fill_words;
use crate::index::{first_place, free_in};
use ps_language::kinds::Kind;
use ps_mem::{Memory, Slot};
use ps_word::values::Content;
use ps_word::words::Word;
use std::alloc::AllocError;

/// Adds so many nulls to a list. `AllocError`: the list lacks room for them, and its growth was
/// refused; it is what it was.
pub(crate) fn push_nulls(scratch: &mut Vec<Word>, count: u32) -> Result<(), AllocError>
    ensures nulls { OnOk result
        (scratch.new.items ≡ scratch.old.items ++ replicate count zero_word) }
    ensures unchanged { OnErr result (scratch.new.items ≡ scratch.old.items) }
    ensures full { OnErr result (vec_capacity scratch.old < length scratch.old.items + count) }
    ensures room { vec_capacity scratch.old ≤ vec_capacity scratch.new }
{
    scratch.resize(scratch.len() + count as usize, Word::null())
}

/// Makes the words of pairs, key before value, those of a whole body of a capacity: nulls behind
/// them, and their index behind those. `AllocError`: the list lacks room for the body, and its
/// growth was refused; it is empty then.
pub(crate) fn complete_body<M: Memory>(
    memory: &mut M,
    capacity: u32,
    scratch: &mut Vec<Word>,
) -> Result<(), AllocError>
    requires few { capacity ≤ capacity_limit }
    requires even { 2 * (length scratch.old.items / 2) ≡ length scratch.old.items }
    requires room { length scratch.old.items / 2 ≤ capacity }
    requires held { AreValues (M.heap memory.old) scratch.old.items }
    ensures heap { M.heap memory.new ≡ M.heap memory.old }
    ensures grants { M.grants memory.new ≡ M.grants memory.old }
    ensures words { OnOk result (scratch.new.items ≡ whole_body (birth_at (M.heap memory.old))
        capacity (pairs_of_words scratch.old.items)) }
    ensures empty { OnErr result (scratch.new.items ≡ []) }
    ensures full { OnErr result (vec_capacity scratch.old < 3 * capacity) }
    ensures room { vec_capacity scratch.old ≤ vec_capacity scratch.new }
{
    let count = (scratch.len() / 2) as u32;
    match push_nulls(scratch, 3 * capacity - 2 * count) {
        Ok(()) => {}
        Err(error) => {
            scratch.clear();
            return Err(error);
        }
    }
    for position in 0..count {
        let key = scratch[2 * position as usize];
        let start = first_place(memory, key, capacity);
        let place = free_in(&scratch[2 * capacity as usize..], start, capacity);
        scratch[(2 * capacity + place) as usize] = natural_word(position);
    }
    Ok(())
}

/// How many pairs a body has, and for how many it has room.
#[derive(Clone, Copy)]
pub(crate) struct Size {
    pub count: u32,
    pub capacity: u32,
}

/// Writes the words of a whole body over those of a dictionary's body, and the number of its pairs:
/// in a cycle one record each. The words are those of a body of its capacity, with so many pairs.
pub(crate) fn write_over<M: Memory>(
    memory: &mut M,
    slot: Slot,
    address: u32,
    count: u32,
    words: &[Word],
)
    requires granted { 2 ≤ (M.grants memory.old).records slot }
    requires sound { IsSound (M.heap memory.old) }
    requires known { StandsAs (M.heap memory.old) Kind.Dictionary address 4 }
    requires count { count ≡ length (take count (pairs_of_words words.now)) }
    requires some { 1 ≤ count }
    requires room { count ≤ capacity_at (M.heap memory.old) address }
    requires held { AreValues (M.heap memory.old)
        (words_of_pairs (take count (pairs_of_words words.now))) }
    requires words { words.now ≡ whole_body (birth_at (M.heap memory.old))
        (capacity_at (M.heap memory.old) address) (take count (pairs_of_words words.now)) }
    ensures sound { IsSound (M.heap memory.new) }
    ensures keeps { Keeps (M.heap memory.old) (M.heap memory.new) }
    ensures births { birth_at (M.heap memory.new) ≡ birth_at (M.heap memory.old) }
    ensures others { (other : ℕ) → address ≢ other → body_at (M.heap memory.old) address ≢ other
        → object_at (M.heap memory.new) other ≡ object_at (M.heap memory.old) other }
    ensures grants { AfterChange (M.grants memory.old) (M.grants memory.new) slot 2 0 }
    ensures shows { (names : List (List ℕ)) (s : Store) → Shows (M.heap memory.old) names s
        → AreWithin (M.heap memory.old) names s
        (words_of_pairs (take count (pairs_of_words words.now)))
        → Shows (M.heap memory.new) names
        (with_dictionary s (birth_at (M.heap memory.old) address)
        (record (dictionary_at s (birth_at (M.heap memory.old) address)) {
          pairs = map (pair_of (birth_at (M.heap memory.old)) names)
              (take count (pairs_of_words words.now));
        })) }
{
    let body = body(memory, address);
    let number = natural_word(count);
    memory.store(slot, body, 0, words);
    memory.store(slot, address, COUNT, &[number]);
}

/// Gives a dictionary a new body of these words, of this size, by one store of its fields: in a
/// cycle one record. The words are those of a body of that capacity, with so many pairs.
pub(crate) fn write_new<M: Memory>(
    memory: &mut M,
    slot: Slot,
    address: u32,
    size: Size,
    words: &[Word],
)
    requires granted { 1 ≤ (M.grants memory.old).records slot }
    requires words_granted { 2 + 3 * size.capacity ≤ (M.grants memory.old).words }
    requires capacity { size.capacity ≤ capacity_limit }
    requires sound { IsSound (M.heap memory.old) }
    requires known { StandsAs (M.heap memory.old) Kind.Dictionary address 4 }
    requires count { size.count ≡ length (take size.count (pairs_of_words words.now)) }
    requires room { size.count ≤ size.capacity }
    requires held { AreValues (M.heap memory.old)
        (words_of_pairs (take size.count (pairs_of_words words.now))) }
    requires words { words.now ≡ whole_body (birth_at (M.heap memory.old)) size.capacity
        (take size.count (pairs_of_words words.now)) }
    ensures sound { IsSound (M.heap memory.new) }
    ensures keeps { Keeps (M.heap memory.old) (M.heap memory.new) }
    ensures grants { AfterChange (M.grants memory.old) (M.grants memory.new) slot 1
        (2 + 3 * size.capacity) }
    ensures shows { (names : List (List ℕ)) (s : Store) → Shows (M.heap memory.old) names s
        → AreWithin (M.heap memory.old) names s
        (words_of_pairs (take size.count (pairs_of_words words.now)))
        → Shows (M.heap memory.new) names
        (with_dictionary s (birth_at (M.heap memory.old) address)
        (record (dictionary_at s (birth_at (M.heap memory.old) address)) {
          pairs = map (pair_of (birth_at (M.heap memory.old)) names)
              (take size.count (pairs_of_words words.now));
          capacity = size.capacity;
        })) }
{
    let access = memory.load(address, ACCESS);
    let body = memory.alloc_body(address, 3 * size.capacity);
    fill_words(memory, body, words);
    let number = natural_word(size.count);
    let room = natural_word(size.capacity);
    let reference = Word::literal(Content::Body(body));
    memory.store(slot, address, COUNT, &[number, room, access, reference]);
}
