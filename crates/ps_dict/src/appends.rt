//! Pairs that are put behind those of a dictionary, in the room that there is.

ghost use Rattle.std.specs.Prelude.{◌≡◌, ◌≢◌, ℕ, ◌+◌, ◌*◌, ◌/◌, ◌++◌, ◌≤◌, List, length, map};
ghost use Rattle.ps_language.specs.Limits.{capacity_limit};
ghost use Rattle.ps_language.specs.Value.{Store};
ghost use Rattle.ps_language.specs.Access.{dictionary_at, with_dictionary};
ghost use Rattle.ps_mem.specs.Heap.{Heap, birth_at, object_at, stored};
ghost use Rattle.ps_mem.specs.Index.{pairs_of_words, index_words};
ghost use Rattle.ps_mem.specs.Keeps.{Keeps};
ghost use Rattle.ps_mem.specs.References.{StandsAs};
ghost use Rattle.ps_mem.specs.Shows.{AreValues, AreWithin, IsNatural, IsSound, IsValue, Shows, pair_of};
ghost use Rattle.ps_dict.specs.Places.{count_at, capacity_at, body_at, pairs_at};
ghost use Rattle.ps_dict.specs.Puts.{AfterChange};

use crate::changes::natural_word;
use crate::dictionaries::{COUNT, body, capacity, length};
use crate::index::free_place;
use ps_language::kinds::Kind;
use ps_mem::{Memory, Slot};
use ps_word::words::Word;

/// Puts the positions of new pairs, given by their words, into the index of a dictionary, as they
/// will stand behind its pairs: one record for each in a cycle.
fn index_pairs<M: Memory>(memory: &mut M, slot: Slot, address: u32, words: &[Word])
    requires granted { length words.now / 2 ≤ (M.grants memory.old).records slot }
    requires sound { IsSound (M.heap memory.old) }
    requires known { StandsAs (M.heap memory.old) Kind.Dictionary address 4 }
    requires room { count_at (M.heap memory.old) address + length words.now / 2 ≤ capacity_at
        (M.heap memory.old) address }
    requires held { AreValues (M.heap memory.old) words.now }
    ensures heap { M.heap memory.new ≡ stored (M.heap memory.old)
        (body_at (M.heap memory.old) address) (2 * capacity_at (M.heap memory.old) address)
        (index_words (birth_at (M.heap memory.old)) (capacity_at (M.heap memory.old) address)
        (pairs_at (M.heap memory.old) address ++ pairs_of_words words.now)) }
    ensures grants { AfterChange (M.grants memory.old) (M.grants memory.new) slot
        (length words.now / 2) 0 }
{
    let count = length(memory, address);
    let body = body(memory, address);
    let capacity = capacity(memory, address);
    for position in 0..words.len() / 2 {
        let key = words[2 * position];
        let place = free_place(memory, body, capacity, key);
        let word = natural_word(count + position as u32);
        memory.store(slot, body, 2 * capacity + place, &[word]);
    }
}

/// The word of a number of pairs with some more, given by their words.
fn count_with(count: u32, words: &[Word]) -> Word
    requires { count + length words.now / 2 ≤ capacity_limit }
    ensures value { IsNatural result (count + length words.now / 2) }
    ensures held { (h : Heap) → IsValue h result }
{
    natural_word(count + (words.len() / 2) as u32)
}

/// Puts new pairs, given by their words, key before value, behind those of a dictionary that has
/// room for them: in a cycle one record for each position in the index, one for the pairs, and one
/// for their number.
#[inline(never)]
pub(crate) fn append_pairs<M: Memory>(memory: &mut M, slot: Slot, address: u32, words: &[Word])
    requires granted { length words.now / 2 + 2 ≤ (M.grants memory.old).records slot }
    requires some { 1 ≤ length words.now }
    requires even { 2 * (length words.now / 2) ≡ length words.now }
    requires sound { IsSound (M.heap memory.old) }
    requires known { StandsAs (M.heap memory.old) Kind.Dictionary address 4 }
    requires room { count_at (M.heap memory.old) address + length words.now / 2 ≤ capacity_at
        (M.heap memory.old) address }
    requires held { AreValues (M.heap memory.old) words.now }
    ensures sound { IsSound (M.heap memory.new) }
    ensures keeps { Keeps (M.heap memory.old) (M.heap memory.new) }
    ensures births { birth_at (M.heap memory.new) ≡ birth_at (M.heap memory.old) }
    ensures others { (other : ℕ) → address ≢ other → body_at (M.heap memory.old) address ≢ other
        → object_at (M.heap memory.new) other ≡ object_at (M.heap memory.old) other }
    ensures grants { AfterChange (M.grants memory.old) (M.grants memory.new) slot
        (length words.now / 2 + 2) 0 }
    ensures shows { (names : List (List ℕ)) (s : Store) → Shows (M.heap memory.old) names s
        → AreWithin (M.heap memory.old) names s words.now → let d =
        dictionary_at s (birth_at (M.heap memory.old) address) in
        Shows (M.heap memory.new) names
        (with_dictionary s (birth_at (M.heap memory.old) address)
        (record d {
          pairs = d.pairs
              ++ map (pair_of (birth_at (M.heap memory.old)) names) (pairs_of_words words.now);
        })) }
{
    let count = length(memory, address);
    let body = body(memory, address);
    let more = count_with(count, words);
    index_pairs(memory, slot, address, words);
    memory.store(slot, body, 2 * count, words);
    memory.store(slot, address, COUNT, &[more]);
}
