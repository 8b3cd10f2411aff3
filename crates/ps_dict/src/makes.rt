//! New dictionaries.

ghost use Rattle.std.specs.Prelude.{◌≡◌, ◌≢◌, ℕ, ◌+◌, ◌*◌, ◌++◌, ◌<◌, ◌≤◌, ◌/◌, ◌^◌, map, List, [], ◌∷◌, None, IsTrue, length};
ghost use Rattle.ps_language.specs.Value.{Store, dictionary_object};
ghost use Rattle.ps_language.specs.Access.{empty_dictionary, dictionary_at, with_dictionary};
ghost use Rattle.std.specs.List.{AllPairs};
ghost use Rattle.ps_language.specs.Limits.{capacity_limit};
ghost use Rattle.ps_language.specs.Dictionaries.{body_words, put_pair, put_pairs};
ghost use Rattle.ps_mem.specs.Heap.{Heap, object_at, birth_at, AfterNew};
ghost use Rattle.ps_mem.specs.Keeps.{Keeps, Extends};
ghost use Rattle.ps_mem.specs.References.{StandsAs};
ghost use Rattle.ps_mem.specs.Meaning.{value_of};
ghost use Rattle.ps_mem.specs.Shows.{IsValue, AreValues, IsSound, IsWithin, AreWithin, pair_of, Shows};
ghost use Rattle.ps_dict.specs.Places.{HasNewBody, count_at, capacity_at, body_at};
ghost use Rattle.ps_mem.specs.Index.{pairs_of_words};
ghost use Rattle.ps_dict.specs.Puts.{with_value};

use crate::changes::natural_word;
use crate::dictionaries::{ACCESS, COUNT, body, capacity, length, position};
use crate::fills::fill_words;
use crate::index::free_place;
use ps_language::access::Access;
use ps_language::kinds::Kind;
use ps_mem::Memory;
use ps_word::values::{Content, access_number};
use ps_word::words::Word;

/// A new dictionary without pairs, of unlimited access, with room for so many, at most 21,845
/// (PLRM2, 8 'dict'). It and its body may still be filled.
pub fn new_dictionary<M: Memory>(memory: &mut M, capacity: u16) -> u32
    requires limit { capacity ≤ capacity_limit }
    requires words { 6 + body_words capacity ≤ (M.grants memory.old).words }
    requires births { 1 ≤ (M.grants memory.old).births }
    requires sound { IsSound (M.heap memory.old) }
    ensures address { result < 2 ^ 24 }
    ensures free { object_at (M.heap memory.old) result ≡ None }
    ensures body_free { object_at (M.heap memory.old) (body_at (M.heap memory.new) result) ≡ None }
    ensures known { StandsAs (M.heap memory.new) Kind.Dictionary result 4 }
    ensures sound { IsSound (M.heap memory.new) }
    ensures extends { Extends (M.heap memory.old) (M.heap memory.new) }
    ensures birth { birth_at (M.heap memory.new) result ≡ (M.heap memory.old).next }
    ensures count { count_at (M.heap memory.new) result ≡ 0 }
    ensures capacity { capacity_at (M.heap memory.new) result ≡ capacity }
    ensures grants { AfterNew (M.grants memory.old) (M.grants memory.new) result
        (6 + body_words capacity) 1 }
    ensures body_fresh { HasNewBody (M.heap memory.new) (M.grants memory.new) result }
    ensures shows { (names : List (List ℕ)) (s : Store) → Shows (M.heap memory.old) names s
        → Shows (M.heap memory.new) names (s ++ dictionary_object (empty_dictionary capacity)
        ∷ []) }
{
    let address = memory.alloc(Kind::Dictionary, 4);
    let body = memory.alloc_body(address, 3 * capacity as u32);
    let none = natural_word(0);
    let room = natural_word(capacity as u32);
    let reference = Word::literal(Content::Body(body));
    fill_words(memory, address, &[none, room, none, reference]);
    address
}

/// Another value at a place of a dictionary whose body may be filled.
fn fill_value<M: Memory>(memory: &mut M, address: u32, place: u32, value: Word)
    requires body_fresh { HasNewBody (M.heap memory.old) (M.grants memory.old) address }
    requires sound { IsSound (M.heap memory.old) }
    requires known { StandsAs (M.heap memory.old) Kind.Dictionary address 4 }
    requires place { place < count_at (M.heap memory.old) address }
    requires held { IsValue (M.heap memory.old) value }
    ensures sound { IsSound (M.heap memory.new) }
    ensures keeps { Keeps (M.heap memory.old) (M.heap memory.new) }
    ensures births { birth_at (M.heap memory.new) ≡ birth_at (M.heap memory.old) }
    ensures extends { (g : Heap) → Extends g (M.heap memory.old) → object_at g address ≡ None
        → object_at g (body_at (M.heap memory.old) address) ≡ None → Extends g (M.heap memory.new) }
    ensures body { body_at (M.heap memory.new) address ≡ body_at (M.heap memory.old) address }
    ensures capacity { capacity_at (M.heap memory.new) address ≡ capacity_at (M.heap memory.old)
        address }
    ensures grants { M.grants memory.new ≡ M.grants memory.old }
    ensures count { count_at (M.heap memory.new) address ≡ count_at (M.heap memory.old) address }
    ensures shows { (names : List (List ℕ)) (s : Store) → Shows (M.heap memory.old) names s
        → IsWithin (birth_at (M.heap memory.old)) names s value → let d =
        dictionary_at s (birth_at (M.heap memory.old) address) in
        Shows (M.heap memory.new) names
        (with_dictionary s (birth_at (M.heap memory.old) address)
        (record d {
          pairs = with_value d.pairs place
              (value_of (birth_at (M.heap memory.old)) names value);
        })) }
{
    let body = body(memory, address);
    memory.fill(body, 2 * place + 1, value);
}

/// A pair more in a dictionary that may be filled and has room for it.
fn fill_last<M: Memory>(memory: &mut M, address: u32, key: Word, value: Word)
    requires fresh { IsTrue ((M.grants memory.old).fresh address) }
    requires body_fresh { HasNewBody (M.heap memory.old) (M.grants memory.old) address }
    requires sound { IsSound (M.heap memory.old) }
    requires known { StandsAs (M.heap memory.old) Kind.Dictionary address 4 }
    requires room { count_at (M.heap memory.old) address < capacity_at (M.heap memory.old) address }
    requires key { IsValue (M.heap memory.old) key }
    requires value { IsValue (M.heap memory.old) value }
    ensures sound { IsSound (M.heap memory.new) }
    ensures keeps { Keeps (M.heap memory.old) (M.heap memory.new) }
    ensures births { birth_at (M.heap memory.new) ≡ birth_at (M.heap memory.old) }
    ensures extends { (g : Heap) → Extends g (M.heap memory.old) → object_at g address ≡ None
        → object_at g (body_at (M.heap memory.old) address) ≡ None → Extends g (M.heap memory.new) }
    ensures body { body_at (M.heap memory.new) address ≡ body_at (M.heap memory.old) address }
    ensures capacity { capacity_at (M.heap memory.new) address ≡ capacity_at (M.heap memory.old)
        address }
    ensures grants { M.grants memory.new ≡ M.grants memory.old }
    ensures count { count_at (M.heap memory.new) address
        ≡ count_at (M.heap memory.old) address + 1 }
    ensures shows { (names : List (List ℕ)) (s : Store) → Shows (M.heap memory.old) names s
        → IsWithin (birth_at (M.heap memory.old)) names s key
        → IsWithin (birth_at (M.heap memory.old)) names s value → let d =
        dictionary_at s (birth_at (M.heap memory.old) address) in
        Shows (M.heap memory.new) names
        (with_dictionary s (birth_at (M.heap memory.old) address)
        (record d {
          pairs = d.pairs
              ++ (
                value_of (birth_at (M.heap memory.old)) names key,
                value_of
                    (birth_at (M.heap memory.old)) names value,
              ) ∷ [];
        })) }
{
    let count = length(memory, address);
    let body = body(memory, address);
    let capacity = capacity(memory, address);
    let place = free_place(memory, body, capacity, key);
    let more = natural_word(count + 1);
    let last = natural_word(count);
    memory.fill(address, COUNT, more);
    memory.fill(body, 2 * count, key);
    memory.fill(body, 2 * count + 1, value);
    memory.fill(body, 2 * capacity + place, last);
}

/// Puts a key with its value into a dictionary that may be filled and has room for a pair more.
fn fill_pair<M: Memory>(memory: &mut M, address: u32, key: Word, value: Word)
    requires fresh { IsTrue ((M.grants memory.old).fresh address) }
    requires body_fresh { HasNewBody (M.heap memory.old) (M.grants memory.old) address }
    requires sound { IsSound (M.heap memory.old) }
    requires known { StandsAs (M.heap memory.old) Kind.Dictionary address 4 }
    requires room { count_at (M.heap memory.old) address < capacity_at (M.heap memory.old) address }
    requires key { IsValue (M.heap memory.old) key }
    requires value { IsValue (M.heap memory.old) value }
    ensures sound { IsSound (M.heap memory.new) }
    ensures keeps { Keeps (M.heap memory.old) (M.heap memory.new) }
    ensures births { birth_at (M.heap memory.new) ≡ birth_at (M.heap memory.old) }
    ensures extends { (g : Heap) → Extends g (M.heap memory.old) → object_at g address ≡ None
        → object_at g (body_at (M.heap memory.old) address) ≡ None → Extends g (M.heap memory.new) }
    ensures body { body_at (M.heap memory.new) address ≡ body_at (M.heap memory.old) address }
    ensures capacity { capacity_at (M.heap memory.new) address ≡ capacity_at (M.heap memory.old)
        address }
    ensures grants { M.grants memory.new ≡ M.grants memory.old }
    ensures count { count_at (M.heap memory.new) address
        ≤ count_at (M.heap memory.old) address + 1 }
    ensures shows { (names : List (List ℕ)) (s : Store) → Shows (M.heap memory.old) names s
        → AllPairs (λ first later. first ≢ later) names
        → IsWithin (birth_at (M.heap memory.old)) names s key
        → IsWithin (birth_at (M.heap memory.old)) names s value → let d =
        dictionary_at s (birth_at (M.heap memory.old) address) in
        Shows (M.heap memory.new) names
        (with_dictionary s (birth_at (M.heap memory.old) address)
        (record d {
          pairs = put_pair d.pairs (
            value_of (birth_at (M.heap memory.old)) names key,
            value_of (birth_at (M.heap memory.old))
                names value,
          );
        })) }
{
    match position(memory, address, key) {
        Some(place) => fill_value(memory, address, place, value),
        None => fill_last(memory, address, key, value),
    }
}

/// Puts keys with their values, in order, into a dictionary that may be filled and has room for
/// them: words of a key, its value, the next key and so on. Nothing is recorded.
pub fn fill_pairs<M: Memory>(memory: &mut M, address: u32, words: &[Word])
    requires fresh { IsTrue ((M.grants memory.old).fresh address) }
    requires body_fresh { HasNewBody (M.heap memory.old) (M.grants memory.old) address }
    requires sound { IsSound (M.heap memory.old) }
    requires known { StandsAs (M.heap memory.old) Kind.Dictionary address 4 }
    requires room { count_at (M.heap memory.old) address + length words.now / 2 ≤ capacity_at
        (M.heap memory.old) address }
    requires held { AreValues (M.heap memory.old) words.now }
    ensures sound { IsSound (M.heap memory.new) }
    ensures keeps { Keeps (M.heap memory.old) (M.heap memory.new) }
    ensures births { birth_at (M.heap memory.new) ≡ birth_at (M.heap memory.old) }
    ensures extends { (g : Heap) → Extends g (M.heap memory.old) → object_at g address ≡ None
        → object_at g (body_at (M.heap memory.old) address) ≡ None → Extends g (M.heap memory.new) }
    ensures grants { M.grants memory.new ≡ M.grants memory.old }
    ensures shows { (names : List (List ℕ)) (s : Store) → Shows (M.heap memory.old) names s
        → AllPairs (λ first later. first ≢ later) names
        → AreWithin (M.heap memory.old) names s words.now → let d =
        dictionary_at s (birth_at (M.heap memory.old) address) in
        Shows (M.heap memory.new) names
        (with_dictionary s (birth_at (M.heap memory.old) address)
        (record d {
          pairs = put_pairs d.pairs (map (pair_of (birth_at (M.heap memory.old)) names)
              (pairs_of_words words.now));
        })) }
{
    let count = words.len() / 2;
    for index in 0..count {
        let key = words[2 * index];
        let value = words[2 * index + 1];
        fill_pair(memory, address, key, value);
    }
}

/// Gives a dictionary that may be filled another access, without a record.
pub fn fill_access<M: Memory>(memory: &mut M, address: u32, access: Access)
    requires fresh { IsTrue ((M.grants memory.old).fresh address) }
    requires sound { IsSound (M.heap memory.old) }
    requires known { StandsAs (M.heap memory.old) Kind.Dictionary address 4 }
    ensures sound { IsSound (M.heap memory.new) }
    ensures keeps { Keeps (M.heap memory.old) (M.heap memory.new) }
    ensures births { birth_at (M.heap memory.new) ≡ birth_at (M.heap memory.old) }
    ensures grants { M.grants memory.new ≡ M.grants memory.old }
    ensures shows { (names : List (List ℕ)) (s : Store) → Shows (M.heap memory.old) names s
        → Shows (M.heap memory.new) names
        (with_dictionary s (birth_at (M.heap memory.old) address)
        (record (dictionary_at s (birth_at (M.heap memory.old) address)) { access = access })) }
{
    let number = natural_word(access_number(access));
    memory.fill(address, ACCESS, number);
}

/// A new dictionary of unlimited access and of this capacity, at most 21,845, with these keys and
/// values, which are put in order: words of a key, its value, the next key and so on. There are at
/// most as many keys as the capacity. Nothing is recorded.
pub fn make_dictionary_with<M: Memory>(memory: &mut M, capacity: u16, words: &[Word]) -> u32
    requires limit { capacity ≤ capacity_limit }
    requires room { length words.now / 2 ≤ capacity }
    requires words { 6 + body_words capacity ≤ (M.grants memory.old).words }
    requires births { 1 ≤ (M.grants memory.old).births }
    requires sound { IsSound (M.heap memory.old) }
    requires held { AreValues (M.heap memory.old) words.now }
    ensures address { result < 2 ^ 24 }
    ensures known { StandsAs (M.heap memory.new) Kind.Dictionary result 4 }
    ensures sound { IsSound (M.heap memory.new) }
    ensures extends { Extends (M.heap memory.old) (M.heap memory.new) }
    ensures birth { birth_at (M.heap memory.new) result ≡ (M.heap memory.old).next }
    ensures grants { AfterNew (M.grants memory.old) (M.grants memory.new) result
        (6 + body_words capacity) 1 }
    ensures shows { (names : List (List ℕ)) (s : Store) → Shows (M.heap memory.old) names s
        → AllPairs (λ first later. first ≢ later) names
        → AreWithin (M.heap memory.old) names s words.now
        → Shows (M.heap memory.new) names
        (s ++ dictionary_object (record (empty_dictionary capacity) {
          pairs = put_pairs [] (map (pair_of (birth_at (M.heap memory.old)) names)
              (pairs_of_words words.now));
        }) ∷ []) }
{
    let address = new_dictionary(memory, capacity);
    fill_pairs(memory, address, words);
    address
}

/// A new dictionary of unlimited access with these keys and values, which are put in order: words
/// of a key, its value, the next key and so
/// on, at most 21,845 of each (PLRM2, 8 '>>'). Its capacity is the number of keys. Nothing is
/// recorded.
pub fn make_dictionary<M: Memory>(memory: &mut M, words: &[Word]) -> u32
    requires few { length words.now ≤ 43690 }
    requires words { 6 + body_words (length words.now / 2) ≤ (M.grants memory.old).words }
    requires births { 1 ≤ (M.grants memory.old).births }
    requires sound { IsSound (M.heap memory.old) }
    requires held { AreValues (M.heap memory.old) words.now }
    ensures address { result < 2 ^ 24 }
    ensures known { StandsAs (M.heap memory.new) Kind.Dictionary result 4 }
    ensures sound { IsSound (M.heap memory.new) }
    ensures extends { Extends (M.heap memory.old) (M.heap memory.new) }
    ensures birth { birth_at (M.heap memory.new) result ≡ (M.heap memory.old).next }
    ensures grants { AfterNew (M.grants memory.old) (M.grants memory.new) result
        (6 + body_words (length words.now / 2)) 1 }
    ensures shows { (names : List (List ℕ)) (s : Store) → Shows (M.heap memory.old) names s
        → AllPairs (λ first later. first ≢ later) names
        → AreWithin (M.heap memory.old) names s words.now
        → Shows (M.heap memory.new) names
        (s ++ dictionary_object (record (empty_dictionary (length words.now / 2)) {
          pairs = put_pairs [] (map (pair_of (birth_at (M.heap memory.old)) names)
              (pairs_of_words words.now));
        }) ∷ []) }
{
    make_dictionary_with(memory, (words.len() / 2) as u16, words)
}
