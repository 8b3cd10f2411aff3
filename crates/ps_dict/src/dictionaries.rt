//! Dictionaries that are read (PLRM2, 3.3.9 and 8: length, maxlength, get, known, forall).

ghost use Rattle.std.specs.Prelude.{◌≡◌, ◌≢◌, ℕ, ◌+◌, ◌%◌, ◌<◌, ◌≤◌, ◌^◌, true, List, length, Option, Some, None, IfSome, option_map, slice_get};
ghost use Rattle.std.specs.List.{AllPairs};
ghost use Rattle.ps_language.specs.Value.{Store};
ghost use Rattle.ps_language.specs.Access.{dictionary_at};
ghost use Rattle.ps_language.specs.Dictionaries.{find};
ghost use Rattle.ps_word.specs.Format as format;
ghost use Rattle.ps_word.specs.Readers as readers;
ghost use Rattle.ps_mem.specs.Heap.{birth_at, fields_at};
ghost use Rattle.ps_mem.specs.Index.{hash_of};
ghost use Rattle.ps_mem.specs.References.{StandsAs};
ghost use Rattle.ps_mem.specs.Meaning.{value_of};
ghost use Rattle.ps_mem.specs.Shows.{IsValue, IsSound, IsWithin, Shows, pair_of};
ghost use Rattle.ps_dict.specs.Places.{natural_in, count_at, capacity_at, access_at, body_at, pairs_at, place_of, first_place};
ghost use Rattle.ps_dict.specs.Probes.{going_round, same_at, start_at, IsPosition, StillAhead, Tells};

use crate::index::{place_behind, remainder, sought_place};
use crate::keys::are_alike;
use ps_language::access::Access;
use ps_language::kinds::Kind;
use ps_mem::Memory;
use ps_word::values::access_of;
use ps_word::words::Word;

pub(crate) const COUNT: u32 = 0;

pub(crate) const CAPACITY: u32 = 1;

pub(crate) const ACCESS: u32 = 2;

pub(crate) const BODY: u32 = 3;

/// Of so many places of an index one is looked at.
const PLACES_A_LOOK: u32 = 16;

/// The natural number in a field: in a sound memory it needs no test of its type.
#[inline(always)]
fn natural<M: Memory>(memory: &mut M, address: u32, place: u32) -> u32
    requires sound { IsSound (M.heap memory.old) }
    requires known { StandsAs (M.heap memory.old) Kind.Dictionary address 4 }
    requires place { place < 3 }
    ensures heap { M.heap memory.new ≡ M.heap memory.old }
    ensures grants { M.grants memory.new ≡ M.grants memory.old }
    ensures value { result ≡ natural_in (fields_at (M.heap memory.old) address) place }
{
    memory.load(address, place).low_natural()
}

/// How many pairs a dictionary has (PLRM2, 8 'length'). A sound memory has at most 2^31 - 1.
#[inline(always)]
pub fn length<M: Memory>(memory: &mut M, address: u32) -> u32
    requires sound { IsSound (M.heap memory.old) }
    requires known { StandsAs (M.heap memory.old) Kind.Dictionary address 4 }
    ensures heap { M.heap memory.new ≡ M.heap memory.old }
    ensures grants { M.grants memory.new ≡ M.grants memory.old }
    ensures below { result < 2 ^ 31 }
    ensures words { result ≡ count_at (M.heap memory.old) address }
    ensures value { (names : List (List ℕ)) (s : Store) → Shows (M.heap memory.old) names s
        → result ≡ length (dictionary_at s (birth_at (M.heap memory.old) address)).pairs }
{
    natural(memory, address, COUNT)
}

/// How many pairs a dictionary has room for (PLRM2, 8 'maxlength').
#[inline(always)]
pub fn capacity<M: Memory>(memory: &mut M, address: u32) -> u32
    requires sound { IsSound (M.heap memory.old) }
    requires known { StandsAs (M.heap memory.old) Kind.Dictionary address 4 }
    ensures heap { M.heap memory.new ≡ M.heap memory.old }
    ensures grants { M.grants memory.new ≡ M.grants memory.old }
    ensures below { result < 2 ^ 31 }
    ensures words { result ≡ capacity_at (M.heap memory.old) address }
    ensures value { (names : List (List ℕ)) (s : Store) → Shows (M.heap memory.old) names s
        → result ≡ (dictionary_at s (birth_at (M.heap memory.old) address)).capacity }
{
    natural(memory, address, CAPACITY)
}

/// The access of a dictionary, which all references to it share (PLRM2, 3.3.2).
#[inline(always)]
pub fn access<M: Memory>(memory: &mut M, address: u32) -> Access
    requires sound { IsSound (M.heap memory.old) }
    requires known { StandsAs (M.heap memory.old) Kind.Dictionary address 4 }
    ensures heap { M.heap memory.new ≡ M.heap memory.old }
    ensures grants { M.grants memory.new ≡ M.grants memory.old }
    ensures words { result ≡ format.access_of (access_at (M.heap memory.old) address) }
    ensures value { (names : List (List ℕ)) (s : Store) → Shows (M.heap memory.old) names s
        → result ≡ (dictionary_at s (birth_at (M.heap memory.old) address)).access }
{
    access_of(natural(memory, address, ACCESS))
}

/// The address of a dictionary's body.
#[inline(always)]
pub(crate) fn body<M: Memory>(memory: &mut M, address: u32) -> u32
    requires sound { IsSound (M.heap memory.old) }
    requires known { StandsAs (M.heap memory.old) Kind.Dictionary address 4 }
    ensures heap { M.heap memory.new ≡ M.heap memory.old }
    ensures grants { M.grants memory.new ≡ M.grants memory.old }
    ensures words { result ≡ body_at (M.heap memory.old) address }
{
    memory.load(address, BODY).low_address()
}

/// The place of the first pair whose key is the same, counted from 0 in the order of insertion.
#[inline(always)]
pub fn position<M: Memory>(memory: &mut M, address: u32, key: Word) -> Option<u32>
    requires sound { IsSound (M.heap memory.old) }
    requires known { StandsAs (M.heap memory.old) Kind.Dictionary address 4 }
    requires held { IsValue (M.heap memory.old) key }
    ensures heap { M.heap memory.new ≡ M.heap memory.old }
    ensures grants { M.grants memory.new ≡ M.grants memory.old }
    ensures within { IfSome result (λ place. place < count_at (M.heap memory.old) address) }
    ensures words { result ≡ place_of (pairs_at (M.heap memory.old) address) key }
    ensures value { (names : List (List ℕ)) (s : Store) → Shows (M.heap memory.old) names s
        → AllPairs (λ first later. first ≢ later) names
        → IsWithin (birth_at (M.heap memory.old)) names s key
        → result ≡ first_place (dictionary_at s (birth_at (M.heap memory.old) address)).pairs
        (value_of (birth_at (M.heap memory.old)) names key) }
{
    let capacity = capacity(memory, address);
    if capacity == 0 {
        return None;
    }
    near_position(memory, address, capacity, key)
}

/// What a place of an index tells of a key.
#[derive(Clone, Copy, Debug, PartialEq, Eq)]
enum Look {
    /// The pair of this position is the first that has it.
    Here(u32),
    /// The pair of another key.
    Other,
    /// None: the key is absent, if it is in no place before.
    Free,
}

/// Looks at a place of an index, for a key that is no string.
#[inline(always)]
fn look_at<M: Memory>(memory: &mut M, address: u32, capacity: u32, place: u32, key: Word) -> Look
    requires capacity { capacity ≡ capacity_at (M.heap memory.old) address }
    requires place { place < capacity }
    requires sound { IsSound (M.heap memory.old) }
    requires known { StandsAs (M.heap memory.old) Kind.Dictionary address 4 }
    requires held { IsValue (M.heap memory.old) key }
    requires other { readers.as_text (format.content_in key.0) ≡ None }
    ensures heap { M.heap memory.new ≡ M.heap memory.old }
    ensures grants { M.grants memory.new ≡ M.grants memory.old }
    ensures within { IsPosition (M.heap memory.old) address result }
    ensures tells { (behind : ℕ) → behind < capacity
        → place ≡ going_round (start_at (M.heap memory.old) address key) behind capacity
        → StillAhead (M.heap memory.old) address key behind
        → Tells (M.heap memory.old) address key behind result }
{
    let body = body(memory, address);
    let placed = memory.load(body, 2 * capacity + place);
    if placed == Word::null() {
        return Look::Free;
    }
    let position = placed.low_natural();
    let word = memory.load(body, 2 * position);
    if are_alike(word, key) {
        Look::Here(position)
    } else {
        Look::Other
    }
}

/// The same by the place of the key's hash number, where most keys stand that are there; else by
/// the places behind it. No dictionary has a string.
#[inline(always)]
fn near_position<M: Memory>(memory: &mut M, address: u32, capacity: u32, key: Word) -> Option<u32>
    requires capacity { capacity ≡ capacity_at (M.heap memory.old) address }
    requires some { 0 < capacity }
    requires sound { IsSound (M.heap memory.old) }
    requires known { StandsAs (M.heap memory.old) Kind.Dictionary address 4 }
    requires held { IsValue (M.heap memory.old) key }
    ensures heap { M.heap memory.new ≡ M.heap memory.old }
    ensures grants { M.grants memory.new ≡ M.grants memory.old }
    ensures within { IfSome result (λ place. place < count_at (M.heap memory.old) address) }
    ensures words { result ≡ place_of (pairs_at (M.heap memory.old) address) key }
{
    match sought_place(memory, key, capacity) {
        Some(start) => position_from(memory, address, capacity, start, key),
        None => None,
    }
}

/// The same of a key that is first looked for at this place.
#[inline(always)]
fn position_from<M: Memory>(
    memory: &mut M,
    address: u32,
    capacity: u32,
    start: u32,
    key: Word,
) -> Option<u32>
    requires capacity { capacity ≡ capacity_at (M.heap memory.old) address }
    requires some { 0 < capacity }
    requires start { start ≡ hash_of (birth_at (M.heap memory.old)) key % capacity }
    requires below { start < capacity }
    requires sound { IsSound (M.heap memory.old) }
    requires known { StandsAs (M.heap memory.old) Kind.Dictionary address 4 }
    requires held { IsValue (M.heap memory.old) key }
    requires other { readers.as_text (format.content_in key.0) ≡ None }
    ensures heap { M.heap memory.new ≡ M.heap memory.old }
    ensures grants { M.grants memory.new ≡ M.grants memory.old }
    ensures within { IfSome result (λ place. place < count_at (M.heap memory.old) address) }
    ensures words { result ≡ place_of (pairs_at (M.heap memory.old) address) key }
{
    match look_at(memory, address, capacity, start, key) {
        Look::Here(position) => Some(position),
        Look::Other => indexed_position(memory, address, capacity, start, key),
        Look::Free => None,
    }
}

/// The same of a name, whose hash number is its own.
#[inline(always)]
fn name_position<M: Memory>(memory: &mut M, address: u32, key: Word, name: u16) -> Option<u32>
    requires sound { IsSound (M.heap memory.old) }
    requires known { StandsAs (M.heap memory.old) Kind.Dictionary address 4 }
    requires held { IsValue (M.heap memory.old) key }
    requires name { Some name ≡ readers.as_name (format.content_in key.0) }
    ensures heap { M.heap memory.new ≡ M.heap memory.old }
    ensures grants { M.grants memory.new ≡ M.grants memory.old }
    ensures within { IfSome result (λ place. place < count_at (M.heap memory.old) address) }
    ensures words { result ≡ place_of (pairs_at (M.heap memory.old) address) key }
{
    let capacity = capacity(memory, address);
    if capacity == 0 {
        return None;
    }
    let start = remainder(name as u32, capacity);
    position_from(memory, address, capacity, start, key)
}

/// The same as `position`, for a key that is mostly a name: no call tells then where it is looked
/// for first.
#[inline(always)]
pub(crate) fn put_position<M: Memory>(memory: &mut M, address: u32, key: Word) -> Option<u32>
    requires sound { IsSound (M.heap memory.old) }
    requires known { StandsAs (M.heap memory.old) Kind.Dictionary address 4 }
    requires held { IsValue (M.heap memory.old) key }
    ensures heap { M.heap memory.new ≡ M.heap memory.old }
    ensures grants { M.grants memory.new ≡ M.grants memory.old }
    ensures within { IfSome result (λ place. place < count_at (M.heap memory.old) address) }
    ensures words { result ≡ place_of (pairs_at (M.heap memory.old) address) key }
{
    match key.as_name() {
        Some(name) => name_position(memory, address, key, name),
        None => position(memory, address, key),
    }
}

/// Whether a key is a name that other dictionaries alone may have, as its mark tells.
#[inline(always)]
fn is_elsewhere<M: Memory>(memory: &mut M, address: u32, key: Word) -> bool
    requires sound { IsSound (M.heap memory.old) }
    requires known { StandsAs (M.heap memory.old) Kind.Dictionary address 4 }
    ensures heap { M.heap memory.new ≡ M.heap memory.old }
    ensures grants { M.grants memory.new ≡ M.grants memory.old }
    ensures absent { result ≡ true
        → place_of (pairs_at (M.heap memory.old) address) key ≡ None }
{
    match key.as_name() {
        Some(name) => {
            let mark = memory.mark(name);
            !mark.admits(memory.header(address).birth)
        }
        None => false,
    }
}

/// How many places of an index are looked at before the pairs are gone through in order: a key that
/// is there mostly stands that near.
#[inline(always)]
fn looks_in(capacity: u32) -> u32
    requires { 0 < capacity }
    ensures { result ≤ capacity }
{
    capacity / PLACES_A_LOOK + 1
}

/// The same by the places of the index behind that at which the key is looked for first, which has
/// another. A name's mark may tell at once that it is absent; else, where places are free, a few
/// looks do. Where they tell nothing, by the order.
#[inline(never)]
fn indexed_position<M: Memory>(
    memory: &mut M,
    address: u32,
    capacity: u32,
    start: u32,
    key: Word,
) -> Option<u32>
    requires capacity { capacity ≡ capacity_at (M.heap memory.old) address }
    requires some { 0 < capacity }
    requires start { start ≡ start_at (M.heap memory.old) address key }
    requires sound { IsSound (M.heap memory.old) }
    requires known { StandsAs (M.heap memory.old) Kind.Dictionary address 4 }
    requires held { IsValue (M.heap memory.old) key }
    requires other { readers.as_text (format.content_in key.0) ≡ None }
    requires ahead { StillAhead (M.heap memory.old) address key 1 }
    ensures heap { M.heap memory.new ≡ M.heap memory.old }
    ensures grants { M.grants memory.new ≡ M.grants memory.old }
    ensures within { IfSome result (λ place. place < count_at (M.heap memory.old) address) }
    ensures words { result ≡ place_of (pairs_at (M.heap memory.old) address) key }
{
    if is_elsewhere(memory, address, key) {
        return None;
    }
    for behind in 1..looks_in(capacity) {
        let place = place_behind(start, behind, capacity);
        match look_at(memory, address, capacity, place, key) {
            Look::Here(position) => return Some(position),
            Look::Other => {}
            Look::Free => return None,
        }
    }
    ordered_position(memory, address, key)
}

/// Whether the pair at a place has a key that is no string.
#[inline(always)]
fn has_key<M: Memory>(memory: &mut M, address: u32, body: u32, place: usize, key: Word) -> bool
    requires body { body ≡ body_at (M.heap memory.old) address }
    requires place { place < count_at (M.heap memory.old) address }
    requires sound { IsSound (M.heap memory.old) }
    requires known { StandsAs (M.heap memory.old) Kind.Dictionary address 4 }
    requires held { IsValue (M.heap memory.old) key }
    requires other { readers.as_text (format.content_in key.0) ≡ None }
    ensures heap { M.heap memory.new ≡ M.heap memory.old }
    ensures grants { M.grants memory.new ≡ M.grants memory.old }
    ensures answer { result ≡ same_at (pairs_at (M.heap memory.old) address) key place }
{
    let word = memory.load_at(body, body as usize + 2 * place);
    are_alike(word, key)
}

/// The same in the order of insertion, two pairs a turn: of an absent key this takes fewer loads
/// than an index in which no place is free.
fn ordered_position<M: Memory>(memory: &mut M, address: u32, key: Word) -> Option<u32>
    requires sound { IsSound (M.heap memory.old) }
    requires known { StandsAs (M.heap memory.old) Kind.Dictionary address 4 }
    requires held { IsValue (M.heap memory.old) key }
    requires other { readers.as_text (format.content_in key.0) ≡ None }
    ensures heap { M.heap memory.new ≡ M.heap memory.old }
    ensures grants { M.grants memory.new ≡ M.grants memory.old }
    ensures within { IfSome result (λ place. place < count_at (M.heap memory.old) address) }
    ensures words { result ≡ place_of (pairs_at (M.heap memory.old) address) key }
{
    let count = length(memory, address) as usize;
    let body = body(memory, address);
    for turn in 0..count / 2 {
        let place = 2 * turn;
        if has_key(memory, address, body, place, key) {
            return Some(place as u32);
        }
        if has_key(memory, address, body, place + 1, key) {
            return Some((place + 1) as u32);
        }
    }
    if count % 2 == 1 {
        if has_key(memory, address, body, count - 1, key) {
            return Some((count - 1) as u32);
        }
    }
    None
}

/// The value of a key, where the dictionary has it.
#[inline(always)]
pub fn value_of_key<M: Memory>(memory: &mut M, address: u32, key: Word) -> Option<Word>
    requires sound { IsSound (M.heap memory.old) }
    requires known { StandsAs (M.heap memory.old) Kind.Dictionary address 4 }
    requires held { IsValue (M.heap memory.old) key }
    ensures heap { M.heap memory.new ≡ M.heap memory.old }
    ensures grants { M.grants memory.new ≡ M.grants memory.old }
    ensures held { IfSome result (IsValue (M.heap memory.old)) }
    ensures within { (names : List (List ℕ)) (s : Store) → Shows (M.heap memory.old) names s
        → IfSome result (IsWithin (birth_at (M.heap memory.old)) names s) }
    ensures value { (names : List (List ℕ)) (s : Store) → Shows (M.heap memory.old) names s
        → AllPairs (λ first later. first ≢ later) names
        → IsWithin (birth_at (M.heap memory.old)) names s key
        → option_map (value_of (birth_at (M.heap memory.old)) names) result ≡ find
        (dictionary_at s (birth_at (M.heap memory.old) address)).pairs
        (value_of (birth_at (M.heap memory.old)) names key) }
{
    match position(memory, address, key) {
        Some(place) => {
            let body = body(memory, address);
            Some(memory.load(body, 2 * place + 1))
        }
        None => None,
    }
}

/// The key and the value at a place in the order of insertion, counted from 0; none past the last.
pub fn pair<M: Memory>(memory: &mut M, address: u32, place: u32) -> Option<(Word, Word)>
    requires sound { IsSound (M.heap memory.old) }
    requires known { StandsAs (M.heap memory.old) Kind.Dictionary address 4 }
    ensures heap { M.heap memory.new ≡ M.heap memory.old }
    ensures grants { M.grants memory.new ≡ M.grants memory.old }
    ensures held { IfSome result
        (λ pair. IsValue (M.heap memory.old) pair.0 × IsValue (M.heap memory.old) pair.1) }
    ensures within { (names : List (List ℕ)) (s : Store) → Shows (M.heap memory.old) names s
        → IfSome result (λ pair. IsWithin (birth_at (M.heap memory.old)) names s pair.0
        × IsWithin (birth_at (M.heap memory.old)) names s pair.1) }
    ensures words { result ≡ slice_get (pairs_at (M.heap memory.old) address) place }
    ensures value { (names : List (List ℕ)) (s : Store) → Shows (M.heap memory.old) names s
        → option_map (pair_of (birth_at (M.heap memory.old)) names) result ≡ slice_get
        (dictionary_at s (birth_at (M.heap memory.old) address)).pairs place }
{
    if place >= length(memory, address) {
        return None;
    }
    let body = body(memory, address);
    let key = memory.load(body, 2 * place);
    let value = memory.load(body, 2 * place + 1);
    Some((key, value))
}
