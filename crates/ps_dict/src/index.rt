//! The index of a dictionary's keys, in the last words of its body: the position of each pair,
//! placed by the hash number of its key.

ghost use Rattle.std.specs.Prelude.{◌≡◌, ℕ, ◌+◌, ◌-◌, ◌*◌, ◌%◌, ◌<◌, ◌≤◌, ◌^◌, true, [], ◌∷◌, List, Option, Some, None, IfSome, IsSome, IsNone, drop, length, map, slice_get, slice_set, option_map, if◌then◌else◌, nat_lt};
ghost use Rattle.ps_language.specs.Limits.{capacity_limit};
ghost use Rattle.ps_word.specs.Format.{content_in};
ghost use Rattle.ps_word.specs.Readers as readers;
ghost use Rattle.ps_word.specs.declared.words.Word.{Word as TheWord};
ghost use Rattle.ps_mem.specs.Heap.{birth_at, fields_at};
ghost use Rattle.ps_mem.specs.Index.{hash_of};
ghost use Rattle.ps_mem.specs.Shows.{IsValue};
ghost use Rattle.ps_dict.specs.Places.{IsPlaceFor};
ghost use Rattle.ps_dict.specs.Probes.{going_round};

use ps_language::operators::number_of;
use ps_mem::Memory;
use ps_word::values::Content;
use ps_word::words::Word;

/// The hash number of a key: of a reference by the birth number of what it names, which stays where
/// that moves.
#[inline(never)]
pub fn hash_number<M: Memory>(memory: &mut M, key: Word) -> u64
    requires held { IsValue (M.heap memory.old) key }
    ensures heap { M.heap memory.new ≡ M.heap memory.old }
    ensures grants { M.grants memory.new ≡ M.grants memory.old }
    ensures answer { result ≡ hash_of (birth_at (M.heap memory.old)) key }
{
    match key.content() {
        Content::Null => 0,
        Content::Mark => 0,
        Content::Integer(number) => number.cast_unsigned() as u64,
        Content::Boolean(truth) => truth as u64,
        Content::Name(number) => number as u64,
        Content::Operator(operator) => number_of(operator) as u64,
        Content::Array(part) => memory.header(part.address).birth
            + part.offset as u64
            + part.length as u64,
        Content::Text(part) => memory.header(part.address).birth,
        Content::Dictionary(address) => memory.header(address).birth,
        Content::Lock(address) => memory.header(address).birth,
        Content::Condition(address) => memory.header(address).birth,
        Content::Body(address) => memory.header(address).birth,
    }
}

/// The remainder of a number by a capacity. Most numbers of names are below it or not far above, or
/// are looked for in `userdict`, which has 32 first: a division takes several times as long.
#[inline(always)]
pub(crate) fn remainder(number: u32, capacity: u32) -> u32
    requires some { 0 < capacity }
    ensures answer { result ≡ number % capacity }
    ensures below { result < capacity }
{
    if number < capacity {
        return number;
    }
    if capacity == 32 {
        return number % 32;
    }
    let less = number - capacity;
    if less < capacity {
        less
    } else {
        number % capacity
    }
}

/// The place at which a key is looked for first, of so many: by the number of a name or an integer,
/// and of every other key by its hash number. No dictionary has a string, so none is looked for.
#[inline(always)]
pub(crate) fn sought_place<M: Memory>(memory: &mut M, key: Word, capacity: u32) -> Option<u32>
    requires held { IsValue (M.heap memory.old) key }
    requires some { 0 < capacity }
    ensures heap { M.heap memory.new ≡ M.heap memory.old }
    ensures grants { M.grants memory.new ≡ M.grants memory.old }
    ensures answer { IfSome result
        (λ place. place ≡ hash_of (birth_at (M.heap memory.old)) key % capacity) }
    ensures below { IfSome result (λ place. place < capacity) }
    ensures other { IsSome result → readers.as_text (content_in key.0) ≡ None }
    ensures string { IsNone result → IsSome (readers.as_text (content_in key.0)) }
{
    match key.content() {
        Content::Name(name) => Some(remainder(name as u32, capacity)),
        Content::Integer(number) => Some(remainder(number.cast_unsigned(), capacity)),
        Content::Text(_) => None,
        _ => Some((hash_number(memory, key) % capacity as u64) as u32),
    }
}

/// The same of any word, also of a string.
#[inline(always)]
pub(crate) fn first_place<M: Memory>(memory: &mut M, key: Word, capacity: u32) -> u32
    requires held { IsValue (M.heap memory.old) key }
    requires some { 0 < capacity }
    ensures heap { M.heap memory.new ≡ M.heap memory.old }
    ensures grants { M.grants memory.new ≡ M.grants memory.old }
    ensures answer { result ≡ hash_of (birth_at (M.heap memory.old)) key % capacity }
    ensures below { result < capacity }
{
    match sought_place(memory, key, capacity) {
        Some(place) => place,
        None => (hash_number(memory, key) % capacity as u64) as u32,
    }
}

/// The place so many behind another, going round.
#[inline(always)]
pub(crate) fn place_behind(start: u32, behind: u32, capacity: u32) -> u32
    requires start { start < capacity }
    requires behind { behind < capacity }
    requires few { capacity ≤ capacity_limit }
    ensures answer { result ≡ going_round start behind capacity }
    ensures below { result < capacity }
{
    let place = start + behind;
    if place < capacity {
        place
    } else {
        place - capacity
    }
}

/// The free place of a body's index in which the position of a new key goes.
pub(crate) fn free_place<M: Memory>(memory: &mut M, body: u32, capacity: u32, key: Word) -> u32
    requires some { 0 < capacity }
    requires few { capacity ≤ capacity_limit }
    requires held { IsValue (M.heap memory.old) key }
    requires room { 3 * capacity ≤ length (fields_at (M.heap memory.old) body) }
    ensures heap { M.heap memory.new ≡ M.heap memory.old }
    ensures grants { M.grants memory.new ≡ M.grants memory.old }
    ensures below { result < capacity }
    ensures placed { IsPlaceFor (drop (2 * capacity) (fields_at (M.heap memory.old) body)) capacity
        (hash_of (birth_at (M.heap memory.old)) key % capacity) result }
{
    let start = first_place(memory, key, capacity);
    for behind in 0..capacity {
        let place = place_behind(start, behind, capacity);
        match memory.load(body, 2 * capacity + place).as_integer() {
            Some(_) => {}
            None => return place,
        }
    }
    start
}

/// The free place of an index outside the memory in which the next position goes: mostly the start.
#[inline(always)]
pub(crate) fn free_in(places: &[Word], start: u32, capacity: u32) -> u32
    requires start { start < capacity }
    requires few { capacity ≤ capacity_limit }
    requires all { length places.now ≡ capacity }
    ensures below { result < capacity }
    ensures placed { IsPlaceFor places.now capacity start result }
{
    match places[start as usize].as_integer() {
        Some(_) => free_from(places, start, capacity),
        None => start,
    }
}

/// The same, place by place.
#[inline(never)]
fn free_from(places: &[Word], start: u32, capacity: u32) -> u32
    requires start { start < capacity }
    requires few { capacity ≤ capacity_limit }
    requires all { length places.now ≡ capacity }
    ensures below { result < capacity }
    ensures placed { IsPlaceFor places.now capacity start result }
{
    for behind in 0..capacity {
        let place = place_behind(start, behind, capacity);
        match places[place as usize].as_integer() {
            Some(_) => {}
            None => return place,
        }
    }
    start
}
