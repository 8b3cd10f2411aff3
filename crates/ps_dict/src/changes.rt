//! Dictionaries that are changed.

ghost use Rattle.std.specs.Prelude.{◌≡◌, ◌≢◌, ℕ, ◌+◌, ◌*◌, ◌++◌, Some, [], ◌∷◌, ◌<◌, ◌≤◌, ◌^◌, List, length};
ghost use Rattle.ps_language.specs.Value.{Store, Dictionary};
ghost use Rattle.ps_language.specs.Dictionaries.{holding, put_pair};
ghost use Rattle.std.specs.List.{AllPairs};
ghost use Rattle.ps_language.specs.Limits.{capacity_limit};
ghost use Rattle.ps_language.specs.Access.{dictionary_at, with_dictionary};
ghost use Rattle.ps_mem.specs.Heap.{Heap, birth_at, stored, AfterStore};
ghost use Rattle.ps_mem.specs.Keeps.{Keeps};
ghost use Rattle.ps_mem.specs.References.{StandsAs};
ghost use Rattle.ps_mem.specs.Meaning.{value_of};
ghost use Rattle.ps_mem.specs.Shows.{IsNatural, IsValue, IsSound, IsWithin, Shows};
ghost use Rattle.ps_dict.specs.Places.{count_at, body_at};
ghost use Rattle.ps_dict.specs.Puts as puts;
ghost use Rattle.ps_dict.specs.Puts.{AfterChange, with_value, plan_at};

use crate::appends::append_pairs;
use crate::dictionaries::{ACCESS, COUNT, body, length};
use crate::fills::new_body;
use crate::plans::PutPlan;
use ps_language::access::Access;
use ps_language::kinds::Kind;
use ps_mem::{Memory, Slot};
use ps_word::values::{Content, access_number};
use ps_word::words::Word;

/// The word of a literal natural number.
#[inline]
pub(crate) fn natural_word(number: u32) -> Word
    requires { number < 2 ^ 31 }
    ensures value { IsNatural result number }
    ensures held { (h : Heap) → IsValue h result }
    ensures within { (births : ℕ → ℕ) (names : List (List ℕ)) (s : Store)
        → IsWithin births names s result }
{
    Word::integer(number as i32)
}

/// Gives a dictionary another access, which all references to it share, with one record in a cycle
/// (PLRM2, 3.3.2 and 8: readonly, noaccess).
pub fn set_access<M: Memory>(memory: &mut M, slot: Slot, address: u32, access: Access)
    requires granted { 1 ≤ (M.grants memory.old).records slot }
    requires sound { IsSound (M.heap memory.old) }
    requires known { StandsAs (M.heap memory.old) Kind.Dictionary address 4 }
    ensures sound { IsSound (M.heap memory.new) }
    ensures keeps { Keeps (M.heap memory.old) (M.heap memory.new) }
    ensures births { birth_at (M.heap memory.new) ≡ birth_at (M.heap memory.old) }
    ensures grants { AfterStore (M.grants memory.old) (M.grants memory.new) slot }
    ensures shows { (names : List (List ℕ)) (s : Store) → Shows (M.heap memory.old) names s
        → Shows (M.heap memory.new) names
        (with_dictionary s (birth_at (M.heap memory.old) address)
        (record (dictionary_at s (birth_at (M.heap memory.old) address)) { access = access })) }
{
    let number = natural_word(access_number(access));
    memory.store(slot, address, ACCESS, &[number]);
}

/// Another value at a place of a dictionary, with one record in a cycle.
#[inline(always)]
pub(crate) fn replace_value<M: Memory>(
    memory: &mut M,
    slot: Slot,
    address: u32,
    place: u32,
    value: Word,
)
    requires granted { 1 ≤ (M.grants memory.old).records slot }
    requires sound { IsSound (M.heap memory.old) }
    requires known { StandsAs (M.heap memory.old) Kind.Dictionary address 4 }
    requires place { place < count_at (M.heap memory.old) address }
    requires held { IsValue (M.heap memory.old) value }
    ensures heap { M.heap memory.new ≡ stored (M.heap memory.old)
        (body_at (M.heap memory.old) address) (2 * place + 1) (value ∷ []) }
    ensures sound { IsSound (M.heap memory.new) }
    ensures keeps { Keeps (M.heap memory.old) (M.heap memory.new) }
    ensures grants { AfterChange (M.grants memory.old) (M.grants memory.new) slot 1 0 }
    ensures shows { (names : List (List ℕ)) (s : Store) → Shows (M.heap memory.old) names s
        → IsWithin (birth_at (M.heap memory.old)) names s value → let d =
        dictionary_at s (birth_at (M.heap memory.old) address) in
        Shows (M.heap memory.new) names
        (with_dictionary s (birth_at (M.heap memory.old) address)
        (record d {
          pairs = with_value d.pairs place
              (value_of (birth_at (M.heap memory.old)) names value);
        })) }
{
    let body = body(memory, address);
    memory.store(slot, body, 2 * place + 1, &[value]);
}

/// A pair more in a new body of this capacity, which the dictionary gets by one store of its
/// fields, with one record in a cycle.
#[inline(never)]
fn grow_with<M: Memory>(
    memory: &mut M,
    slot: Slot,
    address: u32,
    capacity: u32,
    key: Word,
    value: Word,
)
    requires granted { 1 ≤ (M.grants memory.old).records slot }
    requires words { 2 + 3 * capacity ≤ (M.grants memory.old).words }
    requires capacity { capacity ≤ capacity_limit }
    requires room { count_at (M.heap memory.old) address < capacity }
    requires sound { IsSound (M.heap memory.old) }
    requires known { StandsAs (M.heap memory.old) Kind.Dictionary address 4 }
    requires key { IsValue (M.heap memory.old) key }
    requires value { IsValue (M.heap memory.old) value }
    ensures sound { IsSound (M.heap memory.new) }
    ensures keeps { Keeps (M.heap memory.old) (M.heap memory.new) }
    ensures grants { AfterChange (M.grants memory.old) (M.grants memory.new) slot 1
        (2 + 3 * capacity) }
    ensures shows { (names : List (List ℕ)) (s : Store) → Shows (M.heap memory.old) names s
        → IsWithin (birth_at (M.heap memory.old)) names s key
        → IsWithin (birth_at (M.heap memory.old)) names s value → let d =
        dictionary_at s (birth_at (M.heap memory.old) address) in
        Shows (M.heap memory.new) names
        (with_dictionary s (birth_at (M.heap memory.old) address)
        (record d {
          pairs = d.pairs
              ++ (
                value_of (birth_at (M.heap memory.old)) names key,
                value_of
                    (birth_at (M.heap memory.old)) names value,
              ) ∷ [];
          capacity = capacity;
        })) }
{
    let count = length(memory, address);
    let access = memory.load(address, ACCESS);
    let body = new_body(memory, address, capacity, key, value);
    let more = natural_word(count + 1);
    let room = natural_word(capacity);
    let reference = Word::literal(Content::Body(body));
    memory.store(slot, address, COUNT, &[more, room, access, reference]);
}

/// Puts a key with its value, as `plan_put` planned it in this memory: a present key keeps its
/// place and its object, and a new one goes last
/// (PLRM2, 3.3.9 and 8: put, def, store). The plan's records are granted in the slot, and its
/// words.
#[inline(always)]
pub fn put<M: Memory>(
    memory: &mut M,
    slot: Slot,
    address: u32,
    plan: PutPlan,
    key: Word,
    value: Word,
)
    requires plan { plan ≡ plan_at (M.heap memory.old) address key }
    requires possible { plan ≢ PutPlan.Full }
    requires granted { puts.records_of plan ≤ (M.grants memory.old).records slot }
    requires words { puts.words_of plan ≤ (M.grants memory.old).words }
    requires sound { IsSound (M.heap memory.old) }
    requires known { StandsAs (M.heap memory.old) Kind.Dictionary address 4 }
    requires key { IsValue (M.heap memory.old) key }
    requires value { IsValue (M.heap memory.old) value }
    ensures sound { IsSound (M.heap memory.new) }
    ensures keeps { Keeps (M.heap memory.old) (M.heap memory.new) }
    ensures grants { AfterChange (M.grants memory.old) (M.grants memory.new) slot
        (puts.records_of plan) (puts.words_of plan) }
    ensures shows { (names : List (List ℕ)) (s : Store) → Shows (M.heap memory.old) names s
        → AllPairs (λ first later. first ≢ later) names
        → IsWithin (birth_at (M.heap memory.old)) names s key
        → IsWithin (birth_at (M.heap memory.old)) names s value → (d : Dictionary)
        → holding (dictionary_at s (birth_at (M.heap memory.old) address))
        (put_pair (dictionary_at s (birth_at (M.heap memory.old) address)).pairs (
          value_of (birth_at (M.heap memory.old)) names key,
          value_of (birth_at (M.heap memory.old))
              names value,
        )) ≡ Some d → Shows (M.heap memory.new) names
        (with_dictionary s (birth_at (M.heap memory.old) address) d) }
{
    match plan {
        PutPlan::Replace(place) => replace_value(memory, slot, address, place, value),
        PutPlan::Append => append_pairs(memory, slot, address, &[key, value]),
        PutPlan::Grow(capacity) => grow_with(memory, slot, address, capacity, key, value),
        PutPlan::Full => {}
    }
}
