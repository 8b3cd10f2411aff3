//! Arrays in any memory, as lists of values (PLRM2, 3.3.6 and 8: get, put, getinterval,
//! putinterval, array).

ghost use Rattle.std.specs.Prelude.{◌≡◌, ◌≢◌, ℕ, ◌+◌, ◌-◌, ◌<◌, ◌≤◌, ◌^◌, ◌++◌, List, [], ◌∷◌, length, map, replicate, slice_get, Some, Option, IsTrue};
ghost use Rattle.ps_language.specs.Value.{Store, array_object};
ghost use Rattle.ps_language.specs.Access.{elements, part_elements, with_part_elements};
ghost use Rattle.ps_language.specs.Readers.{null};
ghost use Rattle.ps_mem.specs.Heap.{object_at, birth_at, AfterStore, AfterNew};
ghost use Rattle.ps_mem.specs.Keeps.{Keeps, Extends};
ghost use Rattle.ps_mem.specs.References.{StandsAs};
ghost use Rattle.ps_mem.specs.Meaning.{value_of, part_of};
ghost use Rattle.ps_mem.specs.Shows.{IsValue, AreValues, IsSound, IsWithin, AreWithin, Shows};

use ps_language::access::Access;
use ps_language::kinds::Kind;
use ps_mem::{FieldAt, Memory, Slot};
use ps_word::values::Part;
use ps_word::words::Word;

/// The element of a part of an array by the sum of the array's address and its place in the array.
/// The memory stays as it is.
#[inline]
pub fn element_at<M: Memory>(memory: &mut M, part: Part, at: usize) -> Word
    requires sound { IsSound (M.heap memory.old) }
    requires known { StandsAs (M.heap memory.old) Kind.Array part.address
        (part.offset + part.length) }
    requires from { part.address ≤ at }
    requires within { at < part.address + part.offset + part.length }
    ensures heap { M.heap memory.new ≡ M.heap memory.old }
    ensures grants { M.grants memory.new ≡ M.grants memory.old }
    ensures held { IsValue (M.heap memory.old) result }
    ensures within { (names : List (List ℕ)) (s : Store) → Shows (M.heap memory.old) names s
        → IsWithin (birth_at (M.heap memory.old)) names s result }
    ensures value { (names : List (List ℕ)) (s : Store) → Shows (M.heap memory.old) names s
        → slice_get (elements s (birth_at (M.heap memory.old) part.address)) (at - part.address)
        ≡ Some (value_of (birth_at (M.heap memory.old)) names result) }
{
    memory.load_at(part.address, at)
}

/// The element at an index of a part of an array. The memory stays as it is.
#[inline]
pub fn element<M: Memory>(memory: &mut M, part: Part, index: u16) -> Word
    requires sound { IsSound (M.heap memory.old) }
    requires known { StandsAs (M.heap memory.old) Kind.Array part.address
        (part.offset + part.length) }
    requires index { index < part.length }
    ensures heap { M.heap memory.new ≡ M.heap memory.old }
    ensures grants { M.grants memory.new ≡ M.grants memory.old }
    ensures held { IsValue (M.heap memory.old) result }
    ensures within { (names : List (List ℕ)) (s : Store) → Shows (M.heap memory.old) names s
        → IsWithin (birth_at (M.heap memory.old)) names s result }
    ensures value { (names : List (List ℕ)) (s : Store) → Shows (M.heap memory.old) names s
        → slice_get (elements s (birth_at (M.heap memory.old) part.address)) (part.offset + index)
        ≡ Some (value_of (birth_at (M.heap memory.old)) names result) }
{
    let start = part.address as usize + part.offset as usize;
    element_at(memory, part, start + index as usize)
}

/// Puts a value at an index of a part of an array, with one record in a cycle.
#[inline(always)]
pub fn set_element<M: Memory>(memory: &mut M, slot: Slot, part: Part, index: u16, word: Word)
    requires granted { 1 ≤ (M.grants memory.old).records slot }
    requires sound { IsSound (M.heap memory.old) }
    requires known { StandsAs (M.heap memory.old) Kind.Array part.address
        (part.offset + part.length) }
    requires index { index < part.length }
    requires held { IsValue (M.heap memory.old) word }
    ensures sound { IsSound (M.heap memory.new) }
    ensures keeps { Keeps (M.heap memory.old) (M.heap memory.new) }
    ensures births { birth_at (M.heap memory.new) ≡ birth_at (M.heap memory.old) }
    ensures grants { AfterStore (M.grants memory.old) (M.grants memory.new) slot }
    ensures shows { (names : List (List ℕ)) (s : Store) → Shows (M.heap memory.old) names s
        → IsWithin (birth_at (M.heap memory.old)) names s word → Shows (M.heap memory.new) names
        (with_part_elements s (part_of (birth_at (M.heap memory.old)) part) index (value_of
        (birth_at (M.heap memory.old)) names word ∷ [])) }
{
    memory.store(
        slot,
        part.address,
        part.offset as u32 + index as u32,
        &[word],
    );
}

/// Puts values, at least one, into a part of an array from a place on, by one store with one record
/// in a cycle.
pub fn set_elements<M: Memory>(memory: &mut M, slot: Slot, part: Part, place: u16, words: &[Word])
    requires granted { 1 ≤ (M.grants memory.old).records slot }
    requires some { 1 ≤ length words.now }
    requires sound { IsSound (M.heap memory.old) }
    requires known { StandsAs (M.heap memory.old) Kind.Array part.address
        (part.offset + part.length) }
    requires fits { place + length words.now ≤ part.length }
    requires held { AreValues (M.heap memory.old) words.now }
    ensures sound { IsSound (M.heap memory.new) }
    ensures keeps { Keeps (M.heap memory.old) (M.heap memory.new) }
    ensures births { birth_at (M.heap memory.new) ≡ birth_at (M.heap memory.old) }
    ensures grants { AfterStore (M.grants memory.old) (M.grants memory.new) slot }
    ensures shows { (names : List (List ℕ)) (s : Store) → Shows (M.heap memory.old) names s
        → AreWithin (M.heap memory.old) names s words.now → Shows (M.heap memory.new) names
        (with_part_elements s (part_of (birth_at (M.heap memory.old)) part) place
        (map (value_of (birth_at (M.heap memory.old)) names) words.now)) }
{
    memory.store(slot, part.address, part.offset as u32 + place as u32, words);
}

/// So many elements from a place of a part on, which share them with it.
#[inline]
pub fn interval(part: Part, place: u16, count: u16) -> Part
    requires within { place + count ≤ part.length }
    requires end { part.offset + part.length < 2 ^ 16 }
    ensures { result ≡ record part { offset = part.offset + place; length = count } }
{
    Part {
        address: part.address,
        offset: part.offset + place,
        length: count,
        access: part.access,
    }
}

/// Copies all elements of one part into another, from a place on, as if all were read first, with
/// one record in a cycle; the two may be of one array. Where there are none, nothing is done and no
/// record is put.
pub fn copy_elements<M: Memory>(memory: &mut M, slot: Slot, from: Part, to: Part, place: u16)
    requires granted { 1 ≤ from.length → 1 ≤ (M.grants memory.old).records slot }
    requires sound { IsSound (M.heap memory.old) }
    requires source { StandsAs (M.heap memory.old) Kind.Array from.address
        (from.offset + from.length) }
    requires target { StandsAs (M.heap memory.old) Kind.Array to.address (to.offset + to.length) }
    requires place { place + from.length ≤ to.length }
    ensures sound { IsSound (M.heap memory.new) }
    ensures keeps { Keeps (M.heap memory.old) (M.heap memory.new) }
    ensures births { birth_at (M.heap memory.new) ≡ birth_at (M.heap memory.old) }
    ensures grants { AfterStore (M.grants memory.old) (M.grants memory.new) slot }
    ensures shows { (names : List (List ℕ)) (s : Store) → Shows (M.heap memory.old) names s → Shows
        (M.heap memory.new) names (with_part_elements s (part_of (birth_at
        (M.heap memory.old)) to) place (part_elements s (part_of (birth_at
        (M.heap memory.old)) from))) }
{
    if from.length != 0 {
        let source = FieldAt {
            address: from.address,
            place: from.offset as u32,
        };
        let target = FieldAt {
            address: to.address,
            place: to.offset as u32 + place as u32,
        };
        memory.copy(slot, source, target, from.length as u32);
    }
}

/// A new array of so many nulls, all of it.
pub fn new_array<M: Memory>(memory: &mut M, count: u16) -> Part
    requires words { 2 + count ≤ (M.grants memory.old).words }
    requires births { 1 ≤ (M.grants memory.old).births }
    requires sound { IsSound (M.heap memory.old) }
    ensures part { result ≡ record {
      address = result.address;
      offset = 0;
      length = count;
      access =
          Access.Unlimited;
    } }
    ensures address { result.address < 2 ^ 24 }
    ensures known { StandsAs (M.heap memory.new) Kind.Array result.address count }
    ensures sound { IsSound (M.heap memory.new) }
    ensures extends { Extends (M.heap memory.old) (M.heap memory.new) }
    ensures birth { birth_at (M.heap memory.new) result.address ≡ (M.heap memory.old).next }
    ensures grants { AfterNew (M.grants memory.old) (M.grants memory.new) result.address
        (2 + count) 1 }
    ensures shows { (names : List (List ℕ)) (s : Store) → Shows (M.heap memory.old) names s → Shows
        (M.heap memory.new) names (s ++ array_object (replicate count null) ∷ []) }
{
    let address = memory.alloc(Kind::Array, count as u32);
    Part {
        address,
        offset: 0,
        length: count,
        access: Access::Unlimited,
    }
}

/// A new array of these values, all of it.
pub fn make_array<M: Memory>(memory: &mut M, words: &[Word]) -> Part
    requires length { length words.now < 2 ^ 16 }
    requires words { 2 + length words.now ≤ (M.grants memory.old).words }
    requires births { 1 ≤ (M.grants memory.old).births }
    requires sound { IsSound (M.heap memory.old) }
    requires held { AreValues (M.heap memory.old) words.now }
    ensures part { result ≡ record {
      address = result.address;
      offset = 0;
      length = length
          words.now;
      access = Access.Unlimited;
    } }
    ensures address { result.address < 2 ^ 24 }
    ensures known { StandsAs (M.heap memory.new) Kind.Array result.address (length words.now) }
    ensures sound { IsSound (M.heap memory.new) }
    ensures extends { Extends (M.heap memory.old) (M.heap memory.new) }
    ensures birth { birth_at (M.heap memory.new) result.address ≡ (M.heap memory.old).next }
    ensures grants { AfterNew (M.grants memory.old) (M.grants memory.new) result.address
        (2 + length words.now) 1 }
    ensures shows { (names : List (List ℕ)) (s : Store) → Shows (M.heap memory.old) names s
        → AreWithin (M.heap memory.old) names s words.now → Shows (M.heap memory.new) names
        (s ++ array_object (map (value_of (birth_at (M.heap memory.old)) names) words.now) ∷ []) }
{
    let length = words.len();
    let address = memory.alloc(Kind::Array, length as u32);
    let mut place = 0;
    for word in words {
        memory.fill(address, place, *word);
        place += 1;
    }
    Part {
        address,
        offset: 0,
        length: length as u16,
        access: Access::Unlimited,
    }
}
