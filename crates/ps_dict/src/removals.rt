//! Pairs that are taken out of a dictionary (PLRM2, 8 'undef').

ghost use Rattle.std.specs.Prelude.{◌≡◌, ◌≢◌, ℕ, ◌+◌, ◌-◌, ◌<◌, ◌≤◌, List, [], Some, OnOk, OnErr, length, replicate, vec_capacity, if◌then◌else◌, nat_lt};
ghost use Rattle.ps_language.specs.Limits.{capacity_limit};
ghost use Rattle.ps_language.specs.Value.{Store, Value};
ghost use Rattle.ps_language.specs.Access.{dictionary_at, with_dictionary};
ghost use Rattle.ps_language.specs.Dictionaries.{without};
ghost use Rattle.ps_mem.specs.Heap.{birth_at, AfterStore, zero_word};
ghost use Rattle.ps_mem.specs.Index.{index_words};
ghost use Rattle.ps_mem.specs.Keeps.{Keeps};
ghost use Rattle.ps_mem.specs.References.{StandsAs};
ghost use Rattle.ps_mem.specs.Shows.{IsSound, Shows};
ghost use Rattle.ps_dict.specs.Places.{IsShort, count_at, capacity_at, pairs_at, first_place};
ghost use Rattle.ps_dict.specs.Puts.{AfterChange};
ghost use Rattle.ps_dict.specs.Removals as removals;
ghost use Rattle.ps_dict.specs.Removals.{without_place, with_pairs_moved};

use crate::bodies::push_nulls;
use crate::changes::natural_word;
use crate::dictionaries::{COUNT, body, capacity, length};
use crate::index::{first_place, free_in};
use ps_language::kinds::Kind;
use ps_mem::{FieldAt, Memory, Slot};
use ps_word::words::Word;
use std::alloc::AllocError;

/// How many records a removal asks for: 3 for the last pair, else 4.
pub fn removal_records<M: Memory>(memory: &mut M, address: u32, place: u32) -> u32
    requires place { place < count_at (M.heap memory.old) address }
    requires sound { IsSound (M.heap memory.old) }
    requires known { StandsAs (M.heap memory.old) Kind.Dictionary address 4 }
    ensures heap { M.heap memory.new ≡ M.heap memory.old }
    ensures grants { M.grants memory.new ≡ M.grants memory.old }
    ensures answer { result
        ≡ removals.removal_records (count_at (M.heap memory.old) address) place }
{
    let count = length(memory, address);
    if place + 1 == count { 3 } else { 4 }
}

/// Moves the pairs behind a place one place down, with one record in a cycle; the last one stands
/// twice then. Where there is none behind it,
/// nothing is done. The index is no longer that of the pairs.
fn move_down<M: Memory>(memory: &mut M, slot: Slot, address: u32, place: u32)
    requires granted { place + 1 ≢ count_at (M.heap memory.old) address
        → 1 ≤ (M.grants memory.old).records slot }
    requires place { place < count_at (M.heap memory.old) address }
    requires sound { IsSound (M.heap memory.old) }
    requires known { StandsAs (M.heap memory.old) Kind.Dictionary address 4 }
    ensures heap { M.heap memory.new ≡ with_pairs_moved (M.heap memory.old) address place }
    ensures last { place + 1 ≡ count_at (M.heap memory.old) address
        → M.grants memory.new ≡ M.grants memory.old }
    ensures grants { AfterStore (M.grants memory.old) (M.grants memory.new) slot }
{
    let count = length(memory, address);
    let body = body(memory, address);
    let behind = count - place - 1;
    if behind != 0 {
        let from = FieldAt {
            address: body,
            place: 2 * place + 2,
        };
        let to = FieldAt {
            address: body,
            place: 2 * place,
        };
        memory.copy(slot, from, to, 2 * behind);
    }
}

/// Takes out the pair at a place, which `position` found for its key: the pairs behind it move one
/// place down, in order, and the last place
/// becomes null. As many records as `removal_records` says are granted in the slot.
///
/// The index is put together anew in `scratch`, which is empty before and after, and stored as one
/// range. `AllocError`: `scratch` lacks room
/// for as many words as the capacity, and its growth was refused; nothing has changed.
pub fn remove<M: Memory>(
    memory: &mut M,
    slot: Slot,
    address: u32,
    place: u32,
    scratch: &mut Vec<Word>,
) -> Result<(), AllocError>
    requires granted { removals.removal_records (count_at (M.heap memory.old) address) place ≤
        (M.grants memory.old).records slot }
    requires place { place < count_at (M.heap memory.old) address }
    requires sound { IsSound (M.heap memory.old) }
    requires known { StandsAs (M.heap memory.old) Kind.Dictionary address 4 }
    requires scratch { scratch.old.items ≡ [] }
    ensures sound { IsSound (M.heap memory.new) }
    ensures keeps { Keeps (M.heap memory.old) (M.heap memory.new) }
    ensures births { birth_at (M.heap memory.new) ≡ birth_at (M.heap memory.old) }
    ensures grants { AfterChange (M.grants memory.old) (M.grants memory.new) slot
        (removals.removal_records (count_at (M.heap memory.old) address) place) 0 }
    ensures shows { (names : List (List ℕ)) (s : Store) → Shows (M.heap memory.old) names s
        → (key : Value) → first_place (dictionary_at s (birth_at (M.heap memory.old) address)).pairs
        key ≡ Some place → let d = dictionary_at s (birth_at (M.heap memory.old) address) in
        OnOk result (Shows (M.heap memory.new) names
        (with_dictionary s (birth_at (M.heap memory.old) address)
        (record d { pairs = without d.pairs key }))) }
    ensures unchanged { OnErr result
        ((M.heap memory.new ≡ M.heap memory.old) × (M.grants memory.new ≡ M.grants memory.old)) }
    ensures full { OnErr result (IsShort (vec_capacity scratch.old) (M.heap memory.old) address) }
    ensures scratch { scratch.new.items ≡ [] }
    ensures room { vec_capacity scratch.old ≤ vec_capacity scratch.new }
{
    let count = length(memory, address);
    let capacity = capacity(memory, address);
    let body = body(memory, address);
    let null = Word::null();
    let fewer = natural_word(count - 1);
    gather_index(memory, address, place, scratch)?;
    move_down(memory, slot, address, place);
    memory.store(slot, body, 2 * (count - 1), &[null, null]);
    memory.store(slot, address, COUNT, &[fewer]);
    memory.store(slot, body, 2 * capacity, scratch.as_slice());
    scratch.clear();
    Ok(())
}

/// Where a position stands among the pairs before the one at `gone` was taken out.
#[inline]
fn place_beside(position: u32, gone: u32) -> u32
    requires few { position < capacity_limit }
    ensures { result ≡ (if nat_lt position gone then position else position + 1) }
{
    if position < gone {
        position
    } else {
        position + 1
    }
}

/// The words of the index of the pairs but that at a place, in an empty list. `AllocError`: as for
/// `remove`, and the list is empty still.
fn gather_index<M: Memory>(
    memory: &mut M,
    address: u32,
    gone: u32,
    scratch: &mut Vec<Word>,
) -> Result<(), AllocError>
    requires sound { IsSound (M.heap memory.old) }
    requires known { StandsAs (M.heap memory.old) Kind.Dictionary address 4 }
    requires place { gone < count_at (M.heap memory.old) address }
    requires empty { scratch.old.items ≡ [] }
    ensures heap { M.heap memory.new ≡ M.heap memory.old }
    ensures grants { M.grants memory.new ≡ M.grants memory.old }
    ensures index { OnOk result
        (scratch.new.items ≡ index_words (birth_at (M.heap memory.old))
        (capacity_at (M.heap memory.old) address)
        (without_place (pairs_at (M.heap memory.old) address) gone)) }
    ensures unchanged { OnErr result (scratch.new.items ≡ []) }
    ensures full { OnErr result (IsShort (vec_capacity scratch.old) (M.heap memory.old) address) }
    ensures room { vec_capacity scratch.old ≤ vec_capacity scratch.new }
{
    let capacity = capacity(memory, address);
    let count = length(memory, address);
    let body = body(memory, address);
    push_nulls(scratch, capacity)?;
    for position in 0..count - 1 {
        let from = place_beside(position, gone);
        let key = memory.load(body, 2 * from);
        let start = first_place(memory, key, capacity);
        let place = free_in(scratch.as_slice(), start, capacity);
        scratch[place as usize] = natural_word(position);
    }
    Ok(())
}
