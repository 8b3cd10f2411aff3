//! The pairs of one dictionary put into another, in a list of words (PLRM2, 8 'copy').

ghost use Rattle.std.specs.Prelude.{◌≡◌, ℕ, ◌+◌, ◌*◌, ◌<◌, ◌≤◌, ◌^◌, List, [], Some, OnOk, OnErr, length, take, map, slice_get, vec_capacity, if◌then◌else◌};
ghost use Rattle.std.specs.List.{AllByRecursion, AllPairs};
ghost use Rattle.ps_language.specs.Value.{Store};
ghost use Rattle.ps_language.specs.Access.{dictionary_at};
ghost use Rattle.ps_language.specs.Dictionaries.{put_pairs};
ghost use Rattle.ps_mem.specs.Heap.{birth_at};
ghost use Rattle.ps_mem.specs.Index.{pairs_of_words};
ghost use Rattle.ps_mem.specs.References.{StandsAs};
ghost use Rattle.ps_mem.specs.Shows.{IsValue, AreValues, IsSound, Shows, pair_of, words_of_pairs};
ghost use Rattle.ps_dict.specs.Keys.{IsKey};
ghost use Rattle.ps_dict.specs.Merges.{merged, merged_at};
ghost use Rattle.ps_dict.specs.Places.{count_at, pairs_at, place_of};

use crate::copies::Merge;
use crate::dictionaries::{body, length, pair, position};
use crate::keys::is_same_key;
use ps_language::kinds::Kind;
use ps_mem::Memory;
use ps_word::words::Word;
use std::alloc::AllocError;

/// The place of a key among pairs that are given by their words, gone through in order.
fn place_among(words: &[Word], key: Word) -> Option<u32>
    requires few { length words.now < 2 ^ 31 }
    requires words { AllByRecursion IsKey words.now }
    requires key { IsKey key }
    ensures { result ≡ place_of (pairs_of_words words.now) key }
{
    for place in 0..words.len() / 2 {
        if is_same_key(words[2 * place], key) {
            return Some(place as u32);
        }
    }
    None
}

/// The place of a key, which stands at a place of the source, among the pairs that were put
/// together before it. Both indexes answer; the words are gone through only where the source has
/// the key twice.
fn merged_place<M: Memory>(
    memory: &mut M,
    merge: Merge,
    place: u32,
    key: Word,
    words: &[Word],
) -> Option<u32>
    requires sound { IsSound (M.heap memory.old) }
    requires target { StandsAs (M.heap memory.old) Kind.Dictionary merge.to 4 }
    requires source { StandsAs (M.heap memory.old) Kind.Dictionary merge.from 4 }
    requires held { IsValue (M.heap memory.old) key }
    requires words { words.now ≡ words_of_pairs (merged (pairs_at (M.heap memory.old) merge.to)
        (take place (pairs_at (M.heap memory.old) merge.from))) }
    ensures heap { M.heap memory.new ≡ M.heap memory.old }
    ensures grants { M.grants memory.new ≡ M.grants memory.old }
    ensures answer { result ≡ place_of (merged (pairs_at (M.heap memory.old) merge.to)
        (take place (pairs_at (M.heap memory.old) merge.from))) key }
{
    match position(memory, merge.to, key) {
        Some(there) => Some(there),
        None => match position(memory, merge.from, key) {
            Some(first) => if first < place {
                place_among(words, key)
            } else {
                None
            },
            None => None,
        },
    }
}

/// Puts the pair at a place of the source into the pairs that were put together before it.
/// `AllocError`: the list has no room for two words more, and its growth was refused.
fn merge_pair<M: Memory>(
    memory: &mut M,
    merge: Merge,
    place: u32,
    scratch: &mut Vec<Word>,
) -> Result<(), AllocError>
    requires sound { IsSound (M.heap memory.old) }
    requires target { StandsAs (M.heap memory.old) Kind.Dictionary merge.to 4 }
    requires source { StandsAs (M.heap memory.old) Kind.Dictionary merge.from 4 }
    requires place { place < count_at (M.heap memory.old) merge.from }
    requires words { scratch.old.items ≡ words_of_pairs
        (merged (pairs_at (M.heap memory.old) merge.to)
        (take place (pairs_at (M.heap memory.old) merge.from))) }
    ensures heap { M.heap memory.new ≡ M.heap memory.old }
    ensures grants { M.grants memory.new ≡ M.grants memory.old }
    ensures words { OnOk result (scratch.new.items ≡ words_of_pairs
        (merged (pairs_at (M.heap memory.old) merge.to)
        (take (place + 1) (pairs_at (M.heap memory.old) merge.from)))) }
    ensures full { OnErr result (vec_capacity scratch.old < length scratch.old.items + 2) }
    ensures room { vec_capacity scratch.old ≤ vec_capacity scratch.new }
{
    let Some((key, value)) = pair(memory, merge.from, place) else {
        return Ok(());
    };
    match merged_place(memory, merge, place, key, scratch.as_slice()) {
        Some(there) => scratch[2 * there as usize + 1] = value,
        None => scratch.extend_from_slice(&[key, value])?,
    }
    Ok(())
}

/// Adds the words of the pairs of a dictionary to an empty list. `AllocError`: the list lacks room
/// for them, and its growth was refused.
fn push_pairs<M: Memory>(
    memory: &mut M,
    address: u32,
    scratch: &mut Vec<Word>,
) -> Result<(), AllocError>
    requires sound { IsSound (M.heap memory.old) }
    requires known { StandsAs (M.heap memory.old) Kind.Dictionary address 4 }
    requires empty { scratch.old.items ≡ [] }
    ensures heap { M.heap memory.new ≡ M.heap memory.old }
    ensures grants { M.grants memory.new ≡ M.grants memory.old }
    ensures words { OnOk result (scratch.new.items ≡ words_of_pairs
        (pairs_at (M.heap memory.old) address)) }
    ensures full { OnErr result
        (vec_capacity scratch.old < 2 * count_at (M.heap memory.old) address) }
    ensures room { vec_capacity scratch.old ≤ vec_capacity scratch.new }
{
    let count = length(memory, address);
    let body = body(memory, address);
    for place in 0..2 * count {
        let word = memory.load(body, place);
        scratch.push(word)?;
    }
    Ok(())
}

/// The words of the pairs of one dictionary put into another in order, in an empty list.
/// `AllocError`: the list lacks room for the words of both, and its growth was refused; it is
/// empty still.
pub(crate) fn merge_words<M: Memory>(
    memory: &mut M,
    merge: Merge,
    scratch: &mut Vec<Word>,
) -> Result<(), AllocError>
    requires sound { IsSound (M.heap memory.old) }
    requires target { StandsAs (M.heap memory.old) Kind.Dictionary merge.to 4 }
    requires source { StandsAs (M.heap memory.old) Kind.Dictionary merge.from 4 }
    requires empty { scratch.old.items ≡ [] }
    ensures heap { M.heap memory.new ≡ M.heap memory.old }
    ensures grants { M.grants memory.new ≡ M.grants memory.old }
    ensures words { OnOk result (scratch.new.items ≡ words_of_pairs
        (merged (pairs_at (M.heap memory.old) merge.to)
        (pairs_at (M.heap memory.old) merge.from))) }
    ensures unchanged { OnErr result (scratch.new.items ≡ []) }
    ensures full { OnErr result (vec_capacity scratch.old <
        2 * (count_at (M.heap memory.old) merge.to + count_at (M.heap memory.old) merge.from)) }
    ensures room { vec_capacity scratch.old ≤ vec_capacity scratch.new }
{
    let count = length(memory, merge.to);
    let more = length(memory, merge.from);
    scratch.reserve(2 * (count as usize + more as usize))?;
    push_pairs(memory, merge.to, scratch)?;
    for place in 0..more {
        merge_pair(memory, merge, place, scratch)?;
    }
    Ok(())
}

/// Whether the pair at a place of the source is one more among those that were put together before
/// it. Both indexes answer.
fn is_added<M: Memory>(memory: &mut M, merge: Merge, place: u32) -> bool
    requires sound { IsSound (M.heap memory.old) }
    requires target { StandsAs (M.heap memory.old) Kind.Dictionary merge.to 4 }
    requires source { StandsAs (M.heap memory.old) Kind.Dictionary merge.from 4 }
    requires place { place < count_at (M.heap memory.old) merge.from }
    ensures heap { M.heap memory.new ≡ M.heap memory.old }
    ensures grants { M.grants memory.new ≡ M.grants memory.old }
    ensures answer { length (merged (pairs_at (M.heap memory.old) merge.to)
        (take (place + 1) (pairs_at (M.heap memory.old) merge.from)))
        ≡ length (merged (pairs_at (M.heap memory.old) merge.to)
        (take place (pairs_at (M.heap memory.old) merge.from))) + (if result then 1 else 0) }
{
    let Some((key, _)) = pair(memory, merge.from, place) else {
        return false;
    };
    match position(memory, merge.to, key) {
        Some(_) => false,
        None => match position(memory, merge.from, key) {
            Some(first) => first >= place,
            None => true,
        },
    }
}

/// How many pairs there are once those of one dictionary are put into another in order, counted
/// without a list.
pub(crate) fn merged_count<M: Memory>(memory: &mut M, merge: Merge) -> u32
    requires sound { IsSound (M.heap memory.old) }
    requires target { StandsAs (M.heap memory.old) Kind.Dictionary merge.to 4 }
    requires source { StandsAs (M.heap memory.old) Kind.Dictionary merge.from 4 }
    ensures heap { M.heap memory.new ≡ M.heap memory.old }
    ensures grants { M.grants memory.new ≡ M.grants memory.old }
    ensures count { result ≡ length (merged_at (M.heap memory.old) merge.to merge.from) }
{
    let pairs = length(memory, merge.from);
    let mut count = length(memory, merge.to);
    for place in 0..pairs {
        if is_added(memory, merge, place) {
            count += 1;
        }
    }
    count
}
