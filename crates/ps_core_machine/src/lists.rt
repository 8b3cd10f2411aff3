//! Lists of objects, of replicas, of logs and of words: what is looked up in them, stored and
//! copied.
//!
//! They keep no invariant: where two of a list have the same address, the first is found.
#![tactic(auto)]

ghost use Rattle.std.specs.Prelude.{◌≡◌, ◌+◌, ◌<◌, ◌^◌, ◌++◌, replicate, slice_set, IfOk, []};
ghost use Rattle.std.specs.Prelude.{slice_index, option_copied, MatchBool};
ghost use Rattle.std.specs.Option.{SomeIff};
ghost use Rattle.ps_record.specs.Format.{slots};
ghost use Rattle.ps_core_machine.specs.Conditions as conditions;
ghost use Rattle.ps_core_machine.specs.Objects as objects;

use crate::events::Seen;
use crate::parts::{Log, Replica, StandingObject};
use ps_record::SLOTS;
use ps_word::headers::{birth_in, kind_in};
use std::alloc::{AllocError, Global};

/// Whether the address is in the list.
pub fn among(list: &[u64], address: u64) -> bool
    ensures { result ≡ objects.among list.now address }
{
    list.iter().any(|a| address == *a)
}

/// The object at an address.
pub fn object_at(list: &[StandingObject], address: u64) -> Option<&StandingObject>
    ensures { option_copied result ≡ objects.object_at list.now address }
{
    list.iter().find(|o| address == o.address())
}

/// The pair of an original.
pub fn pair_of(list: &[Replica], address: u64) -> Option<&Replica>
    ensures { option_copied result ≡ objects.pair_of list.now address }
{
    list.iter().find(|p| address == p.original())
}

/// Whether the scan has stored each field of each replica.
pub fn all_filled(list: &[Replica]) -> bool
    ensures { result ≡ objects.all_filled list.now }
{
    list.iter().all(|p| p.is_filled())
}

/// The word at an index, and zero past the end.
pub fn load(words: &[u64], index: u64) -> u64
    ensures { result ≡ slice_index words.now index }
{
    if index < words.len() as u64 {
        words[index as usize]
    } else {
        0
    }
}

/// Stores to a word; past the end nothing is stored.
pub fn store(words: &mut Vec<u64, Global>, index: u64, word: u64)
    ensures { words.new.items ≡ slice_set words.old.items index word }
{
    if index < words.len() as u64 {
        words[index as usize] = word;
    }
}

/// The index of a field.
pub fn field_index(address: u64, field: u64) -> Option<u64>
    ensures { SomeIff result (address + 2 + field < 2 ^ 64) (address + 2 + field) }
{
    address.checked_add(2)?.checked_add(field)
}

/// The word of a field, and zero past the end.
pub fn load_field(words: &[u64], address: u64, field: u64) -> u64
    ensures { result ≡ slice_index words.now (address + 2 + field) }
{
    let length = words.len() as u64;
    match field_index(address, field) {
        None => 0,
        Some(index) => {
            if index < length {
                words[index as usize]
            } else {
                0
            }
        }
    }
}

/// Stores to a field; past the end nothing is stored.
pub fn store_field(words: &mut Vec<u64, Global>, address: u64, field: u64, word: u64)
    ensures { words.new.items ≡ slice_set words.old.items (address + 2 + field) word }
{
    let end = words.len() as u64;
    match field_index(address, field) {
        None => {}
        Some(index) => {
            if index < end {
                store(words, index, word);
            }
        }
    }
}

/// Whether the word is one of a replica.
pub fn is_in_replica(list: &[Replica], place: u64) -> bool
    ensures { result ≡ objects.is_in_replica list.now place }
{
    list.iter()
        .any(|p| p.replica() <= place && p.ends_after(place))
}

/// The word that was seen at a place last.
pub fn seen_at(list: &[Seen], place: u64) -> Option<u64>
    ensures { result ≡ objects.seen_at list.now place }
{
    list.iter().find(|s| place == s.place).map(|s| s.word)
}

/// Whether a dictionary with this birth stands.
pub fn dictionary_stands(list: &[StandingObject], birth: u64) -> bool
    ensures { result ≡ conditions.dictionary_stands list.now birth }
{
    list.iter().any(|o| kind_in(o.header()) == 8 && birth_in(o.header()) == birth)
}

/// A log with no record for each slot.
pub fn empty_logs(alloc: Global) -> Result<Vec<Log, Global>, AllocError>
    ensures { IfOk result (λ v. v.items ≡ replicate slots []) }
{
    let mut logs = Vec::with_capacity(alloc, SLOTS as usize)?;
    for _ in 0..SLOTS {
        logs.push(Log::new(alloc))?;
    }
    Ok(logs)
}

/// The list with others in front.
pub fn with_front(front: Vec<u64, Global>, list: &[u64]) -> Result<Vec<u64, Global>, AllocError>
    ensures { IfOk result (λ v. v.items ≡ front.items ++ list.now) }
{
    let mut all = front;
    all.extend_from_slice(list)?;
    Ok(all)
}

/// The objects after a store to a field.
pub fn with_field(
    alloc: Global,
    list: Vec<StandingObject, Global>,
    address: u64,
    field: u64,
    word: u64,
) -> Result<Vec<StandingObject, Global>, AllocError>
    ensures { IfOk result (λ v. v.items ≡ objects.with_field list.items address field word) }
{
    list.into_iter()
        .map(|o| o.stored(address, field, word))
        .collect(alloc)
}

/// The pairs after a store to a field of a replica.
pub fn with_copy(
    alloc: Global,
    list: Vec<Replica, Global>,
    address: u64,
    field: u64,
    word: u64,
    scans: bool,
) -> Result<Vec<Replica, Global>, AllocError>
    ensures { IfOk result (λ v. v.items ≡ objects.with_copy list.items address field word scans) }
{
    list.into_iter()
        .map(|p| p.copied_to(address, field, word, scans))
        .collect(alloc)
}

/// The replicas as standing objects.
pub fn replicas(
    alloc: Global,
    list: Vec<Replica, Global>,
) -> Result<Vec<StandingObject, Global>, AllocError>
    ensures { IfOk result (λ v. v.items ≡ objects.replicas list.items) }
{
    list.into_iter().map(|p| p.into_object()).collect(alloc)
}

/// The logs once more; memory may be short.
pub fn copy_logs(alloc: Global, list: &[Log]) -> Result<Vec<Log, Global>, AllocError>
    ensures { IfOk result (λ v. v.items ≡ list.now) }
{
    let mut copies = Vec::new(alloc);
    for item in list {
        copies.push(item.copy()?)?;
    }
    Ok(copies)
}

/// The objects once more; memory may be short.
pub fn copy_objects(
    alloc: Global,
    list: &[StandingObject],
) -> Result<Vec<StandingObject, Global>, AllocError>
    ensures { IfOk result (λ v. v.items ≡ list.now) }
{
    let mut copies = Vec::new(alloc);
    for item in list {
        copies.push(item.copy()?)?;
    }
    Ok(copies)
}

/// The pairs once more; memory may be short.
pub fn copy_pairs(alloc: Global, list: &[Replica]) -> Result<Vec<Replica, Global>, AllocError>
    ensures { IfOk result (λ v. v.items ≡ list.now) }
{
    let mut copies = Vec::new(alloc);
    for item in list {
        copies.push(item.copy()?)?;
    }
    Ok(copies)
}

/// The end of the last replica, or the lowest word where there is none.
pub fn end_of_replicas(low: u64, list: &[Replica]) -> u64
    requires { objects.end_of_replicas low list.now < 2 ^ 64 }
    ensures { result ≡ objects.end_of_replicas low list.now }
{
    let mut end = low;
    for p in list {
        end = end.max(p.end());
    }
    end
}

/// Whether two lists of logs are the same.
pub fn same_logs(a: &[Log], b: &[Log]) -> bool
    ensures { MatchBool result (a.now ≡ b.now) (a.now ≡ b.now → ⊥) }
{
    if a.len() != b.len() {
        return false;
    }
    for i in 0..a.len() {
        if !a[i].is_same(&b[i]) {
            return false;
        }
    }
    true
}
