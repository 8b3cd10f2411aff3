//! What values name, and their renaming: a reference to an original becomes one to its replica, and
//! everything else stays.
#![tactic(auto)]

ghost use Rattle.std.specs.Prelude.{◌≡◌, ◌<◌, ◌^◌, IfOk, map};
ghost use Rattle.ps_core_machine.specs.Bounds.{AllLow};
ghost use Rattle.ps_core_machine.specs.Objects as objects;
ghost use Rattle.ps_word.specs.Format as format;
ghost use Rattle.ps_word.specs.Readers as readers;

use ps_core_machine::lists::{object_at, pair_of};
use ps_core_machine::parts::{Replica, StandingObject};
use ps_word::headers::kind_in;
use ps_word::words::Word;
use std::alloc::{AllocError, Global};

/// Whether the words of an object with this header are values, and no string.
pub fn holds_values(header: u64) -> bool
    ensures { result ≡ objects.holds_values header }
{
    !(kind_in(header) == 7)
}

/// Whether the word is a reference.
pub fn is_reference(word: u64) -> bool
    ensures { result ≡ readers.is_reference word }
{
    Word(word).is_reference()
}

/// The address in the places of a reference.
pub fn address_in(word: u64) -> u64
    ensures { result ≡ format.address_in word }
{
    Word(word).low_address() as u64
}

/// Whether the reference, if it is one, names a standing object.
pub fn value_stands(list: &[StandingObject], word: u64) -> bool
    ensures { result ≡ objects.value_stands list.now word }
{
    if is_reference(word) {
        object_at(list, address_in(word)).is_some()
    } else {
        true
    }
}

/// Whether the reference, if it is one, names an original.
pub fn value_has_replica(list: &[Replica], word: u64) -> bool
    ensures { result ≡ objects.value_has_replica list.now word }
{
    if is_reference(word) {
        pair_of(list, address_in(word)).is_some()
    } else {
        true
    }
}

/// The same of a word of an object with this header.
pub fn word_stands(list: &[StandingObject], header: u64, word: u64) -> bool
    ensures { result ≡ objects.word_stands list.now header word }
{
    if holds_values(header) {
        value_stands(list, word)
    } else {
        true
    }
}

/// The same of a word of an object with this header.
pub fn word_has_replica(list: &[Replica], header: u64, word: u64) -> bool
    ensures { result ≡ objects.word_has_replica list.now header word }
{
    if holds_values(header) {
        value_has_replica(list, word)
    } else {
        true
    }
}

/// Whether each reference names a standing object.
pub fn values_stand(list: &[StandingObject], words: &[u64]) -> bool
    ensures { result ≡ objects.values_stand list.now words.now }
{
    words.iter().all(|w| value_stands(list, *w))
}

/// Whether each reference names an original.
pub fn values_have_replicas(list: &[Replica], words: &[u64]) -> bool
    ensures { result ≡ objects.values_have_replicas list.now words.now }
{
    words.iter().all(|w| value_has_replica(list, *w))
}

/// The addresses that values name, in order.
pub fn addresses_named(alloc: Global, words: &[u64]) -> Result<Vec<u64, Global>, AllocError>
    ensures { IfOk result (λ v. v.items ≡ objects.addresses_named words.now) }
{
    words
        .iter()
        .filter(|w| is_reference(**w))
        .map(|w| address_in(*w))
        .collect(alloc)
}

/// A value where a reference to an original becomes one to its replica.
pub fn renamed_value(list: &[Replica], word: u64) -> u64
    requires { AllLow list.now }
    ensures { result ≡ objects.renamed_value list.now word }
{
    if !is_reference(word) {
        return word;
    }
    match pair_of(list, address_in(word)) {
        None => word,
        Some(p) => Word(word).readdressed(p.replica() as u32).0,
    }
}

/// A word of an object with this header, renamed; those of strings stay.
pub fn renamed(list: &[Replica], header: u64, word: u64) -> u64
    requires { AllLow list.now }
    ensures { result ≡ objects.renamed list.now header word }
{
    if holds_values(header) {
        renamed_value(list, word)
    } else {
        word
    }
}

/// The values, renamed.
pub fn renamed_values(
    alloc: Global,
    list: &[Replica],
    words: &[u64],
) -> Result<Vec<u64, Global>, AllocError>
    requires { AllLow list.now }
    ensures { IfOk result (λ v. v.items ≡ map (objects.renamed_value list.now) words.now) }
{
    words.iter().map(|w| renamed_value(list, *w)).collect(alloc)
}
