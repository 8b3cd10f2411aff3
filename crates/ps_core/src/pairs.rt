//! Originals with their replicas as the collector knows them: headers seen, addresses, and copies.
#![tactic(auto)]

ghost use Rattle.std.specs.Bool.{Decides};
ghost use Rattle.std.specs.Prelude.{◌≡◌, ◌<◌, ◌^◌, IfOk, option_copied};
ghost use Rattle.ps_core_machine.specs.Bounds.{AllLow, copied_pairs};
ghost use Rattle.ps_core_machine.specs.Objects as objects;
ghost use Rattle.ps_core_machine.specs.Steps as steps;

use crate::values::renamed;
use ps_core_machine::events::{Carried, Seen};
use ps_core_machine::lists::{pair_of, seen_at, with_copy};
use ps_core_machine::parts::Replica;
use std::alloc::{AllocError, Global};

/// The header of a pair, where there is one.
pub fn header_of(pair: Option<&Replica>) -> u64
    ensures { result ≡ steps.header_of (option_copied pair.entry) }
{
    match pair {
        None => 0,
        Some(p) => p.header(),
    }
}

/// The replica of a pair, where there is one.
pub fn replica_of(pair: Option<&Replica>) -> u64
    ensures { result ≡ steps.replica_of (option_copied pair.entry) }
{
    match pair {
        None => 0,
        Some(p) => p.replica(),
    }
}

/// Whether the word was seen at the place.
pub fn is_seen(list: &[Seen], place: u64, word: u64) -> bool
    ensures { Decides result (objects.seen_at list.now place ≡ Some word) }
{
    match seen_at(list, place) {
        None => false,
        Some(w) => w == word,
    }
}

/// Whether the word that was seen at the place leads to this address in this cycle.
#[tactic(auto, unfolding(ps_word::specs::Headers::forward_packed))]
pub fn leads_back(list: &[Seen], place: u64, cycle: u64, address: u64) -> bool
    requires { cycle < 2 ^ 33 }
    ensures { Decides result (objects.seen_at list.now place ≡ Some
        (steps.forwarding cycle address)) }
{
    match seen_at(list, place) {
        None => false,
        Some(w) => w >= cycle * (1 << 24) && w - cycle * (1 << 24) == address,
    }
}

/// The pairs after the store of the word being copied.
pub fn copied(
    alloc: Global,
    pairs: Vec<Replica, Global>,
    k: Carried,
    scans: bool,
) -> Result<Vec<Replica, Global>, AllocError>
    requires { AllLow pairs.items }
    ensures { IfOk result (λ v. v.items ≡ copied_pairs pairs.items k scans) }
{
    let word = renamed(
        pairs.as_slice(),
        header_of(pair_of(pairs.as_slice(), k.address)),
        k.word,
    );
    with_copy(alloc, pairs, k.address, k.field, word, scans)
}
