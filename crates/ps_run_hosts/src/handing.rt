//! What a host has room for of what was found.

ghost use Rattle.std.specs.Prelude.{◌≡◌, ◌↔◌, map, IfErr, IfOk, IsTrue};
ghost use Rattle.ps_run_schedules.specs.Texts.{AreEntries};
ghost use Rattle.ps_run_hosts.specs.Hosts as hosts;
ghost use Rattle.ps_run_hosts.specs.Hosts.{handed, IsHanded, IsHandedOut, IsNotTaken};

use crate::hosting::Refusal;
use crate::numbers::{HostEntry, code_of, code_of_refusal, given_entry, handed_entry};
use ps_language::schedules::Entry;
use ps_run_schedules::{Entries, is_entry, steps_of};
use ps_vault::Report;
use std::alloc::{AllocError, Global};

/// Writes as many of these bytes or numbers as there is room for.
pub(crate) fn hand<T: Copy>(found: &[T], room: &mut [T])
    ensures { room.new ≡ handed found.now room.old }
{
    let count = found.len().min(room.len());
    room[..count].copy_from_slice(&found[..count]);
}

/// Writes as many of these entries as there is room for.
pub(crate) fn hand_entries(entries: Entries<'_>, room: &mut [HostEntry])
    ensures { room.new ≡ handed (map hosts.handed_entry entries.entry) room.old }
{
    let mut left = entries;
    let count = room.len();
    for place in 0..count {
        let Some(entry) = left.next() else {
            return;
        };
        room[place] = handed_entry(&entry);
    }
}

/// Whether each entry that a host gives is one: of a context's identifier, of a step or more, and
/// with a pair, if it shows one, of numbers of words from 1.
fn are_entries(entries: &[HostEntry]) -> bool
    ensures { IsTrue result ↔ AreEntries (map hosts.given_entry entries.now) }
{
    let mut left = entries;
    while let Some((first, behind)) = left.split_first() {
        if !is_entry(&given_entry(first)) {
            return false;
        }
        left = behind;
    }
    true
}

/// What these entries of a host's mean. `AllocError`: there is no room for it.
fn meant_entries(alloc: Global, entries: &[HostEntry]) -> Result<Vec<Entry>, AllocError>
    ensures { IfOk result (λ given. given.items ≡ map hosts.given_entry entries.now) }
{
    let mut given = Vec::with_capacity(alloc, entries.len())?;
    for entry in entries {
        given.push(given_entry(entry))?;
    }
    Ok(given)
}

/// The schedule that a host gives. The refusal is `BadEntry` where an entry is none, and `NoRoom`
/// where there is no room for it.
pub(crate) fn given_entries(alloc: Global, entries: &[HostEntry]) -> Result<Vec<Entry>, Refusal>
    ensures given { IfOk result (λ given. given.items ≡ map hosts.given_entry entries.now) }
    ensures entries { IfOk result (λ _. AreEntries (map hosts.given_entry entries.now)) }
    ensures refused { IfErr result (IsNotTaken (map hosts.given_entry entries.now)) }
{
    if !are_entries(entries) {
        return Err(Refusal::BadEntry);
    }
    match meant_entries(alloc, entries) {
        Ok(given) => Ok(given),
        Err(_) => Err(Refusal::NoRoom),
    }
}

/// How much a run came to, in the order in which a host has it.
fn counts_of(report: &Report) -> [u64; 5]
    ensures { result ≡ hosts.counts_of report.now }
{
    [
        report.printed.len() as u64,
        report.schedule.len() as u64,
        steps_of(report.schedule.entries()),
        u64::from(report.flips),
        report.taken,
    ]
}

/// Hands a report out as far as there is room, and gives its code.
fn hand_report(
    report: &Report,
    printed: &mut [u8],
    schedule: &mut [HostEntry],
    counts: &mut [u64],
) -> u32
    ensures { IsHanded report.now
        (record { printed = printed.old; schedule = schedule.old; counts = counts.old })
        (record { printed = printed.new; schedule = schedule.new; counts = counts.new }) result }
{
    hand(report.printed.as_slice(), printed);
    hand_entries(report.schedule.entries(), schedule);
    hand(&counts_of(report), counts);
    code_of(report.outcome)
}

/// Hands out what was made, and gives its code. Of the printed bytes and of the entries as many are
/// written as there is room for, from the first on; where there is no run nothing is written.
pub fn hand_out(
    made: &Result<Report, Refusal>,
    printed: &mut [u8],
    schedule: &mut [HostEntry],
    counts: &mut [u64],
) -> u32
    ensures { IsHandedOut made.now
        (record { printed = printed.old; schedule = schedule.old; counts = counts.old })
        (record { printed = printed.new; schedule = schedule.new; counts = counts.new }) result }
{
    match made {
        Ok(report) => hand_report(report, printed, schedule, counts),
        Err(refusal) => code_of_refusal(*refusal),
    }
}
