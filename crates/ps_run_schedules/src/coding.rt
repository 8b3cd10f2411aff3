//! Entries as bytes: numbers in groups of seven bits, the lowest first.

ghost use Rattle.std.specs.Prelude.{◌≡◌, ◌==◌, ◌+◌, ◌%◌, ◌<◌, ◌≤◌, ◌^◌, ℕ, is_none, nat_lt};
ghost use Rattle.std.specs.Prelude.{vec_len, vec_capacity};
ghost use Rattle.ps_language.specs.declared.schedules.Entry.{Entry as ScheduleEntry};
ghost use Rattle.ps_run_schedules.specs.Packing as packing;
ghost use Rattle.ps_run_schedules.specs.Packing.{Writes, number_in, words_of, pair_in};
ghost use Rattle.ps_run_schedules.specs.Packing.{flagged_in, entry_in, IsShort};

use crate::turns::{is_plain, plain_entry};
use ps_language::schedules::Entry;

/// The number that bytes begin with, up to 4,294,967,295, and the bytes behind it.
fn number(bytes: &[u8]) -> (u32, &[u8])
    ensures value { result.0 ≡ (number_in bytes.now).0 }
    ensures rest { result.1.now ≡ (number_in bytes.now).1 }
{
    match bytes {
        [] => (0, bytes),
        [byte, rest @ ..] => {
            if *byte < 128 {
                return (u32::from(*byte), rest);
            }
            let (high, rest) = number(rest);
            let low = u32::from(*byte - 128);
            (high.saturating_mul(128).saturating_add(low), rest)
        }
    }
}

/// The words that a number stands for.
fn words(code: u32) -> i32
    ensures { result ≡ words_of code }
{
    let half = (code / 2) as i32;
    if code % 2 == 0 { half } else { -1 - half }
}

/// The number that stands for words.
fn code_of_words(words: i32) -> u32
    ensures { words_of result ≡ words }
{
    if words >= 0 {
        2 * (words as u32)
    } else {
        2 * ((-1 - words) as u32) + 1
    }
}

/// The pair that bytes begin with, and the bytes behind it.
fn pair(bytes: &[u8]) -> ((i32, i32), &[u8])
    ensures value { result.0 ≡ (pair_in bytes.now).0 }
    ensures rest { result.1.now ≡ (pair_in bytes.now).1 }
{
    let (used, rest) = number(bytes);
    let (most, rest) = number(rest);
    ((words(used), words(most)), rest)
}

/// The entry with flags that bytes begin with, and the bytes behind it.
fn flagged(bytes: &[u8]) -> (Entry, &[u8])
    ensures value { result.0 ≡ (flagged_in bytes.now).0 }
    ensures rest { result.1.now ≡ (flagged_in bytes.now).1 }
{
    let (flags, rest) = number(bytes);
    let (context, rest) = number(rest);
    let (steps, rest) = number(rest);
    let (pair, rest) = pair(rest);
    (
        Entry {
            context,
            steps,
            refused: flags % 2 == 1,
            shown: if flags < 2 { None } else { Some(pair) },
        },
        rest,
    )
}

/// The entry that bytes begin with, and the bytes behind it.
pub(crate) fn entry(bytes: &[u8]) -> (Entry, &[u8])
    ensures value { result.0 ≡ (entry_in bytes.now).0 }
    ensures rest { result.1.now ≡ (entry_in bytes.now).1 }
{
    let (steps, rest) = number(bytes);
    if steps == 0 {
        return flagged(rest);
    }
    let (context, rest) = number(rest);
    (plain_entry(context, steps), rest)
}

/// Writes a number in up to so many bytes and one, for which the capacity has room.
fn push_number(bytes: &mut Vec<u8>, number: u32, more: u32)
    requires fits { number < 128 ^ (more + 1) }
    requires room { vec_len bytes.old + more < vec_capacity bytes.old }
    ensures written { Writes ℕ number_in number (more + 1) bytes.old.items bytes.new.items }
    ensures short { number < 128 → vec_len bytes.new ≡ vec_len bytes.old + 1 }
    ensures capacity { vec_capacity bytes.new ≡ vec_capacity bytes.old }
{
    if number < 128 {
        bytes.push_reserved(number as u8);
        return;
    }
    bytes.push_reserved(128 + (number % 128) as u8);
    push_number(bytes, number / 128, more - 1);
}

/// The most bytes of a number behind the first.
const FURTHER: u32 = 4;

/// The most bytes of an entry.
pub(crate) const MOST_ENTRY_BYTES: usize = 22;

/// The flags of an entry: 1 where its last step is refused, and 2 where it shows a pair.
fn flags_of(entry: &Entry) -> u32
    ensures few { result < 4 }
    ensures refused { (result % 2 == 1) ≡ entry.now.refused }
    ensures shown { nat_lt result 2 ≡ is_none entry.now.shown }
{
    match (entry.refused, entry.shown) {
        (false, None) => 0,
        (true, None) => 1,
        (false, Some(_)) => 2,
        (true, Some(_)) => 3,
    }
}

/// Writes an entry with flags, for which the capacity has room.
fn push_flagged(bytes: &mut Vec<u8>, entry: Entry)
    requires { vec_len bytes.old + 21 ≤ vec_capacity bytes.old }
    ensures written { Writes ScheduleEntry flagged_in entry 21 bytes.old.items bytes.new.items }
    ensures capacity { vec_capacity bytes.new ≡ vec_capacity bytes.old }
{
    let (used, most) = entry.shown.unwrap_or((0, 0));
    push_number(bytes, flags_of(&entry), 0);
    push_number(bytes, entry.context, FURTHER);
    push_number(bytes, entry.steps, FURTHER);
    push_number(bytes, code_of_words(used), FURTHER);
    push_number(bytes, code_of_words(most), FURTHER);
}

/// Writes an entry, for which the capacity has room.
pub(crate) fn push_entry(bytes: &mut Vec<u8>, entry: Entry)
    requires { vec_len bytes.old + packing.most_entry_bytes ≤ vec_capacity bytes.old }
    ensures written { Writes ScheduleEntry entry_in entry packing.most_entry_bytes
        bytes.old.items bytes.new.items }
    ensures short { IsShort entry → vec_len bytes.new ≡ vec_len bytes.old + 2 }
    ensures capacity { vec_capacity bytes.new ≡ vec_capacity bytes.old }
{
    if entry.steps != 0 && is_plain(&entry) {
        push_number(bytes, entry.steps, FURTHER);
        push_number(bytes, entry.context, FURTHER);
        return;
    }
    push_number(bytes, 0, 0);
    push_flagged(bytes, entry);
}
