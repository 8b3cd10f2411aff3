//! The numbers that a host and a run pass one another.

ghost use Rattle.std.specs.Prelude.{◌≡◌, ◌↔◌, ◌==◌, ◌<◌, ◌^◌, IfErr, IfOk, IfSome, IsTrue, None, not, slice_index_or};
ghost use Rattle.ps_run_hosts.specs.Hosts as hosts;
ghost use Rattle.ps_run_hosts.specs.Hosts.{AreSettings, IsKnown, settings_in};

use crate::hosting::Refusal;
use crate::keys::Keys;
use ps_language::schedules::Entry;
use ps_vault::{ANY_ENTRIES, ANY_OUTPUT, Config, Outcome};

/// What a host asks for.
#[derive(Clone, Copy, Debug, PartialEq, Eq)]
pub struct Settings {
    /// The words of the space, from 4,096 to 1,048,576.
    pub space: u32,
    /// The most steps of a context's turn, from 1 to 65,535.
    pub quantum: u32,
    /// The most steps of the run, at least 1.
    pub steps: u32,
    /// 0: the space is collected while the program runs. Any other number: memory that grows, and
    /// is never collected.
    pub plain: u32,
    /// The most bytes that the run may print; 0 is no bound.
    pub output: u64,
    /// The most entries that the run's schedule may have; 0 is no bound.
    pub entries: u64,
    /// For the table of names alone.
    pub keys: Keys,
}

/// An entry of a schedule.
#[repr(C)]
#[derive(Clone, Copy, Debug, PartialEq, Eq)]
pub struct HostEntry {
    /// The context's identifier, from 1.
    pub context: u32,
    /// How many steps.
    pub steps: u32,
    /// Whether the last step is refused: 0 or not.
    pub refused: u32,
    /// Whether a `vmstatus` in the last step shows the pair: 0 or not.
    pub shown: u32,
    /// The pair: the words used, and the words there are.
    pub used: i32,
    pub size: i32,
}

/// How many numbers of settings there are.
const SETTINGS: usize = 8;

/// The number at a place of those that a host gives, or the usual one, where it gives fewer.
fn number_at(numbers: &[u64], place: usize, usual: u64) -> u64
    ensures { result ≡ slice_index_or numbers.now place usual }
{
    match numbers.get(place) {
        Some(number) => *number,
        None => usual,
    }
}

/// The same as a number of 32 bits, if it is one.
fn short_at(numbers: &[u64], place: usize, usual: u32) -> Option<u32>
    ensures short { IfSome result (λ short. (short ≡ slice_index_or numbers.now place usual)
        × (slice_index_or numbers.now place usual < 2 ^ 32)) }
    ensures long { result ≡ None → ¬ (slice_index_or numbers.now place usual < 2 ^ 32) }
{
    let number = number_at(numbers, place, u64::from(usual));
    if number > u64::from(u32::MAX) {
        return None;
    }
    Some(number as u32)
}

/// A number that is 0 or not, as 0 or 1.
fn flag_at(numbers: &[u64], place: usize) -> u32
    ensures { result ≡ hosts.number_of (not (slice_index_or numbers.now place 0 == 0)) }
{
    if number_at(numbers, place, 0) == 0 {
        0
    } else {
        1
    }
}

/// Whether nothing is asked for that isn't known.
fn is_known(numbers: &[u64]) -> bool
    ensures { IsTrue result ↔ IsKnown numbers.now }
{
    for place in SETTINGS..numbers.len() {
        if numbers[place] != 0 {
            return false;
        }
    }
    true
}

/// The settings by a host's numbers: `space`, `quantum`, `steps`, `plain`, `output`, `entries`, and
/// both keys. One that isn't given is the usual one: 65,536 words, turns of 100 steps, 4,294,967,295
/// steps, and 0 for the others. The refusal is `OutOfRange`, where one of the first three has more
/// than 32 bits, or a later number, of which this version knows nothing, isn't 0.
pub fn settings_of(numbers: &[u64]) -> Result<Settings, Refusal>
    ensures settings { IfOk result (λ settings. settings ≡ settings_in numbers.now
        × AreSettings numbers.now) }
    ensures refused { IfErr result (λ refusal. refusal ≡ Refusal.OutOfRange
        × (¬ AreSettings numbers.now)) }
{
    let (Some(space), Some(quantum), Some(steps)) = (
        short_at(numbers, 0, 65_536),
        short_at(numbers, 1, 100),
        short_at(numbers, 2, u32::MAX),
    ) else {
        return Err(Refusal::OutOfRange);
    };
    if !is_known(numbers) {
        return Err(Refusal::OutOfRange);
    }
    Ok(Settings {
        space,
        quantum,
        steps,
        plain: flag_at(numbers, 3),
        output: number_at(numbers, 4, 0),
        entries: number_at(numbers, 5, 0),
        keys: Keys {
            first: number_at(numbers, 6, 0),
            second: number_at(numbers, 7, 0),
        },
    })
}

/// The numbers of the run that is asked for; the host's own thread is the one worker.
pub(crate) fn config_in(settings: &Settings) -> Config
    ensures { result ≡ hosts.config_in settings.now }
{
    Config {
        space: settings.space,
        workers: 1,
        quantum: settings.quantum,
        steps: settings.steps,
        output: most_output(settings),
        entries: bound_in(settings.entries, ANY_ENTRIES),
    }
}

/// A bound that a host gives, or the one that is none, where it gives 0.
fn bound_in(given: u64, none: u64) -> u64
    ensures { result ≡ hosts.bound_in given none }
{
    if given == 0 { none } else { given }
}

/// The most bytes that may be printed.
pub(crate) fn most_output(settings: &Settings) -> u64
    ensures { result ≡ hosts.most_output settings.now.output }
{
    bound_in(settings.output, ANY_OUTPUT)
}

/// The code of a run that ended so.
pub(crate) fn code_of(outcome: Outcome) -> u32
    ensures { result ≡ hosts.code_of outcome }
{
    match outcome {
        Outcome::Finished => 0,
        Outcome::Faulted => 1,
        Outcome::AllWaiting => 3,
        Outcome::StepsOut => 4,
        Outcome::Memory => 5,
    }
}

/// The code of a call that made no run.
pub fn code_of_refusal(refusal: Refusal) -> u32
    ensures { result ≡ hosts.code_of_refusal refusal }
{
    match refusal {
        Refusal::OutOfRange => 16,
        Refusal::NoRoom => 17,
        Refusal::OtherSchedule => 18,
        Refusal::BadEntry => 19,
        Refusal::Closed => 20,
        Refusal::Open => 21,
    }
}

/// The code of what was told of a run that stands.
pub(crate) fn code_told(told: Result<Outcome, Refusal>) -> u32
    ensures { result ≡ hosts.code_told told }
{
    match told {
        Ok(outcome) => code_of(outcome),
        Err(refusal) => code_of_refusal(refusal),
    }
}

/// An entry as a host has it.
pub(crate) fn handed_entry(entry: &Entry) -> HostEntry
    ensures { result ≡ hosts.handed_entry entry.now }
{
    let (shown, used, size) = match entry.shown {
        Some((used, size)) => (1, used, size),
        None => (0, 0, 0),
    };
    HostEntry {
        context: entry.context,
        steps: entry.steps,
        refused: u32::from(entry.refused),
        shown,
        used,
        size,
    }
}

/// An entry that a host gives.
pub(crate) fn given_entry(entry: &HostEntry) -> Entry
    ensures { result ≡ hosts.given_entry entry.now }
{
    Entry {
        context: entry.context,
        steps: entry.steps,
        refused: entry.refused != 0,
        shown: if entry.shown == 0 {
            None
        } else {
            Some((entry.used, entry.size))
        },
    }
}
