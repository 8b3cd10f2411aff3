//! The exports for hosts in other languages: each makes what its function of `ps_run_hosts` makes, by
//! the steps and the operators of the language, and hands it out.
//!
//! Why so:
//! - What crosses is flat, a room as a pointer and a number, so an export has more parameters than
//!   another function.
//! - An export has no leave of the kit's to wait or to start threads: it takes no lock, so it returns.
//! - What stands between calls is a box behind a pointer, in a struct that the host declares. The
//!   struct owns the box, by a formula beside its fields, so a call's contract speaks of the run that
//!   stood before and behind. An empty handle is a value like any other.
#![tactic(auto)]

ghost use Rattle.std.specs.Prelude.{◌≡◌, map, Result};
ghost use Rattle.ps_vault.specs.declared.reports.Report.{Report};
ghost use Rattle.ps_run_hosts.specs.declared.hosting.Refusal.{Refusal};
ghost use Rattle.ps_run_hosts.specs.Hosts.{given_entry, IsFollowed, IsGoneOn, IsHandedOut, IsMade, IsMadeOf};

mod definitions;
mod engines;
mod handles;
mod loose;
mod places;
mod slices;
mod telling;

pub use engines::Engine;
pub use handles::{Handle, Run};
use ps_ctx::makers::Makers;
use ps_ctx_operators::operators::WorldOperators;
use ps_ops::operators::Operators;
use ps_run_hosts::{HostEntry, Refusal, go_on_for, hand_out, replay_for, run_for, settings_of};
use ps_step::steps::Steps;
use ps_step_interpreter::interprets::Interpret;
use ps_vault::Report;
use std::alloc::Global;

/// The version of this interface: 10,000 for each first number, 100 for each second one, 1 for each
/// third one.
const VERSION: u32 = 400;

/// The version of this interface, which a host compares with that of its header.
#[unsafe(no_mangle)]
pub extern "C" fn tallowmarch_version() -> u32
    ensures { result ≡ 400 }
{
    VERSION
}

/// Who makes the steps and does the operators of the language.
fn makers(alloc: Global) -> Makers<Steps<Operators>, WorldOperators> {
    Makers {
        steps: Steps::<Operators>::new(alloc),
        operators: WorldOperators { alloc },
    }
}

/// Runs a program by a host's numbers (`run_for`).
fn run_by(alloc: Global, program: &[u8], numbers: &[u64]) -> Result<Report, Refusal>
    ensures { IsMadeOf numbers.now
        (IsMade ⟦<Steps<Operators> as Interpret>⟧.asks program.now) result }
{
    match settings_of(numbers) {
        Ok(by) => run_for(alloc, makers(alloc), program, &by),
        Err(refusal) => Err(refusal),
    }
}

/// Goes on from a schedule by a host's numbers (`go_on_for`).
fn go_on_by(
    alloc: Global,
    program: &[u8],
    numbers: &[u64],
    given: &[HostEntry],
) -> Result<Report, Refusal>
    ensures { IsMadeOf numbers.now (λ by. IsGoneOn ⟦<Steps<Operators> as Interpret>⟧.asks
        program.now by (map given_entry given.now)) result }
{
    match settings_of(numbers) {
        Ok(by) => go_on_for(alloc, makers(alloc), program, &by, given),
        Err(refusal) => Err(refusal),
    }
}

/// Follows a schedule by a host's numbers (`replay_for`).
fn replay_by(
    alloc: Global,
    program: &[u8],
    numbers: &[u64],
    given: &[HostEntry],
) -> Result<Report, Refusal>
    ensures { IsMadeOf numbers.now (λ by. IsFollowed ⟦<Steps<Operators> as Interpret>⟧.asks
        program.now by (map given_entry given.now)) result }
{
    match settings_of(numbers) {
        Ok(by) => replay_for(alloc, makers(alloc), program, &by, given),
        Err(refusal) => Err(refusal),
    }
}

/// Runs a program, and hands out what it printed, its schedule and its counts. The result says how
/// it ended: 0 where each context finished, 1 where an error was printed too, 3 where all contexts
/// wait, 4 where the steps are used up, 5 where memory was wanted, or more was to be printed than
/// may be, or the schedule was to have more entries than it may. With 16 a number is out of its
/// range, and with 17 there was no room to start with: then nothing is written.
///
/// Settings are numbers in the order of `settings_of`, as many of them as the host knows. Of the
/// bytes, the entries and the counts as many are written as there is room for, from the first on.
#[unsafe(no_mangle)]
pub extern "C" fn tallowmarch_run(
    alloc: Global,
    program: &[u8],
    settings: &[u64],
    printed: &mut [u8],
    schedule: &mut [HostEntry],
    counts: &mut [u64],
) -> u32
    ensures { (made : Result Report Refusal)
        × IsMadeOf settings.now
        (IsMade ⟦<Steps<Operators> as Interpret>⟧.asks program.now) made
        × IsHandedOut made
        (record { printed = printed.old; schedule = schedule.old; counts = counts.old })
        (record { printed = printed.new; schedule = schedule.new; counts = counts.new }) result }
{
    let made = run_by(alloc, program, settings);
    hand_out(&made, printed, schedule, counts)
}

/// Goes on from a schedule that a run of the program by these settings was handed, and hands out
/// the longer run: `steps` counts the steps behind the given ones. What was printed, and the
/// schedule, are whole, from the start. The results are those of `tallowmarch_run`; with 5 memory
/// may have been wanted before the end of the given steps, with 18 the schedule isn't that of such a
/// run, and with 19 one of its entries is none: then nothing is written.
#[unsafe(no_mangle)]
pub extern "C" fn tallowmarch_go_on(
    alloc: Global,
    program: &[u8],
    settings: &[u64],
    given: &[HostEntry],
    printed: &mut [u8],
    schedule: &mut [HostEntry],
    counts: &mut [u64],
) -> u32
    ensures { (made : Result Report Refusal)
        × IsMadeOf settings.now (λ by. IsGoneOn ⟦<Steps<Operators> as Interpret>⟧.asks
        program.now by (map given_entry given.now)) made
        × IsHandedOut made
        (record { printed = printed.old; schedule = schedule.old; counts = counts.old })
        (record { printed = printed.new; schedule = schedule.new; counts = counts.new }) result }
{
    let made = go_on_by(alloc, program, settings, given);
    hand_out(&made, printed, schedule, counts)
}

/// Follows a schedule over memory that is never collected, and hands out what was printed, the
/// steps that were made and their counts. Of the settings the keys and the bound on the output
/// count. The results are those of `tallowmarch_run`, without 16: with 5 the schedule was followed
/// as far as memory and that bound went. With 19 one of its entries is none: then nothing is
/// written.
#[unsafe(no_mangle)]
pub extern "C" fn tallowmarch_replay(
    alloc: Global,
    program: &[u8],
    settings: &[u64],
    given: &[HostEntry],
    printed: &mut [u8],
    schedule: &mut [HostEntry],
    counts: &mut [u64],
) -> u32
    ensures { (made : Result Report Refusal)
        × IsMadeOf settings.now (λ by. IsFollowed ⟦<Steps<Operators> as Interpret>⟧.asks
        program.now by (map given_entry given.now)) made
        × IsHandedOut made
        (record { printed = printed.old; schedule = schedule.old; counts = counts.old })
        (record { printed = printed.new; schedule = schedule.new; counts = counts.new }) result }
{
    let made = replay_by(alloc, program, settings, given);
    hand_out(&made, printed, schedule, counts)
}
