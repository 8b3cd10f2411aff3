//! Runs that a host asks for.

ghost use Rattle.std.specs.Prelude.{◌≡◌, ◌↔◌, map, IfOk, IsTrue};
ghost use Rattle.ps_vault.specs.Reports.{bounds_of, IsBounded, IsRunIn};
ghost use Rattle.ps_run_workers.specs.Slices as slices;
ghost use Rattle.ps_run_hosts.specs.Hosts as hosts;
ghost use Rattle.ps_run_hosts.specs.Hosts.{GoesOnFrom, IsFollowed, IsGoneOn, IsMade, space_in};

use crate::handing::given_entries;
use crate::keys::keys_of;
use crate::numbers::{HostEntry, Settings, config_in, most_output};
use ps_ctx::deeds::Deeds;
use ps_ctx::makers::Makers;
use ps_language::schedules::Entry;
use ps_run_schedules::{Entries, begins, steps_of};
use ps_run_workers::run_alone;
use ps_step_interpreter::interprets::Interpret;
use ps_vault::{Job, Report, RunFault, Setup, Task, replay, run_plain_behind};
use std::alloc::Global;

/// Why a call made no run.
#[derive(Clone, Copy, Debug, PartialEq, Eq)]
pub enum Refusal {
    /// A number of the settings is out of its range.
    OutOfRange,
    /// The room that a run starts with can't be had.
    NoRoom,
    /// The schedule to go on from isn't that of such a run.
    OtherSchedule,
    /// An entry of the given schedule is none.
    BadEntry,
    /// No run stands where one is to go on, or to be looked at.
    Closed,
    /// A run stands where one is to begin.
    Open,
}

/// Runs a program by these settings.
pub fn run_for<S: Interpret + Drop, D: Deeds + Drop>(
    alloc: Global,
    makers: Makers<S, D>,
    program: &[u8],
    settings: &Settings,
) -> Result<Report, Refusal>
    ensures { IsMade S.asks program.now settings.now result }
{
    let config = config_in(settings);
    if !config.is_within() {
        return Err(Refusal::OutOfRange);
    }
    match make(alloc, makers, program, settings, &[]) {
        Ok(report) => Ok(report),
        Err(_) => Err(Refusal::NoRoom),
    }
}

/// The budget of a run that goes on from a schedule: its steps and so many more, up to as many as a
/// run may have.
fn budget_behind(given: &[Entry], settings: &Settings) -> u32
    ensures { result ≡ slices.budget_behind given.now settings.now.steps }
{
    let steps = steps_of(Entries::of(given)).saturating_add(u64::from(settings.steps));
    steps.min(u64::from(u32::MAX)) as u32
}

/// Whether a run goes on from a schedule: it begins with it, or memory was wanted on the way.
fn goes_on_from(given: &[Entry], report: &Report) -> bool
    ensures { IsTrue result ↔ GoesOnFrom given.now report.now }
{
    begins(Entries::of(given), report.schedule.entries())
        || report.outcome.is_memory() && begins(report.schedule.entries(), Entries::of(given))
}

/// Goes on from a schedule: a run of the program by these settings, of the steps that were given
/// and so many more, which begins with them. So what a run that was cut printed is the beginning of
/// what this one prints. Where memory was wanted on the way the report has the given steps that
/// were made.
///
/// The refusal is `BadEntry` where an entry of the schedule is none, and `OtherSchedule` where the
/// schedule isn't that of a run by these settings, or is that of one that was over before.
pub fn go_on_for<S: Interpret + Drop, D: Deeds + Drop>(
    alloc: Global,
    makers: Makers<S, D>,
    program: &[u8],
    settings: &Settings,
    given: &[HostEntry],
) -> Result<Report, Refusal>
    ensures { IsGoneOn S.asks program.now settings.now (map hosts.given_entry given.now) result }
{
    if !config_in(settings).is_within() {
        return Err(Refusal::OutOfRange);
    }
    let entries = given_entries(alloc, given)?;
    let further = Settings {
        steps: budget_behind(entries.as_slice(), settings),
        ..*settings
    };
    let Ok(report) = make(alloc, makers, program, &further, entries.as_slice()) else {
        return Err(Refusal::NoRoom);
    };
    if !goes_on_from(entries.as_slice(), &report) {
        return Err(Refusal::OtherSchedule);
    }
    Ok(report)
}

/// Follows a schedule, over memory that is never collected. Of the settings the keys and the bound
/// on the output count. Where a growth was refused, or more was to be printed than may be, the
/// report's outcome is `Memory`, and it has the steps that were made; else it has the given
/// schedule. The refusal is `BadEntry` where an entry of the schedule is none, and else for want of
/// room.
pub fn replay_for<S: Interpret + Drop, D: Deeds + Drop>(
    alloc: Global,
    makers: Makers<S, D>,
    program: &[u8],
    settings: &Settings,
    given: &[HostEntry],
) -> Result<Report, Refusal>
    ensures { IsFollowed S.asks program.now settings.now (map hosts.given_entry given.now) result }
{
    let entries = given_entries(alloc, given)?;
    let Ok(keys) = keys_of(&settings.keys) else {
        return Err(Refusal::NoRoom);
    };
    let setup = Setup {
        keys,
        output: most_output(settings),
    };
    let task = Task {
        makers,
        program,
        setup,
    };
    match replay(alloc, task, entries.as_slice()) {
        Ok(report) => Ok(report),
        Err(_) => Err(Refusal::NoRoom),
    }
}

/// The report of a run by these settings, in a space that is collected or over memory that grows.
/// Its first turns are of the contexts that a schedule has, as long as each is ready.
fn make<S: Interpret + Drop, D: Deeds + Drop>(
    alloc: Global,
    makers: Makers<S, D>,
    program: &[u8],
    settings: &Settings,
    given: &[Entry],
) -> Result<Report, RunFault>
    ensures run { IfOk result
        (IsRunIn S.asks (space_in settings.now) program.now settings.now.steps) }
    ensures bounded { IfOk result (IsBounded (bounds_of (hosts.config_in settings.now))) }
{
    let Ok(keys) = keys_of(&settings.keys) else {
        return Err(RunFault::Memory);
    };
    let job = Job {
        makers,
        program,
        config: config_in(settings),
        keys,
    };
    if settings.plain != 0 {
        return run_plain_behind(alloc, job, given);
    }
    run_alone(alloc, job, given)
}
