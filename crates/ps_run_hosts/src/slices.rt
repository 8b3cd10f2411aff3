//! A run that stands between its host's calls, or none.

ghost use Rattle.std.specs.Prelude.{◌≡◌, drop};
ghost use Rattle.ps_run_hosts.specs.Handles.{HasStarted, IsAdvanced, IsAdvancedIn, IsCountedIn, IsPrintedIn, IsScheduledIn};

use crate::handing::{hand, hand_entries};
use crate::hosting::Refusal;
use crate::keys::keys_of;
use crate::numbers::{HostEntry, Settings, code_of_refusal, code_told, config_in};
use ps_ctx::deeds::Deeds;
use ps_ctx::makers::Makers;
use ps_run_schedules::Entries;
use ps_run_workers::{SpaceRun, stand};
use ps_step_interpreter::interprets::Interpret;
use ps_vault::{Job, Outcome};
use std::alloc::Global;

/// What a call tells that did what was asked for and has nothing else to tell.
const DONE: u32 = 0;

/// A run of a program by these settings that stands, before its first step; it has a copy of the
/// program. The refusal is `OutOfRange` also where memory that grows is asked for, since a run that
/// stands is in a space that is collected; else it is `NoRoom`.
pub fn start_for<S: Interpret + Drop, D: Deeds + Drop>(
    alloc: Global,
    makers: Makers<S, D>,
    program: &[u8],
    settings: &Settings,
) -> Result<SpaceRun<S, D>, Refusal>
    ensures { HasStarted program.now settings.now result }
{
    if settings.plain != 0 {
        return Err(Refusal::OutOfRange);
    }
    let config = config_in(settings);
    if !config.is_within() {
        return Err(Refusal::OutOfRange);
    }
    let Ok(keys) = keys_of(&settings.keys) else {
        return Err(Refusal::NoRoom);
    };
    let job = Job {
        makers,
        program,
        config,
        keys,
    };
    match stand(alloc, job) {
        Ok(run) => Ok(run),
        Err(_) => Err(Refusal::NoRoom),
    }
}

/// Makes a slice of a run, of at most so many steps. The refusal is `OutOfRange` where no step is asked
/// for, and nothing has changed; and `NoRoom` where more turns were made than there can be steps.
fn slice_of<S: Interpret + Drop, D: Deeds + Drop>(
    run: SpaceRun<S, D>,
    steps: u32,
) -> (SpaceRun<S, D>, Result<Outcome, Refusal>)
    ensures { IsAdvanced S.asks steps run result.0 result.1 }
{
    if steps == 0 {
        return (run, Err(Refusal::OutOfRange));
    }
    let (run, outcome) = run.advance(steps);
    match outcome {
        Some(outcome) => (run, Ok(outcome)),
        None => (run, Err(Refusal::NoRoom)),
    }
}

/// Makes a slice of the run that stands, of at most so many steps, and tells how it ended, as the code
/// of a run that ends here. 16: no step is asked for, and 20: no run stands; nothing has changed.
/// 17: more turns were made than there can be steps.
pub fn advance_for<S: Interpret + Drop, D: Deeds + Drop>(
    place: &mut Option<SpaceRun<S, D>>,
    steps: u32,
) -> u32
    ensures { IsAdvancedIn S.asks steps place.old place.new result }
{
    let Some(run) = place.take() else {
        return code_of_refusal(Refusal::Closed);
    };
    let (run, told) = slice_of(run, steps);
    *place = Some(run);
    code_told(told)
}

/// Writes what the run printed from a place on, as much as there is room for, and tells how many
/// bytes it printed in all: 0 where no run stands.
pub fn hand_printed<S: Interpret + Drop, D: Deeds + Drop>(
    place: &Option<SpaceRun<S, D>>,
    from: usize,
    room: &mut [u8],
) -> usize
    ensures { IsPrintedIn place.now from room.old room.new result }
{
    let Some(run) = place else {
        return 0;
    };
    let printed = run.printed();
    if from < printed.len() {
        hand(&printed[from..], room);
    }
    printed.len()
}

/// The entries behind so many.
fn entries_from(entries: Entries<'_>, from: usize) -> Entries<'_>
    ensures { result ≡ drop from entries.entry }
{
    let mut left = entries;
    for place in 0..from {
        let Some(_passed) = left.next() else {
            return left;
        };
    }
    left
}

/// Writes the entries of the run's schedule from a place on, as many as there is room for, and tells
/// how many there are in all: 0 where no run stands. It passes over those before, one by one. Steps
/// of the next slice may join the last entry.
pub fn hand_schedule<S: Interpret + Drop, D: Deeds + Drop>(
    place: &Option<SpaceRun<S, D>>,
    from: usize,
    room: &mut [HostEntry],
) -> usize
    ensures { IsScheduledIn place.now from room.old room.new result }
{
    let Some(run) = place else {
        return 0;
    };
    let schedule = run.schedule();
    hand_entries(entries_from(schedule.entries(), from), room);
    schedule.len()
}

/// Tells how much the run came to so far, as many numbers as there is room for, and 0; 20 where no
/// run stands: then nothing is written.
pub fn hand_counts<S: Interpret + Drop, D: Deeds + Drop>(
    place: &Option<SpaceRun<S, D>>,
    counts: &mut [u64],
) -> u32
    ensures { IsCountedIn place.now counts.old counts.new result }
{
    let Some(run) = place else {
        return code_of_refusal(Refusal::Closed);
    };
    let collected = run.collected();
    let found = [
        run.printed().len() as u64,
        run.schedule().len() as u64,
        u64::from(run.made()),
        u64::from(collected.flips),
        collected.taken,
    ];
    hand(&found, counts);
    DONE
}
