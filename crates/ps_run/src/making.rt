//! A run as the words of a command line ask for it.

ghost use Rattle.std.specs.Prelude.{◌≡◌, ◌≢◌, ◌≤◌, length, ℕ, true, false, Err, option_map, IfOk, OnErr};
ghost use Rattle.ps_language.specs.Schedules.{moves};
ghost use Rattle.ps_language.specs.Worlds.{starting_world};
ghost use Rattle.ps_vault.specs.Order.{InOrder};
ghost use Rattle.ps_vault.specs.Reports.{bounds_of, IsBounded, IsReplayOf, IsRunOf, IsUncollected, IsWithin, UnderPart, WithBudget};
ghost use Rattle.ps_vault.specs.Screens.{HasShown, HasShownSome};
ghost use Rattle.ps_run.specs.Driving.{IsBoundedAs, IsMade, asked_of, config_in};

use crate::systems::System;
use ps_ctx::deeds::Deeds;
use ps_run_options::Options;
use ps_run_workers::run_shown;
use ps_step_interpreter::interprets::Interpret;
use ps_vault::{
    ANY_ENTRIES, ANY_OUTPUT, Config, Entry, Job, RunFault, Screen, Viewer, Watched, replay_shown,
    run_plain_shown,
};
use std::alloc::Global;
use std::sync::Wait;
use std::thread::Threads;

/// A run of the program: under the schedule that is given, or with the budget that is asked for,
/// over plain memory or in a space that is collected meanwhile. Who watches is shown what it
/// prints.
pub(crate) fn make<
    S: Interpret + Drop + Send,
    D: Deeds + Drop + Send,
    V: Viewer + Drop + Send,
    R: Threads + Wait + Sync,
>(
    system: System<'_, R>,
    job: Job<'_, S, D>,
    options: &Options<'_>,
    given: Option<Vec<Entry>>,
    screen: Screen<V>,
) -> Watched<V>
    requires numbers { job.config ≡ config_in options.now }
    requires nothing { screen.shown ≡ 0 }
    requires going { screen.failed ≡ false }
    ensures config { result.report ≡ Err RunFault.Config → ¬ IsWithin (config_in options.now) }
    ensures made { IfOk result.report (IsMade S.asks job.entry.program.now result.screen.failed
        (option_map (λ schedule. schedule.items) given) (asked_of options.now)) }
    ensures bounded { IfOk result.report (IsBoundedAs
        (option_map (λ schedule. schedule.items) given) (asked_of options.now)) }
    ensures shown { IfOk result.report
        (λ report. HasShown screen.seen result.screen report.printed.items) }
    ensures unshown { OnErr result.report
        (HasShownSome job.entry.program.now screen.seen result.screen) }
    ensures unstarted { result.report ≡ Err RunFault.Config → result.screen ≡ screen }
    ensures still { screen.watching ≡ false → result.screen ≡ screen }
{
    let System { rt, alloc, .. } = system;
    match given {
        Some(schedule) => follow(alloc, job, schedule.as_slice(), screen),
        None if options.plain => run_plainly(alloc, job, screen),
        None => run_shown(rt, alloc, job, screen),
    }
}

/// A run under a given schedule.
fn follow<S: Interpret + Drop, D: Deeds + Drop, V: Viewer + Drop>(
    alloc: Global,
    job: Job<'_, S, D>,
    schedule: &[Entry],
    mut screen: Screen<V>,
) -> Watched<V>
    requires nothing { screen.shown ≡ 0 }
    requires going { screen.failed ≡ false }
    ensures config { result.report ≢ Err RunFault.Config }
    ensures run { IfOk result.report (λ report. UnderPart result.screen.failed schedule.now
        (λ part. IsReplayOf S.asks job.entry.program.now part report)) }
    ensures bounded { IfOk result.report
        (λ report. length report.printed.items ≤ job.entry.config.output) }
    ensures shown { IfOk result.report
        (λ report. HasShown screen.seen result.screen report.printed.items) }
    ensures unshown { OnErr result.report (result.screen ≡ screen) }
    ensures still { screen.watching ≡ false → result.screen ≡ screen }
{
    let report = replay_shown(alloc, job.into_task(), schedule, &mut screen);
    Watched { report, screen }
}

/// A run over memory that is never collected, by passes over the contexts.
fn run_plainly<S: Interpret + Drop, D: Deeds + Drop, V: Viewer + Drop>(
    alloc: Global,
    job: Job<'_, S, D>,
    mut screen: Screen<V>,
) -> Watched<V>
    requires nothing { screen.shown ≡ 0 }
    requires going { screen.failed ≡ false }
    ensures config { result.report ≡ Err RunFault.Config → ¬ IsWithin job.entry.config }
    ensures run { IfOk result.report (λ report. WithBudget result.screen.failed
        job.entry.config.steps (λ budget. IsRunOf S.asks job.entry.program.now budget report)) }
    ensures order { IfOk result.report (λ report. InOrder job.entry.config.quantum
        (starting_world job.entry.program.now) (moves report.schedule.items)) }
    ensures uncollected { IfOk result.report IsUncollected }
    ensures bounded { IfOk result.report (IsBounded (bounds_of job.entry.config)) }
    ensures shown { IfOk result.report
        (λ report. HasShown screen.seen result.screen report.printed.items) }
    ensures unshown { OnErr result.report (result.screen ≡ screen) }
    ensures still { screen.watching ≡ false → result.screen ≡ screen }
{
    let report = run_plain_shown(alloc, job, &mut screen);
    Watched { report, screen }
}

/// The numbers of the run.
pub(crate) fn config_of(options: &Options<'_>) -> Config
    ensures { result ≡ config_in options.now }
{
    Config {
        space: options.space,
        workers: options.workers,
        quantum: options.quantum,
        steps: options.steps,
        output: match options.output {
            Some(most) => u64::from(most),
            None => ANY_OUTPUT,
        },
        entries: match options.entries {
            Some(most) => u64::from(most),
            None => ANY_ENTRIES,
        },
    }
}
