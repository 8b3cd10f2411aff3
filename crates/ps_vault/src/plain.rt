//! A run under a schedule of its own.

ghost use Rattle.std.specs.Prelude.{◌≡◌, ◌<◌, ◌≤◌, ℕ, ◌↔◌, true, false, if◌then◌else◌, Err, IfOk, OnErr, length, vec_capacity};
ghost use Rattle.ps_language.specs.Schedules.{count_of, moves};
ghost use Rattle.ps_language.specs.Worlds.{starting_world, world};
ghost use Rattle.ps_mem.specs.Plain.{plain_space};
ghost use Rattle.ps_vault.specs.Holds.{is_held_up};
ghost use Rattle.ps_vault.specs.Order.{HasTurn, InOrder, IsNoneAbove};
ghost use Rattle.ps_vault.specs.declared.reports.TheConstants.{FIRST_ENTRIES};
ghost use Rattle.ps_vault.specs.Reports.{are_ordinary, is_memory, IsOneStarved, IsRunOf, IsStarved, IsWithin, WithBudget, IsBounded, bounds_of};
ghost use Rattle.ps_vault.specs.Screens.{HasShown};
ghost use Rattle.ps_vault.specs.Stories.{AreWarranted, kept_of, world_at};

use crate::jobs::Job;
use crate::reports::{Config, Outcome, Report, Room, RunFault};
use crate::screens::{NoViewer, Screen, Viewer};
use crate::vaults::{Advanced, Vault};
use ps_core_laws::collected::Counts;
use ps_ctx::deeds::Deeds;
use ps_mem::Memory;
use ps_mem::marked::plain_with_marks;
use ps_step_interpreter::interprets::Interpret;
use std::alloc::Global;

/// Runs a program, over memory that is never collected, for at most so many steps: passes over the
/// contexts by rising identifier, with a turn of at most a quantum of steps for each that is ready.
/// The keys are for the names alone.
///
/// The numbers `space` and `workers` are not used, but each must be in its range: else the fault is
/// `Config`. The fault is `Memory` where the room that the run starts with can't be had; a growth
/// that is refused later ends the run, and the report has what was made so far. The outcome is
/// `Memory` only where the step of the context whose turn it is may want a growth, or the schedule
/// has no room for it.
pub fn run_plain<S: Interpret + Drop, D: Deeds + Drop>(
    alloc: Global,
    job: Job<'_, S, D>,
) -> Result<Report, RunFault>
    ensures config { (result ≡ Err RunFault.Config) ↔ ¬ IsWithin job.entry.config }
    ensures run { IfOk result (IsRunOf S.asks job.entry.program.now job.entry.config.steps) }
    ensures bounded { IfOk result (IsBounded (bounds_of job.entry.config)) }
    ensures order { IfOk result (λ report. InOrder job.entry.config.quantum
        (starting_world job.entry.program.now) (moves report.schedule.items)) }
    ensures starved { IfOk result (λ report. is_memory report.outcome ≡ true → (context : ℕ)
        × HasTurn job.entry.config.quantum (starting_world job.entry.program.now) context
        (moves report.schedule.items)
        × IsStarved S.asks true context false (world job.entry.program.now report.schedule.items)
        report.schedule) }
    ensures flips { IfOk result (λ report. report.flips ≡ 0) }
    ensures taken { IfOk result (λ report. report.taken ≡ 0) }
{
    let mut screen = Screen::new(NoViewer);
    run_plain_shown(alloc, job, &mut screen)
}

/// The budget of a run: so many steps, or, where its viewer failed, those that were made.
fn budget_of(run: Advanced, failed: bool, steps: u32) -> u32
    ensures { result ≡ (if failed then run.made else steps) }
{
    if failed {
        return run.made;
    }
    steps
}

/// As `run_plain`, but that who watches is shown what is printed behind each turn. Where that fails
/// the run is cut: it is one with the steps that were made as its budget.
pub fn run_plain_shown<S: Interpret + Drop, D: Deeds + Drop, V: Viewer + Drop>(
    alloc: Global,
    job: Job<'_, S, D>,
    screen: &mut Screen<V>,
) -> Result<Report, RunFault>
    requires nothing { screen.old.shown ≡ 0 }
    requires going { screen.old.failed ≡ false }
    ensures config { (result ≡ Err RunFault.Config) ↔ ¬ IsWithin job.entry.config }
    ensures run { IfOk result (λ report. WithBudget screen.new.failed job.entry.config.steps
        (λ budget. IsRunOf S.asks job.entry.program.now budget report)) }
    ensures shown { IfOk result
        (λ report. HasShown screen.old.seen screen.new report.printed.items) }
    ensures unshown { OnErr result (screen.new ≡ screen.old) }
    ensures still { screen.old.watching ≡ false → screen.new ≡ screen.old }
    ensures bounded { IfOk result (IsBounded (bounds_of job.entry.config)) }
    ensures order { IfOk result (λ report. InOrder job.entry.config.quantum
        (starting_world job.entry.program.now) (moves report.schedule.items)) }
    ensures starved { IfOk result (λ report. is_memory report.outcome ≡ true → (context : ℕ)
        × HasTurn job.entry.config.quantum (starting_world job.entry.program.now) context
        (moves report.schedule.items)
        × IsStarved S.asks true context false (world job.entry.program.now report.schedule.items)
        report.schedule) }
    ensures flips { IfOk result (λ report. report.flips ≡ 0) }
    ensures taken { IfOk result (λ report. report.taken ≡ 0) }
{
    let config = job.config;
    if !config.is_within() {
        return Err(RunFault::Config);
    }
    let memory = plain_with_marks(alloc);
    let Ok(mut vault) = Vault::new(alloc, memory, job.into_task(), Room::of_run(config.entries))
    else {
        return Err(RunFault::Memory);
    };
    let run = vault.run(config.steps, config.quantum, screen);
    let budget = budget_of(run, screen.has_failed(), config.steps);
    Ok(vault.into_run(run, budget))
}

impl<M: Memory + Drop, S: Interpret + Drop, D: Deeds + Drop> Vault<'_, M, S, D> {
    /// The report of a run that had no steps before, with a budget: where none was held up either
    /// all steps were made, or no context is ready.
    pub fn into_run(mut self, run: Advanced, steps: u32) -> Report
        requires counted { count_of self.schedule ≡ run.made }
        requires within { run.made ≤ steps }
        requires ordinary { are_ordinary (moves self.schedule) ≡ true }
        requires warranted { AreWarranted self }
        requires space { self.space ≡ plain_space.size }
        requires room { FIRST_ENTRIES ≤ self.capacity }
        requires calling { is_held_up run.told ≡ false → self.caller ≡ None }
        requires fewer { is_held_up run.told ≡ true → run.made < steps }
        requires starved { is_held_up run.told ≡ true
            → IsOneStarved S.asks true (world_at self) (kept_of self) }
        requires ended { is_held_up run.told ≡ false → run.made < steps
            → IsNoneAbove (world_at self) 0 }
        ensures run { IsRunOf S.asks self.entry.program steps result }
        ensures bounded { IsBounded self.entry.most result }
        ensures schedule { result.schedule ≡ kept_of self.entry }
        ensures memory { is_memory result.outcome ≡ is_held_up run.told }
        ensures flips { result.flips ≡ 0 }
        ensures taken { result.taken ≡ 0 }
    {
        let counts = Counts { flips: 0, taken: 0 };
        if run.is_held_up() {
            return self.into_report(steps, Outcome::Memory, counts);
        }
        let outcome = self.outcome(run.made == steps);
        self.into_report(steps, outcome, counts)
    }
}
