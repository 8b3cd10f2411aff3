//! Many runs of a program, in orders that a caller chooses, and how they ended.

ghost use Rattle.std.specs.Prelude.{◌≡◌, ◌↔◌, ◌⊎◌, ◌++◌, ◌∷◌, [], Any, IsTrue, IfOk, OnOk};
ghost use Rattle.ps_vault.specs.Endings.{AreEndings, IsAlike};

use crate::jobs::Task;
use crate::orders::{TurnOrder, run_in_order};
use crate::reports::{Budget, Report};
use ps_ctx::deeds::Deeds;
use ps_ctx::makers::Makers;
use ps_step_interpreter::interprets::Interpret;
use std::alloc::{AllocError, Global};

/// Whether two runs printed the same and had the same outcome.
fn is_alike(a: &Report, b: &Report) -> bool
    ensures { IsTrue result ↔ IsAlike a.now b.now }
{
    a.outcome == b.outcome && a.printed.as_slice() == b.printed.as_slice()
}

/// Whether one of these runs ended like another.
fn has_alike(endings: &[Report], report: &Report) -> bool
    ensures { IsTrue result ↔ Any (IsAlike report.now) endings.now }
{
    for ending in endings {
        if is_alike(report, ending) {
            return true;
        }
    }
    false
}

/// Keeps a run behind others, where none of them ended like it. Fails where it finds no room.
fn keep(endings: &mut Vec<Report>, report: Report) -> Result<(), AllocError>
    ensures { OnOk result
        ((Any (IsAlike report) endings.old.items × (endings.new.items ≡ endings.old.items))
        ⊎ ((¬ Any (IsAlike report) endings.old.items)
        × (endings.new.items ≡ endings.old.items ++ report ∷ []))) }
{
    if has_alike(endings.as_slice(), &report) {
        return Ok(());
    }
    endings.push(report)?;
    Ok(())
}

/// Runs a program so many times, each time for at most so many steps, over memory that is never
/// collected, in orders that are chosen turn by turn.
///
/// Gives the first of those runs that ended alike, in the order in which they were made. Behind each
/// run the order is told how many were made.
/// `AllocError` where a run ended for want of memory, or the room of what is given can't be had.
pub fn explore<S: Interpret + Clone + Drop, D: Deeds + Clone + Drop, O: TurnOrder>(
    alloc: Global,
    task: &Task<'_, S, D>,
    budget: Budget,
    runs: u32,
    order: &mut O,
) -> Result<Vec<Report>, AllocError>
    ensures { IfOk result
        (λ endings. AreEndings S.asks task.now.program.now budget.steps
        (record { output = task.now.setup.output; entries = budget.entries }) runs endings.items) }
{
    let mut endings = Vec::new(alloc);
    let mut made = 0;
    while made < runs {
        let makers = Makers {
            steps: task.makers.steps.clone()?,
            operators: task.makers.operators.clone()?,
        };
        let again = Task {
            makers,
            program: task.program,
            setup: task.setup,
        };
        let report = run_in_order(alloc, again, budget, order)?;
        if report.outcome.is_memory() {
            return Err(AllocError);
        }
        keep(&mut endings, report)?;
        made += 1;
        order.run_ended(made, endings.len());
    }
    Ok(endings)
}
