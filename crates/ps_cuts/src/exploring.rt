//! Every order of a program's steps with at most so many cuts.

ghost use Rattle.std.specs.Prelude.{◌≡◌, ◌+◌, ◌<◌, ◌≤◌, ℕ, length, All, IfOk};
ghost use Rattle.ps_cuts.specs.Cuts.{EveryEnding};
ghost use Rattle.ps_cuts.specs.Runs.{EndsAsTold, IsToldOf};

use crate::endings::Ending;
use crate::trees::Runs;
use ps_ctx::deeds::Deeds;
use ps_run_schedules::Schedule;
use ps_searches::{Bounds, Found, Watcher, search};
use ps_step_interpreter::interprets::Interpret;
use std::alloc::AllocError;

/// Makes a program's runs in each order with at most as many cuts as the price of the bounds, those
/// with fewer first, over memory that is never collected; a `vmstatus` is shown zeros. Tells each
/// ending once, with an order that ends so and as few cuts as any such.
///
/// All orders with fewer cuts than `below` were explored. It is less than one more than the price
/// only where as many runs were made as may be, and one more was to be made. There are no more endings
/// than runs, and there is one where a run may be made.
/// `AllocError`: a growth was refused, more was to be printed than may be, or a schedule to have more
/// entries.
pub fn explore_orders<S: Interpret + Clone + Drop, D: Deeds + Clone + Drop, W: Watcher + Drop>(
    runs: &Runs<'_, S, D>,
    bounds: Bounds,
    watcher: W,
) -> Result<Found<Ending, Schedule>, AllocError>
    ensures every { IfOk result (λ found. (limit : ℕ) → limit < found.below → EveryEnding EndsAsTold
        runs.now.task.program.now bounds.steps limit found.endings.entries) }
    ensures each { IfOk result (λ found. All (IsToldOf runs.now.task.program.now bounds.steps)
        found.endings.entries) }
    ensures below { IfOk result (λ found. found.below ≤ bounds.price + 1) }
    ensures met { IfOk result (λ found. found.below ≤ bounds.price → found.runs ≡ bounds.runs) }
    ensures runs { IfOk result (λ found. found.runs ≤ bounds.runs) }
    ensures fewer { IfOk result (λ found. length found.endings.entries ≤ found.runs) }
    ensures some { 1 ≤ bounds.runs → IfOk result (λ found. 1 ≤ length found.endings.entries) }
{
    search(runs.alloc, runs, bounds, watcher)
}
