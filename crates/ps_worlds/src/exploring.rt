//! Every order of a program's steps.

ghost use Rattle.std.specs.Prelude.{◌≡◌, ◌≤◌, All, IfOk, length};
ghost use Rattle.ps_worlds.specs.Worlds.{AreCounted, EveryWayEnds, IsToldOf};

use crate::graphs::Worlds;
use crate::images::Image;
use ps_ctx::deeds::Deeds;
use ps_cuts::{Ending, Runs};
use ps_run_schedules::Schedule;
use ps_searches::{Covered, Extent, Watcher, cover};
use ps_step_interpreter::interprets::Interpret;
use std::alloc::AllocError;

/// Follows every order of a program's steps, over memory that is never collected; a `vmstatus` is
/// shown zeros. Tells each ending once, with an order that ends so and as few steps as any such.
///
/// At most so many worlds are kept. Where the extent is `All`, there is no other ending, of no
/// order, however long; where it is `Most`, so many were kept, and one more was to be. There are no
/// more endings than worlds. A watcher is told how far the search is.
/// `AllocError`: a growth was refused, more was to be printed than may be, or a schedule to have more
/// entries.
pub fn explore_worlds<S: Interpret + Clone + Drop, D: Deeds + Clone + Drop, W: Watcher>(
    runs: &Runs<'_, S, D>,
    most: u32,
    watcher: &mut W,
) -> Result<Covered<Ending, Schedule>, AllocError>
    ensures every { IfOk result (λ covered. covered.extent ≡ Extent.All
        → EveryWayEnds runs.now.task.program.now covered.endings.entries) }
    ensures each { IfOk result (λ covered. All (IsToldOf runs.now.task.program.now)
        covered.endings.entries) }
    ensures worlds { IfOk result (λ covered. AreCounted ⟦<Image as PartialEq>⟧.eq
        runs.now.task.program.now covered.worlds covered.steps
        (covered.extent ≡ Extent.All)) }
    ensures within { IfOk result (λ covered. covered.worlds ≤ most) }
    ensures fewer { IfOk result (λ covered. length covered.endings.entries ≤ covered.worlds) }
    ensures met { IfOk result (λ covered. covered.extent ≡ Extent.Most
        → covered.worlds ≡ most) }
{
    let worlds = Worlds::of(runs)?;
    cover(runs.alloc, &worlds, most, watcher)
}
