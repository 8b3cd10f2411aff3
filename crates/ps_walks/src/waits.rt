//! What the contexts of a run wait for behind a step.

ghost use Rattle.std.specs.Prelude.{◌≡◌, IfOk};
ghost use Rattle.ps_states.specs.Waits.{waits_text};
ghost use Rattle.ps_walks.specs.Walks.{world_behind};

use crate::walks::{Rerun, Walk, WalkFault, begin_walk};
use ps_ctx::deeds::Deeds;
use ps_run_schedules::Entries;
use ps_states::{Crowd, append_waits};
use ps_step_interpreter::interprets::Interpret;
use std::alloc::Global;

/// The text of which contexts of a run may go on behind so many of the steps of a schedule, and what
/// the others wait for. The faults are those of `places_of`.
pub fn waits_of<S: Interpret + Drop, D: Deeds + Drop>(
    alloc: Global,
    run: Rerun<'_, S, D>,
    schedule: Entries<'_>,
    step: u64,
) -> Result<Vec<u8>, WalkFault>
    ensures { IfOk result (λ text. text.items
        ≡ waits_text (world_behind run.entry.program.now schedule.entry step)) }
{
    let mut walk = begin_walk(alloc, run)?;
    walk.follow_front(alloc, schedule, step)?;
    let Walk {
        makers,
        world,
        mut runtime,
        ..
    } = walk;
    let crowd = Crowd {
        contexts: &world.contexts,
        operators: &makers.operators,
    };
    let mut text = Vec::new(alloc);
    append_waits(&crowd, &mut runtime, &mut text)?;
    Ok(text)
}
