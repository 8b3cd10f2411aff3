//! What lanes are told behind a step.

ghost use Rattle.std.specs.Prelude.{◌≡◌, ◌<◌, ◌≤◌, ◌++◌, ◌∷◌, [], ◌⊎◌, ℕ, List, Some, suc, length, max, slice_get, OnOk};
ghost use Rattle.ps_language.specs.World.{World as TheWorld};
ghost use Rattle.ps_ctx.specs.Calls.{over_of};
ghost use Rattle.ps_ctx_table.specs.Desks.{IsSteady, IsWorld};
ghost use Rattle.ps_states.specs.Moments.{moment_of as moment_behind};
ghost use Rattle.ps_timelines.specs.Moments.{Label};
ghost use Rattle.ps_timelines.specs.declared.lanes.Lane.{Lane as LaneOf};
ghost use Rattle.ps_timelines.specs.declared.moments.Moment.{Moment as MomentOf};
ghost use Rattle.ps_walks.specs.Drawings.{IsFresh};
ghost use Rattle.ps_walks.specs.Timelines.{AreLanes, IsLane, labels_by};

use ps_ctx::deeds::Deeds;
use ps_mem::Memory;
use ps_ops_state::lent::Runtime;
use ps_states::{Crowd, StepEnd, error_text, moment_of};
use ps_timelines::Lane;
use std::alloc::{AllocError, Global};

/// A step that was made: how many come before it, and how it ended.
#[derive(Clone, Copy)]
pub(crate) struct Beat {
    /// Where the texts of errors are made.
    pub(crate) alloc: Global,
    pub(crate) step: u32,
    pub(crate) end: StepEnd,
}

/// Pushes the lanes of contexts that did nothing yet, up to so many in all.
pub(crate) fn grow_lanes(alloc: Global, made: u32, lanes: &mut Vec<Lane>) -> Result<(), AllocError>
    ensures count { OnOk result (length lanes.new.items ≡ max (length lanes.old.items) made) }
    ensures each { OnOk result ((place : ℕ) (lane : LaneOf)
        → slice_get lanes.new.items place ≡ Some lane
        → (slice_get lanes.old.items place ≡ Some lane)
        ⊎ ((length lanes.old.items ≤ place) × IsFresh (suc place) lane)) }
{
    'grow: while lanes.len() < made as usize {
        let context = lanes.len() as u32 + 1;
        lanes.push(Lane::new(alloc, context))?;
    }
    Ok(())
}

/// Notes what a context does in a step in its lane. The memory is only read.
fn note_lane<M: Memory, D: Deeds>(
    beat: Beat,
    crowd: &Crowd<'_, D>,
    runtime: &mut Runtime<M>,
    lane: &mut Lane,
) -> Result<(), AllocError>
    requires steady { IsSteady (over_of M.heap M.grants runtime.old crowd.now.contexts.now) }
    requires step { beat.step < u32.MAX }
    ensures heap { M.heap runtime.new.memory ≡ M.heap runtime.old.memory }
    ensures grants { M.grants runtime.new.memory ≡ M.grants runtime.old.memory }
    ensures shared { runtime.new.shared ≡ runtime.old.shared }
    ensures noted { (w : TheWorld) (context : ℕ) (moments : List MomentOf) (labels : List Label)
        → IsWorld (over_of M.heap M.grants runtime.old crowd.now.contexts.now) w
        → length moments ≡ beat.step → IsLane context moments labels lane.old
        → OnOk result (let moment = moment_behind beat.end w context in
        IsLane context (moments ++ moment ∷ [])
        (labels ++ labels_by moment beat.step w context) lane.new) }
{
    let context = lane.context;
    let moment = moment_of(beat.alloc, crowd, beat.end, context, runtime)?;
    lane.intervals.note(beat.step, moment)?;
    if !moment.fails {
        return Ok(());
    }
    let text = error_text(beat.alloc, crowd.contexts, context, runtime)?;
    lane.tell_error(beat.step, text)
}

/// Notes what all contexts do in a step. The memory is only read.
pub(crate) fn note_lanes<M: Memory, D: Deeds>(
    beat: Beat,
    crowd: &Crowd<'_, D>,
    runtime: &mut Runtime<M>,
    lanes: &mut Vec<Lane>,
) -> Result<(), AllocError>
    requires steady { IsSteady (over_of M.heap M.grants runtime.old crowd.now.contexts.now) }
    requires step { beat.step < u32.MAX }
    ensures heap { M.heap runtime.new.memory ≡ M.heap runtime.old.memory }
    ensures grants { M.grants runtime.new.memory ≡ M.grants runtime.old.memory }
    ensures shared { runtime.new.shared ≡ runtime.old.shared }
    ensures count { OnOk result (length lanes.new.items ≡ length lanes.old.items) }
    ensures noted { (w : TheWorld) (moments : ℕ → List MomentOf) (labels : ℕ → List Label)
        → IsWorld (over_of M.heap M.grants runtime.old crowd.now.contexts.now) w
        → ((context : ℕ) → length (moments context) ≡ beat.step)
        → AreLanes moments labels lanes.old.items → OnOk result (AreLanes
        (λ context. moments context ++ moment_behind beat.end w context ∷ [])
        (λ context. labels context
        ++ labels_by (moment_behind beat.end w context) beat.step w context) lanes.new.items) }
{
    for place in 0..lanes.len() {
        note_lane(beat, crowd, runtime, &mut lanes[place])?;
    }
    Ok(())
}
