//! What is known of a step before it is made, and the line that tells it.

ghost use Rattle.std.specs.Prelude.{◌≡◌, ◌<◌, ◌++◌, ℕ, List, IfOk, OnOk, option_map, if◌then◌else◌};
ghost use Rattle.ps_language.specs.Contexts.{context_at};
ghost use Rattle.ps_language.specs.World.{World};
ghost use Rattle.ps_mem.specs.Heap.{birth_at};
ghost use Rattle.ps_ctx_table.specs.Desks.{IsSteady, IsWorld};
ghost use Rattle.ps_ctx_table.specs.Worlds.{status_of};
ghost use Rattle.ps_ctx.specs.Calls.{over_of};
ghost use Rattle.ps_states.specs.Chosen.{chart_of, known_shown, next_shown};
ghost use Rattle.ps_states.specs.Steps as steps;

use crate::charts::Chart;
use crate::locks::locks_of;
use crate::next::{Next, bare, next_of};
use crate::operands::append_topmost;
use crate::remarks::remarks_of;
use crate::states::Crowd;
use ps_ctx::deeds::Deeds;
use ps_ctx_readers::contexts::course_at;
use ps_ctx_table::contexts::Contexts;
use ps_ctx_table::members::Course;
use ps_mem::Memory;
use ps_ops_control::frames::Cause;
use ps_ops_state::lent::Runtime;
use ps_views::{Coming, StepLine, append_step_line};
use std::alloc::{AllocError, Global};

/// A step of a run: its number, from 1, and the identifier of its context.
#[derive(Clone, Copy, Debug, PartialEq, Eq)]
pub struct StepBy {
    pub step: u64,
    pub context: u32,
}

/// What is known of a step before it is made.
#[derive(Drop)]
pub struct Known {
    pub(crate) by: StepBy,
    /// Whether it is made: whether its context is ready.
    pub(crate) is_made: bool,
    pub(crate) next: Next,
    /// How many contexts were made.
    pub(crate) contexts: u32,
    /// How many bytes were printed.
    pub(crate) printed: usize,
    /// The birth numbers of the locks that its context has.
    pub(crate) locks: Vec<u64>,
    /// Whether its context is unwinding for `stop`.
    pub(crate) stops: bool,
}

/// What the step of a context does. The memory is only read. Fails where a growth is refused.
pub(crate) fn step_next<M: Memory, D: Deeds>(
    chart: &Chart<'_>,
    crowd: &Crowd<'_, D>,
    identifier: u32,
    runtime: &mut Runtime<M>,
) -> Result<Next, AllocError>
    requires steady { IsSteady (over_of M.heap M.grants runtime.old crowd.now.contexts.now) }
    ensures heap { M.heap runtime.new.memory ≡ M.heap runtime.old.memory }
    ensures grants { M.grants runtime.new.memory ≡ M.grants runtime.old.memory }
    ensures shared { runtime.new.shared ≡ runtime.old.shared }
    ensures next { (w : World)
        → IsWorld (over_of M.heap M.grants runtime.old crowd.now.contexts.now) w
        → IfOk result (λ next. next_shown next ≡ steps.step_next (chart_of chart.now) w identifier) }
{
    let Some(member) = crowd.contexts.table.get(identifier) else {
        return Ok(bare(chart.alloc, Coming::Nothing));
    };
    let is_ready = crowd
        .operators
        .is_ready(identifier, crowd.contexts, runtime);
    if !is_ready {
        return Ok(bare(chart.alloc, Coming::Nothing));
    }
    next_of(chart, member, runtime)
}

/// The birth numbers of the locks that the context of an identifier has, where it is there. The
/// memory is only read. Fails where a growth is refused.
pub(crate) fn locks_at<M: Memory>(
    alloc: Global,
    contexts: &Contexts,
    identifier: u32,
    runtime: &mut Runtime<M>,
) -> Result<Vec<u64>, AllocError>
    requires steady { IsSteady (over_of M.heap M.grants runtime.old contexts.now) }
    ensures heap { M.heap runtime.new.memory ≡ M.heap runtime.old.memory }
    ensures grants { M.grants runtime.new.memory ≡ M.grants runtime.old.memory }
    ensures shared { runtime.new.shared ≡ runtime.old.shared }
    ensures locks { (w : World) → IsWorld (over_of M.heap M.grants runtime.old contexts.now) w
        → IfOk result (λ locks. locks.items ≡ steps.locks_at w identifier) }
{
    let Some(member) = contexts.table.get(identifier) else {
        return Ok(Vec::new(alloc));
    };
    locks_of(alloc, identifier, member, &mut runtime.memory)
}

/// Whether a context is unwinding for `stop`.
pub(crate) fn stops_at<M: Memory>(
    contexts: &Contexts,
    identifier: u32,
    runtime: &Runtime<M>,
) -> bool
    ensures { (w : World) → IsWorld (over_of M.heap M.grants runtime.now contexts.now) w
        → result ≡ steps.stops_at w identifier }
{
    match course_at(contexts, identifier, runtime) {
        Some(Course::Unwinding(Cause::Stop)) => true,
        _ => false,
    }
}

/// Whether the line of an error was printed.
pub(crate) fn tells_error<M: Memory>(contexts: &Contexts, runtime: &Runtime<M>) -> bool
    ensures { (w : World) → IsWorld (over_of M.heap M.grants runtime.now contexts.now) w
        → result ≡ steps.tells_error w }
{
    contexts.has_faulted
}

/// What is known of a step before it is made. The memory is only read.
///
/// `AllocError`: a growth was refused.
pub fn known_of<M: Memory, D: Deeds>(
    chart: &Chart<'_>,
    crowd: &Crowd<'_, D>,
    by: StepBy,
    runtime: &mut Runtime<M>,
) -> Result<Known, AllocError>
    requires steady { IsSteady (over_of M.heap M.grants runtime.old crowd.now.contexts.now) }
    ensures heap { M.heap runtime.new.memory ≡ M.heap runtime.old.memory }
    ensures grants { M.grants runtime.new.memory ≡ M.grants runtime.old.memory }
    ensures shared { runtime.new.shared ≡ runtime.old.shared }
    ensures known { (w : World)
        → IsWorld (over_of M.heap M.grants runtime.old crowd.now.contexts.now) w
        → IfOk result (λ known. known_shown known
        ≡ steps.known_of (chart_of chart.now) w by.step by.context) }
{
    let is_made = crowd
        .operators
        .is_ready(by.context, crowd.contexts, runtime);
    let next = step_next(chart, crowd, by.context, runtime)?;
    let locks = locks_at(chart.alloc, crowd.contexts, by.context, runtime)?;
    Ok(Known {
        by,
        is_made,
        next,
        contexts: crowd.contexts.table.made(),
        printed: runtime.shared.printed.as_slice().len(),
        locks,
        stops: stops_at(crowd.contexts, by.context, runtime),
    })
}

/// Appends the topmost operands of the context of an identifier, where it is there. The memory is
/// only read. Fails where a growth is refused.
fn append_operands_at<M: Memory>(
    alloc: Global,
    contexts: &Contexts,
    identifier: u32,
    runtime: &mut Runtime<M>,
    to: &mut Vec<u8>,
) -> Result<(), AllocError>
    requires steady { IsSteady (over_of M.heap M.grants runtime.old contexts.now) }
    ensures heap { M.heap runtime.new.memory ≡ M.heap runtime.old.memory }
    ensures grants { M.grants runtime.new.memory ≡ M.grants runtime.old.memory }
    ensures shared { runtime.new.shared ≡ runtime.old.shared }
    ensures operands { (w : World) → IsWorld (over_of M.heap M.grants runtime.old contexts.now) w
        → OnOk result (to.new.items ≡ to.old.items
        ++ steps.operands_text w.store (steps.operands_at w identifier)) }
{
    let Some(member) = contexts.table.get(identifier) else {
        return Ok(());
    };
    append_topmost(alloc, &member.context.operands, runtime, to)
}

/// Appends the line of a step, as `step_text` has it, from what was known before it and what there
/// is behind it: its number, its context, where that stands which it takes, what it does, the
/// topmost operands behind it, and what others see of it. The memory is only read.
///
/// `AllocError`: a growth was refused; a part of the line may have come.
#[tactic(auto, unfolding(crate::specs::Steps::step_text))]
pub fn append_step<M: Memory, D: Deeds>(
    alloc: Global,
    crowd: &Crowd<'_, D>,
    known: &Known,
    runtime: &mut Runtime<M>,
    to: &mut Vec<u8>,
) -> Result<(), AllocError>
    requires steady { IsSteady (over_of M.heap M.grants runtime.old crowd.now.contexts.now) }
    ensures heap { M.heap runtime.new.memory ≡ M.heap runtime.old.memory }
    ensures grants { M.grants runtime.new.memory ≡ M.grants runtime.old.memory }
    ensures shared { runtime.new.shared ≡ runtime.old.shared }
    ensures line { (w : World)
        → IsWorld (over_of M.heap M.grants runtime.old crowd.now.contexts.now) w
        → OnOk result (to.new.items ≡ to.old.items ++ steps.step_text (known_shown known.now) w) }
{
    let mut operands = Vec::new(alloc);
    append_operands_at(
        alloc,
        crowd.contexts,
        known.by.context,
        runtime,
        &mut operands,
    )?;
    let remarks = remarks_of(alloc, crowd, known, runtime)?;
    let line = StepLine {
        step: known.by.step,
        context: known.by.context,
        position: known.next.position,
        coming: known.next.coming,
    };
    append_step_line(
        &line,
        known.next.value.as_slice(),
        operands.as_slice(),
        remarks.as_slice(),
        to,
    )
}
