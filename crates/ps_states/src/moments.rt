//! What a context does in a step, as its lane in a picture shows it.

ghost use Rattle.std.specs.Prelude.{◌≡◌, ◌++◌, ◌==◌, ◌&&◌, [], not, length, IfOk};
ghost use Rattle.ps_language.specs.Contexts.{context_at};
ghost use Rattle.ps_language.specs.World.{World};
ghost use Rattle.ps_ctx_table.specs.Desks.{IsSteady, IsWorld};
ghost use Rattle.ps_ctx.specs.Calls.{over_of};
ghost use Rattle.ps_states.specs.Moments as moments;
ghost use Rattle.ps_states.specs.Steps as steps;

use crate::remarks::last_error_text;
use crate::states::Crowd;
use crate::statuses::status_line;
use crate::steps::{locks_at, stops_at, tells_error};
use ps_ctx::deeds::Deeds;
use ps_ctx_readers::contexts::has_new_error_at;
use ps_ctx_table::contexts::Contexts;
use ps_mem::Memory;
use ps_ops_state::lent::Runtime;
use ps_timelines::{Moment, State};
use ps_views::StatusLine;
use std::alloc::{AllocError, Global};

/// What is known before a step, to tell what it comes to.
#[derive(Clone, Copy, Debug, PartialEq, Eq)]
pub struct Outset {
    /// Whose step it is.
    pub context: u32,
    /// How many contexts were made.
    pub contexts: u32,
    /// How many bytes were printed.
    pub printed: usize,
    /// Whether its context is unwinding for `stop`.
    pub stops: bool,
}

/// What a step came to.
#[derive(Clone, Copy, Debug, PartialEq, Eq)]
pub struct StepEnd {
    /// Whose step it is.
    pub context: u32,
    /// Whether it was made.
    pub is_made: bool,
    /// Whether more is printed.
    pub prints: bool,
    /// Whether its context began to unwind for an error, or ended for one.
    pub fails: bool,
}

/// What is known before a step of a context.
pub fn outset_of<M: Memory>(contexts: &Contexts, identifier: u32, runtime: &Runtime<M>) -> Outset
    ensures { (w : World) → IsWorld (over_of M.heap M.grants runtime.now contexts.now) w
        → result ≡ moments.outset_of w identifier }
{
    Outset {
        context: identifier,
        contexts: contexts.table.made(),
        printed: runtime.shared.printed.as_slice().len(),
        stops: stops_at(contexts, identifier, runtime),
    }
}

/// Whether the context of a step began to unwind for an error, or ended for one. The memory is only
/// read.
fn begins_error<M: Memory>(contexts: &Contexts, outset: Outset, runtime: &mut Runtime<M>) -> bool
    requires steady { IsSteady (over_of M.heap M.grants runtime.old contexts.now) }
    ensures heap { M.heap runtime.new.memory ≡ M.heap runtime.old.memory }
    ensures grants { M.grants runtime.new.memory ≡ M.grants runtime.old.memory }
    ensures shared { runtime.new.shared ≡ runtime.old.shared }
    ensures error { (w : World) → IsWorld (over_of M.heap M.grants runtime.old contexts.now) w
        → result ≡ moments.begins_error outset.stops w outset.context }
{
    if outset.stops {
        return false;
    }
    if tells_error(contexts, runtime) {
        return true;
    }
    stops_at(contexts, outset.context, runtime)
        && has_new_error_at(contexts, outset.context, runtime)
}

/// What a step came to, by what was known before it and what there is behind it. The memory is only
/// read.
pub fn end_of<M: Memory>(
    contexts: &Contexts,
    outset: Outset,
    is_made: bool,
    runtime: &mut Runtime<M>,
) -> StepEnd
    requires steady { IsSteady (over_of M.heap M.grants runtime.old contexts.now) }
    ensures heap { M.heap runtime.new.memory ≡ M.heap runtime.old.memory }
    ensures grants { M.grants runtime.new.memory ≡ M.grants runtime.old.memory }
    ensures shared { runtime.new.shared ≡ runtime.old.shared }
    ensures end { (w : World) → IsWorld (over_of M.heap M.grants runtime.old contexts.now) w
        → result ≡ moments.end_of is_made outset w }
{
    let fails = begins_error(contexts, outset, runtime);
    StepEnd {
        context: outset.context,
        is_made,
        prints: outset.printed < runtime.shared.printed.as_slice().len(),
        fails,
    }
}

/// The state of a lane, by whether its context may go on and what it waits for.
fn state_of(status: StatusLine) -> State
    ensures { result ≡ moments.state_of status }
{
    match status {
        StatusLine::Ready => State::Ready,
        StatusLine::Finished => State::Away,
        StatusLine::InMonitor { .. } | StatusLine::Notified { .. } => State::Lock,
        StatusLine::InJoin { .. } => State::Join,
        StatusLine::ForCondition { .. } => State::Condition,
    }
}

/// The state of the context of an identifier. The memory is only read.
fn state_at<M: Memory, D: Deeds>(
    crowd: &Crowd<'_, D>,
    identifier: u32,
    runtime: &mut Runtime<M>,
) -> State
    requires steady { IsSteady (over_of M.heap M.grants runtime.old crowd.now.contexts.now) }
    ensures heap { M.heap runtime.new.memory ≡ M.heap runtime.old.memory }
    ensures grants { M.grants runtime.new.memory ≡ M.grants runtime.old.memory }
    ensures shared { runtime.new.shared ≡ runtime.old.shared }
    ensures state { (w : World)
        → IsWorld (over_of M.heap M.grants runtime.old crowd.now.contexts.now) w
        → result ≡ moments.state_at w identifier }
{
    let Some(member) = crowd.contexts.table.get(identifier) else {
        return State::Away;
    };
    let is_ready = crowd
        .operators
        .is_ready(identifier, crowd.contexts, runtime);
    state_of(status_line(is_ready, member, &mut runtime.memory))
}

/// Whether the context of an identifier has a lock. The memory is only read. Fails where a growth is
/// refused.
fn has_lock_at<M: Memory>(
    alloc: Global,
    contexts: &Contexts,
    identifier: u32,
    runtime: &mut Runtime<M>,
) -> Result<bool, AllocError>
    requires steady { IsSteady (over_of M.heap M.grants runtime.old contexts.now) }
    ensures heap { M.heap runtime.new.memory ≡ M.heap runtime.old.memory }
    ensures grants { M.grants runtime.new.memory ≡ M.grants runtime.old.memory }
    ensures shared { runtime.new.shared ≡ runtime.old.shared }
    ensures has { (w : World) → IsWorld (over_of M.heap M.grants runtime.old contexts.now) w
        → IfOk result (λ has. has ≡ moments.has_any (steps.locks_at w identifier)) }
{
    let locks = locks_at(alloc, contexts, identifier, runtime)?;
    Ok(!locks.as_slice().is_empty())
}

/// What the context of an identifier does in a step, by how that ended and what there is behind it.
/// The memory is only read.
///
/// `AllocError`: a growth was refused.
#[tactic(auto, unfolding(crate::specs::Moments::moment_of))]
pub fn moment_of<M: Memory, D: Deeds>(
    alloc: Global,
    crowd: &Crowd<'_, D>,
    end: StepEnd,
    identifier: u32,
    runtime: &mut Runtime<M>,
) -> Result<Moment, AllocError>
    requires steady { IsSteady (over_of M.heap M.grants runtime.old crowd.now.contexts.now) }
    ensures heap { M.heap runtime.new.memory ≡ M.heap runtime.old.memory }
    ensures grants { M.grants runtime.new.memory ≡ M.grants runtime.old.memory }
    ensures shared { runtime.new.shared ≡ runtime.old.shared }
    ensures moment { (w : World)
        → IsWorld (over_of M.heap M.grants runtime.old crowd.now.contexts.now) w
        → IfOk result (λ moment. moment ≡ moments.moment_of end w identifier) }
{
    let steps = end.is_made && end.context == identifier;
    let there = state_at(crowd, identifier, runtime);
    let owner = has_lock_at(alloc, crowd.contexts, identifier, runtime)?;
    Ok(Moment {
        state: if steps { State::Steps } else { there },
        owner,
        prints: steps && end.prints,
        fails: steps && end.fails,
    })
}

/// The name of the last error of a context; nothing where it has none. The memory is only read.
///
/// `AllocError`: a growth was refused.
pub fn error_text<M: Memory>(
    alloc: Global,
    contexts: &Contexts,
    identifier: u32,
    runtime: &mut Runtime<M>,
) -> Result<Vec<u8>, AllocError>
    requires steady { IsSteady (over_of M.heap M.grants runtime.old contexts.now) }
    ensures heap { M.heap runtime.new.memory ≡ M.heap runtime.old.memory }
    ensures grants { M.grants runtime.new.memory ≡ M.grants runtime.old.memory }
    ensures shared { runtime.new.shared ≡ runtime.old.shared }
    ensures text { (w : World) → IsWorld (over_of M.heap M.grants runtime.old contexts.now) w
        → IfOk result (λ text. text.items ≡ moments.error_text w identifier) }
{
    match last_error_text(alloc, contexts, identifier, runtime)? {
        Some(text) => Ok(text),
        None => Ok(Vec::new(alloc)),
    }
}
