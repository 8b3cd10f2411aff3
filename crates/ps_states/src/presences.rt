//! How contexts stand between the steps of a run, and whom a step has to do with.

ghost use Rattle.std.specs.Prelude.{◌≡◌, ℕ, ◌≤◌, ◌++◌, ◌∷◌, [], ◌==◌, ◌&&◌, not, length, OnOk, if◌then◌else◌};
ghost use Rattle.ps_language.specs.World.{World};
ghost use Rattle.ps_ctx_table.specs.Desks.{IsWorld};
ghost use Rattle.ps_ctx_table.specs.Worlds.{status_of};
ghost use Rattle.ps_ctx.specs.Calls.{over_of};
ghost use Rattle.ps_states.specs.Moments as moments;
ghost use Rattle.ps_states.specs.Moments.{ArePresences};

use crate::moments::Outset;
use ps_ctx_readers::contexts::course_at;
use ps_ctx_table::contexts::Contexts;
use ps_ctx_table::members::Course;
use ps_mem::Memory;
use ps_ops_state::lent::Runtime;
use ps_timelines::Arrow;
use std::alloc::AllocError;

/// How a context stands.
#[derive(Clone, Copy, Debug, PartialEq, Eq)]
pub enum Presence {
    /// It is ended.
    Gone,
    /// It waits for a condition.
    Waiting,
    /// It was notified, and takes its lock again.
    Retaking,
    Other,
}

/// What the context of a step does with another.
#[derive(Clone, Copy, Debug, PartialEq, Eq)]
pub enum Tie {
    Joins,
    Notifies,
}

/// The arrows of a step, by its number from 1, from its context to those that it has to do with.
#[derive(Clone, Copy, Debug, PartialEq, Eq)]
pub struct Related {
    pub tie: Tie,
    pub step: u32,
    pub context: u32,
}

/// How a context stands that is there.
fn presence_of(course: Course) -> Presence
    ensures { (births : ℕ → ℕ) → result ≡ moments.presence_of (status_of births course) }
{
    match course {
        Course::Waiting { .. } => Presence::Waiting,
        Course::Retaking { .. } => Presence::Retaking,
        Course::Running | Course::Unwinding(_) | Course::Again | Course::Finished =>
            Presence::Other,
    }
}

/// How the context of an identifier stands.
fn presence_at<M: Memory>(contexts: &Contexts, identifier: u32, runtime: &Runtime<M>) -> Presence
    ensures { (w : World) → IsWorld (over_of M.heap M.grants runtime.now contexts.now) w
        → result ≡ moments.presence_at w identifier }
{
    match course_at(contexts, identifier, runtime) {
        None => Presence::Gone,
        Some(course) => presence_of(course),
    }
}

/// Tells anew how all contexts stand that were made.
///
/// `AllocError`: a growth was refused; a part may be told.
pub fn tell_presences<M: Memory>(
    contexts: &Contexts,
    runtime: &Runtime<M>,
    seen: &mut Vec<Presence>,
) -> Result<(), AllocError>
    ensures within { OnOk result (length seen.new.items ≤ 2147483647) }
    ensures told { (w : World) → IsWorld (over_of M.heap M.grants runtime.now contexts.now) w
        → OnOk result (ArePresences seen.new.items w) }
{
    seen.clear();
    for place in 0..contexts.table.made() {
        seen.push(presence_at(contexts, place + 1, runtime))?;
    }
    Ok(())
}

/// Whether a context that stood so before a step, and stands so behind it, has to do with it.
fn is_related(tie: Tie, before: Presence, after: Presence) -> bool
    ensures { result ≡ moments.is_related tie before after }
{
    match tie {
        Tie::Joins => { !matches!(before, Presence::Gone) && matches!(after, Presence::Gone) }
        Tie::Notifies => {
            matches!(before, Presence::Waiting) && matches!(after, Presence::Retaking)
        }
    }
}

/// An arrow between the lanes of two contexts, behind a step.
fn arrow_of(step: u32, from: u32, to: u32) -> Arrow
    ensures { result ≡ moments.arrow_of step from to }
{
    Arrow {
        step,
        from: from.saturating_sub(1),
        to: to.saturating_sub(1),
    }
}

/// Whether there is an arrow to a context that stood so before a step, and stands so behind it.
fn is_wanted(related: Related, to: u32, before: Presence, after: Presence) -> bool
    ensures { result ≡ (not (related.context == to)
        && moments.is_related related.tie before after) }
{
    related.context != to && is_related(related.tie, before, after)
}

/// Pushes an arrow, where it is wanted. Fails where a growth is refused.
fn push_where(is_wanted: bool, arrow: Arrow, arrows: &mut Vec<Arrow>) -> Result<(), AllocError>
    ensures { OnOk result (arrows.new.items ≡ arrows.old.items
        ++ (if is_wanted then arrow ∷ [] else [])) }
{
    if is_wanted {
        arrows.push(arrow)?;
    }
    Ok(())
}

/// Pushes the arrows of a step to the contexts that it has to do with, by how all stood before it
/// and by what there is behind it.
///
/// `AllocError`: a growth was refused; a part may be pushed.
pub fn push_related<M: Memory>(
    related: Related,
    seen: &[Presence],
    contexts: &Contexts,
    runtime: &Runtime<M>,
    arrows: &mut Vec<Arrow>,
) -> Result<(), AllocError>
    requires { length seen.now ≤ 2147483647 }
    ensures { (now after : World) → ArePresences seen.now now
        → IsWorld (over_of M.heap M.grants runtime.now contexts.now) after
        → OnOk result (arrows.new.items ≡ arrows.old.items
        ++ moments.arrows_in related.tie related.step related.context now after) }
{
    for place in 0..seen.len() {
        let to = place as u32 + 1;
        let after = presence_at(contexts, to, runtime);
        let is_pushed = is_wanted(related, to, seen[place], after);
        push_where(
            is_pushed,
            arrow_of(related.step, related.context, to),
            arrows,
        )?;
    }
    Ok(())
}

/// Pushes the arrow of a step to the context that it made, where it made one.
///
/// `AllocError`: a growth was refused, and nothing is pushed.
pub fn push_started(
    step: u32,
    outset: Outset,
    contexts: &Contexts,
    arrows: &mut Vec<Arrow>,
) -> Result<(), AllocError>
    ensures { (after : World) → length contexts.now.table ≡ length after.contexts
        → OnOk result (arrows.new.items ≡ arrows.old.items ++ moments.starts_in step outset after) }
{
    let made = contexts.table.made();
    let started = outset.contexts < made;
    push_where(started, arrow_of(step, outset.context, made), arrows)
}
