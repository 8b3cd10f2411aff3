//! Steps of a run that are sought.

ghost use Rattle.std.specs.Prelude.{◌≡◌, ◌↔◌, Some, IfOk, IsTrue};
ghost use Rattle.ps_language.specs.World.{World};
ghost use Rattle.ps_ctx_table.specs.Desks.{IsSteady, IsWorld};
ghost use Rattle.ps_ctx.specs.Calls.{over_of};
ghost use Rattle.ps_states.specs.Chosen.{chart_of};
ghost use Rattle.ps_states.specs.Sought as spec;

use crate::charts::Chart;
use crate::states::Crowd;
use crate::steps::{step_next, stops_at, tells_error};
use ps_ctx::deeds::Deeds;
use ps_ctx_readers::contexts::has_new_error_at;
use ps_ctx_table::contexts::Contexts;
use ps_mem::Memory;
use ps_ops_state::lent::Runtime;
use ps_places::Position;
use ps_views::append_step_coming;
use std::alloc::AllocError;

/// What is sought among the steps of a run.
#[derive(Clone, Copy)]
pub enum Sought<'s> {
    /// A step that does this, by the words of its line: it takes this token or element, or does
    /// something else.
    Doing(&'s [u8]),
    /// A step that takes what stands at this place.
    Place(Position),
    /// A step that raises an error.
    Error,
}

/// Whether the step of a context does what this text tells, by the words of its line. The memory is
/// only read. Fails where a growth is refused.
fn does<M: Memory, D: Deeds>(
    text: &[u8],
    chart: &Chart<'_>,
    crowd: &Crowd<'_, D>,
    identifier: u32,
    runtime: &mut Runtime<M>,
) -> Result<bool, AllocError>
    requires steady { IsSteady (over_of M.heap M.grants runtime.old crowd.now.contexts.now) }
    ensures heap { M.heap runtime.new.memory ≡ M.heap runtime.old.memory }
    ensures grants { M.grants runtime.new.memory ≡ M.grants runtime.old.memory }
    ensures shared { runtime.new.shared ≡ runtime.old.shared }
    ensures does { (w : World)
        → IsWorld (over_of M.heap M.grants runtime.old crowd.now.contexts.now) w
        → IfOk result (λ is. IsTrue is
        ↔ (spec.words_at (chart_of chart.now) w identifier ≡ text.now)) }
{
    let next = step_next(chart, crowd, identifier, runtime)?;
    let mut told = Vec::new(chart.alloc);
    append_step_coming(next.coming, next.value.as_slice(), &mut told)?;
    Ok(told.as_slice() == text)
}

/// Whether the step of a context takes what stands at a place. The memory is only read. Fails where a
/// growth is refused.
fn stands_at<M: Memory, D: Deeds>(
    position: Position,
    chart: &Chart<'_>,
    crowd: &Crowd<'_, D>,
    identifier: u32,
    runtime: &mut Runtime<M>,
) -> Result<bool, AllocError>
    requires steady { IsSteady (over_of M.heap M.grants runtime.old crowd.now.contexts.now) }
    ensures heap { M.heap runtime.new.memory ≡ M.heap runtime.old.memory }
    ensures grants { M.grants runtime.new.memory ≡ M.grants runtime.old.memory }
    ensures shared { runtime.new.shared ≡ runtime.old.shared }
    ensures stands { (w : World)
        → IsWorld (over_of M.heap M.grants runtime.old crowd.now.contexts.now) w
        → IfOk result (λ is. IsTrue is
        ↔ (spec.place_at (chart_of chart.now) w identifier ≡ Some position)) }
{
    let next = step_next(chart, crowd, identifier, runtime)?;
    Ok(next.position == Some(position))
}

/// Whether the step of a context fits what is sought, as far as that is known before it is made. The
/// memory is only read.
///
/// `AllocError`: a growth was refused.
pub fn fits_before<M: Memory, D: Deeds>(
    sought: Sought<'_>,
    chart: &Chart<'_>,
    crowd: &Crowd<'_, D>,
    identifier: u32,
    runtime: &mut Runtime<M>,
) -> Result<bool, AllocError>
    requires steady { IsSteady (over_of M.heap M.grants runtime.old crowd.now.contexts.now) }
    ensures heap { M.heap runtime.new.memory ≡ M.heap runtime.old.memory }
    ensures grants { M.grants runtime.new.memory ≡ M.grants runtime.old.memory }
    ensures shared { runtime.new.shared ≡ runtime.old.shared }
    ensures fits { (w : World)
        → IsWorld (over_of M.heap M.grants runtime.old crowd.now.contexts.now) w
        → IfOk result (λ fits. IsTrue fits
        ↔ spec.FitsBefore (spec.sought_of sought.entry) (chart_of chart.now) w identifier) }
{
    match sought {
        Sought::Doing(text) => does(text, chart, crowd, identifier, runtime),
        Sought::Place(position) => stands_at(position, chart, crowd, identifier, runtime),
        Sought::Error => Ok(!stops_at(crowd.contexts, identifier, runtime)),
    }
}

/// Whether a step fits what is sought, as far as that is known behind it. The memory is only read.
pub fn fits_behind<M: Memory>(
    sought: Sought<'_>,
    contexts: &Contexts,
    identifier: u32,
    runtime: &mut Runtime<M>,
) -> bool
    requires steady { IsSteady (over_of M.heap M.grants runtime.old contexts.now) }
    ensures heap { M.heap runtime.new.memory ≡ M.heap runtime.old.memory }
    ensures grants { M.grants runtime.new.memory ≡ M.grants runtime.old.memory }
    ensures shared { runtime.new.shared ≡ runtime.old.shared }
    ensures fits { (w : World) → IsWorld (over_of M.heap M.grants runtime.old contexts.now) w
        → IsTrue result ↔ spec.FitsBehind (spec.sought_of sought.entry) w identifier }
{
    match sought {
        Sought::Error => raises_at(contexts, identifier, runtime),
        _ => true,
    }
}

/// Whether the line of an error was printed, or a context began to unwind for an error that its
/// `$error` tells as a new one. The memory is only read.
fn raises_at<M: Memory>(contexts: &Contexts, identifier: u32, runtime: &mut Runtime<M>) -> bool
    requires steady { IsSteady (over_of M.heap M.grants runtime.old contexts.now) }
    ensures heap { M.heap runtime.new.memory ≡ M.heap runtime.old.memory }
    ensures grants { M.grants runtime.new.memory ≡ M.grants runtime.old.memory }
    ensures shared { runtime.new.shared ≡ runtime.old.shared }
    ensures raises { (w : World) → IsWorld (over_of M.heap M.grants runtime.old contexts.now) w
        → result ≡ spec.raises_at w identifier }
{
    if tells_error(contexts, runtime) {
        return true;
    }
    if !stops_at(contexts, identifier, runtime) {
        return false;
    }
    has_new_error_at(contexts, identifier, runtime)
}
