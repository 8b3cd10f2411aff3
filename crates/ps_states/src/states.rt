//! The state of a run, as text.

ghost use Rattle.std.specs.Prelude.{◌≡◌, ◌++◌, ◌==◌, [], count_by, OnOk};
ghost use Rattle.std.specs.Option.{option_map_or};
ghost use Rattle.ps_language.specs.Contexts.{context_at};
ghost use Rattle.ps_language.specs.World.{World};
ghost use Rattle.ps_ctx_table.specs.Desks.{IsSteady, IsWorld};
ghost use Rattle.ps_ctx.specs.Calls.{over_of};
ghost use Rattle.ps_states.specs.Chosen.{chart_of};
ghost use Rattle.ps_states.specs.States as states;

use crate::charts::Chart;
use crate::contexts::{Subject, append_lines};
use crate::locks::append_locks;
use ps_ctx::deeds::Deeds;
use ps_ctx_table::contexts::Contexts;
use ps_mem::Memory;
use ps_ops_state::lent::Runtime;
use ps_views::{StateHead, append_head};
use std::alloc::{AllocError, Global};

/// All contexts of a run, and who tells which of them may go on.
#[derive(Clone, Copy)]
pub struct Crowd<'c, D> {
    pub contexts: &'c Contexts,
    pub operators: &'c D,
}

/// How many steps were made, of how many.
#[derive(Clone, Copy, Debug, PartialEq, Eq)]
pub struct StepCount {
    pub step: u64,
    pub steps: u64,
}

/// How many line ends there are among these bytes.
fn line_ends(bytes: &[u8]) -> usize
    ensures { result ≡ count_by (λ byte. byte == 10) bytes.now }
{
    bytes.iter().filter(|byte| **byte == b'\n').count()
}

/// Appends the first lines.
fn append_first<M>(
    count: StepCount,
    runtime: &Runtime<M>,
    to: &mut Vec<u8>,
) -> Result<(), AllocError>
    ensures { (w : World) → w.printed ≡ runtime.now.shared.printed.bytes
        → OnOk result (to.new.items ≡ to.old.items ++ states.head_of w count.step count.steps) }
{
    let printed = runtime.shared.printed.as_slice();
    let head = StateHead {
        step: count.step,
        steps: count.steps,
        bytes: printed.len(),
        lines: line_ends(printed),
    };
    append_head(head, to)
}

/// Appends the lines of the context of an identifier, where it is there. The memory is only read.
fn append_context_at<M: Memory, D: Deeds>(
    chart: &Chart<'_>,
    crowd: &Crowd<'_, D>,
    identifier: u32,
    runtime: &mut Runtime<M>,
    to: &mut Vec<u8>,
) -> Result<(), AllocError>
    requires steady { IsSteady (over_of M.heap M.grants runtime.old crowd.now.contexts.now) }
    ensures heap { M.heap runtime.new.memory ≡ M.heap runtime.old.memory }
    ensures grants { M.grants runtime.new.memory ≡ M.grants runtime.old.memory }
    ensures shared { runtime.new.shared ≡ runtime.old.shared }
    ensures lines { (w : World)
        → IsWorld (over_of M.heap M.grants runtime.old crowd.now.contexts.now) w
        → OnOk result (to.new.items ≡ to.old.items ++ option_map_or
        (states.lines_in (chart_of chart.now) w identifier) (context_at w identifier) []) }
{
    let Some(member) = crowd.contexts.table.get(identifier) else {
        return Ok(());
    };
    let is_ready = crowd
        .operators
        .is_ready(identifier, crowd.contexts, runtime);
    let subject = Subject {
        identifier,
        is_ready,
    };
    append_lines(chart, subject, member, runtime, to)
}

/// Appends the lines of the contexts, by rising identifiers. The memory is only read.
fn append_contexts<M: Memory, D: Deeds>(
    chart: &Chart<'_>,
    crowd: &Crowd<'_, D>,
    runtime: &mut Runtime<M>,
    to: &mut Vec<u8>,
) -> Result<(), AllocError>
    requires steady { IsSteady (over_of M.heap M.grants runtime.old crowd.now.contexts.now) }
    ensures heap { M.heap runtime.new.memory ≡ M.heap runtime.old.memory }
    ensures grants { M.grants runtime.new.memory ≡ M.grants runtime.old.memory }
    ensures shared { runtime.new.shared ≡ runtime.old.shared }
    ensures lines { (w : World)
        → IsWorld (over_of M.heap M.grants runtime.old crowd.now.contexts.now) w
        → OnOk result (to.new.items ≡ to.old.items ++ states.each_context
        (states.lines_in (chart_of chart.now) w) 1 w.contexts) }
{
    for place in 0..crowd.contexts.table.made() {
        append_context_at(chart, crowd, place + 1, runtime, to)?;
    }
    Ok(())
}

/// Appends the lines of the locks that the context of an identifier has, where it is there. The
/// memory is only read.
fn append_locks_at<M: Memory>(
    alloc: Global,
    contexts: &Contexts,
    identifier: u32,
    runtime: &mut Runtime<M>,
    to: &mut Vec<u8>,
) -> Result<(), AllocError>
    requires steady { IsSteady (over_of M.heap M.grants runtime.old contexts.now) }
    ensures heap { M.heap runtime.new.memory ≡ M.heap runtime.old.memory }
    ensures grants { M.grants runtime.new.memory ≡ M.grants runtime.old.memory }
    ensures shared { runtime.new.shared ≡ runtime.old.shared }
    ensures lines { (w : World) → IsWorld (over_of M.heap M.grants runtime.old contexts.now) w
        → OnOk result (to.new.items ≡ to.old.items ++ option_map_or
        (states.lock_lines w.store identifier) (context_at w identifier) []) }
{
    let Some(member) = contexts.table.get(identifier) else {
        return Ok(());
    };
    append_locks(alloc, identifier, member, &mut runtime.memory, to)
}

/// Appends the lines of the locks that contexts have, by rising identifiers of these. The memory is
/// only read.
fn append_all_locks<M: Memory>(
    alloc: Global,
    contexts: &Contexts,
    runtime: &mut Runtime<M>,
    to: &mut Vec<u8>,
) -> Result<(), AllocError>
    requires steady { IsSteady (over_of M.heap M.grants runtime.old contexts.now) }
    ensures heap { M.heap runtime.new.memory ≡ M.heap runtime.old.memory }
    ensures grants { M.grants runtime.new.memory ≡ M.grants runtime.old.memory }
    ensures shared { runtime.new.shared ≡ runtime.old.shared }
    ensures lines { (w : World) → IsWorld (over_of M.heap M.grants runtime.old contexts.now) w
        → OnOk result (to.new.items ≡ to.old.items ++ states.each_context
        (states.lock_lines w.store) 1 w.contexts) }
{
    for place in 0..contexts.table.made() {
        append_locks_at(alloc, contexts, place + 1, runtime, to)?;
    }
    Ok(())
}

/// Appends the text of the state of a run, as `state_text` has it: how many steps were made and
/// what they printed; of each context that isn't ended whether it may go on or what it waits for,
/// what it does next, its operands, dictionaries and frames; and the locks that contexts have. The
/// memory is only read.
///
/// `AllocError`: a growth was refused; a part of the text may have come.
#[tactic(auto, unfolding(crate::specs::States::state_text))]
pub fn append_state<M: Memory, D: Deeds>(
    chart: &Chart<'_>,
    crowd: &Crowd<'_, D>,
    count: StepCount,
    runtime: &mut Runtime<M>,
    to: &mut Vec<u8>,
) -> Result<(), AllocError>
    requires steady { IsSteady (over_of M.heap M.grants runtime.old crowd.now.contexts.now) }
    ensures heap { M.heap runtime.new.memory ≡ M.heap runtime.old.memory }
    ensures grants { M.grants runtime.new.memory ≡ M.grants runtime.old.memory }
    ensures shared { runtime.new.shared ≡ runtime.old.shared }
    ensures state { (w : World)
        → IsWorld (over_of M.heap M.grants runtime.old crowd.now.contexts.now) w
        → OnOk result (to.new.items ≡ to.old.items ++ states.state_text (chart_of chart.now) w
        count.step count.steps) }
{
    append_first(count, runtime, to)?;
    append_contexts(chart, crowd, runtime, to)?;
    append_all_locks(chart.alloc, crowd.contexts, runtime, to)
}
