//! What others see of a step.

ghost use Rattle.std.specs.Prelude.{◌≡◌, ◌≢◌, ◌++◌, ◌==◌, [], ℕ, List, Some, None, OnOk, IfSome, drop, option_map, is_some, IfOk};
ghost use Rattle.std.specs.List.{flat_map, list_any};
ghost use Rattle.ps_language.specs.Contexts.{context_at};
ghost use Rattle.ps_language.specs.Texts.{plain_text};
ghost use Rattle.ps_language.specs.World.{World};
ghost use Rattle.ps_mem.specs.Heap.{birth_at};
ghost use Rattle.ps_mem.specs.Meaning.{value_of};
ghost use Rattle.ps_ctx_table.specs.Desks.{IsSteady, IsWorld};
ghost use Rattle.ps_ctx.specs.Calls.{over_of};
ghost use Rattle.ps_ctx_readers.specs.Errors.{last_error_name};
ghost use Rattle.ps_views.specs.Lines.{label_text};
ghost use Rattle.ps_views.specs.Steps.{remark_text};
ghost use Rattle.ps_views.specs.declared.steps.Remark.TheVariants as remarks;
ghost use Rattle.ps_states.specs.Chosen.{known_shown};
ghost use Rattle.ps_states.specs.Steps as steps;

use crate::states::Crowd;
use crate::statuses::status_line;
use crate::steps::{Known, locks_at, stops_at, tells_error};
use ps_ctx::deeds::Deeds;
use ps_ctx_readers::contexts::{has_new_error_at, last_error_at};
use ps_ctx_table::contexts::Contexts;
use ps_mem::Memory;
use ps_ops_state::lent::Runtime;
use ps_text::append_escapes;
use ps_text::plain::append_plain;
use ps_views::{Remark, StatusLine, append_label, append_remark};
use std::alloc::{AllocError, Global};

/// Appends what stands between two remarks, where one came already. Fails where a growth is refused.
fn separate(to: &mut Vec<u8>) -> Result<(), AllocError>
    ensures { OnOk result (to.new.items ≡ steps.separated to.old.items) }
{
    if to.is_empty() {
        return Ok(());
    }
    to.extend_from_slice(b"; ")
}

/// Appends one more remark, where there is one. Fails where a growth is refused.
fn and_remark(remark: Option<Remark>, to: &mut Vec<u8>) -> Result<(), AllocError>
    ensures { OnOk result
        (to.new.items ≡ steps.and_remark to.old.items (option_map remark_text remark)) }
{
    let Some(remark) = remark else {
        return Ok(());
    };
    separate(to)?;
    append_remark(remark, to)
}

/// Appends what was printed, as a string, where there is something. Fails where a growth is refused.
fn and_printed(printed: &[u8], to: &mut Vec<u8>) -> Result<(), AllocError>
    ensures { OnOk result
        (to.new.items ≡ steps.and_remark to.old.items (steps.printed_text printed.now)) }
{
    if printed.is_empty() {
        return Ok(());
    }
    separate(to)?;
    to.extend_from_slice(b"prints (")?;
    append_escapes(printed, usize::MAX, to)?;
    to.extend_from_slice(b")")
}

/// The first of these locks that isn't one of those.
fn lock_beside(locks: &[u64], others: &[u64]) -> Option<u64>
    ensures { result ≡ steps.lock_beside locks.now others.now }
{
    for lock in locks {
        if !others.contains(lock) {
            return Some(*lock);
        }
    }
    None
}

/// Appends what became of locks. Fails where a growth is refused.
fn and_locks(before: &[u64], behind: &[u64], to: &mut Vec<u8>) -> Result<(), AllocError>
    ensures { OnOk result (to.new.items ≡ steps.and_locks to.old.items before.now behind.now) }
{
    let taken = match lock_beside(behind, before) {
        Some(lock) => Some(Remark::Takes(lock)),
        None => None,
    };
    and_remark(taken, to)?;
    let freed = match lock_beside(before, behind) {
        Some(lock) => Some(Remark::Frees(lock)),
        None => None,
    };
    and_remark(freed, to)
}

/// The name of the last error of a context, where it has one. The memory is only read. Fails where a
/// growth is refused.
pub(crate) fn last_error_text<M: Memory>(
    alloc: Global,
    contexts: &Contexts,
    identifier: u32,
    runtime: &mut Runtime<M>,
) -> Result<Option<Vec<u8>>, AllocError>
    requires steady { IsSteady (over_of M.heap M.grants runtime.old contexts.now) }
    ensures heap { M.heap runtime.new.memory ≡ M.heap runtime.old.memory }
    ensures grants { M.grants runtime.new.memory ≡ M.grants runtime.old.memory }
    ensures shared { runtime.new.shared ≡ runtime.old.shared }
    ensures text { (w : World) → IsWorld (over_of M.heap M.grants runtime.old contexts.now) w
        → IfOk result (λ text. option_map (λ t. t.items) text
        ≡ option_map (plain_text w.store) (last_error_name w identifier)) }
{
    let Some(error) = last_error_at(contexts, identifier, runtime) else {
        return Ok(None);
    };
    let Some(name) = error.name else {
        return Ok(None);
    };
    let mut text = Vec::new(alloc);
    append_plain(
        &mut runtime.memory,
        &runtime.shared.names,
        name,
        b"",
        &mut text,
    )?;
    Ok(Some(text))
}

/// Appends the name of the last error of a context behind a space, where it has one. The memory is
/// only read. Fails where a growth is refused.
fn append_error<M: Memory>(
    alloc: Global,
    contexts: &Contexts,
    identifier: u32,
    runtime: &mut Runtime<M>,
    to: &mut Vec<u8>,
) -> Result<(), AllocError>
    requires steady { IsSteady (over_of M.heap M.grants runtime.old contexts.now) }
    ensures heap { M.heap runtime.new.memory ≡ M.heap runtime.old.memory }
    ensures grants { M.grants runtime.new.memory ≡ M.grants runtime.old.memory }
    ensures shared { runtime.new.shared ≡ runtime.old.shared }
    ensures label { (w : World) → IsWorld (over_of M.heap M.grants runtime.old contexts.now) w
        → OnOk result (to.new.items ≡ to.old.items ++ steps.error_label w identifier) }
{
    match last_error_text(alloc, contexts, identifier, runtime)? {
        Some(text) => append_label(Some(text.as_slice()), to),
        None => append_label(None, to),
    }
}

/// Appends why a context began to unwind for `stop`, or ended at once for an error, where it did;
/// `stops`: whether it was unwinding before. The memory is only read. Fails where a growth is refused.
fn and_stopped<M: Memory>(
    alloc: Global,
    contexts: &Contexts,
    known: &Known,
    runtime: &mut Runtime<M>,
    to: &mut Vec<u8>,
) -> Result<(), AllocError>
    requires steady { IsSteady (over_of M.heap M.grants runtime.old contexts.now) }
    ensures heap { M.heap runtime.new.memory ≡ M.heap runtime.old.memory }
    ensures grants { M.grants runtime.new.memory ≡ M.grants runtime.old.memory }
    ensures shared { runtime.new.shared ≡ runtime.old.shared }
    ensures told { (w : World) → IsWorld (over_of M.heap M.grants runtime.old contexts.now) w
        → OnOk result (to.new.items ≡ steps.and_remark to.old.items
        (steps.stopped known.now.stops w known.now.by.context)) }
{
    let ends = tells_error(contexts, runtime);
    if known.stops || !(ends || stops_at(contexts, known.by.context, runtime)) {
        return Ok(());
    }
    separate(to)?;
    if !(ends || has_new_error_at(contexts, known.by.context, runtime)) {
        return to.extend_from_slice(b"stops");
    }
    to.extend_from_slice(b"error")?;
    append_error(alloc, contexts, known.by.context, runtime, to)
}

/// What is told of a context behind its step.
fn status_remark(status: StatusLine) -> Option<Remark>
    ensures { option_map remark_text result ≡ steps.status_remark status }
{
    match status {
        StatusLine::Ready => None,
        StatusLine::Finished => Some(Remark::Finishes),
        _ => Some(Remark::Waits(status)),
    }
}

/// What became of the context of an identifier. The memory is only read.
fn left_remark<M: Memory, D: Deeds>(
    crowd: &Crowd<'_, D>,
    identifier: u32,
    runtime: &mut Runtime<M>,
) -> Option<Remark>
    requires steady { IsSteady (over_of M.heap M.grants runtime.old crowd.now.contexts.now) }
    ensures heap { M.heap runtime.new.memory ≡ M.heap runtime.old.memory }
    ensures grants { M.grants runtime.new.memory ≡ M.grants runtime.old.memory }
    ensures shared { runtime.new.shared ≡ runtime.old.shared }
    ensures left { (w : World)
        → IsWorld (over_of M.heap M.grants runtime.old crowd.now.contexts.now) w
        → option_map remark_text result
        ≡ steps.left_text w identifier (context_at w identifier) }
{
    let Some(member) = crowd.contexts.table.get(identifier) else {
        return Some(Remark::Ends);
    };
    let is_ready = crowd
        .operators
        .is_ready(identifier, crowd.contexts, runtime);
    status_remark(status_line(is_ready, member, &mut runtime.memory))
}

/// Appends the context that a step made, and what it printed. Fails where a growth is refused.
fn and_outward<M: Memory>(
    contexts: &Contexts,
    known: &Known,
    runtime: &Runtime<M>,
    to: &mut Vec<u8>,
) -> Result<(), AllocError>
    ensures { (w : World) → IsWorld (over_of M.heap M.grants runtime.now contexts.now) w
        → OnOk result (to.new.items ≡ steps.and_outward to.old.items (known_shown known.now) w) }
{
    let made = contexts.table.made();
    let started = if known.contexts < made {
        Some(Remark::Starts(made))
    } else {
        None
    };
    and_remark(started, to)?;
    let printed = runtime.shared.printed.as_slice();
    and_printed(&printed[known.printed.min(printed.len())..], to)
}

/// What others see of a step, from what was known before it and what there is behind it: nothing,
/// where it wasn't made. The memory is only read. Fails where a growth is refused.
#[tactic(auto, unfolding(crate::specs::Steps::remarks_text))]
pub(crate) fn remarks_of<M: Memory, D: Deeds>(
    alloc: Global,
    crowd: &Crowd<'_, D>,
    known: &Known,
    runtime: &mut Runtime<M>,
) -> Result<Vec<u8>, AllocError>
    requires steady { IsSteady (over_of M.heap M.grants runtime.old crowd.now.contexts.now) }
    ensures heap { M.heap runtime.new.memory ≡ M.heap runtime.old.memory }
    ensures grants { M.grants runtime.new.memory ≡ M.grants runtime.old.memory }
    ensures shared { runtime.new.shared ≡ runtime.old.shared }
    ensures text { (w : World)
        → IsWorld (over_of M.heap M.grants runtime.old crowd.now.contexts.now) w
        → IfOk result (λ text. text.items ≡ steps.remarks_text (known_shown known.now) w) }
{
    let mut text = Vec::new(alloc);
    if !known.is_made {
        return Ok(text);
    }
    and_outward(crowd.contexts, known, runtime, &mut text)?;
    let locks = locks_at(alloc, crowd.contexts, known.by.context, runtime)?;
    and_locks(known.locks.as_slice(), locks.as_slice(), &mut text)?;
    and_stopped(alloc, crowd.contexts, known, runtime, &mut text)?;
    let left = left_remark(crowd, known.by.context, runtime);
    and_remark(left, &mut text)?;
    Ok(text)
}
