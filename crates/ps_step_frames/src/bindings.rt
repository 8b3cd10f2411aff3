//! A step of `bind` (PLRM2, 3.11, 8 'bind').

ghost use Rattle.std.specs.Prelude.{◌≡◌, ℕ, ◌+◌, ◌<◌, ◌≤◌, List, Some, true, length, drop, IfErr, IsSome, IsTrue, OnErr, OnOk, if◌then◌else◌};
ghost use Rattle.ps_language.specs.Limits.{frame_limit};
ghost use Rattle.ps_language.specs.Access.{with_part_elements};
ghost use Rattle.ps_language.specs.Value.{Store};
ghost use Rattle.ps_mem.specs.Heap.{birth_at};
ghost use Rattle.ps_mem.specs.Keeps.{Keeps};
ghost use Rattle.ps_mem.specs.Meaning.{part_of};
ghost use Rattle.ps_mem.specs.Shows.{AreValues, AreWithin, IsSound, Shows};
ghost use Rattle.ps_ops_operands.specs.Changes.{KeepsLogsWithin, spent, values_in};
ghost use Rattle.ps_ops_control.specs.Frames.{IsHeld};
ghost use Rattle.ps_ops_state.specs.Lent.{lent_of, IsGood};
ghost use Rattle.ps_stacks.specs.Tops.{first_of};
ghost use Rattle.ps_step_outcome.specs.Turns.{IsUnlogged, Turns};
ghost use Rattle.ps_step_frames.specs.Binds as binds;
ghost use Rattle.ps_step_frames.specs.Steps.{bind_asks, running_turn};

use crate::binds::{Bindings, bind_elements};
use ps_language::errors::ErrorName;
use ps_language::operators::Operator;
use ps_mem::{Memory, Slot};
use ps_ops_control::frames::{Frame, Frames};
use ps_ops_operands::failure::NotMade;
use ps_ops_state::lent::{Attempt, Context, Runtime};
use ps_seq::arrays::set_elements;
use ps_step_outcome::breaks::permit_records;
use ps_step_outcome::raises::raise_by;
use ps_step_outcome::turned::Turned;
use ps_word::values::Part;
use ps_word::words::Word;
use std::alloc::AllocError;

/// How deep procedures in procedures are gone into.
const NESTING_LIMIT: u32 = 32;

/// What may be stored of the elements as `bind` leaves them.
///
/// `InvalidAccess`: a dictionary on the way can't be read. `LimitCheck`: the procedure that is gone
/// into lies deeper than 32. `ExecStackOverflow`: its frame has no room.
fn within_limits(
    bound: Option<Bindings>,
    depth: u32,
    frames: &Frames,
) -> Result<Bindings, ErrorName>
    ensures { result ≡ binds.within_limits bound depth (length frames.now) }
{
    let Some(bindings) = bound else {
        return Err(ErrorName::InvalidAccess);
    };
    let Some(_) = bindings.inner else {
        return Ok(bindings);
    };
    if depth >= NESTING_LIMIT {
        return Err(ErrorName::LimitCheck);
    }
    if frames.is_full() {
        return Err(ErrorName::ExecStackOverflow);
    }
    Ok(bindings)
}

/// Stores elements from a place on, with one record; where none was replaced nothing is done.
///
/// `LogFull`, `LogClosed`: the log of the slot takes no record; nothing has changed then.
fn store_bound<M: Memory>(
    memory: &mut M,
    slot: Slot,
    over: Part,
    at: u16,
    changed: bool,
    words: &[Word],
) -> Result<(), NotMade>
    requires sound { IsSound (M.heap memory.old) }
    requires over { IsHeld (M.heap memory.old) over }
    requires fits { at + length words.now ≤ over.length }
    requires some { IsTrue changed → 1 ≤ length words.now }
    requires held { AreValues (M.heap memory.old) words.now }
    ensures sound { IsSound (M.heap memory.new) }
    ensures keeps { Keeps (M.heap memory.old) (M.heap memory.new) }
    ensures logs { KeepsLogsWithin (spent result (if changed then 1 else 0))
        (M.grants memory.old) (M.grants memory.new) slot }
    ensures unmade { OnErr result (M.heap memory.new ≡ M.heap memory.old) }
    ensures reason { IfErr result (λ reason. IsTrue changed
        × IsUnlogged 1 slot (M.grants memory.old) (M.grants memory.new) reason) }
    ensures shows { OnOk result ((names : List (List ℕ)) (s : Store)
        → Shows (M.heap memory.old) names s → AreWithin (M.heap memory.old) names s words.now
        → Shows (M.heap memory.new) names (if changed then
        with_part_elements s (part_of (birth_at (M.heap memory.old)) over) at
        (values_in (M.heap memory.old) names words.now) else s)) }
{
    if !changed {
        return Ok(());
    }
    permit_records(memory, slot, 1)?;
    set_elements(memory, slot, over, at, words);
    Ok(())
}

/// The frame goes at the end of the elements; else it goes on behind them, below that of the
/// procedure that is gone into.
fn go_on(frames: &mut Frames, over: Part, at: u32, depth: u32, inner: Option<Part>)
    requires some { 1 ≤ length frames.old }
    requires room { IsSome inner → length frames.old < frame_limit }
    requires depth { depth ≤ 32 }
    ensures { frames.new ≡ binds.bind_frames over at depth inner (drop 1 frames.old) }
{
    match inner {
        None => frames.discard(1),
        Some(part) => {
            frames.set_top(Frame::Bind { over, at, depth });
            frames.push_reserved(Frame::Bind {
                over: part,
                at: 0,
                depth: depth + 1,
            });
        }
    }
}

/// A step of `bind`: the elements that are left, up to the next procedure that is gone into, are
/// stored where one of them was replaced, and the frame goes on behind them or goes. Raises
/// `invalidaccess` where a dictionary on the way to the value of a name can't be read, `limitcheck`
/// where the procedure lies deeper than 32, and `execstackoverflow`; no element has changed then,
/// and the frame is as it was.
///
/// `LogFull`, `LogClosed`: the log of the slot takes no record. `Memory`: the list of words has no
/// room for those of the elements. Nothing has changed then. Or as the note of an error.
pub fn bind_turn<M: Memory>(
    over: Part,
    at: u32,
    depth: u32,
    context: &mut Context,
    runtime: &mut Runtime<M>,
    attempt: Attempt,
) -> Result<Turned, NotMade>
    requires good { IsGood (lent_of M.heap M.grants context.old runtime.old) }
    requires top { first_of context.old.frames ≡ Some (Frame.Bind over at depth) }
    ensures { Turns (bind_asks over at) running_turn attempt result
        (lent_of M.heap M.grants context.old runtime.old)
        (lent_of M.heap M.grants context.new runtime.new) }
{
    let place = at as u16;
    let words = &mut runtime.shared.scratch.words;
    match words.reserve((over.length - place) as usize) {
        Ok(()) => {}
        Err(AllocError) => return Err(NotMade::Memory),
    }
    let bound = bind_elements(
        over,
        place,
        &context.dictionaries,
        &mut runtime.memory,
        words,
    );
    match within_limits(bound, depth, &context.frames) {
        Ok(bindings) => {
            let behind = at + words.len() as u32;
            let stored = store_bound(
                &mut runtime.memory,
                attempt.slot,
                over,
                place,
                bindings.changed,
                words.as_slice(),
            );
            words.clear();
            match stored {
                Ok(()) => {}
                Err(reason) => return Err(reason),
            }
            go_on(&mut context.frames, over, behind, depth, bindings.inner);
            Ok(Turned::Goes)
        }
        Err(error) => {
            words.clear();
            raise_by(Operator::Bind, error, context, runtime, attempt)
        }
    }
}
