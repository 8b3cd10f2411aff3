//! What is read of the contexts of a world, by their identifiers.

ghost use Rattle.std.specs.Prelude.{◌≡◌, ℕ, IfOk, IfSome, option_and_then, option_map};
ghost use Rattle.std.specs.Result.{result_map_both};
ghost use Rattle.ps_language.specs.Contexts.{context_at};
ghost use Rattle.ps_language.specs.World.{World};
ghost use Rattle.ps_mem.specs.Heap.{birth_at};
ghost use Rattle.ps_mem.specs.Meaning.{value_of};
ghost use Rattle.ps_mem.specs.Shows.{IsValue, IsWithin};
ghost use Rattle.ps_ctx_table.specs.Desks.{IsSteady, IsWorld};
ghost use Rattle.ps_ctx_table.specs.Worlds.{status_of};
ghost use Rattle.ps_ctx.specs.Calls.{over_of};
ghost use Rattle.ps_ctx_readers.specs.Errors as errors;
ghost use Rattle.ps_ctx_readers.specs.Frames as frames;
ghost use Rattle.ps_ctx_readers.specs.Names as names;
ghost use Rattle.ps_ctx_readers.specs.Values as values;
ghost use Rattle.ps_ctx_readers.specs.Values.{HasLowest, IsTold};

use crate::errors::{LastError, last_error};
use crate::frames::{FrameView, view_below};
use crate::names::procedure_name;
use crate::values::{tell_value, word_in};
use crate::views::{Place, ToldValue, Untold};
use ps_ctx_table::contexts::Contexts;
use ps_ctx_table::members::Course;
use ps_mem::Memory;
use ps_ops_state::lent::Runtime;
use ps_step_outcome::breaks::has_new_error;
use ps_step_outcome::notes::error_keys;
use ps_word::words::Word;

/// How far a context is; nothing of one that isn't there.
pub fn course_at<M: Memory>(
    contexts: &Contexts,
    identifier: u32,
    runtime: &Runtime<M>,
) -> Option<Course>
    ensures { (w : World) → IsWorld (over_of M.heap M.grants runtime.now contexts.now) w
        → option_map (status_of (birth_at (M.heap runtime.now.memory))) result
        ≡ frames.status_at w identifier }
{
    let Some(member) = contexts.table.get(identifier) else {
        return None;
    };
    Some(member.course)
}

/// The frame of a context below so many others, as it is seen; nothing where there is none. The
/// memory is only read.
pub fn frame_at<M: Memory>(
    contexts: &Contexts,
    identifier: u32,
    depth: usize,
    runtime: &mut Runtime<M>,
) -> Option<FrameView>
    requires steady { IsSteady (over_of M.heap M.grants runtime.old contexts.now) }
    ensures heap { M.heap runtime.new.memory ≡ M.heap runtime.old.memory }
    ensures grants { M.grants runtime.new.memory ≡ M.grants runtime.old.memory }
    ensures shared { runtime.new.shared ≡ runtime.old.shared }
    ensures view { (w : World) → IsWorld (over_of M.heap M.grants runtime.old contexts.now) w
        → result ≡ frames.frame_seen w identifier depth }
{
    let Some(member) = contexts.table.get(identifier) else {
        return None;
    };
    view_below(&member.context.frames, depth, &mut runtime.memory)
}

/// The last error of a context, as its `$error` has it; nothing of one that isn't there. The memory
/// is only read.
pub fn last_error_at<M: Memory>(
    contexts: &Contexts,
    identifier: u32,
    runtime: &mut Runtime<M>,
) -> Option<LastError>
    requires steady { IsSteady (over_of M.heap M.grants runtime.old contexts.now) }
    ensures heap { M.heap runtime.new.memory ≡ M.heap runtime.old.memory }
    ensures grants { M.grants runtime.new.memory ≡ M.grants runtime.old.memory }
    ensures shared { runtime.new.shared ≡ runtime.old.shared }
    ensures held { IfSome result (λ error. IfSome error.name (IsValue (M.heap runtime.old.memory))
        × IfSome error.command (IsValue (M.heap runtime.old.memory))) }
    ensures within { (w : World) → IsWorld (over_of M.heap M.grants runtime.old contexts.now) w
        → IfSome result (λ error. IfSome error.name
        (IsWithin (birth_at (M.heap runtime.old.memory)) runtime.old.shared.names w.store)) }
    ensures name { (w : World) → IsWorld (over_of M.heap M.grants runtime.old contexts.now) w
        → option_and_then (λ error. option_map
        (value_of (birth_at (M.heap runtime.old.memory)) runtime.old.shared.names) error.name)
        result ≡ errors.last_error_name w identifier }
    ensures command { (w : World) → IsWorld (over_of M.heap M.grants runtime.old contexts.now) w
        → option_and_then (λ error. option_map
        (value_of (birth_at (M.heap runtime.old.memory)) runtime.old.shared.names) error.command)
        result ≡ errors.last_error_command w identifier }
{
    let Some(member) = contexts.table.get(identifier) else {
        return None;
    };
    Some(last_error(&mut runtime.memory, member.context.error_dictionary))
}

/// Whether the last error of a context is new, as its `$error` has it; no error is, of one that isn't
/// there. The memory is only read.
pub fn has_new_error_at<M: Memory>(
    contexts: &Contexts,
    identifier: u32,
    runtime: &mut Runtime<M>,
) -> bool
    requires steady { IsSteady (over_of M.heap M.grants runtime.old contexts.now) }
    ensures heap { M.heap runtime.new.memory ≡ M.heap runtime.old.memory }
    ensures grants { M.grants runtime.new.memory ≡ M.grants runtime.old.memory }
    ensures shared { runtime.new.shared ≡ runtime.old.shared }
    ensures new { (w : World) → IsWorld (over_of M.heap M.grants runtime.old contexts.now) w
        → result ≡ errors.has_new_error_at w identifier }
{
    let Some(member) = contexts.table.get(identifier) else {
        return false;
    };
    has_new_error(
        &mut runtime.memory,
        member.context.error_dictionary,
        error_keys(),
    )
}

/// The name under which a context has a procedure of the object of a birth number, if it has one.
/// The memory is only read.
pub fn procedure_name_at<M: Memory>(
    contexts: &Contexts,
    identifier: u32,
    birth: u64,
    runtime: &mut Runtime<M>,
) -> Option<Word>
    requires steady { IsSteady (over_of M.heap M.grants runtime.old contexts.now) }
    ensures heap { M.heap runtime.new.memory ≡ M.heap runtime.old.memory }
    ensures grants { M.grants runtime.new.memory ≡ M.grants runtime.old.memory }
    ensures shared { runtime.new.shared ≡ runtime.old.shared }
    ensures name { (w : World) → IsWorld (over_of M.heap M.grants runtime.old contexts.now) w
        → option_map
        (value_of (birth_at (M.heap runtime.old.memory)) runtime.old.shared.names) result
        ≡ names.procedure_name w identifier birth }
{
    let Some(member) = contexts.table.get(identifier) else {
        return None;
    };
    procedure_name(&member.context.dictionaries, birth, &mut runtime.memory)
}

/// What a context has at a place. The memory is only read.
///
/// `NoContext`: none has this identifier, or it is ended. `NoValue`: the context has no value there.
fn word_at<M: Memory>(
    contexts: &Contexts,
    identifier: u32,
    place: Place<'_>,
    runtime: &mut Runtime<M>,
) -> Result<Word, Untold>
    requires steady { IsSteady (over_of M.heap M.grants runtime.old contexts.now) }
    ensures heap { M.heap runtime.new.memory ≡ M.heap runtime.old.memory }
    ensures grants { M.grants runtime.new.memory ≡ M.grants runtime.old.memory }
    ensures shared { runtime.new.shared ≡ runtime.old.shared }
    ensures held { IfOk result (IsValue (M.heap runtime.old.memory)) }
    ensures within { (w : World) → IsWorld (over_of M.heap M.grants runtime.old contexts.now) w
        → IfOk result (IsWithin (birth_at (M.heap runtime.old.memory)) runtime.old.shared.names
        w.store) }
    ensures value { (w : World) → IsWorld (over_of M.heap M.grants runtime.old contexts.now) w
        → HasLowest (context_at w identifier) → result_map_both
        (value_of (birth_at (M.heap runtime.old.memory)) runtime.old.shared.names) (λ why. why)
        result ≡ values.value_told w identifier place.entry }
{
    let Some(member) = contexts.table.get(identifier) else {
        return Err(Untold::NoContext);
    };
    match word_in(member, place, &runtime.shared.names, &mut runtime.memory) {
        Some(word) => Ok(word),
        None => Err(Untold::NoValue),
    }
}

/// Tells what a context has at a place. Its bytes, which are those of a string, or of the name that a
/// name or an operator is, are written to the front of a room, if it has place for all of them. The
/// memory is only read.
///
/// `NoContext`: none has this identifier, or it is ended. `NoValue`: the context has no value there.
/// Then nothing is written.
pub fn tell_at<M: Memory>(
    contexts: &Contexts,
    identifier: u32,
    place: Place<'_>,
    runtime: &mut Runtime<M>,
    room: &mut [u8],
) -> Result<ToldValue, Untold>
    requires steady { IsSteady (over_of M.heap M.grants runtime.old contexts.now) }
    ensures heap { M.heap runtime.new.memory ≡ M.heap runtime.old.memory }
    ensures grants { M.grants runtime.new.memory ≡ M.grants runtime.old.memory }
    ensures shared { runtime.new.shared ≡ runtime.old.shared }
    ensures told { (w : World) → IsWorld (over_of M.heap M.grants runtime.old contexts.now) w
        → HasLowest (context_at w identifier)
        → IsTold w identifier place.entry room.old room.new result }
{
    match word_at(contexts, identifier, place, runtime) {
        Ok(word) => Ok(tell_value(word, &runtime.shared.names, &mut runtime.memory, room)),
        Err(why) => Err(why),
    }
}
