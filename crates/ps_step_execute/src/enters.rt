//! A procedure is entered, and a string is scanned (PLRM2, 3.5).

ghost use Rattle.std.specs.Prelude.{◌≡◌, ◌<◌, ◌∷◌, []};
ghost use Rattle.ps_mem.specs.Shows.{IsValue};
ghost use Rattle.ps_ops_state.specs.Lent.{lent_of, IsGood};
ghost use Rattle.ps_ops_control.specs.Frames.{IsHeld, IsHeldText};
ghost use Rattle.ps_step_outcome.specs.Turns.{TurnsWith, nothing_more};
ghost use Rattle.ps_step_execute.specs.Values.{entered_turn, scanned_turn, string_frame};

use crate::pushes::push_frame;
use ps_language::errors::ErrorName;
use ps_mem::Memory;
use ps_ops_control::frames::{Frame, Source};
use ps_ops_operands::access::is_executable;
use ps_ops_operands::failure::NotMade;
use ps_ops_state::lent::{Attempt, Context, Runtime};
use ps_step_outcome::raises::raise;
use ps_step_outcome::turned::Turned;
use ps_word::values::Part;
use ps_word::words::Word;

/// A procedure is entered; an empty one needs no frame. Raises with the command `invalidaccess`
/// where it can't be executed, and `execstackoverflow` where 250 frames stand.
///
/// Not made, with nothing changed: as the note of an error.
pub fn enter<M: Memory>(
    part: Part,
    command: Word,
    context: &mut Context,
    runtime: &mut Runtime<M>,
    attempt: Attempt,
) -> Result<Turned, NotMade>
    requires good { IsGood (lent_of M.heap M.grants context.old runtime.old) }
    requires part { IsHeld (M.heap runtime.old.memory) part }
    requires command { IsValue (M.heap runtime.old.memory) command }
    ensures { TurnsWith (command ∷ []) [] nothing_more (entered_turn command part) attempt result
        (lent_of M.heap M.grants context.old runtime.old)
        (lent_of M.heap M.grants context.new runtime.new) }
{
    if !is_executable(part.access) {
        return raise(ErrorName::InvalidAccess, command, context, runtime, attempt);
    }
    if part.length == 0 {
        return Ok(Turned::Goes);
    }
    let frame = Frame::Procedure { rest: part };
    push_frame(frame, command, context, runtime, attempt)
}

/// A string is scanned, from its begin on. Raises with the command `invalidaccess` where it can't
/// be executed, and `execstackoverflow` where 250 frames stand.
///
/// Not made, with nothing changed: as the note of an error.
pub fn scan_string<M: Memory>(
    part: Part,
    command: Word,
    context: &mut Context,
    runtime: &mut Runtime<M>,
    attempt: Attempt,
) -> Result<Turned, NotMade>
    requires good { IsGood (lent_of M.heap M.grants context.old runtime.old) }
    requires part { IsHeldText (M.heap runtime.old.memory) part }
    requires command { IsValue (M.heap runtime.old.memory) command }
    ensures { TurnsWith (command ∷ []) (string_frame part ∷ []) nothing_more
        (scanned_turn command part) attempt result
        (lent_of M.heap M.grants context.old runtime.old)
        (lent_of M.heap M.grants context.new runtime.new) }
{
    if !is_executable(part.access) {
        return raise(ErrorName::InvalidAccess, command, context, runtime, attempt);
    }
    let frame = Frame::Text {
        source: Source::Text(part),
        at: 0,
    };
    push_frame(frame, command, context, runtime, attempt)
}
