//! A value becomes an operand, and a frame is pushed (PLRM2, 3.4, 3.5).

ghost use Rattle.std.specs.Prelude.{◌≡◌, ◌<◌, ◌∷◌, [], length};
ghost use Rattle.ps_word.specs.declared.words.Word.{Word as TheWord};
ghost use Rattle.ps_mem.specs.Shows.{IsValue};
ghost use Rattle.ps_ops_control.specs.Frames.{IsFrame};
ghost use Rattle.ps_ops_state.specs.Lent.{lent_of, IsGood};
ghost use Rattle.ps_step_outcome.specs.Turns.{TurnsWith, nothing_more};
ghost use Rattle.ps_step_execute.specs.Values.{GoesAlone, framed_turn, pushed_turn};

use ps_language::errors::ErrorName;
use ps_mem::Memory;
use ps_ops_control::frames::Frame;
use ps_ops_operands::Operands;
use ps_ops_operands::failure::NotMade;
use ps_ops_state::lent::{Attempt, Context, Runtime};
use ps_step_outcome::raises::raise;
use ps_step_outcome::turned::Turned;
use ps_word::words::Word;

/// A value becomes an operand. Where 500 stand, `stackoverflow` is raised with the command.
///
/// Not made, with nothing changed: as the note of an error.
#[inline(always)]
pub fn push_value<M: Memory>(
    word: Word,
    command: Word,
    context: &mut Context,
    runtime: &mut Runtime<M>,
    attempt: Attempt,
) -> Result<Turned, NotMade>
    requires good { IsGood (lent_of M.heap M.grants context.old runtime.old) }
    requires word { IsValue (M.heap runtime.old.memory) word }
    requires command { IsValue (M.heap runtime.old.memory) command }
    ensures { TurnsWith (word ∷ command ∷ []) [] nothing_more (pushed_turn command word) attempt
        result
        (lent_of M.heap M.grants context.old runtime.old)
        (lent_of M.heap M.grants context.new runtime.new) }
{
    if context.operands.is_full() {
        return raise(ErrorName::StackOverflow, command, context, runtime, attempt);
    }
    context.operands.push_reserved(word);
    Ok(Turned::Goes)
}

/// A value becomes an operand where there is room. Else nothing has changed, and the answer is no.
#[inline(always)]
pub fn push_quickly(word: Word, operands: &mut Operands) -> bool
    ensures { (command : TheWord) → GoesAlone (word ∷ command ∷ []) nothing_more
        (pushed_turn command word) result operands.old operands.new }
{
    if operands.is_full() {
        return false;
    }
    operands.push_reserved(word);
    true
}

/// A frame is pushed. Where 250 stand, `execstackoverflow` is raised with the command.
///
/// Not made, with nothing changed: as the note of an error.
#[inline]
pub fn push_frame<M: Memory>(
    frame: Frame,
    command: Word,
    context: &mut Context,
    runtime: &mut Runtime<M>,
    attempt: Attempt,
) -> Result<Turned, NotMade>
    requires good { IsGood (lent_of M.heap M.grants context.old runtime.old) }
    requires frame { IsFrame (M.heap runtime.old.memory) (length runtime.old.shared.program.now)
        frame }
    requires command { IsValue (M.heap runtime.old.memory) command }
    ensures { TurnsWith (command ∷ []) (frame ∷ []) nothing_more (framed_turn command frame) attempt
        result
        (lent_of M.heap M.grants context.old runtime.old)
        (lent_of M.heap M.grants context.new runtime.new) }
{
    if context.frames.is_full() {
        return raise(
            ErrorName::ExecStackOverflow,
            command,
            context,
            runtime,
            attempt,
        );
    }
    context.frames.push_reserved(frame);
    Ok(Turned::Goes)
}
