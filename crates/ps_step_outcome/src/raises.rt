//! An error is noted, and an unwinding for stop begins (PLRM2, 3.10).

ghost use Rattle.std.specs.Prelude.{◌≡◌, ◌<◌, ◌∷◌, [], ℕ, List};
ghost use Rattle.ps_language.specs.StepValues.{command_of};
ghost use Rattle.ps_language.specs.Value.{Store};
ghost use Rattle.ps_mem.specs.Heap.{Heap};
ghost use Rattle.ps_mem.specs.Meaning.{value_of};
ghost use Rattle.ps_mem.specs.Shows.{IsValue, IsWithin};
ghost use Rattle.ps_ops_state.specs.Lent.{lent_of, IsGood};
ghost use Rattle.ps_step_outcome.specs.Turns.{Turns, TurnsWith, error_turn, nothing_more, operator_error};

use crate::ends::end_by_error;
use crate::notes::note;
use crate::turned::Turned;
use ps_language::errors::ErrorName;
use ps_language::operators::Operator;
use ps_mem::Memory;
use ps_ops_control::frames::Cause;
use ps_ops_operands::failure::NotMade;
use ps_ops_state::lent::{Attempt, Context, Runtime};
use ps_word::values::{Content, Value};
use ps_word::words::Word;

/// Notes an error with its command, and an unwinding for stop begins. Where no frame is left the
/// context ends, and the line of the error is printed.
///
/// `LogFull`, `LogClosed`: the log of the slot doesn't take five records. `Memory`: the output has
/// no room for the line. Nothing has changed then.
#[inline(never)]
pub fn raise<M: Memory>(
    error: ErrorName,
    command: Word,
    context: &mut Context,
    runtime: &mut Runtime<M>,
    attempt: Attempt,
) -> Result<Turned, NotMade>
    requires good { IsGood (lent_of M.heap M.grants context.old runtime.old) }
    requires held { IsValue (M.heap runtime.old.memory) command }
    ensures { TurnsWith (command ∷ []) [] nothing_more (error_turn error command) attempt result
        (lent_of M.heap M.grants context.old runtime.old)
        (lent_of M.heap M.grants context.new runtime.new) }
{
    if context.frames.len() == 0 {
        return end_by_error(error, command, context, runtime, attempt);
    }
    let address = context.error_dictionary;
    match note(&mut runtime.memory, attempt.slot, address, error, command) {
        Ok(()) => Ok(Turned::Breaks(Cause::Stop)),
        Err(reason) => Err(reason),
    }
}

/// The operator as the command of an error.
#[inline]
fn operator_command(operator: Operator) -> Word
    ensures value { (births : ℕ → ℕ) (names : List (List ℕ))
        → value_of births names result ≡ command_of operator }
    ensures held { (h : Heap) → IsValue h result }
    ensures within { (births : ℕ → ℕ) (names : List (List ℕ)) (s : Store)
        → IsWithin births names s result }
{
    let value = Value {
        content: Content::Operator(operator),
        executable: true,
    };
    value.pack()
}

/// An operator raises an error, with itself as the command.
///
/// Not made, with nothing changed: as `raise`.
#[inline(never)]
pub fn raise_by<M: Memory>(
    operator: Operator,
    error: ErrorName,
    context: &mut Context,
    runtime: &mut Runtime<M>,
    attempt: Attempt,
) -> Result<Turned, NotMade>
    requires good { IsGood (lent_of M.heap M.grants context.old runtime.old) }
    ensures { Turns nothing_more (operator_error operator error) attempt result
        (lent_of M.heap M.grants context.old runtime.old)
        (lent_of M.heap M.grants context.new runtime.new) }
{
    let command = operator_command(operator);
    raise(error, command, context, runtime, attempt)
}
