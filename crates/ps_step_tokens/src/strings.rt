//! A token that is a string (PLRM2, 3.2.2).

ghost use Rattle.std.specs.Prelude.{◌≡◌, ◌<◌, ◌≤◌, length};
ghost use Rattle.ps_language.specs.Limits.{sequence_limit};
ghost use Rattle.ps_language.specs.Token.{string_token};
ghost use Rattle.ps_ops_state.specs.Lent.{lent_of, IsGood};
ghost use Rattle.ps_step_outcome.specs.Turns.{Turns, nothing_more};
ghost use Rattle.ps_step_tokens.specs.Tokens.{token_turn};

use ps_language::errors::ErrorName;
use ps_mem::Memory;
use ps_ops_operands::failure::NotMade;
use ps_ops_operands::permits::granted;
use ps_ops_operands::plain;
use ps_ops_operands::readers::string_word;
use ps_ops_state::lent::{Attempt, Context, Runtime};
use ps_seq::strings::{make_string, words_of_string};
use ps_step_outcome::raises::raise;
use ps_step_outcome::turned::Turned;

/// A new string of these bytes becomes an operand.
///
/// Raises with the command null `stackoverflow` where 500 operands stand, and `VMerror` in a
/// refused step.
///
/// `NeedSpace`: its words have no room. `Memory`: a growth of the memory was refused. Not made,
/// with nothing changed: also as the note of an error.
#[inline(never)]
pub fn do_string<M: Memory>(
    bytes: &[u8],
    context: &mut Context,
    runtime: &mut Runtime<M>,
    attempt: Attempt,
) -> Result<Turned, NotMade>
    requires good { IsGood (lent_of M.heap M.grants context.old runtime.old) }
    requires short { length bytes.now ≤ sequence_limit }
    ensures { Turns nothing_more (token_turn (string_token bytes.now)) attempt result
        (lent_of M.heap M.grants context.old runtime.old)
        (lent_of M.heap M.grants context.new runtime.new) }
{
    let command = plain::null();
    if context.operands.is_full() {
        return raise(ErrorName::StackOverflow, command, context, runtime, attempt);
    }
    if attempt.refused {
        return raise(ErrorName::VmError, command, context, runtime, attempt);
    }
    let words = 2 + words_of_string(bytes.len() as u16);
    if let Err(reason) = granted(&mut runtime.memory, words, 1) {
        return Err(reason);
    }
    let part = make_string(&mut runtime.memory, bytes);
    context.operands.push_reserved(string_word(part, false));
    Ok(Turned::Goes)
}
