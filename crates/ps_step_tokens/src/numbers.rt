//! A token that is a number (PLRM2, 3.2.2).

ghost use Rattle.std.specs.Prelude.{◌≡◌, ◌<◌};
ghost use Rattle.ps_language.specs.Token.{number_token};
ghost use Rattle.ps_ops_state.specs.Lent.{lent_of, IsGood};
ghost use Rattle.ps_step_outcome.specs.Turns.{Turns, nothing_more};
ghost use Rattle.ps_step_tokens.specs.Tokens.{token_turn};

use ps_mem::Memory;
use ps_ops_operands::failure::NotMade;
use ps_ops_operands::plain;
use ps_ops_state::lent::{Attempt, Context, Runtime};
use ps_step_execute::pushes::push_value;
use ps_step_outcome::turned::Turned;

/// A number becomes an operand. Raises `stackoverflow` with the number as the command.
///
/// Not made, with nothing changed: as the note of an error.
#[inline]
pub fn do_number<M: Memory>(
    number: i32,
    context: &mut Context,
    runtime: &mut Runtime<M>,
    attempt: Attempt,
) -> Result<Turned, NotMade>
    requires good { IsGood (lent_of M.heap M.grants context.old runtime.old) }
    ensures { Turns nothing_more (token_turn (number_token number)) attempt result
        (lent_of M.heap M.grants context.old runtime.old)
        (lent_of M.heap M.grants context.new runtime.new) }
{
    let word = plain::integer(number);
    push_value(word, word, context, runtime, attempt)
}
