//! Doing a token of a text (PLRM2, 3.5).

ghost use Rattle.std.specs.Prelude.{◌≡◌, ◌<◌};
ghost use Rattle.ps_scan.specs.Shown.{token_of};
ghost use Rattle.ps_ops_state.specs.Lent.{lent_of, IsGood};
ghost use Rattle.ps_step_outcome.specs.Turns.{Turns};
ghost use Rattle.ps_step_tokens.specs.Short.{IsShort};
ghost use Rattle.ps_step_tokens.specs.Tokens.{token_asks, token_turn};

use crate::names::{NameKind, do_name};
use crate::numbers::do_number;
use crate::procedures::do_procedure;
use crate::strings::do_string;
use ps_mem::Memory;
use ps_ops_operands::failure::NotMade;
use ps_ops_state::lent::{Attempt, Context, Runtime};
use ps_scan::TokenKind;
use ps_step_execute::operates::Operate;
use ps_step_outcome::turned::Turned;

/// Does a token of a text: a number, a string or a procedure becomes an operand, and a name is done
/// by its kind.
///
/// Raises and is not made as `do_number`, `do_name`, `do_string` and `do_procedure`.
#[inline(always)]
pub fn do_token<O: Operate, M: Memory>(
    kind: &TokenKind,
    text: &[u8],
    context: &mut Context,
    runtime: &mut Runtime<M>,
    attempt: Attempt,
) -> Result<Turned, NotMade>
    requires good { IsGood (lent_of M.heap M.grants context.old runtime.old) }
    requires short { IsShort (token_of text.now kind.now) }
    ensures { Turns (token_asks O.asks (token_of text.now kind.now))
        (token_turn (token_of text.now kind.now)) attempt result
        (lent_of M.heap M.grants context.old runtime.old)
        (lent_of M.heap M.grants context.new runtime.new) }
{
    let (name_kind, span) = match kind {
        TokenKind::LiteralName(span) => (NameKind::Literal, *span),
        TokenKind::ExecutableName(span) => (NameKind::Executable, *span),
        TokenKind::ImmediateName(span) => (NameKind::Immediate, *span),
        TokenKind::Integer(number) => {
            let number = *number;
            return do_number(number, context, runtime, attempt);
        }
        TokenKind::Text(bytes) => return do_string(bytes, context, runtime, attempt),
        TokenKind::Procedure(elements) => {
            return do_procedure(elements, text, context, runtime, attempt);
        }
    };
    let name = span.of(text);
    do_name::<O, M>(name_kind, name, context, runtime, attempt)
}
