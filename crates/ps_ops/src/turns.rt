//! A step by an operator (PLRM2, 3.5, 3.10).

ghost use Rattle.std.specs.Prelude.{◌≡◌, ◌<◌, IsTrue};
ghost use Rattle.ps_ops_state.specs.Lent.{lent_of, IsGood};
ghost use Rattle.ps_ops.specs.Operators.{is_done};
ghost use Rattle.ps_ops.specs.Turns.{operator_asks};
ghost use Rattle.ps_step_outcome.specs.Turns.{Turns};
ghost use Rattle.ps_step_execute.specs.Values.{operated_asks, operated_turn};

use crate::dispatch::operate;
use ps_language::operators::Operator;
use ps_mem::Memory;
use ps_ops_operands::failure::NotMade;
use ps_ops_state::breaks::Break;
use ps_ops_state::lent::{Attempt, Context, Runtime};
use ps_step_outcome::breaks::break_off;
use ps_step_outcome::raises::raise_by;
use ps_step_outcome::turned::Turned;

/// A step by an operator: its effect comes about, its unwinding begins, or its error is raised with
/// the operator as the command.
///
/// Not made, with nothing changed: for what the operator asks for, behind its errors; or as
/// `raise` and `break_off`.
#[inline(always)]
pub fn operated<M: Memory>(
    operator: Operator,
    context: &mut Context,
    runtime: &mut Runtime<M>,
    attempt: Attempt,
) -> Result<Turned, NotMade>
    requires done { IsTrue (is_done operator) }
    requires good { IsGood (lent_of M.heap M.grants context.old runtime.old) }
    ensures { Turns (operated_asks operator_asks operator) (operated_turn operator) attempt result
        (lent_of M.heap M.grants context.old runtime.old)
        (lent_of M.heap M.grants context.new runtime.new) }
{
    let same_attempt = attempt;
    let count = runtime.shared.names.len();
    match operate(operator, context, runtime, attempt) {
        Ok(()) => Ok(Turned::Goes),
        Err(Break::Unwinds(cause)) => break_off(cause, context, runtime, same_attempt),
        Err(Break::NotMade(reason)) => Err(reason),
        Err(Break::Raises(error)) => {
            match raise_by(operator, error, context, runtime, same_attempt) {
                Ok(turned) => Ok(turned),
                Err(reason) => {
                    runtime.shared.names.truncate(count);
                    Err(reason)
                }
            }
        }
    }
}
