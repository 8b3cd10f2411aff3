//! The operators of the language, for whoever executes values (PLRM2, 8 'Operators').

ghost use Rattle.ps_ops.specs.Few.{operator_few};
ghost use Rattle.ps_ops.specs.Turns.{operator_asks};

use crate::turns::operated;
use crate::{ahead, under};
use ps_language::operators::Operator;
use ps_mem::{Memory, Slot};
use ps_ops_control::ahead::Ahead;
use ps_ops_operands::Operands;
use ps_ops_operands::failure::NotMade;
use ps_ops_state::lent::{Attempt, Context, Runtime};
use ps_step_execute::operates::Operate;
use ps_step_execute::under::Under;
use ps_step_outcome::turned::Turned;
use ps_step_outcome::world_operators::WorldOperator;

/// The operators of the language.
#[derive(Clone, Copy, Debug, PartialEq, Eq)]
pub struct Operators;

impl Operate for Operators {
    ghost asks = { operator_asks };

    /// One on operands alone, one that reads, or one that enters a procedure.
    #[inline(always)]
    fn operate_ahead<M: Memory>(
        operator: Operator,
        operands: &mut Operands,
        memory: &mut M,
        may_enter: bool,
    ) -> Ahead {
        ahead::operate_ahead(operator, operands, memory, may_enter)
    }

    /// One that programs call often.
    #[inline(always)]
    fn operate_under<M: Memory>(
        operator: Operator,
        context: &mut Context,
        runtime: &mut Runtime<M>,
        slot: Slot,
    ) -> Under {
        under::operate_under(operator, context, runtime, slot)
    }

    /// One that is left to the world is handed up; every other one acts.
    #[inline(always)]
    fn operate<M: Memory>(
        operator: Operator,
        context: &mut Context,
        runtime: &mut Runtime<M>,
        attempt: Attempt,
    ) -> Result<Turned, NotMade> {
        if let Some(left) = WorldOperator::of(operator) {
            return Ok(Turned::Calls(left));
        }
        operated(operator, context, runtime, attempt)
    }

    ghost few = { operator_few };
}
