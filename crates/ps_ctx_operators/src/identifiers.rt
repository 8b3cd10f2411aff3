//! Contexts by their identifiers (PLRM2, 8 'Operators': Multiple Execution Contexts).

ghost use Rattle.std.specs.Prelude.{◌≡◌, ◌<◌, ◌≤◌, ◌^◌, ℕ, List};
ghost use Rattle.ps_language.specs.Contexts as language;
ghost use Rattle.ps_ops_operands.specs.Does.{Does, Reads};
ghost use Rattle.ps_ops_operands.specs.Kept.{AreFrom};
ghost use Rattle.ps_ops_state.specs.Acts.{Acts, nothing_asked};
ghost use Rattle.ps_ops_state.specs.Lent.{lent_of, IsGood};
ghost use Rattle.ps_ctx_operators.specs.Rows as rows;

use ps_language::errors::ErrorName;
use ps_mem::Memory;
use ps_ops_operands::readers::integer_of;
use ps_ops_operands::stack_operators::push;
use ps_ops_operands::{Operands, plain};
use ps_ops_state::breaks::{Break, made};
use ps_ops_state::lent::{Attempt, Context, Runtime};

/// Pushes an identifier.
#[tactic(auto, using(ps_ops_operands::proofs::Sources::sources))]
fn push_identifier(operands: &mut Operands, caller: u32) -> Result<(), ErrorName>
    requires caller { caller < 2 ^ 31 }
    ensures row { Does (rows.currentcontext_part caller) result operands.old operands.new }
    ensures kept { AreFrom operands.old operands.new }
{
    push(operands, plain::integer(caller as i32))
}

/// `currentcontext i`: the identifier of the caller. Raises `stackoverflow`.
pub fn current_context<M: Memory>(
    caller: u32,
    context: &mut Context,
    runtime: &mut Runtime<M>,
) -> Result<(), Break>
    requires caller { caller < 2 ^ 31 }
    requires good { IsGood (lent_of M.heap M.grants context.old runtime.old) }
    ensures acts { (attempt : Attempt)
        → Acts nothing_asked (rows.currentcontext_caller caller) attempt result
        (lent_of M.heap M.grants context.old runtime.old)
        (lent_of M.heap M.grants context.new runtime.new) }
{
    made(push_identifier(&mut context.operands, caller))
}

/// The identifier that an integer is; a negative number is no context's, as 0 is.
pub(crate) fn identifier_of(number: i32) -> u32
    ensures value { result ≡ language.identifier_of number }
    ensures within { result < 2 ^ 31 }
{
    u32::try_from(number).unwrap_or(0)
}

/// The identifier on top, for `join` and `detach`: 0, which no context has, where the number is
/// negative. Raises `stackunderflow` and `typecheck`.
pub fn context_operand(operands: &Operands) -> Result<u32, ErrorName>
    ensures { Reads rows.identifier_operand result operands.now }
{
    let Some(top) = operands.top() else {
        return Err(ErrorName::StackUnderflow);
    };
    let Some(number) = integer_of(top) else {
        return Err(ErrorName::TypeCheck);
    };
    Ok(identifier_of(number))
}

/// Takes an identifier off. Raises `stackunderflow` and `typecheck`.
#[tactic(auto, using(ps_ops_operands::proofs::Sources::sources))]
fn take_identifier(operands: &mut Operands) -> Result<(), ErrorName>
    ensures row { Does rows.detach_part result operands.old operands.new }
    ensures kept { AreFrom operands.old operands.new }
{
    let Some(top) = operands.top() else {
        return Err(ErrorName::StackUnderflow);
    };
    let Some(_) = integer_of(top) else {
        return Err(ErrorName::TypeCheck);
    };
    operands.discard(1);
    Ok(())
}

/// `i detach`, of a context that there is: its identifier is taken off. Raises `stackunderflow` and
/// `typecheck`.
pub fn detach<M: Memory>(context: &mut Context, runtime: &mut Runtime<M>) -> Result<(), Break>
    requires good { IsGood (lent_of M.heap M.grants context.old runtime.old) }
    ensures acts { (attempt : Attempt) → Acts nothing_asked rows.detach_caller attempt result
        (lent_of M.heap M.grants context.old runtime.old)
        (lent_of M.heap M.grants context.new runtime.new) }
{
    made(take_identifier(&mut context.operands))
}
