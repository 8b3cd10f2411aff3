//! The operands of a finished context are handed over (PLRM2, 7.1, 8 'join').

ghost use Rattle.std.specs.Prelude.{◌≡◌, ◌++◌, ℕ, List, map};
ghost use Rattle.ps_mem.specs.Meaning.{value_of};
ghost use Rattle.ps_mem.specs.Shows.{AreValues, AreWithin};
ghost use Rattle.ps_ops_operands.specs.Does.{DoesAs};
ghost use Rattle.ps_ops_operands.specs.Kept.{AreFrom};
ghost use Rattle.ps_ops_operands.specs.Changes.{values_in};
ghost use Rattle.ps_ops_state.specs.Acts.{nothing_asked};
ghost use Rattle.ps_ops_state.specs.Lent.{lent_of, IsGood};
ghost use Rattle.ps_ctx_operators.specs.Tells.{ActsWhere};
ghost use Rattle.ps_ctx_operators.specs.Rows as rows;

use crate::stacks::push_all;
use ps_language::errors::ErrorName;
use ps_mem::Memory;
use ps_ops_operands::readers::integer_of;
use ps_ops_operands::{Operands, plain};
use ps_ops_state::breaks::{Break, made};
use ps_ops_state::lent::{Attempt, Context, Runtime};
use ps_stacks::OPERAND_LIMIT;

/// Puts a mark and these operands in the place of an identifier. Raises `stackunderflow`,
/// `typecheck` and `stackoverflow`.
fn take_operands(operands: &mut Operands, taken: &Operands) -> Result<(), ErrorName>
    ensures row { (births : ℕ → ℕ) (names : List (List ℕ)) → DoesAs result
        (rows.join_part (map (value_of births names) taken.now)
        (map (value_of births names) operands.old)) births names operands.old operands.new }
    ensures kept { AreFrom (taken.now ++ operands.old) operands.new }
{
    let Some(top) = operands.top() else {
        return Err(ErrorName::StackUnderflow);
    };
    let Some(_) = integer_of(top) else {
        return Err(ErrorName::TypeCheck);
    };
    if taken.len() > OPERAND_LIMIT - operands.len() {
        return Err(ErrorName::StackOverflow);
    }
    operands.replace(1, plain::mark());
    push_all(operands, taken.topmost(taken.len()));
    Ok(())
}

/// `i join m x1..xn`, of a finished context that leaves these operands: a mark and all of them take
/// the place of its identifier. Raises `stackunderflow`, `typecheck` and `stackoverflow`.
pub fn join<M: Memory>(
    taken: &Operands,
    context: &mut Context,
    runtime: &mut Runtime<M>,
) -> Result<(), Break>
    requires taken { AreValues (M.heap runtime.old.memory) taken.now }
    requires good { IsGood (lent_of M.heap M.grants context.old runtime.old) }
    // Of each store in which these operands are too.
    ensures acts { (attempt : Attempt)
        → ActsWhere (λ store. AreWithin (M.heap runtime.old.memory) runtime.old.shared.names store
        taken.now)
        nothing_asked (rows.join_caller
        (values_in (M.heap runtime.old.memory) runtime.old.shared.names taken.now))
        attempt result (lent_of M.heap M.grants context.old runtime.old)
        (lent_of M.heap M.grants context.new runtime.new) }
{
    made(take_operands(&mut context.operands, taken))
}
