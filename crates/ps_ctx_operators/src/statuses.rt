//! What memory shows, and wishes about it (PLRM2, 8 'Operators': Virtual Memory).

ghost use Rattle.std.specs.Prelude.{◌≡◌, ◌&&◌, ℕ, ℤ, pos, negsuc, int_le, List, IfErr, IfOk, Some};
ghost use Rattle.std.specs.Prelude.{map};
ghost use Rattle.ps_mem.specs.Meaning.{value_of};
ghost use Rattle.ps_ops_operands.specs.Does.{Does};
ghost use Rattle.ps_ops_operands.specs.Kept.{AreFrom};
ghost use Rattle.ps_ops_state.specs.Acts.{Acts, nothing_asked};
ghost use Rattle.ps_ops_state.specs.Lent.{lent_of, IsGood};
ghost use Rattle.ps_ctx_operators.specs.Tells.{done};
ghost use Rattle.ps_ctx_operators.specs.Rows as rows;

use ps_language::errors::ErrorName;
use ps_mem::Memory;
use ps_ops_operands::readers::integer_of;
use ps_ops_operands::{Operands, plain};
use ps_ops_state::breaks::{Break, made};
use ps_ops_state::lent::{Attempt, Context, Runtime};
use ps_stacks::OPERAND_LIMIT;

/// Pushes level, words used and words that there are; three zeros where nothing is shown. Raises
/// `stackoverflow`.
#[tactic(auto, using(ps_ops_operands::proofs::Sources::sources))]
fn push_status(operands: &mut Operands, shown: Option<(i32, i32)>) -> Result<(), ErrorName>
    ensures row { Does (rows.vmstatus_part shown) result operands.old operands.new }
    ensures error { IfErr result (λ error. error ≡ ErrorName.StackOverflow) }
    ensures kept { AreFrom operands.old operands.new }
{
    if operands.len() > OPERAND_LIMIT - 3 {
        return Err(ErrorName::StackOverflow);
    }
    let (used, most) = shown.unwrap_or((0, 0));
    operands.push_reserved(plain::integer(0));
    operands.push_reserved(plain::integer(used));
    operands.push_reserved(plain::integer(most));
    Ok(())
}

/// `vmstatus i j k`: level, words used and words that there are; three zeros where the step isn't
/// shown them. Raises `stackoverflow`.
pub fn vm_status<M: Memory>(
    shown: Option<(i32, i32)>,
    context: &mut Context,
    runtime: &mut Runtime<M>,
) -> Result<(), Break>
    requires good { IsGood (lent_of M.heap M.grants context.old runtime.old) }
    ensures heap { M.heap runtime.new.memory ≡ M.heap runtime.old.memory }
    ensures error { IfErr result (λ why. why ≡ Break.Raises ErrorName.StackOverflow) }
    ensures acts { (attempt : Attempt) → Acts nothing_asked (rows.vmstatus_caller shown) attempt
        result
        (lent_of M.heap M.grants context.old runtime.old)
        (lent_of M.heap M.grants context.new runtime.new) }
{
    made(push_status(&mut context.operands, shown))
}

/// Whether a number is a wish about collection.
fn is_wish(number: i32) -> bool
    ensures { result ≡ int_le (negsuc 1) number && int_le number (pos 2) }
{
    number >= -2 && number <= 2
}

/// `i vmreclaim`: the number of the wish, from -2 to 2. Raises `stackunderflow`, `typecheck`, and
/// `rangecheck` for another number.
pub fn vm_reclaim<M: Memory>(context: &mut Context, runtime: &mut Runtime<M>) -> Result<i32, Break>
    requires good { IsGood (lent_of M.heap M.grants context.old runtime.old) }
    ensures acts { (attempt : Attempt) → Acts nothing_asked rows.vmreclaim_caller attempt
        (done result)
        (lent_of M.heap M.grants context.old runtime.old)
        (lent_of M.heap M.grants context.new runtime.new) }
    ensures wish { (births : ℕ → ℕ) (names : List (List ℕ)) → IfOk result (λ number.
        rows.wished (map (value_of births names) context.old.operands) ≡ Some number) }
{
    let Some(top) = context.operands.top() else {
        return Err(Break::Raises(ErrorName::StackUnderflow));
    };
    let Some(number) = integer_of(top) else {
        return Err(Break::Raises(ErrorName::TypeCheck));
    };
    if !is_wish(number) {
        return Err(Break::Raises(ErrorName::RangeCheck));
    }
    context.operands.discard(1);
    Ok(number)
}
