//! Operators on operands alone, those that read the memory beside them, and those that enter a
//! procedure, where they raise no error (PLRM2, 8 'Operators').

ghost use Rattle.std.specs.Prelude.{◌≡◌, IsTrue, true, false, Ok};
ghost use Rattle.ps_language.specs.Rows.{naming_row};
ghost use Rattle.ps_language.specs.RowsDictionaries.{get_row};
ghost use Rattle.ps_word.specs.declared.values.Part.{Part as ThePart};
ghost use Rattle.ps_mem.specs.Shows.{IsReady};
ghost use Rattle.ps_ops_state.specs.declared.lent.Attempt.{Attempt};
ghost use Rattle.ps_ops_state.specs.Acts.{Acts, nothing_asked};
ghost use Rattle.ps_ops_state.specs.Lent.{IsGood, Lent};
ghost use Rattle.ps_step_execute.specs.Values.{over_heap};
ghost use Rattle.ps_ops.specs.Alone.{ActsAlone, ActsIn};

use ps_language::operators::Operator;
use ps_mem::Memory;
use ps_ops_control::ahead::{Ahead, if_ahead, if_else_ahead};
use ps_ops_dictionaries::finds::get_value_quickly;
use ps_ops_operands::{Operands, arithmetic, logic, stack_operators};
use ps_ops_sequences::elements::get_quickly;
use ps_ops_sequences::lengths::length_quickly;
use ps_ops_values::equality::equality_quickly;
use ps_ops_values::orders::{Relation, order_quickly};

/// `copy` of so many operands, where it raises no error. Else nothing has changed, and the answer
/// is no, as it is where an object is copied.
#[inline]
fn copy_quickly(operands: &mut Operands) -> bool
    ensures { ActsAlone Operator.Copy result operands.old operands.new }
{
    let Some(top) = operands.top() else {
        return false;
    };
    if top.as_integer().is_none() {
        return false;
    }
    stack_operators::copy_count(operands).is_ok()
}

/// `X k get y` where it raises no error, but for a string as the key of a dictionary. Else nothing
/// has changed, and the answer is no.
#[inline(always)]
fn get_ahead<M: Memory>(operands: &mut Operands, memory: &mut M) -> bool
    requires ready { IsReady (M.heap memory.old) operands.old }
    ensures heap { M.heap memory.new ≡ M.heap memory.old }
    ensures grants { M.grants memory.new ≡ M.grants memory.old }
    ensures same { result ≡ false → operands.new ≡ operands.old }
    ensures acts { result ≡ true → (l : Lent) (attempt : Attempt)
        → IsGood (record (over_heap (M.heap memory.old) l) { operands = operands.old })
        → Acts nothing_asked (naming_row get_row) attempt (Ok tt)
        (record (over_heap (M.heap memory.old) l) { operands = operands.old })
        (record (over_heap (M.heap memory.old) l) { operands = operands.new }) }
{
    if get_quickly(operands, memory) {
        return true;
    }
    get_value_quickly(operands, memory)
}

/// An operator on operands alone acts, where it raises no error, and so do `get`, `length` of an
/// array or a string, and one that enters a procedure, up to the frame of that, where one may be
/// entered. Else nothing has changed, as by every other operator. The memory stays as it is.
#[tactic(auto, using(crate::proofs::Acted::none_entered))]
#[inline(always)]
pub fn operate_ahead<M: Memory>(
    operator: Operator,
    operands: &mut Operands,
    memory: &mut M,
    may_enter: bool,
) -> Ahead
    requires ready { IsReady (M.heap memory.old) operands.old }
    ensures heap { M.heap memory.new ≡ M.heap memory.old }
    ensures grants { M.grants memory.new ≡ M.grants memory.old }
    ensures acts { ActsIn (over_heap (M.heap memory.old)) operator result operands.old operands.new }
    ensures enters { (body : ThePart) → result ≡ Ahead.Enters body → IsTrue may_enter }
{
    match operator {
        Operator::Pop => Ahead::of(stack_operators::pop(operands).is_ok()),
        Operator::Exch => Ahead::of(stack_operators::exch(operands).is_ok()),
        Operator::Dup => Ahead::of(stack_operators::dup(operands).is_ok()),
        Operator::Copy => Ahead::of(copy_quickly(operands)),
        Operator::Index => Ahead::of(stack_operators::index(operands).is_ok()),
        Operator::Roll => Ahead::of(stack_operators::roll(operands).is_ok()),
        Operator::Clear => Ahead::of(stack_operators::clear(operands).is_ok()),
        Operator::Count => Ahead::of(stack_operators::count(operands).is_ok()),
        Operator::ClearToMark => Ahead::of(stack_operators::cleartomark(operands).is_ok()),
        Operator::CountToMark => Ahead::of(stack_operators::counttomark(operands).is_ok()),
        Operator::Add => Ahead::of(arithmetic::add(operands).is_ok()),
        Operator::Sub => Ahead::of(arithmetic::sub(operands).is_ok()),
        Operator::Mul => Ahead::of(arithmetic::mul(operands).is_ok()),
        Operator::Idiv => Ahead::of(arithmetic::idiv(operands).is_ok()),
        Operator::Mod => Ahead::of(arithmetic::modulo(operands).is_ok()),
        Operator::Neg => Ahead::of(arithmetic::neg(operands).is_ok()),
        Operator::Abs => Ahead::of(arithmetic::abs(operands).is_ok()),
        Operator::Eq => Ahead::of(equality_quickly(operands, true)),
        Operator::Ne => Ahead::of(equality_quickly(operands, false)),
        Operator::Gt => Ahead::of(order_quickly(operands, Relation::Greater)),
        Operator::Ge => Ahead::of(order_quickly(operands, Relation::GreaterOrEqual)),
        Operator::Lt => Ahead::of(order_quickly(operands, Relation::Less)),
        Operator::Le => Ahead::of(order_quickly(operands, Relation::LessOrEqual)),
        Operator::And => Ahead::of(logic::and(operands).is_ok()),
        Operator::Or => Ahead::of(logic::or(operands).is_ok()),
        Operator::Xor => Ahead::of(logic::xor(operands).is_ok()),
        Operator::Not => Ahead::of(logic::not(operands).is_ok()),
        Operator::Bitshift => Ahead::of(arithmetic::bitshift(operands).is_ok()),
        Operator::Mark | Operator::BeginArray | Operator::BeginDict => {
            Ahead::of(stack_operators::mark(operands).is_ok())
        }
        Operator::Get => Ahead::of(get_ahead(operands, memory)),
        Operator::Length => Ahead::of(length_quickly(operands)),
        Operator::If if may_enter => if_ahead(operands),
        Operator::IfElse if may_enter => if_else_ahead(operands),
        _ => Ahead::Left,
    }
}
