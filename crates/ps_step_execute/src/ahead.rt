//! A value is treated by operands and frames alone, up to the frame of the procedure that it enters
//! (PLRM2, 3.5).

ghost use Rattle.std.specs.Prelude.{◌≡◌, ◌∷◌, [], IsTrue};
ghost use Rattle.ps_word.specs.declared.words.Word.{Word as TheWord};
ghost use Rattle.ps_word.specs.declared.values.Part.{Part as ThePart};
ghost use Rattle.ps_word.specs.Format.{IsWord};
ghost use Rattle.ps_mem.specs.Shows.{IsReady};
ghost use Rattle.ps_step_execute.specs.Values.{EntersIn, over_heap, treated_asks, treated_turn};

use crate::operates::Operate;
use crate::pushes::push_quickly;
use ps_mem::Memory;
use ps_ops_control::ahead::{Ahead, enter_ahead};
use ps_ops_operands::Operands;
use ps_word::words::Word;

/// Treats a value by operands and frames alone, where that raises no error: a literal one becomes
/// an operand, a procedure is entered where one may be, up to its frame, and an operator acts
/// ahead. Else nothing has changed. The memory stays as it is.
#[inline(always)]
pub fn treat_ahead<O: Operate, M: Memory>(
    value: Word,
    operands: &mut Operands,
    memory: &mut M,
    may_enter: bool,
) -> Ahead
    requires word { IsWord value.0 }
    requires ready { IsReady (M.heap memory.old) operands.old }
    ensures heap { M.heap memory.new ≡ M.heap memory.old }
    ensures grants { M.grants memory.new ≡ M.grants memory.old }
    ensures comes { (command : TheWord) → EntersIn (over_heap (M.heap memory.old))
        (value ∷ command ∷ []) (treated_asks O.asks value) (treated_turn command value) result
        operands.old operands.new }
    ensures enters { (body : ThePart) → result ≡ Ahead.Enters body → IsTrue may_enter }
{
    if !value.is_executable() {
        return Ahead::of(push_quickly(value, operands));
    }
    if let Some(operator) = value.executable_operator() {
        return O::operate_ahead(operator, operands, memory, may_enter);
    }
    match value.as_enterable() {
        Some(part) if may_enter => enter_ahead(part),
        _ => Ahead::Left,
    }
}
