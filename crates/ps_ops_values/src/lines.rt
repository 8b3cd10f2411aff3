//! The operators that print (PLRM2, 8 'Operators': File).

ghost use Rattle.std.specs.Prelude.{◌≡◌};
ghost use Rattle.ps_language.specs.Rows.{printing_row};
ghost use Rattle.ps_language.specs.RowsOutput.{equals_row, equals_equals_row};
ghost use Rattle.ps_ops_state.specs.Acts.{Acts, nothing_asked};
ghost use Rattle.ps_ops_state.specs.Lent.{lent_of, IsGood};
ghost use Rattle.ps_ops_values.specs.Stacks.{stack_row_as};

use ps_language::errors::ErrorName;
use ps_mem::Memory;
use ps_ops_operands::failure::NotMade;
use ps_ops_state::breaks::Break;
use ps_ops_state::lent::{Attempt, Context, Runtime};
use ps_text::lines::Form;
use std::alloc::AllocError;

/// `x =`: the text of the operand and the end of its line. Raises `stackunderflow`. Not made, by
/// `Memory`, where that is more than may be printed, or the output lacks room and its growth is
/// refused.
pub fn equals<M: Memory>(context: &mut Context, runtime: &mut Runtime<M>) -> Result<(), Break>
    requires good { IsGood (lent_of M.heap M.grants context.old runtime.old) }
    ensures acts { (attempt : Attempt) → Acts nothing_asked (printing_row equals_row) attempt result
        (lent_of M.heap M.grants context.old runtime.old)
        (lent_of M.heap M.grants context.new runtime.new) }
{
    let Some(top) = context.operands.top() else {
        return Err(Break::Raises(ErrorName::StackUnderflow));
    };
    let shared = &mut runtime.shared;
    match shared
        .printed
        .print_plain_line(&mut runtime.memory, &shared.names, top)
    {
        Ok(()) => {
            context.operands.discard(1);
            Ok(())
        }
        Err(AllocError) => Err(Break::NotMade(NotMade::Memory)),
    }
}

/// `x ==`: the text of the operand in full and the end of its line. Raises `stackunderflow`. Not
/// made, by `Memory`, where that is more than may be printed, or the output lacks room and a growth
/// is refused.
pub fn equals_equals<M: Memory>(
    context: &mut Context,
    runtime: &mut Runtime<M>,
) -> Result<(), Break>
    requires good { IsGood (lent_of M.heap M.grants context.old runtime.old) }
    ensures acts { (attempt : Attempt) → Acts nothing_asked (printing_row equals_equals_row) attempt
        result (lent_of M.heap M.grants context.old runtime.old)
        (lent_of M.heap M.grants context.new runtime.new) }
{
    let Some(top) = context.operands.top() else {
        return Err(Break::Raises(ErrorName::StackUnderflow));
    };
    let shared = &mut runtime.shared;
    match shared
        .printed
        .print_full_line(&mut runtime.memory, &shared.names, top)
    {
        Ok(()) => {
            context.operands.discard(1);
            Ok(())
        }
        Err(AllocError) => Err(Break::NotMade(NotMade::Memory)),
    }
}

/// `stack` and `pstack`: a line for each operand, from the topmost down; the operands stay. Not
/// made, by `Memory`, where that is more than may be printed, or the output lacks room and a growth
/// is refused.
pub fn show_stack<M: Memory>(
    context: &mut Context,
    runtime: &mut Runtime<M>,
    form: Form,
) -> Result<(), Break>
    requires good { IsGood (lent_of M.heap M.grants context.old runtime.old) }
    ensures acts { (attempt : Attempt) → Acts nothing_asked (printing_row (stack_row_as form))
        attempt
        result (lent_of M.heap M.grants context.old runtime.old)
        (lent_of M.heap M.grants context.new runtime.new) }
{
    let words = context.operands.topmost(context.operands.len());
    let shared = &mut runtime.shared;
    match shared
        .printed
        .print_stack(&mut runtime.memory, &shared.names, words, form)
    {
        Ok(()) => Ok(()),
        Err(AllocError) => Err(Break::NotMade(NotMade::Memory)),
    }
}
