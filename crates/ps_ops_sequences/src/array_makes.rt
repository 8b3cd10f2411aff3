//! The operators that make arrays (PLRM2, 8 'Operators': Array).

ghost use Rattle.ps_language.specs.RowsSequences as sequences;
ghost use Rattle.ps_language.specs.RowsSequences.{end_array_row};
ghost use Rattle.ps_mem.specs.Keeps.{Keeps};
ghost use Rattle.ps_mem.specs.Shows.{IsReady};
ghost use Rattle.ps_ops_operands.specs.Changes.{Makes, KeepsLogs, KeepsLogsWithin};

use ps_language::errors::ErrorName;
use ps_mem::{Memory, Slot};
use ps_ops_operands::Operands;
use ps_ops_operands::failure::{Failure, NotMade};
use ps_ops_operands::integers::count_of;
use ps_ops_operands::permits::granted;
use ps_ops_operands::ranges::SEQUENCE_LIMIT;
use ps_ops_operands::readers::{array_word, integer_of};
use ps_ops_operands::stack_operators::mark_depth;
use ps_seq::arrays::{make_array, new_array};

/// `n array A`, of nulls. Raises `stackunderflow`, `typecheck`, `rangecheck` where `n` is negative,
/// `limitcheck` over `SEQUENCE_LIMIT`, and `VMerror` in a refused step. Not made where there is no
/// room.
pub fn array<M: Memory>(
    operands: &mut Operands,
    memory: &mut M,
    slot: Slot,
    refused: bool,
) -> Result<(), Failure>
    requires ready { IsReady (M.heap memory.old) operands.old }
    ensures does { Makes sequences.array_row refused result (M.heap memory.old) (M.heap memory.new)
        operands.old operands.new }
    ensures spends { KeepsLogsWithin 0 (M.grants memory.old) (M.grants memory.new) slot }
    ensures ready { IsReady (M.heap memory.new) operands.new }
    ensures keeps { Keeps (M.heap memory.old) (M.heap memory.new) }
    ensures logs { KeepsLogs (M.grants memory.old) (M.grants memory.new) slot }
{
    let Some(top) = operands.top() else {
        return Err(Failure::Error(ErrorName::StackUnderflow));
    };
    let Some(number) = integer_of(top) else {
        return Err(Failure::Error(ErrorName::TypeCheck));
    };
    let Some(count) = count_of(number) else {
        return Err(Failure::Error(ErrorName::RangeCheck));
    };
    if count > SEQUENCE_LIMIT {
        return Err(Failure::Error(ErrorName::LimitCheck));
    }
    if refused {
        return Err(Failure::Error(ErrorName::VmError));
    }
    if let Err(reason) = granted(memory, 2 + count as u32, 1) {
        return Err(Failure::NotMade(reason));
    }
    let part = new_array(memory, count as u16);
    operands.replace(1, array_word(part, false));
    Ok(())
}

/// `mark x1 .. xn ]`: an array of what stands above the mark. Raises `unmatchedmark`, and `VMerror`
/// in a refused step. Not made where there is no room.
pub fn end_array<M: Memory>(
    operands: &mut Operands,
    memory: &mut M,
    slot: Slot,
    refused: bool,
) -> Result<(), Failure>
    requires ready { IsReady (M.heap memory.old) operands.old }
    ensures does { Makes end_array_row refused result (M.heap memory.old) (M.heap memory.new)
        operands.old operands.new }
    ensures spends { KeepsLogsWithin 0 (M.grants memory.old) (M.grants memory.new) slot }
    ensures ready { IsReady (M.heap memory.new) operands.new }
    ensures keeps { Keeps (M.heap memory.old) (M.heap memory.new) }
    ensures logs { KeepsLogs (M.grants memory.old) (M.grants memory.new) slot }
{
    let Some(depth) = mark_depth(operands) else {
        return Err(Failure::Error(ErrorName::UnmatchedMark));
    };
    if refused {
        return Err(Failure::Error(ErrorName::VmError));
    }
    if let Err(reason) = granted(memory, 2 + depth as u32, 1) {
        return Err(Failure::NotMade(reason));
    }
    let part = make_array(memory, operands.topmost(depth));
    operands.replace(depth + 1, array_word(part, false));
    Ok(())
}
