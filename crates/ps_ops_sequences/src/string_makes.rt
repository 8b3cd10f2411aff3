//! The operator that makes strings (PLRM2, 8 'Operators': String).

ghost use Rattle.ps_language.specs.RowsSequences as sequences;
ghost use Rattle.ps_mem.specs.Heap.{Heap};
ghost use Rattle.ps_mem.specs.Keeps.{Keeps};
ghost use Rattle.ps_mem.specs.Shows.{IsReady};
ghost use Rattle.ps_ops_operands.specs.Changes.{Makes, KeepsLogs, KeepsLogsWithin};

use ps_language::errors::ErrorName;
use ps_mem::{Memory, Slot};
use ps_ops_operands::Operands;
use ps_ops_operands::failure::Failure;
use ps_ops_operands::integers::count_of;
use ps_ops_operands::permits::granted;
use ps_ops_operands::ranges::SEQUENCE_LIMIT;
use ps_ops_operands::readers::{integer_of, string_word};
use ps_seq::strings::{new_string, words_of_string};

/// `n string S`, of zero bytes. Raises `stackunderflow`, `typecheck`, `rangecheck` where `n` is
/// negative, `limitcheck` over `SEQUENCE_LIMIT`, and `VMerror` in a refused step. Not made where
/// there is no room.
pub fn string<M: Memory>(
    operands: &mut Operands,
    memory: &mut M,
    slot: Slot,
    refused: bool,
) -> Result<(), Failure>
    requires ready { IsReady (M.heap memory.old) operands.old }
    ensures does { Makes sequences.string_row refused result (M.heap memory.old)
        (M.heap memory.new) operands.old operands.new }
    ensures spends { KeepsLogsWithin 0 (M.grants memory.old) (M.grants memory.new) slot }
    ensures ready { IsReady (M.heap memory.new) operands.new }
    ensures keeps { Keeps (M.heap memory.old) (M.heap memory.new) }
    ensures logs { KeepsLogs (M.grants memory.old) (M.grants memory.new) slot }
{
    let Some(top) = operands.top() else {
        return Err(Failure::Error(ErrorName::StackUnderflow));
    };
    let Some(number) = integer_of(top) else {
        return Err(Failure::Error(ErrorName::TypeCheck));
    };
    let Some(count) = count_of(number) else {
        return Err(Failure::Error(ErrorName::RangeCheck));
    };
    if count > SEQUENCE_LIMIT {
        return Err(Failure::Error(ErrorName::LimitCheck));
    }
    if refused {
        return Err(Failure::Error(ErrorName::VmError));
    }
    let length = count as u16;
    if let Err(reason) = granted(memory, 2 + words_of_string(length), 1) {
        return Err(Failure::NotMade(reason));
    }
    let part = new_string(memory, length);
    operands.replace(1, string_word(part, false));
    Ok(())
}
