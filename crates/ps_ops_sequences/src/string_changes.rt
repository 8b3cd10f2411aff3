//! The operators that change strings (PLRM2, 8 'Operators': String).

ghost use Rattle.std.specs.Prelude.{◌≡◌, ◌<◌};
ghost use Rattle.ps_ops_sequences.specs.ArrayRows.{one_stored};
ghost use Rattle.ps_mem.specs.Heap.{Heap};
ghost use Rattle.ps_mem.specs.Keeps.{Keeps};
ghost use Rattle.ps_mem.specs.Shows.{IsReady};
ghost use Rattle.ps_ops_operands.specs.Changes.{Changes, KeepsLogs, KeepsLogsWithin, spent};
ghost use Rattle.ps_ops_sequences.specs.StringRows as rows;

use ps_language::errors::ErrorName;
use ps_mem::{Memory, Slot};
use ps_ops_operands::Operands;
use ps_ops_operands::access::is_writable;
use ps_ops_operands::failure::Failure;
use ps_ops_operands::permits::permitted;
use ps_ops_operands::ranges::index_below;
use ps_ops_operands::readers::{integer_of, string_of};
use ps_seq::strings::set_byte;

/// How many values a byte has.
const BYTE_VALUES: u16 = 256;

/// `S i b put`. Raises `stackunderflow`, `typecheck` where `S` is no string or `i` or `b` no
/// integer, `invalidaccess`, and `rangecheck` where `i` is no index of `S` or `b` isn't from 0 to
/// 255. Not made where the log of the slot takes no record.
pub fn put<M: Memory>(operands: &mut Operands, memory: &mut M, slot: Slot) -> Result<(), Failure>
    requires ready { IsReady (M.heap memory.old) operands.old }
    ensures does { Changes rows.string_put_row one_stored result slot (M.grants memory.old)
        (M.grants memory.new) (M.heap memory.old) (M.heap memory.new) operands.old operands.new }
    ensures spends { KeepsLogsWithin (spent result 1) (M.grants memory.old) (M.grants memory.new)
        slot }
    ensures ready { IsReady (M.heap memory.new) operands.new }
    ensures keeps { Keeps (M.heap memory.old) (M.heap memory.new) }
    ensures logs { KeepsLogs (M.grants memory.old) (M.grants memory.new) slot }
{
    let Some((value, key, string)) = operands.top_three() else {
        return Err(Failure::Error(ErrorName::StackUnderflow));
    };
    let Some(part) = string_of(string) else {
        return Err(Failure::Error(ErrorName::TypeCheck));
    };
    let Some(code) = integer_of(value) else {
        return Err(Failure::Error(ErrorName::TypeCheck));
    };
    let Some(number) = integer_of(key) else {
        return Err(Failure::Error(ErrorName::TypeCheck));
    };
    if !is_writable(part.access) {
        return Err(Failure::Error(ErrorName::InvalidAccess));
    }
    let Some(index) = index_below(number, part.length) else {
        return Err(Failure::Error(ErrorName::RangeCheck));
    };
    let Some(byte) = index_below(code, BYTE_VALUES) else {
        return Err(Failure::Error(ErrorName::RangeCheck));
    };
    if let Err(reason) = permitted(memory, slot, 1) {
        return Err(Failure::NotMade(reason));
    }
    set_byte(memory, slot, part, index, byte as u8);
    operands.discard(3);
    Ok(())
}
