//! The operators that read arrays (PLRM2, 8 'Operators': Array).

ghost use Rattle.std.specs.Prelude.{◌≡◌, ◌+◌, ◌<◌, ◌≤◌, ◌++◌, IsErr, length, reverse, slice_range};
ghost use Rattle.ps_language.specs.Limits.{operand_limit};
ghost use Rattle.ps_language.specs.RowsSequences.{aload_row};
ghost use Rattle.ps_mem.specs.Heap.{fields_at};
ghost use Rattle.ps_mem.specs.References.{StandsAs};
ghost use Rattle.ps_mem.specs.Shows.{IsReady};
ghost use Rattle.ps_ops_sequences.specs.ArrayRows as rows;
ghost use Rattle.ps_ops_sequences.specs.ArrayRows.{array_get_row};
ghost use Rattle.ps_ops_operands.specs.Changes.{Observes};

use ps_language::errors::ErrorName;
use ps_language::kinds::Kind;
use ps_mem::Memory;
use ps_ops_operands::Operands;
use ps_ops_operands::access::is_readable;
use ps_ops_operands::integers::count_of;
use ps_ops_operands::plain::push_within;
use ps_ops_operands::ranges::{index_below, interval_within};
use ps_ops_operands::readers::{array_of, integer_of, with_part};
use ps_seq::arrays::{element, interval};
use ps_stacks::OPERAND_LIMIT;
use ps_word::values::Part;

/// `A i get x`. Raises `stackunderflow`, `typecheck` where `A` is no array or `i` no integer,
/// `invalidaccess` and `rangecheck`.
pub fn get<M: Memory>(operands: &mut Operands, memory: &mut M) -> Result<(), ErrorName>
    requires ready { IsReady (M.heap memory.old) operands.old }
    ensures heap { M.heap memory.new ≡ M.heap memory.old }
    ensures grants { M.grants memory.new ≡ M.grants memory.old }
    ensures does { Observes array_get_row result (M.heap memory.old) operands.old operands.new }
    ensures unread { IsErr result → operands.new ≡ operands.old }
    ensures ready { IsReady (M.heap memory.old) operands.new }
{
    let Some((key, array)) = operands.top_two() else {
        return Err(ErrorName::StackUnderflow);
    };
    let Some(part) = array_of(array) else {
        return Err(ErrorName::TypeCheck);
    };
    let Some(number) = integer_of(key) else {
        return Err(ErrorName::TypeCheck);
    };
    if !is_readable(part.access) {
        return Err(ErrorName::InvalidAccess);
    }
    let Some(index) = index_below(number, part.length) else {
        return Err(ErrorName::RangeCheck);
    };
    let found = element(memory, part, index);
    operands.replace(2, found);
    Ok(())
}

/// `A i n getinterval B`: the `n` elements of `A` from `i` on, shared with it. Raises
/// `stackunderflow`, `typecheck`, `invalidaccess` and
/// `rangecheck`.
pub fn getinterval<M: Memory>(operands: &mut Operands, memory: &M) -> Result<(), ErrorName>
    requires ready { IsReady (M.heap memory.now) operands.old }
    ensures does { Observes (λ store. rows.array_getinterval_row) result (M.heap memory.now)
        operands.old operands.new }
    ensures ready { IsReady (M.heap memory.now) operands.new }
{
    let Some((count, place, array)) = operands.top_three() else {
        return Err(ErrorName::StackUnderflow);
    };
    let Some(j) = integer_of(count) else {
        return Err(ErrorName::TypeCheck);
    };
    let Some(i) = integer_of(place) else {
        return Err(ErrorName::TypeCheck);
    };
    let Some(part) = array_of(array) else {
        return Err(ErrorName::TypeCheck);
    };
    if !is_readable(part.access) {
        return Err(ErrorName::InvalidAccess);
    }
    let Some(n) = count_of(j) else {
        return Err(ErrorName::RangeCheck);
    };
    let Some(start) = interval_within(i, n as u32, part.length) else {
        return Err(ErrorName::RangeCheck);
    };
    let found = with_part(array, part, interval(part, start, n as u16));
    operands.replace(3, found);
    Ok(())
}

/// Pushes all elements of a part of an array, in order.
fn push_elements<M: Memory>(operands: &mut Operands, memory: &mut M, part: Part)
    requires stands { StandsAs (M.heap memory.old) Kind.Array part.address
        (part.offset + part.length) }
    requires room { length operands.old + part.length ≤ operand_limit }
    ensures heap { M.heap memory.new ≡ M.heap memory.old }
    ensures grants { M.grants memory.new ≡ M.grants memory.old }
    ensures pushed { operands.new ≡ reverse
        (slice_range (fields_at (M.heap memory.old) part.address) part.offset
        (part.offset + part.length)) ++ operands.old }
{
    for index in 0..part.length {
        let word = memory.load(part.address, part.offset as u32 + index as u32);
        push_within(operands, word);
    }
}

/// `A aload x1 .. xn A`. Raises `stackunderflow`, `typecheck` where `A` is no array,
/// `invalidaccess` and `stackoverflow`.
pub fn aload<M: Memory>(operands: &mut Operands, memory: &mut M) -> Result<(), ErrorName>
    requires ready { IsReady (M.heap memory.old) operands.old }
    ensures heap { M.heap memory.new ≡ M.heap memory.old }
    ensures grants { M.grants memory.new ≡ M.grants memory.old }
    ensures does { Observes aload_row result (M.heap memory.old) operands.old operands.new }
    ensures ready { IsReady (M.heap memory.old) operands.new }
{
    let Some(array) = operands.top() else {
        return Err(ErrorName::StackUnderflow);
    };
    let Some(part) = array_of(array) else {
        return Err(ErrorName::TypeCheck);
    };
    if !is_readable(part.access) {
        return Err(ErrorName::InvalidAccess);
    }
    if operands.len() + part.length as usize > OPERAND_LIMIT {
        return Err(ErrorName::StackOverflow);
    }
    operands.discard(1);
    push_elements(operands, memory, part);
    push_within(operands, array);
    Ok(())
}
