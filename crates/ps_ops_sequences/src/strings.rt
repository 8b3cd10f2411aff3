//! The operators that read strings (PLRM2, 8 'Operators': String).

ghost use Rattle.std.specs.Prelude.{◌≡◌, IsErr};
ghost use Rattle.ps_mem.specs.Shows.{IsReady};
ghost use Rattle.ps_ops_operands.specs.Changes.{Observes};
ghost use Rattle.ps_ops_sequences.specs.StringRows as rows;
ghost use Rattle.ps_ops_sequences.specs.StringRows.{string_get_row};

use ps_language::errors::ErrorName;
use ps_mem::Memory;
use ps_ops_operands::access::is_readable;
use ps_ops_operands::integers::count_of;
use ps_ops_operands::ranges::{index_below, interval_within};
use ps_ops_operands::readers::{integer_of, string_of, with_string_part};
use ps_ops_operands::{Operands, plain};
use ps_seq::arrays::interval;
use ps_seq::strings::byte;

/// `S i get b`: the byte, 0 to 255. Raises `stackunderflow`, `typecheck` where `S` is no string or
/// `i` no integer, `invalidaccess` and `rangecheck`.
#[tactic(auto, using(ps_ops_operands::proofs::Ready::plain_lemmas))]
pub fn get<M: Memory>(operands: &mut Operands, memory: &mut M) -> Result<(), ErrorName>
    requires ready { IsReady (M.heap memory.old) operands.old }
    ensures heap { M.heap memory.new ≡ M.heap memory.old }
    ensures grants { M.grants memory.new ≡ M.grants memory.old }
    ensures does { Observes string_get_row result (M.heap memory.old) operands.old operands.new }
    ensures unread { IsErr result → operands.new ≡ operands.old }
    ensures ready { IsReady (M.heap memory.old) operands.new }
{
    let Some((key, string)) = operands.top_two() else {
        return Err(ErrorName::StackUnderflow);
    };
    let Some(part) = string_of(string) else {
        return Err(ErrorName::TypeCheck);
    };
    let Some(number) = integer_of(key) else {
        return Err(ErrorName::TypeCheck);
    };
    if !is_readable(part.access) {
        return Err(ErrorName::InvalidAccess);
    }
    let Some(index) = index_below(number, part.length) else {
        return Err(ErrorName::RangeCheck);
    };
    let found = byte(memory, part, index);
    operands.replace(2, plain::integer(i32::from(found)));
    Ok(())
}

/// `S i n getinterval T`: the `n` bytes of `S` from `i` on, shared with it. Raises
/// `stackunderflow`, `typecheck`, `invalidaccess` and `rangecheck`.
pub fn getinterval<M: Memory>(operands: &mut Operands, memory: &M) -> Result<(), ErrorName>
    requires ready { IsReady (M.heap memory.now) operands.old }
    ensures does { Observes (λ store. rows.string_getinterval_row) result
        (M.heap memory.now) operands.old operands.new }
    ensures ready { IsReady (M.heap memory.now) operands.new }
{
    let Some((count, place, string)) = operands.top_three() else {
        return Err(ErrorName::StackUnderflow);
    };
    let Some(j) = integer_of(count) else {
        return Err(ErrorName::TypeCheck);
    };
    let Some(i) = integer_of(place) else {
        return Err(ErrorName::TypeCheck);
    };
    let Some(part) = string_of(string) else {
        return Err(ErrorName::TypeCheck);
    };
    if !is_readable(part.access) {
        return Err(ErrorName::InvalidAccess);
    }
    let Some(n) = count_of(j) else {
        return Err(ErrorName::RangeCheck);
    };
    let Some(start) = interval_within(i, n as u32, part.length) else {
        return Err(ErrorName::RangeCheck);
    };
    let found = with_string_part(string, part, interval(part, start, n as u16));
    operands.replace(3, found);
    Ok(())
}
