//! Single elements of arrays and strings, and all elements of an array (PLRM2, 8 'Operators':
//! Array, String).

ghost use Rattle.std.specs.Prelude.{◌≡◌, ◌<◌, true, false, Ok};
ghost use Rattle.ps_ops_sequences.specs.ArrayRows.{one_stored, topmost_count};
ghost use Rattle.ps_language.specs.Rows.{changing_row, naming_row};
ghost use Rattle.ps_language.specs.RowsDictionaries.{get_row, put_row};
ghost use Rattle.ps_language.specs.RowsSequences as sequences;
ghost use Rattle.ps_ops_state.specs.Acts.{Acts, nothing_asked, stores};
ghost use Rattle.ps_mem.specs.Shows.{IsReady};
ghost use Rattle.ps_ops_state.specs.Lent.{lent_of, IsGood, Lent};
ghost use Rattle.ps_ops_sequences.specs.Kinds as kinds;

use crate::kinds::is_string_at;
use crate::{array_changes, arrays, string_changes, strings};
use ps_mem::Memory;
use ps_ops_operands::Operands;
use ps_ops_state::breaks::{Break, made, tried};
use ps_ops_state::lent::{Attempt, Context, Runtime};

/// `X i get y` but for dictionaries: the element of an array, or the byte of a string. Raises
/// `stackunderflow`, `typecheck`, `invalidaccess` and `rangecheck`.
#[inline(always)]
pub fn get_from_sequence<M: Memory>(
    context: &mut Context,
    runtime: &mut Runtime<M>,
) -> Result<(), Break>
    requires below { kinds.is_dictionary_at context.old.operands 1 ≡ false }
    requires good { IsGood (lent_of M.heap M.grants context.old runtime.old) }
    ensures acts { (attempt : Attempt) → Acts nothing_asked (naming_row get_row) attempt result
        (lent_of M.heap M.grants context.old runtime.old)
        (lent_of M.heap M.grants context.new runtime.new) }
    ensures frames { context.new.frames ≡ context.old.frames }
{
    if is_string_at(&context.operands, 1) {
        made(strings::get(&mut context.operands, &mut runtime.memory))
    } else {
        made(arrays::get(&mut context.operands, &mut runtime.memory))
    }
}

/// `X i get y` of an array or a string, where it raises no error. Else nothing has changed, and the
/// answer is no.
#[inline(never)]
pub fn get_quickly<M: Memory>(operands: &mut Operands, memory: &mut M) -> bool
    requires ready { IsReady (M.heap memory.old) operands.old }
    ensures heap { M.heap memory.new ≡ M.heap memory.old }
    ensures grants { M.grants memory.new ≡ M.grants memory.old }
    ensures same { result ≡ false → operands.new ≡ operands.old }
    ensures acts { result ≡ true → (l : Lent) (attempt : Attempt)
        → IsGood (record l { heap = M.heap memory.old; operands = operands.old })
        → Acts nothing_asked (naming_row get_row) attempt (Ok tt)
        (record l { heap = M.heap memory.old; operands = operands.old })
        (record l { heap = M.heap memory.old; operands = operands.new }) }
{
    let Some(container) = operands.peek(1) else {
        return false;
    };
    if container.as_array().is_some() {
        return arrays::get(operands, memory).is_ok();
    }
    if container.as_text().is_some() {
        return strings::get(operands, memory).is_ok();
    }
    false
}

/// `X i y put` but for dictionaries: an element of an array, or a byte, 0 to 255, of a string.
/// Raises `stackunderflow`, `typecheck`, `invalidaccess` and `rangecheck`. Not made where the log
/// takes no record.
#[inline(always)]
pub fn put_into_sequence<M: Memory>(
    context: &mut Context,
    runtime: &mut Runtime<M>,
    attempt: Attempt,
) -> Result<(), Break>
    requires below { kinds.is_dictionary_at context.old.operands 2 ≡ false }
    requires good { IsGood (lent_of M.heap M.grants context.old runtime.old) }
    ensures acts { Acts (stores one_stored) (naming_row put_row) attempt result
        (lent_of M.heap M.grants context.old runtime.old)
        (lent_of M.heap M.grants context.new runtime.new) }
    ensures frames { context.new.frames ≡ context.old.frames }
{
    if is_string_at(&context.operands, 2) {
        tried(string_changes::put(&mut context.operands, &mut runtime.memory, attempt.slot))
    } else {
        tried(array_changes::put(&mut context.operands, &mut runtime.memory, attempt.slot))
    }
}

/// `x1 .. xn A astore A`. Raises `stackunderflow`, `typecheck` where `A` is no array, and
/// `invalidaccess`. Not made where an element is stored and the log takes no record.
pub fn astore<M: Memory>(
    context: &mut Context,
    runtime: &mut Runtime<M>,
    attempt: Attempt,
) -> Result<(), Break>
    requires good { IsGood (lent_of M.heap M.grants context.old runtime.old) }
    ensures acts { Acts (stores topmost_count) (changing_row sequences.astore_row) attempt result
        (lent_of M.heap M.grants context.old runtime.old)
        (lent_of M.heap M.grants context.new runtime.new) }
    ensures frames { context.new.frames ≡ context.old.frames }
{
    tried(array_changes::astore(&mut context.operands, &mut runtime.memory, attempt.slot))
}
