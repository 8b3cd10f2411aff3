//! Operators on composite objects of several types, joined by the type (PLRM2, 8 'Operators': get,
//! put, copy).

ghost use Rattle.std.specs.Prelude.{◌≡◌, ◌<◌};
ghost use Rattle.ps_language.specs.Rows.{changing_row, naming_row};
ghost use Rattle.ps_language.specs.RowsDictionaries.{get_row, put_row};
ghost use Rattle.ps_language.specs.RowsSequences.{copy_row};
ghost use Rattle.ps_ops_state.specs.Acts.{Acts, nothing_asked};
ghost use Rattle.ps_ops_state.specs.Lent.{lent_of, IsGood};
ghost use Rattle.ps_ops.specs.Joins.{copy_asks, put_asks};

use ps_language::errors::ErrorName;
use ps_mem::Memory;
use ps_ops_dictionaries::copies::copy_dictionary;
use ps_ops_dictionaries::definitions::put_into_dictionary;
use ps_ops_dictionaries::finds::get_from_dictionary;
use ps_ops_sequences::copies::copy_sequence;
use ps_ops_sequences::elements::{get_from_sequence, put_into_sequence};
use ps_ops_state::breaks::Break;
use ps_ops_state::lent::{Attempt, Context, Runtime};

/// `X k get y`: the element of an array, the byte of a string, or the value of a key. Raises
/// `stackunderflow`, `typecheck`, `invalidaccess`, `rangecheck`, and `undefined` where a dictionary
/// doesn't have the key.
#[inline(always)]
pub fn get<M: Memory>(context: &mut Context, runtime: &mut Runtime<M>) -> Result<(), Break>
    requires good { IsGood (lent_of M.heap M.grants context.old runtime.old) }
    ensures acts { (attempt : Attempt) → Acts nothing_asked (naming_row get_row) attempt result
        (lent_of M.heap M.grants context.old runtime.old)
        (lent_of M.heap M.grants context.new runtime.new) }
    ensures frames { context.new.frames ≡ context.old.frames }
{
    let Some((key, container)) = context.operands.top_two() else {
        return get_from_sequence(context, runtime);
    };
    match container.as_dictionary() {
        Some(address) => get_from_dictionary(context, runtime, key, container, address),
        None => get_from_sequence(context, runtime),
    }
}

/// `X k y put`: an element of an array, a byte of a string, or the value of a key, whose name is
/// formed. Raises `stackunderflow`, `typecheck`, `invalidaccess`, `rangecheck`, and `limitcheck`
/// and `VMerror` of a dictionary. Not made where the log takes no record, or for want of room or
/// memory.
#[inline(always)]
pub fn put<M: Memory>(
    context: &mut Context,
    runtime: &mut Runtime<M>,
    attempt: Attempt,
) -> Result<(), Break>
    requires good { IsGood (lent_of M.heap M.grants context.old runtime.old) }
    ensures acts { Acts put_asks (naming_row put_row) attempt result
        (lent_of M.heap M.grants context.old runtime.old)
        (lent_of M.heap M.grants context.new runtime.new) }
    ensures frames { context.new.frames ≡ context.old.frames }
{
    let Some(operands) = context.operands.top_three() else {
        return put_into_sequence(context, runtime, attempt);
    };
    match operands.2.as_dictionary() {
        Some(address) => put_into_dictionary(context, runtime, attempt, operands, address),
        None => put_into_sequence(context, runtime, attempt),
    }
}

/// The same by a call, so that what has many operators stays small.
#[inline(never)]
pub fn put_apart<M: Memory>(
    context: &mut Context,
    runtime: &mut Runtime<M>,
    attempt: Attempt,
) -> Result<(), Break>
    requires good { IsGood (lent_of M.heap M.grants context.old runtime.old) }
    ensures acts { Acts put_asks (naming_row put_row) attempt result
        (lent_of M.heap M.grants context.old runtime.old)
        (lent_of M.heap M.grants context.new runtime.new) }
    ensures frames { context.new.frames ≡ context.old.frames }
{
    put(context, runtime, attempt)
}

/// `x1 .. xn n copy x1 .. xn x1 .. xn`, or `X Y copy Z`: what `X` holds into the front of `Y`, two
/// arrays, strings or dictionaries, and that part of `Y`. Raises `stackunderflow`, `typecheck`,
/// `invalidaccess`, `rangecheck`, `limitcheck`, `stackoverflow`, and `VMerror` of a dictionary. Not
/// made where the log takes too few records, or for want of room or memory.
pub fn copy<M: Memory>(
    context: &mut Context,
    runtime: &mut Runtime<M>,
    attempt: Attempt,
) -> Result<(), Break>
    requires good { IsGood (lent_of M.heap M.grants context.old runtime.old) }
    ensures { Acts copy_asks (changing_row copy_row) attempt result
        (lent_of M.heap M.grants context.old runtime.old)
        (lent_of M.heap M.grants context.new runtime.new) }
{
    let Some(target) = context.operands.top() else {
        return copy_sequence(context, runtime, attempt);
    };
    let Some(to) = target.as_dictionary() else {
        return copy_sequence(context, runtime, attempt);
    };
    let Some(source) = context.operands.peek(1) else {
        return Err(Break::Raises(ErrorName::StackUnderflow));
    };
    let Some(from) = source.as_dictionary() else {
        return Err(Break::Raises(ErrorName::TypeCheck));
    };
    copy_dictionary(context, runtime, attempt, (target, source), to, from)
}
