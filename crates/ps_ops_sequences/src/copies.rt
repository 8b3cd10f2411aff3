//! The operators that copy (PLRM2, 8 'putinterval', 'copy').

ghost use Rattle.std.specs.Prelude.{◌≡◌, ◌<◌, false};
ghost use Rattle.ps_language.specs.Rows.{changing_row};
ghost use Rattle.ps_language.specs.RowsSequences.{copy_row, putinterval_row};
ghost use Rattle.ps_ops_state.specs.Acts.{Acts};
ghost use Rattle.ps_ops_state.specs.Lent.{lent_of, IsGood};
ghost use Rattle.ps_ops_sequences.specs.Asks.{copy_asks, putinterval_asks};
ghost use Rattle.ps_ops_sequences.specs.Kinds as kinds;

use crate::pairs::{copy_contents, front_of, pair_of};
use ps_language::errors::ErrorName;
use ps_mem::Memory;
use ps_ops_operands::access::may_copy;
use ps_ops_operands::ranges::interval_within;
use ps_ops_operands::readers::integer_of;
use ps_ops_operands::stack_operators::copy_count;
use ps_ops_state::breaks::{Break, made};
use ps_ops_state::lent::{Attempt, Context, Runtime};

/// `X i Y putinterval`: what `Y` holds into `X` from `i` on, two arrays or two strings, as if all
/// was read first. Raises `stackunderflow`, `typecheck`, `invalidaccess` and `rangecheck`. Not made
/// where something is copied and the log takes no record, or a list for bytes can't grow.
pub fn putinterval<M: Memory>(
    context: &mut Context,
    runtime: &mut Runtime<M>,
    attempt: Attempt,
) -> Result<(), Break>
    requires good { IsGood (lent_of M.heap M.grants context.old runtime.old) }
    ensures acts { Acts putinterval_asks (changing_row putinterval_row) attempt result
        (lent_of M.heap M.grants context.old runtime.old)
        (lent_of M.heap M.grants context.new runtime.new) }
    ensures frames { context.new.frames ≡ context.old.frames }
{
    let Some((source, key, target)) = context.operands.top_three() else {
        return Err(Break::Raises(ErrorName::StackUnderflow));
    };
    let Some(number) = integer_of(key) else {
        return Err(Break::Raises(ErrorName::TypeCheck));
    };
    let Some(pair) = pair_of(source, target) else {
        return Err(Break::Raises(ErrorName::TypeCheck));
    };
    if !may_copy(pair.from.access, pair.to.access) {
        return Err(Break::Raises(ErrorName::InvalidAccess));
    }
    let Some(place) = interval_within(number, pair.from.length as u32, pair.to.length) else {
        return Err(Break::Raises(ErrorName::RangeCheck));
    };
    let scratch = &mut runtime.shared.scratch;
    if let Err(reason) = copy_contents(&mut runtime.memory, attempt.slot, pair, place, scratch) {
        return Err(Break::NotMade(reason));
    }
    context.operands.discard(3);
    Ok(())
}

/// `x1 .. xn n copy x1 .. xn x1 .. xn`, or `X Y copy Z` but for dictionaries: what `X` holds into
/// the front of `Y`, two arrays or two strings, and that part of `Y`. Raises `stackunderflow`,
/// `typecheck`, `rangecheck`, `stackoverflow` and `invalidaccess`. Not made as `putinterval`.
pub fn copy_sequence<M: Memory>(
    context: &mut Context,
    runtime: &mut Runtime<M>,
    attempt: Attempt,
) -> Result<(), Break>
    requires topmost { kinds.is_dictionary_at context.old.operands 0 ≡ false }
    requires good { IsGood (lent_of M.heap M.grants context.old runtime.old) }
    ensures { Acts copy_asks (changing_row copy_row) attempt result
        (lent_of M.heap M.grants context.old runtime.old)
        (lent_of M.heap M.grants context.new runtime.new) }
{
    let Some(target) = context.operands.top() else {
        return Err(Break::Raises(ErrorName::StackUnderflow));
    };
    if target.as_integer().is_some() {
        return made(copy_count(&mut context.operands));
    }
    let Some(_) = target.as_part() else {
        return Err(Break::Raises(ErrorName::TypeCheck));
    };
    let Some(source) = context.operands.peek(1) else {
        return Err(Break::Raises(ErrorName::StackUnderflow));
    };
    let Some(pair) = pair_of(source, target) else {
        return Err(Break::Raises(ErrorName::TypeCheck));
    };
    if !may_copy(pair.from.access, pair.to.access) {
        return Err(Break::Raises(ErrorName::InvalidAccess));
    }
    if pair.from.length > pair.to.length {
        return Err(Break::Raises(ErrorName::RangeCheck));
    }
    let scratch = &mut runtime.shared.scratch;
    if let Err(reason) = copy_contents(&mut runtime.memory, attempt.slot, pair, 0, scratch) {
        return Err(Break::NotMade(reason));
    }
    context.operands.replace(2, front_of(target, pair));
    Ok(())
}
