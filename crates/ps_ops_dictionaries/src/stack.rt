//! The operators on the dictionary stack (PLRM2, 8 'Operators': Dictionary).

ghost use Rattle.std.specs.Prelude.{◌≡◌, ◌<◌, ◌∷◌, length};
ghost use Rattle.ps_language.specs.Rows.{stacking_row};
ghost use Rattle.ps_language.specs.RowsDictionaries as rows;
ghost use Rattle.ps_ops_state.specs.Acts.{Acts, nothing_asked};
ghost use Rattle.ps_ops_state.specs.Lent.{lent_of, IsGood};

use ps_dict::dictionaries::access;
use ps_language::errors::ErrorName;
use ps_mem::Memory;
use ps_ops_operands::access::is_readable;
use ps_ops_operands::plain::integer;
use ps_ops_operands::stack_operators::push;
use ps_ops_state::breaks::{Break, made};
use ps_ops_state::lent::{Attempt, Context, Dictionaries, Runtime};
use ps_word::words::Word;

/// Pushes a dictionary for which there is room.
fn push_within(dictionaries: &mut Dictionaries, word: Word)
    requires { length dictionaries.old < 20 }
    ensures { dictionaries.new ≡ word ∷ dictionaries.old }
{
    let _ = dictionaries.push(word);
}

/// `D begin`. Raises `stackunderflow`, `typecheck`, `invalidaccess` and `dictstackoverflow`.
pub fn begin<M: Memory>(context: &mut Context, runtime: &mut Runtime<M>) -> Result<(), Break>
    requires good { IsGood (lent_of M.heap M.grants context.old runtime.old) }
    ensures acts { (attempt : Attempt) → Acts nothing_asked (stacking_row rows.begin_row) attempt
        result
        (lent_of M.heap M.grants context.old runtime.old)
        (lent_of M.heap M.grants context.new runtime.new) }
    ensures frames { context.new.frames ≡ context.old.frames }
{
    let Some(word) = context.operands.top() else {
        return Err(Break::Raises(ErrorName::StackUnderflow));
    };
    let Some(address) = word.as_dictionary() else {
        return Err(Break::Raises(ErrorName::TypeCheck));
    };
    if !is_readable(access(&mut runtime.memory, address)) {
        return Err(Break::Raises(ErrorName::InvalidAccess));
    }
    if context.dictionaries.is_full() {
        return Err(Break::Raises(ErrorName::DictStackOverflow));
    }
    push_within(&mut context.dictionaries, word);
    context.operands.discard(1);
    Ok(())
}

/// `end`. Raises `dictstackunderflow` where no more than the two lowest stand.
pub fn end<M: Memory>(context: &mut Context, runtime: &mut Runtime<M>) -> Result<(), Break>
    requires good { IsGood (lent_of M.heap M.grants context.old runtime.old) }
    ensures acts { (attempt : Attempt) → Acts nothing_asked (stacking_row rows.end_row) attempt
        result
        (lent_of M.heap M.grants context.old runtime.old)
        (lent_of M.heap M.grants context.new runtime.new) }
    ensures frames { context.new.frames ≡ context.old.frames }
{
    if context.dictionaries.len() <= 2 {
        return Err(Break::Raises(ErrorName::DictStackUnderflow));
    }
    context.dictionaries.discard(1);
    Ok(())
}

/// `cleardictstack`: all but the two lowest are taken off.
pub fn cleardictstack<M: Memory>(
    context: &mut Context,
    runtime: &mut Runtime<M>,
) -> Result<(), Break>
    requires good { IsGood (lent_of M.heap M.grants context.old runtime.old) }
    ensures acts { (attempt : Attempt) → Acts nothing_asked (stacking_row rows.cleardictstack_row)
        attempt
        result (lent_of M.heap M.grants context.old runtime.old)
        (lent_of M.heap M.grants context.new runtime.new) }
{
    let above = context.dictionaries.len().saturating_sub(2);
    context.dictionaries.discard(above);
    Ok(())
}

/// `currentdict D`: the topmost dictionary. Raises `stackoverflow`.
pub fn currentdict<M: Memory>(context: &mut Context, runtime: &mut Runtime<M>) -> Result<(), Break>
    requires good { IsGood (lent_of M.heap M.grants context.old runtime.old) }
    ensures acts { (attempt : Attempt) → Acts nothing_asked (stacking_row rows.currentdict_row)
        attempt
        result (lent_of M.heap M.grants context.old runtime.old)
        (lent_of M.heap M.grants context.new runtime.new) }
    ensures frames { context.new.frames ≡ context.old.frames }
{
    let Some(word) = context.dictionaries.top() else {
        return Err(Break::Raises(ErrorName::DictStackUnderflow));
    };
    made(push(&mut context.operands, word))
}

/// `countdictstack n`: how many dictionaries stand on the stack. Raises `stackoverflow`.
pub fn countdictstack<M: Memory>(
    context: &mut Context,
    runtime: &mut Runtime<M>,
) -> Result<(), Break>
    requires good { IsGood (lent_of M.heap M.grants context.old runtime.old) }
    ensures acts { (attempt : Attempt) → Acts nothing_asked (stacking_row rows.countdictstack_row)
        attempt
        result (lent_of M.heap M.grants context.old runtime.old)
        (lent_of M.heap M.grants context.new runtime.new) }
{
    let count = context.dictionaries.len() as i32;
    made(push(&mut context.operands, integer(count)))
}
