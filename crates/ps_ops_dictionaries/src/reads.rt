//! The operators that read one dictionary (PLRM2, 8 'Operators': Dictionary).

ghost use Rattle.std.specs.Prelude.{◌≡◌};
ghost use Rattle.ps_language.specs.Rows.{reading_row};
ghost use Rattle.ps_language.specs.RowsDictionaries as rows;
ghost use Rattle.ps_ops_state.specs.Acts.{Acts, nothing_asked};
ghost use Rattle.ps_ops_state.specs.Lent.{lent_of, IsGood};

use ps_dict::dictionaries::{access, capacity};
use ps_language::errors::ErrorName;
use ps_mem::Memory;
use ps_ops_operands::access::is_readable;
use ps_ops_operands::plain;
use ps_ops_state::breaks::Break;
use ps_ops_state::lent::{Attempt, Context, Runtime};

/// `D maxlength n`: how many pairs there is room for. Raises `stackunderflow`, `typecheck` and
/// `invalidaccess`.
pub fn maxlength<M: Memory>(context: &mut Context, runtime: &mut Runtime<M>) -> Result<(), Break>
    requires good { IsGood (lent_of M.heap M.grants context.old runtime.old) }
    ensures acts { (attempt : Attempt)
        → Acts nothing_asked (reading_row rows.maxlength_row) attempt result
        (lent_of M.heap M.grants context.old runtime.old)
        (lent_of M.heap M.grants context.new runtime.new) }
{
    let Some(word) = context.operands.top() else {
        return Err(Break::Raises(ErrorName::StackUnderflow));
    };
    let Some(address) = word.as_dictionary() else {
        return Err(Break::Raises(ErrorName::TypeCheck));
    };
    if !is_readable(access(&mut runtime.memory, address)) {
        return Err(Break::Raises(ErrorName::InvalidAccess));
    }
    let number = capacity(&mut runtime.memory, address) as i32;
    context.operands.replace(1, plain::integer(number));
    Ok(())
}
