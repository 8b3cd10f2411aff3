//! The bytes of a string as output (PLRM2, 8 'Operators': File).

ghost use Rattle.std.specs.Prelude.{◌≡◌};
ghost use Rattle.ps_language.specs.Rows.{printing_row};
ghost use Rattle.ps_language.specs.RowsOutput.{print_row};
ghost use Rattle.ps_ops_state.specs.Acts.{Acts, nothing_asked};
ghost use Rattle.ps_ops_state.specs.Lent.{lent_of, IsGood};

use ps_language::errors::ErrorName;
use ps_mem::Memory;
use ps_ops_operands::access::is_readable;
use ps_ops_operands::failure::NotMade;
use ps_ops_operands::readers::string_of;
use ps_ops_state::breaks::Break;
use ps_ops_state::lent::{Attempt, Context, Runtime};
use std::alloc::AllocError;

/// `S print`: its bytes. Raises `stackunderflow`, `typecheck` and `invalidaccess`. Not made, by
/// `Memory`, where that is more than may be printed, or the output lacks room and its growth is
/// refused.
pub fn print<M: Memory>(context: &mut Context, runtime: &mut Runtime<M>) -> Result<(), Break>
    requires good { IsGood (lent_of M.heap M.grants context.old runtime.old) }
    ensures acts { (attempt : Attempt) → Acts nothing_asked (printing_row print_row) attempt result
        (lent_of M.heap M.grants context.old runtime.old)
        (lent_of M.heap M.grants context.new runtime.new) }
{
    let Some(top) = context.operands.top() else {
        return Err(Break::Raises(ErrorName::StackUnderflow));
    };
    let Some(part) = string_of(top) else {
        return Err(Break::Raises(ErrorName::TypeCheck));
    };
    if !is_readable(part.access) {
        return Err(Break::Raises(ErrorName::InvalidAccess));
    }
    match runtime.shared.printed.print_part(&mut runtime.memory, part) {
        Ok(()) => {
            context.operands.discard(1);
            Ok(())
        }
        Err(AllocError) => Err(Break::NotMade(NotMade::Memory)),
    }
}
