//! Intervals of arrays and strings (PLRM2, 8 'getinterval').

ghost use Rattle.std.specs.Prelude.{◌≡◌};
ghost use Rattle.ps_language.specs.Rows.{reading_row};
ghost use Rattle.ps_language.specs.RowsSequences.{getinterval_row};
ghost use Rattle.ps_ops_state.specs.Acts.{Acts, nothing_asked};
ghost use Rattle.ps_ops_state.specs.Lent.{lent_of, IsGood};

use crate::kinds::is_string_at;
use crate::{arrays, strings};
use ps_mem::Memory;
use ps_ops_state::breaks::{Break, made};
use ps_ops_state::lent::{Attempt, Context, Runtime};

/// `X i n getinterval Y`: `n` elements of an array or bytes of a string from `i` on, shared with
/// it. Raises `stackunderflow`, `typecheck`, `invalidaccess` and `rangecheck`.
pub fn getinterval<M: Memory>(context: &mut Context, runtime: &mut Runtime<M>) -> Result<(), Break>
    requires good { IsGood (lent_of M.heap M.grants context.old runtime.old) }
    ensures acts { (attempt : Attempt) → Acts nothing_asked (reading_row getinterval_row) attempt
        result
        (lent_of M.heap M.grants context.old runtime.old)
        (lent_of M.heap M.grants context.new runtime.new) }
    ensures frames { context.new.frames ≡ context.old.frames }
{
    if is_string_at(&context.operands, 2) {
        made(strings::getinterval(&mut context.operands, &mut runtime.memory))
    } else {
        made(arrays::getinterval(&mut context.operands, &mut runtime.memory))
    }
}
