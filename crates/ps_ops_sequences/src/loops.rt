//! Loops over arrays, strings and dictionaries (PLRM2, 8 'forall').

ghost use Rattle.std.specs.Prelude.{◌≡◌};
ghost use Rattle.ps_language.specs.Control.{forall_row, scene_effect};
ghost use Rattle.ps_language.specs.Rows.{scene_row};
ghost use Rattle.ps_mem.specs.Shows.{IsReady};
ghost use Rattle.ps_ops_control.specs.Controls.{IsSecondAccess};
ghost use Rattle.ps_ops_state.specs.Acts.{Acts, nothing_asked};
ghost use Rattle.ps_ops_state.specs.Lent.{lent_of, IsGood};

use ps_language::access::Access;
use ps_mem::Memory;
use ps_ops_control::control::begin_forall;
use ps_ops_operands::Operands;
use ps_ops_state::breaks::{Break, made};
use ps_ops_state::lent::{Attempt, Context, Runtime};
use ps_ops_types::access::access_of;

/// The access of the second operand, if there is one and it has one.
fn second_access<M: Memory>(operands: &Operands, memory: &mut M) -> Option<Access>
    requires ready { IsReady (M.heap memory.old) operands.now }
    ensures heap { M.heap memory.new ≡ M.heap memory.old }
    ensures grants { M.grants memory.new ≡ M.grants memory.old }
    ensures access { IsSecondAccess (M.heap memory.old) operands.now result }
{
    let Some((_, over)) = operands.top_two() else {
        return None;
    };
    access_of(memory, over)
}

/// `X P forall`: a loop over an array, a string or a dictionary begins. Raises `stackunderflow`,
/// `typecheck`, `invalidaccess` and `execstackoverflow`.
pub fn forall<M: Memory>(context: &mut Context, runtime: &mut Runtime<M>) -> Result<(), Break>
    requires good { IsGood (lent_of M.heap M.grants context.old runtime.old) }
    ensures acts { (attempt : Attempt) → Acts nothing_asked (scene_row (scene_effect forall_row))
        attempt
        result (lent_of M.heap M.grants context.old runtime.old)
        (lent_of M.heap M.grants context.new runtime.new) }
{
    let access = second_access(&context.operands, &mut runtime.memory);
    made(begin_forall(&mut context.operands, &mut context.frames, access))
}
