//! Whether `join` would wait for the context that its identifier names (PLRM2, 7.1, 8 'join').

ghost use Rattle.std.specs.Prelude.{◌≡◌, ℕ, List};
ghost use Rattle.ps_language.specs.Contexts.{join_row};
ghost use Rattle.ps_language.specs.Effect.{Call};
ghost use Rattle.ps_language.specs.Locks.{is_wait};
ghost use Rattle.ps_mem.specs.Heap.{Heap};
ghost use Rattle.ps_ops_operands.specs.Changes.{values_in};
ghost use Rattle.ps_ctx_table.specs.Worlds.{contexts_in};

use crate::identifiers::context_operand;
use ps_ctx_table::contexts::Contexts;
use ps_ops_operands::Operands;

/// Whether `join` with these operands waits: its identifier names another context, which isn't
/// detached and isn't finished.
pub(crate) fn join_waits(caller: u32, operands: &Operands, contexts: &Contexts) -> bool
    ensures { (h : Heap) (names : List (List ℕ)) (call : Call) → call.caller ≡ caller
        → call.world.contexts ≡ contexts_in h names contexts.now.table
        → result ≡ is_wait (join_row (values_in h names operands.now) call) }
{
    let Ok(identifier) = context_operand(operands) else {
        return false;
    };
    let Some(other) = contexts.named(identifier) else {
        return false;
    };
    identifier != caller && !other.course.is_finished()
}
