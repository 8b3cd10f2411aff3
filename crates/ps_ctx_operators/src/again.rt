//! A caller that must wait tries its operator again (PLRM2, 7.1).

ghost use Rattle.std.specs.Prelude.{ℤ, Option, Ok};
ghost use Rattle.ps_step_outcome.specs.declared.world_operators.WorldOperator.{WorldOperator as AnOperator};
ghost use Rattle.ps_mem.specs.Heap.{Heap, Grants};
ghost use Rattle.ps_ops_state.specs.declared.lent.Attempt.{Attempt as AnAttempt};
ghost use Rattle.ps_ops_state.specs.declared.lent.Shared.{Shared as TheShared};
ghost use Rattle.ps_ctx_table.specs.Desks.{Desk};
ghost use Rattle.ps_ctx.specs.Calls.{over, RunsAt, Calls};
ghost use Rattle.ps_ctx_operators.specs.Waits.{WaitsBy};

use ps_ctx::notes::Note;
use ps_ctx_table::contexts::Contexts;
use ps_ctx_table::members::Course;

/// Ends a call whose caller must wait: it tries again, and its turn ends.
pub(crate) fn wait(caller: u32, contexts: &mut Contexts) -> Note
    requires runs { RunsAt caller contexts.old.table }
    ensures { (operator : AnOperator) (attempt : AnAttempt) (shown : Option (ℤ × ℤ)) (before : Desk)
        (heap : Heap) (grants : Grants) (shared : TheShared)
        → WaitsBy operator caller attempt shown before (over heap grants shared contexts.old)
        → Calls operator caller attempt shown (Ok result) before
        (over heap grants shared contexts.new) }
{
    let member = contexts.table.get_mut(caller);
    member.course = Course::Again;
    Note::TurnEnds
}
