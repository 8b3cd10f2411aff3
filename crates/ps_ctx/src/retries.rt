//! What a context tries again (PLRM2, 7.1).

ghost use Rattle.std.specs.Prelude.{◌≡◌, ℕ, List};
ghost use Rattle.ps_language.specs.Locks as locks;
ghost use Rattle.ps_mem.specs.Heap.{Heap};
ghost use Rattle.ps_ops_operands.specs.Changes.{values_in};
ghost use Rattle.ps_step_outcome.specs.Turns.{calling_of};

use ps_ops_operands::Operands;
use ps_step_outcome::world_operators::WorldOperator;
use ps_word::values::Content;

/// The operator that is tried again, whose operands are still there: `join` with an identifier on
/// top, `monitor` with anything else.
pub fn retried(operands: &Operands) -> WorldOperator
    ensures { (h : Heap) (names : List (List ℕ))
        → calling_of result ≡ locks.retried (values_in h names operands.now) }
{
    let Some(top) = operands.top() else {
        return WorldOperator::Join;
    };
    match top.content() {
        Content::Integer(_) => WorldOperator::Join,
        _ => WorldOperator::Monitor,
    }
}
