//! Frames of monitors, which free their locks (PLRM2, 7.1, 8 'monitor').

ghost use Rattle.std.specs.Prelude.{◌≡◌, ◌<◌, ◌≤◌, ℕ, List, Some, None};
ghost use Rattle.ps_language.specs.Owners.{with_owner};
ghost use Rattle.ps_language.specs.Value.{Store};
ghost use Rattle.ps_mem.specs.Heap.{AfterStore, birth_at};
ghost use Rattle.ps_mem.specs.Keeps.{Keeps};
ghost use Rattle.ps_mem.specs.References.{StandsAs};
ghost use Rattle.ps_mem.specs.Shows.{IsSound, Shows};
ghost use Rattle.ps_ops_state.specs.Lent.{lent, IsGood};
ghost use Rattle.ps_stacks.specs.Tops.{first_of};
ghost use Rattle.ps_step_outcome.specs.Turns.{Turns};
ghost use Rattle.ps_step_frames.specs.Steps.{lock_asks, running_turn};

use crate::frames::drop_top;
use ps_language::kinds::Kind;
use ps_mem::{Memory, Slot};
use ps_ops_control::frames::Frame;
use ps_ops_operands::failure::NotMade;
use ps_ops_state::lent::{Attempt, Context, Shared};
use ps_step_outcome::breaks::permit_records;
use ps_step_outcome::turned::Turned;
use ps_word::words::Word;

/// Frees a lock, with one record in a cycle.
pub fn free_lock<M: Memory>(memory: &mut M, slot: Slot, lock: u32)
    requires granted { 1 ≤ (M.grants memory.old).records slot }
    requires sound { IsSound (M.heap memory.old) }
    requires known { StandsAs (M.heap memory.old) Kind.Lock lock 1 }
    ensures sound { IsSound (M.heap memory.new) }
    ensures keeps { Keeps (M.heap memory.old) (M.heap memory.new) }
    ensures births { birth_at (M.heap memory.new) ≡ birth_at (M.heap memory.old) }
    ensures grants { AfterStore (M.grants memory.old) (M.grants memory.new) slot }
    ensures shows { (names : List (List ℕ)) (s : Store) → Shows (M.heap memory.old) names s
        → Shows (M.heap memory.new) names
        (with_owner s (birth_at (M.heap memory.old) lock) None) }
{
    memory.store(slot, lock, 0, &[Word::integer(0)]);
}

/// A step on the frame of a monitor: what it began has ended, the frame goes, and its lock is free.
///
/// `LogFull`, `LogClosed`: the log of the slot takes no record. Nothing has changed then.
pub fn monitor_turn<M: Memory>(
    lock: u32,
    context: &mut Context,
    shared: &Shared,
    memory: &mut M,
    attempt: Attempt,
) -> Result<Turned, NotMade>
    requires good { IsGood
        (lent (M.heap memory.old) (M.grants memory.old) context.old shared.now) }
    requires top { first_of context.old.frames ≡ Some (Frame.Monitor lock) }
    ensures { Turns lock_asks running_turn attempt result
        (lent (M.heap memory.old) (M.grants memory.old) context.old shared.now)
        (lent (M.heap memory.new) (M.grants memory.new) context.new shared.now) }
{
    match permit_records(memory, attempt.slot, 1) {
        Ok(()) => {}
        Err(reason) => return Err(reason),
    }
    free_lock(memory, attempt.slot, lock);
    drop_top(&mut context.frames);
    Ok(Turned::Goes)
}
