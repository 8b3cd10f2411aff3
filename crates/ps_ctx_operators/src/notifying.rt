//! Who waits for a condition is notified (PLRM2, 7.1, 8 'notify').

ghost use Rattle.std.specs.Prelude.{◌≡◌, ◌<◌, ℤ, Option};
ghost use Rattle.ps_ctx_table.specs.Desks.{IsSteady};
ghost use Rattle.ps_ctx.specs.Calls.{over_of, Calls, RunsAt};
ghost use Rattle.ps_ops_state.specs.declared.lent.Attempt.{Attempt as AnAttempt};
ghost use Rattle.ps_ctx_operators.specs.Done.{DoesBy};

use crate::endings::end;
use crate::monitors;
use ps_ctx::notes::Note;
use ps_ctx::worlds::Calling;
use ps_ctx_table::contexts::Contexts;
use ps_mem::Memory;
use ps_ops_operands::failure::NotMade;
use ps_ops_state::breaks::Break;
use ps_ops_state::lent::{Attempt, Runtime};
use ps_step_outcome::world_operators::WorldOperator;

/// `C notify`: all that wait for the condition retake their locks. Its caller hasn't settled yet.
/// Raises `stackunderflow` and `typecheck`.
pub fn notify<M: Memory>(
    caller: u32,
    contexts: &mut Contexts,
    runtime: &mut Runtime<M>,
) -> Result<Note, Break>
    requires runs { RunsAt caller contexts.old.table }
    requires steady { IsSteady (over_of M.heap M.grants runtime.old contexts.old) }
    ensures { (attempt : AnAttempt) (shown : Option (ℤ × ℤ))
        → DoesBy WorldOperator.Notify caller attempt shown result
        (over_of M.heap M.grants runtime.old contexts.old)
        (over_of M.heap M.grants runtime.new contexts.new) }
{
    let member = contexts.table.get_mut(caller);
    match monitors::notify(&mut member.context, runtime) {
        Ok(condition) => {
            contexts.notify_all(condition);
            Ok(Note::Nothing)
        }
        Err(why) => Err(why),
    }
}

/// A running context calls `notify`, whose element is taken: it is done, or its error is noted; the
/// caller settles.
///
/// Not made, with nothing changed: as the note of an error. `LogFull`, `LogClosed`: the log of the
/// slot doesn't take five records. `Memory`: the output has no room for the error's line.
pub fn call_notify<M: Memory>(
    caller: u32,
    contexts: &mut Contexts,
    runtime: &mut Runtime<M>,
    attempt: Attempt,
    shown: Option<(i32, i32)>,
) -> Result<Note, NotMade>
    requires runs { RunsAt caller contexts.old.table }
    requires steady { IsSteady (over_of M.heap M.grants runtime.old contexts.old) }
    ensures { Calls WorldOperator.Notify caller attempt shown result
        (over_of M.heap M.grants runtime.old contexts.old)
        (over_of M.heap M.grants runtime.new contexts.new) }
{
    let calling = Calling {
        caller,
        operator: WorldOperator::Notify,
    };
    let done = notify(caller, contexts, runtime);
    end(calling, done, contexts, runtime, attempt)
}
