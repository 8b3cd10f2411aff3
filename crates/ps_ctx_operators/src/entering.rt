//! Who enters a procedure under a lock, or waits for the lock (PLRM2, 7.1, 8 'monitor').

ghost use Rattle.std.specs.Prelude.{◌<◌};
ghost use Rattle.ps_ctx_table.specs.Desks.{IsSteady};
ghost use Rattle.ps_ctx.specs.Calls.{over_of, Calls, RunsAt};

use crate::endings::end;
use crate::monitors::monitor;
use ps_ctx::notes::Note;
use ps_ctx::worlds::Calling;
use ps_ctx_table::contexts::Contexts;
use ps_ctx_table::members::Course;
use ps_mem::Memory;
use ps_ops_operands::failure::NotMade;
use ps_ops_state::lent::{Attempt, Runtime};
use ps_step_outcome::world_operators::WorldOperator;

/// A running context calls `monitor`, whose element is taken: a free lock is the caller's, and the
/// procedure is entered. Where the lock is another's nothing has changed, the call is to be tried
/// again, and the turn ends. Or its error is noted, and it settles: `stackunderflow`, `typecheck`,
/// `invalidaccess` where the procedure can't be executed, `invalidcontext` where the lock is the
/// caller's own, and `execstackoverflow`.
///
/// Not made, with nothing changed. `LogFull`, `LogClosed`: the log of the slot doesn't take the
/// record of the lock, or the five of an error. `Memory`: the output has no room for the error's
/// line.
pub fn call_monitor<M: Memory>(
    caller: u32,
    contexts: &mut Contexts,
    runtime: &mut Runtime<M>,
    attempt: Attempt,
    shown: Option<(i32, i32)>,
) -> Result<Note, NotMade>
    requires runs { RunsAt caller contexts.old.table }
    requires steady { IsSteady (over_of M.heap M.grants runtime.old contexts.old) }
    ensures { Calls WorldOperator.Monitor caller attempt shown result
        (over_of M.heap M.grants runtime.old contexts.old)
        (over_of M.heap M.grants runtime.new contexts.new) }
{
    let calling = Calling {
        caller,
        operator: WorldOperator::Monitor,
    };
    let same_attempt = attempt;
    let member = contexts.table.get_mut(caller);
    match monitor(caller, &mut member.context, runtime, attempt) {
        Ok(false) => {
            member.course = Course::Again;
            Ok(Note::TurnEnds)
        }
        Ok(true) => end(calling, Ok(Note::Nothing), contexts, runtime, same_attempt),
        Err(why) => end(calling, Err(why), contexts, runtime, same_attempt),
    }
}
