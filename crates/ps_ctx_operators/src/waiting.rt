//! Who waits for a condition (PLRM2, 7.1, 8 'wait').

ghost use Rattle.std.specs.Prelude.{◌<◌};
ghost use Rattle.ps_ctx_table.specs.Desks.{IsSteady};
ghost use Rattle.ps_ctx.specs.Calls.{over_of, Calls, RunsAt};

use crate::endings::end;
use crate::monitors::{self, Waited};
use ps_ctx::notes::Note;
use ps_ctx::worlds::Calling;
use ps_ctx_table::contexts::Contexts;
use ps_ctx_table::members::Course;
use ps_mem::Memory;
use ps_ops_operands::failure::NotMade;
use ps_ops_state::lent::{Attempt, Runtime};
use ps_step_outcome::world_operators::WorldOperator;

/// A running context calls `wait`, whose element is taken: it frees its lock, waits for the
/// condition, and its turn ends. Or its error is noted, and it settles: `stackunderflow`,
/// `typecheck`, and `invalidcontext` where the lock isn't the caller's.
///
/// Not made, with nothing changed. `LogFull`, `LogClosed`: the log of the slot doesn't take the
/// record of the lock, or the five of an error. `Memory`: the output has no room for the error's
/// line.
pub fn call_wait<M: Memory>(
    caller: u32,
    contexts: &mut Contexts,
    runtime: &mut Runtime<M>,
    attempt: Attempt,
    shown: Option<(i32, i32)>,
) -> Result<Note, NotMade>
    requires runs { RunsAt caller contexts.old.table }
    requires steady { IsSteady (over_of M.heap M.grants runtime.old contexts.old) }
    ensures { Calls WorldOperator.Wait caller attempt shown result
        (over_of M.heap M.grants runtime.old contexts.old)
        (over_of M.heap M.grants runtime.new contexts.new) }
{
    let calling = Calling {
        caller,
        operator: WorldOperator::Wait,
    };
    let same_attempt = attempt;
    let member = contexts.table.get_mut(caller);
    match monitors::wait(caller, &mut member.context, runtime, attempt) {
        Ok(Waited { lock, condition }) => {
            member.course = Course::Waiting { lock, condition };
            Ok(Note::TurnEnds)
        }
        Err(why) => end(calling, Err(why), contexts, runtime, same_attempt),
    }
}
