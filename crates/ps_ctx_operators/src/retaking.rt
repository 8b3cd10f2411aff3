//! Who was notified takes its lock again (PLRM2, 7.1, 8 'wait').

ghost use Rattle.std.specs.Prelude.{◌<◌, ◌≤◌, length};
ghost use Rattle.ps_ctx_table.specs.Desks.{IsSteady};
ghost use Rattle.ps_ctx.specs.Calls.{over_of, Retakes, RetakesAt};
ghost use Rattle.ps_ctx.specs.Held.{CourseAt};

use crate::locks::set_owner;
use ps_ctx_table::contexts::Contexts;
use ps_ctx_table::members::Course;
use ps_mem::Memory;
use ps_ops_operands::failure::NotMade;
use ps_ops_state::lent::{Attempt, Runtime};
use ps_step_outcome::breaks::permit_records;
use ps_step_outcome::turned::Turned;

/// The address of the lock that a context waits for.
fn awaited_lock(caller: u32, contexts: &Contexts) -> u32
    requires { RetakesAt caller contexts.now.table }
    ensures course { CourseAt caller (Course.Retaking result) contexts.now.table }
    // no identifier that was made is above 2^31 - 1
    ensures within { length contexts.now.table ≤ 2147483647 }
{
    let Some(member) = contexts.table.get(caller) else {
        unreachable!()
    };
    let Course::Retaking { lock } = member.course else {
        unreachable!()
    };
    lock
}

/// A context that was notified, and waits for its lock, takes the lock again with one record in a
/// cycle, and runs; where no frame is left it is finished.
///
/// `LogFull`, `LogClosed`: the log of the slot takes no record. Nothing has changed then.
pub fn retake<M: Memory>(
    caller: u32,
    contexts: &mut Contexts,
    runtime: &mut Runtime<M>,
    attempt: Attempt,
) -> Result<(), NotMade>
    requires retakes { RetakesAt caller contexts.old.table }
    requires steady { IsSteady (over_of M.heap M.grants runtime.old contexts.old) }
    ensures { Retakes caller attempt result
        (over_of M.heap M.grants runtime.old contexts.old)
        (over_of M.heap M.grants runtime.new contexts.new) }
{
    let lock = awaited_lock(caller, contexts);
    if let Err(reason) = permit_records(&mut runtime.memory, attempt.slot, 1) {
        return Err(reason);
    }
    set_owner(&mut runtime.memory, attempt.slot, lock, caller);
    contexts.settle(caller, Turned::Goes);
    Ok(())
}
