//! Steps of one context of a table, over what is lent of it (PLRM2, 3.5, 7.1).

ghost use Rattle.std.specs.Prelude.{◌≡◌, ◌<◌, ◌≤◌, None, IsSome};
ghost use Rattle.ps_ctx_table.specs.Desks.{IsSteady, AreFramed};
ghost use Rattle.ps_ctx.specs.Calls.{over_of};
ghost use Rattle.ps_ctx.specs.Held.{CourseAt, course_in};
ghost use Rattle.ps_ctx.specs.Lending.{Lends, RunsSo, TurnsSo};

use ps_ctx_table::contexts::Contexts;
use ps_mem::{Memory, Slot};
use ps_ops_control::frames::Cause;
use ps_ops_operands::failure::NotMade;
use ps_ops_state::lent::{Attempt, Runtime};
use ps_step_interpreter::interprets::{Interpret, Run};
use ps_step_outcome::turned::Turned;

/// The turn of a context that runs, or is unwinding for a cause.
pub fn turn_of<S: Interpret, M: Memory>(
    contexts: &mut Contexts,
    identifier: u32,
    unwinding: Option<Cause>,
    steps: &mut S,
    runtime: &mut Runtime<M>,
    attempt: Attempt,
) -> Result<Turned, NotMade>
    requires course { CourseAt identifier (course_in unwinding) contexts.old.table }
    requires steady { IsSteady (over_of M.heap M.grants runtime.old contexts.old) }
    requires framed { AreFramed contexts.old.table }
    ensures { Lends identifier (TurnsSo S.asks unwinding attempt result) M.heap M.grants
        runtime.old runtime.new contexts.old contexts.new }
{
    let member = contexts.table.get_mut(identifier);
    steps.step(unwinding, &mut member.context, runtime, attempt)
}

/// Ordinary steps of a running context, one after another, at most so many, and whether it has a
/// frame left.
pub fn run_of<S: Interpret, M: Memory>(
    contexts: &mut Contexts,
    identifier: u32,
    steps: &mut S,
    runtime: &mut Runtime<M>,
    slot: Slot,
    most: u32,
) -> (Run, bool)
    requires course { CourseAt identifier (course_in None) contexts.old.table }
    requires steady { IsSteady (over_of M.heap M.grants runtime.old contexts.old) }
    ensures within { result.0.made ≤ most }
    ensures fewer { IsSome result.0.next → result.0.made < most }
    ensures lends { Lends identifier
        (RunsSo S.asks slot most result.0.made result.0.next result.1) M.heap M.grants
        runtime.old runtime.new contexts.old contexts.new }
{
    let member = contexts.table.get_mut(identifier);
    let run = steps.run(most, slot, &mut member.context, runtime);
    let framed = !member.context.frames.is_empty();
    (run, framed)
}
