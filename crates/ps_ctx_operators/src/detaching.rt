//! A context is left by itself (PLRM2, 7.1, 8 'detach').

ghost use Rattle.std.specs.Prelude.{◌≡◌, ◌<◌, ℤ, Option, IsSome};
ghost use Rattle.ps_ctx_table.specs.Desks.{IsSteady};
ghost use Rattle.ps_ctx_table.specs.Seats.{item_at};
ghost use Rattle.ps_ctx.specs.Calls.{over_of, Calls, RunsAt};
ghost use Rattle.ps_ops_state.specs.declared.lent.Attempt.{Attempt as AnAttempt};
ghost use Rattle.ps_ctx_operators.specs.Done.{DoesBy};
ghost use Rattle.ps_ctx_operators.specs.Detached.{detached_members};

use crate::endings::end;
use crate::identifiers;
use crate::naming::named_operand;
use ps_ctx::notes::Note;
use ps_ctx::worlds::Calling;
use ps_ctx_table::contexts::Contexts;
use ps_ctx_table::members::Member;
use ps_ctx_table::table::Table;
use ps_mem::Memory;
use ps_ops_operands::failure::NotMade;
use ps_ops_state::breaks::Break;
use ps_ops_state::lent::{Attempt, Runtime};
use ps_step_outcome::world_operators::WorldOperator;

/// The context of an identifier is detached from now on; one that is finished is gone.
fn leave(identifier: u32, table: &mut Table<Member>)
    requires { IsSome (item_at table.old identifier) }
    ensures { table.new ≡ detached_members identifier table.old }
{
    let member = table.get_mut(identifier);
    member.is_detached = true;
    if member.course.is_finished() {
        let _ = table.remove(identifier);
    }
}

/// `i detach`: the context of the identifier ends by itself once it is finished, and may no longer
/// be named; a context may detach itself. Its caller hasn't settled yet. Raises `stackunderflow`,
/// `typecheck`, and `invalidcontext` where there is no such context, or it is ended or detached.
pub fn detach<M: Memory>(
    caller: u32,
    contexts: &mut Contexts,
    runtime: &mut Runtime<M>,
) -> Result<Note, Break>
    requires runs { RunsAt caller contexts.old.table }
    requires steady { IsSteady (over_of M.heap M.grants runtime.old contexts.old) }
    ensures { (attempt : AnAttempt) (shown : Option (ℤ × ℤ))
        → DoesBy WorldOperator.Detach caller attempt shown result
        (over_of M.heap M.grants runtime.old contexts.old)
        (over_of M.heap M.grants runtime.new contexts.new) }
{
    let identifier = match named_operand(caller, contexts) {
        Ok(identifier) => identifier,
        Err(error) => return Err(Break::Raises(error)),
    };
    let member = contexts.table.get_mut(caller);
    match identifiers::detach(&mut member.context, runtime) {
        Ok(()) => {
            leave(identifier, &mut contexts.table);
            Ok(Note::Nothing)
        }
        Err(why) => Err(why),
    }
}

/// A running context calls `detach`, whose element is taken: it is done, or its error is noted; the
/// caller settles.
///
/// Not made, with nothing changed: as the note of an error. `LogFull`, `LogClosed`: the log of the
/// slot doesn't take five records. `Memory`: the output has no room for the error's line.
pub fn call_detach<M: Memory>(
    caller: u32,
    contexts: &mut Contexts,
    runtime: &mut Runtime<M>,
    attempt: Attempt,
    shown: Option<(i32, i32)>,
) -> Result<Note, NotMade>
    requires runs { RunsAt caller contexts.old.table }
    requires steady { IsSteady (over_of M.heap M.grants runtime.old contexts.old) }
    ensures { Calls WorldOperator.Detach caller attempt shown result
        (over_of M.heap M.grants runtime.old contexts.old)
        (over_of M.heap M.grants runtime.new contexts.new) }
{
    let calling = Calling {
        caller,
        operator: WorldOperator::Detach,
    };
    let done = detach(caller, contexts, runtime);
    end(calling, done, contexts, runtime, attempt)
}
