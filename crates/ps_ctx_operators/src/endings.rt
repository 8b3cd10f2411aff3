//! What an operator did comes to its end: its caller settles, or its error is noted (PLRM2, 3.10,
//! 7.1).

ghost use Rattle.std.specs.Prelude.{◌≡◌, ◌<◌, ℤ, Option, Err};
ghost use Rattle.ps_ctx_table.specs.Desks.{Desk, IsSteady};
ghost use Rattle.ps_ctx.specs.Calls.{over_of, Calls, RunsAt};
ghost use Rattle.ps_ctx_operators.specs.Done.{DoesBy, own_of};

use ps_ctx::notes::Note;
use ps_ctx::worlds::Calling;
use ps_ctx_table::contexts::Contexts;
use ps_language::errors::ErrorName;
use ps_mem::Memory;
use ps_ops_operands::failure::NotMade;
use ps_ops_state::breaks::Break;
use ps_ops_state::lent::{Attempt, Runtime};
use ps_step_outcome::raises::raise_by;
use ps_step_outcome::turned::Turned;

/// What an error turned to: it leaves nothing to the world.
fn own_of(turned: Turned) -> Turned
    ensures { result ≡ own_of turned }
{
    match turned {
        Turned::Calls(_) => Turned::Goes,
        turned => turned,
    }
}

/// Notes the error of an operator, as `raise_by`; the caller settles.
fn raise<M: Memory>(
    calling: Calling,
    error: ErrorName,
    contexts: &mut Contexts,
    runtime: &mut Runtime<M>,
    attempt: Attempt,
) -> Result<Note, NotMade>
    requires runs { RunsAt calling.caller contexts.old.table }
    requires steady { IsSteady (over_of M.heap M.grants runtime.old contexts.old) }
    ensures { (shown : Option (ℤ × ℤ)) (before : Desk) → DoesBy calling.operator calling.caller
        attempt shown
        (Err (Break.Raises error)) before
        (over_of M.heap M.grants runtime.old contexts.old)
        → Calls calling.operator calling.caller attempt shown result before
        (over_of M.heap M.grants runtime.new contexts.new) }
{
    let operator = calling.operator.operator();
    let member = contexts.table.get_mut(calling.caller);
    match raise_by(operator, error, &mut member.context, runtime, attempt) {
        Ok(turned) => {
            contexts.settle(calling.caller, own_of(turned));
            Ok(Note::Nothing)
        }
        Err(reason) => Err(reason),
    }
}

/// Ends a call that broke off. An unwinding, which no such operator begins, is no error.
fn break_off<M: Memory>(
    calling: Calling,
    why: Break,
    contexts: &mut Contexts,
    runtime: &mut Runtime<M>,
    attempt: Attempt,
) -> Result<Note, NotMade>
    requires runs { RunsAt calling.caller contexts.old.table }
    requires steady { IsSteady (over_of M.heap M.grants runtime.old contexts.old) }
    ensures { (shown : Option (ℤ × ℤ)) (before : Desk) → DoesBy calling.operator calling.caller
        attempt shown
        (Err why) before (over_of M.heap M.grants runtime.old contexts.old)
        → Calls calling.operator calling.caller attempt shown result before
        (over_of M.heap M.grants runtime.new contexts.new) }
{
    match why {
        Break::Raises(error) => raise(calling, error, contexts, runtime, attempt),
        Break::NotMade(reason) => Err(reason),
        Break::Unwinds(_) => {
            contexts.settle(calling.caller, Turned::Goes);
            Ok(Note::Nothing)
        }
    }
}

/// Ends a call by what was done: the caller settles, or its error is noted.
///
/// Not made: as what was done, or as the note of its error. `LogFull`, `LogClosed`: the log of the
/// slot doesn't take five records. `Memory`: the output has no room for the error's line.
pub fn end<M: Memory>(
    calling: Calling,
    done: Result<Note, Break>,
    contexts: &mut Contexts,
    runtime: &mut Runtime<M>,
    attempt: Attempt,
) -> Result<Note, NotMade>
    requires runs { RunsAt calling.caller contexts.old.table }
    requires steady { IsSteady (over_of M.heap M.grants runtime.old contexts.old) }
    ensures { (shown : Option (ℤ × ℤ)) (before : Desk) → DoesBy calling.operator calling.caller
        attempt shown
        done before (over_of M.heap M.grants runtime.old contexts.old)
        → Calls calling.operator calling.caller attempt shown result before
        (over_of M.heap M.grants runtime.new contexts.new) }
{
    match done {
        Ok(note) => {
            contexts.settle(calling.caller, Turned::Goes);
            Ok(note)
        }
        Err(why) => break_off(calling, why, contexts, runtime, attempt),
    }
}
