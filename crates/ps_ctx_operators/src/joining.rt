//! A context waits for another to finish, which ends (PLRM2, 7.1, 8 'join').

ghost use Rattle.std.specs.Prelude.{◌≡◌, ◌<◌, ℤ, Option, Ok};
ghost use Rattle.ps_ctx_table.specs.Desks.{IsSteady};
ghost use Rattle.ps_ctx.specs.Calls.{over_of, Calls, RunsAt};
ghost use Rattle.ps_ops_state.specs.declared.lent.Attempt.{Attempt as AnAttempt};
ghost use Rattle.ps_ctx_operators.specs.Done.{DoesBy};
ghost use Rattle.ps_ctx_operators.specs.Joined.{HandsOver, Finds};
ghost use Rattle.ps_ctx_operators.specs.Named.{Names};

use crate::again::wait;
use crate::endings::end;
use crate::joins;
use crate::naming::named_operand;
use ps_ctx::notes::Note;
use ps_ctx::worlds::Calling;
use ps_ctx_table::contexts::Contexts;
use ps_language::errors::ErrorName;
use ps_mem::Memory;
use ps_ops_operands::failure::NotMade;
use ps_ops_state::breaks::Break;
use ps_ops_state::lent::{Attempt, Runtime};
use ps_stacks::OPERAND_LIMIT;
use ps_step_outcome::world_operators::WorldOperator;

/// What `join` finds of the context that it names.
#[derive(Clone, Copy, Debug, PartialEq, Eq)]
pub(crate) enum Found {
    /// It isn't finished: the caller waits.
    Unfinished,
    /// The one of this identifier is finished, and its operands have room.
    Finished(u32),
}

/// What is found of the context of this identifier, which may be named. Raises `invalidcontext`
/// where it is the caller, and `stackoverflow` where the operands of a finished one have no room.
fn find_named(identifier: u32, caller: u32, contexts: &Contexts) -> Result<Found, ErrorName>
    requires named { Names caller (Ok identifier) contexts.now.table }
    ensures { Finds caller result contexts.now.table }
{
    if identifier == caller {
        return Err(ErrorName::InvalidContext);
    }
    let Some(other) = contexts.table.get(identifier) else {
        unreachable!()
    };
    let Some(member) = contexts.table.get(caller) else {
        unreachable!()
    };
    if !other.course.is_finished() {
        return Ok(Found::Unfinished);
    }
    if other.context.operands.len() > OPERAND_LIMIT - member.context.operands.len() {
        return Err(ErrorName::StackOverflow);
    }
    Ok(Found::Finished(identifier))
}

/// What `join` finds. Raises `stackunderflow`, `typecheck`, `invalidcontext` where there is no such
/// context, or it is ended, detached or the caller, and `stackoverflow` where the operands of a
/// finished one have no room.
fn find(caller: u32, contexts: &Contexts) -> Result<Found, ErrorName>
    requires runs { RunsAt caller contexts.now.table }
    ensures { Finds caller result contexts.now.table }
{
    match named_operand(caller, contexts) {
        Ok(identifier) => find_named(identifier, caller, contexts),
        Err(error) => Err(error),
    }
}

/// `i join m x1..xn`, of a finished context whose operands have room: it ends, and a mark and all
/// of them take the place of its identifier. Its caller hasn't settled yet.
fn take<M: Memory>(
    identifier: u32,
    caller: u32,
    contexts: &mut Contexts,
    runtime: &mut Runtime<M>,
) -> Result<Note, Break>
    requires hands { HandsOver caller identifier contexts.old.table }
    requires runs { RunsAt caller contexts.old.table }
    requires steady { IsSteady (over_of M.heap M.grants runtime.old contexts.old) }
    ensures { (attempt : AnAttempt) (shown : Option (ℤ × ℤ))
        → DoesBy WorldOperator.Join caller attempt shown result
        (over_of M.heap M.grants runtime.old contexts.old)
        (over_of M.heap M.grants runtime.new contexts.new) }
{
    let Some(other) = contexts.table.remove(identifier) else {
        unreachable!()
    };
    let member = contexts.table.get_mut(caller);
    match joins::join(&other.context.operands, &mut member.context, runtime) {
        Ok(()) => Ok(Note::Nothing),
        // of no world: their room was tested
        Err(why) => Err(why),
    }
}

/// A running context calls `join`, whose element is taken. `i join m x1..xn`: a finished context
/// ends, and its operands go over to the caller above a mark; while it isn't finished the caller
/// waits, its turn ends, and it is to try again with its operands as they were. Or an error is
/// noted: `stackunderflow`, `typecheck`, `invalidcontext` where there is no such context, or it is
/// ended, detached or the caller, and `stackoverflow`. The caller settles, unless it waits.
///
/// Not made, with nothing changed: as the note of an error. `LogFull`, `LogClosed`: the log of the
/// slot doesn't take five records. `Memory`: the output has no room for the error's line.
pub fn call_join<M: Memory>(
    caller: u32,
    contexts: &mut Contexts,
    runtime: &mut Runtime<M>,
    attempt: Attempt,
    shown: Option<(i32, i32)>,
) -> Result<Note, NotMade>
    requires runs { RunsAt caller contexts.old.table }
    requires steady { IsSteady (over_of M.heap M.grants runtime.old contexts.old) }
    ensures { Calls WorldOperator.Join caller attempt shown result
        (over_of M.heap M.grants runtime.old contexts.old)
        (over_of M.heap M.grants runtime.new contexts.new) }
{
    let calling = Calling {
        caller,
        operator: WorldOperator::Join,
    };
    match find(caller, contexts) {
        Ok(found) => match found {
            Found::Unfinished => Ok(wait(caller, contexts)),
            Found::Finished(identifier) => {
                let done = take(identifier, caller, contexts, runtime);
                end(calling, done, contexts, runtime, attempt)
            }
        },
        Err(error) => {
            let done = Err(Break::Raises(error));
            end(calling, done, contexts, runtime, attempt)
        }
    }
}
