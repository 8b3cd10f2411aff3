//! A context begins (PLRM2, 7.1, 8 'fork').

ghost use Rattle.std.specs.Prelude.{◌≡◌, ◌<◌, ℤ, Option};
ghost use Rattle.ps_ctx_table.specs.Desks.{IsSteady};
ghost use Rattle.ps_ctx.specs.Calls.{over_of, Calls, RunsAt};
ghost use Rattle.ps_ctx_operators.specs.Done.{DoesBy};
ghost use Rattle.ps_ctx_operators.specs.Begun.{begun_member, break_of};

use crate::endings::end;
use crate::forks;
use crate::forks::Unforked;
use ps_ctx::notes::Note;
use ps_ctx::worlds::Calling;
use ps_ctx_table::contexts::Contexts;
use ps_ctx_table::members::{Course, Member};
use ps_mem::Memory;
use ps_ops_operands::failure::NotMade;
use ps_ops_state::breaks::Break;
use ps_ops_state::lent::{Attempt, Context, Runtime};
use ps_step_outcome::world_operators::WorldOperator;
use std::alloc::Global;

/// A context as it begins: it runs, or is finished at once where it has no frame.
fn begun_member(begun: Context) -> Member
    ensures { result ≡ begun_member begun }
{
    let course = if begun.frames.is_empty() {
        Course::Finished
    } else {
        Course::Running
    };
    Member {
        context: begun,
        course,
        is_detached: false,
    }
}

/// Why there is none, as of every operator.
fn break_of(why: Unforked) -> Break
    ensures { result ≡ break_of why }
{
    match why {
        Unforked::Breaks(why) => why,
        Unforked::NoStacks => Break::NotMade(NotMade::Memory),
    }
}

/// `m x1..xn P fork i`: a context more, which runs the procedure over all above the mark, as
/// `forks::fork`; its identifier is the next. Its caller hasn't settled yet.
///
/// Raises `stackunderflow`, `typecheck`, `unmatchedmark`, `invalidaccess`, `limitcheck` where 32
/// contexts are not ended or 2147483647 were made (PLRM2, appendix B), and `VMerror` in a refused
/// step. `NeedSpace`: the words of its `$error` have no room. `Memory`: a growth for them was
/// refused, or the room of its stacks can't be had.
pub fn fork<M: Memory>(
    caller: u32,
    alloc: Global,
    contexts: &mut Contexts,
    runtime: &mut Runtime<M>,
    attempt: Attempt,
) -> Result<Note, Break>
    requires runs { RunsAt caller contexts.old.table }
    requires steady { IsSteady (over_of M.heap M.grants runtime.old contexts.old) }
    ensures { (shown : Option (ℤ × ℤ)) → DoesBy WorldOperator.Fork caller attempt shown result
        (over_of M.heap M.grants runtime.old contexts.old)
        (over_of M.heap M.grants runtime.new contexts.new) }
{
    let seat = contexts.seat();
    let member = contexts.table.get_mut(caller);
    match forks::fork(seat, alloc, &mut member.context, runtime, attempt) {
        Ok(begun) => {
            // without a seat it raised `limitcheck`
            if seat.is_some() {
                contexts.table.push_reserved(begun_member(begun));
            }
            Ok(Note::Nothing)
        }
        Err(why) => Err(break_of(why)),
    }
}

/// A running context calls `fork`, whose element is taken: it is done, or its error is noted; the
/// caller settles.
///
/// Not made, with nothing changed: for the room of the new context, or as the note of an error.
/// `NeedSpace`: its `$error` has no room. `LogFull`, `LogClosed`: the log of the slot doesn't take
/// the five records of the note. `Memory`: a growth for its `$error` was refused, the room of its
/// stacks can't be had, or the output has no room for the error's line.
pub fn call_fork<M: Memory>(
    caller: u32,
    alloc: Global,
    contexts: &mut Contexts,
    runtime: &mut Runtime<M>,
    attempt: Attempt,
    shown: Option<(i32, i32)>,
) -> Result<Note, NotMade>
    requires runs { RunsAt caller contexts.old.table }
    requires steady { IsSteady (over_of M.heap M.grants runtime.old contexts.old) }
    ensures { Calls WorldOperator.Fork caller attempt shown result
        (over_of M.heap M.grants runtime.old contexts.old)
        (over_of M.heap M.grants runtime.new contexts.new) }
{
    let calling = Calling {
        caller,
        operator: WorldOperator::Fork,
    };
    let same_attempt = attempt;
    let done = fork(caller, alloc, contexts, runtime, attempt);
    end(calling, done, contexts, runtime, same_attempt)
}
