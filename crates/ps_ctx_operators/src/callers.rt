//! Operators that change their caller alone (PLRM2, 8 'Operators': Multiple Execution Contexts,
//! Virtual Memory).

ghost use Rattle.std.specs.Prelude.{◌≡◌, ℕ, ℤ, Option};
ghost use Rattle.ps_ctx_table.specs.Desks.{Desk, IsSteady};
ghost use Rattle.ps_ctx.specs.Calls.{over_of, RunsAt};
ghost use Rattle.ps_ops_state.specs.declared.lent.Attempt.{Attempt as AnAttempt};
ghost use Rattle.ps_ctx_operators.specs.Done.{DoesBy, noted};

use crate::{identifiers, locks, statuses};
use ps_ctx::notes::Note;
use ps_ctx_table::contexts::Contexts;
use ps_mem::Memory;
use ps_ops_state::breaks::Break;
use ps_ops_state::lent::{Attempt, Runtime};
use ps_step_outcome::world_operators::WorldOperator;

/// What an operator came to, with this note where it acted.
pub(crate) fn noted(note: Note, outcome: Result<(), Break>) -> Result<Note, Break>
    ensures { result ≡ noted note outcome }
{
    match outcome {
        Ok(()) => Ok(note),
        Err(why) => Err(why),
    }
}

/// `lock L`: a new lock, which is free. Its caller hasn't settled yet. Raises `stackoverflow`, and
/// `VMerror` in a refused step. Not made where there is no room for its 3 words.
pub fn new_lock<M: Memory>(
    caller: u32,
    contexts: &mut Contexts,
    runtime: &mut Runtime<M>,
    attempt: Attempt,
) -> Result<Note, Break>
    requires runs { RunsAt caller contexts.old.table }
    requires steady { IsSteady (over_of M.heap M.grants runtime.old contexts.old) }
    ensures { (shown : Option (ℤ × ℤ)) → DoesBy WorldOperator.Lock caller attempt shown result
        (over_of M.heap M.grants runtime.old contexts.old)
        (over_of M.heap M.grants runtime.new contexts.new) }
{
    let member = contexts.table.get_mut(caller);
    let outcome = locks::new_lock(&mut member.context, runtime, attempt);
    noted(Note::Nothing, outcome)
}

/// `condition C`: a new condition. Its caller hasn't settled yet. Raises `stackoverflow`, and
/// `VMerror` in a refused step. Not made where there is no room for its 3 words.
pub fn new_condition<M: Memory>(
    caller: u32,
    contexts: &mut Contexts,
    runtime: &mut Runtime<M>,
    attempt: Attempt,
) -> Result<Note, Break>
    requires runs { RunsAt caller contexts.old.table }
    requires steady { IsSteady (over_of M.heap M.grants runtime.old contexts.old) }
    ensures { (shown : Option (ℤ × ℤ)) → DoesBy WorldOperator.Condition caller attempt shown result
        (over_of M.heap M.grants runtime.old contexts.old)
        (over_of M.heap M.grants runtime.new contexts.new) }
{
    let member = contexts.table.get_mut(caller);
    let outcome = locks::new_condition(&mut member.context, runtime, attempt);
    noted(Note::Nothing, outcome)
}

/// `currentcontext i`: the identifier of the caller, which hasn't settled yet. Raises
/// `stackoverflow`.
pub fn current_context<M: Memory>(
    caller: u32,
    contexts: &mut Contexts,
    runtime: &mut Runtime<M>,
) -> Result<Note, Break>
    requires runs { RunsAt caller contexts.old.table }
    requires steady { IsSteady (over_of M.heap M.grants runtime.old contexts.old) }
    ensures { (attempt : AnAttempt) (shown : Option (ℤ × ℤ))
        → DoesBy WorldOperator.CurrentContext caller attempt shown result
        (over_of M.heap M.grants runtime.old contexts.old)
        (over_of M.heap M.grants runtime.new contexts.new) }
{
    let member = contexts.table.get_mut(caller);
    let outcome = identifiers::current_context(caller, &mut member.context, runtime);
    noted(Note::Nothing, outcome)
}

/// `i vmreclaim`: its number, from -2 to 2, is wished. Its caller hasn't settled yet. Raises
/// `stackunderflow`, `typecheck` and `rangecheck`.
pub fn vm_reclaim<M: Memory>(
    caller: u32,
    contexts: &mut Contexts,
    runtime: &mut Runtime<M>,
) -> Result<Note, Break>
    requires runs { RunsAt caller contexts.old.table }
    requires steady { IsSteady (over_of M.heap M.grants runtime.old contexts.old) }
    ensures { (attempt : AnAttempt) (shown : Option (ℤ × ℤ))
        → DoesBy WorldOperator.VmReclaim caller attempt shown result
        (over_of M.heap M.grants runtime.old contexts.old)
        (over_of M.heap M.grants runtime.new contexts.new) }
{
    let member = contexts.table.get_mut(caller);
    match statuses::vm_reclaim(&mut member.context, runtime) {
        Ok(number) => Ok(Note::Wishes(number)),
        Err(why) => Err(why),
    }
}

/// `vmstatus i j k`: what the step is shown, three zeros where it is shown nothing. Its caller
/// hasn't settled yet. Raises `stackoverflow`.
pub fn vm_status<M: Memory>(
    caller: u32,
    shown: Option<(i32, i32)>,
    contexts: &mut Contexts,
    runtime: &mut Runtime<M>,
) -> Result<Note, Break>
    requires runs { RunsAt caller contexts.old.table }
    requires steady { IsSteady (over_of M.heap M.grants runtime.old contexts.old) }
    ensures { (attempt : AnAttempt) → DoesBy WorldOperator.VmStatus caller attempt shown result
        (over_of M.heap M.grants runtime.old contexts.old)
        (over_of M.heap M.grants runtime.new contexts.new) }
{
    let member = contexts.table.get_mut(caller);
    match statuses::vm_status(shown, &mut member.context, runtime) {
        Ok(()) => Ok(Note::ShowsMemory),
        Err(why) => Err(why),
    }
}

/// `yield`: the turn of the caller ends. No error.
pub fn give_way() -> Result<Note, Break>
    ensures { (caller : ℕ) (attempt : AnAttempt) (shown : Option (ℤ × ℤ)) (desk : Desk) → IsSteady
        desk
        → RunsAt caller desk.members
        → DoesBy WorldOperator.Yield caller attempt shown result desk desk }
{
    Ok(Note::TurnEnds)
}
