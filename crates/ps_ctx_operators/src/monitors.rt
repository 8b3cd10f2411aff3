//! Procedures under a lock, and conditions (PLRM2, 7.1, 8 'Operators': Multiple Execution
//! Contexts).

ghost use Rattle.std.specs.Prelude.{◌≡◌, ◌+◌, ◌<◌, ◌≤◌, ◌^◌, ◌++◌, ℕ, List, length, map, IfOk};
ghost use Rattle.std.specs.Prelude.{Some, not};
ghost use Rattle.ps_language.specs.Limits.{frame_limit};
ghost use Rattle.ps_language.specs.Value.{Store};
ghost use Rattle.ps_mem.specs.Meaning.{value_of};
ghost use Rattle.ps_mem.specs.References.{StandsAs};
ghost use Rattle.ps_ops_state.specs.Acts.{Acts, nothing_asked};
ghost use Rattle.ps_ops_state.specs.Lent.{lent_of, scene_of, IsGood, IsShown};
ghost use Rattle.ps_ctx_operators.specs.Tells.{done};
ghost use Rattle.ps_ctx_operators.specs.Monitors.{monitored, monitored_count};
ghost use Rattle.ps_ctx_operators.specs.Rows as rows;

use crate::locks::{owner, set_owner};
use crate::readers::{condition_of, lock_of};
use ps_language::errors::ErrorName;
use ps_language::kinds::Kind;
use ps_mem::Memory;
use ps_ops_control::frames::{Frame, Frames, push_frame};
use ps_ops_control::readers::procedure_of;
use ps_ops_operands::access::is_executable;
use ps_ops_state::breaks::Break;
use ps_ops_state::lent::{Attempt, Context, Runtime};
use ps_stacks::FRAME_LIMIT;
use ps_step_outcome::breaks::permit_records;
use ps_word::values::Part;

// ---- conditions

/// `C notify`: the address of the condition. Raises `stackunderflow` and `typecheck`.
pub fn notify<M: Memory>(context: &mut Context, runtime: &mut Runtime<M>) -> Result<u32, Break>
    requires good { IsGood (lent_of M.heap M.grants context.old runtime.old) }
    ensures acts { (attempt : Attempt) → Acts nothing_asked rows.notify_caller attempt (done result)
        (lent_of M.heap M.grants context.old runtime.old)
        (lent_of M.heap M.grants context.new runtime.new) }
    ensures condition { (births : ℕ → ℕ) (names : List (List ℕ)) → IfOk result (λ condition.
        rows.notified_condition (map (value_of births names) context.old.operands)
        ≡ Some (births condition)) }
    ensures stands { IfOk result (λ condition.
        StandsAs (M.heap runtime.new.memory) Kind.Condition condition 1) }
{
    let Some(top) = context.operands.top() else {
        return Err(Break::Raises(ErrorName::StackUnderflow));
    };
    let Some(condition) = condition_of(top) else {
        return Err(Break::Raises(ErrorName::TypeCheck));
    };
    context.operands.discard(1);
    Ok(condition)
}

/// Who waits: the addresses of the lock that it freed, and of the condition.
#[derive(Clone, Copy, Debug, PartialEq, Eq)]
pub struct Waited {
    pub lock: u32,
    pub condition: u32,
}

/// `L C wait`: the caller frees its lock, with one record in a cycle, and waits for the condition.
/// Raises `stackunderflow`, `typecheck`, and `invalidcontext` where the lock isn't the caller's.
///
/// `LogFull`, `LogClosed`: the log of the slot takes no record.
pub fn wait<M: Memory>(
    caller: u32,
    context: &mut Context,
    runtime: &mut Runtime<M>,
    attempt: Attempt,
) -> Result<Waited, Break>
    requires caller { 1 ≤ caller }
    requires good { IsGood (lent_of M.heap M.grants context.old runtime.old) }
    ensures acts { Acts rows.wait_asked (rows.wait_caller caller) attempt (done result)
        (lent_of M.heap M.grants context.old runtime.old)
        (lent_of M.heap M.grants context.new runtime.new) }
    ensures waited { (births : ℕ → ℕ) (names : List (List ℕ)) → IfOk result (λ both.
        rows.waited (map (value_of births names) context.old.operands)
        ≡ Some (births both.lock, births both.condition)) }
    ensures lock { IfOk result (λ both. StandsAs (M.heap runtime.new.memory) Kind.Lock both.lock 1) }
    ensures condition { IfOk result (λ both.
        StandsAs (M.heap runtime.new.memory) Kind.Condition both.condition 1) }
{
    let Some((top, second)) = context.operands.top_two() else {
        return Err(Break::Raises(ErrorName::StackUnderflow));
    };
    let Some(condition) = condition_of(top) else {
        return Err(Break::Raises(ErrorName::TypeCheck));
    };
    let Some(lock) = lock_of(second) else {
        return Err(Break::Raises(ErrorName::TypeCheck));
    };
    if owner(&mut runtime.memory, lock) != caller {
        return Err(Break::Raises(ErrorName::InvalidContext));
    }
    if let Err(reason) = permit_records(&mut runtime.memory, attempt.slot, 1) {
        return Err(Break::NotMade(reason));
    }
    set_owner(&mut runtime.memory, attempt.slot, lock, 0);
    context.operands.discard(2);
    Ok(Waited { lock, condition })
}

// ---- monitor

/// How many frames a procedure under a lock needs.
fn monitored_count(body: Part) -> usize
    ensures count { result ≡ monitored_count body }
    ensures few { result ≤ 2 }
{
    if body.length == 0 { 1 } else { 2 }
}

/// Pushes the frames of a procedure under a lock, for which there is room; an empty procedure is
/// not pushed.
fn push_monitored(frames: &mut Frames, lock: u32, body: Part)
    requires { length frames.old + monitored_count body ≤ frame_limit }
    ensures { frames.new ≡ monitored lock body ++ frames.old }
{
    push_frame(frames, Frame::Monitor { lock });
    if body.length > 0 {
        push_frame(frames, Frame::Procedure { rest: body });
    }
}

/// `L P monitor`: a free lock becomes the caller's, with one record in a cycle, and the procedure
/// is entered above a frame that frees it. False: the lock is another's, nothing has changed, and
/// it is to be tried again.
///
/// Raises `stackunderflow`, `typecheck`, `invalidaccess` where the procedure can't be executed,
/// `invalidcontext` where the lock is the caller's own, and `execstackoverflow`. `LogFull`,
/// `LogClosed`: the log of the slot takes no record.
pub fn monitor<M: Memory>(
    caller: u32,
    context: &mut Context,
    runtime: &mut Runtime<M>,
    attempt: Attempt,
) -> Result<bool, Break>
    requires caller { 1 ≤ caller }
    requires identifier { caller < 2 ^ 31 }
    requires good { IsGood (lent_of M.heap M.grants context.old runtime.old) }
    ensures acts { Acts (rows.monitor_asked caller) (rows.monitor_caller caller) attempt
        (done result)
        (lent_of M.heap M.grants context.old runtime.old)
        (lent_of M.heap M.grants context.new runtime.new) }
    ensures entered { (store : Store) → IsShown
        (lent_of M.heap M.grants context.old runtime.old) store
        → IfOk result (λ entered. rows.is_waiting (rows.monitor_part caller (scene_of
        (lent_of M.heap M.grants context.old runtime.old) store).operands
        (scene_of (lent_of M.heap M.grants context.old runtime.old) store))
        ≡ not entered) }
{
    let Some((top, second)) = context.operands.top_two() else {
        return Err(Break::Raises(ErrorName::StackUnderflow));
    };
    let Some(body) = procedure_of(top) else {
        return Err(Break::Raises(ErrorName::TypeCheck));
    };
    let Some(lock) = lock_of(second) else {
        return Err(Break::Raises(ErrorName::TypeCheck));
    };
    if !is_executable(body.access) {
        return Err(Break::Raises(ErrorName::InvalidAccess));
    }
    let owned_by = owner(&mut runtime.memory, lock);
    if owned_by == caller {
        return Err(Break::Raises(ErrorName::InvalidContext));
    }
    if owned_by != 0 {
        return Ok(false);
    }
    if context.frames.len() > FRAME_LIMIT - monitored_count(body) {
        return Err(Break::Raises(ErrorName::ExecStackOverflow));
    }
    if let Err(reason) = permit_records(&mut runtime.memory, attempt.slot, 1) {
        return Err(Break::NotMade(reason));
    }
    set_owner(&mut runtime.memory, attempt.slot, lock, caller);
    push_monitored(&mut context.frames, lock, body);
    context.operands.discard(2);
    Ok(true)
}
