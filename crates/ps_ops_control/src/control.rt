//! The operators that push frames (PLRM2, 8 'Operators': Control).

ghost use Rattle.std.specs.Prelude.{◌≡◌, ◌&&◌, ℕ, ◌≤◌, List, length, OnErr};
ghost use Rattle.ps_language.specs.Access as language;
ghost use Rattle.ps_language.specs.Control as rows;
ghost use Rattle.ps_language.specs.Effect.{Scene};
ghost use Rattle.ps_language.specs.Outcome.{Outcome};
ghost use Rattle.ps_language.specs.Value.{Value};
ghost use Rattle.ps_mem.specs.Heap.{Heap};
ghost use Rattle.ps_ops_control.specs.Frames.{IsFrame, IsHeld};
ghost use Rattle.ps_ops_control.specs.Controls.{Controls, IsReadyFor, IsFrameHeld, Begins, Enters};
ghost use Rattle.ps_ops_control.specs.Controls.{IsSecondAccess, stacks};

use crate::frames::{Frame, Frames, push_frame};
use crate::readers::{boolean_of, may_loop, procedure_of};
use ps_language::access::Access;
use ps_language::errors::ErrorName;
use ps_ops_operands::Operands;
use ps_ops_operands::access::is_executable;
use ps_ops_operands::integers::count_of;
use ps_ops_operands::readers::integer_of;
use ps_stacks::FRAME_LIMIT;
use ps_word::values::Part;

/// Whether two accesses permit execution.
#[inline]
fn are_executable(first: Access, second: Access) -> bool
    ensures { result ≡ language.is_executable first && language.is_executable second }
{
    is_executable(first) && is_executable(second)
}

/// Whether nothing was taken away from an access.
#[inline]
fn is_unlimited(access: Access) -> bool
    ensures { result ≡ language.is_writable access }
{
    match access {
        Access::Unlimited => true,
        Access::ReadOnly | Access::ExecuteOnly | Access::NoAccess => false,
    }
}

/// Takes operands off and pushes a frame. Raises `execstackoverflow`, and changes nothing, where
/// 250 stand.
fn begin(
    operands: &mut Operands,
    frames: &mut Frames,
    count: usize,
    frame: Frame,
) -> Result<(), ErrorName>
    requires { count ≤ length operands.old }
    // Each row that leaves this frame and takes these operands is done.
    ensures controls { (row : List Value → Scene → Outcome Scene) (h : Heap) (size : ℕ)
        → IsReadyFor h size (stacks operands.old frames.old) → IsFrame h size frame
        → IsFrameHeld h operands.old frames.old frame → Begins row h operands.old count frame
        → Controls row result h size (stacks operands.old frames.old)
        (stacks operands.new frames.new) }
    ensures framed { OnErr result (frames.new ≡ frames.old) }
{
    if frames.is_full() {
        return Err(ErrorName::ExecStackOverflow);
    }
    push_frame(frames, frame);
    operands.discard(count);
    Ok(())
}

/// Takes operands off and enters a procedure. Raises `execstackoverflow`, and changes nothing,
/// where it isn't empty and 250 frames stand.
fn enter_with(
    operands: &mut Operands,
    frames: &mut Frames,
    count: usize,
    body: Part,
) -> Result<(), ErrorName>
    requires { count ≤ length operands.old }
    // Each row that enters this procedure and takes these operands is done.
    ensures controls { (row : List Value → Scene → Outcome Scene) (h : Heap) (size : ℕ)
        → IsReadyFor h size (stacks operands.old frames.old) → IsHeld h body
        → Enters row h operands.old count body
        → Controls row result h size (stacks operands.old frames.old)
        (stacks operands.new frames.new) }
    ensures framed { OnErr result (frames.new ≡ frames.old) }
{
    if body.length == 0 {
        operands.discard(count);
        return Ok(());
    }
    begin(operands, frames, count, Frame::Procedure { rest: body })
}

/// `x exec`: the object is executed next. Raises `stackunderflow` and `execstackoverflow`.
pub fn exec(operands: &mut Operands, frames: &mut Frames) -> Result<(), ErrorName>
    ensures controls { (h : Heap) (size : ℕ) → IsReadyFor h size (stacks operands.old frames.old)
        → Controls rows.exec_row result h size (stacks operands.old frames.old)
        (stacks operands.new frames.new) }
    ensures framed { OnErr result (frames.new ≡ frames.old) }
{
    let Some(word) = operands.top() else {
        return Err(ErrorName::StackUnderflow);
    };
    begin(operands, frames, 1, Frame::Pending { word })
}

/// `t P if`: the procedure is entered where `t` is true. Raises `stackunderflow`, `typecheck`,
/// `invalidaccess` where the procedure can't be executed, entered
/// or not, and `execstackoverflow`.
pub fn if_then(operands: &mut Operands, frames: &mut Frames) -> Result<(), ErrorName>
    ensures controls { (h : Heap) (size : ℕ) → IsReadyFor h size (stacks operands.old frames.old)
        → Controls rows.if_row result h size (stacks operands.old frames.old)
        (stacks operands.new frames.new) }
    ensures framed { OnErr result (frames.new ≡ frames.old) }
{
    let Some((procedure, condition)) = operands.top_two() else {
        return Err(ErrorName::StackUnderflow);
    };
    let Some(body) = procedure_of(procedure) else {
        return Err(ErrorName::TypeCheck);
    };
    let Some(truth) = boolean_of(condition) else {
        return Err(ErrorName::TypeCheck);
    };
    if !is_executable(body.access) {
        return Err(ErrorName::InvalidAccess);
    }
    if truth {
        return enter_with(operands, frames, 2, body);
    }
    operands.discard(2);
    Ok(())
}

/// `t P1 P2 ifelse`: the first procedure is entered where `t` is true, else the second. Raises
/// `stackunderflow`, `typecheck`, `invalidaccess` where one of the two
/// can't be executed, and `execstackoverflow`.
pub fn if_then_else(operands: &mut Operands, frames: &mut Frames) -> Result<(), ErrorName>
    ensures controls { (h : Heap) (size : ℕ) → IsReadyFor h size (stacks operands.old frames.old)
        → Controls rows.ifelse_row result h size (stacks operands.old frames.old)
        (stacks operands.new frames.new) }
    ensures framed { OnErr result (frames.new ≡ frames.old) }
{
    let Some((second, first, condition)) = operands.top_three() else {
        return Err(ErrorName::StackUnderflow);
    };
    let Some(other) = procedure_of(second) else {
        return Err(ErrorName::TypeCheck);
    };
    let Some(body) = procedure_of(first) else {
        return Err(ErrorName::TypeCheck);
    };
    let Some(truth) = boolean_of(condition) else {
        return Err(ErrorName::TypeCheck);
    };
    if !are_executable(other.access, body.access) {
        return Err(ErrorName::InvalidAccess);
    }
    if truth {
        return enter_with(operands, frames, 3, body);
    }
    enter_with(operands, frames, 3, other)
}

/// `i j k P for`: a loop from `i` by `j` to `k`. Raises `stackunderflow`, `typecheck`,
/// `invalidaccess` and `execstackoverflow`.
pub fn begin_for(operands: &mut Operands, frames: &mut Frames) -> Result<(), ErrorName>
    ensures controls { (h : Heap) (size : ℕ) → IsReadyFor h size (stacks operands.old frames.old)
        → Controls rows.for_row result h size (stacks operands.old frames.old)
        (stacks operands.new frames.new) }
    ensures framed { OnErr result (frames.new ≡ frames.old) }
{
    let Some(start) = operands.peek(3) else {
        return Err(ErrorName::StackUnderflow);
    };
    let Some((procedure, last, step)) = operands.top_three() else {
        return Err(ErrorName::StackUnderflow);
    };
    let Some(body) = procedure_of(procedure) else {
        return Err(ErrorName::TypeCheck);
    };
    let Some(limit) = integer_of(last) else {
        return Err(ErrorName::TypeCheck);
    };
    let Some(increment) = integer_of(step) else {
        return Err(ErrorName::TypeCheck);
    };
    let Some(first) = integer_of(start) else {
        return Err(ErrorName::TypeCheck);
    };
    if !is_executable(body.access) {
        return Err(ErrorName::InvalidAccess);
    }
    let frame = Frame::For {
        control: first as i64,
        increment,
        limit,
        body,
    };
    begin(operands, frames, 4, frame)
}

/// `n P repeat`. Raises `stackunderflow`, `typecheck`, `invalidaccess`, `rangecheck` for a negative
/// number and `execstackoverflow`.
pub fn begin_repeat(operands: &mut Operands, frames: &mut Frames) -> Result<(), ErrorName>
    ensures controls { (h : Heap) (size : ℕ) → IsReadyFor h size (stacks operands.old frames.old)
        → Controls rows.repeat_row result h size (stacks operands.old frames.old)
        (stacks operands.new frames.new) }
    ensures framed { OnErr result (frames.new ≡ frames.old) }
{
    let Some((procedure, number)) = operands.top_two() else {
        return Err(ErrorName::StackUnderflow);
    };
    let Some(body) = procedure_of(procedure) else {
        return Err(ErrorName::TypeCheck);
    };
    let Some(turns) = integer_of(number) else {
        return Err(ErrorName::TypeCheck);
    };
    if !is_executable(body.access) {
        return Err(ErrorName::InvalidAccess);
    }
    let Some(count) = count_of(turns) else {
        return Err(ErrorName::RangeCheck);
    };
    begin(operands, frames, 2, Frame::Repeat { count, body })
}

/// `P loop`. Raises `stackunderflow`, `typecheck`, `invalidaccess` and `execstackoverflow`.
pub fn begin_loop(operands: &mut Operands, frames: &mut Frames) -> Result<(), ErrorName>
    ensures controls { (h : Heap) (size : ℕ) → IsReadyFor h size (stacks operands.old frames.old)
        → Controls rows.loop_row result h size (stacks operands.old frames.old)
        (stacks operands.new frames.new) }
    ensures framed { OnErr result (frames.new ≡ frames.old) }
{
    let Some(procedure) = operands.top() else {
        return Err(ErrorName::StackUnderflow);
    };
    let Some(body) = procedure_of(procedure) else {
        return Err(ErrorName::TypeCheck);
    };
    if !is_executable(body.access) {
        return Err(ErrorName::InvalidAccess);
    }
    begin(operands, frames, 1, Frame::Loop { body })
}

/// `X P forall`: a loop over an array, a string or a dictionary, whose access the caller has read;
/// `None`: what is looped over has none. Raises `stackunderflow`,
/// `typecheck`, `invalidaccess` and `execstackoverflow`.
pub fn begin_forall(
    operands: &mut Operands,
    frames: &mut Frames,
    access: Option<Access>,
) -> Result<(), ErrorName>
    ensures controls { (h : Heap) (size : ℕ) → IsReadyFor h size (stacks operands.old frames.old)
        → IsSecondAccess h operands.old access
        → Controls rows.forall_row result h size (stacks operands.old frames.old)
        (stacks operands.new frames.new) }
    ensures framed { OnErr result (frames.new ≡ frames.old) }
{
    let Some((procedure, over)) = operands.top_two() else {
        return Err(ErrorName::StackUnderflow);
    };
    let Some(body) = procedure_of(procedure) else {
        return Err(ErrorName::TypeCheck);
    };
    let Some(access) = access else {
        return Err(ErrorName::TypeCheck);
    };
    if !may_loop(body.access, access) {
        return Err(ErrorName::InvalidAccess);
    }
    if frames.is_full() {
        return Err(ErrorName::ExecStackOverflow);
    }
    push_frame(frames, Frame::Forall { over, at: 0, body });
    operands.discard(2);
    Ok(())
}

/// `x stopped`: the object is executed next, above a frame where an unwinding ends. Raises
/// `stackunderflow`, and `execstackoverflow` where two frames don't fit.
pub fn begin_stopped(operands: &mut Operands, frames: &mut Frames) -> Result<(), ErrorName>
    ensures controls { (h : Heap) (size : ℕ) → IsReadyFor h size (stacks operands.old frames.old)
        → Controls rows.stopped_row result h size (stacks operands.old frames.old)
        (stacks operands.new frames.new) }
    ensures framed { OnErr result (frames.new ≡ frames.old) }
{
    let Some(word) = operands.top() else {
        return Err(ErrorName::StackUnderflow);
    };
    if frames.len() > FRAME_LIMIT - 2 {
        return Err(ErrorName::ExecStackOverflow);
    }
    push_frame(frames, Frame::Stopped);
    push_frame(frames, Frame::Pending { word });
    operands.discard(1);
    Ok(())
}

/// `P bind`: its names begin to be replaced by operators where it can be written. Raises
/// `stackunderflow`, `typecheck` and `execstackoverflow`.
pub fn begin_bind(operands: &mut Operands, frames: &mut Frames) -> Result<(), ErrorName>
    ensures controls { (h : Heap) (size : ℕ) → IsReadyFor h size (stacks operands.old frames.old)
        → Controls rows.bind_row result h size (stacks operands.old frames.old)
        (stacks operands.new frames.new) }
    ensures framed { OnErr result (frames.new ≡ frames.old) }
{
    let Some(procedure) = operands.top() else {
        return Err(ErrorName::StackUnderflow);
    };
    let Some(over) = procedure_of(procedure) else {
        return Err(ErrorName::TypeCheck);
    };
    if is_unlimited(over.access) {
        return begin(
            operands,
            frames,
            0,
            Frame::Bind {
                over,
                at: 0,
                depth: 1,
            },
        );
    }
    Ok(())
}
