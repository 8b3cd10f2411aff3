//! One frame of an unwinding for `stop`, `exit` or `quit` (PLRM2, 3.10, 8 'Operators': Control).

ghost use Rattle.std.specs.Prelude.{◌≡◌, ◌<◌, Some, false};
ghost use Rattle.ps_ops_state.specs.Lent.{lent_of, IsGood};
ghost use Rattle.ps_ops_control.specs.Turns as control;
ghost use Rattle.ps_stacks.specs.Tops.{first_of};
ghost use Rattle.ps_step_outcome.specs.Turns.{Turns, nothing_more};
ghost use Rattle.ps_step_frames.specs.Steps.{gone_turn, unwinding_asks, unwinding_turn};

use crate::frames::drop_top;
use crate::loops::push_truth;
use crate::releases::unwind_monitor;
use ps_mem::Memory;
use ps_ops_control::frames::{Cause, Frame, push_frame};
use ps_ops_control::unwinding::{ends_at_loop, ends_at_stopped};
use ps_ops_operands::failure::NotMade;
use ps_ops_state::lent::{Attempt, Context, Runtime};
use ps_step_outcome::breaks::break_off;
use ps_step_outcome::turned::Turned;

/// An unwinding once its topmost frame has gone: the context runs, a boolean is pushed, or it goes
/// on, and where no frame is left the context ends. Raises `stackoverflow` with `stopped` as the
/// command.
///
/// Not made, with nothing changed: as the note of an error, or the end of a context.
fn after_frame<M: Memory>(
    cause: Cause,
    frame: Frame,
    context: &mut Context,
    runtime: &mut Runtime<M>,
    attempt: Attempt,
) -> Result<Turned, NotMade>
    requires good { IsGood (lent_of M.heap M.grants context.old runtime.old) }
    ensures { Turns nothing_more (gone_turn (control.ends_at_loop cause frame)
        (control.ends_at_stopped cause frame) cause) attempt result
        (lent_of M.heap M.grants context.old runtime.old)
        (lent_of M.heap M.grants context.new runtime.new) }
{
    if ends_at_loop(cause, frame) {
        return Ok(Turned::Goes);
    }
    if ends_at_stopped(cause, frame) {
        return push_truth(true, context, runtime, attempt);
    }
    break_off(cause, context, runtime, attempt)
}

/// One frame of an unwinding goes, which holds no lock. The unwinding ends at the frame of
/// `stopped` for stop, where true is pushed, and at a loop for exit; else it goes on, and the
/// context ends with the last frame. Raises `stackoverflow` with `stopped` as the command; the
/// frame goes then too.
///
/// Not made, with nothing changed: as the note of an error, or the end of a context.
fn unwind_unlocked<M: Memory>(
    cause: Cause,
    top: Frame,
    context: &mut Context,
    runtime: &mut Runtime<M>,
    attempt: Attempt,
) -> Result<Turned, NotMade>
    requires good { IsGood (lent_of M.heap M.grants context.old runtime.old) }
    requires top { first_of context.old.frames ≡ Some top }
    requires free { control.is_monitor top ≡ false }
    ensures { Turns nothing_more (unwinding_turn cause) attempt result
        (lent_of M.heap M.grants context.old runtime.old)
        (lent_of M.heap M.grants context.new runtime.new) }
{
    drop_top(&mut context.frames);
    match after_frame(cause, top, context, runtime, attempt) {
        Ok(turned) => Ok(turned),
        Err(reason) => {
            push_frame(&mut context.frames, top);
            Err(reason)
        }
    }
}

/// One frame of an unwinding goes; the lock of a monitor is free then. The unwinding ends at the
/// frame of `stopped` for stop, where true is pushed, and at a loop for exit; else it goes on, and
/// the context ends with the last frame. Raises `stackoverflow` with `stopped` as the command; the
/// frame goes then too.
///
/// Not made, with nothing changed: where the log of the slot takes no record for the lock, as the
/// note of an error, or the end of a context.
pub fn unwind_turn<M: Memory>(
    cause: Cause,
    top: Frame,
    context: &mut Context,
    runtime: &mut Runtime<M>,
    attempt: Attempt,
) -> Result<Turned, NotMade>
    requires good { IsGood (lent_of M.heap M.grants context.old runtime.old) }
    requires top { first_of context.old.frames ≡ Some top }
    ensures { Turns unwinding_asks (unwinding_turn cause) attempt result
        (lent_of M.heap M.grants context.old runtime.old)
        (lent_of M.heap M.grants context.new runtime.new) }
{
    match top {
        Frame::Monitor { lock } => unwind_monitor(cause, lock, context, runtime, attempt),
        _ => unwind_unlocked(cause, top, context, runtime, attempt),
    }
}
