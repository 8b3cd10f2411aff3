//! A step of a running context by its topmost frame (PLRM2, 3.4, 3.5).

ghost use Rattle.std.specs.Prelude.{◌≡◌, ◌<◌, IsTrue, Some};
ghost use Rattle.ps_ops_state.specs.Lent.{lent_of, IsGood};
ghost use Rattle.ps_stacks.specs.Tops.{first_of};
ghost use Rattle.ps_step_outcome.specs.Turns.{Turns};
ghost use Rattle.ps_step_frames.specs.Steps.{frame_asks, is_stepped, running_turn};

use crate::bindings::bind_turn;
use crate::elements::{pending_turn, procedure_turn};
use crate::loops::{for_step, forall_step, loop_step, repeat_step, stopped_step};
use crate::monitors::monitor_turn;
use ps_mem::Memory;
use ps_ops_control::frames::{ForLoop, ForallLoop, Frame};
use ps_ops_operands::failure::NotMade;
use ps_ops_state::lent::{Attempt, Context, Runtime};
use ps_step_execute::operates::Operate;
use ps_step_outcome::turned::Turned;

/// A step by the topmost frame: an element of a procedure is done, a value that waits is executed,
/// a loop turns or ends, elements are bound, or the frame of `stopped` or of a monitor goes, whose
/// lock is free then. Raises what the element or the value raises, `stackoverflow` and
/// `execstackoverflow` of a loop, and what `bind` raises.
///
/// Not made, with nothing changed: as the element or the value, as `bind_turn` and `monitor_turn`,
/// or the note of an error.
#[inline(always)]
pub fn frame_turn<O: Operate, M: Memory>(
    top: Frame,
    context: &mut Context,
    runtime: &mut Runtime<M>,
    attempt: Attempt,
) -> Result<Turned, NotMade>
    requires good { IsGood (lent_of M.heap M.grants context.old runtime.old) }
    requires top { first_of context.old.frames ≡ Some top }
    requires here { IsTrue (is_stepped top) }
    ensures { Turns (frame_asks O.asks) running_turn attempt result
        (lent_of M.heap M.grants context.old runtime.old)
        (lent_of M.heap M.grants context.new runtime.new) }
{
    match top {
        Frame::Procedure { rest } => { procedure_turn::<O, M>(rest, context, runtime, attempt) }
        Frame::Pending { word } => pending_turn::<O, M>(word, context, runtime, attempt),
        Frame::Repeat { count, body } => repeat_step(count, body, context, runtime, attempt),
        Frame::Loop { body } => loop_step(body, context, runtime, attempt),
        Frame::For {
            control,
            increment,
            limit,
            body,
        } => {
            let state = ForLoop {
                control,
                increment,
                limit,
                body,
            };
            for_step(state, context, runtime, attempt)
        }
        Frame::Forall { over, at, body } => {
            forall_step(ForallLoop { over, at, body }, context, runtime, attempt)
        }
        Frame::Stopped => stopped_step(context, runtime, attempt),
        Frame::Bind { over, at, depth } => { bind_turn(over, at, depth, context, runtime, attempt) }
        Frame::Monitor { lock } => monitor_turn(
            lock,
            context,
            &runtime.shared,
            &mut runtime.memory,
            attempt,
        ),
        Frame::Text { .. } => unreachable!(),
    }
}
