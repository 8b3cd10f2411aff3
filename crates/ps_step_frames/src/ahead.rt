//! Turns of loops, and procedures that wait, by operands and frames alone, where they raise no error
//! (PLRM2, 3.4).

ghost use Rattle.std.specs.Prelude.{◌≡◌, Some};
ghost use Rattle.ps_ops_state.specs.Lent.{lent, IsGood};
ghost use Rattle.ps_ops_control.specs.Ahead.{HasRoom, OnLeft};
ghost use Rattle.ps_stacks.specs.Tops.{first_of};
ghost use Rattle.ps_step_execute.specs.Values.{Asks};
ghost use Rattle.ps_step_frames.specs.Steps.{GoesAhead};

use crate::frames::drop_top;
use crate::places::operands_at;
use ps_mem::Memory;
use ps_ops_control::ahead::{
    Ahead, enter_ahead, for_ahead, forall_ahead, loop_ahead, repeat_ahead,
};
use ps_ops_control::frames::{ForLoop, ForallLoop, Frame};
use ps_ops_state::lent::{Context, Shared};

/// A turn of the loop that is the topmost frame, up to the frame of the procedure that it enters, or
/// its end; or the procedure that waits there, as `exec` leaves it, is entered, up to its frame.
/// Where an error is to be raised, or a loop's procedure is empty, and by every other frame, nothing
/// changes. The memory stays as it is.
#[inline(always)]
pub fn turn_ahead<M: Memory>(
    top: Frame,
    context: &mut Context,
    shared: &Shared,
    memory: &mut M,
) -> Ahead
    requires good { IsGood
        (lent (M.heap memory.old) (M.grants memory.old) context.old shared.now) }
    requires top { first_of context.old.frames ≡ Some top }
    ensures heap { M.heap memory.new ≡ M.heap memory.old }
    ensures grants { M.grants memory.new ≡ M.grants memory.old }
    ensures goes { (asks : Asks) → GoesAhead asks result
        (lent (M.heap memory.old) (M.grants memory.old) context.old shared.now)
        (lent (M.heap memory.old) (M.grants memory.old) context.new shared.now) }
    ensures room { HasRoom 2 result context.new.frames }
    ensures left { OnLeft result
        (lent (M.heap memory.old) (M.grants memory.old) context.new shared.now
        ≡ lent (M.heap memory.old) (M.grants memory.old) context.old shared.now) }
{
    let operands = &mut context.operands;
    let frames = &mut context.frames;
    match top {
        Frame::Repeat { count, body } => repeat_ahead(operands, frames, count, body),
        Frame::Loop { body } => loop_ahead(operands, frames, body),
        Frame::For {
            control,
            increment,
            limit,
            body,
        } => {
            let state = ForLoop {
                control,
                increment,
                limit,
                body,
            };
            for_ahead(operands, frames, state)
        }
        Frame::Forall { over, at, body } => match operands_at(over, at, memory) {
            None => {
                drop_top(frames);
                Ahead::Goes
            }
            Some(pushed) => {
                forall_ahead(operands, frames, ForallLoop { over, at, body }, pushed)
            }
        },
        Frame::Pending { word } => {
            let Some(body) = word.as_enterable() else {
                return Ahead::Left;
            };
            if frames.is_full() {
                return Ahead::Left;
            }
            drop_top(frames);
            enter_ahead(body)
        }
        _ => Ahead::Left,
    }
}
