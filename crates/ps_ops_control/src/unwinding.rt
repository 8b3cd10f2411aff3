//! Where an unwinding for `stop`, `exit` and `quit` ends (PLRM2, 3.10, 8 'Operators': exit, stop,
//! quit).

ghost use Rattle.std.specs.Prelude.{◌≡◌, ℕ, List};
ghost use Rattle.ps_language.specs.Control as language;
ghost use Rattle.ps_mem.specs.Heap.{Heap};
ghost use Rattle.ps_ops_control.specs.Frames.{frames_in};
ghost use Rattle.ps_ops_control.specs.Turns as turns;

use crate::frames::{Cause, Frame, Frames};

/// Whether an unwinding ends at a loop: `exit` does.
pub fn ends_at_loop(cause: Cause, frame: Frame) -> bool
    ensures { result ≡ turns.ends_at_loop cause frame }
{
    match frame {
        Frame::Repeat { .. } | Frame::Loop { .. } | Frame::For { .. } | Frame::Forall { .. } =>
            match cause {
                Cause::Exit => true,
                Cause::Stop | Cause::Quit => false,
            },
        _ => false,
    }
}

/// Whether an unwinding ends at the frame of `stopped`: `stop` does.
pub fn ends_at_stopped(cause: Cause, frame: Frame) -> bool
    ensures { result ≡ turns.ends_at_stopped cause frame }
{
    match frame {
        Frame::Stopped => match cause {
            Cause::Stop => true,
            Cause::Exit | Cause::Quit => false,
        },
        _ => false,
    }
}

/// Whether `exit` has a loop to end: one stands above the topmost frame of `stopped`.
pub fn is_in_loop(frames: &Frames) -> bool
    ensures { (h : Heap) (names : List (List ℕ)) → result
        ≡ language.is_in_loop (frames_in h names frames.now) }
{
    for depth in 0..frames.len() {
        let Some(frame) = frames.peek(depth) else {
            return false;
        };
        if ends_at_stopped(Cause::Stop, frame) {
            return false;
        }
        if ends_at_loop(Cause::Exit, frame) {
            return true;
        }
    }
    false
}

/// How many frames an `exit` takes off, where procedures alone stand above a loop and they are at
/// most so many. `None`: another frame stands there, or more.
#[inline]
pub fn frames_to_loop(frames: &Frames, most: u32) -> Option<u32>
    ensures { result ≡ turns.no_more_than most (turns.frames_to_loop frames.now) }
{
    for depth in 0..most {
        let frame = frames.peek(depth as usize)?;
        if ends_at_loop(Cause::Exit, frame) {
            return Some(depth + 1);
        }
        match frame {
            Frame::Procedure { .. } => {}
            _ => return None,
        }
    }
    None
}
