//! The topmost frame goes, goes on, or is put back (PLRM2, 3.4).

ghost use Rattle.std.specs.Prelude.{◌≡◌, ◌∷◌, ◌+◌, ◌-◌, ◌<◌, ◌≤◌, ◌^◌, List, Some, drop, length};
ghost use Rattle.ps_language.specs.Limits.{frame_limit};
ghost use Rattle.ps_ops_control.specs.declared.frames.Frame.{Frame as TheFrame};
ghost use Rattle.ps_stacks.specs.Tops.{first_of};
ghost use Rattle.ps_step_frames.specs.Steps.{frames_after, procedure_in, rest_frames};

use ps_ops_control::frames::{Frame, Frames};
use ps_word::values::Part;

/// Takes the topmost frame off, if there is one; then there is room for another.
#[inline(always)]
pub fn drop_top(frames: &mut Frames)
    ensures frames { frames.new ≡ drop 1 frames.old }
    ensures room { length frames.new < frame_limit }
{
    if frames.len() > 0 {
        frames.discard(1);
    }
}

/// What is left of the procedure that is the topmost frame, where one is.
#[inline(always)]
pub fn top_procedure(frames: &Frames) -> Option<Part>
    ensures { result ≡ procedure_in (first_of frames.now) }
{
    match frames.top() {
        Some(Frame::Procedure { rest }) => Some(rest),
        _ => None,
    }
}

/// Goes so many elements further in the topmost frame, a procedure that has more, in place.
#[inline(always)]
fn go_further(frames: &mut Frames, rest: Part, count: u16)
    requires top { first_of frames.old ≡ Some (Frame.Procedure rest) }
    requires more { count < rest.length }
    requires end { rest.offset + rest.length < 2 ^ 16 }
    ensures { frames.new ≡ Frame.Procedure
        (record rest { offset = rest.offset + count; length = rest.length - count })
        ∷ drop 1 frames.old }
{
    if let Frame::Procedure { rest } = frames.top_mut() {
        rest.offset += count;
        rest.length -= count;
    }
}

/// Takes the first elements of the topmost frame, a procedure: the frame goes with the last.
#[inline(always)]
pub fn advance(frames: &mut Frames, rest: Part, count: u16)
    requires top { first_of frames.old ≡ Some (Frame.Procedure rest) }
    requires end { rest.offset + rest.length < 2 ^ 16 }
    ensures frames { frames.new ≡ frames_after count rest (drop 1 frames.old) }
    ensures room { rest.length ≤ count → length frames.new < frame_limit }
{
    if rest.length > count {
        go_further(frames, rest, count);
    } else {
        drop_top(frames);
    }
}

/// Pushes what is left of a procedure behind its first element, where something is.
#[inline(always)]
pub fn push_rest(frames: &mut Frames, rest: Part)
    requires room { length frames.old < frame_limit }
    requires end { rest.offset + rest.length < 2 ^ 16 }
    ensures frames { frames.new ≡ rest_frames rest frames.old }
    ensures room { length frames.new ≤ length frames.old + 1 }
{
    if rest.length > 1 {
        let left = Part {
            offset: rest.offset + 1,
            length: rest.length - 1,
            ..rest
        };
        frames.push_reserved(Frame::Procedure { rest: left });
    }
}

/// Puts the first element back that was taken.
#[inline(never)]
pub fn put_back(frames: &mut Frames, rest: Part)
    requires some { 1 < rest.length → 1 ≤ length frames.old }
    requires room { rest.length ≤ 1 → length frames.old < frame_limit }
    ensures { (below : List TheFrame) → frames.old ≡ rest_frames rest below
        → frames.new ≡ Frame.Procedure rest ∷ below }
{
    let frame = Frame::Procedure { rest };
    if rest.length > 1 {
        frames.set_top(frame);
    } else {
        frames.push_reserved(frame);
    }
}
