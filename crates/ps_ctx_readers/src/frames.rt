//! The frames of a context as they are seen from outside.

ghost use Rattle.std.specs.Prelude.{◌≡◌, ℕ, List, option_map, slice_get};
ghost use Rattle.ps_mem.specs.Heap.{birth_at, object_at};
ghost use Rattle.ps_mem.specs.Shows.{IsSound};
ghost use Rattle.ps_ops_control.specs.Frames.{AreFrames, IsFrame, frame_of, frames_in};
ghost use Rattle.ps_ctx_readers.specs.Frames.{seen};

use crate::births::birth_of;
use ps_mem::Memory;
use ps_ops_control::frames::{Frame, Frames, Source};

/// A frame, by birth numbers in place of addresses.
#[derive(Clone, Copy, Debug, PartialEq, Eq)]
pub enum FrameView {
    /// The program, whose next token is looked for from this byte on.
    Program {
        at: usize,
    },
    /// A string that is executed, by its object, whose next token is looked for from this byte of
    /// it on.
    Text {
        birth: u64,
        at: usize,
    },
    /// What is left of a procedure: its array, the index of the next element in that, and how many
    /// there are.
    Procedure {
        birth: u64,
        next: u16,
        left: u16,
    },
    /// A value that is executed next.
    Pending,
    /// A `repeat` with so many turns left.
    Repeat {
        left: usize,
    },
    Loop,
    /// A `for` with the control value of its next turn.
    For {
        control: i64,
        increment: i32,
        limit: i32,
    },
    /// A `forall` with the place of its next element.
    Forall {
        at: usize,
    },
    /// Where `stopped` began.
    Stopped,
    /// The lock that is freed when the frame goes.
    Monitor {
        lock: u64,
    },
    /// A procedure whose names are replaced by operators.
    Bind,
}

/// A frame as it is seen. The memory is only read.
pub fn view_of<M: Memory>(frame: Frame, memory: &mut M) -> FrameView
    requires sound { IsSound (M.heap memory.old) }
    requires held { (size : ℕ) × IsFrame (M.heap memory.old) size frame }
    ensures heap { M.heap memory.new ≡ M.heap memory.old }
    ensures grants { M.grants memory.new ≡ M.grants memory.old }
    ensures view { (names : List (List ℕ))
        → result ≡ seen (frame_of (birth_at (M.heap memory.old)) names frame) }
{
    match frame {
        Frame::Text {
            source: Source::Program,
            at,
        } => FrameView::Program { at },
        Frame::Text {
            source: Source::Text(part),
            at,
        } => FrameView::Text {
            birth: birth_of(memory, part.address),
            at: part.offset as usize + at,
        },
        Frame::Procedure { rest } => FrameView::Procedure {
            birth: birth_of(memory, rest.address),
            next: rest.offset,
            left: rest.length,
        },
        Frame::Pending { word: _ } => FrameView::Pending,
        Frame::Repeat { count, body: _ } => FrameView::Repeat { left: count },
        Frame::Loop { body: _ } => FrameView::Loop,
        Frame::For {
            control,
            increment,
            limit,
            body: _,
        } => FrameView::For {
            control,
            increment,
            limit,
        },
        Frame::Forall {
            over: _,
            at,
            body: _,
        } => FrameView::Forall { at },
        Frame::Stopped => FrameView::Stopped,
        Frame::Monitor { lock } => FrameView::Monitor {
            lock: birth_of(memory, lock),
        },
        Frame::Bind {
            over: _,
            at: _,
            depth: _,
        } => FrameView::Bind,
    }
}

/// The frame below so many others, as it is seen. The memory is only read.
pub fn view_below<M: Memory>(frames: &Frames, depth: usize, memory: &mut M) -> Option<FrameView>
    requires sound { IsSound (M.heap memory.old) }
    requires held { (size : ℕ) × AreFrames (M.heap memory.old) size frames.now }
    ensures heap { M.heap memory.new ≡ M.heap memory.old }
    ensures grants { M.grants memory.new ≡ M.grants memory.old }
    ensures view { (names : List (List ℕ)) → result ≡ option_map seen
        (slice_get (frames_in (M.heap memory.old) names frames.now) depth) }
{
    match frames.peek(depth) {
        Some(frame) => Some(view_of(frame, memory)),
        None => None,
    }
}
