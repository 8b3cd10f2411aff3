//! The frames of a context's execution stack (PLRM2, 3.4).

ghost use Rattle.std.specs.Prelude.{◌≡◌, ◌∷◌, ◌<◌, ◌≤◌, drop, length};
ghost use Rattle.ps_language.specs.Limits.{frame_limit};

use ps_stacks::ExecutionStack;
use ps_word::values::Part;
use ps_word::words::Word;

/// Where a text is read from.
#[derive(Clone, Copy, Debug, PartialEq, Eq, Hash)]
pub enum Source {
    /// The program of the run.
    Program,
    /// A string, as it stands at each step.
    Text(Part),
}

/// The state of a `for` loop.
#[derive(Clone, Copy)]
pub struct ForLoop {
    /// The control value of the next turn, which may lie one increment past 32 bits.
    pub control: i64,
    /// What each turn adds to the control value.
    pub increment: i32,
    /// The last control value that has a turn.
    pub limit: i32,
    /// The procedure that each turn enters.
    pub body: Part,
}

/// The state of a `forall` loop.
#[derive(Clone, Copy)]
pub struct ForallLoop {
    /// An array, a string or a dictionary.
    pub over: Word,
    /// The place of its next element.
    pub at: usize,
    /// The procedure that each turn enters.
    pub body: Part,
}

/// What is being executed.
#[derive(Clone, Copy, Debug, PartialEq, Eq, Hash)]
pub enum Frame {
    /// A text, from a place on.
    Text {
        source: Source,
        at: usize,
    },
    /// The elements of a procedure that are left, at least one.
    Procedure {
        rest: Part,
    },
    /// An object that is executed next.
    Pending {
        word: Word,
    },
    /// The turns that are left, and the procedure.
    Repeat {
        count: usize,
        body: Part,
    },
    /// A loop without end.
    Loop {
        body: Part,
    },
    /// The control value of the next turn, which may lie one increment past 32 bits, the increment,
    /// the limit and the procedure.
    For {
        control: i64,
        increment: i32,
        limit: i32,
        body: Part,
    },
    /// An array, a string or a dictionary, the place of its next element, and the procedure that is
    /// done for each.
    Forall {
        over: Word,
        at: usize,
        body: Part,
    },
    /// Where `stopped` began: an unwinding for `stop` ends here.
    Stopped,
    /// A lock that is freed when the frame goes.
    Monitor {
        lock: u32,
    },
    /// A procedure whose names are replaced by operators, the place of its next element, and how
    /// deep it lies in others, from 1.
    Bind {
        over: Part,
        at: u32,
        depth: u32,
    },
}

/// What an unwinding is for.
#[derive(Clone, Copy, Debug, PartialEq, Eq, Hash)]
pub enum Cause {
    /// It ends at the frame of `stopped`.
    Stop,
    /// It ends at the frame of a loop.
    Exit,
    /// It ends with the last frame.
    Quit,
}

/// The frames, the topmost first.
pub type Frames = ExecutionStack<Frame>;

/// Pushes a frame for which there is room.
#[inline]
pub fn push_frame(frames: &mut Frames, frame: Frame)
    requires { length frames.old < frame_limit }
    ensures { frames.new ≡ frame ∷ frames.old }
{
    let _ = frames.push(frame);
}

/// Puts another frame in the place of the topmost.
#[inline]
pub fn replace_top(frames: &mut Frames, frame: Frame)
    requires { 1 ≤ length frames.old }
    ensures { frames.new ≡ frame ∷ drop 1 frames.old }
{
    frames.replace(1, frame);
}
