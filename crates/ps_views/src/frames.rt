//! A frame of the execution stack as a line tells it, and what a step does.

ghost use Rattle.std.specs.Prelude.{◌≡◌, ◌<◌, ◌≤◌, ◌++◌, take, length, OnOk, OnErr, vec_capacity};
ghost use Rattle.std.specs.Option.{option_copied};
ghost use Rattle.ps_language.specs.StepFrames as steps;
ghost use Rattle.ps_views.specs.Frames as frames;
ghost use Rattle.ps_views.specs.Frames.{after_text, coming_text, for_text, frame_details};
ghost use Rattle.ps_views.specs.Frames.{frame_text, program_text, range_text, repeat_text, turn_text};

use crate::bytes::{append, append_integer, append_number};
use crate::lines::{append_at, append_cut, append_label};
use ps_places::Position;
use std::alloc::AllocError;

/// A frame of the execution stack as a line tells it (PLRM2, 3.4).
#[derive(Clone, Copy, Debug, PartialEq, Eq)]
pub enum FrameLine {
    /// The program, and where it is gone on with. `None`: its end is reached.
    Program {
        position: Option<Position>,
    },
    /// A string that is executed, by its birth number, from this byte of it on.
    Text {
        birth: u64,
        at: usize,
    },
    /// A procedure with so many elements left, and where the next one stands, as far as that is
    /// known.
    Procedure {
        position: Option<Position>,
        left: u16,
    },
    /// A value that is executed next.
    Pending,
    /// A `repeat` with so many turns left.
    Repeat {
        left: usize,
    },
    Loop,
    /// A `for` with the control value of its next turn.
    For {
        control: i64,
        increment: i32,
        limit: i32,
    },
    /// A `forall` with the place of its next element.
    Forall {
        at: usize,
    },
    /// Where `stopped` began.
    Stopped,
    /// The lock, by its birth number, that is freed when the frame goes.
    Monitor {
        lock: u64,
    },
    /// A procedure whose names are replaced by operators.
    Bind,
}

/// What a step of a context does.
#[derive(Clone, Copy, Debug, PartialEq, Eq)]
pub enum Coming {
    /// Nothing: it waits, or is finished.
    Nothing,
    /// It executes a value: a token, an element of a procedure, or what was pending.
    Value,
    /// It finds nothing more in the program.
    ProgramEnd,
    /// It finds nothing more in a string that is executed.
    TextEnd,
    /// A turn of a frame that is no text, procedure or pending value, or its end.
    Turn(FrameLine),
    /// It takes this frame off.
    Unwinding(FrameLine),
    /// No frame is left to be taken off.
    Unwound,
    /// It tries `join` again.
    Joining,
    /// It tries `monitor` again.
    Entering,
    /// It takes the lock again that it had before it waited for a condition.
    Retaking,
}

/// What a frame is, in a word.
fn frame_word(frame: FrameLine) -> &'static [u8]
    ensures { result.now ≡ frames.frame_word frame }
{
    match frame {
        FrameLine::Program { position: _ } => b"program",
        FrameLine::Text { birth: _, at: _ } => b"string",
        FrameLine::Procedure {
            position: _,
            left: _,
        } => b"procedure",
        FrameLine::Pending => b"pending",
        FrameLine::Repeat { left: _ } => b"repeat",
        FrameLine::Loop => b"loop",
        FrameLine::For {
            control: _,
            increment: _,
            limit: _,
        } => b"for",
        FrameLine::Forall { at: _ } => b"forall",
        FrameLine::Stopped => b"stopped",
        FrameLine::Monitor { lock: _ } => b"monitor",
        FrameLine::Bind => b"bind",
    }
}

/// Appends where the program is gone on with.
fn append_program(
    file: &[u8],
    position: Option<Position>,
    to: &mut Vec<u8>,
) -> Result<(), AllocError>
    ensures appended { OnOk result (to.new.items ≡ to.old.items ++ program_text file.now position) }
    ensures front { take (length to.old.items) to.new.items ≡ to.old.items }
    ensures capacity { vec_capacity to.old ≤ vec_capacity to.new }
    ensures full { OnErr result
        (vec_capacity to.old < length (to.old.items ++ program_text file.now position)) }
{
    if position.is_none() {
        return append(b" at its end", to);
    }
    append_at(file, position, to)
}

/// Appends an integer behind a word.
fn append_after(word: &[u8], number: i64, to: &mut Vec<u8>) -> Result<(), AllocError>
    ensures appended { OnOk result (to.new.items ≡ to.old.items ++ after_text word.now number) }
    ensures front { take (length to.old.items) to.new.items ≡ to.old.items }
    ensures capacity { vec_capacity to.old ≤ vec_capacity to.new }
    ensures full { OnErr result
        (vec_capacity to.old < length (to.old.items ++ after_text word.now number)) }
{
    append(word, to)?;
    append_integer(number, to)
}

/// Appends the control value of a `for`, what is added to it each turn, and its limit.
fn append_range(
    control: i64,
    increment: i32,
    limit: i32,
    to: &mut Vec<u8>,
) -> Result<(), AllocError>
    ensures appended { OnOk result
        (to.new.items ≡ to.old.items ++ range_text control increment limit) }
    ensures front { take (length to.old.items) to.new.items ≡ to.old.items }
    ensures capacity { vec_capacity to.old ≤ vec_capacity to.new }
    ensures full { OnErr result
        (vec_capacity to.old < length (to.old.items ++ range_text control increment limit)) }
{
    append_after(b", next ", control, to)?;
    append_after(b" by ", i64::from(increment), to)?;
    append_after(b" to ", i64::from(limit), to)
}

/// Appends how far a frame is.
fn append_details(file: &[u8], frame: FrameLine, to: &mut Vec<u8>) -> Result<(), AllocError>
    ensures appended { OnOk result (to.new.items ≡ to.old.items ++ frame_details file.now frame) }
    ensures front { take (length to.old.items) to.new.items ≡ to.old.items }
    ensures capacity { vec_capacity to.old ≤ vec_capacity to.new }
    ensures full { OnErr result
        (vec_capacity to.old < length (to.old.items ++ frame_details file.now frame)) }
{
    match frame {
        FrameLine::Program { position } => append_program(file, position, to),
        FrameLine::Text { birth, at } => {
            append(b" ", to)?;
            append_number(birth, to)?;
            append(b" at byte ", to)?;
            append_number(at, to)
        }
        FrameLine::Procedure { position, left } => {
            append_at(file, position, to)?;
            append(b", ", to)?;
            append_number(left, to)?;
            append(b" left", to)
        }
        FrameLine::Repeat { left } => {
            append(b", ", to)?;
            append_number(left, to)?;
            append(b" more", to)
        }
        FrameLine::For {
            control,
            increment,
            limit,
        } => append_range(control, increment, limit, to),
        FrameLine::Forall { at } => {
            append(b", at ", to)?;
            append_number(at, to)
        }
        FrameLine::Monitor { lock } => {
            append(b" of lock ", to)?;
            append_number(lock, to)
        }
        FrameLine::Pending | FrameLine::Loop | FrameLine::Stopped | FrameLine::Bind => Ok(()),
    }
}

/// Appends the line of a frame. Its label is the name of a procedure, as far as it has one, or the
/// text of a pending value.
///
/// `AllocError`: a growth was refused; what stood before stays.
#[tactic(auto, unfolding(crate::specs::Frames::frame_text))]
pub fn append_frame(
    file: &[u8],
    frame: FrameLine,
    label: Option<&[u8]>,
    to: &mut Vec<u8>,
) -> Result<(), AllocError>
    ensures appended { OnOk result
        (to.new.items ≡ to.old.items ++ frame_text file.now frame (option_copied label.entry)) }
    ensures front { take (length to.old.items) to.new.items ≡ to.old.items }
    ensures capacity { vec_capacity to.old ≤ vec_capacity to.new }
    ensures full { OnErr result (vec_capacity to.old
        < length (to.old.items ++ frame_text file.now frame (option_copied label.entry))) }
{
    append(b"  frame ", to)?;
    append(frame_word(frame), to)?;
    append_label(label, to)?;
    append_details(file, frame, to)?;
    append(b"\n", to)
}

/// Whether a control value has gone past its limit, by the sign of the increment.
fn is_past(control: i64, increment: i32, limit: i32) -> bool
    ensures { result ≡ steps.is_past control increment limit }
{
    if increment < 0 {
        control < i64::from(limit)
    } else {
        control > i64::from(limit)
    }
}

/// Appends the turn of a `repeat`.
fn append_repeat(left: usize, to: &mut Vec<u8>) -> Result<(), AllocError>
    ensures appended { OnOk result (to.new.items ≡ to.old.items ++ repeat_text left) }
    ensures front { take (length to.old.items) to.new.items ≡ to.old.items }
    ensures capacity { vec_capacity to.old ≤ vec_capacity to.new }
    ensures full { OnErr result (vec_capacity to.old < length (to.old.items ++ repeat_text left)) }
{
    if left == 0 {
        return append(b"repeat: ends", to);
    }
    append(b"repeat: ", to)?;
    append_number(left, to)?;
    append(b" more", to)
}

/// Appends the turn of a `for`.
fn append_for(control: i64, increment: i32, limit: i32, to: &mut Vec<u8>) -> Result<(), AllocError>
    ensures appended { OnOk result
        (to.new.items ≡ to.old.items ++ for_text control increment limit) }
    ensures front { take (length to.old.items) to.new.items ≡ to.old.items }
    ensures capacity { vec_capacity to.old ≤ vec_capacity to.new }
    ensures full { OnErr result
        (vec_capacity to.old < length (to.old.items ++ for_text control increment limit)) }
{
    append(b"for: ", to)?;
    if is_past(control, increment, limit) {
        append(b"ends", to)
    } else {
        append_integer(control, to)
    }
}

/// Appends what a step by a frame does.
fn append_turn(frame: FrameLine, to: &mut Vec<u8>) -> Result<(), AllocError>
    ensures appended { OnOk result (to.new.items ≡ to.old.items ++ turn_text frame) }
    ensures front { take (length to.old.items) to.new.items ≡ to.old.items }
    ensures capacity { vec_capacity to.old ≤ vec_capacity to.new }
    ensures full { OnErr result (vec_capacity to.old < length (to.old.items ++ turn_text frame)) }
{
    match frame {
        FrameLine::Repeat { left } => append_repeat(left, to),
        FrameLine::Loop => append(b"loop: once more", to),
        FrameLine::For {
            control,
            increment,
            limit,
        } => append_for(control, increment, limit, to),
        FrameLine::Forall { at } => {
            append(b"forall: ", to)?;
            append_number(at, to)
        }
        FrameLine::Stopped => append(b"stopped: ends", to),
        FrameLine::Monitor { lock: _ } => append(b"monitor: ends", to),
        FrameLine::Bind => append(b"bind: goes on", to),
        FrameLine::Program { position: _ }
        | FrameLine::Text { birth: _, at: _ }
        | FrameLine::Procedure {
            position: _,
            left: _,
        }
        | FrameLine::Pending => append(frame_word(frame), to),
    }
}

/// Appends what a step does. Of a value that is executed its text, in at most so many bytes.
#[tactic(auto, unfolding(crate::specs::Frames::coming_text))]
pub(crate) fn append_coming(
    most: usize,
    coming: Coming,
    value: &[u8],
    to: &mut Vec<u8>,
) -> Result<(), AllocError>
    ensures appended { OnOk result
        (to.new.items ≡ to.old.items ++ coming_text most coming value.now) }
    ensures front { take (length to.old.items) to.new.items ≡ to.old.items }
    ensures capacity { vec_capacity to.old ≤ vec_capacity to.new }
    ensures full { OnErr result
        (vec_capacity to.old < length (to.old.items ++ coming_text most coming value.now)) }
{
    match coming {
        Coming::Nothing => append(b"nothing", to),
        Coming::Value => append_cut(value, most, to),
        Coming::ProgramEnd => append(b"end of the program", to),
        Coming::TextEnd => append(b"end of a string", to),
        Coming::Turn(frame) => append_turn(frame, to),
        Coming::Unwinding(frame) => {
            append(b"unwinds ", to)?;
            append(frame_word(frame), to)
        }
        Coming::Unwound => append(b"unwinds to the end", to),
        Coming::Joining => append(b"tries join again", to),
        Coming::Entering => append(b"tries monitor again", to),
        Coming::Retaking => append(b"retakes its lock", to),
    }
}
