//! Turns of loops, and `if` and `ifelse`, where they raise no error. The frame of the procedure
//! that is entered is left to the caller, who may do its elements before it is pushed (PLRM2, 3.4,
//! 8 'Operators': Control).

ghost use Rattle.std.specs.Prelude.{◌≡◌, ℕ, ◌+◌, ◌∷◌, ◌≤◌, ◌<◌, ◌^◌, Some, IsTrue, List, drop};
ghost use Rattle.std.specs.Prelude.{length};
ghost use Rattle.ps_language.specs.Limits.{frame_limit, operand_limit};
ghost use Rattle.ps_language.specs.Control as rows;
ghost use Rattle.ps_mem.specs.Heap.{Heap};
ghost use Rattle.ps_stacks.specs.Tops.{first_of};
ghost use Rattle.ps_ops_control.specs.declared.frames.Frame.{Frame as TheFrame};
ghost use Rattle.ps_ops_control.specs.Ahead.{OnLeft, HasRoom, done_ahead, entered_ahead, ControlsAhead};
ghost use Rattle.ps_ops_control.specs.Ahead.{TurnsAhead};
ghost use Rattle.ps_ops_control.specs.Controls.{IsReadyFor, stacks};
ghost use Rattle.ps_ops_control.specs.Frames.{IsCourse};
ghost use Rattle.ps_ops_control.specs.Turns.{words_of, IsPushed};

use crate::frames::{ForLoop, ForallLoop, Frame, Frames};
use crate::readers::boolean_of;
use crate::turns::{TurnOperands, control_word, is_past, leave};
use ps_language::operators::Operator;
use ps_ops_operands::Operands;
use ps_ops_operands::plain::push_within;
use ps_stacks::{FRAME_LIMIT, OPERAND_LIMIT};
use ps_word::values::Part;
use ps_word::words::Word;

/// What a turn of a loop, or an operator, came to by operands and frames alone.
#[derive(Clone, Copy, Debug, PartialEq, Eq)]
pub enum Ahead {
    /// This procedure is entered, which isn't empty. Its frame isn't pushed.
    Enters(Part),
    /// No procedure is entered.
    Goes,
    /// Nothing has changed, and no more is known.
    Left,
}

impl Ahead {
    /// What enters no procedure, where it is done.
    #[inline]
    pub fn of(done: bool) -> Ahead
        ensures { result ≡ done_ahead done }
    {
        if done { Ahead::Goes } else { Ahead::Left }
    }
}

// ---- loops

/// Whether a turn that pushes so many operands can enter a procedure: it isn't empty, and both
/// stacks have room, that of the frames for one above the procedure's too.
#[inline(always)]
fn may_enter(operands: &Operands, frames: &Frames, count: usize, body: Part) -> bool
    requires few { count ≤ 2 }
    ensures operands { IsTrue result → count + length operands.now ≤ operand_limit }
    ensures body { IsTrue result → 1 ≤ body.length }
    ensures frames { IsTrue result → 2 + length frames.now ≤ frame_limit }
{
    if body.length == 0 || frames.len() >= FRAME_LIMIT - 1 {
        return false;
    }
    count + operands.len() <= OPERAND_LIMIT
}

/// A turn of `loop`.
#[inline(always)]
pub fn loop_ahead(operands: &Operands, frames: &Frames, body: Part) -> Ahead
    requires top { first_of frames.now ≡ Some (Frame.Loop body) }
    ensures turns { (h : Heap) (size : ℕ) → IsReadyFor h size (stacks operands.now frames.now)
        → TurnsAhead Operator.Loop result h size (stacks operands.now frames.now)
        (stacks operands.now frames.now) }
    ensures room { HasRoom 2 result frames.now }
{
    if !may_enter(operands, frames, 0, body) {
        return Ahead::Left;
    }
    Ahead::Enters(body)
}

/// Writes the turns that are left into the topmost frame, in place.
#[inline(always)]
fn set_count(frames: &mut Frames, count: usize, body: Part, left: usize)
    requires top { first_of frames.old ≡ Some (Frame.Repeat count body) }
    ensures { frames.new ≡ Frame.Repeat left body ∷ drop 1 frames.old }
{
    if let Frame::Repeat { count, .. } = frames.top_mut() {
        *count = left;
    }
}

/// A turn of `repeat`, or its end where no turn is left.
#[inline(always)]
pub fn repeat_ahead(operands: &Operands, frames: &mut Frames, count: usize, body: Part) -> Ahead
    requires top { first_of frames.old ≡ Some (Frame.Repeat count body) }
    ensures turns { (h : Heap) (size : ℕ) → IsReadyFor h size (stacks operands.now frames.old)
        → TurnsAhead Operator.Repeat result h size (stacks operands.now frames.old)
        (stacks operands.now frames.new) }
    ensures room { HasRoom 2 result frames.new }
    ensures frames { OnLeft result (frames.new ≡ frames.old) }
{
    if count == 0 {
        leave(frames);
        return Ahead::Goes;
    }
    if !may_enter(operands, frames, 0, body) {
        return Ahead::Left;
    }
    set_count(frames, count, body, count - 1);
    Ahead::Enters(body)
}

/// Writes the control value of the next turn into the topmost frame, in place, and pushes that of
/// this turn. The frame is found first, so that no load of it is made again behind the push.
#[inline(always)]
fn push_control(operands: &mut Operands, frames: &mut Frames, state: ForLoop, next: i64, word: Word)
    requires top { first_of frames.old ≡ Some (Frame.For state.control state.increment
        state.limit state.body) }
    requires room { length operands.old < operand_limit }
    ensures frames { frames.new ≡ Frame.For next state.increment state.limit state.body
        ∷ drop 1 frames.old }
    ensures operands { operands.new ≡ word ∷ operands.old }
{
    if let Frame::For { control, .. } = frames.top_mut() {
        push_within(operands, word);
        *control = next;
    }
}

/// A turn of `for`, which pushes the control value, or its end past the limit.
#[inline(always)]
pub fn for_ahead(operands: &mut Operands, frames: &mut Frames, state: ForLoop) -> Ahead
    requires top { first_of frames.old ≡ Some (Frame.For state.control state.increment
        state.limit state.body) }
    requires course { IsCourse state.control state.increment }
    ensures turns { (h : Heap) (size : ℕ) → IsReadyFor h size (stacks operands.old frames.old)
        → TurnsAhead Operator.For result h size (stacks operands.old frames.old)
        (stacks operands.new frames.new) }
    ensures room { HasRoom 2 result frames.new }
    ensures operands { OnLeft result (operands.new ≡ operands.old) }
    ensures frames { OnLeft result (frames.new ≡ frames.old) }
{
    if is_past(state.control, state.increment, state.limit) {
        leave(frames);
        return Ahead::Goes;
    }
    if !may_enter(operands, frames, 1, state.body) {
        return Ahead::Left;
    }
    let next = state.control + state.increment as i64;
    let word = control_word(state.control);
    push_control(operands, frames, state, next, word);
    Ahead::Enters(state.body)
}

/// Writes the place of the next element into the topmost frame, in place.
#[inline(always)]
fn set_place(frames: &mut Frames, state: ForallLoop, next: usize)
    requires top { first_of frames.old ≡ Some (Frame.Forall state.over state.at state.body) }
    ensures { frames.new ≡ Frame.Forall state.over next state.body ∷ drop 1 frames.old }
{
    if let Frame::Forall { at, .. } = frames.top_mut() {
        *at = next;
    }
}

/// A turn of `forall`, which pushes what stands at its place.
#[inline(always)]
pub fn forall_ahead(
    operands: &mut Operands,
    frames: &mut Frames,
    state: ForallLoop,
    pushed: TurnOperands,
) -> Ahead
    requires top { first_of frames.old ≡ Some (Frame.Forall state.over state.at state.body) }
    requires place { state.at < 2 ^ 32 }
    ensures turns { (h : Heap) (size : ℕ) → IsReadyFor h size (stacks operands.old frames.old)
        → IsPushed h state.over state.at (Some pushed)
        → TurnsAhead Operator.Forall result h size (stacks operands.old frames.old)
        (stacks operands.new frames.new) }
    ensures room { HasRoom 2 result frames.new }
    ensures operands { OnLeft result (operands.new ≡ operands.old) }
    ensures frames { OnLeft result (frames.new ≡ frames.old) }
{
    if !may_enter(operands, frames, pushed.count(), state.body) {
        return Ahead::Left;
    }
    set_place(frames, state, state.at + 1);
    pushed.push(operands);
    Ahead::Enters(state.body)
}

// ---- operators

/// A procedure is entered; an empty one needs no frame.
#[inline(always)]
pub fn enter_ahead(body: Part) -> Ahead
    ensures { result ≡ entered_ahead body }
{
    if body.length == 0 {
        Ahead::Goes
    } else {
        Ahead::Enters(body)
    }
}

/// `t P if`: the procedure is entered where `t` is true, if its frame has room.
#[inline(always)]
pub fn if_ahead(operands: &mut Operands) -> Ahead
    ensures controls { (h : Heap) (size : ℕ) (frames : List TheFrame) → HasRoom 1 result frames
        → IsReadyFor h size (stacks operands.old frames)
        → ControlsAhead rows.if_row result h size (stacks operands.old frames)
        (stacks operands.new frames) }
    ensures operands { OnLeft result (operands.new ≡ operands.old) }
{
    let Some((procedure, condition)) = operands.top_two() else {
        return Ahead::Left;
    };
    let Some(body) = procedure.as_enterable() else {
        return Ahead::Left;
    };
    let Some(truth) = boolean_of(condition) else {
        return Ahead::Left;
    };
    operands.discard(2);
    if truth {
        enter_ahead(body)
    } else {
        Ahead::Goes
    }
}

/// `t P1 P2 ifelse`: the first procedure is entered where `t` is true, else the second, if its
/// frame has room.
#[inline]
pub fn if_else_ahead(operands: &mut Operands) -> Ahead
    ensures controls { (h : Heap) (size : ℕ) (frames : List TheFrame) → HasRoom 1 result frames
        → IsReadyFor h size (stacks operands.old frames)
        → ControlsAhead rows.ifelse_row result h size (stacks operands.old frames)
        (stacks operands.new frames) }
    ensures operands { OnLeft result (operands.new ≡ operands.old) }
{
    let Some((second, first, condition)) = operands.top_three() else {
        return Ahead::Left;
    };
    let Some(other) = second.as_enterable() else {
        return Ahead::Left;
    };
    let Some(body) = first.as_enterable() else {
        return Ahead::Left;
    };
    let Some(truth) = boolean_of(condition) else {
        return Ahead::Left;
    };
    operands.discard(3);
    if truth {
        enter_ahead(body)
    } else {
        enter_ahead(other)
    }
}
