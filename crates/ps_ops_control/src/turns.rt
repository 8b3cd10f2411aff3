//! The turns of loops (PLRM2, 3.4, 8 'Operators': Control).

ghost use Rattle.std.specs.Prelude.{◌≡◌, ℕ, ◌+◌, ◌++◌, ◌≤◌, ◌<◌, ◌^◌, Some, OnErr, List, drop};
ghost use Rattle.std.specs.Prelude.{length};
ghost use Rattle.std.specs.Prelude.{FitsSigned};
ghost use Rattle.std.specs.Int.{w32};
ghost use Rattle.ps_language.specs.Limits.{operand_limit};
ghost use Rattle.ps_language.specs.Readers.{integer};
ghost use Rattle.ps_mem.specs.Meaning.{value_of};
ghost use Rattle.ps_ops_operands.specs.Plain.{IsPlain};
ghost use Rattle.ps_language.specs.StepFrames as language;
ghost use Rattle.ps_language.specs.declared.operators.Operator.{Operator as TheOperator};
ghost use Rattle.ps_mem.specs.Heap.{Heap};
ghost use Rattle.ps_stacks.specs.Tops.{first_of};
ghost use Rattle.ps_ops_control.specs.Frames.{IsCourse};
ghost use Rattle.ps_ops_control.specs.Controls.{IsReadyFor, stacks};
ghost use Rattle.ps_ops_control.specs.Turns.{words_of, IsTurn, IsTurnHeld, IsPushed, Turns};

use crate::frames::{ForLoop, ForallLoop, Frame, Frames, push_frame, replace_top};
use ps_language::errors::ErrorName;
use ps_language::operators::Operator;
use ps_ops_operands::plain::push_within;
use ps_ops_operands::{Operands, plain};
use ps_stacks::OPERAND_LIMIT;
use ps_word::values::Part;
use ps_word::words::Word;

/// What a turn of a loop pushes.
#[derive(Clone, Copy, Debug, PartialEq, Eq)]
pub enum TurnOperands {
    Nothing,
    /// The control value of `for`, an element of an array or a byte of a string.
    One(Word),
    /// A pair of a dictionary; the value is above the key.
    Pair { key: Word, value: Word },
}

impl TurnOperands {
    /// How many these are.
    #[inline(always)]
    pub(crate) fn count(self) -> usize
        ensures { result ≡ length (words_of self) }
    {
        match self {
            TurnOperands::Nothing => 0,
            TurnOperands::One(_) => 1,
            TurnOperands::Pair { .. } => 2,
        }
    }

    /// Pushes these, for which there is room.
    #[inline(always)]
    pub(crate) fn push(self, operands: &mut Operands)
        requires room { length (words_of self) + length operands.old ≤ operand_limit }
        ensures { operands.new ≡ words_of self ++ operands.old }
    {
        match self {
            TurnOperands::Nothing => {}
            TurnOperands::One(word) => push_within(operands, word),
            TurnOperands::Pair { key, value } => {
                push_within(operands, key);
                push_within(operands, value);
            }
        }
    }
}

/// Pushes the operands of a turn in their order, puts what is left of the loop in the place of its
/// frame, and enters the procedure. Raises `stackoverflow` where the operands don't fit, and
/// `execstackoverflow` where the procedure isn't empty and 250 frames stand; then nothing has
/// changed.
fn go_on(
    operands: &mut Operands,
    frames: &mut Frames,
    pushed: TurnOperands,
    left: Frame,
    body: Part,
) -> Result<(), ErrorName>
    requires some { 1 ≤ length frames.old }
    ensures turns { (operator : TheOperator) (h : Heap) (size : ℕ)
        → IsReadyFor h size (stacks operands.old frames.old)
        → IsTurnHeld h size (words_of pushed) left body (stacks operands.old frames.old)
        → IsTurn operator (words_of pushed) left body h (stacks operands.old frames.old)
        → Turns operator result h size (stacks operands.old frames.old)
        (stacks operands.new frames.new) }
    ensures operands { OnErr result (operands.new ≡ operands.old) }
    ensures frames { OnErr result (frames.new ≡ frames.old) }
{
    if pushed.count() + operands.len() > OPERAND_LIMIT {
        return Err(ErrorName::StackOverflow);
    }
    if body.length == 0 {
        replace_top(frames, left);
        pushed.push(operands);
        return Ok(());
    }
    if frames.is_full() {
        return Err(ErrorName::ExecStackOverflow);
    }
    replace_top(frames, left);
    push_frame(frames, Frame::Procedure { rest: body });
    pushed.push(operands);
    Ok(())
}

/// Takes the topmost frame off.
#[inline]
pub fn leave(frames: &mut Frames)
    requires some { 1 ≤ length frames.old }
    ensures { frames.new ≡ drop 1 frames.old }
{
    frames.discard(1);
}

/// A turn of `loop`. Raises `execstackoverflow`; then nothing has changed.
pub fn loop_turn(operands: &mut Operands, frames: &mut Frames, body: Part) -> Result<(), ErrorName>
    requires top { first_of frames.old ≡ Some (Frame.Loop body) }
    ensures turns { (h : Heap) (size : ℕ) → IsReadyFor h size (stacks operands.old frames.old)
        → Turns Operator.Loop result h size (stacks operands.old frames.old)
        (stacks operands.new frames.new) }
    ensures operands { OnErr result (operands.new ≡ operands.old) }
    ensures frames { OnErr result (frames.new ≡ frames.old) }
{
    go_on(
        operands,
        frames,
        TurnOperands::Nothing,
        Frame::Loop { body },
        body,
    )
}

/// A turn of `repeat`, or its end where no turn is left. Raises `execstackoverflow`; then nothing
/// has changed.
pub fn repeat_turn(
    operands: &mut Operands,
    frames: &mut Frames,
    count: usize,
    body: Part,
) -> Result<(), ErrorName>
    requires top { first_of frames.old ≡ Some (Frame.Repeat count body) }
    ensures turns { (h : Heap) (size : ℕ) → IsReadyFor h size (stacks operands.old frames.old)
        → Turns Operator.Repeat result h size (stacks operands.old frames.old)
        (stacks operands.new frames.new) }
    ensures operands { OnErr result (operands.new ≡ operands.old) }
    ensures frames { OnErr result (frames.new ≡ frames.old) }
{
    if count == 0 {
        leave(frames);
        return Ok(());
    }
    let left = Frame::Repeat {
        count: count - 1,
        body,
    };
    go_on(operands, frames, TurnOperands::Nothing, left, body)
}

/// Whether a control value is past the limit, by the sign of the increment.
#[inline(always)]
pub(crate) fn is_past(control: i64, increment: i32, limit: i32) -> bool
    ensures { result ≡ language.is_past control increment limit }
{
    let limit = limit as i64;
    let (first, last) = if increment < 0 {
        (limit, control)
    } else {
        (control, limit)
    };
    first > last
}

/// The word of a control value that isn't past the limit, which is an integer of 32 bits.
#[inline(always)]
pub(crate) fn control_word(control: i64) -> Word
    requires { FitsSigned w32 control }
    ensures value { (births : ℕ → ℕ) (names : List (List ℕ)) → value_of births names result
        ≡ integer control }
    ensures plain { IsPlain result }
{
    plain::integer(control as i32)
}

/// A turn of `for`, which pushes the control value, or its end past the limit. Raises
/// `stackoverflow` and `execstackoverflow`; then nothing has changed.
pub fn for_turn(
    operands: &mut Operands,
    frames: &mut Frames,
    state: ForLoop,
) -> Result<(), ErrorName>
    requires top { first_of frames.old ≡ Some (Frame.For state.control state.increment
        state.limit state.body) }
    requires course { IsCourse state.control state.increment }
    ensures turns { (h : Heap) (size : ℕ) → IsReadyFor h size (stacks operands.old frames.old)
        → Turns Operator.For result h size (stacks operands.old frames.old)
        (stacks operands.new frames.new) }
    ensures operands { OnErr result (operands.new ≡ operands.old) }
    ensures frames { OnErr result (frames.new ≡ frames.old) }
{
    if is_past(state.control, state.increment, state.limit) {
        leave(frames);
        return Ok(());
    }
    let left = Frame::For {
        control: state.control + state.increment as i64,
        increment: state.increment,
        limit: state.limit,
        body: state.body,
    };
    let pushed = TurnOperands::One(control_word(state.control));
    go_on(operands, frames, pushed, left, state.body)
}

/// A turn of `forall`, which pushes what stands at its place, or its end where nothing does. Raises
/// `stackoverflow` and `execstackoverflow`; then nothing has changed.
pub fn forall_turn(
    operands: &mut Operands,
    frames: &mut Frames,
    state: ForallLoop,
    pushed: Option<TurnOperands>,
) -> Result<(), ErrorName>
    requires top { first_of frames.old ≡ Some (Frame.Forall state.over state.at state.body) }
    requires place { state.at < 2 ^ 32 }
    ensures turns { (h : Heap) (size : ℕ) → IsReadyFor h size (stacks operands.old frames.old)
        → IsPushed h state.over state.at pushed
        → Turns Operator.Forall result h size (stacks operands.old frames.old)
        (stacks operands.new frames.new) }
    ensures operands { OnErr result (operands.new ≡ operands.old) }
    ensures frames { OnErr result (frames.new ≡ frames.old) }
{
    let Some(pushed) = pushed else {
        leave(frames);
        return Ok(());
    };
    let left = Frame::Forall {
        over: state.over,
        at: state.at + 1,
        body: state.body,
    };
    go_on(operands, frames, pushed, left, state.body)
}
