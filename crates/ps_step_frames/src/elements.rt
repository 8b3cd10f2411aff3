//! Steps by the elements of a procedure, and by a value that waits (PLRM2, 3.5).

ghost use Rattle.std.specs.Prelude.{◌≡◌, ◌<◌, ◌∷◌, [], Some, IfSome, length, true, false};
ghost use Rattle.ps_language.specs.Limits.{frame_limit};
ghost use Rattle.ps_word.specs.Format.{IsWord};
ghost use Rattle.ps_ops_control.specs.Controls.{stacks};
ghost use Rattle.ps_ops_state.specs.Lent.{lent_of, IsGood};
ghost use Rattle.ps_stacks.specs.Tops.{first_of};
ghost use Rattle.ps_mem.specs.Shows.{IsValue};
ghost use Rattle.ps_step_outcome.specs.Turns.{Turns, TurnsWith};
ghost use Rattle.ps_step_execute.specs.Values.{treated_asks, treated_turn};
ghost use Rattle.ps_step_frames.specs.Steps.{above, frame_asks, running_turn, DoesUnder, IsElement};
ghost use Rattle.ps_step_frames.specs.Steps.{TreatsTo};

use crate::frames::{advance, drop_top, push_rest, put_back};
use ps_language::operators::Operator;
use ps_mem::{Memory, Slot};
use ps_ops_control::frames::{Frame, Frames, push_frame};
use ps_ops_operands::Operands;
use ps_ops_operands::failure::NotMade;
use ps_ops_state::lent::{Attempt, Context, Runtime};
use ps_seq::arrays::element;
use ps_step_execute::operates::Operate;
use ps_step_execute::under::{Under, treat_under};
use ps_step_execute::values::{do_element, execute, treat};
use ps_step_outcome::turned::Turned;
use ps_word::values::Part;
use ps_word::words::Word;

/// An element of a procedure, or a token of a text, as a word, and the value as which it is
/// treated.
#[derive(Clone, Copy, Debug, PartialEq, Eq)]
pub struct Element {
    pub word: Word,
    pub value: Word,
}

/// The first element that is left of a procedure is done, as it stands now; the frame goes with the
/// last. Raises what the element raises, with the element as the command.
///
/// Not made, with nothing changed: as the element.
#[inline(never)]
pub fn procedure_turn<O: Operate, M: Memory>(
    rest: Part,
    context: &mut Context,
    runtime: &mut Runtime<M>,
    attempt: Attempt,
) -> Result<Turned, NotMade>
    requires good { IsGood (lent_of M.heap M.grants context.old runtime.old) }
    requires top { first_of context.old.frames ≡ Some (Frame.Procedure rest) }
    ensures { Turns (frame_asks O.asks) running_turn attempt result
        (lent_of M.heap M.grants context.old runtime.old)
        (lent_of M.heap M.grants context.new runtime.new) }
{
    let word = element(&mut runtime.memory, rest, 0);
    advance(&mut context.frames, rest, 1);
    match do_element::<O, M>(word, word, context, runtime, attempt) {
        Ok(turned) => Ok(turned),
        Err(reason) => {
            put_back(&mut context.frames, rest);
            Err(reason)
        }
    }
}

/// `exec` acts, where a value is that, there is an operand, and a frame has room: the operand waits in
/// it. Else nothing has changed, and the answer is no.
#[inline]
fn exec_quickly(value: Word, operands: &mut Operands, frames: &mut Frames) -> bool
    requires word { IsWord value.0 }
    ensures operands { result ≡ false → operands.new ≡ operands.old }
    ensures frames { result ≡ false → frames.new ≡ frames.old }
    ensures treats { result ≡ true → TreatsTo value (stacks operands.old frames.old)
        (stacks operands.new frames.new) }
{
    match value.executable_operator() {
        Some(Operator::Exec) => {}
        _ => return false,
    }
    let Some(word) = operands.top() else {
        return false;
    };
    if frames.is_full() {
        return false;
    }
    operands.discard(1);
    push_frame(frames, Frame::Pending { word });
    true
}

/// A value is treated, by a call of its own: what is left of the procedure stays in registers.
#[inline(never)]
fn treat_apart<O: Operate, M: Memory>(
    value: Word,
    command: Word,
    context: &mut Context,
    runtime: &mut Runtime<M>,
    attempt: Attempt,
) -> Result<Turned, NotMade>
    requires good { IsGood (lent_of M.heap M.grants context.old runtime.old) }
    requires value { IsValue (M.heap runtime.old.memory) value }
    requires command { IsValue (M.heap runtime.old.memory) command }
    ensures { TurnsWith (value ∷ command ∷ []) [] (treated_asks O.asks value)
        (treated_turn command value) attempt result
        (lent_of M.heap M.grants context.old runtime.old)
        (lent_of M.heap M.grants context.new runtime.new) }
{
    treat::<O, M>(value, command, context, runtime, attempt)
}

/// The first element of a procedure above the frames is done, as its value is treated; what is left
/// of the procedure is pushed before. Raises what the value raises, with the element as the command.
/// It is a call: in line it would take registers of the loop of elements that are done ahead.
///
/// Not made, with nothing changed but for the frame, which is pushed whole: as the value.
#[inline(never)]
fn element_turn<O: Operate, M: Memory>(
    rest: Part,
    element: Element,
    context: &mut Context,
    runtime: &mut Runtime<M>,
    attempt: Attempt,
) -> Result<Turned, NotMade>
    requires good { IsGood (above rest
        (lent_of M.heap M.grants context.old runtime.old)) }
    requires room { length context.old.frames < frame_limit }
    requires element { IsElement O.asks (M.heap runtime.old.memory) context.old.dictionaries rest 0
        element }
    ensures { Turns (frame_asks O.asks) running_turn attempt result
        (above rest (lent_of M.heap M.grants context.old runtime.old))
        (lent_of M.heap M.grants context.new runtime.new) }
{
    let Element { word, value } = element;
    push_rest(&mut context.frames, rest);
    if exec_quickly(value, &mut context.operands, &mut context.frames) {
        return Ok(Turned::Goes);
    }
    match treat_apart::<O, M>(value, word, context, runtime, attempt) {
        Ok(turned) => Ok(turned),
        Err(reason) => {
            put_back(&mut context.frames, rest);
            Err(reason)
        }
    }
}

/// The first element that is left of a procedure above the frames is done, where its value is known,
/// neither sees nor changes frames, raises no error and is made. No frame is pushed. The records go
/// into the log of a slot.
#[inline(never)]
pub fn element_under<O: Operate, M: Memory>(
    rest: Part,
    first: Option<Element>,
    context: &mut Context,
    runtime: &mut Runtime<M>,
    slot: Slot,
) -> Under
    requires good { IsGood (above rest
        (lent_of M.heap M.grants context.old runtime.old)) }
    requires first { IfSome first
        (IsElement O.asks (M.heap runtime.old.memory) context.old.dictionaries rest 0) }
    ensures frames { context.new.frames ≡ context.old.frames }
    ensures does { DoesUnder O.asks rest slot result
        (lent_of M.heap M.grants context.old runtime.old)
        (lent_of M.heap M.grants context.new runtime.new) }
{
    match first {
        Some(element) => treat_under::<O, M>(element.value, context, runtime, slot),
        None => Under::Left,
    }
}

/// The first element of a procedure above the frames is done over its frame: by its value, where that
/// is known. Raises what the element raises, with the element as the command.
///
/// Not made, with nothing changed but for the frame: as the element.
#[inline(always)]
pub fn pushed_turn<O: Operate, M: Memory>(
    rest: Part,
    first: Option<Element>,
    context: &mut Context,
    runtime: &mut Runtime<M>,
    attempt: Attempt,
) -> Result<Turned, NotMade>
    requires good { IsGood (above rest
        (lent_of M.heap M.grants context.old runtime.old)) }
    requires room { length context.old.frames < frame_limit }
    requires first { IfSome first
        (IsElement O.asks (M.heap runtime.old.memory) context.old.dictionaries rest 0) }
    ensures { Turns (frame_asks O.asks) running_turn attempt result
        (above rest (lent_of M.heap M.grants context.old runtime.old))
        (lent_of M.heap M.grants context.new runtime.new) }
{
    match first {
        Some(element) => element_turn::<O, M>(rest, element, context, runtime, attempt),
        None => {
            push_frame(&mut context.frames, Frame::Procedure { rest });
            procedure_turn::<O, M>(rest, context, runtime, attempt)
        }
    }
}

/// A value that waits in the topmost frame is executed, and the frame goes. Raises what the value
/// raises, with the value as the command; the frame goes then too.
///
/// Not made, with nothing changed: as the value.
#[inline(never)]
pub fn pending_turn<O: Operate, M: Memory>(
    word: Word,
    context: &mut Context,
    runtime: &mut Runtime<M>,
    attempt: Attempt,
) -> Result<Turned, NotMade>
    requires good { IsGood (lent_of M.heap M.grants context.old runtime.old) }
    requires top { first_of context.old.frames ≡ Some (Frame.Pending word) }
    ensures { Turns (frame_asks O.asks) running_turn attempt result
        (lent_of M.heap M.grants context.old runtime.old)
        (lent_of M.heap M.grants context.new runtime.new) }
{
    drop_top(&mut context.frames);
    match execute::<O, M>(word, word, context, runtime, attempt) {
        Ok(turned) => Ok(turned),
        Err(reason) => {
            push_frame(&mut context.frames, Frame::Pending { word });
            Err(reason)
        }
    }
}
