//! The turns of loops, and the end of `stopped` (PLRM2, 3.4, 8 'Operators': Control).

ghost use Rattle.std.specs.Prelude.{◌≡◌, ◌<◌, Some, OnOk, Ok};
ghost use Rattle.ps_ops_state.specs.Lent.{lent_of, IsGood};
ghost use Rattle.ps_stacks.specs.Tops.{first_of};
ghost use Rattle.ps_step_outcome.specs.Turns.{Turns, nothing_more};
ghost use Rattle.ps_step_frames.specs.Steps.{outcome_turn, running_turn, truth_turn};

use crate::frames::drop_top;
use crate::places::operands_at;
use ps_language::errors::ErrorName;
use ps_language::operators::Operator;
use ps_mem::Memory;
use ps_ops_control::frames::{ForLoop, ForallLoop, Frame, push_frame};
use ps_ops_control::turns::{for_turn, forall_turn, loop_turn, repeat_turn};
use ps_ops_operands::failure::NotMade;
use ps_ops_operands::plain;
use ps_ops_state::lent::{Attempt, Context, Runtime};
use ps_step_outcome::raises::raise_by;
use ps_step_outcome::turned::Turned;
use ps_word::values::Part;

/// What a turn over operands and frames came to: the context goes on, or the error is raised with
/// the operator as the command.
///
/// Not made, with nothing changed: as the note of an error.
#[inline]
fn settle<M: Memory>(
    outcome: Result<(), ErrorName>,
    operator: Operator,
    context: &mut Context,
    runtime: &mut Runtime<M>,
    attempt: Attempt,
) -> Result<Turned, NotMade>
    requires good { IsGood (lent_of M.heap M.grants context.old runtime.old) }
    ensures turns { Turns nothing_more (outcome_turn operator outcome) attempt result
        (lent_of M.heap M.grants context.old runtime.old)
        (lent_of M.heap M.grants context.new runtime.new) }
    ensures goes { OnOk outcome (result ≡ Ok Turned.Goes) }
{
    match outcome {
        Ok(()) => Ok(Turned::Goes),
        Err(error) => raise_by(operator, error, context, runtime, attempt),
    }
}

/// Pushes the boolean that `stopped` leaves. Raises `stackoverflow` with `stopped` as the command.
///
/// Not made, with nothing changed: as the note of an error.
pub(crate) fn push_truth<M: Memory>(
    truth: bool,
    context: &mut Context,
    runtime: &mut Runtime<M>,
    attempt: Attempt,
) -> Result<Turned, NotMade>
    requires good { IsGood (lent_of M.heap M.grants context.old runtime.old) }
    ensures { Turns nothing_more (truth_turn truth) attempt result
        (lent_of M.heap M.grants context.old runtime.old)
        (lent_of M.heap M.grants context.new runtime.new) }
{
    if context.operands.is_full() {
        return raise_by(
            Operator::Stopped,
            ErrorName::StackOverflow,
            context,
            runtime,
            attempt,
        );
    }
    context.operands.push_reserved(plain::boolean(truth));
    Ok(Turned::Goes)
}

/// A turn of `loop`. Raises `execstackoverflow`; the loop is as it was then.
///
/// Not made, with nothing changed: as the note of an error.
pub fn loop_step<M: Memory>(
    body: Part,
    context: &mut Context,
    runtime: &mut Runtime<M>,
    attempt: Attempt,
) -> Result<Turned, NotMade>
    requires good { IsGood (lent_of M.heap M.grants context.old runtime.old) }
    requires top { first_of context.old.frames ≡ Some (Frame.Loop body) }
    ensures { Turns nothing_more running_turn attempt result
        (lent_of M.heap M.grants context.old runtime.old)
        (lent_of M.heap M.grants context.new runtime.new) }
{
    let outcome = loop_turn(&mut context.operands, &mut context.frames, body);
    settle(outcome, Operator::Loop, context, runtime, attempt)
}

/// A turn of `repeat`, or its end where no turn is left. Raises `execstackoverflow`; the loop is as
/// it was then.
///
/// Not made, with nothing changed: as the note of an error.
pub fn repeat_step<M: Memory>(
    count: usize,
    body: Part,
    context: &mut Context,
    runtime: &mut Runtime<M>,
    attempt: Attempt,
) -> Result<Turned, NotMade>
    requires good { IsGood (lent_of M.heap M.grants context.old runtime.old) }
    requires top { first_of context.old.frames ≡ Some (Frame.Repeat count body) }
    ensures { Turns nothing_more running_turn attempt result
        (lent_of M.heap M.grants context.old runtime.old)
        (lent_of M.heap M.grants context.new runtime.new) }
{
    let outcome = repeat_turn(&mut context.operands, &mut context.frames, count, body);
    settle(outcome, Operator::Repeat, context, runtime, attempt)
}

/// A turn of `for`, which pushes the control value, or its end past the limit. Raises
/// `stackoverflow` and `execstackoverflow`; the loop is as it was then.
///
/// Not made, with nothing changed: as the note of an error.
pub fn for_step<M: Memory>(
    state: ForLoop,
    context: &mut Context,
    runtime: &mut Runtime<M>,
    attempt: Attempt,
) -> Result<Turned, NotMade>
    requires good { IsGood (lent_of M.heap M.grants context.old runtime.old) }
    requires top { first_of context.old.frames ≡ Some (Frame.For state.control state.increment
        state.limit state.body) }
    ensures { Turns nothing_more running_turn attempt result
        (lent_of M.heap M.grants context.old runtime.old)
        (lent_of M.heap M.grants context.new runtime.new) }
{
    let outcome = for_turn(&mut context.operands, &mut context.frames, state);
    settle(outcome, Operator::For, context, runtime, attempt)
}

/// A turn of `forall`, which pushes what stands at its place, or its end past the last. Raises
/// `stackoverflow` and `execstackoverflow`; the loop is as it was then.
///
/// Not made, with nothing changed: as the note of an error.
pub fn forall_step<M: Memory>(
    state: ForallLoop,
    context: &mut Context,
    runtime: &mut Runtime<M>,
    attempt: Attempt,
) -> Result<Turned, NotMade>
    requires good { IsGood (lent_of M.heap M.grants context.old runtime.old) }
    requires top { first_of context.old.frames ≡ Some (Frame.Forall state.over state.at
        state.body) }
    ensures { Turns nothing_more running_turn attempt result
        (lent_of M.heap M.grants context.old runtime.old)
        (lent_of M.heap M.grants context.new runtime.new) }
{
    match operands_at(state.over, state.at, &mut runtime.memory) {
        None => {
            drop_top(&mut context.frames);
            Ok(Turned::Goes)
        }
        Some(pushed) => {
            let outcome = forall_turn(
                &mut context.operands,
                &mut context.frames,
                state,
                Some(pushed),
            );
            settle(outcome, Operator::Forall, context, runtime, attempt)
        }
    }
}

/// A step on the frame of `stopped`: what it began has ended, the frame goes, and false is pushed.
/// Raises `stackoverflow`; the frame goes then too.
///
/// Not made, with nothing changed: as the note of an error.
pub fn stopped_step<M: Memory>(
    context: &mut Context,
    runtime: &mut Runtime<M>,
    attempt: Attempt,
) -> Result<Turned, NotMade>
    requires good { IsGood (lent_of M.heap M.grants context.old runtime.old) }
    requires top { first_of context.old.frames ≡ Some Frame.Stopped }
    ensures { Turns nothing_more running_turn attempt result
        (lent_of M.heap M.grants context.old runtime.old)
        (lent_of M.heap M.grants context.new runtime.new) }
{
    drop_top(&mut context.frames);
    match push_truth(false, context, runtime, attempt) {
        Ok(turned) => Ok(turned),
        Err(reason) => {
            push_frame(&mut context.frames, Frame::Stopped);
            Err(reason)
        }
    }
}
