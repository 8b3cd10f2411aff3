//! Steps of procedures that are entered: their elements one after another, those of each procedure
//! that they enter, and those of the procedure below where one ends (PLRM2, 3.5).

ghost use Rattle.std.specs.Prelude.{◌≡◌, ◌∷◌, ◌+◌, ◌<◌, ◌≤◌, ◌^◌, IsSome, IsNone, length, min};
ghost use Rattle.ps_language.specs.Limits.{frame_limit};
ghost use Rattle.ps_ops_state.specs.Lent.{lent_of, IsGood};
ghost use Rattle.ps_step_interpreter.specs.Makes.{Runs};
ghost use Rattle.ps_step_frames.specs.Steps.{above, part_behind, IsElement};
ghost use Rattle.ps_step.specs.Elements.{ComesBy};
ghost use Rattle.ps_step.specs.Steps.{own_asks};

use crate::elements::do_first;
use ps_mem::{Memory, Slot};
use ps_ops_control::frames::{Frame, Frames, push_frame};
use ps_ops_operands::failure::NotMade;
use ps_ops_state::lent::{Attempt, Context, Runtime};
use ps_stacks::FRAME_LIMIT;
use ps_step_execute::operates::Operate;
use ps_step_execute::quick::Fast;
use ps_step_execute::under::Under;
use ps_step_frames::elements::{Element, element_under, pushed_turn};
use ps_step_frames::frames::{drop_top, push_rest, top_procedure};
use ps_step_interpreter::interprets::Run;
use ps_step_outcome::batches::Batch;
use ps_step_outcome::turned::Turned;
use ps_word::values::Part;

/// What is left of a procedure behind so many elements.
#[inline(always)]
fn left_of(rest: Part, count: u16) -> Part
    requires within { count ≤ rest.length }
    requires end { rest.offset + rest.length < 2 ^ 16 }
    ensures { result ≡ part_behind count rest }
{
    let mut left = rest;
    left.offset += count;
    left.length -= count;
    left
}

/// The least of a budget and of how many elements there are.
#[inline(always)]
fn least(budget: u32, length: u16) -> u16
    ensures { result ≡ min budget length }
{
    if budget < length as u32 {
        budget as u16
    } else {
        length
    }
}

/// The first element of a procedure above the frames, which is known, is done without its frame,
/// where it neither sees nor changes frames, raises no error and is made. Else it is done over its
/// frame, and what its turn came to is told. The records go into the log of a slot.
#[inline(always)]
fn do_known<O: Operate, M: Memory>(
    rest: Part,
    first: Element,
    context: &mut Context,
    runtime: &mut Runtime<M>,
    slot: Slot,
) -> Option<Result<Turned, NotMade>>
    requires good { IsGood (above rest
        (lent_of M.heap M.grants context.old runtime.old)) }
    requires room { length context.old.frames < frame_limit }
    requires first { IsElement O.asks (M.heap runtime.old.memory) context.old.dictionaries rest 0
        first }
    ensures { ComesBy (own_asks O.asks) slot result rest
        (lent_of M.heap M.grants context.old runtime.old)
        (lent_of M.heap M.grants context.new runtime.new) }
{
    let attempt = Attempt {
        slot,
        refused: false,
    };
    let known = Some(first);
    match element_under::<O, M>(rest, known, context, runtime, slot) {
        Under::Done => None,
        Under::Fails => Some(pushed_turn::<O, M>(rest, None, context, runtime, attempt)),
        Under::Left => Some(pushed_turn::<O, M>(rest, known, context, runtime, attempt)),
    }
}

/// Pushes what is left of a procedure, for whose frame there is room. It is a call, so that a
/// frame's bytes are written apart from the steps. It gets the procedure by a reference: so this
/// stays in memory, and leaves its registers to the elements.
#[inline(never)]
fn push_left(frames: &mut Frames, rest: &Part)
    requires room { length frames.old < frame_limit }
    ensures { frames.new ≡ Frame.Procedure rest.now ∷ frames.old }
{
    push_frame(frames, Frame::Procedure { rest: *rest });
}

/// How many elements of so many may be done ahead within a budget: none where the frames have no
/// room for two more.
#[inline(always)]
fn may_do(frames: &Frames, budget: u32, count: u16) -> u16
    ensures within { result ≤ min budget count }
    ensures room { 1 ≤ result → 2 + length frames.now ≤ frame_limit }
    ensures all { 2 + length frames.now ≤ frame_limit → result ≡ min budget count }
{
    if frames.len() >= FRAME_LIMIT - 1 {
        0
    } else {
        least(budget, count)
    }
}

/// Makes the first steps of a procedure above the frames, at most so many: those of its first
/// elements, as far as operands and frames alone do them, of each procedure that is entered so, of
/// operators that neither see nor change frames, and that of the element behind them. What is left
/// of the procedure is pushed before that, or where no more are to be made. The records go into the
/// log of a slot.
#[inline(always)]
pub fn run_entered<O: Operate, M: Memory>(
    entered: Part,
    most: u32,
    context: &mut Context,
    runtime: &mut Runtime<M>,
    slot: Slot,
) -> Run
    requires good { IsGood (above entered
        (lent_of M.heap M.grants context.old runtime.old)) }
    requires room { 2 + length context.old.frames ≤ frame_limit }
    ensures within { result.made ≤ most }
    ensures fewer { IsSome result.next → result.made < most }
    ensures more { IsNone result.next → 1 ≤ most → 1 ≤ result.made }
    ensures runs { Runs (own_asks O.asks) slot result.made result.next (above entered
        (lent_of M.heap M.grants context.old runtime.old))
        (lent_of M.heap M.grants context.new runtime.new) }
{
    let mut rest = entered;
    let mut left = most;
    let mut end = least(left, rest.length);
    while end > 0 {
        let dictionaries = &context.dictionaries;
        let operands = &mut context.operands;
        let (done, came) = do_first::<O, M>(rest, end, dictionaries, operands, &mut runtime.memory);
        match came {
            Fast::Done => {
                left -= end as u32;
                rest = left_of(rest, end);
                end = 0;
                if rest.length == 0 {
                    if let Some(below) = top_procedure(&context.frames) {
                        rest = below;
                        drop_top(&mut context.frames);
                        end = least(left, rest.length);
                    }
                }
            }
            Fast::Enters(body) => {
                push_rest(&mut context.frames, left_of(rest, done));
                left -= done as u32 + 1;
                rest = body;
                end = may_do(&context.frames, left, rest.length);
            }
            Fast::Treats(element) => {
                let behind = left_of(rest, done);
                let known = do_known::<O, M>(behind, element, context, runtime, slot);
                if known.is_some() {
                    return Batch {
                        made: most - left + done as u32,
                        next: known,
                    };
                }
                left -= done as u32 + 1;
                rest = left_of(behind, 1);
                end -= done + 1;
            }
            Fast::Slow => {
                let attempt = Attempt {
                    slot,
                    refused: false,
                };
                let behind = left_of(rest, done);
                let turn = pushed_turn::<O, M>(behind, None, context, runtime, attempt);
                return Batch {
                    made: most - left + done as u32,
                    next: Some(turn),
                };
            }
        }
    }
    if rest.length > 0 {
        push_left(&mut context.frames, &rest);
    }
    Batch {
        made: most - left,
        next: None,
    }
}
