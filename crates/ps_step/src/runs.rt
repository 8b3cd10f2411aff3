//! Steps one after another: those of frames that go ahead, and those by the tokens of a text
//! (PLRM2, 3.4, 3.5).

ghost use Rattle.std.specs.Prelude.{◌≡◌, ◌≢◌, ℕ, ◌+◌, ◌<◌, ◌≤◌, [], IfSome, IsSome, IsNone, Some};
ghost use Rattle.std.specs.Prelude.{None};
ghost use Rattle.ps_stacks.specs.Tops.{first_of};
ghost use Rattle.ps_ops_state.specs.Lent.{lent, lent_of, IsGood, Lent};
ghost use Rattle.ps_step_outcome.specs.Turns.{Turns};
ghost use Rattle.ps_step_interpreter.specs.Interprets.{asks_in, own_turn};
ghost use Rattle.ps_step_interpreter.specs.Makes.{Runs, TurnsBehind};
ghost use Rattle.ps_step_execute.specs.Values.{Asks};
ghost use Rattle.ps_step.specs.Elements.{Begins};
ghost use Rattle.ps_step.specs.Steps.{own_asks};

use crate::procedures::run_entered;
use crate::sources::{Cursor, read_source};
use crate::texts::{read_token, text_turn};
use crate::windows::Window;
use ps_mem::{Memory, Slot};
use ps_ops_control::ahead::Ahead;
use ps_ops_control::frames::{Cause, Frame, Frames, replace_top};
use ps_ops_control::unwinding::frames_to_loop;
use ps_ops_operands::failure::NotMade;
use ps_ops_state::lent::{Attempt, Context, Runtime, Shared};
use ps_step_execute::operates::Operate;
use ps_step_frames::ahead::turn_ahead;
use ps_step_frames::frames::drop_top;
use ps_step_frames::steps::frame_turn;
use ps_step_interpreter::interprets::Run;
use ps_step_outcome::batches::Batch;
use ps_step_outcome::turned::Turned;
use ps_word::values::Part;

/// The turn of a running context's topmost frame: a token of a text, an element of a procedure,
/// a value that waits, a turn of a loop, the end of `stopped` or of a monitor, or a part of `bind`.
#[inline(never)]
pub fn turn_frame<O: Operate, M: Memory>(
    window: &mut Window,
    context: &mut Context,
    runtime: &mut Runtime<M>,
    attempt: Attempt,
) -> Result<Turned, NotMade>
    requires good { IsGood (lent_of M.heap M.grants context.old runtime.old) }
    requires framed { context.old.frames ≢ [] }
    ensures { Turns (asks_in (own_asks O.asks) None) (own_turn None) attempt result
        (lent_of M.heap M.grants context.old runtime.old)
        (lent_of M.heap M.grants context.new runtime.new) }
{
    let Some(top) = context.frames.top() else {
        unreachable!()
    };
    match top {
        Frame::Text { source, at } => text_turn::<O, M>(
            Cursor { source, at },
            window,
            context,
            runtime,
            attempt,
        ),
        _ => frame_turn::<O, M>(top, context, runtime, attempt),
    }
}

/// Steps that were made, and what the turn behind them came to: where it goes on it is a step more.
/// Where it is an `exit`, above whose loop procedures alone stand, their frames and the loop's are
/// taken off, a step each, if so many more may be made.
#[inline]
fn with_turn(made: u32, turn: Result<Turned, NotMade>, most: u32, frames: &mut Frames) -> Run
    requires few { made < most }
    ensures within { result.made ≤ most }
    ensures behind { IsSome result.next → result.made ≡ made }
    ensures more { IsNone result.next → made + 1 ≤ result.made }
    ensures runs { (asks : Asks) (slot : ℕ) (old new : Lent)
        → TurnsBehind (own_asks asks) slot made turn old new → new.frames ≡ frames.old
        → Runs (own_asks asks) slot result.made result.next old
        (record new { frames = frames.new }) }
{
    match turn {
        Ok(Turned::Goes) => Batch {
            made: made + 1,
            next: None,
        },
        Ok(Turned::Breaks(Cause::Exit)) => match frames_to_loop(frames, most - made - 1) {
            Some(count) => {
                frames.discard(count as usize);
                Batch {
                    made: made + 1 + count,
                    next: None,
                }
            }
            None => Batch {
                made,
                next: Some(turn),
            },
        },
        _ => Batch {
            made,
            next: Some(turn),
        },
    }
}

/// Makes the first steps of the topmost frame, a text, at most so many: those of its next tokens,
/// as far as operands alone do them, and that of the token behind them. The text's frame goes on
/// once for all of them, and what was read of a string serves more than one: while operands alone
/// change, the string doesn't. The records go into the log of a slot.
#[inline(always)]
fn run_text<O: Operate, M: Memory>(
    cursor: Cursor,
    most: u32,
    slot: Slot,
    window: &mut Window,
    context: &mut Context,
    runtime: &mut Runtime<M>,
) -> Run
    requires good { IsGood (lent_of M.heap M.grants context.old runtime.old) }
    requires some { 1 ≤ most }
    requires top { first_of context.old.frames ≡ Some (Frame.Text cursor.source cursor.at) }
    ensures within { result.made ≤ most }
    ensures fewer { IsSome result.next → result.made < most }
    ensures more { IsNone result.next → 1 ≤ result.made }
    ensures runs { Runs (own_asks O.asks) slot result.made result.next
        (lent_of M.heap M.grants context.old runtime.old)
        (lent_of M.heap M.grants context.new runtime.new) }
{
    let mut place = cursor;
    let mut made = 0;
    read_source(cursor, runtime.shared.program, window, &mut runtime.memory);
    while made < most {
        match read_token::<O, M>(
            &place,
            window,
            context,
            runtime,
            Attempt {
                slot,
                refused: false,
            },
        ) {
            Ok(end) => {
                place.at = end;
                made += 1;
            }
            Err(turn) => return with_turn(made, turn, most, &mut context.frames),
        }
    }
    let Cursor { source, at } = place;
    replace_top(&mut context.frames, Frame::Text { source, at });
    Batch { made, next: None }
}

/// Makes the first steps of the topmost frame where none goes ahead, at most so many: of a text
/// those of its next tokens, and of every other frame that of its turn. The records go into the log
/// of a slot.
#[inline(never)]
pub fn run_turns<O: Operate, M: Memory>(
    most: u32,
    slot: Slot,
    window: &mut Window,
    context: &mut Context,
    runtime: &mut Runtime<M>,
) -> Run
    requires good { IsGood (lent_of M.heap M.grants context.old runtime.old) }
    requires some { 1 ≤ most }
    requires framed { context.old.frames ≢ [] }
    ensures within { result.made ≤ most }
    ensures fewer { IsSome result.next → result.made < most }
    ensures more { IsNone result.next → 1 ≤ result.made }
    ensures runs { Runs (own_asks O.asks) slot result.made result.next
        (lent_of M.heap M.grants context.old runtime.old)
        (lent_of M.heap M.grants context.new runtime.new) }
{
    let Some(top) = context.frames.top() else {
        unreachable!()
    };
    match top {
        Frame::Text { source, at } => run_text::<O, M>(
            Cursor { source, at },
            most,
            slot,
            window,
            context,
            runtime,
        ),
        _ => {
            let attempt = Attempt {
                slot,
                refused: false,
            };
            let turn = turn_frame::<O, M>(window, context, runtime, attempt);
            with_turn(0, turn, most, &mut context.frames)
        }
    }
}

/// What the begin of steps of the topmost frame came to.
#[derive(Clone, Copy, Debug, PartialEq, Eq)]
pub enum Begin {
    /// With so many steps, behind which a procedure is above the frames.
    Enters { rest: Part, made: u32 },
    /// With a step that enters none.
    Goes,
    /// Nothing has changed.
    Left,
}

/// The procedure that is the topmost frame is taken off, or a loop turns, up to the frame of the
/// procedure that it enters, where two more have room. The memory stays as it is.
#[inline]
fn begin_with<M: Memory>(
    top: Frame,
    context: &mut Context,
    shared: &Shared,
    memory: &mut M,
) -> Begin
    requires good { IsGood
        (lent (M.heap memory.old) (M.grants memory.old) context.old shared.now) }
    requires top { first_of context.old.frames ≡ Some top }
    ensures heap { M.heap memory.new ≡ M.heap memory.old }
    ensures grants { M.grants memory.new ≡ M.grants memory.old }
    ensures begins { Begins result
        (lent (M.heap memory.old) (M.grants memory.old) context.old shared.now)
        (lent (M.heap memory.old) (M.grants memory.old) context.new shared.now) }
{
    match top {
        Frame::Procedure { rest } => {
            if context.frames.is_full() {
                return Begin::Left;
            }
            drop_top(&mut context.frames);
            Begin::Enters { rest, made: 0 }
        }
        Frame::Text { .. } => Begin::Left,
        _ => match turn_ahead(top, context, shared, memory) {
            Ahead::Enters(body) => Begin::Enters {
                rest: body,
                made: 1,
            },
            Ahead::Goes => Begin::Goes,
            Ahead::Left => Begin::Left,
        },
    }
}

/// Makes the first steps of the topmost frame where it goes ahead, at most so many, and one at
/// least but where it is told what the first came to: of a procedure those of its first elements,
/// and of a loop one. `None`: it doesn't, and nothing has changed. The records go into the log of a
/// slot.
#[inline(always)]
fn run_frame<O: Operate, M: Memory>(
    most: u32,
    slot: Slot,
    context: &mut Context,
    runtime: &mut Runtime<M>,
) -> Option<Run>
    requires good { IsGood (lent_of M.heap M.grants context.old runtime.old) }
    requires some { 1 ≤ most }
    requires framed { context.old.frames ≢ [] }
    ensures left { IsNone result
        → lent_of M.heap M.grants context.new runtime.new
        ≡ lent_of M.heap M.grants context.old runtime.old }
    ensures within { IfSome result (λ run. run.made ≤ most) }
    ensures fewer { IfSome result (λ run. IsSome run.next → run.made < most) }
    ensures more { IfSome result (λ run. IsNone run.next → 1 ≤ run.made) }
    ensures runs { IfSome result (λ run. Runs (own_asks O.asks) slot run.made run.next
        (lent_of M.heap M.grants context.old runtime.old)
        (lent_of M.heap M.grants context.new runtime.new)) }
{
    let Some(top) = context.frames.top() else {
        unreachable!()
    };
    match begin_with(top, context, &runtime.shared, &mut runtime.memory) {
        Begin::Enters { rest, made } => {
            let left = most - made;
            let run = run_entered::<O, M>(rest, left, context, runtime, slot);
            Some(Batch {
                made: made + run.made,
                next: run.next,
            })
        }
        Begin::Goes => Some(Batch {
            made: 1,
            next: None,
        }),
        Begin::Left => None,
    }
}

/// Makes steps of one frame after another as long as they go ahead, at most so many. The records go
/// into the log of a slot.
#[inline(always)]
pub fn run_ahead<O: Operate, M: Memory>(
    most: u32,
    slot: Slot,
    context: &mut Context,
    runtime: &mut Runtime<M>,
) -> Run
    requires good { IsGood (lent_of M.heap M.grants context.old runtime.old) }
    ensures within { result.made ≤ most }
    ensures fewer { IsSome result.next → result.made < most }
    ensures runs { Runs (own_asks O.asks) slot result.made result.next
        (lent_of M.heap M.grants context.old runtime.old)
        (lent_of M.heap M.grants context.new runtime.new) }
{
    let mut made = 0;
    while made < most && context.frames.len() > 0 {
        let Some(run) = run_frame::<O, M>(most - made, slot, context, runtime) else {
            return Batch { made, next: None };
        };
        made += run.made;
        if let Some(turn) = run.next {
            let run = with_turn(made, turn, most, &mut context.frames);
            if run.next.is_some() {
                return run;
            }
            made = run.made;
        }
    }
    Batch { made, next: None }
}
