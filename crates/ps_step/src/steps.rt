//! A step of a context, by how far it is and by its topmost frame (PLRM2, 3.4, 3.5, 3.10).

ghost use Rattle.ps_step.specs.Few.{own_few};
ghost use Rattle.ps_step.specs.Steps.{own_asks};

use crate::runs::{run_ahead, run_turns, turn_frame};
use crate::windows::Window;
use ps_mem::{Memory, Slot};
use ps_ops_control::frames::Cause;
use ps_ops_operands::failure::NotMade;
use ps_ops_state::lent::{Attempt, Context, Runtime};
use ps_step_execute::operates::Operate;
use ps_step_frames::unwindings::unwind_turn;
use ps_step_interpreter::interprets::{Interpret, Run};
use ps_step_outcome::batches::Batch;
use ps_step_outcome::turned::Turned;
use std::alloc::Global;
use std::marker::PhantomData;

/// Makes the steps of contexts by these operators.
#[derive(Clone, Debug, Drop)]
pub struct Steps<O> {
    operators: PhantomData<O>,
    /// What was read of a string that is executed; it keeps its room.
    window: Window,
}

impl<O> Steps<O> {
    /// Their maker before its first step.
    #[inline]
    pub fn new(alloc: Global) -> Steps<O> {
        Steps {
            operators: PhantomData,
            window: Window {
                start: 0,
                bytes: Vec::new(alloc),
            },
        }
    }
}

impl<O: Operate> Interpret for Steps<O> {
    ghost asks = { own_asks O.asks };

    /// A token of a text, an element of a procedure, a value that waits, a turn of a loop, the end
    /// of `stopped` or of a monitor, a part of `bind`, or one frame of an unwinding.
    #[inline(always)]
    fn step<M: Memory>(
        &mut self,
        unwinding: Option<Cause>,
        context: &mut Context,
        runtime: &mut Runtime<M>,
        attempt: Attempt,
    ) -> Result<Turned, NotMade> {
        let Some(top) = context.frames.top() else {
            unreachable!()
        };
        match unwinding {
            Some(cause) => unwind_turn(cause, top, context, runtime, attempt),
            None => turn_frame::<O, M>(&mut self.window, context, runtime, attempt),
        }
    }

    /// Steps of one frame after another: those that go ahead, and then of the one that doesn't.
    #[inline(always)]
    fn run<M: Memory>(
        &mut self,
        most: u32,
        slot: Slot,
        context: &mut Context,
        runtime: &mut Runtime<M>,
    ) -> Run {
        let window = &mut self.window;
        let mut made = 0;
        while made < most && context.frames.len() > 0 {
            let run = run_ahead::<O, M>(most - made, slot, context, runtime);
            made += run.made;
            if run.next.is_some() {
                return Batch {
                    made,
                    next: run.next,
                };
            }
            if made == most {
                return Batch { made, next: None };
            }
            if context.frames.len() == 0 {
                return Batch { made, next: None };
            }
            let run = run_turns::<O, M>(most - made, slot, window, context, runtime);
            made += run.made;
            if run.next.is_some() {
                return Batch {
                    made,
                    next: run.next,
                };
            }
        }
        Batch { made, next: None }
    }

    ghost few = { own_few O.asks O.few };
}
