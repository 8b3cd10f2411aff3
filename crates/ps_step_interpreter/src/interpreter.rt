//! A context, how far it is, and its steps (PLRM2, 3.5, 3.10).

ghost use Rattle.std.specs.Prelude.{◌≡◌, ◌<◌, ◌≤◌, length, false, true, Option, IsSome, IsNone};
ghost use Rattle.std.specs.Prelude.{OnErr, IfOk, IfErr};
ghost use Rattle.ps_language.specs.Effect.{Around, Scene};
ghost use Rattle.ps_language.specs.World.{Status};
ghost use Rattle.ps_mem.specs.Heap.{SameLogs};
ghost use Rattle.ps_ops_state.specs.Acts.{Asked};
ghost use Rattle.ps_ops_state.specs.Lent.{lent, lent_of, IsGood, Lent};
ghost use Rattle.ps_ctx_start.specs.Starts.{IsEmptyHeap, IsStartReason, first_machine};
ghost use Rattle.ps_ops_control.specs.declared.frames.Cause.{Cause as TheCause};
ghost use Rattle.ps_step_outcome.specs.Turns.{Turns, lines_after};
ghost use Rattle.ps_step_interpreter.specs.Courses as courses;
ghost use Rattle.ps_step_interpreter.specs.Courses.{held, IsAt, IsSteady};
ghost use Rattle.ps_step_interpreter.specs.Interprets.{asks_in, own_turn};
ghost use Rattle.ps_step_interpreter.specs.Steps.{Steps};

use crate::courses::AloneCourse;
use crate::interprets::Interpret;
use ps_ctx_start::start::{Setup, start};
use ps_language::errors::ErrorName;
use ps_mem::{Memory, Slot};
use ps_ops_control::frames::Cause;
use ps_ops_operands::failure::NotMade;
use ps_ops_state::lent::{Attempt, Context, Runtime, Shared};
use ps_step_outcome::raises::raise_by;
use ps_step_outcome::turned::Turned;
use ps_step_outcome::world_operators::WorldOperator;
use std::alloc::Global;

/// A context and how far it is; what contexts share, and the memory with its objects, are given to
/// each step.
#[derive(Drop)]
pub struct Interpreter {
    pub context: Context,
    pub course: AloneCourse,
    /// How many lines of errors were printed; at most one, at the end.
    pub error_lines: u32,
}

impl Interpreter {
    /// The first context of a program before its first step, over a memory in which nothing stands.
    ///
    /// `NeedSpace`: the first objects have no room. `Memory`: a growth was refused. There is no
    /// other, and nothing was made then.
    pub fn new<'a, M: Memory>(
        alloc: Global,
        memory: &mut M,
        program: &'a [u8],
        setup: Setup,
    ) -> Result<(Interpreter, Shared<'a>), NotMade>
        requires heap { IsEmptyHeap (M.heap memory.old) }
        ensures at { IfOk result (λ made. IsAt
            (held (lent (M.heap memory.new) (M.grants memory.new) made.0.context made.1)
            made.0.course made.0.error_lines) (first_machine program.now)) }
        ensures steady { IfOk result (λ made. IsSteady
            (held (lent (M.heap memory.new) (M.grants memory.new) made.0.context made.1)
            made.0.course made.0.error_lines)) }
        ensures program { IfOk result (λ made. made.1.program.now ≡ program.now) }
        ensures most { IfOk result (λ made. made.1.printed.most ≡ setup.output) }
        ensures not_made { OnErr result (M.heap memory.new ≡ M.heap memory.old) }
        ensures reason { IfErr result (λ reason. IsStartReason reason (M.heap memory.old)) }
        ensures logs { SameLogs (M.grants memory.old) (M.grants memory.new) }
    {
        let (context, shared) = start(alloc, memory, program, setup)?;
        let interpreter = Interpreter {
            context,
            course: AloneCourse::Running,
            error_lines: 0,
        };
        Ok((interpreter, shared))
    }
}

impl Interpreter {
    /// Whether the context has another step.
    #[inline(always)]
    pub fn has_steps(&self) -> bool
        ensures { result ≡ courses.has_steps self.now.course }
    {
        self.course != AloneCourse::Finished
    }

    /// One step over a memory, whose records go into the log of a slot. An operator that is left to
    /// the world raises `undefined`.
    ///
    /// Not made: as the operator that acts, or the note of an error. The context is then at the
    /// same place of its run; if the error of an operator that is left to the world can't be noted,
    /// the element of that operator is taken, and the next step notes it.
    #[inline(always)]
    pub fn step<S: Interpret, M: Memory>(
        &mut self,
        interpret: &mut S,
        runtime: &mut Runtime<M>,
        attempt: Attempt,
    ) -> Result<(), NotMade>
        requires steady { IsSteady
            (held (lent_of M.heap M.grants self.old.context runtime.old)
            self.old.course self.old.error_lines) }
        requires going { courses.has_steps self.old.course ≡ true }
        ensures { Steps S.asks attempt result
            (held (lent_of M.heap M.grants self.old.context runtime.old)
            self.old.course self.old.error_lines)
            (held (lent_of M.heap M.grants self.new.context runtime.new)
            self.new.course self.new.error_lines) }
    {
        match self.course {
            AloneCourse::Running => self.turn(None, interpret, runtime, attempt),
            AloneCourse::Unwinding(cause) => self.turn(Some(cause), interpret, runtime, attempt),
            AloneCourse::Calling(operator) => self.undefine(operator, runtime, attempt),
            AloneCourse::Finished => Ok(()),
        }
    }

    /// How far the context is after a turn: it ends where no frame is left.
    #[inline(always)]
    fn settle(&mut self, turned: Turned)
        requires { self.old.error_lines ≡ 0 }
        ensures context { self.new.context ≡ self.old.context }
        ensures course { self.new.course ≡ courses.course_after turned self.old.context.frames }
        ensures lines { self.new.error_lines ≡ lines_after turned self.old.error_lines }
    {
        match turned {
            Turned::Goes => {
                if self.context.frames.len() == 0 {
                    self.course = AloneCourse::Finished;
                } else {
                    self.course = AloneCourse::Running;
                }
            }
            Turned::Calls(operator) => self.course = AloneCourse::Calling(operator),
            Turned::Breaks(cause) => self.course = AloneCourse::Unwinding(cause),
            Turned::Ends { told } => {
                self.course = AloneCourse::Finished;
                self.error_lines += told as u32;
            }
        }
    }

    /// The error of an operator that is left to the world, whose element is taken.
    ///
    /// Not made, with nothing changed: as the note of an error.
    #[inline(never)]
    fn undefine<M: Memory>(
        &mut self,
        operator: WorldOperator,
        runtime: &mut Runtime<M>,
        attempt: Attempt,
    ) -> Result<(), NotMade>
        requires steady { IsSteady
            (held (lent_of M.heap M.grants self.old.context runtime.old)
            self.old.course self.old.error_lines) }
        requires calling { self.old.course ≡ AloneCourse.Calling operator }
        ensures { (asks : Status → Around → Scene → Asked) → Steps asks attempt result
            (held (lent_of M.heap M.grants self.old.context runtime.old)
            self.old.course self.old.error_lines)
            (held (lent_of M.heap M.grants self.new.context runtime.new)
            self.new.course self.new.error_lines) }
    {
        match raise_by(
            operator.operator(),
            ErrorName::Undefined,
            &mut self.context,
            runtime,
            attempt,
        ) {
            Ok(turned) => {
                self.settle(turned);
                Ok(())
            }
            Err(reason) => Err(reason),
        }
    }

    /// The turn of a context that runs, or is unwinding for a cause.
    #[inline(always)]
    fn turn<S: Interpret, M: Memory>(
        &mut self,
        unwinding: Option<Cause>,
        interpret: &mut S,
        runtime: &mut Runtime<M>,
        attempt: Attempt,
    ) -> Result<(), NotMade>
        requires steady { IsSteady
            (held (lent_of M.heap M.grants self.old.context runtime.old)
            self.old.course self.old.error_lines) }
        requires course { self.old.course ≡ courses.course_in unwinding }
        ensures { Steps S.asks attempt result
            (held (lent_of M.heap M.grants self.old.context runtime.old)
            self.old.course self.old.error_lines)
            (held (lent_of M.heap M.grants self.new.context runtime.new)
            self.new.course self.new.error_lines) }
    {
        let same_attempt = attempt;
        let next = interpret.step(unwinding, &mut self.context, runtime, attempt);
        self.finish(next, runtime, same_attempt)
    }

    /// Finishes a turn of a context that was running, or unwinding: it is settled how far the
    /// context is, and an operator that is left to the world raises `undefined`.
    #[inline(always)]
    fn finish<M: Memory>(
        &mut self,
        next: Result<Turned, NotMade>,
        runtime: &mut Runtime<M>,
        attempt: Attempt,
    ) -> Result<(), NotMade>
        requires lines { self.old.error_lines ≡ 0 }
        requires good { IsGood (lent_of M.heap M.grants self.old.context runtime.old) }
        ensures { (asks : Status → Around → Scene → Asked) (unwinding : Option TheCause)
            (before : Lent) → IsSteady (held before (courses.course_in unwinding) 0)
            → self.old.course ≡ courses.course_in unwinding
            → Turns (asks_in asks unwinding) (own_turn unwinding) attempt next before
            (lent_of M.heap M.grants self.old.context runtime.old)
            → Steps asks attempt result (held before (courses.course_in unwinding) 0)
            (held (lent_of M.heap M.grants self.new.context runtime.new)
            self.new.course self.new.error_lines) }
    {
        let turned = match next {
            Ok(turned) => turned,
            Err(reason) => return Err(reason),
        };
        match turned {
            Turned::Calls(operator) => {
                self.course = AloneCourse::Calling(operator);
                self.undefine(operator, runtime, attempt)
            }
            _ => {
                self.settle(turned);
                Ok(())
            }
        }
    }
}
