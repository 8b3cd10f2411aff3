//! All contexts of a run, and their steps (PLRM2, 7.1).

ghost use Rattle.std.specs.Prelude.{◌≡◌, ◌<◌, ◌≤◌, Option, Some, None, IsSome};
ghost use Rattle.ps_language.specs.Effect.{Around, Scene};
ghost use Rattle.ps_language.specs.World.{Status};
ghost use Rattle.ps_ops_state.specs.Acts.{Asked};
ghost use Rattle.ps_ctx_table.specs.Seats.{item_at};
ghost use Rattle.ps_ctx.specs.Calls.{over_of};
ghost use Rattle.ps_ctx.specs.Finishes.{settled_held, Finishes};
ghost use Rattle.ps_ctx.specs.Held.{held, CourseAt, IsSteadyHeld, MayStep, course_in};
ghost use Rattle.ps_ctx.specs.Steps.{Steps};

use crate::deeds::Deeds;
use crate::makers::Makers;
use crate::notes::Note;
use crate::retries::retried;
use crate::turns::turn_of;
use ps_ctx_table::contexts::Contexts;
use ps_ctx_table::members::Course;
use ps_mem::Memory;
use ps_ops_control::frames::Cause;
use ps_ops_operands::failure::NotMade;
use ps_ops_state::lent::{Attempt, Runtime};
use ps_step_interpreter::interprets::Interpret;
use ps_step_outcome::turned::Turned;
use ps_step_outcome::world_operators::WorldOperator;

/// A call of an operator that is left to the world, whose element is taken.
#[derive(Clone, Copy, Debug, PartialEq, Eq)]
pub struct Calling {
    pub caller: u32,
    pub operator: WorldOperator,
}

/// All contexts; the memory, and what they share beside it, are given to each step.
#[derive(Drop)]
pub struct World {
    pub contexts: Contexts,
    /// A call that could not be made: no other context makes a step before it is.
    pub calling: Option<Calling>,
}

impl World {
    /// Makes the step of a context that is there, whose records go into the log of a slot;
    /// `vmstatus` shows the given pair.
    ///
    /// Not made: as the turn of the context, or the operator that it calls. Then all is at the same
    /// world as before; of a call the element may be taken, and the next step goes on from there.
    pub fn step<S: Interpret + Drop, D: Deeds + Drop, M: Memory>(
        &mut self,
        makers: &mut Makers<S, D>,
        runtime: &mut Runtime<M>,
        identifier: u32,
        attempt: Attempt,
        shown: Option<(i32, i32)>,
    ) -> Result<Note, NotMade>
        requires there { IsSome (item_at self.old.contexts.table identifier) }
        requires may { MayStep self.old.calling identifier }
        requires steady { IsSteadyHeld
            (held (over_of M.heap M.grants runtime.old self.old.contexts)
            self.old.calling) }
        ensures { Steps S.asks identifier attempt shown result
            (held (over_of M.heap M.grants runtime.old self.old.contexts)
            self.old.calling)
            (held (over_of M.heap M.grants runtime.new self.new.contexts)
            self.new.calling) }
    {
        if let Some(calling) = self.calling {
            return self.call(calling, &mut makers.operators, runtime, attempt, shown);
        }
        match self.course(identifier) {
            Course::Running => self.own(None, makers, runtime, identifier, attempt, shown),
            Course::Unwinding(cause) => {
                let unwinding = Some(cause);
                self.own(unwinding, makers, runtime, identifier, attempt, shown)
            }
            Course::Again => self.retry(&mut makers.operators, runtime, identifier, attempt, shown),
            Course::Retaking { .. } => {
                match makers
                    .operators
                    .retake(identifier, &mut self.contexts, runtime, attempt)
                {
                    Ok(()) => Ok(Note::Nothing),
                    Err(reason) => Err(reason),
                }
            }
            Course::Waiting { .. } => Ok(Note::Nothing),
            Course::Finished => Ok(Note::Nothing),
        }
    }

    /// How far a context that is there is.
    #[inline]
    pub fn course(&self, identifier: u32) -> Course
        requires { IsSome (item_at self.now.contexts.table identifier) }
        ensures { CourseAt identifier result self.now.contexts.table }
    {
        let Some(member) = self.contexts.table.get(identifier) else {
            unreachable!()
        };
        member.course
    }

    /// The turn of a context that runs, or is unwinding for a cause.
    fn own<S: Interpret + Drop, D: Deeds + Drop, M: Memory>(
        &mut self,
        unwinding: Option<Cause>,
        makers: &mut Makers<S, D>,
        runtime: &mut Runtime<M>,
        identifier: u32,
        attempt: Attempt,
        shown: Option<(i32, i32)>,
    ) -> Result<Note, NotMade>
        requires course { CourseAt identifier (course_in unwinding) self.old.contexts.table }
        requires calling { self.old.calling ≡ None }
        requires steady { IsSteadyHeld
            (held (over_of M.heap M.grants runtime.old self.old.contexts) None) }
        ensures { Steps S.asks identifier attempt shown result
            (held (over_of M.heap M.grants runtime.old self.old.contexts) None)
            (held (over_of M.heap M.grants runtime.new self.new.contexts)
            self.new.calling) }
    {
        let same_attempt = attempt;
        let contexts = &mut self.contexts;
        match turn_of(
            contexts,
            identifier,
            unwinding,
            &mut makers.steps,
            runtime,
            attempt,
        ) {
            Ok(turned) => {
                let operators = &mut makers.operators;
                self.finish(turned, operators, runtime, identifier, same_attempt, shown)
            }
            Err(reason) => Err(reason),
        }
    }

    /// Finishes the turn of a context: it settles, and an operator that is left to the world is
    /// called.
    pub(crate) fn finish<D: Deeds, M: Memory>(
        &mut self,
        turned: Turned,
        operators: &mut D,
        runtime: &mut Runtime<M>,
        identifier: u32,
        attempt: Attempt,
        shown: Option<(i32, i32)>,
    ) -> Result<Note, NotMade>
        requires there { IsSome (item_at self.old.contexts.table identifier) }
        requires calling { self.old.calling ≡ None }
        requires steady { IsSteadyHeld (settled_held turned identifier
            (over_of M.heap M.grants runtime.old self.old.contexts)) }
        ensures { Finishes turned identifier attempt shown result (settled_held turned identifier
            (over_of M.heap M.grants runtime.old self.old.contexts))
            (held (over_of M.heap M.grants runtime.new self.new.contexts)
            self.new.calling) }
    {
        self.contexts.settle(identifier, turned);
        match turned {
            Turned::Calls(operator) => {
                let calling = Calling {
                    caller: identifier,
                    operator,
                };
                self.calling = Some(calling);
                self.call(calling, operators, runtime, attempt, shown)
            }
            _ => Ok(Note::Nothing),
        }
    }

    /// Makes the call whose element is taken.
    fn call<D: Deeds, M: Memory>(
        &mut self,
        calling: Calling,
        operators: &mut D,
        runtime: &mut Runtime<M>,
        attempt: Attempt,
        shown: Option<(i32, i32)>,
    ) -> Result<Note, NotMade>
        requires calling { self.old.calling ≡ Some calling }
        requires steady { IsSteadyHeld
            (held (over_of M.heap M.grants runtime.old self.old.contexts)
            (Some calling)) }
        ensures { (asks : Status → Around → Scene → Asked) → Steps asks calling.caller attempt shown
            result
            (held (over_of M.heap M.grants runtime.old self.old.contexts)
            (Some calling))
            (held (over_of M.heap M.grants runtime.new self.new.contexts)
            self.new.calling) }
    {
        match operators.call(calling, &mut self.contexts, runtime, attempt, shown) {
            Ok(note) => {
                self.calling = None;
                Ok(note)
            }
            Err(reason) => Err(reason),
        }
    }

    /// A context tries its `monitor` or `join` again.
    fn retry<D: Deeds, M: Memory>(
        &mut self,
        operators: &mut D,
        runtime: &mut Runtime<M>,
        identifier: u32,
        attempt: Attempt,
        shown: Option<(i32, i32)>,
    ) -> Result<Note, NotMade>
        requires course { CourseAt identifier Course.Again self.old.contexts.table }
        requires calling { self.old.calling ≡ None }
        requires steady { IsSteadyHeld
            (held (over_of M.heap M.grants runtime.old self.old.contexts) None) }
        ensures { (asks : Status → Around → Scene → Asked) → Steps asks identifier attempt shown
            result
            (held (over_of M.heap M.grants runtime.old self.old.contexts) None)
            (held (over_of M.heap M.grants runtime.new self.new.contexts)
            self.new.calling) }
    {
        let member = self.contexts.table.get_mut(identifier);
        let operator = retried(&member.context.operands);
        member.course = Course::Running;
        let call_again = Calling {
            caller: identifier,
            operator,
        };
        match operators.call(call_again, &mut self.contexts, runtime, attempt, shown) {
            Ok(note) => Ok(note),
            Err(reason) => {
                let member = self.contexts.table.get_mut(identifier);
                member.course = Course::Again;
                Err(reason)
            }
        }
    }
}
