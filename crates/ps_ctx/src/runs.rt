//! Many steps of one context (PLRM2, 3.5, 7.1).

ghost use Rattle.std.specs.Prelude.{◌≡◌, ◌<◌, ◌≤◌, Some, None, IsSome, IsNone, IfOk, IfSome};
ghost use Rattle.std.specs.Prelude.{is_some, if◌then◌else◌};
ghost use Rattle.ps_ctx_table.specs.Seats.{item_at};
ghost use Rattle.ps_ctx.specs.Calls.{over_of};
ghost use Rattle.ps_ctx.specs.Held.{held, CourseAt, IsSteadyHeld, MayStep, course_in};
ghost use Rattle.ps_ctx.specs.Steps as steps;
ghost use Rattle.ps_ctx.specs.Steps.{GoesOn, IsCounted, IsUnready};

use crate::deeds::Deeds;
use crate::makers::Makers;
use crate::notes::Note;
use crate::turns::run_of;
use crate::worlds::World;
use ps_ctx_table::members::Course;
use ps_mem::{Memory, Slot};
use ps_ops_operands::failure::NotMade;
use ps_ops_state::lent::{Attempt, Runtime};
use ps_step_interpreter::interprets::Interpret;
use ps_step_outcome::batches::Batch;
use ps_step_outcome::turned::Turned;

/// A number of words as `vmstatus` shows it, and as a schedule can have it: from 1 to the greatest
/// integer.
fn words_shown(words: u32) -> i32
    ensures { result ≡ steps.words_shown words }
{
    i32::try_from(words.max(1)).unwrap_or(i32::MAX)
}

/// The words used and the words there are, where `vmstatus` is to show them.
fn shown_by<M: Memory>(memory: &mut M, shows: bool) -> Option<(i32, i32)>
    ensures heap { M.heap memory.new ≡ M.heap memory.old }
    ensures grants { M.grants memory.new ≡ M.grants memory.old }
    ensures shown { result
        ≡ (if shows then Some (steps.shown_words (M.heap memory.old)) else None) }
    ensures counted { IfSome result (λ pair. IsCounted (M.heap memory.old)) }
{
    if !shows {
        return None;
    }
    let used = words_shown(memory.used());
    let size = words_shown(memory.size());
    Some((used, size))
}

impl World {
    /// Makes ordinary steps of a context one after another, at most so many, as long as it goes on
    /// by itself, and tells what the step behind them came to, which may call an operator on other
    /// contexts, and what a `vmstatus` in it was shown; of a context that doesn't run, or whose call
    /// waits, that step alone. Shows says whether `vmstatus` shows the memory just before its step,
    /// or three zeros.
    pub fn go_on<S: Interpret + Drop, D: Deeds + Drop, M: Memory>(
        &mut self,
        makers: &mut Makers<S, D>,
        runtime: &mut Runtime<M>,
        identifier: u32,
        slot: Slot,
        most: u32,
        shows: bool,
    ) -> Batch<(Result<Note, NotMade>, Option<(i32, i32)>)>
        requires some { 1 ≤ most }
        requires there { IsSome (item_at self.old.contexts.table identifier) }
        requires may { MayStep self.old.calling identifier }
        requires steady { IsSteadyHeld
            (held (over_of M.heap M.grants runtime.old self.old.contexts)
            self.old.calling) }
        ensures within { result.made ≤ most }
        ensures fewer { IsSome result.next → result.made < most }
        ensures shown { IfSome result.next
            (λ next. IfOk next.0 (λ note. is_some next.1 ≡ shows)) }
        ensures ended { IsNone result.next → result.made < most → IsUnready identifier
            (held (over_of M.heap M.grants runtime.new self.new.contexts)
            self.new.calling) }
        ensures idle { IsNone result.next → self.new.calling ≡ None }
        ensures makes { GoesOn S.asks identifier slot result.made result.next
            (held (over_of M.heap M.grants runtime.old self.old.contexts)
            self.old.calling)
            (held (over_of M.heap M.grants runtime.new self.new.contexts)
            self.new.calling) }
    {
        let course = self.course(identifier);
        if self.calling.is_none() && course == Course::Running {
            return self.run(makers, runtime, identifier, slot, most, shows);
        }
        let shown = shown_by(&mut runtime.memory, shows);
        let attempt = Attempt {
            slot,
            refused: false,
        };
        let told = self.step(makers, runtime, identifier, attempt, shown);
        Batch {
            made: 0,
            next: Some((told, shown)),
        }
    }

    /// The steps of a running context.
    fn run<S: Interpret + Drop, D: Deeds + Drop, M: Memory>(
        &mut self,
        makers: &mut Makers<S, D>,
        runtime: &mut Runtime<M>,
        identifier: u32,
        slot: Slot,
        most: u32,
        shows: bool,
    ) -> Batch<(Result<Note, NotMade>, Option<(i32, i32)>)>
        requires course { CourseAt identifier (course_in None) self.old.contexts.table }
        requires calling { self.old.calling ≡ None }
        requires steady { IsSteadyHeld
            (held (over_of M.heap M.grants runtime.old self.old.contexts) None) }
        ensures within { result.made ≤ most }
        ensures fewer { IsSome result.next → result.made < most }
        ensures shown { IfSome result.next
            (λ next. IfOk next.0 (λ note. is_some next.1 ≡ shows)) }
        ensures ended { IsNone result.next → result.made < most → IsUnready identifier
            (held (over_of M.heap M.grants runtime.new self.new.contexts)
            self.new.calling) }
        ensures idle { IsNone result.next → self.new.calling ≡ None }
        ensures makes { GoesOn S.asks identifier slot result.made result.next
            (held (over_of M.heap M.grants runtime.old self.old.contexts) None)
            (held (over_of M.heap M.grants runtime.new self.new.contexts)
            self.new.calling) }
    {
        let contexts = &mut self.contexts;
        let (run, framed) = run_of(contexts, identifier, &mut makers.steps, runtime, slot, most);
        let made = run.made;
        let Some(next) = run.next else {
            if framed {
                return Batch { made, next: None };
            }
            self.contexts.settle(identifier, Turned::Goes);
            return Batch { made, next: None };
        };
        let turned = match next {
            Ok(turned) => turned,
            Err(reason) => {
                let next = (Err(reason), None);
                return Batch {
                    made,
                    next: Some(next),
                };
            }
        };
        let shown = shown_by(&mut runtime.memory, shows);
        let attempt = Attempt {
            slot,
            refused: false,
        };
        let operators = &mut makers.operators;
        let told = self.finish(turned, operators, runtime, identifier, attempt, shown);
        Batch {
            made,
            next: Some((told, shown)),
        }
    }
}
