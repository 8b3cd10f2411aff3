//! The baton: a vault with all that a worker needs to make a turn. Who holds it makes steps.
//!
//! It keeps (`Keeps`) that it is of the run that its type names, that the steps made are counted and
//! within the budget, that each refused one was refused for a reason, that what was shown is a
//! beginning of what was printed, and that an outcome, once it stands, is that of the vault's world.

ghost use Rattle.std.specs.Prelude.{◌≡◌, [], length, ◌==◌, ◌+◌, ◌<◌, ◌≤◌, ◌≢◌, true, false, IfErr, IfOk, IfSome, IfNone, IsErr, IsSome, None, Err};
ghost use Rattle.ps_ctx_start.specs.Starts.{IsEmptyHeap};
ghost use Rattle.ps_vault.specs.Holds.{IfForRoom, IsHeldUp};
ghost use Rattle.ps_vault.specs.Order.{IsNoneAbove};
ghost use Rattle.ps_vault.specs.Reports.{EndsAs, IsWithin};
ghost use Rattle.ps_vault.specs.Stories.{world_at};
ghost use Rattle.ps_ctx.specs.Needs.{step_wants};
ghost use Rattle.ps_run_workers.specs.Batons.{GoesOn, HasEnded, IsStarvedAt, MayGoOn, MayRefuse, beginning};

use crate::origins::Origin;
use crate::paces::Pace;
use crate::waits::Waits;
use ps_core_laws::collected::Counts;
use ps_ctx::deeds::Deeds;
use ps_ctx::notes::Note;
use ps_mem::Memory;
use ps_ops_operands::failure::NotMade;
use ps_step_interpreter::interprets::Interpret;
use ps_vault::{
    Advanced, Config, Job, Outcome, Room, RunFault, Screen, Vault, Viewer, Watched, wish_of,
};
use std::alloc::Global;
use std::marker::{Model, PhantomData};

/// The most turns of one hold of the baton: to hand it on costs as much as some turns.
pub(crate) const TURNS: u32 = 1024;

/// How many steps are left of a turn that had so many, behind these.
fn left_behind(rest: u32, advanced: Advanced) -> u32 {
    match advanced.told {
        Ok(Note::TurnEnds) => 0,
        Ok(_) | Err(_) => rest.saturating_sub(advanced.made),
    }
}

/// The vault, whose turn is next, and who is shown what is printed.
#[derive(Drop)]
pub(crate) struct Baton<
    'a,
    O: Origin,
    M: Memory + Drop,
    S: Interpret + Drop,
    D: Deeds + Drop,
    V: Viewer + Drop,
> {
    pub(crate) vault: Vault<'a, M, S, D>,
    pub(crate) config: Config,
    /// How many steps were made.
    pub(crate) made: u32,
    /// How many may be made.
    pub(crate) budget: u32,
    /// Whose turn was the last, or goes on.
    pub(crate) after: u32,
    /// How many steps that turn may still have; 0 where it is over.
    pub(crate) rest: u32,
    pub(crate) outcome: Option<Outcome>,
    pub(crate) screen: Screen<V>,
    /// Whether all threads were started.
    pub(crate) started: bool,
    /// A thread could not be started.
    pub(crate) refused: bool,
    /// When a cycle is opened.
    pub(crate) pace: Pace,
    /// What workers and the collector's thread wait for.
    pub(crate) waits: Waits,
    pub(crate) of: PhantomData<O>,
}

impl<'a, O: Origin, M: Memory + Drop, S: Interpret + Drop, D: Deeds + Drop, V: Viewer + Drop> Model
    for Baton<'a, O, M, S, D, V> {
    ghost use Rattle.ps_run_workers.specs.Batons.{Progress, Keeps};

    ghost Value = { Progress };

    ghost view = { λ b. record {
      story = b.vault;
      config = b.config;
      made = b.made;
      budget = b.budget;
      sight = b.screen;
      outcome = b.outcome;
    } };

    ghost invariant = { λ b. Keeps S.asks O.start (record {
      story = b.vault;
      config = b.config;
      made = b.made;
      budget = b.budget;
      sight = b.screen;
      outcome = b.outcome;
    }) };
}

impl<'a, O: Origin, M: Memory + Drop, S: Interpret + Drop, D: Deeds + Drop, V: Viewer + Drop> Baton<
    'a,
    O,
    M,
    S,
    D,
    V,
> {
    /// A baton for the run that its type names, over a memory of the configuration's size in which
    /// nothing stands. The error gives the viewer back: the room that the run starts with can't be
    /// had.
    pub(crate) fn new(
        alloc: Global,
        memory: M,
        job: Job<'a, S, D>,
        screen: Screen<V>,
    ) -> Result<Self, Screen<V>>
        requires empty { IsEmptyHeap (M.heap memory) }
        requires sized { (M.heap memory).space.size ≡ job.config.space }
        requires unmoved { (M.heap memory).space.flips ≡ 0 }
        requires numbers { IsWithin job.config }
        requires start { O.start ≡ beginning job.program.now job.config screen }
        requires nothing { screen.shown ≡ 0 }
        requires going { screen.failed ≡ false }
        ensures fault { IfErr result (λ given. given ≡ screen) }
        ensures fresh { IfOk result (λ baton. baton.story.schedule ≡ []) }
    {
        let config = job.config;
        prove!(config.steps <= u32::MAX);
        let room = Room::of_run(config.entries);
        let Ok(vault) = Vault::new(alloc, memory, job.into_task(), room) else {
            return Err(screen);
        };
        Ok(Baton {
            vault,
            config,
            made: 0,
            budget: config.steps,
            after: 0,
            rest: 0,
            outcome: None,
            screen,
            started: false,
            refused: false,
            pace: Pace::new(config.space),
            waits: Waits::new(),
            of: PhantomData,
        })
    }
}

impl<O: Origin, M: Memory + Drop, S: Interpret + Drop, D: Deeds + Drop, V: Viewer + Drop> Baton<
    '_,
    O,
    M,
    S,
    D,
    V,
> {
    /// Whether the run is over, or a thread could not be started.
    pub(crate) fn is_over(&self) -> bool
        ensures going { result ≡ false → self.now.outcome ≡ None }
        ensures over { IsSome self.now.outcome → result ≡ true }
    {
        self.refused || self.outcome.is_some()
    }

    /// A thread could not be started, and no further turn is made.
    pub(crate) fn refuse(&mut self)
        ensures { self.new ≡ self.old }
    {
        self.refused = true;
    }

    /// All threads were started, if none could not be: from now on who watches is shown what is
    /// printed.
    pub(crate) fn start(&mut self)
        ensures { self.new ≡ self.old }
    {
        self.started = !self.refused;
    }

    /// Whether it is a time to show what was printed: all threads were started, the run isn't over
    /// and showing hasn't failed, and no call waits.
    fn may_show(&self) -> bool
        ensures going { result ≡ true → self.now.outcome ≡ None }
        ensures seen { result ≡ true → self.now.sight.failed ≡ false }
        ensures calling { result ≡ true → self.now.story.caller ≡ None }
    {
        self.started
            && self.outcome.is_none()
            && !self.screen.has_failed()
            && self.vault.caller().is_none()
    }

    /// Shows what was printed, if the viewer watches and it is a time to. Where that fails the run is
    /// cut: no more steps are made than were.
    pub(crate) fn show(&mut self)
        ensures goes_on { GoesOn self.old self.new }
        ensures over { IsSome self.old.outcome → self.new ≡ self.old }
    {
        if !self.may_show() {
            return;
        }
        if !self.vault.show_printed(&mut self.screen) {
            self.budget = self.made;
        }
    }

    /// The context whose turn is next. None: the run is over, or it ends here.
    pub(crate) fn turn_of(&mut self) -> Option<u32>
        ensures goes_on { GoesOn self.old self.new }
        ensures over { IsSome self.old.outcome → self.new ≡ self.old }
        ensures may { IfSome result (MayGoOn self.new) }
        ensures outcome { IsSome result → self.new.outcome ≡ None }
    {
        if self.is_over() {
            return None;
        }
        if self.made == self.budget {
            self.judge();
            return None;
        }
        let next = self.next();
        if next.is_none() {
            self.judge();
        }
        next
    }

    /// How many steps the turn of a context may still have: a quantum, where none of its own goes on.
    pub(crate) fn rest_of(&self, context: u32) -> u32
        ensures { 1 ≤ result }
    {
        if context == self.after && self.rest > 0 {
            return self.rest;
        }
        self.config.quantum
    }

    /// Whether the turn of a context goes on: it may have more steps, and the context is ready, as far
    /// as no call waits.
    pub(crate) fn turn_goes_on(&mut self, context: u32) -> bool
        ensures { self.new ≡ self.old }
    {
        self.rest > 0 && self.vault.caller().is_none() && self.vault.is_ready(context)
    }

    /// The turn that goes on is over: the next one is another context's, if one is ready.
    pub(crate) fn pass_on(&mut self, context: u32)
        ensures { self.new ≡ self.old }
    {
        self.after = context;
        self.rest = 0;
    }

    /// The context whose call waits; else the one whose turn goes on, if it is ready; else the ready
    /// one of the least identifier above that of the last turn, or of all.
    fn next(&mut self) -> Option<u32>
        requires left { self.old.made < self.old.budget }
        ensures same { self.new ≡ self.old }
        ensures some { IfSome result (MayGoOn self.old) }
        ensures none { IfNone result (self.old.story.caller ≡ None) }
        ensures waits { IfNone result (IsNoneAbove (world_at self.old.story) 0) }
    {
        if let Some(caller) = self.vault.caller() {
            return Some(caller);
        }
        if self.rest > 0 && self.vault.is_ready(self.after) {
            return Some(self.after);
        }
        match self.vault.next_ready(self.after) {
            Some(next) => Some(next),
            None => self.vault.next_ready(0),
        }
    }

    /// Whether a context is ready, no other's call waits, and steps are left.
    pub(crate) fn may_go_on(&mut self, context: u32) -> bool
        ensures same { self.new ≡ self.old }
        ensures may { result ≡ true → MayGoOn self.old context }
    {
        if self.made >= self.budget {
            return false;
        }
        match self.vault.caller() {
            Some(caller) => caller == context,
            None => self.vault.is_ready(context),
        }
    }

    /// The run has ended: its steps are used up, or no context is ready.
    fn judge(&mut self)
        requires calling { self.old.story.caller ≡ None }
        requires ready { self.old.made ≢ self.old.budget
            → IsNoneAbove (world_at self.old.story) 0 }
        ensures goes_on { GoesOn self.old self.new }
        ensures ended { IsSome self.new.outcome }
    {
        let outcome = self.vault.outcome(self.made == self.budget);
        self.finish(outcome);
    }

    /// Steps of a context, at most so many: the number of the `vmreclaim` that the last was, if it
    /// was one. The error is why the next was held up. Where the schedule has no room the run ends.
    pub(crate) fn advance(&mut self, context: u32, most: u32) -> Result<Option<i32>, NotMade>
        requires may { MayGoOn self.old context }
        requires outcome { self.old.outcome ≡ None }
        requires some { 1 ≤ most }
        requires left { most + self.old.made ≤ self.old.budget }
        ensures goes_on { GoesOn self.old self.new }
        ensures may { IsErr result → MayGoOn self.new context }
        ensures outcome { IsErr result → self.new.outcome ≡ None }
        ensures made { self.old.made ≤ self.new.made }
        ensures stays { IsErr result → most ≡ 1
            → world_at self.new.story ≡ world_at self.old.story }
        ensures held_up { IfErr result
            (IsHeldUp M.heap M.grants S.asks context false self.new.story) }
        ensures room { IfErr result (IfForRoom false self.new.story context) }
    {
        let rest = self.rest_of(context);
        if self.vault.reserve_entries(context).is_err() {
            self.outcome = Some(Outcome::Memory);
            return Ok(None);
        }
        let advanced = self.vault.advance(context, most, true);
        self.made += advanced.made;
        let left = left_behind(rest, advanced);
        match advanced.told {
            Err(reason) => {
                self.after = context;
                self.rest = left;
                Err(reason)
            }
            Ok(note) => {
                self.after = context;
                self.rest = left;
                Ok(wish_of(note))
            }
        }
    }

    /// The run has ended so.
    pub(crate) fn finish(&mut self, outcome: Outcome)
        requires ends { EndsAs (world_at self.old.story) (self.old.made == self.old.budget)
            (IsStarvedAt S.asks self.old.story) outcome }
        ensures goes_on { GoesOn self.old self.new }
        ensures ended { IsSome self.new.outcome }
    {
        self.outcome = Some(outcome);
    }

    /// A step that makes objects, and found no room for them behind a whole cycle, is made refused.
    pub(crate) fn refuse_step(&mut self, context: u32)
        requires may { MayGoOn self.old context }
        requires outcome { self.old.outcome ≡ None }
        requires bounded { (m : M) → (M.heap m).space.grows ≡ false }
        requires makes { 1 ≤ (step_wants S.asks context false (world_at self.old.story)).words }
        requires refusal { MayRefuse self.old context }
        ensures goes_on { GoesOn self.old self.new }
    {
        let rest = self.rest_of(context);
        if self.vault.reserve_entries(context).is_err() {
            self.outcome = Some(Outcome::Memory);
            return;
        }
        match self.vault.step(context, true, None) {
            Ok(()) => {
                self.made += 1;
                self.after = context;
                self.rest = rest.saturating_sub(1);
            }
            Err(NotMade::Memory) => self.outcome = Some(Outcome::Memory),
            Err(_) => {}
        }
    }

    /// The run's report with these counts, if it is over, and its viewer.
    pub(crate) fn report(self, counts: Counts) -> Watched<V>
        ensures ended { HasEnded S.asks O.start result.report result.screen }
        ensures fault { result.report ≢ Err RunFault.Config }
    {
        let Baton {
            vault,
            budget,
            outcome,
            refused,
            screen,
            ..
        } = self;
        let Some(outcome) = outcome else {
            return Watched {
                report: Err(RunFault::Memory),
                screen,
            };
        };
        if refused {
            return Watched {
                report: Err(RunFault::Memory),
                screen,
            };
        }
        let report = Ok(vault.into_report(budget, outcome, counts));
        Watched { report, screen }
    }
}
