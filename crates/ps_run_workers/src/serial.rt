//! Turns of a run whose collector has no thread: it acts between steps, and makes room where one is
//! held up.

ghost use Rattle.std.specs.Prelude.{◌≡◌, length, ◌+◌, ◌≤◌, ◌≢◌, ◌↔◌, false, None, Err, IfOk, IsSome};
ghost use Rattle.ps_mem.specs.Bounded.{bounded_space};
ghost use Rattle.ps_ctx_start.specs.Starts.{IsEmptyHeap};
ghost use Rattle.ps_vault.specs.Holds.{IsHeldUp};
ghost use Rattle.ps_vault.specs.Reports.{bounds_of, IsBounded, IsRunIn, IsWithin};
ghost use Rattle.ps_run_workers.specs.Batons.{GoesOn, SameProgress, MayGoOn, beginning};

use crate::batons::{Baton, TURNS};
use crate::origins::Origin;
use crate::serving::Lent;
use ps_core_laws::collected::CollectedMemory;
use ps_core_laws::sides::{Collects, Past};
use ps_ctx::deeds::Deeds;
use ps_mem::marked::Marked;
use ps_ops_operands::failure::NotMade;
use ps_step_interpreter::interprets::Interpret;
use ps_vault::{Entry, Guide, Job, NoViewer, Outcome, Report, RootList, RunFault, Screen, Viewer};
use std::alloc::Global;

/// The actions of the collector behind the steps of a turn, in an open cycle.
const ACTIONS: u32 = 64;

/// The actions of the collector where a log is full.
const DRAIN_ACTIONS: u32 = 8192;

/// A baton, with the collector that its memory has inside, and marks around that. Who is shown what
/// it prints sees it at the end.
#[derive(Drop)]
pub(crate) struct SerialBaton<
    'a,
    O: Origin,
    M: CollectedMemory + Drop,
    S: Interpret + Drop,
    D: Deeds + Drop,
    C: Collects<M> + Drop,
> {
    pub(crate) baton: Baton<'a, O, Marked<M>, S, D, NoViewer>,
    pub(crate) lent: Lent<Past<C>>,
}

impl<
    'a,
    O: Origin,
    M: CollectedMemory + Drop,
    S: Interpret + Drop,
    D: Deeds + Drop,
    C: Collects<M> + Drop,
> SerialBaton<'a, O, M, S, D, C> {
    /// The baton of a run that begins, over a memory of the configuration's size in which nothing
    /// stands. `Config`: a number is out of its range. `Memory`: the room that the run starts with
    /// can't be had.
    pub(crate) fn new(
        alloc: Global,
        sides: (M, C),
        job: Job<'a, S, D>,
        screen: Screen<NoViewer>,
    ) -> Result<Self, RunFault>
        requires empty { IsEmptyHeap (M.heap sides.0) }
        requires sized { (M.heap sides.0).space.size ≡ job.config.space }
        requires unmoved { (M.heap sides.0).space.flips ≡ 0 }
        requires start { O.start ≡ beginning job.program.now job.config screen }
        requires nothing { screen.shown ≡ 0 }
        requires going { screen.failed ≡ false }
        ensures config { (result ≡ Err RunFault.Config) ↔ ¬ IsWithin job.entry.config }
    {
        if !job.config.is_within() {
            return Err(RunFault::Config);
        }
        let Ok(roots) = RootList::new(alloc) else {
            return Err(RunFault::Memory);
        };
        let (memory, collector) = sides;
        let Ok(baton) = Baton::new(alloc, Marked::new(alloc, memory), job, screen) else {
            return Err(RunFault::Memory);
        };
        let lent = Lent {
            collector: Past(collector),
            roots,
        };
        Ok(SerialBaton { baton, lent })
    }
}

impl<
    O: Origin,
    M: CollectedMemory + Drop,
    S: Interpret + Drop,
    D: Deeds + Drop,
    C: Collects<M> + Drop,
> SerialBaton<'_, O, M, S, D, C> {
    /// The turns of one hold of the baton. True: the run is over, or a thread could not be started.
    pub(crate) fn turns(&mut self) -> bool
        ensures goes_on { GoesOn self.old.baton self.new.baton }
    {
        for _ in 0..TURNS {
            if self.baton.serial_turn(&mut self.lent) {
                return true;
            }
        }
        false
    }

    /// Turns of the contexts that a schedule has, in its order, as long as each may go on.
    pub(crate) fn follow(&mut self, given: &[Entry])
        ensures goes_on { GoesOn self.old.baton self.new.baton }
    {
        let mut guide = Guide::new(given);
        for _ in 0..u64::MAX {
            let Some((context, most)) = guide.next() else {
                return;
            };
            let Some(made) = self.baton.turn_as(context, most, &mut self.lent) else {
                return;
            };
            guide.pass(made);
        }
    }

    /// The run's report, if it is over. No one was shown anything.
    pub(crate) fn into_report(self) -> Result<Report, RunFault>
        requires unseen { O.start.sight.watching ≡ false }
        requires going { O.start.sight.failed ≡ false }
        ensures run { IfOk result (IsRunIn S.asks (bounded_space O.start.config.space)
            O.start.program O.start.config.steps) }
        ensures bounded { IfOk result (IsBounded (bounds_of O.start.config)) }
        ensures fault { result ≢ Err RunFault.Config }
    {
        let SerialBaton { baton, .. } = self;
        baton.into_report().report
    }
}

impl<
    O: Origin,
    M: CollectedMemory + Drop,
    S: Interpret + Drop,
    D: Deeds + Drop,
    V: Viewer + Drop,
> Baton<'_, O, M, S, D, V> {
    /// A turn of the next context, or what is left of the one that goes on: at most a quantum of its
    /// steps, and only one while a cycle is open. True: the run is over, or a thread could not be started.
    pub(crate) fn serial_turn<C: Collects<M>>(&mut self, lent: &mut Lent<C>) -> bool
        ensures goes_on { GoesOn self.old self.new }
        ensures over { IsSome self.old.outcome → self.new ≡ self.old }
    {
        let Some(context) = self.turn_of() else {
            return true;
        };
        self.turn_within(context, u32::MAX, lent);
        self.outcome.is_some()
    }

    /// A turn of this context, of at most so many steps, and how many it made. None: it may not go
    /// on, or the run is over.
    fn turn_as<C: Collects<M>>(
        &mut self,
        context: u32,
        most: u32,
        lent: &mut Lent<C>,
    ) -> Option<u32>
        requires { 1 ≤ most }
        ensures goes_on { GoesOn self.old self.new }
        ensures none { result ≡ None → self.new ≡ self.old }
    {
        if self.is_over() || !self.may_go_on(context) {
            return None;
        }
        let before = self.made;
        self.turn_within(context, most, lent);
        Some(self.made.saturating_sub(before))
    }

    /// A turn of a context, or what is left of it: at most so many steps, and only one while a cycle
    /// is open.
    fn turn_within<C: Collects<M>>(&mut self, context: u32, most: u32, lent: &mut Lent<C>)
        requires may { MayGoOn self.old context }
        requires outcome { self.old.outcome ≡ None }
        requires some { 1 ≤ most }
        ensures goes_on { GoesOn self.old self.new }
    {
        let left = self.budget - self.made;
        let most = if self.vault.is_open() {
            1
        } else {
            most.min(self.rest_of(context)).min(left)
        };
        self.make_serially(context, most, lent);
    }

    /// Steps of a context, at most so many, and the collector's work behind them; where the next is
    /// held up, that is mended.
    fn make_serially<C: Collects<M>>(&mut self, context: u32, most: u32, lent: &mut Lent<C>)
        requires may { MayGoOn self.old context }
        requires outcome { self.old.outcome ≡ None }
        requires some { 1 ≤ most }
        requires left { most + self.old.made ≤ self.old.budget }
        ensures goes_on { GoesOn self.old self.new }
    {
        match self.advance(context, most) {
            Ok(wish) => {
                if wish.is_some() || self.is_between(context) {
                    self.collect_serially(wish, lent);
                }
            }
            Err(NotMade::NeedSpace(_)) => self.make_room(context, lent),
            Err(reason) => self.relieve(context, reason, lent),
        }
    }

    /// Whether it is a time for the collector, behind steps of a context: their turn is over, or a
    /// cycle is open. So it can't be seen where the steps that were asked for were used up.
    fn is_between(&mut self, context: u32) -> bool
        ensures { self.new ≡ self.old }
    {
        self.vault.is_open() || !self.turn_goes_on(context)
    }

    /// The collector makes what room it can, and a step that found none is tried again: it is
    /// refused where it finds none then. Where the try itself left garbage it is tried once more.
    fn make_room<C: Collects<M>>(&mut self, context: u32, lent: &mut Lent<C>)
        requires may { MayGoOn self.old context }
        requires outcome { self.old.outcome ≡ None }
        ensures goes_on { GoesOn self.old self.new }
    {
        if !self.stop_all(lent) {
            return;
        }
        let used = self.vault.used();
        match self.advance(context, 1) {
            Ok(wish) => self.collect_serially(wish, lent),
            Err(reason) => {
                if matches!(reason, NotMade::NeedSpace(_)) && self.vault.used() == used {
                    self.refuse_step(context);
                } else {
                    self.relieve(context, reason, lent);
                }
            }
        }
    }

    /// What held a step up is mended: a full log is drained, and the cycle of a closed one is ended.
    /// For want of memory the run ends.
    fn relieve<C: Collects<M>>(&mut self, context: u32, reason: NotMade, lent: &mut Lent<C>)
        requires may { MayGoOn self.old context }
        requires outcome { self.old.outcome ≡ None }
        requires held_up { IsHeldUp M.heap M.grants S.asks context false self.old.story reason }
        ensures goes_on { GoesOn self.old self.new }
    {
        match reason {
            NotMade::LogFull => {
                self.vault.work(DRAIN_ACTIONS);
            }
            NotMade::LogClosed => self.end_open(lent),
            NotMade::Memory => self.finish(Outcome::Memory),
            NotMade::NeedSpace(_) => {}
        }
    }

    /// The collector's work behind steps; wish: the number of the `vmreclaim` that was made.
    fn collect_serially<C: Collects<M>>(&mut self, wish: Option<i32>, lent: &mut Lent<C>)
        ensures { SameProgress self.old self.new }
    {
        match wish {
            Some(1) | Some(2) => {
                self.stop_all(lent);
            }
            Some(number) => self.pace.may_open = number == 0,
            None => {}
        }
        if self.vault.is_open() {
            if !self.vault.work(ACTIONS) {
                self.end_open(lent);
            }
        } else if self.pace.may_open
            && self.vault.is_half_used(self.pace.kept)
            && self.vault.open_cycle()
        {
            self.vault.hand_over(&mut lent.collector, &mut lent.roots);
        }
    }

    /// The open cycle is ended, if there is one.
    fn end_open<C: Collects<M>>(&mut self, lent: &mut Lent<C>)
        ensures { SameProgress self.old self.new }
    {
        if self.may_flip(1) && self.vault.end_cycle(&mut lent.collector, &mut lent.roots) {
            self.rest();
        }
    }
}
