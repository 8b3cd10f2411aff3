//! Turns of a run whose collector has a thread of its own, and what that thread does when it has the
//! baton: roots that are handed over, logs that are closed, the flip, and room for who found none.

ghost use Rattle.std.specs.Prelude.{◌≡◌, length, ◌+◌, ◌*◌, ◌<◌, ◌≤◌, ◌≢◌, true, false, None, Err, IsSome};
ghost use Rattle.ps_vault.specs.Holds.{IsHeldUp};
ghost use Rattle.ps_run_workers.specs.Batons.{GoesOn, HasEnded, IsTight, SameProgress, MayGoOn};

use crate::batons::{Baton, TURNS};
use crate::cycles::Cycle;
use crate::origins::Origin;
use crate::waits::Wanting;
use ps_core_laws::collected::Counts;
use ps_core_laws::sides::{Collects, LoggedMemory, Works};
use ps_core_laws::{Closing, Unready};
use ps_ctx::deeds::Deeds;
use ps_mem::Slot;
use ps_ops_operands::failure::NotMade;
use ps_record::SLOTS;
use ps_step_interpreter::interprets::Interpret;
use ps_vault::{Outcome, RootList, RunFault, Viewer, Watched};

/// The most steps of one hold of the baton: behind it what was printed is shown.
const STEPS: u32 = 65536;

/// The most while a cycle is open: the collector's thread may want it.
const STEPS_IN_CYCLE: u32 = 1024;

/// What is lent to whoever has the baton: the collector, and room for the roots of all contexts.
#[derive(Drop)]
pub(crate) struct Lent<C> {
    pub(crate) collector: C,
    pub(crate) roots: RootList,
}

impl<
    O: Origin,
    M: LoggedMemory + Drop,
    S: Interpret + Drop,
    D: Deeds + Drop,
    V: Viewer + Drop,
> Baton<'_, O, M, S, D, V> {
    /// Whether a worker has to wait for the collector's thread, which has copied so many words so
    /// far: a cycle is asked for, or the roots of the open one weren't handed over yet, or all turns
    /// were held up for a log, or steps are ahead of the collector.
    pub(crate) fn must_wait(&mut self, copied: u64) -> bool
        ensures { self.new ≡ self.old }
    {
        if self.is_idle() || self.is_over() {
            return false;
        }
        if self.waits.are_held() {
            return true;
        }
        let used = self.vault.used();
        let ahead = self.pace.is_ahead(used, copied);
        if ahead {
            self.waits.ahead = true;
        }
        ahead
    }

    /// Whether the collector's thread has nothing to do. So no worker waits for it then.
    pub(crate) fn is_idle(&mut self) -> bool
        ensures { self.new ≡ self.old }
    {
        !self.is_called() && !self.vault.is_open()
    }

    /// Whether the collector's thread is called away from its copying.
    pub(crate) fn is_called(&self) -> bool {
        self.waits.is_wanted() || self.is_over()
    }

    /// Whether the collector's thread may sleep until it is rung for.
    pub(crate) fn rests(&mut self) -> bool
        ensures { self.new ≡ self.old }
    {
        let idle = self.is_idle();
        self.waits.rest(idle)
    }

    /// Whether the collector's thread sleeps and has something to do.
    pub(crate) fn rings(&mut self) -> bool
        ensures { self.new ≡ self.old }
    {
        let idle = self.is_idle();
        self.waits.ring(idle)
    }

    /// Whether workers that wait may go on, since the collector, which has copied so many words so
    /// far, has looked at the logs or caught up.
    pub(crate) fn wakes(&mut self, copied: u64) -> bool
        ensures { self.new ≡ self.old }
    {
        let full = self.waits.wake_full();
        let used = self.vault.used();
        let caught_up = self.waits.ahead && self.pace.may_go_on(used, copied);
        if caught_up {
            self.waits.ahead = false;
        }
        full || caught_up
    }

    /// One hold of the baton, where the collector's thread has copied so many words so far: turns,
    /// and what they printed is shown. True: the run is over, or a thread could not be started.
    pub(crate) fn turns(&mut self, copied: u64) -> bool
        ensures goes_on { GoesOn self.old self.new }
        ensures over { IsSome self.old.outcome → self.new ≡ self.old }
    {
        let over = self.make_turns(copied);
        self.show();
        over
    }

    /// The turns of one hold of the baton. True: the run is over, or a thread could not be started.
    fn make_turns(&mut self, copied: u64) -> bool
        ensures goes_on { GoesOn self.old self.new }
        ensures over { IsSome self.old.outcome → self.new ≡ self.old }
    {
        let before = self.made;
        for _ in 0..TURNS {
            let left = self.hold_left(before);
            if left == 0 {
                return false;
            }
            if self.turn(left) {
                return true;
            }
            if self.must_wait(copied) {
                return false;
            }
        }
        false
    }

    /// How many steps more a hold of the baton may have that began behind so many.
    fn hold_left(&mut self, before: u32) -> u32
        ensures { self.new ≡ self.old }
    {
        let most = if self.is_idle() {
            STEPS
        } else {
            STEPS_IN_CYCLE
        };
        most.saturating_sub(self.made.saturating_sub(before))
    }

    /// A turn of the next context, or what is left of the one that goes on: at most so many of its
    /// steps. True: the run is over, or a thread could not be started.
    fn turn(&mut self, most: u32) -> bool
        requires { 1 ≤ most }
        ensures goes_on { GoesOn self.old self.new }
        ensures over { IsSome self.old.outcome → self.new ≡ self.old }
    {
        let Some(context) = self.turn_of() else {
            return true;
        };
        let left = self.budget - self.made;
        let most = self.rest_of(context).min(most).min(left);
        self.make_steps(context, most);
        self.outcome.is_some()
    }

    /// Steps of a context, at most so many; where the next is held up, it is put off.
    fn make_steps(&mut self, context: u32, most: u32)
        requires may { MayGoOn self.old context }
        requires outcome { self.old.outcome ≡ None }
        requires some { 1 ≤ most }
        requires left { most + self.old.made ≤ self.old.budget }
        ensures goes_on { GoesOn self.old self.new }
    {
        match self.advance(context, most) {
            Ok(wish) => {
                self.waits.let_go();
                self.want(wish);
            }
            Err(reason) => self.put_off(context, reason),
        }
    }

    /// A step that was held up is put off: the collector's thread is asked for room, or the step is
    /// tried again later. For want of memory the run ends.
    fn put_off(&mut self, context: u32, reason: NotMade)
        requires may { MayGoOn self.old context }
        requires outcome { self.old.outcome ≡ None }
        requires held_up { IsHeldUp M.heap M.grants S.asks context false self.old.story reason }
        ensures goes_on { GoesOn self.old self.new }
    {
        match reason {
            NotMade::Memory => self.finish(Outcome::Memory),
            NotMade::NeedSpace(_) => self.waits.wanting = Wanting::Room(context),
            NotMade::LogFull | NotMade::LogClosed => {
                self.waits.hold_up(reason == NotMade::LogFull);
                self.pass_on(context);
            }
        }
    }

    /// What steps leave for the collector's thread: a cycle is asked for, or opened; wish: the
    /// number of the `vmreclaim` that was made.
    fn want(&mut self, wish: Option<i32>)
        ensures { SameProgress self.old self.new }
    {
        match wish {
            Some(1) | Some(2) => self.waits.wanting = Wanting::Cycle,
            Some(number) => self.pace.may_open = number == 0,
            None => {}
        }
        if self.pace.may_open
            && self.vault.is_half_used(self.pace.kept)
            && self.vault.open_cycle()
        {
            self.waits.enter(Cycle::Open);
        }
    }

    /// What the collector's thread does with the baton: room for the step that wants it, or the open
    /// cycle goes on by one arrow of the picture over `Cycle`. Where a flip can't come at `Stopped`,
    /// the cycle is ended in this hold.
    pub(crate) fn advance_cycle<C: Collects<M> + Works>(&mut self, lent: &mut Lent<C>)
        ensures goes_on { GoesOn self.old self.new }
        ensures over { IsSome self.old.outcome → self.new ≡ self.old }
    {
        if self.is_over() {
            return;
        }
        if self.waits.is_wanted() {
            self.serve(lent);
            return;
        }
        if !self.vault.is_open() {
            self.waits.enter(Cycle::Closed);
            return;
        }
        self.waits.wake_full();
        match self.waits.cycle {
            Cycle::Closed | Cycle::Open => self.begin_copying(lent),
            Cycle::Copying => {
                if self.close_logs() {
                    self.waits.enter(Cycle::Draining);
                }
            }
            Cycle::Draining => {
                self.vault.hand_over(&mut lent.collector, &mut lent.roots);
                self.waits.enter(Cycle::Last);
            }
            Cycle::Last => {
                if self.may_flip(1) {
                    match self
                        .vault
                        .flip_or_hand_over(&mut lent.collector, &mut lent.roots)
                    {
                        Ok(()) => self.rest(),
                        Err(_) => self.waits.enter(Cycle::Stopped),
                    }
                }
            }
            Cycle::Stopped => {
                if self.may_flip(1) {
                    let _ = self.vault.flip_or_end(&mut lent.collector, &mut lent.roots);
                    self.rest();
                }
            }
        }
    }

    /// The collector is handed the roots of the open cycle, and workers are paced from then on.
    fn begin_copying<C: Collects<M> + Works>(&mut self, lent: &mut Lent<C>)
        ensures { SameProgress self.old self.new }
    {
        self.vault.hand_over(&mut lent.collector, &mut lent.roots);
        let used = self.vault.used();
        self.pace.begin(used, lent.collector.copied());
        self.waits.enter(Cycle::Copying);
    }

    /// Closes all logs. False: one was full.
    fn close_logs(&mut self) -> bool
        requires open { self.old.story.cycle_open ≡ true }
        ensures same { SameProgress self.old self.new }
        ensures open { self.new.story.cycle_open ≡ true }
    {
        for slot in 0..SLOTS {
            let slot = Slot::numbered(slot);
            if !self.close_log(slot) {
                return false;
            }
        }
        true
    }

    /// Closes a log. False: it was full.
    fn close_log(&mut self, slot: Slot) -> bool
        requires open { self.old.story.cycle_open ≡ true }
        ensures same { SameProgress self.old self.new }
        ensures open { self.new.story.cycle_open ≡ true }
    {
        match self.vault.close_log(slot) {
            Closing::Closed => true,
            Closing::LogFull => false,
        }
    }

    /// Whether so many cycles more may be flipped. By reading they may: a step opens three at most,
    /// one that is half full, one that its `vmreclaim` asks for, and one for room.
    pub(crate) fn may_flip(&mut self, more: u32) -> bool
        ensures same { self.new ≡ self.old }
        ensures answer { result ≡ true → self.old.story.flips + more ≤ 3 * self.old.made + 3 }
    {
        let flips = u64::from(self.vault.counts().flips);
        flips + u64::from(more) <= 3 * u64::from(self.made) + 3
    }

    /// A whole cycle, all stopped; and the step that wanted room, which is refused where it finds
    /// none again.
    fn serve<C: Collects<M>>(&mut self, lent: &mut Lent<C>)
        requires outcome { self.old.outcome ≡ None }
        ensures goes_on { GoesOn self.old self.new }
    {
        let wanting = self.waits.take();
        if !self.stop_all(lent) {
            return;
        }
        if let Wanting::Room(context) = wanting {
            self.make_wanted(context);
        }
    }

    /// The open cycle is ended, and a whole one more is made: nothing is used then but what lives.
    /// False: more cycles were flipped than steps opened, and none is.
    pub(crate) fn stop_all<C: Collects<M>>(&mut self, lent: &mut Lent<C>) -> bool
        ensures same { SameProgress self.old self.new }
        ensures tight { result ≡ true → IsTight self.new }
    {
        if !self.may_flip(2) {
            return false;
        }
        self.vault.stop_all(&mut lent.collector, &mut lent.roots);
        self.rest();
        true
    }

    /// No cycle is open any more.
    pub(crate) fn rest(&mut self)
        ensures { self.new ≡ self.old }
    {
        let used = self.vault.used();
        self.pace.end(used);
        self.waits.enter(Cycle::Closed);
    }

    /// The step that wanted room, behind the collector's cycle: it is refused where it finds none
    /// again. Where the try itself left garbage it is put off once more.
    fn make_wanted(&mut self, context: u32)
        requires outcome { self.old.outcome ≡ None }
        requires tight { IsTight self.old }
        ensures goes_on { GoesOn self.old self.new }
    {
        if !self.may_go_on(context) {
            return;
        }
        let used = self.vault.used();
        match self.advance(context, 1) {
            Ok(wish) => self.want(wish),
            Err(reason) => {
                if matches!(reason, NotMade::NeedSpace(_)) && self.vault.used() == used {
                    self.refuse_step(context);
                } else {
                    self.put_off(context, reason);
                }
            }
        }
    }

    /// The run's report, if it is over, and its viewer.
    pub(crate) fn into_report(self) -> Watched<V>
        ensures ended { HasEnded S.asks O.start result.report result.screen }
        ensures fault { result.report ≢ Err RunFault.Config }
    {
        let mut baton = self;
        let counts = baton.counts();
        baton.report(counts)
    }

    /// How much the collector has done, by the words.
    fn counts(&mut self) -> Counts
        ensures { self.new ≡ self.old }
    {
        self.vault.counts()
    }
}
