//! The cycles of a vault's collector, which it is lent for the calls that move objects or hand roots
//! over. World and schedule stay.

ghost use Rattle.std.specs.Prelude.{◌≡◌, ◌<◌, true, false, is_ok, slice_index_or};
ghost use Rattle.ps_core_laws.specs.Collected.{may_open, one_more_if, stopped};
ghost use Rattle.ps_vault.specs.Cycles.{IsFull, IsTry};
ghost use Rattle.ps_vault.specs.Stories.{UsesOnlyLive, with_closed, with_cycle, without_cycle};

use crate::vaults::Vault;
use ps_core_laws::collected::{CollectedMemory, Counts};
use ps_core_laws::sides::{Collects, LoggedMemory};
use ps_core_laws::{Closing, Unready};
use ps_ctx::deeds::Deeds;
use ps_gc_roots::{
    RootList, end_cycle, end_read, hand_over, hand_read, open_cycle, stop_all, try_flip,
};
use ps_mem::Slot;
use ps_step_interpreter::interprets::Interpret;

impl<M: LoggedMemory + Drop, S: Interpret + Drop, D: Deeds + Drop> Vault<'_, M, S, D> {
    /// Whether a cycle of the collector is open.
    pub fn is_open(&mut self) -> bool
        ensures same { self.new ≡ self.old }
        ensures answer { result ≡ self.old.cycle_open }
    {
        self.runtime.memory.is_open()
    }

    /// Opens a cycle exactly where none is open and cycles are left: no log is closed. False:
    /// nothing has changed.
    pub fn open_cycle(&mut self) -> bool
        ensures answer { result ≡ may_open self.old.cycle_open self.old.flips }
        ensures opened { result ≡ true → self.new ≡ with_cycle self.old }
        ensures same { result ≡ false → self.new ≡ self.old }
    {
        open_cycle(&mut self.runtime, &self.world.contexts)
    }

    /// The collector is handed the roots of all contexts.
    pub fn hand_over<C: Collects<M>>(&mut self, collector: &mut C, roots: &mut RootList)
        ensures { self.new ≡ self.old }
    {
        hand_over(&mut self.runtime, collector, &self.world.contexts, roots);
    }

    /// In an open cycle: closes the log of a slot until the cycle ends; a closed one stays as it
    /// is. `LogFull`: its ring has no free place, and nothing has changed.
    pub fn close_log(&mut self, slot: Slot) -> Closing
        requires open { self.old.cycle_open ≡ true }
        ensures run { self.new ≡ record self.old { closed = self.new.closed } }
        ensures already { slice_index_or self.old.closed slot false ≡ true
            → (result ≡ Closing.Closed) × (self.new ≡ self.old) }
        ensures closed { result ≡ Closing.Closed → self.new ≡ with_closed slot self.old }
        ensures full { result ≡ Closing.LogFull
            → IsFull M.heap M.grants self.old slot × (self.new ≡ self.old) }
    {
        self.runtime.memory.close_log(slot)
    }

    /// Ends the open cycle by the flip, where all is ready for it: the objects move, and the roots
    /// of all contexts are renamed. `Unready` says why that can't come yet: those that were read
    /// for it are handed over to the collector, and nothing else has changed.
    pub fn flip_or_hand_over<C: Collects<M>>(
        &mut self,
        collector: &mut C,
        roots: &mut RootList,
    ) -> Result<(), Unready>
        requires open { self.old.cycle_open ≡ true }
        ensures tried { IsTry M.heap M.grants M.did C.did C.answers result self.old self.new
            collector.old collector.new }
        ensures done { is_ok result ≡ true
            → self.new ≡ without_cycle (one_more_if true) self.new.used self.old }
        ensures same { is_ok result ≡ false → self.new ≡ self.old }
    {
        let contexts = &mut self.world.contexts;
        match try_flip(&mut self.runtime, collector, contexts, roots) {
            Ok(()) => Ok(()),
            Err(why) => {
                hand_read(&mut self.runtime, collector, contexts, roots);
                Err(why)
            }
        }
    }

    /// Ends the open cycle, by the flip where all is ready for it; else, by the roots that were read
    /// for it, whatever is left to do. `Unready` says why it wasn't the flip.
    pub fn flip_or_end<C: Collects<M>>(
        &mut self,
        collector: &mut C,
        roots: &mut RootList,
    ) -> Result<(), Unready>
        requires open { self.old.cycle_open ≡ true }
        ensures tried { IsTry M.heap M.grants M.did C.did C.answers result self.old self.new
            collector.old collector.new }
        ensures ended { self.new ≡ without_cycle (one_more_if true) self.new.used self.old }
    {
        let world = &mut self.world;
        match try_flip(&mut self.runtime, collector, &mut world.contexts, roots) {
            Ok(()) => Ok(()),
            Err(reason) => {
                end_read(&mut self.runtime, collector, &mut world.contexts, roots);
                Err(reason)
            }
        }
    }

    /// Ends the open cycle, whatever is left to do. False: no cycle was open.
    pub fn end_cycle<C: Collects<M>>(&mut self, collector: &mut C, roots: &mut RootList) -> bool
        ensures ended { result ≡ self.old.cycle_open }
        ensures run { self.new
            ≡ without_cycle (one_more_if self.old.cycle_open) self.new.used self.old }
        ensures same { result ≡ false → self.new ≡ self.old }
    {
        let contexts = &mut self.world.contexts;
        end_cycle(&mut self.runtime, collector, contexts, roots)
    }

    /// Ends the open cycle, if there is one, and makes a whole one more, if cycles are left: nothing
    /// is used then but what lives. None is open then.
    pub fn stop_all<C: Collects<M>>(&mut self, collector: &mut C, roots: &mut RootList)
        ensures run { self.new
            ≡ without_cycle (stopped self.old.cycle_open) self.new.used self.old }
        ensures lives { may_open false (one_more_if self.old.cycle_open self.old.flips) ≡ true
            → UsesOnlyLive self.new }
    {
        let contexts = &mut self.world.contexts;
        stop_all(&mut self.runtime, collector, contexts, roots);
    }

    /// How much the collector has done, by the words.
    pub fn counts(&mut self) -> Counts
        ensures same { self.new ≡ self.old }
        ensures flips { result.flips ≡ self.old.flips }
    {
        self.runtime.memory.counts()
    }
}

impl<M: CollectedMemory + Drop, S: Interpret + Drop, D: Deeds + Drop> Vault<'_, M, S, D> {
    /// In an open cycle the collector that the memory has inside does so many actions; false: it
    /// found nothing to do.
    pub fn work(&mut self, actions: u32) -> bool
        ensures { self.new ≡ self.old }
    {
        self.runtime.memory.work(actions)
    }
}
