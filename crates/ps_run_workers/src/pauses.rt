//! What is left of a baton between two slices of a run, and the baton that goes on from there.

ghost use Rattle.std.specs.Prelude.{◌≡◌};
ghost use Rattle.ps_ctx_readers.specs.Values.{IsTold};
ghost use Rattle.ps_vault.specs.Parking.{IsParked, story_of};
ghost use Rattle.ps_vault.specs.Stories.{world_at};
ghost use Rattle.ps_run_workers.specs.Batons as batons;
ghost use Rattle.ps_run_workers.specs.Slices.{at_pause, HasCome};

use crate::batons::Baton;
use crate::origins::Origin;
use crate::paces::Pace;
use crate::waits::Waits;
use ps_core_laws::collected::Counts;
use ps_core_laws::sides::LoggedMemory;
use ps_ctx::deeds::Deeds;
use ps_ctx_readers::views::{Place, ToldValue, Untold};
use ps_mem::Memory;
use ps_step_interpreter::interprets::Interpret;
use ps_vault::{Config, Outcome, Parked, Screen, Viewer};
use std::marker::PhantomData;

/// What is left of a baton between two slices.
#[derive(Drop)]
pub(crate) struct Paused<M: Memory + Drop, S: Interpret + Drop, D: Deeds + Drop> {
    pub(crate) parked: Parked<M, S, D>,
    /// The numbers of the run; as steps, those that it might have so far.
    pub(crate) config: Config,
    /// How many steps were made.
    pub(crate) made: u32,
    /// Whose turn was the last, or goes on.
    pub(crate) after: u32,
    /// How many steps that turn may still have; 0 where it is over.
    pub(crate) rest: u32,
    /// When a cycle is opened.
    pub(crate) pace: Pace,
    /// How the last slice ended.
    pub(crate) outcome: Option<Outcome>,
    /// How much the collector has done.
    pub(crate) counts: Counts,
}

impl<
    'a,
    O: Origin,
    M: LoggedMemory + Drop,
    S: Interpret + Drop,
    D: Deeds + Drop,
    V: Viewer + Drop,
> Baton<'a, O, M, S, D, V> {
    /// The baton of a run that goes on, whose vault is lent its program again: with as many steps as
    /// its numbers say, those that were made included.
    pub(crate) fn resume(program: &'a [u8], paused: Paused<M, S, D>, screen: Screen<V>) -> Self
        requires parked { IsParked M.heap M.grants program.now paused.parked }
        requires keeps { batons.Keeps S.asks O.start (at_pause
            (story_of M.heap M.grants program.now paused.parked) paused.config paused.made screen) }
    {
        let Paused {
            parked,
            config,
            made,
            after,
            rest,
            pace,
            ..
        } = paused;
        Baton {
            vault: parked.lend(program),
            config,
            made,
            budget: config.steps,
            after,
            rest,
            outcome: None,
            screen,
            started: false,
            refused: false,
            pace,
            waits: Waits::new(),
            of: PhantomData,
        }
    }

    /// What is left of it between two slices: its vault gives its program back.
    pub(crate) fn pause(self) -> Paused<M, S, D>
        ensures come { HasCome S.asks M.heap M.grants O.start result }
        ensures schedule { result.parked.schedule.items ≡ self.entry.story.schedule }
    {
        let Baton {
            mut vault,
            config,
            made,
            after,
            rest,
            outcome,
            pace,
            ..
        } = self;
        let counts = vault.counts();
        Paused {
            parked: vault.park(),
            config,
            made,
            after,
            rest,
            pace,
            outcome,
            counts,
        }
    }
}

impl<M: Memory + Drop, S: Interpret + Drop, D: Deeds + Drop> Paused<M, S, D> {
    /// What its vault, which is lent its program meanwhile, tells of what a context has at a place
    /// (`Vault::tell`).
    pub(crate) fn tell(
        self,
        program: &[u8],
        context: u32,
        place: Place<'_>,
        room: &mut [u8],
    ) -> (Paused<M, S, D>, Result<ToldValue, Untold>)
        requires parked { IsParked M.heap M.grants program.now self.parked }
        ensures parked { IsParked M.heap M.grants program.now result.0.parked }
        ensures story { story_of M.heap M.grants program.now result.0.parked
            ≡ story_of M.heap M.grants program.now self.parked }
        ensures config { result.0.config ≡ self.config }
        ensures made { result.0.made ≡ self.made }
        ensures told { IsTold (world_at (story_of M.heap M.grants program.now self.parked)) context
            place.entry room.old room.new result.1 }
    {
        let Paused {
            parked,
            config,
            made,
            after,
            rest,
            pace,
            outcome,
            counts,
        } = self;
        let mut vault = parked.lend(program);
        let told = vault.tell(context, place, room);
        let paused = Paused {
            parked: vault.park(),
            config,
            made,
            after,
            rest,
            pace,
            outcome,
            counts,
        };
        (paused, told)
    }
}
