//! A vault that stands between calls: it gives its program back, and is lent it again.

ghost use Rattle.std.specs.Prelude.{◌≡◌, ℕ, List};
ghost use Rattle.ps_language.specs.Worlds.{world};
ghost use Rattle.ps_vault.specs.Parking.{story_of, IsParked};

use crate::vaults::Vault;
use ps_ctx::deeds::Deeds;
use ps_ctx::makers::Makers;
use ps_ctx::worlds::World;
use ps_mem::Memory;
use ps_names::Names;
use ps_ops_state::lent::{Runtime, Scratch, Shared};
use ps_run_schedules::Schedule;
use ps_step_interpreter::interprets::Interpret;
use ps_text::outputs::Output;

/// All that a vault has but its program's bytes. What it is seen as is known once these are named
/// (`story_of`).
#[derive(Drop)]
pub struct Parked<M: Memory + Drop, S: Interpret + Drop, D: Deeds + Drop> {
    makers: Makers<S, D>,
    world: World,
    names: Names,
    printed: Output,
    scratch: Scratch,
    memory: M,
    schedule: Schedule,
}

impl<M: Memory + Drop, S: Interpret + Drop, D: Deeds + Drop> Vault<'_, M, S, D> {
    /// Gives its program back, and keeps all else.
    pub fn park(self) -> Parked<M, S, D>
        ensures parked { IsParked M.heap M.grants self.entry.program result }
        ensures story { story_of M.heap M.grants self.entry.program result ≡ self.entry }
    {
        let Vault {
            makers,
            world,
            runtime,
            schedule,
        } = self;
        let Runtime { shared, memory } = runtime;
        let Shared {
            names,
            printed,
            scratch,
            ..
        } = shared;
        Parked {
            makers,
            world,
            names,
            printed,
            scratch,
            memory,
            schedule,
        }
    }
}

impl<M: Memory + Drop, S: Interpret + Drop, D: Deeds + Drop> Parked<M, S, D> {
    /// The vault that it was, which is lent its program again.
    pub fn lend(self, program: &[u8]) -> Vault<'_, M, S, D>
        requires parked { IsParked M.heap M.grants program.now self }
        ensures story { result ≡ story_of M.heap M.grants program.entry.now self }
    {
        let Parked {
            makers,
            world,
            names,
            printed,
            scratch,
            memory,
            schedule,
        } = self;
        let shared = Shared {
            program,
            names,
            printed,
            scratch,
        };
        Vault {
            makers,
            world,
            runtime: Runtime { shared, memory },
            schedule,
        }
    }

    /// The bytes that were printed so far.
    pub fn printed(&self) -> &[u8]
        ensures { (program : List ℕ) → IsParked M.heap M.grants program self.now
            → result.now ≡ (world program self.now.schedule.items).printed }
    {
        self.printed.as_slice()
    }

    /// The schedule so far.
    pub fn schedule(&self) -> &Schedule
        ensures { result.now ≡ self.now.schedule }
    {
        &self.schedule
    }
}
