//! The first step of a run that is such as is sought.

ghost use Rattle.std.specs.Prelude.{◌≡◌, ◌↔◌, List, drop, IsTrue, IfOk, OnOk};
ghost use Rattle.ps_language.specs.World.{World as TheWorld};
ghost use Rattle.ps_language.specs.Schedules.{Move, moves};
ghost use Rattle.ps_ctx_table.specs.Desks.{IsWorld};
ghost use Rattle.ps_places.specs.declared.origins.Origin.{Origin};
ghost use Rattle.ps_run_schedules.specs.Turns.{move_of};
ghost use Rattle.ps_states.specs.Sought.{sought_of};
ghost use Rattle.ps_walks.specs.Finds.{FitsIn, IsFound};
ghost use Rattle.ps_walks.specs.Walks.{Stands, desk_in, walked, world_behind};

use crate::singles::{Single, Singles};
use crate::step_lines::Scribe;
use crate::walks::{Rerun, Walk, WalkFault, begin_walk};
use ps_ctx::deeds::Deeds;
use ps_language::schedules::Entry;
use ps_mem::Memory;
use ps_run_schedules::Entries;
use ps_states::{Chart, Crowd, Sought, fits_before, fits_behind};
use ps_step_interpreter::interprets::Interpret;
use std::alloc::Global;

/// The number of the first step of a run, behind those that are past, that is such as is sought; of
/// its schedule, and nothing where no step up to its end is. The run is made once. The faults are
/// those of `places_of`.
pub fn find_step<S: Interpret + Drop, D: Deeds + Drop>(
    alloc: Global,
    run: Rerun<'_, S, D>,
    schedule: &[Entry],
    past: u64,
    sought: Sought<'_>,
) -> Result<Option<u64>, WalkFault>
    ensures { IfOk result (λ found. IsFound run.entry.file.now (sought_of sought.entry) past
        (world_behind run.entry.program.now schedule.now past)
        (drop past (moves schedule.now)) found) }
{
    let scribe = Scribe {
        alloc,
        file: run.file,
    };
    let mut walk = begin_walk(alloc, run)?;
    walk.follow_front(alloc, Entries::of(schedule), past)?;
    let mut singles = Singles::of(Entries::of(schedule));
    singles.pass(past);
    walk.seek(scribe, singles, past, sought)
}

impl<M: Memory + Drop, S: Interpret + Drop, D: Deeds + Drop> Walk<'_, M, S, D> {
    /// Makes a step, and tells whether it is such as is sought.
    fn fits_step(
        &mut self,
        scribe: Scribe<'_>,
        single: Single,
        sought: Sought<'_>,
    ) -> Result<bool, WalkFault>
        requires stands { Stands M.heap M.grants self.old.runtime self.old.world }
        ensures stands { OnOk result (Stands M.heap M.grants self.new.runtime self.new.world) }
        ensures walked { OnOk result ((w : TheWorld)
            → IsWorld (desk_in M.heap M.grants self.old.runtime self.old.world) w
            → IsWorld (desk_in M.heap M.grants self.new.runtime self.new.world)
            (walked w (move_of single.context single.refused single.shown))) }
        ensures fits { IfOk result (λ fits. (w : TheWorld)
            → IsWorld (desk_in M.heap M.grants self.old.runtime self.old.world) w
            → (origins : List Origin) × (IsTrue fits ↔ FitsIn scribe.entry.file.now (sought_of sought.entry) w
            (move_of single.context single.refused single.shown) origins)) }
    {
        let chart = Chart {
            alloc: scribe.alloc,
            file: scribe.file,
            program: self.runtime.shared.program,
            origins: &self.kept.origins,
        };
        let crowd = Crowd {
            contexts: &self.world.contexts,
            operators: &self.makers.operators,
        };
        let before = fits_before(sought, &chart, &crowd, single.context, &mut self.runtime)?;
        self.try_step(scribe.alloc, single.context, single.refused, single.shown)?;
        let behind = fits_behind(
            sought,
            &self.world.contexts,
            single.context,
            &mut self.runtime,
        );
        Ok(before && behind)
    }

    /// Makes steps up to the first that is such as is sought, and gives its number.
    fn seek(
        &mut self,
        scribe: Scribe<'_>,
        singles: Singles<'_>,
        past: u64,
        sought: Sought<'_>,
    ) -> Result<Option<u64>, WalkFault>
        requires stands { Stands M.heap M.grants self.old.runtime self.old.world }
        ensures { IfOk result (λ found. (w : TheWorld)
            → IsWorld (desk_in M.heap M.grants self.old.runtime self.old.world) w
            → IsFound scribe.entry.file.now (sought_of sought.entry) past w singles.entry found) }
    {
        let mut left = singles;
        let mut step = past;
        while let Some(single) = left.next() {
            if step == u64::MAX {
                return Err(WalkFault::TooLarge);
            }
            step += 1;
            let fits = self.fits_step(scribe, single, sought)?;
            if fits {
                return Ok(Some(step));
            }
        }
        Ok(None)
    }
}
