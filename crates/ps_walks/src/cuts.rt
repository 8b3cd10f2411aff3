//! The lines of the cuts of a run, each told in the world before it.

ghost use Rattle.std.specs.Prelude.{◌≡◌, ◌++◌, ℕ, List, drop, take, IfOk, OnOk};
ghost use Rattle.ps_language.specs.World.{World as TheWorld};
ghost use Rattle.ps_ctx_table.specs.Desks.{IsWorld};
ghost use Rattle.ps_places.specs.declared.origins.Origin.{Origin};
ghost use Rattle.ps_states.specs.Cuts.{cut_text};
ghost use Rattle.ps_views.specs.Cuts.{AreRising};
ghost use Rattle.ps_walks.specs.Cuts.{AreCutLines};
ghost use Rattle.ps_walks.specs.StepLines.{chart_in};
ghost use Rattle.ps_walks.specs.Walks.{Stands, desk_in, walked_all, world_behind};

use crate::singles::Singles;
use crate::step_lines::Scribe;
use crate::walks::{Rerun, Walk, WalkFault, begin_walk};
use ps_ctx::deeds::Deeds;
use ps_mem::Memory;
use ps_run_schedules::Entries;
use ps_states::{Chart, Crowd, append_cut};
use ps_step_interpreter::interprets::Interpret;
use ps_views::CutAt;
use std::alloc::Global;

/// The lines of cuts of a run, by its schedule; each cut is behind as many steps as the one before
/// it, or more. The faults are those of `places_of`.
pub fn cut_lines_of<S: Interpret + Drop, D: Deeds + Drop>(
    alloc: Global,
    run: Rerun<'_, S, D>,
    schedule: Entries<'_>,
    cuts: &[CutAt],
) -> Result<Vec<u8>, WalkFault>
    requires rising { AreRising 0 cuts.now }
    ensures { IfOk result (λ text. AreCutLines run.entry.file.now
        (world_behind run.entry.program.now schedule.entry) cuts.now text.items) }
{
    let scribe = Scribe {
        alloc,
        file: run.file,
    };
    let mut walk = begin_walk(alloc, run)?;
    let mut text = Vec::new(alloc);
    walk.tell_cuts(scribe, Singles::of(schedule), cuts, &mut text)?;
    Ok(text)
}

impl<M: Memory + Drop, S: Interpret + Drop, D: Deeds + Drop> Walk<'_, M, S, D> {
    /// Makes so many of the steps that are left, or all where there are fewer.
    fn make_steps(
        &mut self,
        alloc: Global,
        left: &mut Singles<'_>,
        steps: u64,
    ) -> Result<(), WalkFault>
        requires stands { Stands M.heap M.grants self.old.runtime self.old.world }
        ensures stands { OnOk result (Stands M.heap M.grants self.new.runtime self.new.world) }
        ensures left { OnOk result (left.new ≡ drop steps left.old) }
        ensures walked { OnOk result ((w : TheWorld)
            → IsWorld (desk_in M.heap M.grants self.old.runtime self.old.world) w
            → IsWorld (desk_in M.heap M.grants self.new.runtime self.new.world)
            (walked_all w (take steps left.old))) }
    {
        let mut more = steps;
        while more > 0 {
            let Some(single) = left.next() else {
                return Ok(());
            };
            self.try_step(alloc, single.context, single.refused, single.shown)?;
            more -= 1;
        }
        Ok(())
    }

    /// Appends the line of a cut that comes next.
    fn tell_cut(
        &mut self,
        scribe: Scribe<'_>,
        cut: CutAt,
        text: &mut Vec<u8>,
    ) -> Result<(), WalkFault>
        requires stands { Stands M.heap M.grants self.old.runtime self.old.world }
        ensures stands { OnOk result (Stands M.heap M.grants self.new.runtime self.new.world) }
        ensures same { OnOk result ((w : TheWorld)
            → IsWorld (desk_in M.heap M.grants self.old.runtime self.old.world) w
            → IsWorld (desk_in M.heap M.grants self.new.runtime self.new.world) w) }
        ensures line { OnOk result ((w : TheWorld)
            → IsWorld (desk_in M.heap M.grants self.old.runtime self.old.world) w
            → (origins : List Origin) × (text.new.items ≡ text.old.items
            ++ cut_text (chart_in scribe.entry.file.now w origins) w cut)) }
    {
        let chart = Chart {
            alloc: scribe.alloc,
            file: scribe.file,
            program: self.runtime.shared.program,
            origins: &self.kept.origins,
        };
        let crowd = Crowd {
            contexts: &self.world.contexts,
            operators: &self.makers.operators,
        };
        append_cut(&chart, &crowd, cut, &mut self.runtime, text)?;
        Ok(())
    }

    /// Makes the steps before each cut, and appends its line.
    fn tell_cuts(
        &mut self,
        scribe: Scribe<'_>,
        singles: Singles<'_>,
        cuts: &[CutAt],
        text: &mut Vec<u8>,
    ) -> Result<(), WalkFault>
        requires stands { Stands M.heap M.grants self.old.runtime self.old.world }
        requires rising { AreRising 0 cuts.now }
        ensures told { OnOk result ((w : TheWorld)
            → IsWorld (desk_in M.heap M.grants self.old.runtime self.old.world) w
            → (told : List ℕ) × (text.new.items ≡ text.old.items ++ told)
            × AreCutLines scribe.entry.file.now (λ steps. walked_all w (take steps singles.entry))
            cuts.now told) }
    {
        let mut left = singles;
        let mut past = 0;
        for cut in cuts {
            self.make_steps(scribe.alloc, &mut left, cut.behind - past)?;
            past = cut.behind;
            self.tell_cut(scribe, *cut, text)?;
        }
        Ok(())
    }
}
