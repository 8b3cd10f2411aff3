//! The steps of a run, a line each.

ghost use Rattle.std.specs.Prelude.{◌≡◌, ◌+◌, ◌-◌, ◌++◌, ℕ, List, drop, take, IfOk, OnOk};
ghost use Rattle.ps_language.specs.World.{World as TheWorld};
ghost use Rattle.ps_language.specs.Schedules.{Move, moves};
ghost use Rattle.ps_ctx_table.specs.Desks.{IsWorld};
ghost use Rattle.ps_places.specs.declared.origins.Origin.{Origin};
ghost use Rattle.ps_run_schedules.specs.Turns.{move_of};
ghost use Rattle.ps_walks.specs.StepLines.{AreStepLines, line_of};
ghost use Rattle.ps_walks.specs.Walks.{Stands, desk_in, walked, walked_all, world_behind};

use crate::singles::{Single, Singles};
use crate::walks::{Rerun, Walk, WalkFault, begin_walk};
use ps_ctx::deeds::Deeds;
use ps_language::schedules::Entry;
use ps_mem::Memory;
use ps_run_schedules::Entries;
use ps_states::{Chart, Crowd, StepBy, append_step, known_of};
use ps_step_interpreter::interprets::Interpret;
use std::alloc::{AllocError, Global};

/// The steps of a run that are told: those behind the first `past`, up to that of the number `last`.
#[derive(Clone, Copy, Debug, PartialEq, Eq)]
pub struct StepRange {
    pub past: u64,
    pub last: u64,
}

/// Where texts are made, and what the program's file is called in them.
#[derive(Clone, Copy)]
pub(crate) struct Scribe<'t> {
    pub(crate) alloc: Global,
    pub(crate) file: &'t [u8],
}

/// The lines of steps of a run, by its schedule; no more where the schedule ends before. The faults
/// are those of `places_of`.
pub fn step_lines_of<S: Interpret + Drop, D: Deeds + Drop>(
    alloc: Global,
    run: Rerun<'_, S, D>,
    schedule: &[Entry],
    range: StepRange,
) -> Result<Vec<u8>, WalkFault>
    ensures { IfOk result (λ text. AreStepLines run.entry.file.now range.past
        (world_behind run.entry.program.now schedule.now range.past)
        (take (range.last - range.past) (drop range.past (moves schedule.now))) text.items) }
{
    let scribe = Scribe {
        alloc,
        file: run.file,
    };
    let mut walk = begin_walk(alloc, run)?;
    walk.follow_front(alloc, Entries::of(schedule), range.past)?;
    let mut singles = Singles::of(Entries::of(schedule));
    singles.pass(range.past);
    let mut text = Vec::new(alloc);
    walk.tell_steps(scribe, singles, range, &mut text)?;
    Ok(text)
}

impl<M: Memory + Drop, S: Interpret + Drop, D: Deeds + Drop> Walk<'_, M, S, D> {
    /// Makes a step, and appends its line.
    fn tell_step(
        &mut self,
        scribe: Scribe<'_>,
        step: u64,
        single: Single,
        text: &mut Vec<u8>,
    ) -> Result<(), WalkFault>
        requires stands { Stands M.heap M.grants self.old.runtime self.old.world }
        ensures stands { OnOk result (Stands M.heap M.grants self.new.runtime self.new.world) }
        ensures walked { OnOk result ((w : TheWorld)
            → IsWorld (desk_in M.heap M.grants self.old.runtime self.old.world) w
            → IsWorld (desk_in M.heap M.grants self.new.runtime self.new.world)
            (walked w (move_of single.context single.refused single.shown))) }
        ensures line { OnOk result ((w : TheWorld)
            → IsWorld (desk_in M.heap M.grants self.old.runtime self.old.world) w
            → (origins : List Origin) × (text.new.items ≡ text.old.items
            ++ line_of scribe.entry.file.now step w
            (move_of single.context single.refused single.shown) origins)) }
    {
        let chart = Chart {
            alloc: scribe.alloc,
            file: scribe.file,
            program: self.runtime.shared.program,
            origins: &self.kept.origins,
        };
        let crowd = Crowd {
            contexts: &self.world.contexts,
            operators: &self.makers.operators,
        };
        let by = StepBy {
            step,
            context: single.context,
        };
        let known = known_of(&chart, &crowd, by, &mut self.runtime)?;
        self.try_step(scribe.alloc, single.context, single.refused, single.shown)?;
        let crowd = Crowd {
            contexts: &self.world.contexts,
            operators: &self.makers.operators,
        };
        append_step(scribe.alloc, &crowd, &known, &mut self.runtime, text)?;
        Ok(())
    }

    /// Makes steps, up to that of a number, and appends their lines.
    fn tell_steps(
        &mut self,
        scribe: Scribe<'_>,
        singles: Singles<'_>,
        range: StepRange,
        text: &mut Vec<u8>,
    ) -> Result<(), WalkFault>
        requires stands { Stands M.heap M.grants self.old.runtime self.old.world }
        ensures told { OnOk result ((w : TheWorld)
            → IsWorld (desk_in M.heap M.grants self.old.runtime self.old.world) w
            → (told : List ℕ) × (text.new.items ≡ text.old.items ++ told)
            × AreStepLines scribe.entry.file.now range.past w
            (take (range.last - range.past) singles.entry) told) }
    {
        let mut left = singles;
        let mut step = range.past;
        while step < range.last {
            let Some(single) = left.next() else {
                return Ok(());
            };
            step += 1;
            self.tell_step(scribe, step, single, text)?;
        }
        Ok(())
    }
}
