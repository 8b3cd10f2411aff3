//! A program's runs as a graph of worlds.

ghost use Rattle.std.specs.Prelude.{◌≡◌, [], IfOk};
ghost use Rattle.ps_language.specs.Schedules.{count_of};
ghost use Rattle.ps_cuts.specs.Cuts as cuts;
ghost use Rattle.ps_cuts.specs.Laws.{ending_equal, nobody};
ghost use Rattle.ps_cuts.specs.Runs.{EndsBy, contexts_of};
ghost use Rattle.ps_worlds.specs.Laws.{counted, image_alike};
ghost use Rattle.ps_worlds.specs.Runs.{standing, IsAt, IsImage, IsRun, MakesPath, world_by};

use crate::images::Image;
use crate::runs::{PlainWorldRun, WorldRun, next_in};
use ps_ctx::deeds::Deeds;
use ps_cuts::{Ending, Runs};
use ps_mem::Memory;
use ps_mem::marked::Marked;
use ps_mem::plain::PlainMemory;
use ps_run_schedules::Schedule;
use ps_searches::RunGraph;
use ps_step_interpreter::interprets::Interpret;
use ps_vault::Task;
use std::alloc::AllocError;

/// A program whose runs are made again and again, and the words that stand before its first step.
#[derive(Drop)]
pub struct Worlds<'w, 'a, S: Drop, D: Drop> {
    pub runs: &'w Runs<'a, S, D>,
    pub first: Vec<u64>,
}

/// A run before its first step. Fails where its first room can't be had.
fn begin<'a, S: Interpret + Clone + Drop, D: Deeds + Clone + Drop>(
    runs: &Runs<'a, S, D>,
) -> Result<PlainWorldRun<'a, S, D>, AllocError>
    ensures of { IfOk result (λ run. IsRun runs.now.task.program.now
        (standing ⟦<Marked<PlainMemory> as Memory>⟧.heap
        ⟦<Marked<PlainMemory> as Memory>⟧.grants run)) }
    ensures none { IfOk result (λ run. run.path.items ≡ []) }
{
    let task = Task {
        makers: runs.makers()?,
        program: runs.task.program,
        setup: runs.task.setup,
    };
    let mut run = WorldRun::new(runs.alloc, task, runs.entries)?;
    run.look()?;
    Ok(run)
}

impl<'w, 'a, S: Interpret + Clone + Drop, D: Deeds + Clone + Drop> Worlds<'w, 'a, S, D> {
    /// Those of a program. Fails where the room of a run can't be had.
    pub(crate) fn of(runs: &'w Runs<'a, S, D>) -> Result<Worlds<'w, 'a, S, D>, AllocError>
        ensures { IfOk result (λ worlds. worlds.runs.now ≡ runs.now) }
    {
        let run = begin(runs)?;
        let first = run.words(runs.alloc)?;
        Ok(Worlds { runs, first })
    }
}

impl<'w, 'a, S: Interpret + Clone + Drop, D: Deeds + Clone + Drop> RunGraph
    for Worlds<'w, 'a, S, D> {
    type Run = PlainWorldRun<'a, S, D>;

    type Ending = Ending;

    type Schedule = Schedule;

    type Image = Image;

    ghost price = { λ worlds. cuts.price worlds.runs.now.task.program.now };

    ghost Ends = { λ worlds schedule ending. EndsBy worlds.runs.now.task.program.now schedule
        ending };

    ghost Makes = { λ schedule path. MakesPath schedule path };

    ghost steps = { λ schedule. count_of schedule.items };

    ghost IsOf = { λ worlds run. IsRun worlds.runs.now.task.program.now
        (standing ⟦<Marked<PlainMemory> as Memory>⟧.heap
        ⟦<Marked<PlainMemory> as Memory>⟧.grants run) };

    ghost path = { λ run. contexts_of run.path.items };

    ghost IsAt = { λ worlds run path. IsAt worlds.runs.now.task.program.now
        (standing ⟦<Marked<PlainMemory> as Memory>⟧.heap
        ⟦<Marked<PlainMemory> as Memory>⟧.grants run) path };

    ghost IsImage = { λ worlds image path. IsImage worlds.runs.now.task.program.now
        worlds.first.items image path };

    ghost from_one = { λ worlds. nobody worlds.runs.now.task.program.now };

    ghost counts = { λ schedule path. counted schedule.items path };

    ghost equal = { λ worlds schedule a b. ending_equal
        (world_by worlds.runs.now.task.program.now schedule) a b };

    ghost alike = { λ worlds a b path. image_alike worlds.runs.now.task.program.now
        worlds.first.items path a b };

    fn start(&self) -> Result<PlainWorldRun<'a, S, D>, AllocError> {
        begin(self.runs)
    }

    fn run_to(
        &self,
        image: &Image,
        schedule: &Schedule,
    ) -> Result<Option<PlainWorldRun<'a, S, D>>, AllocError> {
        let mut run = begin(self.runs)?;
        run.retrace(schedule)?;
        run.look()?;
        let here = run.image(self.runs.alloc, self.first.as_slice())?;
        if here == *image {
            Ok(Some(run))
        } else {
            Ok(None)
        }
    }

    fn next(&self, run: &mut PlainWorldRun<'a, S, D>, after: u32) -> Option<u32> {
        next_in(&run.ready, after)
    }

    fn step(&self, run: &mut PlainWorldRun<'a, S, D>, context: u32) -> Result<(), AllocError> {
        run.make(context)?;
        run.look()
    }

    fn image(&self, run: &mut PlainWorldRun<'a, S, D>) -> Result<Image, AllocError> {
        run.image(self.runs.alloc, self.first.as_slice())
    }

    fn schedule(&self, run: &PlainWorldRun<'a, S, D>) -> Result<Schedule, AllocError> {
        run.schedule(self.runs.alloc)
    }

    fn end(&self, run: PlainWorldRun<'a, S, D>) -> Result<(Ending, Schedule), AllocError> {
        Ok(run.end())
    }
}
