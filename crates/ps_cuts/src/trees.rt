//! A program's runs as a tree: the step of whoever is due costs nothing, and that of another 1.

ghost use Rattle.std.specs.Prelude.{◌≡◌, [], true, IfOk, OnOk};
ghost use Rattle.ps_language.specs.Schedules.{moves};
ghost use Rattle.ps_language.specs.Worlds.{after_moves, starting_world, IsProper};
ghost use Rattle.ps_searches.specs.Searches.{GoesFreely};
ghost use Rattle.ps_cuts.specs.Cuts as cuts;
ghost use Rattle.ps_cuts.specs.Laws.{ending_equal, nobody};
ghost use Rattle.ps_cuts.specs.Runs.{EndsBy, IsMade, IsRun, contexts_of};

use crate::endings::Ending;
use crate::runs::PlainRun;
use ps_ctx::deeds::Deeds;
use ps_ctx::makers::Makers;
use ps_run_schedules::Schedule;
use ps_searches::RunTree;
use ps_step_interpreter::interprets::Interpret;
use ps_vault::Task;
use std::alloc::{AllocError, Global};

/// A program whose runs are made again and again, and how many entries their schedules may have.
#[derive(Drop)]
pub struct Runs<'a, S: Drop, D: Drop> {
    pub alloc: Global,
    pub task: Task<'a, S, D>,
    pub entries: u64,
}

impl<'a, S: Interpret + Clone + Drop, D: Deeds + Clone + Drop> Runs<'a, S, D> {
    /// Its makers, for one run more. Fails where a growth is refused.
    pub fn makers(&self) -> Result<Makers<S, D>, AllocError> {
        Ok(Makers {
            steps: self.task.makers.steps.clone()?,
            operators: self.task.makers.operators.clone()?,
        })
    }

    /// A run before its first step. Fails where its first room can't be had.
    pub(crate) fn begin(&self) -> Result<PlainRun<'a, S, D>, AllocError>
        ensures of { IfOk result (λ run. IsRun self.now.task.program.now run.vault run.path.items
            run.turn run.last) }
        ensures none { IfOk result (λ run. run.vault.schedule ≡ []) }
    {
        let task = Task {
            makers: self.makers()?,
            program: self.task.program,
            setup: self.task.setup,
        };
        PlainRun::new(self.alloc, task, self.entries)
    }

    /// Goes on by the steps of whoever is due, at most so many, as far as any context is ready.
    fn go_on(&self, run: &mut PlainRun<'a, S, D>, steps: u32) -> Result<(), AllocError>
        requires made { IsMade run.old.vault run.old.path.items run.old.turn run.old.last }
        requires same { run.old.vault.program ≡ self.now.task.program.now }
        ensures same { OnOk result (run.new.vault.program ≡ run.old.vault.program) }
        ensures made { OnOk result
            (IsMade run.new.vault run.new.path.items run.new.turn run.new.last) }
        ensures freely { OnOk result (IsProper run.new.vault.program run.new.vault.schedule
            → GoesFreely (cuts.price self.now.task.program.now) steps
            (contexts_of run.old.vault.schedule) (contexts_of run.new.vault.schedule)) }
    {
        let mut left = steps;
        while left > 0 {
            let Some(context) = run.due() else {
                return Ok(());
            };
            left -= run.make(context, left)?;
        }
        Ok(())
    }
}

impl<'a, S: Interpret + Clone + Drop, D: Deeds + Clone + Drop> RunTree for Runs<'a, S, D> {
    type Run = PlainRun<'a, S, D>;

    type Ending = Ending;

    type Schedule = Schedule;

    ghost price = { λ runs. cuts.price runs.task.program.now };

    ghost Ends = { λ runs schedule ending. EndsBy runs.task.program.now schedule ending };

    ghost Makes = { λ schedule path. moves schedule.items ≡ cuts.steps_by path };

    ghost IsOf = { λ runs run. IsRun runs.task.program.now run.vault run.path.items run.turn
        run.last };

    ghost path = { λ run. contexts_of run.vault.schedule };

    ghost from_one = { λ runs. nobody runs.task.program.now };

    ghost equal = { λ runs schedule a b. ending_equal (after_moves
        (starting_world runs.task.program.now) (cuts.steps_by schedule)) a b };

    fn start(&self) -> Result<PlainRun<'a, S, D>, AllocError> {
        self.begin()
    }

    fn again(&self, run: &PlainRun<'a, S, D>) -> Result<PlainRun<'a, S, D>, AllocError> {
        let mut other = self.begin()?;
        other.retrace(&run.path)?;
        Ok(other)
    }

    fn first(&self, run: &mut PlainRun<'a, S, D>) -> Option<u32> {
        run.due()
    }

    fn next(&self, run: &mut PlainRun<'a, S, D>, after: u32) -> Option<u32> {
        run.vault.next_ready(after)
    }

    fn price(&self, run: &mut PlainRun<'a, S, D>, context: u32) -> u32 {
        match run.due() {
            Some(due) => if due == context { 0 } else { 1 },
            None => 1,
        }
    }

    fn step(&self, run: &mut PlainRun<'a, S, D>, context: u32) -> Result<(), AllocError> {
        run.make(context, 1)?;
        Ok(())
    }

    fn finish(
        &self,
        mut run: PlainRun<'a, S, D>,
        steps: u32,
    ) -> Result<(Ending, Schedule), AllocError> {
        self.go_on(&mut run, steps)?;
        run.end(self.alloc)
    }
}
