//! Where the cuts of an order are.

ghost use Rattle.std.specs.Prelude.{◌≡◌, ◌+◌, ◌<◌, ◌^◌, ◌++◌, [], true, IfOk, OnOk, length, replicate};
ghost use Rattle.ps_language.specs.Schedules.{count_of, moves, plain_move};
ghost use Rattle.ps_language.specs.Locks as locks;
ghost use Rattle.ps_language.specs.Worlds.{all_ready, starting_world, IsProper};
ghost use Rattle.ps_vault.specs.Stories.{world_at};
ghost use Rattle.ps_views.specs.Cuts.{AreRising};
ghost use Rattle.ps_cuts.specs.Cuts as cuts;
ghost use Rattle.ps_cuts.specs.Cuts.{AllPlain};
ghost use Rattle.ps_cuts.specs.Runs.{IsMade};

use crate::runs::PlainRun;
use crate::trees::Runs;
use ps_ctx::deeds::Deeds;
use ps_run_schedules::Schedule;
use ps_step_interpreter::interprets::Interpret;
use ps_views::CutAt;
use std::alloc::AllocError;

/// The cuts among the steps that were made, and how many steps those are.
#[derive(Drop)]
struct Marks {
    cuts: Vec<CutAt>,
    steps: u64,
}

/// Where the cuts of an order are, in the order of its steps: the run is made again.
///
/// `AllocError`: a growth was refused.
pub fn cuts_of<S: Interpret + Clone + Drop, D: Deeds + Clone + Drop>(
    runs: &Runs<'_, S, D>,
    schedule: &Schedule,
) -> Result<Vec<CutAt>, AllocError>
    requires proper { IsProper runs.now.task.program.now schedule.now.items }
    requires plain { AllPlain (moves schedule.now.items) }
    requires few { count_of schedule.now.items < 2 ^ 64 }
    ensures cuts { IfOk result (λ found. found.items
        ≡ cuts.cuts_at (starting_world runs.now.task.program.now) [] (moves schedule.now.items)) }
    ensures rising { IfOk result (λ found. AreRising 0 found.items) }
    ensures count { IfOk result (λ found. length found.items
        ≡ cuts.cuts runs.now.task.program.now (moves schedule.now.items)) }
{
    let mut run = runs.begin()?;
    let mut marks = Marks {
        cuts: Vec::new(runs.alloc),
        steps: 0,
    };
    let mut left = schedule.entries();
    while let Some(entry) = left.next() {
        run.follow_marked(entry.context, entry.steps, &mut marks)?;
    }
    Ok(marks.cuts)
}

impl<S: Interpret + Drop, D: Deeds + Drop> PlainRun<'_, S, D> {
    /// Notes a cut, where the next step would be one if it were this context's. Fails where a
    /// growth is refused.
    fn mark(&mut self, context: u32, marks: &mut Marks) -> Result<(), AllocError>
        requires made { IsMade self.old.vault self.old.path.items self.old.turn self.old.last }
        ensures same { self.new ≡ self.old }
        ensures steps { marks.new.steps ≡ marks.old.steps }
        ensures cuts { OnOk result (marks.new.cuts.items ≡ marks.old.cuts.items
            ++ cuts.cut_at marks.old.steps (cuts.due (starting_world self.old.vault.program)
            (moves self.old.vault.schedule)) context) }
    {
        let Some(due) = self.due() else {
            return Ok(());
        };
        if due != context {
            marks.cuts.push(CutAt {
                behind: marks.steps,
                left: due,
                other: context,
            })?;
        }
        Ok(())
    }

    /// Makes so many ordinary steps of a context, each of which can be made, and notes which of
    /// them are cuts. Fails as `make` does, or where a growth is refused.
    fn follow_marked(
        &mut self,
        context: u32,
        steps: u32,
        marks: &mut Marks,
    ) -> Result<(), AllocError>
        requires made { IsMade self.old.vault self.old.path.items self.old.turn self.old.last }
        requires ready { all_ready (world_at self.old.vault)
            (replicate steps (plain_move context)) ≡ true }
        requires counted { marks.old.steps ≡ length (moves self.old.vault.schedule) }
        requires few { marks.old.steps + steps < 2 ^ 64 }
        ensures program { OnOk result (self.new.vault.program ≡ self.old.vault.program) }
        ensures made { OnOk result (IsMade self.new.vault self.new.path.items
            self.new.turn self.new.last) }
        ensures steps { OnOk result (moves self.new.vault.schedule
            ≡ moves self.old.vault.schedule ++ replicate steps (plain_move context)) }
        ensures counted { OnOk result (marks.new.steps ≡ marks.old.steps + steps) }
        ensures cuts { OnOk result (marks.new.cuts.items ≡ marks.old.cuts.items
            ++ cuts.cuts_at (starting_world self.old.vault.program)
            (moves self.old.vault.schedule) (replicate steps (plain_move context))) }
    {
        let mut left = steps;
        while left > 0 {
            self.mark(context, marks)?;
            let made = self.make(context, left)?;
            marks.steps += u64::from(made);
            left -= made;
        }
        Ok(())
    }
}
