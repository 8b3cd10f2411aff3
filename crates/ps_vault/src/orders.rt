//! Runs in an order that a caller chooses, turn by turn (PLRM2, 7.1).

ghost use Rattle.std.specs.Prelude.{◌≡◌, ℕ, ◌+◌, ◌<◌, ◌≤◌, false, true, length, IfOk, IfSome, IfNone};
ghost use Rattle.ps_language.specs.Locks as locks;
ghost use Rattle.ps_language.specs.Schedules.{count_of, moves};
ghost use Rattle.ps_vault.specs.Holds.{OnlyGrows, is_held_up};
ghost use Rattle.ps_vault.specs.Order.{IsNoneAbove};
ghost use Rattle.ps_vault.specs.Reports.{are_ordinary, IsBounded, IsOneStarved, IsRunOf};
ghost use Rattle.ps_vault.specs.Stories.{AreWarranted, kept_of, world_at};

use crate::jobs::Task;
use crate::reports::{Budget, Report, Room};
use crate::vaults::{Advanced, Vault};
use ps_ctx::deeds::Deeds;
use ps_ctx::notes::Note;
use ps_mem::Memory;
use ps_mem::marked::plain_with_marks;
use ps_step_interpreter::interprets::Interpret;
use std::alloc::{AllocError, Global};

/// Whose turn is next, and of how many steps.
#[derive(Clone, Copy, Debug, PartialEq, Eq)]
pub struct Choice {
    /// How many contexts that are ready are passed over, by rising identifier and going round: at
    /// most 31.
    pub passed: u32,
    /// The most steps of the turn, at least 1.
    pub steps: u32,
}

/// Chooses turns.
pub trait TurnOrder {
    /// The next turn.
    fn choose(&mut self) -> Choice
        ensures passed { result.passed < 32 }
        ensures some { 1 ≤ result.steps };

    /// Is told, behind each of many runs, how many were made and how many of these had an ending of
    /// their own.
    fn run_ended(&mut self, made: u32, endings: usize);
}

impl<M: Memory + Drop, S: Interpret + Drop, D: Deeds + Drop> Vault<'_, M, S, D> {
    /// The ready context of the least identifier above another, or of the least of all where none
    /// is above it.
    pub(crate) fn next_round(&mut self, after: u32) -> Option<u32>
        requires { self.old.caller ≡ None }
        ensures same { self.new ≡ self.old }
        ensures ready { IfSome result (λ next. locks.is_ready (world_at self.old) next ≡ true) }
        ensures none { IfNone result (IsNoneAbove (world_at self.old) 0) }
    {
        match self.next_ready(after) {
            Some(next) => Some(next),
            None => self.next_ready(0),
        }
    }

    /// The ready context behind so many others, by rising identifier and going round.
    fn ready_behind(&mut self, passed: u32) -> Option<u32>
        requires { self.old.caller ≡ None }
        ensures same { self.new ≡ self.old }
        ensures ready { IfSome result (λ next. locks.is_ready (world_at self.old) next ≡ true) }
        ensures none { IfNone result (IsNoneAbove (world_at self.old) 0) }
    {
        let mut next = self.next_round(0)?;
        for _ in 0..passed {
            next = self.next_round(next)?;
        }
        Some(next)
    }

    /// Runs contexts for at most so many steps, turn by turn as they are chosen.
    fn run_by<O: TurnOrder>(&mut self, steps: u32, order: &mut O) -> Advanced
        requires calling { self.old.caller ≡ None }
        ensures program { self.new.program ≡ self.old.program }
        ensures most { self.new.most ≡ self.old.most }
        ensures within { result.made ≤ steps }
        ensures counted { count_of self.new.schedule ≡ count_of self.old.schedule + result.made }
        ensures ordinary { are_ordinary (moves self.old.schedule) ≡ true
            → are_ordinary (moves self.new.schedule) ≡ true }
        ensures warranted { AreWarranted self.old → AreWarranted self.new }
        ensures space { self.new.space ≡ self.old.space }
        ensures capacity { self.old.capacity ≤ self.new.capacity }
        ensures calling_on { is_held_up result.told ≡ false → self.new.caller ≡ None }
        ensures fewer { is_held_up result.told ≡ true → result.made < steps }
        ensures starved { OnlyGrows M.heap M.grants → is_held_up result.told ≡ true
            → IsOneStarved S.asks true (world_at self.new) (kept_of self.new) }
        ensures ended { is_held_up result.told ≡ false → result.made < steps
            → IsNoneAbove (world_at self.new) 0 }
    {
        let mut made = 0;
        while made < steps {
            let choice = order.choose();
            let Some(next) = self.ready_behind(choice.passed) else {
                return Advanced {
                    made,
                    told: Ok(Note::Nothing),
                };
            };
            let most = choice.steps.min(steps - made);
            let turn = self.turns(next, most, most);
            made += turn.made;
            if turn.is_held_up() {
                return Advanced { made, ..turn };
            }
        }
        Advanced {
            made,
            told: Ok(Note::Nothing),
        }
    }
}

/// Runs a program within a budget, over memory that is never collected, turn by turn as
/// they are chosen.
///
/// `AllocError` where the room that the run starts with can't be had. A growth that is refused
/// later, or one more entry than the schedule may have, ends the run: the outcome is `Memory` then,
/// and the report has what was made so far.
pub fn run_in_order<S: Interpret + Drop, D: Deeds + Drop, O: TurnOrder>(
    alloc: Global,
    task: Task<'_, S, D>,
    budget: Budget,
    order: &mut O,
) -> Result<Report, AllocError>
    ensures run { IfOk result (IsRunOf S.asks task.entry.program.now budget.steps) }
    ensures bounded { IfOk result
        (IsBounded (record { output = task.entry.setup.output; entries = budget.entries })) }
{
    let memory = plain_with_marks(alloc);
    let mut vault = Vault::new(alloc, memory, task, Room::of_run(budget.entries))?;
    let run = vault.run_by(budget.steps, order);
    Ok(vault.into_run(run, budget.steps))
}
