//! A run behind a schedule that is given: its contexts first, and then by turns of its own.

ghost use Rattle.std.specs.Prelude.{◌≡◌, ◌+◌, ◌<◌, ◌≤◌, ◌↔◌, true, false, Err, IfOk, IfSome, IfNone, length};
ghost use Rattle.ps_language.specs.Locks as locks;
ghost use Rattle.ps_language.specs.Schedules.{count_of, moves};
ghost use Rattle.ps_vault.specs.Holds.{OnlyGrows, is_held_up};
ghost use Rattle.ps_vault.specs.Order.{IsNoneAbove};
ghost use Rattle.ps_vault.specs.Reports.{are_ordinary, IsOneStarved, IsRunOf, IsWithin, IsBounded, bounds_of};
ghost use Rattle.ps_vault.specs.Stories.{AreWarranted, kept_of, world_at};

use crate::guides::Guide;
use crate::jobs::Job;
use crate::reports::{Config, Report, Room, RunFault};
use crate::vaults::{Advanced, Vault};
use ps_ctx::deeds::Deeds;
use ps_ctx::notes::Note;
use ps_language::schedules::Entry;
use ps_mem::Memory;
use ps_mem::marked::plain_with_marks;
use ps_step_interpreter::interprets::Interpret;
use std::alloc::Global;

/// As `run_plain`, but that the turns are of the contexts that a schedule has, as long as each is
/// ready, and then go on behind the last of them. Only the order of contexts is taken from it.
pub fn run_plain_behind<S: Interpret + Drop, D: Deeds + Drop>(
    alloc: Global,
    job: Job<'_, S, D>,
    given: &[Entry],
) -> Result<Report, RunFault>
    ensures config { (result ≡ Err RunFault.Config) ↔ ¬ IsWithin job.entry.config }
    ensures run { IfOk result (IsRunOf S.asks job.entry.program.now job.entry.config.steps) }
    ensures bounded { IfOk result (IsBounded (bounds_of job.entry.config)) }
{
    let config = job.config;
    if !config.is_within() {
        return Err(RunFault::Config);
    }
    let memory = plain_with_marks(alloc);
    let Ok(mut vault) = Vault::new(alloc, memory, job.into_task(), Room::of_run(config.entries))
    else {
        return Err(RunFault::Memory);
    };
    let run = vault.run_behind(config.steps, config.quantum, given);
    Ok(vault.into_run(run, config.steps))
}

impl<M: Memory + Drop, S: Interpret + Drop, D: Deeds + Drop> Vault<'_, M, S, D> {
    /// Whose turn is next, and the most steps that it may have: as a schedule has it, or, where it
    /// has no step that can be made, the next context round.
    fn next_by(&mut self, guide: &mut Guide, after: u32) -> Option<(u32, u32)>
        requires { self.old.caller ≡ None }
        ensures same { self.new ≡ self.old }
        ensures ready { IfSome result
            (λ turn. locks.is_ready (world_at self.old) turn.0 ≡ true) }
        ensures some { IfSome result (λ turn. 1 ≤ turn.1) }
        ensures none { IfNone result (IsNoneAbove (world_at self.old) 0) }
    {
        if let Some((context, most)) = guide.next() {
            if self.is_ready(context) {
                return Some((context, most));
            }
            *guide = Guide::new(&[]);
        }
        let next = self.next_round(after)?;
        Some((next, u32::MAX))
    }

    /// Runs contexts for at most so many steps, by turns of at most a quantum: in the order of a
    /// schedule, as far as its steps can be made, and then by rising identifier and going round.
    fn run_behind(&mut self, steps: u32, quantum: u32, given: &[Entry]) -> Advanced
        requires calling { self.old.caller ≡ None }
        requires quantum { 1 ≤ quantum }
        ensures program { self.new.program ≡ self.old.program }
        ensures most { self.new.most ≡ self.old.most }
        ensures within { result.made ≤ steps }
        ensures counted { count_of self.new.schedule ≡ count_of self.old.schedule + result.made }
        ensures ordinary { are_ordinary (moves self.old.schedule) ≡ true
            → are_ordinary (moves self.new.schedule) ≡ true }
        ensures warranted { AreWarranted self.old → AreWarranted self.new }
        ensures space { self.new.space ≡ self.old.space }
        ensures capacity { self.old.capacity ≤ self.new.capacity }
        ensures calling_on { is_held_up result.told ≡ false → self.new.caller ≡ None }
        ensures fewer { is_held_up result.told ≡ true → result.made < steps }
        ensures starved { OnlyGrows M.heap M.grants → is_held_up result.told ≡ true
            → IsOneStarved S.asks true (world_at self.new) (kept_of self.new) }
        ensures ended { is_held_up result.told ≡ false → result.made < steps
            → IsNoneAbove (world_at self.new) 0 }
    {
        let mut guide = Guide::new(given);
        let (mut made, mut after) = (0, 0);
        while made < steps {
            let Some((next, most)) = self.next_by(&mut guide, after) else {
                return Advanced {
                    made,
                    told: Ok(Note::Nothing),
                };
            };
            let turn = self.turns(next, quantum, most.min(steps - made));
            made += turn.made;
            if turn.is_held_up() {
                return Advanced { made, ..turn };
            }
            guide.pass(turn.made);
            after = next;
        }
        Advanced {
            made,
            told: Ok(Note::Nothing),
        }
    }
}
