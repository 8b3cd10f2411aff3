//! Turns of contexts, and which context is next (PLRM2, 7.1).

ghost use Rattle.std.specs.Prelude.{◌≡◌, ℕ, ◌+◌, ◌%◌, ◌<◌, ◌≤◌, false, true, [], length, IfSome, IfNone};
ghost use Rattle.ps_language.specs.Locks as locks;
ghost use Rattle.ps_language.specs.Schedules.{count_of, moves};
ghost use Rattle.ps_language.specs.Worlds.{starting_world};
ghost use Rattle.ps_vault.specs.Holds.{OnlyGrows, is_held_up};
ghost use Rattle.ps_vault.specs.Order.{IsNoneAbove, IsLeastAbove, AddsTurns, HasTurn, InOrder};
ghost use Rattle.ps_vault.specs.Reports.{are_ordinary, IsStarved, IsOneStarved};
ghost use Rattle.ps_vault.specs.Screens.{ShowsOn};
ghost use Rattle.ps_vault.specs.Stories.{AreWarranted, kept_of, world_at};

use crate::screens::{Screen, Viewer};
use crate::vaults::{Advanced, Vault};
use ps_ctx::deeds::Deeds;
use ps_ctx::notes::Note;
use ps_mem::Memory;
use ps_ops_operands::failure::NotMade;
use ps_step_interpreter::interprets::Interpret;

/// Of so many steps, made in turns of a quantum each, how many the last turn has that isn't full.
/// Of one turn alone it is told without a division.
#[inline(always)]
fn begun_of(made: u32, quantum: u32) -> u32
    requires { 1 ≤ quantum }
    ensures { result ≡ made % quantum }
{
    if made < quantum {
        return made;
    }
    if made == quantum {
        return 0;
    }
    made % quantum
}

impl<M: Memory + Drop, S: Interpret + Drop, D: Deeds + Drop> Vault<'_, M, S, D> {
    /// The turn of a context that is ready: ordinary steps, as long as it is ready, at most a
    /// quantum of them, ended early by `yield` or where it waits. As long as no other context is
    /// left it goes on with the next turns, for at most so many steps. Held up: fewer; over a
    /// memory that only grows the next may want a growth, or the schedule has no room for it.
    #[inline(always)]
    pub fn turns(&mut self, context: u32, quantum: u32, most: u32) -> Advanced
        requires calling { self.old.caller ≡ None }
        requires ready { locks.is_ready (world_at self.old) context ≡ true }
        requires quantum { 1 ≤ quantum }
        requires some { 1 ≤ most }
        ensures program { self.new.program ≡ self.old.program }
        ensures most { self.new.most ≡ self.old.most }
        ensures within { result.made ≤ most }
        ensures some { is_held_up result.told ≡ false → 1 ≤ result.made }
        ensures counted { count_of self.new.schedule ≡ count_of self.old.schedule + result.made }
        ensures ordinary { are_ordinary (moves self.old.schedule) ≡ true
            → are_ordinary (moves self.new.schedule) ≡ true }
        ensures warranted { AreWarranted self.old → AreWarranted self.new }
        ensures space { self.new.space ≡ self.old.space }
        ensures capacity { self.old.capacity ≤ self.new.capacity }
        ensures turns { AddsTurns quantum most (starting_world self.old.program) context result
            (moves self.old.schedule) (moves self.new.schedule) }
        ensures calling_on { is_held_up result.told ≡ false → self.new.caller ≡ None }
        ensures fewer { is_held_up result.told ≡ true → result.made < most }
        ensures starved { OnlyGrows M.heap M.grants → is_held_up result.told ≡ true
            → IsStarved S.asks true context false (world_at self.new) (kept_of self.new) }
    {
        let mut made = 0;
        let mut begun = 0;
        loop {
            if self.reserve_entries(context).is_err() {
                return Advanced {
                    made,
                    told: Err(NotMade::Memory),
                };
            }
            let goal = self.at_once(quantum - begun, most - made);
            let advanced = self.advance(context, goal, true);
            made += advanced.made;
            let so_far = Advanced {
                made,
                told: Ok(Note::Nothing),
            };
            match advanced.told {
                Ok(Note::TurnEnds) => return so_far,
                Ok(_) => {}
                Err(reason) => return Advanced {
                    made,
                    told: Err(reason),
                },
            }
            begun = begun_of(made, quantum);
            if begun == 0 || made == most {
                return so_far;
            }
            if !self.is_ready(context) {
                return so_far;
            }
        }
    }

    /// The ready context of the least identifier above another.
    #[inline]
    pub fn next_ready(&mut self, after: u32) -> Option<u32>
        requires { self.old.caller ≡ None }
        ensures same { self.new ≡ self.old }
        ensures ready { IfSome result (λ next. IsLeastAbove (world_at self.old) after next) }
        ensures none { IfNone result (IsNoneAbove (world_at self.old) after) }
    {
        let mut at = after;
        while let Some(next) = self.next_left(at) {
            if self.is_ready(next) {
                return Some(next);
            }
            at = next;
        }
        None
    }

    /// Runs contexts for at most so many steps: passes over them by rising identifier, also those
    /// that are made in the pass, with a turn of at most a quantum of steps for each that is ready.
    /// Who watches is shown behind each turn what was printed; where that fails no more are made.
    pub fn run<V: Viewer + Drop>(
        &mut self,
        steps: u32,
        quantum: u32,
        screen: &mut Screen<V>,
    ) -> Advanced
        requires calling { self.old.caller ≡ None }
        requires quantum { 1 ≤ quantum }
        requires fits { screen.old.shown ≤ length (world_at self.old).printed }
        requires going { screen.old.failed ≡ false }
        ensures program { self.new.program ≡ self.old.program }
        ensures most { self.new.most ≡ self.old.most }
        ensures within { result.made ≤ steps }
        ensures counted { count_of self.new.schedule ≡ count_of self.old.schedule + result.made }
        ensures ordinary { are_ordinary (moves self.old.schedule) ≡ true
            → are_ordinary (moves self.new.schedule) ≡ true }
        ensures warranted { AreWarranted self.old → AreWarranted self.new }
        ensures space { self.new.space ≡ self.old.space }
        ensures capacity { self.old.capacity ≤ self.new.capacity }
        ensures order { moves self.old.schedule ≡ []
            → InOrder quantum (starting_world self.old.program) (moves self.new.schedule) }
        ensures calling_on { is_held_up result.told ≡ false → self.new.caller ≡ None }
        ensures fewer { is_held_up result.told ≡ true → result.made < steps }
        ensures starved { OnlyGrows M.heap M.grants → is_held_up result.told ≡ true
            → IsOneStarved S.asks true (world_at self.new) (kept_of self.new) }
        ensures owed { OnlyGrows M.heap M.grants → is_held_up result.told ≡ true
            → moves self.old.schedule ≡ [] → (context : ℕ)
            × HasTurn quantum (starting_world self.old.program) context (moves self.new.schedule)
            × IsStarved S.asks true context false (world_at self.new) (kept_of self.new) }
        ensures ended { is_held_up result.told ≡ false → result.made < steps
            → screen.new.failed ≡ false → IsNoneAbove (world_at self.new) 0 }
        ensures shown { ShowsOn screen.old (world_at self.old).printed screen.new
            (world_at self.new).printed }
        ensures cut { screen.new.failed ≡ true → is_held_up result.told ≡ false }
        ensures still { screen.old.watching ≡ false → screen.new ≡ screen.old }
    {
        let mut made = 0;
        let mut after = 0;
        while made < steps {
            let Some(next) = self.next_ready(after) else {
                if after == 0 {
                    return Advanced {
                        made,
                        told: Ok(Note::Nothing),
                    };
                }
                after = 0;
                continue;
            };
            let most = screen.most_unseen(quantum, steps - made);
            let turn = self.turns(next, quantum, most);
            made += turn.made;
            if turn.is_held_up() {
                return Advanced { made, ..turn };
            }
            if !self.show_printed(screen) {
                return Advanced {
                    made,
                    told: Ok(Note::Nothing),
                };
            }
            after = next;
        }
        Advanced {
            made,
            told: Ok(Note::Nothing),
        }
    }
}
