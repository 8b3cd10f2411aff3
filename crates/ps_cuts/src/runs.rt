//! A program's runs over plain memory, made step by step or many steps at once.

ghost use Rattle.std.specs.Prelude.{◌≡◌, ◌≢◌, ◌-◌, ◌≤◌, ◌++◌, [], true, None, Ok, OnOk, IfOk, IfSome, IfNone, replicate};
ghost use Rattle.ps_language.specs.Locks as locks;
ghost use Rattle.ps_language.specs.Schedules.{moves, plain_move};
ghost use Rattle.ps_language.specs.Worlds.{all_ready, starting_world, IsProper};
ghost use Rattle.ps_ctx.specs.Steps.{AllFrom};
ghost use Rattle.ps_vault.specs.Order.{IsNoEnd, IsNoneAbove, Tells};
ghost use Rattle.ps_vault.specs.Stories.{world_at};
ghost use Rattle.ps_cuts.specs.Cuts as cuts;
ghost use Rattle.ps_cuts.specs.Cuts.{AllPlain};
ghost use Rattle.ps_cuts.specs.Runs.{EndsLike, IsMade};

use crate::endings::Ending;
use ps_ctx::deeds::Deeds;
use ps_ctx::notes::Note;
use ps_mem::marked::{Marked, plain_with_marks};
use ps_mem::plain::PlainMemory;
use ps_ops_operands::failure::NotMade;
use ps_run_schedules::Schedule;
use ps_step_interpreter::interprets::Interpret;
use ps_vault::{Room, Task, Vault};
use std::alloc::{AllocError, Global};

/// How many entries find room in a schedule from the start.
const FIRST_ENTRIES: usize = 64;

/// A run under way, over memory that is never collected.
#[derive(Drop)]
pub struct PlainRun<'a, S: Interpret + Drop, D: Deeds + Drop> {
    pub(crate) vault: Vault<'a, Marked<PlainMemory>, S, D>,
    /// The schedule so far.
    pub(crate) path: Schedule,
    /// Whose turn it is; None before the first step, and where the last one ended its turn.
    turn: Option<u32>,
    /// Whose the last step was; 0 before the first.
    last: u32,
}

/// Whose turn it is behind steps of a context that came to this.
fn turn_behind(context: u32, told: Result<Note, NotMade>) -> Option<u32>
    ensures some { IfSome result (λ one. (one ≡ context) × (told ≢ Ok Note.TurnEnds)) }
    ensures none { IfNone result (told ≡ Ok Note.TurnEnds) }
{
    match told {
        Ok(Note::TurnEnds) => None,
        _ => Some(context),
    }
}

impl<'a, S: Interpret + Drop, D: Deeds + Drop> PlainRun<'a, S, D> {
    /// A run before its first step. Fails where its first room can't be had.
    pub(crate) fn new(
        alloc: Global,
        task: Task<'a, S, D>,
        entries: u64,
    ) -> Result<PlainRun<'a, S, D>, AllocError>
        ensures program { IfOk result (λ run. run.vault.program ≡ task.entry.program.now) }
        ensures made { IfOk result
            (λ run. IsMade run.vault run.path.items run.turn run.last) }
        ensures none { IfOk result (λ run. run.vault.schedule ≡ []) }
    {
        let room = Room {
            first: FIRST_ENTRIES,
            most: entries,
        };
        let vault = Vault::new(alloc, plain_with_marks(alloc), task, room)?;
        let path = Schedule::with_capacity(alloc, FIRST_ENTRIES, entries)?;
        Ok(PlainRun {
            vault,
            path,
            turn: None,
            last: 0,
        })
    }
}

impl<S: Interpret + Drop, D: Deeds + Drop> PlainRun<'_, S, D> {
    /// Who goes on: whose turn it is, where that context is ready.
    fn going(&mut self) -> Option<u32>
        requires made { IsMade self.old.vault self.old.path.items self.old.turn self.old.last }
        ensures same { self.new ≡ self.old }
        ensures going { result ≡ cuts.going (starting_world self.old.vault.program)
            (moves self.old.vault.schedule) }
        ensures ready { IfSome result
            (λ context. locks.is_ready (world_at self.old.vault) context ≡ true) }
    {
        let context = self.turn?;
        if self.vault.is_ready(context) {
            return Some(context);
        }
        None
    }

    /// The next context by rising identifier, going round; None where none is ready.
    fn next_round(&mut self) -> Option<u32>
        requires { self.old.vault.caller ≡ None }
        ensures same { self.new ≡ self.old }
        ensures next { result ≡ cuts.next_round (world_at self.old.vault) self.old.last }
        ensures ready { IfSome result
            (λ context. locks.is_ready (world_at self.old.vault) context ≡ true) }
        ensures none { IfNone result (IsNoneAbove (world_at self.old.vault) 0) }
    {
        match self.vault.next_ready(self.last) {
            Some(next) => Some(next),
            None => self.vault.next_ready(0),
        }
    }

    /// Who steps without a cut; None where no context is ready.
    pub(crate) fn due(&mut self) -> Option<u32>
        requires made { IsMade self.old.vault self.old.path.items self.old.turn self.old.last }
        ensures same { self.new ≡ self.old }
        ensures due { result ≡ cuts.due (starting_world self.old.vault.program)
            (moves self.old.vault.schedule) }
        ensures ready { IfSome result
            (λ context. locks.is_ready (world_at self.old.vault) context ≡ true) }
        ensures none { IfNone result (IsNoneAbove (world_at self.old.vault) 0) }
    {
        match self.going() {
            Some(context) => Some(context),
            None => self.next_round(),
        }
    }

    /// Makes ordinary steps of a context that is ready, at most so many, as far as it goes on by
    /// itself, and one at least; tells how many. A `vmstatus` in them is shown zeros. Fails where a
    /// growth is refused, or the schedule may have no entry more.
    pub(crate) fn make(&mut self, context: u32, most: u32) -> Result<u32, AllocError>
        requires made { IsMade self.old.vault self.old.path.items self.old.turn self.old.last }
        requires ready { locks.is_ready (world_at self.old.vault) context ≡ true }
        requires some { 1 ≤ most }
        ensures program { OnOk result (self.new.vault.program ≡ self.old.vault.program) }
        ensures made { OnOk result (IsMade self.new.vault self.new.path.items
            self.new.turn self.new.last) }
        ensures some { IfOk result (λ count. 1 ≤ count) }
        ensures most { IfOk result (λ count. count ≤ most) }
        ensures steps { IfOk result (λ count. moves self.new.vault.schedule
            ≡ moves self.old.vault.schedule ++ replicate count (plain_move context)) }
        ensures keeps { IfOk result (λ count. AllFrom (Tells IsNoEnd) (world_at self.old.vault)
            (replicate (count - 1) (plain_move context))) }
    {
        self.vault.reserve_entries(context)?;
        if !self.path.may_add(context) {
            return Err(AllocError);
        }
        self.path.reserve()?;
        let most = most.min(self.path.free_steps(context));
        let advanced = self.vault.advance(context, most, false);
        if advanced.is_held_up() {
            return Err(AllocError);
        }
        self.path.note_turn(context, advanced.made);
        self.turn = turn_behind(context, advanced.told);
        self.last = context;
        Ok(advanced.made)
    }

    /// Makes so many ordinary steps of a context, each of which can be made. Fails as `make` does.
    pub(crate) fn follow(&mut self, context: u32, steps: u32) -> Result<(), AllocError>
        requires made { IsMade self.old.vault self.old.path.items self.old.turn self.old.last }
        requires ready { all_ready (world_at self.old.vault)
            (replicate steps (plain_move context)) ≡ true }
        ensures program { OnOk result (self.new.vault.program ≡ self.old.vault.program) }
        ensures made { OnOk result (IsMade self.new.vault self.new.path.items
            self.new.turn self.new.last) }
        ensures steps { OnOk result (moves self.new.vault.schedule
            ≡ moves self.old.vault.schedule ++ replicate steps (plain_move context)) }
    {
        let mut left = steps;
        while left > 0 {
            left -= self.make(context, left)?;
        }
        Ok(())
    }

    /// Makes the steps of a schedule, each of which can be made, from the start. Fails as `make`
    /// does.
    pub(crate) fn retrace(&mut self, schedule: &Schedule) -> Result<(), AllocError>
        requires made { IsMade self.old.vault self.old.path.items self.old.turn self.old.last }
        requires none { self.old.vault.schedule ≡ [] }
        requires plain { AllPlain (moves schedule.now.items) }
        requires proper { IsProper self.old.vault.program schedule.now.items }
        ensures program { OnOk result (self.new.vault.program ≡ self.old.vault.program) }
        ensures made { OnOk result (IsMade self.new.vault self.new.path.items
            self.new.turn self.new.last) }
        ensures steps { OnOk result
            (moves self.new.vault.schedule ≡ moves schedule.now.items) }
    {
        let mut left = schedule.entries();
        while let Some(entry) = left.next() {
            self.follow(entry.context, entry.steps)?;
        }
        Ok(())
    }

    /// How it ended, and its schedule, each step of which could be made. Fails where the room of
    /// what was printed can't be had.
    pub(crate) fn end(mut self, alloc: Global) -> Result<(Ending, Schedule), AllocError>
        requires made { IsMade self.vault self.path.items self.turn self.last }
        ensures proper { IsProper self.entry.vault.program self.entry.vault.schedule }
        ensures ends { IfOk result (λ end. EndsLike (world_at self.entry.vault) end.0) }
        ensures path { IfOk result (λ end. end.1.items ≡ self.entry.vault.schedule) }
    {
        let outcome = self.vault.outcome(true);
        let PlainRun { vault, path, .. } = self;
        let parked = vault.park();
        let printed = parked.printed().to_vec(alloc)?;
        Ok((Ending { printed, outcome }, path))
    }
}
