//! All contexts and their memory, with the program and the schedule that they stand for: after
//! each call they are at the world of that program and that schedule, whatever the memory is.

ghost use Rattle.std.specs.Prelude.{◌≡◌, ◌≢◌, ◌↔◌, ◌+◌, ◌/◌, ◌<◌, ◌≤◌, ℕ, ℤ, false, true, Bool, Ok, OnOk, OnErr, IfOk, IfErr, IfSome, IfNone, IsTrue, Option, None, IsSome, [], ◌==◌, ◌⊎◌, min, not, nat_eq, length, if◌then◌else◌};
ghost use Rattle.ps_language.specs.Contexts.{count_not_ended};
ghost use Rattle.ps_language.specs.Locks as locks;
ghost use Rattle.ps_language.specs.Schedules.{added, count_of, moves, plain_move};
ghost use Rattle.ps_language.specs.Worlds as worlds;
ghost use Rattle.ps_language.specs.Worlds.{after_move, after_moves, starting_world};
ghost use Rattle.ps_run_schedules.specs.Turns.{added_times, joins_last, move_of};
ghost use Rattle.ps_vault.specs.Order.{IsNoneAbove, IsOnlyLeft, AddsSteps, AllOfOne, NoneEnds, OnlyLastMayEnd, EndsTurn, WishesAs};
ghost use Rattle.ps_mem.specs.Heap.{Space};
ghost use Rattle.ps_ctx_start.specs.Starts.{IsEmptyHeap};
ghost use Rattle.ps_vault.specs.Holds as holds;
ghost use Rattle.ps_vault.specs.Holds.{IfForRoom, IsHeldUp, is_held_up, wish_in, wish_told};
ghost use Rattle.ps_vault.specs.Reports.{all_fit, are_ordinary, are_words, is_memory, EndsAs, IsBounded, IsOneStarved, IsRunIn, IsShort};
ghost use Rattle.ps_vault.specs.declared.reports.TheConstants.{FIRST_ENTRIES};
ghost use Rattle.ps_vault.specs.Stories.{Story, HasRoom, MayGo, AreWarranted, kept_of, world_at};
ghost use Rattle.ps_vault.specs.Warrants.{AddsShown, IsStatus};
ghost use Rattle.ps_ctx.specs.Steps.{words_shown};

use crate::jobs::Task;
use crate::reports::{Outcome, Report, Room};
use crate::schedules::kept;
use ps_core_laws::collected::Counts;
use ps_ctx::deeds::Deeds;
use ps_ctx::makers::Makers;
use ps_ctx::notes::Note;
use ps_ctx::starts::start_world;
use ps_ctx::worlds::World;
use ps_mem::{Memory, Slot};
use ps_ops_operands::failure::NotMade;
use ps_ops_state::lent::{Attempt, Runtime, Shared};
use ps_run_schedules::Schedule;
use ps_step_interpreter::interprets::Interpret;
use ps_step_outcome::batches::Batch;
use std::alloc::{AllocError, Global};
use std::marker::Model;

/// All contexts, who makes their steps, their memory, and the steps that they made: seen as the
/// program, the most bytes that it may print and entries that the schedule may have, the schedule,
/// how many entries find room, whose call waits, the words of the memory's space, those that are
/// used, how often what stands was moved, whether a cycle of the collector is open, and which logs
/// are closed.
#[derive(Drop)]
pub struct Vault<'a, M: Memory + Drop, S: Interpret + Drop, D: Deeds + Drop> {
    pub(crate) makers: Makers<S, D>,
    pub(crate) world: World,
    pub(crate) runtime: Runtime<'a, M>,
    pub(crate) schedule: Schedule,
}

impl<'a, M: Memory + Drop, S: Interpret + Drop, D: Deeds + Drop> Model for Vault<'a, M, S, D> {
    ghost use Rattle.std.specs.Prelude.{option_map};
    ghost use Rattle.ps_run_schedules.specs.Keeping.{most_of};
    ghost use Rattle.ps_ctx.specs.Calls.{over_of};
    ghost use Rattle.ps_ctx.specs.Held.{held};
    ghost use Rattle.ps_vault.specs.Stories.{Story, Keeps, logs_closed};

    ghost Value = { Story };

    ghost view = { λ v. record {
      program = v.runtime.shared.program.now;
      most = record {
        output = v.runtime.shared.printed.most;
        entries = most_of v.schedule;
      };
      schedule = v.schedule.items;
      capacity = v.schedule.capacity;
      caller = option_map (λ calling. calling.caller) v.world.calling;
      space = (M.heap v.runtime.memory).space.size;
      used = (M.heap v.runtime.memory).used;
      flips = (M.heap v.runtime.memory).space.flips;
      cycle_open = (M.grants v.runtime.memory).cycle_open;
      closed = logs_closed (M.grants v.runtime.memory).closed;
    } };

    ghost invariant = { λ v. Keeps (held (over_of M.heap M.grants v.runtime v.world.contexts)
        v.world.calling) v.schedule.items };
}

/// What steps came to, and how many were made.
#[derive(Clone, Copy, Debug, PartialEq, Eq)]
pub struct Advanced {
    pub made: u32,
    /// What the last one tells, if that is of use to who asked for them; or why the next one was
    /// held up.
    pub told: Result<Note, NotMade>,
}

impl Advanced {
    /// Whether the next one was held up.
    #[inline]
    pub fn is_held_up(self) -> bool
        ensures { result ≡ is_held_up self.told }
    {
        match self.told {
            Ok(_) => false,
            Err(_) => true,
        }
    }
}

/// The slot of the log that the records of a context's steps go into: its identifier modulo 32. At
/// most 32 contexts are left at a time. Each has a slot of its own wherever their identifiers lie
/// within 32. Elsewhere two may share one, which loses nothing: only one makes steps at a time.
#[inline(always)]
fn slot_of(context: u32) -> Slot
    ensures { result ≡ holds.slot_of context }
{
    Slot::of(context)
}

/// The number of the `vmreclaim` that was made, if it was one.
pub fn wish_of(note: Note) -> Option<i32>
    ensures { result ≡ wish_in note }
{
    match note {
        Note::Wishes(number) => Some(number),
        Note::Nothing | Note::ShowsMemory | Note::TurnEnds => None,
    }
}

impl<'a, M: Memory + Drop, S: Interpret + Drop, D: Deeds + Drop> Vault<'a, M, S, D> {
    /// The first context before its first step, over a memory in which nothing stands, and an empty
    /// schedule. Fails where the schedule's room, or that of the first objects or the context, can't
    /// be had.
    pub fn new(
        alloc: Global,
        mut memory: M,
        task: Task<'a, S, D>,
        room: Room,
    ) -> Result<Vault<'a, M, S, D>, AllocError>
        requires empty { IsEmptyHeap (M.heap memory) }
        ensures program { IfOk result (λ vault. vault.program ≡ task.entry.program.now) }
        ensures most { IfOk result (λ vault. vault.most.output ≡ task.entry.setup.output) }
        ensures schedule { IfOk result (λ vault. vault.schedule ≡ []) }
        ensures entries { IfOk result (λ vault. vault.most.entries ≡ room.most) }
        ensures room { IfOk result (λ vault. room.first ≤ vault.capacity) }
        ensures calling { IfOk result (λ vault. vault.caller ≡ None) }
        ensures space { IfOk result (λ vault. vault.space ≡ (M.heap memory).space.size) }
        ensures flips { IfOk result (λ vault. vault.flips ≡ (M.heap memory).space.flips) }
    {
        let Task {
            makers,
            program,
            setup,
        } = task;
        let Ok((world, shared)) = start_world(alloc, &mut memory, program, setup) else {
            return Err(AllocError);
        };
        let schedule = Schedule::with_capacity(alloc, room.first, room.most)?;
        Ok(Vault {
            makers,
            world,
            runtime: Runtime { shared, memory },
            schedule,
        })
    }
}

impl<M: Memory + Drop, S: Interpret + Drop, D: Deeds + Drop> Vault<'_, M, S, D> {
    /// Whether a context is ready.
    #[inline(always)]
    pub fn is_ready(&mut self, context: u32) -> bool
        requires { self.old.caller ≡ None }
        ensures same { self.new ≡ self.old }
        ensures ready { result ≡ locks.is_ready (world_at self.old) context }
    {
        let operators = &self.makers.operators;
        operators.is_ready(context, &self.world.contexts, &mut self.runtime)
    }

    /// The context whose call waits, since it could not be made: no other makes a step before it.
    pub fn caller(&self) -> Option<u32>
        ensures { result ≡ self.now.caller }
    {
        match self.world.calling {
            Some(calling) => Some(calling.caller),
            None => None,
        }
    }

    /// The least identifier above another of a context that isn't ended.
    pub fn next_left(&self, after: u32) -> Option<u32>
        requires { self.now.caller ≡ None }
        ensures left { IfSome result (λ next. (after < next)
            × (next ≤ length (world_at self.now).contexts)
            × ((k : ℕ) → after < k → k < next → locks.is_ready (world_at self.now) k ≡ false)) }
        ensures none { IfNone result (IsNoneAbove (world_at self.now) after) }
    {
        self.world.contexts.table.next(after)
    }

    /// How many steps of a context may be made at once: all that are left of a run, where one
    /// context alone is left, and else at most the rest of its turn.
    pub fn at_once(&self, rest: u32, left: u32) -> u32
        requires { self.now.caller ≡ None }
        ensures { result ≡ (if count_not_ended (world_at self.now).contexts == 1 then left
            else min rest left) }
    {
        if self.world.contexts.table.left() == 1 {
            return left;
        }
        rest.min(left)
    }

    /// The words that are used of the space.
    pub fn used(&mut self) -> u32
        ensures same { self.new ≡ self.old }
        ensures is { result ≡ self.old.used }
    {
        self.runtime.memory.used()
    }

    /// Whether more than half is used of what was free of the space while so many words were used.
    pub fn is_half_used(&mut self, kept: u32) -> bool
        ensures same { self.new ≡ self.old }
        ensures half { IsTrue result ↔ kept / 2 + self.old.space / 2 < self.old.used }
    {
        self.runtime.memory.used() > kept / 2 + self.runtime.memory.size() / 2
    }

    /// Room in the schedule for steps of a context. `AllocError`: it can't be had, or the schedule has
    /// as many entries as it may have, and none takes a further step; nothing has changed.
    pub fn reserve_entries(&mut self, context: u32) -> Result<(), AllocError>
        ensures program { self.new.program ≡ self.old.program }
        ensures most { self.new.most ≡ self.old.most }
        ensures schedule { self.new.schedule ≡ self.old.schedule }
        ensures calling { self.new.caller ≡ self.old.caller }
        ensures capacity { self.old.capacity ≤ self.new.capacity }
        ensures space { self.new.space ≡ self.old.space }
        ensures used { self.new.used ≡ self.old.used }
        ensures flips { self.new.flips ≡ self.old.flips }
        ensures cycle { self.new.cycle_open ≡ self.old.cycle_open }
        ensures closed { self.new.closed ≡ self.old.closed }
        ensures room { OnOk result (HasRoom self.new context) }
        ensures short { OnErr result (IsShort (kept_of self.new) context) }
    {
        if !self.schedule.may_add(context) {
            return Err(AllocError);
        }
        self.schedule.reserve()
    }

    /// Makes a step of a context that is ready, where no other's call waits; a refused one makes no
    /// object, and a `vmstatus` shows the given pair and leaves what is used. No cycle is opened or
    /// ended, and no log closed. Not made, at the same world, for the reason that is told: room for
    /// records, or a growth that the step may want; or words or births of the objects that the
    /// unrefused step makes, for which there is no room. What is used is as before then, unless a
    /// call waits that didn't before.
    pub fn step(
        &mut self,
        context: u32,
        refused: bool,
        shown: Option<(i32, i32)>,
    ) -> Result<(), NotMade>
        requires calling { MayGo self.old context }
        requires ready { locks.is_ready (world_at self.old) context ≡ true }
        requires room { HasRoom self.old context }
        ensures program { self.new.program ≡ self.old.program }
        ensures most { self.new.most ≡ self.old.most }
        ensures made { OnOk result
            (self.new.schedule ≡ added self.old.schedule (move_of context refused shown)) }
        ensures world { OnOk result (world_at self.new
            ≡ after_move (world_at self.old) (move_of context refused shown)) }
        ensures fits { OnOk result (are_words shown ≡ true
            → all_fit (moves self.old.schedule) ≡ true
            → all_fit (moves self.new.schedule) ≡ true) }
        ensures longer { length self.new.schedule ≤ length self.old.schedule + 1 }
        ensures capacity { self.old.capacity ≤ self.new.capacity }
        ensures space { self.new.space ≡ self.old.space }
        ensures flips { self.new.flips ≡ self.old.flips }
        ensures cycle { self.new.cycle_open ≡ self.old.cycle_open }
        ensures closed { self.new.closed ≡ self.old.closed }
        ensures calling { MayGo self.new context }
        ensures calling_on { OnOk result (self.new.caller ≡ None) }
        ensures status { OnOk result (IsStatus (world_at self.old) (move_of context refused shown)
            → self.new.used ≡ self.old.used) }
        ensures not_made { OnErr result (self.new.schedule ≡ self.old.schedule) }
        ensures used { OnErr result ((self.new.caller ≡ None) ⊎ IsSome self.old.caller
            → self.new.used ≡ self.old.used) }
        ensures held_up { IfErr result
            (IsHeldUp M.heap M.grants S.asks context refused self.new) }
        ensures room { IfErr result (IfForRoom refused self.new context) }
    {
        let attempt = Attempt {
            slot: slot_of(context),
            refused,
        };
        let told = self.world.step(&mut self.makers, &mut self.runtime, context, attempt, shown);
        match told {
            Ok(_) => {
                self.schedule.note(context, refused, shown);
                Ok(())
            }
            Err(reason) => Err(reason),
        }
    }

    /// Makes steps of a context that is ready, where no other's call waits, at most so many, as far
    /// as it goes on by itself, and the step behind them; shows says whether a `vmstatus` is shown
    /// the memory, or zeros. One is made at least, but where it is held up, for the reason that is
    /// told.
    ///
    /// What is shown is how many words stand just before the step, which are those that stand
    /// behind it, and the space.
    pub fn advance(&mut self, context: u32, most: u32, shows: bool) -> Advanced
        requires calling { MayGo self.old context }
        requires ready { locks.is_ready (world_at self.old) context ≡ true }
        requires room { HasRoom self.old context }
        requires some { 1 ≤ most }
        ensures program { self.new.program ≡ self.old.program }
        ensures most { self.new.most ≡ self.old.most }
        ensures within { result.made ≤ most }
        ensures some { is_held_up result.told ≡ false → 1 ≤ result.made }
        ensures fewer { is_held_up result.told ≡ true → result.made < most }
        ensures counted { count_of self.new.schedule ≡ count_of self.old.schedule + result.made }
        ensures ordinary { are_ordinary (moves self.old.schedule) ≡ true
            → are_ordinary (moves self.new.schedule) ≡ true }
        ensures fits { all_fit (moves self.old.schedule) ≡ true
            → all_fit (moves self.new.schedule) ≡ true }
        ensures warranted { shows ≡ true → AreWarranted self.old → AreWarranted self.new }
        ensures shown { 1 ≤ result.made → AddsShown context result.made
            (words_shown self.new.used, words_shown self.new.space) (moves self.old.schedule)
            (moves self.new.schedule) }
        ensures takes { AddsSteps context result.made (moves self.old.schedule)
            (moves self.new.schedule) }
        ensures keeps { result.told ≢ Ok Note.TurnEnds → NoneEnds
            (starting_world self.old.program) (moves self.old.schedule) (moves self.new.schedule) }
        ensures ends { result.told ≡ Ok Note.TurnEnds → EndsTurn
            (starting_world self.old.program) context (moves self.new.schedule) }
        ensures only_last { result.told ≡ Ok Note.TurnEnds → OnlyLastMayEnd
            (starting_world self.old.program) (moves self.old.schedule) (moves self.new.schedule) }
        ensures wish { WishesAs (wish_told result.told) (starting_world self.old.program) context
            (moves self.old.schedule) (moves self.new.schedule) }
        ensures alone { IsOnlyLeft (world_at self.old) context → AllOfOne context
            (starting_world self.old.program) (moves self.old.schedule) (moves self.new.schedule) }
        ensures left { is_held_up result.told ≡ true → IsOnlyLeft (world_at self.old) context
            → IsOnlyLeft (world_at self.new) context }
        ensures plain { shows ≡ false → self.new.schedule
            ≡ added_times result.made self.old.schedule (plain_move context) }
        ensures longer { length self.new.schedule ≤ length self.old.schedule + 1 }
        ensures capacity { self.old.capacity ≤ self.new.capacity }
        ensures space { self.new.space ≡ self.old.space }
        ensures flips { self.new.flips ≡ self.old.flips }
        ensures calling { MayGo self.new context }
        ensures calling_on { is_held_up result.told ≡ false → self.new.caller ≡ None }
        ensures held_up { IfErr result.told
            (IsHeldUp M.heap M.grants S.asks context false self.new) }
        ensures room { IfErr result.told (IfForRoom false self.new context) }
    {
        let most = most.min(self.schedule.free_steps(context));
        let Batch { made, next } = self.world.go_on(
            &mut self.makers,
            &mut self.runtime,
            context,
            slot_of(context),
            most,
            shows,
        );
        self.schedule.note_turn(context, made);
        let Some((told, shown)) = next else {
            return Advanced {
                made,
                told: Ok(Note::Nothing),
            };
        };
        let note = match told {
            Ok(note) => note,
            Err(reason) => {
                return Advanced {
                    made,
                    told: Err(reason),
                };
            }
        };
        let kept = kept(note, shown);
        self.schedule.note(context, false, kept);
        Advanced {
            made: made + 1,
            told: Ok(note),
        }
    }

    /// How a run ended that no step was held up of; used up says that no step is left.
    pub fn outcome(&mut self, used_up: bool) -> Outcome
        requires calling { self.old.caller ≡ None }
        requires ready { used_up ≡ false → IsNoneAbove (world_at self.old) 0 }
        ensures same { self.new ≡ self.old }
        ensures ends { EndsAs (world_at self.old) used_up ⊥ result }
        ensures known { is_memory result ≡ false }
    {
        if self.is_all_over() {
            if self.has_faulted() {
                return Outcome::Faulted;
            }
            return Outcome::Finished;
        }
        match self.next_ready(0) {
            Some(_) => Outcome::StepsOut,
            None => Outcome::AllWaiting,
        }
    }

    /// Whether each context is finished or ended.
    fn is_all_over(&self) -> bool
        requires { self.now.caller ≡ None }
        ensures { result ≡ worlds.is_all_over (world_at self.now) }
    {
        self.world.contexts.is_all_over()
    }

    /// Whether the line of an error was printed.
    fn has_faulted(&self) -> bool
        requires { self.now.caller ≡ None }
        ensures { result ≡ not (nat_eq (world_at self.now).error_lines 0) }
    {
        self.world.contexts.has_faulted
    }

    /// The printed bytes, at the end.
    pub fn into_printed(self) -> Vec<u8>
        ensures printed { result.items ≡ (world_at self.entry).printed }
        ensures bounded { length result.items ≤ self.entry.most.output }
    {
        let Vault { runtime, .. } = self;
        let Runtime { shared, .. } = runtime;
        let Shared { printed, .. } = shared;
        printed.into_bytes()
    }

    /// The report of a run with a budget of steps, at the end, and how much a collector has done.
    pub fn into_report(self, steps: u32, outcome: Outcome, counts: Counts) -> Report
        requires few { count_of self.schedule ≤ steps }
        requires fits { all_fit (moves self.schedule) ≡ true }
        requires warranted { AreWarranted self }
        requires room { FIRST_ENTRIES ≤ self.capacity }
        ensures run { (space : Space) → space.size ≡ self.entry.space → EndsAs (world_at self.entry)
            (count_of self.entry.schedule == steps) (IsOneStarved S.asks space.grows
            (world_at self.entry) (kept_of self.entry)) outcome
            → IsRunIn S.asks space self.entry.program steps result }
        ensures bounded { IsBounded self.entry.most result }
        ensures schedule { result.schedule ≡ kept_of self.entry }
        ensures outcome { result.outcome ≡ outcome }
        ensures flips { result.flips ≡ counts.flips }
        ensures taken { result.taken ≡ counts.taken }
    {
        let Vault {
            runtime,
            schedule,
            ..
        } = self;
        let Runtime { shared, .. } = runtime;
        let Shared { printed, .. } = shared;
        Report {
            printed: printed.into_bytes(),
            schedule,
            outcome,
            flips: counts.flips,
            taken: counts.taken,
        }
    }
}
