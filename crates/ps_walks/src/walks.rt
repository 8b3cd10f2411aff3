//! A run that is made again, step by step.

ghost use Rattle.std.specs.Prelude.{List, take, ◌≡◌, ◌+◌, ◌<◌, ◌==◌, if◌then◌else◌, true, IfOk, OnOk};
ghost use Rattle.ps_language.specs.Locks as locks;
ghost use Rattle.ps_language.specs.World.{World as TheWorld};
ghost use Rattle.ps_language.specs.Worlds.{after_move};
ghost use Rattle.ps_ctx_table.specs.Desks.{IsWorld};
ghost use Rattle.ps_run_schedules.specs.Turns.{move_of};
ghost use Rattle.ps_language.specs.Schedules.{last_move, moves, moves_of, plain_move};
ghost use Rattle.ps_language.specs.Worlds.{starting_world};
ghost use Rattle.ps_places.specs.declared.origins.Origin.{Origin};
ghost use Rattle.ps_states.specs.States.{state_text};
ghost use Rattle.ps_walks.specs.Walks.{Stands, desk_in, walked, walked_all, without_lines, world_behind};

use crate::before::known_of;
use crate::kept::Kept;
use crate::raised::RaisedAt;
use ps_ctx::deeds::Deeds;
use ps_ctx::makers::Makers;
use ps_ctx::starts::start_world;
use ps_ctx::worlds::World;
use ps_ctx_start::start::Setup;
use ps_language::schedules::Entry;
use ps_mem::marked::{Marked, plain_with_marks};
use ps_mem::plain::PlainMemory;
use ps_mem::{Memory, Slot};
use ps_ops_state::lent::{Attempt, Runtime};
use ps_run_schedules::Entries;
use ps_states::{Chart, Crowd, StepCount, append_state};
use ps_step_interpreter::interprets::Interpret;
use std::alloc::{AllocError, Global};
use thiserror::Error;

/// Why a run isn't made again.
#[derive(Clone, Copy, Debug, PartialEq, Eq, Error)]
pub enum WalkFault {
    /// A growth was refused.
    #[error("out of memory")]
    Memory,
    /// It takes more words in all than a memory that only grows has.
    #[error("the run is too large to be made again")]
    TooLarge,
}

impl From<AllocError> for WalkFault {
    ghost use Rattle.std.specs.Prelude.{◌≡◌};
    ghost use Rattle.ps_walks.specs.declared.walks.WalkFault.TheVariants.{Memory};

    ghost from_gives = { λ _ fault. fault ≡ Memory };

    fn from(_: AllocError) -> WalkFault {
        WalkFault::Memory
    }
}

/// A run to be made again: its program and makers, and what the program's file is called.
#[derive(Drop)]
pub struct Rerun<'a, S: Drop, D: Drop> {
    pub makers: Makers<S, D>,
    pub program: &'a [u8],
    pub setup: Setup,
    pub file: &'a [u8],
}

/// The words that a step can ask for at most, with some to spare.
const MOST_ASKED: u32 = 1 << 18;

/// A run that is made again.
#[derive(Drop)]
pub(crate) struct Walk<'a, M: Memory + Drop, S: Interpret + Drop, D: Deeds + Drop> {
    pub(crate) makers: Makers<S, D>,
    pub(crate) world: World,
    pub(crate) runtime: Runtime<'a, M>,
    pub(crate) kept: Kept<'a>,
}

/// The texts of the places of the errors whose lines the steps of a schedule print, in their order.
///
/// `Memory`: a growth was refused. `TooLarge`: the run takes more words in all than the 16,777,215
/// of memory that only grows.
pub fn places_of<S: Interpret + Drop, D: Deeds + Drop>(
    alloc: Global,
    run: Rerun<'_, S, D>,
    schedule: Entries<'_>,
) -> Result<Vec<u8>, WalkFault> {
    let kept = make_walk(alloc, run, schedule)?;
    Ok(kept.into_told())
}

/// Where a context raised its last error under the steps of a schedule, also one that was caught.
/// Nothing where it raised none, or isn't left behind them. The faults are those of `places_of`.
pub fn raised_at<S: Interpret + Drop, D: Deeds + Drop>(
    alloc: Global,
    run: Rerun<'_, S, D>,
    schedule: Entries<'_>,
    context: u32,
) -> Result<Option<RaisedAt>, WalkFault> {
    let kept = make_walk(alloc, run, schedule)?;
    Ok(kept.raised_at(context))
}

/// The text of the state of a run behind so many of the steps of a schedule, of `steps` in all. The
/// faults are those of `places_of`.
pub fn state_of<S: Interpret + Drop, D: Deeds + Drop>(
    alloc: Global,
    run: Rerun<'_, S, D>,
    schedule: Entries<'_>,
    count: StepCount,
) -> Result<Vec<u8>, WalkFault>
    ensures { IfOk result (λ text. (origins : List Origin) × (text.items ≡ state_text
        (record { file = run.entry.file.now; program = run.entry.program.now; origins = origins })
        (world_behind run.entry.program.now schedule.entry count.step) count.step count.steps)) }
{
    let program = run.program;
    let file = run.file;
    let mut walk = begin_walk(alloc, run)?;
    walk.follow_front(alloc, schedule, count.step)?;
    let Walk {
        makers,
        world,
        mut runtime,
        kept,
    } = walk;
    let chart = Chart {
        alloc,
        file,
        program,
        origins: &kept.origins,
    };
    let crowd = Crowd {
        contexts: &world.contexts,
        operators: &makers.operators,
    };
    let mut text = Vec::new(alloc);
    append_state(&chart, &crowd, count, &mut runtime, &mut text)?;
    Ok(text)
}

/// What is kept behind the steps of a schedule.
fn make_walk<'a, S: Interpret + Drop, D: Deeds + Drop>(
    alloc: Global,
    run: Rerun<'a, S, D>,
    schedule: Entries<'_>,
) -> Result<Kept<'a>, WalkFault> {
    let mut walk = begin_walk(alloc, run)?;
    walk.follow_all(alloc, schedule)?;
    let Walk { kept, .. } = walk;
    Ok(kept)
}

/// A run before its first step.
pub(crate) fn begin_walk<'a, S: Interpret + Drop, D: Deeds + Drop>(
    alloc: Global,
    run: Rerun<'a, S, D>,
) -> Result<Walk<'a, Marked<PlainMemory>, S, D>, WalkFault>
    ensures stands { IfOk result (λ walk. Stands ⟦<Marked<PlainMemory> as Memory>⟧.heap
        ⟦<Marked<PlainMemory> as Memory>⟧.grants walk.runtime walk.world) }
    ensures at { IfOk result (λ walk. IsWorld (desk_in ⟦<Marked<PlainMemory> as Memory>⟧.heap
        ⟦<Marked<PlainMemory> as Memory>⟧.grants walk.runtime walk.world)
        (starting_world run.entry.program.now)) }
{
    let Rerun {
        makers,
        program,
        setup,
        file,
    } = run;
    let mut memory = plain_with_marks(alloc);
    let Ok((world, shared)) = start_world(alloc, &mut memory, program, setup) else {
        return Err(WalkFault::Memory);
    };
    Ok(Walk {
        makers,
        world,
        runtime: Runtime { shared, memory },
        kept: Kept::new(alloc, file),
    })
}

impl<M: Memory + Drop, S: Interpret + Drop, D: Deeds + Drop> Walk<'_, M, S, D> {
    /// Makes the steps of a schedule.
    fn follow_all(&mut self, alloc: Global, schedule: Entries<'_>) -> Result<(), WalkFault>
        requires stands { Stands M.heap M.grants self.old.runtime self.old.world }
        ensures stands { OnOk result (Stands M.heap M.grants self.new.runtime self.new.world) }
        ensures walked { OnOk result ((w : TheWorld)
            → IsWorld (desk_in M.heap M.grants self.old.runtime self.old.world) w
            → IsWorld (desk_in M.heap M.grants self.new.runtime self.new.world)
            (walked_all w (moves schedule.entry))) }
    {
        let mut left = schedule;
        while let Some(entry) = left.next() {
            self.follow(alloc, entry)?;
        }
        Ok(())
    }

    /// Makes so many of the first steps of a schedule, or all where it has fewer.
    pub(crate) fn follow_front(
        &mut self,
        alloc: Global,
        schedule: Entries<'_>,
        steps: u64,
    ) -> Result<(), WalkFault>
        requires stands { Stands M.heap M.grants self.old.runtime self.old.world }
        ensures stands { OnOk result (Stands M.heap M.grants self.new.runtime self.new.world) }
        ensures walked { OnOk result ((w : TheWorld)
            → IsWorld (desk_in M.heap M.grants self.old.runtime self.old.world) w
            → IsWorld (desk_in M.heap M.grants self.new.runtime self.new.world)
            (walked_all w (take steps (moves schedule.entry)))) }
    {
        let mut left = schedule;
        let mut more = steps;
        while let Some(entry) = left.next() {
            if more < u64::from(entry.steps) {
                self.follow(alloc, front_of(entry, more))?;
                return Ok(());
            }
            self.follow(alloc, entry)?;
            more -= u64::from(entry.steps);
        }
        Ok(())
    }

    /// Makes the steps of an entry.
    fn follow(&mut self, alloc: Global, entry: Entry) -> Result<(), WalkFault>
        requires stands { Stands M.heap M.grants self.old.runtime self.old.world }
        ensures stands { OnOk result (Stands M.heap M.grants self.new.runtime self.new.world) }
        ensures walked { OnOk result ((w : TheWorld)
            → IsWorld (desk_in M.heap M.grants self.old.runtime self.old.world) w
            → IsWorld (desk_in M.heap M.grants self.new.runtime self.new.world)
            (walked_all w (moves_of entry entry.steps))) }
    {
        for number in 0..entry.steps {
            let (refused, shown) = way_of(entry, number);
            if !self.try_step(alloc, entry.context, refused, shown)? {
                // No step of the entry is made behind one that isn't.
                self.kept.pass(u64::from(entry.steps - number - 1));
                return Ok(());
            }
        }
        Ok(())
    }

    /// Makes a step of a context, if it is ready, and tells whether it is.
    pub(crate) fn try_step(
        &mut self,
        alloc: Global,
        context: u32,
        refused: bool,
        shown: Option<(i32, i32)>,
    ) -> Result<bool, WalkFault>
        requires stands { Stands M.heap M.grants self.old.runtime self.old.world }
        ensures stands { OnOk result (Stands M.heap M.grants self.new.runtime self.new.world) }
        ensures walked { OnOk result ((w : TheWorld)
            → IsWorld (desk_in M.heap M.grants self.old.runtime self.old.world) w
            → IsWorld (desk_in M.heap M.grants self.new.runtime self.new.world)
            (walked w (move_of context refused shown))) }
        ensures ready { IfOk result (λ is_ready. (w : TheWorld)
            → IsWorld (desk_in M.heap M.grants self.old.runtime self.old.world) w
            → locks.is_ready (without_lines w) context ≡ is_ready) }
    {
        self.world.contexts.has_faulted = false;
        self.kept.pass(1);
        let is_ready = self
            .makers
            .operators
            .is_ready(context, &self.world.contexts, &mut self.runtime);
        if is_ready {
            self.step(alloc, context, refused, shown)?;
        }
        Ok(is_ready)
    }

    /// Makes a step of a context that is ready.
    fn step(
        &mut self,
        alloc: Global,
        context: u32,
        refused: bool,
        shown: Option<(i32, i32)>,
    ) -> Result<(), WalkFault>
        requires stands { Stands M.heap M.grants self.old.runtime self.old.world }
        requires ready { (w : TheWorld)
            → IsWorld (desk_in M.heap M.grants self.old.runtime self.old.world) w
            → locks.is_ready w context ≡ true }
        ensures stands { OnOk result (Stands M.heap M.grants self.new.runtime self.new.world) }
        ensures made { OnOk result ((w : TheWorld)
            → IsWorld (desk_in M.heap M.grants self.old.runtime self.old.world) w
            → IsWorld (desk_in M.heap M.grants self.new.runtime self.new.world)
            (after_move w (move_of context refused shown))) }
    {
        let known = known_of(context, &self.kept.seats, &self.world, &mut self.runtime);
        let attempt = Attempt {
            slot: Slot::of(context),
            refused,
        };
        let Ok(_note) = self.world.step(
            &mut self.makers,
            &mut self.runtime,
            context,
            attempt,
            shown,
        )
        else {
            return Err(fault_of(&mut self.runtime));
        };
        self.kept
            .behind(alloc, known, &self.world, &mut self.runtime)?;
        Ok(())
    }
}

/// An entry of so many of the first steps of another, which are ordinary ones: it has more.
fn front_of(entry: Entry, steps: u64) -> Entry
    requires { steps < entry.steps }
    ensures { moves_of result result.steps ≡ take steps (moves_of entry entry.steps) }
{
    Entry {
        context: entry.context,
        steps: steps as u32,
        refused: false,
        shown: None,
    }
}

/// Whether the step of an entry behind so many of it is refused, and what it is shown: all but the
/// last are ordinary ones.
pub(crate) fn way_of(entry: Entry, number: u32) -> (bool, Option<(i32, i32)>)
    requires { number < entry.steps }
    ensures { move_of entry.context result.0 result.1
        ≡ (if number + 1 == entry.steps then last_move entry else plain_move entry.context) }
{
    if number + 1 == entry.steps {
        (entry.refused, entry.shown)
    } else {
        (false, None)
    }
}

/// Why a step isn't made.
fn fault_of<M: Memory>(runtime: &mut Runtime<M>) -> WalkFault {
    let used = runtime.memory.used();
    if runtime.memory.size() - used < MOST_ASKED {
        WalkFault::TooLarge
    } else {
        WalkFault::Memory
    }
}
