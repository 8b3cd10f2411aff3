//! A run with its own schedule, made step by step, that knows which contexts are ready.

ghost use Rattle.std.specs.Prelude.{◌≡◌, ◌≤◌, ◌∷◌, ◌++◌, [], length, true, IfNone, IfOk, IfSome, OnOk, replicate};
ghost use Rattle.ps_language.specs.Locks as locks;
ghost use Rattle.ps_language.specs.Schedules.{moves, plain_move};
ghost use Rattle.ps_language.specs.World.{World as TheWorld};
ghost use Rattle.ps_language.specs.Worlds.{after_move, all_ready, world, IsProper};
ghost use Rattle.ps_ctx_table.specs.Desks.{IsWorld};
ghost use Rattle.ps_cuts.specs.Cuts.{AllPlain};
ghost use Rattle.ps_cuts.specs.Runs.{EndsLike};
ghost use Rattle.ps_vault.specs.Reports.{EndsAs};
ghost use Rattle.ps_worlds.specs.Images.{IsImageOf};
ghost use Rattle.ps_worlds.specs.Runs.{standing, AreReady, IsFirstTrue, IsMade, IsNoneTrue, IsRun};

use crate::images::Image;
use ps_ctx::deeds::Deeds;
use ps_ctx::makers::Makers;
use ps_ctx::starts::start_world;
use ps_ctx::worlds::World;
use ps_cuts::Ending;
use ps_mem::marked::{Marked, plain_with_marks};
use ps_mem::plain::PlainMemory;
use ps_mem::{Memory, Slot};
use ps_ops_state::lent::{Attempt, Runtime, Shared};
use ps_run_schedules::Schedule;
use ps_step_interpreter::interprets::Interpret;
use ps_vault::{Outcome, Task};
use std::alloc::{AllocError, Global};

/// How many entries find room in a schedule from the start.
const FIRST_ENTRIES: usize = 64;

/// A run under way.
#[derive(Drop)]
pub struct WorldRun<'a, M: Memory + Drop, S: Interpret + Drop, D: Deeds + Drop> {
    pub(crate) makers: Makers<S, D>,
    pub(crate) world: World,
    pub(crate) runtime: Runtime<'a, M>,
    /// Its steps so far.
    pub(crate) path: Schedule,
    /// Whether each context is ready, by identifiers; looked for behind steps (`look`).
    pub(crate) ready: Vec<bool>,
}

/// A run over memory that is never collected.
pub type PlainWorldRun<'a, S, D> = WorldRun<'a, Marked<PlainMemory>, S, D>;

/// A schedule with the same entries. `AllocError`: its room can't be had.
fn copy_of(alloc: Global, schedule: &Schedule) -> Result<Schedule, AllocError>
    ensures { IfOk result (λ copy. copy.items ≡ schedule.now.items) }
{
    let count = schedule.len();
    let mut copy = Schedule::with_capacity(alloc, count, count as u64)?;
    let mut left = schedule.entries();
    while let Some(entry) = left.next() {
        copy.push(entry);
    }
    Ok(copy)
}

/// The first identifier above another that is ready.
pub(crate) fn next_in(ready: &[bool], after: u32) -> Option<u32>
    requires { length ready.now ≤ 2147483647 }
    ensures some { IfSome result (IsFirstTrue ready.now after) }
    ensures none { IfNone result (IsNoneTrue ready.now after) }
{
    let mut place = after as usize;
    while place < ready.len() {
        if ready[place] {
            return Some(place as u32 + 1);
        }
        place += 1;
    }
    None
}

impl<'a, S: Interpret + Drop, D: Deeds + Drop> WorldRun<'a, Marked<PlainMemory>, S, D> {
    /// A run before its first step, whose schedule may have so many entries. Fails where its first
    /// room can't be had.
    pub(crate) fn new(
        alloc: Global,
        task: Task<'a, S, D>,
        entries: u64,
    ) -> Result<PlainWorldRun<'a, S, D>, AllocError>
        ensures made { IfOk result (λ run. IsMade (standing
            ⟦<Marked<PlainMemory> as Memory>⟧.heap ⟦<Marked<PlainMemory> as Memory>⟧.grants run)) }
        ensures program { IfOk result
            (λ run. run.runtime.shared.program.now ≡ task.entry.program.now) }
        ensures none { IfOk result (λ run. run.path.items ≡ []) }
    {
        let Task {
            makers,
            program,
            setup,
        } = task;
        let mut memory = plain_with_marks(alloc);
        let Ok((world, shared)) = start_world(alloc, &mut memory, program, setup) else {
            return Err(AllocError);
        };
        let path = Schedule::with_capacity(alloc, FIRST_ENTRIES, entries)?;
        Ok(WorldRun {
            makers,
            world,
            runtime: Runtime { shared, memory },
            path,
            ready: Vec::new(alloc),
        })
    }

    /// What tells where it is, beside the words that stood at the start. Fails where a growth is
    /// refused.
    pub(crate) fn image(&self, alloc: Global, first: &[u64]) -> Result<Image, AllocError>
        requires { IsMade (standing ⟦<Marked<PlainMemory> as Memory>⟧.heap
            ⟦<Marked<PlainMemory> as Memory>⟧.grants self.now) }
        ensures { IfOk result (λ image. IsImageOf first.now
            (standing ⟦<Marked<PlainMemory> as Memory>⟧.heap
            ⟦<Marked<PlainMemory> as Memory>⟧.grants self.now).held.desk image) }
    {
        Image::of(alloc, &self.world.contexts, &self.runtime, first)
    }

    /// The words that stand. Fails where room for them is refused.
    pub(crate) fn words(&self, alloc: Global) -> Result<Vec<u64>, AllocError> {
        let image = self.runtime.memory.memory.image(alloc)?;
        Ok(image.words)
    }
}

impl<M: Memory + Drop, S: Interpret + Drop, D: Deeds + Drop> WorldRun<'_, M, S, D> {
    /// Whether a context is ready.
    #[inline]
    fn is_ready(&mut self, context: u32) -> bool
        requires { IsMade (standing M.heap M.grants self.old) }
        ensures same { standing M.heap M.grants self.new ≡ standing M.heap M.grants self.old }
        ensures ready { (w : TheWorld)
            → IsWorld (standing M.heap M.grants self.old).held.desk w
            → result ≡ locks.is_ready w context }
        ensures made { self.new.world ≡ self.old.world }
        ensures known { self.new.ready ≡ self.old.ready }
    {
        let operators = &self.makers.operators;
        operators.is_ready(context, &self.world.contexts, &mut self.runtime)
    }

    /// Looks which contexts are ready. Fails where a growth is refused.
    pub(crate) fn look(&mut self) -> Result<(), AllocError>
        requires { IsMade (standing M.heap M.grants self.old) }
        ensures held { (standing M.heap M.grants self.new).held
            ≡ (standing M.heap M.grants self.old).held }
        ensures path { self.new.path ≡ self.old.path }
        ensures ready { OnOk result (AreReady (standing M.heap M.grants self.new)) }
    {
        self.ready.clear();
        let made = self.world.contexts.table.made();
        for place in 0..made {
            let is_ready = self.is_ready(place + 1);
            self.ready.push(is_ready)?;
        }
        Ok(())
    }

    /// Makes an ordinary step of a context that is ready; a `vmstatus` in it is shown zeros. Fails
    /// where a growth is refused, or the schedule may have no entry more.
    pub(crate) fn make(&mut self, context: u32) -> Result<(), AllocError>
        requires made { IsMade (standing M.heap M.grants self.old) }
        requires ready { locks.is_ready
            (world self.old.runtime.shared.program.now self.old.path.items) context ≡ true }
        ensures program { OnOk result (self.new.runtime.shared.program.now
            ≡ self.old.runtime.shared.program.now) }
        ensures made { OnOk result (IsMade (standing M.heap M.grants self.new)) }
        ensures steps { OnOk result (moves self.new.path.items
            ≡ moves self.old.path.items ++ plain_move context ∷ []) }
        ensures at { OnOk result ((w : TheWorld)
            → IsWorld (standing M.heap M.grants self.old).held.desk w
            → locks.is_ready w context ≡ true
            → IsWorld (standing M.heap M.grants self.new).held.desk
            (after_move w (plain_move context))) }
    {
        if !self.path.may_add(context) {
            return Err(AllocError);
        }
        self.path.reserve()?;
        let attempt = Attempt {
            slot: Slot::of(context),
            refused: false,
        };
        let (makers, runtime) = (&mut self.makers, &mut self.runtime);
        let Ok(_) = self.world.step(makers, runtime, context, attempt, None) else {
            return Err(AllocError);
        };
        self.path.note(context, false, None);
        Ok(())
    }

    /// Makes so many steps of a context, each of which can be made. Fails as `make` does.
    fn follow(&mut self, context: u32, steps: u32) -> Result<(), AllocError>
        requires made { IsMade (standing M.heap M.grants self.old) }
        requires ready { all_ready
            (world self.old.runtime.shared.program.now self.old.path.items)
            (replicate steps (plain_move context)) ≡ true }
        ensures program { OnOk result (self.new.runtime.shared.program.now
            ≡ self.old.runtime.shared.program.now) }
        ensures made { OnOk result (IsMade (standing M.heap M.grants self.new)) }
        ensures steps { OnOk result (moves self.new.path.items
            ≡ moves self.old.path.items ++ replicate steps (plain_move context)) }
    {
        let mut left = steps;
        while left > 0 {
            self.make(context)?;
            left -= 1;
        }
        Ok(())
    }

    /// Makes the steps of a schedule, each of which can be made, from the start. Fails as `make`
    /// does.
    pub(crate) fn retrace(&mut self, schedule: &Schedule) -> Result<(), AllocError>
        requires made { IsMade (standing M.heap M.grants self.old) }
        requires none { self.old.path.items ≡ [] }
        requires plain { AllPlain (moves schedule.now.items) }
        requires proper { IsProper self.old.runtime.shared.program.now schedule.now.items }
        ensures program { OnOk result (self.new.runtime.shared.program.now
            ≡ self.old.runtime.shared.program.now) }
        ensures made { OnOk result (IsMade (standing M.heap M.grants self.new)) }
        ensures steps { OnOk result (moves self.new.path.items ≡ moves schedule.now.items) }
    {
        let mut left = schedule.entries();
        while let Some(entry) = left.next() {
            self.follow(entry.context, entry.steps)?;
        }
        Ok(())
    }

    /// Its steps so far. Fails where their room can't be had.
    pub(crate) fn schedule(&self, alloc: Global) -> Result<Schedule, AllocError>
        ensures { IfOk result (λ copy. copy.items ≡ self.now.path.items) }
    {
        copy_of(alloc, &self.path)
    }

    /// How it ended.
    fn outcome(&self) -> Outcome
        requires { AreReady (standing M.heap M.grants self.now) }
        ensures { (w : TheWorld) → IsWorld (standing M.heap M.grants self.now).held.desk w
            → EndsAs w true ⊥ result }
    {
        if self.world.contexts.is_all_over() {
            if self.world.contexts.has_faulted {
                return Outcome::Faulted;
            }
            return Outcome::Finished;
        }
        match next_in(&self.ready, 0) {
            Some(_) => Outcome::StepsOut,
            None => Outcome::AllWaiting,
        }
    }

    /// How it ended, and its schedule.
    pub(crate) fn end(self) -> (Ending, Schedule)
        requires { AreReady (standing M.heap M.grants self) }
        ensures ends { (w : TheWorld)
            → IsWorld (standing M.heap M.grants self.entry).held.desk w
            → EndsLike w result.0 }
        ensures path { result.1 ≡ self.entry.path }
    {
        let outcome = self.outcome();
        let WorldRun { runtime, path, .. } = self;
        let Runtime { shared, .. } = runtime;
        let Shared { printed, .. } = shared;
        let ending = Ending {
            printed: printed.into_bytes(),
            outcome,
        };
        (ending, path)
    }
}
