//! A run that stands between its host's calls, which make slices of it.
//!
//! It keeps (`Rests`) what a baton keeps, of a run that goes on from where it is. So each slice is the
//! run of a baton of its own, which is lent the program while it makes steps.

ghost use Rattle.std.specs.Prelude.{◌≡◌, ◌≤◌, ◌↔◌, [], IfOk, Err};
ghost use Rattle.ps_language.specs.Schedules.{count_of};
ghost use Rattle.ps_ctx_start.specs.Starts.{IsEmptyHeap};
ghost use Rattle.ps_ctx_readers.specs.Values.{IsTold};
ghost use Rattle.ps_vault.specs.Parking.{IsParked, story_of};
ghost use Rattle.ps_vault.specs.Reports.{IsWithin};
ghost use Rattle.ps_vault.specs.Stories.{world_at};
ghost use Rattle.ps_run_workers.specs.Batons as batons;
ghost use Rattle.ps_run_workers.specs.Slices.{at_pause, begun, budget_behind, no_sight, start_at, HasBegun, HasCome, IsSlice};

use crate::batons::Baton;
use crate::origins::Origin;
use crate::pauses::Paused;
use crate::serving::Lent;
use ps_core_laws::collected::{CollectedMemory, Counts};
use ps_core_laws::sides::{Collects, LoggedMemory};
use ps_ctx::deeds::Deeds;
use ps_ctx_readers::views::{Place, ToldValue, Untold};
use ps_mem::Memory;
use ps_run_schedules::Schedule;
use ps_step_interpreter::interprets::Interpret;
use ps_vault::{Config, Job, NoViewer, Outcome, RootList, RunFault, Screen};
use std::alloc::{AllocError, Global};
use std::marker::{Brand, Model};

/// A run that stands between calls, with its program and its collector: seen as a vault is.
#[derive(Drop)]
pub struct Standing<M: Memory + Drop, S: Interpret + Drop, D: Deeds + Drop, C: Drop> {
    program: Vec<u8>,
    paused: Paused<M, S, D>,
    lent: Lent<C>,
}

impl<M: Memory + Drop, S: Interpret + Drop, D: Deeds + Drop, C: Drop> Model
    for Standing<M, S, D, C> {
    ghost use Rattle.ps_vault.specs.Parking.{story_of};
    ghost use Rattle.ps_vault.specs.Stories.{Story};
    ghost use Rattle.ps_run_workers.specs.Slices.{Rests};

    ghost Value = { Story };

    ghost view = { λ s. story_of M.heap M.grants s.program.items s.paused.parked };

    ghost invariant = { λ s. Rests S.asks M.heap M.grants s.program.items s.paused };
}

/// A run before its first step, over a memory of the configuration's size in which nothing stands.
/// It picks its name. `AllocError`: the room that it starts with can't be had.
fn begin_in<O: Origin, M: LoggedMemory + Drop, S: Interpret + Drop, D: Deeds + Drop>(
    alloc: Global,
    memory: M,
    job: Job<'_, S, D>,
    screen: Screen<NoViewer>,
) -> Result<Paused<M, S, D>, AllocError>
    requires empty { IsEmptyHeap (M.heap memory) }
    requires sized { (M.heap memory).space.size ≡ job.config.space }
    requires unmoved { (M.heap memory).space.flips ≡ 0 }
    requires numbers { IsWithin job.config }
    requires unseen { screen ≡ no_sight }
    requires start { O.start ≡ begun job.program.now job.config }
    ensures come { IfOk result (HasCome S.asks M.heap M.grants O.start) }
    ensures fresh { IfOk result (λ paused. paused.parked.schedule.items ≡ []) }
{
    match Baton::<O, M, S, D, NoViewer>::new(alloc, memory, job, screen) {
        Ok(baton) => Ok(baton.pause()),
        Err(_) => Err(AllocError),
    }
}

/// Makes the turns of a slice: until no step is left of those that its numbers say, or the run is
/// over. It picks its name.
fn advance_in<
    O: Origin,
    M: CollectedMemory + Drop,
    S: Interpret + Drop,
    D: Deeds + Drop,
    C: Collects<M>,
>(
    program: &[u8],
    paused: Paused<M, S, D>,
    lent: &mut Lent<C>,
    screen: Screen<NoViewer>,
) -> Paused<M, S, D>
    requires parked { IsParked M.heap M.grants program.now paused.parked }
    requires keeps { batons.Keeps S.asks O.start (at_pause
        (story_of M.heap M.grants program.now paused.parked) paused.config paused.made screen) }
    ensures { HasCome S.asks M.heap M.grants O.start result }
{
    let mut baton = Baton::<O, M, S, D, NoViewer>::resume(program, paused, screen);
    for _ in 0..u64::MAX {
        if baton.serial_turn(lent) {
            break;
        }
    }
    baton.pause()
}

impl<M: LoggedMemory + Drop, S: Interpret + Drop, D: Deeds + Drop, C: Drop> Standing<M, S, D, C> {
    /// A run before its first step, over a memory of the configuration's size in which nothing
    /// stands; it has a copy of the program. Of the numbers `steps` and `workers` must be in their
    /// ranges, and aren't looked at.
    ///
    /// `Config`: a number is out of its range. `Memory`: the room that it starts with can't be had.
    pub fn new(
        alloc: Global,
        sides: (M, C),
        job: Job<'_, S, D>,
    ) -> Result<Standing<M, S, D, C>, RunFault>
        requires empty { IsEmptyHeap (M.heap sides.0) }
        requires sized { (M.heap sides.0).space.size ≡ job.config.space }
        requires unmoved { (M.heap sides.0).space.flips ≡ 0 }
        ensures config { (result ≡ Err RunFault.Config) ↔ ¬ IsWithin job.entry.config }
        ensures begun { IfOk result (HasBegun job.entry.program.now job.entry.config) }
    {
        if !job.config.is_within() {
            return Err(RunFault::Config);
        }
        let Ok(program) = Vec::from_slice(alloc, job.program) else {
            return Err(RunFault::Memory);
        };
        let Ok(roots) = RootList::new(alloc) else {
            return Err(RunFault::Memory);
        };
        let (memory, collector) = sides;
        let screen = Screen::new(NoViewer);
        let Ok(paused) = begin_in::<Brand, M, S, D>(alloc, memory, job, screen) else {
            return Err(RunFault::Memory);
        };
        let lent = Lent { collector, roots };
        Ok(Standing {
            program,
            paused,
            lent,
        })
    }
}

impl<M: Memory + Drop, S: Interpret + Drop, D: Deeds + Drop, C: Drop> Standing<M, S, D, C> {
    /// The bytes that it printed so far.
    pub fn printed(&self) -> &[u8]
        ensures { result.now ≡ (world_at self.now).printed }
    {
        self.paused.parked.printed()
    }

    /// How many steps it made.
    pub fn made(&self) -> u32
        ensures { result ≡ count_of self.now.schedule }
    {
        self.paused.made
    }

    /// How much the collector has done so far.
    pub fn collected(&self) -> Counts {
        self.paused.counts
    }

    /// Its schedule so far.
    pub fn schedule(&self) -> &Schedule
        ensures { result.now.items ≡ self.now.schedule }
    {
        self.paused.parked.schedule()
    }

    /// The run, and what it tells of what one of its contexts has at a place. Its bytes, which are those
    /// of a string, or of the name that a name or an operator is, are written to the front of a room,
    /// if it has place for all of them.
    ///
    /// `NoContext`: none has this identifier, or it is ended. `NoValue`: the context has no value
    /// there. Then nothing is written.
    pub fn tell(
        self,
        context: u32,
        place: Place<'_>,
        room: &mut [u8],
    ) -> (Standing<M, S, D, C>, Result<ToldValue, Untold>)
        ensures same { result.0 ≡ self }
        ensures told { IsTold (world_at self) context place.entry room.old room.new result.1 }
    {
        let Standing {
            program,
            paused,
            lent,
        } = self;
        let (paused, told) = paused.tell(program.as_slice(), context, place, room);
        let standing = Standing {
            program,
            paused,
            lent,
        };
        (standing, told)
    }
}

impl<
    M: CollectedMemory + Drop,
    S: Interpret + Drop,
    D: Deeds + Drop,
    C: Collects<M> + Drop,
> Standing<M, S, D, C> {
    /// A slice: at most so many steps more, up to 4,294,967,295 in all. Where it lies can't be seen
    /// in bytes or schedule: a turn in which it ends goes on with the next one, and the collector
    /// acts behind turns. What it came to is told as of a run that ends here; behind `Memory` the next
    /// slice tries again. None: more turns were made than there can be steps.
    pub fn advance(self, steps: u32) -> (Standing<M, S, D, C>, Option<Outcome>)
        requires { 1 ≤ steps }
        ensures { IsSlice S.asks (budget_behind self.schedule steps) self result.0 result.1 }
    {
        let Standing {
            program,
            paused,
            mut lent,
        } = self;
        let config = Config {
            steps: paused.made.saturating_add(steps),
            ..paused.config
        };
        let further = Paused { config, ..paused };
        let screen = Screen::new(NoViewer);
        let bytes = program.as_slice();
        let paused = advance_in::<Brand, M, S, D, C>(bytes, further, &mut lent, screen);
        let outcome = paused.outcome;
        let standing = Standing {
            program,
            paused,
            lent,
        };
        (standing, outcome)
    }
}
