//! Runs of a program by workers, with a collector on a thread of its own, or with one that works
//! between steps.

ghost use Rattle.std.specs.Prelude.{◌≡◌, ◌≢◌, ◌↔◌, false, Err, IfOk};
ghost use Rattle.ps_core_machine.specs.Steps.{start};
ghost use Rattle.ps_mem.specs.Bounded.{bounded_space};
ghost use Rattle.ps_mem.specs.Heap.{empty_heap};
ghost use Rattle.ps_core_laws.specs.Memory.{heap_of};
ghost use Rattle.ps_ctx_start.specs.Starts.{IsEmptyHeap};
ghost use Rattle.ps_vault.specs.Reports.{bounds_of, IsBounded, IsRunIn, IsWithin};
ghost use Rattle.ps_run_workers.specs.Batons.{HasEnded, beginning};
ghost use Rattle.ps_run_workers.specs.Slices.{HasBegun};

use crate::batons::Baton;
use crate::gates::{Gate, Gated, GatedCollector};
use crate::loops::{Desk, work_all, work_all_serially};
use crate::origins::Origin;
use crate::serial::SerialBaton;
use crate::serving::Lent;
use crate::standing::Standing;
use ps_core_laws::collected::CollectedMemory;
use ps_core_laws::sides::{Collects, LoggedMemory, Past, Works};
use ps_ctx::deeds::Deeds;
use ps_ctx::makers::Makers;
use ps_gc::{CollectedSpace, Inside, Naming, named_seats};
use ps_gc_roots::ROOT_LIMIT;
use ps_mem::Memory;
use ps_mem::marked::Marked;
use ps_step_interpreter::interprets::Interpret;
use ps_table::{GcSeat, PlainWords, SharedSeats, VmSeat};
use ps_vault::{Config, Entry, Job, NoViewer, Report, RootList, RunFault, Screen, Viewer, Watched};
use std::alloc::{AllocError, Global};
use std::hash::RandomState;
use std::marker::Brand;
use std::sync::{Mutex, Wait};
use std::thread::Threads;

/// A run that stands, in a space whose collector works between steps.
pub type SpaceRun<S, D> = Standing<Marked<CollectedSpace<PlainWords>>, S, D, Past<Inside>>;

/// A run that can't begin for want of memory.
fn no_memory<V: Viewer + Drop>(screen: Screen<V>) -> Watched<V>
    ensures report { result.report ≡ Err RunFault.Memory }
    ensures screen { result.screen ≡ screen }
{
    Watched {
        report: Err(RunFault::Memory),
        screen,
    }
}

/// Runs a program over a memory of the configuration's size, in which nothing stands or was moved,
/// with its collector on a thread beside the workers'. The run picks its name, which is of what it
/// begins with.
fn run_beside<
    O: Origin + Send + Sync,
    M: LoggedMemory + Drop + Send,
    C: Collects<M> + Works + Drop + Send,
    S: Interpret + Drop + Send,
    D: Deeds + Drop + Send,
    V: Viewer + Drop + Send,
    R: Threads + Wait + Sync,
>(rt: &R, alloc: Global, sides: (M, C), job: Job<'_, S, D>, screen: Screen<V>) -> Watched<V>
    requires empty { IsEmptyHeap (M.heap sides.0) }
    requires sized { (M.heap sides.0).space.size ≡ job.config.space }
    requires unmoved { (M.heap sides.0).space.flips ≡ 0 }
    requires within { IsWithin job.config }
    requires start { O.start ≡ beginning job.program.now job.config screen }
    requires nothing { screen.shown ≡ 0 }
    requires going { screen.failed ≡ false }
    ensures ended { HasEnded S.asks O.start result.report result.screen }
    ensures fault { result.report ≢ Err RunFault.Config }
{
    let workers = job.config.workers;
    let Ok(roots) = RootList::new(alloc) else {
        return no_memory(screen);
    };
    let (memory, collector) = sides;
    let marked = Marked::new(alloc, memory);
    let baton = match Baton::<O, Marked<M>, S, D, V>::new(alloc, marked, job, screen) {
        Ok(baton) => baton,
        Err(screen) => return no_memory(screen),
    };
    let desk = Desk::new(baton);
    let lent = Lent {
        collector: Past(collector),
        roots,
    };
    work_all(rt, &desk, lent, workers);
    let Desk { baton, .. } = desk;
    baton.into_inner().into_report()
}

/// Over the two seats of a table of this name.
fn run_named<
    J: Naming + Send + Sync,
    S: Interpret + Drop + Send,
    D: Deeds + Drop + Send,
    V: Viewer + Drop + Send,
    R: Threads + Wait + Sync,
>(
    rt: &R,
    alloc: Global,
    seats: (VmSeat, GcSeat),
    job: Job<'_, S, D>,
    screen: Screen<V>,
) -> Watched<V>
    requires within { IsWithin job.config }
    requires vm_named { seats.0.seat.table_id ≡ J.table }
    requires gc_named { seats.1.seat.table_id ≡ J.table }
    requires starts { seats.1.seat.me.0.gc ≡ (start job.config.space).gc }
    requires heap { heap_of seats.0.seat.me.0.vm ≡ empty_heap (bounded_space job.config.space) }
    requires nothing { screen.shown ≡ 0 }
    requires going { screen.failed ≡ false }
    ensures ended { HasEnded S.asks
        (beginning job.entry.program.now job.entry.config screen) result.report result.screen }
    ensures fault { result.report ≢ Err RunFault.Config }
{
    let (vm, gc) = seats;
    let space = job.config.space;
    let Ok(sides) = named_seats::<J>(alloc, vm, gc, space, ROOT_LIMIT) else {
        return no_memory(screen);
    };
    run_beside::<Brand, _, _, S, D, V, R>(rt, alloc, sides, job, screen)
}

/// The same, where each store of a worker is told to a gate before it is made, and no one is shown
/// anything.
fn run_named_gated<
    J: Naming + Send + Sync,
    S: Interpret + Drop + Send,
    D: Deeds + Drop + Send,
    G: Gate + Sync,
    R: Threads + Wait + Sync,
>(
    rt: &R,
    alloc: Global,
    seats: (VmSeat, GcSeat),
    job: Job<'_, S, D>,
    gate: &G,
) -> Result<Report, RunFault>
    requires within { IsWithin job.config }
    requires vm_named { seats.0.seat.table_id ≡ J.table }
    requires gc_named { seats.1.seat.table_id ≡ J.table }
    requires starts { seats.1.seat.me.0.gc ≡ (start job.config.space).gc }
    requires heap { heap_of seats.0.seat.me.0.vm ≡ empty_heap (bounded_space job.config.space) }
    ensures fault { result ≢ Err RunFault.Config }
    ensures run { IfOk result (IsRunIn S.asks (bounded_space job.entry.config.space)
        job.entry.program.now job.entry.config.steps) }
    ensures bounded { IfOk result (IsBounded (bounds_of job.entry.config)) }
{
    let (vm, gc) = seats;
    let space = job.config.space;
    let Ok((memory, collector)) = named_seats::<J>(alloc, vm, gc, space, ROOT_LIMIT) else {
        return Err(RunFault::Memory);
    };
    let sides = (
        Gated::new(memory, gate),
        GatedCollector::new(collector, gate),
    );
    let screen = Screen::new(NoViewer);
    run_beside::<Brand, _, _, S, D, NoViewer, R>(rt, alloc, sides, job, screen).report
}

/// Runs a program with so many workers, for at most so many steps, in a space of the configuration's
/// size. A collector copies what lives there on a thread of its own, while they run.
///
/// The fault is `Config` where a number is out of its range. It is `Memory` where the room that the
/// run starts with can't be had, or a thread can't be started. A growth that is refused later ends
/// the run, and the report has what was made so far. The outcome is `Memory` only where the step of
/// a ready context may want a growth that is no object's, or prints more than the run may, or the
/// schedule has no room for it or would have more entries than it may.
pub fn run<S: Interpret + Drop + Send, D: Deeds + Drop + Send, R: Threads + Wait + Sync>(
    rt: &R,
    alloc: Global,
    job: Job<'_, S, D>,
) -> Result<Report, RunFault>
    ensures config { (result ≡ Err RunFault.Config) ↔ ¬ IsWithin job.entry.config }
    ensures run { IfOk result (IsRunIn S.asks (bounded_space job.entry.config.space)
        job.entry.program.now job.entry.config.steps) }
    ensures bounded { IfOk result (IsBounded (bounds_of job.entry.config)) }
{
    run_shown(rt, alloc, job, Screen::new(NoViewer)).report
}

/// As `run`, but that who watches is shown what is printed, behind each hold of the lock once all
/// threads are started. Where that fails the run is cut: it is one with the steps that were made as
/// its budget.
pub fn run_shown<
    S: Interpret + Drop + Send,
    D: Deeds + Drop + Send,
    V: Viewer + Drop + Send,
    R: Threads + Wait + Sync,
>(rt: &R, alloc: Global, job: Job<'_, S, D>, screen: Screen<V>) -> Watched<V>
    requires nothing { screen.shown ≡ 0 }
    requires going { screen.failed ≡ false }
    ensures config { (result.report ≡ Err RunFault.Config) ↔ ¬ IsWithin job.entry.config }
    ensures unbegun { result.report ≡ Err RunFault.Config → result.screen ≡ screen }
    ensures ended { HasEnded S.asks
        (beginning job.entry.program.now job.entry.config screen) result.report result.screen }
{
    if !job.config.is_within() {
        return Watched {
            report: Err(RunFault::Config),
            screen,
        };
    }
    let Ok(seats) = SharedSeats::new(alloc, job.config.space) else {
        return no_memory(screen);
    };
    run_named::<Brand, S, D, V, R>(rt, alloc, seats, job, screen)
}

/// As `run`; each store and copy of a worker is told to a gate before it is made, and what the
/// collector's thread copied.
pub fn run_gated<
    S: Interpret + Drop + Send,
    D: Deeds + Drop + Send,
    G: Gate + Sync,
    R: Threads + Wait + Sync,
>(rt: &R, alloc: Global, job: Job<'_, S, D>, gate: &G) -> Result<Report, RunFault>
    ensures config { (result ≡ Err RunFault.Config) ↔ ¬ IsWithin job.entry.config }
    ensures run { IfOk result (IsRunIn S.asks (bounded_space job.entry.config.space)
        job.entry.program.now job.entry.config.steps) }
    ensures bounded { IfOk result (IsBounded (bounds_of job.entry.config)) }
{
    if !job.config.is_within() {
        return Err(RunFault::Config);
    }
    let Ok(seats) = SharedSeats::new(alloc, job.config.space) else {
        return Err(RunFault::Memory);
    };
    run_named_gated::<Brand, S, D, G, R>(rt, alloc, seats, job, gate)
}

/// Runs a program with so many workers over a memory of the configuration's size that is collected
/// between steps, in which nothing stands. The faults are those of `run`. The run picks its name.
fn run_serial_in<
    O: Origin + Send + Sync,
    M: CollectedMemory + Drop + Send,
    S: Interpret + Drop + Send,
    D: Deeds + Drop + Send,
    C: Collects<M> + Drop + Send,
    R: Threads + Wait + Sync,
>(
    rt: &R,
    alloc: Global,
    sides: (M, C),
    job: Job<'_, S, D>,
    screen: Screen<NoViewer>,
) -> Result<Report, RunFault>
    requires empty { IsEmptyHeap (M.heap sides.0) }
    requires sized { (M.heap sides.0).space.size ≡ job.config.space }
    requires unmoved { (M.heap sides.0).space.flips ≡ 0 }
    requires start { O.start ≡ beginning job.program.now job.config screen }
    requires nothing { screen.shown ≡ 0 }
    requires going { screen.failed ≡ false }
    requires unseen { screen.watching ≡ false }
    ensures config { (result ≡ Err RunFault.Config) ↔ ¬ IsWithin job.entry.config }
    ensures run { IfOk result (IsRunIn S.asks (bounded_space job.entry.config.space)
        job.entry.program.now job.entry.config.steps) }
    ensures bounded { IfOk result (IsBounded (bounds_of job.entry.config)) }
{
    let workers = job.config.workers;
    let baton = SerialBaton::<O, M, S, D, C>::new(alloc, sides, job, screen)?;
    let shared = Mutex::new(baton);
    work_all_serially(rt, &shared, workers);
    shared.into_inner().into_report()
}

/// A space of the configuration's size, in which nothing stands. `AllocError`: it can't be had.
fn space_of(alloc: Global, config: Config) -> Result<CollectedSpace<PlainWords>, AllocError>
    requires { IsWithin config }
    ensures empty { IfOk result
        (λ space. IsEmptyHeap (⟦<CollectedSpace<PlainWords> as Memory>⟧.heap space)) }
    ensures sized { IfOk result (λ space.
        (⟦<CollectedSpace<PlainWords> as Memory>⟧.heap space).space.size ≡ config.space) }
    ensures unmoved { IfOk result (λ space.
        (⟦<CollectedSpace<PlainWords> as Memory>⟧.heap space).space.flips ≡ 0) }
{
    CollectedSpace::new(alloc, config.space)
}

/// As `run`, but that the collector has no thread: it works between steps, under the lock. The words
/// are the run's own then, not atomic ones.
pub fn run_serial<S: Interpret + Drop + Send, D: Deeds + Drop + Send, R: Threads + Wait + Sync>(
    rt: &R,
    alloc: Global,
    job: Job<'_, S, D>,
) -> Result<Report, RunFault>
    ensures config { (result ≡ Err RunFault.Config) ↔ ¬ IsWithin job.entry.config }
    ensures run { IfOk result (IsRunIn S.asks (bounded_space job.entry.config.space)
        job.entry.program.now job.entry.config.steps) }
    ensures bounded { IfOk result (IsBounded (bounds_of job.entry.config)) }
{
    if !job.config.is_within() {
        return Err(RunFault::Config);
    }
    let Ok(memory) = space_of(alloc, job.config) else {
        return Err(RunFault::Memory);
    };
    let screen = Screen::new(NoViewer);
    run_serial_in::<Brand, _, S, D, Inside, R>(rt, alloc, (memory, Inside), job, screen)
}

/// As `run_serial`, made by the caller's own thread, so with no lock: it needs no handle, and
/// returns. The number `workers` must be in its range; none is started. The first turns are of the
/// contexts that a schedule has, in its order, as long as each may go on. Only whose turn it is is
/// taken from it.
pub fn run_alone<S: Interpret + Drop, D: Deeds + Drop>(
    alloc: Global,
    job: Job<'_, S, D>,
    given: &[Entry],
) -> Result<Report, RunFault>
    ensures config { (result ≡ Err RunFault.Config) ↔ ¬ IsWithin job.entry.config }
    ensures run { IfOk result (IsRunIn S.asks (bounded_space job.entry.config.space)
        job.entry.program.now job.entry.config.steps) }
    ensures bounded { IfOk result (IsBounded (bounds_of job.entry.config)) }
{
    if !job.config.is_within() {
        return Err(RunFault::Config);
    }
    let Ok(memory) = space_of(alloc, job.config) else {
        return Err(RunFault::Memory);
    };
    run_alone_in::<Brand, _, S, D, Inside>(
        alloc,
        (memory, Inside),
        job,
        given,
        Screen::new(NoViewer),
    )
}

/// A run that is made alone, before its first step: its slices are made by whoever has it. Of the
/// numbers `steps` and `workers` must be in their ranges, and aren't looked at. The faults are those
/// of `run`.
pub fn stand<S: Interpret + Drop, D: Deeds + Drop>(
    alloc: Global,
    job: Job<'_, S, D>,
) -> Result<SpaceRun<S, D>, RunFault>
    ensures config { (result ≡ Err RunFault.Config) ↔ ¬ IsWithin job.entry.config }
    ensures begun { IfOk result (HasBegun job.entry.program.now job.entry.config) }
{
    if !job.config.is_within() {
        return Err(RunFault::Config);
    }
    let Ok(memory) = space_of(alloc, job.config) else {
        return Err(RunFault::Memory);
    };
    let marked = Marked::new(alloc, memory);
    Standing::new(alloc, (marked, Past(Inside)), job)
}

/// Over a memory of the configuration's size in which nothing stands. The run picks its name.
fn run_alone_in<
    O: Origin,
    M: CollectedMemory + Drop,
    S: Interpret + Drop,
    D: Deeds + Drop,
    C: Collects<M> + Drop,
>(
    alloc: Global,
    sides: (M, C),
    job: Job<'_, S, D>,
    given: &[Entry],
    screen: Screen<NoViewer>,
) -> Result<Report, RunFault>
    requires empty { IsEmptyHeap (M.heap sides.0) }
    requires sized { (M.heap sides.0).space.size ≡ job.config.space }
    requires unmoved { (M.heap sides.0).space.flips ≡ 0 }
    requires start { O.start ≡ beginning job.program.now job.config screen }
    requires nothing { screen.shown ≡ 0 }
    requires going { screen.failed ≡ false }
    requires unseen { screen.watching ≡ false }
    ensures config { (result ≡ Err RunFault.Config) ↔ ¬ IsWithin job.entry.config }
    ensures run { IfOk result (IsRunIn S.asks (bounded_space job.entry.config.space)
        job.entry.program.now job.entry.config.steps) }
    ensures bounded { IfOk result (IsBounded (bounds_of job.entry.config)) }
{
    let mut baton = SerialBaton::<O, M, S, D, C>::new(alloc, sides, job, screen)?;
    baton.follow(given);
    for _ in 0..u64::MAX {
        if baton.turns() {
            break;
        }
    }
    baton.into_report()
}
