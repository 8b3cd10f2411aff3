//! All orders of a program's steps with few cuts, and the lines that tell of them.

ghost use Rattle.std.specs.Prelude.{◌≡◌, ◌+◌, ◌<◌, ◌≤◌, ◌^◌, ◌⊎◌, ◌++◌, ℕ, List, true, false, None, Some, All, map, length, IfOk, IfSome, OnOk};
ghost use Rattle.ps_language.specs.Schedules.{moves};
ghost use Rattle.ps_cuts.specs.Cuts.{IsOrder, cuts};
ghost use Rattle.ps_cuts.specs.Runs.{IsToldOf};
ghost use Rattle.ps_run_options.specs.CommandLine.{IsExploration};
ghost use Rattle.ps_vault.specs.Reports.{IsWithin};
ghost use Rattle.ps_run.specs.Driving as driving;
ghost use Rattle.ps_run.specs.Driving.{IsDriven, IsFileFault, IsRecordName, IsUnread, asked_of, config_in, names_of, records_of};
ghost use Rattle.ps_run.specs.Orders as orders;
ghost use Rattle.ps_run.specs.Orders.{AreCutsTold, AreLinesBehind, AreOrderLines, AreOrders, AreTold, Orders, report_of};

use crate::endings::{ManyRuns, finish_all};
use crate::files::FileSet;
use crate::keeping::{Records, keep_program};
use crate::making::config_of;
use crate::outputs::{Flushing, Telling};
use crate::outside::Outside;
use crate::places::program_name;
use crate::progress::Progress;
use crate::reading::read_program;
use crate::statuses::{Status, called, end};
use crate::systems::System;
use crate::writing::append_runs;
use ps_ctx::deeds::Deeds;
use ps_ctx::makers::Makers;
use ps_cuts::{Ending, Runs, cuts_of, explore_orders};
use ps_run_options::{Exploration, Options, OrderBounds};
use ps_run_schedules::{Schedule, steps_of};
use ps_searches::{Bounds, Found, Told, Watcher};
use ps_step_interpreter::interprets::Interpret;
use ps_vault::{Report, Setup, Task};
use ps_views::{EndingLine, Reach, append_ending, append_reach};
use ps_walks::{Rerun, cut_lines_of};
use std::alloc::{AllocError, Global};

/// Shows how far a search of all orders is.
#[derive(Drop)]
pub(crate) struct Shown<P: Progress + Drop> {
    pub(crate) progress: P,
}

impl<P: Progress + Drop> Watcher for Shown<P> {
    fn run_ended(&mut self, runs: u64, endings: usize, price: u32) {
        self.progress.show_orders(runs, endings, price);
    }

    fn world_followed(&mut self, worlds: usize, followed: usize, endings: usize) {
        self.progress.show_worlds(worlds, followed, endings);
    }

    fn search_ended(&mut self) {
        self.progress.clear();
    }
}

/// What is told of an ending, which is behind so many others.
fn told_as(behind: usize, ending: &Ending, told: &Told<Schedule>) -> EndingLine
    requires few { behind < 2 ^ 63 }
    ensures { result ≡ orders.told_as (behind + 1) (ending.now, told.now) }
{
    EndingLine {
        number: behind as u64 + 1,
        cuts: told.price,
        steps: steps_of(told.schedule.entries()),
        printed: ending.printed.len() as u64,
    }
}

/// Appends the lines of the cuts of an order, if it has any: its run is made again. Fails for want
/// of memory; the search had as much for that run.
fn append_cuts<S: Interpret + Clone + Drop, D: Deeds + Clone + Drop>(
    runs: &Runs<'_, S, D>,
    file: &[u8],
    told: &Told<Schedule>,
    to: &mut Vec<u8>,
) -> Result<(), AllocError>
    requires order { (steps : ℕ) × (steps < 2 ^ 32)
        × IsOrder runs.now.task.program.now steps told.now.schedule.items }
    requires costs { cuts runs.now.task.program.now (moves told.now.schedule.items)
        ≡ told.now.price }
    ensures { OnOk result ((lines : List ℕ) × (to.new.items ≡ to.old.items ++ lines)
        × AreCutsTold file.now runs.now.task.program.now told.now.schedule.items lines) }
{
    if told.price == 0 {
        return Ok(());
    }
    let cuts = cuts_of(runs, &told.schedule)?;
    let run = Rerun {
        makers: runs.makers()?,
        program: runs.task.program,
        setup: runs.task.setup,
        file,
    };
    let Ok(lines) = cut_lines_of(runs.alloc, run, told.schedule.entries(), cuts.as_slice()) else {
        return Err(AllocError);
    };
    to.extend_from_slice(lines.as_slice())
}

/// Appends the line of each ending, and behind it those of its cuts. Fails for want of memory.
fn append_endings<S: Interpret + Clone + Drop, D: Deeds + Clone + Drop>(
    runs: &Runs<'_, S, D>,
    file: &[u8],
    found: &Found<Ending, Schedule>,
    to: &mut Vec<u8>,
) -> Result<(), AllocError>
    requires { (steps : ℕ) × (steps < 2 ^ 32)
        × All (IsToldOf runs.now.task.program.now steps) found.now.endings.entries }
    ensures { OnOk result ((lines : List ℕ) × (to.new.items ≡ to.old.items ++ lines)
        × AreLinesBehind file.now runs.now.task.program.now 0 found.now.endings.entries lines) }
{
    for place in 0..found.endings.len() {
        let Some((ending, told)) = found.endings.get_index(place) else {
            unreachable!()
        };
        append_ending(&told_as(place, ending, told), called(ending.outcome), to)?;
        append_cuts(runs, file, told, to)?;
    }
    Ok(())
}

/// The lines that tell of orders: how many runs were made, how many endings there were, which orders
/// were explored, how they ended, and where their cuts are. Fails for want of memory.
fn lines_of<S: Interpret + Clone + Drop, D: Deeds + Clone + Drop>(
    runs: &Runs<'_, S, D>,
    file: &[u8],
    bounds: OrderBounds,
    found: &Found<Ending, Schedule>,
) -> Result<Vec<u8>, AllocError>
    requires { (steps : ℕ) × (steps < 2 ^ 32)
        × All (IsToldOf runs.now.task.program.now steps) found.now.endings.entries }
    ensures { IfOk result (λ lines. AreOrderLines file.now runs.now.task.program.now bounds
        (record {
          endings = found.now.endings.entries;
          below = found.now.below;
          runs = found.now.runs;
        }) lines.items) }
{
    let mut lines = Vec::new(runs.alloc);
    append_runs(found.runs, found.endings.len(), &mut lines)?;
    let reach = Reach {
        cuts: bounds.cuts,
        below: found.below,
        runs: found.runs,
    };
    append_reach(reach, &mut lines)?;
    append_endings(runs, file, found, &mut lines)?;
    Ok(lines)
}

/// The run of an order that ends so.
pub(crate) fn report_of(ending: Ending, schedule: Schedule) -> Report
    ensures { result ≡ orders.run_of ending schedule }
{
    let Ending { printed, outcome } = ending;
    Report {
        printed,
        schedule,
        outcome,
        flips: 0,
        taken: 0,
    }
}

/// The runs of the orders that are told. Fails for want of memory.
fn reports_of(alloc: Global, mut found: Found<Ending, Schedule>) -> Result<Vec<Report>, AllocError>
    ensures { IfOk result (λ reports. reports.items ≡ map report_of found.endings.entries) }
{
    let mut reports = Vec::new(alloc);
    while let Some((ending, told)) = found.endings.pop() {
        let Told { schedule, .. } = told;
        reports.push(report_of(ending, schedule))?;
    }
    reports.reverse();
    Ok(reports)
}

/// The runs of orders that are told, and the lines that tell of them.
#[derive(Drop)]
struct Explored {
    reports: Vec<Report>,
    lines: Vec<u8>,
}

/// Explores the orders of a program's steps within these bounds; the program's file is called so.
/// Fails for want of memory.
fn explore_all<S: Interpret + Clone + Drop, D: Deeds + Clone + Drop, P: Progress + Drop>(
    runs: &Runs<'_, S, D>,
    file: &[u8],
    steps: u32,
    bounds: OrderBounds,
    progress: P,
) -> Result<Explored, AllocError>
    requires some { 1 ≤ bounds.runs }
    ensures told { IfOk result (λ explored. AreTold file.now runs.now.task.program.now steps bounds
        explored.reports.items explored.lines.items) }
    ensures few { IfOk result (λ explored. length explored.reports.items ≤ bounds.runs) }
    ensures fits { IfOk result (λ explored. length explored.reports.items < 2 ^ 32) }
{
    let limits = Bounds {
        steps,
        price: bounds.cuts,
        runs: u64::from(bounds.runs),
    };
    let found = explore_orders(runs, limits, Shown { progress })?;
    let lines = lines_of(runs, file, bounds, &found)?;
    let reports = reports_of(runs.alloc, found)?;
    Ok(Explored { reports, lines })
}

/// Reads the program, runs it in each order of its steps with at most as many cuts as is asked for,
/// and writes what the first order printed, the record of an order of each ending where that is
/// asked for, which orders were explored, how each ending came and where the cuts of its order are.
pub(crate) fn explore_each_order<
    S: Interpret + Clone + Drop,
    D: Deeds + Clone + Drop,
    F: FileSet,
    W: Flushing,
    X: Telling,
    R,
>(
    system: System<'_, R>,
    makers: Makers<S, D>,
    options: &Options<'_>,
    out: &mut W,
    outside: &mut Outside<F, X>,
) -> Status
    requires all { (bounds : OrderBounds) × (options.now.explore ≡ Some (Exploration.EachOrder bounds)) }
    requires range { IfSome options.now.explore IsExploration }
    ensures files { (name : List ℕ) → ¬ IsRecordName (names_of options.now).recorded
        (records_of options.now) name
        → F.contents outside.new.files name ≡ F.contents outside.old.files name }
    ensures unread { F.last_fault outside.old.files ≡ None
        → IfSome (F.last_fault outside.new.files)
        (λ fault. IsUnread (names_of options.now) fault result
        (X.told outside.old.err) (X.told outside.new.err)) }
    ensures unwritten { F.is_unwritten outside.old.files ≡ false
        → F.is_unwritten outside.new.files ≡ true
        → result ≡ Status.Usage }
    ensures run { IsDriven S.asks (names_of options.now)
        (λ asked. asked ≡ asked_of options.now)
        (IsFileFault (F.contents outside.old.files) (names_of options.now) (records_of options.now)
        (X.told outside.old.err) (X.told outside.new.err) ⊎ ¬ IsWithin (config_in options.now))
        result (record {
          out_old = W.contents out.old;
          out_new = W.contents out.new;
          err_old = X.told outside.old.err;
          err_new = X.told outside.new.err;
          files_old = F.contents outside.old.files;
          files_new = F.contents outside.new.files;
          flushed = W.is_flushed out.new;
          unwritten = F.is_unwritten outside.new.files;
        }) }
{
    let alloc = system.alloc;
    let Some(Exploration::EachOrder(bounds)) = options.explore else {
        unreachable!()
    };
    let program = match read_program(alloc, options, outside) {
        Ok(program) => program,
        Err(status) => return status,
    };
    let bytes = program.as_slice();
    let runs = runs_of(system, makers, bytes, options);
    let progress = outside.err.progress();
    let file = program_name(options);
    let Ok(explored) = explore_all(&runs, file, options.steps, bounds, progress) else {
        return end(&mut outside.err, Status::Memory);
    };
    let endings = explored.reports.as_slice();
    let records = Records {
        name: options.record_file,
        many: Some(endings.len() as u32),
        timeline: options.timeline_file,
    };
    if let Err(status) = keep_program(alloc, records, bytes, &outside.files, &mut outside.err) {
        return status;
    }
    let many = ManyRuns {
        endings,
        lines: explored.lines.as_slice(),
    };
    finish_all(alloc, many, options, out, outside)
}

/// The program, to be run again and again.
pub(crate) fn runs_of<'a, S: Interpret + Drop, D: Deeds + Drop, R>(
    system: System<'_, R>,
    makers: Makers<S, D>,
    program: &'a [u8],
    options: &Options<'_>,
) -> Runs<'a, S, D>
    ensures { result.task.program.now ≡ program.entry.now }
{
    let config = config_of(options);
    Runs {
        alloc: system.alloc,
        task: Task {
            makers,
            program,
            setup: Setup {
                keys: system.keys,
                output: config.output,
            },
        },
        entries: config.entries,
    }
}
