//! All orders of a program's steps, by the worlds that they lead to, and the lines that tell of them.

ghost use Rattle.std.specs.Prelude.{◌≡◌, ◌+◌, ◌<◌, ◌≤◌, ◌^◌, ◌⊎◌, ◌++◌, ℕ, List, true, false, None, Some, map, length, IfOk, IfSome, OnOk};
ghost use Rattle.ps_run_options.specs.CommandLine.{IsExploration};
ghost use Rattle.ps_vault.specs.Reports.{IsWithin};
ghost use Rattle.ps_run.specs.Driving as driving;
ghost use Rattle.ps_run.specs.Driving.{IsDriven, IsFileFault, IsRecordName, IsUnread, asked_of, config_in, names_of, records_of};
ghost use Rattle.ps_run.specs.Worlds as worlds;
ghost use Rattle.ps_run.specs.Worlds.{AreWorlds, Worlds, lines_behind, way_report, world_lines};

use crate::endings::{ManyRuns, finish_all};
use crate::files::FileSet;
use crate::keeping::{Records, keep_program};
use crate::orders::{Shown, report_of, runs_of};
use crate::outputs::{Flushing, Telling};
use crate::outside::Outside;
use crate::progress::Progress;
use crate::reading::read_program;
use crate::statuses::{Status, called, end};
use crate::systems::System;
use ps_ctx::deeds::Deeds;
use ps_ctx::makers::Makers;
use ps_cuts::{Ending, Runs};
use ps_run_options::{Exploration, Options};
use ps_run_schedules::{Schedule, steps_of};
use ps_searches::Covered;
use ps_step_interpreter::interprets::Interpret;
use ps_vault::Report;
use ps_views::{WorldEnding, WorldsFound, append_found, append_world_ending};
use ps_worlds::explore_worlds;
use std::alloc::{AllocError, Global};

/// What is told of an ending, which is behind so many others.
fn told_as(behind: usize, ending: &Ending, schedule: &Schedule) -> WorldEnding
    requires few { behind < 2 ^ 63 }
    ensures { result ≡ worlds.told_as (behind + 1) (ending.now, schedule.now) }
{
    WorldEnding {
        number: behind as u64 + 1,
        steps: steps_of(schedule.entries()),
        printed: ending.printed.len() as u64,
    }
}

/// Appends the line of each ending. Fails where a growth is refused.
fn append_endings(covered: &Covered<Ending, Schedule>, to: &mut Vec<u8>) -> Result<(), AllocError>
    ensures { OnOk result
        (to.new.items ≡ to.old.items ++ lines_behind 0 covered.now.endings.entries) }
{
    for place in 0..covered.endings.len() {
        let Some((ending, schedule)) = covered.endings.get_index(place) else {
            unreachable!()
        };
        let told = told_as(place, ending, schedule);
        append_world_ending(&told, called(ending.outcome), to)?;
    }
    Ok(())
}

/// The lines that tell what a search found. Fails where a growth is refused.
fn lines_of(alloc: Global, covered: &Covered<Ending, Schedule>) -> Result<Vec<u8>, AllocError>
    ensures { IfOk result (λ lines. lines.items ≡ world_lines (record {
      endings = covered.now.endings.entries;
      worlds = covered.now.worlds;
      steps = covered.now.steps;
      extent = covered.now.extent;
    })) }
{
    let mut lines = Vec::new(alloc);
    let found = WorldsFound {
        worlds: covered.worlds as u64,
        steps: covered.steps,
        endings: covered.endings.len() as u64,
        extent: covered.extent,
    };
    append_found(found, &mut lines)?;
    append_endings(covered, &mut lines)?;
    Ok(lines)
}

/// The runs of the orders that are told. Fails where a growth is refused.
fn reports_of(
    alloc: Global,
    mut covered: Covered<Ending, Schedule>,
) -> Result<Vec<Report>, AllocError>
    ensures { IfOk result
        (λ reports. reports.items ≡ map way_report covered.endings.entries) }
{
    let mut reports = Vec::new(alloc);
    while let Some((ending, schedule)) = covered.endings.pop() {
        reports.push(report_of(ending, schedule))?;
    }
    reports.reverse();
    Ok(reports)
}

/// The runs of orders that are told, and the lines that tell of them.
#[derive(Drop)]
struct Explored {
    reports: Vec<Report>,
    lines: Vec<u8>,
}

/// Explores all orders of a program's steps by at most so many worlds. Fails for want of memory.
fn explore_all<S: Interpret + Clone + Drop, D: Deeds + Clone + Drop, P: Progress + Drop>(
    runs: &Runs<'_, S, D>,
    most: u32,
    progress: P,
) -> Result<Explored, AllocError>
    ensures told { IfOk result (λ explored. (found : Worlds)
        × AreWorlds runs.now.task.program.now most found
        × (explored.reports.items ≡ map way_report found.endings)
        × (explored.lines.items ≡ world_lines found)) }
    ensures few { IfOk result (λ explored. length explored.reports.items ≤ most) }
    ensures fits { IfOk result (λ explored. length explored.reports.items < 2 ^ 32) }
{
    let covered = explore_worlds(runs, most, &mut Shown { progress })?;
    let lines = lines_of(runs.alloc, &covered)?;
    let reports = reports_of(runs.alloc, covered)?;
    Ok(Explored { reports, lines })
}

/// Reads the program, follows each world that its steps lead to, and writes what the first ending
/// printed, the record of an order of each ending where that is asked for, whether these are all
/// orders, and how each ending came.
pub(crate) fn explore_each_world<
    S: Interpret + Clone + Drop,
    D: Deeds + Clone + Drop,
    F: FileSet,
    W: Flushing,
    X: Telling,
    R,
>(
    system: System<'_, R>,
    makers: Makers<S, D>,
    options: &Options<'_>,
    out: &mut W,
    outside: &mut Outside<F, X>,
) -> Status
    requires all { (most : ℕ) × (options.now.explore ≡ Some (Exploration.EachWorld most)) }
    ensures files { (name : List ℕ) → ¬ IsRecordName (names_of options.now).recorded
        (records_of options.now) name
        → F.contents outside.new.files name ≡ F.contents outside.old.files name }
    ensures unread { F.last_fault outside.old.files ≡ None
        → IfSome (F.last_fault outside.new.files)
        (λ fault. IsUnread (names_of options.now) fault result
        (X.told outside.old.err) (X.told outside.new.err)) }
    ensures unwritten { F.is_unwritten outside.old.files ≡ false
        → F.is_unwritten outside.new.files ≡ true
        → result ≡ Status.Usage }
    ensures run { IsDriven S.asks (names_of options.now)
        (λ asked. asked ≡ asked_of options.now)
        (IsFileFault (F.contents outside.old.files) (names_of options.now) (records_of options.now)
        (X.told outside.old.err) (X.told outside.new.err) ⊎ ¬ IsWithin (config_in options.now))
        result (record {
          out_old = W.contents out.old;
          out_new = W.contents out.new;
          err_old = X.told outside.old.err;
          err_new = X.told outside.new.err;
          files_old = F.contents outside.old.files;
          files_new = F.contents outside.new.files;
          flushed = W.is_flushed out.new;
          unwritten = F.is_unwritten outside.new.files;
        }) }
{
    let alloc = system.alloc;
    let Some(Exploration::EachWorld(most)) = options.explore else {
        unreachable!()
    };
    let program = match read_program(alloc, options, outside) {
        Ok(program) => program,
        Err(status) => return status,
    };
    let bytes = program.as_slice();
    let runs = runs_of(system, makers, bytes, options);
    let progress = outside.err.progress();
    let Ok(explored) = explore_all(&runs, most, progress) else {
        return end(&mut outside.err, Status::Memory);
    };
    let endings = explored.reports.as_slice();
    let records = Records {
        name: options.record_file,
        many: Some(endings.len() as u32),
        timeline: options.timeline_file,
    };
    if let Err(status) = keep_program(alloc, records, bytes, &outside.files, &mut outside.err) {
        return status;
    }
    let many = ManyRuns {
        endings,
        lines: explored.lines.as_slice(),
    };
    finish_all(alloc, many, options, out, outside)
}
