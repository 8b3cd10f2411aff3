//! What is written at the end of a run: the printed bytes, the record and the counts.

ghost use Rattle.std.specs.Prelude.{◌≡◌, ◌≢◌, ◌≤◌, ◌++◌, ◌-◌, ◌^◌, ℕ, Bool, false, true, List, Option, Some, Err, length, min, OnOk, OnErr, IfErr, IsSome};
ghost use Rattle.ps_language.specs.Schedules.{count_of};
ghost use Rattle.ps_vault.specs.Screens.{HasShown};
ghost use Rattle.ps_run.specs.Driving as driving;
ghost use Rattle.ps_run.specs.Driving.{IsRecorded, IsRecordName, IsWritten, TellsUnwritten, names_of};
ghost use Rattle.ps_run.specs.Telling.{Tells};

use crate::files::FileSet;
use crate::outputs::{Flushing, Telling};
use crate::outside::Outside;
use crate::statuses::{Status, end, status_of};
use crate::streams::{Stream, write_rest};
use crate::writing::{tell_number, tell_unwritten};
use ps_run_options::Options;
use ps_run_schedules::{Entries, append_schedule, steps_of};
use ps_vault::{Outcome, Report, Screen};
use std::alloc::Global;

/// A run, and what is told of the places of its errors.
#[derive(Clone, Copy)]
pub(crate) struct Made<'r> {
    pub(crate) report: &'r Report,
    pub(crate) places: &'r [u8],
}

/// Writes what of the printed bytes was not shown, then the record where it is asked for, then the
/// places of errors, the counts where they are asked for, and the line that belongs to the status.
/// Gives the output back. Where showing failed nothing of these is written.
pub(crate) fn finish<F: FileSet, W: Flushing + Drop, X: Telling>(
    alloc: Global,
    made: Made<'_>,
    options: &Options<'_>,
    screen: Screen<Stream<W>>,
    outside: &mut Outside<F, X>,
) -> (Status, W)
    requires within { screen.shown ≤ length made.report.now.printed.items }
    ensures others { (other : List ℕ) → ¬ IsRecordName (names_of options.now).recorded None other
        → F.contents outside.new.files other ≡ F.contents outside.old.files other }
    ensures reads { F.last_fault outside.new.files ≡ F.last_fault outside.old.files }
    ensures unwritten { F.is_unwritten outside.old.files ≡ false
        → F.is_unwritten outside.new.files ≡ true
        → result.0 ≡ Status.Usage }
    ensures written { (first : Option (List ℕ))
        → HasShown first screen made.entry.report.now.printed.items
        → IsWritten screen.failed (names_of options.now).recorded made.entry.places.now
        options.now.stats made.entry.report.now result.0 (record {
          out_old = first;
          out_new = W.contents result.1;
          err_old = X.told outside.old.err;
          err_new = X.told outside.new.err;
          files_old = F.contents outside.old.files;
          files_new = F.contents outside.new.files;
          flushed = W.is_flushed result.1;
          unwritten = F.is_unwritten outside.new.files;
        }) }
{
    let report = made.report;
    let (written, out) = write_rest(screen, report.printed.as_slice());
    if written.is_err() {
        return (tell_lost(&mut outside.err), out);
    }
    if let Err(status) = record_schedule(alloc, options, report.schedule.entries(), outside) {
        return (status, out);
    }
    let status = status_of(report.outcome);
    tell_all(made, options.stats, status, &mut outside.err);
    (status, out)
}

/// Tells that the output did not take all that was printed.
pub(crate) fn tell_lost<X: Telling>(err: &mut X) -> Status
    ensures status { result ≡ Status.Usage }
    ensures told { Tells (X.told err.old) (X.told err.new) driving.lost_line }
{
    err.tell(b"dpsrun: cannot write output\n");
    Status::Usage
}

/// Writes the text of a schedule to the file that is named for it, if one is. Where it can't be
/// written, or memory is wanted, that is told, and the status is the error; where memory is wanted
/// no file has changed.
fn record_schedule<F: FileSet, X: Telling>(
    alloc: Global,
    options: &Options<'_>,
    schedule: Entries<'_>,
    outside: &mut Outside<F, X>,
) -> Result<(), Status>
    ensures recorded { OnOk result
        (IsRecorded (F.contents outside.new.files) (names_of options.now).recorded schedule.entry) }
    ensures unrecorded { IfErr result (λ told. TellsUnwritten
        (F.is_unwritten outside.new.files) (names_of options.now).recorded told
        (X.told outside.old.err) (X.told outside.new.err)) }
    ensures told { OnOk result (outside.new.err ≡ outside.old.err) }
    ensures memory { result ≡ Err Status.Memory → outside.new.files ≡ outside.old.files }
    ensures others { (other : List ℕ) → ¬ IsRecordName (names_of options.now).recorded None other
        → F.contents outside.new.files other ≡ F.contents outside.old.files other }
    ensures reads { F.last_fault outside.new.files ≡ F.last_fault outside.old.files }
    ensures unwritten { F.is_unwritten outside.old.files ≡ false
        → F.is_unwritten outside.new.files ≡ true
        → result ≡ Err Status.Usage }
{
    match options.record_file {
        Some(name) => write_schedule(alloc, name, schedule, outside),
        None => Ok(()),
    }
}

/// Writes the text of a schedule to the file of a name. Where it can't be written, or memory is
/// wanted, that is told, and the status is the error; where memory is wanted no file has changed.
pub(crate) fn write_schedule<F: FileSet, X: Telling>(
    alloc: Global,
    name: &str,
    schedule: Entries<'_>,
    outside: &mut Outside<F, X>,
) -> Result<(), Status>
    ensures recorded { OnOk result
        (IsRecorded (F.contents outside.new.files) (Some name.now) schedule.entry) }
    ensures told { OnOk result (outside.new.err ≡ outside.old.err) }
    ensures unrecorded { IfErr result (λ told. TellsUnwritten
        (F.is_unwritten outside.new.files) (Some name.now) told
        (X.told outside.old.err) (X.told outside.new.err)) }
    ensures memory { result ≡ Err Status.Memory → outside.new.files ≡ outside.old.files }
    ensures others { (other : List ℕ) → other ≢ name.now
        → F.contents outside.new.files other ≡ F.contents outside.old.files other }
    ensures reads { F.last_fault outside.new.files ≡ F.last_fault outside.old.files }
    ensures writes { OnOk result
        (F.is_unwritten outside.new.files ≡ F.is_unwritten outside.old.files) }
    ensures unwritten { F.is_unwritten outside.old.files ≡ false
        → F.is_unwritten outside.new.files ≡ true
        → result ≡ Err Status.Usage }
{
    let mut text = Vec::new(alloc);
    if append_schedule(schedule, &mut text).is_err() {
        return Err(end(&mut outside.err, Status::Memory));
    }
    match outside.files.write(name, text.as_slice()) {
        Ok(()) => Ok(()),
        Err(_) => {
            tell_unwritten(&mut outside.err, name);
            Err(Status::Usage)
        }
    }
}

/// Tells the places of a run's errors, then its counts, where they are asked for, and the line of its
/// status.
fn tell_all<X: Telling>(made: Made<'_>, stats: bool, status: Status, err: &mut X)
    ensures { Tells (X.told err.old) (X.told err.new) (made.entry.places.now
        ++ (driving.counts_of stats made.entry.report.now ++ driving.line_of status)) }
{
    err.tell(made.places);
    tell(made.report, stats, status, err);
}

/// Tells the counts of a run, where they are asked for, and the line of its status.
fn tell<X: Telling>(report: &Report, stats: bool, status: Status, err: &mut X)
    ensures { Tells (X.told err.old) (X.told err.new)
        (driving.counts_of stats report.now ++ driving.line_of status) }
{
    if stats {
        tell_counts(report, err);
    }
    end(err, status);
}

/// Tells the counts of a run.
fn tell_counts<X: Telling>(report: &Report, err: &mut X)
    ensures { Tells (X.told err.old) (X.told err.new) (driving.count_lines report.now) }
{
    tell_number(err, b"flips ", u64::from(report.flips));
    tell_number(err, b"taken ", report.taken);
    tell_number(err, b"steps ", steps_of(report.schedule.entries()));
}
