//! What is written at the end of many runs: the bytes that the first printed, a record of each
//! ending, and what is told of them.

ghost use Rattle.std.specs.Prelude.{◌≡◌, ◌<◌, ◌^◌, ℕ, Bool, false, true, List, Some, Err, length, option_map, ◌+◌, OnOk, IfErr};
ghost use Rattle.ps_run.specs.Driving as driving;
ghost use Rattle.ps_run.specs.Driving.{AreRecorded, AreUnrecorded, AreWritten, IsRecorded, IsRecordName, TellsUnwritten, names_of, numbered};

use crate::files::FileSet;
use crate::finishing::{tell_lost, write_schedule};
use crate::outputs::{Flushing, Telling};
use crate::outside::Outside;
use crate::statuses::{Status, end};
use crate::writing::hand_out;
use ps_run_options::Options;
use ps_run_schedules::Entries;
use ps_vault::Report;
use std::alloc::Global;

/// Many runs of a program.
#[derive(Clone, Copy)]
pub(crate) struct ManyRuns<'e> {
    /// What they came to, each ending once, in the order in which the runs came to them.
    pub(crate) endings: &'e [Report],
    /// What is told of them.
    pub(crate) lines: &'e [u8],
}

/// What the first of these endings printed; nothing, where there is none.
fn first_printed(endings: &[Report]) -> &[u8]
    ensures { result.now ≡ driving.first_printed endings.now }
{
    match endings {
        [] => b"",
        [first, ..] => first.printed.as_slice(),
    }
}

/// Writes what the first of these endings printed, then the record of each where that is asked for,
/// then tells of the runs.
pub(crate) fn finish_all<F: FileSet, W: Flushing, X: Telling>(
    alloc: Global,
    many: ManyRuns<'_>,
    options: &Options<'_>,
    out: &mut W,
    outside: &mut Outside<F, X>,
) -> Status
    requires few { length many.endings.now < 2 ^ 32 }
    ensures others { (other : List ℕ) → ¬ IsRecordName (names_of options.now).recorded
        (Some (length many.entry.endings.now)) other
        → F.contents outside.new.files other ≡ F.contents outside.old.files other }
    ensures reads { F.last_fault outside.new.files ≡ F.last_fault outside.old.files }
    ensures unwritten { F.is_unwritten outside.old.files ≡ false
        → F.is_unwritten outside.new.files ≡ true
        → result ≡ Status.Usage }
    ensures written { AreWritten (names_of options.now).recorded many.entry.endings.now
        many.entry.lines.now result (record {
          out_old = W.contents out.old;
          out_new = W.contents out.new;
          err_old = X.told outside.old.err;
          err_new = X.told outside.new.err;
          files_old = F.contents outside.old.files;
          files_new = F.contents outside.new.files;
          flushed = W.is_flushed out.new;
          unwritten = F.is_unwritten outside.new.files;
        }) }
{
    if hand_out(out, first_printed(many.endings)).is_err() {
        return tell_lost(&mut outside.err);
    }
    if let Err(status) = record_all(alloc, many.endings, options, outside) {
        return status;
    }
    outside.err.tell(many.lines);
    if many.endings.len() == 1 {
        Status::Finished
    } else {
        Status::Faulted
    }
}

/// Writes the texts of the endings' schedules to files by their numbers, if they are asked for.
/// Where one can't be written, or memory is wanted, that is told, and the status is the error;
/// those before it are written then, and no more.
fn record_all<F: FileSet, X: Telling>(
    alloc: Global,
    endings: &[Report],
    options: &Options<'_>,
    outside: &mut Outside<F, X>,
) -> Result<(), Status>
    requires few { length endings.now < 2 ^ 32 }
    ensures recorded { OnOk result (AreRecorded (F.contents outside.new.files)
        (names_of options.now).recorded endings.now (length endings.now)) }
    ensures told { OnOk result (outside.new.err ≡ outside.old.err) }
    ensures unrecorded { IfErr result (λ told. (place : ℕ) × (place < length endings.now)
        × AreRecorded (F.contents outside.new.files) (names_of options.now).recorded endings.now
        place
        × TellsUnwritten (F.is_unwritten outside.new.files)
        (option_map (λ prefix. numbered prefix (place + 1)) (names_of options.now).recorded)
        told (X.told outside.old.err) (X.told outside.new.err)) }
    ensures others { (other : List ℕ) → ¬ IsRecordName (names_of options.now).recorded
        (Some (length endings.now)) other
        → F.contents outside.new.files other ≡ F.contents outside.old.files other }
    ensures reads { F.last_fault outside.new.files ≡ F.last_fault outside.old.files }
    ensures unwritten { F.is_unwritten outside.old.files ≡ false
        → F.is_unwritten outside.new.files ≡ true
        → result ≡ Err Status.Usage }
{
    let Some(prefix) = options.record_file else {
        return Ok(());
    };
    let mut number = 0;
    while number < endings.len() {
        let schedule = endings[number].schedule.entries();
        record_ending(alloc, prefix, number as u64 + 1, schedule, outside)?;
        number += 1;
    }
    Ok(())
}

/// Writes the text of an ending's schedule to the file of its number. Where it can't be written, or
/// memory is wanted, that is told, and the status is the error.
fn record_ending<F: FileSet, X: Telling>(
    alloc: Global,
    prefix: &str,
    number: u64,
    schedule: Entries<'_>,
    outside: &mut Outside<F, X>,
) -> Result<(), Status>
    ensures recorded { OnOk result (IsRecorded (F.contents outside.new.files)
        (Some (numbered prefix.now number)) schedule.entry) }
    ensures told { OnOk result (outside.new.err ≡ outside.old.err) }
    ensures unrecorded { IfErr result (λ told.
        TellsUnwritten (F.is_unwritten outside.new.files) (Some (numbered prefix.now number)) told
        (X.told outside.old.err) (X.told outside.new.err)) }
    ensures others { (other : List ℕ) → ¬ (other ≡ numbered prefix.now number)
        → F.contents outside.new.files other ≡ F.contents outside.old.files other }
    ensures reads { F.last_fault outside.new.files ≡ F.last_fault outside.old.files }
    ensures unwritten { F.is_unwritten outside.old.files ≡ false
        → F.is_unwritten outside.new.files ≡ true
        → result ≡ Err Status.Usage }
    ensures writes { OnOk result
        (F.is_unwritten outside.new.files ≡ F.is_unwritten outside.old.files) }
{
    let Ok(name) = format!(in alloc; "{prefix}.{number}") else {
        return Err(end(&mut outside.err, Status::Memory));
    };
    write_schedule(alloc, name.as_str(), schedule, outside)
}
