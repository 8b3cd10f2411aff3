//! That neither a record nor a picture is written over a file that holds the program, whatever its
//! name.

ghost use Rattle.std.specs.Prelude.{◌≡◌, ◌≢◌, ◌≤◌, ◌⊎◌, ℕ, List, Some, None, false, true, OnOk, IfErr, IfOk, IfSome, option_map};
ghost use Rattle.ps_run.specs.Driving as driving;
ghost use Rattle.ps_run.specs.Driving.{IsRecordName, IsWrittenName, numbered};
ghost use Rattle.ps_run.specs.Telling.{Tells};

use crate::files::FileSet;
use crate::outputs::Telling;
use crate::statuses::{Status, end};
use crate::telling::refuse;
use ps_run_options::{OutputFile, overwritten};
use std::alloc::{AllocError, Global};

/// The names of records, and of a picture.
#[derive(Clone, Copy)]
pub(crate) struct Records<'a> {
    /// The name that is given for records, if one is.
    pub(crate) name: Option<&'a str>,
    /// How many endings there may be, where it isn't the record of a single run.
    pub(crate) many: Option<u32>,
    /// The name that is given for a picture, if one is.
    pub(crate) timeline: Option<&'a str>,
}

/// Fails where a record or a picture that is asked for would be written over a file that holds the
/// program, or where memory is wanted for its name. That is told, and the status is the error.
pub(crate) fn keep_program<F: FileSet, X: Telling>(
    alloc: Global,
    records: Records<'_>,
    program: &[u8],
    files: &F,
    err: &mut X,
) -> Result<(), Status>
    ensures told { OnOk result (err.new ≡ err.old) }
    ensures kept { OnOk result ((name : List ℕ)
        → IsWrittenName (option_map (λ given. given.now) records.entry.name)
        (option_map (λ given. given.now) records.entry.timeline) records.entry.many name
        → IfSome (F.contents files.now name) (λ known. known ≢ program.now)) }
    ensures over { IfErr result (λ told. ((told ≡ Status.Memory)
        × Tells (X.told err.old) (X.told err.new) (driving.line_of Status.Memory))
        ⊎ ((told ≡ Status.Usage) × (name : List ℕ)
        × IsWrittenName (option_map (λ given. given.now) records.entry.name)
        (option_map (λ given. given.now) records.entry.timeline) records.entry.many name
        × IfSome (F.contents files.now name) (λ known. known ≡ program.now))) }
{
    match writes_over(alloc, records, program, files) {
        Ok(None) => Ok(()),
        Ok(Some(written)) => Err(tell_over(alloc, written, err)),
        Err(_) => Err(end(err, Status::Memory)),
    }
}

/// Tells that a file would be written over the program, as a command line is told that names one
/// file for both.
fn tell_over<X: Telling>(alloc: Global, written: OutputFile, err: &mut X) -> Status
    ensures { ((result ≡ Status.Memory)
        × Tells (X.told err.old) (X.told err.new) (driving.line_of Status.Memory))
        ⊎ (result ≡ Status.Usage) }
{
    match overwritten(alloc, written) {
        Ok(error) => refuse(alloc, &error, err),
        Err(_) => end(err, Status::Memory),
    }
}

/// What that is asked for would be written over a file that holds the program. Fails for want of
/// memory.
fn writes_over<F: FileSet>(
    alloc: Global,
    records: Records<'_>,
    program: &[u8],
    files: &F,
) -> Result<Option<OutputFile>, AllocError>
    ensures kept { IfOk result (λ over. over ≡ None → (name : List ℕ)
        → IsWrittenName (option_map (λ given. given.now) records.entry.name)
        (option_map (λ given. given.now) records.entry.timeline) records.entry.many name
        → IfSome (F.contents files.now name) (λ known. known ≢ program.now)) }
    ensures over { IfOk result (λ over. IfSome over (λ written. (name : List ℕ)
        × IsWrittenName (option_map (λ given. given.now) records.entry.name)
        (option_map (λ given. given.now) records.entry.timeline) records.entry.many name
        × IfSome (F.contents files.now name) (λ known. known ≡ program.now))) }
{
    if records_over(alloc, records, program, files)? {
        return Ok(Some(OutputFile::Record));
    }
    match records.timeline {
        Some(name) if files.holds(name, program) => Ok(Some(OutputFile::Picture)),
        _ => Ok(None),
    }
}

/// Whether a record that is asked for would be written over a file that holds the program. Fails
/// for want of memory.
fn records_over<F: FileSet>(
    alloc: Global,
    records: Records<'_>,
    program: &[u8],
    files: &F,
) -> Result<bool, AllocError>
    ensures kept { IfOk result (λ is. is ≡ false → (name : List ℕ)
        → IsRecordName (option_map (λ given. given.now) records.entry.name) records.entry.many name
        → IfSome (F.contents files.now name) (λ known. known ≢ program.now)) }
    ensures over { IfOk result (λ is. is ≡ true → (name : List ℕ)
        × IsRecordName (option_map (λ given. given.now) records.entry.name) records.entry.many name
        × IfSome (F.contents files.now name) (λ known. known ≡ program.now)) }
{
    match (records.name, records.many) {
        (None, _) => Ok(false),
        (Some(name), None) => Ok(files.holds(name, program)),
        (Some(prefix), Some(runs)) => numbered_over(alloc, prefix, runs, program, files),
    }
}

/// Whether the record of an ending, by a number from 1 to `most`, would be written over a file that
/// holds the program. Fails for want of memory.
fn numbered_over<F: FileSet>(
    alloc: Global,
    prefix: &str,
    most: u32,
    program: &[u8],
    files: &F,
) -> Result<bool, AllocError>
    ensures kept { IfOk result (λ is. is ≡ false → (number : ℕ) → 1 ≤ number → number ≤ most
        → IfSome (F.contents files.now (numbered prefix.now number))
        (λ known. known ≢ program.now)) }
    ensures over { IfOk result (λ is. is ≡ true → (number : ℕ) × (1 ≤ number) × (number ≤ most)
        × IfSome (F.contents files.now (numbered prefix.now number))
        (λ known. known ≡ program.now)) }
{
    for place in 0..most {
        let number = u64::from(place) + 1;
        let name = format!(in alloc; "{prefix}.{number}")?;
        if files.holds(name.as_str(), program) {
            return Ok(true);
        }
    }
    Ok(false)
}
