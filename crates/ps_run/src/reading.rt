//! The files that a run is made of: the program's, and that of a schedule to follow, whose lines
//! are judged while they are read.

ghost use Rattle.std.specs.Prelude.{◌≡◌, ◌≢◌, ◌⊎◌, ◌≤◌, ℕ, Some, None, Ok, Err, OnOk, IfOk, IfErr, IfSome, option_map, vec_len, ◌<◌, codes, length};
ghost use Rattle.ps_run_schedules.specs.Texts.{AreEntries, IsBadAt, text_of};
ghost use Rattle.ps_run.specs.Driving as driving;
ghost use Rattle.ps_run.specs.Driving.{HasNoProgram, HasNoSchedule, IsGiven, IsProgramIn, IsTooLong, IsUnread, most_program_bytes, names_of};
ghost use Rattle.ps_run.specs.Telling.{Tells};

use crate::files::{FileSet, MOST_PROGRAM_BYTES, ReadFault};
use crate::outputs::Telling;
use crate::outside::Outside;
use crate::statuses::{Status, end};
use crate::writing::tell_number;
use ps_run_options::{Options, ProgramSource};
use ps_run_schedules::{ScheduleFault, read_entries};
use ps_vault::Entry;
use std::alloc::Global;

/// The most bytes that are read at a time.
const PART_BYTES: usize = 65_536;

/// Why a file gave no schedule.
#[derive(Clone, Copy, Debug, PartialEq, Eq)]
enum NoSchedule {
    Unread(ReadFault),
    Bad(ScheduleFault),
}

/// Tells why a file was not read, and that it was not, and gives the status.
fn tell_unread<X: Telling>(fault: ReadFault, name: &str, err: &mut X) -> Status
    ensures status { result ≡ driving.unread fault }
    ensures told { Tells (X.told err.old) (X.told err.new)
        (driving.unread_lines fault name.now) }
{
    let Some(reason) = fault.reason() else {
        return end(err, Status::Memory);
    };
    tell_reason(reason, name, err);
    err.tell(b"dpsrun: cannot read ");
    err.tell(name.as_bytes());
    err.tell(b"\n");
    Status::Usage
}

/// Tells what is to be said of a file.
fn tell_reason<X: Telling>(reason: &str, name: &str, err: &mut X)
    ensures { Tells (X.told err.old) (X.told err.new)
        (driving.reason_line reason.now name.now) }
{
    err.tell(b"dpsrun: '");
    err.tell(name.as_bytes());
    err.tell(b"' ");
    err.tell(reason.as_bytes());
    err.tell(b"\n");
}

/// The bytes of the file that is open; none where it has more than a program may. Fails where they
/// can't be read.
fn read_whole<F: FileSet>(alloc: Global, files: &mut F) -> Result<Option<Vec<u8>>, ReadFault>
    ensures few { IfOk result
        (λ read. IfSome read (λ bytes. vec_len bytes ≤ most_program_bytes)) }
    ensures bytes { IfOk result (λ read. IfSome (F.left files.old)
        (λ known. IfSome read (λ bytes. bytes.items ≡ known))) }
    ensures long { result ≡ Ok None → IsTooLong (F.left files.old) }
    ensures fault { IfErr result
        (λ fault. IfSome (F.left files.old) (λ known. fault ≡ ReadFault.Memory)) }
    ensures kept { F.contents files.new ≡ F.contents files.old }
    ensures failed { IfErr result (λ fault. (fault ≡ ReadFault.Memory)
        ⊎ (F.last_fault files.new ≡ Some fault)) }
    ensures unread { F.last_fault files.old ≡ None → IfErr result
        (λ fault. IfSome (F.last_fault files.new) (λ last. last ≡ fault)) }
    ensures succeeded { OnOk result (F.last_fault files.new ≡ F.last_fault files.old) }
    ensures writes { F.is_unwritten files.new ≡ F.is_unwritten files.old }
{
    let mut bytes = Vec::new(alloc);
    for _ in 0..u64::MAX {
        let before = bytes.len();
        files.read_on(PART_BYTES, &mut bytes)?;
        if bytes.len() > MOST_PROGRAM_BYTES {
            return Ok(None);
        }
        if bytes.len() == before {
            return Ok(Some(bytes));
        }
    }
    Err(ReadFault::Memory)
}

/// The bytes of the program, at most 16,777,215: its text, or those of its file. Where they can't
/// be had that is told, and the status is the error.
pub(crate) fn read_program<F: FileSet, X: Telling>(
    alloc: Global,
    options: &Options<'_>,
    outside: &mut Outside<F, X>,
) -> Result<Vec<u8>, Status>
    ensures program { IfOk result
        (λ bytes. IsProgramIn (F.contents outside.old.files) (names_of options.now) bytes.items) }
    ensures told { OnOk result (outside.new.err ≡ outside.old.err) }
    ensures kept { F.contents outside.new.files ≡ F.contents outside.old.files }
    ensures succeeded { OnOk result
        (F.last_fault outside.new.files ≡ F.last_fault outside.old.files) }
    ensures writes { F.is_unwritten outside.new.files ≡ F.is_unwritten outside.old.files }
    ensures unread { F.last_fault outside.old.files ≡ None → IfErr result
        (λ told. IfSome (F.last_fault outside.new.files)
        (λ fault. IsUnread (names_of options.now) fault told
        (X.told outside.old.err) (X.told outside.new.err))) }
    ensures fault { IfErr result (λ told. ((told ≡ Status.Memory)
        × Tells (X.told outside.old.err) (X.told outside.new.err) (driving.line_of Status.Memory))
        ⊎ ((told ≡ Status.Usage)
        × HasNoProgram (F.contents outside.old.files) (names_of options.now)
        (X.told outside.old.err) (X.told outside.new.err))) }
{
    match options.source {
        ProgramSource::File(name) => read_file(alloc, name, outside),
        ProgramSource::Text(text) => copy_text(alloc, text, &mut outside.err),
    }
}

/// The bytes of a text that is a program. Where it is too long, or memory is wanted, that is told,
/// and the status is the error.
fn copy_text<X: Telling>(alloc: Global, text: &str, err: &mut X) -> Result<Vec<u8>, Status>
    ensures few { IfOk result (λ bytes. vec_len bytes ≤ most_program_bytes) }
    ensures bytes { IfOk result (λ bytes. bytes.items ≡ text.now) }
    ensures told { OnOk result (err.new ≡ err.old) }
    ensures fault { IfErr result (λ told. ((told ≡ Status.Memory)
        × Tells (X.told err.old) (X.told err.new) (driving.line_of Status.Memory))
        ⊎ ((told ≡ Status.Usage) × ((most_program_bytes < length text.now)
        × Tells (X.told err.old) (X.told err.new)
        (driving.unread_lines ReadFault.TooLong (codes "-e"))))) }
{
    if text.len() > MOST_PROGRAM_BYTES {
        return Err(tell_unread(ReadFault::TooLong, "-e", err));
    }
    match Vec::from_slice(alloc, text.as_bytes()) {
        Ok(bytes) => Ok(bytes),
        Err(_) => Err(end(err, Status::Memory)),
    }
}

/// The bytes of the program's file, of at most 16,777,215. Where they can't be read that is told,
/// and the status is the error.
fn read_file<F: FileSet, X: Telling>(
    alloc: Global,
    name: &str,
    outside: &mut Outside<F, X>,
) -> Result<Vec<u8>, Status>
    ensures few { IfOk result (λ bytes. vec_len bytes ≤ most_program_bytes) }
    ensures bytes { IfOk result
        (λ bytes. IfSome (F.contents outside.old.files name.now) (λ known. bytes.items ≡ known)) }
    ensures told { OnOk result (outside.new.err ≡ outside.old.err) }
    ensures kept { F.contents outside.new.files ≡ F.contents outside.old.files }
    ensures succeeded { OnOk result
        (F.last_fault outside.new.files ≡ F.last_fault outside.old.files) }
    ensures writes { F.is_unwritten outside.new.files ≡ F.is_unwritten outside.old.files }
    ensures unread { F.last_fault outside.old.files ≡ None → IfErr result
        (λ told. IfSome (F.last_fault outside.new.files) (λ fault. (told ≡ driving.unread fault)
        × Tells (X.told outside.old.err) (X.told outside.new.err)
        (driving.unread_lines fault name.now))) }
    ensures fault { IfErr result (λ told. ((told ≡ Status.Memory)
        × Tells (X.told outside.old.err) (X.told outside.new.err) (driving.line_of Status.Memory))
        ⊎ ((told ≡ Status.Usage) × IfSome (F.contents outside.old.files name.now)
        (λ known. (most_program_bytes < length known)
        × Tells (X.told outside.old.err) (X.told outside.new.err)
        (driving.unread_lines ReadFault.TooLong name.now)))) }
{
    if let Err(fault) = outside.files.open(name) {
        return Err(tell_unread(fault, name, &mut outside.err));
    }
    match read_whole(alloc, &mut outside.files) {
        Ok(Some(bytes)) => Ok(bytes),
        Ok(None) => Err(tell_unread(ReadFault::TooLong, name, &mut outside.err)),
        Err(fault) => Err(tell_unread(fault, name, &mut outside.err)),
    }
}

/// The schedule of the file that is open. The fault is its first bad line, and then nothing behind
/// that is read but what came with it; or want of memory, or why the file can't be read.
fn read_schedule<F: FileSet>(alloc: Global, files: &mut F) -> Result<Vec<Entry>, NoSchedule>
    ensures entries { IfOk result (λ schedule. AreEntries schedule.items) }
    ensures text { IfOk result (λ schedule. IfSome (F.left files.old)
        (λ known. text_of schedule.items ≡ known)) }
    ensures bad { (line : ℕ) → result ≡ Err (NoSchedule.Bad (ScheduleFault.BadLine line))
        → IfSome (F.left files.old) (λ known. IsBadAt known line) }
    ensures unread { (fault : ReadFault) → result ≡ Err (NoSchedule.Unread fault)
        → (F.last_fault files.new ≡ Some fault)
        × IfSome (F.left files.old) (λ known. fault ≡ ReadFault.Memory) }
    ensures read { ((fault : ReadFault) → result ≢ Err (NoSchedule.Unread fault))
        → F.last_fault files.new ≡ F.last_fault files.old }
    ensures kept { F.contents files.new ≡ F.contents files.old }
    ensures writes { F.is_unwritten files.new ≡ F.is_unwritten files.old }
{
    let mut entries = Vec::new(alloc);
    let mut text = Vec::new(alloc);
    for _ in 0..u64::MAX {
        let before = text.len();
        if let Err(fault) = files.read_on(PART_BYTES, &mut text) {
            return Err(NoSchedule::Unread(fault));
        }
        let is_last = text.len() == before;
        let rest = match read_entries(text.as_slice(), is_last, &mut entries) {
            Ok(rest) => rest,
            Err(fault) => return Err(NoSchedule::Bad(fault)),
        };
        if is_last {
            return Ok(entries);
        }
        let Ok(copy) = Vec::from_slice(alloc, rest) else {
            break;
        };
        text = copy;
    }
    Err(NoSchedule::Bad(ScheduleFault::Memory))
}

/// The schedule to follow, if a file is named for one. Where it can't be read that is told, with
/// the first bad line, and the status is the error.
pub(crate) fn read_given<F: FileSet, X: Telling>(
    alloc: Global,
    options: &Options<'_>,
    outside: &mut Outside<F, X>,
) -> Result<Option<Vec<Entry>>, Status>
    ensures given { IfOk result
        (λ given. IsGiven (F.contents outside.old.files) (names_of options.now).replayed
        (option_map (λ schedule. schedule.items) given)) }
    ensures told { OnOk result (outside.new.err ≡ outside.old.err) }
    ensures kept { F.contents outside.new.files ≡ F.contents outside.old.files }
    ensures succeeded { OnOk result
        (F.last_fault outside.new.files ≡ F.last_fault outside.old.files) }
    ensures writes { F.is_unwritten outside.new.files ≡ F.is_unwritten outside.old.files }
    ensures unread { F.last_fault outside.old.files ≡ None → IfErr result
        (λ told. IfSome (F.last_fault outside.new.files)
        (λ fault. IsUnread (names_of options.now) fault told
        (X.told outside.old.err) (X.told outside.new.err))) }
    ensures fault { IfErr result (λ told. ((told ≡ Status.Memory)
        × Tells (X.told outside.old.err) (X.told outside.new.err) (driving.line_of Status.Memory))
        ⊎ ((told ≡ Status.Usage)
        × HasNoSchedule (F.contents outside.old.files) (names_of options.now).replayed
        (X.told outside.old.err) (X.told outside.new.err))) }
{
    let Some(name) = options.replay_file else {
        return Ok(None);
    };
    if let Err(fault) = outside.files.open(name) {
        return Err(tell_unread(fault, name, &mut outside.err));
    }
    match read_schedule(alloc, &mut outside.files) {
        Ok(schedule) => Ok(Some(schedule)),
        Err(NoSchedule::Unread(fault)) => Err(tell_unread(fault, name, &mut outside.err)),
        Err(NoSchedule::Bad(ScheduleFault::Memory)) => Err(end(&mut outside.err, Status::Memory)),
        Err(NoSchedule::Bad(ScheduleFault::BadLine(line))) => {
            tell_number(&mut outside.err, b"dpsrun: bad schedule line ", line as u64);
            Err(Status::Usage)
        }
    }
}
