//! The picture of a run, written to a file that hasn't its schedule, whatever the file's name.

ghost use Rattle.std.specs.Prelude.{◌≡◌, ◌≢◌, ℕ, List, Some, IfOk, IfSome, true, false, is_some};
ghost use Rattle.ps_language.specs.declared.schedules.Entry.{Entry};
ghost use Rattle.ps_run_schedules.specs.Texts.{text_of};
ghost use Rattle.ps_run.specs.Driving as driving;
ghost use Rattle.ps_run.specs.Driving.{HoldsSchedule, IsPicture, IsPictureWritten, names_of, over_schedule_line, undrawn_line};
ghost use Rattle.ps_run.specs.Telling.{Tells};

use crate::files::FileSet;
use crate::outputs::Telling;
use crate::outside::Outside;
use crate::places::{Again, program_name};
use crate::statuses::{Status, called};
use crate::writing::tell_unwritten;
use ps_ctx::deeds::Deeds;
use ps_run_options::Options;
use ps_run_schedules::{Entries, append_schedule};
use ps_step_interpreter::interprets::Interpret;
use ps_vault::{ANY_OUTPUT, Report, Setup};
use ps_walks::{Rerun, WalkFault, timeline_of};
use std::alloc::{AllocError, Global};

/// A run that may be drawn: what it came to, how it is made again where a picture is asked for, and
/// the status so far.
#[derive(Drop)]
pub(crate) struct Drawable<'a, 'r, S: Drop, D: Drop> {
    pub(crate) report: &'r Report,
    pub(crate) again: Option<Again<'a, S, D>>,
    pub(crate) status: Status,
}

/// Draws a run, and writes the picture to the file that is named for it, if one is. Where that file
/// has the run's schedule, or the picture can't be drawn or written, that is told. Gives the status.
pub(crate) fn draw<S: Interpret + Drop, D: Deeds + Drop, F: FileSet, X: Telling>(
    alloc: Global,
    drawable: Drawable<'_, '_, S, D>,
    options: &Options<'_>,
    outside: &mut Outside<F, X>,
) -> Status
    requires asked { is_some drawable.again ≡ is_some options.now.timeline_file }
    ensures drawn { (program : List ℕ)
        → IfSome drawable.entry.again (λ again. again.program.now ≡ program)
        → IsPictureWritten (names_of options.now).drawn
        (IsPicture (driving.program_name (names_of options.now)) program drawable.entry.report.now)
        drawable.entry.report.now.schedule.items
        (record {
          status = drawable.entry.status;
          err = X.told outside.old.err;
          files = F.contents outside.old.files;
          unwritten = F.is_unwritten outside.old.files;
        })
        (record {
          status = result;
          err = X.told outside.new.err;
          files = F.contents outside.new.files;
          unwritten = F.is_unwritten outside.new.files;
        }) }
    ensures others { (other : List ℕ) → (names_of options.now).drawn ≢ Some other
        → F.contents outside.new.files other ≡ F.contents outside.old.files other }
    ensures reads { F.last_fault outside.new.files ≡ F.last_fault outside.old.files }
    ensures unwritten { F.is_unwritten outside.old.files ≡ false
        → F.is_unwritten outside.new.files ≡ true
        → result ≡ Status.Usage }
    ensures usage { drawable.entry.status ≡ Status.Usage → result ≡ Status.Usage }
{
    let Drawable {
        report,
        again,
        status,
    } = drawable;
    let (Some(again), Some(name)) = (again, options.timeline_file) else {
        return status;
    };
    match holds_schedule(alloc, name, report.schedule.entries(), &outside.files) {
        Ok(true) => return tell_over_schedule(name, &mut outside.err),
        Ok(false) => {}
        Err(_) => return tell_undrawn(WalkFault::Memory, status, &mut outside.err),
    }
    match picture_of(alloc, again, options, report) {
        Ok(text) => write_picture(name, text.as_slice(), status, outside),
        Err(fault) => tell_undrawn(fault, status, &mut outside.err),
    }
}

/// Whether the file of a name has the text of a schedule. Fails for want of memory.
fn holds_schedule<F: FileSet>(
    alloc: Global,
    name: &str,
    schedule: Entries<'_>,
    files: &F,
) -> Result<bool, AllocError>
    ensures holds { IfOk result (λ is. is ≡ true
        → HoldsSchedule (F.contents files.now) name.now schedule.entry) }
    ensures apart { IfOk result (λ is. is ≡ false
        → IfSome (F.contents files.now name.now) (λ bytes. bytes ≢ text_of schedule.entry)) }
{
    let mut text = Vec::new(alloc);
    append_schedule(schedule, &mut text)?;
    Ok(files.holds(name, text.as_slice()))
}

/// Tells that a picture would be written over the schedule.
fn tell_over_schedule<X: Telling>(name: &str, err: &mut X) -> Status
    ensures status { result ≡ Status.Usage }
    ensures told { Tells (X.told err.old) (X.told err.new) (over_schedule_line name.now) }
{
    err.tell(b"dpsrun: the picture would write over the schedule in ");
    err.tell(name.as_bytes());
    err.tell(b"\n");
    Status::Usage
}

/// Tells why a run isn't drawn. Gives the status that it has.
fn tell_undrawn<X: Telling>(fault: WalkFault, status: Status, err: &mut X) -> Status
    ensures status { result ≡ status }
    ensures told { Tells (X.told err.old) (X.told err.new) (undrawn_line fault) }
{
    err.tell(undrawn_text(fault));
    status
}

/// What is told of a run that isn't drawn.
fn undrawn_text(fault: WalkFault) -> &'static [u8]
    ensures { result.now ≡ undrawn_line fault }
{
    match fault {
        WalkFault::Memory => b"dpsrun: no timeline: out of memory\n",
        WalkFault::TooLarge => { b"dpsrun: no timeline: the run is too large to be made again\n" }
    }
}

/// The picture of a run.
fn picture_of<S: Interpret + Drop, D: Deeds + Drop>(
    alloc: Global,
    again: Again<'_, S, D>,
    options: &Options<'_>,
    report: &Report,
) -> Result<Vec<u8>, WalkFault>
    ensures { IfOk result (λ text. IsPicture (driving.program_name (names_of options.now))
        again.entry.program.now report.now text.items) }
{
    let Again {
        makers,
        program,
        keys,
    } = again;
    let setup = Setup {
        keys,
        output: ANY_OUTPUT,
    };
    let run = Rerun {
        makers,
        program,
        setup,
        file: program_name(options),
    };
    timeline_of(
        alloc,
        run,
        report.schedule.entries(),
        called(report.outcome),
    )
}

/// Writes the text of a picture to the file of a name. Where that fails it is told. Gives the status.
fn write_picture<F: FileSet, X: Telling>(
    name: &str,
    text: &[u8],
    status: Status,
    outside: &mut Outside<F, X>,
) -> Status
    ensures drawn { (schedule : List Entry)
        → IfSome (F.contents outside.old.files name.now) (λ bytes. bytes ≢ text_of schedule)
        → IsPictureWritten (Some name.now) (λ written. written ≡ text.now) schedule
        (record {
          status = status;
          err = X.told outside.old.err;
          files = F.contents outside.old.files;
          unwritten = F.is_unwritten outside.old.files;
        })
        (record {
          status = result;
          err = X.told outside.new.err;
          files = F.contents outside.new.files;
          unwritten = F.is_unwritten outside.new.files;
        }) }
    ensures others { (other : List ℕ) → other ≢ name.now
        → F.contents outside.new.files other ≡ F.contents outside.old.files other }
    ensures reads { F.last_fault outside.new.files ≡ F.last_fault outside.old.files }
    ensures unwritten { F.is_unwritten outside.old.files ≡ false
        → F.is_unwritten outside.new.files ≡ true
        → result ≡ Status.Usage }
    ensures usage { status ≡ Status.Usage → result ≡ Status.Usage }
{
    match outside.files.write(name, text) {
        Ok(()) => status,
        Err(_) => {
            tell_unwritten(&mut outside.err, name);
            Status::Usage
        }
    }
}
