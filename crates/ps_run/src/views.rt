//! A state of a run, or steps of it, under a schedule that is given, in place of what it prints.

ghost use Rattle.std.specs.Prelude.{◌≡◌, ◌⊎◌, ℕ, Bool, List, true, false, None, IfSome, IfOk, IsSome, is_some};
ghost use Rattle.ps_run.specs.Driving as driving;
ghost use Rattle.ps_run.specs.Driving.{IsDriven, IsFileFault, IsPastEnd, IsShown, IsUnread, IsViewOf, asked_of, names_of, records_of};
ghost use Rattle.ps_run.specs.Telling.{Tells};

use crate::files::FileSet;
use crate::finishing::tell_lost;
use crate::outputs::{Flushing, Telling};
use crate::outside::Outside;
use crate::places::program_name;
use crate::reading::{read_given, read_program};
use crate::statuses::{Status, end};
use crate::systems::System;
use crate::writing::{hand_out, tell_number};
use itoa::Buffer;
use ps_ctx::deeds::Deeds;
use ps_ctx::makers::Makers;
use ps_language::schedules::Entry;
use ps_run_options::{Options, View};
use ps_run_schedules::{Entries, steps_of};
use ps_states::StepCount;
use ps_step_interpreter::interprets::Interpret;
use ps_vault::{ANY_OUTPUT, Setup};
use ps_walks::{Rerun, StepRange, WalkFault, state_of, step_lines_of};
use std::alloc::Global;

/// Reads the program and the schedule, and writes what is asked for of the run under it to the
/// output. Where the schedule has fewer steps, or the run can't be made again, that is told, and
/// nothing is written.
pub(crate) fn show_view<
    S: Interpret + Drop,
    D: Deeds + Drop,
    F: FileSet,
    W: Flushing,
    X: Telling,
    R,
>(
    system: System<'_, R>,
    makers: Makers<S, D>,
    options: &Options<'_>,
    out: &mut W,
    outside: &mut Outside<F, X>,
) -> Status
    requires asked { IsSome options.now.at }
    requires given { is_some options.now.replay_file ≡ true }
    ensures files { F.contents outside.new.files ≡ F.contents outside.old.files }
    ensures unread { F.last_fault outside.old.files ≡ None
        → IfSome (F.last_fault outside.new.files)
        (λ fault. IsUnread (names_of options.now) fault result
        (X.told outside.old.err) (X.told outside.new.err)) }
    ensures writes { F.is_unwritten outside.new.files ≡ F.is_unwritten outside.old.files }
    ensures run { IsDriven S.asks (names_of options.now)
        (λ asked. asked ≡ asked_of options.now)
        (IsFileFault (F.contents outside.old.files) (names_of options.now) (records_of options.now)
        (X.told outside.old.err) (X.told outside.new.err)
        ⊎ IsPastEnd (F.contents outside.old.files) (names_of options.now) options.now.at
        (X.told outside.old.err) (X.told outside.new.err))
        result (record {
          out_old = W.contents out.old;
          out_new = W.contents out.new;
          err_old = X.told outside.old.err;
          err_new = X.told outside.new.err;
          files_old = F.contents outside.old.files;
          files_new = F.contents outside.new.files;
          flushed = W.is_flushed out.new;
          unwritten = F.is_unwritten outside.new.files;
        }) }
{
    let alloc = system.alloc;
    let Some(view) = options.at else {
        unreachable!()
    };
    let program = match read_program(alloc, options, outside) {
        Ok(program) => program,
        Err(status) => return status,
    };
    let given = match read_given(alloc, options, outside) {
        Ok(Some(given)) => given,
        Ok(None) => unreachable!(),
        Err(status) => return status,
    };
    let last = u64::from(view.last_step());
    let steps = steps_of(Entries::of(given.as_slice()));
    if steps < last {
        return tell_past_end(last, steps, &mut outside.err);
    }
    let setup = Setup {
        keys: system.keys,
        output: ANY_OUTPUT,
    };
    let run = Rerun {
        makers,
        program: program.as_slice(),
        setup,
        file: program_name(options),
    };
    match text_of(alloc, run, given.as_slice(), view) {
        Ok(text) => write_view(text.as_slice(), out, &mut outside.err),
        Err(WalkFault::Memory) => end(&mut outside.err, Status::Memory),
        Err(WalkFault::TooLarge) => tell_too_large(&mut outside.err),
    }
}

/// The text of a state of a run, or of steps of it, under a schedule.
fn text_of<S: Interpret + Drop, D: Deeds + Drop>(
    alloc: Global,
    run: Rerun<'_, S, D>,
    schedule: &[Entry],
    view: View,
) -> Result<Vec<u8>, WalkFault>
    ensures { IfOk result (λ text. IsViewOf run.entry.file.now run.entry.program.now schedule.now view
        text.items) }
{
    match view {
        View::State(step) => {
            let count = StepCount {
                step: u64::from(step),
                steps: steps_of(Entries::of(schedule)),
            };
            state_of(alloc, run, Entries::of(schedule), count)
        }
        View::Steps(first, last) => {
            let range = StepRange {
                past: u64::from(first).saturating_sub(1),
                last: u64::from(last),
            };
            step_lines_of(alloc, run, schedule, range)
        }
    }
}

/// Writes the text of what is asked for. Where the output doesn't take all of it that is told.
fn write_view<W: Flushing, X: Telling>(text: &[u8], out: &mut W, err: &mut X) -> Status
    ensures { (files : driving.Contents) (unwritten : Bool) → IsShown text.now result (record {
      out_old = W.contents out.old;
      out_new = W.contents out.new;
      err_old = X.told err.old;
      err_new = X.told err.new;
      files_old = files;
      files_new = files;
      flushed = W.is_flushed out.new;
      unwritten = unwritten;
    }) }
{
    if hand_out(out, text).is_err() {
        return tell_lost(err);
    }
    Status::Finished
}

/// Tells that a schedule has fewer steps.
fn tell_past_end<X: Telling>(last: u64, steps: u64, err: &mut X) -> Status
    ensures status { result ≡ Status.Usage }
    ensures told { Tells (X.told err.old) (X.told err.new)
        (driving.past_end_line last steps) }
{
    let mut digits = Buffer::new();
    err.tell(b"dpsrun: no step ");
    err.tell(digits.format(last).as_bytes());
    tell_number(err, b" in a schedule of ", steps);
    Status::Usage
}

/// Tells that a run can't be made again.
fn tell_too_large<X: Telling>(err: &mut X) -> Status
    ensures status { result ≡ Status.Memory }
    ensures told { Tells (X.told err.old) (X.told err.new) driving.too_large_line }
{
    err.tell(b"dpsrun: the run is too large to be made again\n");
    Status::Memory
}
