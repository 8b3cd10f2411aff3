//! A run from the words of a command line to an exit status.

ghost use Rattle.std.specs.Prelude.{◌≡◌, ◌≢◌, ◌⊎◌, [], ℕ, List, Option, true, false, map, IfSome, None, codes, ◌≤◌, is_some};
ghost use Rattle.ps_run_options.specs.CommandLine.{IsExploration, faults_in, named_in, view_asked};
ghost use Rattle.ps_vault.specs.Reports.{IsWithin};
ghost use Rattle.ps_run.specs.Driving as driving;
ghost use Rattle.ps_run.specs.Driving.{AreAsked, AreOutOfRange, IsDriven, IsFileFault, IsPastEnd, IsWrittenName, IsUnread, asked_of, config_in, names_in, names_of, records_of};

use crate::exploring::explore;
use crate::files::FileSet;
use crate::finishing::{Made, finish};
use crate::keeping::{Records, keep_program};
use crate::making::{config_of, make};
use crate::orders::explore_each_order;
use crate::outputs::{Flushing, Telling};
use crate::outside::Outside;
use crate::pictures::{Drawable, draw};
use crate::places::{places_in, second_runs_of};
use crate::reading::{read_given, read_program};
use crate::statuses::{Status, end, number_of};
use crate::streams::{output_of, screen_of};
use crate::systems::System;
use crate::telling::refuse;
use crate::views::show_view;
use crate::worlds::explore_each_world;
use ps_ctx::deeds::Deeds;
use ps_ctx::makers::Makers;
use ps_run_options::{Exploration, Options, parse};
use ps_step_interpreter::interprets::Interpret;
use ps_vault::{Job, RunFault, Watched};
use std::sync::Wait;
use std::thread::Threads;

/// Runs the program that the words name, whose steps and operators on contexts are those of the
/// makers: by workers in a space that is collected, or over memory that never is. Or follows the
/// schedule that the words name, or runs the program many times, under schedules chosen by chance, or
/// in each order of its steps, with few cuts or by the worlds that they lead to.
/// Writes what it printed to `out`, the schedule to the file that the words name for a record, and
/// statistics and faults to `outside.err`. The words are without the program's name; the system has
/// threads, memory and keys, which are for the table of names alone.
///
/// What is printed is what the definitions print for the run's schedule. The record has the text of
/// that schedule. Of many runs the first one's bytes are printed, each ending has a record, and
/// `outside.err` is told how many runs and endings there were. Of all orders it is told too which were
/// explored, and of each ending how many cuts it takes, and an order's steps, outcome and bytes. Where
/// a state is asked for, that is written in place of what is printed: that of the world behind so
/// many steps of the schedule.
///
/// The result is the exit status and the output. The status is 0 where every context finished, 1
/// where an error was printed too, 2 for a fault of the command line, of a file or of the output,
/// 3 where a context is left and all wait, 4 where the steps are used up, 5 for want of memory,
/// before the run or in it. Of many runs it is 0 where all ended alike, and 1 where they did not.
/// With 2 the output has a beginning of what was printed, which is nothing where the words or a
/// file that is read were at fault, and all of it where the record can't be written. After a run
/// whose output took everything the output is flushed. A write to `outside.err` that fails changes
/// nothing else, but that nothing more is told. No file changes but that of the record, and none
/// that holds the program.
///
/// Where the words ask for a stream, the output may be handed printed bytes while the run goes on,
/// and is flushed behind them. If it fails then, the run is cut: it ends with 2, and is one with
/// fewer steps or under a beginning of the given schedule. If a run wants memory before it has a
/// report, the output has a beginning of what the program prints under some schedule.
///
/// The workers take locks and are waited for: all of this holds if the call returns.
pub fn drive<
    S: Interpret + Clone + Drop + Send,
    D: Deeds + Clone + Drop + Send,
    F: FileSet,
    W: Flushing + Drop + Send,
    X: Telling,
    R: Threads + Wait + Sync,
>(
    system: System<'_, R>,
    makers: Makers<S, D>,
    words: &[&str],
    mut out: W,
    outside: &mut Outside<F, X>,
) -> (u8, W)
    ensures fault { faults_in (map (λ word. word.now) words.now) ≢ []
        → ((result.0 ≡ 2) ⊎ (result.0 ≡ 5)) × (W.contents result.1 ≡ W.contents out)
        × (outside.new.files ≡ outside.old.files) }
    ensures files { (name : List ℕ)
        → ¬ IsWrittenName (named_in (codes "record") (map (λ word. word.now) words.now))
        (named_in (codes "timeline") (map (λ word. word.now) words.now))
        (driving.records_in (map (λ word. word.now) words.now)) name
        → F.contents outside.new.files name ≡ F.contents outside.old.files name }
    ensures unread { F.last_fault outside.old.files ≡ None
        → IfSome (F.last_fault outside.new.files) (λ fault. (told : Status)
        × (result.0 ≡ driving.number_of told)
        × IsUnread (names_in (map (λ word. word.now) words.now)) fault told
        (X.told outside.old.err) (X.told outside.new.err)) }
    ensures unwritten { F.is_unwritten outside.old.files ≡ false
        → F.is_unwritten outside.new.files ≡ true
        → result.0 ≡ 2 }
    ensures run { (told : Status) × (result.0 ≡ driving.number_of told)
        × IsDriven S.asks (names_in (map (λ word. word.now) words.now))
        (AreAsked (map (λ word. word.now) words.now))
        ((faults_in (map (λ word. word.now) words.now) ≢ [])
        ⊎ (IsFileFault (F.contents outside.old.files)
        (names_in (map (λ word. word.now) words.now))
        (driving.records_in (map (λ word. word.now) words.now))
        (X.told outside.old.err) (X.told outside.new.err)
        ⊎ (AreOutOfRange (map (λ word. word.now) words.now)
        ⊎ IsPastEnd (F.contents outside.old.files)
        (names_in (map (λ word. word.now) words.now))
        (view_asked (map (λ word. word.now) words.now))
        (X.told outside.old.err) (X.told outside.new.err)))) told
        (record {
          out_old = W.contents out;
          out_new = W.contents result.1;
          err_old = X.told outside.old.err;
          err_new = X.told outside.new.err;
          files_old = F.contents outside.old.files;
          files_new = F.contents outside.new.files;
          flushed = W.is_flushed result.1;
          unwritten = F.is_unwritten outside.new.files;
        }) }
{
    match parse(system.alloc, words) {
        Ok(options) => {
            let (status, out) = carry_out(system, makers, &options, out, outside);
            (number_of(status), out)
        }
        Err(error) => {
            let status = refuse(system.alloc, &error, &mut outside.err);
            (number_of(status), out)
        }
    }
}

/// Does what the options ask for. Gives the status and the output.
fn carry_out<
    S: Interpret + Clone + Drop + Send,
    D: Deeds + Clone + Drop + Send,
    F: FileSet,
    W: Flushing + Drop + Send,
    X: Telling,
    R: Threads + Wait + Sync,
>(
    system: System<'_, R>,
    makers: Makers<S, D>,
    options: &Options<'_>,
    mut out: W,
    outside: &mut Outside<F, X>,
) -> (Status, W)
    requires range { IfSome options.now.explore IsExploration }
    requires given { is_some options.now.at ≡ true → is_some options.now.replay_file ≡ true }
    ensures files { (name : List ℕ) → ¬ IsWrittenName (names_of options.now).recorded
        (names_of options.now).drawn (records_of options.now) name
        → F.contents outside.new.files name ≡ F.contents outside.old.files name }
    ensures unread { F.last_fault outside.old.files ≡ None
        → IfSome (F.last_fault outside.new.files)
        (λ fault. IsUnread (names_of options.now) fault result.0
        (X.told outside.old.err) (X.told outside.new.err)) }
    ensures unwritten { F.is_unwritten outside.old.files ≡ false
        → F.is_unwritten outside.new.files ≡ true
        → result.0 ≡ Status.Usage }
    ensures run { IsDriven S.asks (names_of options.now)
        (λ asked. asked ≡ asked_of options.now)
        ((IsFileFault (F.contents outside.old.files) (names_of options.now) (records_of options.now)
        (X.told outside.old.err) (X.told outside.new.err) ⊎ ¬ IsWithin (config_in options.now))
        ⊎ IsPastEnd (F.contents outside.old.files) (names_of options.now) options.now.at
        (X.told outside.old.err) (X.told outside.new.err))
        result.0 (record {
          out_old = W.contents out;
          out_new = W.contents result.1;
          err_old = X.told outside.old.err;
          err_new = X.told outside.new.err;
          files_old = F.contents outside.old.files;
          files_new = F.contents outside.new.files;
          flushed = W.is_flushed result.1;
          unwritten = F.is_unwritten outside.new.files;
        }) }
{
    if options.at.is_some() {
        let status = show_view(system, makers, options, &mut out, outside);
        return (status, out);
    }
    match options.explore {
        None => run(system, makers, options, out, outside),
        Some(Exploration::ByChance(_)) => {
            let status = explore(system, makers, options, &mut out, outside);
            (status, out)
        }
        Some(Exploration::EachOrder(_)) => {
            let status = explore_each_order(system, makers, options, &mut out, outside);
            (status, out)
        }
        Some(Exploration::EachWorld(_)) => {
            let status = explore_each_world(system, makers, options, &mut out, outside);
            (status, out)
        }
    }
}

/// Reads the program, and the schedule where one is named, makes the steps and writes what they
/// printed. Gives the status and the output.
fn run<
    S: Interpret + Clone + Drop + Send,
    D: Deeds + Clone + Drop + Send,
    F: FileSet,
    W: Flushing + Drop + Send,
    X: Telling,
    R: Threads + Wait + Sync,
>(
    system: System<'_, R>,
    makers: Makers<S, D>,
    options: &Options<'_>,
    out: W,
    outside: &mut Outside<F, X>,
) -> (Status, W)
    requires single { options.now.explore ≡ None }
    requires whole { options.now.at ≡ None }
    ensures files { (name : List ℕ) → ¬ IsWrittenName (names_of options.now).recorded
        (names_of options.now).drawn None name
        → F.contents outside.new.files name ≡ F.contents outside.old.files name }
    ensures unread { F.last_fault outside.old.files ≡ None
        → IfSome (F.last_fault outside.new.files)
        (λ fault. IsUnread (names_of options.now) fault result.0
        (X.told outside.old.err) (X.told outside.new.err)) }
    ensures unwritten { F.is_unwritten outside.old.files ≡ false
        → F.is_unwritten outside.new.files ≡ true
        → result.0 ≡ Status.Usage }
    ensures run { IsDriven S.asks (names_of options.now)
        (λ asked. asked ≡ asked_of options.now)
        (IsFileFault (F.contents outside.old.files) (names_of options.now) None
        (X.told outside.old.err) (X.told outside.new.err) ⊎ ¬ IsWithin (config_in options.now))
        result.0 (record {
          out_old = W.contents out;
          out_new = W.contents result.1;
          err_old = X.told outside.old.err;
          err_new = X.told outside.new.err;
          files_old = F.contents outside.old.files;
          files_new = F.contents outside.new.files;
          flushed = W.is_flushed result.1;
          unwritten = F.is_unwritten outside.new.files;
        }) }
{
    let alloc = system.alloc;
    let program = match read_program(alloc, options, outside) {
        Ok(program) => program,
        Err(status) => return (status, out),
    };
    let bytes = program.as_slice();
    let records = Records {
        name: options.record_file,
        many: None,
        timeline: options.timeline_file,
    };
    if let Err(status) = keep_program(alloc, records, bytes, &outside.files, &mut outside.err) {
        return (status, out);
    }
    let given = match read_given(alloc, options, outside) {
        Ok(given) => given,
        Err(status) => return (status, out),
    };
    let Ok(again) = second_runs_of(options, &makers, bytes, system.keys) else {
        return (end(&mut outside.err, Status::Memory), out);
    };
    let job = Job {
        makers,
        program: bytes,
        config: config_of(options),
        keys: system.keys,
    };
    let screen = screen_of(out, options.stream);
    let Watched { report, screen } = make(system, job, options, given, screen);
    match report {
        Ok(report) => {
            let places = places_in(alloc, again.places, options, &report);
            let made = Made {
                report: &report,
                places: places.text(),
            };
            let (status, out) = finish(alloc, made, options, screen, outside);
            let drawable = Drawable {
                report: &report,
                again: again.picture,
                status,
            };
            (draw(alloc, drawable, options, outside), out)
        }
        Err(RunFault::Memory) => (end(&mut outside.err, Status::Memory), output_of(screen)),
        Err(RunFault::Config) => (Status::Usage, output_of(screen)),
    }
}
