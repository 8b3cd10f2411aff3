//! Many runs of the program's file, under schedules that are chosen by chance.

ghost use Rattle.std.specs.Prelude.{◌≡◌, ◌⊎◌, ℕ, List, true, false, None, Some, IfSome};
ghost use Rattle.ps_run_options.specs.CommandLine.{IsExploration};
ghost use Rattle.ps_vault.specs.Reports.{IsWithin};
ghost use Rattle.ps_run.specs.Driving as driving;
ghost use Rattle.ps_run.specs.Driving.{IsDriven, IsFileFault, IsRecordName, IsUnread, asked_of, config_in, names_of, records_of};

use crate::chances::Chances;
use crate::endings::{ManyRuns, finish_all};
use crate::files::FileSet;
use crate::keeping::{Records, keep_program};
use crate::making::config_of;
use crate::outputs::{Flushing, Telling};
use crate::outside::Outside;
use crate::reading::read_program;
use crate::statuses::{Status, end};
use crate::systems::System;
use crate::writing::append_runs;
use ps_ctx::deeds::Deeds;
use ps_ctx::makers::Makers;
use ps_run_options::{Exploration, Options};
use ps_step_interpreter::interprets::Interpret;
use ps_vault::{Budget, Setup, Task};

/// Reads the program, runs it as many times as is asked for, and writes what the first run printed,
/// the record of each ending where that is asked for, and how many endings there were.
pub(crate) fn explore<
    S: Interpret + Clone + Drop,
    D: Deeds + Clone + Drop,
    F: FileSet,
    W: Flushing,
    X: Telling,
    R,
>(
    system: System<'_, R>,
    makers: Makers<S, D>,
    options: &Options<'_>,
    out: &mut W,
    outside: &mut Outside<F, X>,
) -> Status
    requires many { (runs : ℕ) × (options.now.explore ≡ Some (Exploration.ByChance runs)) }
    requires range { IfSome options.now.explore IsExploration }
    ensures files { (name : List ℕ) → ¬ IsRecordName (names_of options.now).recorded
        (records_of options.now) name
        → F.contents outside.new.files name ≡ F.contents outside.old.files name }
    ensures unread { F.last_fault outside.old.files ≡ None
        → IfSome (F.last_fault outside.new.files)
        (λ fault. IsUnread (names_of options.now) fault result
        (X.told outside.old.err) (X.told outside.new.err)) }
    ensures unwritten { F.is_unwritten outside.old.files ≡ false
        → F.is_unwritten outside.new.files ≡ true
        → result ≡ Status.Usage }
    ensures run { IsDriven S.asks (names_of options.now)
        (λ asked. asked ≡ asked_of options.now)
        (IsFileFault (F.contents outside.old.files) (names_of options.now) (records_of options.now)
        (X.told outside.old.err) (X.told outside.new.err) ⊎ ¬ IsWithin (config_in options.now))
        result (record {
          out_old = W.contents out.old;
          out_new = W.contents out.new;
          err_old = X.told outside.old.err;
          err_new = X.told outside.new.err;
          files_old = F.contents outside.old.files;
          files_new = F.contents outside.new.files;
          flushed = W.is_flushed out.new;
          unwritten = F.is_unwritten outside.new.files;
        }) }
{
    let alloc = system.alloc;
    let Some(Exploration::ByChance(runs)) = options.explore else {
        unreachable!()
    };
    let program = match read_program(alloc, options, outside) {
        Ok(program) => program,
        Err(status) => return status,
    };
    let bytes = program.as_slice();
    let records = Records {
        name: options.record_file,
        many: Some(runs),
        timeline: options.timeline_file,
    };
    if let Err(status) = keep_program(alloc, records, bytes, &outside.files, &mut outside.err) {
        return status;
    }
    let config = config_of(options);
    let mut order = Chances::new(config.quantum, runs, outside.err.progress());
    let task = Task {
        makers,
        program: bytes,
        setup: Setup {
            keys: system.keys,
            output: config.output,
        },
    };
    let budget = Budget {
        steps: config.steps,
        entries: config.entries,
    };
    let made = ps_vault::explore(alloc, &task, budget, runs, &mut order);
    order.clear();
    match made {
        Ok(endings) => {
            let mut lines = Vec::new(alloc);
            if append_runs(u64::from(runs), endings.len(), &mut lines).is_err() {
                return end(&mut outside.err, Status::Memory);
            }
            let many = ManyRuns {
                endings: endings.as_slice(),
                lines: lines.as_slice(),
            };
            finish_all(alloc, many, options, out, outside)
        }
        Err(_) => end(&mut outside.err, Status::Memory),
    }
}
