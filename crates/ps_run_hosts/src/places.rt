//! Where a context of a run raised its last error, as a host is told it.
//!
//! Why so:
//! - A run keeps no places. The host hands its schedule in, and the steps are made again.

ghost use Rattle.std.specs.Prelude.{◌≡◌, map};
ghost use Rattle.ps_run_hosts.specs.Hosts as hosts;
ghost use Rattle.ps_run_hosts.specs.Places as spec;
ghost use Rattle.ps_run_hosts.specs.Places.{IsPlaceHanded};

use crate::handing::given_entries;
use crate::hosting::Refusal;
use crate::keys::keys_of;
use crate::numbers::{HostEntry, Settings, code_of_refusal, most_output};
use ps_ctx::deeds::Deeds;
use ps_ctx::makers::Makers;
use ps_places::position_of;
use ps_run_schedules::Entries;
use ps_step_interpreter::interprets::Interpret;
use ps_vault::Setup;
use ps_walks::{RaisedAt, Rerun, WalkFault, raised_at};
use std::alloc::Global;

/// Where an error was raised.
#[repr(C)]
#[derive(Clone, Copy, Debug, PartialEq, Eq)]
pub struct HostPlace {
    /// The number of the step in the run's schedule, from 1.
    pub step: u64,
    /// The line and the column in the program, from 1; a column is a byte. Both are 0 where what
    /// raised it doesn't stand in the program.
    pub line: u64,
    pub column: u64,
    /// The byte of the program, from 0; 0 too where it doesn't stand there.
    pub offset: u64,
}

/// A run that was made: its program, what it was made by, and its schedule.
#[derive(Drop)]
pub struct PastRun<'a, S: Drop, D: Drop> {
    pub makers: Makers<S, D>,
    pub program: &'a [u8],
    pub settings: &'a Settings,
    pub given: &'a [HostEntry],
}

/// Why no place is told.
#[derive(Clone, Copy, Debug, PartialEq, Eq)]
enum Unplaced {
    Refused(Refusal),
    /// The context raised no error, or isn't left.
    NoError,
    /// The run takes more words in all than a memory that only grows has.
    TooLarge,
}

/// The code of why no place is told: 23, no error; 27, too large; else that of the refusal.
fn code_of_unplaced(unplaced: Unplaced) -> u32
    ensures { result ≡ spec.code_of_unplaced unplaced }
{
    match unplaced {
        Unplaced::Refused(refusal) => code_of_refusal(refusal),
        Unplaced::NoError => 23,
        Unplaced::TooLarge => 27,
    }
}

/// What a host is handed of a place.
fn handed_place(program: &[u8], at: RaisedAt) -> HostPlace
    ensures { result ≡ spec.handed_place program.now at }
{
    match at.begin {
        Some(begin) => {
            let position = position_of(program, begin);
            HostPlace {
                step: at.step,
                line: position.line as u64,
                column: position.column as u64,
                offset: begin as u64,
            }
        }
        None => HostPlace {
            step: at.step,
            line: 0,
            column: 0,
            offset: 0,
        },
    }
}

/// Where a context raised its last error under the steps of a schedule.
fn find_place<S: Interpret + Drop, D: Deeds + Drop>(
    alloc: Global,
    past: PastRun<'_, S, D>,
    context: u32,
) -> Result<RaisedAt, Unplaced> {
    let PastRun {
        makers,
        program,
        settings,
        given,
    } = past;
    let entries = match given_entries(alloc, given) {
        Ok(entries) => entries,
        Err(refusal) => return Err(Unplaced::Refused(refusal)),
    };
    let Ok(keys) = keys_of(&settings.keys) else {
        return Err(Unplaced::Refused(Refusal::NoRoom));
    };
    let run = Rerun {
        makers,
        program,
        setup: Setup {
            keys,
            output: most_output(settings),
        },
        file: b"",
    };
    match raised_at(alloc, run, Entries::of(entries.as_slice()), context) {
        Ok(Some(at)) => Ok(at),
        Ok(None) => Err(Unplaced::NoError),
        Err(WalkFault::TooLarge) => Err(Unplaced::TooLarge),
        Err(WalkFault::Memory) => Err(Unplaced::Refused(Refusal::NoRoom)),
    }
}

/// Tells where a context of a run raised its last error, also one that was caught, and gives 0. The
/// steps of its schedule are made again, over memory that only grows.
///
/// 23: the context raised none, or isn't left behind the steps. 19: one of the entries is none. 17:
/// memory was refused. 27: the run takes more words in all than 16,777,215. Then the place stays as
/// it was.
pub fn hand_place<S: Interpret + Drop, D: Deeds + Drop>(
    alloc: Global,
    past: PastRun<'_, S, D>,
    context: u32,
    place: &mut HostPlace,
) -> u32
    ensures { IsPlaceHanded past.entry.program.now place.old place.new result }
{
    let program = past.program;
    match find_place(alloc, past, context) {
        Ok(at) => {
            *place = handed_place(program, at);
            0
        }
        Err(unplaced) => code_of_unplaced(unplaced),
    }
}
