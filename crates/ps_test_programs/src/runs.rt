//! A program by the command line, and again under the schedule that its run returned.

use crate::driven::{ALL_WRITES, MEMORY, driven};
use crate::fakes::{Files, job_of, task_of};
use crate::rows::Verdict;
use ps_run::{ReadFault, System};
use ps_vault::{
    ANY_ENTRIES, ANY_OUTPUT, Config, Entry, Outcome, Report, RunFault, Schedule, replay, run_plain,
};
use std::alloc::{AllocError, Global};
use std::hash::RandomState;
use std::sync::Wait;
use std::thread::Threads;

/// The numbers of a run that ends by itself.
pub const CONFIG: Config = Config {
    space: 65536,
    workers: 4,
    quantum: 100,
    steps: 1000000,
    output: ANY_OUTPUT,
    entries: ANY_ENTRIES,
};

/// The words of a command line.
#[derive(Clone, Copy, Debug, PartialEq, Eq)]
pub enum CommandWords {
    /// Of a run over plain memory.
    Plain,
    /// Of a run in a space that is collected.
    Collected,
}

impl CommandWords {
    /// The words themselves.
    fn all(self) -> &'static [&'static str] {
        match self {
            CommandWords::Plain => &["--plain", "f"],
            CommandWords::Collected => &["f"],
        }
    }
}

/// Whether the command line prints this, with this status and nothing told.
pub fn ran<R: Threads + Wait + Sync>(
    system: System<'_, R>,
    words: CommandWords,
    program: &[u8],
    printed: &[u8],
    status: u8,
) -> Verdict {
    let System { alloc, .. } = system;
    let files = Files::new(alloc, Ok(program), Err(ReadFault::NoRead));
    let given = driven(system, words.all(), files, ALL_WRITES, printed.len());
    let Ok(given) = given else {
        return Verdict::WantsMemory;
    };
    if given.status == MEMORY && printed.starts_with(given.out.as_slice()) {
        return Verdict::WantsMemory;
    }
    Verdict::of(given.status == status && given.out.as_slice() == printed && given.err.is_empty())
}

/// Whether a run prints this, or a beginning of it where memory is wanted, and prints the same
/// bytes again under its schedule.
pub fn replayed(alloc: Global, keys: RandomState, program: &[u8], printed: &[u8]) -> Verdict {
    match run_plain(alloc, job_of(alloc, keys, program, CONFIG)) {
        Err(RunFault::Memory) => Verdict::WantsMemory,
        Err(RunFault::Config) => Verdict::Different,
        Ok(report) => {
            let is_wanted = report.printed.as_slice() == printed
                || (report.outcome == Outcome::Memory
                    && printed.starts_with(report.printed.as_slice()));
            if is_wanted {
                again(alloc, keys, program, &report)
            } else {
                Verdict::Different
            }
        }
    }
}

/// The entries of a schedule. `AllocError`: the room for them can't be had.
pub fn entries_of(alloc: Global, schedule: &Schedule) -> Result<Vec<Entry>, AllocError> {
    let mut entries = Vec::new(alloc);
    let mut left = schedule.entries();
    for _ in 0..schedule.len() {
        if let Some(entry) = left.next() {
            entries.push(entry)?;
        }
    }
    Ok(entries)
}

/// Whether the schedule of a report makes a run print the same bytes, or a beginning of them where
/// memory is wanted then.
pub fn again(alloc: Global, keys: RandomState, program: &[u8], report: &Report) -> Verdict {
    let Ok(schedule) = entries_of(alloc, &report.schedule) else {
        return Verdict::WantsMemory;
    };
    let Ok(other) = replay(alloc, task_of(alloc, keys, program), schedule.as_slice()) else {
        return Verdict::WantsMemory;
    };
    let printed = report.printed.as_slice();
    if other.outcome == Outcome::Memory && printed.starts_with(other.printed.as_slice()) {
        return Verdict::WantsMemory;
    }
    if other.printed.as_slice() != printed {
        return Verdict::Different;
    }
    if report.outcome == Outcome::Memory {
        Verdict::WantsMemory
    } else {
        Verdict::of(other.outcome == report.outcome)
    }
}
