//! What a run is given, and what it gives.

ghost use Rattle.std.specs.Prelude.{◌≡◌, ◌↔◌, IsTrue};
ghost use Rattle.ps_vault.specs.Reports.{is_memory, IsWithin};
ghost use Rattle.ps_vault.specs.declared.reports.TheConstants.{FIRST_ENTRIES};

use ps_run_schedules::Schedule;
use thiserror::Error;

/// How many entries find room in the schedule of a run from its start. So a run that has hardly
/// begun can't end for want of room for the next.
pub const FIRST_ENTRIES: usize = 4096;

/// The bound on the entries of a schedule without one: no memory has as many.
pub const ANY_ENTRIES: u64 = u64::MAX;

/// The numbers of a run.
#[derive(Clone, Copy, Debug, PartialEq, Eq)]
pub struct Config {
    /// The words of a space of memory, from 4,096 to 1,048,576.
    pub space: u32,
    /// The threads that make steps, from 1 to 32.
    pub workers: u32,
    /// The most steps of a context's turn, from 1 to 65,535.
    pub quantum: u32,
    /// The most steps of the run, at least 1.
    pub steps: u32,
    /// The most bytes that the program may print.
    pub output: u64,
    /// The most entries that its schedule may have.
    pub entries: u64,
}

/// The room of a schedule.
#[derive(Clone, Copy)]
pub struct Room {
    /// How many entries find room from the start.
    pub first: usize,
    /// The most entries.
    pub most: u64,
}

impl Room {
    /// That of a run whose schedule may have so many entries.
    pub fn of_run(most: u64) -> Room
        ensures { result ≡ record { first = FIRST_ENTRIES; most = most } }
    {
        Room {
            first: FIRST_ENTRIES,
            most,
        }
    }
}

/// How far a run may go.
#[derive(Clone, Copy, Debug, PartialEq, Eq)]
pub struct Budget {
    /// The most steps.
    pub steps: u32,
    /// The most entries of its schedule.
    pub entries: u64,
}

impl Config {
    /// The space where none is asked for, in words.
    pub const DEFAULT_SPACE: u32 = 65536;

    /// The least and the most words of a space.
    pub const LEAST_SPACE: u32 = 4096;

    pub const MOST_SPACE: u32 = 1_048_576;

    /// The most threads that make steps.
    pub const MOST_WORKERS: u32 = 32;

    /// The most steps of a turn.
    pub const MOST_QUANTUM: u32 = 65535;

    /// Whether each number is in its range.
    pub fn is_within(&self) -> bool
        ensures { IsTrue result ↔ IsWithin self.now }
    {
        Self::LEAST_SPACE <= self.space
            && self.space <= Self::MOST_SPACE
            && 1 <= self.workers
            && self.workers <= Self::MOST_WORKERS
            && 1 <= self.quantum
            && self.quantum <= Self::MOST_QUANTUM
            && 1 <= self.steps
    }
}

/// How a run ended, by the first of these that holds.
#[derive(Clone, Copy, Debug, PartialEq, Eq)]
pub enum Outcome {
    /// Each context is finished, and no line of an error was printed.
    Finished,
    /// Each context is finished, and a line of an error was printed.
    Faulted,
    /// A context is left, and none is ready.
    AllWaiting,
    /// A context is ready, and the steps are used up.
    StepsOut,
    /// A growth was refused before any of these, or more was to be printed than may be, or the
    /// schedule to have more entries.
    Memory,
}

impl Outcome {
    /// Whether it is for want of memory.
    pub fn is_memory(self) -> bool
        ensures { result ≡ is_memory self }
    {
        match self {
            Outcome::Memory => true,
            Outcome::Finished | Outcome::Faulted | Outcome::AllWaiting | Outcome::StepsOut => false,
        }
    }
}

/// What a run gives.
#[derive(Drop)]
pub struct Report {
    /// The bytes that the program printed.
    pub printed: Vec<u8>,
    /// Which context made each step.
    pub schedule: Schedule,
    pub outcome: Outcome,
    /// The collector's cycles; none without a collector.
    pub flips: u32,
    /// The records that the collector took; none without one.
    pub taken: u64,
}

/// Why there is no report.
#[derive(Clone, Copy, Debug, PartialEq, Eq, Error)]
pub enum RunFault {
    /// A number is out of its range.
    #[error("a number of the run is out of its range")]
    Config,
    /// The room that a run starts with can't be had.
    #[error("out of memory")]
    Memory,
}
