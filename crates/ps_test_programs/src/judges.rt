//! Whether a case gives what it says.

use crate::cases::{Call, Case, Wanted};
use crate::driven::{ALL_WRITES, AMPLE, Given, MEMORY, STEPS_OUT, Writes, driven};
use crate::fakes::{Files, job_of, task_of};
use crate::runs::entries_of;
use ps_run::{ReadFault, System};
use ps_vault::{Config, Entry, Outcome, RunFault, replay, run_plain};
use std::alloc::{AllocError, Global};
use std::hash::RandomState;
use std::sync::Wait;
use std::thread::Threads;

/// More bytes than a case prints.
const ROOM: usize = 1000;

/// Why a case is not as it says.
#[derive(Clone, Copy)]
pub enum Amiss {
    /// What of it differs.
    Differs(&'static str),
    WantsMemory,
}

impl From<AllocError> for Amiss {
    fn from(_: AllocError) -> Amiss {
        Amiss::WantsMemory
    }
}

/// Fails where something isn't so.
fn expect(is_so: bool, what: &'static str) -> Result<(), Amiss> {
    if is_so {
        Ok(())
    } else {
        Err(Amiss::Differs(what))
    }
}

/// What a file gives that is read.
fn bytes_in(file: &Result<Vec<u8>, ReadFault>) -> Result<&[u8], ReadFault> {
    match file {
        Ok(bytes) => Ok(bytes.as_slice()),
        Err(fault) => Err(*fault),
    }
}

/// The exit status of a run that ended so.
fn status_of(outcome: Outcome) -> u8 {
    match outcome {
        Outcome::Finished => 0,
        Outcome::Faulted => 1,
        Outcome::AllWaiting => 3,
        Outcome::StepsOut => 4,
        Outcome::Memory => MEMORY,
    }
}

/// How many writes an output takes in one of the runs of a case.
fn writes_in(faults: u32, run: u32) -> u32 {
    if faults == 0 { AMPLE } else { run }
}

impl Case<'_> {
    /// Fails where the case is not as it says. The keys are for the tables of names alone.
    pub fn judge<R: Threads + Wait + Sync>(&self, system: System<'_, R>) -> Result<(), Amiss> {
        let System { alloc, keys, .. } = system;
        match &self.call {
            Call::Words(words) => {
                let words: Vec<&str> = words.split_whitespace().collect(alloc)?;
                self.judge_words(system, words.as_slice())?;
                self.judge_record(system)
            }
            Call::Entries(entries) => self.judge_entries(alloc, keys, entries.as_slice()),
            Call::Numbers(numbers) => self.judge_numbers(alloc, keys, *numbers),
        }
    }

    /// Fails where a run by these words isn't so, with each number of writes to the output.
    fn judge_words<R: Threads + Wait + Sync>(
        &self,
        system: System<'_, R>,
        words: &[&str],
    ) -> Result<(), Amiss> {
        for run in 0..self.out_faults.max(1) {
            let out = writes_in(self.out_faults, run);
            self.judge_output(system, words, out)?;
        }
        Ok(())
    }

    /// Fails where a run by these words isn't so, with so many writes to the output, and each number
    /// of writes to the error output.
    fn judge_output<R: Threads + Wait + Sync>(
        &self,
        system: System<'_, R>,
        words: &[&str],
        out: u32,
    ) -> Result<(), Amiss> {
        for run in 0..self.err_faults.max(1) {
            let err = writes_in(self.err_faults, run);
            self.judge_run(system, words, Writes { out, err })?;
        }
        Ok(())
    }

    /// Fails where a run by these words isn't so, with so many writes.
    fn judge_run<R: Threads + Wait + Sync>(
        &self,
        system: System<'_, R>,
        words: &[&str],
        writes: Writes,
    ) -> Result<(), Amiss> {
        let System { alloc, .. } = system;
        let mut files = Files::new(alloc, bytes_in(&self.program), bytes_in(&self.schedule));
        files.takes_writes = self.takes_writes;
        let given = driven(system, words, files, writes, ROOM)?;
        self.judge_ended(&given, self.status)?;
        let tells = self.told.is(given.err.as_slice(), self.err_faults > 0);
        expect(tells, "told")?;
        expect(self.records(given.record.as_ref()), "record")
    }

    /// Fails where a run that follows the record of a case isn't so.
    fn judge_record<R: Threads + Wait + Sync>(&self, system: System<'_, R>) -> Result<(), Amiss> {
        let System { alloc, .. } = system;
        let Some(Wanted::Exactly(record)) = &self.record else {
            return Ok(());
        };
        let files = Files::new(alloc, bytes_in(&self.program), Ok(record.as_slice()));
        let words = ["--replay", "s", "f"];
        let given = driven(system, &words, files, ALL_WRITES, ROOM)?;
        // Behind the steps of a run that wanted memory, a context could go on.
        let status = if self.status == MEMORY {
            STEPS_OUT
        } else {
            self.status
        };
        self.judge_ended(&given, status)
    }

    /// Fails where the status is another, or what is printed isn't so.
    fn judge_ended(&self, given: &Given, status: u8) -> Result<(), Amiss> {
        let printed = given.out.as_slice();
        if given.status == MEMORY && status != MEMORY && self.printed.is(printed, true) {
            return Err(Amiss::WantsMemory);
        }
        expect(given.status == status, "status")?;
        expect(self.printed.is(printed, self.out_faults > 0), "printed")
    }

    /// Whether this is what the case says that is written to a file.
    fn records(&self, written: Option<&Vec<u8>>) -> bool {
        match (&self.record, written) {
            (None, None) => true,
            (Some(wanted), Some(text)) => wanted.is(text.as_slice(), false),
            (None, Some(_)) | (Some(_), None) => false,
        }
    }

    /// Fails where a run under these entries isn't so, or the report doesn't have them.
    fn judge_entries(
        &self,
        alloc: Global,
        keys: RandomState,
        entries: &[Entry],
    ) -> Result<(), Amiss> {
        let Ok(program) = bytes_in(&self.program) else {
            return Err(Amiss::Differs("program"));
        };
        let task = task_of(alloc, keys, program);
        let Ok(report) = replay(alloc, task, entries) else {
            return Err(Amiss::WantsMemory);
        };
        let given = Given {
            status: status_of(report.outcome),
            out: report.printed,
            err: Vec::new(alloc),
            record: None,
        };
        self.judge_ended(&given, self.status)?;
        let Ok(followed) = entries_of(alloc, &report.schedule) else {
            return Err(Amiss::WantsMemory);
        };
        expect(followed.as_slice() == entries, "entries")
    }

    /// Fails where a run with these numbers isn't refused.
    fn judge_numbers(
        &self,
        alloc: Global,
        keys: RandomState,
        numbers: Config,
    ) -> Result<(), Amiss> {
        let told = run_plain(alloc, job_of(alloc, keys, b"", numbers));
        expect(matches!(told, Err(RunFault::Config)), "numbers")
    }
}
