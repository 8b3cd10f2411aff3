//! A program in a space that is collected, by some numbers of workers: with a collector on a thread of
//! its own, and with one that works between steps.

use crate::fakes::job_of;
use crate::rows::Verdict;
use crate::runs::{CONFIG, again};
use ps_run::System;
use ps_run_workers::{Gate, run, run_gated, run_serial};
use ps_vault::{Config, Outcome, Report, RunFault};
use std::alloc::Global;
use std::hash::RandomState;
use std::sync::Wait;
use std::sync::atomic::{AtomicU64, Ordering};
use std::thread::Threads;

/// How many workers there are in each run of a row.
const WORKERS: [u32; 3] = [1, 4, 32];

/// How often the spaces are exchanged in a run under stress, at least.
pub const MANY: u32 = 100;

/// What each cycle that was flipped took at least: the closes of 32 logs.
const CLOSES: u64 = 32;

/// A program, what it must print, the words of its space, and how often the spaces are exchanged at
/// least.
#[derive(Clone, Copy)]
pub struct Wanted<'a> {
    pub program: &'a [u8],
    pub printed: &'a [u8],
    pub space: u32,
    pub least: u32,
}

impl<'a> Wanted<'a> {
    /// The run of the program by so many workers.
    pub fn config(&self, workers: u32) -> Config {
        Config {
            space: self.space,
            workers,
            ..CONFIG
        }
    }

    /// What a run comes to, and one under its schedule. Sees: whether its gate was told what it must
    /// be.
    pub fn judge(
        &self,
        alloc: Global,
        keys: RandomState,
        told: Result<Report, RunFault>,
        sees: bool,
    ) -> Verdict {
        match told {
            Err(RunFault::Memory) => Verdict::WantsMemory,
            Err(RunFault::Config) => Verdict::Different,
            Ok(report) => {
                let is_same = report.printed.as_slice() == self.printed
                    && has_flipped(&report, self.least)
                    && sees;
                if is_same {
                    again(alloc, keys, self.program, &report)
                } else {
                    Verdict::of(report.outcome == Outcome::Memory).and(Verdict::WantsMemory)
                }
            }
        }
    }
}

/// Whether the spaces were exchanged at least so often, and each time the closes of all logs were
/// taken.
fn has_flipped(report: &Report, least: u32) -> bool {
    report.flips >= least && report.taken / CLOSES >= u64::from(report.flips)
}

/// How many stores the workers were about to make, in an open cycle and in none, and how many words
/// the collector's thread has copied.
#[derive(Drop)]
struct Seen {
    in_cycle: AtomicU64,
    in_none: AtomicU64,
    copied: AtomicU64,
}

impl Seen {
    /// Nothing yet.
    fn new() -> Seen {
        Seen {
            in_cycle: AtomicU64::new(0),
            in_none: AtomicU64::new(0),
            copied: AtomicU64::new(0),
        }
    }

    /// Whether there was some of each.
    fn has_all(&self) -> bool {
        self.in_cycle.load(Ordering::SeqCst) > 0
            && self.in_none.load(Ordering::SeqCst) > 0
            && self.copied.load(Ordering::SeqCst) > 0
    }
}

impl Gate for Seen {
    fn store(&self, cycle_open: bool) {
        let stores = if cycle_open {
            &self.in_cycle
        } else {
            &self.in_none
        };
        stores.fetch_add(1, Ordering::SeqCst);
    }

    fn copied(&self, words: u64) {
        self.copied.store(words, Ordering::SeqCst);
    }
}

/// Whether the program prints this in the space, which is exchanged at least so often, and prints the
/// same again under the schedule of each run: by each number of workers beside a collector's thread,
/// and by four with a collector that works between steps.
pub fn worked<R: Threads + Wait + Sync>(system: System<'_, R>, wanted: Wanted<'_>) -> Verdict {
    let System { rt, alloc, keys } = system;
    let mut verdict = Verdict::Same;
    for workers in WORKERS {
        let job = job_of(alloc, keys, wanted.program, wanted.config(workers));
        let seen = Seen::new();
        let (told, sees) = if workers == 1 {
            let told = run_gated(rt, alloc, job, &seen);
            (told, wanted.least < MANY || seen.has_all())
        } else {
            (run(rt, alloc, job), true)
        };
        verdict = verdict.and(wanted.judge(alloc, keys, told, sees));
    }
    let job = job_of(alloc, keys, wanted.program, wanted.config(CONFIG.workers));
    let told = run_serial(rt, alloc, job);
    verdict.and(wanted.judge(alloc, keys, told, true))
}
