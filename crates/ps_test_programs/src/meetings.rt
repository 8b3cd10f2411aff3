//! A run whose collector copies while a worker stands in the middle of a store.

use crate::collected::Wanted;
use crate::fakes::job_of;
use crate::rows::Verdict;
use ps_run::System;
use ps_run_workers::{Gate, run_gated};
use std::sync::Wait;
use std::sync::atomic::{AtomicU64, Ordering};
use std::thread::Threads;

/// How often a wait looks, at most.
const LOOKS: u64 = 100_000_000;

/// How many words must be copied while a store is half done.
const WORDS: u64 = 100;

/// A worker and the collector's thread that wait for each other: the first word that is copied waits
/// until a worker stands before a store in an open cycle, and that worker waits until so many words
/// more are copied. Each looks at most so often.
#[derive(Drop)]
struct Meeting {
    /// Whether a worker stood before a store in an open cycle.
    entered: AtomicU64,
    copied: AtomicU64,
    /// Whether the first store waits, or has waited; and the first word.
    store_waits: AtomicU64,
    word_waits: AtomicU64,
    /// Whether what they waited for came.
    store_met: AtomicU64,
    word_met: AtomicU64,
}

impl Meeting {
    /// Nobody has come yet.
    fn new() -> Meeting {
        Meeting {
            entered: AtomicU64::new(0),
            copied: AtomicU64::new(0),
            store_waits: AtomicU64::new(0),
            word_waits: AtomicU64::new(0),
            store_met: AtomicU64::new(0),
            word_met: AtomicU64::new(0),
        }
    }

    /// Whether both waited, and what they waited for came.
    fn has_met(&self) -> bool {
        self.store_met.load(Ordering::SeqCst) == 1 && self.word_met.load(Ordering::SeqCst) == 1
    }
}

/// Looks until a number is at least so large, and tells that it was then.
fn wait_for(number: &AtomicU64, least: u64, met: &AtomicU64) {
    for _ in 0..LOOKS {
        if number.load(Ordering::SeqCst) >= least {
            met.store(1, Ordering::SeqCst);
            return;
        }
    }
}

impl Gate for Meeting {
    fn store(&self, cycle_open: bool) {
        if !cycle_open {
            return;
        }
        self.entered.store(1, Ordering::SeqCst);
        if self.store_waits.swap(1, Ordering::SeqCst) == 0 {
            let least = self.copied.load(Ordering::SeqCst).saturating_add(WORDS);
            wait_for(&self.copied, least, &self.store_met);
        }
    }

    fn copied(&self, words: u64) {
        self.copied.store(words, Ordering::SeqCst);
        if self.word_waits.swap(1, Ordering::SeqCst) == 0 {
            wait_for(&self.entered, 1, &self.word_met);
        }
    }
}

/// Whether the collector copies while a worker stands in the middle of an operator, by one worker and
/// by four, and the program prints this.
pub fn collector_copies_while_a_put_is_half_done<R: Threads + Wait + Sync>(
    system: System<'_, R>,
    wanted: Wanted<'_>,
) -> Verdict {
    let System { rt, alloc, keys } = system;
    let mut verdict = Verdict::Same;
    for workers in [1, 4] {
        let job = job_of(alloc, keys, wanted.program, wanted.config(workers));
        let meeting = Meeting::new();
        let told = run_gated(rt, alloc, job, &meeting);
        verdict = verdict.and(wanted.judge(alloc, keys, told, meeting.has_met()));
    }
    verdict
}
