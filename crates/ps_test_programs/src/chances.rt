//! A program of many contexts under other turns, and under schedules by chance.

use crate::fakes::{job_of, task_of};
use crate::rows::Verdict;
use crate::runs::CONFIG;
use ps_vault::{Config, Entry, Outcome, RunFault, replay, run_plain};
use std::alloc::{AllocError, Global};
use std::hash::RandomState;

/// The most steps of a turn, one after another.
const QUANTA: [u32; 4] = [1, 2, 7, 100];

/// How many schedules by chance a row has.
const CHANCES: u32 = 200;

/// How many turns such a schedule has; more than any row needs.
const TURNS: usize = 10000;

/// The contexts that such a schedule names: from 1 to so many.
const CONTEXTS: u32 = 4;

/// The steps that a turn of it has: from 1 to so many.
const STEPS: u32 = 7;

/// The next number of a linear congruence (Numerical Recipes, 7.1).
fn next(number: u32) -> u32 {
    number.wrapping_mul(1664525).wrapping_add(1013904223)
}

/// A schedule by chance: each seed has one. Fails for want of memory.
fn by_chance(alloc: Global, seed: u32) -> Result<Vec<Entry>, AllocError> {
    let mut schedule = Vec::new(alloc);
    let mut number = seed;
    for _ in 0..TURNS {
        number = next(number);
        schedule.push(Entry {
            context: 1 + (number >> 24) % CONTEXTS,
            steps: 1 + (number >> 16) % STEPS,
            refused: false,
            shown: None,
        })?;
    }
    Ok(schedule)
}

/// Whether a run that ended so and printed this is one of a row that prints that.
fn verdict_of(outcome: Outcome, printed: &[u8], wanted: &[u8]) -> Verdict {
    match outcome {
        Outcome::Memory if wanted.starts_with(printed) => Verdict::WantsMemory,
        Outcome::Finished | Outcome::Faulted => Verdict::of(printed == wanted),
        Outcome::Memory | Outcome::AllWaiting | Outcome::StepsOut => Verdict::Different,
    }
}

/// Whether a run with this quantum prints this.
fn turned(
    alloc: Global,
    keys: RandomState,
    program: &[u8],
    wanted: &[u8],
    quantum: u32,
) -> Verdict {
    let config = Config { quantum, ..CONFIG };
    match run_plain(alloc, job_of(alloc, keys, program, config)) {
        Err(RunFault::Memory) => Verdict::WantsMemory,
        Err(RunFault::Config) => Verdict::Different,
        Ok(report) => verdict_of(report.outcome, report.printed.as_slice(), wanted),
    }
}

/// Whether a run under the schedule of a seed prints this.
fn chanced(alloc: Global, keys: RandomState, program: &[u8], wanted: &[u8], seed: u32) -> Verdict {
    let Ok(schedule) = by_chance(alloc, seed) else {
        return Verdict::WantsMemory;
    };
    match replay(alloc, task_of(alloc, keys, program), schedule.as_slice()) {
        Err(_) => Verdict::WantsMemory,
        Ok(report) => verdict_of(report.outcome, report.printed.as_slice(), wanted),
    }
}

/// Whether a program prints this with each quantum and under each schedule by chance.
pub fn scheduled(alloc: Global, keys: RandomState, program: &[u8], wanted: &[u8]) -> Verdict {
    let mut verdict = Verdict::Same;
    for quantum in QUANTA {
        verdict = verdict.and(turned(alloc, keys, program, wanted, quantum));
    }
    for seed in 0..CHANCES {
        verdict = verdict.and(chanced(alloc, keys, program, wanted, seed));
    }
    verdict
}
