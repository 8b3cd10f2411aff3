//! A program in each order of its steps: with at most so many cuts, or by the worlds that they come
//! to.

use crate::fakes::task_of;
use ps_ctx_operators::operators::WorldOperators;
use ps_cuts::{Ending, Runs, explore_orders};
use ps_ops::operators::Operators;
use ps_run_schedules::{Schedule, steps_of};
use ps_searches::{Bounds, Extent, NoWatcher};
use ps_step::steps::Steps;
use ps_vault::{ANY_ENTRIES, Outcome};
use ps_worlds::explore_worlds;
use std::alloc::{AllocError, Global};
use std::hash::RandomState;

/// The most steps of a run, and the most runs.
const MOST: u32 = 100_000;

/// A program's runs, whose schedules may have any number of entries.
fn runs_of(
    alloc: Global,
    keys: RandomState,
    program: &[u8],
) -> Runs<'_, Steps<Operators>, WorldOperators> {
    Runs {
        alloc,
        task: task_of(alloc, keys, program),
        entries: ANY_ENTRIES,
    }
}

/// How many orders there are, and how many cuts each ending takes.
pub fn explored(
    alloc: Global,
    keys: RandomState,
    program: &[u8],
    cuts: u32,
) -> Result<String, AllocError> {
    let runs = runs_of(alloc, keys, program);
    let bounds = Bounds {
        steps: MOST,
        price: cuts,
        runs: u64::from(MOST),
    };
    let found = explore_orders(&runs, bounds, NoWatcher)?;
    let count = found.runs;
    let mut told = format!(in alloc; "{count} runs, endings of")?;
    for (_, one) in found.endings.iter() {
        let price = one.price;
        write!(told, " {price}")?;
    }
    told.push_str(" cuts")?;
    Ok(told)
}

/// How far a search by worlds came.
fn reach_of(extent: Extent) -> &'static str {
    match extent {
        Extent::All => "all",
        Extent::Most => "most",
        Extent::Lost => "lost",
    }
}

/// How a run ended, by one word.
fn word_of(outcome: Outcome) -> &'static str {
    match outcome {
        Outcome::Finished => "finished",
        Outcome::Faulted => "faulted",
        Outcome::AllWaiting => "waiting",
        Outcome::StepsOut => "cut",
        Outcome::Memory => "memory",
    }
}

/// The text of an ending: how many steps it takes, its outcome, and what was printed.
fn text_of(alloc: Global, ending: &Ending, schedule: &Schedule) -> Result<Vec<u8>, AllocError> {
    let steps = steps_of(schedule.entries());
    let word = word_of(ending.outcome);
    let line = format!(in alloc; "{steps} {word} ")?;
    let mut text = Vec::new(alloc);
    text.extend_from_slice(line.as_bytes())?;
    text.extend_from_slice(ending.printed.as_slice())?;
    Ok(text)
}

/// How many worlds the steps of a program come to, at most so many, how many steps lie between
/// them, whether these are all, and behind each semicolon an ending.
pub fn covered(
    alloc: Global,
    keys: RandomState,
    program: &[u8],
    most: u32,
) -> Result<Vec<u8>, AllocError> {
    let runs = runs_of(alloc, keys, program);
    let covered = explore_worlds(&runs, most, &mut NoWatcher)?;
    let reach = reach_of(covered.extent);
    let (worlds, steps) = (covered.worlds, covered.steps);
    let line = format!(in alloc; "{worlds} worlds, {steps} steps, {reach}")?;
    let mut told = Vec::new(alloc);
    told.extend_from_slice(line.as_bytes())?;
    for (ending, schedule) in covered.endings.iter() {
        told.extend_from_slice(b"; ")?;
        let text = text_of(alloc, ending, schedule)?;
        told.extend_from_slice(text.as_slice())?;
    }
    Ok(told)
}

/// Whether all worlds of a program, at most so many, have these endings, in whichever order.
pub fn ends_as(
    alloc: Global,
    keys: RandomState,
    program: &[u8],
    most: u32,
    wanted: &[Vec<u8>],
) -> Result<bool, AllocError> {
    let runs = runs_of(alloc, keys, program);
    let covered = explore_worlds(&runs, most, &mut NoWatcher)?;
    if covered.extent != Extent::All || covered.endings.len() != wanted.len() {
        return Ok(false);
    }
    for (ending, schedule) in covered.endings.iter() {
        let text = text_of(alloc, ending, schedule)?;
        if !wanted.contains(&text) {
            return Ok(false);
        }
    }
    Ok(true)
}
