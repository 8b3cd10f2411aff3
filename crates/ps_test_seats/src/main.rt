//! Rows of calls at two seats of one table: a memory, whose words a collector at the other seat
//! copies. Prints which rows differ from what they say, and how many rows there are.
//!
//! A row is a call, a colon and its answer; `5 times` before a call repeats it. Rows up to an empty
//! line are made at the same two seats; one behind `#` is a remark. The first of them may be
//! `copier`: the collector is that of a thread then, and else one by single calls. A whole run is a
//! row by itself: `timings ORDER CALLS`, perhaps with a slot, `ring SLOT` and `program TEXT`.
//!
//! Why so:
//! - The contracts of the two seats say what each call answers. They don't say that it is made
//!   where it may be, nor that a cycle of these calls comes to its end: the rows show it.
//! - An account of what was called foretells the answers of whole runs, so that no expected value
//!   comes from the collector.
#![tactic(auto)]

ghost use Rattle.std.specs.Prelude.{◌≡◌};

mod accounts;
mod arrays;
mod calls;
mod lent;
mod programs;
mod rings;
mod sides;
mod timings;

use anyhow::{Result, bail};
use calls::SeatCall;
use lent::Lent;
use programs::stress;
use ps_ctx::makers::Makers;
use ps_ctx_operators::operators::WorldOperators;
use ps_gc::Naming;
use ps_ops::operators::Operators;
use ps_step::steps::Steps;
use rings::fill_and_drain;
use sides::{Seats, Sides};
use std::alloc::Global;
use std::hash::RandomState;
use std::marker::Brand;
use timings::{STORES, Timing, time_one};

/// A row's call and its answer.
fn parts(row: &str) -> (&str, &str) {
    row.split_once(": ").unwrap_or((row, ""))
}

/// How often the call of a row is made, and the call.
fn repeated(row: &str) -> (u32, &str) {
    let (call, _) = parts(row);
    match call.split_once(" times ") {
        Some((times, call)) => (times.parse::<u32>().unwrap_or(1), call),
        None => (1, call),
    }
}

/// Tells a row whose answer is another.
fn tell(rt: &HostRuntime, row: &str, answer: Option<String>) -> Result<()> {
    let (_, wanted) = parts(row);
    match answer {
        Some(answer) if answer.as_str() == wanted => {}
        Some(answer) => println!(rt; "differs: {row}, but {answer}")?,
        None => println!(rt; "differs: {row}, but there is no such call")?,
    }
    Ok(())
}

/// Makes the calls of rows, of the collector by single steps.
fn play_steps<J: Naming>(rt: &HostRuntime, seats: Seats, rows: &[String]) -> Result<()>
    requires { seats.vm.seat.table_id ≡ J.table }
{
    let mut sides: Sides<J> = Sides::new(rt.alloc(), seats);
    for row in rows {
        let (times, text) = repeated(row.as_str());
        let call = SeatCall::read(rt.alloc(), text)?;
        for _ in 0..times {
            tell(rt, row.as_str(), call.of_sides(&mut sides)?)?;
        }
    }
    Ok(())
}

/// Makes the calls of rows, of the collector as its thread has it.
fn play_copier<J: Naming>(rt: &HostRuntime, seats: Seats, rows: &[String]) -> Result<()>
    requires { seats.vm.seat.table_id ≡ J.table }
{
    let mut lent: Lent<J> = Lent::new(rt.alloc(), seats)?;
    for row in rows {
        let (times, text) = repeated(row.as_str());
        let call = SeatCall::read(rt.alloc(), text)?;
        for _ in 0..times {
            tell(rt, row.as_str(), call.of_lent(&mut lent)?)?;
        }
    }
    Ok(())
}

/// How many of the cycles are flipped whose logs are closed behind each store of the script.
fn time_all(alloc: Global, order: &str, calls: u32, slot: Option<u32>) -> Result<u32> {
    let mut flips: u32 = 0;
    for after in 0..STORES + 1 {
        let timing = Timing {
            order,
            calls,
            slot,
            after,
        };
        match time_one::<Brand>(alloc, Seats::new(alloc)?, timing) {
            Ok(flipped) => flips = flips.wrapping_add(flipped as u32),
            Err(fault) => bail!("behind store {after}: {fault}"),
        }
    }
    Ok(flips)
}

/// What a program comes to with a whole cycle behind each step: its steps, its flips, and what it
/// prints.
fn stressed(alloc: Global, keys: RandomState, program: &str) -> Result<String> {
    let makers = Makers {
        steps: Steps::<Operators>::new(alloc),
        operators: WorldOperators { alloc },
    };
    let came = stress::<Brand, Steps<Operators>, WorldOperators>(
        alloc,
        makers,
        keys,
        Seats::new(alloc)?,
        program.as_bytes(),
    )?;
    let printed = str::from_utf8(came.printed.as_slice()).unwrap_or("?");
    let (outcome, made, flips) = (came.outcome, came.made, came.flips);
    Ok(format!(in alloc; "{outcome:?}, {made} steps, {flips} flips, {printed:?}")?)
}

/// What a whole run of this name comes to. None: it is no whole run.
fn whole_run(alloc: Global, keys: RandomState, call: &str) -> Result<Option<String>> {
    let (name, rest) = call.split_once(' ').unwrap_or((call, ""));
    let mut words = rest.split_whitespace();
    let order = words.next().unwrap_or("");
    let mut number = || words.next().and_then(|text| text.parse::<u32>().ok());
    match name {
        "program" => Ok(Some(stressed(alloc, keys, rest)?)),
        "ring" => {
            let slot = order.parse::<u32>()?;
            let taken = fill_and_drain::<Brand>(alloc, Seats::new(alloc)?, slot)?;
            Ok(Some(format!(in alloc; "{taken} records")?))
        }
        "timings" => {
            let (calls, slot) = (number().unwrap_or(0), number());
            let flips = time_all(alloc, order, calls, slot)?;
            Ok(Some(format!(in alloc; "{flips} flips")?))
        }
        _ => Ok(None),
    }
}

/// Makes the rows up to an empty line.
fn play(rt: &HostRuntime, keys: RandomState, rows: &[String]) -> Result<()> {
    let alloc = rt.alloc();
    let Some((first, others)) = rows.split_first() else {
        return Ok(());
    };
    if first.as_str() == "copier" {
        return play_copier::<Brand>(rt, Seats::new(alloc)?, others);
    }
    let (call, _) = parts(first.as_str());
    match whole_run(alloc, keys, call) {
        Ok(None) => play_steps::<Brand>(rt, Seats::new(alloc)?, rows),
        Ok(answer) => tell(rt, first.as_str(), answer),
        Err(fault) => {
            let told = format!(in alloc; "{fault}")?;
            tell(rt, first.as_str(), Some(told))
        }
    }
}

/// Plays the rows of the input. Fails where memory is wanted.
fn main(rt: HostRuntime) -> Result<()> {
    let keys = RandomState::new(&rt)?;
    let mut rows = Vec::new(rt.alloc());
    let mut count: u64 = 0;
    for line in rt.lines(rt.alloc()) {
        let row = line?;
        if row.is_empty() {
            play(&rt, keys, rows.as_slice())?;
            rows.clear();
        } else if !row.starts_with('#') {
            count = count.wrapping_add(1);
            rows.push(row)?;
        }
    }
    play(&rt, keys, rows.as_slice())?;
    println!(&rt; "{count} rows")?;
    Ok(())
}
