//! Rows of single layers, which no program of the language shows: tokens of texts, words, records
//! and names, dictionaries, and runs of the collector's machine. Prints which rows differ from what
//! they say, and how many there are. With words behind its name it tells how long a layer takes:
//! `scan`, of the input as one text; `dictionary SIZE STEP ROUNDS`, of puts and look-ups.
//!
//! Why so:
//! - Rows are input of a program and no constants in tests: tables of constants are costly to
//!   prove, and data is free. A row that differs is told by a line of output.
//! - A second reading of the grammar is a script on random texts (`bench/texts`), of which some are
//!   rows here. No contract could say anything of it.
#![tactic(auto)]

mod events;
mod index;
mod layouts;
mod machine;
mod named;
mod rates;
mod shown;
mod speed;
mod tokens;

use anyhow::{Result, bail};
use machine::{CoreRun, number_of};
use named::Named;
use ps_core::law;
use std::env;
use std::hash::RandomState;
use std::io::Read;

/// Whether a row is so.
fn is_so(rt: &HostRuntime, machine: &mut CoreRun, named: &mut Named, row: &str) -> Result<bool> {
    let (name, rest) = row.split_once(' ').unwrap_or((row, ""));
    match name {
        "tokens" => return tokens::has_tokens(rt.alloc(), rest),
        "dictionary" => return rates::is_filled(rt, rest),
        _ => {}
    }
    let (first, text) = rest.split_once(' ').unwrap_or((rest, ""));
    if let Some(is_so) = layouts::layout_row(rt.alloc(), name, number_of(first), text)? {
        return Ok(is_so);
    }
    match named.row(name, rest)? {
        Some(is_so) => Ok(is_so),
        None => Ok(machine.row(name, rest)?),
    }
}

/// Plays each row of the input; an empty line, and one behind `#`, is none.
fn play(rt: &HostRuntime) -> Result<()> {
    let mut machine = CoreRun::new(rt.alloc())?;
    let mut named = Named::new(rt.alloc(), RandomState::new(rt)?);
    let mut count: u64 = 0;
    for line in rt.lines(rt.alloc()) {
        let row = line?;
        if row.is_empty() || row.starts_with('#') {
            continue;
        }
        count = count.wrapping_add(1);
        if !is_so(rt, &mut machine, &mut named, row.as_str())? {
            println!(rt; "differs: {row}")?;
        }
    }
    println!(rt; "{count} rows")?;
    Ok(())
}

/// Tells how long the scanner takes for the input.
fn time_scanner(rt: &HostRuntime) -> Result<()> {
    let mut text = Vec::new(rt.alloc());
    rt.stdin().read_to_end(&mut text)?;
    speed::measure(rt, text.as_slice())
}

fn main(rt: HostRuntime) -> Result<()> {
    law();
    index::index_rows();
    let words: Vec<String> = env::args(&rt)?.collect(rt.alloc())?;
    match words.as_slice() {
        [] | [_] => play(&rt),
        [_, what] if what.as_str() == "scan" => time_scanner(&rt),
        [_, what, size, step, rounds] if what.as_str() == "dictionary" => {
            rates::measure(&rt, size.parse()?, step.parse()?, rounds.parse()?)?;
            Ok(())
        }
        _ => bail!("words: scan, or dictionary SIZE STEP ROUNDS"),
    }
}
