//! Runs the rows and the cases of its input, and prints how many there are, and which of them differ
//! from what they say. A row is a line with tabs; a case is the lines up to an empty one; a line
//! behind `#` is a remark.
//!
//! Why so:
//! - Rows of programs are run by the command line, over plain memory and in a space, and again
//!   under the schedule that came back; or step by step in a bounded memory.
//! - Tests stand in crates of their own, since a library's tests are proved as a second program
//!   over all its functions.
//! - Refused allocations are tried from outside, by `bench/allocations`, which runs each row once
//!   for each allocation that it makes. The gate doesn't run it.
#![tactic(auto)]

mod cases;
mod chances;
mod collected;
mod driven;
mod fakes;
mod held;
mod judges;
mod meetings;
mod orders;
mod plays;
mod rows;
mod runs;

use anyhow::{Result, bail};
use cases::Case;
use judges::Amiss;
use ps_run::System;
use rows::Verdict;
use std::hash::RandomState;
use std::sync::Wait;
use std::thread::Threads;

/// How many rows and cases there were, and how many of them wanted memory.
#[derive(Clone, Copy)]
struct Tally {
    rows: u64,
    cases: u64,
    wanting: u64,
}

impl Tally {
    /// Runs a row, by the threads of a system. Fails where it can't be printed that it differs.
    fn row<R: Threads + Wait + Sync>(
        &mut self,
        rt: &HostRuntime,
        system: System<'_, R>,
        row: &str,
    ) -> Result<()> {
        self.rows = self.rows.wrapping_add(1);
        match rows::verdict_of(system, row) {
            Ok(Verdict::Same) => {}
            Ok(Verdict::Different) => println!(rt; "differs: {row}")?,
            Ok(Verdict::WantsMemory) | Err(_) => self.wanting = self.wanting.wrapping_add(1),
        }
        Ok(())
    }

    /// Runs the case of these lines, where there are any, by the threads of a system. Fails where it
    /// can't be printed that it differs.
    fn case<R: Threads + Wait + Sync>(
        &mut self,
        rt: &HostRuntime,
        system: System<'_, R>,
        lines: &[String],
    ) -> Result<()> {
        if lines.is_empty() {
            return Ok(());
        }
        self.cases = self.cases.wrapping_add(1);
        let judged = match Case::read(rt.alloc(), lines)? {
            Some(case) => case.judge(system),
            None => Err(Amiss::Differs("lines")),
        };
        match judged {
            Ok(()) => {}
            Err(Amiss::WantsMemory) => self.wanting = self.wanting.wrapping_add(1),
            Err(Amiss::Differs(what)) => {
                println!(rt; "its {what} differs:")?;
                for line in lines {
                    println!(rt; "    {line}")?;
                }
            }
        }
        Ok(())
    }
}

/// Runs each row and case in turn. Fails where the keys of the tables of names can't be had, and
/// where one wanted memory, when all have run.
fn main(rt: HostRuntime) -> Result<()> {
    let system = System {
        rt: &rt,
        alloc: rt.alloc(),
        keys: RandomState::new(&rt)?,
    };
    let mut tally = Tally {
        rows: 0,
        cases: 0,
        wanting: 0,
    };
    let mut lines = Vec::new(rt.alloc());
    for line in rt.lines(rt.alloc()) {
        let line = line?;
        if line.is_empty() {
            tally.case(&rt, system, lines.as_slice())?;
            lines.clear();
        } else if line.contains('\t') {
            tally.row(&rt, system, line.as_str())?;
        } else if !line.starts_with('#') {
            lines.push(line)?;
        }
    }
    tally.case(&rt, system, lines.as_slice())?;
    let Tally {
        rows,
        cases,
        wanting,
    } = tally;
    if wanting > 0 {
        bail!("{wanting} rows and cases want memory");
    }
    println!(&rt; "{rows} rows, {cases} cases")?;
    Ok(())
}
