//! Rows, one a line, of three fields with tabs between them: how it is run, the program, and what
//! comes of it. `\n` is a newline, `\r` a carriage return and `\b` a backslash. `|` stands between the
//! pieces of a program, of which `N*TEXT` is a text so many times.
//!
//! `drive STATUS`: by the command line, over plain memory and in a space that is collected, with that
//! exit status, and again under the schedule of a run. `plain STATUS`: over plain memory alone.
//! `contexts STATUS`: as `drive`, and with other turns and under schedules by chance.
//! `collected SPACE`: in a space of so many words that is collected, by some numbers of workers, and
//! again under the schedule of each run; `flipped SPACE`: so too, and the spaces are exchanged at
//! least once; `stressed SPACE`: at least 100 times.
//! `collector_copies_while_a_put_is_half_done SPACE`: so too, where the first word that is copied
//! waits for the first store in an open cycle, and that store for a hundred words more.
//! `held SPACE`: in such a space too, step by step, and the log of the first context is closed before
//! its first step; a store waits until the cycle has ended.
//! `cuts LIMIT`: in each order of its steps with at most so many cuts; what comes of it is how many
//! orders there are, and how many cuts each ending takes.
//! `worlds MOST`: in each order of its steps, by the worlds that they come to, at most so many; what
//! comes of it is how many there are, how many steps lie between them, whether these are all, and of
//! each ending the steps, the outcome and the bytes. `endings MOST`: so too, but only the endings are
//! compared, in any order: each stands in a field of its own, behind how many there are.
//! `bounded SIZE`, `full SIZE`, `closed SIZE`: step by step in a space of so many words, with
//! no cycle open, with a full log, with a closed one; what comes of it begins with why steps were
//! not made.

use crate::chances::scheduled;
use crate::collected::{MANY, Wanted, worked};
use crate::held::held_up;
use crate::meetings::collector_copies_while_a_put_is_half_done;
use crate::orders::{covered, ends_as, explored};
use crate::plays::{Play, StartingLog};
use crate::runs::{CommandWords, ran, replayed};
use anyhow::Result;
use ps_run::System;
use std::alloc::{AllocError, Global};
use std::str::Split;
use std::sync::Wait;
use std::thread::Threads;

/// The row whose worker and collector wait for each other.
const MEETING: &str = "collector_copies_while_a_put_is_half_done";

/// What a row came to.
#[derive(Clone, Copy, Debug, PartialEq, Eq)]
pub enum Verdict {
    Same,
    Different,
    /// Memory was wanted, and nothing else differs.
    WantsMemory,
}

impl Verdict {
    /// By whether all is as it should be.
    pub fn of(is_same: bool) -> Verdict {
        if is_same {
            Verdict::Same
        } else {
            Verdict::Different
        }
    }

    /// The first of two that isn't the same.
    pub fn and(self, other: Verdict) -> Verdict {
        if self == Verdict::Same { other } else { self }
    }
}

/// A number, zero where the text is none.
pub fn number_of(text: &str) -> u32 {
    text.parse::<u32>().unwrap_or(0)
}

/// The bytes that a text writes.
pub fn bytes_of(alloc: Global, field: &str) -> Result<Vec<u8>, AllocError> {
    let mut bytes = Vec::new(alloc);
    for (place, piece) in field.split('\\').enumerate() {
        if place == 0 {
            bytes.extend_from_slice(piece.as_bytes())?;
            continue;
        }
        let (letter, rest) = piece.as_bytes().split_at(piece.len().min(1));
        bytes.push(match letter {
            b"n" => b'\n',
            b"r" => b'\r',
            _ => b'\\',
        })?;
        bytes.extend_from_slice(rest)?;
    }
    Ok(bytes)
}

/// The bytes that each of these fields writes.
fn all_bytes_of(alloc: Global, fields: Split<'_, char>) -> Result<Vec<Vec<u8>>, AllocError> {
    let mut all = Vec::new(alloc);
    for field in fields {
        all.push(bytes_of(alloc, field)?)?;
    }
    Ok(all)
}

/// The program that a field writes: pieces with `|` between them, each perhaps behind `N*`, so many
/// times.
fn program_of(alloc: Global, field: &str) -> Result<Vec<u8>, AllocError> {
    let mut program = Vec::new(alloc);
    for piece in field.split('|') {
        let (times, text) = match piece.split_once('*') {
            Some((times, text)) => (number_of(times), text),
            None => (1, piece),
        };
        let text = bytes_of(alloc, text)?;
        for _ in 0..times {
            program.extend_from_slice(text.as_slice())?;
        }
    }
    Ok(program)
}

/// What comes of a row; the keys are for the tables of names alone.
pub fn verdict_of<R: Threads + Wait + Sync>(system: System<'_, R>, line: &str) -> Result<Verdict> {
    let System { alloc, keys, .. } = system;
    let mut fields = line.split('\t');
    let (Some(place), Some(program), Some(wanted)) = (fields.next(), fields.next(), fields.next())
    else {
        return Ok(Verdict::Different);
    };
    let Some((name, number)) = place.split_once(' ') else {
        return Ok(Verdict::Different);
    };
    let number = number_of(number);
    let program = program_of(alloc, program)?;
    let wanted = bytes_of(alloc, wanted)?;
    let log = match name {
        "drive" | "plain" | "contexts" => {
            return Ok(run(
                system,
                name,
                program.as_slice(),
                wanted.as_slice(),
                (number % 256) as u8,
            ));
        }
        "collected" | "flipped" | "stressed" | MEETING => {
            let least = match name {
                "collected" => 0,
                "stressed" => MANY,
                _ => 1,
            };
            let row = Wanted {
                program: program.as_slice(),
                printed: wanted.as_slice(),
                space: number,
                least,
            };
            if name == MEETING {
                return Ok(collector_copies_while_a_put_is_half_done(system, row));
            }
            return Ok(worked(system, row));
        }
        "held" => {
            let (program, wanted) = (program.as_slice(), wanted.as_slice());
            return Ok(held_up(alloc, keys, program, wanted, number)?);
        }
        "cuts" => {
            let told = explored(alloc, keys, program.as_slice(), number)?;
            return Ok(Verdict::of(told.as_bytes() == wanted.as_slice()));
        }
        "worlds" => {
            let told = covered(alloc, keys, program.as_slice(), number)?;
            return Ok(Verdict::of(told.as_slice() == wanted.as_slice()));
        }
        "endings" => {
            let endings = all_bytes_of(alloc, fields)?;
            let (program, endings) = (program.as_slice(), endings.as_slice());
            return Ok(Verdict::of(ends_as(alloc, keys, program, number, endings)?));
        }
        "bounded" => StartingLog::Idle,
        "full" => StartingLog::Full,
        "closed" => StartingLog::Closed,
        _ => return Ok(Verdict::Different),
    };
    let play = Play::new(alloc, keys, number % (1 << 24), program.as_slice())?;
    let transcript = play.transcript(log)?;
    Ok(Verdict::of(transcript.as_slice() == wanted.as_slice()))
}

/// What comes of a row that is run by the command line.
fn run<R: Threads + Wait + Sync>(
    system: System<'_, R>,
    name: &str,
    program: &[u8],
    printed: &[u8],
    status: u8,
) -> Verdict {
    let System { alloc, keys, .. } = system;
    let mut verdict = ran(system, CommandWords::Plain, program, printed, status).and(replayed(
        alloc, keys, program, printed,
    ));
    if name != "plain" {
        verdict = verdict.and(ran(system, CommandWords::Collected, program, printed, status));
    }
    if name == "contexts" {
        verdict = verdict.and(scheduled(alloc, keys, program, printed));
    }
    verdict
}
