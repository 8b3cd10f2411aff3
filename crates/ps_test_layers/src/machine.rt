//! Rows of the collector's machine: an event with its numbers and how it is answered, `made`,
//! `not-now` or `memory`; `word INDEX WORD`, a word of the table; or `run`, a new run.

use crate::events::event_of;
use ps_core::{Core, Refused};
use std::alloc::{AllocError, Global};

/// A number as a row writes it: in decimal digits, or in hexadecimal ones behind an `x`; any other
/// text is zero.
pub fn number_of(text: &str) -> u64 {
    match text.strip_prefix('x') {
        None => text.parse::<u64>().unwrap_or(0),
        Some(digits) => u64::from_str_radix(digits, 16).unwrap_or(0),
    }
}

/// How a refusal is written.
fn text_of(answer: Result<(), Refused>) -> &'static str {
    match answer {
        Ok(()) => "made",
        Err(Refused::NotNow) => "not-now",
        Err(Refused::Memory) => "memory",
    }
}

/// A run of the machine.
#[derive(Drop)]
pub struct CoreRun {
    alloc: Global,
    core: Core,
}

impl CoreRun {
    /// On two spaces of 4,096 words each.
    pub fn new(alloc: Global) -> Result<CoreRun, AllocError> {
        Ok(CoreRun {
            alloc,
            core: Core::new(alloc, 4096)?,
        })
    }

    /// Whether the row of this name, with these words behind it, is so.
    pub fn row(&mut self, name: &str, rest: &str) -> Result<bool, AllocError> {
        let mut numbers = Vec::new(self.alloc);
        for text in rest.split_whitespace() {
            numbers.push(number_of(text))?;
        }
        let (_, last) = rest.rsplit_once(' ').unwrap_or(("", rest));
        self.answers(name, numbers.as_slice(), last)
    }

    /// Whether the row of this name, with these numbers, is answered so.
    fn answers(&mut self, name: &str, numbers: &[u64], last: &str) -> Result<bool, AllocError> {
        if name == "word" {
            let index = numbers.first().copied().unwrap_or(0);
            return Ok(self.core.word(index) == number_of(last));
        }
        if name == "run" {
            self.core = Core::new(self.alloc, 4096)?;
            return Ok(true);
        }
        match event_of(self.alloc, name, numbers)? {
            None => Ok(false),
            Some(event) => {
                let may = self.core.permits(&event);
                let answer = text_of(self.core.apply(event));
                Ok(answer == last && may == (answer != "not-now"))
            }
        }
    }
}
