//! Cases: what is called, over which files, and what it gives. The remarks above the cases in the
//! input have the kinds of their lines.

use crate::rows::{bytes_of, number_of};
use ps_run::ReadFault;
use ps_vault::{ANY_ENTRIES, ANY_OUTPUT, Config, Entry};
use std::alloc::{AllocError, Global};

/// What is called.
#[derive(Drop)]
pub enum Call<'a> {
    /// The command line with these words.
    Words(&'a str),
    /// `replay` with these entries.
    Entries(Vec<Entry>),
    /// `run_plain` with these numbers, one of which is out of its range.
    Numbers(Config),
}

/// What is wanted of a text.
#[derive(Drop)]
pub enum Wanted {
    Exactly(Vec<u8>),
    /// Any but the empty one.
    Something,
}

impl Wanted {
    /// Whether a text is what is wanted, or a beginning of it where that is enough.
    pub fn is(&self, text: &[u8], may_be_part: bool) -> bool {
        match self {
            Wanted::Something => !text.is_empty(),
            Wanted::Exactly(wanted) if may_be_part => wanted.starts_with(text),
            Wanted::Exactly(wanted) => wanted.as_slice() == text,
        }
    }
}

/// A case.
#[derive(Drop)]
pub struct Case<'a> {
    pub call: Call<'a>,
    pub program: Result<Vec<u8>, ReadFault>,
    pub schedule: Result<Vec<u8>, ReadFault>,
    pub takes_writes: bool,
    /// How many writes to the output fail in turn, and how many to the error output.
    pub out_faults: u32,
    pub err_faults: u32,
    pub printed: Wanted,
    pub told: Wanted,
    /// The file that is written, if one is.
    pub record: Option<Wanted>,
    pub status: u8,
}

/// The numbers that a text has.
fn numbers_of(alloc: Global, text: &str) -> Result<Vec<u32>, AllocError> {
    let mut numbers = Vec::new(alloc);
    for word in text.split_whitespace() {
        numbers.push(number_of(word))?;
    }
    Ok(numbers)
}

/// Entries of three numbers each.
fn entries_of(alloc: Global, numbers: &[u32]) -> Result<Vec<Entry>, AllocError> {
    let mut entries = Vec::new(alloc);
    for three in numbers.chunks(3) {
        if let [context, steps, refused] = three {
            entries.push(Entry {
                context: *context,
                steps: *steps,
                refused: *refused == 1,
                shown: None,
            })?;
        }
    }
    Ok(entries)
}

/// The numbers of a run, none where there aren't four.
fn config_of(numbers: &[u32]) -> Option<Config> {
    let [space, workers, quantum, steps] = numbers else {
        return None;
    };
    Some(Config {
        space: *space,
        workers: *workers,
        quantum: *quantum,
        steps: *steps,
        output: ANY_OUTPUT,
        entries: ANY_ENTRIES,
    })
}

/// Why a file is not read.
fn fault_of(text: &str) -> ReadFault {
    match text {
        "memory" => ReadFault::Memory,
        "missing" => ReadFault::NotFound,
        "folder" => ReadFault::Folder,
        "nameless" => ReadFault::Nameless,
        "denied" => ReadFault::Denied,
        _ => ReadFault::NoRead,
    }
}

/// These bytes, so many times.
fn repeated(alloc: Global, bytes: &[u8], times: u32) -> Result<Vec<u8>, AllocError> {
    let mut all = Vec::new(alloc);
    for _ in 0..times {
        all.extend_from_slice(bytes)?;
    }
    Ok(all)
}

/// As many lines `1 1 0` as the first word says, and the rest of the text behind them.
fn lines_of(alloc: Global, text: &str) -> Result<Vec<u8>, AllocError> {
    let (number, rest) = text.split_once(' ').unwrap_or((text, ""));
    let mut lines = repeated(alloc, b"1 1 0\n", number_of(number))?;
    let rest = bytes_of(alloc, rest)?;
    lines.extend_from_slice(rest.as_slice())?;
    Ok(lines)
}

impl<'a> Case<'a> {
    /// A case of which the lines say nothing.
    fn new(alloc: Global) -> Result<Case<'a>, AllocError> {
        Ok(Case {
            call: Call::Words(""),
            program: Ok(Vec::from_slice(alloc, b"1 2 add =")?),
            schedule: Err(ReadFault::NoRead),
            takes_writes: true,
            out_faults: 0,
            err_faults: 0,
            printed: Wanted::Exactly(Vec::new(alloc)),
            told: Wanted::Exactly(Vec::new(alloc)),
            record: None,
            status: 0,
        })
    }

    /// A case by its lines, none where one of them is of no kind.
    pub fn read(alloc: Global, lines: &'a [String]) -> Result<Option<Case<'a>>, AllocError> {
        let mut case = Case::new(alloc)?;
        for line in lines {
            let line = line.as_str();
            let (kind, text) = line.split_once(' ').unwrap_or((line, ""));
            let is_known = case.take_call(alloc, kind, text)?
                || case.take_file(alloc, kind, text)?
                || case.take_wanted(alloc, kind, text)?;
            if !is_known {
                return Ok(None);
            }
        }
        Ok(Some(case))
    }

    /// Takes a line that says what is called; false: it is another.
    fn take_call(&mut self, alloc: Global, kind: &str, text: &'a str) -> Result<bool, AllocError> {
        self.call = match kind {
            "words" => Call::Words(text),
            "entries" => {
                let numbers = numbers_of(alloc, text)?;
                Call::Entries(entries_of(alloc, numbers.as_slice())?)
            }
            "numbers" => match config_of(numbers_of(alloc, text)?.as_slice()) {
                Some(numbers) => Call::Numbers(numbers),
                None => return Ok(false),
            },
            _ => return Ok(false),
        };
        Ok(true)
    }

    /// Takes a line that says over what; false: it is another.
    fn take_file(&mut self, alloc: Global, kind: &str, text: &str) -> Result<bool, AllocError> {
        match kind {
            "program" => self.program = Ok(bytes_of(alloc, text)?),
            "schedule" => self.schedule = Ok(bytes_of(alloc, text)?),
            "blank" => self.program = Ok(repeated(alloc, b" ", number_of(text))?),
            "lines" => self.schedule = Ok(lines_of(alloc, text)?),
            "bad-program" => self.program = Err(fault_of(text)),
            "bad-schedule" => self.schedule = Err(fault_of(text)),
            "unwritable" => self.takes_writes = false,
            "out" => self.out_faults = number_of(text),
            "err" => self.err_faults = number_of(text),
            _ => return Ok(false),
        }
        Ok(true)
    }

    /// Takes a line that says what is given; false: it is another.
    fn take_wanted(&mut self, alloc: Global, kind: &str, text: &str) -> Result<bool, AllocError> {
        match kind {
            "printed" => self.printed = Wanted::Exactly(bytes_of(alloc, text)?),
            "prints" => self.printed = Wanted::Something,
            "told" => self.told = Wanted::Exactly(bytes_of(alloc, text)?),
            "tells" => self.told = Wanted::Something,
            "record" => self.record = Some(Wanted::Exactly(bytes_of(alloc, text)?)),
            "records" => self.record = Some(Wanted::Something),
            "status" => self.status = (number_of(text) % 256) as u8,
            _ => return Ok(false),
        }
        Ok(true)
    }
}
