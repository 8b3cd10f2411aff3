//! The program over files and outputs in memory.

use crate::fakes::{Files, LimitedOutput, makers_in};
use ps_run::{ErrorOutput, Flushed, NoProgress, Outside, System, drive};
use std::alloc::{AllocError, Global};
use std::sync::Wait;
use std::thread::Threads;

/// More writes than a run makes.
pub const AMPLE: u32 = 1000;

/// The exit status for want of memory.
pub const MEMORY: u8 = 5;

/// The status of a run whose steps are used up.
pub const STEPS_OUT: u8 = 4;

/// How many writes and flushes each output takes.
#[derive(Clone, Copy)]
pub struct Writes {
    pub out: u32,
    pub err: u32,
}

/// So many that none is refused.
pub const ALL_WRITES: Writes = Writes {
    out: AMPLE,
    err: AMPLE,
};

/// What a run gave: the status, what stands on both outputs, and what was written to a file.
#[derive(Drop)]
pub struct Given {
    pub status: u8,
    pub out: Vec<u8>,
    pub err: Vec<u8>,
    pub record: Option<Vec<u8>>,
}

/// What a run over these files gives, by threads of `rt`; the output has room for so many bytes from
/// its start. The keys are for the tables of names alone. Fails where that room can't be had.
pub fn driven<R: Threads + Wait + Sync>(
    system: System<'_, R>,
    words: &[&str],
    files: Files<'_>,
    writes: Writes,
    room: usize,
) -> Result<Given, AllocError> {
    let alloc = system.alloc;
    let mut output = LimitedOutput::new(alloc, writes.out);
    output.bytes.reserve(room)?;
    let mut outside = Outside {
        files,
        err: ErrorOutput::new(LimitedOutput::new(alloc, writes.err), NoProgress),
    };
    let (status, out) = drive(
        system,
        makers_in(alloc),
        words,
        Flushed::new(output),
        &mut outside,
    );
    let Outside { files, err } = outside;
    let LimitedOutput { bytes: printed, .. } = out.into_inner();
    let LimitedOutput { bytes: told, .. } = err.into_inner();
    let Files { written, .. } = files;
    Ok(Given {
        status,
        out: printed,
        err: told,
        record: written,
    })
}
