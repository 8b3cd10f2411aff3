//! `dpsrun`: runs a program in the PostScript language, in one context or many.
//!
//! Why so:
//! - This crate brings together, as the tests of `ps_test_programs` do, who makes steps (`Steps`
//!   over `Operators`) and who does the operators of the world. So runs and vaults are proved
//!   beside the operators.
//! - What reads, compares or waits takes any reader or output (`readers`, `outputs`), so its
//!   contracts are exact where bytes are known. The system's are not, and what is done with names,
//!   owners and links is tried.
#![tactic(auto)]

mod files;
mod outputs;
mod readers;

use files::SystemFiles;
use outputs::{Patient, TerminalLine};
use ps_ctx::makers::Makers;
use ps_ctx_operators::operators::WorldOperators;
use ps_ops::operators::Operators;
use ps_run::{ErrorOutput, Flushed, Outside, System, drive, refuse_no_text};
use ps_step::steps::Steps;
use std::hash::RandomState;
use std::process::ExitCode;
use std::sync::Wait;
use std::thread::Threads;
use std::{env, io};

/// Runs the program that the command line names, by threads of `workers`, and gives the exit
/// status. Fails where the command line, or the keys of the table of names, can't be had.
fn run<R: Threads + Wait + Sync>(rt: &HostRuntime, workers: &R) -> io::Result<u8> {
    let alloc = rt.alloc();
    let mut err = ErrorOutput::new(Patient::new(rt, rt.stderr()), TerminalLine::new(rt));
    let given = match env::args(rt) {
        Err(error) if error.kind() == io::ErrorKind::InvalidData => {
            return Ok(refuse_no_text(alloc, &mut err));
        }
        given => given?,
    };
    let arguments: Vec<String> = given.skip(1).collect(alloc)?;
    let words: Vec<&str> = arguments.iter().map(|word| word.as_str()).collect(alloc)?;
    let mut outside = Outside {
        files: SystemFiles::new(rt),
        err,
    };
    let makers = Makers {
        steps: Steps::<Operators>::new(alloc),
        operators: WorldOperators { alloc },
    };
    let system = System {
        rt: workers,
        alloc,
        keys: RandomState::new(rt)?,
    };
    let (status, _) = drive(
        system,
        makers,
        words.as_slice(),
        Flushed::new(Patient::new(rt, rt.stdout())),
        &mut outside,
    );
    Ok(status)
}

fn main(rt: HostRuntime) -> ExitCode {
    match run(&rt, &rt) {
        Ok(status) => ExitCode::from(status),
        Err(error) if error.kind() == io::ErrorKind::OutOfMemory => {
            let _ = eprintln!(rt; "dpsrun: out of memory");
            ExitCode::from(5)
        }
        Err(error) => {
            let _ = eprintln!(rt; "dpsrun: {error}");
            ExitCode::from(2)
        }
    }
}
