//! Files and outputs in memory, and who makes the steps of a run.

ghost use Rattle.std.specs.Prelude.{◌≡◌, ◌≤◌, ◌+◌, [], true, Some, None, Err, OnOk, OnErr, IsErr, IfOk, IfErr, IfSome, length};
ghost use Rattle.std.specs.Io.{WritesAtMost};
ghost use Rattle.std.specs.Io.KnownBytes.{WriteAppends, Keeps};
ghost use Rattle.ps_run.specs.Parts.{ReadsNext};
ghost use Rattle.ps_test_programs.specs.Fakes.{bytes_in, known_in};

use ps_ctx::makers::Makers;
use ps_ctx_operators::operators::WorldOperators;
use ps_ops::operators::Operators;
use ps_run::{FileSet, ReadFault, WriteFault};
use ps_step::steps::Steps;
use ps_vault::{Config, Job, Setup, Task};
use std::alloc::Global;
use std::hash::RandomState;
use std::io::{self, ErrorKind, Write};

/// Who makes the steps of a run by the whole language.
pub fn makers_in(alloc: Global) -> Makers<Steps<Operators>, WorldOperators> {
    Makers {
        steps: Steps::<Operators>::new(alloc),
        operators: WorldOperators { alloc },
    }
}

/// A program to be run by the whole language, with no bound on what it prints.
pub fn task_of<'a>(
    alloc: Global,
    keys: RandomState,
    program: &'a [u8],
) -> Task<'a, Steps<Operators>, WorldOperators> {
    Task {
        makers: makers_in(alloc),
        program,
        setup: Setup::unbounded(keys),
    }
}

/// The run of a program by the whole language.
pub fn job_of<'a>(
    alloc: Global,
    keys: RandomState,
    program: &'a [u8],
    config: Config,
) -> Job<'a, Steps<Operators>, WorldOperators> {
    Job {
        makers: makers_in(alloc),
        program,
        config,
        keys,
    }
}

/// The program's file `f` and a schedule's file `s`, which is `s.2` too, each with its bytes or a
/// fault in their place, and one file that can be written, of any other name.
#[derive(Drop)]
pub struct Files<'a> {
    pub program: Result<&'a [u8], ReadFault>,
    pub schedule: Result<&'a [u8], ReadFault>,
    /// What is left of the file that is open.
    pub left: Result<&'a [u8], ReadFault>,
    pub alloc: Global,
    /// What was written.
    pub written: Option<Vec<u8>>,
    /// Whether it can be.
    pub takes_writes: bool,
    /// Why the last read that failed did.
    pub last_fault: Option<ReadFault>,
    /// Whether a write failed.
    pub unwritten: bool,
}

impl<'a> Files<'a> {
    /// Files of which nothing was read or written yet, and one can be written.
    pub fn new(
        alloc: Global,
        program: Result<&'a [u8], ReadFault>,
        schedule: Result<&'a [u8], ReadFault>,
    ) -> Files<'a> {
        Files {
            program,
            schedule,
            left: Err(ReadFault::NoRead),
            alloc,
            written: None,
            takes_writes: true,
            last_fault: None,
            unwritten: false,
        }
    }
}

impl<'a> Files<'a> {
    /// What the file of a name holds, or why it can't be read.
    fn named(&self, name: &str) -> Result<&'a [u8], ReadFault>
        ensures { bytes_in result ≡ known_in self.now.program self.now.schedule name.now }
    {
        if name == "f" {
            self.program
        } else if name == "s" || name == "s.2" {
            self.schedule
        } else {
            Err(ReadFault::NotFound)
        }
    }

    /// Appends the next bytes of the file that is open, up to `most` of them.
    fn read_next(&mut self, most: usize, bytes: &mut Vec<u8>) -> Result<(), ReadFault>
        requires some { 1 ≤ most }
        ensures next { OnOk result (IfSome (bytes_in self.old.left) (λ known.
            ReadsNext known (bytes_in self.new.left) bytes.old.items bytes.new.items)) }
        ensures fault { IfErr result
            (λ fault. IfSome (bytes_in self.old.left) (λ known. fault ≡ ReadFault.Memory)) }
        ensures same { self.new ≡ record self.old { left = self.new.left } }
    {
        let left = self.left?;
        let (next, rest) = left.split_at(most.min(left.len()));
        if bytes.extend_from_slice(next).is_err() {
            return Err(ReadFault::Memory);
        }
        self.left = Ok(rest);
        Ok(())
    }

    /// Writes the record. Fails where it can't be written, or memory is wanted.
    fn put(&mut self, name: &str, bytes: &[u8]) -> Result<(), WriteFault>
        ensures reads { self.new ≡ record self.old { written = self.new.written } }
        ensures other { OnOk result (known_in self.old.program self.old.schedule name.now ≡ None) }
    {
        if name == "f" || name == "s" || name == "s.2" || !self.takes_writes {
            return Err(WriteFault::NoWrite);
        }
        let Ok(copy) = Vec::from_slice(self.alloc, bytes) else {
            return Err(WriteFault::NoWrite);
        };
        self.written = Some(copy);
        Ok(())
    }
}

impl FileSet for Files<'_> {
    ghost contents = { λ files name. known_in files.program files.schedule name };

    ghost left = { λ files. bytes_in files.left };

    ghost last_fault = { λ files. files.last_fault };

    ghost is_unwritten = { λ files. files.unwritten };

    fn open(&mut self, name: &str) -> Result<(), ReadFault> {
        self.left = self.named(name);
        match self.left {
            Ok(_) => Ok(()),
            Err(fault) => {
                self.last_fault = Some(fault);
                Err(fault)
            }
        }
    }

    fn read_on(&mut self, most: usize, bytes: &mut Vec<u8>) -> Result<(), ReadFault> {
        let read = self.read_next(most, bytes);
        if let Err(fault) = &read {
            self.last_fault = Some(*fault);
        }
        read
    }

    fn holds(&self, name: &str, bytes: &[u8]) -> bool {
        match self.named(name) {
            Ok(known) => known == bytes,
            Err(_) => false,
        }
    }

    fn write(&mut self, name: &str, bytes: &[u8]) -> Result<(), WriteFault> {
        let written = self.put(name, bytes);
        if written.is_err() {
            self.unwritten = true;
        }
        written
    }
}

/// An output that takes so many writes and flushes, and refuses those after them.
#[derive(Drop)]
pub struct LimitedOutput {
    pub bytes: Vec<u8>,
    pub writes_left: u32,
}

impl LimitedOutput {
    /// An output with nothing in it.
    pub fn new(alloc: Global, writes_left: u32) -> LimitedOutput
        ensures bytes { result.bytes.items ≡ [] }
        ensures writes { result.writes_left ≡ writes_left }
    {
        LimitedOutput {
            bytes: Vec::new(alloc),
            writes_left,
        }
    }

    /// Counts a write or a flush. Fails, with nothing changed, where none is left.
    fn spend(&mut self) -> io::Result<()>
        ensures left { OnOk result (self.new.writes_left + 1 ≡ self.old.writes_left) }
        ensures bytes { self.new.bytes ≡ self.old.bytes }
        ensures none { self.old.writes_left ≡ 0 → IsErr result }
        ensures refused { OnErr result (self.old.writes_left ≡ 0) }
    {
        if self.writes_left == 0 {
            return Err(io::Error::from(ErrorKind::BrokenPipe));
        }
        self.writes_left -= 1;
        Ok(())
    }
}

impl Write for LimitedOutput {
    ghost contents = { λ output. Some output.bytes.items };

    fn write(&mut self, bytes: &[u8]) -> io::Result<usize>
        ensures bound { WritesAtMost result bytes.now }
        ensures bytes { WriteAppends (Some self.old.bytes.items) (Some self.new.bytes.items) result
            bytes.now }

        // It takes all that it is given, as long as a write is left.
        ensures whole { IfOk result (λ taken. taken ≡ length bytes.now) }
        ensures left { OnOk result (self.new.writes_left + 1 ≡ self.old.writes_left) }
        ensures none { self.old.writes_left ≡ 0 → IsErr result }
    {
        self.spend()?;
        if self.bytes.extend_from_slice(bytes).is_err() {
            return Err(io::Error::from(ErrorKind::OutOfMemory));
        }
        Ok(bytes.len())
    }

    fn flush(&mut self) -> io::Result<()>
        ensures bytes { Keeps (Some self.old.bytes.items) (Some self.new.bytes.items) }
        ensures left { OnOk result (self.new.writes_left + 1 ≡ self.old.writes_left) }
        ensures none { self.old.writes_left ≡ 0 → IsErr result }
        ensures refused { OnErr result (self.old.writes_left ≡ 0) }
    {
        self.spend()
    }
}
