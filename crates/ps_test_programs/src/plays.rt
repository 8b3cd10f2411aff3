//! A context over a bounded memory, step by step.

ghost use Rattle.std.specs.Prelude.{◌<◌, ◌^◌, IfOk};
ghost use Rattle.ps_ctx_start.specs.Starts.{first_machine};
ghost use Rattle.ps_step_interpreter.specs.Courses.{IsAt};
ghost use Rattle.ps_test_programs.specs.Plays.{held_over};

use anyhow::{Result, bail};
use ps_ctx_start::start::Setup;
use ps_mem::bounded::BoundedMemory;
use ps_mem::{Memory, Slot};
use ps_ops::operators::Operators;
use ps_ops_operands::failure::NotMade;
use ps_ops_state::lent::{Attempt, Runtime};
use ps_step::steps::Steps;
use ps_step_interpreter::interpreter::Interpreter;
use std::alloc::{AllocError, Global};
use std::hash::RandomState;
use std::io::Write;
use std::marker::Model;

/// The slot of the steps.
const SLOT: u32 = 0;

/// The places of a log from which every record was taken.
const DRAINED: u32 = 256;

/// More steps than any row needs.
const MOST_STEPS: u32 = 100000;

/// The log of the slot before the first step.
#[derive(Clone, Copy, Debug, PartialEq, Eq)]
pub enum StartingLog {
    /// No cycle is open, so no record is put.
    Idle,
    /// A cycle is open, and the log has no free place.
    Full,
    /// A cycle is open, and the log is closed.
    Closed,
}

/// A context, its memory, and who makes its steps.
#[derive(Drop)]
pub struct Play<'a> {
    alloc: Global,
    runtime: Runtime<'a, BoundedMemory>,
    context: Interpreter,
    steps: Steps<Operators>,
}

impl<'a> Model for Play<'a> {
    ghost use Rattle.ps_step_interpreter.specs.Courses.{IsSteady};
    ghost use Rattle.ps_test_programs.specs.Plays.{Playing, held_over};

    ghost Value = { Playing };

    ghost view = { λ p. record { runtime = p.runtime; context = p.context } };

    ghost invariant = { λ p. IsSteady (held_over ⟦<BoundedMemory as Memory>⟧.heap
        ⟦<BoundedMemory as Memory>⟧.grants p.runtime p.context) };
}

impl<'a> Play<'a> {
    /// A context before its first step, over a space of so many words. Fails where that space, or
    /// room in it for the first objects, can't be had.
    pub fn new(
        alloc: Global,
        keys: RandomState,
        size: u32,
        program: &'a [u8],
    ) -> Result<Play<'a>, AllocError>
        requires { size < 2 ^ 24 }
        ensures { IfOk result (λ play. IsAt
            (held_over ⟦<BoundedMemory as Memory>⟧.heap ⟦<BoundedMemory as Memory>⟧.grants
            play.runtime play.context)
            (first_machine program.now)) }
    {
        let mut memory = BoundedMemory::new(alloc, size)?;
        let Ok((context, shared)) = Interpreter::new(
            alloc,
            &mut memory,
            program,
            Setup::unbounded(keys),
        ) else {
            return Err(AllocError);
        };
        Ok(Play {
            alloc,
            runtime: Runtime { shared, memory },
            context,
            steps: Steps::<Operators>::new(alloc),
        })
    }
}

impl Play<'_> {
    /// Opens a cycle, and fills or closes the log.
    fn begin(&mut self, log: StartingLog) {
        match log {
            StartingLog::Idle => {}
            StartingLog::Full => {
                self.runtime.memory.open_cycle();
                self.runtime.memory.leave(Slot::of(SLOT), 0);
            }
            StartingLog::Closed => {
                self.runtime.memory.open_cycle();
                self.runtime.memory.close(Slot::of(SLOT));
            }
        }
    }

    /// Makes way for a step that was not made: the log is drained, or the cycle ends.
    fn make_way(&mut self, reason: NotMade) {
        match reason {
            NotMade::LogFull => self.runtime.memory.leave(Slot::of(SLOT), DRAINED),
            NotMade::LogClosed => self.runtime.memory.end_cycle(),
            NotMade::NeedSpace(_) | NotMade::Memory => {}
        }
    }

    /// Makes a step, where there is one.
    fn step(&mut self, refused: bool) -> Result<(), NotMade> {
        if !self.context.has_steps() {
            return Ok(());
        }
        let attempt = Attempt {
            slot: Slot::of(SLOT),
            refused,
        };
        self.context
            .step(&mut self.steps, &mut self.runtime, attempt)
    }

    /// Makes steps to the end of the context. Tells why a step was not made, and makes it then:
    /// refused where it needs space, or when there is way for its records; and what was printed
    /// comes last. Fails for want of memory.
    pub fn transcript(self, log: StartingLog) -> Result<Vec<u8>> {
        let mut play = self;
        let mut told = Vec::new(play.alloc);
        let mut refused = false;
        play.begin(log);
        for _ in 0..MOST_STEPS {
            if !play.context.has_steps() {
                break;
            }
            match play.step(refused) {
                Ok(()) => refused = false,
                Err(NotMade::Memory) => bail!("out of memory"),
                Err(reason) => {
                    writeln!(told, "{reason}")?;
                    refused = matches!(reason, NotMade::NeedSpace(_));
                    play.make_way(reason);
                }
            }
        }
        told.extend_from_slice(play.runtime.shared.printed.as_slice())?;
        Ok(told)
    }
}
