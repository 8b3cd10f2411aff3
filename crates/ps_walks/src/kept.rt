//! What a walk keeps beside its world.

ghost use Rattle.std.specs.Prelude.{◌≡◌, IfSome};
ghost use Rattle.ps_mem.specs.Shows.{IsValue};
ghost use Rattle.ps_walks.specs.Walks.{IsBefore, Stands};

use crate::before::Before;
use crate::errors::{command_of, error_of};
use crate::raised::{Map, Raised, RaisedAt, trail_of};
use crate::seats::Seats;
use crate::stops::has_stopped;
use crate::taken::Taken;
use crate::telling::{NamedProgram, append_raised};
use ps_ctx::worlds::World;
use ps_ctx_readers::births::birth_of;
use ps_ctx_readers::contexts::{course_at, last_error_at};
use ps_ctx_readers::errors::{LastError, last_error};
use ps_ctx_table::members::Course;
use ps_mem::Memory;
use ps_ops_control::frames::Cause;
use ps_ops_state::lent::Runtime;
use ps_places::{Origin, OriginFault, Origins, object_count};
use std::alloc::{AllocError, Global};

/// What a walk keeps beside its world.
#[derive(Drop)]
pub(crate) struct Kept<'a> {
    /// How many steps were made.
    made: u64,
    pub(crate) origins: Origins,
    /// Where the last token begins that was taken from the program.
    token: usize,
    pub(crate) seats: Seats,
    file: &'a [u8],
    told: Vec<u8>,
}

impl<'a> Kept<'a> {
    /// Before the first step.
    pub(crate) fn new(alloc: Global, file: &'a [u8]) -> Kept<'a> {
        Kept {
            made: 0,
            origins: Origins::new(alloc),
            token: 0,
            seats: Seats::new(alloc),
            file,
            told: Vec::new(alloc),
        }
    }

    /// What was told.
    pub(crate) fn into_told(self) -> Vec<u8> {
        self.told
    }

    /// Where a context raised its last error.
    pub(crate) fn raised_at(&self, context: u32) -> Option<RaisedAt> {
        let raised = self.seats.raised(context)?;
        Some(raised.at())
    }

    /// Counts so many steps.
    pub(crate) fn pass(&mut self, steps: u64) {
        self.made = self.made.saturating_add(steps);
    }

    /// Keeps what a step of a context brought, and tells the place of an error whose line it
    /// printed.
    pub(crate) fn behind<M: Memory>(
        &mut self,
        alloc: Global,
        before: Before,
        world: &World,
        runtime: &mut Runtime<M>,
    ) -> Result<(), AllocError>
        requires stands { Stands M.heap M.grants runtime.old world.now }
        requires held { IsBefore (M.heap runtime.old.memory) before }
        ensures heap { M.heap runtime.new.memory ≡ M.heap runtime.old.memory }
        ensures grants { M.grants runtime.new.memory ≡ M.grants runtime.old.memory }
        ensures shared { runtime.new.shared ≡ runtime.old.shared }
    {
        let context = before.context;
        if let Taken::Token(begin) = before.taken {
            self.token = begin;
        }
        self.seats.take(context, before.taken)?;
        let told = world.contexts.has_faulted;
        let course = course_at(&world.contexts, context, runtime);
        if told || course == Some(Course::Unwinding(Cause::Stop)) {
            self.keep_raised(alloc, before, world, runtime)?;
        } else {
            self.note_origin(before, world, runtime)?;
        }
        if told {
            self.tell(alloc, context, runtime)?;
        }
        if course.is_none() {
            self.seats.remove(context);
        }
        Ok(())
    }

    /// Keeps where a token of the program begins that made objects.
    fn note_origin<M: Memory>(
        &mut self,
        before: Before,
        world: &World,
        runtime: &mut Runtime<M>,
    ) -> Result<(), AllocError>
        requires stands { Stands M.heap M.grants runtime.old world.now }
        requires held { IsBefore (M.heap runtime.old.memory) before }
        ensures heap { M.heap runtime.new.memory ≡ M.heap runtime.old.memory }
        ensures grants { M.grants runtime.new.memory ≡ M.grants runtime.old.memory }
        ensures shared { runtime.new.shared ≡ runtime.old.shared }
    {
        let Taken::Token(begin) = before.taken else {
            return Ok(());
        };
        let count = object_count(runtime.shared.program, begin);
        if count == 0 {
            return Ok(());
        }
        let Some(member) = world.contexts.table.get(before.context) else {
            return Ok(());
        };
        let Some(word) = member.context.operands.peek(0) else {
            return Ok(());
        };
        let Some(part) = word.as_part() else {
            return Ok(());
        };
        let last = birth_of(&mut runtime.memory, part.address);
        let origin = Origin {
            birth: last.saturating_sub(count as u64 - 1),
            begin,
        };
        match self.origins.note(origin) {
            Ok(()) | Err(OriginFault::Unordered) => Ok(()),
            Err(OriginFault::Memory) => Err(AllocError),
        }
    }

    /// Keeps the error that a step raised, if it did.
    fn keep_raised<M: Memory>(
        &mut self,
        alloc: Global,
        before: Before,
        world: &World,
        runtime: &mut Runtime<M>,
    ) -> Result<(), AllocError>
        requires stands { Stands M.heap M.grants runtime.old world.now }
        requires held { IsBefore (M.heap runtime.old.memory) before }
        ensures heap { M.heap runtime.new.memory ≡ M.heap runtime.old.memory }
        ensures grants { M.grants runtime.new.memory ≡ M.grants runtime.old.memory }
        ensures shared { runtime.new.shared ≡ runtime.old.shared }
    {
        if has_stopped(alloc, before, world, runtime)? {
            return Ok(());
        }
        let Some(error) = error_of_step(before, world, runtime) else {
            return Ok(());
        };
        let map = Map {
            context: before.context,
            program: runtime.shared.program,
            origins: &self.origins,
            token: self.token,
        };
        let trail = trail_of(alloc, before.taken, map, world, runtime)?;
        let raised = Raised {
            step: self.made,
            error: error_of(error.name),
            command: command_of(alloc, error, runtime)?,
            trail,
        };
        self.seats.keep(before.context, raised);
        Ok(())
    }

    /// Tells the place of the error that a context raised last.
    fn tell<M: Memory>(
        &mut self,
        alloc: Global,
        context: u32,
        runtime: &Runtime<M>,
    ) -> Result<(), AllocError> {
        let Some(raised) = self.seats.raised(context) else {
            return Ok(());
        };
        let source = NamedProgram {
            file: self.file,
            program: runtime.shared.program,
            names: &runtime.shared.names,
        };
        append_raised(alloc, context, raised, source, &mut self.told)
    }
}

/// The error of a context behind its step. Of one that is gone it is that of the `$error` that it
/// had.
fn error_of_step<M: Memory>(
    before: Before,
    world: &World,
    runtime: &mut Runtime<M>,
) -> Option<LastError>
    requires stands { Stands M.heap M.grants runtime.old world.now }
    requires held { IsBefore (M.heap runtime.old.memory) before }
    ensures heap { M.heap runtime.new.memory ≡ M.heap runtime.old.memory }
    ensures grants { M.grants runtime.new.memory ≡ M.grants runtime.old.memory }
    ensures shared { runtime.new.shared ≡ runtime.old.shared }
    ensures held { IfSome result
        (λ error. IfSome error.command (IsValue (M.heap runtime.old.memory))) }
{
    if let Some(error) = last_error_at(&world.contexts, before.context, runtime) {
        return Some(error);
    }
    let address = before.error_dictionary?;
    Some(last_error(&mut runtime.memory, address))
}
