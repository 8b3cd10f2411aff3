//! Who does the operators that are left to the world (PLRM2, 7.1).

ghost use Rattle.std.specs.Prelude.{◌≡◌, ◌<◌};
ghost use Rattle.ps_language.specs.Locks.{is_ready};
ghost use Rattle.ps_language.specs.World.{World};
ghost use Rattle.ps_ctx_table.specs.Desks.{IsSteady, IsWorld};
ghost use Rattle.ps_ctx.specs.Calls.{over_of, Calls, Retakes, RetakesAt, RunsAt};

use crate::notes::Note;
use crate::worlds::Calling;
use ps_ctx_table::contexts::Contexts;
use ps_mem::Memory;
use ps_ops_operands::failure::NotMade;
use ps_ops_state::lent::{Attempt, Runtime};

/// Does the operators that are left to the world: those on contexts and locks, `vmstatus` and
/// `vmreclaim`.
pub trait Deeds {
    /// A running context calls such an operator, whose element is taken: it is done, or the context
    /// waits and tries again, or its error is noted, with the operator as the command.
    ///
    /// Not made, with nothing changed: for the room of new objects or of a new context, for the
    /// records of the log of the slot, or as the note of an error.
    fn call<M: Memory>(
        &mut self,
        calling: Calling,
        contexts: &mut Contexts,
        runtime: &mut Runtime<M>,
        attempt: Attempt,
        shown: Option<(i32, i32)>,
    ) -> Result<Note, NotMade>
        requires runs { RunsAt calling.caller contexts.old.table }
        requires steady { IsSteady (over_of M.heap M.grants runtime.old contexts.old) }
        ensures { Calls calling.operator calling.caller attempt shown result
            (over_of M.heap M.grants runtime.old contexts.old)
            (over_of M.heap M.grants runtime.new contexts.new) };

    /// A context that was notified, and waits for its lock, takes the lock again and runs; where no
    /// frame is left it is finished.
    ///
    /// `LogFull`, `LogClosed`: the log of the slot takes no record. Nothing has changed then.
    fn retake<M: Memory>(
        &mut self,
        caller: u32,
        contexts: &mut Contexts,
        runtime: &mut Runtime<M>,
        attempt: Attempt,
    ) -> Result<(), NotMade>
        requires retakes { RetakesAt caller contexts.old.table }
        requires steady { IsSteady (over_of M.heap M.grants runtime.old contexts.old) }
        ensures { Retakes caller attempt result
            (over_of M.heap M.grants runtime.old contexts.old)
            (over_of M.heap M.grants runtime.new contexts.new) };

    /// Whether the context of an identifier may step: one that runs or is unwinding, one whose
    /// `monitor` or `join` wouldn't wait now, or one whose lock is free. The memory is only read.
    fn is_ready<M: Memory>(
        &self,
        identifier: u32,
        contexts: &Contexts,
        runtime: &mut Runtime<M>,
    ) -> bool
        requires steady { IsSteady (over_of M.heap M.grants runtime.old contexts.now) }
        ensures heap { M.heap runtime.new.memory ≡ M.heap runtime.old.memory }
        ensures grants { M.grants runtime.new.memory ≡ M.grants runtime.old.memory }
        ensures shared { runtime.new.shared ≡ runtime.old.shared }
        ensures ready { (w : World)
            → IsWorld (over_of M.heap M.grants runtime.old contexts.now) w
            → result ≡ is_ready w identifier };
}
