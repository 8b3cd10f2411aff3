//! Who makes the steps of a context.

ghost use Rattle.std.specs.Prelude.{◌≡◌, ◌≢◌, ◌<◌, ◌≤◌, [], IsSome, IsNone};
ghost use Rattle.ps_language.specs.Effect.{Around, Scene};
ghost use Rattle.ps_language.specs.World.{Status};
ghost use Rattle.ps_ops_state.specs.Acts.{Asked, AreFew};
ghost use Rattle.ps_ops_state.specs.Lent.{lent_of, IsGood};
ghost use Rattle.ps_step_outcome.specs.Turns.{Turns};
ghost use Rattle.ps_step_interpreter.specs.Interprets.{asks_in, own_turn};
ghost use Rattle.ps_step_interpreter.specs.Makes.{Runs};

use ps_mem::{Memory, Slot};
use ps_ops_control::frames::Cause;
use ps_ops_operands::failure::NotMade;
use ps_ops_state::lent::{Attempt, Context, Runtime};
use ps_step_outcome::batches::Batch;
use ps_step_outcome::turned::Turned;

/// Steps of one context, and what the turn behind them came to.
pub type Run = Batch<Result<Turned, NotMade>>;

/// Makes the steps of a context.
pub trait Interpret {
    /// What a step asks for that the language doesn't say, by what is shown alone.
    ghost asks: { Status → Around → Scene → Asked };

    /// The topmost frame's turn: that of a running context, or of one that is unwinding for a
    /// cause.
    ///
    /// Not made, with nothing changed: as the operator that acts, or the note of an error.
    fn step<M: Memory>(
        &mut self,
        unwinding: Option<Cause>,
        context: &mut Context,
        runtime: &mut Runtime<M>,
        attempt: Attempt,
    ) -> Result<Turned, NotMade>
        requires good { IsGood (lent_of M.heap M.grants context.old runtime.old) }
        requires framed { context.old.frames ≢ [] }
        ensures { Turns (asks_in asks unwinding) (own_turn unwinding) attempt result
            (lent_of M.heap M.grants context.old runtime.old)
            (lent_of M.heap M.grants context.new runtime.new) };

    /// Makes ordinary steps of a running context one after another, at most so many, as long as it
    /// goes on and has a frame. The records go into the log of a slot. None of those that are made
    /// leaves an operator to the world.
    fn run<M: Memory>(
        &mut self,
        most: u32,
        slot: Slot,
        context: &mut Context,
        runtime: &mut Runtime<M>,
    ) -> Run
        requires good { IsGood (lent_of M.heap M.grants context.old runtime.old) }
        ensures within { result.made ≤ most }
        ensures fewer { IsSome result.next → result.made < most }
        ensures ended { IsNone result.next → result.made < most → context.new.frames ≡ [] }
        ensures runs { Runs asks slot result.made result.next
            (lent_of M.heap M.grants context.old runtime.old)
            (lent_of M.heap M.grants context.new runtime.new) };

    /// Every step leaves a record to the end of its context.
    ghost few: { AreFew asks };
}
