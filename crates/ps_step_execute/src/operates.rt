//! Who does the operators of a step, by a type alone: it has no value.

ghost use Rattle.std.specs.Prelude.{◌≡◌, ◌<◌, [], IsTrue};
ghost use Rattle.ps_language.specs.Effect.{Around, Scene};
ghost use Rattle.ps_language.specs.declared.operators.Operator as names;
ghost use Rattle.ps_word.specs.declared.values.Part.{Part as ThePart};
ghost use Rattle.ps_mem.specs.Shows.{IsReady};
ghost use Rattle.ps_ops_state.specs.Acts.{Asked, AreFew};
ghost use Rattle.ps_ops_state.specs.Lent.{lent_of, IsGood};
ghost use Rattle.ps_step_outcome.specs.Turns.{Turns};
ghost use Rattle.ps_step_execute.specs.Values.{EntersIn, GoesUnder, operated_asks, operated_turn, over_heap};

use crate::under::Under;
use ps_language::operators::Operator;
use ps_mem::{Memory, Slot};
use ps_ops_control::ahead::Ahead;
use ps_ops_operands::Operands;
use ps_ops_operands::failure::NotMade;
use ps_ops_state::lent::{Attempt, Context, Runtime};
use ps_step_outcome::turned::Turned;

/// Does the operators of a step. A type is enough: what they work on is given with each call.
pub trait Operate {
    /// What an operator asks for that the language doesn't say, in a scene and what surrounds it.
    ghost asks: { names.Operator → Around → Scene → Asked };

    /// An operator on operands alone acts, where it raises no error, and so does one that reads the
    /// memory beside them, and one that enters a procedure, up to the frame of that, where one may
    /// be entered. Else nothing has changed, as by every other operator. The memory stays as it is.
    fn operate_ahead<M: Memory>(
        operator: Operator,
        operands: &mut Operands,
        memory: &mut M,
        may_enter: bool,
    ) -> Ahead
        requires ready { IsReady (M.heap memory.old) operands.old }
        ensures heap { M.heap memory.new ≡ M.heap memory.old }
        ensures grants { M.grants memory.new ≡ M.grants memory.old }
        ensures comes { EntersIn (over_heap (M.heap memory.old)) [] (operated_asks asks operator)
            (operated_turn operator) result operands.old operands.new }
        ensures enters { (body : ThePart) → result ≡ Ahead.Enters body → IsTrue may_enter };

    /// An operator that neither sees nor changes frames acts, where it raises no error and is made,
    /// as it would under any more frames. Else nothing was done. Every other operator may be left,
    /// and nothing has changed. The records go into the log of a slot.
    fn operate_under<M: Memory>(
        operator: Operator,
        context: &mut Context,
        runtime: &mut Runtime<M>,
        slot: Slot,
    ) -> Under
        requires good { IsGood (lent_of M.heap M.grants context.old runtime.old) }
        ensures frames { context.new.frames ≡ context.old.frames }
        ensures goes { GoesUnder [] (operated_asks asks operator) (operated_turn operator) slot
            result (lent_of M.heap M.grants context.old runtime.old)
            (lent_of M.heap M.grants context.new runtime.new) };

    /// An operator acts: its effect comes about, or its error is raised with the operator as the
    /// command.
    ///
    /// Not made, with nothing changed: as the operator, or the note of its error.
    fn operate<M: Memory>(
        operator: Operator,
        context: &mut Context,
        runtime: &mut Runtime<M>,
        attempt: Attempt,
    ) -> Result<Turned, NotMade>
        requires good { IsGood (lent_of M.heap M.grants context.old runtime.old) }
        ensures { Turns (operated_asks asks operator) (operated_turn operator) attempt result
            (lent_of M.heap M.grants context.old runtime.old)
            (lent_of M.heap M.grants context.new runtime.new) };

    /// Every operator leaves a record to its step.
    ghost few: { AreFew asks };
}
