//! A value that is treated under frames that aren't pushed yet (PLRM2, 3.5).

ghost use Rattle.std.specs.Prelude.{◌≡◌, ◌<◌, ◌∷◌, []};
ghost use Rattle.ps_word.specs.declared.words.Word.{Word as TheWord};
ghost use Rattle.ps_word.specs.Format.{IsWord};
ghost use Rattle.ps_ops_state.specs.Lent.{lent_of, IsGood};
ghost use Rattle.ps_step_execute.specs.Values.{GoesUnder, treated_asks, treated_turn};

use crate::operates::Operate;
use ps_mem::{Memory, Slot};
use ps_ops_state::lent::{Context, Runtime};
use ps_word::words::Word;

/// What an operator came to, whatever frames are above those that stand.
#[derive(Clone, Copy, Debug, PartialEq, Eq)]
pub enum Under {
    /// It acted and raised no error, as it would under any more frames.
    Done,
    /// It would raise an error, or it can't be made: nothing was done.
    Fails,
    /// It may see or change frames. Nothing has changed.
    Left,
}

/// Treats a value that is an operator which neither sees nor changes frames, where it raises no
/// error and is made. The records go into the log of a slot.
#[inline(always)]
pub fn treat_under<O: Operate, M: Memory>(
    value: Word,
    context: &mut Context,
    runtime: &mut Runtime<M>,
    slot: Slot,
) -> Under
    requires word { IsWord value.0 }
    requires good { IsGood (lent_of M.heap M.grants context.old runtime.old) }
    ensures frames { context.new.frames ≡ context.old.frames }
    ensures goes { (command : TheWord) → GoesUnder (value ∷ command ∷ [])
        (treated_asks O.asks value) (treated_turn command value) slot result
        (lent_of M.heap M.grants context.old runtime.old)
        (lent_of M.heap M.grants context.new runtime.new) }
{
    match value.executable_operator() {
        Some(operator) => O::operate_under(operator, context, runtime, slot),
        None => Under::Left,
    }
}
