//! The topmost operands of a context, as the line of a step has them.

ghost use Rattle.std.specs.Prelude.{◌≡◌, ◌++◌, ◌∷◌, ℕ, List, OnOk, map};
ghost use Rattle.std.specs.List.{flat_map};
ghost use Rattle.ps_language.specs.Value.{Store};
ghost use Rattle.ps_mem.specs.Heap.{birth_at};
ghost use Rattle.ps_mem.specs.Meaning.{value_of};
ghost use Rattle.ps_mem.specs.Shows.{AreValues, AreWithin, IsSound, IsValue, IsWithin, Shows};
ghost use Rattle.ps_ops_operands.specs.Changes.{values_in};
ghost use Rattle.ps_states.specs.Steps as steps;

use crate::values::full_text_of;
use ps_mem::Memory;
use ps_ops_operands::Operands;
use ps_ops_state::lent::Runtime;
use ps_views::append_step_operand;
use ps_word::words::Word;
use std::alloc::{AllocError, Global};

/// How many operands the line of a step has.
const OPERANDS_TOLD: usize = 4;

/// Appends the text of an operand. The memory is only read. Fails where a growth is refused.
fn append_shown<M: Memory>(
    alloc: Global,
    word: Word,
    runtime: &mut Runtime<M>,
    to: &mut Vec<u8>,
) -> Result<(), AllocError>
    requires sound { IsSound (M.heap runtime.old.memory) }
    requires held { IsValue (M.heap runtime.old.memory) word }
    ensures heap { M.heap runtime.new.memory ≡ M.heap runtime.old.memory }
    ensures grants { M.grants runtime.new.memory ≡ M.grants runtime.old.memory }
    ensures shared { runtime.new.shared ≡ runtime.old.shared }
    ensures text { (s : Store) → Shows (M.heap runtime.old.memory) runtime.old.shared.names s
        → IsWithin (birth_at (M.heap runtime.old.memory)) runtime.old.shared.names s word
        → OnOk result (to.new.items ≡ to.old.items ++ steps.operand_shown s
        (value_of (birth_at (M.heap runtime.old.memory)) runtime.old.shared.names word)) }
{
    let value = full_text_of(alloc, word, runtime)?;
    append_step_operand(value.as_slice(), to)
}

/// Appends the texts of operands, each behind a space. The memory is only read. Fails where a growth
/// is refused.
fn append_others<M: Memory>(
    alloc: Global,
    words: &[Word],
    runtime: &mut Runtime<M>,
    to: &mut Vec<u8>,
) -> Result<(), AllocError>
    requires sound { IsSound (M.heap runtime.old.memory) }
    requires held { AreValues (M.heap runtime.old.memory) words.now }
    ensures heap { M.heap runtime.new.memory ≡ M.heap runtime.old.memory }
    ensures grants { M.grants runtime.new.memory ≡ M.grants runtime.old.memory }
    ensures shared { runtime.new.shared ≡ runtime.old.shared }
    ensures texts { (s : Store) → Shows (M.heap runtime.old.memory) runtime.old.shared.names s
        → AreWithin (M.heap runtime.old.memory) runtime.old.shared.names s words.now
        → OnOk result (to.new.items ≡ to.old.items ++ flat_map
        (λ value. 32 ∷ steps.operand_shown s value)
        (values_in (M.heap runtime.old.memory) runtime.old.shared.names words.now)) }
{
    for word in words {
        to.push(b' ')?;
        append_shown(alloc, *word, runtime, to)?;
    }
    Ok(())
}

/// Appends the topmost operands, the top last; two dots stand for those below. The memory is only
/// read. Fails where a growth is refused.
pub(crate) fn append_topmost<M: Memory>(
    alloc: Global,
    operands: &Operands,
    runtime: &mut Runtime<M>,
    to: &mut Vec<u8>,
) -> Result<(), AllocError>
    requires sound { IsSound (M.heap runtime.old.memory) }
    requires held { AreValues (M.heap runtime.old.memory) operands.now }
    ensures heap { M.heap runtime.new.memory ≡ M.heap runtime.old.memory }
    ensures grants { M.grants runtime.new.memory ≡ M.grants runtime.old.memory }
    ensures shared { runtime.new.shared ≡ runtime.old.shared }
    ensures texts { (s : Store) → Shows (M.heap runtime.old.memory) runtime.old.shared.names s
        → AreWithin (M.heap runtime.old.memory) runtime.old.shared.names s operands.now
        → OnOk result (to.new.items ≡ to.old.items ++ steps.operands_text s
        (values_in (M.heap runtime.old.memory) runtime.old.shared.names operands.now)) }
{
    let count = operands.len();
    if count > OPERANDS_TOLD {
        to.extend_from_slice(b".. ")?;
    }
    let Some((first, others)) = operands.topmost(count.min(OPERANDS_TOLD)).split_first() else {
        return Ok(());
    };
    append_shown(alloc, *first, runtime, to)?;
    append_others(alloc, others, runtime, to)
}
