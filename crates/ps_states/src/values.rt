//! The texts of values, and the birth numbers that are told behind them.

ghost use Rattle.std.specs.Prelude.{◌≡◌, ℕ, List, IfOk};
ghost use Rattle.ps_language.specs.Texts.{full_text};
ghost use Rattle.ps_language.specs.Value.{Store};
ghost use Rattle.ps_mem.specs.Heap.{birth_at};
ghost use Rattle.ps_mem.specs.Meaning.{value_of};
ghost use Rattle.ps_mem.specs.Shows.{IsSound, IsValue, IsWithin, Shows};
ghost use Rattle.ps_states.specs.States as states;

use ps_ctx_readers::births::birth_of;
use ps_mem::Memory;
use ps_ops_state::lent::Runtime;
use ps_text::full::append_full;
use ps_word::words::Word;
use std::alloc::{AllocError, Global};

/// The text of a value as `==` shows it. The memory is only read. Fails where a growth is refused.
pub(crate) fn full_text_of<M: Memory>(
    alloc: Global,
    word: Word,
    runtime: &mut Runtime<M>,
) -> Result<Vec<u8>, AllocError>
    requires sound { IsSound (M.heap runtime.old.memory) }
    requires held { IsValue (M.heap runtime.old.memory) word }
    ensures heap { M.heap runtime.new.memory ≡ M.heap runtime.old.memory }
    ensures grants { M.grants runtime.new.memory ≡ M.grants runtime.old.memory }
    ensures shared { runtime.new.shared ≡ runtime.old.shared }
    ensures text { (s : Store) → Shows (M.heap runtime.old.memory) runtime.old.shared.names s
        → IsWithin (birth_at (M.heap runtime.old.memory)) runtime.old.shared.names s word
        → IfOk result (λ text. text.items ≡ full_text s
        (value_of (birth_at (M.heap runtime.old.memory)) runtime.old.shared.names word)) }
{
    let mut text = Vec::new(alloc);
    append_full(&mut runtime.memory, &runtime.shared.names, word, &mut text)?;
    Ok(text)
}

/// The birth number that is told behind a value: that of a lock or a condition. The memory is only
/// read.
pub(crate) fn told_birth<M: Memory>(word: Word, memory: &mut M) -> Option<u64>
    requires held { IsValue (M.heap memory.old) word }
    ensures heap { M.heap memory.new ≡ M.heap memory.old }
    ensures grants { M.grants memory.new ≡ M.grants memory.old }
    ensures birth { (names : List (List ℕ))
        → result ≡ states.told_birth (value_of (birth_at (M.heap memory.old)) names word).what }
{
    if let Some(address) = word.as_lock() {
        return Some(birth_of(memory, address));
    }
    if let Some(address) = word.as_condition() {
        return Some(birth_of(memory, address));
    }
    None
}
