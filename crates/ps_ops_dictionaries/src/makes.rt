//! The operators that make dictionaries (PLRM2, 8 'Operators': Dictionary).

ghost use Rattle.std.specs.Prelude.{◌≡◌, ℕ, ◌<◌, ◌^◌, List};
ghost use Rattle.ps_language.specs.Readers as readers;
ghost use Rattle.ps_language.specs.Rows.{changing_row};
ghost use Rattle.ps_language.specs.RowsDictionaries as rows;
ghost use Rattle.ps_language.specs.Value.{Store, dictionary_value};
ghost use Rattle.ps_mem.specs.Heap.{Heap};
ghost use Rattle.ps_mem.specs.Keeps.{Keeps};
ghost use Rattle.ps_mem.specs.Meaning.{value_of};
ghost use Rattle.ps_mem.specs.References.{StandsAs};
ghost use Rattle.ps_mem.specs.Shows.{IsReady, IsValue, IsWithin};
ghost use Rattle.ps_ops_operands.specs.Changes.{KeepsLogsWithin, Makes};
ghost use Rattle.ps_ops_state.specs.Acts.{Acts, nothing_asked};
ghost use Rattle.ps_ops_state.specs.Lent.{lent_of, IsGood};

use ps_dict::makes::new_dictionary;
use ps_dict::plans::CAPACITY_LIMIT;
use ps_language::errors::ErrorName;
use ps_language::kinds::Kind;
use ps_mem::{Memory, Slot};
use ps_ops_operands::Operands;
use ps_ops_operands::failure::Failure;
use ps_ops_operands::integers::count_of;
use ps_ops_operands::permits::granted;
use ps_ops_operands::readers::integer_of;
use ps_ops_state::breaks::{Break, tried};
use ps_ops_state::lent::{Attempt, Context, Runtime};
use ps_word::values::Content;
use ps_word::words::Word;

/// The literal reference to a dictionary.
#[inline]
pub(crate) fn dictionary_word(address: u32) -> Word
    requires { address < 2 ^ 24 }
    ensures value { (births : ℕ → ℕ) (names : List (List ℕ)) → value_of births names result
        ≡ readers.literal (dictionary_value (births address)) }
    ensures held { (h : Heap) → StandsAs h Kind.Dictionary address 4 → IsValue h result }
    ensures within { (births : ℕ → ℕ) (names : List (List ℕ)) (store : Store)
        → IsWithin births names store result }
{
    Word::literal(Content::Dictionary(address))
}

/// `n dict` on the operands alone.
fn make_empty<M: Memory>(
    operands: &mut Operands,
    memory: &mut M,
    slot: Slot,
    refused: bool,
) -> Result<(), Failure>
    requires ready { IsReady (M.heap memory.old) operands.old }
    ensures does { Makes rows.dict_row refused result (M.heap memory.old) (M.heap memory.new)
        operands.old operands.new }
    ensures spends { KeepsLogsWithin 0 (M.grants memory.old) (M.grants memory.new) slot }
    ensures ready { IsReady (M.heap memory.new) operands.new }
    ensures keeps { Keeps (M.heap memory.old) (M.heap memory.new) }
{
    let Some(top) = operands.top() else {
        return Err(Failure::Error(ErrorName::StackUnderflow));
    };
    let Some(number) = integer_of(top) else {
        return Err(Failure::Error(ErrorName::TypeCheck));
    };
    let Some(count) = count_of(number) else {
        return Err(Failure::Error(ErrorName::RangeCheck));
    };
    if count > CAPACITY_LIMIT as usize {
        return Err(Failure::Error(ErrorName::LimitCheck));
    }
    if refused {
        return Err(Failure::Error(ErrorName::VmError));
    }
    if let Err(reason) = granted(memory, 8 + 3 * count as u32, 1) {
        return Err(Failure::NotMade(reason));
    }
    let address = new_dictionary(memory, count as u16);
    operands.replace(1, dictionary_word(address));
    Ok(())
}

/// `n dict D`: a dictionary with room for so many pairs, and none.
///
/// Raises `stackunderflow`, `typecheck`, `rangecheck` where `n` is negative, `limitcheck` over
/// `CAPACITY_LIMIT`, and `VMerror` in a refused step. Not made where there is no room.
pub fn dict<M: Memory>(
    context: &mut Context,
    runtime: &mut Runtime<M>,
    attempt: Attempt,
) -> Result<(), Break>
    requires good { IsGood (lent_of M.heap M.grants context.old runtime.old) }
    ensures acts { Acts nothing_asked (changing_row rows.dict_row) attempt result
        (lent_of M.heap M.grants context.old runtime.old)
        (lent_of M.heap M.grants context.new runtime.new) }
    ensures frames { context.new.frames ≡ context.old.frames }
{
    tried(make_empty(
        &mut context.operands,
        &mut runtime.memory,
        attempt.slot,
        attempt.refused,
    ))
}
