//! The access of objects.

ghost use Rattle.std.specs.Prelude.{◌≡◌, ℕ, List};
ghost use Rattle.ps_language.specs.Access as language;
ghost use Rattle.ps_language.specs.RowsTypes as rows;
ghost use Rattle.ps_language.specs.Value.{Store};
ghost use Rattle.ps_mem.specs.Heap.{birth_at};
ghost use Rattle.ps_mem.specs.Meaning.{value_of};
ghost use Rattle.ps_mem.specs.Shows.{IsReady, IsSound, IsValue, Shows};
ghost use Rattle.ps_ops_operands.specs.Changes.{Observes};

use ps_dict::dictionaries::access;
use ps_language::access::Access;
use ps_language::errors::ErrorName;
use ps_mem::Memory;
use ps_ops_operands::access::{is_readable, is_writable};
use ps_ops_operands::{Operands, plain};
use ps_word::words::Word;

/// The access of an array, of a string, or of a dictionary's object, which all references to it
/// share; nothing else has one.
#[inline]
pub fn access_of<M: Memory>(memory: &mut M, word: Word) -> Option<Access>
    requires sound { IsSound (M.heap memory.old) }
    requires held { IsValue (M.heap memory.old) word }
    ensures heap { M.heap memory.new ≡ M.heap memory.old }
    ensures grants { M.grants memory.new ≡ M.grants memory.old }
    ensures access { (names : List (List ℕ)) (s : Store) → Shows (M.heap memory.old) names s
        → language.access_of s (value_of (birth_at (M.heap memory.old)) names word) ≡ result }
{
    if let Some(address) = word.as_dictionary() {
        return Some(access(memory, address));
    }
    let Some(part) = word.as_part() else {
        return None;
    };
    Some(part.access)
}

/// `X rcheck t`: whether an array, a string or a dictionary can be read. Raises `stackunderflow`
/// and `typecheck`.
pub fn rcheck<M: Memory>(operands: &mut Operands, memory: &mut M) -> Result<(), ErrorName>
    requires ready { IsReady (M.heap memory.old) operands.old }
    ensures heap { M.heap memory.new ≡ M.heap memory.old }
    ensures grants { M.grants memory.new ≡ M.grants memory.old }
    ensures row { Observes rows.rcheck_row result (M.heap memory.old) operands.old operands.new }
    ensures ready { IsReady (M.heap memory.old) operands.new }
{
    let Some(word) = operands.top() else {
        return Err(ErrorName::StackUnderflow);
    };
    let Some(access) = access_of(memory, word) else {
        return Err(ErrorName::TypeCheck);
    };
    operands.replace(1, plain::boolean(is_readable(access)));
    Ok(())
}

/// `X wcheck t`: whether an array, a string or a dictionary can be written. Raises `stackunderflow`
/// and `typecheck`.
pub fn wcheck<M: Memory>(operands: &mut Operands, memory: &mut M) -> Result<(), ErrorName>
    requires ready { IsReady (M.heap memory.old) operands.old }
    ensures heap { M.heap memory.new ≡ M.heap memory.old }
    ensures grants { M.grants memory.new ≡ M.grants memory.old }
    ensures row { Observes rows.wcheck_row result (M.heap memory.old) operands.old operands.new }
    ensures ready { IsReady (M.heap memory.old) operands.new }
{
    let Some(word) = operands.top() else {
        return Err(ErrorName::StackUnderflow);
    };
    let Some(access) = access_of(memory, word) else {
        return Err(ErrorName::TypeCheck);
    };
    operands.replace(1, plain::boolean(is_writable(access)));
    Ok(())
}
