//! Lengths (PLRM2, 8 'length').

ghost use Rattle.std.specs.Prelude.{◌≡◌, ◌<◌, ◌^◌, true, false, Ok, length, option_map, IfSome};
ghost use Rattle.ps_language.specs.Access as language;
ghost use Rattle.ps_language.specs.Rows.{reading_row};
ghost use Rattle.ps_language.specs.RowsSequences.{length_of, length_row};
ghost use Rattle.ps_language.specs.Value.{Store};
ghost use Rattle.ps_mem.specs.Heap.{birth_at};
ghost use Rattle.ps_mem.specs.Meaning.{text_of_name, value_of};
ghost use Rattle.ps_mem.specs.Shows.{IsSound, IsValue, Shows};
ghost use Rattle.ps_ops_state.specs.Acts.{Acts, nothing_asked};
ghost use Rattle.ps_ops_state.specs.Lent.{lent_of, IsGood, Lent};

use ps_dict::dictionaries;
use ps_language::access::Access;
use ps_language::errors::ErrorName;
use ps_mem::Memory;
use ps_names::{NameId, Names};
use ps_ops_operands::access::is_readable;
use ps_ops_operands::{Operands, plain};
use ps_ops_state::breaks::Break;
use ps_ops_state::lent::{Attempt, Context, Runtime};
use ps_word::words::Word;

/// How many bytes the name of a number has.
fn name_length(names: &Names, number: u16) -> u32
    ensures bytes { result ≡ length (text_of_name names.now number) }
    ensures few { result < 2 ^ 31 }
{
    names.text(NameId(number)).len() as u32
}

/// How long an array, a string, a dictionary or a name is, and its access; a name may always be
/// read. Nothing else has a length.
fn measure<M: Memory>(memory: &mut M, names: &Names, word: Word) -> Option<(u32, Access)>
    requires sound { IsSound (M.heap memory.old) }
    requires held { IsValue (M.heap memory.old) word }
    ensures heap { M.heap memory.new ≡ M.heap memory.old }
    ensures grants { M.grants memory.new ≡ M.grants memory.old }
    ensures few { IfSome result (λ measure. measure.0 < 2 ^ 31) }
    ensures length { (s : Store) → Shows (M.heap memory.old) names.now s → length_of s
        (value_of (birth_at (M.heap memory.old)) names.now word)
        ≡ option_map (λ measure. measure.0) result }
    ensures access { (s : Store) → Shows (M.heap memory.old) names.now s → IfSome result
        (λ measure. language.may_read s (value_of (birth_at (M.heap memory.old)) names.now word)
        ≡ language.is_readable measure.1) }
{
    if let Some(part) = word.as_part() {
        return Some((part.length as u32, part.access));
    }
    if let Some(number) = word.as_name() {
        return Some((name_length(names, number), Access::Unlimited));
    }
    let Some(address) = word.as_dictionary() else {
        return None;
    };
    let count = dictionaries::length(memory, address);
    Some((count, dictionaries::access(memory, address)))
}

/// `x length n` of an array or a string, where it raises no error. Else nothing has changed, and the
/// answer is no.
#[inline(never)]
pub fn length_quickly(operands: &mut Operands) -> bool
    ensures same { result ≡ false → operands.new ≡ operands.old }
    ensures acts { result ≡ true → (l : Lent) (attempt : Attempt)
        → IsGood (record l { operands = operands.old })
        → Acts nothing_asked (reading_row length_row) attempt (Ok tt)
        (record l { operands = operands.old })
        (record l { operands = operands.new }) }
{
    let Some(top) = operands.top() else {
        return false;
    };
    let Some(part) = top.as_part() else {
        return false;
    };
    if !is_readable(part.access) {
        return false;
    }
    let count = part.length as u32;
    operands.replace(1, plain::integer(count as i32));
    true
}

/// `x length n`: of an array, a string, a dictionary or a name. Raises `stackunderflow`,
/// `typecheck` and `invalidaccess`.
pub fn length<M: Memory>(context: &mut Context, runtime: &mut Runtime<M>) -> Result<(), Break>
    requires good { IsGood (lent_of M.heap M.grants context.old runtime.old) }
    ensures acts { (attempt : Attempt) → Acts nothing_asked (reading_row length_row) attempt result
        (lent_of M.heap M.grants context.old runtime.old)
        (lent_of M.heap M.grants context.new runtime.new) }
    ensures frames { context.new.frames ≡ context.old.frames }
{
    let Some(top) = context.operands.top() else {
        return Err(Break::Raises(ErrorName::StackUnderflow));
    };
    let Some((count, access)) = measure(&mut runtime.memory, &runtime.shared.names, top) else {
        return Err(Break::Raises(ErrorName::TypeCheck));
    };
    if !is_readable(access) {
        return Err(Break::Raises(ErrorName::InvalidAccess));
    }
    context.operands.replace(1, plain::integer(count as i32));
    Ok(())
}
