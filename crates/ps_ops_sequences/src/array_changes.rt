//! The operators that change arrays (PLRM2, 8 'Operators': Array).

ghost use Rattle.std.specs.Prelude.{◌≡◌, ℕ, ◌+◌, ◌<◌, ◌≤◌, List, length, take, reverse, min, Err};
ghost use Rattle.ps_language.specs.RowsSequences as sequences;
ghost use Rattle.ps_language.specs.Value.{Store};
ghost use Rattle.ps_language.specs.Access.{with_part_elements};
ghost use Rattle.ps_mem.specs.Heap.{AfterStore, birth_at};
ghost use Rattle.ps_mem.specs.References.{StandsAs};
ghost use Rattle.ps_mem.specs.Meaning.{part_of};
ghost use Rattle.ps_mem.specs.Keeps.{Keeps};
ghost use Rattle.ps_mem.specs.Shows.{IsSound, IsReady, AreWithin, Shows};
ghost use Rattle.ps_ops_sequences.specs.ArrayRows as rows;
ghost use Rattle.ps_ops_operands.specs.Changes.{values_in, Changes, KeepsLogs, KeepsLogsWithin, spent};

use ps_language::errors::ErrorName;
use ps_language::kinds::Kind;
use ps_mem::{Memory, Slot};
use ps_ops_operands::Operands;
use ps_ops_operands::access::is_writable;
use ps_ops_operands::failure::{Failure, NotMade};
use ps_ops_operands::permits::{permitted, records_for};
use ps_ops_operands::plain::push_within;
use ps_ops_operands::ranges::index_below;
use ps_ops_operands::readers::{array_of, integer_of};
use ps_seq::arrays::set_element;
use ps_word::values::Part;

/// `A i x put`. Raises `stackunderflow`, `typecheck` where `A` is no array or `i` no integer,
/// `invalidaccess` and `rangecheck`. Not made where the log of the slot takes no record.
#[inline(always)]
pub fn put<M: Memory>(operands: &mut Operands, memory: &mut M, slot: Slot) -> Result<(), Failure>
    requires ready { IsReady (M.heap memory.old) operands.old }
    ensures does { Changes rows.array_put_row rows.one_stored result slot (M.grants memory.old)
        (M.grants memory.new) (M.heap memory.old) (M.heap memory.new) operands.old operands.new }
    ensures spends { KeepsLogsWithin (spent result 1) (M.grants memory.old) (M.grants memory.new)
        slot }
    ensures ready { IsReady (M.heap memory.new) operands.new }
    ensures keeps { Keeps (M.heap memory.old) (M.heap memory.new) }
    ensures logs { KeepsLogs (M.grants memory.old) (M.grants memory.new) slot }
{
    let Some((word, key, array)) = operands.top_three() else {
        return Err(Failure::Error(ErrorName::StackUnderflow));
    };
    let Some(part) = array_of(array) else {
        return Err(Failure::Error(ErrorName::TypeCheck));
    };
    let Some(number) = integer_of(key) else {
        return Err(Failure::Error(ErrorName::TypeCheck));
    };
    if !is_writable(part.access) {
        return Err(Failure::Error(ErrorName::InvalidAccess));
    }
    let Some(index) = index_below(number, part.length) else {
        return Err(Failure::Error(ErrorName::RangeCheck));
    };
    if let Err(reason) = permitted(memory, slot, 1) {
        return Err(Failure::NotMade(reason));
    }
    set_element(memory, slot, part, index, word);
    operands.discard(3);
    Ok(())
}

/// Stores the topmost operands into a part of an array from its front on, the topmost last.
fn store_elements<M: Memory>(operands: &Operands, memory: &mut M, slot: Slot, part: Part)
    requires granted { 1 ≤ part.length → 1 ≤ (M.grants memory.old).records slot }
    requires ready { IsReady (M.heap memory.old) operands.now }
    requires stands { let end = part.offset + part.length in
        StandsAs (M.heap memory.old) Kind.Array part.address end }
    requires within { part.length ≤ length operands.now }
    ensures sound { IsSound (M.heap memory.new) }
    ensures keeps { Keeps (M.heap memory.old) (M.heap memory.new) }
    ensures births { birth_at (M.heap memory.new) ≡ birth_at (M.heap memory.old) }
    ensures grants { AfterStore (M.grants memory.old) (M.grants memory.new) slot }
    ensures nothing { part.length ≡ 0 → M.grants memory.new ≡ M.grants memory.old }
    ensures shows { (names : List (List ℕ)) (s : Store) → Shows (M.heap memory.old) names s
        → AreWithin (M.heap memory.old) names s operands.now
        → Shows (M.heap memory.new) names
        (with_part_elements s (part_of (birth_at (M.heap memory.old)) part) 0
        (reverse (take part.length (values_in (M.heap memory.old) names operands.now)))) }
{
    if part.length != 0 {
        memory.store(
            slot,
            part.address,
            part.offset as u32,
            operands.topmost(part.length as usize),
        );
    }
}

/// `x1 .. xn A astore A`. Raises `stackunderflow`, `typecheck` where `A` is no array, and
/// `invalidaccess`. Not made where the log of the slot takes no record.
pub fn astore<M: Memory>(operands: &mut Operands, memory: &mut M, slot: Slot) -> Result<(), Failure>
    requires ready { IsReady (M.heap memory.old) operands.old }
    ensures does { Changes sequences.astore_row rows.topmost_count result slot (M.grants memory.old)
        (M.grants memory.new) (M.heap memory.old) (M.heap memory.new) operands.old operands.new }
    ensures spends { (names : List (List ℕ)) → KeepsLogsWithin (spent result (min 1
        (rows.topmost_count (values_in (M.heap memory.old) names operands.old))))
        (M.grants memory.old) (M.grants memory.new) slot }
    ensures ready { IsReady (M.heap memory.new) operands.new }
    ensures keeps { Keeps (M.heap memory.old) (M.heap memory.new) }
    ensures logs { KeepsLogs (M.grants memory.old) (M.grants memory.new) slot }
{
    let Some(array) = operands.top() else {
        return Err(Failure::Error(ErrorName::StackUnderflow));
    };
    let Some(part) = array_of(array) else {
        return Err(Failure::Error(ErrorName::TypeCheck));
    };
    if !is_writable(part.access) {
        return Err(Failure::Error(ErrorName::InvalidAccess));
    }
    if operands.len() - 1 < part.length as usize {
        return Err(Failure::Error(ErrorName::StackUnderflow));
    }
    if let Err(reason) = permitted(memory, slot, records_for(part.length)) {
        return Err(Failure::NotMade(reason));
    }
    operands.discard(1);
    store_elements(operands, memory, slot, part);
    operands.discard(part.length as usize);
    push_within(operands, array);
    Ok(())
}
