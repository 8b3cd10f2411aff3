//! Equality of two values (PLRM2, 8 'eq'): of a string by its characters, as a name has them, and
//! of everything else as keys are.

ghost use Rattle.std.specs.Prelude.{◌≡◌, ℕ, List, None, Ok, true, false, IfOk};
ghost use Rattle.std.specs.Prelude.{IfErr, is_ok};
ghost use Rattle.ps_language.specs.Access.{may_read_text};
ghost use Rattle.ps_language.specs.Equality as language;
ghost use Rattle.ps_language.specs.Rows.{reading_row};
ghost use Rattle.ps_language.specs.Value.{Store};
ghost use Rattle.ps_word.specs.Format.{content_in};
ghost use Rattle.ps_word.specs.Readers as readers;
ghost use Rattle.ps_mem.specs.Heap.{Heap, birth_at};
ghost use Rattle.ps_mem.specs.Meaning.{value_of};
ghost use Rattle.ps_mem.specs.Shows.{IsSound, IsValue, IsWithin, Shows};
ghost use Rattle.ps_names.specs.Names.{AreNames};
ghost use Rattle.ps_ops_operands.specs.Kept.{AreFrom};
ghost use Rattle.ps_ops_operands.specs.Changes.{Observes};
ghost use Rattle.ps_ops_state.specs.Acts.{Acts, nothing_asked};
ghost use Rattle.ps_ops_state.specs.Lent.{lent_of, IsGood};
ghost use Rattle.ps_ops_values.specs.Relations as relations;
ghost use Rattle.ps_ops_values.specs.Relations.{Finds};

use ps_dict::keys::is_same_key;
use ps_language::errors::ErrorName;
use ps_mem::Memory;
use ps_names::Names;
use ps_ops_operands::Operands;
use ps_ops_operands::access::is_readable;
use ps_ops_operands::plain::boolean;
use ps_ops_operands::readers::string_of;
use ps_ops_state::breaks::Break;
use ps_ops_state::lent::{Attempt, Context, Runtime};
use ps_seq::strings::compare_bytes;
use ps_step_lookup::keys::read_key;
use ps_word::values::Part;
use ps_word::words::Word;
use std::cmp::Ordering;

/// The part of a string, if it is one. Raises `invalidaccess` where it can't be read.
#[inline]
fn readable_text(word: Word) -> Result<Option<Part>, ErrorName>
    ensures text { IfOk result (λ text. readers.as_text (content_in word.0) ≡ text) }
    ensures readable { (births : ℕ → ℕ) (names : List (List ℕ))
        → may_read_text (value_of births names word) ≡ is_ok result }
    ensures error { IfErr result (λ error. error ≡ ErrorName.InvalidAccess) }
{
    let Some(part) = string_of(word) else {
        return Ok(None);
    };
    if !is_readable(part.access) {
        return Err(ErrorName::InvalidAccess);
    }
    Ok(Some(part))
}

/// Whether a value that is no string equals a string. The memory stays as it is.
fn is_its_name<M: Memory>(memory: &mut M, names: &Names, plain: Word, string: Word) -> bool
    requires sound { IsSound (M.heap memory.old) }
    requires plain { IsValue (M.heap memory.old) plain }
    requires string { IsValue (M.heap memory.old) string }
    requires other { readers.as_text (content_in plain.0) ≡ None }
    requires names { AreNames names.now }
    ensures heap { M.heap memory.new ≡ M.heap memory.old }
    ensures grants { M.grants memory.new ≡ M.grants memory.old }
    ensures value { (s : Store) → Shows (M.heap memory.old) names.now s
        → IsWithin (birth_at (M.heap memory.old)) names.now s plain
        → IsWithin (birth_at (M.heap memory.old)) names.now s string
        → result ≡ language.are_equal s
        (value_of (birth_at (M.heap memory.old)) names.now plain)
        (value_of (birth_at (M.heap memory.old)) names.now string) }
{
    match read_key(memory, names, string).word() {
        Some(name) => is_same_key(plain, name),
        None => false,
    }
}

/// Whether two values are equal. Raises `invalidaccess` of a string that can't be read. The memory
/// stays as it is.
fn are_equal<M: Memory>(
    memory: &mut M,
    names: &Names,
    left: Word,
    right: Word,
) -> Result<bool, ErrorName>
    requires sound { IsSound (M.heap memory.old) }
    requires left { IsValue (M.heap memory.old) left }
    requires right { IsValue (M.heap memory.old) right }
    requires names { AreNames names.now }
    ensures heap { M.heap memory.new ≡ M.heap memory.old }
    ensures grants { M.grants memory.new ≡ M.grants memory.old }
    ensures found { Finds relations.equality result (M.heap memory.old) names.now left right }
{
    let first = readable_text(left)?;
    let second = readable_text(right)?;
    match (first, second) {
        (None, None) => Ok(is_same_key(left, right)),
        (None, Some(_)) => Ok(is_its_name(memory, names, left, right)),
        (Some(_), None) => Ok(is_its_name(memory, names, right, left)),
        (Some(first), Some(second)) => Ok(compare_bytes(memory, first, second) == Ordering::Equal),
    }
}

/// `a b eq t` where `wanted`, else `a b ne t`. Raises `stackunderflow`, and `invalidaccess` of a
/// string that can't be read.
pub fn equality<M: Memory>(
    context: &mut Context,
    runtime: &mut Runtime<M>,
    wanted: bool,
) -> Result<(), Break>
    requires good { IsGood (lent_of M.heap M.grants context.old runtime.old) }
    ensures acts { (attempt : Attempt) → Acts nothing_asked
        (reading_row (relations.equality_row_as wanted)) attempt result
        (lent_of M.heap M.grants context.old runtime.old)
        (lent_of M.heap M.grants context.new runtime.new) }
    ensures frames { context.new.frames ≡ context.old.frames }
{
    let Some((right, left)) = context.operands.top_two() else {
        return Err(Break::Raises(ErrorName::StackUnderflow));
    };
    match are_equal(&mut runtime.memory, &runtime.shared.names, left, right) {
        Ok(equal) => {
            context.operands.replace(2, boolean(equal == wanted));
            Ok(())
        }
        Err(error) => Err(Break::Raises(error)),
    }
}

/// `i j eq t` where `wanted`, else `i j ne t`, of two integers, by operands alone. Of everything
/// else nothing changes, and the answer is no.
#[inline]
pub fn equality_quickly(operands: &mut Operands, wanted: bool) -> bool
    ensures done { result ≡ true → (h : Heap)
        → Observes (relations.equality_row_as wanted) (Ok tt) h operands.old operands.new }
    ensures same { result ≡ false → operands.new ≡ operands.old }
    ensures kept { AreFrom operands.old operands.new }
{
    let Some((right, left)) = operands.top_two() else {
        return false;
    };
    let Some((i, j)) = left.both_integers(right) else {
        return false;
    };
    let equal = i.cmp(&j).is_eq();
    operands.replace(2, boolean(equal == wanted));
    true
}
