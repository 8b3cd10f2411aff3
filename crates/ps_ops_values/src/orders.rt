//! The order of two integers, or of two strings by their bytes (PLRM2, 8 'gt').

ghost use Rattle.std.specs.Prelude.{◌≡◌, ℕ, List, Ok, true, false};
ghost use Rattle.ps_language.specs.Rows.{reading_row};
ghost use Rattle.ps_mem.specs.Heap.{Heap};
ghost use Rattle.ps_mem.specs.Shows.{IsSound, IsValue};
ghost use Rattle.ps_ops_operands.specs.Kept.{AreFrom};
ghost use Rattle.ps_ops_operands.specs.Changes.{Observes};
ghost use Rattle.ps_ops_state.specs.Acts.{Acts, nothing_asked};
ghost use Rattle.ps_ops_state.specs.Lent.{lent_of, IsGood};
ghost use Rattle.ps_ops_values.specs.Relations as relations;
ghost use Rattle.ps_ops_values.specs.Relations.{Finds};

use ps_language::errors::ErrorName;
use ps_mem::Memory;
use ps_ops_operands::Operands;
use ps_ops_operands::access::is_readable;
use ps_ops_operands::plain::boolean;
use ps_ops_operands::readers::{integer_of, string_of};
use ps_ops_state::breaks::Break;
use ps_ops_state::lent::{Attempt, Context, Runtime};
use ps_seq::strings::compare_bytes;
use ps_word::words::Word;
use std::cmp::Ordering;

/// What an operator asks of the order of its operands.
#[derive(Clone, Copy, Debug, PartialEq, Eq)]
pub enum Relation {
    Greater,
    GreaterOrEqual,
    Less,
    LessOrEqual,
}

impl Relation {
    /// Whether an order is what is asked.
    #[inline]
    fn holds(self, order: Ordering) -> bool
        ensures { result ≡ relations.holds self order }
    {
        match self {
            Relation::Greater => order.is_gt(),
            Relation::GreaterOrEqual => order.is_ge(),
            Relation::Less => order.is_lt(),
            Relation::LessOrEqual => order.is_le(),
        }
    }
}

/// How two values compare. Raises `typecheck` but for two integers and two strings, and
/// `invalidaccess` of a string that can't be read. The memory stays as it is.
fn compare<M: Memory>(memory: &mut M, left: Word, right: Word) -> Result<Ordering, ErrorName>
    requires sound { IsSound (M.heap memory.old) }
    requires left { IsValue (M.heap memory.old) left }
    requires right { IsValue (M.heap memory.old) right }
    ensures heap { M.heap memory.new ≡ M.heap memory.old }
    ensures grants { M.grants memory.new ≡ M.grants memory.old }
    ensures found { (names : List (List ℕ)) → Finds relations.order result (M.heap memory.old) names
        left right }
{
    if let Some(i) = integer_of(left) {
        let Some(j) = integer_of(right) else {
            return Err(ErrorName::TypeCheck);
        };
        return Ok(i.cmp(&j));
    }
    let Some(first) = string_of(left) else {
        return Err(ErrorName::TypeCheck);
    };
    let Some(second) = string_of(right) else {
        return Err(ErrorName::TypeCheck);
    };
    if !is_readable(first.access) || !is_readable(second.access) {
        return Err(ErrorName::InvalidAccess);
    }
    Ok(compare_bytes(memory, first, second))
}

/// `a b gt t`, `ge`, `lt` or `le`, by the relation.
///
/// Raises `stackunderflow`, `typecheck` but for two integers and two strings, and `invalidaccess`
/// of a string that can't be read.
pub fn order<M: Memory>(
    context: &mut Context,
    runtime: &mut Runtime<M>,
    relation: Relation,
) -> Result<(), Break>
    requires good { IsGood (lent_of M.heap M.grants context.old runtime.old) }
    ensures acts { (attempt : Attempt) → Acts nothing_asked
        (reading_row (relations.order_row_as relation)) attempt result
        (lent_of M.heap M.grants context.old runtime.old)
        (lent_of M.heap M.grants context.new runtime.new) }
    ensures frames { context.new.frames ≡ context.old.frames }
{
    let Some((right, left)) = context.operands.top_two() else {
        return Err(Break::Raises(ErrorName::StackUnderflow));
    };
    match compare(&mut runtime.memory, left, right) {
        Ok(found) => {
            context.operands.replace(2, boolean(relation.holds(found)));
            Ok(())
        }
        Err(error) => Err(Break::Raises(error)),
    }
}

/// `i j gt t`, `ge`, `lt` or `le` of two integers, by operands alone. Of everything else nothing
/// changes, and the answer is no.
#[inline]
pub fn order_quickly(operands: &mut Operands, relation: Relation) -> bool
    ensures done { result ≡ true → (h : Heap)
        → Observes (relations.order_row_as relation) (Ok tt) h operands.old operands.new }
    ensures same { result ≡ false → operands.new ≡ operands.old }
    ensures kept { AreFrom operands.old operands.new }
{
    let Some((right, left)) = operands.top_two() else {
        return false;
    };
    let Some((i, j)) = left.both_integers(right) else {
        return false;
    };
    operands.replace(2, boolean(relation.holds(i.cmp(&j))));
    true
}
