//! The operators on booleans, or on integers bit by bit (PLRM2, 8 'Operators': Relational, Boolean
//! and Bitwise).

ghost use Rattle.std.specs.Prelude.{◌&&◌, ◌||◌, not, IfSome};
ghost use Rattle.std.specs.Int.{w32, int_bit_and, int_bit_or, int_bit_xor};
ghost use Rattle.ps_language.specs.Equality.{same_truth};
ghost use Rattle.ps_language.specs.RowsArithmetic as rows;
ghost use Rattle.ps_ops_operands.specs.Does.{Does};
ghost use Rattle.ps_ops_operands.specs.Kept.{AreFrom};
ghost use Rattle.ps_ops_operands.specs.Plain.{IsPlain};
ghost use Rattle.ps_ops_operands.specs.Truths.{Combines, Negates};

use crate::{Operands, plain};
use ps_language::errors::ErrorName;
use ps_word::words::Word;

/// Both.
#[inline]
#[tactic(auto, using(crate::proofs::LogicRows::combining))]
fn conjunction_of(left: Word, right: Word) -> Option<Word>
    ensures value { Combines (λ a b. a && b) (int_bit_and w32) left right result }
    ensures plain { IfSome result IsPlain }
{
    if let Some(a) = left.as_boolean() {
        let b = right.as_boolean()?;
        return Some(plain::boolean(a && b));
    }
    let i = left.as_integer()?;
    let j = right.as_integer()?;
    Some(plain::integer(i & j))
}

/// `a b and c`: booleans, or integers bit by bit. Raises `stackunderflow` and `typecheck`.
#[tactic(auto, using(crate::proofs::LogicRows::logical_lemmas, crate::proofs::Sources::sources))]
#[inline(never)]
pub fn and(operands: &mut Operands) -> Result<(), ErrorName>
    ensures row { Does rows.and_row result operands.old operands.new }
    ensures kept { AreFrom operands.old operands.new }
{
    let Some((right, left)) = operands.top_two() else {
        return Err(ErrorName::StackUnderflow);
    };
    let Some(combined) = conjunction_of(left, right) else {
        return Err(ErrorName::TypeCheck);
    };
    operands.replace(2, combined);
    Ok(())
}

/// One or both.
#[inline]
#[tactic(auto, using(crate::proofs::LogicRows::combining))]
fn disjunction_of(left: Word, right: Word) -> Option<Word>
    ensures value { Combines (λ a b. a || b) (int_bit_or w32) left right result }
    ensures plain { IfSome result IsPlain }
{
    if let Some(a) = left.as_boolean() {
        let b = right.as_boolean()?;
        return Some(plain::boolean(a || b));
    }
    let i = left.as_integer()?;
    let j = right.as_integer()?;
    Some(plain::integer(i | j))
}

/// `a b or c`: booleans, or integers bit by bit. Raises `stackunderflow` and `typecheck`.
#[tactic(auto, using(crate::proofs::LogicRows::logical_lemmas, crate::proofs::Sources::sources))]
#[inline(never)]
pub fn or(operands: &mut Operands) -> Result<(), ErrorName>
    ensures row { Does rows.or_row result operands.old operands.new }
    ensures kept { AreFrom operands.old operands.new }
{
    let Some((right, left)) = operands.top_two() else {
        return Err(ErrorName::StackUnderflow);
    };
    let Some(combined) = disjunction_of(left, right) else {
        return Err(ErrorName::TypeCheck);
    };
    operands.replace(2, combined);
    Ok(())
}

/// One and not the other.
#[inline]
#[tactic(auto, using(crate::proofs::LogicRows::combining))]
fn exclusive_disjunction_of(left: Word, right: Word) -> Option<Word>
    ensures value { Combines (λ a b. not (same_truth a b)) (int_bit_xor w32) left right result }
    ensures plain { IfSome result IsPlain }
{
    if let Some(a) = left.as_boolean() {
        let b = right.as_boolean()?;
        return Some(plain::boolean(a != b));
    }
    let i = left.as_integer()?;
    let j = right.as_integer()?;
    Some(plain::integer(i ^ j))
}

/// `a b xor c`: booleans, or integers bit by bit. Raises `stackunderflow` and `typecheck`.
#[tactic(auto, using(crate::proofs::LogicRows::logical_lemmas, crate::proofs::Sources::sources))]
#[inline(never)]
pub fn xor(operands: &mut Operands) -> Result<(), ErrorName>
    ensures row { Does rows.xor_row result operands.old operands.new }
    ensures kept { AreFrom operands.old operands.new }
{
    let Some((right, left)) = operands.top_two() else {
        return Err(ErrorName::StackUnderflow);
    };
    let Some(combined) = exclusive_disjunction_of(left, right) else {
        return Err(ErrorName::TypeCheck);
    };
    operands.replace(2, combined);
    Ok(())
}

/// The other truth, or the other bits.
#[inline]
#[tactic(auto, using(crate::proofs::LogicRows::combining))]
fn negation_of(operand: Word) -> Option<Word>
    ensures value { Negates operand result }
    ensures plain { IfSome result IsPlain }
{
    if let Some(a) = operand.as_boolean() {
        return Some(plain::boolean(!a));
    }
    let i = operand.as_integer()?;
    Some(plain::integer(!i))
}

/// `a not c`: a boolean, or an integer bit by bit. Raises `stackunderflow` and `typecheck`.
#[tactic(auto, using(crate::proofs::LogicRows::logical_lemmas, crate::proofs::Sources::sources))]
#[inline(never)]
pub fn not(operands: &mut Operands) -> Result<(), ErrorName>
    ensures row { Does rows.not_row result operands.old operands.new }
    ensures kept { AreFrom operands.old operands.new }
{
    let Some(top) = operands.top() else {
        return Err(ErrorName::StackUnderflow);
    };
    let Some(negated) = negation_of(top) else {
        return Err(ErrorName::TypeCheck);
    };
    operands.replace(1, negated);
    Ok(())
}
