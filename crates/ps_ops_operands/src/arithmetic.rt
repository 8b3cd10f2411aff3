//! The operators on integers (PLRM2, 8 'Operators': Arithmetic and Math).

ghost use Rattle.std.specs.Prelude.{◌≡◌, ◌≤◌, length, OnOk};
ghost use Rattle.ps_language.specs.RowsArithmetic as rows;
ghost use Rattle.ps_ops_operands.specs.Does.{Does, Reads, two_integers, one_integer, number_put};
ghost use Rattle.ps_ops_operands.specs.Kept.{AreFrom};

use crate::integers::{
    difference_of, magnitude_of, negative_of, product_of, quotient_of, remainder_of, shifted,
    sum_of,
};
use crate::{Operands, plain};
use ps_language::errors::ErrorName;

/// The two topmost operands as integers, the topmost second. Raises `stackunderflow` and
/// `typecheck`.
#[tactic(auto, using(crate::proofs::Meanings::readers))]
#[inline(always)]
pub fn two_integers(operands: &Operands) -> Result<(i32, i32), ErrorName>
    ensures read { Reads two_integers result operands.now }
    ensures two { OnOk result (2 ≤ length operands.now) }
{
    let Some((right, left)) = operands.top_two() else {
        return Err(ErrorName::StackUnderflow);
    };
    left.both_integers(right).ok_or(ErrorName::TypeCheck)
}

/// The topmost operand as an integer. Raises `stackunderflow` and `typecheck`.
#[inline]
#[tactic(auto, using(crate::proofs::Meanings::readers))]
fn one_integer(operands: &Operands) -> Result<i32, ErrorName>
    ensures read { Reads one_integer result operands.now }
    ensures one { OnOk result (1 ≤ length operands.now) }
{
    let Some(top) = operands.top() else {
        return Err(ErrorName::StackUnderflow);
    };
    let Some(i) = top.as_integer() else {
        return Err(ErrorName::TypeCheck);
    };
    Ok(i)
}

/// Puts an integer in the place of the topmost operands. Raises `undefinedresult` where there is
/// none.
#[tactic(auto, using(crate::proofs::Sources::sources))]
#[inline(always)]
fn put_number(operands: &mut Operands, count: usize, number: Option<i32>) -> Result<(), ErrorName>
    requires some { 1 ≤ count }
    requires within { count ≤ length operands.old }
    ensures row { Does (number_put count number) result operands.old operands.new }
    ensures kept { AreFrom operands.old operands.new }
{
    let Some(number) = number else {
        return Err(ErrorName::UndefinedResult);
    };
    operands.replace(count, plain::integer(number));
    Ok(())
}

/// `i j add k`. Raises `stackunderflow`, `typecheck`, and `undefinedresult` where the sum doesn't
/// fit 32 bits.
#[tactic(auto, using(crate::proofs::Sources::sources, crate::proofs::NumberRows::two_lemmas))]
#[inline(always)]
pub fn add(operands: &mut Operands) -> Result<(), ErrorName>
    ensures row { Does rows.add_row result operands.old operands.new }
    ensures kept { AreFrom operands.old operands.new }
{
    let (i, j) = two_integers(operands)?;
    put_number(operands, 2, sum_of(i, j))
}

/// `i j sub k`. Raises `stackunderflow`, `typecheck`, and `undefinedresult` where the difference
/// doesn't fit 32 bits.
#[tactic(auto, using(crate::proofs::Sources::sources, crate::proofs::NumberRows::two_lemmas))]
#[inline(always)]
pub fn sub(operands: &mut Operands) -> Result<(), ErrorName>
    ensures row { Does rows.sub_row result operands.old operands.new }
    ensures kept { AreFrom operands.old operands.new }
{
    let (i, j) = two_integers(operands)?;
    put_number(operands, 2, difference_of(i, j))
}

/// `i j mul k`. Raises `stackunderflow`, `typecheck`, and `undefinedresult` where the product
/// doesn't fit 32 bits.
#[tactic(auto, using(crate::proofs::Sources::sources, crate::proofs::NumberRows::two_lemmas))]
#[inline(always)]
pub fn mul(operands: &mut Operands) -> Result<(), ErrorName>
    ensures row { Does rows.mul_row result operands.old operands.new }
    ensures kept { AreFrom operands.old operands.new }
{
    let (i, j) = two_integers(operands)?;
    put_number(operands, 2, product_of(i, j))
}

/// `i j idiv k`. Toward zero. Raises `stackunderflow`, `typecheck`, and `undefinedresult` where `j`
/// is zero or the quotient doesn't fit 32 bits.
#[tactic(auto, using(crate::proofs::Sources::sources, crate::proofs::NumberRows::two_lemmas))]
#[inline(never)]
pub fn idiv(operands: &mut Operands) -> Result<(), ErrorName>
    ensures row { Does rows.idiv_row result operands.old operands.new }
    ensures kept { AreFrom operands.old operands.new }
{
    let (i, j) = two_integers(operands)?;
    put_number(operands, 2, quotient_of(i, j))
}

/// `i j mod k`. With the sign of `i`. Raises `stackunderflow`, `typecheck`, and `undefinedresult`
/// where `j` is zero.
#[tactic(auto, using(crate::proofs::Sources::sources, crate::proofs::NumberRows::two_lemmas))]
#[inline]
pub fn modulo(operands: &mut Operands) -> Result<(), ErrorName>
    ensures row { Does rows.mod_row result operands.old operands.new }
    ensures kept { AreFrom operands.old operands.new }
{
    let (i, j) = two_integers(operands)?;
    put_number(operands, 2, remainder_of(i, j))
}

/// `i neg k`. Raises `stackunderflow`, `typecheck`, and `undefinedresult` where the result doesn't
/// fit 32 bits.
#[tactic(auto, using(crate::proofs::Sources::sources, crate::proofs::NumberRows::one_lemmas))]
#[inline(never)]
pub fn neg(operands: &mut Operands) -> Result<(), ErrorName>
    ensures row { Does rows.neg_row result operands.old operands.new }
    ensures kept { AreFrom operands.old operands.new }
{
    let i = one_integer(operands)?;
    put_number(operands, 1, negative_of(i))
}

/// `i abs k`. Raises `stackunderflow`, `typecheck`, and `undefinedresult` where the result doesn't
/// fit 32 bits.
#[tactic(auto, using(crate::proofs::Sources::sources, crate::proofs::NumberRows::one_lemmas))]
#[inline(never)]
pub fn abs(operands: &mut Operands) -> Result<(), ErrorName>
    ensures row { Does rows.abs_row result operands.old operands.new }
    ensures kept { AreFrom operands.old operands.new }
{
    let i = one_integer(operands)?;
    put_number(operands, 1, magnitude_of(i))
}

/// `i j bitshift k`: left where `j` is positive, right where it is negative; zeros come in. Raises
/// `stackunderflow` and `typecheck`.
#[tactic(auto, using(crate::proofs::Sources::sources, crate::proofs::NumberRows::two_lemmas))]
#[inline(never)]
pub fn bitshift(operands: &mut Operands) -> Result<(), ErrorName>
    ensures row { Does rows.bitshift_row result operands.old operands.new }
    ensures kept { AreFrom operands.old operands.new }
{
    let (i, j) = two_integers(operands)?;
    put_number(operands, 2, Some(shifted(i, j)))
}
