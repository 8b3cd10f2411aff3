//! The operators on the operand stack (PLRM2, 8 'Operators': Operand Stack Manipulation).

ghost use Rattle.std.specs.Prelude.{◌≡◌, ◌∷◌, ◌+◌, ◌^◌, ◌<◌, ◌≤◌, pos, length, IfSome, IfNone};
ghost use Rattle.std.specs.Prelude.{OnOk, OnErr, unsigned_abs};
ghost use Rattle.std.specs.Int.{int_rem_euclid};
ghost use Rattle.ps_language.specs.Limits.{operand_limit};
ghost use Rattle.ps_language.specs.RowsStack as rows;
ghost use Rattle.ps_ops_operands.specs.Does.{Does, Pushes, copy_number_row};
ghost use Rattle.ps_ops_operands.specs.Kept.{AreFrom};
ghost use Rattle.ps_ops_operands.specs.Marks.{IsMarkAt, HasNoMark};

use crate::integers::count_of;
use crate::{Operands, plain};
use ps_language::errors::ErrorName;
use ps_stacks::OPERAND_LIMIT;
use ps_word::words::Word;

/// Pushes an operand. Raises `stackoverflow`.
#[tactic(auto, using(crate::proofs::StackRows::push_lemmas))]
pub fn push(operands: &mut Operands, operand: Word) -> Result<(), ErrorName>
    ensures row { Pushes operand result operands.old operands.new }
    ensures pushed { OnOk result (operands.new ≡ operand ∷ operands.old) }
    ensures full { OnErr result (operands.new ≡ operands.old) }
{
    if operands.push(operand).is_err() {
        return Err(ErrorName::StackOverflow);
    }
    Ok(())
}

/// `x pop`. Raises `stackunderflow`.
#[tactic(auto, using(crate::proofs::Sources::sources))]
#[inline]
pub fn pop(operands: &mut Operands) -> Result<(), ErrorName>
    ensures row { Does rows.pop_row result operands.old operands.new }
    ensures kept { AreFrom operands.old operands.new }
{
    let Some(_) = operands.top() else {
        return Err(ErrorName::StackUnderflow);
    };
    operands.discard(1);
    Ok(())
}

/// `a b exch b a`. Raises `stackunderflow`.
#[tactic(auto, using(crate::proofs::Sources::sources))]
#[inline]
pub fn exch(operands: &mut Operands) -> Result<(), ErrorName>
    ensures row { Does rows.exch_row result operands.old operands.new }
    ensures kept { AreFrom operands.old operands.new }
{
    let Some(_) = operands.top_two() else {
        return Err(ErrorName::StackUnderflow);
    };
    operands.rotate(2, 1);
    Ok(())
}

/// `x dup x x`. Raises `stackunderflow` and `stackoverflow`.
#[tactic(auto, using(crate::proofs::Sources::sources, crate::proofs::StackRows::row_lemmas))]
#[inline]
pub fn dup(operands: &mut Operands) -> Result<(), ErrorName>
    ensures row { Does rows.dup_row result operands.old operands.new }
    ensures kept { AreFrom operands.old operands.new }
{
    let Some(top) = operands.top() else {
        return Err(ErrorName::StackUnderflow);
    };
    push(operands, top)
}

/// `x1 .. xn n copy x1 .. xn x1 .. xn`. Raises `stackunderflow`, `typecheck` where `n` is no
/// integer, `rangecheck` where it is negative, and `stackoverflow`.
#[tactic(auto, using(crate::proofs::Sources::sources, crate::proofs::Meanings::readers))]
#[inline(never)]
pub fn copy_count(operands: &mut Operands) -> Result<(), ErrorName>
    ensures row { Does copy_number_row result operands.old operands.new }
    ensures kept { AreFrom operands.old operands.new }
{
    let Some(top) = operands.top() else {
        return Err(ErrorName::StackUnderflow);
    };
    let Some(number) = top.as_integer() else {
        return Err(ErrorName::TypeCheck);
    };
    let Some(count) = count_of(number) else {
        return Err(ErrorName::RangeCheck);
    };
    let below = operands.len() - 1;
    if below < count {
        return Err(ErrorName::StackUnderflow);
    }
    if OPERAND_LIMIT - below < count {
        return Err(ErrorName::StackOverflow);
    }
    operands.discard(1);
    operands.repeat(count);
    Ok(())
}

/// `xn .. x0 n index xn .. x0 xn`. Raises `stackunderflow`, `typecheck` and `rangecheck`.
#[tactic(auto, using(crate::proofs::Sources::sources, crate::proofs::Meanings::readers))]
#[inline]
pub fn index(operands: &mut Operands) -> Result<(), ErrorName>
    ensures row { Does rows.index_row result operands.old operands.new }
    ensures kept { AreFrom operands.old operands.new }
{
    let Some(top) = operands.top() else {
        return Err(ErrorName::StackUnderflow);
    };
    let Some(number) = top.as_integer() else {
        return Err(ErrorName::TypeCheck);
    };
    let Some(depth) = count_of(number) else {
        return Err(ErrorName::RangeCheck);
    };
    let Some(found) = operands.peek(depth + 1) else {
        return Err(ErrorName::StackUnderflow);
    };
    operands.replace(1, found);
    Ok(())
}

/// `x1 .. xn n j roll`: `j` upward moves toward the top. Raises `stackunderflow`, `typecheck` and
/// `rangecheck`.
#[tactic(auto, using(crate::proofs::Sources::sources, crate::proofs::Meanings::readers))]
pub fn roll(operands: &mut Operands) -> Result<(), ErrorName>
    ensures row { Does rows.roll_row result operands.old operands.new }
    ensures kept { AreFrom operands.old operands.new }
{
    let Some((right, left)) = operands.top_two() else {
        return Err(ErrorName::StackUnderflow);
    };
    let Some(places) = right.as_integer() else {
        return Err(ErrorName::TypeCheck);
    };
    let Some(number) = left.as_integer() else {
        return Err(ErrorName::TypeCheck);
    };
    let Some(count) = count_of(number) else {
        return Err(ErrorName::RangeCheck);
    };
    if operands.len() - 2 < count {
        return Err(ErrorName::StackUnderflow);
    }
    operands.discard(2);
    if count > 0 {
        operands.rotate(count, rotation_of(places, count));
    }
    Ok(())
}

/// `x1 .. xn clear`.
#[tactic(auto, using(crate::proofs::Sources::sources))]
#[inline(never)]
pub fn clear(operands: &mut Operands) -> Result<(), ErrorName>
    ensures row { Does rows.clear_row result operands.old operands.new }
    ensures kept { AreFrom operands.old operands.new }
{
    operands.clear();
    Ok(())
}

/// `x1 .. xn count x1 .. xn n`. Raises `stackoverflow`.
#[tactic(auto, using(crate::proofs::Sources::sources, crate::proofs::StackRows::row_lemmas))]
#[inline(never)]
pub fn count(operands: &mut Operands) -> Result<(), ErrorName>
    ensures row { Does rows.count_row result operands.old operands.new }
    ensures kept { AreFrom operands.old operands.new }
{
    let number = operands.len() as i32;
    push(operands, plain::integer(number))
}

/// `mark m`. Raises `stackoverflow`.
#[tactic(auto, using(crate::proofs::Sources::sources, crate::proofs::StackRows::row_lemmas))]
#[inline(never)]
pub fn mark(operands: &mut Operands) -> Result<(), ErrorName>
    ensures row { Does rows.mark_row result operands.old operands.new }
    ensures kept { AreFrom operands.old operands.new }
{
    push(operands, plain::mark())
}

/// `m x1 .. xn cleartomark`. Raises `unmatchedmark`.
#[tactic(auto, using(crate::proofs::Sources::sources, crate::proofs::Marks::mark_lemmas))]
#[inline(never)]
pub fn cleartomark(operands: &mut Operands) -> Result<(), ErrorName>
    ensures row { Does rows.cleartomark_row result operands.old operands.new }
    ensures kept { AreFrom operands.old operands.new }
{
    let Some(depth) = mark_depth(operands) else {
        return Err(ErrorName::UnmatchedMark);
    };
    operands.discard(depth + 1);
    Ok(())
}

/// `m x1 .. xn counttomark m x1 .. xn n`. Raises `unmatchedmark` and `stackoverflow`.
#[tactic(auto, using(crate::proofs::Sources::sources, crate::proofs::Marks::mark_lemmas))]
#[inline(never)]
pub fn counttomark(operands: &mut Operands) -> Result<(), ErrorName>
    ensures row { Does rows.counttomark_row result operands.old operands.new }
    ensures kept { AreFrom operands.old operands.new }
{
    let Some(depth) = mark_depth(operands) else {
        return Err(ErrorName::UnmatchedMark);
    };
    let number = depth as i32;
    push(operands, plain::integer(number))
}

/// By how many places a group is rotated.
fn rotation_of(places: i32, count: usize) -> usize
    requires some { 0 < count }
    requires few { count ≤ operand_limit }
    ensures value { result ≡ unsigned_abs (int_rem_euclid places (pos count)) }
    ensures within { result ≤ count }
{
    places.rem_euclid(count as i32) as usize
}

/// How many operands stand above the topmost mark.
#[tactic(auto, using(crate::proofs::Marks::search_lemmas))]
pub fn mark_depth(operands: &Operands) -> Option<usize>
    ensures bound { IfSome result (λ depth. depth < length operands.now) }
    ensures small { IfSome result (λ depth. depth < operand_limit) }
    ensures found { IfSome result (λ depth. IsMarkAt operands.now depth) }
    ensures none { IfNone result (HasNoMark operands.now) }
{
    for depth in 0..operands.len() {
        let Some(operand) = operands.peek(depth) else {
            return None;
        };
        if operand.is_mark() {
            return Some(depth);
        }
    }
    None
}
