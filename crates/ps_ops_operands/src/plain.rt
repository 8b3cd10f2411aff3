//! Plain words: nulls, marks, integers and booleans, which stand for the same values in every
//! memory (PLRM2, 3.3.1).

ghost use Rattle.std.specs.Prelude.{◌≡◌, ◌<◌, ◌∷◌, ℕ, List, length};
ghost use Rattle.ps_language.specs.Limits.{operand_limit};
ghost use Rattle.ps_language.specs.Readers as readers;
ghost use Rattle.ps_language.specs.Value.{mark_value};
ghost use Rattle.ps_mem.specs.Meaning.{value_of};
ghost use Rattle.ps_ops_operands.specs.Plain.{IsPlain};

use crate::Operands;
use ps_word::words::Word;

/// The word of a literal integer.
#[inline]
pub fn integer(number: i32) -> Word
    ensures value { (births : ℕ → ℕ) (names : List (List ℕ)) → value_of births names result
        ≡ readers.integer number }
    ensures plain { IsPlain result }
{
    Word::integer(number)
}

/// The word of a literal boolean.
#[inline]
pub fn boolean(truth: bool) -> Word
    ensures value { (births : ℕ → ℕ) (names : List (List ℕ)) → value_of births names result
        ≡ readers.boolean truth }
    ensures plain { IsPlain result }
{
    Word::boolean(truth)
}

/// The word of a literal mark.
#[inline]
pub fn mark() -> Word
    ensures value { (births : ℕ → ℕ) (names : List (List ℕ)) → value_of births names result
        ≡ readers.literal mark_value }
    ensures plain { IsPlain result }
{
    Word::mark()
}

/// The word of a literal null.
#[inline]
pub fn null() -> Word
    ensures value { (births : ℕ → ℕ) (names : List (List ℕ)) → value_of births names result
        ≡ readers.null }
    ensures plain { IsPlain result }
{
    Word::null()
}

/// Pushes an operand for which there is room.
#[inline]
pub fn push_within(operands: &mut Operands, word: Word)
    requires { length operands.old < operand_limit }
    ensures { operands.new ≡ word ∷ operands.old }
{
    operands.push_reserved(word);
}
