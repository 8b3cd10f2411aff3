//! Of which kind an operand is.

ghost use Rattle.std.specs.Prelude.{◌≡◌};
ghost use Rattle.ps_ops_sequences.specs.Kinds as kinds;

use ps_ops_operands::Operands;

/// Whether the operand below so many others is a string.
#[inline]
pub fn is_string_at(operands: &Operands, depth: usize) -> bool
    ensures { result ≡ kinds.is_string_at operands.now depth }
{
    match operands.peek(depth) {
        Some(word) => word.as_text().is_some(),
        None => false,
    }
}
