//! What an operand of control is, in every memory.

ghost use Rattle.std.specs.Prelude.{◌≡◌, ◌&&◌, ℕ, ◌+◌, ◌<◌, ◌^◌, List, IfSome, option_map};
ghost use Rattle.ps_language.specs.Access as accesses;
ghost use Rattle.ps_language.specs.Control as language;
ghost use Rattle.ps_mem.specs.Heap.{Heap};
ghost use Rattle.ps_mem.specs.Meaning.{value_of, part_of};
ghost use Rattle.ps_mem.specs.Shows.{IsValue};
ghost use Rattle.ps_ops_control.specs.Frames.{IsHeld};

use ps_language::access::Access;
use ps_ops_operands::access::{is_executable, is_readable};
use ps_ops_operands::readers::array_of;
use ps_word::values::Part;
use ps_word::words::Word;

/// The part of an array, if it is an executable one.
#[inline]
pub fn procedure_of(word: Word) -> Option<Part>
    ensures part { (births : ℕ → ℕ) (names : List (List ℕ))
        → language.as_procedure (value_of births names word) ≡ option_map (part_of births) result }
    ensures held { (h : Heap) → IsValue h word → IfSome result (λ part. IsHeld h part) }
{
    if !word.is_executable() {
        return None;
    }
    array_of(word)
}

/// The truth, if it is a boolean.
#[inline]
#[tactic(auto, using(crate::proofs::Reading::boolean_lemmas))]
pub fn boolean_of(word: Word) -> Option<bool>
    ensures { (births : ℕ → ℕ) (names : List (List ℕ))
        → language.as_boolean (value_of births names word) ≡ result }
{
    word.as_boolean()
}

/// Whether a procedure may be executed and an object read.
#[inline]
pub fn may_loop(body: Access, over: Access) -> bool
    ensures { result ≡ accesses.is_executable body && accesses.is_readable over }
{
    is_executable(body) && is_readable(over)
}
