//! Locks and conditions as words (PLRM2, 7.1).

ghost use Rattle.std.specs.Prelude.{◌≡◌, ℕ, List, IfSome, option_map};
ghost use Rattle.ps_language.specs.Owners as language;
ghost use Rattle.ps_mem.specs.Heap.{Heap};
ghost use Rattle.ps_mem.specs.Meaning.{value_of};
ghost use Rattle.ps_mem.specs.References.{StandsAs};
ghost use Rattle.ps_mem.specs.Shows.{IsValue};

use ps_language::kinds::Kind;
use ps_word::words::Word;

/// The address of a lock, if it is one.
#[inline]
#[tactic(auto, using(crate::proofs::Reading::lock_lemmas))]
pub fn lock_of(word: Word) -> Option<u32>
    ensures value { (births : ℕ → ℕ) (names : List (List ℕ))
        → language.as_lock (value_of births names word) ≡ option_map births result }
    ensures held { (h : Heap) → IsValue h word
        → IfSome result (λ address. StandsAs h Kind.Lock address 1) }
{
    word.as_lock()
}

/// The address of a condition, if it is one.
#[inline]
#[tactic(auto, using(crate::proofs::Reading::condition_lemmas))]
pub fn condition_of(word: Word) -> Option<u32>
    ensures value { (births : ℕ → ℕ) (names : List (List ℕ))
        → language.as_condition (value_of births names word) ≡ option_map births result }
    ensures held { (h : Heap) → IsValue h word
        → IfSome result (λ address. StandsAs h Kind.Condition address 1) }
{
    word.as_condition()
}
