//! What a word is, in every memory.

ghost use Rattle.std.specs.Prelude.{◌≡◌, ℕ, ◌+◌, ◌<◌, ◌^◌, ◌≤◌, List, IfSome, Some, option_map, length};
ghost use Rattle.ps_language.specs.Readers as language;
ghost use Rattle.ps_language.specs.Value.{array_value, Store, string_value};
ghost use Rattle.ps_language.specs.Access.{bytes};
ghost use Rattle.ps_word.specs.Format.{IsWord, IsPart, content_in};
ghost use Rattle.ps_word.specs.Readers as readers;
ghost use Rattle.ps_mem.specs.Heap.{Heap};
ghost use Rattle.ps_mem.specs.References.{StandsAs, words_for};
ghost use Rattle.ps_mem.specs.Meaning.{value_of, part_of};
ghost use Rattle.ps_mem.specs.Shows.{IsValue, IsWithin};

use ps_language::kinds::Kind;
use ps_seq::arrays::interval;
use ps_word::values::{Content, Part, Value};
use ps_word::words::Word;

/// The number, if it is an integer.
#[inline]
#[tactic(auto, using(crate::proofs::Reading::integer_lemmas))]
pub fn integer_of(word: Word) -> Option<i32>
    ensures { (births : ℕ → ℕ) (names : List (List ℕ))
        → language.as_integer (value_of births names word) ≡ result }
{
    word.as_integer()
}

/// The part of an array, if it is one.
#[inline]
#[tactic(auto, using(crate::proofs::Reading::array_lemmas))]
pub fn array_of(word: Word) -> Option<Part>
    ensures part { (births : ℕ → ℕ) (names : List (List ℕ))
        → language.as_array (value_of births names word) ≡ option_map (part_of births) result }
    ensures word { readers.as_array (content_in word.0) ≡ result }
    ensures stands { (h : Heap) → IsValue h word
        → IfSome result (λ part. StandsAs h Kind.Array part.address (part.offset + part.length)) }
    ensures end { IsWord word.0 → IfSome result (λ part. part.offset + part.length < 2 ^ 16) }
{
    word.as_array()
}

/// A part of an array, literal or executable.
#[inline]
#[tactic(auto, using(crate::proofs::Makers::maker_lemmas))]
pub fn array_word(part: Part, executable: bool) -> Word
    requires { IsPart part }
    ensures value { (births : ℕ → ℕ) (names : List (List ℕ)) → value_of births names result
        ≡ record { what = array_value (part_of births part); executable = executable } }
    ensures held { (h : Heap) → StandsAs h Kind.Array part.address (part.offset + part.length)
        → IsValue h result }
    ensures within { (births : ℕ → ℕ) (names : List (List ℕ)) (store : Store)
        → IsWithin births names store result }
{
    let value = Value {
        content: Content::Array(part),
        executable,
    };
    value.pack()
}

/// Another part of an array, which keeps its attribute.
#[inline]
#[tactic(auto, using(crate::proofs::Makers::part_lemmas))]
pub fn with_part(array: Word, old: Part, part: Part) -> Word
    requires array { readers.as_array (content_in array.0) ≡ Some old }
    requires part { IsPart part }
    ensures value { (births : ℕ → ℕ) (names : List (List ℕ)) → value_of births names result
        ≡ language.with_part (value_of births names array) (part_of births part) }
    ensures held { (h : Heap) → StandsAs h Kind.Array part.address (part.offset + part.length)
        → IsValue h result }
    ensures within { (births : ℕ → ℕ) (names : List (List ℕ)) (store : Store)
        → IsWithin births names store result }
{
    array_word(part, array.is_executable())
}

/// The part of a string, if it is one.
#[inline]
#[tactic(auto, using(crate::proofs::Reading::string_lemmas))]
pub fn string_of(word: Word) -> Option<Part>
    ensures part { (births : ℕ → ℕ) (names : List (List ℕ)) → language.as_string
        (value_of births names word) ≡ option_map (part_of births) result }
    ensures word { readers.as_text (content_in word.0) ≡ result }
    ensures stands { (h : Heap) → IsValue h word → IfSome result
        (λ part. StandsAs h Kind.Text part.address (words_for (part.offset + part.length))) }
    ensures within { (births : ℕ → ℕ) (names : List (List ℕ)) (store : Store)
        → IsWithin births names store word → IfSome result (λ part. part.offset + part.length ≤
        length (bytes store (births part.address))) }
    ensures end { IsWord word.0 → IfSome result (λ part. part.offset + part.length < 2 ^ 16) }
{
    word.as_text()
}

/// A part of a string, literal or executable.
#[inline]
#[tactic(auto, using(crate::proofs::Makers::string_maker_lemmas))]
pub fn string_word(part: Part, executable: bool) -> Word
    requires { IsPart part }
    ensures value { (births : ℕ → ℕ) (names : List (List ℕ)) → value_of births names result
        ≡ record { what = string_value (part_of births part); executable = executable } }
    ensures held { (h : Heap) → StandsAs h Kind.Text part.address (words_for
        (part.offset + part.length)) → IsValue h result }
    ensures within { (births : ℕ → ℕ) (names : List (List ℕ)) (store : Store)
        → part.offset + part.length ≤ length (bytes store (births part.address))
        → IsWithin births names store result }
{
    let value = Value {
        content: Content::Text(part),
        executable,
    };
    value.pack()
}

/// Another part of a string, which keeps its attribute.
#[inline]
#[tactic(auto, using(crate::proofs::Makers::string_part_lemmas))]
pub fn with_string_part(string: Word, old: Part, part: Part) -> Word
    requires string { readers.as_text (content_in string.0) ≡ Some old }
    requires part { IsPart part }
    ensures value { (births : ℕ → ℕ) (names : List (List ℕ)) → value_of births names result
        ≡ language.with_part (value_of births names string) (part_of births part) }
    ensures held { (h : Heap) → StandsAs h Kind.Text part.address (words_for
        (part.offset + part.length)) → IsValue h result }
    ensures within { (births : ℕ → ℕ) (names : List (List ℕ)) (store : Store)
        → part.offset + part.length ≤ length (bytes store (births part.address))
        → IsWithin births names store result }
{
    string_word(part, string.is_executable())
}

/// So many bytes of a string from a place on, which share them with it and keep its attribute.
#[inline]
pub fn string_interval(string: Word, part: Part, place: u16, count: u16) -> Word
    requires string { readers.as_text (content_in string.0) ≡ Some part }
    requires word { IsWord string.0 }
    requires end { part.offset + part.length < 2 ^ 16 }
    requires within { place + count ≤ part.length }
    ensures value { (births : ℕ → ℕ) (names : List (List ℕ)) → value_of births names result
        ≡ language.with_part (value_of births names string) (language.part_at
        (part_of births part) place count) }
    ensures held { (h : Heap) → IsValue h string → IsValue h result }
    ensures within { (births : ℕ → ℕ) (names : List (List ℕ)) (store : Store)
        → IsWithin births names store string → IsWithin births names store result }
{
    with_string_part(string, part, interval(part, place, count))
}
