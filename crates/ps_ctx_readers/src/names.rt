//! The name under which a context has a procedure.

ghost use Rattle.std.specs.Prelude.{◌≡◌, ◌≤◌, ℕ, List, IfSome, AllPairs, option_map};
ghost use Rattle.ps_language.specs.Access.{dictionary_at};
ghost use Rattle.ps_language.specs.StepValues as values;
ghost use Rattle.ps_language.specs.Value.{Store};
ghost use Rattle.ps_mem.specs.Heap.{birth_at};
ghost use Rattle.ps_mem.specs.Meaning.{value_of};
ghost use Rattle.ps_mem.specs.References.{StandsAs};
ghost use Rattle.ps_mem.specs.Shows.{AreValues, IsSound, IsValue, Shows, pair_of};
ghost use Rattle.ps_ops_operands.specs.Changes.{values_in};
ghost use Rattle.ps_ctx_readers.specs.Names as spec;

use crate::births::birth_of;
use ps_dict::dictionaries::{length, pair};
use ps_language::kinds::Kind;
use ps_mem::Memory;
use ps_ops_control::readers::procedure_of;
use ps_ops_state::lent::Dictionaries;
use ps_word::words::Word;

/// Whether a value is a procedure of the object of a birth number. The memory is only read.
fn is_of<M: Memory>(word: Word, birth: u64, memory: &mut M) -> bool
    requires held { IsValue (M.heap memory.old) word }
    ensures heap { M.heap memory.new ≡ M.heap memory.old }
    ensures grants { M.grants memory.new ≡ M.grants memory.old }
    ensures is { (names : List (List ℕ))
        → result ≡ spec.is_of birth (value_of (birth_at (M.heap memory.old)) names word) }
{
    match procedure_of(word) {
        Some(part) => birth_of(memory, part.address) == birth,
        None => false,
    }
}

/// Whether a value is a name.
fn is_name(word: Word) -> bool
    ensures { (births : ℕ → ℕ) (names : List (List ℕ))
        → result ≡ values.name_in (value_of births names word).what }
{
    word.as_name().is_some()
}

/// Whether a pair is a name with such a procedure. The memory is only read.
fn names_it<M: Memory>(pair: (Word, Word), birth: u64, memory: &mut M) -> bool
    requires held { IsValue (M.heap memory.old) pair.1 }
    ensures heap { M.heap memory.new ≡ M.heap memory.old }
    ensures grants { M.grants memory.new ≡ M.grants memory.old }
    ensures is { (names : List (List ℕ))
        → result ≡ spec.names_it birth (pair_of (birth_at (M.heap memory.old)) names pair) }
{
    is_name(pair.0) && is_of(pair.1, birth, memory)
}

/// The first name in a dictionary whose value is a procedure of the object of a birth number. The
/// memory is only read.
fn name_among<M: Memory>(memory: &mut M, address: u32, birth: u64) -> Option<Word>
    requires sound { IsSound (M.heap memory.old) }
    requires known { StandsAs (M.heap memory.old) Kind.Dictionary address 4 }
    ensures heap { M.heap memory.new ≡ M.heap memory.old }
    ensures grants { M.grants memory.new ≡ M.grants memory.old }
    ensures held { IfSome result (IsValue (M.heap memory.old)) }
    ensures name { (names : List (List ℕ)) (s : Store) → Shows (M.heap memory.old) names s
        → option_map (value_of (birth_at (M.heap memory.old)) names) result
        ≡ spec.name_among birth (dictionary_at s (birth_at (M.heap memory.old) address)).pairs }
{
    let count = length(memory, address);
    let mut place = 0;
    while place < count {
        let Some((key, value)) = pair(memory, address, place) else {
            return None;
        };
        if names_it((key, value), birth, memory) {
            return Some(key);
        }
        place += 1;
    }
    None
}

/// The same of what stands on the dictionary stack.
fn name_in<M: Memory>(one: Word, birth: u64, memory: &mut M) -> Option<Word>
    requires sound { IsSound (M.heap memory.old) }
    requires held { IsValue (M.heap memory.old) one }
    ensures heap { M.heap memory.new ≡ M.heap memory.old }
    ensures grants { M.grants memory.new ≡ M.grants memory.old }
    ensures held { IfSome result (IsValue (M.heap memory.old)) }
    ensures name { (names : List (List ℕ)) (s : Store) → Shows (M.heap memory.old) names s
        → option_map (value_of (birth_at (M.heap memory.old)) names) result
        ≡ spec.name_among birth
        (spec.pairs_in s (value_of (birth_at (M.heap memory.old)) names one)) }
{
    match one.as_dictionary() {
        Some(address) => name_among(memory, address, birth),
        None => None,
    }
}

/// The first name, from the top of the dictionary stack down, whose value is a procedure of the
/// object of a birth number. The memory is only read.
pub fn procedure_name<M: Memory>(
    dictionaries: &Dictionaries,
    birth: u64,
    memory: &mut M,
) -> Option<Word>
    requires sound { IsSound (M.heap memory.old) }
    requires held { AreValues (M.heap memory.old) dictionaries.now }
    ensures heap { M.heap memory.new ≡ M.heap memory.old }
    ensures grants { M.grants memory.new ≡ M.grants memory.old }
    ensures held { IfSome result (IsValue (M.heap memory.old)) }
    ensures name { (names : List (List ℕ)) (s : Store) → Shows (M.heap memory.old) names s
        → option_map (value_of (birth_at (M.heap memory.old)) names) result
        ≡ spec.name_through s birth (values_in (M.heap memory.old) names dictionaries.now) }
{
    for depth in 0..dictionaries.len() {
        let Some(one) = dictionaries.peek(depth) else {
            return None;
        };
        if let Some(key) = name_in(one, birth, memory) {
            return Some(key);
        }
    }
    None
}
