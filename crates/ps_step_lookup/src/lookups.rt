//! Look-up of keys in a dictionary and through the dictionary stack (PLRM2, 3.3.9, 3.7.1).

ghost use Rattle.std.specs.Prelude.{◌≡◌, ◌≢◌, ℕ, ◌-◌, ◌<◌, List, Some, IsSome, IfSome, IfOk, option_map, map, AllPairs, slice_get, length};
ghost use Rattle.ps_language.specs.Access.{dictionary_at};
ghost use Rattle.ps_language.specs.Dictionaries as language;
ghost use Rattle.ps_language.specs.Dictionaries.{find};
ghost use Rattle.ps_language.specs.Access as access;
ghost use Rattle.ps_language.specs.Value.{Store, Value};
ghost use Rattle.ps_mem.specs.Heap.{birth_at};
ghost use Rattle.ps_mem.specs.Meaning.{value_of};
ghost use Rattle.ps_mem.specs.References.{StandsAs};
ghost use Rattle.ps_mem.specs.Shows.{AreValues, AreWithin, IsSound, IsValue, IsWithin, Shows};
ghost use Rattle.ps_ops_operands.specs.Changes.{values_in};
ghost use Rattle.ps_word.specs.Format.{content_in};
ghost use Rattle.ps_step_lookup.specs.Lookups.{IsSought, IsValueOf, LooksIn, found_of};

use ps_dict::cells::keep_cell;
use ps_dict::dictionaries::{access, value_of_key};
use ps_language::errors::ErrorName;
use ps_language::kinds::Kind;
use ps_mem::Memory;
use ps_ops_operands::access::is_readable;
use ps_ops_state::lent::Dictionaries;
use ps_ops_types::access::access_of;
use ps_word::values::Content;
use ps_word::words::Word;

/// The value of a key in a dictionary, where it has it. A name that was not met has no word, and no
/// dictionary has it.
#[inline(always)]
pub fn find_in<M: Memory>(memory: &mut M, address: u32, key: Option<Word>) -> Option<Word>
    requires sound { IsSound (M.heap memory.old) }
    requires known { StandsAs (M.heap memory.old) Kind.Dictionary address 4 }
    requires held { IfSome key (IsValue (M.heap memory.old)) }
    ensures heap { M.heap memory.new ≡ M.heap memory.old }
    ensures grants { M.grants memory.new ≡ M.grants memory.old }
    ensures held { IfSome result (IsValue (M.heap memory.old)) }
    ensures word { IsSome result → IsSome key }
    ensures within { (names : List (List ℕ)) (s : Store) → Shows (M.heap memory.old) names s
        → IfSome result (IsWithin (birth_at (M.heap memory.old)) names s) }
    ensures value { (names : List (List ℕ)) (s : Store) (k : Value)
        → Shows (M.heap memory.old) names s → AllPairs (λ first later. first ≢ later) names
        → IsSought (birth_at (M.heap memory.old)) names s key k
        → option_map (value_of (birth_at (M.heap memory.old)) names) result ≡ find
        (dictionary_at s (birth_at (M.heap memory.old) address)).pairs k }
{
    match key {
        Some(word) => value_of_key(memory, address, word),
        None => None,
    }
}

/// Whether what stands on the dictionary stack may be read.
#[inline(always)]
fn may_read<M: Memory>(memory: &mut M, dictionary: Word) -> bool
    requires sound { IsSound (M.heap memory.old) }
    requires held { IsValue (M.heap memory.old) dictionary }
    ensures heap { M.heap memory.new ≡ M.heap memory.old }
    ensures grants { M.grants memory.new ≡ M.grants memory.old }
    ensures value { (names : List (List ℕ)) (s : Store) → Shows (M.heap memory.old) names s
        → result ≡ access.may_read s (value_of (birth_at (M.heap memory.old)) names dictionary) }
{
    match access_of(memory, dictionary) {
        Some(access) => is_readable(access),
        None => true,
    }
}

/// The value of a key in what stands on the dictionary stack. Raises `invalidaccess`.
#[inline(always)]
fn look_in<M: Memory>(
    memory: &mut M,
    dictionary: Word,
    key: Option<Word>,
) -> Result<Option<Word>, ErrorName>
    requires sound { IsSound (M.heap memory.old) }
    requires dictionary { IsValue (M.heap memory.old) dictionary }
    requires key { IfSome key (IsValue (M.heap memory.old)) }
    ensures heap { M.heap memory.new ≡ M.heap memory.old }
    ensures grants { M.grants memory.new ≡ M.grants memory.old }
    ensures held { IfOk result (λ found. IfSome found (IsValue (M.heap memory.old))) }
    ensures word { IfOk result (λ found. IsSome found → IsSome key) }
    ensures within { (names : List (List ℕ)) (s : Store) → Shows (M.heap memory.old) names s
        → IfOk result (λ found. IfSome found (IsWithin (birth_at (M.heap memory.old)) names s)) }
    ensures value { (names : List (List ℕ)) (s : Store) (k : Value)
        → Shows (M.heap memory.old) names s → AllPairs (λ first later. first ≢ later) names
        → IsSought (birth_at (M.heap memory.old)) names s key k
        → LooksIn (birth_at (M.heap memory.old)) names s dictionary k result }
{
    let Some(address) = dictionary.as_dictionary() else {
        if may_read(memory, dictionary) {
            return Ok(None);
        }
        return Err(ErrorName::InvalidAccess);
    };
    if !is_readable(access(memory, address)) {
        return Err(ErrorName::InvalidAccess);
    }
    Ok(find_in(memory, address, key))
}

/// What stands on the dictionary stack above so many others.
#[inline(always)]
fn dictionary_above(dictionaries: &Dictionaries, below: usize) -> Word
    requires { below < length dictionaries.now }
    ensures { slice_get dictionaries.now (length dictionaries.now - 1 - below) ≡ Some result }
{
    dictionaries.topmost(dictionaries.len())[below]
}

/// The topmost dictionary that has a key, and its value there. Raises `invalidaccess` where one
/// that can't be read is come to first.
#[inline(always)]
pub fn look_up<M: Memory>(
    memory: &mut M,
    dictionaries: &Dictionaries,
    key: Option<Word>,
) -> Result<Option<(Word, Word)>, ErrorName>
    requires sound { IsSound (M.heap memory.old) }
    requires dictionaries { AreValues (M.heap memory.old) dictionaries.now }
    requires key { IfSome key (IsValue (M.heap memory.old)) }
    ensures heap { M.heap memory.new ≡ M.heap memory.old }
    ensures grants { M.grants memory.new ≡ M.grants memory.old }
    ensures held { IfOk result (λ found. IfSome found (λ pair. IsValue (M.heap memory.old) pair.0
        × IsValue (M.heap memory.old) pair.1)) }
    ensures word { IfOk result (λ found. IsSome found → IsSome key) }
    ensures within { (names : List (List ℕ)) (s : Store) → Shows (M.heap memory.old) names s
        → AreWithin (M.heap memory.old) names s dictionaries.now
        → IfOk result (λ found. IfSome found (λ pair.
        IsWithin (birth_at (M.heap memory.old)) names s pair.0
        × IsWithin (birth_at (M.heap memory.old)) names s pair.1)) }
    ensures value { (names : List (List ℕ)) (s : Store) (k : Value)
        → Shows (M.heap memory.old) names s → AllPairs (λ first later. first ≢ later) names
        → IsSought (birth_at (M.heap memory.old)) names s key k
        → language.look_up s (values_in (M.heap memory.old) names dictionaries.now) k
        ≡ found_of (birth_at (M.heap memory.old)) names result }
{
    let mut below = dictionaries.len();
    while below > 0 {
        below -= 1;
        let dictionary = dictionary_above(dictionaries, below);
        match look_in(memory, dictionary, key) {
            Ok(Some(value)) => return Ok(Some((dictionary, value))),
            Ok(None) => {}
            Err(error) => return Err(error),
        }
    }
    Ok(None)
}

/// Tells the memory where the value of a name stands, if one of the two lowest dictionaries has it.
fn tell_lowest<M: Memory>(memory: &mut M, dictionaries: &Dictionaries, word: Word)
    requires sound { IsSound (M.heap memory.old) }
    requires dictionaries { AreValues (M.heap memory.old) dictionaries.now }
    requires key { IsValue (M.heap memory.old) word }
    ensures heap { M.heap memory.new ≡ M.heap memory.old }
    ensures grants { M.grants memory.new ≡ M.grants memory.old }
{
    if dictionaries.len() >= 2 {
        let upper = dictionary_above(dictionaries, 1);
        let lower = dictionary_above(dictionaries, 0);
        keep_cell(memory, upper, lower, word);
    }
}

/// The value of a name by the general way. The memory is told where it stands, if one of the two
/// lowest dictionaries has it.
#[inline(never)]
fn look_up_apart<M: Memory>(memory: &mut M, dictionaries: &Dictionaries, word: Word) -> Option<Word>
    requires sound { IsSound (M.heap memory.old) }
    requires dictionaries { AreValues (M.heap memory.old) dictionaries.now }
    requires key { IsValue (M.heap memory.old) word }
    ensures heap { M.heap memory.new ≡ M.heap memory.old }
    ensures grants { M.grants memory.new ≡ M.grants memory.old }
    ensures held { IfSome result (IsValue (M.heap memory.old)) }
    ensures within { (names : List (List ℕ)) (s : Store) → Shows (M.heap memory.old) names s
        → AreWithin (M.heap memory.old) names s dictionaries.now
        → IfSome result (IsWithin (birth_at (M.heap memory.old)) names s) }
    ensures value { IsValueOf (M.heap memory.old) dictionaries.now word result }
{
    tell_lowest(memory, dictionaries, word);
    match look_up(memory, dictionaries, Some(word)) {
        Ok(Some(found)) => Some(found.1),
        Ok(None) => None,
        Err(_) => None,
    }
}

/// The value of a name that is executed, by the topmost dictionary that has it. None: none has it,
/// or one that can't be read is come to first. The two lowest dictionaries are not asked where the
/// memory knows what they have.
#[inline(always)]
pub fn look_up_name<M: Memory>(
    memory: &mut M,
    dictionaries: &Dictionaries,
    word: Word,
    name: u16,
) -> Option<Word>
    requires sound { IsSound (M.heap memory.old) }
    requires dictionaries { AreValues (M.heap memory.old) dictionaries.now }
    requires key { IsValue (M.heap memory.old) word }
    requires name { content_in word.0 ≡ Content.Name name }
    ensures heap { M.heap memory.new ≡ M.heap memory.old }
    ensures grants { M.grants memory.new ≡ M.grants memory.old }
    ensures held { IfSome result (IsValue (M.heap memory.old)) }
    ensures within { (names : List (List ℕ)) (s : Store) → Shows (M.heap memory.old) names s
        → AreWithin (M.heap memory.old) names s dictionaries.now
        → IfSome result (IsWithin (birth_at (M.heap memory.old)) names s) }
    ensures value { IsValueOf (M.heap memory.old) dictionaries.now word result }
{
    let mut below = dictionaries.len();
    while below > 2 {
        below -= 1;
        let dictionary = dictionary_above(dictionaries, below);
        match look_in(memory, dictionary, Some(word)) {
            Ok(Some(value)) => return Some(value),
            Ok(None) => {}
            Err(_) => return None,
        }
    }
    if below == 2 {
        let upper = dictionary_above(dictionaries, 1);
        let lower = dictionary_above(dictionaries, 0);
        if let Some(value) = memory.known(upper, lower, name) {
            return Some(value);
        }
    }
    look_up_apart(memory, dictionaries, word)
}
