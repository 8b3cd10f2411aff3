//! The first dictionaries: systemdict, userdict and `$error` (PLRM2, 3.7, 3.10).

ghost use Rattle.std.specs.Prelude.{◌≡◌, ◌≢◌, ◌≤◌, ◌<◌, ◌^◌, ◌++◌, ℕ, List, [], ◌∷◌, vec_capacity};
ghost use Rattle.std.specs.List.{AllPairs};
ghost use Rattle.ps_language.specs.Value.{Store};
ghost use Rattle.ps_language.specs.StepErrors.{new_error_dictionary};
ghost use Rattle.ps_mem.specs.Heap.{birth_at, AfterNew, SameLogs};
ghost use Rattle.ps_mem.specs.Keeps.{Extends};
ghost use Rattle.ps_mem.specs.References.{StandsAs};
ghost use Rattle.ps_mem.specs.Shows.{IsSound, Shows};
ghost use Rattle.ps_ops_operands.specs.FirstNames.{BeginWithFirst};
ghost use Rattle.ps_ctx_start.specs.declared.words.TheConstants.{SYSTEM_WORDS};
ghost use Rattle.ps_ctx_start.specs.Starts.{IsEmptyHeap, AreFirst};

use crate::words::{error_words, push_system_words};
use ps_dict::makes::{fill_access, fill_pairs, make_dictionary_with, new_dictionary};
use ps_language::access::Access;
use ps_language::kinds::Kind;
use ps_mem::Memory;
use ps_word::words::Word;

/// How many pairs have room in systemdict.
const SYSTEM_CAPACITY: u16 = 128;

/// How many in userdict.
const USER_CAPACITY: u16 = 32;

/// How many in `$error` of a context.
const ERROR_CAPACITY: u16 = 8;

/// The addresses of the first dictionaries.
#[derive(Clone, Copy, Debug, PartialEq, Eq)]
pub struct FirstDictionaries {
    pub system: u32,
    pub user: u32,
    /// `$error` of the first context.
    pub error: u32,
}

/// A new `$error` for a context, as it is before the first error: 32 words.
pub fn make_error_dictionary<M: Memory>(memory: &mut M) -> u32
    requires words { 32 ≤ (M.grants memory.old).words }
    requires births { 1 ≤ (M.grants memory.old).births }
    requires sound { IsSound (M.heap memory.old) }
    ensures address { result < 2 ^ 24 }
    ensures known { StandsAs (M.heap memory.new) Kind.Dictionary result 4 }
    ensures sound { IsSound (M.heap memory.new) }
    ensures extends { Extends (M.heap memory.old) (M.heap memory.new) }
    ensures birth { birth_at (M.heap memory.new) result ≡ (M.heap memory.old).next }
    ensures grants { AfterNew (M.grants memory.old) (M.grants memory.new) result 32 1 }
    ensures shows { (names : List (List ℕ)) (s : Store) → Shows (M.heap memory.old) names s
        → AllPairs (λ first later. first ≢ later) names → BeginWithFirst names
        → Shows (M.heap memory.new) names (s ++ new_error_dictionary ∷ []) }
{
    make_dictionary_with(memory, ERROR_CAPACITY, &error_words())
}

/// Makes the first dictionaries in a memory in which nothing stands, in the order of their birth
/// numbers. systemdict refers to itself and to userdict: it gets its pairs when all three stand.
/// These are put together in an empty list that has room for them, which is left empty.
pub(crate) fn make_dictionaries<M: Memory>(
    memory: &mut M,
    scratch: &mut Vec<Word>,
) -> FirstDictionaries
    requires heap { IsEmptyHeap (M.heap memory.old) }
    requires words { 528 ≤ (M.grants memory.old).words }
    requires births { 3 ≤ (M.grants memory.old).births }
    requires scratch { scratch.old.items ≡ [] }
    requires room { SYSTEM_WORDS ≤ vec_capacity scratch.old }
    ensures first { AreFirst (M.heap memory.new) result }
    ensures scratch { scratch.new.items ≡ [] }
    ensures space { (M.heap memory.new).space ≡ (M.heap memory.old).space }
    ensures logs { SameLogs (M.grants memory.old) (M.grants memory.new) }
{
    let system = new_dictionary(memory, SYSTEM_CAPACITY);
    let user = new_dictionary(memory, USER_CAPACITY);
    let error = make_error_dictionary(memory);
    push_system_words(scratch, system, user);
    fill_pairs(memory, system, scratch);
    fill_access(memory, system, Access::ReadOnly);
    scratch.clear();
    FirstDictionaries {
        system,
        user,
        error,
    }
}
