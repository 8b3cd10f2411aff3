//! The last error of a context, as its `$error` has it.

ghost use Rattle.std.specs.Prelude.{◌≡◌, ◌≢◌, ℕ, List, IfSome, AllPairs, option_map};
ghost use Rattle.ps_language.specs.Access.{dictionary_at};
ghost use Rattle.ps_language.specs.Dictionaries.{find};
ghost use Rattle.ps_language.specs.StepErrors.{command_key, errorname_key};
ghost use Rattle.ps_language.specs.Value.{Store};
ghost use Rattle.ps_mem.specs.Heap.{birth_at};
ghost use Rattle.ps_mem.specs.Meaning.{value_of};
ghost use Rattle.ps_mem.specs.References.{StandsAs};
ghost use Rattle.ps_mem.specs.Shows.{IsSound, IsValue, IsWithin, Shows};
ghost use Rattle.ps_ops_operands.specs.FirstNames.{BeginWithFirst};

use ps_dict::dictionaries::value_of_key;
use ps_language::kinds::Kind;
use ps_mem::Memory;
use ps_step_outcome::notes::error_keys;
use ps_word::words::Word;

/// What `$error` says of the last error. A program may have changed it.
#[derive(Clone, Copy, Debug, PartialEq, Eq)]
pub struct LastError {
    /// What stands for its name, if anything does.
    pub name: Option<Word>,
    /// What stands for what raised it, if anything does.
    pub command: Option<Word>,
}

/// The last error of the `$error` at an address. The memory is only read.
pub fn last_error<M: Memory>(memory: &mut M, address: u32) -> LastError
    requires sound { IsSound (M.heap memory.old) }
    requires known { StandsAs (M.heap memory.old) Kind.Dictionary address 4 }
    ensures heap { M.heap memory.new ≡ M.heap memory.old }
    ensures grants { M.grants memory.new ≡ M.grants memory.old }
    ensures held_name { IfSome result.name (IsValue (M.heap memory.old)) }
    ensures held_command { IfSome result.command (IsValue (M.heap memory.old)) }
    ensures within_name { (names : List (List ℕ)) (s : Store) → Shows (M.heap memory.old) names s
        → IfSome result.name (IsWithin (birth_at (M.heap memory.old)) names s) }
    ensures within_command { (names : List (List ℕ)) (s : Store)
        → Shows (M.heap memory.old) names s
        → IfSome result.command (IsWithin (birth_at (M.heap memory.old)) names s) }
    ensures name { (names : List (List ℕ)) (s : Store) → BeginWithFirst names
        → AllPairs (λ one later. one ≢ later) names → Shows (M.heap memory.old) names s
        → option_map (value_of (birth_at (M.heap memory.old)) names) result.name
        ≡ find (dictionary_at s (birth_at (M.heap memory.old) address)).pairs errorname_key }
    ensures command { (names : List (List ℕ)) (s : Store) → BeginWithFirst names
        → AllPairs (λ one later. one ≢ later) names → Shows (M.heap memory.old) names s
        → option_map (value_of (birth_at (M.heap memory.old)) names) result.command
        ≡ find (dictionary_at s (birth_at (M.heap memory.old) address)).pairs command_key }
{
    let keys = error_keys();
    LastError {
        name: value_of_key(memory, address, keys.errorname),
        command: value_of_key(memory, address, keys.command),
    }
}
