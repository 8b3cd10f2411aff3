//! Errors noted in `$error` (PLRM2, 3.10).

ghost use Rattle.std.specs.Prelude.{◌≡◌, ◌≢◌, ◌<◌, ◌≤◌, ℕ, List, Some, Err, IfErr, OnOk, map};
ghost use Rattle.std.specs.Prelude.{slice_get};
ghost use Rattle.ps_language.specs.Value.{Store};
ghost use Rattle.ps_language.specs.declared.errors.ErrorName.{ErrorName};
ghost use Rattle.ps_language.specs.StepErrors.{error_text};
ghost use Rattle.ps_language.specs.Worlds.{first_names};
ghost use Rattle.ps_word.specs.declared.words.Word.{Word as TheWord};
ghost use Rattle.ps_mem.specs.Heap.{Heap, birth_at};
ghost use Rattle.ps_names.specs.declared.first.TheConstants.{COMMAND, ERRORNAME, FIRST_TYPE, NEWERROR};
ghost use Rattle.ps_mem.specs.Meaning.{value_of};
ghost use Rattle.ps_mem.specs.References.{StandsAs};
ghost use Rattle.ps_mem.specs.Shows.{IsValue, AreValues, IsWithin, AreWithin, IsSound, pair_of};
ghost use Rattle.ps_mem.specs.Shows.{words_of_pairs};
ghost use Rattle.ps_dict.specs.Entries.{AreApart, entry_pairs};
ghost use Rattle.ps_ops_operands.specs.FirstNames.{BeginWithFirst};
ghost use Rattle.ps_step_outcome.specs.Turns.{Notes};
ghost use Rattle.ps_step_outcome.specs.Entries.{IsNamed, entries_with};

use ps_dict::entries::{ErrorEntries, plan_error, put_error};
use ps_language::errors::ErrorName;
use ps_language::kinds::Kind;
use ps_mem::{Memory, Slot};
use ps_names::first::{COMMAND, ERRORNAME, FIRST_ERROR, NEWERROR};
use ps_ops_operands::failure::NotMade;
use ps_ops_operands::permits::{MOST_RECORDS, permitted};
use ps_ops_operands::plain;
use ps_word::values::Content;
use ps_word::words::Word;

/// The number of an error's name.
fn error_number(error: ErrorName) -> u16
    ensures name { slice_get first_names result ≡ Some (error_text error) }
    ensures few { result < FIRST_TYPE }
{
    FIRST_ERROR + error as u16
}

/// The keys of `$error`.
#[derive(Clone, Copy)]
pub struct ErrorKeys {
    pub newerror: Word,
    pub errorname: Word,
    pub command: Word,
}

/// The words of the keys of `$error`.
pub fn error_keys() -> ErrorKeys
    ensures newerror { IsNamed NEWERROR result.newerror }
    ensures errorname { IsNamed ERRORNAME result.errorname }
    ensures command { IsNamed COMMAND result.command }
{
    ErrorKeys {
        newerror: Word::literal(Content::Name(NEWERROR)),
        errorname: Word::literal(Content::Name(ERRORNAME)),
        command: Word::literal(Content::Name(COMMAND)),
    }
}

/// The entries of an error by its command; `new`: the value of `newerror`.
pub fn entries_of(error: ErrorName, command: Word, new: bool) -> ErrorEntries
    ensures apart { AreApart result }
    ensures held { (h : Heap) → IsValue h command
        → AreValues h (words_of_pairs (entry_pairs result)) }
    ensures within { (h : Heap) (names : List (List ℕ)) (store : Store) → BeginWithFirst names
        → IsWithin (birth_at h) names store command
        → AreWithin h names store (words_of_pairs (entry_pairs result)) }
    ensures values { (births : ℕ → ℕ) (names : List (List ℕ)) → BeginWithFirst names
        → map (pair_of births names) (entry_pairs result)
        ≡ entries_with new error (value_of births names command) }
{
    let keys = error_keys();
    let name = Word::literal(Content::Name(error_number(error)));
    ErrorEntries {
        newerror: (keys.newerror, plain::boolean(new)),
        errorname: (keys.errorname, name),
        command: (keys.command, command),
    }
}

/// Asks for the records of a note, five.
///
/// `LogFull`: the log of the slot is open and takes fewer. `LogClosed`: it is closed.
pub fn permit_note<M: Memory>(memory: &mut M, slot: Slot) -> Result<(), NotMade>
    requires sound { IsSound (M.heap memory.old) }
    ensures heap { M.heap memory.new ≡ M.heap memory.old }
    ensures kept { M.grants memory.new
        ≡ record (M.grants memory.old) { records = (M.grants memory.new).records } }
    ensures others { (s : ℕ) → s ≢ slot
        → (M.grants memory.new).records s ≡ (M.grants memory.old).records s }
    ensures more { (M.grants memory.old).records slot ≤ (M.grants memory.new).records slot }
    ensures granted { OnOk result (5 ≤ (M.grants memory.new).records slot) }
    ensures reason { IfErr result (λ reason. (error : ErrorName) (command : TheWord) (address : ℕ)
        → Notes error command slot address (Err reason) (M.heap memory.old) (M.heap memory.new)
        (M.grants memory.old) (M.grants memory.new)) }
{
    permitted(memory, slot, MOST_RECORDS)
}

/// Puts the entries of an error into the `$error` at an address: up to three values or pairs, which
/// never grow it. It asks for five records before it reads anything, and puts no more.
///
/// `LogFull`: the log of the slot is open and takes fewer than five. `LogClosed`: it is closed.
pub fn note<M: Memory>(
    memory: &mut M,
    slot: Slot,
    address: u32,
    error: ErrorName,
    command: Word,
) -> Result<(), NotMade>
    requires sound { IsSound (M.heap memory.old) }
    requires stands { StandsAs (M.heap memory.old) Kind.Dictionary address 4 }
    requires held { IsValue (M.heap memory.old) command }
    ensures { Notes error command slot address result (M.heap memory.old) (M.heap memory.new)
        (M.grants memory.old) (M.grants memory.new) }
{
    match permit_note(memory, slot) {
        Ok(()) => {
            let entries = entries_of(error, command, true);
            let plan = plan_error(memory, address, entries);
            put_error(memory, slot, address, plan, entries);
            Ok(())
        }
        Err(reason) => Err(reason),
    }
}
