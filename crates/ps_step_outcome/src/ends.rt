//! The end of a context: the line of an error that nothing caught (PLRM2, 3.10).

ghost use Rattle.std.specs.Prelude.{◌≡◌, ◌<◌, ◌≤◌, ◌∷◌, [], OnErr};
ghost use Rattle.ps_language.specs.Value.{Store};
ghost use Rattle.ps_mem.specs.Heap.{birth_at};
ghost use Rattle.ps_mem.specs.Meaning.{value_of};
ghost use Rattle.ps_mem.specs.Shows.{IsValue, AreValues, IsSound, AreWithin, Shows, words_of_pairs};
ghost use Rattle.ps_dict.specs.Entries.{entry_pairs};
ghost use Rattle.ps_text.specs.Printed.{Prints, StaysBounded};
ghost use Rattle.ps_ops_state.specs.Lent.{lent_of, IsGood};
ghost use Rattle.ps_step_outcome.specs.Ends as ends;
ghost use Rattle.ps_step_outcome.specs.Turns.{TurnsWith, error_turn, nothing_more};

use crate::notes::{entries_of, permit_note};
use crate::turned::Turned;
use ps_dict::entries::{ErrorEntries, ErrorPlan, plan_error, put_error};
use ps_language::errors::ErrorName;
use ps_mem::Memory;
use ps_names::Names;
use ps_ops_operands::failure::NotMade;
use ps_ops_state::lent::{Attempt, Context, Runtime};
use ps_text::outputs::Output;
use ps_word::words::Word;
use std::alloc::AllocError;

/// Whether an entry stands in `$error` once it is put: its key has a place, or there is room behind
/// the pairs that wait.
fn stands(place: Option<u32>, waiting: u32, room: u32) -> bool
    ensures { result ≡ ends.stands place waiting room }
{
    place.is_some() || waiting < room
}

/// 1 where a key has no place.
fn vacant(place: Option<u32>) -> u32
    ensures value { result ≡ ends.vacant place }
    ensures most { result ≤ 1 }
{
    place.is_none() as u32
}

/// A value, if it stands.
fn given_that_stands(there: bool, word: Word) -> Option<Word>
    ensures { result ≡ ends.given_that_stands there word }
{
    if there { Some(word) } else { None }
}

/// Prints the line of an error whose entries are about to be put by this plan, where it is new
/// then.
fn print_line<M: Memory>(
    memory: &mut M,
    names: &Names,
    plan: ErrorPlan,
    entries: ErrorEntries,
    output: &mut Output,
) -> Result<(), AllocError>
    requires sound { IsSound (M.heap memory.old) }
    requires held { AreValues (M.heap memory.old) (words_of_pairs (entry_pairs entries)) }
    ensures heap { M.heap memory.new ≡ M.heap memory.old }
    ensures grants { M.grants memory.new ≡ M.grants memory.old }
    ensures bounded { StaysBounded output.old output.new }
    ensures err { OnErr result (output.new.bytes ≡ output.old.bytes) }
    ensures prints { (s : Store) → Shows (M.heap memory.old) names.now s
        → AreWithin (M.heap memory.old) names.now s (words_of_pairs (entry_pairs entries))
        → Prints result (ends.planned_line s plan
        (value_of (birth_at (M.heap memory.old)) names.now entries.errorname.1)
        (value_of (birth_at (M.heap memory.old)) names.now entries.command.1))
        output.old output.new }
{
    if !stands(plan.newerror, 0, plan.room) {
        return Ok(());
    }
    let waiting = vacant(plan.newerror);
    let name = stands(plan.errorname, waiting, plan.room);
    let command = stands(plan.command, waiting + vacant(plan.errorname), plan.room);
    output.print_error_line(
        memory,
        names,
        given_that_stands(name, entries.errorname.1),
        given_that_stands(command, entries.command.1),
    )
}

/// An error ends a context that has no frame left: its entries are put, its line is printed, and it
/// is new no more.
///
/// `LogFull`, `LogClosed`: the log of the slot doesn't take five records. `Memory`: the output has
/// no room for the line. Nothing has changed then.
pub fn end_by_error<M: Memory>(
    error: ErrorName,
    command: Word,
    context: &mut Context,
    runtime: &mut Runtime<M>,
    attempt: Attempt,
) -> Result<Turned, NotMade>
    requires good { IsGood (lent_of M.heap M.grants context.old runtime.old) }
    requires held { IsValue (M.heap runtime.old.memory) command }
    requires last { context.old.frames ≡ [] }
    ensures { TurnsWith (command ∷ []) [] nothing_more (error_turn error command) attempt result
        (lent_of M.heap M.grants context.old runtime.old)
        (lent_of M.heap M.grants context.new runtime.new) }
{
    match permit_note(&mut runtime.memory, attempt.slot) {
        Ok(()) => {}
        Err(reason) => return Err(reason),
    }
    let address = context.error_dictionary;
    let entries = entries_of(error, command, false);
    let plan = plan_error(&mut runtime.memory, address, entries);
    let shared = &mut runtime.shared;
    match print_line(
        &mut runtime.memory,
        &shared.names,
        plan,
        entries,
        &mut shared.printed,
    ) {
        Ok(()) => {}
        Err(AllocError) => return Err(NotMade::Memory),
    }
    put_error(&mut runtime.memory, attempt.slot, address, plan, entries);
    Ok(Turned::Ends {
        told: stands(plan.newerror, 0, plan.room),
    })
}
