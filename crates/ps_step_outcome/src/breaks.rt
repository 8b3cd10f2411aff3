//! An unwinding goes on, or ends a context that has no frame left (PLRM2, 3.10, 8 'Operators':
//! Control).

ghost use Rattle.std.specs.Prelude.{◌≡◌, ◌≢◌, ◌<◌, ◌≤◌, [], ℕ, List, Some, IfSome, IfErr, OnOk};
ghost use Rattle.std.specs.Prelude.{OnErr};
ghost use Rattle.std.specs.List.{AllPairs};
ghost use Rattle.ps_language.specs.Access.{dictionary_at};
ghost use Rattle.ps_language.specs.StepErrors as language;
ghost use Rattle.ps_language.specs.Value.{Store};
ghost use Rattle.ps_mem.specs.Heap.{birth_at};
ghost use Rattle.ps_names.specs.declared.first.TheConstants.{COMMAND, ERRORNAME, NEWERROR};
ghost use Rattle.ps_mem.specs.Meaning.{value_of};
ghost use Rattle.ps_mem.specs.References.{StandsAs};
ghost use Rattle.ps_mem.specs.Shows.{IsSound, Shows};
ghost use Rattle.ps_ops_operands.specs.FirstNames.{BeginWithFirst};
ghost use Rattle.ps_text.specs.Printed.{Prints, StaysBounded};
ghost use Rattle.ps_ops_state.specs.Lent.{lent_of, IsGood};
ghost use Rattle.ps_ops_control.specs.Turns.{cause_of};
ghost use Rattle.ps_step_outcome.specs.Entries.{IsNamed};
ghost use Rattle.ps_step_outcome.specs.Turns.{Turns, IsUnlogged, break_turn, nothing_more};

use crate::notes::{ErrorKeys, error_keys};
use crate::turned::Turned;
use ps_dict::changes::put;
use ps_dict::dictionaries::{position, value_of_key};
use ps_dict::plans::PutPlan;
use ps_language::kinds::Kind;
use ps_mem::{Memory, Slot};
use ps_names::Names;
use ps_ops_control::frames::Cause;
use ps_ops_control::readers::boolean_of;
use ps_ops_operands::failure::NotMade;
use ps_ops_operands::permits::permitted;
use ps_ops_operands::plain;
use ps_ops_state::lent::{Attempt, Context, Runtime};
use ps_text::outputs::Output;
use ps_word::words::Word;
use std::alloc::AllocError;

/// Whether a value is the boolean true.
fn is_true(word: Word) -> bool
    ensures { (births : ℕ → ℕ) (names : List (List ℕ))
        → result ≡ language.truth_in (value_of births names word).what }
{
    match boolean_of(word) {
        Some(truth) => truth,
        None => false,
    }
}

/// Whether the error in the `$error` at an address is new. The memory is only read.
pub fn has_new_error<M: Memory>(memory: &mut M, address: u32, keys: ErrorKeys) -> bool
    requires sound { IsSound (M.heap memory.old) }
    requires known { StandsAs (M.heap memory.old) Kind.Dictionary address 4 }
    requires key { IsNamed NEWERROR keys.newerror }
    ensures heap { M.heap memory.new ≡ M.heap memory.old }
    ensures grants { M.grants memory.new ≡ M.grants memory.old }
    ensures value { (names : List (List ℕ)) (s : Store) → BeginWithFirst names
        → AllPairs (λ one later. one ≢ later) names → Shows (M.heap memory.old) names s
        → result ≡ language.has_new_error
        (dictionary_at s (birth_at (M.heap memory.old) address)) }
{
    match value_of_key(memory, address, keys.newerror) {
        Some(word) => is_true(word),
        None => false,
    }
}

/// Prints the line of the error in the `$error` at an address. The memory is only read.
///
/// `AllocError`: the line is more than may be printed, or the output lacks room and a growth was
/// refused; its bytes are as they were.
pub fn print_line<M: Memory>(
    memory: &mut M,
    names: &Names,
    address: u32,
    keys: ErrorKeys,
    output: &mut Output,
) -> Result<(), AllocError>
    requires sound { IsSound (M.heap memory.old) }
    requires known { StandsAs (M.heap memory.old) Kind.Dictionary address 4 }
    requires name { IsNamed ERRORNAME keys.errorname }
    requires command { IsNamed COMMAND keys.command }
    ensures heap { M.heap memory.new ≡ M.heap memory.old }
    ensures grants { M.grants memory.new ≡ M.grants memory.old }
    ensures bounded { StaysBounded output.old output.new }
    ensures err { OnErr result (output.new.bytes ≡ output.old.bytes) }
    ensures prints { (s : Store) → BeginWithFirst names.now
        → AllPairs (λ one later. one ≢ later) names.now → Shows (M.heap memory.old) names.now s
        → Prints result
        (language.error_line s (dictionary_at s (birth_at (M.heap memory.old) address)))
        output.old output.new }
{
    let name = value_of_key(memory, address, keys.errorname);
    let command = value_of_key(memory, address, keys.command);
    output.print_error_line(memory, names, name, command)
}

/// Asks for so many records, at least one.
///
/// `LogFull`: the log of the slot is open and takes fewer. `LogClosed`: it is closed.
pub fn permit_records<M: Memory>(memory: &mut M, slot: Slot, count: u32) -> Result<(), NotMade>
    requires some { 1 ≤ count }
    ensures heap { M.heap memory.new ≡ M.heap memory.old }
    ensures kept { M.grants memory.new
        ≡ record (M.grants memory.old) { records = (M.grants memory.new).records } }
    ensures others { (s : ℕ) → s ≢ slot
        → (M.grants memory.new).records s ≡ (M.grants memory.old).records s }
    ensures more { (M.grants memory.old).records slot ≤ (M.grants memory.new).records slot }
    ensures granted { OnOk result (count ≤ (M.grants memory.new).records slot) }
    ensures reason { IfErr result (λ reason.
        IsUnlogged count slot (M.grants memory.old) (M.grants memory.new) reason) }
{
    permitted(memory, slot, count)
}

/// An unwinding for stop ends a context that has no frame left. Where its error is new, the line is
/// printed, and it is new no more.
///
/// `LogFull`, `LogClosed`: the log of the slot takes no record. `Memory`: the output has no room
/// for the line. Nothing has changed then.
fn end_by_stop<M: Memory>(
    context: &mut Context,
    runtime: &mut Runtime<M>,
    attempt: Attempt,
) -> Result<Turned, NotMade>
    requires good { IsGood (lent_of M.heap M.grants context.old runtime.old) }
    requires last { context.old.frames ≡ [] }
    ensures { Turns nothing_more (break_turn (cause_of Cause.Stop)) attempt result
        (lent_of M.heap M.grants context.old runtime.old)
        (lent_of M.heap M.grants context.new runtime.new) }
{
    let address = context.error_dictionary;
    let keys = error_keys();
    let Some(place) = position(&mut runtime.memory, address, keys.newerror) else {
        return Ok(Turned::Ends { told: false });
    };
    if !has_new_error(&mut runtime.memory, address, keys) {
        return Ok(Turned::Ends { told: false });
    }
    match permit_records(&mut runtime.memory, attempt.slot, 1) {
        Ok(()) => {}
        Err(reason) => return Err(reason),
    }
    let shared = &mut runtime.shared;
    match print_line(
        &mut runtime.memory,
        &shared.names,
        address,
        keys,
        &mut shared.printed,
    ) {
        Ok(()) => {}
        Err(AllocError) => return Err(NotMade::Memory),
    }
    let plan = PutPlan::Replace(place);
    put(
        &mut runtime.memory,
        attempt.slot,
        address,
        plan,
        keys.newerror,
        plain::boolean(false),
    );
    Ok(Turned::Ends { told: true })
}

/// An unwinding begins or goes on; where no frame is left the context ends, and for stop the line
/// of a new error is printed.
///
/// `LogFull`, `LogClosed`: that error's entry can't be logged. `Memory`: the output has no room for
/// its line. Nothing has changed then.
#[inline(never)]
pub fn break_off<M: Memory>(
    cause: Cause,
    context: &mut Context,
    runtime: &mut Runtime<M>,
    attempt: Attempt,
) -> Result<Turned, NotMade>
    requires good { IsGood (lent_of M.heap M.grants context.old runtime.old) }
    ensures { Turns nothing_more (break_turn (cause_of cause)) attempt result
        (lent_of M.heap M.grants context.old runtime.old)
        (lent_of M.heap M.grants context.new runtime.new) }
{
    if context.frames.len() > 0 {
        return Ok(Turned::Breaks(cause));
    }
    match cause {
        Cause::Stop => end_by_stop(context, runtime, attempt),
        Cause::Exit => Ok(Turned::Ends { told: false }),
        Cause::Quit => Ok(Turned::Ends { told: false }),
    }
}
