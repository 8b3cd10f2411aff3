//! An unwinding goes through the frame of a monitor, and its lock is free (PLRM2, 7.1, 3.10).

ghost use Rattle.std.specs.Prelude.{◌≡◌, ◌≢◌, ◌<◌, [], ℕ, List, Some, None, true, IfErr, IfSome, OnErr, OnOk, is_some};
ghost use Rattle.std.specs.List.{AllPairs};
ghost use Rattle.ps_language.specs.Access.{dictionary_at};
ghost use Rattle.ps_language.specs.Owners.{with_owner};
ghost use Rattle.ps_language.specs.StepErrors as language;
ghost use Rattle.ps_language.specs.Value.{Store};
ghost use Rattle.ps_mem.specs.Heap.{birth_at};
ghost use Rattle.ps_names.specs.declared.first.TheConstants.{NEWERROR};
ghost use Rattle.ps_mem.specs.Keeps.{Keeps};
ghost use Rattle.ps_mem.specs.References.{StandsAs};
ghost use Rattle.ps_mem.specs.Shows.{IsSound, Shows};
ghost use Rattle.ps_ops_operands.specs.Changes.{KeepsLogsWithin, spent};
ghost use Rattle.ps_dict.specs.Places.{first_place, pairs_at, place_of};
ghost use Rattle.ps_ops_operands.specs.FirstNames.{BeginWithFirst};
ghost use Rattle.ps_ops_control.specs.Frames.{frames_in};
ghost use Rattle.ps_ops_control.specs.Turns.{cause_of};
ghost use Rattle.ps_ops_state.specs.Lent.{lent_of, IsGood};
ghost use Rattle.ps_stacks.specs.Tops.{first_of};
ghost use Rattle.ps_step_outcome.specs.Entries.{IsNamed};
ghost use Rattle.ps_step_outcome.specs.Turns.{IsUnlogged, Turns};
ghost use Rattle.ps_step_frames.specs.Steps.{lock_asks, releasing_turn, tells, unwinding_asks, unwinding_turn};
ghost use Rattle.ps_step_frames.specs.Steps as steps;

use crate::frames::drop_top;
use crate::monitors::free_lock;
use ps_dict::changes::put;
use ps_dict::dictionaries::position;
use ps_dict::plans::PutPlan;
use ps_language::kinds::Kind;
use ps_mem::{Memory, Slot};
use ps_ops_control::frames::{Cause, Frame, Frames, push_frame};
use ps_ops_operands::failure::NotMade;
use ps_ops_operands::plain;
use ps_ops_state::lent::{Attempt, Context, Runtime};
use ps_step_outcome::breaks::{has_new_error, permit_records, print_line};
use ps_step_outcome::notes::error_keys;
use ps_step_outcome::turned::Turned;
use ps_word::words::Word;
use std::alloc::AllocError;

/// Frees a lock, with one record.
///
/// `LogFull`, `LogClosed`: the log of the slot takes no record; nothing has changed then.
fn release<M: Memory>(memory: &mut M, slot: Slot, lock: u32) -> Result<(), NotMade>
    requires sound { IsSound (M.heap memory.old) }
    requires known { StandsAs (M.heap memory.old) Kind.Lock lock 1 }
    ensures sound { IsSound (M.heap memory.new) }
    ensures keeps { Keeps (M.heap memory.old) (M.heap memory.new) }
    ensures logs { KeepsLogsWithin (spent result 1) (M.grants memory.old) (M.grants memory.new)
        slot }
    ensures unmade { OnErr result (M.heap memory.new ≡ M.heap memory.old) }
    ensures reason { IfErr result (λ reason.
        IsUnlogged 1 slot (M.grants memory.old) (M.grants memory.new) reason) }
    ensures shows { OnOk result ((names : List (List ℕ)) (s : Store)
        → Shows (M.heap memory.old) names s → Shows (M.heap memory.new) names
        (with_owner s (birth_at (M.heap memory.old) lock) None)) }
{
    match permit_records(memory, slot, 1) {
        Ok(()) => {}
        Err(reason) => return Err(reason),
    }
    free_lock(memory, slot, lock);
    Ok(())
}

/// What an unwinding comes to that tells no error.
fn untold(cause: Cause, frames: &Frames) -> Turned
    ensures { result ≡ steps.untold cause frames.now }
{
    if frames.len() > 0 {
        Turned::Breaks(cause)
    } else {
        Turned::Ends { told: false }
    }
}

/// The place of `newerror` in the `$error` at an address, where an unwinding tells the error. The
/// memory is only read.
fn place_of_told<M: Memory>(
    cause: Cause,
    frames: &Frames,
    address: u32,
    newerror: Word,
    memory: &mut M,
) -> Option<u32>
    requires sound { IsSound (M.heap memory.old) }
    requires known { StandsAs (M.heap memory.old) Kind.Dictionary address 4 }
    requires key { IsNamed NEWERROR newerror }
    ensures heap { M.heap memory.new ≡ M.heap memory.old }
    ensures grants { M.grants memory.new ≡ M.grants memory.old }
    ensures last { IfSome result (λ place. (cause ≡ Cause.Stop) × (frames.now ≡ [])) }
    ensures words { IfSome result (λ place.
        Some place ≡ place_of (pairs_at (M.heap memory.old) address) newerror) }
    ensures place { IfSome result (λ place. (names : List (List ℕ)) (s : Store)
        → BeginWithFirst names → AllPairs (λ one later. one ≢ later) names
        → Shows (M.heap memory.old) names s → Some place ≡ first_place
        (dictionary_at s (birth_at (M.heap memory.old) address)).pairs language.newerror_key) }
    ensures value { (names : List (List ℕ)) (s : Store) → BeginWithFirst names
        → AllPairs (λ one later. one ≢ later) names → Shows (M.heap memory.old) names s
        → tells (cause_of cause) (frames_in (M.heap memory.old) names frames.now)
        (dictionary_at s (birth_at (M.heap memory.old) address)) ≡ is_some result }
{
    if frames.len() > 0 {
        return None;
    }
    match cause {
        Cause::Exit | Cause::Quit => None,
        Cause::Stop => {
            let Some(place) = position(memory, address, newerror) else {
                return None;
            };
            if has_new_error(memory, address, error_keys()) {
                Some(place)
            } else {
                None
            }
        }
    }
}

/// An unwinding for stop frees a lock and ends the context, which has no frame left; the line of
/// its error is printed, and the error is new no more.
///
/// `LogFull`, `LogClosed`: the log of the slot doesn't take two records. `Memory`: the output has
/// no room for the line. Nothing has changed then.
fn tell<M: Memory>(
    lock: u32,
    place: u32,
    newerror: Word,
    context: &mut Context,
    runtime: &mut Runtime<M>,
    attempt: Attempt,
) -> Result<Turned, NotMade>
    requires good { IsGood (lent_of M.heap M.grants context.old runtime.old) }
    requires known { StandsAs (M.heap runtime.old.memory) Kind.Lock lock 1 }
    requires last { context.old.frames ≡ [] }
    requires key { IsNamed NEWERROR newerror }
    requires words { Some place
        ≡ place_of (pairs_at (M.heap runtime.old.memory) context.old.error_dictionary) newerror }
    requires place { (names : List (List ℕ)) (s : Store) → BeginWithFirst names
        → AllPairs (λ one later. one ≢ later) names → Shows (M.heap runtime.old.memory) names s
        → Some place ≡ first_place (dictionary_at s (birth_at (M.heap runtime.old.memory)
        context.old.error_dictionary)).pairs language.newerror_key }
    requires new { (names : List (List ℕ)) (s : Store) → BeginWithFirst names
        → AllPairs (λ one later. one ≢ later) names → Shows (M.heap runtime.old.memory) names s
        → language.has_new_error (dictionary_at s
        (birth_at (M.heap runtime.old.memory) context.old.error_dictionary)) ≡ true }
    ensures { Turns lock_asks (releasing_turn Cause.Stop lock) attempt result
        (lent_of M.heap M.grants context.old runtime.old)
        (lent_of M.heap M.grants context.new runtime.new) }
{
    let address = context.error_dictionary;
    match permit_records(&mut runtime.memory, attempt.slot, 2) {
        Ok(()) => {}
        Err(reason) => return Err(reason),
    }
    let keys = error_keys();
    let shared = &mut runtime.shared;
    match print_line(
        &mut runtime.memory,
        &shared.names,
        address,
        keys,
        &mut shared.printed,
    ) {
        Ok(()) => {}
        Err(AllocError) => return Err(NotMade::Memory),
    }
    let plan = PutPlan::Replace(place);
    put(
        &mut runtime.memory,
        attempt.slot,
        address,
        plan,
        newerror,
        plain::boolean(false),
    );
    free_lock(&mut runtime.memory, attempt.slot, lock);
    Ok(Turned::Ends { told: true })
}

/// An unwinding once the frame of a monitor has gone: its lock is free, and the unwinding goes on;
/// where no frame is left the context ends.
///
/// Not made, with nothing changed: where the log of the slot takes no record for the lock, or as
/// the end of a context.
fn break_released<M: Memory>(
    cause: Cause,
    lock: u32,
    context: &mut Context,
    runtime: &mut Runtime<M>,
    attempt: Attempt,
) -> Result<Turned, NotMade>
    requires good { IsGood (lent_of M.heap M.grants context.old runtime.old) }
    requires known { StandsAs (M.heap runtime.old.memory) Kind.Lock lock 1 }
    ensures { Turns lock_asks (releasing_turn cause lock) attempt result
        (lent_of M.heap M.grants context.old runtime.old)
        (lent_of M.heap M.grants context.new runtime.new) }
{
    let key = error_keys().newerror;
    let address = context.error_dictionary;
    match place_of_told(cause, &context.frames, address, key, &mut runtime.memory) {
        Some(place) => tell(lock, place, key, context, runtime, attempt),
        None => match release(&mut runtime.memory, attempt.slot, lock) {
            Ok(()) => Ok(untold(cause, &context.frames)),
            Err(reason) => Err(reason),
        },
    }
}

/// The frame of a monitor goes in an unwinding, and its lock is free; the unwinding goes on, and
/// the context ends with the last frame.
///
/// Not made, with nothing changed: where the log of the slot takes no record for the lock, or as
/// the end of a context.
pub fn unwind_monitor<M: Memory>(
    cause: Cause,
    lock: u32,
    context: &mut Context,
    runtime: &mut Runtime<M>,
    attempt: Attempt,
) -> Result<Turned, NotMade>
    requires good { IsGood (lent_of M.heap M.grants context.old runtime.old) }
    requires top { first_of context.old.frames ≡ Some (Frame.Monitor lock) }
    ensures { Turns unwinding_asks (unwinding_turn cause) attempt result
        (lent_of M.heap M.grants context.old runtime.old)
        (lent_of M.heap M.grants context.new runtime.new) }
{
    drop_top(&mut context.frames);
    match break_released(cause, lock, context, runtime, attempt) {
        Ok(turned) => Ok(turned),
        Err(reason) => {
            push_frame(&mut context.frames, Frame::Monitor { lock });
            Err(reason)
        }
    }
}
