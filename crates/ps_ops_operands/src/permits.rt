//! Room and records, asked for before an operator writes.

ghost use Rattle.std.specs.Prelude.{◌≡◌, ◌≢◌, ◌↔◌, ◌⊎◌, ℕ, ◌<◌, ◌≤◌, min, IsTrue, OnOk, IfErr, Err};
ghost use Rattle.ps_ops_operands.specs.Changes.{IsRoomReason};

use crate::failure::NotMade;
use ps_mem::{Memory, NeedFault, Permit, Slot};

/// The most records that a step puts into its slot's log; the note of an error asks for as many
/// at once.
pub const MOST_RECORDS: u32 = 5;

/// Asks for room for new objects, which have words. `NeedSpace`, of the words asked: they don't
/// fit. `Memory`: a growth was refused.
pub fn granted<M: Memory>(memory: &mut M, words: u32, births: u32) -> Result<(), NotMade>
    requires some { 1 ≤ words }
    ensures heap { M.heap memory.new ≡ M.heap memory.old }
    ensures kept { M.grants memory.new
        ≡ record (M.grants memory.old) {
          words = (M.grants memory.new).words;
          births =
              (M.grants memory.new).births;
        } }
    ensures granted { OnOk result ((words ≤ (M.grants memory.new).words)
        × (births ≤ (M.grants memory.new).births)) }
    ensures reason { IfErr result (λ reason. IsRoomReason reason (M.heap memory.old) words births) }
{
    match memory.need(words, births) {
        Ok(()) => Ok(()),
        Err(NeedFault::NeedSpace(asked)) => Err(NotMade::NeedSpace(asked)),
        Err(NeedFault::Memory) => Err(NotMade::Memory),
    }
}

/// Asks for so many records in the log of a slot; nothing that was granted is lost. `LogFull`:
/// fewer can be put. `LogClosed`: one at least is asked for, and the log is closed.
pub fn permitted<M: Memory>(memory: &mut M, slot: Slot, count: u32) -> Result<(), NotMade>
    ensures heap { M.heap memory.new ≡ M.heap memory.old }
    ensures kept { M.grants memory.new
        ≡ record (M.grants memory.old) { records = (M.grants memory.new).records } }
    ensures others { (s : ℕ) → s ≢ slot → (M.grants memory.new).records s
        ≡ (M.grants memory.old).records s }
    ensures more { (M.grants memory.old).records slot ≤ (M.grants memory.new).records slot }
    ensures granted { OnOk result (count ≤ (M.grants memory.new).records slot) }
    ensures closed { (result ≡ Err NotMade.LogClosed)
        ↔ ((1 ≤ count) × IsTrue ((M.grants memory.old).closed slot)) }
    ensures full { result ≡ Err NotMade.LogFull → (M.grants memory.new).records slot < count }
    ensures reason { IfErr result (λ why. (why ≡ NotMade.LogFull) ⊎ (why ≡ NotMade.LogClosed)) }
{
    match memory.permit(slot, count) {
        Permit::Yes => Ok(()),
        Permit::LogFull => Err(NotMade::LogFull),
        Permit::LogClosed => Err(NotMade::LogClosed),
    }
}

/// How many records a store of so many words puts.
#[inline]
pub fn records_for(words: u16) -> u32
    ensures { result ≡ min 1 words }
{
    if words == 0 { 0 } else { 1 }
}
