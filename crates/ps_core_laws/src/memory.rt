//! The mutator's part of the collector's machine as a memory: what a seat that serves programs may
//! rest on, whatever the table of words is and whatever the collector did meanwhile.
//!
//! What such a seat keeps is that its part is the part of some run. Everything here follows from
//! that, and it is so again after each event that the part permits. Of runs nothing is used but the
//! clauses of `law`.
//!
//! Why so:
//! - One definition ties the machine's objects, which are lists of numbers, to the heap of
//!   `ps_mem`. It knows no table, so a seat over shared words and one over plain words rest on it
//!   alike.
ghost use Rattle.std.specs.Prelude.{ℕ};
ghost use Rattle.ps_core_machine.specs.declared.events.Event.TheVariants.{CycleStore};
ghost use Rattle.ps_core_laws.specs.Kept.{VmKnows};
ghost use Rattle.ps_core_laws.specs.Runs.{Whenever};
ghost use Rattle.ps_core_laws.specs.MemoryFlips.{KeepsIndexes};
ghost use Rattle.ps_core_laws.specs.MemoryLaws.{OfParts, StoresGoOn, LoadsGoOn, LoadsControl};
ghost use Rattle.ps_core_laws.specs.MemoryLaws.{LoadsFields, LoadsHeaders, IsCounted, HasRoomGranted};
ghost use Rattle.ps_core_laws.specs.MemoryLaws.{Stores};
ghost use Rattle.ps_core_laws.specs.MemoryLaws.{Logs, Fills, Copies, GrantsLogs, Makes, MakesBodies};
ghost use Rattle.ps_core_laws.specs.MemoryLaws.{SeesHeads, Opens, ClosesLogs, StartsEmpty};

use crate::law;

/// The laws of a part as a memory.
pub fn memory_laws()
    // What the seat knows of its part's numbers, logs, births and places.
    ensures knows { OfParts VmKnows }
    // After each store that the part permits it is the part of a run again.
    ensures stores_go_on { OfParts StoresGoOn }
    // So it is after a load of a word that was found.
    ensures loads_go_on { OfParts LoadsGoOn }
    // A load of the cycle word or of the epoch word leaves the part.
    ensures control { OfParts LoadsControl }
    // A field's word lies in the table, and is the one that the memory has there; its load leaves
    // memory and grants.
    ensures loads { OfParts LoadsFields }
    // So does that of a first header, which says kind, number of fields and birth of the object.
    ensures headers { OfParts LoadsHeaders }
    // What is used is the words of all that stands.
    ensures counted { OfParts IsCounted }
    // There is room for just what is granted.
    ensures room { OfParts HasRoomGranted }
    // Stores of words to fields, one by one, are permitted, and make the memory's store.
    ensures stores { OfParts Stores }
    // In a cycle a store to an object that isn't new puts one record, which is permitted.
    ensures logs { OfParts Logs }
    // A word put into an object that may be filled leaves all that is granted.
    ensures fills { OfParts Fills }
    // A copy is the store of the words copied; each is read as it stood, in rising or falling
    // order.
    ensures copies { OfParts Copies }
    // How many records a log may get in a cycle.
    ensures records { OfParts GrantsLogs }
    // A new object is made at the end of use, with the next birth and zero words.
    ensures makes { OfParts Makes }
    // So is a body, with the birth of a dictionary that stands.
    ensures bodies { OfParts MakesBodies }
    // A head that is found lies between the one last loaded and the length of the log. Once it is
    // loaded no record less is granted, and all else is as before.
    ensures heads { OfParts SeesHeads }
    // Where no cycle is open and cycles are left, one may be opened; then no log is closed.
    ensures opens { OfParts Opens }
    // Where a record is granted in a cycle, the log may be closed, and is closed then; no other is.
    ensures closes { OfParts ClosesLogs }
    // After a flip a dictionary's body has its index where its replica is: keys go by births, and
    // never by addresses.
    ensures indexes { Whenever CycleStore KeepsIndexes }
    // At the start nothing stands.
    ensures start { (space : ℕ) → StartsEmpty space }
{
    law();
}
