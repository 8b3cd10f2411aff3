//! The memory of the language: the contract that every memory keeps, and two memories that keep it.
//!
//! Why so:
//! - Size, used words, birth numbers and what stands are one value, `heap`. So one equation says
//!   all that a call leaves as it was.
//! - The heap is read off the words: objects lie one after another, and a walk finds the one at an
//!   address. No table beside the words can disagree with them, and the proofs are longer for it.
//! - Behind a `store` or a `copy` no clause lets an older object be filled. A store can put its
//!   address where a collector reads, and a fill without a record would then be missed.
//! - What is put into a log is seen as a count (`put`), since a memory without a table has no list
//!   to show. So no clause of the trait refuses a record of a wrong place.
//! - What is put and what is granted are together at most 2^63 for a slot (`IsLogBounded`). The
//!   bound is on `permit`, and a store keeps the sum.
//! - `used` is the sum of what stands, by a clause. So a collector has to leave no gap between the
//!   objects.
//! - An object has fewer than 65,536 fields, so that a record can name each of them.
//! - `load_at` takes the sum of address and place, so that a loop over fields adds nothing for
//!   each; `load` rests on it.
//! - A key's place in an index goes by the numbers of names and by birth numbers, so it stays where
//!   objects move. A position takes the first free place from there on, else the first before it
//!   (`placed`).
//! - The names and lengths that words stand for are told relative to a store: eight bytes of a
//!   string share a word, so a word alone doesn't say how many there are.
#![tactic(auto)]

ghost use Rattle.std.specs.Prelude.{◌≡◌, ℕ, ◌+◌, ◌-◌, ◌^◌, ◌<◌, ◌≤◌, ◌↔◌, ◌≢◌, List, [], ◌∷◌, Bool, true, false, IsTrue, length, slice_get, Option, Some, None, OnOk, OnErr, IsOk, IsErr, IfSome, IsSome, slice_range};
ghost use Rattle.ps_word.specs.Headers.{birth_limit};
ghost use Rattle.ps_mem.specs.Heap.{Heap, Grants, AfterNew, AfterStore, object_at, fields_at, birth_at, stored, made, made_body, IsKind, has_room, standing_words, records_put, IsLogBounded};
ghost use Rattle.ps_mem.specs.Cells.{IsCellOf, IsFirstValue};
ghost use Rattle.ps_mem.specs.Marks.{Tells};
ghost use Rattle.ps_mem.specs.References.{NamesStanding};
ghost use Rattle.ps_mem.specs.Stands.{IsAddressed};

pub mod bounded;
pub mod cells;
pub mod marked;
pub mod marks;
pub mod plain;
mod region;

use cells::{Cell, DictionaryPair};
use marks::Mark;
use ps_language::kinds::Kind;
pub use ps_record::slots::Slot;
use ps_word::headers::Header;
use ps_word::words::Word;

/// Why room was not granted.
#[derive(Clone, Copy, Debug, PartialEq, Eq)]
pub enum NeedFault {
    /// So many words don't fit the space beside what stands, or the birth numbers have run out.
    NeedSpace(u32),
    /// A memory that grows could not: the allocator refused, or it is at its size.
    Memory,
}

/// Whether records may be put into the log of a slot.
#[derive(Clone, Copy, Debug, PartialEq, Eq)]
pub enum Permit {
    Yes,
    /// Too few records have a free place.
    LogFull,
    /// The log is closed until the cycle ends.
    LogClosed,
}

/// A field of an object.
#[derive(Clone, Copy, Debug, PartialEq, Eq)]
pub struct FieldAt {
    /// Of the object, below 2^24.
    pub address: u32,
    /// How many of the object's fields are before it.
    pub place: u32,
}

/// A memory of objects. An object stands at an address from its making on; its kind, birth number
/// and number of fields never change, and
/// no object moves or goes within a call of this trait. What stands may be renamed or collected
/// between two calls only, by calls that
/// the caller makes on the memory's owner.
///
/// Outside a cycle of the collector no log is kept. In a cycle each `store` and `copy` puts one
/// record into the log of its slot, but none
/// for an object that may still be filled. No other call puts a record. No log is granted more than
/// 2^63 records in all.
pub trait Memory {
    /// What stands, the next birth number and the space.
    ghost heap: { Self → Heap };

    /// What may be made, filled and stored.
    ghost grants: { Self → Grants };

    /// How many words stand: of a memory that is never collected, all that were ever made. They
    /// are no more than the space has. What stands has an address of 24 bits.
    fn used(&mut self) -> u32
        ensures heap { heap self.new ≡ heap self.old }
        ensures grants { grants self.new ≡ grants self.old }
        ensures answer { result ≡ (heap self.old).used }
        ensures counted { (heap self.old).used ≡ standing_words (heap self.old) }
        ensures within { (heap self.old).used ≤ (heap self.old).space.size }
        ensures addressed { IsAddressed (heap self.old) };

    /// The words of the space; of a memory that grows, the most that it takes.
    fn size(&mut self) -> u32
        ensures heap { heap self.new ≡ heap self.old }
        ensures grants { grants self.new ≡ grants self.old }
        ensures answer { result ≡ (heap self.old).space.size };

    /// Whether so many words fit the space beside what stands and so many birth numbers are left;
    /// of a memory that grows, always.
    fn room(&mut self, words: u32, births: u32) -> bool
        ensures heap { heap self.new ≡ heap self.old }
        ensures grants { grants self.new ≡ grants self.old }
        ensures answer { result ≡ has_room (heap self.old) words births };

    /// Asks for words and birth numbers for new objects. `NeedSpace`, of the words asked: there is
    /// no room. `Memory`: a growth was
    /// refused, never in a space that doesn't grow. After an error nothing has changed, and nothing
    /// that was granted before is lost.
    fn need(&mut self, words: u32, births: u32) -> Result<(), NeedFault>
        ensures heap { heap self.new ≡ heap self.old }
        ensures kept { grants self.new ≡ record (grants self.old)
            { words = (grants self.new).words; births = (grants self.new).births } }
        ensures granted { OnOk result
            ((words ≤ (grants self.new).words) × (births ≤ (grants self.new).births)) }
        ensures refused { OnErr result (grants self.new ≡ grants self.old) }
        ensures more { ((grants self.old).words ≤ (grants self.new).words)
            × ((grants self.old).births ≤ (grants self.new).births) }

        // When it is refused, and when it is not.
        ensures space { IsTrue (has_room (heap self.old) words births) ↔
            (result ≢ Err (NeedFault.NeedSpace words)) }
        ensures names_words { (n : ℕ) → result ≡ Err (NeedFault.NeedSpace n) → n ≡ words }
        ensures memory { result ≡ Err NeedFault.Memory → IsTrue (heap self.old).space.grows }
        ensures limit { (heap self.old).space.size < (heap self.old).used + words → IsErr result }
        ensures already { words ≤ (grants self.old).words → births ≤ (grants self.old).births
            → IsOk result };

    /// A new object of zero words, at an address below 2^24 where nothing stands, with the next
    /// birth number. It may be filled up to
    /// the first `store` or `copy`.
    fn alloc(&mut self, kind: Kind, fields: u32) -> u32
        requires words { 2 + fields ≤ (grants self.old).words }
        requires births { 1 ≤ (grants self.old).births }
        requires fields { fields < 2 ^ 16 }
        requires kind { kind ≢ Kind.Body }
        ensures address { result < 2 ^ 24 }
        ensures free { object_at (heap self.old) result ≡ None }
        ensures heap { heap self.new ≡ made (heap self.old) result kind fields }
        ensures grants { AfterNew (grants self.old) (grants self.new) result (2 + fields) 1 };

    /// A new body of zero words for the dictionary at an address, whose birth number it has; else
    /// as `alloc`.
    fn alloc_body(&mut self, dictionary: u32, fields: u32) -> u32
        requires words { 2 + fields ≤ (grants self.old).words }
        requires fields { fields < 2 ^ 16 }
        requires stands { IsKind Kind.Dictionary (object_at (heap self.old) dictionary) }
        ensures address { result < 2 ^ 24 }
        ensures free { object_at (heap self.old) result ≡ None }
        ensures heap { heap self.new ≡ made_body (heap self.old) result
            (birth_at (heap self.old) dictionary) fields }
        ensures grants { AfterNew (grants self.old) (grants self.new) result (2 + fields) 0 };

    /// What stands at an address.
    fn header(&mut self, address: u32) -> Header
        requires stands { IsSome (object_at (heap self.old) address) }
        ensures heap { heap self.new ≡ heap self.old }
        ensures grants { grants self.new ≡ grants self.old }
        ensures birth { result.birth < birth_limit }
        ensures answer { IfSome (object_at (heap self.old) address)
            (λ o. result ≡ record { kind = o.kind; fields = length o.fields; birth = o.birth }) };

    /// The word in a field.
    fn load(&mut self, address: u32, place: u32) -> Word
        requires place { place < length (fields_at (heap self.old) address) }
        ensures heap { heap self.new ≡ heap self.old }
        ensures grants { grants self.new ≡ grants self.old }
        ensures answer { slice_get (fields_at (heap self.old) address) place ≡ Some result };

    /// The word in a field, by the sum of the address and the field's place: a loop over fields
    /// adds nothing to it for each.
    fn load_at(&mut self, address: u32, at: usize) -> Word
        requires from { address ≤ at }
        requires place { at - address < length (fields_at (heap self.old) address) }
        ensures heap { heap self.new ≡ heap self.old }
        ensures grants { grants self.new ≡ grants self.old }
        ensures answer { slice_get (fields_at (heap self.old) address) (at - address)
            ≡ Some result };

    /// Puts a word into a field of an object that may be filled, without a record. What the word
    /// refers to stands.
    fn fill(&mut self, address: u32, place: u32, word: Word)
        requires fresh { IsTrue ((grants self.old).fresh address) }
        requires known { NamesStanding (heap self.old) address (word ∷ []) }
        requires place { place < length (fields_at (heap self.old) address) }
        ensures heap { heap self.new ≡ stored (heap self.old) address place (word ∷ []) }
        ensures grants { grants self.new ≡ grants self.old };

    /// Puts one word or more into the fields from a place on, with one record in a cycle, if the
    /// object may not be filled. From here on no object may be filled but those
    /// that are made later. What the words refer to stands.
    fn store(&mut self, slot: Slot, address: u32, place: u32, items: &[Word])
        requires granted { 1 ≤ (grants self.old).records slot }
        requires some { 1 ≤ length items.now }
        requires known { NamesStanding (heap self.old) address items.now }
        requires place { place + length items.now ≤ length (fields_at (heap self.old) address) }
        ensures heap { heap self.new ≡ stored (heap self.old) address place items.now }
        ensures grants { AfterStore (grants self.old) (grants self.new) slot }
        ensures logged { (grants self.new).put slot ≡ (grants self.old).put slot + records_put
            (grants self.old) address };

    /// Copies `count` words, at least one, from the fields of one object from a field on to those
    /// of another or the same from a field on, as if all were read before any was written; else as
    /// `store`.
    fn copy(&mut self, slot: Slot, from: FieldAt, to: FieldAt, count: u32)
        requires granted { 1 ≤ (grants self.old).records slot }
        requires some { 1 ≤ count }
        requires source { from.place + count ≤ length (fields_at (heap self.old) from.address) }
        requires target { to.place + count ≤ length (fields_at (heap self.old) to.address) }
        requires known { NamesStanding (heap self.old) to.address (slice_range
            (fields_at (heap self.old) from.address) from.place (from.place + count)) }
        ensures heap { heap self.new ≡ stored (heap self.old) to.address to.place (slice_range
            (fields_at (heap self.old) from.address) from.place (from.place + count)) }
        ensures grants { AfterStore (grants self.old) (grants self.new) slot }
        ensures logged { (grants self.new).put slot ≡ (grants self.old).put slot + records_put
            (grants self.old) to.address };

    /// Asks for so many records in the log of a slot, one for each `store` or `copy` to come.
    /// `LogClosed`: one at least is asked for, and
    /// the log is closed. `LogFull`: fewer can be put. Nothing that stands changes, and nothing
    /// that was granted is lost.
    fn permit(&mut self, slot: Slot, count: u32) -> Permit
        ensures heap { heap self.new ≡ heap self.old }
        ensures grants { grants self.new ≡ record (grants self.old)
            { records = (grants self.new).records } }
        ensures others { (s : ℕ) → s ≢ slot
            → (grants self.new).records s ≡ (grants self.old).records s }
        ensures more { (grants self.old).records slot ≤ (grants self.new).records slot }
        ensures limit { IsLogBounded (grants self.new) slot }

        // The answer.
        ensures yes { result ≡ Permit.Yes → count ≤ (grants self.new).records slot }
        ensures full { result ≡ Permit.LogFull → (grants self.new).records slot < count }
        ensures closed { (result ≡ Permit.LogClosed) ↔
            ((1 ≤ count) × IsTrue ((grants self.old).closed slot)) };

    /// Which dictionaries may have a name as a key: no other has. A memory that keeps no marks
    /// answers that any may.
    #[inline(always)]
    fn mark(&mut self, _name: u16) -> Mark
        ensures heap { heap self.new ≡ heap self.old }
        ensures grants { grants self.new ≡ grants self.old }
        ensures tells { Tells (heap self.old) _name result }
    {
        Mark::Anywhere
    }

    /// The value of a name in the first of two dictionaries that has it as a key, where it is known
    /// without a search and both can be read. A memory that keeps no cells knows none.
    #[inline(always)]
    fn known(&mut self, _upper: Word, _lower: Word, _name: u16) -> Option<Word>
        ensures heap { heap self.new ≡ heap self.old }
        ensures grants { grants self.new ≡ grants self.old }
        ensures answer { IfSome result (IsFirstValue (heap self.old) _upper _lower _name) }
    {
        None
    }

    /// Tells where the value of a name stands, so that it may be known. A memory that keeps no cells
    /// does nothing.
    #[inline(always)]
    fn keep(&mut self, _pair: DictionaryPair, _name: u16, _cell: Cell)
        requires tells { IsCellOf (heap self.old) _pair _name _cell }
        ensures heap { heap self.new ≡ heap self.old }
        ensures grants { grants self.new ≡ grants self.old }
    {}
}
