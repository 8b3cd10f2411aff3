//! The mutator's seat as a memory. Each call's clauses are the memory's; beside them its seat stays
//! at its table.
ghost use Rattle.std.specs.Prelude.{[], ◌∷◌, ◌≡◌, ◌≢◌, ◌<◌, ◌≤◌, ◌+◌, ◌-◌, ◌^◌, ◌↔◌, ℕ, None, Some};
ghost use Rattle.std.specs.Prelude.{Err, length, slice_get, slice_range, IsTrue, IsSome, IfSome};
ghost use Rattle.std.specs.Prelude.{IsOk, IsErr, OnOk, OnErr};
ghost use Rattle.ps_word.specs.Headers.{birth_limit};
ghost use Rattle.ps_record.specs.Format.{head_place};
ghost use Rattle.ps_mem.specs.Stands.{IsAddressed};
ghost use Rattle.ps_mem.specs.Heap.{AfterNew, AfterStore, IsKind, IsLogBounded, birth_at};
ghost use Rattle.ps_mem.specs.Heap.{fields_at, has_room, made, made_body, object_at, records_put};
ghost use Rattle.ps_mem.specs.Heap.{standing_words, stored};
ghost use Rattle.ps_mem.specs.References.{NamesStanding};
ghost use Rattle.ps_core_machine.specs.declared.events.Event.TheVariants.{VmLoad};
ghost use Rattle.ps_core_laws.specs.Memory.{heap_of, grants_of};
ghost use Rattle.ps_table.specs.Shown.{vm_did};

use crate::mutator::VmSeat;
use ps_language::kinds::Kind;
use ps_mem::{FieldAt, Memory, NeedFault, Permit};
use ps_record::slots::Slot;
use ps_word::headers::Header;
use ps_word::words::Word;

impl Memory for VmSeat {
    ghost heap = { λ s. heap_of s.seat.me.0.vm };

    ghost grants = { λ s. grants_of s.seat.me.0.vm };

    fn used(&mut self) -> u32
        ensures heap { heap_of self.new.seat.me.0.vm ≡ heap_of self.old.seat.me.0.vm }
        ensures grants { grants_of self.new.seat.me.0.vm ≡ grants_of self.old.seat.me.0.vm }
        ensures answer { result ≡ (heap_of self.old.seat.me.0.vm).used }
        ensures counted { (heap_of self.old.seat.me.0.vm).used
            ≡ standing_words (heap_of self.old.seat.me.0.vm) }
        ensures within { (heap_of self.old.seat.me.0.vm).used
            ≤ (heap_of self.old.seat.me.0.vm).space.size }
        ensures addressed { IsAddressed (heap_of self.old.seat.me.0.vm) }
        ensures same { self.new ≡ self.old }
    {
        self.mirror.used(&self.seat)
    }

    fn size(&mut self) -> u32
        ensures heap { heap_of self.new.seat.me.0.vm ≡ heap_of self.old.seat.me.0.vm }
        ensures grants { grants_of self.new.seat.me.0.vm ≡ grants_of self.old.seat.me.0.vm }
        ensures answer { result ≡ (heap_of self.old.seat.me.0.vm).space.size }
        ensures table { self.new.seat.table_id ≡ self.old.seat.table_id }
    {
        self.mirror.size(&self.seat)
    }

    fn room(&mut self, words: u32, births: u32) -> bool
        ensures heap { heap_of self.new.seat.me.0.vm ≡ heap_of self.old.seat.me.0.vm }
        ensures grants { grants_of self.new.seat.me.0.vm ≡ grants_of self.old.seat.me.0.vm }
        ensures answer { result ≡ has_room (heap_of self.old.seat.me.0.vm) words births }
        ensures table { self.new.seat.table_id ≡ self.old.seat.table_id }
    {
        self.mirror.room(&self.seat, words, births)
    }

    fn need(&mut self, words: u32, births: u32) -> Result<(), NeedFault>
        ensures heap { heap_of self.new.seat.me.0.vm ≡ heap_of self.old.seat.me.0.vm }
        ensures kept { grants_of self.new.seat.me.0.vm ≡ record (grants_of self.old.seat.me.0.vm) {
          words = (grants_of self.new.seat.me.0.vm).words;
          births = (grants_of self.new.seat.me.0.vm).births;
        } }
        ensures granted { OnOk result ((words ≤ (grants_of self.new.seat.me.0.vm).words)
            × (births ≤ (grants_of self.new.seat.me.0.vm).births)) }
        ensures refused { OnErr result (grants_of self.new.seat.me.0.vm
            ≡ grants_of self.old.seat.me.0.vm) }
        ensures more { ((grants_of self.old.seat.me.0.vm).words
            ≤ (grants_of self.new.seat.me.0.vm).words)
            × ((grants_of self.old.seat.me.0.vm).births
            ≤ (grants_of self.new.seat.me.0.vm).births) }
        ensures space { IsTrue (has_room (heap_of self.old.seat.me.0.vm) words births) ↔
            (result ≢ Err (NeedFault.NeedSpace words)) }
        ensures names_words { (n : ℕ) → result ≡ Err (NeedFault.NeedSpace n) → n ≡ words }
        ensures memory { result ≡ Err NeedFault.Memory
            → IsTrue (heap_of self.old.seat.me.0.vm).space.grows }
        ensures limit { (heap_of self.old.seat.me.0.vm).space.size
            < (heap_of self.old.seat.me.0.vm).used + words → IsErr result }
        ensures already { words ≤ (grants_of self.old.seat.me.0.vm).words
            → births ≤ (grants_of self.old.seat.me.0.vm).births → IsOk result }
        ensures table { self.new.seat.table_id ≡ self.old.seat.table_id }
    {
        self.mirror.need(&self.seat, words, births)
    }

    fn alloc(&mut self, kind: Kind, fields: u32) -> u32
        requires words { 2 + fields ≤ (grants_of self.old.seat.me.0.vm).words }
        requires births { 1 ≤ (grants_of self.old.seat.me.0.vm).births }
        requires fields { fields < 2 ^ 16 }
        requires kind { kind ≢ Kind.Body }
        ensures address { result < 2 ^ 24 }
        ensures free { object_at (heap_of self.old.seat.me.0.vm) result ≡ None }
        ensures heap { heap_of self.new.seat.me.0.vm
            ≡ made (heap_of self.old.seat.me.0.vm) result kind fields }
        ensures grants { AfterNew (grants_of self.old.seat.me.0.vm)
            (grants_of self.new.seat.me.0.vm) result (2 + fields) 1 }
        ensures table { self.new.seat.table_id ≡ self.old.seat.table_id }
    {
        self.mirror
            .alloc(&mut self.table, &mut self.seat, kind, fields)
    }

    fn alloc_body(&mut self, dictionary: u32, fields: u32) -> u32
        requires words { 2 + fields ≤ (grants_of self.old.seat.me.0.vm).words }
        requires fields { fields < 2 ^ 16 }
        requires stands { IsKind Kind.Dictionary
            (object_at (heap_of self.old.seat.me.0.vm) dictionary) }
        ensures address { result < 2 ^ 24 }
        ensures free { object_at (heap_of self.old.seat.me.0.vm) result ≡ None }
        ensures heap { heap_of self.new.seat.me.0.vm
            ≡ made_body (heap_of self.old.seat.me.0.vm) result
            (birth_at (heap_of self.old.seat.me.0.vm) dictionary) fields }
        ensures grants { AfterNew (grants_of self.old.seat.me.0.vm)
            (grants_of self.new.seat.me.0.vm) result (2 + fields) 0 }
        ensures table { self.new.seat.table_id ≡ self.old.seat.table_id }
    {
        self.mirror
            .alloc_body(&mut self.table, &mut self.seat, dictionary, fields)
    }

    fn header(&mut self, address: u32) -> Header
        requires stands { IsSome (object_at (heap_of self.old.seat.me.0.vm) address) }
        ensures heap { heap_of self.new.seat.me.0.vm ≡ heap_of self.old.seat.me.0.vm }
        ensures grants { grants_of self.new.seat.me.0.vm ≡ grants_of self.old.seat.me.0.vm }
        ensures birth { result.birth < birth_limit }
        ensures answer { IfSome (object_at (heap_of self.old.seat.me.0.vm) address)
            (λ o. result ≡ record { kind = o.kind; fields = length o.fields; birth = o.birth }) }
        ensures table { self.new.seat.table_id ≡ self.old.seat.table_id }
    {
        self.mirror.header(&mut self.table, &mut self.seat, address)
    }

    fn load(&mut self, address: u32, place: u32) -> Word
        requires place { place < length (fields_at (heap_of self.old.seat.me.0.vm) address) }
        ensures heap { heap_of self.new.seat.me.0.vm ≡ heap_of self.old.seat.me.0.vm }
        ensures grants { grants_of self.new.seat.me.0.vm ≡ grants_of self.old.seat.me.0.vm }
        ensures answer { slice_get (fields_at (heap_of self.old.seat.me.0.vm) address) place
            ≡ Some result }
        ensures table { self.new.seat.table_id ≡ self.old.seat.table_id }
    {
        self.mirror
            .load(&mut self.table, &mut self.seat, address, place)
    }

    fn load_at(&mut self, address: u32, at: usize) -> Word
        requires from { address ≤ at }
        requires place { at - address < length (fields_at (heap_of self.old.seat.me.0.vm) address) }
        ensures heap { heap_of self.new.seat.me.0.vm ≡ heap_of self.old.seat.me.0.vm }
        ensures grants { grants_of self.new.seat.me.0.vm ≡ grants_of self.old.seat.me.0.vm }
        ensures answer { slice_get (fields_at (heap_of self.old.seat.me.0.vm) address)
            (at - address) ≡ Some result }
        ensures table { self.new.seat.table_id ≡ self.old.seat.table_id }
    {
        self.mirror
            .load_at(&mut self.table, &mut self.seat, address, at)
    }

    fn fill(&mut self, address: u32, place: u32, word: Word)
        requires fresh { IsTrue ((grants_of self.old.seat.me.0.vm).fresh address) }
        requires known { NamesStanding (heap_of self.old.seat.me.0.vm) address (word ∷ []) }
        requires place { place < length (fields_at (heap_of self.old.seat.me.0.vm) address) }
        ensures heap { heap_of self.new.seat.me.0.vm
            ≡ stored (heap_of self.old.seat.me.0.vm) address place (word ∷ []) }
        ensures grants { grants_of self.new.seat.me.0.vm ≡ grants_of self.old.seat.me.0.vm }
        ensures table { self.new.seat.table_id ≡ self.old.seat.table_id }
    {
        self.mirror
            .fill(&mut self.table, &mut self.seat, address, place, word);
    }

    fn store(&mut self, slot: Slot, address: u32, place: u32, items: &[Word])
        requires granted { 1 ≤ (grants_of self.old.seat.me.0.vm).records slot }
        requires some { 1 ≤ length items.now }
        requires known { NamesStanding (heap_of self.old.seat.me.0.vm) address items.now }
        requires place { place + length items.now
            ≤ length (fields_at (heap_of self.old.seat.me.0.vm) address) }
        ensures heap { heap_of self.new.seat.me.0.vm
            ≡ stored (heap_of self.old.seat.me.0.vm) address place items.now }
        ensures grants { AfterStore (grants_of self.old.seat.me.0.vm)
            (grants_of self.new.seat.me.0.vm) slot }
        ensures logged { (grants_of self.new.seat.me.0.vm).put slot
            ≡ (grants_of self.old.seat.me.0.vm).put slot
            + records_put (grants_of self.old.seat.me.0.vm) address }
        ensures table { self.new.seat.table_id ≡ self.old.seat.table_id }
    {
        self.mirror.store(&mut self.table, &mut self.seat, slot, address, place, items);
    }

    fn copy(&mut self, slot: Slot, from: FieldAt, to: FieldAt, count: u32)
        requires granted { 1 ≤ (grants_of self.old.seat.me.0.vm).records slot }
        requires some { 1 ≤ count }
        requires source { from.place + count
            ≤ length (fields_at (heap_of self.old.seat.me.0.vm) from.address) }
        requires target { to.place + count
            ≤ length (fields_at (heap_of self.old.seat.me.0.vm) to.address) }
        requires known { NamesStanding (heap_of self.old.seat.me.0.vm) to.address
            (slice_range (fields_at (heap_of self.old.seat.me.0.vm) from.address) from.place
            (from.place + count)) }
        ensures heap { heap_of self.new.seat.me.0.vm
            ≡ stored (heap_of self.old.seat.me.0.vm) to.address to.place
            (slice_range (fields_at (heap_of self.old.seat.me.0.vm) from.address) from.place
            (from.place + count)) }
        ensures grants { AfterStore (grants_of self.old.seat.me.0.vm)
            (grants_of self.new.seat.me.0.vm) slot }
        ensures logged { (grants_of self.new.seat.me.0.vm).put slot
            ≡ (grants_of self.old.seat.me.0.vm).put slot
            + records_put (grants_of self.old.seat.me.0.vm) to.address }
        ensures table { self.new.seat.table_id ≡ self.old.seat.table_id }
    {
        self.mirror
            .copy(&mut self.table, &mut self.seat, slot, from, to, count);
    }

    /// As the memory's; `LogFull` is answered by the head that is loaded in the call.
    fn permit(&mut self, slot: Slot, count: u32) -> Permit
        ensures heap { heap_of self.new.seat.me.0.vm ≡ heap_of self.old.seat.me.0.vm }
        ensures grants { grants_of self.new.seat.me.0.vm ≡ record (grants_of self.old.seat.me.0.vm)
            { records = (grants_of self.new.seat.me.0.vm).records } }
        ensures others { (s : ℕ) → s ≢ slot → (grants_of self.new.seat.me.0.vm).records s
            ≡ (grants_of self.old.seat.me.0.vm).records s }
        ensures more { (grants_of self.old.seat.me.0.vm).records slot
            ≤ (grants_of self.new.seat.me.0.vm).records slot }
        ensures limit { IsLogBounded (grants_of self.new.seat.me.0.vm) slot }
        ensures yes { result ≡ Permit.Yes
            → count ≤ (grants_of self.new.seat.me.0.vm).records slot }
        ensures full { result ≡ Permit.LogFull
            → (grants_of self.new.seat.me.0.vm).records slot < count }
        ensures closed { (result ≡ Permit.LogClosed) ↔
            ((1 ≤ count) × IsTrue ((grants_of self.old.seat.me.0.vm).closed slot)) }
        ensures looked { result ≡ Permit.LogFull → (head : ℕ)
            × (self.new.seat.me.0 ≡ vm_did self.old.seat.me.0 (VmLoad (head_place slot) head)) }
        ensures table { self.new.seat.table_id ≡ self.old.seat.table_id }
    {
        self.mirror
            .permit(&mut self.table, &mut self.seat, slot, count)
    }
}
