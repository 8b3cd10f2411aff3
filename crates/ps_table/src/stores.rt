//! Stores by the mutator's seat into standing objects, at any words, with the record that one owes.
ghost use Rattle.std.specs.Prelude.{[], ◌∷◌, ◌≡◌, ◌<◌, ◌≤◌, ◌+◌, ◌^◌, true, length, slice_index};
ghost use Rattle.std.specs.Prelude.{slice_range, IsTrue, if◌then◌else◌};
ghost use Rattle.ps_record.specs.Format.{slots};
ghost use Rattle.ps_mem.specs.Heap.{AfterStore, fields_at, records_put, stored};
ghost use Rattle.ps_mem.specs.References.{NamesStanding};
ghost use Rattle.ps_core_machine.specs.Conditions.{VmMay};
ghost use Rattle.ps_core_machine.specs.Objects.{log_of};
ghost use Rattle.ps_core_machine.specs.Steps.{table_size};
ghost use Rattle.ps_core_machine.specs.declared.events.Event.TheVariants.{RecordStore};
ghost use Rattle.ps_core_laws.specs.Memory.{heap_of, grants_of};
ghost use Rattle.ps_core_laws.specs.Shown.{VmRuns};
ghost use Rattle.ps_table.specs.Shown.{vm_did};
ghost use Rattle.ps_table.specs.Mirrored.{Sits, KeepsGc, owes, mirror_stored};

use crate::copies::vm_copy;
use crate::mirror::Mirror;
use crate::plays::View;
use crate::steps::{vm_field, vm_record};
use crate::words::Words;
use crate::writes::vm_fields;
use atomic_table::Seat;
use ps_mem::FieldAt;
use ps_record::Record;
use ps_record::slots::Slot;
use ps_word::words::Word;

/// Puts the record of a store that owes one, and counts it.
fn settle<W: Words>(
    words: &mut W,
    seat: &mut Seat<(), View>,
    mirror: &mut Mirror,
    slot: Slot,
    address: u32,
    first: u32,
    count: u32,
)
    requires same { W.seats words.old seat.old
        × ((W.id words.old).words ≡ table_size seat.old.me.0.vm.space) }
    requires acts { seat.old.me.0.acts_vm ≡ true }
    requires runs { ∥ VmRuns seat.old.me.0.vm ∥₁ }
    requires fits { (first < 2 ^ 16) × (count < 2 ^ 16) }
    requires wide { length mirror.old.logged ≡ slots }
    requires may { owes mirror.old address ≡ true
        → (VmMay seat.old.me.0.vm (RecordStore slot (Record.Place address first count))
        × (length (log_of seat.old.me.0.vm.logs slot) ≡ slice_index mirror.old.logged slot)) }
    ensures same { W.seats words.new seat.new × (W.id words.new ≡ W.id words.old) }
    ensures did { seat.new.me ≡ (if owes mirror.old address
        then (
          vm_did seat.old.me.0 (RecordStore slot (Record.Place address first count)),
          seat.old.me.1,
        ) else seat.old.me) }
    ensures runs { ∥ VmRuns seat.new.me.0.vm ∥₁ }
    ensures mirror { mirror.new ≡ mirror_stored mirror.old slot address }
{
    if (address as u64) < mirror.fresh_from {
        mirror.fresh_from = mirror.end;
        if mirror.cycle_open {
            let number = mirror.logged[slot.index()];
            let what = Record::place(address, first as u16, count as u16);
            vm_record(words, seat, slot, number, what);
            mirror.logged[slot.index()] = number + 1;
        }
    }
}

impl Mirror {
    /// Fills a field of an object that is new.
    #[inline]
    pub fn fill<W: Words>(
        &self,
        words: &mut W,
        seat: &mut Seat<(), View>,
        address: u32,
        place: u32,
        word: Word,
    )
        requires sits { W.seats words.old seat.old
            × Sits (W.id words.old).words seat.old.me self.now }
        requires fresh { IsTrue ((grants_of seat.old.me.0.vm).fresh address) }
        requires known { NamesStanding (heap_of seat.old.me.0.vm) address (word ∷ []) }
        requires place { place < length (fields_at (heap_of seat.old.me.0.vm) address) }
        ensures sits { W.seats words.new seat.new
            × Sits (W.id words.new).words seat.new.me self.now }
        ensures same { W.id words.new ≡ W.id words.old }
        ensures gc { KeepsGc seat.old.me.0 seat.new.me.0 }
        ensures heap { heap_of seat.new.me.0.vm
            ≡ stored (heap_of seat.old.me.0.vm) address place (word ∷ []) }
        ensures grants { grants_of seat.new.me.0.vm ≡ grants_of seat.old.me.0.vm }
    {
        vm_field(words, seat, address as u64, place as u64, word.0);
    }

    /// Stores words into the fields from a place on, with a record in this slot's log if one is
    /// owed.
    pub fn store<W: Words>(
        &mut self,
        words: &mut W,
        seat: &mut Seat<(), View>,
        slot: Slot,
        address: u32,
        place: u32,
        items: &[Word],
    )
        requires sits { W.seats words.old seat.old
            × Sits (W.id words.old).words seat.old.me self.old }
        requires granted { 1 ≤ (grants_of seat.old.me.0.vm).records slot }
        requires some { 1 ≤ length items.now }
        requires known { NamesStanding (heap_of seat.old.me.0.vm) address items.now }
        requires place { place + length items.now
            ≤ length (fields_at (heap_of seat.old.me.0.vm) address) }
        ensures sits { W.seats words.new seat.new
            × Sits (W.id words.new).words seat.new.me self.new }
        ensures same { W.id words.new ≡ W.id words.old }
        ensures gc { KeepsGc seat.old.me.0 seat.new.me.0 }
        ensures heap { heap_of seat.new.me.0.vm
            ≡ stored (heap_of seat.old.me.0.vm) address place items.now }
        ensures grants { AfterStore (grants_of seat.old.me.0.vm) (grants_of seat.new.me.0.vm)
            slot }
        ensures logged { (grants_of seat.new.me.0.vm).put slot
            ≡ (grants_of seat.old.me.0.vm).put slot
            + records_put (grants_of seat.old.me.0.vm) address }
    {
        vm_fields(words, seat, address as u64, place as u64, items);
        let count = items.len() as u32;
        settle(words, seat, self, slot, address, place, count);
    }

    /// Copies so many words, as if all were read before any was written, with a record in this
    /// slot's log if one is owed.
    pub fn copy<W: Words>(
        &mut self,
        words: &mut W,
        seat: &mut Seat<(), View>,
        slot: Slot,
        from: FieldAt,
        to: FieldAt,
        count: u32,
    )
        requires sits { W.seats words.old seat.old
            × Sits (W.id words.old).words seat.old.me self.old }
        requires granted { 1 ≤ (grants_of seat.old.me.0.vm).records slot }
        requires some { 1 ≤ count }
        requires source { from.place + count
            ≤ length (fields_at (heap_of seat.old.me.0.vm) from.address) }
        requires target { to.place + count
            ≤ length (fields_at (heap_of seat.old.me.0.vm) to.address) }
        requires known { NamesStanding (heap_of seat.old.me.0.vm) to.address
            (slice_range (fields_at (heap_of seat.old.me.0.vm) from.address) from.place
            (from.place + count)) }
        ensures sits { W.seats words.new seat.new
            × Sits (W.id words.new).words seat.new.me self.new }
        ensures same { W.id words.new ≡ W.id words.old }
        ensures gc { KeepsGc seat.old.me.0 seat.new.me.0 }
        ensures heap { heap_of seat.new.me.0.vm
            ≡ stored (heap_of seat.old.me.0.vm) to.address to.place
            (slice_range (fields_at (heap_of seat.old.me.0.vm) from.address) from.place
            (from.place + count)) }
        ensures grants { AfterStore (grants_of seat.old.me.0.vm) (grants_of seat.new.me.0.vm)
            slot }
        ensures logged { (grants_of seat.new.me.0.vm).put slot
            ≡ (grants_of seat.old.me.0.vm).put slot
            + records_put (grants_of seat.old.me.0.vm) to.address }
    {
        vm_copy(words, seat, from, to, count as u64);
        settle(words, seat, self, slot, to.address, to.place, count);
    }
}
