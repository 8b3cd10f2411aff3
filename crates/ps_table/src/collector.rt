//! The collector's seat.
//!
//! Its part is that of some run of the machine, whatever the mutator's seat did meanwhile.
ghost use Rattle.std.specs.Prelude.{◌≡◌, ◌<◌, ◌+◌, ◌^◌, ℕ, true, [], ◌∷◌, length, IfOk, Some};
ghost use Rattle.std.specs.Prelude.{slice_get};
ghost use Rattle.ps_record.specs.Format.{ring_place, read_record};
ghost use Rattle.ps_core_machine.specs.declared.events.Half.{Half};
ghost use Rattle.ps_core_machine.specs.declared.events.Carried.{Carried};
ghost use Rattle.ps_core_machine.specs.declared.events.Event.TheVariants.{GcLoad, TakeLoad, CopyLoad};
ghost use Rattle.ps_core_machine.specs.declared.events.Event.TheVariants.{ReplicaHeaderStore};
ghost use Rattle.ps_core_machine.specs.declared.events.Event.TheVariants.{ReplicaFieldStore};
ghost use Rattle.ps_core_machine.specs.declared.events.Event.TheVariants.{ForwardStore, HeadStore};
ghost use Rattle.ps_core_machine.specs.Objects.{log_of, pair_of};
ghost use Rattle.ps_core_machine.specs.Conditions.{GcMay};
ghost use Rattle.ps_core_machine.specs.Steps.{table_size, knows_open, replica_of, word_stored};
ghost use Rattle.ps_core_laws.specs.Runs.{IsSpace};
ghost use Rattle.ps_mem.specs.Heap.{empty_heap};
ghost use Rattle.ps_mem.specs.Bounded.{bounded_space};
ghost use Rattle.ps_core_laws.specs.Memory.{heap_of};
ghost use Rattle.ps_table.specs.Mirrored.{Sits};
ghost use Rattle.ps_table.specs.Shown.{BothRun, GcRuns, GcFinds, first_view, gc_did};

use crate::gc_steps::{gc_copy, gc_fill};
use crate::mirror::Mirror;
use crate::plays::{Advances, Forwards, GcLoads, PlacesHeader, Takes, View};
use crate::words::{SharedWords, Words};
use atomic_table::Seat;
use ps_record::slots::Slot;
use ps_record::{head_place, ring_place};
use std::alloc::{AllocError, Global};

/// The collector's seat, at shared words or any others.
#[derive(Drop)]
pub struct GcSeat<W: Words = SharedWords> {
    /// The words that it steps through.
    pub table: W,
    /// The seat at the table, with what it knows. It has no bytes.
    pub seat: Seat<(), View>,
    pub ghost wide: { (W.id table).words ≡ table_size seat.me.0.gc.space },
    pub ghost seated: { W.seats table seat } by { W.seats_once table seat },
    pub ghost acts: { seat.me.0.acts_gc ≡ true },
    pub ghost empty: { seat.me.1 ≡ [] },
    pub ghost runs: { ∥ GcRuns seat.me.0.gc ∥₁ },
}

impl<W: Words> GcSeat<W> {
    /// A seat at words, with a part that it knows.
    pub fn seated(table: W, seat: Seat<(), View>) -> GcSeat<W>
        requires wide { (W.id table).words ≡ table_size seat.me.0.gc.space }
        requires seated { W.seats table seat }
        requires acts { seat.me.0.acts_gc ≡ true }
        requires empty { seat.me.1 ≡ [] }
        requires runs { ∥ GcRuns seat.me.0.gc ∥₁ }
        ensures { result.seat ≡ seat }
    {
        GcSeat { table, seat }
    }

    /// A seat with both sides at new words, and the numbers of the mutator's side. Two spaces of so
    /// many words each, 4096 to 1048576, in which nothing stands. `AllocError`: the allocator
    /// refused.
    pub fn both_sides(alloc: Global, space: u32) -> Result<(GcSeat<W>, Mirror), AllocError>
        requires size { IsSpace space }
        ensures starts { IfOk result (λ r. r.0.seat.me ≡ (first_view space, [])) }
        ensures sits { IfOk result (λ r. Sits (W.id r.0.table).words r.0.seat.me r.1) }
        ensures heap { IfOk result
            (λ r. heap_of r.0.seat.me.0.vm ≡ empty_heap (bounded_space space)) }
    {
        let (table, seat) = W::new(alloc, space)?;
        Ok((GcSeat::seated(table, seat), Mirror::new(space as u64)))
    }

    /// The word at a place. The epoch word, and the first header of an object that the collector
    /// knows, are kept.
    pub fn load(&mut self, place: u64) -> u64
        requires inside { place < table_size self.old.seat.me.0.gc.space }
        ensures did { self.new.seat.me.0 ≡ gc_did self.old.seat.me.0 (GcLoad place result) }
        ensures finds { GcFinds self.old.seat.me.0.gc place result }
        ensures same { W.id self.new.table ≡ W.id self.old.table }
    {
        self.table.load::<GcLoads>(&mut self.seat, place)
    }

    /// Loads the ring place of a slot's next record, which has this number in its log. Where that
    /// record stands there, it is being taken from then on. A seat that has both sides finds it
    /// wherever the log has it.
    pub fn take(&mut self, slot: Slot, number: u64) -> u64
        requires next { number ≡ length (log_of self.old.seat.me.0.gc.taken slot) }
        requires may { GcMay self.old.seat.me.0.gc (TakeLoad slot 0) }
        ensures did { self.new.seat.me.0 ≡ gc_did self.old.seat.me.0 (TakeLoad slot result) }
        ensures finds { GcFinds self.old.seat.me.0.gc (ring_place slot number) result }
        ensures next { self.old.seat.me.0.acts_vm ≡ true → read_record number result
            ≡ slice_get (log_of self.old.seat.me.0.vm.logs slot) number }
        ensures runs { self.old.seat.me.0.acts_vm ≡ true
            → BothRun self.old.seat.me.0.vm self.old.seat.me.0.gc }
        ensures same { W.id self.new.table ≡ W.id self.old.table }
    {
        self.table
            .load::<Takes>(&mut self.seat, ring_place(slot, number))
    }

    /// Loads a field of an original, which is being copied from then on. What the word names is
    /// known then.
    pub fn copy_field(&mut self, original: u64, field: u64) -> u64
        requires may { GcMay self.old.seat.me.0.gc (CopyLoad original field 0) }
        ensures did { self.new.seat.me.0
            ≡ gc_did self.old.seat.me.0 (CopyLoad original field result) }
        ensures finds { GcFinds self.old.seat.me.0.gc (original + 2 + field) result }
        ensures same { W.id self.new.table ≡ W.id self.old.table }
    {
        gc_copy(&mut self.table, &mut self.seat, original, field)
    }

    /// Stores the word being copied, renamed, to its field of the replica; the scan's store fills
    /// the field.
    pub fn store_field(&mut self, replica: u64, field: u64, word: u64, scans: bool)
        requires is { (k : Carried) × (self.old.seat.me.0.gc.copying ≡ Some k)
            × (replica ≡ replica_of (pair_of self.old.seat.me.0.gc.pairs k.address))
            × (field ≡ k.field) × (word ≡ word_stored self.old.seat.me.0.gc k) }
        requires may { GcMay self.old.seat.me.0.gc (ReplicaFieldStore scans) }
        ensures did { self.new.seat.me.0
            ≡ gc_did self.old.seat.me.0 (ReplicaFieldStore scans) }
        ensures same { W.id self.new.table ≡ W.id self.old.table }
    {
        gc_fill(&mut self.table, &mut self.seat, replica, field, word, scans);
    }

    /// Whether a cycle is open: its number, the epoch, is kept.
    pub fn begin_cycle(&mut self) -> bool
        ensures did { (cycle epoch : ℕ) × (self.new.seat.me.0
            ≡ gc_did (gc_did self.old.seat.me.0 (GcLoad 0 cycle)) (GcLoad 1 epoch)) }
        ensures answer { result ≡ knows_open self.new.seat.me.0.gc }
        ensures same { W.id self.new.table ≡ W.id self.old.table }
    {
        let cycle = self.load(0);
        let epoch = self.load(1);
        epoch != cycle
    }

    /// Puts a word into the other space, for the header of a replica to be.
    pub fn store_to(&mut self, place: u64, word: u64)
        requires may { GcMay self.old.seat.me.0.gc (ReplicaHeaderStore place word) }
        ensures did { self.new.seat.me.0
            ≡ gc_did self.old.seat.me.0 (ReplicaHeaderStore place word) }
        ensures same { W.id self.new.table ≡ W.id self.old.table }
    {
        self.table
            .store::<PlacesHeader>(&mut self.seat, place, word);
    }

    /// The record being taken, which has this number in its slot's log, is taken.
    pub fn advance_head(&mut self, slot: Slot, number: u64)
        requires takes { (h : Half) × (self.old.seat.me.0.gc.taking ≡ Some h) × (slot ≡ h.slot)
            × (number ≡ length (log_of self.old.seat.me.0.gc.taken slot)) }
        requires may { GcMay self.old.seat.me.0.gc HeadStore }
        requires few { number + 1 < 2 ^ 64 }
        ensures did { self.new.seat.me.0 ≡ gc_did self.old.seat.me.0 HeadStore }
        ensures same { W.id self.new.table ≡ W.id self.old.table }
    {
        self.table
            .store::<Advances>(&mut self.seat, head_place(slot), number + 1);
    }

    /// Makes a pair of an original and its replica, whose headers stand.
    pub fn forward(&mut self, original: u64, replica: u64, epoch: u64)
        requires is { epoch ≡ self.old.seat.me.0.gc.epoch }
        requires may { GcMay self.old.seat.me.0.gc (ForwardStore original replica) }
        ensures did { self.new.seat.me.0
            ≡ gc_did self.old.seat.me.0 (ForwardStore original replica) }
        ensures same { W.id self.new.table ≡ W.id self.old.table }
    {
        self.table
            .store::<Forwards>(&mut self.seat, original + 1, epoch * (1 << 24) + replica);
    }
}
