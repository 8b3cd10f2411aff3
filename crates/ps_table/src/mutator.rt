//! The mutator's seat: a memory over the table's words.
//!
//! Between two calls its part is that of some run of the machine, no object is being made, nothing
//! is written that isn't logged, and the numbers that it keeps are the part's (`Sits`).
ghost use Rattle.std.specs.Prelude.{[], ◌∷◌, not, nat_lt, ◌&&◌, ◌≡◌, ◌<◌, ◌+◌, ℕ, true, false};
ghost use Rattle.std.specs.Prelude.{length};
ghost use Rattle.std.specs.Arc.{arc_value};
ghost use Rattle.ps_word.specs.Headers.{cycle_limit};
ghost use Rattle.ps_record.specs.Format.{head_place, slots};
ghost use Rattle.ps_core_machine.specs.Conditions.{HasRoom};
ghost use Rattle.ps_core_machine.specs.Objects.{log_of, values_stand};
ghost use Rattle.ps_core_machine.specs.Steps.{start, table_size, is_open};
ghost use Rattle.ps_core_machine.specs.declared.events.Event.TheVariants.{VmLoad, RecordStore};
ghost use Rattle.ps_core_machine.specs.declared.events.Event.TheVariants.{EpochStore, HandOver};
ghost use Rattle.ps_core_laws.specs.Runs.{IsSpace};
ghost use Rattle.ps_core_laws.specs.Memory.{heap_of, grants_of, is_shut};
ghost use Rattle.ps_core_laws.specs.MemoryLaws.{AfterOpen, AfterClose};
ghost use Rattle.ps_core_laws.specs.Stores.{numbers};
ghost use Rattle.ps_table.specs.Shown.{vm_did, AreJoined, BothRun};
ghost use Rattle.ps_table.specs.Events.{did_all, head_loads};
ghost use Rattle.ps_table.specs.Mirrored.{Sits};

use crate::collector::GcSeat;
use crate::joins::{join, part};
use crate::mirror::Mirror;
use crate::plays::View;
use crate::words::SharedWords;
use atomic_table::Seat;
use ps_core_laws::Closing;
use ps_record::slots::Slot;
use ps_record::{Record, SLOTS};
use ps_word::words::Word;

/// The mutator's seat.
#[derive(Drop)]
pub struct VmSeat {
    /// The table that it steps through.
    pub table: SharedWords,
    /// The seat at the table, with what it knows. It has no bytes.
    pub seat: Seat<(), View>,
    /// The numbers that it keeps of its part.
    pub mirror: Mirror,
    pub ghost seated: { seat.table_id ≡ (arc_value table).shared.table_id },
    pub ghost sits: { Sits (arc_value table).shared.table_id.words seat.me mirror },
}

impl VmSeat {
    /// The seat of a new table, with the mutator's part of the start.
    pub(crate) fn seated(table: SharedWords, seat: Seat<(), View>, space: u64) -> VmSeat
        requires size { IsSpace space }
        requires wide { (arc_value table).shared.table_id.words ≡ table_size space }
        requires seated { seat.table_id ≡ (arc_value table).shared.table_id }
        requires acts { seat.me.0.acts_vm ≡ true }
        requires empty { seat.me.1 ≡ [] }
        requires part { seat.me.0.vm ≡ (start space).vm }
        ensures { result.seat ≡ seat }
    {
        VmSeat {
            table,
            seat,
            mirror: Mirror::new(space),
        }
    }

    /// Whether a cycle is open. By its own numbers, as the next two: nothing is loaded.
    pub fn is_open(&self) -> bool
        ensures { result ≡ is_open self.now.seat.me.0.vm }
    {
        self.mirror.is_open(&self.seat)
    }

    /// Whether the log of a slot is closed in the open cycle.
    pub fn is_closed(&self, slot: Slot) -> bool
        ensures { result ≡ is_shut self.now.seat.me.0.vm slot }
    {
        self.mirror.is_closed(&self.seat, slot)
    }

    /// How many records were ever logged in a slot.
    pub fn logged(&self, slot: Slot) -> u64
        ensures { result ≡ length (log_of self.now.seat.me.0.vm.logs slot) }
    {
        self.mirror.logged(&self.seat, slot)
    }

    /// How many cycles were flipped, by the cycle word; and by slot how many records of its log
    /// were taken, by the heads: each as it is loaded in this call, in this order.
    pub fn counts(&mut self) -> (u64, [u64; SLOTS as usize])
        ensures flips { result.0 ≡ self.old.seat.me.0.vm.cycle }
        ensures did { self.new.seat.me.0
            ≡ did_all self.old.seat.me.0 (VmLoad 0 result.0 ∷ head_loads 0 result.1) }
        ensures heap { heap_of self.new.seat.me.0.vm ≡ heap_of self.old.seat.me.0.vm }
        ensures taken { result.1 ≡ self.new.seat.me.0.vm.heads }
        ensures table { self.new.seat.table_id ≡ self.old.seat.table_id }
    {
        self.mirror.counts(&mut self.table, &mut self.seat)
    }

    /// Opens a cycle where none is open and cycles are left: their numbers are below 2^32.
    /// No log is closed then, and no object may be filled. False: nothing changed.
    pub fn open_cycle(&mut self) -> bool
        ensures answer { result ≡ (not (is_open self.old.seat.me.0.vm)
            && nat_lt (self.old.seat.me.0.vm.epoch + 1) cycle_limit) }
        ensures did { result ≡ true
            → self.new.seat.me.0 ≡ vm_did self.old.seat.me.0 EpochStore }
        ensures heap { heap_of self.new.seat.me.0.vm ≡ heap_of self.old.seat.me.0.vm }
        ensures grants { result ≡ true → AfterOpen (grants_of self.old.seat.me.0.vm)
            (grants_of self.new.seat.me.0.vm) }
        ensures same { result ≡ false → self.new ≡ self.old }
        ensures table { self.new.seat.table_id ≡ self.old.seat.table_id }
    {
        self.mirror.open_cycle(&mut self.table, &mut self.seat)
    }

    /// Closes the log of a slot until the open cycle ends: it gets a close, and no object may be
    /// filled then. A closed log stays as it is. `LogFull`: its ring has no free place by the head
    /// just loaded, and all that was granted is so still.
    pub fn close(&mut self, slot: Slot) -> Closing
        requires open { is_open self.old.seat.me.0.vm ≡ true }
        ensures heap { heap_of self.new.seat.me.0.vm ≡ heap_of self.old.seat.me.0.vm }
        ensures already { is_shut self.old.seat.me.0.vm slot ≡ true
            → (result ≡ Closing.Closed) × (self.new ≡ self.old) }
        ensures did { is_shut self.old.seat.me.0.vm slot ≡ false → result ≡ Closing.Closed
            → (head : ℕ) × (self.new.seat.me.0 ≡ vm_did
            (vm_did self.old.seat.me.0 (VmLoad (head_place slot) head))
            (RecordStore slot Record.Close)) }
        ensures looked { result ≡ Closing.LogFull → (head : ℕ)
            × (self.new.seat.me.0 ≡ vm_did self.old.seat.me.0 (VmLoad (head_place slot) head)) }
        ensures closed { is_shut self.old.seat.me.0.vm slot ≡ false → result ≡ Closing.Closed
            → AfterClose (grants_of self.old.seat.me.0.vm) (grants_of self.new.seat.me.0.vm) slot }
        ensures full { result ≡ Closing.LogFull → ¬ HasRoom self.new.seat.me.0.vm slot }
        ensures kept { result ≡ Closing.LogFull → grants_of self.new.seat.me.0.vm
            ≡ grants_of self.old.seat.me.0.vm }
        ensures still_open { is_open self.new.seat.me.0.vm ≡ true }
        ensures within { slot < slots }
        ensures table { self.new.seat.table_id ≡ self.old.seat.table_id }
    {
        self.mirror.close(&mut self.table, &mut self.seat, slot)
    }

    /// Hands words over to the collector's seat, which knows from then on what they name, if a
    /// cycle is open, and knows the epoch. No object may be filled then. What they name stands.
    pub fn hand_over(&mut self, gc: &mut GcSeat, roots: &[Word])
        requires same { gc.old.seat.table_id ≡ self.old.seat.table_id }
        requires stand { values_stand self.old.seat.me.0.vm.objects (numbers roots.now) ≡ true }
        ensures did { (word : ℕ) × AreJoined self.old.seat.me.0 gc.old.seat.me.0
            self.new.seat.me.0 gc.new.seat.me.0 (HandOver word (numbers roots.now)) }
        ensures runs { BothRun self.old.seat.me.0.vm gc.old.seat.me.0.gc }
        ensures heap { heap_of self.new.seat.me.0.vm ≡ heap_of self.old.seat.me.0.vm }
        ensures grants { grants_of self.new.seat.me.0.vm
            ≡ record (grants_of self.old.seat.me.0.vm) { fresh = λ a. false } }
        ensures same { (gc.new.seat.table_id ≡ gc.old.seat.table_id)
            × (self.new.seat.table_id ≡ self.old.seat.table_id) }
    {
        join(&self.table, &mut self.seat, &mut gc.seat);
        gc.hand_over(&mut self.mirror, roots);
        part(&self.table, &mut self.seat, &mut gc.seat);
    }
}
