//! Cycles that the mutator's seat opens and logs that it closes, at any words.
ghost use Rattle.std.specs.Prelude.{not, nat_lt, ◌&&◌, ◌≡◌, ◌≢◌, ◌<◌, ◌≤◌, ◌+◌, ◌↔◌, ℕ, true};
ghost use Rattle.std.specs.Prelude.{false, IsTrue, length};
ghost use Rattle.ps_word.specs.Headers.{cycle_limit};
ghost use Rattle.ps_record.specs.Format.{head_place, ring_length, slots};
ghost use Rattle.ps_mem.specs.Heap.{IsLogBounded};
ghost use Rattle.ps_core_machine.specs.Conditions.{HasRoom};
ghost use Rattle.ps_core_machine.specs.Objects.{log_of};
ghost use Rattle.ps_core_machine.specs.Steps.{is_open};
ghost use Rattle.ps_core_machine.specs.declared.events.Event.TheVariants.{VmLoad, RecordStore};
ghost use Rattle.ps_core_machine.specs.declared.events.Event.TheVariants.{EpochStore};
ghost use Rattle.ps_core_laws.specs.Memory.{heap_of, grants_of, is_shut};
ghost use Rattle.ps_core_laws.specs.MemoryLaws.{AfterOpen, AfterClose, CanClose};
ghost use Rattle.ps_table.specs.Shown.{BothRun, vm_did};
ghost use Rattle.ps_table.specs.Mirrored.{Sits, KeepsGc};

use crate::mirror::Mirror;
use crate::plays::View;
use crate::steps::{vm_epoch, vm_record};
use crate::words::Words;
use atomic_table::Seat;
use ps_core_laws::Closing;
use ps_mem::Permit;
use ps_record::slots::Slot;
use ps_record::{Record, SLOTS};
use ps_word::headers::CYCLE_LIMIT;

impl Mirror {
    /// Opens a cycle where none is open and cycles are left: their numbers are below 2^32.
    /// No log is closed then, and no object may be filled. False: nothing changed.
    pub fn open_cycle<W: Words>(&mut self, words: &mut W, seat: &mut Seat<(), View>) -> bool
        requires sits { W.seats words.old seat.old
            × Sits (W.id words.old).words seat.old.me self.old }
        ensures sits { W.seats words.new seat.new
            × Sits (W.id words.new).words seat.new.me self.new }
        ensures same { W.id words.new ≡ W.id words.old }
        ensures answer { result ≡ (not (is_open seat.old.me.0.vm)
            && nat_lt (seat.old.me.0.vm.epoch + 1) cycle_limit) }
        ensures did { result ≡ true → seat.new.me.0 ≡ vm_did seat.old.me.0 EpochStore }
        ensures gc { KeepsGc seat.old.me.0 seat.new.me.0 }
        ensures heap { heap_of seat.new.me.0.vm ≡ heap_of seat.old.me.0.vm }
        ensures grants { result ≡ true → AfterOpen (grants_of seat.old.me.0.vm)
            (grants_of seat.new.me.0.vm) }
        ensures none { result ≡ false → (words.new ≡ words.old) × (seat.new ≡ seat.old)
            × (self.new ≡ self.old) }
    {
        if self.cycle_open {
            return false;
        }
        let epoch = self.epoch + 1;
        if epoch >= CYCLE_LIMIT {
            return false;
        }
        vm_epoch(words, seat, epoch);
        self.epoch = epoch;
        self.cycle_open = true;
        self.fresh_from = self.end;
        self.shut = [false; SLOTS as usize];
        true
    }

    /// Closes the log of a slot until the open cycle ends: it gets a close, and no object may be
    /// filled then. A closed log stays as it is. `LogFull`: its ring has no free place by the head
    /// just loaded, and nothing that was granted is lost. By a seat that has both sides that is so
    /// only where a whole ring of records isn't taken.
    pub fn close<W: Words>(
        &mut self,
        words: &mut W,
        seat: &mut Seat<(), View>,
        slot: Slot,
    ) -> Closing
        requires sits { W.seats words.old seat.old
            × Sits (W.id words.old).words seat.old.me self.old }
        requires open { is_open seat.old.me.0.vm ≡ true }
        ensures sits { W.seats words.new seat.new
            × Sits (W.id words.new).words seat.new.me self.new }
        ensures same { W.id words.new ≡ W.id words.old }
        ensures gc { KeepsGc seat.old.me.0 seat.new.me.0 }
        ensures heap { heap_of seat.new.me.0.vm ≡ heap_of seat.old.me.0.vm }
        ensures already { is_shut seat.old.me.0.vm slot ≡ true
            → (result ≡ Closing.Closed) × (words.new ≡ words.old) × (seat.new ≡ seat.old)
            × (self.new ≡ self.old) }
        ensures did { is_shut seat.old.me.0.vm slot ≡ false → result ≡ Closing.Closed
            → (head : ℕ) × (seat.new.me.0 ≡ vm_did
            (vm_did seat.old.me.0 (VmLoad (head_place slot) head))
            (RecordStore slot Record.Close)) }
        ensures looked { result ≡ Closing.LogFull → (head : ℕ)
            × (seat.new.me.0 ≡ vm_did seat.old.me.0 (VmLoad (head_place slot) head)) }
        ensures closed { is_shut seat.old.me.0.vm slot ≡ false → result ≡ Closing.Closed
            → AfterClose (grants_of seat.old.me.0.vm) (grants_of seat.new.me.0.vm) slot }
        ensures full { result ≡ Closing.LogFull → ¬ HasRoom seat.new.me.0.vm slot }
        ensures taken { result ≡ Closing.LogFull → seat.old.me.0.acts_gc ≡ true
            → length (log_of seat.old.me.0.vm.logs slot)
            ≡ length (log_of seat.old.me.0.gc.taken slot) + ring_length }
        ensures runs { result ≡ Closing.LogFull → seat.old.me.0.acts_gc ≡ true
            → BothRun seat.old.me.0.vm seat.old.me.0.gc }
        ensures shut { result ≡ Closing.Closed → is_shut seat.new.me.0.vm slot ≡ true }
        ensures not_shut { result ≡ Closing.LogFull → is_shut seat.old.me.0.vm slot ≡ false }
        ensures kept { result ≡ Closing.LogFull
            → grants_of seat.new.me.0.vm ≡ grants_of seat.old.me.0.vm }
        ensures still_open { is_open seat.new.me.0.vm ≡ true }
        ensures within { slot < slots }
    {
        if self.shut[slot.index()] {
            return Closing::Closed;
        }
        self.see_head(words, seat, slot);
        if self.is_full(seat, slot) {
            return Closing::LogFull;
        }
        self.put_close(words, seat, slot);
        Closing::Closed
    }

    /// Puts a close into the log of a slot.
    fn put_close<W: Words>(&mut self, words: &mut W, seat: &mut Seat<(), View>, slot: Slot)
        requires sits { W.seats words.old seat.old
            × Sits (W.id words.old).words seat.old.me self.old }
        requires can { CanClose seat.old.me.0.vm slot }
        ensures sits { W.seats words.new seat.new
            × Sits (W.id words.new).words seat.new.me self.new }
        ensures same { W.id words.new ≡ W.id words.old }
        ensures did { seat.new.me.0 ≡ vm_did seat.old.me.0 (RecordStore slot Record.Close) }
        ensures gc { KeepsGc seat.old.me.0 seat.new.me.0 }
        ensures heap { heap_of seat.new.me.0.vm ≡ heap_of seat.old.me.0.vm }
        ensures grants { AfterClose (grants_of seat.old.me.0.vm) (grants_of seat.new.me.0.vm)
            slot }
    {
        let number = self.logged[slot.index()];
        vm_record(words, seat, slot, number, Record::Close);
        self.logged[slot.index()] = number + 1;
        self.shut[slot.index()] = true;
        self.fresh_from = self.end;
    }

    /// Whether the log of a slot may get so many records. `LogFull`: no, by the head that is loaded
    /// in this call.
    pub fn permit<W: Words>(
        &mut self,
        words: &mut W,
        seat: &mut Seat<(), View>,
        slot: Slot,
        count: u32,
    ) -> Permit
        requires sits { W.seats words.old seat.old
            × Sits (W.id words.old).words seat.old.me self.old }
        ensures sits { W.seats words.new seat.new
            × Sits (W.id words.new).words seat.new.me self.new }
        ensures same { W.id words.new ≡ W.id words.old }
        ensures gc { KeepsGc seat.old.me.0 seat.new.me.0 }
        ensures heap { heap_of seat.new.me.0.vm ≡ heap_of seat.old.me.0.vm }
        ensures grants { grants_of seat.new.me.0.vm ≡ record (grants_of seat.old.me.0.vm)
            { records = (grants_of seat.new.me.0.vm).records } }
        ensures others { (s : ℕ) → s ≢ slot → (grants_of seat.new.me.0.vm).records s
            ≡ (grants_of seat.old.me.0.vm).records s }
        ensures more { (grants_of seat.old.me.0.vm).records slot
            ≤ (grants_of seat.new.me.0.vm).records slot }
        ensures limit { IsLogBounded (grants_of seat.new.me.0.vm) slot }
        ensures yes { result ≡ Permit.Yes → count ≤ (grants_of seat.new.me.0.vm).records slot }
        ensures full { result ≡ Permit.LogFull
            → (grants_of seat.new.me.0.vm).records slot < count }
        ensures closed { (result ≡ Permit.LogClosed) ↔
            ((1 ≤ count) × IsTrue ((grants_of seat.old.me.0.vm).closed slot)) }
        ensures looked { result ≡ Permit.LogFull → (head : ℕ)
            × (seat.new.me.0 ≡ vm_did seat.old.me.0 (VmLoad (head_place slot) head)) }
    {
        if !self.cycle_open || count == 0 {
            return Permit::Yes;
        }
        if self.shut[slot.index()] {
            return Permit::LogClosed;
        }
        if count as u64 <= self.left(seat, slot) {
            return Permit::Yes;
        }
        self.see_head(words, seat, slot);
        if count as u64 <= self.left(seat, slot) {
            Permit::Yes
        } else {
            Permit::LogFull
        }
    }
}
