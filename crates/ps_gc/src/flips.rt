//! The flip, which comes only where all is ready for it, and the roots that are handed over.
ghost use Rattle.std.specs.Prelude.{◌≡◌, ◌+◌, ◌<◌, ◌↔◌, ℕ, IsTrue, true, false, length};
ghost use Rattle.std.specs.Prelude.{None, Ok, Err, slice_index};
ghost use Rattle.ps_record.specs.Format.{slots};
ghost use Rattle.ps_core_machine.specs.declared.events.Event.TheVariants.{CycleStore, HandOver};
ghost use Rattle.ps_core_machine.specs.Conditions.{AllClosed};
ghost use Rattle.ps_core_machine.specs.Objects.{log_of, values_have_replicas, values_stand};
ghost use Rattle.ps_core_machine.specs.Steps.{is_open, knows_open, vm_after, gc_after};
ghost use Rattle.ps_core_laws.specs.Memory.{heap_of, grants_of};
ghost use Rattle.ps_core_laws.specs.Stores.{numbers};
ghost use Rattle.ps_core_laws.specs.Collected.{IsExact};
ghost use Rattle.ps_core_laws.specs.Looks.{OnlyLooks};
ghost use Rattle.ps_core_laws.specs.Reach.{NameTheSame};
ghost use Rattle.ps_core_laws.specs.Tries.{IsFlip};
ghost use Rattle.ps_table.specs.Mirrored.{Mirrors, Sits};
ghost use Rattle.ps_table.specs.Shown.{AreJoined, BothDo, BothRun};
ghost use Rattle.ps_gc.specs.Events.{AreKnown};
ghost use Rattle.ps_gc.specs.Flipping.{Answers, flip_but_for, sides_seen};

use crate::collector::Collector;
use crate::taken::Taken;
use atomic_table::Seat;
use ps_core_laws::Unready;
use ps_record::SLOTS;
use ps_record::slots::Slot;
use ps_table::{GcSeat, Mirror, View, VmSeat, Words};
use ps_word::words::Word;
use std::marker::Brand;

/// Whether all logs are closed in the open cycle.
fn all_closed(mirror: &Mirror, seat: &Seat<(), View>) -> bool
    requires mirrors { Mirrors seat.now.me.0.vm mirror.now }
    requires open { is_open seat.now.me.0.vm ≡ true }
    ensures { IsTrue result ↔ AllClosed seat.now.me.0.vm }
{
    for slot in 0..SLOTS {
        let slot = Slot::numbered(slot);
        if !mirror.is_closed(seat, slot) {
            return false;
        }
    }
    true
}

/// Whether as many records were taken of each log as were logged there.
fn all_taken(taken: &Taken, mirror: &Mirror, seat: &Seat<(), View>) -> bool
    requires mirrors { Mirrors seat.now.me.0.vm mirror.now }
    requires wide { length taken.now.numbers ≡ slots }
    ensures { IsTrue result ↔ ((slot : ℕ) → slot < slots → slice_index taken.now.numbers slot
        ≡ length (log_of seat.now.me.0.vm.logs slot)) }
{
    for slot in 0..SLOTS {
        let slot = Slot::numbered(slot);
        if taken.numbers[slot.index()] != mirror.logged(seat, slot) {
            return false;
        }
    }
    true
}

/// Whether what each root refers to has a replica. It stands.
fn have_replicas<W: Words>(gc: &mut GcSeat<W>, mirror: &Mirror, roots: &[Word]) -> bool
    requires sits { Sits (W.id gc.old.table).words gc.old.seat.me mirror.now }
    requires stand { values_stand gc.old.seat.me.0.vm.objects (numbers roots.now) ≡ true }
    ensures sits { Sits (W.id gc.new.table).words gc.new.seat.me mirror.now }
    ensures same { W.id gc.new.table ≡ W.id gc.old.table }
    ensures answer { result ≡ values_have_replicas gc.old.seat.me.0.gc.pairs (numbers roots.now) }
    ensures parts { (gc.new.seat.me.0.vm ≡ gc.old.seat.me.0.vm)
        × (gc.new.seat.me.0.gc ≡ gc.old.seat.me.0.gc) }
    ensures steps { OnlyLooks (length roots.now) gc.old.seat.me.0.vm_events
        gc.new.seat.me.0.vm_events
        × (gc.new.seat.me.0.gc_events ≡ gc.old.seat.me.0.gc_events) }
{
    for root in roots {
        if !gc.has_replica(mirror, *root) {
            return false;
        }
    }
    true
}

impl<W: Words> Collector<W> {
    /// Hands roots over, by a seat that has both sides. From then on the collector knows whether a
    /// cycle is open, and in a cycle what they name. No object may be filled then. What they name
    /// stands.
    pub fn joined_hand_over(&mut self, mirror: &mut Mirror, roots: &[Word])
        requires sits { Sits (W.id self.old.gc.table).words self.old.gc.seat.me mirror.old }
        requires stand { values_stand self.old.gc.seat.me.0.vm.objects (numbers roots.now)
            ≡ true }
        ensures sits { Sits (W.id self.new.gc.table).words self.new.gc.seat.me mirror.new }
        ensures same { W.id self.new.gc.table ≡ W.id self.old.gc.table }
        ensures does { (word : ℕ) × BothDo self.old.gc.seat.me
            (HandOver word (numbers roots.now)) self.new.gc.seat.me }
        ensures heap { heap_of self.new.gc.seat.me.0.vm ≡ heap_of self.old.gc.seat.me.0.vm }
        ensures grants { grants_of self.new.gc.seat.me.0.vm
            ≡ record (grants_of self.old.gc.seat.me.0.vm) { fresh = λ a. false } }
        ensures knows { knows_open self.new.gc.seat.me.0.gc ≡ is_open self.old.gc.seat.me.0.vm }
        ensures known { is_open self.old.gc.seat.me.0.vm ≡ true
            → AreKnown self.new.gc.seat.me.0.gc (numbers roots.now) }
    {
        self.gc.hand_over(mirror, roots);
    }

    /// Of all that a flip needs the first that doesn't hold. None: a flip can come, and both sides
    /// are those of one run. Nothing changes.
    fn hindrance(&mut self, mirror: &Mirror, roots: &[Word]) -> Option<Unready>
        requires sits { Sits (W.id self.old.gc.table).words self.old.gc.seat.me mirror.now }
        requires open { is_open self.old.gc.seat.me.0.vm ≡ true }
        requires stand { values_stand self.old.gc.seat.me.0.vm.objects (numbers roots.now)
            ≡ true }
        ensures sits { Sits (W.id self.new.gc.table).words self.new.gc.seat.me mirror.now }
        ensures same { W.id self.new.gc.table ≡ W.id self.old.gc.table }
        ensures answer { Answers self.old.gc.seat.me.0.vm self.old.gc.seat.me.0.gc
            (numbers roots.now) (flip_but_for result) }
        ensures runs { result ≡ None
            → BothRun self.old.gc.seat.me.0.vm self.old.gc.seat.me.0.gc }
        ensures parts { (self.new.gc.seat.me.0.vm ≡ self.old.gc.seat.me.0.vm)
            × (self.new.gc.seat.me.0.gc ≡ self.old.gc.seat.me.0.gc) }
        ensures steps { OnlyLooks (length roots.now + 1) self.old.gc.seat.me.0.vm_events
            self.new.gc.seat.me.0.vm_events
            × (self.new.gc.seat.me.0.gc_events ≡ self.old.gc.seat.me.0.gc_events) }
    {
        if !all_closed(mirror, &self.gc.seat) {
            return Some(Unready::LogOpen);
        }
        if !all_taken(&self.taken, mirror, &self.gc.seat) {
            return Some(Unready::Undrained);
        }
        self.gc.meet(mirror);
        if self.to.at != self.to.end {
            return Some(Unready::Unscanned);
        }
        if !have_replicas(&mut self.gc, mirror, roots) {
            return Some(Unready::RootNotCopied);
        }
        None
    }

    /// Ends the open cycle by the flip, by a seat that has both sides. All logs must be closed and
    /// drained, all fields filled, and what the roots refer to must have replicas. Else it answers
    /// the first of these that doesn't hold.
    pub fn joined_try_flip(
        &mut self,
        mirror: &mut Mirror,
        roots: &mut [Word],
    ) -> Result<(), Unready>
        requires sits { Sits (W.id self.old.gc.table).words self.old.gc.seat.me mirror.old }
        requires open { is_open self.old.gc.seat.me.0.vm ≡ true }
        requires stand { values_stand self.old.gc.seat.me.0.vm.objects (numbers roots.old)
            ≡ true }
        ensures sits { Sits (W.id self.new.gc.table).words self.new.gc.seat.me mirror.new }
        ensures same { W.id self.new.gc.table ≡ W.id self.old.gc.table }
        ensures answer { Answers self.old.gc.seat.me.0.vm self.old.gc.seat.me.0.gc
            (numbers roots.old) result }
        ensures flips { IsFlip result
            (sides_seen self.old.gc.seat.me.0 self.old.gc.seat.me.0)
            (sides_seen self.new.gc.seat.me.0 self.new.gc.seat.me.0) roots.old roots.new }
        ensures parts { result ≡ Ok tt → (self.new.gc.seat.me.0.vm ≡ vm_after
            self.old.gc.seat.me.0.vm self.old.gc.seat.me.0.gc (CycleStore (numbers roots.old)))
            × (self.new.gc.seat.me.0.gc ≡ gc_after self.old.gc.seat.me.0.gc
            self.old.gc.seat.me.0.vm (CycleStore (numbers roots.old))) }
        // The collector knows of no open cycle then.
        ensures knows { result ≡ Ok tt → knows_open self.new.gc.seat.me.0.gc ≡ false }
        // Where nothing was stored in the cycle, and the roots are those handed over in it, just
        // what they reach was moved.
        ensures exact { result ≡ Ok tt → self.old.gc.seat.me.0.vm.stored ≡ false
            → NameTheSame self.old.gc.seat.me.0.gc.handed (numbers roots.old)
            → IsExact (heap_of self.old.gc.seat.me.0.vm)
            (heap_of self.new.gc.seat.me.0.vm) roots.old roots.new }
        ensures kept { (why : Unready) → result ≡ Err why
            → (self.new.gc.seat.me.0.vm ≡ self.old.gc.seat.me.0.vm)
            × (self.new.gc.seat.me.0.gc ≡ self.old.gc.seat.me.0.gc) }
    {
        match self.hindrance(mirror, roots) {
            Some(why) => Err(why),
            None => {
                self.gc.store_cycle::<Brand>(mirror, roots, self.to.end);
                self.to.cycle += 1;
                let low = self.to.low();
                self.to.end = low;
                self.to.at = low;
                self.to.field = 0;
                self.taken.closed = [false; SLOTS as usize];
                Ok(())
            }
        }
    }
}

impl Collector {
    /// Hands roots over: from then on the collector knows whether a cycle is open, and in a cycle
    /// what they name. No object may be filled then. What they name stands.
    pub fn hand_over(&mut self, vm: &mut VmSeat, roots: &[Word])
        requires same { vm.old.seat.table_id ≡ self.old.gc.seat.table_id }
        requires stand { values_stand vm.old.seat.me.0.vm.objects (numbers roots.now) ≡ true }
        ensures did { (word : ℕ) × AreJoined vm.old.seat.me.0 self.old.gc.seat.me.0
            vm.new.seat.me.0 self.new.gc.seat.me.0 (HandOver word (numbers roots.now)) }
        ensures heap { heap_of vm.new.seat.me.0.vm ≡ heap_of vm.old.seat.me.0.vm }
        ensures grants { grants_of vm.new.seat.me.0.vm
            ≡ record (grants_of vm.old.seat.me.0.vm) { fresh = λ a. false } }
        ensures knows { knows_open self.new.gc.seat.me.0.gc ≡ is_open vm.old.seat.me.0.vm }
        ensures known { is_open vm.old.seat.me.0.vm ≡ true
            → AreKnown self.new.gc.seat.me.0.gc (numbers roots.now) }
        ensures same { (self.new.gc.seat.table_id ≡ self.old.gc.seat.table_id)
            × (vm.new.seat.table_id ≡ vm.old.seat.table_id) }
    {
        vm.hand_over(&mut self.gc, roots);
    }
}
