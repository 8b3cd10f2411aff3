//! A cycle is ended by a seat that has both sides, whoever has the numbers of the mutator's side.
ghost use Rattle.std.specs.Prelude.{◌≡◌, ◌<◌, ◌+◌, ◌++◌, ℕ, true, false};
ghost use Rattle.ps_record.specs.Format.{slots};
ghost use Rattle.ps_mem.specs.Shows.{AreValues};
ghost use Rattle.ps_core_machine.specs.Objects.{values_have_replicas};
ghost use Rattle.ps_core_machine.specs.Steps.{is_open, knows_open};
ghost use Rattle.ps_core_laws.specs.Reach.{NameTheSame};
ghost use Rattle.ps_core_laws.specs.Memory.{heap_of, grants_of, is_shut};
ghost use Rattle.ps_core_laws.specs.Stores.{numbers};
ghost use Rattle.ps_core_laws.specs.Collected.{IsCollected, IsExact, IsQuiet, may_open, one_more_if};
ghost use Rattle.ps_table.specs.Mirrored.{KeepsVm, Sits};
ghost use Rattle.ps_gc.specs.Ending.{IsEnded, KeepsReplicas, StaysBut};
ghost use Rattle.ps_gc.specs.Events.{is_drained};

use crate::collector::{Collector, Drained};
use ps_core_laws::{Closing, Unready};
use ps_record::SLOTS;
use ps_record::slots::Slot;
use ps_table::{Mirror, VmSeat, Words, join, part};
use ps_word::words::Word;

/// Hands roots over, and gives what they refer to replicas.
pub(crate) fn hand<W: Words>(collector: &mut Collector<W>, mirror: &mut Mirror, roots: &[Word])
    requires sits { Sits (W.id collector.old.gc.table).words collector.old.gc.seat.me mirror.old }
    requires open { is_open collector.old.gc.seat.me.0.vm ≡ true }
    requires values { AreValues (heap_of collector.old.gc.seat.me.0.vm) roots.now }
    ensures sits { Sits (W.id collector.new.gc.table).words collector.new.gc.seat.me mirror.new }
    ensures same { W.id collector.new.gc.table ≡ W.id collector.old.gc.table }
    ensures heap { heap_of collector.new.gc.seat.me.0.vm ≡ heap_of collector.old.gc.seat.me.0.vm }
    ensures grants { grants_of collector.new.gc.seat.me.0.vm
        ≡ record (grants_of collector.old.gc.seat.me.0.vm) { fresh = λ a. false } }
    ensures flips { collector.new.gc.seat.me.0.vm.cycle ≡ collector.old.gc.seat.me.0.vm.cycle }
    ensures knows { knows_open collector.new.gc.seat.me.0.gc ≡ true }
    ensures copied { values_have_replicas collector.new.gc.seat.me.0.gc.pairs (numbers roots.now)
        ≡ true }
    ensures handed { collector.new.gc.seat.me.0.gc.handed
        ≡ numbers roots.now ++ collector.old.gc.seat.me.0.gc.handed }
    ensures stored { collector.new.gc.seat.me.0.vm.stored
        ≡ collector.old.gc.seat.me.0.vm.stored }
{
    collector.joined_hand_over(mirror, roots);
    collector.add_roots(roots);
}

/// Closes the log of a slot; where its ring is full, a record is taken of it first.
fn close_one<W: Words>(collector: &mut Collector<W>, mirror: &mut Mirror, slot: Slot)
    requires sits { Sits (W.id collector.old.gc.table).words collector.old.gc.seat.me mirror.old }
    requires open { is_open collector.old.gc.seat.me.0.vm ≡ true }
    requires knows { knows_open collector.old.gc.seat.me.0.gc ≡ true }
    ensures sits { Sits (W.id collector.new.gc.table).words collector.new.gc.seat.me mirror.new }
    ensures same { W.id collector.new.gc.table ≡ W.id collector.old.gc.table }
    ensures heap { heap_of collector.new.gc.seat.me.0.vm ≡ heap_of collector.old.gc.seat.me.0.vm }
    ensures stays { StaysBut slot collector.old.gc.seat.me.0 collector.new.gc.seat.me.0 }
    ensures shut { is_shut collector.new.gc.seat.me.0.vm slot ≡ true }
{
    let gc = &mut collector.gc;
    match mirror.close(&mut gc.table, &mut gc.seat, slot) {
        Closing::Closed => {}
        Closing::LogFull => {
            collector.drain_one(slot);
            let gc = &mut collector.gc;
            mirror.close(&mut gc.table, &mut gc.seat, slot);
        }
    }
}

/// Takes the records of a slot's log, which is closed, up to its close.
fn drain_closed<W: Words>(collector: &mut Collector<W>, slot: Slot)
    requires acts { collector.old.gc.seat.me.0.acts_vm ≡ true }
    requires shut { is_shut collector.old.gc.seat.me.0.vm slot ≡ true }
    requires knows { knows_open collector.old.gc.seat.me.0.gc ≡ true }
    ensures same { W.id collector.new.gc.table ≡ W.id collector.old.gc.table }
    ensures vm { KeepsVm collector.old.gc.seat.me.0 collector.new.gc.seat.me.0 }
    ensures stays { StaysBut slot collector.old.gc.seat.me.0 collector.new.gc.seat.me.0 }
    ensures drained { is_drained collector.new.gc.seat.me.0.gc slot ≡ true }
{
    'drain: loop {
        match collector.drain_one(slot) {
            Drained::Closed => return,
            Drained::Took(_) => {}
            Drained::Nothing => unreachable!(),
        }
    }
}

/// Closes and drains all logs.
fn end_logs<W: Words>(collector: &mut Collector<W>, mirror: &mut Mirror)
    requires sits { Sits (W.id collector.old.gc.table).words collector.old.gc.seat.me mirror.old }
    requires open { is_open collector.old.gc.seat.me.0.vm ≡ true }
    requires knows { knows_open collector.old.gc.seat.me.0.gc ≡ true }
    ensures sits { Sits (W.id collector.new.gc.table).words collector.new.gc.seat.me mirror.new }
    ensures same { W.id collector.new.gc.table ≡ W.id collector.old.gc.table }
    ensures heap { heap_of collector.new.gc.seat.me.0.vm ≡ heap_of collector.old.gc.seat.me.0.vm }
    ensures flips { collector.new.gc.seat.me.0.vm.cycle ≡ collector.old.gc.seat.me.0.vm.cycle }
    ensures open { is_open collector.new.gc.seat.me.0.vm ≡ true }
    ensures knows { knows_open collector.new.gc.seat.me.0.gc ≡ true }
    ensures ended { (slot : ℕ) → slot < slots → IsEnded collector.new.gc.seat.me.0 slot }
    ensures pairs { KeepsReplicas collector.old.gc.seat.me.0.gc.pairs
        collector.new.gc.seat.me.0.gc.pairs }
    ensures handed { collector.new.gc.seat.me.0.gc.handed
        ≡ collector.old.gc.seat.me.0.gc.handed }
    ensures stored { collector.new.gc.seat.me.0.vm.stored
        ≡ collector.old.gc.seat.me.0.vm.stored }
{
    for slot in 0..SLOTS {
        let slot = Slot::numbered(slot);
        close_one(collector, mirror, slot);
        drain_closed(collector, slot);
    }
}

/// Ends the open cycle, by a seat that has both sides: all logs are closed and drained, the roots
/// are copied, and the spaces are exchanged. No object may be filled then. Where nothing was stored
/// in the cycle, and no other roots were handed over, just what the roots reach was moved.
pub fn joined_end_cycle<W: Words>(
    collector: &mut Collector<W>,
    mirror: &mut Mirror,
    roots: &mut [Word],
)
    requires sits { Sits (W.id collector.old.gc.table).words collector.old.gc.seat.me mirror.old }
    requires open { is_open collector.old.gc.seat.me.0.vm ≡ true }
    requires values { AreValues (heap_of collector.old.gc.seat.me.0.vm) roots.old }
    ensures sits { Sits (W.id collector.new.gc.table).words collector.new.gc.seat.me mirror.new }
    ensures same { W.id collector.new.gc.table ≡ W.id collector.old.gc.table }
    ensures flips { collector.new.gc.seat.me.0.vm.cycle
        ≡ collector.old.gc.seat.me.0.vm.cycle + 1 }
    ensures moved { IsCollected (heap_of collector.old.gc.seat.me.0.vm)
        (heap_of collector.new.gc.seat.me.0.vm) roots.old roots.new }
    ensures exact { collector.old.gc.seat.me.0.vm.stored ≡ false
        → NameTheSame (numbers roots.old ++ collector.old.gc.seat.me.0.gc.handed)
        (numbers roots.old) → IsExact (heap_of collector.old.gc.seat.me.0.vm)
        (heap_of collector.new.gc.seat.me.0.vm) roots.old roots.new }
    ensures quiet { IsQuiet (grants_of collector.new.gc.seat.me.0.vm) }
    ensures fresh { (address : ℕ)
        → (grants_of collector.new.gc.seat.me.0.vm).fresh address ≡ false }
    ensures room { (grants_of collector.new.gc.seat.me.0.vm).words
        + (heap_of collector.new.gc.seat.me.0.vm).used
        ≡ (heap_of collector.new.gc.seat.me.0.vm).space.size }
{
    hand(collector, mirror, roots);
    end_logs(collector, mirror);
    collector.scan_all();
    // So both sides are known to be those of one run, in which all is taken then.
    collector.gc.meet(mirror);
    match collector.joined_try_flip(mirror, roots) {
        Ok(()) => {}
        Err(_) => unreachable!(),
    }
}

/// A whole cycle, by a seat that has both sides, where none is open and cycles are left: just what
/// the roots reach is moved, and they are renamed. No object may be filled then. False: nothing has
/// changed.
pub fn joined_whole_cycle<W: Words>(
    collector: &mut Collector<W>,
    mirror: &mut Mirror,
    roots: &mut [Word],
) -> bool
    requires sits { Sits (W.id collector.old.gc.table).words collector.old.gc.seat.me mirror.old }
    requires values { AreValues (heap_of collector.old.gc.seat.me.0.vm) roots.old }
    ensures sits { Sits (W.id collector.new.gc.table).words collector.new.gc.seat.me mirror.new }
    ensures same { W.id collector.new.gc.table ≡ W.id collector.old.gc.table }
    ensures answer { result ≡ may_open (is_open collector.old.gc.seat.me.0.vm)
        collector.old.gc.seat.me.0.vm.cycle }
    ensures flips { collector.new.gc.seat.me.0.vm.cycle
        ≡ one_more_if result collector.old.gc.seat.me.0.vm.cycle }
    ensures exact { result ≡ true → IsExact (heap_of collector.old.gc.seat.me.0.vm)
        (heap_of collector.new.gc.seat.me.0.vm) roots.old roots.new }
    ensures quiet { result ≡ true → IsQuiet (grants_of collector.new.gc.seat.me.0.vm) }
    ensures fresh { result ≡ true → (address : ℕ)
        → (grants_of collector.new.gc.seat.me.0.vm).fresh address ≡ false }
    ensures heap { result ≡ false → heap_of collector.new.gc.seat.me.0.vm
        ≡ heap_of collector.old.gc.seat.me.0.vm }
    ensures grants { result ≡ false → grants_of collector.new.gc.seat.me.0.vm
        ≡ grants_of collector.old.gc.seat.me.0.vm }
    ensures roots { result ≡ false → roots.new ≡ roots.old }
{
    // So outside a cycle no roots are known to be noted.
    collector.gc.meet(mirror);
    let gc = &mut collector.gc;
    if !mirror.open_cycle(&mut gc.table, &mut gc.seat) {
        return false;
    }
    joined_end_cycle(collector, mirror, roots);
    true
}

impl Collector {
    /// A whole cycle, where none is open and cycles are left: just what the roots reach is moved,
    /// and they are renamed. No object may be filled then. False: nothing has changed.
    pub fn whole_cycle(&mut self, vm: &mut VmSeat, roots: &mut [Word]) -> bool
        requires same { vm.old.seat.table_id ≡ self.old.gc.seat.table_id }
        requires values { AreValues (heap_of vm.old.seat.me.0.vm) roots.old }
        ensures answer { result ≡ may_open (is_open vm.old.seat.me.0.vm)
            vm.old.seat.me.0.vm.cycle }
        ensures flips { vm.new.seat.me.0.vm.cycle
            ≡ one_more_if result vm.old.seat.me.0.vm.cycle }
        ensures exact { result ≡ true → IsExact (heap_of vm.old.seat.me.0.vm)
            (heap_of vm.new.seat.me.0.vm) roots.old roots.new }
        ensures quiet { result ≡ true → IsQuiet (grants_of vm.new.seat.me.0.vm) }
        ensures fresh { result ≡ true → (address : ℕ)
            → (grants_of vm.new.seat.me.0.vm).fresh address ≡ false }
        ensures heap { result ≡ false
            → heap_of vm.new.seat.me.0.vm ≡ heap_of vm.old.seat.me.0.vm }
        ensures grants { result ≡ false
            → grants_of vm.new.seat.me.0.vm ≡ grants_of vm.old.seat.me.0.vm }
        ensures roots { result ≡ false → roots.new ≡ roots.old }
        ensures same { (self.new.gc.seat.table_id ≡ self.old.gc.seat.table_id)
            × (vm.new.seat.table_id ≡ vm.old.seat.table_id) }
    {
        join(&vm.table, &mut vm.seat, &mut self.gc.seat);
        let made = joined_whole_cycle(self, &mut vm.mirror, roots);
        part(&vm.table, &mut vm.seat, &mut self.gc.seat);
        made
    }

    /// Ends the open cycle, whatever is left to do: all logs are closed and drained, the roots are
    /// copied, and the spaces are exchanged. No object may be filled then.
    pub fn end_cycle(&mut self, vm: &mut VmSeat, roots: &mut [Word])
        requires same { vm.old.seat.table_id ≡ self.old.gc.seat.table_id }
        requires open { is_open vm.old.seat.me.0.vm ≡ true }
        requires values { AreValues (heap_of vm.old.seat.me.0.vm) roots.old }
        ensures flips { vm.new.seat.me.0.vm.cycle ≡ vm.old.seat.me.0.vm.cycle + 1 }
        ensures moved { IsCollected (heap_of vm.old.seat.me.0.vm) (heap_of vm.new.seat.me.0.vm)
            roots.old roots.new }
        ensures quiet { IsQuiet (grants_of vm.new.seat.me.0.vm) }
        ensures fresh { (address : ℕ) → (grants_of vm.new.seat.me.0.vm).fresh address ≡ false }
        ensures room { (grants_of vm.new.seat.me.0.vm).words + (heap_of vm.new.seat.me.0.vm).used
            ≡ (heap_of vm.new.seat.me.0.vm).space.size }
        ensures same { (self.new.gc.seat.table_id ≡ self.old.gc.seat.table_id)
            × (vm.new.seat.table_id ≡ vm.old.seat.table_id) }
    {
        join(&vm.table, &mut vm.seat, &mut self.gc.seat);
        joined_end_cycle(self, &mut vm.mirror, roots);
        part(&vm.table, &mut vm.seat, &mut self.gc.seat);
    }
}
