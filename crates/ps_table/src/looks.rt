//! Looks by a seat that has both sides: they tell of one run that leads to both parts, and change
//! neither.
ghost use Rattle.std.specs.Prelude.{◌≡◌, ◌<◌, ◌+◌, true};
ghost use Rattle.ps_core_machine.specs.Objects.{value_has_replica, value_stands};
ghost use Rattle.ps_core_machine.specs.Steps.{table_size};
ghost use Rattle.ps_core_laws.specs.MemoryLaws.{StaysAfterLoad};
ghost use Rattle.ps_core_laws.specs.Looks.{OnlyLooks};
ghost use Rattle.ps_table.specs.Mirrored.{Sits};
ghost use Rattle.ps_table.specs.Shown.{BothLook, BothRun};

use crate::collector::GcSeat;
use crate::joins::look;
use crate::mirror::Mirror;
use crate::words::Words;
use ps_word::headers::Forward;
use ps_word::words::Word;

impl<W: Words> GcSeat<W> {
    /// A word that is no head.
    fn look(&mut self, mirror: &Mirror, place: u64) -> u64
        requires sits { Sits (W.id self.old.table).words self.old.seat.me mirror.now }
        requires inside { place < table_size self.old.seat.me.0.vm.space }
        requires stays { StaysAfterLoad self.old.seat.me.0.vm place }
        ensures sits { Sits (W.id self.new.table).words self.new.seat.me mirror.now }
        ensures same { W.id self.new.table ≡ W.id self.old.table }
        ensures looks { BothLook self.old.seat.me place result self.new.seat.me }
        ensures parts { (self.new.seat.me.0.vm ≡ self.old.seat.me.0.vm)
            × (self.new.seat.me.0.gc ≡ self.old.seat.me.0.gc) }
    {
        look(&mut self.table, &mut self.seat, place)
    }

    /// Looks at the cycle word, so that both parts are known to be those of one run.
    pub fn meet(&mut self, mirror: &Mirror) -> u64
        requires sits { Sits (W.id self.old.table).words self.old.seat.me mirror.now }
        ensures sits { Sits (W.id self.new.table).words self.new.seat.me mirror.now }
        ensures same { W.id self.new.table ≡ W.id self.old.table }
        ensures looks { BothLook self.old.seat.me 0 result self.new.seat.me }
        ensures parts { (self.new.seat.me.0.vm ≡ self.old.seat.me.0.vm)
            × (self.new.seat.me.0.gc ≡ self.old.seat.me.0.gc) }
        ensures cycle { result ≡ self.old.seat.me.0.vm.cycle }
        ensures runs { BothRun self.old.seat.me.0.vm self.old.seat.me.0.gc }
    {
        self.look(mirror, 0)
    }

    /// Whether what a root refers to has a replica, as its second header tells; of a root that
    /// refers to nothing, true. What it refers to stands.
    pub fn has_replica(&mut self, mirror: &Mirror, root: Word) -> bool
        requires sits { Sits (W.id self.old.table).words self.old.seat.me mirror.now }
        requires stands { value_stands self.old.seat.me.0.vm.objects root.0 ≡ true }
        ensures sits { Sits (W.id self.new.table).words self.new.seat.me mirror.now }
        ensures same { W.id self.new.table ≡ W.id self.old.table }
        ensures answer { result ≡ value_has_replica self.old.seat.me.0.gc.pairs root.0 }
        ensures parts { (self.new.seat.me.0.vm ≡ self.old.seat.me.0.vm)
            × (self.new.seat.me.0.gc ≡ self.old.seat.me.0.gc) }
        ensures steps { OnlyLooks 1 self.old.seat.me.0.vm_events self.new.seat.me.0.vm_events
            × (self.new.seat.me.0.gc_events ≡ self.old.seat.me.0.gc_events) }
    {
        if !root.is_reference() {
            return true;
        }
        let second = self.look(mirror, root.low_address() as u64 + 1);
        match Forward::unpack(Word(second)) {
            Some(forward) => mirror.cycle_open && forward.cycle as u64 == mirror.epoch,
            None => false,
        }
    }
}
