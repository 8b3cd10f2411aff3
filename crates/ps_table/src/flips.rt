//! The flip, by a seat that has both sides: the replicas become the standing objects, and roots are
//! renamed.
ghost use Rattle.std.specs.Prelude.{◌≡◌, ◌+◌, true, map};
ghost use Rattle.ps_core_machine.specs.declared.events.Event.TheVariants.{CycleStore};
ghost use Rattle.ps_core_machine.specs.Conditions.{VmMay, GcMay};
ghost use Rattle.ps_core_machine.specs.Objects.{end_of_replicas, renamed_value, value_has_replica};
ghost use Rattle.ps_core_machine.specs.Objects.{values_have_replicas};
ghost use Rattle.ps_core_machine.specs.Steps.{other_base, vm_after, gc_after};
ghost use Rattle.ps_core_laws.specs.Stores.{numbers};
ghost use Rattle.ps_table.specs.Events.{gc_did_all, root_look, root_looks};
ghost use Rattle.ps_table.specs.Mirrored.{Sits};
ghost use Rattle.ps_table.specs.Shown.{both_did};

use crate::collector::GcSeat;
use crate::mirror::Mirror;
use crate::plays::{Flips, StepNaming};
use crate::words::Words;
use ps_record::{SLOTS, SPACES_START};
use ps_word::headers::Forward;
use ps_word::words::Word;

impl<W: Words> GcSeat<W> {
    /// The root, naming the replica of what it names; a root that is no reference stays.
    fn renamed(&mut self, root: Word) -> Word
        requires has { value_has_replica self.old.seat.me.0.gc.pairs root.0 ≡ true }
        ensures did { self.new.seat.me.0
            ≡ gc_did_all self.old.seat.me.0 (root_look self.old.seat.me.0.gc root.0) }
        ensures part { self.new.seat.me.0.gc ≡ self.old.seat.me.0.gc }
        ensures renamed { result.0 ≡ renamed_value self.old.seat.me.0.gc.pairs root.0 }
        ensures same { W.id self.new.table ≡ W.id self.old.table }
    {
        if !root.is_reference() {
            return root;
        }
        let second = self.load(root.low_address() as u64 + 1);
        match Forward::unpack(Word(second)) {
            Some(forward) => root.readdressed(forward.address),
            None => root,
        }
    }

    /// Renames the roots, each of which has a replica if it is a reference.
    fn rename(&mut self, roots: &mut [Word])
        requires has { values_have_replicas self.old.seat.me.0.gc.pairs (numbers roots.old)
            ≡ true }
        ensures did { self.new.seat.me.0 ≡ gc_did_all self.old.seat.me.0
            (root_looks self.old.seat.me.0.gc (numbers roots.old)) }
        ensures part { self.new.seat.me.0.gc ≡ self.old.seat.me.0.gc }
        ensures renamed { numbers roots.new
            ≡ map (renamed_value self.old.seat.me.0.gc.pairs) (numbers roots.old) }
        ensures same { W.id self.new.table ≡ W.id self.old.table }
    {
        for root in roots.iter_mut() {
            *root = self.renamed(*root);
        }
    }

    /// The flip, by a seat that has both sides: the replicas, whose last one ends there, become the
    /// standing objects, and the roots are renamed.
    pub fn store_cycle<N: StepNaming>(&mut self, mirror: &mut Mirror, roots: &mut [Word], end: u64)
        requires named { N.roots ≡ numbers roots.old }
        requires sits { Sits (W.id self.old.table).words self.old.seat.me mirror.old }
        requires is { end ≡ end_of_replicas (other_base self.old.seat.me.0.gc.space
            self.old.seat.me.0.gc.cycle) self.old.seat.me.0.gc.pairs }
        requires vm { VmMay self.old.seat.me.0.vm (CycleStore (numbers roots.old)) }
        requires gc { GcMay self.old.seat.me.0.gc (CycleStore (numbers roots.old)) }
        requires drained { self.old.seat.me.0.gc.taken ≡ self.old.seat.me.0.vm.logs }
        requires meet { (self.old.seat.me.0.vm.space ≡ self.old.seat.me.0.gc.space)
            × (self.old.seat.me.0.vm.cycle ≡ self.old.seat.me.0.gc.cycle) }
        ensures sits { Sits (W.id self.new.table).words self.new.seat.me mirror.new }
        ensures same { W.id self.new.table ≡ W.id self.old.table }
        ensures did { self.new.seat.me.0 ≡ both_did (gc_did_all self.old.seat.me.0
            (root_looks self.old.seat.me.0.gc (numbers roots.old)))
            (CycleStore (numbers roots.old)) }
        ensures parts { (self.new.seat.me.0.vm ≡ vm_after self.old.seat.me.0.vm
            self.old.seat.me.0.gc (CycleStore (numbers roots.old)))
            × (self.new.seat.me.0.gc ≡ gc_after self.old.seat.me.0.gc
            self.old.seat.me.0.vm (CycleStore (numbers roots.old))) }
        ensures renamed { numbers roots.new
            ≡ map (renamed_value self.old.seat.me.0.gc.pairs) (numbers roots.old) }
    {
        self.rename(roots);
        self.table
            .store::<Flips<N>>(&mut self.seat, 0, mirror.epoch);
        mirror.base = 2 * SPACES_START + mirror.space - mirror.base;
        mirror.end = end;
        mirror.fresh_from = end;
        mirror.cycle_open = false;
        mirror.shut = [false; SLOTS as usize];
    }
}
