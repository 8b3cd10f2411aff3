//! The hand-over, by a seat that has both sides: what words name is known to the collector's.
ghost use Rattle.std.specs.Prelude.{◌≡◌, ℕ, true, false};
ghost use Rattle.ps_core_machine.specs.declared.events.Event.TheVariants.{HandOver};
ghost use Rattle.ps_core_machine.specs.Objects.{values_stand};
ghost use Rattle.ps_core_laws.specs.Memory.{heap_of, grants_of};
ghost use Rattle.ps_core_laws.specs.Stores.{numbers};
ghost use Rattle.ps_table.specs.Mirrored.{Sits};
ghost use Rattle.ps_table.specs.Shown.{BothDo};

use crate::collector::GcSeat;
use crate::joins::hand;
use crate::mirror::Mirror;
use crate::words::Words;
use ps_word::words::Word;

impl<W: Words> GcSeat<W> {
    /// Hands words over to the collector's side, which knows the epoch from then on, and in an open
    /// cycle what they name. No object may be filled then. What they name stands.
    pub fn hand_over(&mut self, mirror: &mut Mirror, roots: &[Word])
        requires sits { Sits (W.id self.old.table).words self.old.seat.me mirror.old }
        requires stand { values_stand self.old.seat.me.0.vm.objects (numbers roots.now) ≡ true }
        ensures sits { Sits (W.id self.new.table).words self.new.seat.me mirror.new }
        ensures same { W.id self.new.table ≡ W.id self.old.table }
        ensures does { (word : ℕ) × BothDo self.old.seat.me (HandOver word (numbers roots.now))
            self.new.seat.me }
        ensures heap { heap_of self.new.seat.me.0.vm ≡ heap_of self.old.seat.me.0.vm }
        ensures grants { grants_of self.new.seat.me.0.vm
            ≡ record (grants_of self.old.seat.me.0.vm) { fresh = λ a. false } }
    {
        hand(&mut self.table, &mut self.seat, roots);
        mirror.fresh_from = mirror.end;
    }
}
