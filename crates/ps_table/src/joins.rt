//! The two seats joined, and apart again.
ghost use Rattle.std.specs.Prelude.{◌≡◌, ◌<◌, true, []};
ghost use Rattle.ps_core_machine.specs.declared.events.Event.TheVariants.{HandOver};
ghost use Rattle.ps_core_machine.specs.Objects.{values_stand};
ghost use Rattle.ps_core_machine.specs.Steps.{table_size};
ghost use Rattle.ps_core_laws.specs.Stores.{numbers};
ghost use Rattle.ps_table.specs.Shown.{BothDo, BothLook, both_sides, vm_side, gc_side};

use crate::plays::{HandsOver, Looks, Parts, Spares, StepNaming, View};
use crate::words::{SharedTable, Words};
use atomic_table::Seat;
use ps_word::words::Word;
use std::marker::Brand;
use std::mem;

/// The mutator's part goes to the collector's seat, and an empty seat stands in its place.
pub fn join(words: &SharedTable, vm: &mut Seat<(), View>, gc: &mut Seat<(), View>)
    requires same { (vm.old.table_id ≡ words.now.shared.table_id)
        × (gc.old.table_id ≡ words.now.shared.table_id)
        × (words.now.shared.table_id.words ≡ table_size vm.old.me.0.vm.space) }
    requires acts { (vm.old.me.0.acts_vm ≡ true) × (gc.old.me.0.acts_gc ≡ true)
        × (gc.old.me.1 ≡ []) }
    ensures same { (vm.new.table_id ≡ vm.old.table_id) × (gc.new.table_id ≡ vm.old.table_id) }
    ensures joined { gc.new.me ≡ (both_sides vm.old.me.0 gc.old.me.0, vm.old.me.1) }
{
    let spare = words.shared.split_seat::<Spares>(vm);
    let other = mem::replace(gc, spare);
    words.shared.join_seat::<Parts>(vm, other);
    mem::swap(vm, gc);
}

/// The mutator's part goes back.
pub fn part(words: &SharedTable, vm: &mut Seat<(), View>, gc: &mut Seat<(), View>)
    requires same { (gc.old.table_id ≡ words.now.shared.table_id)
        × (words.now.shared.table_id.words ≡ table_size gc.old.me.0.vm.space) }
    requires acts { (gc.old.me.0.acts_vm ≡ true) × (gc.old.me.0.acts_gc ≡ true) }
    ensures same { (vm.new.table_id ≡ gc.old.table_id) × (gc.new.table_id ≡ gc.old.table_id) }
    ensures vm { vm.new.me ≡ (vm_side gc.old.me.0, gc.old.me.1) }
    ensures gc { gc.new.me ≡ (gc_side gc.old.me.0, []) }
{
    mem::swap(vm, gc);
    *gc = words.shared.split_seat::<Parts>(vm);
}

fn hand_named<W: Words, N: StepNaming>(
    words: &mut W,
    seat: &mut Seat<(), View>,
    roots: &[Word],
) -> u64
    requires named { N.roots ≡ numbers roots.now }
    requires same { W.seats words.old seat.old
        × ((W.id words.old).words ≡ table_size seat.old.me.0.vm.space) }
    requires acts { (seat.old.me.0.acts_vm ≡ true) × (seat.old.me.0.acts_gc ≡ true) }
    requires may { values_stand seat.old.me.0.vm.objects (numbers roots.now) ≡ true }
    ensures same { W.seats words.new seat.new × (W.id words.new ≡ W.id words.old) }
    ensures does { BothDo seat.old.me (HandOver result (numbers roots.now)) seat.new.me }
{
    words.load::<HandsOver<N>>(seat, 0)
}

/// Loads the cycle word with the roots, by both seats joined.
pub(crate) fn hand<W: Words>(words: &mut W, seat: &mut Seat<(), View>, roots: &[Word]) -> u64
    requires same { W.seats words.old seat.old
        × ((W.id words.old).words ≡ table_size seat.old.me.0.vm.space) }
    requires acts { (seat.old.me.0.acts_vm ≡ true) × (seat.old.me.0.acts_gc ≡ true) }
    requires may { values_stand seat.old.me.0.vm.objects (numbers roots.now) ≡ true }
    ensures same { W.seats words.new seat.new × (W.id words.new ≡ W.id words.old) }
    ensures does { BothDo seat.old.me (HandOver result (numbers roots.now)) seat.new.me }
{
    hand_named::<W, Brand>(words, seat, roots)
}

/// Loads a word that is no head, by both seats joined, as an event of the mutator's.
pub(crate) fn look<W: Words>(words: &mut W, seat: &mut Seat<(), View>, place: u64) -> u64
    requires same { W.seats words.old seat.old
        × ((W.id words.old).words ≡ table_size seat.old.me.0.vm.space) }
    requires acts { (seat.old.me.0.acts_vm ≡ true) × (seat.old.me.0.acts_gc ≡ true) }
    requires inside { place < table_size seat.old.me.0.vm.space }
    ensures same { W.seats words.new seat.new × (W.id words.new ≡ W.id words.old) }
    ensures does { BothLook seat.old.me place result seat.new.me }
{
    words.load::<Looks>(seat, place)
}
