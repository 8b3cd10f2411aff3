//! Words stored into the fields of an object, and new objects: several events in a row.
ghost use Rattle.std.specs.Prelude.{◌≡◌, ◌+◌, ◌≤◌, ◌<◌, ℕ, List, true, length};
ghost use Rattle.ps_core_machine.specs.Conditions.{CanClear};
ghost use Rattle.ps_core_machine.specs.Steps.{table_size};
ghost use Rattle.ps_core_laws.specs.Shown.{VmRuns};
ghost use Rattle.ps_core_laws.specs.Stores.{numbers, MayStoreFields, part_made};
ghost use Rattle.ps_core_laws.specs.MemoryLaws.{MayMake};
ghost use Rattle.ps_table.specs.Events.{did_all, field_stores, object_made, word_cleared};

use crate::plays::View;
use crate::steps::{vm_clear, vm_field, vm_look, vm_make};
use crate::words::Words;
use atomic_table::Seat;
use ps_word::words::Word;

/// Stores words into the fields from a place on.
pub(crate) fn vm_fields<W: Words>(
    words: &mut W,
    seat: &mut Seat<(), View>,
    address: u64,
    place: u64,
    items: &[Word],
)
    requires same { W.seats words.old seat.old
        × ((W.id words.old).words ≡ table_size seat.old.me.0.vm.space) }
    requires acts { seat.old.me.0.acts_vm ≡ true }
    requires runs { ∥ VmRuns seat.old.me.0.vm ∥₁ }
    requires may { MayStoreFields seat.old.me.0.vm address place (numbers items.now) }
    requires inside { address + 2 + place + length items.now
        ≤ table_size seat.old.me.0.vm.space }
    ensures same { W.seats words.new seat.new × (W.id words.new ≡ W.id words.old) }
    ensures did { seat.new.me ≡
        (did_all seat.old.me.0 (field_stores address place (numbers items.now)), seat.old.me.1) }
    ensures runs { ∥ VmRuns seat.new.me.0.vm ∥₁ }
{
    let mut at = place;
    for word in items {
        vm_field(words, seat, address, at, word.0);
        at += 1;
    }
}

/// The next word of the object being made is cleared: it is looked at first, for a store that other
/// seats see costs three times a load.
#[inline]
fn vm_zero<W: Words>(words: &mut W, seat: &mut Seat<(), View>, end: u64, making: u64)
    requires same { W.seats words.old seat.old
        × ((W.id words.old).words ≡ table_size seat.old.me.0.vm.space) }
    requires acts { seat.old.me.0.acts_vm ≡ true }
    requires runs { ∥ VmRuns seat.old.me.0.vm ∥₁ }
    requires is { (end ≡ seat.old.me.0.vm.end) × (making ≡ seat.old.me.0.vm.making) }
    requires may { CanClear seat.old.me.0.vm }
    ensures same { W.seats words.new seat.new × (W.id words.new ≡ W.id words.old) }
    ensures did { (found : ℕ) × (seat.new.me ≡
        (did_all seat.old.me.0 (word_cleared (end + 1 + making) found), seat.old.me.1)) }
    ensures part { seat.new.me.0.vm ≡ record seat.old.me.0.vm { making = making + 1 } }
    ensures runs { ∥ VmRuns seat.new.me.0.vm ∥₁ }
{
    if vm_look(words, seat, end, making) != 0 {
        vm_clear(words, seat, end, making);
    }
}

/// Clears the words of a new object behind the end of what is in use, its second header and its
/// fields, and then stores its first header.
pub(crate) fn vm_object<W: Words>(
    words: &mut W,
    seat: &mut Seat<(), View>,
    end: u64,
    fields: u64,
    header: u64,
)
    requires same { W.seats words.old seat.old
        × ((W.id words.old).words ≡ table_size seat.old.me.0.vm.space) }
    requires acts { seat.old.me.0.acts_vm ≡ true }
    requires runs { ∥ VmRuns seat.old.me.0.vm ∥₁ }
    requires is { (end ≡ seat.old.me.0.vm.end) × (seat.old.me.0.vm.making ≡ 0) }
    requires inside { end + 2 + fields ≤ table_size seat.old.me.0.vm.space }
    requires may { MayMake seat.old.me.0.vm header fields }
    ensures same { W.seats words.new seat.new × (W.id words.new ≡ W.id words.old) }
    ensures did { (found : List ℕ) × (length found ≡ fields + 1) × (seat.new.me ≡
        (did_all seat.old.me.0 (object_made end found header), seat.old.me.1)) }
    ensures part { seat.new.me.0.vm ≡ part_made seat.old.me.0.vm header }
    ensures runs { ∥ VmRuns seat.new.me.0.vm ∥₁ }
{
    let mut making = 0;
    while making <= fields {
        vm_zero(words, seat, end, making);
        making += 1;
    }
    vm_make(words, seat, end, header);
}
