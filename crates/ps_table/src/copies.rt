//! Words copied from the fields of one object to those of another or of the same, one by one.
ghost use Rattle.std.specs.Prelude.{◌≡◌, ◌+◌, ◌≤◌, true};
ghost use Rattle.ps_core_machine.specs.Steps.{table_size};
ghost use Rattle.ps_core_laws.specs.Shown.{VmRuns};
ghost use Rattle.ps_core_laws.specs.Stores.{numbers, fields_stored};
ghost use Rattle.ps_core_laws.specs.MemoryLaws.{CanCopy, words_copied};
ghost use Rattle.ps_table.specs.Mirrored.{KeepsGc};

use crate::plays::View;
use crate::steps::{vm_field, vm_load};
use crate::words::Words;
use atomic_table::Seat;
use ps_mem::FieldAt;

/// In rising order, where the target isn't behind the source in one object.
fn vm_copy_rising<W: Words>(
    words: &mut W,
    seat: &mut Seat<(), View>,
    from: FieldAt,
    to: FieldAt,
    count: u64,
)
    requires same { W.seats words.old seat.old
        × ((W.id words.old).words ≡ table_size seat.old.me.0.vm.space) }
    requires acts { seat.old.me.0.acts_vm ≡ true }
    requires runs { ∥ VmRuns seat.old.me.0.vm ∥₁ }
    requires can { CanCopy seat.old.me.0.vm from.address from.place to.address to.place count }
    requires order { from.address ≡ to.address → to.place ≤ from.place }
    ensures same { W.seats words.new seat.new × (W.id words.new ≡ W.id words.old)
        × (seat.new.me.1 ≡ seat.old.me.1) }
    ensures acts { seat.new.me.0.acts_vm ≡ true }
    ensures gc { KeepsGc seat.old.me.0 seat.new.me.0 }
    ensures runs { ∥ VmRuns seat.new.me.0.vm ∥₁ }
    ensures part { seat.new.me.0.vm ≡ fields_stored seat.old.me.0.vm to.address to.place
        (numbers (words_copied seat.old.me.0.vm from.address from.place count)) }
{
    let mut done = 0;
    while done < count {
        let word = vm_load(
            words,
            seat,
            from.address as u64 + 2 + (from.place as u64 + done),
        );
        vm_field(words, seat, to.address as u64, to.place as u64 + done, word);
        done += 1;
    }
}

/// In falling order, where the target isn't before the source in one object.
fn vm_copy_falling<W: Words>(
    words: &mut W,
    seat: &mut Seat<(), View>,
    from: FieldAt,
    to: FieldAt,
    count: u64,
)
    requires same { W.seats words.old seat.old
        × ((W.id words.old).words ≡ table_size seat.old.me.0.vm.space) }
    requires acts { seat.old.me.0.acts_vm ≡ true }
    requires runs { ∥ VmRuns seat.old.me.0.vm ∥₁ }
    requires can { CanCopy seat.old.me.0.vm from.address from.place to.address to.place count }
    requires order { from.address ≡ to.address → from.place ≤ to.place }
    ensures same { W.seats words.new seat.new × (W.id words.new ≡ W.id words.old)
        × (seat.new.me.1 ≡ seat.old.me.1) }
    ensures acts { seat.new.me.0.acts_vm ≡ true }
    ensures gc { KeepsGc seat.old.me.0 seat.new.me.0 }
    ensures runs { ∥ VmRuns seat.new.me.0.vm ∥₁ }
    ensures part { seat.new.me.0.vm ≡ fields_stored seat.old.me.0.vm to.address to.place
        (numbers (words_copied seat.old.me.0.vm from.address from.place count)) }
{
    let mut left = count;
    while left > 0 {
        left -= 1;
        let word = vm_load(
            words,
            seat,
            from.address as u64 + 2 + (from.place as u64 + left),
        );
        vm_field(words, seat, to.address as u64, to.place as u64 + left, word);
    }
}

/// Copies so many words, as if all were read before any was written.
pub(crate) fn vm_copy<W: Words>(
    words: &mut W,
    seat: &mut Seat<(), View>,
    from: FieldAt,
    to: FieldAt,
    count: u64,
)
    requires same { W.seats words.old seat.old
        × ((W.id words.old).words ≡ table_size seat.old.me.0.vm.space) }
    requires acts { seat.old.me.0.acts_vm ≡ true }
    requires runs { ∥ VmRuns seat.old.me.0.vm ∥₁ }
    requires can { CanCopy seat.old.me.0.vm from.address from.place to.address to.place count }
    ensures same { W.seats words.new seat.new × (W.id words.new ≡ W.id words.old)
        × (seat.new.me.1 ≡ seat.old.me.1) }
    ensures acts { seat.new.me.0.acts_vm ≡ true }
    ensures gc { KeepsGc seat.old.me.0 seat.new.me.0 }
    ensures runs { ∥ VmRuns seat.new.me.0.vm ∥₁ }
    ensures part { seat.new.me.0.vm ≡ fields_stored seat.old.me.0.vm to.address to.place
        (numbers (words_copied seat.old.me.0.vm from.address from.place count)) }
{
    if to.place <= from.place {
        vm_copy_rising(words, seat, from, to, count);
    } else {
        vm_copy_falling(words, seat, from, to, count);
    }
}
