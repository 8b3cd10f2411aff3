//! The steps of the mutator's seat, each an event of a run.
ghost use Rattle.std.specs.Prelude.{◌≡◌, ◌<◌, ◌+◌, true, length};
ghost use Rattle.ps_core_machine.specs.declared.events.Event.TheVariants.{VmLoad, ClearStore};
ghost use Rattle.ps_core_machine.specs.declared.events.Event.TheVariants.{HeaderStore, FieldStore};
ghost use Rattle.ps_core_machine.specs.declared.events.Event.TheVariants.{RecordStore, EpochStore};
ghost use Rattle.ps_core_machine.specs.Conditions.{CanClear, VmMay};
ghost use Rattle.ps_core_machine.specs.Objects.{log_of};
ghost use Rattle.ps_core_machine.specs.Steps.{table_size};
ghost use Rattle.ps_core_laws.specs.Shown.{VmRuns};
ghost use Rattle.ps_table.specs.Shown.{VmDoes, VmStores, looked};

use crate::plays::{
    Clears, FindsClear, Makes, OpensCycle, Records, StepNaming, StoresField, View, VmLoads,
};
use crate::words::Words;
use atomic_table::Seat;
use ps_record::slots::Slot;
use ps_record::{Record, ring_place};
use std::marker::Brand;

/// Loads a word.
#[inline]
pub(crate) fn vm_load<W: Words>(words: &mut W, seat: &mut Seat<(), View>, place: u64) -> u64
    requires same { W.seats words.old seat.old
        × ((W.id words.old).words ≡ table_size seat.old.me.0.vm.space) }
    requires acts { seat.old.me.0.acts_vm ≡ true }
    requires may { place < table_size seat.old.me.0.vm.space }
    ensures same { W.seats words.new seat.new × (W.id words.new ≡ W.id words.old) }
    ensures does { VmDoes seat.old.me place result (VmLoad place result) seat.new.me }
{
    words.load::<VmLoads>(seat, place)
}

/// Loads the next word of the object being made, behind the end of what is in use: where it is
/// zero, it is cleared.
#[inline]
pub(crate) fn vm_look<W: Words>(
    words: &mut W,
    seat: &mut Seat<(), View>,
    end: u64,
    making: u64,
) -> u64
    requires same { W.seats words.old seat.old
        × ((W.id words.old).words ≡ table_size seat.old.me.0.vm.space) }
    requires acts { seat.old.me.0.acts_vm ≡ true }
    requires runs { ∥ VmRuns seat.old.me.0.vm ∥₁ }
    requires is { (end ≡ seat.old.me.0.vm.end) × (making ≡ seat.old.me.0.vm.making) }
    requires may { CanClear seat.old.me.0.vm }
    ensures same { W.seats words.new seat.new × (W.id words.new ≡ W.id words.old) }
    ensures does { VmDoes seat.old.me (end + 1 + making) result
        (looked (end + 1 + making) result) seat.new.me }
{
    words.load::<FindsClear>(seat, end + 1 + making)
}

/// Clears the next word of the object being made, behind the end of what is in use.
#[inline]
pub(crate) fn vm_clear<W: Words>(words: &mut W, seat: &mut Seat<(), View>, end: u64, making: u64)
    requires same { W.seats words.old seat.old
        × ((W.id words.old).words ≡ table_size seat.old.me.0.vm.space) }
    requires acts { seat.old.me.0.acts_vm ≡ true }
    requires runs { ∥ VmRuns seat.old.me.0.vm ∥₁ }
    requires is { (end ≡ seat.old.me.0.vm.end) × (making ≡ seat.old.me.0.vm.making) }
    requires may { CanClear seat.old.me.0.vm }
    ensures same { W.seats words.new seat.new × (W.id words.new ≡ W.id words.old) }
    ensures does { VmStores seat.old.me ClearStore seat.new.me }
{
    words.store::<Clears>(seat, end + 1 + making, 0);
}

/// Stores the first header of the object being made.
#[inline]
pub(crate) fn vm_make<W: Words>(words: &mut W, seat: &mut Seat<(), View>, end: u64, header: u64)
    requires same { W.seats words.old seat.old
        × ((W.id words.old).words ≡ table_size seat.old.me.0.vm.space) }
    requires acts { seat.old.me.0.acts_vm ≡ true }
    requires runs { ∥ VmRuns seat.old.me.0.vm ∥₁ }
    requires is { end ≡ seat.old.me.0.vm.end }
    requires may { VmMay seat.old.me.0.vm (HeaderStore header) }
    ensures same { W.seats words.new seat.new × (W.id words.new ≡ W.id words.old) }
    ensures does { VmStores seat.old.me (HeaderStore header) seat.new.me }
{
    words.store::<Makes>(seat, end, header);
}

fn vm_field_named<W: Words, N: StepNaming>(
    words: &mut W,
    seat: &mut Seat<(), View>,
    address: u64,
    field: u64,
    word: u64,
)
    requires named { (N.address ≡ address) × (N.field ≡ field) }
    requires same { W.seats words.old seat.old
        × ((W.id words.old).words ≡ table_size seat.old.me.0.vm.space) }
    requires acts { seat.old.me.0.acts_vm ≡ true }
    requires runs { ∥ VmRuns seat.old.me.0.vm ∥₁ }
    requires may { VmMay seat.old.me.0.vm (FieldStore address field word) }
    ensures same { W.seats words.new seat.new × (W.id words.new ≡ W.id words.old) }
    ensures does { VmStores seat.old.me (FieldStore address field word) seat.new.me }
{
    words.store::<StoresField<N>>(seat, address + 2 + field, word);
}

/// Stores a field of a standing object.
#[inline]
pub(crate) fn vm_field<W: Words>(
    words: &mut W,
    seat: &mut Seat<(), View>,
    address: u64,
    field: u64,
    word: u64,
)
    requires same { W.seats words.old seat.old
        × ((W.id words.old).words ≡ table_size seat.old.me.0.vm.space) }
    requires acts { seat.old.me.0.acts_vm ≡ true }
    requires runs { ∥ VmRuns seat.old.me.0.vm ∥₁ }
    requires may { VmMay seat.old.me.0.vm (FieldStore address field word) }
    ensures same { W.seats words.new seat.new × (W.id words.new ≡ W.id words.old) }
    ensures does { VmStores seat.old.me (FieldStore address field word) seat.new.me }
{
    vm_field_named::<W, Brand>(words, seat, address, field, word);
}

/// Stores a record, which has this number in its slot's log.
#[inline]
pub(crate) fn vm_record<W: Words>(
    words: &mut W,
    seat: &mut Seat<(), View>,
    slot: Slot,
    number: u64,
    what: Record,
)
    requires same { W.seats words.old seat.old
        × ((W.id words.old).words ≡ table_size seat.old.me.0.vm.space) }
    requires acts { seat.old.me.0.acts_vm ≡ true }
    requires is { number ≡ length (log_of seat.old.me.0.vm.logs slot) }
    requires may { VmMay seat.old.me.0.vm (RecordStore slot what) }
    ensures same { W.seats words.new seat.new × (W.id words.new ≡ W.id words.old) }
    ensures does { VmStores seat.old.me (RecordStore slot what) seat.new.me }
{
    words.store::<Records>(seat, ring_place(slot, number), what.pack(number).0);
}

/// Opens a cycle.
#[inline]
pub(crate) fn vm_epoch<W: Words>(words: &mut W, seat: &mut Seat<(), View>, epoch: u64)
    requires same { W.seats words.old seat.old
        × ((W.id words.old).words ≡ table_size seat.old.me.0.vm.space) }
    requires acts { seat.old.me.0.acts_vm ≡ true }
    requires is { epoch ≡ seat.old.me.0.vm.epoch + 1 }
    requires may { VmMay seat.old.me.0.vm EpochStore }
    ensures same { W.seats words.new seat.new × (W.id words.new ≡ W.id words.old) }
    ensures does { VmStores seat.old.me EpochStore seat.new.me }
{
    words.store::<OpensCycle>(seat, 1, epoch);
}
