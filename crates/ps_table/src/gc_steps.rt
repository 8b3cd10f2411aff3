//! The steps of the collector's seat whose events its operands don't name.
ghost use Rattle.std.specs.Prelude.{◌≡◌, ◌<◌, ◌+◌, true, Some};
ghost use Rattle.ps_core_machine.specs.declared.events.Carried.{Carried};
ghost use Rattle.ps_core_machine.specs.declared.events.Event.TheVariants.{CopyLoad};
ghost use Rattle.ps_core_machine.specs.declared.events.Event.TheVariants.{ReplicaFieldStore};
ghost use Rattle.ps_core_machine.specs.Conditions.{GcMay};
ghost use Rattle.ps_core_machine.specs.Objects.{pair_of};
ghost use Rattle.ps_core_machine.specs.Steps.{table_size, replica_of, word_stored};
ghost use Rattle.ps_table.specs.Shown.{GcRuns, GcDoes, GcStores};

use crate::plays::{CopiesField, StepNaming, StoresCopy, View};
use crate::words::Words;
use atomic_table::Seat;
use std::marker::Brand;

fn gc_copy_named<W: Words, N: StepNaming>(
    words: &mut W,
    seat: &mut Seat<(), View>,
    original: u64,
    field: u64,
) -> u64
    requires named { (N.address ≡ original) × (N.field ≡ field) }
    requires same { W.seats words.old seat.old
        × ((W.id words.old).words ≡ table_size seat.old.me.0.gc.space) }
    requires acts { seat.old.me.0.acts_gc ≡ true }
    requires runs { ∥ GcRuns seat.old.me.0.gc ∥₁ }
    requires may { GcMay seat.old.me.0.gc (CopyLoad original field 0) }
    ensures same { W.seats words.new seat.new × (W.id words.new ≡ W.id words.old) }
    ensures does { GcDoes seat.old.me (original + 2 + field) result
        (CopyLoad original field result) seat.new.me }
{
    words.load::<CopiesField<N>>(seat, original + 2 + field)
}

/// Loads a field of an original, to copy it.
#[inline]
pub(crate) fn gc_copy<W: Words>(
    words: &mut W,
    seat: &mut Seat<(), View>,
    original: u64,
    field: u64,
) -> u64
    requires same { W.seats words.old seat.old
        × ((W.id words.old).words ≡ table_size seat.old.me.0.gc.space) }
    requires acts { seat.old.me.0.acts_gc ≡ true }
    requires runs { ∥ GcRuns seat.old.me.0.gc ∥₁ }
    requires may { GcMay seat.old.me.0.gc (CopyLoad original field 0) }
    ensures same { W.seats words.new seat.new × (W.id words.new ≡ W.id words.old) }
    ensures does { GcDoes seat.old.me (original + 2 + field) result
        (CopyLoad original field result) seat.new.me }
{
    gc_copy_named::<W, Brand>(words, seat, original, field)
}

fn gc_fill_named<W: Words, N: StepNaming>(
    words: &mut W,
    seat: &mut Seat<(), View>,
    replica: u64,
    field: u64,
    word: u64,
    scans: bool,
)
    requires named { N.scans ≡ scans }
    requires same { W.seats words.old seat.old
        × ((W.id words.old).words ≡ table_size seat.old.me.0.gc.space) }
    requires acts { seat.old.me.0.acts_gc ≡ true }
    requires runs { ∥ GcRuns seat.old.me.0.gc ∥₁ }
    requires is { (k : Carried) × (seat.old.me.0.gc.copying ≡ Some k)
        × (replica ≡ replica_of (pair_of seat.old.me.0.gc.pairs k.address))
        × (field ≡ k.field) × (word ≡ word_stored seat.old.me.0.gc k) }
    requires may { GcMay seat.old.me.0.gc (ReplicaFieldStore scans) }
    ensures same { W.seats words.new seat.new × (W.id words.new ≡ W.id words.old) }
    ensures does { GcStores seat.old.me (ReplicaFieldStore scans) seat.new.me }
{
    words.store::<StoresCopy<N>>(seat, replica + 2 + field, word);
}

/// Stores the word being copied, renamed, to its field of the replica.
#[inline]
pub(crate) fn gc_fill<W: Words>(
    words: &mut W,
    seat: &mut Seat<(), View>,
    replica: u64,
    field: u64,
    word: u64,
    scans: bool,
)
    requires same { W.seats words.old seat.old
        × ((W.id words.old).words ≡ table_size seat.old.me.0.gc.space) }
    requires acts { seat.old.me.0.acts_gc ≡ true }
    requires runs { ∥ GcRuns seat.old.me.0.gc ∥₁ }
    requires is { (k : Carried) × (seat.old.me.0.gc.copying ≡ Some k)
        × (replica ≡ replica_of (pair_of seat.old.me.0.gc.pairs k.address))
        × (field ≡ k.field) × (word ≡ word_stored seat.old.me.0.gc k) }
    requires may { GcMay seat.old.me.0.gc (ReplicaFieldStore scans) }
    ensures same { W.seats words.new seat.new × (W.id words.new ≡ W.id words.old) }
    ensures does { GcStores seat.old.me (ReplicaFieldStore scans) seat.new.me }
{
    gc_fill_named::<W, Brand>(words, seat, replica, field, word, scans);
}
