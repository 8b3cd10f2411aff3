//! Fields of originals that are copied to their replicas.
ghost use Rattle.std.specs.Prelude.{◌≡◌, ◌+◌, ◌<◌, true, false, None, Some, List, length};
ghost use Rattle.ps_core_machine.specs.declared.events.Event.{Event};
ghost use Rattle.ps_core_machine.specs.declared.events.Pair.{Pair};
ghost use Rattle.ps_core_machine.specs.Objects as objects;
ghost use Rattle.ps_core_machine.specs.Objects.{pair_of, renamed, word_has_replica};
ghost use Rattle.ps_core_machine.specs.Steps.{knows_open};
ghost use Rattle.ps_table.specs.Events.{gc_did_all};
ghost use Rattle.ps_gc.specs.Events.{Copied, Adds, IsKnown};
ghost use Rattle.ps_gc.specs.Keeps.{Copies, IsAtField, Stays};

use crate::replicas::replicate;
use crate::to_space::ToSpace;
use ps_table::{GcSeat, Words};
use ps_word::headers::kind_in;
use ps_word::words::Word;

/// An original and its replica, with the first header of both.
#[derive(Clone, Copy)]
pub(crate) struct Pairing {
    pub(crate) original: u64,
    pub(crate) replica: u64,
    pub(crate) header: u64,
}

/// Whether the words of an object with this first header are values, and no string.
fn holds_values(header: u64) -> bool
    ensures { result ≡ objects.holds_values header }
{
    kind_in(header) != 7
}

/// The word as the replica of an object with this first header gets it; what it names gets a
/// replica.
fn lead<W: Words>(gc: &mut GcSeat<W>, to: &mut ToSpace, header: u64, word: u64) -> u64
    requires open { knows_open gc.old.seat.me.0.gc ≡ true }
    requires known { objects.holds_values header ≡ true → IsKnown gc.old.seat.me.0.gc word }
    requires copies { Copies gc.old.seat.me.0.gc to.old }
    requires field { IsAtField gc.old.seat.me.0.gc to.old }
    ensures word { result ≡ renamed gc.new.seat.me.0.gc.pairs header word }
    ensures has { word_has_replica gc.new.seat.me.0.gc.pairs header word ≡ true }
    ensures did { (es : List Event)
        × (gc.new.seat.me.0 ≡ gc_did_all gc.old.seat.me.0 es) }
    ensures adds { Adds gc.old.seat.me.0.gc gc.new.seat.me.0.gc }
    ensures copies { Copies gc.new.seat.me.0.gc to.new }
    ensures field { IsAtField gc.new.seat.me.0.gc to.new }
    ensures place { Stays to.old to.new }
    ensures same { W.id gc.new.table ≡ W.id gc.old.table }
{
    if holds_values(header) {
        replicate(gc, to, Word(word)).0
    } else {
        word
    }
}

/// Copies a field of an original to its replica; what it names gets a replica. The scan's copy
/// fills the field at the scan's place, which moves on by it.
pub(crate) fn copy_field<W: Words>(
    gc: &mut GcSeat<W>,
    to: &mut ToSpace,
    pairing: Pairing,
    field: u64,
    scans: bool,
)
    requires open { knows_open gc.old.seat.me.0.gc ≡ true }
    requires idle { gc.old.seat.me.0.gc.copying ≡ None }
    requires is { (p : Pair)
        × (pair_of gc.old.seat.me.0.gc.pairs pairing.original ≡ Some p)
        × (p.replica ≡ pairing.replica) × (p.header ≡ pairing.header)
        × (field < length p.fields) }
    requires place { scans ≡ true → (pairing.replica ≡ to.old.at) × (field ≡ to.old.field) }
    requires copies { Copies gc.old.seat.me.0.gc to.old }
    requires field { IsAtField gc.old.seat.me.0.gc to.old }
    ensures copied { Copied gc.old.seat.me.0.gc gc.new.seat.me.0.gc pairing.original field
        scans }
    ensures did { (es : List Event)
        × (gc.new.seat.me.0 ≡ gc_did_all gc.old.seat.me.0 es) }
    ensures copies { Copies gc.new.seat.me.0.gc to.new }
    ensures at { scans ≡ true → (to.new.at ≡ to.old.at) × (to.new.field ≡ field + 1) }
    ensures field { scans ≡ false → IsAtField gc.new.seat.me.0.gc to.new }
    ensures same { W.id gc.new.table ≡ W.id gc.old.table }
{
    let word = gc.copy_field(pairing.original, field);
    let copy = lead(gc, to, pairing.header, word);
    gc.store_field(pairing.replica, field, copy, scans);
    if scans {
        to.field += 1;
    }
}
