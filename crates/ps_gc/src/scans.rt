//! The scan: it fills the fields of the replicas, one after another.
ghost use Rattle.std.specs.Prelude.{◌≡◌, ◌≢◌, ◌+◌, ◌<◌, ◌≤◌, ℕ, Some, List, length};
ghost use Rattle.ps_core_machine.specs.declared.events.Event.{Event};
ghost use Rattle.ps_core_machine.specs.declared.events.Pair.{Pair};
ghost use Rattle.ps_core_machine.specs.Objects.{pair_of};
ghost use Rattle.ps_table.specs.Events.{gc_did_all};
ghost use Rattle.ps_gc.specs.Keeps.{Copies, IsAtField};

use crate::copies::Pairing;
use crate::replicas::forward_of;
use crate::to_space::ToSpace;
use ps_table::{GcSeat, Words};
use ps_word::headers::fields_in;

/// The replica at the scan's place, with its original, as its headers tell.
pub(crate) fn scanned_pairing<W: Words>(gc: &mut GcSeat<W>, to: &ToSpace) -> Pairing
    requires copies { Copies gc.old.seat.me.0.gc to.now }
    requires ahead { to.now.at ≢ to.now.end }
    ensures is { (p : Pair)
        × (pair_of gc.old.seat.me.0.gc.pairs result.original ≡ Some p)
        × (p.replica ≡ result.replica) × (p.header ≡ result.header) }
    ensures at { result.replica ≡ to.now.at }
    ensures did { (es : List Event)
        × (gc.new.seat.me.0 ≡ gc_did_all gc.old.seat.me.0 es) }
    ensures part { gc.new.seat.me.0.gc ≡ gc.old.seat.me.0.gc }
    ensures same { W.id gc.new.table ≡ W.id gc.old.table }
{
    let header = gc.load(to.at);
    let back = gc.load(to.at + 1);
    let original = forward_of(back, to.cycle + 1).unwrap_or(0) as u64;
    Pairing {
        original,
        replica: to.at,
        header,
    }
}

/// Where all fields of the replica at the scan's place, which has so many, are filled, the place
/// moves on to the next field that isn't.
pub(crate) fn scan_on<W: Words>(gc: &mut GcSeat<W>, to: &mut ToSpace, count: u64)
    requires copies { Copies gc.old.seat.me.0.gc to.old }
    requires is { (a : ℕ) (p : Pair) → pair_of gc.old.seat.me.0.gc.pairs a ≡ Some p
        → p.replica ≡ to.old.at → length p.fields ≡ count }
    ensures copies { Copies gc.new.seat.me.0.gc to.new }
    ensures field { IsAtField gc.new.seat.me.0.gc to.new }
    ensures did { (es : List Event)
        × (gc.new.seat.me.0 ≡ gc_did_all gc.old.seat.me.0 es) }
    ensures part { gc.new.seat.me.0.gc ≡ gc.old.seat.me.0.gc }
    ensures onward { to.old.at + to.old.field ≤ to.new.at + to.new.field }
    ensures same { W.id gc.new.table ≡ W.id gc.old.table }
{
    let mut count = count;
    'passed: while to.at < to.end && to.field == count {
        to.at += 2 + count;
        to.field = 0;
        if to.at < to.end {
            count = fields_in(gc.load(to.at));
        }
    }
}
