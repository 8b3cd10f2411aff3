//! Records that are taken from the logs: the fields that they name are copied before.
ghost use Rattle.std.specs.Prelude.{◌≡◌, ◌+◌, ◌<◌, ◌≤◌, ℕ, true, false, None, Some, List, length};
ghost use Rattle.std.specs.Prelude.{slice_index_or};
ghost use Rattle.ps_record.specs.declared.Record.TheVariants.{Place};
ghost use Rattle.ps_core_machine.specs.declared.events.Event.{Event};
ghost use Rattle.ps_core_machine.specs.declared.events.Event.TheVariants.{HeadStore};
ghost use Rattle.ps_core_machine.specs.declared.events.Half.{Half};
ghost use Rattle.ps_core_machine.specs.declared.events.Pair.{Pair};
ghost use Rattle.ps_core_machine.specs.Objects.{pair_of, is_close, is_done};
ghost use Rattle.ps_core_machine.specs.Steps.{knows_open};
ghost use Rattle.ps_table.specs.Events.{gc_did_all};
ghost use Rattle.ps_table.specs.Shown.{gc_did};
ghost use Rattle.ps_gc.specs.Events.{Applied, DrainedOf};
ghost use Rattle.ps_gc.specs.Keeps.{Copies, IsAtField, Takes};

use crate::copies::{Pairing, copy_field};
use crate::replicas::forward_of;
use crate::taken::Taken;
use crate::to_space::ToSpace;
use ps_record::Record;
use ps_record::slots::Slot;
use ps_table::{GcSeat, Words};

/// Copies the fields of an original that the record being taken names.
fn copy_fields<W: Words>(
    gc: &mut GcSeat<W>,
    to: &mut ToSpace,
    pairing: Pairing,
    first: u16,
    count: u16,
)
    requires open { knows_open gc.old.seat.me.0.gc ≡ true }
    requires idle { gc.old.seat.me.0.gc.copying ≡ None }
    requires taking { (h : Half) × (gc.old.seat.me.0.gc.taking ≡ Some h)
        × (h.what ≡ Place pairing.original first count) × (h.loaded ≡ 0) }
    requires is { (p : Pair)
        × (pair_of gc.old.seat.me.0.gc.pairs pairing.original ≡ Some p)
        × (p.replica ≡ pairing.replica) × (p.header ≡ pairing.header)
        × (first + count ≤ length p.fields) }
    requires copies { Copies gc.old.seat.me.0.gc to.old }
    requires field { IsAtField gc.old.seat.me.0.gc to.old }
    ensures applied { Applied gc.old.seat.me.0.gc gc.new.seat.me.0.gc }
    ensures taking { (h : Half) → gc.old.seat.me.0.gc.taking ≡ Some h
        → gc.new.seat.me.0.gc.taking ≡ Some (record h { loaded = count }) }
    ensures did { (es : List Event)
        × (gc.new.seat.me.0 ≡ gc_did_all gc.old.seat.me.0 es) }
    ensures copies { Copies gc.new.seat.me.0.gc to.new }
    ensures field { IsAtField gc.new.seat.me.0.gc to.new }
    ensures same { W.id gc.new.table ≡ W.id gc.old.table }
{
    for k in 0..count {
        copy_field(gc, to, pairing, first as u64 + k as u64, false);
    }
}

/// Copies the fields that the record being taken names, where their object has a replica, so that
/// the record may be taken.
pub(crate) fn apply<W: Words>(
    gc: &mut GcSeat<W>,
    to: &mut ToSpace,
    address: u32,
    first: u16,
    count: u16,
)
    requires open { knows_open gc.old.seat.me.0.gc ≡ true }
    requires idle { gc.old.seat.me.0.gc.copying ≡ None }
    requires taking { (h : Half) × (gc.old.seat.me.0.gc.taking ≡ Some h)
        × (h.what ≡ Place address first count) × (h.loaded ≡ 0) }
    requires copies { Copies gc.old.seat.me.0.gc to.old }
    requires field { IsAtField gc.old.seat.me.0.gc to.old }
    ensures applied { Applied gc.old.seat.me.0.gc gc.new.seat.me.0.gc }
    ensures taking { (h : Half) → gc.old.seat.me.0.gc.taking ≡ Some h
        → (n : ℕ) × (gc.new.seat.me.0.gc.taking ≡ Some (record h { loaded = n })) }
    ensures done { is_done gc.new.seat.me.0.gc.pairs gc.new.seat.me.0.gc.copying
        gc.new.seat.me.0.gc.taking ≡ true }
    ensures did { (es : List Event)
        × (gc.new.seat.me.0 ≡ gc_did_all gc.old.seat.me.0 es) }
    ensures copies { Copies gc.new.seat.me.0.gc to.new }
    ensures field { IsAtField gc.new.seat.me.0.gc to.new }
    ensures same { W.id gc.new.table ≡ W.id gc.old.table }
{
    let second = gc.load(address as u64 + 1);
    match forward_of(second, to.cycle + 1) {
        Some(replica) => {
            let pairing = Pairing {
                original: address as u64,
                replica: replica as u64,
                header: gc.load(replica as u64),
            };
            copy_fields(gc, to, pairing, first, count)
        }
        None => (),
    }
}

/// The record being taken, of which nothing is left to copy, is taken.
fn advance<W: Words>(gc: &mut GcSeat<W>, taken: &mut Taken, slot: Slot, closes: bool)
    requires taking { (h : Half) × (gc.old.seat.me.0.gc.taking ≡ Some h) × (h.slot ≡ slot)
        × (is_close h.what ≡ closes) }
    requires done { is_done gc.old.seat.me.0.gc.pairs gc.old.seat.me.0.gc.copying
        gc.old.seat.me.0.gc.taking ≡ true }
    requires takes { Takes gc.old.seat.me.0.gc taken.old }
    requires left { slice_index_or taken.old.closed slot false ≡ false }
    ensures did { gc.new.seat.me.0 ≡ gc_did gc.old.seat.me.0 HeadStore }
    ensures takes { Takes gc.new.seat.me.0.gc taken.new }
    ensures shut { slice_index_or taken.new.closed slot false ≡ closes }
    ensures same { W.id gc.new.table ≡ W.id gc.old.table }
{
    let number = taken.numbers[slot.index()];
    gc.advance_head(slot, number);
    taken.numbers[slot.index()] = number + 1;
    taken.closed[slot.index()] = closes;
}

/// Takes the record that is being taken; the fields that it names are copied first.
pub(crate) fn take_record<W: Words>(
    gc: &mut GcSeat<W>,
    to: &mut ToSpace,
    taken: &mut Taken,
    slot: Slot,
    what: Record,
)
    requires open { knows_open gc.old.seat.me.0.gc ≡ true }
    requires idle { gc.old.seat.me.0.gc.copying ≡ None }
    requires taking { gc.old.seat.me.0.gc.taking
        ≡ Some (record { slot = slot; what = what; loaded = 0 }) }
    requires copies { Copies gc.old.seat.me.0.gc to.old }
    requires field { IsAtField gc.old.seat.me.0.gc to.old }
    requires takes { Takes gc.old.seat.me.0.gc taken.old }
    requires left { slice_index_or taken.old.closed slot false ≡ false }
    ensures drained { DrainedOf gc.old.seat.me.0.gc gc.new.seat.me.0.gc slot what }
    ensures did { (es : List Event)
        × (gc.new.seat.me.0 ≡ gc_did_all gc.old.seat.me.0 es) }
    ensures copies { Copies gc.new.seat.me.0.gc to.new }
    ensures field { IsAtField gc.new.seat.me.0.gc to.new }
    ensures takes { Takes gc.new.seat.me.0.gc taken.new }
    ensures shut { slice_index_or taken.new.closed slot false ≡ is_close what }
    ensures same { W.id gc.new.table ≡ W.id gc.old.table }
{
    match what {
        Record::Place {
            address,
            first,
            count,
        } => {
            apply(gc, to, address, first, count);
            advance(gc, taken, slot, false)
        }
        Record::Close => advance(gc, taken, slot, true),
    }
}
