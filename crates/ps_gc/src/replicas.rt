//! Replicas: an original is led to its replica, which is made where there is none.
ghost use Rattle.std.specs.Prelude.{◌≡◌, ◌==◌, ◌+◌, ◌<◌, ◌^◌, ℕ, true, None, Some, if◌then◌else◌};
ghost use Rattle.ps_word.specs.Headers.{cycle_in, forward_address_in};
ghost use Rattle.ps_core_machine.specs.declared.events.Pair.{Pair};
ghost use Rattle.ps_core_machine.specs.Objects.{among, pair_of, renamed_value, value_has_replica};
ghost use Rattle.ps_core_machine.specs.Steps.{knows_open};
ghost use Rattle.ps_table.specs.Events.{gc_did_all};
ghost use Rattle.ps_gc.specs.Events.{replica_made, object_replicated, word_replicated};
ghost use Rattle.ps_gc.specs.Events.{with_replica, Adds, IsKnown};
ghost use Rattle.ps_gc.specs.Keeps.{Copies, IsAtField, GoesOn, Stays};

use crate::to_space::ToSpace;
use ps_table::{GcSeat, Words};
use ps_word::headers::{Forward, fields_in};
use ps_word::words::Word;

/// The address in a forwarding word of this cycle.
pub(crate) fn forward_of(second: u64, cycle: u32) -> Option<u32>
    ensures { result ≡ (if cycle_in second == cycle then Some (forward_address_in second)
        else None) }
{
    match Forward::unpack(Word(second)) {
        Some(forward) => {
            if forward.cycle == cycle {
                Some(forward.address)
            } else {
                None
            }
        }
        None => None,
    }
}

/// A replica with so many fields is made at the end; the scan goes past it where it has none.
fn add_replica(to: &mut ToSpace, count: u64)
    requires { to.old.end + 2 + count < 2 ^ 64 }
    ensures { GoesOn to.old to.new count }
{
    let end = to.end + 2 + count;
    if to.at == to.end && count == 0 {
        to.at = end;
    }
    to.end = end;
}

/// Makes the replica of an object that has none, behind the others, and answers its address.
fn make_replica<W: Words>(gc: &mut GcSeat<W>, to: &mut ToSpace, original: u64) -> u64
    requires open { knows_open gc.old.seat.me.0.gc ≡ true }
    requires known { among gc.old.seat.me.0.gc.known original ≡ true }
    requires single { pair_of gc.old.seat.me.0.gc.pairs original ≡ None }
    requires copies { Copies gc.old.seat.me.0.gc to.old }
    requires field { IsAtField gc.old.seat.me.0.gc to.old }
    ensures at { result ≡ to.old.end }
    ensures did { (header : ℕ) × (gc.new.seat.me.0 ≡ gc_did_all gc.old.seat.me.0
        (replica_made gc.old.seat.me.0.gc original header))
        × (gc.new.seat.me.0.gc ≡ with_replica gc.old.seat.me.0.gc original header) }
    ensures copies { Copies gc.new.seat.me.0.gc to.new }
    ensures field { IsAtField gc.new.seat.me.0.gc to.new }
    ensures place { Stays to.old to.new }
    ensures same { W.id gc.new.table ≡ W.id gc.old.table }
{
    let header = gc.load(original);
    let replica = to.end;
    let cycle = to.cycle + 1;
    let back = Forward {
        cycle,
        address: original as u32,
    };
    gc.store_to(replica, header);
    gc.store_to(replica + 1, back.pack().0);
    gc.forward(original, replica, cycle as u64);
    add_replica(to, fields_in(header));
    replica
}

/// The address of the replica of an object that was named in this cycle.
fn find_replica<W: Words>(gc: &mut GcSeat<W>, to: &mut ToSpace, original: u64) -> u64
    requires open { knows_open gc.old.seat.me.0.gc ≡ true }
    requires known { among gc.old.seat.me.0.gc.known original ≡ true }
    requires copies { Copies gc.old.seat.me.0.gc to.old }
    requires field { IsAtField gc.old.seat.me.0.gc to.old }
    ensures at { (p : Pair) × (pair_of gc.new.seat.me.0.gc.pairs original ≡ Some p)
        × (result ≡ p.replica) × (result < 2 ^ 24) }
    ensures did { (second header : ℕ) × (gc.new.seat.me.0 ≡ gc_did_all gc.old.seat.me.0
        (object_replicated gc.old.seat.me.0.gc original second header)) }
    ensures adds { Adds gc.old.seat.me.0.gc gc.new.seat.me.0.gc }
    ensures copies { Copies gc.new.seat.me.0.gc to.new }
    ensures field { IsAtField gc.new.seat.me.0.gc to.new }
    ensures place { Stays to.old to.new }
    ensures same { W.id gc.new.table ≡ W.id gc.old.table }
{
    let second = gc.load(original + 1);
    match forward_of(second, to.cycle + 1) {
        Some(replica) => replica as u64,
        None => make_replica(gc, to, original),
    }
}

/// The word, naming the replica of what it names; a word that is no reference stays.
pub(crate) fn replicate<W: Words>(gc: &mut GcSeat<W>, to: &mut ToSpace, word: Word) -> Word
    requires open { knows_open gc.old.seat.me.0.gc ≡ true }
    requires known { IsKnown gc.old.seat.me.0.gc word.0 }
    requires copies { Copies gc.old.seat.me.0.gc to.old }
    requires field { IsAtField gc.old.seat.me.0.gc to.old }
    ensures renamed { result.0 ≡ renamed_value gc.new.seat.me.0.gc.pairs word.0 }
    ensures stands { value_has_replica gc.new.seat.me.0.gc.pairs word.0 ≡ true }
    ensures did { (second header : ℕ) × (gc.new.seat.me.0 ≡ gc_did_all gc.old.seat.me.0
        (word_replicated gc.old.seat.me.0.gc word.0 second header)) }
    ensures adds { Adds gc.old.seat.me.0.gc gc.new.seat.me.0.gc }
    ensures copies { Copies gc.new.seat.me.0.gc to.new }
    ensures field { IsAtField gc.new.seat.me.0.gc to.new }
    ensures place { Stays to.old to.new }
    ensures same { W.id gc.new.table ≡ W.id gc.old.table }
{
    if !word.is_reference() {
        return word;
    }
    let replica = find_replica(gc, to, word.low_address() as u64);
    word.readdressed(replica as u32)
}
