//! The collector.
//!
//! Between two calls its part is that of some run of the machine; nothing is half taken or being
//! copied; and its numbers are the part's (`Copies`, `Takes`).
ghost use Rattle.std.specs.Prelude.{◌≡◌, ◌<◌, ◌+◌, ℕ, true, false, not, None, Some, List, length};
ghost use Rattle.std.specs.Prelude.{slice_index_or};
ghost use Rattle.ps_core_machine.specs.declared.events.Event.{Event};
ghost use Rattle.ps_core_machine.specs.declared.events.Event.TheVariants.{GcLoad, ReplicaHeaderStore};
ghost use Rattle.ps_core_machine.specs.declared.events.Pair.{Pair};
ghost use Rattle.ps_core_machine.specs.Objects.{pair_of, log_of, closes, is_close, all_filled};
ghost use Rattle.ps_core_machine.specs.Objects.{renamed_value, value_has_replica};
ghost use Rattle.ps_core_machine.specs.Objects.{values_have_replicas};
ghost use Rattle.ps_core_machine.specs.Steps.{start, knows_open};
ghost use Rattle.ps_core_laws.specs.Kept.{ends_closed};
ghost use Rattle.ps_core_laws.specs.Runs.{IsSpace};
ghost use Rattle.ps_core_laws.specs.Stores.{numbers};
ghost use Rattle.ps_table.specs.Events.{gc_did_all};
ghost use Rattle.ps_table.specs.Shown.{gc_did};
ghost use Rattle.ps_gc.specs.Events.{word_replicated, Adds, IsKnown, AreKnown, Copied, DrainedOf};
ghost use Rattle.ps_gc.specs.Events.{is_drained, FindsNothing, is_free, other_word};
ghost use Rattle.ps_record.specs.Format.{slots};
ghost use Rattle.ps_record.specs.declared.Record.{Record};
ghost use Rattle.ps_gc.specs.Ending.{FindsNext, Scans};
ghost use Rattle.ps_gc.specs.Keeps.{Copies, GoesOnward, IsAtField, Takes};

use crate::copies::copy_field;
use crate::drains::take_record;
use crate::replicas::replicate;
use crate::scans::{scan_on, scanned_pairing};
use crate::taken::Taken;
use crate::to_space::ToSpace;
use ps_record::slots::Slot;
use ps_record::{PackedRecord, Record, SLOTS, SPACES_START};
use ps_table::{GcSeat, SharedWords, Words};
use ps_word::headers::fields_in;
use ps_word::words::Word;

/// Of so many actions of a collector one looks at a log, and the others scan.
pub const ACTIONS_A_LOOK: u32 = 8;

/// What a look at a log came to.
#[derive(Clone, Copy, Debug, PartialEq, Eq)]
pub enum Drained {
    /// The slot's next record isn't there yet.
    Nothing,
    /// This record was taken, which is no close.
    Took(Record),
    /// The log's close of the open cycle was taken, now or before: it is the last that was taken.
    Closed,
}

/// The collector: it copies what the program can reach, while the program runs.
#[derive(Drop)]
pub struct Collector<W: Words = SharedWords> {
    /// The collector's seat at the table.
    pub gc: GcSeat<W>,
    pub(crate) to: ToSpace,
    pub(crate) taken: Taken,
    ghost copies: { Copies gc.seat.me.0.gc to },
    ghost field: { IsAtField gc.seat.me.0.gc to },
    ghost takes: { Takes gc.seat.me.0.gc taken },
    ghost idle: { (gc.seat.me.0.gc.taking ≡ None) × (gc.seat.me.0.gc.copying ≡ None) },
}

impl<W: Words> Collector<W> {
    /// A collector at the seat of a new table, over spaces of so many words each.
    pub fn new(gc: GcSeat<W>, space: u32) -> Collector<W>
        requires size { IsSpace space }
        requires start { gc.seat.me.0.gc ≡ (start space).gc }
        ensures { result.gc ≡ gc }
    {
        let space = space as u64;
        let low = SPACES_START + space;
        let to = ToSpace {
            space,
            cycle: 0,
            end: low,
            at: low,
            field: 0,
        };
        let taken = Taken {
            numbers: [0; SLOTS as usize],
            closed: [false; SLOTS as usize],
        };
        Collector { gc, to, taken }
    }

    /// Whether a cycle is open: its number is kept.
    pub fn begin_cycle(&mut self) -> bool
        ensures did { (cycle epoch : ℕ) × (self.new.gc.seat.me.0 ≡ gc_did
            (gc_did self.old.gc.seat.me.0 (GcLoad 0 cycle)) (GcLoad 1 epoch)) }
        ensures answer { result ≡ knows_open self.new.gc.seat.me.0.gc }
        ensures same { W.id self.new.gc.table ≡ W.id self.old.gc.table }
    {
        self.gc.begin_cycle()
    }

    /// How many cycles were flipped.
    pub fn flips(&self) -> u32
        ensures { result ≡ self.now.gc.seat.me.0.gc.cycle }
    {
        self.to.cycle
    }

    /// How many records of a slot's log were taken.
    pub fn taken(&self, slot: Slot) -> u64
        ensures { result ≡ length (log_of self.now.gc.seat.me.0.gc.taken slot) }
    {
        self.taken.numbers[slot.index()]
    }

    /// The word, naming the replica of what it names, which is made where there is none. A word
    /// that is no reference stays.
    pub fn replicate(&mut self, word: Word) -> Word
        requires open { knows_open self.old.gc.seat.me.0.gc ≡ true }
        requires known { IsKnown self.old.gc.seat.me.0.gc word.0 }
        ensures renamed { result.0 ≡ renamed_value self.new.gc.seat.me.0.gc.pairs word.0 }
        ensures stands { value_has_replica self.new.gc.seat.me.0.gc.pairs word.0 ≡ true }
        ensures did { (second header : ℕ) × (self.new.gc.seat.me.0
            ≡ gc_did_all self.old.gc.seat.me.0
            (word_replicated self.old.gc.seat.me.0.gc word.0 second header)) }
        ensures adds { Adds self.old.gc.seat.me.0.gc self.new.gc.seat.me.0.gc }
        ensures same { W.id self.new.gc.table ≡ W.id self.old.gc.table }
    {
        replicate(&mut self.gc, &mut self.to, word)
    }

    /// Each root that is a reference gets a replica of what it names, where there is none.
    pub fn add_roots(&mut self, roots: &[Word])
        requires open { knows_open self.old.gc.seat.me.0.gc ≡ true }
        requires known { AreKnown self.old.gc.seat.me.0.gc (numbers roots.now) }
        ensures stand { values_have_replicas self.new.gc.seat.me.0.gc.pairs (numbers roots.now)
            ≡ true }
        ensures adds { Adds self.old.gc.seat.me.0.gc self.new.gc.seat.me.0.gc }
        ensures did { (es : List Event) × (self.new.gc.seat.me.0
            ≡ gc_did_all self.old.gc.seat.me.0 es) }
        ensures same { W.id self.new.gc.table ≡ W.id self.old.gc.table }
    {
        for root in roots {
            self.replicate(*root);
        }
    }

    /// Copies the next field that isn't filled yet, and fills it; what it names gets a replica.
    /// False: no field is unfilled, and nothing changed.
    pub fn scan_one(&mut self) -> bool
        requires open { knows_open self.old.gc.seat.me.0.gc ≡ true }
        ensures answer { result ≡ not (all_filled self.old.gc.seat.me.0.gc.pairs) }
        ensures filled { result ≡ true → (a i : ℕ) × (p : Pair)
            × (pair_of self.old.gc.seat.me.0.gc.pairs a ≡ Some p)
            × (slice_index_or p.filled i false ≡ false)
            × Copied self.old.gc.seat.me.0.gc self.new.gc.seat.me.0.gc a i true }
        ensures none { result ≡ false → self.new ≡ self.old }
        ensures onward { result ≡ true → GoesOnward self.old.to self.new.to }
        ensures cycle { (self.new.gc.seat.me.0.gc.cycle ≡ self.old.gc.seat.me.0.gc.cycle)
            × (self.new.gc.seat.me.0.gc.epoch ≡ self.old.gc.seat.me.0.gc.epoch) }
        ensures did { (es : List Event) × (self.new.gc.seat.me.0
            ≡ gc_did_all self.old.gc.seat.me.0 es) }
        ensures same { W.id self.new.gc.table ≡ W.id self.old.gc.table }
    {
        if self.to.at == self.to.end {
            return false;
        }
        let pairing = scanned_pairing(&mut self.gc, &self.to);
        let field = self.to.field;
        copy_field(&mut self.gc, &mut self.to, pairing, field, true);
        scan_on(&mut self.gc, &mut self.to, fields_in(pairing.header));
        true
    }

    /// Fills all fields of all replicas.
    pub fn scan_all(&mut self)
        requires open { knows_open self.old.gc.seat.me.0.gc ≡ true }
        ensures filled { all_filled self.new.gc.seat.me.0.gc.pairs ≡ true }
        ensures scans { Scans self.old.gc.seat.me.0.gc self.new.gc.seat.me.0.gc }
        ensures did { (es : List Event) × (self.new.gc.seat.me.0
            ≡ gc_did_all self.old.gc.seat.me.0 es) }
        ensures same { W.id self.new.gc.table ≡ W.id self.old.gc.table }
    {
        'scan: while self.scan_one() {}
    }

    /// Clears a word of the other space, by its index there, where it is behind the last replica.
    /// False: it isn't, and nothing changed. So objects that are made there after the next flip may
    /// find their words zero.
    pub fn clear(&mut self, index: u32) -> bool
        ensures answer { result ≡ is_free self.old.gc.seat.me.0.gc index }
        ensures did { result ≡ true → self.new.gc.seat.me.0 ≡ gc_did self.old.gc.seat.me.0
            (ReplicaHeaderStore (other_word self.old.gc.seat.me.0.gc index) 0) }
        ensures none { result ≡ false → self.new ≡ self.old }
        ensures same { W.id self.new.gc.table ≡ W.id self.old.gc.table }
    {
        let index = index as u64;
        let place = self.to.low() + index;
        if index >= self.to.space || place < self.to.end {
            return false;
        }
        self.gc.store_to(place, 0);
        true
    }

    /// Looks for the next record of a slot's log, and takes it; the fields that it names are copied
    /// before, where their object has a replica. A log whose close was taken in the open cycle is
    /// left as it is. A seat that has both sides finds the record wherever the log has one.
    pub fn drain_one(&mut self, slot: Slot) -> Drained
        requires open { knows_open self.old.gc.seat.me.0.gc ≡ true }
        ensures nothing { result ≡ Drained.Nothing
            → FindsNothing self.old.gc.seat.me.0 self.new.gc.seat.me.0 slot }
        ensures took { (r : Record) → result ≡ Drained.Took r
            → DrainedOf self.old.gc.seat.me.0.gc self.new.gc.seat.me.0.gc slot r
            × (is_close r ≡ false) }
        ensures closed { result ≡ Drained.Closed
            → (closes (log_of self.new.gc.seat.me.0.gc.taken slot)
            ≡ self.new.gc.seat.me.0.gc.cycle + 1)
            × (ends_closed (log_of self.new.gc.seat.me.0.gc.taken slot) ≡ true) }
        ensures already { is_drained self.old.gc.seat.me.0.gc slot ≡ true
            → (result ≡ Drained.Closed) × (self.new ≡ self.old) }
        ensures close { is_drained self.old.gc.seat.me.0.gc slot ≡ false
            → result ≡ Drained.Closed
            → DrainedOf self.old.gc.seat.me.0.gc self.new.gc.seat.me.0.gc slot Record.Close }
        ensures next { self.old.gc.seat.me.0.acts_vm ≡ true
            → is_drained self.old.gc.seat.me.0.gc slot ≡ false → FindsNext result
            self.old.gc.seat.me.0.vm self.old.gc.seat.me.0.gc slot }
        ensures cycle { (self.new.gc.seat.me.0.gc.cycle ≡ self.old.gc.seat.me.0.gc.cycle)
            × (self.new.gc.seat.me.0.gc.epoch ≡ self.old.gc.seat.me.0.gc.epoch) }
        ensures did { (es : List Event) × (self.new.gc.seat.me.0
            ≡ gc_did_all self.old.gc.seat.me.0 es) }
        ensures same { W.id self.new.gc.table ≡ W.id self.old.gc.table }
        ensures within { slot < slots }
    {
        if self.taken.closed[slot.index()] {
            return Drained::Closed;
        }
        let number = self.taken.numbers[slot.index()];
        let word = self.gc.take(slot, number);
        match PackedRecord(word).read(number) {
            None => Drained::Nothing,
            Some(what) => {
                take_record(&mut self.gc, &mut self.to, &mut self.taken, slot, what);
                match what {
                    Record::Close => Drained::Closed,
                    _ => Drained::Took(what),
                }
            }
        }
    }
}
