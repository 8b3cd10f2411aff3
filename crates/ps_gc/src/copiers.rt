//! The collector at a table with a name, as its thread has it: what it does by itself, one action
//! after another, and the calls for which it is lent the memory.
//!
//! It keeps that the roots that are still to be replicated are known to it, whether it knows of an
//! open cycle, and that its table is the one of its name.
ghost use Rattle.std.specs.Prelude.{◌≡◌, ◌<◌, ◌+◌, ◌-◌, ◌++◌, ◌∷◌, ◌&&◌, true};
ghost use Rattle.std.specs.Prelude.{false, not, nat_lt, []};
ghost use Rattle.ps_core_machine.specs.declared.events.Event.TheVariants.{ReplicaHeaderStore};
ghost use Rattle.ps_core_machine.specs.Objects.{all_filled, value_has_replica};
ghost use Rattle.ps_core_machine.specs.Steps.{is_open, knows_open};
ghost use Rattle.ps_mem.specs.Shows.{AreValues};
ghost use Rattle.ps_core_laws.specs.Memory.{heap_of, grants_of};
ghost use Rattle.ps_core_laws.specs.Stores.{numbers};
ghost use Rattle.ps_core_laws.specs.Tries.{IsFlip};
ghost use Rattle.ps_table.specs.Shown.{gc_did};
ghost use Rattle.ps_gc.specs.Events.{AreKnown, is_free, other_word};
ghost use Rattle.ps_gc.specs.Flipping.{Answers, sides_seen};
ghost use Rattle.ps_gc.specs.Known.{are_known};

use crate::naming::Naming;
use crate::seats::MutatorSeat;
use crate::{ACTIONS_A_LOOK, Collector, Drained};
use ps_core_laws::Unready;
use ps_core_laws::sides::{Collects, Works};
use ps_mem::Memory;
use ps_record::slots::Slot;
use ps_record::{Record, SLOTS};
use ps_table::{join, part};
use ps_word::words::Word;
use std::alloc::{AllocError, Global};
use std::marker::PhantomData;

/// The collector of a run, at the table of this name.
#[derive(Drop)]
pub struct Copier<J: Naming> {
    /// Its seat has the collector's part alone.
    pub collector: Collector,
    /// The roots that were handed over and have yet to get replicas.
    pending: Vec<Word>,
    /// Whether it knows of an open cycle.
    in_cycle: bool,
    /// The slot whose log is looked at next.
    slot: Slot,
    /// How many looks in a row found nothing, or a log that ended.
    idle: u32,
    /// How many of these looks found a log that ended.
    ended: u32,
    /// How many actions there were since the last look.
    since: u32,
    /// How many words were copied, at most.
    copied: u64,
    /// How many of the lowest words of the other space may not be clear yet.
    unclear: u32,
    of: PhantomData<J>,
    pub ghost named: { collector.gc.seat.table_id ≡ J.table },
    ghost knows: { knows_open collector.gc.seat.me.0.gc ≡ in_cycle },
    ghost known: { in_cycle ≡ true → are_known collector.gc.seat.me.0.gc pending.items ≡ true },
}

impl<J: Naming> Copier<J> {
    /// A collector at the table of this name, with room for so many roots. `AllocError`: it can't
    /// be had.
    pub fn new(alloc: Global, collector: Collector, roots: usize) -> Result<Copier<J>, AllocError>
        requires named { collector.gc.seat.table_id ≡ J.table }
    {
        let pending = Vec::with_capacity(alloc, roots)?;
        let mut collector = collector;
        let in_cycle = collector.begin_cycle();
        Ok(Copier {
            collector,
            pending,
            in_cycle,
            slot: Slot::of(0),
            idle: 0,
            ended: 0,
            since: 0,
            copied: 0,
            unclear: 0,
            of: PhantomData,
        })
    }

    /// Whether all logs had ended when they were last looked at, one after another.
    pub fn has_drained(&self) -> bool {
        self.ended >= SLOTS as u32
    }

    /// One action: a root gets a replica, a field is copied, or a log is looked at. False: no root
    /// was left, each log was looked at in a row and none had a record, and no field is unfilled.
    /// Where it knows of no open cycle, a word of the space that was left is cleared. False: none
    /// is left.
    fn act_once(&mut self) -> bool
        ensures filled { result ≡ false → self.old.in_cycle ≡ true
            → all_filled self.new.collector.gc.seat.me.0.gc.pairs ≡ true }
        ensures cleared { self.old.in_cycle ≡ false → result ≡ (nat_lt 0 self.old.unclear
            && is_free self.old.collector.gc.seat.me.0.gc (self.old.unclear - 1)) }
    {
        if !self.in_cycle {
            return self.clear();
        }
        if self.replicate_root() {
            return true;
        }
        self.since = self.since.saturating_add(1);
        if self.since < ACTIONS_A_LOOK && self.scan() {
            return true;
        }
        self.since = 0;
        if self.idle < SLOTS as u32 {
            self.look();
            return true;
        }
        self.scan()
    }

    /// The highest word that may not be clear yet is cleared, so that the replicas of a cycle that
    /// opens meanwhile lie over those that are left. False: none is left.
    fn clear(&mut self) -> bool
        requires none { self.old.in_cycle ≡ false }
        ensures same { self.new.in_cycle ≡ self.old.in_cycle }
        ensures answer { result ≡ (nat_lt 0 self.old.unclear
            && is_free self.old.collector.gc.seat.me.0.gc (self.old.unclear - 1)) }
        ensures did { result ≡ true → (self.new.unclear + 1 ≡ self.old.unclear)
            × (self.new.collector.gc.seat.me.0 ≡ gc_did self.old.collector.gc.seat.me.0
            (ReplicaHeaderStore (other_word self.old.collector.gc.seat.me.0.gc self.new.unclear)
            0)) }
        ensures none { result ≡ false → self.new.collector ≡ self.old.collector }
    {
        if self.unclear == 0 {
            return false;
        }
        self.unclear -= 1;
        self.collector.clear(self.unclear)
    }

    /// The last of the roots that were handed over gets a replica of what it names. False: none is
    /// left.
    fn replicate_root(&mut self) -> bool
        requires open { self.old.in_cycle ≡ true }
        ensures open { self.new.in_cycle ≡ true }
        ensures copied { result ≡ true → (root : Word)
            × (self.old.pending.items ≡ self.new.pending.items ++ root ∷ [])
            × (value_has_replica self.new.collector.gc.seat.me.0.gc.pairs root.0 ≡ true) }
        ensures none { result ≡ false → self.new.pending.items ≡ [] }
    {
        match self.pending.pop() {
            None => false,
            Some(root) => {
                self.collector.replicate(root);
                self.copied = self.copied.saturating_add(2);
                true
            }
        }
    }

    /// A field is copied. False: none is unfilled.
    fn scan(&mut self) -> bool
        requires open { self.old.in_cycle ≡ true }
        requires none { self.old.pending.items ≡ [] }
        ensures open { self.new.in_cycle ≡ true }
        ensures none { self.new.pending.items ≡ [] }
        ensures answer { result ≡ not (all_filled self.old.collector.gc.seat.me.0.gc.pairs) }
        ensures same { result ≡ false → self.new.collector ≡ self.old.collector }
    {
        let scanned = self.collector.scan_one();
        if scanned {
            self.copied = self.copied.saturating_add(1);
        }
        scanned
    }

    /// A look at the log of the next slot, which stays the next where a record was taken.
    fn look(&mut self)
        requires open { self.old.in_cycle ≡ true }
        requires none { self.old.pending.items ≡ [] }
        ensures open { self.new.in_cycle ≡ true }
        ensures none { self.new.pending.items ≡ [] }
    {
        match self.collector.drain_one(self.slot) {
            Drained::Took(Record::Place { count, .. }) => {
                self.copied = self.copied.saturating_add(count as u64);
                self.idle = 0;
                self.ended = 0;
                return;
            }
            Drained::Took(Record::Close) => unreachable!(),
            Drained::Nothing => self.ended = 0,
            Drained::Closed => self.ended = self.ended.saturating_add(1),
        }
        self.idle = self.idle.saturating_add(1);
        self.slot = self.slot.next();
    }
}

impl<J: Naming> Collects<MutatorSeat<J>> for Copier<J> {
    ghost did = { λ c _. c.collector.gc.seat.me.0.gc_events };

    ghost answers = { λ c m roots. Answers m.vm.seat.me.0.vm
        c.collector.gc.seat.me.0.gc (numbers roots) };

    /// As the collector's: it knows then whether a cycle is open, and in one what the roots name.
    /// Where they find no room in the list, none of them is replicated before the next hand-over.
    fn hand_over(&mut self, memory: &mut MutatorSeat<J>, roots: &[Word])
        requires values { AreValues (heap_of memory.old.vm.seat.me.0.vm) roots.now }
        ensures knows { knows_open self.new.collector.gc.seat.me.0.gc
            ≡ is_open memory.old.vm.seat.me.0.vm }
        ensures known { is_open memory.old.vm.seat.me.0.vm ≡ true
            → AreKnown self.new.collector.gc.seat.me.0.gc (numbers roots.now) }
        ensures heap { heap_of memory.new.vm.seat.me.0.vm ≡ heap_of memory.old.vm.seat.me.0.vm }
        ensures grants { grants_of memory.new.vm.seat.me.0.vm
            ≡ record (grants_of memory.old.vm.seat.me.0.vm) { fresh = λ a. false } }
    {
        self.pending.clear();
        self.collector.hand_over(&mut memory.vm, roots);
        self.in_cycle = memory.vm.is_open();
        let _ = self.pending.extend_from_slice(roots);
    }

    /// As the collector's: exactly where all logs are closed and drained, all fields filled, and
    /// what the roots refer to has replicas; else it answers the first of these that doesn't hold.
    fn try_flip(&mut self, memory: &mut MutatorSeat<J>, roots: &mut [Word]) -> Result<(), Unready>
        requires values { AreValues (heap_of memory.old.vm.seat.me.0.vm) roots.old }
        requires open { is_open memory.old.vm.seat.me.0.vm ≡ true }
        ensures answer { Answers memory.old.vm.seat.me.0.vm
            self.old.collector.gc.seat.me.0.gc (numbers roots.old) result }
        ensures flips { IsFlip result
            (sides_seen memory.old.vm.seat.me.0 self.old.collector.gc.seat.me.0)
            (sides_seen memory.new.vm.seat.me.0 self.new.collector.gc.seat.me.0)
            roots.old roots.new }
    {
        let used = memory.vm.used();
        let (vm, collector) = (&mut memory.vm, &mut self.collector);
        join(&vm.table, &mut vm.seat, &mut collector.gc.seat);
        let flip = collector.joined_try_flip(&mut vm.mirror, roots);
        part(&vm.table, &mut vm.seat, &mut collector.gc.seat);
        match flip {
            Err(why) => Err(why),
            Ok(()) => {
                self.pending.clear();
                self.unclear = used;
                self.in_cycle = false;
                Ok(())
            }
        }
    }

    fn whole_cycle(&mut self, memory: &mut MutatorSeat<J>, roots: &mut [Word]) -> bool {
        if memory.vm.is_open() {
            return false;
        }
        self.pending.clear();
        let used = memory.vm.used();
        let made = self.collector.whole_cycle(&mut memory.vm, roots);
        if made {
            self.unclear = used;
        }
        self.in_cycle = self.collector.begin_cycle();
        made
    }

    fn end_cycle(&mut self, memory: &mut MutatorSeat<J>, roots: &mut [Word]) -> bool {
        if !memory.vm.is_open() {
            return false;
        }
        self.pending.clear();
        self.unclear = memory.vm.used();
        self.collector.end_cycle(&mut memory.vm, roots);
        self.in_cycle = self.collector.begin_cycle();
        true
    }
}

impl<J: Naming> Works for Copier<J> {
    fn act(&mut self) -> bool {
        self.act_once()
    }

    /// At most: a root counts as two words, and a record as the fields that it names.
    fn copied(&self) -> u64 {
        self.copied
    }

    fn look_anew(&mut self) {
        self.idle = 0;
        self.ended = 0;
    }
}
