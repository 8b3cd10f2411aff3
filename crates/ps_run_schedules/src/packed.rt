//! A schedule as a run keeps it: packed but for its last entry, which a further step may join.

ghost use Rattle.std.specs.Prelude.{◌≡◌, ◌+◌, ◌<◌, ◌≤◌, ◌++◌, ◌∷◌, [], true, length, OnOk, OnErr};
ghost use Rattle.std.specs.Prelude.{IfOk, IsTrue, ◌↔◌};
ghost use Rattle.ps_language.specs.Schedules as schedules;
ghost use Rattle.ps_language.specs.Schedules.{plain_move};
ghost use Rattle.ps_run_schedules.specs.Keeping.{MayAdd, most_of};
ghost use Rattle.ps_run_schedules.specs.Turns as turning;
ghost use Rattle.ps_run_schedules.specs.Turns.{move_of, added_times};

use crate::coding::{MOST_ENTRY_BYTES, push_entry};
use crate::entries::Entries;
use crate::turns::{joins, plain_entry};
use ps_language::schedules::Entry;
use std::alloc::{AllocError, Global};
use std::marker::Model;

/// A schedule, seen as its entries, how many find room before memory is asked for, and how many more
/// there may be. An entry of up to 127 ordinary steps of a context up to 127 takes two bytes.
#[derive(Drop)]
pub struct Schedule {
    bytes: Vec<u8>,
    count: usize,
    last: Option<Entry>,
    most: u64,
}

impl Model for Schedule {
    ghost use Rattle.std.specs.Prelude.{◌+◌, ◌-◌, ◌/◌, vec_len, vec_capacity};
    ghost use Rattle.ps_run_schedules.specs.Keeping.{Kept};

    ghost Value = { Kept };

    ghost use Rattle.ps_run_schedules.specs.Packing.{items_in, IsPacked, most_entry_bytes};

    ghost view = { λ s. record {
      items = items_in s.count s.bytes.items s.last;
      capacity = s.count + (vec_capacity s.bytes - vec_len s.bytes) / most_entry_bytes;
      left = s.most - s.count;
    } };

    ghost invariant = { λ s. IsPacked s.count s.bytes.items s.last };
}

impl Schedule {
    /// A schedule without entries, with room for so many, that may have at most `most`.
    ///
    /// `AllocError`: the room can't be had.
    pub fn with_capacity(alloc: Global, entries: usize, most: u64) -> Result<Schedule, AllocError>
        ensures items { IfOk result (λ schedule. schedule.items ≡ []) }
        ensures capacity { IfOk result (λ schedule. entries ≤ schedule.capacity) }
        ensures most { IfOk result (λ schedule. most_of schedule ≡ most) }
    {
        if entries > usize::MAX / MOST_ENTRY_BYTES {
            return Err(AllocError);
        }
        Ok(Schedule {
            bytes: Vec::with_capacity(alloc, entries * MOST_ENTRY_BYTES)?,
            count: 0,
            last: None,
            most,
        })
    }

    /// How many entries it has.
    pub fn len(&self) -> usize
        ensures { result ≡ length self.now.items }
    {
        self.count
    }

    /// Whether it has as many entries as it may have.
    fn is_full(&self) -> bool
        ensures { IsTrue result ↔ self.now.left ≡ 0 }
    {
        self.count as u64 >= self.most
    }

    /// Whether a further step of a context joins the last entry.
    fn joins_last(&self, context: u32) -> bool
        ensures { result ≡ turning.joins_last self.now.items context }
    {
        match &self.last {
            Some(last) => joins(last, context),
            None => false,
        }
    }

    /// Whether it has an entry that a step of a context joins, or may have another.
    pub fn may_add(&self, context: u32) -> bool
        ensures { IsTrue result ↔ MayAdd self.now context }
    {
        self.joins_last(context) || !self.is_full()
    }

    /// How many ordinary steps of a context, up to 4,294,967,295, find room without a second new
    /// entry.
    pub fn free_steps(&self, context: u32) -> u32
        ensures is { result ≡ turning.free_steps self.now.items context }
        ensures some { 1 ≤ result }
    {
        match &self.last {
            Some(last) if joins(last, context) => u32::MAX - last.steps,
            _ => u32::MAX,
        }
    }

    /// Makes room for two entries.
    ///
    /// `AllocError`: the room can't be had. Nothing has changed then.
    pub fn reserve(&mut self) -> Result<(), AllocError>
        ensures items { self.new.items ≡ self.old.items }
        ensures most { most_of self.new ≡ most_of self.old }
        ensures capacity { self.old.capacity ≤ self.new.capacity }
        ensures room { OnOk result (length self.new.items + 2 ≤ self.new.capacity) }
        ensures full { OnErr result (self.new.capacity < length self.new.items + 2) }
        ensures kept { OnErr result (self.new.capacity ≡ self.old.capacity) }
    {
        self.bytes.reserve(2 * MOST_ENTRY_BYTES)
    }

    /// Adds an entry, for which there is room, and which it may have.
    pub fn push(&mut self, entry: Entry)
        requires room { length self.old.items < self.old.capacity }
        requires few { 1 ≤ self.old.left }
        ensures items { self.new.items ≡ self.old.items ++ entry ∷ [] }
        ensures most { most_of self.new ≡ most_of self.old }
        ensures capacity { self.old.capacity ≤ self.new.capacity }
    {
        let Some(last) = self.last else {
            self.count = 1;
            self.last = Some(entry);
            return;
        };
        push_entry(&mut self.bytes, last);
        self.count += 1;
        self.last = Some(entry);
    }

    /// Adds a step of a context, for which there is room: it joins the last entry where it can.
    pub fn note(&mut self, context: u32, refused: bool, shown: Option<(i32, i32)>)
        requires room { length self.old.items < self.old.capacity }
        requires may { MayAdd self.old context }
        ensures added { self.new.items ≡ schedules.added self.old.items
            (move_of context refused shown) }
        ensures most { most_of self.new ≡ most_of self.old }
        ensures capacity { self.old.capacity ≤ self.new.capacity }
        ensures longer { length self.new.items ≤ length self.old.items + 1 }
        ensures joined { turning.joins_last self.old.items context ≡ true
            → length self.new.items ≡ length self.old.items }
    {
        let single = Entry {
            context,
            steps: 1,
            refused,
            shown,
        };
        let Some(last) = self.last else {
            self.push(single);
            return;
        };
        if !joins(&last, context) {
            self.push(single);
            return;
        }
        self.last = Some(Entry {
            context: last.context,
            steps: last.steps + 1,
            refused,
            shown,
        });
    }

    /// Adds ordinary steps of a context, for which there is room in one entry: as many single ones.
    pub fn note_turn(&mut self, context: u32, steps: u32)
        requires room { length self.old.items < self.old.capacity }
        requires may { MayAdd self.old context }
        requires fits { steps ≤ turning.free_steps self.old.items context }
        ensures added { self.new.items ≡ added_times steps self.old.items (plain_move context) }
        ensures most { most_of self.new ≡ most_of self.old }
        ensures capacity { self.old.capacity ≤ self.new.capacity }
        ensures longer { length self.new.items ≤ length self.old.items + 1 }
        ensures joined { turning.joins_last self.old.items context ≡ true
            → length self.new.items ≡ length self.old.items }
        ensures open { 1 ≤ steps → steps < turning.free_steps self.old.items context
            → turning.joins_last self.new.items context ≡ true }
    {
        if steps == 0 {
            return;
        }
        let Some(last) = self.last else {
            self.push(plain_entry(context, steps));
            return;
        };
        if !joins(&last, context) {
            self.push(plain_entry(context, steps));
            return;
        }
        self.last = Some(plain_entry(context, last.steps + steps));
    }

    /// Its entries, one after another.
    pub fn entries(&self) -> Entries<'_>
        ensures { result ≡ self.now.items }
    {
        Entries::packed(
            self.count.saturating_sub(1),
            self.bytes.as_slice(),
            self.last.as_slice(),
        )
    }
}
