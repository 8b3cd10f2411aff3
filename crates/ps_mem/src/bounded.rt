//! A memory of bounded space whose logs are led by hand: it stands in for the collected memories in
//! tests.
ghost use Rattle.std.specs.Prelude.{ℕ, ◌≡◌, ◌+◌, ◌-◌, ◌≤◌, ◌<◌, ◌^◌, [], true, false, length, IfOk, slice_set, slice_index, replicate, if◌then◌else◌, ◌&&◌, not, nat_le, ◌↔◌, ◌≢◌, IsTrue};
ghost use Rattle.ps_mem.specs.Heap.{Space, Grants, has_room, empty_heap, IsLogBounded};
ghost use Rattle.ps_mem.specs.Objects.{heap_in};
ghost use Rattle.ps_mem.specs.Bounded.{Logs, bounded_space, bounded_grants, records_of, no_logs, open_logs, IsWithLogs};

use crate::region::Region;
use crate::{FieldAt, Memory, NeedFault, Permit};
use ps_language::kinds::Kind;
use ps_record::SLOTS;
use ps_record::slots::Slot;
use ps_word::headers::Header;
use ps_word::words::Word;
use std::alloc::{AllocError, Global};

/// The records of one slot that a log holds at once, as a ring does.
const RING: u32 = ps_record::RING as u32;

/// The birth numbers that there are.
const BIRTHS: u64 = 1 << 40;

/// A memory whose space is bounded and whose cycles, logs and refusals are as the caller commands.
/// It collects nothing: an end of a cycle
/// leaves what stands where it is.
#[derive(Drop)]
pub struct BoundedMemory {
    region: Region,
    size: u32,
    fresh_from: u32,
    cycle_open: bool,
    places: [u32; SLOTS as usize],
    put: [u32; SLOTS as usize],
    closed: [bool; SLOTS as usize],
    ghost sized: { size ≤ length region.words },
    ghost filled: { region.used ≤ size },
    ghost fresh_within: { fresh_from ≤ region.used },
}

impl BoundedMemory {
    /// A space of so many words, below 2^24, in which nothing stands; no cycle is open.
    /// `AllocError`: the allocator refused.
    pub fn new(alloc: Global, size: u32) -> Result<BoundedMemory, AllocError>
        requires { size < 2 ^ 24 }
        ensures empty { IfOk result
            (λ m. ⟦<BoundedMemory as Memory>⟧.heap m ≡ empty_heap (bounded_space size)) }
        ensures granted { IfOk result
            (λ m. ⟦<BoundedMemory as Memory>⟧.grants m ≡ bounded_grants size 0 0 0 no_logs) }
    {
        let region = Region::new(alloc, size)?;
        Ok(BoundedMemory {
            region,
            size,
            fresh_from: 0,
            cycle_open: false,
            places: [RING; SLOTS as usize],
            put: [0; SLOTS as usize],
            closed: [false; SLOTS as usize],
        })
    }

    /// Opens a cycle: each log is open and holds nothing.
    pub fn open_cycle(&mut self)
        ensures heap { ⟦<BoundedMemory as Memory>⟧.heap self.new ≡ ⟦<BoundedMemory as Memory>⟧.heap
            self.old }
        ensures logs { IsWithLogs (⟦<BoundedMemory as Memory>⟧.grants self.old)
            (⟦<BoundedMemory as Memory>⟧.grants self.new) open_logs }
        ensures open { self.new.cycle_open ≡ true }
    {
        self.cycle_open = true;
        self.places = [RING; SLOTS as usize];
        self.put = [0; SLOTS as usize];
        self.closed = [false; SLOTS as usize];
    }

    /// Ends the cycle.
    pub fn end_cycle(&mut self)
        ensures heap { ⟦<BoundedMemory as Memory>⟧.heap self.new ≡ ⟦<BoundedMemory as Memory>⟧.heap
            self.old }
        ensures logs { IsWithLogs (⟦<BoundedMemory as Memory>⟧.grants self.old)
            (⟦<BoundedMemory as Memory>⟧.grants self.new) no_logs }
        ensures over { self.new.cycle_open ≡ false }
    {
        self.cycle_open = false;
        self.put = [0; SLOTS as usize];
    }

    /// Closes the log of a slot until the cycle ends.
    pub fn close(&mut self, slot: Slot)
        ensures heap { ⟦<BoundedMemory as Memory>⟧.heap self.new ≡ ⟦<BoundedMemory as Memory>⟧.heap
            self.old }
        ensures logs { IsWithLogs (⟦<BoundedMemory as Memory>⟧.grants self.old)
            (⟦<BoundedMemory as Memory>⟧.grants self.new)
            (record {
              cycle_open = self.old.cycle_open;
              places = self.old.places;
              put =
                  self.old.put;
              closed = slice_set self.old.closed slot true;
            }) }
        ensures closed { self.new.closed ≡ slice_set self.old.closed slot true }
        ensures kept { (self.new.cycle_open ≡ self.old.cycle_open)
            × (self.new.places ≡ self.old.places) × (self.new.put ≡ self.old.put) }
    {
        self.closed[slot.index()] = true;
    }

    /// Leaves places for so many records in the log of a slot, and counts its records anew.
    pub fn leave(&mut self, slot: Slot, records: u32)
        ensures heap { ⟦<BoundedMemory as Memory>⟧.heap self.new ≡ ⟦<BoundedMemory as Memory>⟧.heap
            self.old }
        ensures logs { IsWithLogs (⟦<BoundedMemory as Memory>⟧.grants self.old)
            (⟦<BoundedMemory as Memory>⟧.grants self.new)
            (record {
              cycle_open = self.old.cycle_open;
              places =
                  slice_set self.old.places slot records;
              put = slice_set self.old.put slot 0;
              closed =
                  self.old.closed;
            }) }
        ensures places { self.new.places ≡ slice_set self.old.places slot records }
        ensures put { self.new.put ≡ slice_set self.old.put slot 0 }
        ensures kept { (self.new.cycle_open ≡ self.old.cycle_open)
            × (self.new.closed ≡ self.old.closed) }
    {
        self.places[slot.index()] = records;
        self.put[slot.index()] = 0;
    }

    /// Whether so many words and birth numbers are left.
    fn fits(&self, words: u32, births: u32) -> bool
        ensures { result ≡ has_room
            (heap_in self.now.region.words self.now.region.used self.now.region.next
            (bounded_space self.now.size)) words births }
    {
        words <= self.size - self.region.used() && births as u64 <= BIRTHS - self.region.next()
    }

    /// Counts a record of a slot where a cycle is open and the object at an address may not be
    /// filled, and ends the time in which what
    /// stands may be filled.
    fn log(&mut self, slot: Slot, address: u32)
        requires { 1 ≤ records_of
            (record {
              cycle_open = self.old.cycle_open;
              places = self.old.places;
              put =
                  self.old.put;
              closed = self.old.closed;
            }) slot }
        ensures region { self.new.region ≡ self.old.region }
        ensures kept { (self.new.size ≡ self.old.size) × (self.new.cycle_open ≡ self.old.cycle_open)
            × (self.new.closed ≡ self.old.closed) × (self.new.places ≡ self.old.places) }
        ensures fresh { self.new.fresh_from ≡ self.old.region.used }
        ensures put { self.new.put ≡
            (if self.old.cycle_open && not (nat_le self.old.fresh_from address) then slice_set
            self.old.put slot (slice_index self.old.put slot + 1) else self.old.put) }
    {
        let may_be_filled = self.fresh_from <= address;
        self.fresh_from = self.region.used();
        if self.cycle_open && !may_be_filled {
            let places = self.places[slot.index()];
            let put = self.put[slot.index()];
            if put < places {
                self.put[slot.index()] = put + 1;
            }
        }
    }
}

impl Memory for BoundedMemory {
    ghost heap = { λ m. heap_in m.region.words m.region.used m.region.next (bounded_space m.size) };

    ghost grants = { λ m. bounded_grants m.size m.region.used m.region.next m.fresh_from
        (record { cycle_open = m.cycle_open; places = m.places; put = m.put; closed = m.closed }) };

    fn used(&mut self) -> u32 {
        self.region.used()
    }

    fn size(&mut self) -> u32 {
        self.size
    }

    fn room(&mut self, words: u32, births: u32) -> bool {
        self.fits(words, births)
    }

    fn need(&mut self, words: u32, births: u32) -> Result<(), NeedFault> {
        if self.fits(words, births) {
            Ok(())
        } else {
            Err(NeedFault::NeedSpace(words))
        }
    }

    fn alloc(&mut self, kind: Kind, fields: u32) -> u32 {
        self.region.alloc(kind, fields)
    }

    fn alloc_body(&mut self, dictionary: u32, fields: u32) -> u32 {
        let birth = self.region.header(dictionary).birth;
        self.region.alloc_body(birth, fields)
    }

    fn header(&mut self, address: u32) -> Header {
        self.region.header(address)
    }

    fn load(&mut self, address: u32, place: u32) -> Word {
        self.region.load(address, place)
    }

    fn load_at(&mut self, address: u32, at: usize) -> Word {
        self.region.load_at(address, at)
    }

    fn fill(&mut self, address: u32, place: u32, word: Word) {
        self.region.put(address, place, word);
    }

    fn store(&mut self, slot: Slot, address: u32, place: u32, items: &[Word]) {
        self.log(slot, address);
        self.region.write(address, place, items);
    }

    fn copy(&mut self, slot: Slot, from: FieldAt, to: FieldAt, count: u32) {
        self.log(slot, to.address);
        self.region.copy(from, to, count);
    }

    /// Of this memory no log is drained but by `leave`: asking changes nothing.
    fn permit(&mut self, slot: Slot, count: u32) -> Permit
        ensures heap { ⟦<BoundedMemory as Memory>⟧.heap self.new ≡ ⟦<BoundedMemory as Memory>⟧.heap
            self.old }
        ensures grants { ⟦<BoundedMemory as Memory>⟧.grants self.new
            ≡ ⟦<BoundedMemory as Memory>⟧.grants self.old }
        ensures others { (s : ℕ) → s ≢ slot
            → (⟦<BoundedMemory as Memory>⟧.grants self.new).records s ≡
            (⟦<BoundedMemory as Memory>⟧.grants self.old).records s }
        ensures more { (⟦<BoundedMemory as Memory>⟧.grants self.old).records slot ≤
            (⟦<BoundedMemory as Memory>⟧.grants self.new).records slot }
        ensures limit { IsLogBounded (⟦<BoundedMemory as Memory>⟧.grants self.new) slot }
        ensures yes { result ≡ Permit.Yes
            → count ≤ (⟦<BoundedMemory as Memory>⟧.grants self.new).records slot }
        ensures full { result ≡ Permit.LogFull
            → (⟦<BoundedMemory as Memory>⟧.grants self.new).records slot < count }
        ensures closed { (result ≡ Permit.LogClosed) ↔
            ((1 ≤ count) × IsTrue ((⟦<BoundedMemory as Memory>⟧.grants self.old).closed slot)) }
    {
        let places = self.places[slot.index()];
        let put = self.put[slot.index()];
        if !self.cycle_open || count == 0 {
            return Permit::Yes;
        }
        if self.closed[slot.index()] {
            return Permit::LogClosed;
        }
        if count <= places.saturating_sub(put) {
            Permit::Yes
        } else {
            Permit::LogFull
        }
    }
}
