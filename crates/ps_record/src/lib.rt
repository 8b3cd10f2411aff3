//! Records of the collector's log (Nettles and O'Toole, PLDI 1993, 2: the mutation log), and the
//! places of its rings.
//!
//! Why so:
//! - The numbers of the table stand here once: slots, ring, control words, heads and where the
//!   spaces begin. Definitions and code name them; only proofs may write the numerals.
//! - `read` answers the record of a number by its lap bit, so a reader needs no second word to know
//!   whether a place of the ring is fresh.
//! - A record names a range of at least one field of one object, and 16 bits hold where the range
//!   ends. So an object has fewer than 65,536 fields.
#![tactic(auto)]

ghost use Rattle.std.specs.Prelude.{◌≡◌, ◌≢◌, ◌<◌, ◌+◌, ◌==◌, ℕ};
ghost use Rattle.ps_record.specs.Format as layout;
ghost use Rattle.ps_record.specs.declared.Record.{Record};

pub mod slots;

use slots::Slot;

/// How many slots there are, each with a ring of its own.
pub const SLOTS: u64 = 32;

/// How many records a ring holds.
pub const RING: u64 = 256;

/// A log with so many records gets no further place, only the closes of the cycles that are left.
pub const LOG_LIMIT: u64 = 1 << 63;

/// The words below the rings: the cycle word, the epoch word, a head for each slot, and blanks.
pub const CONTROL_WORDS: u64 = 64;

/// Where the heads begin: those of the slots, one behind the other.
pub const HEADS_START: u64 = 2;

/// The words below the two spaces: the control words, and the rings.
pub const SPACES_START: u64 = CONTROL_WORDS + SLOTS * RING;

const LAP: u64 = 1 << 63;

const CLOSE: u64 = 1 << 62;

const ADDRESS: u64 = 1 << 32;

const FIRST: u64 = 1 << 16;

/// A record of the log: fields of an object that were stored, or the close of the log in a cycle.
#[derive(Clone, Copy, Debug, PartialEq, Eq)]
pub enum Record {
    Place {
        /// Of the object, below 2^24.
        address: u32,
        /// The first of the fields.
        first: u16,
        /// How many, at least one.
        count: u16,
    },
    Close,
}

/// A record as its ring holds it: 64 bits, among them the lap bit.
#[derive(Clone, Copy, Debug, PartialEq, Eq)]
pub struct PackedRecord(pub u64);

impl Record {
    /// The record of `count` fields from `first` on.
    #[inline]
    pub fn place(address: u32, first: u16, count: u16) -> Record
        ensures { result ≡ Record.Place address first count }
    {
        Record::Place {
            address,
            first,
            count,
        }
    }

    /// The record that closes a log.
    #[inline]
    pub fn close() -> Record
        ensures { result ≡ Record.Close }
    {
        Record::Close
    }

    /// The word of record `number` of a log. The first record has number 0.
    #[inline]
    pub fn pack(self, number: u64) -> PackedRecord
        requires { layout.IsRecord self }
        ensures { result.0 ≡ layout.packed number self }
    {
        let body = match self {
            Record::Place {
                address,
                first,
                count,
            } => address as u64 * ADDRESS + first as u64 * FIRST + count as u64,
            Record::Close => CLOSE,
        };
        PackedRecord(lap_of(number) * LAP + body)
    }
}

impl PackedRecord {
    /// The lap bit.
    #[inline]
    pub fn lap(self) -> bool
        ensures { result ≡ (layout.lap_in self.0 == 1) }
    {
        self.0 / LAP == 1
    }

    /// Whether it closes a log.
    #[inline]
    pub fn is_close(self) -> bool
        ensures { result ≡ (layout.close_in self.0 == 1) }
    {
        (self.0 / CLOSE) % 2 == 1
    }

    /// The address of the object, where it is a place.
    #[inline]
    pub fn addr(self) -> u32
        ensures { result ≡ layout.address_in self.0 }
    {
        ((self.0 / ADDRESS) % (1 << 24)) as u32
    }

    /// The first of the fields, where it is a place.
    #[inline]
    pub fn off(self) -> u16
        ensures { result ≡ layout.first_in self.0 }
    {
        ((self.0 / FIRST) % (1 << 16)) as u16
    }

    /// How many fields, where it is a place.
    #[inline]
    pub fn count(self) -> u16
        ensures { result ≡ layout.count_in self.0 }
    {
        (self.0 % FIRST) as u16
    }

    /// What it says, whatever its lap bit is.
    #[inline]
    pub fn record(self) -> Record
        ensures { result ≡ layout.record_in self.0 }
    {
        if self.is_close() {
            Record::Close
        } else {
            Record::place(self.addr(), self.off(), self.count())
        }
    }

    /// Record `number` of a log, where the word that was found in its place is that record, and
    /// none where it is an older one or nothing yet.
    #[inline]
    pub fn read(self, number: u64) -> Option<Record>
        ensures { result ≡ layout.read_record number self.0 }
    {
        if self.0 / LAP == lap_of(number) {
            Some(self.record())
        } else {
            None
        }
    }
}

/// The lap bit of record `number`: 1 in the first lap of a ring, 0 in the next one, and so on.
#[inline]
pub fn lap_of(number: u64) -> u64
    ensures { result ≡ layout.lap_of number }
{
    (number / RING + 1) % 2
}

/// The word of the table at which the head of a slot stands.
#[inline]
pub fn head_place(slot: Slot) -> u64
    ensures { result ≡ layout.head_place slot }
{
    HEADS_START + slot.index() as u64
}

/// The word of the table at which record `number` of a slot's log stands.
#[inline]
pub fn ring_place(slot: Slot, number: u64) -> u64
    ensures { result ≡ layout.ring_place slot number }
{
    CONTROL_WORDS + RING * slot.index() as u64 + number % RING
}

/// The laws of the layout: a packed record gives its fields back, and is read as itself; a ring
/// place in its next lap, and one of a ring of zeros, holds no
/// record; rings don't overlap, and neither do records of one ring that are less than a lap apart.
pub fn laws()
    ensures fields { (k a f c : ℕ) → layout.IsRecord (Record.Place a f c)
        → (layout.address_in (layout.packed k (Record.Place a f c)) ≡ a)
        × (layout.first_in (layout.packed k (Record.Place a f c)) ≡ f)
        × (layout.count_in (layout.packed k (Record.Place a f c)) ≡ c)
        × (layout.close_in (layout.packed k (Record.Place a f c)) ≡ 0) }
    ensures close { (k : ℕ) → layout.close_in (layout.packed k Record.Close) ≡ 1 }
    ensures lap { (k : ℕ) (r : Record) → layout.IsRecord r
        → layout.lap_in (layout.packed k r) ≡ layout.lap_of k }
    ensures next_lap { (k : ℕ) → (layout.lap_of (k + layout.ring_length) ≢ layout.lap_of k)
        × ((slot : ℕ)
        → layout.ring_place slot (k + layout.ring_length) ≡ layout.ring_place slot k) }
    ensures reads { (k : ℕ) (r : Record) → layout.IsRecord r
        → layout.read_record k (layout.packed k r) ≡ Some r }
    ensures stale { (k : ℕ) (r : Record) → layout.IsRecord r
        → layout.read_record (k + layout.ring_length) (layout.packed k r) ≡ None }
    ensures zeros { (k : ℕ) → k < layout.ring_length → layout.read_record k 0 ≡ None }
    ensures slots { (s t j k : ℕ) → s ≢ t → layout.ring_place s j ≢ layout.ring_place t k }
    ensures turn { (s j k : ℕ) → j < k → k < j + layout.ring_length
        → layout.ring_place s j ≢ layout.ring_place s k }
{}
