//! The atomic steps on the table of words as events, and what each of the two seats has of the
//! state. They are plain values; what they must keep is said of runs (`law`).

ghost use Rattle.std.specs.Prelude.{List, ℕ};

use ps_record::Record;
use std::alloc::Global;
use std::marker::Model;

/// Words of the mutator that refer to objects or to none.
#[derive(Drop)]
pub struct Roots {
    pub words: Vec<u64, Global>,
}

impl Model for Roots {
    ghost Value = { List ℕ };

    ghost view = { λ r. r.words.items };
}

/// An atomic step: a load or a store of one word of the table, by the mutator's seat, by the
/// collector's, or by both joined (Nettles and O'Toole, PLDI 1993,
/// 2 and 3). A load carries the word that it finds, but for `ClearLoad`, which finds zero.
#[derive(Drop)]
pub enum Event {
    /// Load by the mutator. A head, if it is one, is kept.
    VmLoad { place: u64, word: u64 },
    /// Load by the collector, to look. The epoch word is kept, and the first header of an object
    /// that it knows.
    GcLoad { place: u64, word: u64 },
    /// Load by the collector of the ring place where the slot's next record is to stand; where it
    /// stands there, it is being taken from then on.
    TakeLoad { slot: u64, word: u64 },
    /// Load by the collector of a field of an original; it is being copied from then on.
    CopyLoad { address: u64, field: u64, word: u64 },
    /// Load of the cycle word by both seats joined, with the roots that the mutator hands over.
    HandOver { word: u64, roots: Roots },
    /// Load by the mutator of the next word of the object being made, which is found zero: it needs
    /// no store.
    ClearLoad,
    /// Field store by the mutator, of the next word of the object being made, which becomes zero:
    /// its second header, then its fields.
    ClearStore,
    /// Field store by the mutator, of the first header of the object being made, which stands from
    /// then on.
    HeaderStore { header: u64 },
    /// Field store by the mutator, of a field of a standing object.
    FieldStore { address: u64, field: u64, word: u64 },
    /// Record store by the mutator.
    RecordStore { slot: u64, record: Record },
    /// Epoch store by the mutator: opens a cycle.
    EpochStore,
    /// To-space store by the collector, of a header of a replica that is in no pair.
    ReplicaHeaderStore { place: u64, word: u64 },
    /// To-space store by the collector, of the word being copied, renamed; by its scan, or from a
    /// record.
    ReplicaFieldStore { scans: bool },
    /// Forwarding store by the collector: a new pair.
    ForwardStore { original: u64, replica: u64 },
    /// Head store by the collector: the record being taken is taken.
    HeadStore,
    /// Cycle store by both seats joined, with the roots: the flip.
    CycleStore { roots: Roots },
}

/// An object that stands: the index of its first header, that header, and its fields. No value of
/// it is made.
pub struct Object {
    pub address: u64,
    pub header: u64,
    pub fields: [u64; 0],
}

/// An original and its replica, with the first header that both have, the fields of the replica and
/// which of them the scan has stored. No value of it is made.
pub struct Pair {
    pub original: u64,
    pub replica: u64,
    pub header: u64,
    pub fields: [u64; 0],
    pub filled: [bool; 0],
}

/// Fields of an object that were stored and aren't logged yet.
#[derive(Clone, Copy)]
pub struct Written {
    pub address: u64,
    pub first: u64,
    pub count: u64,
}

/// The record being taken, of which slot it is, and how many of its fields were loaded.
#[derive(Clone, Copy)]
pub struct Half {
    pub slot: u64,
    pub what: Record,
    pub loaded: u64,
}

/// The place being copied, with the word that was loaded from it.
#[derive(Clone, Copy)]
pub struct Carried {
    pub address: u64,
    pub field: u64,
    pub word: u64,
}

/// A field of a replica and the word that it gets.
#[derive(Clone, Copy)]
pub struct Target {
    pub replica: u64,
    pub field: u64,
    pub word: u64,
}

/// A word that was seen or put at a place.
#[derive(Clone, Copy)]
pub struct Seen {
    pub place: u64,
    pub word: u64,
}

/// The mutator's part of a state. No value of it is made.
pub struct Vm {
    /// How many words each space has.
    pub space: u64,
    /// How many cycles were flipped.
    pub cycle: u64,
    /// How many cycles were opened.
    pub epoch: u64,
    /// By slot, the head as it was last loaded.
    pub heads: [u64; 0],
    /// By slot, all that was logged.
    pub logs: [[Record; 0]; 0],
    pub written: Option<Written>,
    pub objects: [Object; 0],
    /// The addresses of the new objects.
    pub fresh: [u64; 0],
    /// How many words of the object being made are stored.
    pub making: u64,
    /// Where the current space is no longer in use.
    pub end: u64,
    pub next_birth: u64,
    /// The roots of the last flip, renamed.
    pub roots: [u64; 0],
    /// Whether a field was stored, or an object made, since a cycle was last opened.
    pub stored: bool,
}

/// The collector's part of a state. No value of it is made.
pub struct Gc {
    pub space: u64,
    pub cycle: u64,
    /// The epoch as it was last loaded.
    pub epoch: u64,
    /// By slot, all that was taken.
    pub taken: [[Record; 0]; 0],
    pub taking: Option<Half>,
    pub copying: Option<Carried>,
    pub pairs: [Pair; 0],
    /// First headers of objects that it knows.
    pub headers: [Seen; 0],
    /// Words that it put into the other space for replicas to be.
    pub placed: [Seen; 0],
    /// Addresses that were named in this cycle, by a root handed over or by a word loaded from an
    /// original.
    pub known: [u64; 0],
    /// The roots handed over in this cycle.
    pub handed: [u64; 0],
}
