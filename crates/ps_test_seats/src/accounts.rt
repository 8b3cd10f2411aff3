//! An account of a cycle over two arrays, by the definition of a flip and no word of the collector:
//! what was put and taken, which fields are filled and what has a replica. It foretells each
//! answer. Where a number is out of range nothing is done.

use crate::arrays::{Item, Store};
use ps_core_laws::Unready;
use ps_gc::Drained;
use ps_record::{Record, SLOTS};
use std::alloc::{AllocError, Global};

/// The fields of each array.
pub const FIELDS: u16 = 8;

/// How many arrays there are.
const ARRAYS: usize = 2;

/// A log of the open cycle.
#[derive(Drop)]
struct Log {
    records: Vec<Record>,
    taken: usize,
    is_closed: bool,
}

/// An array, and its replica.
#[derive(Drop)]
struct Array {
    address: u32,
    held: [Item; FIELDS as usize],
    has_replica: bool,
    filled: [bool; FIELDS as usize],
}

/// A call of the collector.
#[derive(Clone, Copy)]
pub enum Work {
    Replicate(usize),
    Scan,
    Drain(u32),
}

/// What was done in a cycle.
#[derive(Drop)]
pub struct Account {
    logs: Vec<Log>,
    arrays: Vec<Array>,
    /// The arrays with replicas in the order of these.
    replicas: Vec<usize>,
    /// How many roots were replicated.
    pub roots: usize,
}

impl Account {
    /// A cycle was opened over arrays at these addresses.
    pub fn new(alloc: Global, addresses: &[u32]) -> Result<Account, AllocError> {
        let mut logs = Vec::new(alloc);
        for _ in 0..SLOTS as u32 {
            logs.push(Log {
                records: Vec::new(alloc),
                taken: 0,
                is_closed: false,
            })?;
        }
        let mut arrays = Vec::new(alloc);
        for address in addresses {
            arrays.push(Array {
                address: *address,
                held: [Item::Number(0); FIELDS as usize],
                has_replica: false,
                filled: [false; FIELDS as usize],
            })?;
        }
        Ok(Account {
            logs,
            arrays,
            replicas: Vec::new(alloc),
            roots: 0,
        })
    }

    /// A field holds an item from now on.
    pub fn hold(&mut self, store: Store) {
        if let Some(array) = self.arrays.get_mut(store.array) {
            if let Some(held) = array.held.get_mut(store.field as usize) {
                *held = store.item;
            }
        }
    }

    /// A store was made.
    pub fn store(&mut self, store: Store) -> Result<(), AllocError> {
        self.hold(store);
        let log = self.logs.get_mut(store.slot as usize);
        if let (Some(log), Some(array)) = (log, self.arrays.get(store.array)) {
            log.records.push(Record::Place {
                address: array.address,
                first: store.field,
                count: 1,
            })?;
        }
        Ok(())
    }

    /// The log of a slot was closed.
    pub fn close(&mut self, slot: u32) -> Result<(), AllocError> {
        if let Some(log) = self.logs.get_mut(slot as usize) {
            if !log.is_closed {
                log.is_closed = true;
                log.records.push(Record::Close)?;
            }
        }
        Ok(())
    }

    /// What an item refers to has a replica from now on.
    fn refer(&mut self, item: Item) -> Result<(), AllocError> {
        let Item::Array(number) = item else {
            return Ok(());
        };
        if let Some(array) = self.arrays.get_mut(number) {
            if !array.has_replica {
                array.has_replica = true;
                self.replicas.push(number)?;
            }
        }
        Ok(())
    }

    /// A root was replicated.
    pub fn replicate(&mut self, number: usize) -> Result<(), AllocError> {
        self.roots = number.saturating_add(1);
        self.refer(Item::Array(number))
    }

    /// The first field that isn't filled, as replicas were made.
    fn unfilled(&self) -> Option<(usize, usize)> {
        for number in &self.replicas {
            if let Some(array) = self.arrays.get(*number) {
                if let Some(field) = array.filled.iter().position(|filled| !*filled) {
                    return Some((*number, field));
                }
            }
        }
        None
    }

    /// Whether a field is copied, and the field is filled then.
    pub fn scan(&mut self) -> Result<bool, AllocError> {
        let Some((number, field)) = self.unfilled() else {
            return Ok(false);
        };
        let mut item = Item::Number(0);
        if let Some(array) = self.arrays.get_mut(number) {
            if let Some(filled) = array.filled.get_mut(field) {
                *filled = true;
            }
            item = array.held.get(field).copied().unwrap_or(item);
        }
        self.refer(item)?;
        Ok(true)
    }

    /// What a look at the log of a slot comes to.
    pub fn drain(&mut self, slot: u32) -> Result<Option<Drained>, AllocError> {
        let Some(log) = self.logs.get_mut(slot as usize) else {
            return Ok(None);
        };
        match log.records.get(log.taken).copied() {
            None => Ok(Some(if log.is_closed {
                Drained::Closed
            } else {
                Drained::Nothing
            })),
            Some(record) => {
                log.taken = log.taken.saturating_add(1);
                if let Record::Place { address, first, .. } = record {
                    self.apply(address, first)?;
                    return Ok(Some(Drained::Took(record)));
                }
                Ok(Some(Drained::Closed))
            }
        }
    }

    /// The field that a record names is copied, where its array has a replica.
    fn apply(&mut self, address: u32, field: u16) -> Result<(), AllocError> {
        let named = self.arrays.iter().find(|array| array.address == address);
        let Some(array) = named else {
            return Ok(());
        };
        match array.held.get(field as usize).copied() {
            Some(item) if array.has_replica => self.refer(item),
            _ => Ok(()),
        }
    }

    /// What a try to flip comes to: the first reason that stands, if there is one.
    pub fn flip(&self) -> Result<(), Unready> {
        if self.logs.iter().any(|log| !log.is_closed) {
            return Err(Unready::LogOpen);
        }
        if self.logs.iter().any(|log| log.taken < log.records.len()) {
            return Err(Unready::Undrained);
        }
        if self.unfilled().is_some() {
            return Err(Unready::Unscanned);
        }
        if self.arrays.iter().any(|array| !array.has_replica) {
            return Err(Unready::RootNotCopied);
        }
        Ok(())
    }

    /// The next call that finds something: of the letters, `r` for a root, `s` for a field and `d`
    /// for a record, the first that names one.
    pub fn next(&self, order: &str) -> Option<Work> {
        for letter in order.as_bytes() {
            let work = match *letter {
                b'r' if self.roots < ARRAYS => Some(Work::Replicate(self.roots)),
                b's' => self.unfilled().map(|_| Work::Scan),
                b'd' => self.undrained().map(|slot| Work::Drain(slot)),
                _ => None,
            };
            if work.is_some() {
                return work;
            }
        }
        None
    }

    /// The first slot of which a record isn't taken.
    fn undrained(&self) -> Option<u32> {
        (0..SLOTS as u32).find(|slot| match self.logs.get(*slot as usize) {
            Some(log) => log.taken < log.records.len(),
            None => false,
        })
    }
}
