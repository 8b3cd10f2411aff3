//! Objects, replicas and logs as the machine holds them.
#![tactic(auto)]

ghost use Rattle.std.specs.Prelude.{◌≡◌, ◌<◌, ◌^◌, ◌++◌, ◌∷◌, true, nat_lt, replicate, slice_set};
ghost use Rattle.std.specs.Prelude.{if◌then◌else◌, IfOk, OnOk, [], length, MatchBool};
ghost use Rattle.ps_core_machine.specs.Objects as objects;
ghost use Rattle.ps_core_machine.specs.Steps.{new_pair};
ghost use Rattle.ps_word.specs.Headers as headers;

use ps_record::Record;
use ps_word::headers::fields_in;
use std::alloc::{AllocError, Global};
use std::marker::Model;

/// The records of a slot.
#[derive(Drop)]
pub struct Log {
    records: Vec<Record, Global>,
}

impl Model for Log {
    ghost use Rattle.std.specs.Prelude.{List};
    ghost use Rattle.ps_record.specs.declared.Record.{Record};

    ghost Value = { List Record };

    ghost view = { λ l. l.records.items };
}

/// An object that stands.
#[derive(Drop)]
pub struct StandingObject {
    address: u64,
    header: u64,
    fields: Vec<u64, Global>,
}

impl Model for StandingObject {
    ghost use Rattle.ps_core_machine.specs.declared.events.Object.{Object};

    ghost Value = { Object };

    ghost view = { λ object. record {
      address = object.address;
      header = object.header;
      fields = object.fields.items;
    } };
}

/// An original with its replica.
#[derive(Drop)]
pub struct Replica {
    original: u64,
    replica: u64,
    header: u64,
    fields: Vec<u64, Global>,
    filled: Vec<bool, Global>,
}

impl Model for Replica {
    ghost use Rattle.ps_core_machine.specs.declared.events.Pair.{Pair};

    ghost Value = { Pair };

    ghost view = { λ p. record {
      original = p.original;
      replica = p.replica;
      header = p.header;
      fields =
          p.fields.items;
      filled = p.filled.items;
    } };
}

impl Log {
    /// How many closes it has.
    pub fn closes(&self) -> u64
        ensures { result ≡ objects.closes self.now }
    {
        self.records.iter().filter(|r| **r == Record::Close).count() as u64
    }

    /// Whether it has the same records.
    pub fn is_same(&self, other: &Log) -> bool
        ensures { MatchBool result (self.now ≡ other.now) (self.now ≡ other.now → ⊥) }
    {
        same_records(self.records.as_slice(), other.records.as_slice())
    }

    /// One record more.
    pub fn push(&mut self, logged: Record) -> Result<(), AllocError>
        ensures { OnOk result (self.new ≡ self.old ++ logged ∷ []) }
    {
        self.records.push(logged)?;
        Ok(())
    }

    /// No records yet.
    pub fn new(alloc: Global) -> Log
        ensures { result ≡ [] }
    {
        Log {
            records: Vec::new(alloc),
        }
    }

    /// How many there are: records, or fields.
    pub fn len(&self) -> u64
        ensures value { result ≡ length self.now }
        ensures small { result < 2 ^ 63 }
    {
        self.records.len() as u64
    }

    /// The same once more; memory may be short.
    pub fn copy(&self) -> Result<Log, AllocError>
        ensures { IfOk result (λ l. l ≡ self.now) }
    {
        Ok(Log {
            records: self.records.clone()?,
        })
    }
}

impl StandingObject {
    /// The index of its first header.
    pub fn address(&self) -> u64
        ensures { result ≡ self.now.address }
    {
        self.address
    }

    /// Its first header.
    pub fn header(&self) -> u64
        ensures { result ≡ self.now.header }
    {
        self.header
    }

    /// How many there are: records, or fields.
    pub fn len(&self) -> u64
        ensures { result ≡ length self.now.fields }
    {
        self.fields.len() as u64
    }

    /// The same once more; memory may be short.
    pub fn copy(&self) -> Result<StandingObject, AllocError>
        ensures { IfOk result (λ o. o ≡ self.now) }
    {
        Ok(StandingObject {
            address: self.address,
            header: self.header,
            fields: self.fields.clone()?,
        })
    }
}

impl StandingObject {
    /// A new object, whose fields are zero.
    pub fn new(alloc: Global, address: u64, header: u64) -> Result<StandingObject, AllocError>
        ensures { IfOk result (λ o. o ≡ record {
          address = address;
          header = header;
          fields =
              replicate (headers.fields_in header) 0;
        }) }
    {
        Ok(StandingObject {
            address,
            header,
            fields: Vec::from_elem(alloc, 0u64, fields_in(header) as usize)?,
        })
    }

    /// The object after a store to a field of the one at this address.
    pub fn stored(self, address: u64, field: u64, word: u64) -> StandingObject
        ensures { result ≡ objects.stored address field word self }
    {
        let mut object = self;
        if address == object.address {
            object.store(field, word);
        }
        object
    }

    /// Stores to a field.
    pub fn store(&mut self, field: u64, word: u64)
        ensures { self.new ≡ record self.old { fields = slice_set self.old.fields field word } }
    {
        if field < self.fields.len() as u64 {
            self.fields[field as usize] = word;
        }
    }
}

impl Replica {
    /// The address of the original.
    pub fn original(&self) -> u64
        ensures { result ≡ self.now.original }
    {
        self.original
    }

    /// The address of the replica.
    pub fn replica(&self) -> u64
        ensures { result ≡ self.now.replica }
    {
        self.replica
    }

    /// Its first header.
    pub fn header(&self) -> u64
        ensures { result ≡ self.now.header }
    {
        self.header
    }

    /// How many there are: records, or fields.
    pub fn len(&self) -> u64
        ensures { result ≡ length self.now.fields }
    {
        self.fields.len() as u64
    }

    /// Whether the replica ends past this place.
    pub fn ends_after(&self, place: u64) -> bool
        ensures { result ≡ nat_lt place (objects.end_of self.now) }
    {
        place < self.replica || place - self.replica < self.len() + 2
    }

    /// The place where the replica has ended.
    pub fn end(&self) -> u64
        requires { objects.end_of self.now < 2 ^ 64 }
        ensures { result ≡ objects.end_of self.now }
    {
        self.replica + 2 + self.len()
    }

    /// The replica of an original that gets a pair: all of its fields are zero, and none is filled.
    pub fn new(
        alloc: Global,
        original: u64,
        replica: u64,
        header: u64,
    ) -> Result<Replica, AllocError>
        ensures { IfOk result (λ p. p ≡ new_pair original replica header) }
    {
        let count = fields_in(header) as usize;
        Ok(Replica {
            original,
            replica,
            header,
            fields: Vec::from_elem(alloc, 0u64, count)?,
            filled: Vec::from_elem(alloc, false, count)?,
        })
    }

    /// Stores to a field; the scan's store fills it.
    pub fn store(&mut self, field: u64, word: u64, scans: bool)
        ensures { self.new ≡ record self.old {
          fields = slice_set self.old.fields field word;
          filled =
              if scans then slice_set self.old.filled field true else self.old.filled;
        } }
    {
        if field < self.fields.len() as u64 {
            self.fields[field as usize] = word;
        }
        if scans && field < self.filled.len() as u64 {
            self.filled[field as usize] = true;
        }
    }

    /// The pair after a store to a field of the replica of this original.
    pub fn copied_to(self, address: u64, field: u64, word: u64, scans: bool) -> Replica
        ensures { result ≡ objects.copied_to address field word scans self }
    {
        let mut pair = self;
        if address == pair.original {
            pair.store(field, word, scans);
        }
        pair
    }

    /// The replica as an object that stands.
    pub fn into_object(self) -> StandingObject
        ensures { result ≡ record
            { address = self.replica; header = self.header; fields = self.fields } }
    {
        let Replica {
            original: _,
            replica,
            header,
            fields,
            filled: _,
        } = self;
        StandingObject {
            address: replica,
            header,
            fields,
        }
    }

    /// Whether the scan has stored each field.
    pub fn is_filled(&self) -> bool
        ensures { result ≡ objects.all_true self.now.filled }
    {
        self.filled.iter().all(|b| *b)
    }

    /// The same once more; memory may be short.
    pub fn copy(&self) -> Result<Replica, AllocError>
        ensures { IfOk result (λ p. p ≡ self.now) }
    {
        Ok(Replica {
            original: self.original,
            replica: self.replica,
            header: self.header,
            fields: self.fields.clone()?,
            filled: self.filled.clone()?,
        })
    }
}

/// Whether two lists of records are the same.
fn same_records(a: &[Record], b: &[Record]) -> bool
    ensures { MatchBool result (a.now ≡ b.now) (a.now ≡ b.now → ⊥) }
{
    if a.len() != b.len() {
        return false;
    }
    for i in 0..a.len() {
        if a[i] != b[i] {
            return false;
        }
    }
    true
}
