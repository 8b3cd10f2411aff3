//! A log whose ring is full, and many records put and taken in turn.

ghost use Rattle.std.specs.Prelude.{◌≡◌};

use crate::arrays::{Fields, array_at};
use crate::sides::{Seats, Sides};
use anyhow::{Result, ensure};
use ps_core_laws::Closing;
use ps_gc::{Drained, Naming};
use ps_mem::Permit;
use ps_record::Record;
use std::alloc::Global;

/// The fields of the array that is written.
const FIELDS: u16 = 700;

/// The records that a ring takes.
const RING: u32 = 256;

/// The records that are put and taken in turn.
const TURNS: u32 = 600;

/// Two arrays, whose fields are copied from one to the other, and the records of a slot.
#[derive(Drop)]
struct Ring<J: Naming> {
    sides: Sides<J>,
    slot: u32,
    address: u32,
    put: Vec<Record>,
    taken: Vec<Record>,
}

impl<J: Naming> Ring<J> {
    /// An open cycle, of which the collector knows, and no record.
    fn new(alloc: Global, seats: Seats, slot: u32) -> Result<Ring<J>>
        requires { seats.vm.seat.table_id ≡ J.table }
    {
        let mut sides = Sides::new(alloc, seats);
        sides.arrays.make(FIELDS)?;
        sides.arrays.make(FIELDS)?;
        ensure!(sides.arrays.open(), "no cycle is opened");
        sides.hand()?;
        sides.replicate_all();
        let part = array_at(sides.arrays.words.as_slice(), 1);
        Ok(Ring {
            sides,
            slot,
            address: part.map(|part| part.address).unwrap_or(0),
            put: Vec::new(alloc),
            taken: Vec::new(alloc),
        })
    }

    /// Puts a record, which names one field to three, where it is permitted.
    fn put(&mut self) -> Result<Option<Permit>> {
        let number = (self.put.len() % 65536) as u16;
        let from = Fields {
            array: 0,
            first: number % 5,
            count: 1 + number % 3,
        };
        let place = number % (FIELDS - 3);
        let permit = self.sides.arrays.copy(self.slot, from, 1, place);
        if permit == Some(Permit::Yes) {
            self.put.push(Record::Place {
                address: self.address,
                first: place,
                count: from.count,
            })?;
        }
        Ok(permit)
    }

    /// Puts so many records.
    fn put_many(&mut self, count: u32) -> Result<()> {
        for at in 0..count {
            ensure!(
                self.put()? == Some(Permit::Yes),
                "record {at} is not permitted"
            );
        }
        Ok(())
    }

    /// Takes so many records.
    fn take_many(&mut self, count: u32) -> Result<()> {
        for at in 0..count {
            match self.sides.drain(self.slot) {
                Some(Drained::Took(record)) => self.taken.push(record)?,
                _ => ensure!(false, "record {at} is not taken"),
            }
        }
        Ok(())
    }

    /// No record more is permitted, and no close.
    fn is_full(&mut self) -> Result<bool> {
        let permit = self.put()?;
        let closing = self.sides.arrays.close(self.slot);
        Ok(permit == Some(Permit::LogFull) && closing == Some(Closing::LogFull))
    }
}

/// Fills the ring of a slot, drains it by one, and puts and takes records in turn: how many were
/// taken, which are those that were put.
pub fn fill_and_drain<J: Naming>(alloc: Global, seats: Seats, slot: u32) -> Result<usize>
    requires { seats.vm.seat.table_id ≡ J.table }
{
    let mut ring: Ring<J> = Ring::new(alloc, seats, slot)?;
    ring.put_many(RING)?;
    ensure!(ring.is_full()?, "the ring is not full");
    ring.take_many(1)?;
    ring.put_many(1)?;
    ensure!(ring.is_full()?, "the ring is not full again");
    ring.take_many(RING)?;
    ensure!(
        ring.sides.drain(slot) == Some(Drained::Nothing),
        "a record is left"
    );
    for turn in 0..TURNS / 10 {
        let count = 1 + turn % 9;
        ring.put_many(count)?;
        ring.take_many(count)?;
        ring.put_many(10 - count)?;
        ring.take_many(10 - count)?;
    }
    ensure!(
        ring.put.as_slice() == ring.taken.as_slice(),
        "other records were taken"
    );
    Ok(ring.taken.len())
}
