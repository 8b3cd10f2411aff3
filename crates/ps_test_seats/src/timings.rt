//! Closes the logs behind each store of a script, and asks for the flip behind each call of the
//! collector: the answers are those of an account, and the arrays hold at the end what those of a
//! memory hold that is never collected.

ghost use Rattle.std.specs.Prelude.{◌≡◌};

use crate::accounts::{Account, FIELDS, Work};
use crate::arrays::{Arrays, Item, Store, array_at, item_of};
use crate::sides::{Seats, Sides};
use anyhow::{Result, ensure};
use ps_core_laws::{Closing, Unready};
use ps_gc::Naming;
use ps_mem::plain::PlainMemory;
use ps_mem::{Memory, Permit};
use ps_record::SLOTS;
use std::alloc::Global;

/// The stores of the script.
pub const STORES: u32 = 40;

/// More calls than a cycle takes.
const MOST_CALLS: u32 = 1000;

/// When logs are closed, and what the collector does.
#[derive(Clone, Copy)]
pub struct Timing<'a> {
    /// The letters of the collector's calls, the more urgent first.
    pub order: &'a str,
    /// How many calls there are behind each store before the logs are closed.
    pub calls: u32,
    /// The slot whose log alone is closed; none: all are.
    pub slot: Option<u32>,
    /// Behind which store.
    pub after: u32,
}

/// The store of this number: in two arrays in turn, under one slot twice and then under another.
fn store_of(number: u32) -> Store {
    let array = (number % 2) as usize;
    let item = if number % 5 == 0 {
        Item::Array(1 - array)
    } else if number % 7 == 0 {
        Item::Array(array)
    } else {
        Item::Number((number % STORES) as i32)
    };
    Store {
        slot: 1 + number / 2 % 2,
        array,
        field: (number % STORES * 3 % FIELDS as u32) as u16,
        item,
    }
}

/// What fills a field at first: two arrays name each other.
fn first_in(array: usize, field: u16) -> Store {
    let item = if field == 0 {
        Item::Array(1 - array.min(1))
    } else {
        Item::Number(field as i32)
    };
    Store {
        slot: 0,
        array,
        field,
        item,
    }
}

/// Makes two arrays and fills them, without a cycle.
fn make_both<M: Memory + Drop>(arrays: &mut Arrays<M>) -> Result<()> {
    arrays.make(FIELDS)?;
    arrays.make(FIELDS)?;
    for array in 0..2 {
        for field in 0..FIELDS {
            let stored = arrays.store(first_in(array, field));
            ensure!(stored == Some(Permit::Yes), "an array is not filled");
        }
    }
    Ok(())
}

/// Makes the script's stores from one on, without a cycle.
fn store_rest<M: Memory + Drop>(arrays: &mut Arrays<M>, from: u32) -> Result<()> {
    for number in from..STORES {
        let stored = arrays.store(store_of(number));
        ensure!(stored == Some(Permit::Yes), "store {number} is not made");
    }
    Ok(())
}

/// A cycle over the two arrays, and the account of it.
#[derive(Drop)]
struct Attempt<J: Naming> {
    sides: Sides<J>,
    account: Account,
}

impl<J: Naming> Attempt<J> {
    /// An open cycle, of which the collector knows.
    fn new(alloc: Global, seats: Seats) -> Result<Attempt<J>>
        requires { seats.vm.seat.table_id ≡ J.table }
    {
        let mut sides = Sides::new(alloc, seats);
        make_both(&mut sides.arrays)?;
        ensure!(sides.arrays.open(), "no cycle is opened");
        sides.hand()?;
        let mut addresses = Vec::new(alloc);
        for array in 0..2 {
            if let Some(part) = array_at(sides.arrays.words.as_slice(), array) {
                addresses.push(part.address)?;
            }
        }
        let mut account = Account::new(alloc, addresses.as_slice())?;
        for array in 0..2 {
            for field in 0..FIELDS {
                account.hold(first_in(array, field));
            }
        }
        Ok(Attempt { sides, account })
    }

    /// Makes the store of this number.
    fn store(&mut self, number: u32) -> Result<()> {
        let stored = self.sides.arrays.store(store_of(number));
        ensure!(stored == Some(Permit::Yes), "store {number} is not made");
        self.account.store(store_of(number))?;
        Ok(())
    }

    /// Closes the log of a slot, or all.
    fn close(&mut self, slot: Option<u32>) -> Result<()> {
        for at in 0..SLOTS as u32 {
            if slot.unwrap_or(at) == at {
                let closed = self.sides.arrays.close(at);
                ensure!(closed == Some(Closing::Closed), "log {at} is not closed");
                self.account.close(at)?;
            }
        }
        Ok(())
    }

    /// Makes a call of the collector.
    fn call(&mut self, work: Work) -> Result<()> {
        match work {
            Work::Replicate(array) => {
                ensure!(
                    self.sides.replicate(array).is_some(),
                    "root {array} has no replica"
                );
                self.account.replicate(array)?;
            }
            Work::Scan => {
                let wanted = self.account.scan()?;
                ensure!(self.sides.scan() == Some(wanted), "scan is not {wanted}");
            }
            Work::Drain(slot) => {
                let wanted = self.account.drain(slot)?;
                ensure!(
                    self.sides.drain(slot) == wanted,
                    "drain {slot} is not {wanted:?}"
                );
            }
        }
        Ok(())
    }

    /// Makes the next call that finds something. False: there is none.
    fn go_on(&mut self, order: &str) -> Result<bool> {
        match self.account.next(order) {
            None => Ok(false),
            Some(work) => {
                self.call(work)?;
                Ok(true)
            }
        }
    }

    /// Tries to flip. True: the cycle is flipped.
    fn try_flip(&mut self) -> Result<bool> {
        let wanted = self.account.flip();
        ensure!(
            self.sides.try_flip() == Some(wanted),
            "flip is not {wanted:?}"
        );
        Ok(wanted.is_ok())
    }

    /// Tries to flip behind each call of the collector, until it is done or nothing is left to do;
    /// a store of this number is refused meanwhile.
    fn flip_behind_each(&mut self, order: &str, number: Option<u32>) -> Result<bool> {
        for _ in 0..MOST_CALLS {
            if let Some(number) = number {
                let stored = self.sides.arrays.store(store_of(number));
                let refused = stored == Some(Permit::LogClosed);
                ensure!(refused, "store {number} is not refused");
            }
            if self.try_flip()? {
                return Ok(true);
            }
            if !self.go_on(order)? {
                return Ok(false);
            }
        }
        Ok(false)
    }

    /// Each look at a log finds nothing, and no field is unfilled.
    fn find_nothing(&mut self) -> Result<()> {
        for slot in 0..SLOTS as u32 {
            self.call(Work::Drain(slot))?;
            self.try_flip()?;
        }
        self.call(Work::Scan)
    }
}

/// Whether the arrays hold what those of a memory hold that is never collected.
fn hold_the_same<M: Memory + Drop>(alloc: Global, arrays: &mut Arrays<M>) -> Result<bool> {
    let memory = PlainMemory::new(alloc);
    let mut others = Arrays::new(alloc, memory);
    make_both(&mut others)?;
    store_rest(&mut others, 0)?;
    for array in 0..2 {
        for field in 0..FIELDS {
            let held = arrays.load(array, field);
            let other = others.load(array, field);
            let held = held.and_then(|word| item_of(arrays.words.as_slice(), word));
            let other = other.and_then(|word| item_of(others.words.as_slice(), word));
            if held.is_none() || held != other {
                return Ok(false);
            }
        }
    }
    Ok(true)
}

/// Closes logs behind one store of the script, and makes the others when the cycle is over. True:
/// it was flipped; where one log alone is closed it is ended in its place.
pub fn time_one<J: Naming>(alloc: Global, seats: Seats, timing: Timing) -> Result<bool>
    requires { seats.vm.seat.table_id ≡ J.table }
{
    let mut attempt: Attempt<J> = Attempt::new(alloc, seats)?;
    for number in 0..timing.after.min(STORES) {
        attempt.store(number)?;
        for _ in 0..timing.calls {
            attempt.go_on(timing.order)?;
        }
    }
    attempt.close(timing.slot)?;
    let refused = match timing.slot {
        None => Some(timing.after),
        Some(slot) => (timing.after..STORES).find(|number| store_of(*number).slot == slot),
    };
    let flipped = attempt.flip_behind_each(timing.order, refused)?;
    if !flipped {
        attempt.find_nothing()?;
        ensure!(attempt.sides.end(), "no cycle is ended");
    }
    store_rest(&mut attempt.sides.arrays, timing.after)?;
    ensure!(
        hold_the_same(alloc, &mut attempt.sides.arrays)?,
        "the arrays differ"
    );
    Ok(flipped)
}
