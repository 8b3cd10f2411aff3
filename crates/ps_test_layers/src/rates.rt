//! Rows of dictionaries: `dictionary SIZE STEP CAPACITY`, made by puts of so many multiples of a
//! step; each is found, and the capacity is this.

ghost use Rattle.std.specs.Prelude.{◌≡◌};
ghost use Rattle.ps_mem.specs.References.{StandsAs};
ghost use Rattle.ps_mem.specs.Shows.{IsSound};

use anyhow::Result;
use ps_dict::changes::put;
use ps_dict::dictionaries::{capacity, value_of_key};
use ps_dict::makes::new_dictionary;
use ps_dict::plans::{PutPlan, plan_put};
use ps_language::kinds::Kind;
use ps_mem::plain::PlainMemory;
use ps_mem::{Memory, Permit, Slot};
use ps_word::words::Word;
use std::time::Instant;

/// Puts an integer under itself. Whether it was put: not where memory is wanted.
fn put_number<M: Memory>(memory: &mut M, address: u32, number: i32) -> bool
    requires sound { IsSound (M.heap memory.old) }
    requires known { StandsAs (M.heap memory.old) Kind.Dictionary address 4 }
    ensures sound { IsSound (M.heap memory.new) }
    ensures known { StandsAs (M.heap memory.new) Kind.Dictionary address 4 }
{
    let key = Word::integer(number);
    let plan = plan_put(memory, address, key);
    match plan {
        PutPlan::Full => false,
        _ => {
            let words = plan.words();
            let records = plan.records();
            if memory.need(words, 0).is_err() {
                return false;
            }
            if memory.permit(Slot::of(1), records) != Permit::Yes {
                return false;
            }
            put(memory, Slot::of(1), address, plan, key, key);
            true
        }
    }
}

/// Puts so many multiples of a step into a dictionary. How many were put.
fn put_all<M: Memory>(memory: &mut M, address: u32, size: i32, step: i32) -> u32
    requires sound { IsSound (M.heap memory.old) }
    requires known { StandsAs (M.heap memory.old) Kind.Dictionary address 4 }
    ensures sound { IsSound (M.heap memory.new) }
    ensures known { StandsAs (M.heap memory.new) Kind.Dictionary address 4 }
{
    let mut done: u32 = 0;
    for number in 0..size {
        if put_number(memory, address, number.wrapping_mul(step)) {
            done = done.wrapping_add(1);
        }
    }
    done
}

/// Looks up so many multiples of a step. How many a dictionary has.
fn find_all<M: Memory>(memory: &mut M, address: u32, size: i32, step: i32) -> u32
    requires sound { IsSound (M.heap memory.old) }
    requires known { StandsAs (M.heap memory.old) Kind.Dictionary address 4 }
    ensures heap { M.heap memory.new ≡ M.heap memory.old }
{
    let mut found: u32 = 0;
    for number in 0..size {
        let key = Word::integer(number.wrapping_mul(step));
        if value_of_key(memory, address, key).is_some() {
            found = found.wrapping_add(1);
        }
    }
    found
}

/// Looks up all of them in so many rounds.
fn find_often<M: Memory>(memory: &mut M, address: u32, size: i32, step: i32, rounds: u16) -> u32
    requires sound { IsSound (M.heap memory.old) }
    requires known { StandsAs (M.heap memory.old) Kind.Dictionary address 4 }
    ensures heap { M.heap memory.new ≡ M.heap memory.old }
{
    let mut found: u32 = 0;
    for _ in 0..rounds {
        found = found.wrapping_add(find_all(memory, address, size, step));
    }
    found
}

/// So many nanoseconds divided by a number of times.
fn each(nanoseconds: u128, times: u64) -> u64 {
    u64::try_from(nanoseconds).unwrap_or(u64::MAX) / times.max(1)
}

/// What a dictionary has.
#[derive(Clone, Copy)]
pub struct Filled {
    pub put: u32,
    pub found: u32,
    pub capacity: u32,
}

/// Makes a dictionary from no capacity on, by puts of so many multiples of a step, and looks each
/// up. With rounds the times go to standard error. Nothing: memory is wanted.
pub fn measure(rt: &HostRuntime, size: i32, step: i32, rounds: u16) -> Result<Option<Filled>> {
    let mut memory = PlainMemory::new(rt.alloc());
    if memory.need(8, 1).is_err() {
        return Ok(None);
    }
    let address = new_dictionary(&mut memory, 0);
    let start = Instant::now(rt)?;
    let put = put_all(&mut memory, address, size, step);
    let puts = each(start.elapsed(rt)?.as_nanos(), put as u64);
    let found = find_all(&mut memory, address, size, step);
    let capacity = capacity(&mut memory, address);
    if rounds > 0 {
        let start = Instant::now(rt)?;
        let often = find_often(&mut memory, address, size, step, rounds);
        let looks = each(start.elapsed(rt)?.as_nanos(), often as u64);
        eprintln!(rt; "{size} by {step}: {puts} ns a put, {looks} ns a look-up")?;
    }
    Ok(Some(Filled {
        put,
        found,
        capacity,
    }))
}

/// Whether a dictionary of so many multiples of a step has this capacity, and each was put and
/// found.
pub fn is_filled(rt: &HostRuntime, row: &str) -> Result<bool> {
    let mut numbers: Vec<i32> = Vec::new(rt.alloc());
    for text in row.split_whitespace() {
        numbers.push(text.parse()?)?;
    }
    let [size, step, capacity] = numbers.as_slice() else {
        return Ok(false);
    };
    let Some(filled) = measure(rt, *size, *step, 0)? else {
        return Ok(false);
    };
    let count = size.unsigned_abs();
    Ok(filled.put == count && filled.found == count && filled.capacity == capacity.unsigned_abs())
}
