//! Events by their names in rows, each with its numbers.

use ps_core_machine::events::{Event, Roots};
use ps_record::Record;
use std::alloc::{AllocError, Global};

/// The number at a place of a row, and zero past the last one.
fn at(numbers: &[u64], place: usize) -> u64 {
    numbers.get(place).copied().unwrap_or(0)
}

/// A place record of these numbers, as far as they fit.
fn place_of(address: u64, first: u64, count: u64) -> Record {
    Record::Place {
        address: (address % (1 << 32)) as u32,
        first: (first % (1 << 16)) as u16,
        count: (count % (1 << 16)) as u16,
    }
}

/// The roots that a row names in its numbers from a place on, but for the last one, where its
/// answer stands.
fn roots_of(alloc: Global, numbers: &[u64], from: usize) -> Result<Roots, AllocError> {
    let mut words = Vec::new(alloc);
    for (place, number) in numbers.iter().enumerate() {
        if place >= from && place + 1 < numbers.len() {
            words.push(*number)?;
        }
    }
    Ok(Roots { words })
}

/// The event of this name that the mutator's seat makes alone.
fn of_mutator(name: &str, numbers: &[u64]) -> Option<Event> {
    let first = at(numbers, 0);
    let second = at(numbers, 1);
    let third = at(numbers, 2);
    match name {
        "look" => Some(Event::VmLoad {
            place: first,
            word: second,
        }),
        "clear-load" => Some(Event::ClearLoad),
        "clear" => Some(Event::ClearStore),
        "header" => Some(Event::HeaderStore { header: first }),
        "field" => Some(Event::FieldStore {
            address: first,
            field: second,
            word: third,
        }),
        "log" => Some(Event::RecordStore {
            slot: first,
            record: place_of(second, third, at(numbers, 3)),
        }),
        "close" => Some(Event::RecordStore {
            slot: first,
            record: Record::Close,
        }),
        "open" => Some(Event::EpochStore),
        _ => None,
    }
}

/// The event of this name that the collector's seat makes alone.
fn of_collector(name: &str, numbers: &[u64]) -> Option<Event> {
    let first = at(numbers, 0);
    let second = at(numbers, 1);
    match name {
        "see" => Some(Event::GcLoad {
            place: first,
            word: second,
        }),
        "take" => Some(Event::TakeLoad {
            slot: first,
            word: second,
        }),
        "copy" => Some(Event::CopyLoad {
            address: first,
            field: second,
            word: at(numbers, 2),
        }),
        "place" => Some(Event::ReplicaHeaderStore {
            place: first,
            word: second,
        }),
        "scan" => Some(Event::ReplicaFieldStore { scans: true }),
        "apply" => Some(Event::ReplicaFieldStore { scans: false }),
        "forward" => Some(Event::ForwardStore {
            original: first,
            replica: second,
        }),
        "taken" => Some(Event::HeadStore),
        _ => None,
    }
}

/// The event of this name, and none where no event has it.
pub fn event_of(alloc: Global, name: &str, numbers: &[u64]) -> Result<Option<Event>, AllocError> {
    match name {
        "hand" => Ok(Some(Event::HandOver {
            word: at(numbers, 0),
            roots: roots_of(alloc, numbers, 1)?,
        })),
        "flip" => Ok(Some(Event::CycleStore {
            roots: roots_of(alloc, numbers, 0)?,
        })),
        _ => Ok(of_mutator(name, numbers).or(of_collector(name, numbers))),
    }
}
