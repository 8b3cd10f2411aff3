//! The record being taken: what of it is loaded, what is left to store, and what a load makes of
//! it.
#![tactic(auto)]

ghost use Rattle.std.specs.Prelude.{◌≡◌, ◌&&◌, not};
ghost use Rattle.ps_record.specs.Format as layout;
ghost use Rattle.ps_core_machine.specs.Objects as objects;
ghost use Rattle.ps_core_machine.specs.Steps as steps;

use ps_core_machine::events::{Carried, Half};
use ps_core_machine::lists::pair_of;
use ps_core_machine::parts::Replica;
use ps_record::{PackedRecord, Record};

/// Whether all fields of a record were loaded, where so many were.
pub fn is_loaded(logged: Record, loaded: u64) -> bool
    ensures { result ≡ objects.is_loaded logged loaded }
{
    match logged {
        Record::Place { count, .. } => count as u64 <= loaded,
        Record::Close => true,
    }
}

/// Whether a record names the place.
pub fn names(logged: Record, place: u64, field: u64) -> bool
    ensures { result ≡ objects.names logged place field }
{
    match logged {
        Record::Place {
            address,
            first,
            count,
        } => place == address as u64
            && first as u64 <= field
            && field < first as u64 + count as u64,
        Record::Close => false,
    }
}

/// Whether a place that a record names is being copied.
pub fn is_copied_from(logged: Record, copying: Option<Carried>) -> bool
    ensures { result ≡ objects.is_copied_from logged copying }
{
    match copying {
        None => false,
        Some(k) => names(logged, k.address, k.field),
    }
}

/// Whether a record names an object that has no replica.
pub fn lacks_replica(pairs: &[Replica], logged: Record) -> bool
    ensures { result ≡ objects.lacks_replica pairs.now logged }
{
    match logged {
        Record::Place { address, .. } => pair_of(pairs, address as u64).is_none(),
        Record::Close => false,
    }
}

/// Whether nothing of the record being taken is left to load or to store.
pub fn is_spent(half: Half, copying: Option<Carried>) -> bool
    ensures { result ≡ (objects.is_loaded half.what half.loaded && not
        (objects.is_copied_from half.what copying)) }
{
    is_loaded(half.what, half.loaded) && !is_copied_from(half.what, copying)
}

/// What is being taken after a load of the ring place where record `number` of the slot is to
/// stand.
pub fn taken_up(slot: u64, number: u64, word: u64) -> Option<Half>
    ensures { result ≡ steps.taken_up slot (layout.read_record number word) }
{
    match PackedRecord(word).read(number) {
        None => None,
        Some(what) => Some(Half {
            slot,
            what,
            loaded: 0,
        }),
    }
}

/// Whether this field of a record is the next one to be loaded.
pub fn is_next(logged: Record, loaded: u64, place: u64, field: u64) -> bool
    ensures { result ≡ objects.is_next logged loaded place field }
{
    match logged {
        Record::Place {
            address,
            first,
            count,
        } => place == address as u64 && loaded < count as u64 && field == first as u64 + loaded,
        Record::Close => false,
    }
}

/// The record being taken after a load.
pub fn with_load(taking: Option<Half>, place: u64, field: u64) -> Option<Half>
    ensures { result ≡ objects.with_load taking place field }
{
    match taking {
        None => None,
        Some(h) => {
            let loaded = if is_next(h.what, h.loaded, place, field) {
                h.loaded + 1
            } else {
                h.loaded
            };
            Some(Half {
                slot: h.slot,
                what: h.what,
                loaded,
            })
        }
    }
}
