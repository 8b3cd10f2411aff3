//! The range of fields that stores have written and no record names yet.
#![tactic(auto)]

ghost use Rattle.std.specs.Bool.{Decides};
ghost use Rattle.std.specs.Prelude.{◌≡◌, ◌<◌, ◌^◌};
ghost use Rattle.ps_record.specs.Format as layout;
ghost use Rattle.ps_core_machine.specs.Bounds.{IsShort};
ghost use Rattle.ps_core_machine.specs.Conditions as conditions;
ghost use Rattle.ps_core_machine.specs.Objects as objects;

use ps_core_machine::events::Written;
use ps_record::Record;

/// Whether a store there is in what is written, or next to it, or nothing is written.
pub fn adjoins(written: Option<Written>, address: u64, field: u64) -> bool
    ensures { result ≡ objects.adjoins written address field }
{
    match written {
        None => true,
        Some(w) => address == w.address
            && (w.first <= field || w.first - field <= 1)
            && (field <= w.first || field - w.first <= w.count),
    }
}

/// Whether a place record names just what is written.
pub fn names_written(written: Option<Written>, logged: Record) -> bool
    ensures { Decides result (conditions.IsNamed written logged) }
{
    match (logged, written) {
        (Record::Close, _) => true,
        (
            Record::Place {
                address,
                first,
                count,
            },
            Some(w),
        ) => w.address == address as u64 && w.first == first as u64 && w.count == count as u64,
        (Record::Place { .. }, None) => false,
    }
}

/// Whether the layout has a word for the record.
pub fn fits(logged: Record) -> bool
    ensures { Decides result (layout.IsRecord logged) }
{
    match logged {
        Record::Close => true,
        Record::Place {
            address,
            first,
            count,
        } => address < 1 << 24 && count > 0 && (first as u32) + (count as u32) < 1 << 16,
    }
}

/// What is written after one more store.
pub fn widened(written: Option<Written>, address: u64, field: u64) -> Written
    requires short { IsShort written }
    requires small { field < 2 ^ 20 }
    ensures { result ≡ objects.widened written address field }
{
    match written {
        None => Written {
            address,
            first: field,
            count: 1,
        },
        Some(w) => {
            let first = w.first.min(field);
            Written {
                address: w.address,
                first,
                count: (w.first + w.count).max(field + 1) - first,
            }
        }
    }
}
