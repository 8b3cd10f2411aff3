//! The entries of a schedule, one after another.

ghost use Rattle.std.specs.Prelude.{◌≡◌, ◌∷◌, ◌++◌, [], MatchOption};
ghost use Rattle.ps_run_schedules.specs.Packing.{entries_in};

use crate::coding;
use ps_language::schedules::Entry;
use std::marker::Model;

/// A reader of a schedule, seen as the entries that are left: those that are packed, and behind
/// them those of a slice.
#[derive(Drop)]
pub struct Entries<'a> {
    left: usize,
    bytes: &'a [u8],
    behind: &'a [Entry],
}

impl<'a> Model for Entries<'a> {
    ghost use Rattle.std.specs.Prelude.{List, ◌++◌};
    ghost use Rattle.ps_language.specs.declared.schedules.Entry.{Entry as ScheduleEntry};
    ghost use Rattle.ps_run_schedules.specs.Packing.{entries_in};

    ghost Value = { List ScheduleEntry };

    ghost view = { λ e. (entries_in e.left e.bytes.now).0 ++ e.behind.now };
}

impl<'a> Entries<'a> {
    /// Those of a slice.
    pub fn of(entries: &'a [Entry]) -> Entries<'a>
        ensures { result ≡ entries.now }
    {
        Entries {
            left: 0,
            bytes: &[],
            behind: entries,
        }
    }

    /// So many that bytes begin with, and those of a slice behind them.
    pub(crate) fn packed(left: usize, bytes: &'a [u8], behind: &'a [Entry]) -> Entries<'a>
        ensures { result ≡ (entries_in left bytes.now).0 ++ behind.now }
    {
        Entries {
            left,
            bytes,
            behind,
        }
    }

    /// The next entry, if one is left.
    pub fn next(&mut self) -> Option<Entry>
        ensures { MatchOption result ((self.old ≡ []) × (self.new ≡ []))
            (λ entry. self.old ≡ entry ∷ self.new) }
    {
        if self.left == 0 {
            let (first, behind) = self.behind.split_first()?;
            self.behind = behind;
            return Some(*first);
        }
        let (entry, rest) = coding::entry(self.bytes);
        self.left -= 1;
        self.bytes = rest;
        Some(entry)
    }
}
