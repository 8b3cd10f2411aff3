//! The single steps of a schedule, one after another.
//!
//! It keeps that no more steps of the entry that it is at are behind it than that has.

ghost use Rattle.std.specs.Prelude.{◌≡◌, ◌≤◌, ◌++◌, ◌∷◌, [], drop, MatchOption};
ghost use Rattle.ps_language.specs.Schedules.{moves, moves_of};
ghost use Rattle.ps_run_schedules.specs.Turns.{move_of};

use crate::walks::way_of;
use ps_language::schedules::Entry;
use ps_run_schedules::Entries;
use std::marker::Model;

/// A step: whose it is, whether it is refused room, and what a `vmstatus` in it is shown.
#[derive(Clone, Copy, Debug, PartialEq, Eq)]
pub(crate) struct Single {
    pub(crate) context: u32,
    pub(crate) refused: bool,
    pub(crate) shown: Option<(i32, i32)>,
}

/// A reader of a schedule, seen as the moves that are left.
#[derive(Drop)]
pub(crate) struct Singles<'s> {
    entry: Entry,
    /// How many steps of the entry are behind it.
    made: u32,
    left: Entries<'s>,
}

impl<'s> Model for Singles<'s> {
    ghost use Rattle.std.specs.Prelude.{◌<◌, ◌≤◌, ◌^◌, ◌++◌, List, drop};
    ghost use Rattle.ps_language.specs.Schedules.{Move, moves, moves_of};

    ghost Value = { List Move };

    ghost view = { λ s. drop s.made (moves_of s.entry s.entry.steps) ++ moves s.left };

    ghost invariant = { λ s. (s.made ≤ s.entry.steps) × (s.entry.steps < 2 ^ 32) };
}

impl<'s> Singles<'s> {
    /// Those of a schedule.
    pub(crate) fn of(schedule: Entries<'s>) -> Singles<'s>
        ensures { result ≡ moves schedule.entry }
    {
        let none = Entry {
            context: 0,
            steps: 0,
            refused: false,
            shown: None,
        };
        Singles {
            entry: none,
            made: 0,
            left: schedule,
        }
    }

    /// Goes behind so many steps, or behind all where there are fewer.
    pub(crate) fn pass(&mut self, steps: u64)
        ensures { self.new ≡ drop steps self.old }
    {
        let mut more = steps;
        loop {
            let here = u64::from(self.entry.steps - self.made);
            if more <= here {
                self.made += more as u32;
                return;
            }
            more -= here;
            self.made = self.entry.steps;
            let Some(entry) = self.left.next() else {
                return;
            };
            self.entry = entry;
            self.made = 0;
        }
    }

    /// The next step, if one is left.
    pub(crate) fn next(&mut self) -> Option<Single>
        ensures { MatchOption result ((self.old ≡ []) × (self.new ≡ []))
            (λ one. self.old ≡ move_of one.context one.refused one.shown ∷ self.new) }
    {
        while self.made == self.entry.steps {
            let entry = self.left.next()?;
            self.entry = entry;
            self.made = 0;
        }
        let (refused, shown) = way_of(self.entry, self.made);
        self.made += 1;
        Some(Single {
            context: self.entry.context,
            refused,
            shown,
        })
    }
}
