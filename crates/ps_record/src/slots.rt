//! The number of a log.

ghost use Rattle.std.specs.Prelude.{◌≡◌, ◌<◌, ◌%◌, ◌+◌};

use crate::SLOTS;
use std::marker::Model;

/// The number of a log, below 32.
#[derive(Clone, Copy, Debug, PartialEq, Eq)]
pub struct Slot {
    number: u32,
}

impl Model for Slot {
    ghost use Rattle.std.specs.Prelude.{◌<◌, ℕ};

    ghost Value = { ℕ };

    ghost view = { λ slot. slot.number };

    ghost invariant = { λ slot. slot.number < 32 };

    ghost inverse = { λ number. record { number = number } };
}

impl Slot {
    /// The slot of a context's identifier.
    #[inline(always)]
    pub fn of(identifier: u32) -> Slot
        ensures { result ≡ identifier % 32 }
    {
        Slot {
            number: identifier % SLOTS as u32,
        }
    }

    /// The slot of a number below 32.
    #[inline(always)]
    pub fn numbered(number: u64) -> Slot
        requires { number < 32 }
        ensures { result ≡ number }
    {
        Slot {
            number: number as u32,
        }
    }

    /// The one behind it, in turn.
    #[inline(always)]
    pub fn next(self) -> Slot
        ensures { result ≡ (self + 1) % 32 }
    {
        Slot {
            number: (self.number + 1) % SLOTS as u32,
        }
    }

    /// Its place in a table of 32.
    #[inline(always)]
    pub fn index(self) -> usize
        ensures is { result ≡ self }
        ensures within { result < 32 }
    {
        self.number as usize
    }
}
