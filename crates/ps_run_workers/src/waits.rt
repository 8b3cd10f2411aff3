//! What the threads of a run leave for each other under the lock. No clause speaks of it: who waits
//! wrongly would wait for ever, and `run` promises nothing then.

use crate::cycles::Cycle;

/// After so many turns in a row that a log held up, workers wait for the collector.
const HELD_LIMIT: u32 = 32;

/// What the collector's thread is asked for. While it is, no worker makes a step.
#[derive(Clone, Copy, Debug, PartialEq, Eq)]
pub(crate) enum Wanting {
    Nothing,
    /// A whole cycle.
    Cycle,
    /// A whole cycle, and the step of this context, which found no room.
    Room(u32),
}

/// What workers and the collector's thread wait for.
#[derive(Clone, Copy, Debug)]
pub(crate) struct Waits {
    pub(crate) wanting: Wanting,
    /// How far the collector's cycle is.
    pub(crate) cycle: Cycle,
    /// How many turns in a row a log held up.
    held: u32,
    /// Whether one of these logs was full.
    full: bool,
    /// Whether a worker waits for the collector to catch up.
    pub(crate) ahead: bool,
    /// Whether the collector's thread waits to be rung for.
    resting: bool,
}

impl Waits {
    /// Nobody waits.
    pub(crate) fn new() -> Waits {
        Waits {
            wanting: Wanting::Nothing,
            cycle: Cycle::Closed,
            held: 0,
            full: false,
            ahead: false,
            resting: false,
        }
    }

    /// Whether workers wait for what the collector's thread does next, in an open cycle.
    pub(crate) fn are_held(&self) -> bool {
        self.is_wanted()
            || !self.cycle.is_handed()
            || self.cycle == Cycle::Stopped
            || self.held >= HELD_LIMIT
    }

    /// Whether the collector's thread is asked for a whole cycle.
    pub(crate) fn is_wanted(&self) -> bool {
        self.wanting != Wanting::Nothing
    }

    /// A turn was held up, by a full log or a closed one.
    pub(crate) fn hold_up(&mut self, full: bool) {
        self.full = self.full || full;
        self.held = self.held.saturating_add(1);
    }

    /// Steps were made.
    pub(crate) fn let_go(&mut self) {
        self.held = 0;
    }

    /// Whether turns were held up for a full log. They may be tried again then.
    pub(crate) fn wake_full(&mut self) -> bool {
        let full = self.full;
        if full {
            self.full = false;
            self.held = 0;
        }
        full
    }

    /// The cycle is so far. Turns that a log held up are forgotten where one begins, is handed its
    /// roots, or ends.
    pub(crate) fn enter(&mut self, cycle: Cycle) {
        if !cycle.is_handed() {
            self.full = false;
        }
        if !(cycle.is_handed() && self.cycle.is_handed()) {
            self.held = 0;
        }
        self.cycle = cycle;
    }

    /// What the collector's thread is asked for, which is done then.
    pub(crate) fn take(&mut self) -> Wanting {
        let wanting = self.wanting;
        self.wanting = Wanting::Nothing;
        wanting
    }

    /// Whether the collector's thread may wait to be rung for; it does then.
    pub(crate) fn rest(&mut self, idle: bool) -> bool {
        self.resting = idle;
        idle
    }

    /// Whether the collector's thread has to be rung for, which is done then.
    pub(crate) fn ring(&mut self, idle: bool) -> bool {
        let rings = self.resting && !idle;
        if rings {
            self.resting = false;
        }
        rings
    }
}
