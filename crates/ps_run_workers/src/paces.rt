//! When a cycle of the collector is opened, and how far steps may go ahead of its copying.
//!
//! Nothing of it is promised: what is printed, and under which schedule, is the same at any pace.

/// The share of what was free at a cycle's opening by which the collector must be ahead before
/// who waited goes on: else each turn would wait again.
const LEAD: u32 = 512;

/// The words of the space, as far as they tell when a cycle is opened, and how fast it is copied.
#[derive(Clone, Copy, Debug)]
pub(crate) struct Pace {
    /// The words of the space.
    space: u32,
    /// Whether the program lets cycles be opened.
    pub(crate) may_open: bool,
    /// The words that were used after the last cycle.
    pub(crate) kept: u32,
    /// The words that were used when the collector was handed the roots of the open cycle.
    used: u32,
    /// The words that it had copied by then.
    copied: u64,
}

impl Pace {
    /// The pace of a run that begins, in a space of so many words.
    pub(crate) fn new(space: u32) -> Pace {
        Pace {
            space,
            may_open: true,
            kept: 0,
            used: 0,
            copied: 0,
        }
    }

    /// A cycle begins to be copied, where so many words are used, and were copied so far.
    pub(crate) fn begin(&mut self, used: u32, copied: u64) {
        self.used = used;
        self.copied = copied;
    }

    /// No cycle is open any more, and so many words are used.
    pub(crate) fn end(&mut self, used: u32) {
        self.kept = used;
    }

    /// Whether steps are ahead of the collector, where so many words are used, and were copied so
    /// far. Of what was free at the opening they may take a quarter at once, and half as what lives
    /// is copied; the last quarter is for what they make until the flip.
    pub(crate) fn is_ahead(&self, used: u32, copied: u64) -> bool {
        let free = self.space.saturating_sub(self.used);
        let made = u64::from(used.saturating_sub(self.used).saturating_sub(free / 4));
        let done = copied.saturating_sub(self.copied);
        made.saturating_mul(u64::from(self.living())) > done.saturating_mul(u64::from(free / 2))
    }

    /// Whether who waited for the collector may go on: steps would not be ahead of it soon.
    pub(crate) fn may_go_on(&self, used: u32, copied: u64) -> bool {
        let lead = self.space.saturating_sub(self.used) / LEAD;
        !self.is_ahead(used.saturating_add(lead), copied)
    }

    /// How many words live, about: as the last cycle left them, or all where there was none.
    fn living(&self) -> u32 {
        if self.kept > 0 { self.kept } else { self.used }
    }
}
