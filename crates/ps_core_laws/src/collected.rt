//! Memories that have their collector inside, and what a collector counts.

ghost use Rattle.std.specs.Prelude.{◌≡◌};

use crate::sides::LoggedMemory;

/// How much a collector has done.
#[derive(Clone, Copy, Debug, PartialEq, Eq)]
pub struct Counts {
    /// The cycles that were flipped.
    pub flips: u32,
    /// The records that were taken of all logs.
    pub taken: u64,
}

/// A memory with its collector in one value, which works where it is told to, between steps.
pub trait CollectedMemory: LoggedMemory {
    /// In an open cycle the collector scans fields and takes records, at most so many together.
    /// False: it found nothing that is left to scan or to take. No clause says when it may.
    fn work(&mut self, actions: u32) -> bool
        ensures heap { Self.heap self.new ≡ Self.heap self.old }
        ensures grants { Self.grants self.new ≡ Self.grants self.old };
}
