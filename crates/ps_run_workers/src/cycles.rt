//! How far the collector's cycle is.

/// How far the collector's cycle is. It stands under the lock, and the collector's thread leads it
/// on, one arrow in each hold (`Baton::advance_cycle`).
///
/// ```text
///             a worker opens one       roots handed over        a log is full
///    Closed --------------------> Open -----------------> Copying <---------+
///      ^                                                     |  |           |
///      |                                                     |  +-----------+
///      |                                                     | all logs closed
///      |                                                     v
///      |                                                  Draining
///      |                                                     | the roots of now handed over
///      |                         flip                        v
///      +--------------------------------------------------- Last
///      |                                                     | no flip yet: the roots of now
///      |                                                     v handed over, no worker steps
///      +--------- flip, or the cycle is ended there ------ Stopped
/// ```
///
/// A step that found no room, or a `vmreclaim`, leads from each of them to `Closed` in one hold.
/// From `Copying` on the collector's thread copies without the lock between two holds.
#[derive(Clone, Copy, Debug, PartialEq, Eq)]
pub(crate) enum Cycle {
    /// None is open.
    Closed,
    /// One is open, and the collector wasn't handed its roots yet.
    Open,
    /// The collector copies. Then it closes the logs.
    Copying,
    /// It takes what is left of the logs, which are closed.
    Draining,
    /// It copies what the roots of a while ago reach. Then it tries to flip.
    Last,
    /// It copies what the roots of now reach, since no worker makes a step, and flips then.
    Stopped,
}

impl Cycle {
    /// Whether the collector was handed the cycle's roots, so that it copies.
    pub(crate) fn is_handed(self) -> bool {
        !matches!(self, Cycle::Closed | Cycle::Open)
    }
}
