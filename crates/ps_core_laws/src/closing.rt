//! What closing a log comes to.

/// Whether the log of a slot is closed.
#[derive(Clone, Copy, Debug, PartialEq, Eq)]
pub enum Closing {
    /// It is, until the cycle ends.
    Closed,
    /// No record has a free place, by the head just loaded.
    LogFull,
}
