//! What whoever makes a step is told.

/// What whoever makes a step is told (PLRM2, 7.1, 8 'vmstatus').
#[derive(Clone, Copy, Debug, PartialEq, Eq)]
pub enum Note {
    Nothing,
    /// The turn of the context ends: after `yield` and `wait`, and where `monitor` or `join` waits.
    TurnEnds,
    /// A `vmstatus` acted: the schedule keeps what it was shown.
    ShowsMemory,
    /// A `vmreclaim` acted, with this number, from -2 to 2.
    Wishes(i32),
}
