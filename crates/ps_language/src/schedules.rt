//! Entries of a schedule.

/// Neighbouring steps of one context in a schedule.
///
/// Only the last of the steps may be refused (a refused step that needs a new object raises
/// `VMerror`), and only at the last one may a `vmstatus` show its pair: the words used, and the
/// words there are. An entry of 0 steps is no step.
#[derive(Clone, Copy, Debug, PartialEq, Eq)]
pub struct Entry {
    /// The context's identifier, from 1.
    pub context: u32,
    /// How many steps.
    pub steps: u32,
    /// Whether the last step is refused.
    pub refused: bool,
    /// What a `vmstatus` in the last step shows, if one does.
    pub shown: Option<(i32, i32)>,
}
