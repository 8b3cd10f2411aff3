//! What was taken of the logs, in numbers.

use ps_record::SLOTS;

/// By slot, what was taken of its log, so that no call looks it up.
#[derive(Drop)]
pub struct Taken {
    /// How many records.
    pub numbers: [u64; SLOTS as usize],
    /// Whether the close of the open cycle is among them.
    pub closed: [bool; SLOTS as usize],
}
