//! How a run ended.

ghost use Rattle.std.specs.Prelude.{◌≡◌};

use ps_vault::Outcome;
use std::hash::Hash;

/// What a run printed, and its outcome.
#[derive(Debug, Drop, PartialEq, Eq)]
#[derive_where(Hash)]
pub struct Ending {
    pub printed: Vec<u8>,
    #[derive_where(skip(Hash))]
    pub outcome: Outcome,
}
