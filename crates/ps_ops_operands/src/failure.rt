//! Why an operator did nothing.

use ps_language::errors::ErrorName;
use thiserror::Error;

/// Why a step was not made. Nothing has changed then, and the same step may be tried again.
#[derive(Clone, Copy, Debug, PartialEq, Eq, Error)]
pub enum NotMade {
    /// The log of the slot has too few free places for the records of the step.
    #[error("the log is full")]
    LogFull,
    /// The log of the slot is closed until the cycle ends.
    #[error("the log is closed")]
    LogClosed,
    /// What the step would make, so many words, has no room in the space.
    #[error("{0} words are needed")]
    NeedSpace(u32),
    /// A growth of the memory was refused.
    #[error("out of memory")]
    Memory,
}

/// Why an operator did nothing: it raised an error of the language, or its step can't be made.
#[derive(Clone, Copy, Debug, PartialEq, Eq, Error)]
pub enum Failure {
    /// An error of the language (PLRM2, 3.10).
    #[error("an error of the language")]
    Error(ErrorName),
    #[error(transparent)]
    NotMade(NotMade),
}
