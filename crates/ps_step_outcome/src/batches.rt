//! Steps that are made one after another.

/// Steps that were made, each of which goes on, and what the one behind them came to.
#[derive(Clone, Copy, Debug, PartialEq, Eq)]
pub struct Batch<T> {
    /// How many were made.
    pub made: u32,
    /// None where as many were made as were asked for, or the context has no step left.
    pub next: Option<T>,
}
