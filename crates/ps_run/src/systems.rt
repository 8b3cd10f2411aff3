//! What a run has of the system that it runs on, beside files and outputs.

use std::alloc::{AllocError, Global};
use std::hash::RandomState;

/// Threads, memory, and the keys for tables of names.
pub struct System<'r, R> {
    pub rt: &'r R,
    pub alloc: Global,
    pub keys: RandomState,
}

impl<R> Clone for System<'_, R> {
    fn clone(&self) -> Result<Self, AllocError> {
        Ok(*self)
    }
}

impl<R> Copy for System<'_, R> {}
