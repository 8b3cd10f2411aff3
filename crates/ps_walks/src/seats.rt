//! What a walk keeps of each context that is left.

ghost use Rattle.std.specs.Prelude.{◌<◌, IfSome, length};

use crate::raised::Raised;
use crate::taken::Taken;
use std::alloc::{AllocError, Global};

/// What is kept of a context.
#[derive(Drop)]
struct Seat {
    context: u32,
    taken: Taken,
    raised: Option<Raised>,
}

/// Of all that are left, in no order: they are at most 32.
#[derive(Drop)]
pub(crate) struct Seats {
    seats: Vec<Seat>,
}

impl Seats {
    pub(crate) fn new(alloc: Global) -> Seats {
        Seats {
            seats: Vec::new(alloc),
        }
    }

    /// The place of a context among them.
    fn position(&self, context: u32) -> Option<usize>
        ensures { IfSome result (λ place. place < length self.now.seats.items) }
    {
        for place in 0..self.seats.len() {
            if self.seats[place].context == context {
                return Some(place);
            }
        }
        None
    }

    /// What a context took last.
    pub(crate) fn taken(&self, context: u32) -> Taken {
        match self.position(context) {
            Some(place) => self.seats[place].taken,
            None => Taken::Nothing,
        }
    }

    /// The error that a context raised last.
    pub(crate) fn raised(&self, context: u32) -> Option<&Raised> {
        match self.position(context) {
            Some(place) => match &self.seats[place].raised {
                Some(raised) => Some(raised),
                None => None,
            },
            None => None,
        }
    }

    /// Keeps what a context took.
    pub(crate) fn take(&mut self, context: u32, taken: Taken) -> Result<(), AllocError> {
        match self.position(context) {
            Some(place) => {
                self.seats[place].taken = taken;
                Ok(())
            }
            None => {
                self.seats.push(Seat {
                    context,
                    taken,
                    raised: None,
                })?;
                Ok(())
            }
        }
    }

    /// Keeps the error that a context raised, in place of the one before.
    pub(crate) fn keep(&mut self, context: u32, raised: Raised) {
        if let Some(place) = self.position(context) {
            self.seats[place].raised = Some(raised);
        }
    }

    /// Keeps nothing more of a context that is gone.
    pub(crate) fn remove(&mut self, context: u32) {
        if let Some(place) = self.position(context) {
            let _ = self.seats.swap_remove(place);
        }
    }
}
