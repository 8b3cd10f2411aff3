//! What a run began with, as a part of the type of what its threads share.
//!
//! What a lock holds is known by its type alone. So the type tells which run it is.

use std::marker::Brand;

/// What a run began with. A run picks it once.
pub(crate) trait Origin {
    ghost use Rattle.ps_run_workers.specs.Batons.{Start};

    /// Its program, its numbers, and what its viewer had seen.
    ghost start: { Start };
}

impl Origin for Brand {
    ghost use Rattle.std.specs.Prelude.{[], None, false};

    ghost start = { record {
      program = [];
      config = record { space = 0; workers = 0; quantum = 0; steps = 0; output = 0; entries = 0 };
      sight = record { seen = None; watching = false; shown = 0; failed = false };
      schedule = [];
    } };
}
