//! A run that is made again, step by step, and tells where the error of each error line is (PLRM2,
//! 3.10), its state behind a step, or what each step does.
//!
//! Why so:
//! - No element of a procedure carries a place, and a run is made as ever. Who wants places makes it
//!   a second time from its own schedule, over memory that only grows.
//! - Where a token stands is known while it is taken, so the tokens that made objects are kept
//!   (`Origins`), and for each context what it took last (`Taken`).
//! - An error is kept where it is raised, for its context, and told where its line is printed. So an
//!   error that was caught and stopped for again is told where it was raised.
//! - Whether a step printed the line of an error is what the contexts note of it (`has_faulted`),
//!   which a walk makes new before each step. So no printed byte is looked at.
//! - `stop` begins an unwinding as an error does, and `$error` may have the same error as before. So
//!   a step raised an error where it began one and what it took isn't the operator `stop`.
#![tactic(auto)]

mod before;
mod cuts;
mod drawn;
mod errors;
mod finds;
mod kept;
mod raised;
mod seats;
mod singles;
mod step_lines;
mod stops;
mod taken;
mod telling;
mod timelines;
mod waits;
mod walks;

pub use cuts::cut_lines_of;
pub use finds::find_step;
pub use raised::RaisedAt;
pub use step_lines::{StepRange, step_lines_of};
pub use timelines::timeline_of;
pub use waits::waits_of;
pub use walks::{Rerun, WalkFault, places_of, raised_at, state_of};
