//! Every order of a program's steps with at most so many cuts, over memory that is never collected
//! (PLRM2, 7.1).
//!
//! Why so:
//! - A cut is a step of any context but whoever is due (`due`). So no cut is one run, that of turns
//!   without a bound, and where a context waits there is no choice for nothing (delay bounding).
//! - A run's order is its contexts, one a step. So no step is refused, and a `vmstatus` is shown
//!   zeros: what is printed follows from the order alone.
//! - A vault hands out its schedule only where it is given up. So a run keeps it beside the vault,
//!   and whose turn it is (`PlainRun`).
//! - Many steps are made at once. That each of them was one that could be made is known where the
//!   vault is given up, and so that none of them was a cut (`go_on`).
//! - Where the cuts of an order are isn't kept while orders are searched. The run of one that is
//!   told is made again for them (`cuts_of`): within steps that are made at once there is none.
//! - Two endings are one where the printed bytes and the outcome are (`Ending`); the hash is of the
//!   bytes alone.
#![tactic(auto)]

mod cutting;
mod endings;
mod exploring;
mod runs;
mod trees;

pub use cutting::cuts_of;
pub use endings::Ending;
pub use exploring::explore_orders;
pub use runs::PlainRun;
pub use trees::Runs;
