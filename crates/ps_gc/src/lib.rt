//! The collector: it copies what the program can reach into the other space, while the program
//! runs, by the steps of its seat at words of any kind. No call waits or takes memory.
//!
//! Why so:
//! - One seat has both parts where the collector has no thread (`CollectedSpace`). The calls of two
//!   seats join them, run the same bodies and part them, so no step is written twice.
//! - With two seats (`MutatorSeat`, `Copier`), whoever makes steps has the mutator's, and the
//!   collector works beside it. The name of their table is a type parameter of both (`Naming`), so
//!   that they are known to belong together wherever both come to hand.
//! - `CollectedSpace` takes any kind of words: plain ones, where workers take turns and the
//!   collector acts between steps, or shared ones, where each step is atomic and dearer.
//! - One action in `ACTIONS_A_LOOK` looks at a log and the others scan, so a scan isn't slowed by
//!   empty logs. A record may wait some actions for it.
//! - What is written or not yet taken names fields of a standing object; this crate has an
//!   induction over runs for it, since no clause of `law` says so.
#![tactic(auto)]

mod collector;
mod copiers;
mod copies;
mod drains;
mod endings;
mod flips;
mod inside;
mod naming;
mod replicas;
mod scans;
mod seats;
mod space;
mod taken;
mod to_space;

pub use collector::{ACTIONS_A_LOOK, Collector, Drained};
pub use copiers::Copier;
pub use endings::{joined_end_cycle, joined_whole_cycle};
pub use inside::Inside;
pub use naming::Naming;
pub use seats::{MutatorSeat, named_seats};
pub use space::{CollectedSpace, SerialSpaces, SharedSpaces};
pub use taken::Taken;
pub use to_space::ToSpace;
