//! A run that one walks by commands: steps forward and back, to a step, to the next that is such as
//! is sought, and what there is behind one.
//!
//! Why so:
//! - A run follows from its schedule, so a step back is a walk from the start again. What is kept
//!   between two commands is the number of the step behind which one stands, and the last line.
//! - Each text is that which is told of the same step without commands (`step_lines_of`,
//!   `state_of`), so what is read here is found again there.
//! - What stops a command tells so, and one stands where one stood.
#![tactic(auto)]

mod answers;
mod commands;
mod numbers;
mod sessions;

pub use answers::Walkable;
pub use commands::{Command, parse};
pub use sessions::{Session, opening};
