//! Steps, and parts of them: an error is noted, an unwinding goes on, and a context without frames
//! ends (PLRM2, 3.5, 3.10).
//!
//! Why so:
//! - A step goes on, unwinds further, ends its context, or leaves an operator to the world
//!   (`Turned`). The end of a context stands in the step itself, so its line and its entry are made
//!   whole or not at all.
//! - What raised an error is kept as a word in `$error`, and its text is found when the line is
//!   printed. So noting an error takes no room of the memory.
//! - A note asks for five records before it reads anything, whatever `$error` holds. So an operator
//!   that forms names can ask ahead for it; with fewer left an error waits for the log.
//! - A line that finds no room for its end is taken back, so that the same step can be tried once
//!   more.
#![tactic(auto)]

pub mod batches;
pub mod breaks;
pub mod ends;
pub mod notes;
pub mod raises;
pub mod turned;
pub mod world_operators;
