//! The collector as a pure machine over the atomic steps on its table, of two seats.
//!
//! `Core` is the machine with the events that it made: its state is always that of their run. What
//! every run keeps is the contract of `law`.
//!
//! Why so:
//! - A seat's condition and change are code over that seat's part alone (`mutator`, `collector`). So
//!   a seat at a real table can run them without the other part.
//! - `leads_back` compares a forwarding word by its places of bits, since here it is only a number
//!   that was seen.
//! - `Core` copies its state before it steps, so that nothing has changed where memory runs out. It
//!   is a reference to prove and test against, and no program of the language runs it.
//! - Its tests are rows of events that `ps_test_layers` reads. Tests in code would be proved
//!   function by function.
#![tactic(auto)]

pub mod collector;
mod machine;
pub mod mutator;
mod pairs;
mod runs;
mod taking;
mod values;
mod written;

pub use ps_core_laws::law;
pub use runs::{Core, Refused};
