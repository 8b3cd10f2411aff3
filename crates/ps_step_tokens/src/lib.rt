//! Doing a token of a text (PLRM2, 3.2, 3.5).
//!
//! Why so:
//! - All objects of a procedure are counted and asked for in one call, and then nothing can fail.
//!   It costs that the tokens are walked twice.
//! - That a procedure has no more elements than an array may have is a law about texts
//!   (`scanned_is_short`) and no field of tokens, so `do_procedure` asks for it.
//! - Whether a procedure's names fit is told without memory, since too many are an error. Near the
//!   limit they are counted one by one, which is slow and comes only after a fault.
//! - Doing a number or a name that was met is doing its word as an element (`word_of`, `IsDoneAs`),
//!   so tokens and elements share one fast path.
#![tactic(auto)]

mod fitting;
mod forming;
pub mod laws;
mod missing;
pub mod names;
pub mod numbers;
mod objects;
pub mod procedures;
mod room;
pub mod strings;
pub mod tokens;
pub mod words;
