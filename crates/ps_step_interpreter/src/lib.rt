//! One context by itself: its steps, over whoever does what a step is made of (PLRM2, 3.5, 3.10).
//!
//! Why so:
//! - Who makes the turns of a context is a trait (`Interpret`), so worlds and vaults are proved
//!   beside tokens, frames and operators.
//! - `Interpret::run` makes one step after another and hands up only what the one behind them came
//!   to (`Runs`, `TurnsBehind`). So the common step passes through no result.
//! - A context by itself has definitions of its own, in which an operator of the world raises
//!   `undefined` (`alone_laws`). The program doesn't rest on them; rows in a bounded memory do.
//! - There an operator whose `undefined` can't be noted yet waits, since its element is taken
//!   already (`AloneCourse::Calling`). Its next step is the note.
#![tactic(auto)]

pub mod courses;
pub mod interpreter;
pub mod interprets;
pub mod worlds;
