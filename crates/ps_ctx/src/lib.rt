//! The contexts of a run in one world: their steps, over whoever does what a step is made of
//! (PLRM2, 7.1).
//!
//! Why so:
//! - A step shows a world and is none: words name addresses, and the definitions name birth
//!   numbers. So each contract holds for every store that the memory shows, whatever the memory is.
//! - Operators of the world are lent the world by a trait (`Deeds`), so steps of a world are proved
//!   beside them.
//! - A call that can't be made is kept (`calling`), and the world is still the one before the step.
//!   No other context steps before it is made, which is a premise of steps (`MayStep`).
//! - `NeedSpace` comes only where the words and the birth numbers of a step don't fit. That these
//!   are those that the language counts is a law by itself (`wanting_laws`), since the language
//!   knows of no memory.
//! - `words_shown` shows a memory of no words as one of one word, since a line of a schedule has
//!   numbers from 1 on.
//! - A `vmstatus` whose call waits shows zeros: it raised an error whose note found no room, and
//!   raises it again. That it does so is known by reading, and in no clause.
//! - A turn settles its context only where no frame is left (`run_of`). Else nothing would change,
//!   which is proved.
#![tactic(auto)]

pub mod deeds;
pub mod laws;
pub mod makers;
pub mod notes;
mod retries;
pub mod runs;
pub mod starts;
mod turns;
pub mod worlds;
