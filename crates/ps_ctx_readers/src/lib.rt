//! What a context of a world is doing and what it has, for whoever looks at a run: its frames, the
//! name of a procedure, its last error, its operands and what its program defined (PLRM2, 3.4, 3.7,
//! 3.10).
//!
//! Why so:
//! - A reader changes nothing, and is told what the definitions have of every world that the
//!   contexts are at. So what is shown of a run is the same wherever its objects stand.
//! - A frame is seen by birth numbers and places, without addresses and values. So it may be kept
//!   beyond the step, and says the same in every memory.
//! - The name of a procedure is looked for where it is wanted, by a walk through the dictionaries
//!   that the context has: nothing else knows under which key a value stands.
//! - A value is told by kind, number and length, and its bytes go to a room of the caller's: so
//!   telling takes no memory and can't fail for want of it. `userdict` is looked for on the context's
//!   dictionary stack, where it is the second from below in each world that a program comes to.
#![tactic(auto)]

pub mod births;
pub mod contexts;
pub mod errors;
pub mod frames;
pub mod names;
pub mod values;
pub mod views;
