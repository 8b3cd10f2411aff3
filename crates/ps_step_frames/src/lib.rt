//! A step by the topmost frame, and one frame of an unwinding (PLRM2, 3.4, 3.5, 3.10).
//!
//! Why so:
//! - A frame goes on before its element is done, as the definitions have it, and is put back where
//!   the step isn't made. That is rare, and costs one store of a frame.
//! - The last element takes its procedure's frame with it, so a procedure that ends in a loop needs
//!   no frame more for it.
//! - What is left of a procedure is pushed once, without the element that is done (`push_rest`),
//!   and `treat_apart` treats the value by a call that isn't given the rest.
//! - A turn of a loop goes ahead (`turn_ahead`): its frame is changed in place, and the frame of
//!   its procedure isn't pushed. So does the step of a procedure that waits, as `exec` leaves it:
//!   all else that waits goes the general way.
#![tactic(auto)]

pub mod ahead;
pub mod bindings;
pub mod binds;
pub mod elements;
pub mod frames;
pub mod loops;
pub mod monitors;
pub mod places;
pub mod releases;
pub mod steps;
pub mod unwindings;
