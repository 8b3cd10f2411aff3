//! The execution stack: its frames, the operators that push them, and the turns of loops (PLRM2,
//! 3.4, 8 'Operators': Control).
//!
//! Why so:
//! - An operator of control is told by operands, frames and a store, for every dictionary stack. So
//!   a step over contexts uses it as it is.
//! - `for` keeps its control value in 64 bits: it passes the limit by one turn before the frame
//!   goes. `IsCourse` bounds it, so an addition can't overflow.
//! - `is_past` compares once, in the order that the increment's sign gives. A comparison for each
//!   sign would make the compiler do both.
//! - `push_control` finds the loop's frame before it pushes. The compiler doesn't know that stacks
//!   don't overlap, and would load the frame's place again.
//! - `forall_turn` asks its caller that the place is below 2^32, since what is said of frames here
//!   doesn't give it.
//! - A loop's turn goes ahead up to the frame of the procedure that it enters (`Ahead`), and
//!   changes its own frame in place. An empty procedure needs no frame.
#![tactic(auto)]

pub mod ahead;
pub mod control;
pub mod frames;
pub mod readers;
pub mod turns;
pub mod unwinding;
