//! What a run shows of itself: the state of its world behind so many steps, and the lines of a step
//! and of a cut, as text.
//!
//! Why so:
//! - The text is a function of the world, of the places in its program and of the number of the
//!   step (`state_text`). So it is the same in every memory, and two of them can be compared line
//!   by line.
//! - The parts of a text are appended one behind another, each read where it stands. So nothing is
//!   built beside the text but the text of one value.
//! - Whether a context may go on is asked of whoever does its operators, and handed in.
#![tactic(auto)]

mod charts;
mod contexts;
mod cuts;
mod frames;
mod locks;
mod moments;
mod next;
mod operands;
mod presences;
mod remarks;
mod sought;
mod stacks;
mod states;
mod statuses;
mod steps;
mod values;
mod waits;

pub use charts::Chart;
pub use cuts::append_cut;
pub use moments::{Outset, StepEnd, end_of, error_text, moment_of, outset_of};
pub use presences::{Presence, Related, Tie, push_related, push_started, tell_presences};
pub use sought::{Sought, fits_before, fits_behind};
pub use states::{Crowd, StepCount, append_state};
pub use steps::{Known, StepBy, append_step, known_of};
pub use waits::append_waits;
