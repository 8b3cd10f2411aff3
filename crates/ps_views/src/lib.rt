//! What a run shows of itself, as text: where an error is, what the state is behind so many steps,
//! what each step does, and how runs ended.
//!
//! Why so:
//! - A text is told by a plain struct, whoever finds out what it holds. So this crate knows neither
//!   contexts nor memory.
//! - What a program wrote is shown as printable ASCII alone, a `?` for each other byte. So no
//!   program sends commands to the terminal, and a byte is as wide as its column says. Text beyond
//!   ASCII isn't readable for that price.
//! - The name of the file is the user's own, and stays as it is, so that an editor finds the file.
#![tactic(auto)]

mod bytes;
mod cuts;
mod frames;
mod lines;
mod orders;
mod places;
mod sources;
mod states;
mod steps;
mod worlds;

pub use bytes::{append, append_number};
pub use cuts::{CutAt, CutLine, Turn, append_cut_line};
pub use frames::{Coming, FrameLine, append_frame};
pub use lines::append_label;
pub use orders::{EndingLine, Reach, append_ending, append_reach};
pub use places::{Caller, ErrorPlace, Spot, append_place, spot_at};
pub use states::{
    ContextHead, StateHead, StatusLine, append_context, append_dictionary, append_head,
    append_lock, append_next, append_operand,
};
pub use steps::{
    Remark, StepLine, append_remark, append_step_coming, append_step_line, append_step_operand,
};
pub use worlds::{WorldEnding, WorldsFound, append_found, append_world_ending};
