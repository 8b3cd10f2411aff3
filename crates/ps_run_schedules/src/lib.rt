//! Schedules as a run keeps them, packed; the text of a schedule, a line for each entry, written
//! and read (the profile's own); how many steps it has, and whether it begins another.
//!
//! Why so:
//! - A run that changes its contexts at each step makes an entry of each. So entries stand as
//!   numbers of few bytes, but for the last one, which further steps join (`Schedule`).
//! - What an entry takes is bounded, so that room for two can be had before the steps that make
//!   them, and noting a step never fails.
//! - What is read of bytes is a function of any bytes (`entries_in`). So a reader needs no
//!   invariant, and that what was pushed is read is said once, of what `push_entry` writes.
//! - A text is a schedule's exactly where writing that schedule gives it: no leading zeros, one
//!   space, a line feed behind each line. So a file has one schedule. An editor that drops the last
//!   line feed has it refused.
//! - A line is judged as soon as what follows can't change the answer (`TellsLine`): where it is
//!   whole, or as long as a line may be. So `read_entries` takes a text in parts of any size.
#![tactic(auto)]

mod coding;
mod entries;
mod fields;
mod fronts;
mod laws;
mod lines;
mod packed;
mod reading;
mod steps;
mod turns;
mod writing;

pub use entries::Entries;
pub use fronts::begins;
pub use laws::schedule_text_laws;
pub use lines::is_entry;
pub use packed::Schedule;
pub use reading::{MOST_LINE_BYTES, ScheduleFault, read_entries};
pub use steps::steps_of;
pub use writing::append_schedule;
