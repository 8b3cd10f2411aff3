//! Runs for hosts in other languages: numbers and the host's own rooms in, and what a run printed,
//! its schedule and its counts out.
//!
//! Why so:
//! - All that crosses is numbers, since no handle, callback or cell may. So a call keeps nothing,
//!   and any number of a host's threads may call at once.
//! - Who makes the steps is a parameter. The exports name the language's, and cite these contracts.
//! - Settings and counts cross as lists of numbers, whose length says which of them the host knows.
//!   So a host that was compiled against an older header goes on working.
//! - A host's flag may be any number, so no byte of a host's is a value that no type has.
//! - A call that goes on makes the run anew, since nothing is kept. It looks at the schedule that
//!   it made, and not at how it came to it, so its answer is that of the steps alone.
//! - A run that stands is a host's value, perhaps none. What is done to it is told by a code, and a
//!   run that isn't there is one of the answers, so a handle that was closed is as good as any.
//! - Codes below 16 are the statuses of `dpsrun`, and tell how a run ended; behind those up to 21 no
//!   run was made, and nothing was written. The others tell of values and definitions.
#![tactic(auto)]

mod definitions;
mod handing;
mod hosting;
mod keys;
mod laws;
mod numbers;
mod places;
mod slices;
mod values;

pub use definitions::hand_definition;
pub use handing::hand_out;
pub use hosting::{Refusal, go_on_for, replay_for, run_for};
pub use keys::Keys;
pub use laws::host_entry_laws;
pub use numbers::{HostEntry, Settings, code_of_refusal, settings_of};
pub use places::{HostPlace, PastRun, hand_place};
pub use slices::{advance_for, hand_counts, hand_printed, hand_schedule, start_for};
pub use values::{HostValue, hand_value};
