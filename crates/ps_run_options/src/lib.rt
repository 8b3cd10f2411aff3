//! The words of a command line: their form, their faults, and what they ask for (the profile's
//! own).
//!
//! Why so:
//! - What one word excludes of another is tested behind the parse, since the contracts of `clap`
//!   say what a parse answers only where no option has a rule on another. The texts of those faults
//!   are ours.
//! - So are sizes, which are texts to `clap`, since its parsers of numbers know no units. The texts
//!   of their faults are those of its numbers.
#![tactic(auto)]

mod form;
mod misuses;
mod options;
mod sizes;
mod views;

pub use misuses::OutputFile;
pub use options::{
    Exploration, Options, OrderBounds, ProgramSource, VERSION, no_text, overwritten, parse,
};
pub use views::View;
