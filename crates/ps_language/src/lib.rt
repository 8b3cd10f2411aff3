//! The definitions of the language: what a program means, for contracts to cite, and its laws. Of
//! code it has the plain enums that definitions and code share, and how errors and operators are
//! numbered and written.
//!
//! Why so:
//! - Every crate cites the definitions from here, so a reader has one text to believe. A change
//!   here has every crate checked again.
//! - Definitions and code share one type for an entry of a schedule, `Entry`. A second type would
//!   need a translation in every theorem on schedules.
//! - An entry has at most `steps_limit` steps, and `joins` knows it. Otherwise every caller would
//!   have to exclude a full entry.
//! - What a step asks of memory is read off the stores before and after it, so no number in a row
//!   can differ from the row's effect.
//! - An ended context leaves a hole in the list of contexts, so roots, live words and what memory
//!   shows need no exception. It can't be told from a context that never was.
//! - The operators on contexts, `vmstatus` and `vmreclaim` are left to the world with their element
//!   taken. So no other step is handed the contexts or the numbers that memory shows.
//! - The three entries of an error are noted in the step that raises it, and each later step takes
//!   one frame off. So a step is small, and a context with many frames ends that many steps later.
#![tactic(auto)]

pub mod access;
pub mod errors;
pub mod kinds;
pub mod laws;
pub mod operators;
pub mod schedules;
