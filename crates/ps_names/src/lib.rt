//! The names that a run has met, by number, and the texts of those that every run knows.
//!
//! Why so:
//! - Names stand in an `IndexSet` by their bytes, so a name's number is its place in the order of
//!   meeting.
//! - `Names::new` takes random keys, so that a program can't choose names whose hashes collide. No
//!   clause mentions them. A keyed hash is slower, and needs random bytes of the system.
//! - A name is guessed before it is hashed: by a fixed table for the names of the start, by
//!   `RecentNames` for later ones. Whoever asks compares the texts, so no clause rests on a guess.
//! - `text` answers any number, with no bytes where no name has it. So a reader of words needs no
//!   proof that their names were met.
//! - Operators, errors, types and the keys of `$error` have fixed numbers at the start, so their
//!   words are made without a look-up.
#![tactic(auto)]

pub mod first;
mod guesses;
mod names;

pub use names::{NAME_LIMIT, NAMES_LIMIT, NameId, Names, NamesFault};
