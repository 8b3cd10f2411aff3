//! The program's work over any files and outputs: the command line, the run, and what is written
//! (the profile's own).
//!
//! Why so:
//! - Files and outputs are traits with a ghost of their contents, which an implementation may leave
//!   unknown, as the system's do. Over those a promise says no more than the traits do.
//! - Outputs are written by `write` in a loop of our own (`write_part`), since nothing is said of
//!   what `write_all` wrote before it failed.
//! - `Flushing` tells whether all was handed on; `Flushed` makes one of any output, and that it
//!   flushes the output below is for a reader to see.
//! - What standard error is told goes through `Telling`, which remembers whether a write failed. So
//!   clauses say that a line is told whole, unless one did; behind that nothing more is told. How
//!   far many runs are is shown beside it (`Progress`), as a line that goes again.
//! - The names of a program's file are compared in the words, and what files hold before anything
//!   is written (`keep_program`): a link, another path or standard input have other names.
//! - A file set remembers why a read failed and that a write did (`last_fault`, `is_unwritten`), so
//!   that clauses tie the status to it.
//! - The record is written whole, behind the printed bytes, so no file has half a record by our
//!   doing. Its text is in memory once, and may want memory after all was printed.
//! - A file is opened and then read part by part (`FileSet::open`, `read_on`). So a schedule, which
//!   may be far longer than a program, is judged line by line, and an endless file ends at its
//!   first bad line.
//! - The output goes through a run by value, inside a screen, and comes back with the status: a
//!   struct holds no reference that writes. A run that isn't streamed is made with the same screen,
//!   which is handed nothing before the end, so both are one code and one proof.
//! - So the output isn't in `Outside`, which is lent to each call: files and standard error are
//!   used before a run and behind it, and never by its threads.
//! - Chance stands here alone, as a generator with a fixed seed. An ending is what was printed with
//!   the outcome (`AreEndings`); how often each came isn't counted.
//! - A run that wants memory ends an exploration, since it tells of the machine and not of a
//!   schedule. A program that grows without end needs a smaller `--steps` there.
//! - Counts are written as they are counted, and a number out of its range has a case in the clause
//!   of `drive` although the words' rules refuse it.
#![tactic(auto)]

mod chances;
mod driver;
mod endings;
mod exploring;
mod files;
mod finishing;
mod keeping;
mod making;
mod orders;
mod outputs;
mod outside;
mod pictures;
mod places;
mod progress;
mod reading;
mod statuses;
mod streams;
mod systems;
mod telling;
mod views;
mod worlds;
mod writing;

pub use driver::drive;
pub use files::{FileSet, MOST_PROGRAM_BYTES, ReadFault, WriteFault};
pub use outputs::{ErrorOutput, Flushed, Flushing, Telling};
pub use outside::Outside;
pub use progress::{NoProgress, Progress};
pub use systems::System;
pub use telling::refuse_no_text;
