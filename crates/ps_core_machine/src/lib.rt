//! The atomic steps of the collector's machine: what each of them makes of its state and when it
//! may happen; the parts of a state as plain values.
//!
//! Why so:
//! - A state is the words of the table and two parts, one for each seat. So what a seat may do
//!   depends on its own part and on the words that it loads.
//! - A load says by its event what it is for: `GcLoad`, `TakeLoad`, `CopyLoad`, `ClearLoad` or
//!   `HandOver`. So no condition has to guess the purpose of a load.
//! - An object keeps its first header as one word. So "the same kind, birth number and number of
//!   fields" is one equation.
//! - An object is made in order: its words become zero from the second header on, or are found so,
//!   and the first header is stored last. So no half-made object stands.
//! - What is written and not yet logged is one range of one object (`Written`). Another range waits
//!   for the record.
//! - A close may be logged while something is written and not logged. Such a cycle can't end, so a
//!   seat logs what it wrote before it closes.
//! - A record counts as taken only where nothing of it is left to copy: its object has no replica,
//!   or all its fields were loaded behind the `TakeLoad`.
//! - A replica lies right behind the last one. So the space has no gap after a flip, and one
//!   comparison replaces a test against each replica.
//! - No place is logged in a log of 2^63 records, so a seat counts in 64 bits. A close is let in
//!   above that, or an open cycle with a full log could never end.
#![tactic(auto)]

pub mod events;
pub mod lists;
pub mod parts;
