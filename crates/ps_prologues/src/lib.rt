//! Definitions that a host puts before a program, as text: so what it hands in is a part of the
//! program, and a record of the run is followed by whoever has that text.
//!
//! Why so:
//! - A string goes in by hexadecimal digits: each byte is two digits, whatever it is, so nothing has to
//!   be escaped and the length is known.
//! - That a text means what was given is a law of the scanner (`prologue_laws`), and not a test.
#![tactic(auto)]

mod definitions;
mod law;

pub use definitions::{DefinedValue, DefinitionFault, definition};
pub use law::prologue_laws;
