//! The operators on dictionaries and on the dictionary stack (PLRM2, 8 'Operators': Dictionary).
//!
//! Why so:
//! - `put_entry` asks first whether the key is a string, and `put_word` puts every other key. A
//!   `Key` has room for a name's characters, and is copied where it is made.
//! - A put under a name that wasn't met is planned once the name is formed. Where the step isn't
//!   made the name is taken back; where it is refused the name stays.
//! - A copy that would be too large is known before a list grows, by counting the merged pairs. Its
//!   row raises `limitcheck`, and a step that raises must not want memory.
#![tactic(auto)]

pub mod copies;
pub mod definitions;
pub mod errors;
pub mod finds;
pub mod literals;
pub mod makes;
pub mod puts;
pub mod reads;
pub mod removals;
pub mod stack;
