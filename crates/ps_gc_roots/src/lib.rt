//! The roots of contexts: the words by which all contexts refer to a memory from outside. They are
//! read for a collector, which renames them, and are written back. Contexts and memory then are at
//! the same world of the definitions (PLRM2, 7.1).
//!
//! Why so:
//! - Roots are a list of words (`RootList`), and `write_roots` promises a renaming by any function
//!   on words. So it knows nothing of forwarding. The list is made once and is large enough for all
//!   contexts.
//! - The roots that a try to flip read are handed over, or end the cycle, by whoever made the try
//!   (`hand_read`, `end_read`), and aren't read again. A vault does so in the same call: it is seen
//!   without its contexts, so who calls it can't say that a list has their roots.
//! - A whole collection (`stop_all`) is made here and not by two calls of the vault, since each of
//!   those speaks of some memory of its kind, which need not be the same one.
#![tactic(auto)]

mod collecting;
pub mod laws;
mod reading;
mod writing;

pub use collecting::{
    RootList, end_cycle, end_read, hand_over, hand_read, open_cycle, stop_all, try_flip,
    whole_cycle,
};
pub use reading::{ROOT_LIMIT, read_roots};
pub use writing::write_roots;
