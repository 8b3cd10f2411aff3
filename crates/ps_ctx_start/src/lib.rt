//! What stands at the start of a run: the first dictionaries and the first context (PLRM2, 3.7).
//!
//! Why so:
//! - systemdict refers to itself and to userdict, so it gets its pairs once all three first
//!   dictionaries stand. They are put together in a list that has room for them, so nothing can
//!   fail by then.
//! - The `$error` of a context is made by one function here (`make_error_dictionary`), and `fork`
//!   calls it too.
#![tactic(auto)]

pub mod dictionaries;
pub mod start;
mod words;
