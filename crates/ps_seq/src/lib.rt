//! Arrays and strings in any memory, as lists of values and of bytes.
//!
//! Why so:
//! - A change of a string is one store. Its bytes may begin and end within words, so these are
//!   read, changed in the caller's list and stored as one range. A change of one byte needs no
//!   list.
//! - Strings are compared where they lie, since a comparison must not want memory: what one word of
//!   the first has by as many bytes of the second, which are joined from two words where they lie
//!   in two. Joined words are made by a shift of both, so no byte is taken alone.
//! - `element_at` takes the sum of address and place; `read_run` reads whole words as such. Both
//!   spare work for each element.
//! - What goes to a list is put together on the stack, a run at a time, and appended as one: a push
//!   for each item would look up and store where the list stands and how long it is.
//! - Bytes that begin and end where words do are copied as words, and never read.
#![tactic(auto)]

pub mod arrays;
pub mod reads;
pub mod strings;
