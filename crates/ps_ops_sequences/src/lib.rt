//! The operators on arrays and strings, and those on access, over operands of every type (PLRM2, 8
//! 'Operators': Array, String; Type, Attribute and Conversion).
//!
//! Why so:
//! - `copy` asks for records by the topmost operand (`copy_asks`): none where that is a number. So
//!   a copy of operands is never left undone for want of a record.
//! - An operator on arrays alone or on strings alone works on operands and a memory. Its row
//!   (`ArrayRows`, `StringRows`) is cut from the language's whole row, so it is exact for every
//!   operand. That costs a short definition each.
//! - Each operator on a context has the whole row in its contract, under "is a dictionary" or "is
//!   none". So `ps_ops` joins them by cases.
//! - A string is sought by the kit's `memchr` over both strings, read into lists: its time grows
//!   with their sum, and a search in place would take their product. The lists may want memory.
//! - Before that it is tried in place at the first byte that could begin it, if that is near. Many
//!   are found there, and need no searcher and no list.
//! - At a full operand stack `search` reads onto the machine's stack: whether the string is found
//!   decides between errors, and an error must not want memory. That takes up to 128 KB there.
#![tactic(auto)]

pub mod array_changes;
pub mod array_makes;
pub mod arrays;
pub mod copies;
pub mod elements;
pub mod intervals;
pub mod kinds;
pub mod lengths;
pub mod loops;
pub mod pairs;
pub mod reads;
pub mod reductions;
pub mod searches;
pub mod string_changes;
pub mod string_makes;
pub mod string_searches;
pub mod strings;
