//! The operators over operands of every type: those that compare two, those that convert a value to
//! another type, and those that print (PLRM2, 8 'Operators': Relational, Boolean and Bitwise; Type,
//! Attribute and Conversion; File).
//!
//! Why so:
//! - Equal is what the same key is: `eq` and the search of a dictionary share `is_same_key`. Only
//!   strings are compared here by their bytes, since a string is no key.
//! - Two integers are compared before anything else is asked (`order_quickly`, `equality_quickly`),
//!   so the common case reads no memory.
//! - `cvi` reads a string by no memory, since its row may raise an error. Its bytes go into an
//!   array on the stack, of 64 bytes where they fit, else of 64 KB.
//! - The text of `=` and the end of its line are appended by one growth, so a refused growth leaves
//!   the capacity of the output as it was.
#![tactic(auto)]

pub mod equality;
pub mod lines;
pub mod names;
pub mod numbers;
pub mod orders;
pub mod strings;
pub mod texts;
