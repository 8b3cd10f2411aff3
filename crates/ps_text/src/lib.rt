//! The texts of values over any memory, as `=`, `==`, `stack`, `pstack` and `type` give them.
//!
//! Why so:
//! - The text of `==` is written with its end known, so an array that holds itself costs no more
//!   than the longest text. Arrays in arrays are gone into by recursion of bounded depth.
//! - What was printed is an `Output`, which has a bound (outputs.rt). A line is written behind what
//!   was printed and taken away where both are too long, since how long a text is shows only when
//!   it is written. The bytes of a string are counted first.
//! - A string in parentheses is read by blocks. A block is tested whole for bytes that have an
//!   escape, many at once, and copied at once where it has none.
//! - This crate has its own test of read access: it shouldn't stand on `ps_ops_operands`.
#![tactic(auto)]

mod appends;
pub mod errors;
mod escapes;
pub mod full;
pub mod lines;
pub mod outputs;
pub mod plain;

pub use escapes::append_escapes;
