//! The words of this run time: values, headers and forwarding words packed into 64 bits, and read
//! back.
//!
//! Why so:
//! - `unpack` refuses a stray bit, and the readers (`content`, `as_integer`, `as_part`, ..) read
//!   any word, so their calls have no condition. Only `executable_operator` asks for a word of the
//!   layout, which whoever made the word promises.
//! - `low_natural`, `low_address` and `readdressed` tell or change bits whatever the word is. So
//!   whoever takes a number or an address from a word knows no place of a bit.
//! - `executable_operator`, `both_integers` and `as_enterable` compare whole words once, where
//!   type, attribute, access and number would take a test each. `as_enterable` may tell less than
//!   it could, and then a step goes the slower way.
//! - `operator_at` is a `match` with an arm for each operator. The compiler then sees that the
//!   number stays as it is, where a table would load it again before each jump.
#![tactic(auto)]

mod bits;
pub mod headers;
pub mod values;
pub mod words;
