//! The scanner: the first token of a text from a place on (PLRM2, 3.2).
//!
//! Why so:
//! - A name of a token is a place in the text (`Span`), so it takes no memory and no lifetime runs
//!   through tokens. `Span::of` clamps, and so has no condition.
//! - A string is measured first and filled then (`string_extent`, `string_bytes`). So it takes one
//!   allocation of its exact size, and its faults don't depend on memory.
//! - A procedure past its limit is read to its end and keeps no more elements, so that an earlier
//!   fault in it is found. Want of memory is answered at once.
//! - Recursion goes by the braces that may still be opened (`NESTING_LIMIT`), so no text can use up
//!   the stack.
//! - A number or an executable name has a path of its own that takes no memory (`next_word`), and
//!   `first_number` and `pass_next` scan without keeping a token, since `cvi` must not want memory.
#![tactic(auto)]

mod classes;
mod firsts;
mod hexadecimal;
mod law;
mod numbers;
mod passes;
mod procedures;
mod scanner;
mod simple;
mod spans;
mod strings;
mod tokens;
mod words;

pub use firsts::{NumberFault, first_number};
pub use law::scanner_is_grammar;
pub use passes::{Passed, TokenClass, pass_next};
pub use scanner::{next_token, next_word};
pub use spans::blank_end;
pub use tokens::{NAME_LIMIT, NESTING_LIMIT, SEQUENCE_LIMIT, ScanFault, Span, Token, TokenKind};
