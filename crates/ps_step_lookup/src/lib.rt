//! Keys of dictionaries, and what is found by them (PLRM2, 3.3.9, 3.7.1).
//!
//! Why so:
//! - Keys and look-up stand below all operators, since dictionaries, conversions, equality and
//!   executed names use them. It costs one more crate on the chain.
//! - A string as a key is read into an array on the stack, so a look-up takes no memory. A name
//!   that was never met is no key, so a look-up forms none.
//! - `look_up` goes through the dictionary stack by one number, how many stand below, and reads
//!   what stands there once. The compiler then keeps one count in place of three.
#![tactic(auto)]

pub mod keys;
pub mod lookups;
