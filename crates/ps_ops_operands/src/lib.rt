//! What all operators stand on: operands, why nothing was done, what a word is in every memory, room
//! and records; and the operators that need the operands alone, on the operand stack, on integers
//! and on booleans (PLRM2, 8).
//!
//! Why so:
//! - Each operator on operands is its row for all names and birth numbers, and every word that it
//!   leaves was given to it or is a null, a mark, an integer or a boolean. So it is proved where no
//!   memory is known.
//! - `Agrees` is the one table of what an operator came to and what its row comes to. `Does`,
//!   `Pushes` and the narrower relations of the crates above are it, with other parameters.
//! - An operator asks for room and records before it writes, and says which it lacked. `LogFull`
//!   speaks of what is granted after the call, since a memory may go by an old head of the log.
//! - `IsReasonFor` is the one table of why a step is not made. A reason for records alone has a
//!   case for words in it, to which nothing can come.
//! - An operator puts at most `most_records` records, which is five: an error's entries take so
//!   many. Each operator's own clause says what it asks for.
//! - Operators that programs seldom run in loops are calls of their own, and the others are in
//!   line. The choice goes by what programs mostly do, and another program may make it wrong.
#![tactic(auto)]

pub mod access;
pub mod arithmetic;
pub mod failure;
pub mod integers;
pub mod logic;
pub mod permits;
pub mod plain;
pub mod ranges;
pub mod readers;
pub mod stack_operators;

/// The operands, the topmost first.
pub type Operands = ps_stacks::OperandStack<ps_word::words::Word>;
