//! The bounded stacks of a context: operands, dictionaries and frames (PLRM2, 3.4).
//!
//! Why so:
//! - A stack's items lie with the topmost last, as the elements of an array do. So `]` and `astore`
//!   hand a slice of the stack to the memory.
//! - All room is reserved when a stack is made, so a push takes no memory and its only fault is the
//!   limit.
//! - `roll` turns by reversals in place, and moves one item past the others in one loop
//!   (`last_to_front`, `first_to_end`). The library's rotation clears a large buffer at each call.
#![tactic(auto)]

mod stack;

pub use stack::{Stack, StackFull};

/// How many operands there may be (PLRM2, appendix B).
pub const OPERAND_LIMIT: usize = 500;

/// How many dictionaries may be on the dictionary stack, the two lowest included (PLRM2, appendix
/// B).
pub const DICTIONARY_LIMIT: usize = 20;

/// How many frames may be on the execution stack (PLRM2, appendix B).
pub const FRAME_LIMIT: usize = 250;

/// The operand stack.
pub type OperandStack<T> = Stack<T, OPERAND_LIMIT>;

/// The dictionary stack.
pub type DictionaryStack<T> = Stack<T, DICTIONARY_LIMIT>;

/// The execution stack.
pub type ExecutionStack<T> = Stack<T, FRAME_LIMIT>;
