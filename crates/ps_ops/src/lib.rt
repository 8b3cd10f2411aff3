//! Each operator by its own function, and a step by an operator with the error that it notes
//! (PLRM2, 3.5, 3.10, 8 'Operators').
//!
//! Why so:
//! - One `match` names the function of each operator, so a new operator touches this crate and its
//!   own. Most crates of operators don't stand on each other, so they are proved side by side.
//! - `get`, `put` and `copy` test the container once and call the operator of its type, whose
//!   contract has the whole row under that case.
//! - `Operators` answers an operator of the world before its `match` (`WorldOperator::of`), so
//!   whoever makes steps of one context needs no world.
//! - What raises no error on operands alone is done in `operate_ahead`, and what neither sees nor
//!   changes frames in `operate_under`. What raises is found twice, and such an operator has two
//!   places.
//! - `operate_under` calls `put` and `def` each by itself (`put_under`, `def_under`): a function
//!   makes room for all that is in line in it. `operate` calls them apart, and stays small.
//! - No clause says which operators those two take up. A body that leaves all of them is right, and
//!   slow.
//! - `frugal_operators` names the operators that ask for nothing, by the same function that says
//!   what each asks for.
#![tactic(auto)]

pub mod ahead;
pub mod dispatch;
pub mod exits;
pub mod joins;
pub mod laws;
pub mod operators;
pub mod turns;
pub mod under;
