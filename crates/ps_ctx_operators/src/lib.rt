//! The operators that are left to the world of all contexts: those that make contexts, name them or
//! wait for them, those on locks and conditions, and those that need the caller alone; and which
//! contexts may step (PLRM2, 7.1, 8 'Operators': Multiple Execution Contexts, Virtual Memory).
//!
//! Why so:
//! - What an operator of the world does to its caller and the memory is a row under `Acts`, as that
//!   of any other operator. What it does to other contexts is said beside it, and `deed_laws` ties
//!   both to the definitions.
//! - Errors, records and reasons of these operators therefore need no relation of their own. It
//!   costs a row more for each.
//! - How the call of any operator ends stands once (`endings`), below forks and monitors.
#![tactic(auto)]

mod again;
pub mod callers;
pub mod detaching;
pub mod endings;
pub mod entering;
pub mod forking;
pub mod forks;
pub mod identifiers;
mod join_waits;
pub mod joining;
pub mod joins;
pub mod laws;
pub mod locks;
pub mod monitors;
mod naming;
pub mod notifying;
pub mod operators;
pub mod readers;
pub mod readiness;
pub mod retaking;
mod stacks;
pub mod statuses;
pub mod waiting;
