//! The contexts of a world (PLRM2, 7.1).
//!
//! Why so:
//! - The table has the contexts that are left, by rising identifiers that are never used again.
//!   Where none before it is gone, `place_of` finds one by one comparison, and else by halves.
//! - It is seen as the list of all contexts ever made, with nothing where one is gone, as the
//!   definitions have it. A removal moves what stands behind it.
//! - A turn is proved over one context and lifted to the step of a world, once for all kinds of
//!   frames (`desk_laws`). It costs a relation between the table and a world, `IsWorld`.
#![tactic(auto)]

pub mod contexts;
pub mod laws;
pub mod living;
pub mod members;
pub mod table;
