//! The operators on types, attributes and access that need no dictionary (PLRM2, 8 'Operators':
//! Type, Attribute and Conversion; 3.3.2).
//!
//! Why so:
//! - The names of types have fixed numbers among those that every run meets at its start. So `type`
//!   makes its word without a look-up, and its clause holds under names that begin so.
#![tactic(auto)]

pub mod access;
pub mod attributes;
pub mod types;
