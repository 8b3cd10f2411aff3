//! Where things stand in a program's text: lines and columns, tokens, the objects that a token
//! makes and their elements; and where the tokens begin that made objects.
//!
//! Why so:
//! - No object carries a place. Its birth number, and where the token began that made it, tell the
//!   place by scanning that token again. So a run that is never asked pays nothing.
//! - An object of a token is known by its number in the order of births (`object_begin`): inner
//!   objects before outer, left to right, as the step makes them (`places_laws`).
//! - Tokens are passed over without memory, so that telling a place can't fail.
//! - A place past the end of a text stands for its end, so no function here has a condition.
#![tactic(auto)]

mod law;
mod objects;
mod origins;
mod positions;
mod tokens;

pub use law::places_laws;
pub use objects::{element_begin, object_begin, object_count};
pub use origins::{Origin, OriginFault, Origins};
pub use positions::{Position, line_at, position_of};
pub use tokens::{mark_at, token_begin};
