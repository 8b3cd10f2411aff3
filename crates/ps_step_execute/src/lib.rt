//! Executing a value, and doing an element of a procedure (PLRM2, 3.5).
//!
//! Why so:
//! - Who does the operators is a trait (`Operate`), so values, frames and tokens are proved beside
//!   the operators. It costs a type parameter, and no value: what an operator needs is given with
//!   its call.
//! - `do_quickly` has a jump for an element and `treat_ahead` one for what a name stands for. One
//!   jump for both costs each element of a bound procedure more.
//! - `do_quickly` must not grow past the size at which the kit drops `inline(always)`. What the
//!   compiler inlines by itself says `inline` alone.
//! - Where an element isn't done ahead, nothing has changed, and the value as which it is treated
//!   is told (`Fast`). So no name that is found is looked up twice.
//! - No clause says how many elements go ahead. A body that leaves them all is right, and slow.
#![tactic(auto)]

pub mod ahead;
pub mod enters;
pub mod operates;
pub mod pushes;
pub mod quick;
pub mod under;
pub mod values;
