//! The lines that tell how runs ended, in each order of a program's steps with few cuts.

ghost use Rattle.std.specs.Prelude.{◌≡◌, ◌<◌, ◌≤◌, ◌++◌, ◌==◌, [], take, length, OnOk, OnErr, vec_capacity};
ghost use Rattle.std.specs.Prelude.{codes, if◌then◌else◌};
ghost use Rattle.ps_views.specs.Orders as spec;

use crate::bytes::{append, append_number};
use std::alloc::AllocError;

/// One way in which runs ended.
#[derive(Clone, Copy, Debug, PartialEq, Eq)]
pub struct EndingLine {
    /// Its number, from 1.
    pub number: u64,
    /// How many cuts and steps the order has that is told of it.
    pub cuts: u32,
    pub steps: u64,
    /// How many bytes were printed.
    pub printed: u64,
}

/// Which orders were explored.
#[derive(Clone, Copy, Debug, PartialEq, Eq)]
pub struct Reach {
    /// The most cuts that an order was to have.
    pub cuts: u32,
    /// All with fewer cuts than this were.
    pub below: u64,
    /// How many runs were made.
    pub runs: u64,
}

/// What stands behind the name of a thing of which there are so many.
fn plural(number: u64) -> &'static [u8]
    ensures { result.now ≡ (if number == 1 then [] else codes "s") }
{
    if number == 1 { b"" } else { b"s" }
}

/// Appends so many of a thing.
pub(crate) fn append_counted(number: u64, thing: &[u8], to: &mut Vec<u8>) -> Result<(), AllocError>
    ensures appended { OnOk result
        (to.new.items ≡ to.old.items ++ spec.counted number thing.now) }
    ensures front { take (length to.old.items) to.new.items ≡ to.old.items }
    ensures capacity { vec_capacity to.old ≤ vec_capacity to.new }
    ensures full { OnErr result
        (vec_capacity to.old < length (to.old.items ++ spec.counted number thing.now)) }
{
    append_number(number, to)?;
    append(b" ", to)?;
    append(thing, to)?;
    append(plural(number), to)
}

/// Appends up to how many cuts all orders were explored.
fn append_whole(below: u64, to: &mut Vec<u8>) -> Result<(), AllocError>
    ensures appended { OnOk result (to.new.items ≡ to.old.items ++ spec.whole_text below) }
    ensures front { take (length to.old.items) to.new.items ≡ to.old.items }
    ensures capacity { vec_capacity to.old ≤ vec_capacity to.new }
    ensures full { OnErr result
        (vec_capacity to.old < length (to.old.items ++ spec.whole_text below)) }
{
    if below == 0 {
        return append(b"not all orders with 0 cuts", to);
    }
    append(b"all orders with at most ", to)?;
    append_counted(below - 1, b"cut", to)
}

/// Appends that more runs were to be made than may be, where they were.
fn append_limit(reach: Reach, to: &mut Vec<u8>) -> Result<(), AllocError>
    ensures appended { OnOk result (to.new.items ≡ to.old.items ++ spec.limit_text reach) }
    ensures front { take (length to.old.items) to.new.items ≡ to.old.items }
    ensures capacity { vec_capacity to.old ≤ vec_capacity to.new }
    ensures full { OnErr result
        (vec_capacity to.old < length (to.old.items ++ spec.limit_text reach)) }
{
    if u64::from(reach.cuts) < reach.below {
        return Ok(());
    }
    append(b"; more than ", to)?;
    append_counted(reach.runs, b"run", to)
}

/// Appends the line of the orders that were explored:
///
/// ```text
/// all orders with at most NUMBER cuts
/// all orders with at most NUMBER cuts; more than NUMBER runs
/// ```
///
/// The second where fewer cuts were reached than an order was to have.
///
/// `AllocError`: a growth was refused; what stood before stays.
#[tactic(auto, unfolding(crate::specs::Orders::reach_line))]
pub fn append_reach(reach: Reach, to: &mut Vec<u8>) -> Result<(), AllocError>
    ensures appended { OnOk result (to.new.items ≡ to.old.items ++ spec.reach_line reach) }
    ensures front { take (length to.old.items) to.new.items ≡ to.old.items }
    ensures capacity { vec_capacity to.old ≤ vec_capacity to.new }
    ensures full { OnErr result
        (vec_capacity to.old < length (to.old.items ++ spec.reach_line reach)) }
{
    append_whole(reach.below, to)?;
    append_limit(reach, to)?;
    append(b"\n", to)
}

/// Appends which ending it is, and how many cuts it takes.
fn append_which(told: &EndingLine, to: &mut Vec<u8>) -> Result<(), AllocError>
    ensures appended { OnOk result (to.new.items ≡ to.old.items ++ spec.which_text told.now) }
    ensures front { take (length to.old.items) to.new.items ≡ to.old.items }
    ensures capacity { vec_capacity to.old ≤ vec_capacity to.new }
    ensures full { OnErr result
        (vec_capacity to.old < length (to.old.items ++ spec.which_text told.now)) }
{
    append(b"ending ", to)?;
    append_number(told.number, to)?;
    append(b": ", to)?;
    append_counted(u64::from(told.cuts), b"cut", to)
}

/// Appends the steps of an ending's order, and its outcome.
pub(crate) fn append_steps(steps: u64, outcome: &[u8], to: &mut Vec<u8>) -> Result<(), AllocError>
    ensures appended { OnOk result
        (to.new.items ≡ to.old.items ++ spec.steps_text steps outcome.now) }
    ensures front { take (length to.old.items) to.new.items ≡ to.old.items }
    ensures capacity { vec_capacity to.old ≤ vec_capacity to.new }
    ensures full { OnErr result
        (vec_capacity to.old < length (to.old.items ++ spec.steps_text steps outcome.now)) }
{
    append_counted(steps, b"step", to)?;
    append(b", ", to)?;
    append(outcome, to)?;
    append(b", ", to)
}

/// Appends the line of an ending, whose outcome is called so:
///
/// ```text
/// ending NUMBER: NUMBER cuts, NUMBER steps, OUTCOME, NUMBER bytes
/// ```
///
/// `AllocError`: a growth was refused; what stood before stays.
#[tactic(auto, unfolding(crate::specs::Orders::ending_line))]
pub fn append_ending(told: &EndingLine, outcome: &[u8], to: &mut Vec<u8>) -> Result<(), AllocError>
    ensures appended { OnOk result
        (to.new.items ≡ to.old.items ++ spec.ending_line told.now outcome.now) }
    ensures front { take (length to.old.items) to.new.items ≡ to.old.items }
    ensures capacity { vec_capacity to.old ≤ vec_capacity to.new }
    ensures full { OnErr result
        (vec_capacity to.old < length (to.old.items ++ spec.ending_line told.now outcome.now)) }
{
    append_which(told, to)?;
    append(b", ", to)?;
    append_steps(told.steps, outcome, to)?;
    append_counted(told.printed, b"byte", to)?;
    append(b"\n", to)
}
