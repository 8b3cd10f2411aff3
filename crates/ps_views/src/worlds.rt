//! The lines that tell how runs ended, in every order of a program's steps, by the worlds that they
//! come to.

ghost use Rattle.std.specs.Prelude.{◌≡◌, ◌<◌, ◌≤◌, ◌++◌, take, length, OnOk, OnErr, vec_capacity};
ghost use Rattle.ps_views.specs.Worlds as spec;

use crate::bytes::{append, append_number};
use crate::orders::{append_counted, append_steps};
use ps_searches::Extent;
use std::alloc::AllocError;

/// What a search by worlds found.
#[derive(Clone, Copy, Debug, PartialEq, Eq)]
pub struct WorldsFound {
    /// How many worlds were told apart.
    pub worlds: u64,
    /// How many steps lie between them.
    pub steps: u64,
    /// In how many ways runs end.
    pub endings: u64,
    /// How far it came.
    pub extent: Extent,
}

/// One way in which runs ended.
#[derive(Clone, Copy, Debug, PartialEq, Eq)]
pub struct WorldEnding {
    /// Its number, from 1.
    pub number: u64,
    /// How many steps the order has that is told of it.
    pub steps: u64,
    /// How many bytes were printed.
    pub printed: u64,
}

/// Appends a number behind its name, as a line.
fn append_named(name: &[u8], number: u64, to: &mut Vec<u8>) -> Result<(), AllocError>
    ensures appended { OnOk result
        (to.new.items ≡ to.old.items ++ spec.named_line name.now number) }
    ensures front { take (length to.old.items) to.new.items ≡ to.old.items }
    ensures capacity { vec_capacity to.old ≤ vec_capacity to.new }
    ensures full { OnErr result
        (vec_capacity to.old < length (to.old.items ++ spec.named_line name.now number)) }
{
    append(name, to)?;
    append(b" ", to)?;
    append_number(number, to)?;
    append(b"\n", to)
}

/// Appends how many worlds, steps and endings there are.
fn append_counts(found: WorldsFound, to: &mut Vec<u8>) -> Result<(), AllocError>
    ensures appended { OnOk result (to.new.items ≡ to.old.items ++ spec.count_lines found) }
    ensures front { take (length to.old.items) to.new.items ≡ to.old.items }
    ensures capacity { vec_capacity to.old ≤ vec_capacity to.new }
    ensures full { OnErr result
        (vec_capacity to.old < length (to.old.items ++ spec.count_lines found)) }
{
    append_named(b"worlds", found.worlds, to)?;
    append_named(b"steps between them", found.steps, to)?;
    append_named(b"endings", found.endings, to)
}

/// Appends that one more world was to be kept than these, and what bounds a search otherwise.
fn append_bound(worlds: u64, to: &mut Vec<u8>) -> Result<(), AllocError>
    ensures appended { OnOk result (to.new.items ≡ to.old.items ++ spec.bound_text worlds) }
    ensures front { take (length to.old.items) to.new.items ≡ to.old.items }
    ensures capacity { vec_capacity to.old ≤ vec_capacity to.new }
    ensures full { OnErr result
        (vec_capacity to.old < length (to.old.items ++ spec.bound_text worlds)) }
{
    append(b"not all orders: more than ", to)?;
    append_counted(worlds, b"world", to)?;
    append(b"; --cuts K bounds them otherwise\n", to)
}

/// Appends whether these are all orders.
fn append_extent(found: WorldsFound, to: &mut Vec<u8>) -> Result<(), AllocError>
    ensures appended { OnOk result (to.new.items ≡ to.old.items ++ spec.extent_line found) }
    ensures front { take (length to.old.items) to.new.items ≡ to.old.items }
    ensures capacity { vec_capacity to.old ≤ vec_capacity to.new }
    ensures full { OnErr result
        (vec_capacity to.old < length (to.old.items ++ spec.extent_line found)) }
{
    match found.extent {
        Extent::All => append(b"all orders\n", to),
        Extent::Most => append_bound(found.worlds, to),
        Extent::Lost => append(
            b"not all orders: a run made again came to another world\n",
            to,
        ),
    }
}

/// Appends the lines of what a search by worlds found:
///
/// ```text
/// worlds NUMBER
/// steps between them NUMBER
/// endings NUMBER
/// all orders
/// ```
///
/// The last is `not all orders: more than NUMBER worlds; --cuts K bounds them otherwise`, where as
/// many worlds were kept as may be, and tells where a run that was made again wasn't where it was
/// before.
///
/// `AllocError`: a growth was refused; what stood before stays.
#[tactic(auto, unfolding(crate::specs::Worlds::found_lines))]
pub fn append_found(found: WorldsFound, to: &mut Vec<u8>) -> Result<(), AllocError>
    ensures appended { OnOk result (to.new.items ≡ to.old.items ++ spec.found_lines found) }
    ensures front { take (length to.old.items) to.new.items ≡ to.old.items }
    ensures capacity { vec_capacity to.old ≤ vec_capacity to.new }
    ensures full { OnErr result
        (vec_capacity to.old < length (to.old.items ++ spec.found_lines found)) }
{
    append_counts(found, to)?;
    append_extent(found, to)
}

/// Appends which ending it is.
fn append_number_of(told: &WorldEnding, to: &mut Vec<u8>) -> Result<(), AllocError>
    ensures appended { OnOk result (to.new.items ≡ to.old.items ++ spec.number_text told.now) }
    ensures front { take (length to.old.items) to.new.items ≡ to.old.items }
    ensures capacity { vec_capacity to.old ≤ vec_capacity to.new }
    ensures full { OnErr result
        (vec_capacity to.old < length (to.old.items ++ spec.number_text told.now)) }
{
    append(b"ending ", to)?;
    append_number(told.number, to)?;
    append(b": ", to)
}

/// Appends the line of an ending, whose outcome is called so:
///
/// ```text
/// ending NUMBER: NUMBER steps, OUTCOME, NUMBER bytes
/// ```
///
/// `AllocError`: a growth was refused; what stood before stays.
#[tactic(auto, unfolding(crate::specs::Worlds::world_ending_line))]
pub fn append_world_ending(
    told: &WorldEnding,
    outcome: &[u8],
    to: &mut Vec<u8>,
) -> Result<(), AllocError>
    ensures appended { OnOk result
        (to.new.items ≡ to.old.items ++ spec.world_ending_line told.now outcome.now) }
    ensures front { take (length to.old.items) to.new.items ≡ to.old.items }
    ensures capacity { vec_capacity to.old ≤ vec_capacity to.new }
    ensures full { OnErr result
        (vec_capacity to.old < length (to.old.items
        ++ spec.world_ending_line told.now outcome.now)) }
{
    append_number_of(told, to)?;
    append_steps(told.steps, outcome, to)?;
    append_counted(told.printed, b"byte", to)?;
    append(b"\n", to)
}
