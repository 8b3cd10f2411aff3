//! How much of each column of a lane its intervals cover.
//!
//! A run of at most 1,000 steps has a column for each; a longer one has 1,000, and a column is then
//! a part of the run that needn't begin with a step. So lengths are counted in parts: a step has as
//! many as there are columns, and a column as many as there are steps.

ghost use Rattle.std.specs.Prelude.{◌≡◌, ◌+◌, ◌<◌, ◌≤◌, ℕ, length, min, slice_index, IfOk};
ghost use Rattle.ps_timelines.specs.Columns as columns;

use std::alloc::{AllocError, Global};

/// The most columns that a lane has.
const MOST_COLUMNS: usize = 1000;

/// Steps of a run one behind another.
#[derive(Clone, Copy, Debug, PartialEq, Eq)]
pub struct Interval {
    /// How many steps of the run come before them.
    pub from: u32,
    /// How many steps of the run were made behind the last of them.
    pub to: u32,
}

/// How many columns a run of so many steps has.
pub(crate) fn columns(steps: u32) -> usize
    ensures is { result ≡ columns.columns steps }
    ensures some { 1 ≤ result }
    ensures most { result ≤ 1000 }
{
    (steps as usize).min(MOST_COLUMNS).max(1)
}

/// How many parts of a column an interval covers.
#[tactic(auto, unfolding(crate::specs::Columns::covered))]
fn covered(steps: u32, column: usize, interval: Interval) -> usize
    requires { column < 1000 }
    ensures is { result ≡ columns.covered steps column interval }
    ensures most { result ≤ steps }
{
    let width = columns(steps);
    let begin = column * steps as usize;
    let end = begin + steps as usize;
    let last = (width * interval.to as usize).min(end);
    let first = (width * interval.from as usize).max(begin);
    last.saturating_sub(first)
}

/// Adds what an interval covers of each column, up to the whole column.
fn add(steps: u32, interval: Interval, parts: &mut Vec<usize>)
    requires size { length parts.old.items ≡ columns.columns steps }
    requires full { (column : ℕ) → column < columns.columns steps
        → slice_index parts.old.items column ≤ steps }
    ensures size { length parts.new.items ≡ columns.columns steps }
    ensures each { (column : ℕ) → column < columns.columns steps
        → slice_index parts.new.items column
        ≡ min (slice_index parts.old.items column + columns.covered steps column interval) steps }
{
    if steps == 0 {
        return;
    }
    let width = columns(steps);
    let first = width * interval.from as usize / steps as usize;
    let last = width * interval.to as usize / steps as usize + 1;
    for column in first..last.min(width) {
        let sum = parts[column] + covered(steps, column, interval);
        parts[column] = sum.min(steps as usize);
    }
}

/// How many parts of each column intervals cover.
pub(crate) fn shares(
    alloc: Global,
    steps: u32,
    intervals: &[Interval],
) -> Result<Vec<usize>, AllocError>
    ensures size { IfOk result (λ parts. length parts.items ≡ columns.columns steps) }
    ensures each { IfOk result (λ parts. (column : ℕ) → column < columns.columns steps
        → slice_index parts.items column ≡ columns.share steps intervals.now column) }
{
    let mut parts = vec![in alloc; 0; columns(steps)]?;
    for interval in intervals {
        add(steps, *interval, &mut parts);
    }
    Ok(parts)
}
