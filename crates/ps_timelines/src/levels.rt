//! How high each column of a lane is marked.

ghost use Rattle.std.specs.Prelude.{◌≡◌, ◌+◌, ◌*◌, ◌<◌, ◌≤◌, ℕ, List, length, map, IfOk};
ghost use Rattle.ps_timelines.specs.Columns.{columns};
ghost use Rattle.ps_timelines.specs.Levels as levels;

use crate::columns::{Interval, columns, shares};
use crate::series::Series;
use std::alloc::{AllocError, Global};

/// How high a lane is.
pub(crate) const LANE_HEIGHT: usize = 30;
/// How low a bar is at least.
const LEAST_BAR: usize = 4;

/// How high the bar of a share is.
fn bar_height(steps: u32, share: usize) -> usize
    requires { share ≤ steps }
    ensures { result ≡ levels.bar_height steps share }
{
    if share == 0 {
        0
    } else {
        (LANE_HEIGHT * share / steps as usize).max(LEAST_BAR)
    }
}

/// The height of what is marked where it has more than half of a column.
fn half_height(steps: u32, share: usize) -> usize
    requires { share ≤ steps }
    ensures { result ≡ levels.half_height steps share }
{
    if 2 * share > steps as usize {
        LEAST_BAR
    } else {
        0
    }
}

/// The greatest share of a state in which no steps are made, where steps have less than three
/// quarters of a column.
fn longest(steps: u32, stepping: usize, greatest: usize) -> usize
    requires { stepping ≤ steps }
    ensures { result ≡ levels.longest steps stepping greatest }
{
    if 4 * stepping < 3 * steps as usize {
        greatest
    } else {
        0
    }
}

/// Whether a state has the longest share, and any.
fn line_level(longest: usize, share: usize) -> usize
    ensures { result ≡ levels.line_level longest share }
{
    if share != 0 && share == longest { 1 } else { 0 }
}

/// What a context does, as its lane shows it: for each state the intervals of steps in which it is
/// in that state. Those of `steps` are the steps that it makes itself, and those of `owner` where
/// it has a lock; in the other states it isn't stepping.
#[derive(Drop)]
pub struct LaneIntervals {
    pub steps: Vec<Interval>,
    /// It may go on, and another does.
    pub ready: Vec<Interval>,
    pub lock: Vec<Interval>,
    pub condition: Vec<Interval>,
    pub join: Vec<Interval>,
    pub owner: Vec<Interval>,
    /// The steps that print, and those that fail.
    pub print: Vec<Interval>,
    pub error: Vec<Interval>,
}

/// The intervals of a series.
pub(crate) fn intervals_of(drawn: &LaneIntervals, series: Series) -> &[Interval]
    ensures { result.now ≡ levels.intervals_of drawn.now series }
{
    match series {
        Series::Ready => drawn.ready.as_slice(),
        Series::Lock => drawn.lock.as_slice(),
        Series::Condition => drawn.condition.as_slice(),
        Series::Join => drawn.join.as_slice(),
        Series::Steps => drawn.steps.as_slice(),
        Series::Owner => drawn.owner.as_slice(),
        Series::Print => drawn.print.as_slice(),
        Series::Error => drawn.error.as_slice(),
    }
}

/// How high a column is marked of which a series has this share.
fn level_of(series: Series, steps: u32, longest: usize, share: usize) -> usize
    requires { share ≤ steps }
    ensures { result ≡ levels.level_of series steps longest share }
{
    match series {
        Series::Ready | Series::Lock | Series::Condition | Series::Join => line_level(
            longest, share,
        ),
        Series::Steps => bar_height(steps, share),
        Series::Owner => half_height(steps, share),
        Series::Print | Series::Error => share.min(1),
    }
}

/// The longest shares of all columns.
pub(crate) fn longest_shares(
    alloc: Global,
    steps: u32,
    drawn: &LaneIntervals,
) -> Result<Vec<usize>, AllocError>
    ensures { IfOk result (λ shares. shares.items ≡ levels.longest_shares steps drawn.now) }
{
    let stepping = shares(alloc, steps, drawn.steps.as_slice())?;
    let mut longests = shares(alloc, steps, drawn.ready.as_slice())?;
    let lock = shares(alloc, steps, drawn.lock.as_slice())?;
    let condition = shares(alloc, steps, drawn.condition.as_slice())?;
    let join = shares(alloc, steps, drawn.join.as_slice())?;
    for column in 0..columns(steps) {
        let greatest = longests[column]
            .max(lock[column])
            .max(condition[column])
            .max(join[column]);
        longests[column] = longest(steps, stepping[column], greatest);
    }
    Ok(longests)
}

/// How high all columns are marked.
pub(crate) fn series_levels(
    alloc: Global,
    series: Series,
    steps: u32,
    intervals: &[Interval],
    longests: &[usize],
) -> Result<Vec<usize>, AllocError>
    requires { length longests.now ≡ columns steps }
    ensures { IfOk result
        (λ marked. marked.items ≡ levels.series_levels series steps intervals.now longests.now) }
{
    let mut marked = shares(alloc, steps, intervals)?;
    for column in 0..columns(steps) {
        marked[column] = level_of(series, steps, longests[column], marked[column]);
    }
    Ok(marked)
}
