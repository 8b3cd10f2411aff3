//! The lane of a context: who it is, what it does, and the errors that it raises.

ghost use Rattle.std.specs.Prelude.{◌≡◌, ◌<◌, ◌^◌, ◌++◌, take, length, OnOk};
ghost use Rattle.std.specs.List.{flat_map};
ghost use Rattle.ps_timelines.specs.Columns.{columns};
ghost use Rattle.ps_timelines.specs.Lanes as lanes;
ghost use Rattle.ps_timelines.specs.Lanes.{count_text, label_begin, label_text, head_text};
ghost use Rattle.ps_timelines.specs.Lanes.{lane_text, series_text, all_series_text, name_text, place_text};

use crate::bytes::{append_between, append_escaped};
use crate::columns::Interval;
use crate::levels::{LaneIntervals, intervals_of, longest_shares, series_levels};
use crate::series::{ALL_SERIES, Series, append_path};
use ps_views::append;
use std::alloc::{AllocError, Global};

/// Where the lanes begin, from the left; where the first does from above, and each next one below.
pub(crate) const LANES_LEFT: usize = 150;

pub(crate) const FIRST_LANE: usize = 70;

pub(crate) const NEXT_LANE: usize = 48;
/// From where on the text of an error stands before it.
const TEXT_BEFORE: usize = 667;
/// How many errors of a lane are told by their text.
pub(crate) const LABELS_SHOWN: usize = 4;

/// A step that failed.
#[derive(Drop)]
pub struct ErrorLabel {
    /// How many steps of the run come before it.
    pub step: u32,
    /// What is told of it, such as the error's name.
    pub text: Vec<u8>,
}

/// What a context does in the course of a run.
#[derive(Drop)]
pub struct Lane {
    /// Its identifier.
    pub context: u32,
    pub intervals: LaneIntervals,
    /// The errors that are told by their text, by rising step. Of more than four the first four are
    /// told.
    pub labels: Vec<ErrorLabel>,
}

/// What lanes are drawn by.
#[derive(Clone, Copy)]
pub(crate) struct Scale {
    /// Where the columns of a lane are counted.
    pub(crate) alloc: Global,
    /// How many steps the run has.
    pub(crate) steps: u32,
}

/// How many steps intervals have, but at most as many as there are.
fn count(steps: u32, intervals: &[Interval]) -> usize
    ensures { result ≡ lanes.count steps intervals.now }
{
    let mut sum = 0;
    for interval in intervals {
        sum = (sum + interval.to.saturating_sub(interval.from) as usize).min(steps as usize);
    }
    sum
}

/// Where a step begins, from the left edge of the lanes.
pub(crate) fn place(steps: u32, step: u32) -> usize
    ensures is { result ≡ lanes.place steps step }
    ensures most { result < 2 ^ 43 }
{
    step as usize * 1000 / (steps as usize).max(1)
}

/// Appends which context it is.
fn append_name(context: u32, to: &mut Vec<u8>) -> Result<(), AllocError>
    ensures appended { OnOk result (to.new.items ≡ to.old.items ++ name_text context) }
    ensures front { take (length to.old.items) to.new.items ≡ to.old.items }
{
    append_between(
        b"<text x=\"-10\" y=\"14\" class=\"name\">context ",
        context as usize,
        b"</text>\n",
        to,
    )
}

/// Appends how many steps it made.
fn append_count(count: usize, to: &mut Vec<u8>) -> Result<(), AllocError>
    ensures appended { OnOk result (to.new.items ≡ to.old.items ++ count_text count) }
    ensures front { take (length to.old.items) to.new.items ≡ to.old.items }
{
    append_between(
        b"<text x=\"-10\" y=\"28\" class=\"count\">",
        count,
        b" steps</text>\n",
        to,
    )
}

/// Appends the begin of a group that is moved to a place.
pub(crate) fn append_place(x: usize, y: usize, to: &mut Vec<u8>) -> Result<(), AllocError>
    ensures appended { OnOk result (to.new.items ≡ to.old.items ++ place_text x y) }
    ensures front { take (length to.old.items) to.new.items ≡ to.old.items }
{
    append_between(b"<g transform=\"translate(", x, b" ", to)?;
    append_between(b"", y, b")\">\n", to)
}

/// Appends the begin of the text of an error, which stands on the side where there is more room.
fn append_label_begin(steps: u32, step: u32, to: &mut Vec<u8>) -> Result<(), AllocError>
    ensures appended { OnOk result
        (to.new.items ≡ to.old.items ++ label_begin (lanes.place steps step)) }
    ensures front { take (length to.old.items) to.new.items ≡ to.old.items }
{
    let x = place(steps, step);
    if x < TEXT_BEFORE {
        append_between(b"<text y=\"20\" x=\"", x + 14, b"\" class=\"label\">", to)
    } else {
        append_between(
            b"<text y=\"20\" x=\"",
            x - 14,
            b"\" class=\"label end\">",
            to,
        )
    }
}

/// Appends the text of an error.
#[tactic(auto, unfolding(crate::specs::Lanes::label_text))]
fn append_label(steps: u32, label: &ErrorLabel, to: &mut Vec<u8>) -> Result<(), AllocError>
    ensures appended { OnOk result (to.new.items ≡ to.old.items ++ label_text steps label.now) }
    ensures front { take (length to.old.items) to.new.items ≡ to.old.items }
{
    append_label_begin(steps, label.step, to)?;
    append_between(b"<title>step ", label.step as usize + 1, b"</title>", to)?;
    append_escaped(label.text.as_slice(), to)?;
    append(b"</text>\n", to)
}

/// Appends the texts of errors, one behind another.
fn append_labels(steps: u32, labels: &[ErrorLabel], to: &mut Vec<u8>) -> Result<(), AllocError>
    ensures appended { OnOk result
        (to.new.items ≡ to.old.items ++ flat_map (label_text steps) labels.now) }
    ensures front { take (length to.old.items) to.new.items ≡ to.old.items }
{
    for label in labels {
        append_label(steps, label, to)?;
    }
    Ok(())
}

/// Appends what stands before a lane.
#[tactic(auto, unfolding(crate::specs::Lanes::head_text))]
fn append_head(y: usize, lane: &Lane, steps: u32, to: &mut Vec<u8>) -> Result<(), AllocError>
    ensures appended { OnOk result (to.new.items ≡ to.old.items ++ head_text y lane.now steps) }
    ensures front { take (length to.old.items) to.new.items ≡ to.old.items }
{
    append_place(LANES_LEFT, y, to)?;
    append_name(lane.context, to)?;
    append_count(count(steps, lane.intervals.steps.as_slice()), to)
}

/// Appends the path of a series.
fn append_series(
    scale: Scale,
    drawn: &LaneIntervals,
    longests: &[usize],
    series: Series,
    to: &mut Vec<u8>,
) -> Result<(), AllocError>
    requires { length longests.now ≡ columns scale.steps }
    ensures appended { OnOk result
        (to.new.items ≡ to.old.items ++ series_text scale.steps drawn.now longests.now series) }
    ensures front { take (length to.old.items) to.new.items ≡ to.old.items }
{
    let intervals = intervals_of(drawn, series);
    let levels = series_levels(scale.alloc, series, scale.steps, intervals, longests)?;
    append_path(series, &levels, to)
}

/// Appends the paths of series, one upon another.
fn append_each_series(
    scale: Scale,
    drawn: &LaneIntervals,
    longests: &[usize],
    all_series: &[Series],
    to: &mut Vec<u8>,
) -> Result<(), AllocError>
    requires { length longests.now ≡ columns scale.steps }
    ensures appended { OnOk result (to.new.items ≡ to.old.items
        ++ flat_map (series_text scale.steps drawn.now longests.now) all_series.now) }
    ensures front { take (length to.old.items) to.new.items ≡ to.old.items }
{
    for series in all_series {
        append_series(scale, drawn, longests, *series, to)?;
    }
    Ok(())
}

/// Appends the paths of all series.
fn append_all_series(
    scale: Scale,
    drawn: &LaneIntervals,
    to: &mut Vec<u8>,
) -> Result<(), AllocError>
    ensures appended { OnOk result
        (to.new.items ≡ to.old.items ++ all_series_text scale.steps drawn.now) }
    ensures front { take (length to.old.items) to.new.items ≡ to.old.items }
{
    let longests = longest_shares(scale.alloc, scale.steps, drawn)?;
    append_each_series(scale, drawn, &longests, &ALL_SERIES, to)
}

/// Appends the texts of the first errors.
fn append_told(steps: u32, labels: &[ErrorLabel], to: &mut Vec<u8>) -> Result<(), AllocError>
    ensures appended { OnOk result
        (to.new.items ≡ to.old.items ++ flat_map (label_text steps) (take 4 labels.now)) }
    ensures front { take (length to.old.items) to.new.items ≡ to.old.items }
{
    let told = labels.len().min(LABELS_SHOWN);
    append_labels(steps, &labels[..told], to)
}

/// Appends a lane that begins so far down.
#[tactic(auto, unfolding(crate::specs::Lanes::lane_text))]
pub(crate) fn append_lane(
    scale: Scale,
    y: usize,
    lane: &Lane,
    to: &mut Vec<u8>,
) -> Result<(), AllocError>
    ensures appended { OnOk result
        (to.new.items ≡ to.old.items ++ lane_text scale.steps y lane.now) }
    ensures front { take (length to.old.items) to.new.items ≡ to.old.items }
{
    append_head(y, lane, scale.steps, to)?;
    append_all_series(scale, &lane.intervals, to)?;
    append_told(scale.steps, lane.labels.as_slice(), to)?;
    append(b"</g>\n", to)
}
