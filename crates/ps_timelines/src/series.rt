//! What is drawn in a lane: a series for each state that a context may be in, and for what it does.

ghost use Rattle.std.specs.Prelude.{◌≡◌, ◌≤◌, ◌++◌, ◌==◌, take, length, OnOk};
ghost use Rattle.std.specs.List.{list_all};
ghost use Rattle.ps_timelines.specs.Series as paths;
ghost use Rattle.ps_timelines.specs.Series.{edge_text, edges_text, outline_text, path_text};
ghost use Rattle.ps_timelines.specs.Series.{line_text, path_head, path_tail, shape_text, stroke_text};

use ps_views::{append, append_number};
use std::alloc::AllocError;

/// How wide a lane is.
const WIDTH: usize = 1000;
/// What the bars of steps stand on, and those of locks below them.
const STEPS_BASE: usize = 30;

const OWNER_BASE: usize = 36;

/// What is drawn in a lane.
#[derive(Clone, Copy, Debug, PartialEq, Eq)]
pub(crate) enum Series {
    /// It may go on, and another does.
    Ready,
    Lock,
    Condition,
    Join,
    Steps,
    /// It has a lock.
    Owner,
    Print,
    Error,
}

/// Each of them, in the order in which they are drawn.
pub(crate) const ALL_SERIES: [Series; 8] = [
    Series::Ready,
    Series::Lock,
    Series::Condition,
    Series::Join,
    Series::Steps,
    Series::Owner,
    Series::Print,
    Series::Error,
];

/// Its name in the style sheet.
fn series_word(series: Series) -> &'static [u8]
    ensures { result.now ≡ paths.series_word series }
{
    match series {
        Series::Ready => b"ready",
        Series::Lock => b"lock",
        Series::Condition => b"condition",
        Series::Join => b"join",
        Series::Steps => b"steps",
        Series::Owner => b"owner",
        Series::Print => b"print",
        Series::Error => b"error",
    }
}

/// What it says of a context.
fn series_title(series: Series) -> &'static [u8]
    ensures { result.now ≡ paths.series_title series }
{
    match series {
        Series::Ready => b"ready",
        Series::Lock => b"waits for a lock",
        Series::Condition => b"waits for a condition",
        Series::Join => b"waits to join",
        Series::Steps => b"steps (height: share)",
        Series::Owner => b"has a lock",
        Series::Print => b"prints",
        Series::Error => b"error",
    }
}

/// Appends its name.
pub(crate) fn append_series_word(series: Series, to: &mut Vec<u8>) -> Result<(), AllocError>
    ensures appended { OnOk result (to.new.items ≡ to.old.items ++ paths.series_word series) }
    ensures front { take (length to.old.items) to.new.items ≡ to.old.items }
{
    append(series_word(series), to)
}

/// Appends what it says of a context.
pub(crate) fn append_series_title(series: Series, to: &mut Vec<u8>) -> Result<(), AllocError>
    ensures appended { OnOk result (to.new.items ≡ to.old.items ++ paths.series_title series) }
    ensures front { take (length to.old.items) to.new.items ≡ to.old.items }
{
    append(series_title(series), to)
}

/// What its path begins with.
fn path_begin(series: Series) -> &'static [u8]
    ensures { result.now ≡ paths.path_begin series }
{
    match series {
        Series::Steps => b"M0 30",
        Series::Owner => b"M0 36",
        _ => b"",
    }
}

/// Appends the part of an outline of bars across to a column, and up or down to its height.
fn append_outline(base: usize, level: usize, x: usize, to: &mut Vec<u8>) -> Result<(), AllocError>
    ensures appended { OnOk result (to.new.items ≡ to.old.items ++ outline_text base level x) }
    ensures front { take (length to.old.items) to.new.items ≡ to.old.items }
{
    append(b"H", to)?;
    append_number(x, to)?;
    append(b"V", to)?;
    append_number(base.saturating_sub(level), to)
}

/// Appends the begin of a line, or the rest of one up to where it ends.
fn append_line(level: usize, x: usize, to: &mut Vec<u8>) -> Result<(), AllocError>
    ensures appended { OnOk result (to.new.items ≡ to.old.items ++ line_text level x) }
    ensures front { take (length to.old.items) to.new.items ≡ to.old.items }
{
    if level == 0 {
        append(b"H", to)?;
        append_number(x, to)
    } else {
        append(b"M", to)?;
        append_number(x, to)?;
        append(b" 15", to)
    }
}

/// Appends a shape, where columns begin that have it.
fn append_shape(shape: &[u8], level: usize, x: usize, to: &mut Vec<u8>) -> Result<(), AllocError>
    ensures appended { OnOk result (to.new.items ≡ to.old.items ++ shape_text shape.now level x) }
    ensures front { take (length to.old.items) to.new.items ≡ to.old.items }
{
    if level == 0 {
        return Ok(());
    }
    append(b"M", to)?;
    append_number(x, to)?;
    append(shape, to)
}

/// Appends what is drawn where the level of a series becomes this.
fn append_stroke(series: Series, level: usize, x: usize, to: &mut Vec<u8>) -> Result<(), AllocError>
    ensures appended { OnOk result (to.new.items ≡ to.old.items ++ stroke_text series level x) }
    ensures front { take (length to.old.items) to.new.items ≡ to.old.items }
{
    match series {
        Series::Ready | Series::Lock | Series::Condition | Series::Join => append_line(
            level, x, to,
        ),
        Series::Steps => append_outline(STEPS_BASE, level, x, to),
        Series::Owner => append_outline(OWNER_BASE, level, x, to),
        Series::Print => append_shape(b" 0l4-6h-8z", level, x, to),
        Series::Error => append_shape(b" 15m-8-8l16 16m0-16l-16 16", level, x, to),
    }
}

/// Appends what is drawn between a column and the one before it.
#[tactic(auto, unfolding(crate::specs::Series::edge_text))]
fn append_edge(
    series: Series,
    before: usize,
    level: usize,
    x: usize,
    to: &mut Vec<u8>,
) -> Result<(), AllocError>
    ensures appended { OnOk result
        (to.new.items ≡ to.old.items ++ edge_text series before level x) }
    ensures front { take (length to.old.items) to.new.items ≡ to.old.items }
{
    if before == level {
        return Ok(());
    }
    append_stroke(series, level, x, to)
}

/// Appends what is drawn at the edges of all columns, from left to right.
fn append_edges(series: Series, levels: &[usize], to: &mut Vec<u8>) -> Result<(), AllocError>
    requires some { 1 ≤ length levels.now }
    requires most { length levels.now ≤ 1000 }
    ensures appended { OnOk result (to.new.items ≡ to.old.items ++ edges_text series levels.now) }
    ensures front { take (length to.old.items) to.new.items ≡ to.old.items }
{
    let mut before = 0;
    for column in 0..levels.len() {
        let level = levels[column];
        append_edge(series, before, level, column * WIDTH / levels.len(), to)?;
        before = level;
    }
    append_edge(series, before, 0, WIDTH, to)
}

/// Appends what the path of a series begins with.
fn append_path_head(series: Series, to: &mut Vec<u8>) -> Result<(), AllocError>
    ensures appended { OnOk result (to.new.items ≡ to.old.items ++ path_head series) }
    ensures front { take (length to.old.items) to.new.items ≡ to.old.items }
{
    append(b"<path class=\"", to)?;
    append(series_word(series), to)?;
    append(b"\" d=\"", to)?;
    append(path_begin(series), to)
}

/// Appends what it ends with.
fn append_path_tail(series: Series, to: &mut Vec<u8>) -> Result<(), AllocError>
    ensures appended { OnOk result (to.new.items ≡ to.old.items ++ path_tail series) }
    ensures front { take (length to.old.items) to.new.items ≡ to.old.items }
{
    append(b"\"><title>", to)?;
    append_series_title(series, to)?;
    append(b"</title></path>\n", to)
}

/// Whether no column is marked.
fn is_blank(levels: &[usize]) -> bool
    ensures { result ≡ list_all (λ level. level == 0) levels.now }
{
    levels.iter().all(|level| *level == 0)
}

/// Appends the path of a series, where any column has it.
#[tactic(auto, unfolding(crate::specs::Series::path_text))]
pub(crate) fn append_path(
    series: Series,
    levels: &[usize],
    to: &mut Vec<u8>,
) -> Result<(), AllocError>
    requires some { 1 ≤ length levels.now }
    requires most { length levels.now ≤ 1000 }
    ensures appended { OnOk result (to.new.items ≡ to.old.items ++ path_text series levels.now) }
    ensures front { take (length to.old.items) to.new.items ≡ to.old.items }
{
    if is_blank(levels) {
        return Ok(());
    }
    append_path_head(series, to)?;
    append_edges(series, levels, to)?;
    append_path_tail(series, to)
}
