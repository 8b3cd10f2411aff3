//! The line of the source in which a place lies, with a mark below it.

ghost use Rattle.std.specs.Prelude.{◌≡◌, ◌<◌, ◌≤◌, ◌++◌, take, length, OnOk, OnErr, vec_capacity};
ghost use Rattle.std.specs.Prelude.{codes, if◌then◌else◌};
ghost use Rattle.ps_views.specs.Sources as sources;
ghost use Rattle.ps_views.specs.Sources.{part_line, mark_line, window_text, source_text};

use crate::bytes::{Showing, append, append_repeated, append_shown};
use std::alloc::AllocError;

/// The most bytes of a source line that are shown.
const SHOWN_BYTES: usize = 160;

/// The most of them that stand before the mark where the line is cut on both sides.
const BYTES_BEFORE: usize = 80;

/// The part of a line that is shown.
#[derive(Clone, Copy)]
pub(crate) struct Window<'a> {
    /// Its bytes.
    pub bytes: &'a [u8],
    /// Where the mark begins in it.
    pub mark: usize,
    /// Whether bytes are cut off before it.
    pub is_cut_before: bool,
    /// Whether bytes are cut off behind it.
    pub is_cut_behind: bool,
}

/// The part of a line that is shown around a place in it.
fn window_at(line: &[u8], at: usize) -> Window<'_>
    ensures bytes { result.bytes.now ≡ sources.window_bytes line.now at }
    ensures mark { result.mark ≡ sources.window_mark line.now at }
    ensures before { result.is_cut_before ≡ sources.is_cut_before line.now at }
    ensures behind { result.is_cut_behind ≡ sources.is_cut_behind line.now at }
{
    let size = line.len();
    let at = at.min(size);
    let from = at
        .saturating_sub(BYTES_BEFORE)
        .min(size.saturating_sub(SHOWN_BYTES));
    let past = from + SHOWN_BYTES;
    Window {
        bytes: &line[from..past.min(size)],
        mark: at - from,
        is_cut_before: from > 0,
        is_cut_behind: past < size,
    }
}

/// Appends a line that shows a part of the source. Fails where a growth is refused; what stood
/// before stays.
fn append_shown_line(window: &Window<'_>, to: &mut Vec<u8>) -> Result<(), AllocError>
    ensures appended { OnOk result (to.new.items ≡ to.old.items ++ part_line
        window.now.bytes.now window.now.is_cut_before window.now.is_cut_behind) }
    ensures front { take (length to.old.items) to.new.items ≡ to.old.items }
    ensures capacity { vec_capacity to.old ≤ vec_capacity to.new }
    ensures full { OnErr result (vec_capacity to.old < length (to.old.items ++ part_line
        window.now.bytes.now window.now.is_cut_before window.now.is_cut_behind)) }
{
    append(b"    ", to)?;
    append(cut_text(window.is_cut_before), to)?;
    append_shown(window.bytes, Showing::Source, to)?;
    append(cut_text(window.is_cut_behind), to)?;
    append(b"\n", to)
}

/// What stands for bytes that are cut off.
fn cut_text(is_cut: bool) -> &'static [u8]
    ensures { result.now ≡ sources.cut_text is_cut }
{
    if is_cut { b".." } else { b"" }
}

/// Appends the line of the mark, of so many bytes. Fails where a growth is refused; what stood
/// before stays.
fn append_mark_line(window: &Window<'_>, width: usize, to: &mut Vec<u8>) -> Result<(), AllocError>
    ensures appended { OnOk result (to.new.items ≡ to.old.items ++ mark_line
        window.now.bytes.now window.now.mark window.now.is_cut_before width) }
    ensures front { take (length to.old.items) to.new.items ≡ to.old.items }
    ensures capacity { vec_capacity to.old ≤ vec_capacity to.new }
    ensures full { OnErr result (vec_capacity to.old < length (to.old.items ++ mark_line
        window.now.bytes.now window.now.mark window.now.is_cut_before width)) }
{
    let size = window.bytes.len();
    let before = window.mark.min(size);
    append(b"    ", to)?;
    append_shown(cut_text(window.is_cut_before), Showing::Blank, to)?;
    append_shown(&window.bytes[..before], Showing::Blank, to)?;
    append_repeated(b'^', width.min(size - before).max(1), to)?;
    append(b"\n", to)
}

/// Appends the part that is shown and the line of the mark. Fails where a growth is refused; what
/// stood before stays.
fn append_window(window: &Window<'_>, width: usize, to: &mut Vec<u8>) -> Result<(), AllocError>
    ensures appended { OnOk result (to.new.items ≡ to.old.items ++ window_text
        window.now.bytes.now window.now.mark window.now.is_cut_before
        window.now.is_cut_behind width) }
    ensures front { take (length to.old.items) to.new.items ≡ to.old.items }
    ensures capacity { vec_capacity to.old ≤ vec_capacity to.new }
    ensures full { OnErr result (vec_capacity to.old < length (to.old.items ++ window_text
        window.now.bytes.now window.now.mark window.now.is_cut_before
        window.now.is_cut_behind width)) }
{
    append_shown_line(window, to)?;
    append_mark_line(window, width, to)
}

/// Appends a line of the source and a mark of so many bytes below it, from an index on. Fails where
/// a growth is refused; what stood before stays.
pub(crate) fn append_source(
    line: &[u8],
    at: usize,
    width: usize,
    to: &mut Vec<u8>,
) -> Result<(), AllocError>
    ensures appended { OnOk result (to.new.items ≡ to.old.items ++ source_text line.now at width) }
    ensures front { take (length to.old.items) to.new.items ≡ to.old.items }
    ensures capacity { vec_capacity to.old ≤ vec_capacity to.new }
    ensures full { OnErr result (vec_capacity to.old < length (to.old.items
        ++ source_text line.now at width)) }
{
    append_window(&window_at(line, at), width, to)
}
