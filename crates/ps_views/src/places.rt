//! Where an error is, as text.

ghost use Rattle.std.specs.Prelude.{◌≡◌, ◌<◌, ◌≤◌, ◌++◌, take, drop, length, OnOk, OnErr};
ghost use Rattle.std.specs.Prelude.{◌-◌, vec_capacity, slice_range};
ghost use Rattle.std.specs.List.{flat_map};
ghost use Rattle.ps_places.specs.Positions.{line_in, position_in};
ghost use Rattle.ps_places.specs.Tokens.{mark_in};
ghost use Rattle.ps_views.specs.Places.{position_text, what_text, when_text, head_text};
ghost use Rattle.ps_views.specs.Places.{spot_text, named_text, times_text, caller_text};
ghost use Rattle.ps_views.specs.Places.{callers_text, more_text, where_text};

use crate::bytes::{Showing, append, append_number, append_shown};
use crate::sources::append_source;
use ps_language::errors::{ErrorName, error_text};
use ps_places::{Position, line_at, mark_at, position_of};
use std::alloc::AllocError;

/// The most callers that are told one by one.
const CALLERS_TOLD: usize = 10;

/// What called the code that failed, from the innermost on: a place in the program, and the name of
/// the procedure in which it is, where it is known.
#[derive(Clone, Copy)]
pub struct Caller<'a> {
    pub position: Position,
    pub procedure: Option<&'a [u8]>,
    /// How often this caller stands there, one call behind another; from 1.
    pub times: usize,
}

/// Where the code stands that failed.
#[derive(Clone, Copy)]
pub struct Spot<'a> {
    pub position: Position,
    /// The bytes of its line, without the line's end.
    pub line: &'a [u8],
    /// How many bytes are marked, from the position on.
    pub width: usize,
    /// The name of the procedure in which it is, where it is known.
    pub procedure: Option<&'a [u8]>,
}

/// Where an error is.
#[derive(Clone, Copy)]
pub struct ErrorPlace<'a> {
    /// The program's file, as it was named.
    pub file: &'a [u8],
    pub error: ErrorName,
    /// The text of the command that failed. `None`: there is none, as at a fault of the text.
    pub command: Option<&'a [u8]>,
    /// The identifier of the context.
    pub context: u32,
    /// The number of the step that failed, from 1.
    pub step: u64,
    /// `None`: what failed doesn't stand in the program, but was built by it.
    pub spot: Option<Spot<'a>>,
    /// Innermost first, equal neighbours as one.
    pub callers: &'a [Caller<'a>],
}

/// The spot of a place in a text: its position and its line, and what is marked in it.
pub fn spot_at<'a>(text: &'a [u8], offset: usize, procedure: Option<&'a [u8]>) -> Spot<'a>
    ensures position { result.position ≡ position_in text.now offset }
    ensures line { let line = line_in text.now offset in
        result.line.now ≡ slice_range text.now line.start line.end }
    ensures width { let mark = mark_in text.now offset in result.width ≡ mark.end - mark.start }
    ensures procedure { result.procedure ≡ procedure.entry }
{
    let mark = mark_at(text, offset);
    Spot {
        position: position_of(text, offset),
        line: line_at(text, offset).of(text),
        width: mark.end - mark.start,
        procedure,
    }
}

/// Appends a place: the file, the line and the column.
pub(crate) fn append_position(
    file: &[u8],
    position: Position,
    to: &mut Vec<u8>,
) -> Result<(), AllocError>
    ensures appended { OnOk result
        (to.new.items ≡ to.old.items ++ position_text file.now position) }
    ensures front { take (length to.old.items) to.new.items ≡ to.old.items }
    ensures capacity { vec_capacity to.old ≤ vec_capacity to.new }
    ensures full { OnErr result
        (vec_capacity to.old < length (to.old.items ++ position_text file.now
        position)) }
{
    append(file, to)?;
    append(b":", to)?;
    append_number(position.line, to)?;
    append(b":", to)?;
    append_number(position.column, to)
}

/// Appends what an error is: its name, and the command that failed.
fn append_what(error: ErrorName, command: Option<&[u8]>, to: &mut Vec<u8>) -> Result<(), AllocError>
    ensures appended { OnOk result (to.new.items ≡ to.old.items ++ what_text error command.entry) }
    ensures front { take (length to.old.items) to.new.items ≡ to.old.items }
    ensures capacity { vec_capacity to.old ≤ vec_capacity to.new }
    ensures full { OnErr result
        (vec_capacity to.old < length (to.old.items ++ what_text error command.entry)) }
{
    append(error_text(error), to)?;
    let Some(command) = command else {
        return Ok(());
    };
    append(b" in ", to)?;
    append_shown(command, Showing::Word, to)
}

/// Appends when it was: the context and the step.
fn append_when(context: u32, step: u64, to: &mut Vec<u8>) -> Result<(), AllocError>
    ensures appended { OnOk result (to.new.items ≡ to.old.items ++ when_text context step) }
    ensures front { take (length to.old.items) to.new.items ≡ to.old.items }
    ensures capacity { vec_capacity to.old ≤ vec_capacity to.new }
    ensures full { OnErr result
        (vec_capacity to.old < length (to.old.items ++ when_text context step)) }
{
    append(b" (context ", to)?;
    append_number(context, to)?;
    append(b", step ", to)?;
    append_number(step, to)?;
    append(b")\n", to)
}

/// Appends the first line.
fn append_head(told: &ErrorPlace<'_>, to: &mut Vec<u8>) -> Result<(), AllocError>
    ensures appended { OnOk result (to.new.items ≡ to.old.items ++ head_text told.now) }
    ensures front { take (length to.old.items) to.new.items ≡ to.old.items }
    ensures capacity { vec_capacity to.old ≤ vec_capacity to.new }
    ensures full { OnErr result
        (vec_capacity to.old < length (to.old.items ++ head_text told.now)) }
{
    match told.spot {
        Some(spot) => append_position(told.file, spot.position, to)?,
        None => append(told.file, to)?,
    }
    append(b": ", to)?;
    append_what(told.error, told.command, to)?;
    append_when(told.context, told.step, to)
}

/// Appends a name behind what introduces it, where there is one.
fn append_name(
    before: &[u8],
    name: Option<&[u8]>,
    behind: &[u8],
    to: &mut Vec<u8>,
) -> Result<(), AllocError>
    ensures appended { OnOk result
        (to.new.items ≡ to.old.items ++ named_text before.now name.entry behind.now) }
    ensures front { take (length to.old.items) to.new.items ≡ to.old.items }
    ensures capacity { vec_capacity to.old ≤ vec_capacity to.new }
    ensures full { OnErr result
        (vec_capacity to.old < length (to.old.items
        ++ named_text before.now name.entry behind.now)) }
{
    let Some(name) = name else {
        return Ok(());
    };
    append(before, to)?;
    append_shown(name, Showing::Word, to)?;
    append(behind, to)
}

/// Appends the line of the source, the mark, and the procedure's name.
fn append_spot(spot: Option<Spot<'_>>, to: &mut Vec<u8>) -> Result<(), AllocError>
    ensures appended { OnOk result (to.new.items ≡ to.old.items ++ spot_text spot.entry) }
    ensures front { take (length to.old.items) to.new.items ≡ to.old.items }
    ensures capacity { vec_capacity to.old ≤ vec_capacity to.new }
    ensures full { OnErr result
        (vec_capacity to.old < length (to.old.items ++ spot_text spot.entry)) }
{
    let Some(spot) = spot else {
        return Ok(());
    };
    append_source(
        spot.line,
        spot.position.column.saturating_sub(1),
        spot.width,
        to,
    )?;
    append_name(b"  in ", spot.procedure, b"\n", to)
}

/// Appends how often a caller stands there, where it is more than once.
fn append_times(times: usize, to: &mut Vec<u8>) -> Result<(), AllocError>
    ensures appended { OnOk result (to.new.items ≡ to.old.items ++ times_text times) }
    ensures front { take (length to.old.items) to.new.items ≡ to.old.items }
    ensures capacity { vec_capacity to.old ≤ vec_capacity to.new }
    ensures full { OnErr result (vec_capacity to.old < length (to.old.items ++ times_text times)) }
{
    if times > 1 {
        append(b", ", to)?;
        append_number(times, to)?;
        return append(b" times", to);
    }
    Ok(())
}

/// Appends the line of a caller.
fn append_caller(file: &[u8], caller: &Caller<'_>, to: &mut Vec<u8>) -> Result<(), AllocError>
    ensures appended { OnOk result
        (to.new.items ≡ to.old.items ++ caller_text file.now caller.now) }
    ensures front { take (length to.old.items) to.new.items ≡ to.old.items }
    ensures capacity { vec_capacity to.old ≤ vec_capacity to.new }
    ensures full { OnErr result
        (vec_capacity to.old < length (to.old.items ++ caller_text file.now caller.now)) }
{
    append(b"  called from ", to)?;
    append_position(file, caller.position, to)?;
    append_name(b" in ", caller.procedure, b"", to)?;
    append_times(caller.times, to)?;
    append(b"\n", to)
}

/// Appends the lines of callers, one behind another.
fn append_each(file: &[u8], callers: &[Caller<'_>], to: &mut Vec<u8>) -> Result<(), AllocError>
    ensures appended { OnOk result
        (to.new.items ≡ to.old.items ++ flat_map (caller_text file.now) callers.now) }
    ensures front { take (length to.old.items) to.new.items ≡ to.old.items }
    ensures capacity { vec_capacity to.old ≤ vec_capacity to.new }
    ensures full { OnErr result
        (vec_capacity to.old < length (to.old.items
        ++ flat_map (caller_text file.now) callers.now)) }
{
    for caller in callers {
        append_caller(file, caller, to)?;
    }
    Ok(())
}

/// Appends how many callers aren't told.
fn append_more(count: usize, to: &mut Vec<u8>) -> Result<(), AllocError>
    ensures appended { OnOk result (to.new.items ≡ to.old.items ++ more_text count) }
    ensures front { take (length to.old.items) to.new.items ≡ to.old.items }
    ensures capacity { vec_capacity to.old ≤ vec_capacity to.new }
    ensures full { OnErr result (vec_capacity to.old < length (to.old.items ++ more_text count)) }
{
    if count == 0 {
        return Ok(());
    }
    append(b"  and ", to)?;
    append_number(count, to)?;
    append(b" more\n", to)
}

/// Appends the lines of the callers.
fn append_callers(file: &[u8], callers: &[Caller<'_>], to: &mut Vec<u8>) -> Result<(), AllocError>
    ensures appended { OnOk result
        (to.new.items ≡ to.old.items ++ callers_text file.now callers.now) }
    ensures front { take (length to.old.items) to.new.items ≡ to.old.items }
    ensures capacity { vec_capacity to.old ≤ vec_capacity to.new }
    ensures full { OnErr result
        (vec_capacity to.old < length (to.old.items ++ callers_text file.now callers.now)) }
{
    let told = callers.len().min(CALLERS_TOLD);
    append_each(file, &callers[..told], to)?;
    append_more(callers.len() - told, to)
}

/// Appends the text of an error's place:
///
/// ```text
/// FILE:LINE:COLUMN: ERROR in COMMAND (context N, step N)
///     the line of the source
///         ^^^^
///   in PROCEDURE
///   called from FILE:LINE:COLUMN in PROCEDURE, N times
///   and N more
/// ```
///
/// Names of procedures are left out where they aren't known, the position and the source where
/// there is none, and the command where there is none. At most ten callers are told one by one. Of
/// a longer line 160 bytes are shown around the place, with `..` for what is cut off. A byte of the
/// program that is no printable ASCII is shown as `?`; a tab of the source stays.
///
/// `AllocError`: a growth was refused, and nothing has changed.
pub fn append_place(told: &ErrorPlace<'_>, to: &mut Vec<u8>) -> Result<(), AllocError>
    ensures appended { OnOk result (to.new.items ≡ to.old.items ++ where_text told.now) }
    ensures kept { OnErr result (to.new.items ≡ to.old.items) }
    ensures capacity { vec_capacity to.old ≤ vec_capacity to.new }
    ensures full { OnErr result
        (vec_capacity to.old < length (to.old.items ++ where_text told.now)) }
{
    let start = to.len();
    if append_lines(told, to).is_err() {
        to.truncate(start);
        return Err(AllocError);
    }
    Ok(())
}

/// The same; where a growth is refused, lines may have come.
#[tactic(auto, unfolding(crate::specs::Places::where_text))]
fn append_lines(told: &ErrorPlace<'_>, to: &mut Vec<u8>) -> Result<(), AllocError>
    ensures appended { OnOk result (to.new.items ≡ to.old.items ++ where_text told.now) }
    ensures front { take (length to.old.items) to.new.items ≡ to.old.items }
    ensures capacity { vec_capacity to.old ≤ vec_capacity to.new }
    ensures full { OnErr result
        (vec_capacity to.old < length (to.old.items ++ where_text told.now)) }
{
    append_head(told, to)?;
    append_spot(told.spot, to)?;
    append_callers(told.file, told.callers, to)
}
