//! Texts of values in lines of what is told of a run.

ghost use Rattle.std.specs.Prelude.{◌≡◌, ◌<◌, ◌≤◌, ◌++◌, take, length, OnOk, OnErr, vec_capacity};
ghost use Rattle.std.specs.Option.{option_copied};
ghost use Rattle.ps_views.specs.Lines.{at_right, at_text, cut_line, label_text};

use crate::bytes::{Showing, append, append_repeated, append_shown};
use crate::places::append_position;
use itoa::{Buffer, Integer};
use ps_places::Position;
use std::alloc::AllocError;

/// Appends what a program wrote, in one line of at most so many bytes: the last two of a longer one
/// are dots. Fails where a growth is refused; what stood before stays.
pub(crate) fn append_cut(bytes: &[u8], most: usize, to: &mut Vec<u8>) -> Result<(), AllocError>
    ensures appended { OnOk result (to.new.items ≡ to.old.items ++ cut_line most bytes.now) }
    ensures front { take (length to.old.items) to.new.items ≡ to.old.items }
    ensures capacity { vec_capacity to.old ≤ vec_capacity to.new }
    ensures full { OnErr result
        (vec_capacity to.old < length (to.old.items ++ cut_line most bytes.now)) }
{
    if bytes.len() > most {
        append_shown(&bytes[..most.saturating_sub(2)], Showing::Line, to)?;
        append(b"..", to)
    } else {
        append_shown(bytes, Showing::Line, to)
    }
}

/// Appends the text of a value or a name behind a space, where there is one.
///
/// `AllocError`: a growth was refused; what stood before stays.
pub fn append_label(label: Option<&[u8]>, to: &mut Vec<u8>) -> Result<(), AllocError>
    ensures appended { OnOk result
        (to.new.items ≡ to.old.items ++ label_text (option_copied label.entry)) }
    ensures front { take (length to.old.items) to.new.items ≡ to.old.items }
    ensures capacity { vec_capacity to.old ≤ vec_capacity to.new }
    ensures full { OnErr result
        (vec_capacity to.old < length (to.old.items ++ label_text (option_copied label.entry))) }
{
    let Some(label) = label else {
        return Ok(());
    };
    append(b" ", to)?;
    append_shown(label, Showing::Line, to)
}

/// Appends where something stands, as far as that is known.
pub(crate) fn append_at(
    file: &[u8],
    position: Option<Position>,
    to: &mut Vec<u8>,
) -> Result<(), AllocError>
    ensures appended { OnOk result (to.new.items ≡ to.old.items ++ at_text file.now position) }
    ensures front { take (length to.old.items) to.new.items ≡ to.old.items }
    ensures capacity { vec_capacity to.old ≤ vec_capacity to.new }
    ensures full { OnErr result
        (vec_capacity to.old < length (to.old.items ++ at_text file.now position)) }
{
    let Some(position) = position else {
        return Ok(());
    };
    append(b" at ", to)?;
    append_position(file, position, to)
}

/// Appends a number in decimal behind as many spaces as fill a width.
pub(crate) fn append_right<I: Integer>(
    number: I,
    width: usize,
    to: &mut Vec<u8>,
) -> Result<(), AllocError>
    ensures appended { OnOk result (to.new.items ≡ to.old.items ++ at_right width (I.text number)) }
    ensures front { take (length to.old.items) to.new.items ≡ to.old.items }
    ensures capacity { vec_capacity to.old ≤ vec_capacity to.new }
    ensures full { OnErr result
        (vec_capacity to.old < length (to.old.items ++ at_right width (I.text number))) }
{
    let mut buffer = Buffer::new();
    let text = buffer.format(number).as_bytes();
    append_repeated(b' ', width.saturating_sub(text.len()), to)?;
    append(text, to)
}
