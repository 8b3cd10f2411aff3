//! The text of a schedule, written.

ghost use Rattle.std.specs.Prelude.{◌≡◌, ◌<◌, ◌≤◌, ◌++◌, ◌∷◌, [], OnOk, OnErr, take, length};
ghost use Rattle.std.specs.Prelude.{vec_capacity};
ghost use Rattle.std.specs.Fmt.{decimal, signed_decimal};
ghost use Rattle.ps_run_schedules.specs.Texts.{line_of, text_of, field_of, ending_of, flag_of};

use crate::entries::Entries;
use itoa::{Buffer, Integer};
use ps_language::schedules::Entry;
use std::alloc::AllocError;

/// Appends the text of a schedule of these entries. Fails only where a growth is refused; nothing
/// has changed then.
pub fn append_schedule(entries: Entries<'_>, text: &mut Vec<u8>) -> Result<(), AllocError>
    ensures appended { OnOk result (text.new.items ≡ text.old.items ++ text_of entries.entry) }
    ensures kept { OnErr result (text.new.items ≡ text.old.items) }
    ensures full { OnErr result
        (vec_capacity text.old < length (text.old.items ++ text_of entries.entry)) }
{
    let before = text.len();
    let mut left = entries;
    while let Some(entry) = left.next() {
        if let Err(error) = append_line(&entry, text) {
            text.truncate(before);
            return Err(error);
        }
    }
    Ok(())
}

/// Appends the line of an entry. Fails where a growth is refused; what stood before stays.
fn append_line(entry: &Entry, text: &mut Vec<u8>) -> Result<(), AllocError>
    ensures appended { OnOk result (text.new.items ≡ text.old.items ++ line_of entry.now) }
    ensures front { take (length text.old.items) text.new.items ≡ text.old.items }
    ensures capacity { vec_capacity text.old ≤ vec_capacity text.new }
    ensures full { OnErr result
        (vec_capacity text.old < length (text.old.items ++ line_of entry.now)) }
{
    append_field(entry.context, b' ', text)?;
    append_field(entry.steps, b' ', text)?;
    text.push(digit_of(entry.refused))?;
    append_ending(entry.shown, text)
}

/// The digit that tells whether a step is refused.
fn digit_of(refused: bool) -> u8
    ensures { result ≡ flag_of refused }
{
    if refused { b'1' } else { b'0' }
}

/// Appends the end of a line, with the pair that is shown. Fails where a growth is refused; what
/// stood before stays.
fn append_ending(shown: Option<(i32, i32)>, text: &mut Vec<u8>) -> Result<(), AllocError>
    ensures appended { OnOk result (text.new.items ≡ text.old.items ++ ending_of shown) }
    ensures front { take (length text.old.items) text.new.items ≡ text.old.items }
    ensures capacity { vec_capacity text.old ≤ vec_capacity text.new }
    ensures full { OnErr result
        (vec_capacity text.old < length (text.old.items ++ ending_of shown)) }
{
    let Some((used, most)) = shown else {
        text.push(b'\n')?;
        return Ok(());
    };
    text.push(b' ')?;
    append_field(used, b' ', text)?;
    append_field(most, b'\n', text)
}

/// Appends a number in decimal and the byte behind it. Fails where the growth is refused; nothing
/// has changed then.
fn append_field<I: Integer>(number: I, ending: u8, text: &mut Vec<u8>) -> Result<(), AllocError>
    ensures appended { OnOk result
        (text.new.items ≡ text.old.items ++ (I.text number ++ ending ∷ [])) }
    ensures kept { OnErr result (text.new.items ≡ text.old.items) }
    ensures capacity { vec_capacity text.old ≤ vec_capacity text.new }
    ensures full { OnErr result
        (vec_capacity text.old < length (text.old.items ++ (I.text number ++ ending ∷ []))) }
{
    let mut buffer = Buffer::new();
    let digits = buffer.format(number).as_bytes();
    text.reserve(digits.len() + 1)?;
    let _ = text.extend_from_slice(digits);
    let _ = text.push(ending);
    Ok(())
}
