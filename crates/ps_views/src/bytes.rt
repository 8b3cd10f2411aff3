//! Bytes that a program wrote, and integers, behind a text.

ghost use Rattle.std.specs.Prelude.{◌≡◌, ◌<◌, ◌≤◌, ◌++◌, map, replicate, take, length, OnOk, OnErr};
ghost use Rattle.std.specs.Prelude.{vec_capacity};
ghost use Rattle.std.specs.Fmt.{signed_decimal};
ghost use Rattle.ps_views.specs.Bytes.{shown_byte};

use itoa::{Buffer, Integer};
use std::alloc::AllocError;

/// How bytes of a program are shown.
#[derive(Clone, Copy)]
pub(crate) enum Showing {
    /// In a line of the text: printable ASCII as it is, any other byte as `?`.
    Word,
    /// The same, but that a tab or a byte of a line's end is a space.
    Line,
    /// As in a word, but that a tab stays a tab.
    Source,
    /// Space of the same width.
    Blank,
}

/// How one byte is shown.
fn shown(showing: Showing, byte: u8) -> u8
    ensures { result ≡ shown_byte showing byte }
{
    let is_printable = byte >= b' ' && byte <= b'~';
    match showing {
        Showing::Word => { if is_printable { byte } else { b'?' } }
        Showing::Line => {
            if is_printable {
                byte
            } else if byte == b'\t' || byte == b'\n' || byte == b'\r' {
                b' '
            } else {
                b'?'
            }
        }
        Showing::Source => {
            if is_printable || byte == b'\t' {
                byte
            } else {
                b'?'
            }
        }
        Showing::Blank => { if byte == b'\t' { byte } else { b' ' } }
    }
}

/// Appends bytes as they are shown. Fails where a growth is refused; what stood before stays.
pub(crate) fn append_shown(
    bytes: &[u8],
    showing: Showing,
    to: &mut Vec<u8>,
) -> Result<(), AllocError>
    ensures appended { OnOk result (to.new.items ≡ to.old.items ++ map (shown_byte showing)
        bytes.now) }
    ensures front { take (length to.old.items) to.new.items ≡ to.old.items }
    ensures capacity { vec_capacity to.old ≤ vec_capacity to.new }
    ensures full { OnErr result (vec_capacity to.old < length (to.old.items
        ++ map (shown_byte showing) bytes.now)) }
{
    for byte in bytes {
        to.push(shown(showing, *byte))?;
    }
    Ok(())
}

/// Appends a byte so many times. Fails where a growth is refused; what stood before stays.
pub(crate) fn append_repeated(byte: u8, count: usize, to: &mut Vec<u8>) -> Result<(), AllocError>
    ensures appended { OnOk result (to.new.items ≡ to.old.items ++ replicate count byte) }
    ensures front { take (length to.old.items) to.new.items ≡ to.old.items }
    ensures capacity { vec_capacity to.old ≤ vec_capacity to.new }
    ensures full { OnErr result (vec_capacity to.old < length (to.old.items
        ++ replicate count byte)) }
{
    for _index in 0..count {
        to.push(byte)?;
    }
    Ok(())
}

/// Appends bytes as they are.
///
/// `AllocError`: a growth was refused; what stood before stays.
pub fn append(bytes: &[u8], to: &mut Vec<u8>) -> Result<(), AllocError>
    ensures appended { OnOk result (to.new.items ≡ to.old.items ++ bytes.now) }
    ensures front { take (length to.old.items) to.new.items ≡ to.old.items }
    ensures capacity { vec_capacity to.old ≤ vec_capacity to.new }
    ensures full { OnErr result (vec_capacity to.old < length (to.old.items ++ bytes.now)) }
{
    to.extend_from_slice(bytes)
}

/// Appends a number in decimal.
///
/// `AllocError`: a growth was refused; what stood before stays.
pub fn append_number<I: Integer>(number: I, to: &mut Vec<u8>) -> Result<(), AllocError>
    ensures appended { OnOk result (to.new.items ≡ to.old.items ++ I.text number) }
    ensures front { take (length to.old.items) to.new.items ≡ to.old.items }
    ensures capacity { vec_capacity to.old ≤ vec_capacity to.new }
    ensures full { OnErr result (vec_capacity to.old < length (to.old.items ++ I.text number)) }
{
    let mut buffer = Buffer::new();
    to.extend_from_slice(buffer.format(number).as_bytes())
}

/// Appends an integer in decimal, behind a minus sign where it is negative. Fails where a growth is
/// refused; what stood before stays.
pub(crate) fn append_integer(number: i64, to: &mut Vec<u8>) -> Result<(), AllocError>
    ensures appended { OnOk result (to.new.items ≡ to.old.items ++ signed_decimal number) }
    ensures front { take (length to.old.items) to.new.items ≡ to.old.items }
    ensures capacity { vec_capacity to.old ≤ vec_capacity to.new }
    ensures full { OnErr result
        (vec_capacity to.old < length (to.old.items ++ signed_decimal number)) }
{
    let mut buffer = Buffer::new();
    to.extend_from_slice(buffer.format(number).as_bytes())
}
