//! Bytes, numbers and texts of the user behind a text.

ghost use Rattle.std.specs.Prelude.{◌≡◌, ◌++◌, take, length, OnOk};
ghost use Rattle.ps_timelines.specs.Texts.{escaped, escaped_byte, number_text};

use ps_views::{append, append_number};
use std::alloc::AllocError;

/// Appends a byte of a text as XML has it.
fn append_escaped_byte(byte: u8, to: &mut Vec<u8>) -> Result<(), AllocError>
    ensures appended { OnOk result (to.new.items ≡ to.old.items ++ escaped_byte byte) }
    ensures front { take (length to.old.items) to.new.items ≡ to.old.items }
{
    if byte == b'&' {
        append(b"&amp;", to)
    } else if byte == b'<' {
        append(b"&lt;", to)
    } else if byte == b'>' {
        append(b"&gt;", to)
    } else if byte >= b' ' && byte <= b'~' {
        append(&[byte], to)
    } else {
        append(b"?", to)
    }
}

/// Appends a text as XML has it. Fails where a growth is refused; what stood before stays.
pub(crate) fn append_escaped(bytes: &[u8], to: &mut Vec<u8>) -> Result<(), AllocError>
    ensures appended { OnOk result (to.new.items ≡ to.old.items ++ escaped bytes.now) }
    ensures front { take (length to.old.items) to.new.items ≡ to.old.items }
{
    for byte in bytes {
        append_escaped_byte(*byte, to)?;
    }
    Ok(())
}

/// Appends a number between two texts. Fails where a growth is refused; what stood before stays.
#[tactic(auto, unfolding(crate::specs::Texts::number_text))]
pub(crate) fn append_between(
    before: &[u8],
    number: usize,
    behind: &[u8],
    to: &mut Vec<u8>,
) -> Result<(), AllocError>
    ensures appended { OnOk result
        (to.new.items ≡ to.old.items ++ number_text before.now number behind.now) }
    ensures front { take (length to.old.items) to.new.items ≡ to.old.items }
{
    append(before, to)?;
    append_number(number, to)?;
    append(behind, to)
}
