//! Bytes of any reader, read part by part.

ghost use Rattle.std.specs.Prelude.{◌≡◌, ◌≢◌, ◌≤◌, ◌+◌, IfErr, IfOk, IfSome, OnErr, OnOk, length, take};
ghost use Rattle.std.specs.Io.{ReadsAtMost};
ghost use Rattle.std.specs.Io.KnownBytes.{ReadConsumes};
ghost use Rattle.std.specs.IoError.{error_kind};
ghost use Rattle.std.specs.Str.{bytes_eq};
ghost use Rattle.ps_run.specs.Parts.{ReadsNext};

use std::io::{self, ErrorKind, Read};

/// The most bytes that are read by one call.
const PART_BYTES: usize = 65_536;

/// Reads the next bytes of a reader, by one read that isn't interrupted. Fails where the read does.
fn read_some<R: Read>(reader: &mut R, part: &mut [u8]) -> io::Result<usize>
    ensures bound { ReadsAtMost result part.new }
    ensures bytes { ReadConsumes (R.remaining reader.old) (R.remaining reader.new) result part.new }
    ensures whole { IfErr result (λ error. error_kind error ≢ ErrorKind.Interrupted) }
{
    for _ in 0..u64::MAX {
        match reader.read(part) {
            Err(error) if error.kind() == ErrorKind::Interrupted => {}
            answer => return answer,
        }
    }
    Err(io::Error::from(ErrorKind::TimedOut))
}

/// Appends the next bytes of a reader, up to `most` of them: some where some are left. Fails where the
/// read does, or where they find no room; nothing is appended then.
pub fn read_part<R: Read>(reader: &mut R, most: usize, bytes: &mut Vec<u8>) -> io::Result<()>
    requires some { 1 ≤ most }
    ensures next { OnOk result (IfSome (R.remaining reader.old)
        (λ known. ReadsNext known (R.remaining reader.new) bytes.old.items bytes.new.items)) }
    ensures begins { take (length bytes.old.items) bytes.new.items ≡ bytes.old.items }
    ensures most { length bytes.new.items ≤ length bytes.old.items + most }
    ensures kept { OnErr result (bytes.new.items ≡ bytes.old.items) }
{
    let mut buffer = [0; PART_BYTES];
    let part = &mut buffer[..most.min(PART_BYTES)];
    let count = read_some(reader, part)?;
    bytes.extend_from_slice(&part[..count])?;
    Ok(())
}

/// Whether what is left of a reader is just these bytes. Fails where a read does.
pub fn reads<R: Read>(reader: &mut R, bytes: &[u8]) -> io::Result<bool>
    ensures { IfOk result (λ is. IfSome (R.remaining reader.old)
        (λ known. is ≡ bytes_eq known bytes.now)) }
{
    let mut buffer = [0; PART_BYTES];
    let mut left = bytes;
    for _ in 0..u64::MAX {
        let count = read_some(reader, &mut buffer)?;
        if count == 0 {
            return Ok(left.is_empty());
        }
        let Some(rest) = left.strip_prefix(&buffer[..count]) else {
            return Ok(false);
        };
        left = rest;
    }
    Err(io::Error::from(ErrorKind::TimedOut))
}
