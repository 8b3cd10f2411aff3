//! Bytes written as far as an output takes them, and lines that are told, or kept to be.

ghost use Rattle.std.specs.Prelude.{◌≡◌, ◌++◌, true, OnOk, codes};
ghost use Rattle.std.specs.Fmt.{decimal};
ghost use Rattle.std.specs.Io.KnownBytes.{Appends};
ghost use Rattle.ps_vault.specs.Screens.{AppendsPart};
ghost use Rattle.ps_run.specs.Driving.{ending_lines, number_line, unwritten_line};
ghost use Rattle.ps_run.specs.Telling.{Tells};

use crate::outputs::{Flushing, Telling};
use itoa::Buffer;
use std::alloc::AllocError;
use std::io::{self, ErrorKind, Write};

/// Writes bytes; where a write fails the output has a beginning of them.
pub(crate) fn write_part<W: Write>(out: &mut W, bytes: &[u8]) -> io::Result<()>
    ensures part { AppendsPart (W.contents out.old) (W.contents out.new) bytes.now }
    ensures whole { OnOk result (Appends (W.contents out.old) (W.contents out.new) bytes.now) }
{
    let mut written = 0;
    for _ in 0..u64::MAX {
        if written == bytes.len() {
            return Ok(());
        }
        match out.write(&bytes[written..]) {
            Ok(0) => return Err(io::Error::from(ErrorKind::WriteZero)),
            Ok(count) => written += count,
            Err(error) if error.kind() == ErrorKind::Interrupted => {}
            Err(error) => return Err(error),
        }
    }
    Err(io::Error::from(ErrorKind::Interrupted))
}

/// Writes bytes and hands on all that is held back. Where that fails the output has a beginning of
/// the bytes.
pub(crate) fn hand_out<W: Flushing>(out: &mut W, bytes: &[u8]) -> io::Result<()>
    ensures part { AppendsPart (W.contents out.old) (W.contents out.new) bytes.now }
    ensures whole { OnOk result (Appends (W.contents out.old) (W.contents out.new) bytes.now) }
    ensures flushed { OnOk result (W.is_flushed out.new ≡ true) }
{
    write_part(out, bytes)?;
    out.hand_on()
}

/// Tells that the file of a name can't be written.
pub(crate) fn tell_unwritten<X: Telling>(err: &mut X, name: &str)
    ensures { Tells (X.told err.old) (X.told err.new) (unwritten_line name.now) }
{
    err.tell(b"dpsrun: cannot write ");
    err.tell(name.as_bytes());
    err.tell(b"\n");
}

/// Tells a label, a number and the end of the line.
pub(crate) fn tell_number<X: Telling>(err: &mut X, label: &[u8], number: u64)
    ensures { Tells (X.told err.old) (X.told err.new) (number_line label.now number) }
{
    let mut digits = Buffer::new();
    err.tell(label);
    err.tell(digits.format(number).as_bytes());
    err.tell(b"\n");
}

/// Appends a label, a number and the end of the line. Fails where a growth is refused.
pub(crate) fn append_number(label: &[u8], number: u64, to: &mut Vec<u8>) -> Result<(), AllocError>
    ensures { OnOk result (to.new.items ≡ to.old.items ++ number_line label.now number) }
{
    let mut digits = Buffer::new();
    to.extend_from_slice(label)?;
    to.extend_from_slice(digits.format(number).as_bytes())?;
    to.extend_from_slice(b"\n")
}

/// Appends how many runs there were, and how many endings. Fails where a growth is refused.
pub(crate) fn append_runs(runs: u64, endings: usize, to: &mut Vec<u8>) -> Result<(), AllocError>
    ensures { OnOk result (to.new.items ≡ to.old.items ++ ending_lines runs endings) }
{
    append_number(b"runs ", runs, to)?;
    append_number(b"endings ", endings as u64, to)
}
