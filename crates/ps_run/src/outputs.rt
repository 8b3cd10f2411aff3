//! Outputs that tell whether all that they took was flushed, or whether they took all that they
//! were told.

ghost use Rattle.std.specs.Prelude.{◌≡◌, Bool, true, false, OnOk};
ghost use Rattle.std.specs.Io.{WritesAtMost};
ghost use Rattle.std.specs.Io.KnownBytes.{WriteAppends, Keeps};

use crate::progress::Progress;
use crate::writing::write_part;
use std::io::{self, Write};

/// An output that can be flushed, and remembers whether it is.
pub trait Flushing: Write {
    /// Whether all that was written since was flushed.
    ghost is_flushed: { Self → Bool };

    /// Hands on what is held back. Fails where that fails; the bytes that the output holds stay.
    fn hand_on(&mut self) -> io::Result<()>
        ensures bytes { Keeps (Self.contents self.old) (Self.contents self.new) }
        ensures flushed { OnOk result (is_flushed self.new ≡ true) };
}

/// An output with a note of whether it was flushed since its last write.
#[derive(Drop)]
pub struct Flushed<W: Write> {
    output: W,
    flushed: bool,
}

impl<W: Write> Flushed<W> {
    /// An output to which nothing was written yet, as far as is known.
    pub fn new(output: W) -> Flushed<W>
        ensures output { result.output ≡ output }
        ensures not_yet { result.flushed ≡ false }
    {
        Flushed {
            output,
            flushed: false,
        }
    }

    /// The output itself.
    pub fn into_inner(self) -> W
        ensures { result ≡ self.output }
    {
        let Flushed { output, .. } = self;
        output
    }
}

impl<W: Write> Write for Flushed<W> {
    ghost contents = { λ out. W.contents out.output };

    fn write(&mut self, bytes: &[u8]) -> io::Result<usize>
        ensures bound { WritesAtMost result bytes.now }
        ensures bytes { WriteAppends (W.contents self.old.output) (W.contents self.new.output)
            result bytes.now }
        ensures not_yet { self.new.flushed ≡ false }
    {
        self.flushed = false;
        self.output.write(bytes)
    }

    fn flush(&mut self) -> io::Result<()>
        ensures bytes { Keeps (W.contents self.old.output) (W.contents self.new.output) }
        ensures flushed { OnOk result (self.new.flushed ≡ true) }
    {
        self.output.flush()?;
        self.flushed = true;
        Ok(())
    }
}

impl<W: Write> Flushing for Flushed<W> {
    ghost is_flushed = { λ out. out.flushed };

    fn hand_on(&mut self) -> io::Result<()> {
        self.flush()
    }
}

/// An output for lines of text, which remembers whether it did not take one whole. From then on it
/// is left alone.
pub trait Telling {
    ghost use Rattle.ps_run.specs.Telling.{Tells, Told};

    /// The bytes that it holds, where they are known, and whether it did not take all.
    ghost told: { Self → Told };

    /// Who is shown how far long work is.
    type Progress: Progress + Drop;

    /// Who is shown how far long work is, beside what is told.
    fn progress(&self) -> Self::Progress;

    /// Writes a text, or as much of it as the output takes.
    fn tell(&mut self, text: &[u8])
        ensures { Tells (told self.old) (told self.new) text.now };
}

/// Any output, with a note of whether a write to it failed, and with who is shown how far long work
/// is.
#[derive(Drop)]
pub struct ErrorOutput<X: Write, P: Progress + Copy + Drop> {
    output: X,
    failed: bool,
    progress: P,
}

impl<X: Write, P: Progress + Copy + Drop> ErrorOutput<X, P> {
    /// An output to which no write has failed yet.
    pub fn new(output: X, progress: P) -> ErrorOutput<X, P>
        ensures output { result.output ≡ output }
        ensures not_yet { result.failed ≡ false }
    {
        ErrorOutput {
            output,
            failed: false,
            progress,
        }
    }

    /// The output itself.
    pub fn into_inner(self) -> X
        ensures { result ≡ self.output }
    {
        let ErrorOutput { output, .. } = self;
        output
    }
}

impl<X: Write, P: Progress + Copy + Drop> Telling for ErrorOutput<X, P> {
    ghost told = { λ out. record { bytes = X.contents out.output; failed = out.failed } };

    type Progress = P;

    fn progress(&self) -> P {
        self.progress
    }

    fn tell(&mut self, text: &[u8]) {
        if !self.failed && write_part(&mut self.output, text).is_err() {
            self.failed = true;
        }
    }
}
