//! The system's outputs, which may be such that don't wait until they can take more, and the last line
//! of a terminal.

ghost use Rattle.std.specs.Prelude.{◌≡◌, ◌≢◌, IfErr};
ghost use Rattle.std.specs.Io.{WritesAtMost};
ghost use Rattle.std.specs.Io.KnownBytes.{WriteAppends};
ghost use Rattle.std.specs.IoError.{error_kind};

use ps_run::Progress;
use std::io::{self, ErrorKind, IsTerminal, Write};
use std::thread;
use std::time::{Clock, Duration, Instant};

/// How many milliseconds are waited before an output that can't take more is tried again.
const PAUSE_MILLIS: u64 = 1;

/// An output whose writes wait: where it can't take more now, it is tried again.
#[derive(Drop)]
pub struct Patient<'a, C: Clock, W: Write> {
    clock: &'a C,
    output: W,
}

impl<'a, C: Clock, W: Write> Patient<'a, C, W> {
    /// An output with a clock, by which it waits.
    pub fn new(clock: &'a C, output: W) -> Patient<'a, C, W>
        ensures { result.output ≡ output }
    {
        Patient { clock, output }
    }
}

impl<C: Clock, W: Write> Write for Patient<'_, C, W> {
    ghost contents = { λ out. W.contents out.output };

    fn write(&mut self, bytes: &[u8]) -> io::Result<usize>
        ensures bound { WritesAtMost result bytes.now }
        ensures bytes { WriteAppends (W.contents self.old.output) (W.contents self.new.output)
            result bytes.now }
        ensures waits { IfErr result (λ error. error_kind error ≢ ErrorKind.WouldBlock) }
    {
        for _ in 0..u64::MAX {
            match self.output.write(bytes) {
                Err(error) if error.kind() == ErrorKind::WouldBlock => {
                    thread::sleep(self.clock, Duration::from_millis(PAUSE_MILLIS));
                }
                answer => return answer,
            }
        }
        Err(io::Error::from(ErrorKind::TimedOut))
    }

    fn flush(&mut self) -> io::Result<()> {
        self.output.flush()
    }
}

/// How long lies at least between two lines that show how far long work is.
const SHOWN_MILLIS: u64 = 100;

/// The last line of the terminal that standard error is, for how far many runs are; nothing is shown
/// where it is none, nor of work that ends at once.
#[derive(Clone, Copy, Drop)]
pub struct TerminalLine<'a> {
    rt: &'a HostRuntime,
    is_shown: bool,
    /// When it was shown last, or made; nothing where it is never shown.
    since: Option<Instant>,
}

impl<'a> TerminalLine<'a> {
    /// A line that shows nothing yet.
    pub fn new(rt: &'a HostRuntime) -> TerminalLine<'a> {
        TerminalLine {
            rt,
            is_shown: false,
            since: if rt.stderr().is_terminal() {
                Instant::now(rt).ok()
            } else {
                None
            },
        }
    }

    /// Whether so much time has gone that the line is to be shown again. It is noted that it is.
    fn is_due(&mut self) -> bool {
        let (Some(since), Ok(now)) = (self.since, Instant::now(self.rt)) else {
            return false;
        };
        let is_due = now.duration_since(since) >= Duration::from_millis(SHOWN_MILLIS);
        if is_due {
            self.since = Some(now);
        }
        is_due
    }
}

impl Progress for TerminalLine<'_> {
    fn show(&mut self, made: u32, runs: u32, endings: usize) {
        if self.is_due() {
            self.is_shown = true;
            let _ = eprint!(self.rt; "\rdpsrun: {made} of {runs} runs, {endings} endings\x1b[K");
        }
    }

    fn show_orders(&mut self, runs: u64, endings: usize, cuts: u32) {
        if self.is_due() {
            self.is_shown = true;
            let _ = eprint!(self.rt; "\rdpsrun: {runs} runs, {endings} endings, cuts {cuts}\x1b[K");
        }
    }

    fn show_worlds(&mut self, worlds: usize, followed: usize, endings: usize) {
        if self.is_due() {
            self.is_shown = true;
            let _ = eprint!(self.rt;
                "\rdpsrun: {followed} of {worlds} states so far, {endings} endings\x1b[K"
            );
        }
    }

    fn clear(&mut self) {
        if self.is_shown {
            self.is_shown = false;
            let _ = eprint!(self.rt; "\r\x1b[K");
        }
    }
}
