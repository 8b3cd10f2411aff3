//! An output to which the printed bytes of a run go, at its end or also while it goes on.
//!
//! It keeps what a viewer promises: each part that it took was flushed, and behind one that it did
//! not take whole it is handed none. So it always holds a beginning of what is printed
//! (`HasShown`).

ghost use Rattle.std.specs.Prelude.{◌≡◌, ◌≤◌, ℕ, List, Option, true, false, length, OnOk};
ghost use Rattle.std.specs.Io.KnownBytes.{Appends};
ghost use Rattle.ps_vault.specs.Screens.{AppendsPart, HasShown};

use crate::outputs::Flushing;
use crate::writing::hand_out;
use ps_vault::{Screen, Unseen, Viewer};

/// An output, whether it is handed bytes while a run goes on, and whether it did not take all.
#[derive(Drop)]
pub(crate) struct Stream<W: Flushing + Drop> {
    output: W,
    watches: bool,
    failed: bool,
}

impl<W: Flushing + Drop> Viewer for Stream<W> {
    ghost seen = { λ stream. W.contents stream.output };

    ghost watching = { λ stream. stream.watches };

    ghost failed = { λ stream. stream.failed };

    fn watches(&self) -> bool {
        self.watches
    }

    fn has_failed(&self) -> bool {
        self.failed
    }

    fn show(&mut self, bytes: &[u8]) -> Result<(), Unseen> {
        if hand_out(&mut self.output, bytes).is_err() {
            self.failed = true;
            return Err(Unseen);
        }
        Ok(())
    }
}

/// The screen of a run that prints to this output, and was handed nothing yet; whether it is handed
/// bytes while the run goes on.
pub(crate) fn screen_of<W: Flushing + Drop>(output: W, watches: bool) -> Screen<Stream<W>>
    ensures seen { result.seen ≡ W.contents output }
    ensures watching { result.watching ≡ watches }
    ensures shown { result.shown ≡ 0 }
    ensures failed { result.failed ≡ false }
{
    Screen::new(Stream {
        output,
        watches,
        failed: false,
    })
}

/// The output of a screen.
pub(crate) fn output_of<W: Flushing + Drop>(screen: Screen<Stream<W>>) -> W
    ensures { W.contents result ≡ screen.seen }
{
    let Stream { output, .. } = screen.into_inner();
    output
}

/// Writes what of the printed bytes was not handed on before, flushes the output, and gives it
/// back. `Unseen`: it has a beginning of those bytes. Where it failed before it is handed nothing
/// more.
pub(crate) fn write_rest<W: Flushing + Drop>(
    screen: Screen<Stream<W>>,
    printed: &[u8],
) -> (Result<(), Unseen>, W)
    requires within { screen.shown ≤ length printed.now }
    ensures part { (first : Option (List ℕ)) → HasShown first screen printed.now
        → AppendsPart first (W.contents result.1) printed.now }
    ensures whole { OnOk result.0 ((first : Option (List ℕ)) → HasShown first screen printed.now
        → Appends first (W.contents result.1) printed.now) }
    ensures flushed { OnOk result.0 (W.is_flushed result.1 ≡ true) }
    ensures going { OnOk result.0 (screen.failed ≡ false) }
{
    let Some(rest) = screen.rest(printed) else {
        return (Err(Unseen), output_of(screen));
    };
    let mut out = output_of(screen);
    if hand_out(&mut out, rest).is_err() {
        return (Err(Unseen), out);
    }
    (Ok(()), out)
}
