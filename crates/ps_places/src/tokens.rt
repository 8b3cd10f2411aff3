//! Where tokens of a text begin and end.

ghost use Rattle.std.specs.Prelude.{◌≡◌, ◌<◌, ◌≤◌, length, IfSome};
ghost use Rattle.ps_language.specs.Scan.{scan};
ghost use Rattle.ps_scan.specs.Passed.{passed_by};
ghost use Rattle.ps_places.specs.Tokens.{end_or};
ghost use Rattle.ps_places.specs.Tokens as tokens;

use crate::positions::line_at;
use ps_scan::{Passed, Span, blank_end, pass_next};

/// Where the next token begins, from a place on: behind white space and comments. Where there is
/// none, the end of the text.
pub fn token_begin(text: &[u8], at: usize) -> usize
    ensures { result ≡ tokens.token_begin text.now at }
{
    blank_end(text, at.min(text.len()))
}

/// The token that a text has from a place on, passed over. `None`: none can be read there.
pub(crate) fn passed_at(text: &[u8], at: usize) -> Option<Passed>
    ensures answer { result ≡ passed_by (scan text.now at) }
    ensures place { IfSome result (λ p. (at < p.end) × (p.end ≤ length text.now)) }
{
    if at > text.len() {
        return None;
    }
    pass_next(text, at)
}

/// Where the token ends that a text has from a place on, or the place itself, where none can be
/// read.
fn token_end(text: &[u8], at: usize) -> usize
    ensures { result ≡ end_or at (scan text.now at) }
{
    match passed_at(text, at) {
        Some(token) => token.end,
        None => at,
    }
}

/// What is marked to show a place in its line: the token that begins there, as far as it stands in
/// that line. Where none can be read it is one byte. It is never empty, and so lies behind the text
/// where the place is its end. A place past the end is that of the end.
pub fn mark_at(text: &[u8], offset: usize) -> Span
    ensures is { result ≡ tokens.mark_in text.now offset }
    ensures some { result.start < result.end }
{
    let start = offset.min(text.len());
    let line = line_at(text, start);
    Span {
        start,
        end: token_end(text, start).min(line.end).max(start + 1),
    }
}
