//! Lines and columns of a text.
//!
//! A line ends with a line feed, a carriage return, or a carriage return and a line feed. An end
//! belongs to the line that it ends.

ghost use Rattle.std.specs.Prelude.{◌≡◌, ◌≤◌, length};
ghost use Rattle.ps_places.specs.Positions as positions;

use ps_scan::Span;

/// A place in a text as an editor tells it: the line, and the byte in the line, both counted
/// from 1.
#[derive(Clone, Copy, Debug, PartialEq, Eq)]
pub struct Position {
    pub line: usize,
    pub column: usize,
}

/// Whether the last byte of a line's end stands at a place.
fn ends_line(text: &[u8], at: usize) -> bool
    ensures { result ≡ positions.ends_line text.now at }
{
    if at >= text.len() {
        return false;
    }
    if text[at] == b'\n' {
        return true;
    }
    if text[at] != b'\r' {
        return false;
    }
    at + 1 >= text.len() || text[at + 1] != b'\n'
}

/// Where the line of a place begins.
fn line_begin(text: &[u8], at: usize) -> usize
    ensures is { result ≡ positions.line_begin text.now at }
    ensures low { result ≤ at }
{
    let mut begin = at;
    while begin > 0 {
        if ends_line(text, begin - 1) {
            return begin;
        }
        begin -= 1;
    }
    0
}

/// How many line ends a text has before a place.
fn line_ends(text: &[u8], at: usize) -> usize
    ensures is { result ≡ positions.line_ends text.now at }
    ensures few { result ≤ at }
{
    let mut count: usize = 0;
    for here in 0..at {
        if ends_line(text, here) {
            count += 1;
        }
    }
    count
}

/// The line and the column of a byte of a text. A place past the end is that of the end.
pub fn position_of(text: &[u8], offset: usize) -> Position
    ensures { result ≡ positions.position_in text.now offset }
{
    let at = offset.min(text.len());
    Position {
        line: line_ends(text, at) + 1,
        column: at - line_begin(text, at) + 1,
    }
}

/// Where the bytes of a line end, from a place in it on: before its line end, or at the end of the
/// text.
fn line_end(text: &[u8], at: usize) -> usize
    requires { at ≤ length text.now }
    ensures { result ≡ positions.line_end text.now at }
{
    for here in at..text.len() {
        if text[here] == b'\n' {
            return here;
        }
        if text[here] == b'\r' {
            return here;
        }
    }
    text.len()
}

/// The line in which a byte of a text stands, without its line end. A place past the end is that of
/// the end.
pub fn line_at(text: &[u8], offset: usize) -> Span
    ensures { result ≡ positions.line_in text.now offset }
{
    let start = line_begin(text, offset.min(text.len()));
    Span {
        start,
        end: line_end(text, start),
    }
}
