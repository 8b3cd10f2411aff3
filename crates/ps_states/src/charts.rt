//! Where things stand in the program of a run.

ghost use Rattle.std.specs.Prelude.{◌≡◌, ◌<◌, ◌≤◌, length, IfSome};
ghost use Rattle.ps_states.specs.Charts as charts;
ghost use Rattle.ps_states.specs.Chosen.{chart_of};

use ps_places::{Origins, Position, position_of, token_begin};
use ps_scan::pass_next;
use std::alloc::Global;

/// What a run is told by.
#[derive(Clone, Copy)]
pub struct Chart<'c> {
    /// Where the texts of values are made.
    pub alloc: Global,
    /// What the program's file is called.
    pub file: &'c [u8],
    pub program: &'c [u8],
    /// Where the tokens begin that made objects.
    pub origins: &'c Origins,
}

/// The line and the column of a place.
pub(crate) fn position_at(chart: &Chart<'_>, place: Option<usize>) -> Option<Position>
    ensures { result ≡ charts.position_at (chart_of chart.now) place }
{
    match place {
        Some(place) => Some(position_of(chart.program, place)),
        None => None,
    }
}

/// The line and the column of an element of the procedure of a birth number, as far as it stands in
/// the program.
pub(crate) fn element_position(chart: &Chart<'_>, birth: u64, index: usize) -> Option<Position>
    ensures { result ≡ charts.element_position (chart_of chart.now) birth index }
{
    position_at(
        chart,
        chart.origins.element_begin(chart.program, birth, index),
    )
}

/// The line and the column of the string of a birth number, as far as it stands in the program.
pub(crate) fn object_position(chart: &Chart<'_>, birth: u64) -> Option<Position>
    ensures { result ≡ charts.object_position (chart_of chart.now) birth }
{
    position_at(chart, chart.origins.object_begin(chart.program, birth))
}

/// Where the next token of a text begins, from a place on, if there is one.
pub(crate) fn next_token(text: &[u8], at: usize) -> Option<usize>
    ensures is { result ≡ charts.next_token text.now at }
    ensures within { IfSome result (λ begin. begin ≤ length text.now) }
{
    let begin = token_begin(text, at);
    if begin < text.len() {
        Some(begin)
    } else {
        None
    }
}

/// The bytes of the token that begins at a place; the rest of the text, where none can be read.
pub(crate) fn token_bytes(text: &[u8], begin: usize) -> &[u8]
    requires { begin ≤ length text.now }
    ensures { result.now ≡ charts.token_bytes text.now begin }
{
    let end = match pass_next(text, begin) {
        Some(token) => token.end,
        None => text.len(),
    };
    &text[begin..end]
}
