//! Numbers and places, as they are typed.

ghost use Rattle.std.specs.Prelude.{◌≡◌, ◌<◌, true, IfSome, length, position};
ghost use Rattle.std.specs.Char.{is_ascii_digit};
ghost use Rattle.ps_debug.specs.Words as words;

use ps_places::Position;

/// A number with one more digit; what is past 18,446,744,073,709,551,615 is that.
fn with_digit(number: u64, digit: u8) -> u64
    requires { is_ascii_digit digit ≡ true }
    ensures { result ≡ words.bounded (words.with_digit number digit) }
{
    number
        .saturating_mul(10)
        .saturating_add(u64::from(digit - b'0'))
}

/// The number that a text of digits tells; what is past 18,446,744,073,709,551,615 is that. Nothing
/// where it has none, or another byte.
#[tactic(auto, unfolding(crate::specs::Words::number_in))]
pub(crate) fn number_in(text: &[u8]) -> Option<u64>
    ensures { result ≡ words.number_in text.now }
{
    if text.is_empty() {
        return None;
    }
    let mut number = 0;
    for byte in text {
        if !byte.is_ascii_digit() {
            return None;
        }
        number = with_digit(number, *byte);
    }
    Some(number)
}

/// Where the first colon of a text stands, if it has one.
fn colon(text: &[u8]) -> Option<usize>
    ensures first { result ≡ position words.is_colon text.now }
    ensures within { IfSome result (λ place. place < length text.now) }
{
    text.iter().position(|byte| *byte == b':')
}

/// The place of a line and a column, where both are told.
fn place_of(line: Option<u64>, column: Option<u64>) -> Option<Position>
    ensures { result ≡ words.place_of line column }
{
    match (line, column) {
        (Some(line), Some(column)) => Some(Position {
            line: line as usize,
            column: column as usize,
        }),
        _ => None,
    }
}

/// The place that `LINE:COLUMN` tells; nothing where a text isn't of that form.
#[tactic(auto, unfolding(crate::specs::Words::position_in))]
pub(crate) fn position_in(text: &[u8]) -> Option<Position>
    ensures { result ≡ words.position_in text.now }
{
    match colon(text) {
        None => None,
        Some(colon) => place_of(number_in(&text[..colon]), number_in(&text[colon + 1..])),
    }
}
