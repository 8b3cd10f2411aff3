//! Sizes: numbers in decimal, behind which the letter of a unit may stand.

ghost use Rattle.std.specs.Prelude.{◌≡◌, ◌≤◌, ◌^◌, true, Some, IfOk, OnErr, IfSome, is_ok};
ghost use Rattle.std.specs.Char.{is_ascii_digit};
ghost use Rattle.ps_run_options.specs.Sizes as spec;

use std::fmt;

/// Why a text is no size in a range.
#[derive(Clone, Copy, Debug, PartialEq, Eq)]
pub(crate) enum SizeFault {
    Empty,
    /// It is no number, or what stands behind one is no unit.
    NoNumber,
    /// It is past 18,446,744,073,709,551,615.
    TooLarge,
    /// It is a number that is not in the range.
    Outside { size: u64, least: u32, most: u32 },
}

impl fmt::Display for SizeFault {
    fn fmt<W: fmt::Write>(&self, f: &mut fmt::Formatter<W>) -> fmt::Result {
        match self {
            SizeFault::Empty => f.write_str("cannot parse integer from empty string"),
            SizeFault::NoNumber => f.write_str("invalid digit found in string"),
            SizeFault::TooLarge => f.write_str("number too large to fit in target type"),
            SizeFault::Outside { size, least, most } => {
                write!(f, "{size} is not in {least}..={most}")
            }
        }
    }
}

/// What the letter of a unit stands for, in any case: `k` for 1,024, `m` for its square and `g` for
/// its cube.
fn unit_of(letter: u8) -> Option<u64>
    ensures { result ≡ spec.unit_of letter }
{
    match letter {
        b'k' | b'K' => Some(1024),
        b'm' | b'M' => Some(1_048_576),
        b'g' | b'G' => Some(1_073_741_824),
        _ => None,
    }
}

/// So many of the unit of a letter.
fn in_units(number: u64, letter: u8) -> Result<u64, SizeFault>
    ensures size { IfOk result (λ size. spec.in_units number letter ≡ Some size) }
    ensures fault { OnErr result (IfSome (spec.in_units number letter) (λ size. 2 ^ 64 ≤ size)) }
{
    let Some(unit) = unit_of(letter) else {
        return Err(SizeFault::NoNumber);
    };
    match number.checked_mul(unit) {
        Some(size) => Ok(size),
        None => Err(SizeFault::TooLarge),
    }
}

/// The number that a digit makes of the one before it.
fn with_digit(number: u64, digit: u8) -> Result<u64, SizeFault>
    requires digit { is_ascii_digit digit ≡ true }
    ensures number { IfOk result (λ next. next ≡ spec.with_digit number digit) }
    ensures fault { OnErr result (2 ^ 64 ≤ spec.with_digit number digit) }
{
    let Some(tens) = number.checked_mul(10) else {
        return Err(SizeFault::TooLarge);
    };
    match tens.checked_add(u64::from(digit - b'0')) {
        Some(next) => Ok(next),
        None => Err(SizeFault::TooLarge),
    }
}

/// The size of a number with these digits behind it, and perhaps a unit.
fn size_behind(number: u64, text: &[u8]) -> Result<u64, SizeFault>
    ensures size { IfOk result (λ size. spec.size_behind number text.now ≡ Some size) }
    ensures fault { OnErr result
        (IfSome (spec.size_behind number text.now) (λ size. 2 ^ 64 ≤ size)) }
{
    let mut number = number;
    for place in 0..text.len() {
        let byte = text[place];
        if !byte.is_ascii_digit() {
            return if place + 1 == text.len() {
                in_units(number, byte)
            } else {
                Err(SizeFault::NoNumber)
            };
        }
        number = with_digit(number, byte)?;
    }
    Ok(number)
}

/// The size that a text without a sign tells.
fn unsigned_size(text: &[u8]) -> Result<u64, SizeFault>
    ensures size { IfOk result (λ size. spec.unsigned_size text.now ≡ Some size) }
    ensures fault { OnErr result
        (IfSome (spec.unsigned_size text.now) (λ size. 2 ^ 64 ≤ size)) }
{
    match text {
        [] => Err(SizeFault::Empty),
        [digit, rest @ ..] if digit.is_ascii_digit() => size_behind(u64::from(*digit - b'0'), rest),
        _ => Err(SizeFault::NoNumber),
    }
}

/// The size that a text tells; a plus sign may stand before it. Fails where the text tells none, or
/// one that 64 bits can't hold.
fn size_of(text: &[u8]) -> Result<u64, SizeFault>
    ensures size { IfOk result (λ size. spec.size_of text.now ≡ Some size) }
    ensures fault { OnErr result (IfSome (spec.size_of text.now) (λ size. 2 ^ 64 ≤ size)) }
{
    match text {
        [b'+', rest @ ..] => unsigned_size(rest),
        _ => unsigned_size(text),
    }
}

/// The size that a text tells. Fails where it tells none from `least` to `most`.
pub(crate) fn size_within(text: &[u8], least: u32, most: u32) -> Result<u32, SizeFault>
    ensures size { IfOk result (λ size. spec.size_of text.now ≡ Some size) }
    ensures within { IfOk result (λ size. (least ≤ size) × (size ≤ most)) }
    ensures is { is_ok result ≡ spec.is_within least most (spec.size_of text.now) }
{
    let size = size_of(text)?;
    if size < u64::from(least) || u64::from(most) < size {
        return Err(SizeFault::Outside { size, least, most });
    }
    Ok(size as u32)
}
