//! Classes of bytes: white space, delimiters, digits (PLRM2, 3.2.1).

ghost use Rattle.std.specs.Prelude.{◌≡◌, ◌≤◌, IsTrue, min};
ghost use Rattle.ps_language.specs.Bytes.{is_white, is_comment_end, is_regular, digit_of, is_digit};
ghost use Rattle.ps_language.specs.Bytes.{is_sign, is_exponent_mark};
ghost use Rattle.ps_language.specs.Scan.{mark_of, plain};

/// White space: NUL, tab, line feed, form feed, carriage return and space.
pub(crate) fn is_white_byte(b: u8) -> bool
    ensures { result ≡ is_white b }
{
    b == 0 || b == 9 || b == 10 || b == 12 || b == 13 || b == 32
}

/// What ends a comment: a newline or a form feed. Few bytes are as small.
#[inline(always)]
pub(crate) fn ends_comment(b: u8) -> bool
    ensures { result ≡ is_comment_end b }
{
    b <= b'\r' && (b == b'\n' || b == b'\x0c' || b == b'\r')
}

/// A byte of a string that stands for itself: no parenthesis, no backslash and no carriage return.
/// Most are behind the parentheses.
#[inline(always)]
pub(crate) fn is_plain_byte(b: u8) -> bool
    ensures { IsTrue result → mark_of b ≡ plain }
{
    if b == b'\\' {
        false
    } else if b > b')' {
        true
    } else if b >= b'(' {
        false
    } else if b == b'\r' {
        false
    } else {
        true
    }
}

/// A byte that is neither white space nor one of `( ) < > [ ] { } / %`, which delimit tokens. Those
/// below 64 and the others are told by a mask each.
#[inline(always)]
pub(crate) fn is_regular_byte(b: u8) -> bool
    ensures { result ≡ is_regular b }
{
    if b < 64 {
        match b {
            0 | 9 | 10 | 12 | 13 | 32 | b'(' | b')' | b'<' | b'>' | b'/' | b'%' => false,
            _ => true,
        }
    } else {
        match b {
            b'[' | b']' | b'{' | b'}' => false,
            _ => true,
        }
    }
}

/// The value of a digit or of a letter as a digit, and 36 for any other byte.
pub(crate) fn digit_value(b: u8) -> u8
    ensures value { result ≡ digit_of b }
    ensures bound { result ≤ 36 }
{
    if b >= b'0' && b <= b'9' {
        b - b'0'
    } else if b >= b'A' && b <= b'Z' {
        b - b'A' + 10
    } else if b >= b'a' && b <= b'z' {
        b - b'a' + 10
    } else {
        36
    }
}

/// The values of the hexadecimal digits by their bytes, and 16 for each other byte.
const HEX_VALUES: [u8; 256] = [
    16, 16, 16, 16, 16, 16, 16, 16, 16, 16, 16, 16, 16, 16, 16, 16, 16, 16, 16, 16, 16, 16, 16, 16,
    16, 16, 16, 16, 16, 16, 16, 16, 16, 16, 16, 16, 16, 16, 16, 16, 16, 16, 16, 16, 16, 16, 16, 16,
    0, 1, 2, 3, 4, 5, 6, 7, 8, 9, 16, 16, 16, 16, 16, 16, 16, 10, 11, 12, 13, 14, 15, 16, 16, 16,
    16, 16, 16, 16, 16, 16, 16, 16, 16, 16, 16, 16, 16, 16, 16, 16, 16, 16, 16, 16, 16, 16, 16, 10,
    11, 12, 13, 14, 15, 16, 16, 16, 16, 16, 16, 16, 16, 16, 16, 16, 16, 16, 16, 16, 16, 16, 16, 16,
    16, 16, 16, 16, 16, 16, 16, 16, 16, 16, 16, 16, 16, 16, 16, 16, 16, 16, 16, 16, 16, 16, 16, 16,
    16, 16, 16, 16, 16, 16, 16, 16, 16, 16, 16, 16, 16, 16, 16, 16, 16, 16, 16, 16, 16, 16, 16, 16,
    16, 16, 16, 16, 16, 16, 16, 16, 16, 16, 16, 16, 16, 16, 16, 16, 16, 16, 16, 16, 16, 16, 16, 16,
    16, 16, 16, 16, 16, 16, 16, 16, 16, 16, 16, 16, 16, 16, 16, 16, 16, 16, 16, 16, 16, 16, 16, 16,
    16, 16, 16, 16, 16, 16, 16, 16, 16, 16, 16, 16, 16, 16, 16, 16, 16, 16, 16, 16, 16, 16, 16, 16,
    16, 16, 16, 16, 16, 16, 16, 16, 16, 16, 16, 16, 16, 16,
];

/// The value of a hexadecimal digit, and 16 for any other byte.
#[inline(always)]
pub(crate) fn hex_value(b: u8) -> u8
    ensures { result ≡ min (digit_of b) 16 }
{
    HEX_VALUES[b as usize]
}

/// A decimal digit.
pub(crate) fn is_digit_byte(b: u8) -> bool
    ensures { result ≡ is_digit b }
{
    digit_value(b) < 10
}

/// `+` or `-`.
pub(crate) fn is_sign_byte(b: u8) -> bool
    ensures { result ≡ is_sign b }
{
    b == b'+' || b == b'-'
}

/// `e` or `E`.
pub(crate) fn begins_exponent(b: u8) -> bool
    ensures { result ≡ is_exponent_mark b }
{
    b == b'E' || b == b'e'
}
