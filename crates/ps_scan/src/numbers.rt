//! Numbers: decimal, signed and with a base (PLRM2, 3.2.2).

ghost use Rattle.std.specs.Prelude.{◌≡◌, ◌+◌, ◌-◌, ◌*◌, ◌<◌, ◌≤◌, ◌^◌, length, drop, IfSome};
ghost use Rattle.std.specs.Prelude.{IfNone, if◌then◌else◌, ◌||◌};
ghost use Rattle.std.specs.Bool.{OnTrue};
ghost use Rattle.std.specs.List.{list_all};
ghost use Rattle.ps_language.specs.Bytes.{value_in, is_digit_in};
ghost use Rattle.ps_language.specs.Reading.{as_signed, integer_word, radix_word, name_word};
ghost use Rattle.ps_language.specs.Scan.{
  is_empty,
  unsigned,
  is_signed,
  is_negative,
  are_digits,
  is_exponent,
  is_real_tail,
  signed_value,
  are_radix_digits,
  word_by,
  word_of,
};
ghost use Rattle.ps_scan.specs.Numbers.{number_in};

use crate::classes::{begins_exponent, digit_value, is_digit_byte, is_sign_byte};
use crate::spans::digits_end;

/// What number a run of regular bytes writes.
#[derive(Clone, Copy)]
pub(crate) enum Number {
    Integer(i32),
    /// A number past 32 bits, or a real.
    PastLimits,
    NoNumber,
}

/// The number that digits of a base write, unless it is past 32 bits.
fn value_of(digits: &[u8], base: u8) -> Option<u32>
    requires low { 1 ≤ base }
    requires high { base ≤ 36 }
    ensures some { IfSome result (λ n. (n < 2 ^ 32) × (n ≡ value_in base 0 digits.now)) }
    ensures none { IfNone result (2 ^ 32 ≤ value_in base 0 digits.now) }
{
    let mut number: u64 = 0;
    for at in 0..digits.len() {
        number = number * base as u64 + digit_value(digits[at]) as u64;
        if number >= 4294967296 {
            return None;
        }
    }
    Some(number as u32)
}

/// The integer, where it fits 32 bits.
fn fitted(number: i64) -> Number
    ensures { result ≡ number_in (integer_word number) }
{
    if number < -2147483648 {
        return Number::PastLimits;
    }
    if number > 2147483647 {
        return Number::PastLimits;
    }
    Number::Integer(number as i32)
}

/// The integer that decimal digits write.
fn integer(is_negative: bool, digits: &[u8]) -> Number
    ensures { result
        ≡ number_in (integer_word (signed_value is_negative (value_in 10 0 digits.now))) }
{
    match value_of(digits, 10) {
        Some(n) if is_negative => fitted(-(n as i64)),
        Some(n) => fitted(n as i64),
        None => Number::PastLimits,
    }
}

/// Whether each byte is a digit of the base.
fn are_digits_in(base: u8, digits: &[u8]) -> bool
    ensures { result ≡ list_all (is_digit_in base) digits.now }
{
    digits.iter().all(|digit| digit_value(*digit) < base)
}

/// Whether these are the digits of a radix number in that base.
fn are_digits_of(base: u32, digits: &[u8]) -> bool
    ensures value { result ≡ are_radix_digits base digits.now }
    ensures bounds { OnTrue result ((2 ≤ base) × (base ≤ 36)) }
{
    if base < 2 {
        return false;
    }
    if base > 36 {
        return false;
    }
    !digits.is_empty() && are_digits_in(base as u8, digits)
}

/// The radix number of these digits, where the first ones write its base.
fn radix_number(base_digits: &[u8], digits: &[u8]) -> Number
    ensures { let base = value_in 10 0 base_digits.now in
        result ≡ number_in
        (if are_radix_digits base digits.now then radix_word (value_in base 0 digits.now) else
        name_word) }
{
    match value_of(base_digits, 10) {
        Some(base) if are_digits_of(base, digits) => match value_of(digits, base as u8) {
            Some(n) => Number::Integer(n.cast_signed()),
            None => Number::PastLimits,
        },
        _ => Number::NoNumber,
    }
}

/// What follows a sign, if there is one.
fn behind_sign(run: &[u8]) -> &[u8]
    ensures { result.now ≡ unsigned run.now }
{
    if !run.is_empty() && is_sign_byte(run[0]) {
        &run[1..]
    } else {
        run
    }
}

/// Whether these are decimal digits, one or more.
fn are_decimal_digits(digits: &[u8]) -> bool
    ensures { result ≡ are_digits digits.now }
{
    !digits.is_empty() && are_digits_in(10, digits)
}

/// Whether these bytes are an exponent: `e` or `E`, perhaps a sign, and digits.
fn is_exponent_text(text: &[u8]) -> bool
    ensures { result ≡ is_exponent text.now }
{
    if text.is_empty() {
        return false;
    }
    begins_exponent(text[0]) && are_decimal_digits(behind_sign(&text[1..]))
}

/// Whether these bytes are an exponent, or none at all.
fn is_exponent_or_nothing(text: &[u8]) -> bool
    ensures { result ≡ (is_empty text.now || is_exponent text.now) }
{
    text.is_empty() || is_exponent_text(text)
}

/// Whether these bytes make the digits in front of them, if any, a real.
fn is_real_end(has_digits: bool, text: &[u8]) -> bool
    ensures { result ≡ is_real_tail has_digits text.now }
{
    if text.is_empty() {
        return false;
    }
    if text[0] != b'.' {
        return has_digits && is_exponent_text(text);
    }
    let fraction = &text[1..];
    let end = digits_end(fraction, 0);
    if end == 0 {
        return has_digits && is_exponent_or_nothing(fraction);
    }
    is_exponent_or_nothing(&fraction[end..])
}

/// What number the digits behind a run's sign and what follows them make.
fn number_by(run: &[u8], whole: &[u8], tail: &[u8]) -> Number
    requires { 0 < length run.now }
    ensures { result ≡ number_in (word_by run.now whole.now tail.now) }
{
    let first = run[0];
    if tail.is_empty() {
        if whole.is_empty() {
            Number::NoNumber
        } else {
            integer(first == b'-', whole)
        }
    } else if tail[0] == b'#' {
        if is_sign_byte(first) {
            Number::NoNumber
        } else {
            radix_number(whole, &tail[1..])
        }
    } else if is_real_end(!whole.is_empty(), tail) {
        Number::PastLimits
    } else {
        Number::NoNumber
    }
}

/// What number a run of regular bytes writes that doesn't begin as a name.
#[inline(never)]
fn number_behind(run: &[u8]) -> Number
    requires { 0 < length run.now }
    ensures { result ≡ number_in (word_of run.now) }
{
    let digits = behind_sign(run);
    let end = digits_end(digits, 0);
    number_by(run, &digits[..end], &digits[end..])
}

/// What number a run of regular bytes writes.
#[inline(always)]
pub(crate) fn number_of(run: &[u8]) -> Number
    requires { 0 < length run.now }
    ensures { result ≡ number_in (word_of run.now) }
{
    let first = run[0];
    if !is_digit_byte(first) && !is_sign_byte(first) && first != b'.' {
        return Number::NoNumber;
    }
    number_behind(run)
}
