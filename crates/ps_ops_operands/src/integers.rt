//! Arithmetic on integers of 32 bits, where a result may not be defined (PLRM2, 8 'Operators').

ghost use Rattle.std.specs.Prelude.{◌≡◌, ◌<◌, ◌^◌, ℤ, ◌+ℤ◌, ◌-ℤ◌, ◌*ℤ◌, IfSome};
ghost use Rattle.ps_language.specs.Integers as integers;
ghost use Rattle.ps_language.specs.Readers as readers;

/// A number as a count, if it isn't negative.
#[inline]
pub fn count_of(number: i32) -> Option<usize>
    ensures count { result ≡ readers.as_count number }
    ensures bound { IfSome result (λ count. count < 2 ^ 31) }
{
    usize::try_from(number).ok()
}

/// The integer of 32 bits that a wider one is, if it is one.
pub fn as_result(wide: i64) -> Option<i32>
    ensures { result ≡ integers.as_result wide }
{
    i32::try_from(wide).ok()
}

/// `i + j`, where it fits 32 bits.
pub fn sum_of(i: i32, j: i32) -> Option<i32>
    ensures { result ≡ integers.sum_of i j }
{
    as_result(i64::from(i) + i64::from(j))
}

/// `i - j`, where it fits 32 bits.
pub fn difference_of(i: i32, j: i32) -> Option<i32>
    ensures { result ≡ integers.difference_of i j }
{
    as_result(i64::from(i) - i64::from(j))
}

/// `i` times `j`, where it fits 32 bits.
pub fn product_of(i: i32, j: i32) -> Option<i32>
    ensures { result ≡ integers.product_of i j }
{
    as_result(i64::from(i) * i64::from(j))
}

/// `i` by `j` toward zero, where `j` isn't zero and the quotient fits 32 bits.
pub fn quotient_of(i: i32, j: i32) -> Option<i32>
    ensures { result ≡ integers.quotient_of i j }
{
    if j == 0 {
        return None;
    }
    as_result(i64::from(i) / i64::from(j))
}

/// The remainder of `i` by `j` with the sign of `i`, where `j` isn't zero.
pub fn remainder_of(i: i32, j: i32) -> Option<i32>
    ensures { result ≡ integers.remainder_of i j }
{
    if j == 0 {
        return None;
    }
    as_result(i64::from(i) % i64::from(j))
}

/// `-i`, where it fits 32 bits.
pub fn negative_of(i: i32) -> Option<i32>
    ensures { result ≡ integers.negative_of i }
{
    i.checked_neg()
}

/// `i` without its sign, where it fits 32 bits.
pub fn magnitude_of(i: i32) -> Option<i32>
    ensures { result ≡ integers.magnitude_of i }
{
    i.checked_abs()
}

/// The bits of `i` moved by `j` places, to the left where `j` is positive; those shifted out are
/// lost, and zeros come in.
pub fn shifted(i: i32, j: i32) -> i32
    ensures { result ≡ integers.shifted i j }
{
    let places = j.unsigned_abs();
    if places >= 32 {
        0
    } else if j >= 0 {
        i << places
    } else {
        (i.cast_unsigned() >> places).cast_signed()
    }
}
