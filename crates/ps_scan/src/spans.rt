//! Where white space, comments, regular bytes and digits end.

ghost use Rattle.std.specs.Prelude.{◌≡◌, ◌≤◌, length, drop, true, false};
ghost use Rattle.ps_language.specs.Bytes.{is_regular, is_digit};
ghost use Rattle.ps_language.specs.Scan.{behind_blank, beyond};

use crate::classes::{ends_comment, is_digit_byte, is_regular_byte, is_white_byte};

/// The place behind a comment, from a place in it on.
#[inline(never)]
fn comment_end(bytes: &[u8], at: usize) -> usize
    requires { at ≤ length bytes.now }
    ensures low { at ≤ result }
    ensures high { result ≤ length bytes.now }
    ensures rest { behind_blank false (drop result bytes.now)
        ≡ behind_blank true (drop at bytes.now) }
{
    let mut here = at;
    while here < bytes.len() {
        let byte = bytes[here];
        here += 1;
        if ends_comment(byte) {
            return here;
        }
    }
    here
}

/// The place behind white space and comments, from a place on.
#[inline(always)]
pub fn blank_end(bytes: &[u8], at: usize) -> usize
    requires { at ≤ length bytes.now }
    ensures low { at ≤ result }
    ensures high { result ≤ length bytes.now }
    ensures rest { drop result bytes.now ≡ behind_blank false (drop at bytes.now) }
{
    let mut here = at;
    while here < bytes.len() {
        let b = bytes[here];
        if is_white_byte(b) {
            here += 1;
        } else if b == b'%' {
            here = comment_end(bytes, here + 1);
        } else {
            return here;
        }
    }
    here
}

/// The place behind a run of regular bytes.
#[inline(always)]
pub(crate) fn run_end(bytes: &[u8], at: usize) -> usize
    requires { at ≤ length bytes.now }
    ensures low { at ≤ result }
    ensures high { result ≤ length bytes.now }
    ensures rest { drop result bytes.now ≡ beyond is_regular (drop at bytes.now) }
{
    for here in at..bytes.len() {
        if !is_regular_byte(bytes[here]) {
            return here;
        }
    }
    bytes.len()
}

/// The place behind decimal digits.
pub(crate) fn digits_end(bytes: &[u8], at: usize) -> usize
    requires { at ≤ length bytes.now }
    ensures low { at ≤ result }
    ensures high { result ≤ length bytes.now }
    ensures rest { drop result bytes.now ≡ beyond is_digit (drop at bytes.now) }
{
    for here in at..bytes.len() {
        if !is_digit_byte(bytes[here]) {
            return here;
        }
    }
    bytes.len()
}
