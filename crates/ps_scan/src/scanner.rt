//! The first token from a place on.

ghost use Rattle.std.specs.Prelude.{◌≡◌, ◌<◌, ◌≤◌, Some, IfOk, IfErr, IfSome, length};
ghost use Rattle.ps_language.specs.Scan.{scan};
ghost use Rattle.ps_scan.specs.Shown.{IsFaultBy, scan_of};

use crate::classes::is_regular_byte;
use crate::procedures::outer_token;
use crate::spans::blank_end;
use crate::tokens::{NESTING_LIMIT, ScanFault, Token};
use crate::words::word_token;
use std::alloc::Global;

/// The first token of the bytes from a place on, with the place right behind it (PLRM2, 3.2).
/// `None`: nothing is left but white space and comments. `ScanFault::Syntax`: the text breaks the
/// grammar there; `ScanFault::Limit`: a number, a name, a string, a procedure or the nesting of
/// procedures is past its limit. `ScanFault::Memory`: a growth was refused, which no clause can
/// say; only a string that isn't empty and a procedure take memory.
#[inline]
pub fn next_token(alloc: Global, bytes: &[u8], at: usize) -> Result<Option<Token>, ScanFault>
    requires { at ≤ length bytes.now }
    // a token exactly where the grammar has one, and nothing exactly where only white space and
    // comments are left
    ensures answer { IfOk result (λ token. scan bytes.now at ≡ scan_of bytes.now token) }
    ensures place { IfOk result (λ o. IfSome o (λ t. (at < t.end) × (t.end ≤ length bytes.now))) }
    // a fault exactly where the grammar has it; memory for nothing but strings that aren't empty
    // and procedures
    ensures fault { IfErr result (IsFaultBy bytes.now at) }
{
    let here = blank_end(bytes, at);
    if here >= bytes.len() {
        return Ok(None);
    }
    match outer_token(alloc, bytes, here, NESTING_LIMIT) {
        Ok(token) => Ok(Some(token)),
        Err(fault) => Err(fault),
    }
}

/// The first token of the bytes from a place on, where it is a number or an executable name.
/// `None`: it is another, or nothing is left, or there is a fault. It takes no memory.
#[inline(always)]
pub fn next_word(bytes: &[u8], at: usize) -> Option<Token>
    requires { at ≤ length bytes.now }
    ensures answer { IfSome result (λ token. scan bytes.now at ≡ scan_of bytes.now (Some token)) }
    ensures place { IfSome result (λ t. (at < t.end) × (t.end ≤ length bytes.now)) }
{
    let here = blank_end(bytes, at);
    if here >= bytes.len() {
        return None;
    }
    if !is_regular_byte(bytes[here]) {
        return None;
    }
    match word_token(bytes, here) {
        Ok(token) => Some(token),
        Err(_) => None,
    }
}
