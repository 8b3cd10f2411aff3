//! Tokens that are passed over: what each is and where it ends, without its contents and without
//! memory (PLRM2, 3.2).

ghost use Rattle.std.specs.Prelude.{◌≡◌, ◌+◌, ◌<◌, ◌≤◌, ℕ, List, length, drop, slice_index, IfSome};
ghost use Rattle.ps_language.specs.Reading.{Reading, sized_procedure};
ghost use Rattle.ps_language.specs.Scan.{after_hex_start, elements_from, scan, token_here};
ghost use Rattle.ps_scan.specs.Passed.{IsPassed, class_of, passed_by};
ghost use Rattle.ps_scan.specs.Shown.{simple_at, token_at, token_of};
ghost use Rattle.ps_scan.specs.Strings.{IsSized};

use crate::hexadecimal::hex_extent;
use crate::simple::bare_token;
use crate::spans::blank_end;
use crate::strings::{Extent, sized_extent};
use crate::tokens::{NESTING_LIMIT, SEQUENCE_LIMIT, ScanFault, Token, TokenKind};

/// What a token is, without its contents.
#[derive(Clone, Copy, Debug, PartialEq, Eq)]
pub enum TokenClass {
    Number(i32),
    /// A literal or an executable name, or one that is looked up at once.
    Name,
    Text,
    Procedure,
}

/// A token that was passed over: what it is, and the place right behind it.
#[derive(Clone, Copy, Debug, PartialEq, Eq)]
pub struct Passed {
    pub class: TokenClass,
    pub end: usize,
}

/// A token that is kept nowhere.
fn passing(token: &Token) -> Passed
    ensures class { (text : List ℕ) → class_of (token_of text token.now.kind) ≡ result.class }
    ensures end { result.end ≡ token.now.end }
{
    let class = match token.kind {
        TokenKind::Integer(number) => TokenClass::Number(number),
        TokenKind::LiteralName(_) => TokenClass::Name,
        TokenKind::ExecutableName(_) => TokenClass::Name,
        TokenKind::ImmediateName(_) => TokenClass::Name,
        TokenKind::Text(_) => TokenClass::Text,
        TokenKind::Procedure(_) => TokenClass::Procedure,
    };
    Passed {
        class,
        end: token.end,
    }
}

/// A string of this extent, or its fault.
fn pass_string(extent: Result<Extent, ScanFault>) -> Result<Passed, ScanFault>
    ensures { (text : List ℕ) (at start : ℕ) (reading : Reading) → at ≤ start
        → IsSized text start extent reading → IsPassed text at result reading }
{
    match extent {
        Ok(extent) => Ok(Passed {
            class: TokenClass::Text,
            end: extent.end,
        }),
        Err(fault) => Err(fault),
    }
}

/// `<<`, or a hexadecimal string in angles.
fn pass_angle(bytes: &[u8], at: usize) -> Result<Passed, ScanFault>
    requires inside { at < length bytes.now }
    requires angle { slice_index bytes.now at ≡ 60 }
    ensures { IsPassed bytes.now at result (after_hex_start (drop (at + 1) bytes.now)) }
{
    let start = at + 1;
    if start < bytes.len() {
        if bytes[start] == b'<' {
            return Ok(Passed {
                class: TokenClass::Name,
                end: at + 2,
            });
        }
    }
    pass_string(hex_extent(bytes, start))
}

/// The token that begins at a place, procedures apart.
fn pass_simple(bytes: &[u8], at: usize) -> Result<Passed, ScanFault>
    requires { at < length bytes.now }
    ensures { IsPassed bytes.now at result (simple_at bytes.now at) }
{
    let first = bytes[at];
    if first == b'(' {
        return pass_string(sized_extent(bytes, at + 1));
    }
    if first == b'<' {
        return pass_angle(bytes, at);
    }
    match bare_token(bytes, at) {
        Ok(token) => Ok(passing(&token)),
        Err(fault) => Err(fault),
    }
}

/// The token that begins at a place, where so many braces may still be opened.
#[cycle(passes)]
pub(crate) fn pass_token(bytes: &[u8], at: usize, room: u8) -> Result<Passed, ScanFault>
    requires { at < length bytes.now }
    ensures { IsPassed bytes.now at result (token_at room bytes.now at) }
{
    if bytes[at] != b'{' {
        return pass_simple(bytes, at);
    }
    if room == 0 {
        return Err(ScanFault::Limit);
    }
    pass_procedure(bytes, at, room - 1)
}

/// A procedure whose opening brace is at a place, and in which so many more may be opened.
#[cycle(passes)]
fn pass_procedure(bytes: &[u8], at: usize, room: u8) -> Result<Passed, ScanFault>
    requires { at < length bytes.now }
    ensures { IsPassed bytes.now at result
        (sized_procedure (elements_from (token_here room) (drop (at + 1) bytes.now))) }
{
    let mut count: usize = 0;
    let mut place = at + 1;
    while place < bytes.len() {
        let here = blank_end(bytes, place);
        if here >= bytes.len() {
            return Err(ScanFault::Syntax);
        }
        if bytes[here] == b'}' {
            if count > SEQUENCE_LIMIT {
                return Err(ScanFault::Limit);
            }
            return Ok(Passed {
                class: TokenClass::Procedure,
                end: here + 1,
            });
        }
        let element = match pass_token(bytes, here, room) {
            Ok(element) => element,
            Err(fault) => return Err(fault),
        };
        place = element.end;
        count += 1;
    }
    Err(ScanFault::Syntax)
}

/// The first token from a place on, passed over: what it is, and the place right behind it.
/// `None`: nothing is left but white space and comments, or the text has a fault there. It takes no
/// memory.
pub fn pass_next(bytes: &[u8], at: usize) -> Option<Passed>
    requires { at ≤ length bytes.now }
    ensures answer { result ≡ passed_by (scan bytes.now at) }
    ensures place { IfSome result (λ p. (at < p.end) × (p.end ≤ length bytes.now)) }
{
    let here = blank_end(bytes, at);
    if here >= bytes.len() {
        return None;
    }
    match pass_token(bytes, here, NESTING_LIMIT) {
        Ok(passed) => Some(passed),
        Err(_) => None,
    }
}
