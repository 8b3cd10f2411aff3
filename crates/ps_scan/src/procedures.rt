//! Procedures in braces, and the token that begins at a place (PLRM2, 3.2.2).

ghost use Rattle.std.specs.Prelude.{◌≡◌, nat_lt, if◌then◌else◌, OnOk, [], ◌∷◌, ◌++◌, ◌+◌, ◌<◌, ◌≤◌};
ghost use Rattle.std.specs.Prelude.{length, drop, slice_index, ⊤};
ghost use Rattle.ps_language.specs.Reading.{sized_procedure};
ghost use Rattle.ps_language.specs.Scan.{token_here, elements_from};
ghost use Rattle.ps_scan.specs.Shown.{IsAnswer, MayStarve, token_at};

use crate::classes::is_regular_byte;
use crate::simple::simple_token;
use crate::spans::blank_end;
use crate::tokens::{SEQUENCE_LIMIT, ScanFault, Token, TokenKind};
use crate::words::word_token;
use std::alloc::{AllocError, Global};

/// The token that begins at a place, where so many braces may still be opened.
#[cycle(procedures)]
pub(crate) fn token_from(
    alloc: Global,
    bytes: &[u8],
    at: usize,
    room: u8,
) -> Result<Token, ScanFault>
    requires { at < length bytes.now }
    ensures { let reading = token_at room bytes.now at in
        IsAnswer (MayStarve room bytes.now at) bytes.now at result reading }
{
    if bytes[at] != b'{' {
        return simple_token(alloc, bytes, at);
    }
    if room == 0 {
        return Err(ScanFault::Limit);
    }
    procedure_token(alloc, bytes, at, room - 1)
}

/// The same; a word goes no way round.
#[cycle(procedures)]
#[inline(always)]
pub(crate) fn outer_token(
    alloc: Global,
    bytes: &[u8],
    at: usize,
    room: u8,
) -> Result<Token, ScanFault>
    requires { at < length bytes.now }
    ensures { let reading = token_at room bytes.now at in
        IsAnswer (MayStarve room bytes.now at) bytes.now at result reading }
{
    if is_regular_byte(bytes[at]) {
        return word_token(bytes, at);
    }
    token_from(alloc, bytes, at, room)
}

/// Adds an element, if there is room for one more.
fn keep_element(elements: &mut Vec<TokenKind>, token: Token) -> Result<(), AllocError>
    ensures { OnOk result (elements.new.items
        ≡ (if nat_lt (length elements.old.items) 65535 then elements.old.items ++ token.kind
        ∷ [] else elements.old.items)) }
{
    if elements.len() < SEQUENCE_LIMIT {
        elements.push(token.kind)?;
    }
    Ok(())
}

/// A procedure whose opening brace is at a place, and in which so many more may be opened.
#[cycle(procedures)]
fn procedure_token(alloc: Global, bytes: &[u8], at: usize, room: u8) -> Result<Token, ScanFault>
    requires { at < length bytes.now }
    ensures { IsAnswer ⊤ bytes.now at result
        (sized_procedure (elements_from (token_here room) (drop (at + 1) bytes.now))) }
{
    let mut elements = Vec::new(alloc);
    let mut count: usize = 0;
    let mut place = at + 1;
    while place < bytes.len() {
        let here = blank_end(bytes, place);
        if here >= bytes.len() {
            return Err(ScanFault::Syntax);
        }
        if bytes[here] == b'}' {
            if count > SEQUENCE_LIMIT {
                return Err(ScanFault::Limit);
            }
            return Ok(Token {
                kind: TokenKind::Procedure(elements),
                end: here + 1,
            });
        }
        let token = match outer_token(alloc, bytes, here, room) {
            Ok(token) => token,
            Err(fault) => return Err(fault),
        };
        place = token.end;
        count += 1;
        if keep_element(&mut elements, token).is_err() {
            return Err(ScanFault::Memory);
        }
    }
    Err(ScanFault::Syntax)
}
