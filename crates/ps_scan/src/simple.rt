//! Tokens that are neither strings nor procedures; they take no memory.

ghost use Rattle.std.specs.Prelude.{◌≡◌, ◌≢◌, ◌+◌, ◌<◌, ◌^◌, length, drop, slice_index};
ghost use Rattle.ps_language.specs.Scan.{after_angle};
ghost use Rattle.ps_scan.specs.Shown.{IsAnswer, IsAtString, simple_at};

use crate::classes::is_regular_byte;
use crate::hexadecimal::angle_token;
use crate::strings::string_token;
use crate::tokens::{ScanFault, Span, Token, TokenKind};
use crate::words::{slash_token, word_token};
use std::alloc::Global;

/// `>>`; a single angle is no token.
fn closing_angles(bytes: &[u8], at: usize) -> Result<Token, ScanFault>
    requires inside { at < length bytes.now }
    requires angle { slice_index bytes.now at ≡ 62 }
    ensures { IsAnswer ⊥ bytes.now at result (after_angle (drop (at + 1) bytes.now)) }
{
    if at + 1 >= bytes.len() {
        return Err(ScanFault::Syntax);
    }
    if bytes[at + 1] != b'>' {
        return Err(ScanFault::Syntax);
    }
    let end = at + 2;
    Ok(Token {
        kind: TokenKind::ExecutableName(Span { start: at, end }),
        end,
    })
}

/// A bracket, the name of an operator.
fn bracket(at: usize) -> Token
    requires { at + 1 < 2 ^ 64 }
    ensures kind { result.kind ≡ TokenKind.ExecutableName (record { start = at; end = at + 1 }) }
    ensures end { result.end ≡ at + 1 }
{
    let end = at + 1;
    Token {
        kind: TokenKind::ExecutableName(Span { start: at, end }),
        end,
    }
}

/// The token that begins at a place and is neither a string nor a procedure. It takes no memory.
pub(crate) fn bare_token(bytes: &[u8], at: usize) -> Result<Token, ScanFault>
    requires inside { at < length bytes.now }
    requires string { slice_index bytes.now at ≢ 40 }
    requires angle { slice_index bytes.now at ≢ 60 }
    ensures { IsAnswer ⊥ bytes.now at result (simple_at bytes.now at) }
{
    let first = bytes[at];
    if is_regular_byte(first) {
        return word_token(bytes, at);
    }
    if first == b'>' {
        return closing_angles(bytes, at);
    }
    if first == b'/' {
        return slash_token(bytes, at);
    }
    if first == b'[' {
        return Ok(bracket(at));
    }
    if first == b']' {
        return Ok(bracket(at));
    }
    Err(ScanFault::Syntax)
}

/// The token that begins at a place, procedures apart.
pub(crate) fn simple_token(alloc: Global, bytes: &[u8], at: usize) -> Result<Token, ScanFault>
    requires { at < length bytes.now }
    ensures { IsAnswer (IsAtString bytes.now at (simple_at bytes.now at)) bytes.now at result
        (simple_at bytes.now at) }
{
    let first = bytes[at];
    if first == b'(' {
        return string_token(alloc, bytes, at);
    }
    if first == b'<' {
        return angle_token(alloc, bytes, at);
    }
    bare_token(bytes, at)
}
