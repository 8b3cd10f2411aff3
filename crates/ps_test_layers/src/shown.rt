//! Tokens as texts: `12`, `name`, `/literal`, `//immediate`, `(` the bytes of a string in
//! hexadecimal `)`, `{` elements, each with a space, `}`.

use ps_scan::{ScanFault, Token, TokenKind, next_token};
use std::alloc::Global;
use std::io::{self, Write};

/// Writes the bytes of a string as two hexadecimal digits each.
fn show_string(out: &mut Vec<u8>, bytes: &[u8]) -> io::Result<()> {
    out.write_all(b"(")?;
    for byte in bytes {
        write!(out, "{byte:02x}")?;
    }
    out.write_all(b")")
}

/// Writes what a token of the text is.
fn show_kind(out: &mut Vec<u8>, text: &[u8], kind: &TokenKind) -> io::Result<()> {
    let (slashes, span) = match kind {
        TokenKind::Integer(number) => return write!(out, "{number}"),
        TokenKind::Text(bytes) => return show_string(out, bytes),
        TokenKind::Procedure(elements) => {
            out.write_all(b"{")?;
            for element in elements {
                show_kind(out, text, element)?;
                out.write_all(b" ")?;
            }
            return out.write_all(b"}");
        }
        TokenKind::LiteralName(span) => ("/", span),
        TokenKind::ExecutableName(span) => ("", span),
        TokenKind::ImmediateName(span) => ("//", span),
    };
    out.write_all(slashes.as_bytes())?;
    out.write_all(span.of(text))
}

/// How a fault is written.
fn text_of(fault: ScanFault) -> &'static str {
    match fault {
        ScanFault::Syntax => "!syntax",
        ScanFault::Limit => "!limit",
        ScanFault::Memory => "!memory",
    }
}

/// Writes what stands at a place of a text, which has no more bytes before it than it has: a token
/// with its end, `.` where nothing is left, `!` and a fault; gives the token's end.
pub fn show_next(
    alloc: Global,
    out: &mut Vec<u8>,
    text: &[u8],
    at: usize,
) -> io::Result<Option<usize>> {
    if at > text.len() {
        return Ok(None);
    }
    match next_token(alloc, text, at) {
        Ok(Some(Token { kind, end })) => {
            show_kind(out, text, &kind)?;
            write!(out, "@{end} ")?;
            return Ok(Some(end));
        }
        Ok(None) => out.write_all(b".")?,
        Err(fault) => out.write_all(text_of(fault).as_bytes())?,
    }
    Ok(None)
}

/// How many bytes or elements a token has.
fn size_of(text: &[u8], kind: &TokenKind) -> usize {
    match kind {
        TokenKind::Integer(_) => 0,
        TokenKind::LiteralName(span)
        | TokenKind::ExecutableName(span)
        | TokenKind::ImmediateName(span) => span.of(text).len(),
        TokenKind::Text(bytes) => bytes.len(),
        TokenKind::Procedure(elements) => elements.len(),
    }
}

/// Writes the size of the first token of a text, or the fault.
pub fn show_size(alloc: Global, out: &mut Vec<u8>, text: &[u8]) -> io::Result<()> {
    match next_token(alloc, text, 0) {
        Ok(Some(Token { kind, .. })) => {
            let size = size_of(text, &kind);
            write!(out, "{size}")
        }
        Ok(None) => Ok(()),
        Err(fault) => out.write_all(text_of(fault).as_bytes()),
    }
}
