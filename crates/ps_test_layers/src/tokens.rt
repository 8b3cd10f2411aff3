//! Rows of texts: `tokens TOKENS` and, behind a tab each, fields `TIMES:TEXT` that make the text.
//! `\` and two hexadecimal digits are a byte.

use crate::shown::{show_next, show_size};
use anyhow::Result;
use std::alloc::{AllocError, Global};
use std::io;

/// More bytes than a text has whose tokens are all shown; of a longer one it is the size of the
/// first.
const LONG: usize = 1000;

/// The bytes that a field writes.
fn bytes_of(alloc: Global, field: &str) -> Result<Vec<u8>, AllocError> {
    let mut bytes = Vec::new(alloc);
    for (place, piece) in field.split('\\').enumerate() {
        let (digits, rest) = piece
            .split_at_checked(if place == 0 { 0 } else { 2 })
            .unwrap_or((piece, ""));
        if place > 0 {
            bytes.push(u8::from_str_radix(digits, 16).unwrap_or(0))?;
        }
        bytes.extend_from_slice(rest.as_bytes())?;
    }
    Ok(bytes)
}

/// Adds what a field `TIMES:TEXT` writes.
fn add_field(alloc: Global, text: &mut Vec<u8>, field: &str) -> Result<(), AllocError> {
    let (times, piece) = field.split_once(':').unwrap_or(("0", ""));
    let bytes = bytes_of(alloc, piece)?;
    for _ in 0..times.parse::<u32>().unwrap_or(0) {
        text.extend_from_slice(bytes.as_slice())?;
    }
    Ok(())
}

/// The tokens of a text to its end or its first fault; of a long text the size of its first token.
fn tokens_of(alloc: Global, text: &[u8]) -> io::Result<Vec<u8>> {
    let mut out = Vec::new(alloc);
    if text.len() > LONG {
        show_size(alloc, &mut out, text)?;
        return Ok(out);
    }
    let mut at = 0;
    for _ in 0..=text.len() {
        match show_next(alloc, &mut out, text, at)? {
            Some(end) => at = end,
            None => break,
        }
    }
    Ok(out)
}

/// Whether a text has these tokens. Fails for want of memory.
pub fn has_tokens(alloc: Global, row: &str) -> Result<bool> {
    let mut fields = row.split('\t');
    let wanted = bytes_of(alloc, fields.next().unwrap_or(""))?;
    let mut text = Vec::new(alloc);
    for field in fields {
        add_field(alloc, &mut text, field)?;
    }
    Ok(tokens_of(alloc, text.as_slice())?.as_slice() == wanted.as_slice())
}
