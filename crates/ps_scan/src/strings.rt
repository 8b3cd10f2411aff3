//! Strings in parentheses, with their escapes (PLRM2, 3.2.2).

ghost use Rattle.std.specs.Prelude.{◌≡◌, ◌≢◌, ℕ, ◌+◌, ◌-◌, ◌*◌, ◌%◌, ◌<◌, ◌≤◌, ◌^◌, ◌++◌, List};
ghost use Rattle.std.specs.Prelude.{length, drop, slice_index, slice_range, Some, OnOk, IfOk};
ghost use Rattle.std.specs.Prelude.{IfSome, IfNone, MatchOption, option_to_list, true, false};
ghost use Rattle.ps_language.specs.Bytes.{value_in, digit_of, is_octal};
ghost use Rattle.ps_language.specs.Reading.{string_end, unfinished, with_front, string_reading};
ghost use Rattle.ps_language.specs.Scan.{after_return, octal_front, octal_rest, escape_of};
ghost use Rattle.ps_language.specs.Scan.{byte_escape, string_escape, string_from};
ghost use Rattle.ps_scan.specs.Shown.{IsAnswer, IsSomeString};
ghost use Rattle.ps_scan.specs.Strings.{extent_of, IsSized, PartReads};

use crate::classes::{digit_value, is_plain_byte};
use crate::tokens::{SEQUENCE_LIMIT, ScanFault, Token, TokenKind};
use std::alloc::{AllocError, Global};

/// A part of a string: the byte that it gives, if any, and the place behind it.
#[derive(Clone, Copy)]
struct Part {
    byte: Option<u8>,
    next: usize,
}

/// How many bytes a string has, and the place behind it.
#[derive(Clone, Copy)]
pub(crate) struct Extent {
    pub(crate) length: usize,
    pub(crate) end: usize,
}

/// The place behind a carriage return: a line feed belongs to it.
fn return_end(bytes: &[u8], at: usize) -> usize
    requires { at ≤ length bytes.now }
    ensures low { at ≤ result }
    ensures high { result ≤ length bytes.now }
    ensures rest { drop result bytes.now ≡ after_return (drop at bytes.now) }
{
    if at < bytes.len() {
        if bytes[at] == b'\n' {
            return at + 1;
        }
    }
    at
}

/// The octal digit at a place, if there is one.
fn octal_digit(bytes: &[u8], at: usize) -> Option<u8>
    ensures some { IfSome result (λ digit. (at < length bytes.now)
        × (is_octal (slice_index bytes.now at) ≡ true)
        × (digit ≡ digit_of (slice_index bytes.now at)) × (digit < 8)) }
    ensures none { let byte = slice_index bytes.now at in
        IfNone result (at < length bytes.now → is_octal byte ≡ false) }
{
    if at >= bytes.len() {
        return None;
    }
    let digit = digit_value(bytes[at]);
    if digit < 8 { Some(digit) } else { None }
}

/// One to three octal digits, of which the first one is there: a byte, past 255 without its high
/// bit.
fn octal_part(bytes: &[u8], at: usize) -> Part
    requires inside { at < length bytes.now }
    requires digit { is_octal (slice_index bytes.now at) ≡ true }
    ensures byte { result.byte ≡ Some (value_in 8 0 (octal_front 3 (drop at bytes.now)) % 256) }
    ensures rest { drop result.next bytes.now ≡ octal_rest 3 (drop at bytes.now) }
    ensures low { at < result.next }
    ensures high { result.next ≤ length bytes.now }
{
    let first = digit_value(bytes[at]);
    let second = match octal_digit(bytes, at + 1) {
        Some(digit) => digit,
        None => return Part {
            byte: Some(first),
            next: at + 1,
        },
    };
    let third = match octal_digit(bytes, at + 2) {
        Some(digit) => digit,
        None => return Part {
            byte: Some(first * 8 + second),
            next: at + 2,
        },
    };
    let value = first as u32 * 64 + second as u32 * 8 + third as u32;
    Part {
        byte: Some((value % 256) as u8),
        next: at + 3,
    }
}

/// The byte that a letter behind a backslash stands for: itself but for `n r t b f`.
fn letter_byte(letter: u8) -> u8
    requires octal { is_octal letter ≡ false }
    requires feed { letter ≢ 10 }
    requires carriage_return { letter ≢ 13 }
    ensures { escape_of letter ≡ byte_escape result }
{
    if letter == b'n' {
        b'\n'
    } else if letter == b'r' {
        b'\r'
    } else if letter == b't' {
        b'\t'
    } else if letter == b'b' {
        8
    } else if letter == b'f' {
        12
    } else {
        letter
    }
}

/// What a backslash gives with what stands behind it, at `at`; nothing where the text ends there.
fn escape_part(bytes: &[u8], at: usize) -> Option<Part>
    requires { at ≤ length bytes.now }
    ensures part { let rest = drop at bytes.now in
        PartReads bytes.now result (λ depth. string_escape string_from depth rest) }
    ensures place { IfSome result (λ part. (at < part.next) × (part.next ≤ length bytes.now)) }
{
    if at >= bytes.len() {
        return None;
    }
    let letter = bytes[at];
    let next = at + 1;
    if digit_value(letter) < 8 {
        return Some(octal_part(bytes, at));
    }
    if letter == b'\n' {
        return Some(Part { byte: None, next });
    }
    if letter == b'\r' {
        return Some(Part {
            byte: None,
            next: return_end(bytes, next),
        });
    }
    Some(Part {
        byte: Some(letter_byte(letter)),
        next,
    })
}

/// What stands at a place of a string, parentheses apart; nothing where the text ends behind a
/// backslash.
fn string_part(bytes: &[u8], at: usize) -> Option<Part>
    requires inside { at < length bytes.now }
    requires opening { slice_index bytes.now at ≢ 40 }
    requires closing { slice_index bytes.now at ≢ 41 }
    ensures part { PartReads bytes.now result (λ depth. string_from depth (drop at bytes.now)) }
    ensures place { IfSome result (λ part. (at < part.next) × (part.next ≤ length bytes.now)) }
{
    let byte = bytes[at];
    if byte == b'\\' {
        return escape_part(bytes, at + 1);
    }
    if byte == b'\r' {
        return Some(Part {
            byte: Some(b'\n'),
            next: return_end(bytes, at + 1),
        });
    }
    Some(Part {
        byte: Some(byte),
        next: at + 1,
    })
}

/// How many bytes a part gives.
#[inline(always)]
fn bytes_in(part: Part) -> usize
    ensures count { result ≡ length (option_to_list part.byte) }
    ensures few { result ≤ 1 }
{
    if part.byte.is_some() { 1 } else { 0 }
}

/// Adds the byte that a part gives, if any.
#[inline(always)]
fn push_part(part: Part, string: &mut Vec<u8>) -> Result<(), AllocError>
    ensures { OnOk result (string.new.items ≡ string.old.items ++ option_to_list part.byte) }
{
    match part.byte {
        Some(byte) => {
            string.push(byte)?;
            Ok(())
        }
        None => Ok(()),
    }
}

/// The place behind a run of bytes of a string that stand for themselves: no parentheses, no
/// backslashes and no carriage returns.
#[inline(always)]
fn plain_end(bytes: &[u8], at: usize) -> usize
    requires { at ≤ length bytes.now }
    ensures low { at ≤ result }
    ensures high { result ≤ length bytes.now }
    ensures rest { (depth : ℕ) → string_from depth (drop at bytes.now)
        ≡ with_front (slice_range bytes.now at result)
        (string_from depth (drop result bytes.now)) }
{
    for here in at..bytes.len() {
        if !is_plain_byte(bytes[here]) {
            return here;
        }
    }
    bytes.len()
}

/// How many bytes the string has that begins at a place, and where it ends; nothing where it
/// doesn't end.
fn string_extent(bytes: &[u8], at: usize) -> Option<Extent>
    requires { at ≤ length bytes.now }
    ensures none { IfNone result (string_from 0 (drop at bytes.now) ≡ unfinished) }
    ensures some { IfSome result (λ extent. extent_of 0 (string_from 0 (drop at bytes.now))
        ≡ Some (extent.length, drop extent.end bytes.now)) }
    ensures place { IfSome result (λ extent. (at < extent.end) × (extent.end ≤ length bytes.now)) }
{
    let mut here = at;
    let mut depth: usize = 0;
    let mut length: usize = 0;
    while here < bytes.len() {
        let byte = bytes[here];
        if byte == b'(' {
            depth += 1;
            length += 1;
            here += 1;
        } else if byte == b')' {
            if depth == 0 {
                return Some(Extent {
                    length,
                    end: here + 1,
                });
            }
            depth -= 1;
            length += 1;
            here += 1;
        } else {
            let part = string_part(bytes, here)?;
            let end = plain_end(bytes, part.next);
            length += bytes_in(part) + (end - part.next);
            here = end;
        }
    }
    None
}

/// The bytes of the string that begins at a place and ends in the text.
fn string_bytes(
    alloc: Global,
    bytes: &[u8],
    at: usize,
    capacity: usize,
) -> Result<Vec<u8>, AllocError>
    requires { at ≤ length bytes.now }
    ensures { IfOk result (λ string. (value rest : List ℕ) → string_from 0 (drop at bytes.now)
        ≡ string_end value rest → string.items ≡ value) }
{
    let mut string = Vec::with_capacity(alloc, capacity)?;
    let mut here = at;
    let mut level: usize = 0;
    while here < bytes.len() {
        let byte = bytes[here];
        if byte == b'(' {
            level += 1;
            string.push(byte)?;
            here += 1;
        } else if byte == b')' {
            if level == 0 {
                break;
            }
            level -= 1;
            string.push(byte)?;
            here += 1;
        } else {
            match string_part(bytes, here) {
                None => break,
                Some(part) => {
                    let end = plain_end(bytes, part.next);
                    push_part(part, &mut string)?;
                    string.extend_from_slice(&bytes[part.next..end])?;
                    here = end;
                }
            }
        }
    }
    Ok(string)
}

/// The extent of the string in parentheses that begins at a place, unless it is too long.
pub(crate) fn sized_extent(bytes: &[u8], at: usize) -> Result<Extent, ScanFault>
    requires { at ≤ length bytes.now }
    ensures { IsSized bytes.now at result (string_reading (string_from 0 (drop at bytes.now))) }
{
    let extent = match string_extent(bytes, at) {
        Some(extent) => extent,
        None => return Err(ScanFault::Syntax),
    };
    if extent.length > SEQUENCE_LIMIT {
        return Err(ScanFault::Limit);
    }
    Ok(extent)
}

/// A string in parentheses.
pub(crate) fn string_token(alloc: Global, bytes: &[u8], at: usize) -> Result<Token, ScanFault>
    requires { at < length bytes.now }
    ensures { let reading = string_reading (string_from 0 (drop (at + 1) bytes.now)) in
        IsAnswer (IsSomeString reading) bytes.now at result reading }
{
    let start = at + 1;
    let extent = match sized_extent(bytes, start) {
        Ok(extent) => extent,
        Err(fault) => return Err(fault),
    };
    if extent.length == 0 {
        return Ok(Token {
            kind: TokenKind::Text(Vec::new(alloc)),
            end: extent.end,
        });
    }
    match string_bytes(alloc, bytes, start, extent.length) {
        Ok(string) => Ok(Token {
            kind: TokenKind::Text(string),
            end: extent.end,
        }),
        Err(AllocError) => Err(ScanFault::Memory),
    }
}
