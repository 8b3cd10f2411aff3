//! Hexadecimal strings (PLRM2, 3.2.2).

ghost use Rattle.std.specs.Prelude.{◌≡◌, ◌≢◌, ◌+◌, ◌-◌, ◌*◌, ◌/◌, ◌<◌, ◌≤◌, [], ◌∷◌, ◌++◌, length};
ghost use Rattle.std.specs.Prelude.{take, drop, filter, slice_index, slice_range, IfOk, OnOk};
ghost use Rattle.ps_language.specs.Bytes.{is_hex, is_hex_or_white};
ghost use Rattle.ps_language.specs.Reading.{pairs, sized_string};
ghost use Rattle.ps_language.specs.Scan.{leading, beyond, after_hex_start};
ghost use Rattle.ps_scan.specs.Shown.{IsAnswer, IsSomeString};
ghost use Rattle.ps_scan.specs.Strings.{IsSized};

use crate::classes::{hex_value, is_white_byte};
use crate::strings::Extent;
use crate::tokens::{SEQUENCE_LIMIT, ScanFault, Span, Token, TokenKind};
use std::alloc::{AllocError, Global};

/// What may stand in a hexadecimal string: how many digits there are, and the place behind.
#[derive(Clone, Copy)]
struct Digits {
    count: usize,
    end: usize,
}

/// The place behind digits from a place on, by fours: fewer than four may stand behind it.
fn fours_end(bytes: &[u8], at: usize) -> usize
    requires { at ≤ length bytes.now }
    ensures low { at ≤ result }
    ensures high { result ≤ length bytes.now }
    ensures count { length (filter is_hex (leading is_hex_or_white (drop at bytes.now)))
        ≡ (result - at) + length (filter is_hex (leading is_hex_or_white (drop result bytes.now))) }
    ensures rest { beyond is_hex_or_white (drop result bytes.now)
        ≡ beyond is_hex_or_white (drop at bytes.now) }
{
    let mut here = at;
    while here + 4 <= bytes.len() {
        if hex_value(bytes[here]) >= 16 {
            return here;
        }
        if hex_value(bytes[here + 1]) >= 16 {
            return here;
        }
        if hex_value(bytes[here + 2]) >= 16 {
            return here;
        }
        if hex_value(bytes[here + 3]) >= 16 {
            return here;
        }
        here += 4;
    }
    here
}

/// The hexadecimal digits and white space from a place on.
fn hex_digits(bytes: &[u8], at: usize) -> Digits
    requires { at ≤ length bytes.now }
    ensures count { result.count
        ≡ length (filter is_hex (leading is_hex_or_white (drop at bytes.now))) }
    ensures rest { drop result.end bytes.now ≡ beyond is_hex_or_white (drop at bytes.now) }
    ensures low { at ≤ result.end }
    ensures high { result.end ≤ length bytes.now }
{
    let mut blanks: usize = 0;
    let mut here = fours_end(bytes, at);
    while here < bytes.len() {
        let byte = bytes[here];
        if hex_value(byte) < 16 {
            here += 1;
        } else if is_white_byte(byte) {
            blanks += 1;
            here = fours_end(bytes, here + 1);
        } else {
            return Digits {
                count: here - at - blanks,
                end: here,
            };
        }
    }
    Digits {
        count: here - at - blanks,
        end: here,
    }
}

/// Writes the bytes of the pairs of digits from a place on, over those of a list from a place of
/// its own on and as far as it reaches. It tells how many.
fn fill_pairs(inner: &[u8], from: usize, string: &mut Vec<u8>, count: usize) -> usize
    requires from { from ≤ length inner.now }
    requires count { count ≤ length string.old.items }
    ensures digits { from + 2 * result ≤ length inner.now }
    ensures room { count + result ≤ length string.new.items }
    ensures whole { take (count + result) string.new.items
        ++ pairs (filter is_hex (drop (from + 2 * result) inner.now))
        ≡ take count string.old.items ++ pairs (filter is_hex (drop from inner.now)) }
{
    let most = (string.len() - count).min((inner.len() - from) / 2);
    for pair in 0..most {
        let high = hex_value(inner[from + 2 * pair]);
        if high >= 16 {
            return pair;
        }
        let low = hex_value(inner[from + 2 * pair + 1]);
        if low >= 16 {
            return pair;
        }
        string[count + pair] = high * 16 + low;
    }
    most
}

/// Writes a byte at a place of a list or right behind it.
fn put_byte(string: &mut Vec<u8>, place: usize, byte: u8) -> Result<(), AllocError>
    requires { place ≤ length string.old.items }
    ensures items { OnOk result
        (take (place + 1) string.new.items ≡ take place string.old.items ++ byte ∷ []) }
    ensures length { OnOk result (place + 1 ≤ length string.new.items) }
{
    if place < string.len() {
        string[place] = byte;
        return Ok(());
    }
    string.push(byte)?;
    Ok(())
}

/// The bytes that hexadecimal digits write, two digits each; white space is passed over, and behind
/// an odd last digit stands a 0.
fn hex_bytes(alloc: Global, inner: &[u8], capacity: usize) -> Result<Vec<u8>, AllocError>
    ensures { IfOk result (λ string. string.items ≡ pairs (filter is_hex inner.now)) }
{
    let mut string = Vec::with_capacity(alloc, capacity)?;
    string.resize(capacity, 0)?;
    let mut count = fill_pairs(inner, 0, &mut string, 0);
    let mut here = 2 * count;
    let mut high: Option<u8> = None;
    while here < inner.len() {
        let digit = hex_value(inner[here]);
        here += 1;
        if digit < 16 {
            match high {
                None => high = Some(digit),
                Some(value) => {
                    put_byte(&mut string, count, value * 16 + digit)?;
                    let more = fill_pairs(inner, here, &mut string, count + 1);
                    count += 1 + more;
                    here += 2 * more;
                    high = None;
                }
            }
        }
    }
    if let Some(value) = high {
        put_byte(&mut string, count, value * 16)?;
        count += 1;
    }
    string.truncate(count);
    Ok(string)
}

/// The extent of the hexadecimal string whose digits begin at a place, unless it is too long.
pub(crate) fn hex_extent(bytes: &[u8], at: usize) -> Result<Extent, ScanFault>
    requires inside { at ≤ length bytes.now }
    requires digit { at < length bytes.now → slice_index bytes.now at ≢ 60 }
    ensures sized { IsSized bytes.now at result (after_hex_start (drop at bytes.now)) }
    ensures inner { IfOk result (λ extent. (at < extent.end) × (after_hex_start (drop at bytes.now)
        ≡ sized_string (pairs (filter is_hex (slice_range bytes.now at (extent.end - 1))))
        (drop extent.end bytes.now))) }
{
    if at >= bytes.len() {
        return Err(ScanFault::Syntax);
    }
    let digits = hex_digits(bytes, at);
    if digits.end >= bytes.len() {
        return Err(ScanFault::Syntax);
    }
    if bytes[digits.end] != b'>' {
        return Err(ScanFault::Syntax);
    }
    let length = digits.count / 2 + digits.count % 2;
    if length > SEQUENCE_LIMIT {
        return Err(ScanFault::Limit);
    }
    Ok(Extent {
        length,
        end: digits.end + 1,
    })
}

/// `<<`, or a hexadecimal string in angles.
pub(crate) fn angle_token(alloc: Global, bytes: &[u8], at: usize) -> Result<Token, ScanFault>
    requires inside { at < length bytes.now }
    requires angle { slice_index bytes.now at ≡ 60 }
    ensures { let reading = after_hex_start (drop (at + 1) bytes.now) in
        IsAnswer (IsSomeString reading) bytes.now at result reading }
{
    let start = at + 1;
    if start < bytes.len() {
        if bytes[start] == b'<' {
            let end = at + 2;
            return Ok(Token {
                kind: TokenKind::ExecutableName(Span { start: at, end }),
                end,
            });
        }
    }
    let extent = match hex_extent(bytes, start) {
        Ok(extent) => extent,
        Err(fault) => return Err(fault),
    };
    let end = extent.end;
    if extent.length == 0 {
        return Ok(Token {
            kind: TokenKind::Text(Vec::new(alloc)),
            end,
        });
    }
    match hex_bytes(alloc, &bytes[start..end - 1], extent.length) {
        Ok(string) => Ok(Token {
            kind: TokenKind::Text(string),
            end,
        }),
        Err(AllocError) => Err(ScanFault::Memory),
    }
}
