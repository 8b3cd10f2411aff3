//! Strings in parentheses, with escapes.

ghost use Rattle.std.specs.Prelude.{◌≡◌, ◌<◌, ◌≤◌, ◌+◌, ◌^◌, ◌++◌, ◌∷◌, [], ℕ, List, take, length};
ghost use Rattle.std.specs.Prelude.{slice_range, IsTrue, OnOk, OnErr, vec_capacity};
ghost use Rattle.std.specs.List.{flat_map};
ghost use Rattle.ps_language.specs.Access.{bytes, part_bytes};
ghost use Rattle.ps_language.specs.Texts as texts;
ghost use Rattle.ps_language.specs.Value.{Store};
ghost use Rattle.ps_mem.specs.Heap.{birth_at};
ghost use Rattle.ps_mem.specs.References.{StandsAs, words_for};
ghost use Rattle.ps_mem.specs.Meaning.{part_of};
ghost use Rattle.ps_mem.specs.Shows.{IsSound, Shows};
ghost use Rattle.ps_text.specs.Shown.{GoesOn};

use crate::appends::{append_cut, is_readable};
use ps_language::kinds::Kind;
use ps_mem::Memory;
use ps_seq::arrays::interval;
use ps_seq::reads::read_part;
use ps_word::values::Part;
use std::alloc::AllocError;

/// The most bytes that are read at once.
const BLOCK: usize = 64;

/// A backslash and three octal digits.
fn octal_escape(byte: u8) -> [u8; 4]
    ensures { result ≡ texts.octal_escape byte }
{
    [
        b'\\',
        b'0' + byte / 64,
        b'0' + byte / 8 % 8,
        b'0' + byte % 8,
    ]
}

/// Appends a byte of a string or its escape, as far as it fits.
fn append_escape(byte: u8, end: usize, output: &mut Vec<u8>) -> Result<(), AllocError>
    requires { length output.old.items ≤ end }
    ensures goes_on { GoesOn end output.old.items output.new.items }
    ensures capacity { vec_capacity output.old ≤ vec_capacity output.new }
    ensures ok { let shown = output.old.items ++ texts.escaped byte in
        OnOk result (output.new.items ≡ take end shown) }
    ensures full { OnErr result (vec_capacity output.old < length (take end (output.old.items
        ++ texts.escaped byte))) }
{
    match byte {
        b'(' => append_cut(b"\\(", end, output),
        b')' => append_cut(b"\\)", end, output),
        b'\\' => append_cut(b"\\\\", end, output),
        b'\n' => append_cut(b"\\n", end, output),
        b'\r' => append_cut(b"\\r", end, output),
        b'\t' => append_cut(b"\\t", end, output),
        8 => append_cut(b"\\b", end, output),
        12 => append_cut(b"\\f", end, output),
        b' '..=b'~' => append_cut(&[byte], end, output),
        _ => append_cut(&octal_escape(byte), end, output),
    }
}

/// Whether a byte is shown as it is: a printable one that is no parenthesis and no backslash.
#[inline(always)]
fn is_plain(byte: u8) -> bool
    ensures { IsTrue result → texts.escaped byte ≡ byte ∷ [] }
{
    (byte >= b' ') & (byte <= b'~') & (byte != b'(') & (byte != b')') & (byte != b'\\')
}

/// Whether all bytes are shown as they are. No byte ends the loop, so many are tested at once.
#[inline]
fn are_plain(bytes: &[u8]) -> bool
    ensures { IsTrue result → flat_map texts.escaped bytes.now ≡ bytes.now }
{
    let mut plain = true;
    for at in 0..bytes.len() {
        plain = plain & is_plain(bytes[at]);
    }
    plain
}

/// Where the bytes end that are shown as they are, from one of them on.
#[inline]
fn plain_end(bytes: &[u8], first: usize) -> usize
    requires from { first ≤ length bytes.now }
    ensures low { first ≤ result }
    ensures high { result ≤ length bytes.now }
    ensures plain { let run = slice_range bytes.now first result in flat_map texts.escaped run
        ≡ run }
{
    for at in first..bytes.len() {
        if !is_plain(bytes[at]) {
            return at;
        }
    }
    bytes.len()
}

/// Appends bytes of a string with their escapes, as far as they fit.
fn append_mixed(bytes: &[u8], end: usize, output: &mut Vec<u8>) -> Result<(), AllocError>
    requires { length output.old.items ≤ end }
    ensures goes_on { GoesOn end output.old.items output.new.items }
    ensures capacity { vec_capacity output.old ≤ vec_capacity output.new }
    ensures ok { OnOk result (output.new.items ≡ take end (output.old.items ++ flat_map
        texts.escaped bytes.now)) }
    ensures full { OnErr result (vec_capacity output.old < length (take end (output.old.items
        ++ flat_map texts.escaped bytes.now))) }
{
    let mut index = 0;
    while index < bytes.len() {
        let behind = plain_end(bytes, index);
        if behind == index {
            append_escape(bytes[index], end, output)?;
            index += 1;
        } else {
            append_cut(&bytes[index..behind], end, output)?;
            index = behind;
        }
    }
    Ok(())
}

/// Appends bytes of a string with their escapes, as far as they fit before `end`; at once where none
/// has one.
///
/// `AllocError`: a growth was refused; what stood before stays.
pub fn append_escapes(bytes: &[u8], end: usize, output: &mut Vec<u8>) -> Result<(), AllocError>
    requires { length output.old.items ≤ end }
    ensures goes_on { GoesOn end output.old.items output.new.items }
    ensures capacity { vec_capacity output.old ≤ vec_capacity output.new }
    ensures ok { OnOk result (output.new.items ≡ take end (output.old.items ++ flat_map
        texts.escaped bytes.now)) }
    ensures full { OnErr result (vec_capacity output.old < length (take end (output.old.items
        ++ flat_map texts.escaped bytes.now))) }
{
    if are_plain(bytes) {
        return append_cut(bytes, end, output);
    }
    append_mixed(bytes, end, output)
}

/// Appends the bytes of a part of a string with their escapes, as far as they fit. Once the text is
/// full no more is read.
fn append_escaped<M: Memory>(
    memory: &mut M,
    part: Part,
    end: usize,
    output: &mut Vec<u8>,
) -> Result<(), AllocError>
    requires sound { IsSound (M.heap memory.old) }
    requires known { StandsAs (M.heap memory.old) Kind.Text part.address (words_for (part.offset +
        part.length)) }
    requires end { part.offset + part.length < 2 ^ 16 }
    requires short { length output.old.items ≤ end }
    ensures heap { M.heap memory.new ≡ M.heap memory.old }
    ensures grants { M.grants memory.new ≡ M.grants memory.old }
    ensures goes_on { GoesOn end output.old.items output.new.items }
    ensures capacity { vec_capacity output.old ≤ vec_capacity output.new }
    ensures ok { (names : List (List ℕ)) (s : Store) → Shows (M.heap memory.old) names s
        → part.offset + part.length ≤ length (bytes s (birth_at (M.heap memory.old) part.address))
        → OnOk result (output.new.items ≡ take end (output.old.items ++ flat_map texts.escaped
        (part_bytes s (part_of (birth_at (M.heap memory.old)) part)))) }
    ensures full { (names : List (List ℕ)) (s : Store) → Shows (M.heap memory.old) names s
        → part.offset + part.length ≤ length (bytes s (birth_at (M.heap memory.old) part.address))
        → OnErr result (vec_capacity output.old < length (take end (output.old.items ++ flat_map
        texts.escaped (part_bytes s (part_of (birth_at (M.heap memory.old)) part))))) }
{
    let mut block = [0; BLOCK];
    let mut index: u16 = 0;
    while index < part.length {
        if output.len() >= end {
            return Ok(());
        }
        let count = (part.length - index).min(BLOCK as u16);
        let bytes = &mut block[..count as usize];
        read_part(memory, interval(part, index, count), bytes);
        append_escapes(bytes, end, output)?;
        index += count;
    }
    Ok(())
}

/// Appends a part of a string in parentheses, as far as it fits; what can't be read is `-string-`.
pub fn append_string<M: Memory>(
    memory: &mut M,
    part: Part,
    end: usize,
    output: &mut Vec<u8>,
) -> Result<(), AllocError>
    requires sound { IsSound (M.heap memory.old) }
    requires known { StandsAs (M.heap memory.old) Kind.Text part.address (words_for (part.offset +
        part.length)) }
    requires end { part.offset + part.length < 2 ^ 16 }
    requires short { length output.old.items ≤ end }
    ensures heap { M.heap memory.new ≡ M.heap memory.old }
    ensures grants { M.grants memory.new ≡ M.grants memory.old }
    ensures goes_on { GoesOn end output.old.items output.new.items }
    ensures capacity { vec_capacity output.old ≤ vec_capacity output.new }
    ensures ok { (names : List (List ℕ)) (s : Store) → Shows (M.heap memory.old) names s
        → part.offset + part.length ≤ length (bytes s (birth_at (M.heap memory.old) part.address))
        → OnOk result (output.new.items ≡ take end (output.old.items ++ texts.string_text s (part_of
        (birth_at (M.heap memory.old)) part))) }
    ensures full { (names : List (List ℕ)) (s : Store) → Shows (M.heap memory.old) names s
        → part.offset + part.length ≤ length (bytes s (birth_at (M.heap memory.old) part.address))
        → OnErr result (vec_capacity output.old < length (take end (output.old.items
        ++ texts.string_text s (part_of (birth_at (M.heap memory.old)) part)))) }
{
    if !is_readable(part.access) {
        return append_cut(b"-string-", end, output);
    }
    append_cut(b"(", end, output)?;
    append_escaped(memory, part, end, output)?;
    append_cut(b")", end, output)
}
