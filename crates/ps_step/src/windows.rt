//! The next token of a string, which is read by windows, so that a token costs what it is long
//! (PLRM2, 3.2).

ghost use Rattle.std.specs.Prelude.{◌≡◌, ℕ, ◌<◌, ◌≤◌, ◌+◌, ◌-◌, ◌^◌, ⊤, List, length, IfSome, OnOk};
ghost use Rattle.ps_language.specs.Access.{bytes, part_bytes};
ghost use Rattle.ps_language.specs.Scan.{scan};
ghost use Rattle.ps_language.specs.Value.{Store};
ghost use Rattle.ps_mem.specs.Heap.{birth_at};
ghost use Rattle.ps_mem.specs.Meaning.{part_of};
ghost use Rattle.ps_mem.specs.References.{StandsAs, words_for};
ghost use Rattle.ps_mem.specs.Shows.{IsSound, Shows};
ghost use Rattle.ps_ops_control.specs.Frames.{IsHeldText};
ghost use Rattle.ps_scan.specs.Shown.{token_of};
ghost use Rattle.ps_step_tokens.specs.Short.{IsShort};
ghost use Rattle.ps_step.specs.Texts.{IsScanned, IsTaken};
ghost use Rattle.ps_step.specs.Windows.{AreRead, StandsBehind};

use ps_language::kinds::Kind;
use ps_mem::Memory;
use ps_scan::{ScanFault, Token, next_token, next_word};
use ps_seq::strings::append_bytes;
use ps_word::values::Part;
use std::alloc::{AllocError, Global};

/// The bytes of a word.
const BYTES: u16 = 8;

/// The bytes of the first window, eight words.
const FIRST_WINDOW: u16 = 64;

/// Bytes of a string that were read, and the place of the string from which on.
#[derive(Clone, Debug, Drop)]
pub struct Window {
    pub start: usize,
    pub bytes: Vec<u8>,
}

/// The bytes of a part of a string are read into the list as they stand now. The memory stays as it
/// is.
///
/// `AllocError`: a growth of the list was refused, and nothing stands in it.
#[inline(always)]
fn read_part<M: Memory>(memory: &mut M, part: Part, list: &mut Vec<u8>) -> Result<(), AllocError>
    requires sound { IsSound (M.heap memory.old) }
    requires known { StandsAs (M.heap memory.old) Kind.Text part.address (words_for
        (part.offset + part.length)) }
    ensures heap { M.heap memory.new ≡ M.heap memory.old }
    ensures grants { M.grants memory.new ≡ M.grants memory.old }
    ensures value { (names : List (List ℕ)) (s : Store) → Shows (M.heap memory.old) names s
        → part.offset + part.length ≤ length (bytes s (birth_at (M.heap memory.old) part.address))
        → OnOk result (list.new.items ≡ part_bytes s
        (part_of (birth_at (M.heap memory.old)) part)) }
    ensures read { AreRead (M.heap memory.old) part.address part.offset list.new.items }
    ensures length { OnOk result (length list.new.items ≡ part.length) }
    ensures fits { length list.new.items ≤ part.length }
{
    list.clear();
    append_bytes(memory, part, list)
}

/// The token of a part of a string from a place on. The part's bytes are read into the list as they
/// stand now. The memory stays as it is.
///
/// Faults as the scanner's. `ScanFault::Memory`: also a growth of the list was refused.
#[inline(always)]
fn scan_part<M: Memory>(
    memory: &mut M,
    part: Part,
    at: usize,
    list: &mut Vec<u8>,
    alloc: Global,
) -> Result<Option<Token>, ScanFault>
    requires sound { IsSound (M.heap memory.old) }
    requires known { StandsAs (M.heap memory.old) Kind.Text part.address (words_for
        (part.offset + part.length)) }
    requires within { at ≤ part.length }
    ensures heap { M.heap memory.new ≡ M.heap memory.old }
    ensures grants { M.grants memory.new ≡ M.grants memory.old }
    ensures scanned { (names : List (List ℕ)) (s : Store) → Shows (M.heap memory.old) names s
        → part.offset + part.length ≤ length (bytes s (birth_at (M.heap memory.old) part.address))
        → IsScanned ⊤ list.new.items result
        (scan (part_bytes s (part_of (birth_at (M.heap memory.old)) part)) at) }
    ensures token { IsTaken (λ end. (at < end) × (end ≤ part.length)) list.new.items result }
    ensures read { AreRead (M.heap memory.old) part.address part.offset list.new.items }
    ensures fits { length list.new.items ≤ part.length }
{
    match read_part(memory, part, list) {
        Ok(()) => next_token(alloc, list.as_slice(), at),
        Err(AllocError) => Err(ScanFault::Memory),
    }
}

/// The token of a part of a string from a place on. The part is read into the list by windows, each
/// sixteen times as long as the one before, so that little is scanned again, until a token ends
/// before its window does or the window is the whole part. The memory stays as it is.
///
/// Faults as the scanner's. `ScanFault::Memory`: also a growth of the list was refused.
#[inline(always)]
fn scan_by_windows<M: Memory>(
    memory: &mut M,
    part: Part,
    at: usize,
    list: &mut Vec<u8>,
    alloc: Global,
) -> Result<Option<Token>, ScanFault>
    requires sound { IsSound (M.heap memory.old) }
    requires known { StandsAs (M.heap memory.old) Kind.Text part.address (words_for
        (part.offset + part.length)) }
    requires within { at ≤ part.length }
    requires near { at ≤ FIRST_WINDOW }
    ensures heap { M.heap memory.new ≡ M.heap memory.old }
    ensures grants { M.grants memory.new ≡ M.grants memory.old }
    ensures scanned { (names : List (List ℕ)) (s : Store) → Shows (M.heap memory.old) names s
        → part.offset + part.length ≤ length (bytes s (birth_at (M.heap memory.old) part.address))
        → IsScanned ⊤ list.new.items result
        (scan (part_bytes s (part_of (birth_at (M.heap memory.old)) part)) at) }
    ensures token { IsTaken (λ end. (at < end) × (end ≤ part.length)) list.new.items result }
    ensures read { AreRead (M.heap memory.old) part.address part.offset list.new.items }
    ensures fits { length list.new.items ≤ part.length }
{
    let mut size = part.length.min(FIRST_WINDOW);
    while size < part.length {
        let window = Part {
            length: size,
            ..part
        };
        match scan_part(memory, window, at, list, alloc) {
            Ok(Some(token)) if token.end < size as usize => return Ok(Some(token)),
            Err(ScanFault::Memory) => return Err(ScanFault::Memory),
            _ => size = size.saturating_mul(16).min(part.length),
        }
    }
    scan_part(memory, part, at, list, alloc)
}

/// The part of a string from the start of the word on in which a place lies, so many bytes in front
/// of it.
fn rest_of(part: Part, at: usize, front: u16) -> Part
    requires within { at ≤ part.length }
    requires end { part.offset + part.length < 2 ^ 16 }
    requires front { front ≤ part.offset + at }
    ensures { result ≡ record part {
      offset = part.offset + at - front;
      length = part.length - at + front;
    } }
{
    Part {
        offset: part.offset + at as u16 - front,
        length: part.length - at as u16 + front,
        ..part
    }
}

/// Where a place of a part stands among bytes that were read: those of the string from another
/// place on. `None`: it isn't among them.
#[inline(always)]
fn place_read(part: Part, at: usize, start: usize, list: &[u8]) -> Option<usize>
    requires within { at ≤ part.length }
    ensures place { IfSome result
        (λ place. (start + place ≡ part.offset + at) × (place < length list.now)) }
{
    let place = part.offset as usize + at;
    if place < start {
        return None;
    }
    if place - start < list.len() {
        Some(place - start)
    } else {
        None
    }
}

/// A token that was scanned from one place on, as it is from another.
#[inline(always)]
fn moved_token(token: Token, from: usize, at: usize) -> Token
    requires behind { from ≤ token.end }
    requires end { at + (token.end - from) < 2 ^ 64 }
    ensures kind { result.kind ≡ token.kind }
    ensures end { result.end ≡ at + (token.end - from) }
{
    Token {
        kind: token.kind,
        end: at + (token.end - from),
    }
}

/// The first token of a string from a place on, where it ends before the bytes do that were read.
/// No memory is read.
#[inline(always)]
pub fn scan_read(part: Part, at: usize, window: &Window, alloc: Global) -> Option<Token>
    requires within { at ≤ part.length }
    requires end { part.offset + part.length < 2 ^ 16 }
    requires fits { window.now.start + length window.now.bytes.items ≤ part.offset + part.length }
    ensures scanned { IfSome result (StandsBehind part at window.now.start window.now.bytes.items) }
    ensures token { IfSome result (λ token. (token.end ≤ part.length)
        × IsShort (token_of window.now.bytes.items token.kind)) }
{
    let list = window.bytes.as_slice();
    let front = place_read(part, at, window.start, list)?;
    match next_token(alloc, list, front) {
        Ok(Some(token)) if token.end < list.len() => Some(moved_token(token, front, at)),
        _ => None,
    }
}

/// The first token of a string from a place on, where it is a number or an executable name and ends
/// before the bytes do that were read. No memory is read.
#[inline(always)]
pub fn word_read(part: Part, at: usize, window: &Window) -> Option<Token>
    requires within { at ≤ part.length }
    requires end { part.offset + part.length < 2 ^ 16 }
    requires fits { window.now.start + length window.now.bytes.items ≤ part.offset + part.length }
    ensures scanned { IfSome result (StandsBehind part at window.now.start window.now.bytes.items) }
    ensures token { IfSome result (λ token. (token.end ≤ part.length)
        × IsShort (token_of window.now.bytes.items token.kind)) }
{
    let list = window.bytes.as_slice();
    let front = place_read(part, at, window.start, list)?;
    match next_word(list, front) {
        Some(token) if token.end < list.len() => Some(moved_token(token, front, at)),
        _ => None,
    }
}

/// The first words of what is left of a string behind a place are read into the window as they
/// stand now, or none, where its growth is refused. The memory stays as it is.
#[inline(always)]
pub fn read_window<M: Memory>(memory: &mut M, part: Part, at: usize, window: &mut Window)
    requires sound { IsSound (M.heap memory.old) }
    requires held { IsHeldText (M.heap memory.old) part }
    requires within { at ≤ part.length }
    ensures heap { M.heap memory.new ≡ M.heap memory.old }
    ensures grants { M.grants memory.new ≡ M.grants memory.old }
    ensures read { AreRead (M.heap memory.old) part.address window.new.start
        window.new.bytes.items }
    ensures fits { window.new.start + length window.new.bytes.items ≤ part.offset + part.length }
{
    let front = (part.offset + at as u16) % BYTES;
    let rest = rest_of(part, at, front);
    window.start = rest.offset as usize;
    let first = Part {
        length: rest.length.min(FIRST_WINDOW),
        ..rest
    };
    let _ = read_part(memory, first, &mut window.bytes);
}

/// The first token of a string from a place on, with the place right behind it. As much as it takes
/// is read into the window as it stands now, by whole words. The memory stays as it is.
///
/// Faults as the scanner's. `ScanFault::Memory`: also a growth of the window was refused.
pub fn scan_string<M: Memory>(
    memory: &mut M,
    part: Part,
    at: usize,
    window: &mut Window,
    alloc: Global,
) -> Result<Option<Token>, ScanFault>
    requires sound { IsSound (M.heap memory.old) }
    requires held { IsHeldText (M.heap memory.old) part }
    requires within { at ≤ part.length }
    ensures heap { M.heap memory.new ≡ M.heap memory.old }
    ensures grants { M.grants memory.new ≡ M.grants memory.old }
    ensures scanned { (names : List (List ℕ)) (s : Store) → Shows (M.heap memory.old) names s
        → part.offset + part.length ≤ length (bytes s (birth_at (M.heap memory.old) part.address))
        → IsScanned ⊤ window.new.bytes.items result
        (scan (part_bytes s (part_of (birth_at (M.heap memory.old)) part)) at) }
    ensures token { IsTaken (λ end. end ≤ part.length) window.new.bytes.items result }
    ensures read { AreRead (M.heap memory.old) part.address window.new.start
        window.new.bytes.items }
    ensures fits { window.new.start + length window.new.bytes.items ≤ part.offset + part.length }
{
    let front = (part.offset + at as u16) % BYTES;
    let rest = rest_of(part, at, front);
    window.start = rest.offset as usize;
    match scan_by_windows(memory, rest, front as usize, &mut window.bytes, alloc) {
        Ok(Some(token)) => Ok(Some(moved_token(token, front as usize, at))),
        Ok(None) => Ok(None),
        Err(fault) => Err(fault),
    }
}
