//! The next token of a source: of the program, or of a string that is executed (PLRM2, 3.2).

ghost use Rattle.std.specs.Prelude.{◌≡◌, Some, Ok, IfSome, length};
ghost use Rattle.ps_ops_control.specs.Frames.{IsSourceAt};
ghost use Rattle.ps_mem.specs.Shows.{IsSound};
ghost use Rattle.ps_step.specs.Texts.{IsTaken, Scans, bytes_scanned};
ghost use Rattle.ps_step.specs.Windows.{IsWindow};

use crate::windows::{Window, read_window, scan_read, scan_string, word_read};
use ps_mem::Memory;
use ps_ops_control::frames::Source;
use ps_scan::{ScanFault, Token, next_token, next_word};
use std::alloc::Global;

/// Where a text is read: behind so many of its bytes.
#[derive(Clone, Copy, Debug, PartialEq, Eq)]
pub struct Cursor {
    pub source: Source,
    pub at: usize,
}

/// The bytes that were scanned: the program, or what was read of a string.
#[inline(always)]
pub(crate) fn scanned_bytes<'a>(source: Source, program: &'a [u8], window: &'a Window) -> &'a [u8]
    ensures { result.now ≡ bytes_scanned source program.now window.now.bytes.items }
{
    match source {
        Source::Program => program,
        Source::Text(_) => window.bytes.as_slice(),
    }
}

/// What is left of a source behind a place is read into the window, where it is a string: its first
/// words, as they stand now. The memory stays as it is.
#[inline(always)]
pub(crate) fn read_source<M: Memory>(
    cursor: Cursor,
    program: &[u8],
    window: &mut Window,
    memory: &mut M,
)
    requires sound { IsSound (M.heap memory.old) }
    requires place { IsSourceAt (M.heap memory.old) (length program.now) cursor.source cursor.at }
    ensures heap { M.heap memory.new ≡ M.heap memory.old }
    ensures grants { M.grants memory.new ≡ M.grants memory.old }
    ensures window { IsWindow (M.heap memory.old) cursor.source window.new }
{
    match cursor.source {
        Source::Program => {}
        Source::Text(part) => read_window(memory, part, cursor.at, window),
    }
}

/// The next token of a source behind a place. Where the window doesn't have it, a string is read
/// into it as it stands now, as far as the token takes. The memory stays as it is.
///
/// Faults as the scanner's. `ScanFault::Memory`: also a growth of the window was refused.
#[inline(always)]
pub(crate) fn scan_source<M: Memory>(
    cursor: Cursor,
    program: &[u8],
    window: &mut Window,
    memory: &mut M,
    alloc: Global,
) -> Result<Option<Token>, ScanFault>
    requires sound { IsSound (M.heap memory.old) }
    requires place { IsSourceAt (M.heap memory.old) (length program.now) cursor.source cursor.at }
    requires window { IsWindow (M.heap memory.old) cursor.source window.old }
    ensures heap { M.heap memory.new ≡ M.heap memory.old }
    ensures grants { M.grants memory.new ≡ M.grants memory.old }
    ensures scanned { Scans (M.heap memory.old) cursor.source cursor.at program.now
        window.new.bytes.items result }
    ensures token { IsTaken (IsSourceAt (M.heap memory.old) (length program.now) cursor.source)
        (bytes_scanned cursor.source program.now window.new.bytes.items) result }
    ensures window { IsWindow (M.heap memory.old) cursor.source window.new }
{
    match cursor.source {
        Source::Program => next_token(alloc, program, cursor.at),
        Source::Text(part) => match scan_read(part, cursor.at, window, alloc) {
            Some(token) => Ok(Some(token)),
            None => scan_string(memory, part, cursor.at, window, alloc),
        },
    }
}

/// The next token of a source behind a place, where it is a number or an executable name: of the
/// program, or of what was read of a string. `None`: it is another, or nothing is left, or the
/// window doesn't have it.
#[inline(always)]
pub(crate) fn scan_word<M: Memory>(
    cursor: Cursor,
    program: &[u8],
    window: &Window,
    memory: &M,
) -> Option<Token>
    requires place { IsSourceAt (M.heap memory.now) (length program.now) cursor.source cursor.at }
    requires window { IsWindow (M.heap memory.now) cursor.source window.now }
    ensures scanned { IfSome result (λ token.
        Scans (M.heap memory.now) cursor.source cursor.at program.now window.now.bytes.items (Ok
        (Some token))) }
    ensures token { IfSome result (λ token.
        IsTaken (IsSourceAt (M.heap memory.now) (length program.now) cursor.source)
        (bytes_scanned cursor.source program.now window.now.bytes.items) (Ok (Some token))) }
{
    match cursor.source {
        Source::Program => next_word(program, cursor.at),
        Source::Text(part) => word_read(part, cursor.at, window),
    }
}
