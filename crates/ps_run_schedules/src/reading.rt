//! The schedule of a text that comes part by part.

ghost use Rattle.std.specs.Prelude.{◌≡◌, ◌≢◌, ◌<◌, ◌++◌, ℕ, List, [], true, false, Err, IfOk, OnOk};
ghost use Rattle.ps_run_schedules.specs.Texts.{AreEntries, IsBadAt, IsPartOfLine, TellsLine, text_of};

use crate::lines::entry;
use ps_language::schedules::Entry;
use thiserror::Error;

/// The most bytes that the line of an entry has.
pub const MOST_LINE_BYTES: usize = 46;

/// Why a text gave no schedule.
#[derive(Clone, Copy, Debug, PartialEq, Eq, Error)]
pub enum ScheduleFault {
    /// The first line, counted from 1, that is no entry's.
    #[error("bad schedule line {0}")]
    BadLine(usize),
    #[error("out of memory")]
    Memory,
}

/// Whether the next line of a text can be judged by what is known of it: some bytes, which are the
/// last of the text, or are a whole line, or as many as a line may have.
fn is_certain(rest: &[u8], is_last: bool) -> bool
    ensures certain { result ≡ true → (rest.now ≢ [])
        × (is_last ≡ false → TellsLine rest.now) }
    ensures part { result ≡ false → IsPartOfLine rest.now × (is_last ≡ true → rest.now ≡ []) }
{
    !rest.is_empty() && (is_last || rest.len() >= MOST_LINE_BYTES || rest.contains(&b'\n'))
}

/// Appends the entries of the next bytes of a schedule's text, behind the lines of the entries that
/// are there, and gives what is left of these bytes: nothing where they are the last of the text,
/// else a part of a line.
///
/// The fault is `BadLine` where the text is that of no schedule, whatever follows these bytes: the
/// lines before that one are those of entries, and what follows begins with no entry's line, as a
/// last line without its line feed. It is `Memory` only for want of memory.
pub fn read_entries<'a>(
    bytes: &'a [u8],
    is_last: bool,
    entries: &mut Vec<Entry>,
) -> Result<&'a [u8], ScheduleFault>
    requires entries { AreEntries entries.old.items }
    ensures entries { OnOk result (AreEntries entries.new.items) }
    ensures text { IfOk result (λ rest. text_of entries.old.items ++ bytes.now
        ≡ text_of entries.new.items ++ rest.now) }
    ensures part { IfOk result (λ rest. IsPartOfLine rest.now) }
    ensures last { is_last ≡ true → IfOk result (λ rest. rest.now ≡ []) }
    ensures bad { (line : ℕ) → result ≡ Err (ScheduleFault.BadLine line)
        → (more : List ℕ) → (is_last ≡ true → more ≡ [])
        → IsBadAt (text_of entries.old.items ++ (bytes.now ++ more)) line }
{
    let mut rest = bytes;
    while is_certain(rest, is_last) {
        let Some((next, behind)) = entry(rest) else {
            return Err(ScheduleFault::BadLine(entries.len() + 1));
        };
        if entries.push(next).is_err() {
            return Err(ScheduleFault::Memory);
        }
        rest = behind;
    }
    Ok(rest)
}
