//! The line that tells a cut: a step of another context than the one that was due.

ghost use Rattle.std.specs.Prelude.{◌≡◌, ◌<◌, ◌≤◌, ◌++◌, take, length, OnOk, OnErr, vec_capacity};
ghost use Rattle.ps_views.specs.Cuts as spec;

use crate::bytes::{append, append_number};
use crate::frames::{Coming, append_coming};
use crate::lines::append_at;
use ps_places::Position;
use std::alloc::AllocError;

/// How many bytes of the text of a value are shown.
const VALUE_BYTES: usize = 30;

/// Where a cut is in a schedule.
#[derive(Clone, Copy, Debug, PartialEq, Eq)]
pub struct CutAt {
    /// Behind how many steps.
    pub behind: u64,
    /// The identifier of the context that was due.
    pub left: u32,
    /// That of the context that stepped.
    pub other: u32,
}

/// A context that could step.
#[derive(Clone, Copy, Debug, PartialEq, Eq)]
pub struct Turn {
    /// Its identifier.
    pub context: u32,
    /// Where its next step stands in the program, as far as that is known.
    pub position: Option<Position>,
    pub coming: Coming,
}

/// A cut.
#[derive(Clone, Copy, Debug, PartialEq, Eq)]
pub struct CutLine {
    /// Behind how many steps it is.
    pub behind: u64,
    /// Who was due.
    pub left: Turn,
    /// Who stepped.
    pub other: Turn,
}

/// The word before what a context is left at.
fn before_word(coming: Coming) -> &'static [u8]
    ensures { result.now ≡ spec.before_word coming }
{
    match coming {
        Coming::Joining => b" where it ",
        Coming::Entering => b" where it ",
        Coming::Retaking => b" where it ",
        _ => b" before ",
    }
}

/// That a try is made again, where it is.
fn again_text(coming: Coming) -> &'static [u8]
    ensures { result.now ≡ spec.again_text coming }
{
    match coming {
        Coming::Joining => b" and tries join again",
        Coming::Entering => b" and tries monitor again",
        Coming::Retaking => b" and retakes its lock",
        _ => b"",
    }
}

/// Appends who is left, and before what.
fn append_left(file: &[u8], left: Turn, value: &[u8], to: &mut Vec<u8>) -> Result<(), AllocError>
    ensures appended { OnOk result
        (to.new.items ≡ to.old.items ++ spec.left_text file.now left value.now) }
    ensures front { take (length to.old.items) to.new.items ≡ to.old.items }
    ensures capacity { vec_capacity to.old ≤ vec_capacity to.new }
    ensures full { OnErr result
        (vec_capacity to.old < length (to.old.items ++ spec.left_text file.now left value.now)) }
{
    append(b" context ", to)?;
    append_number(left.context, to)?;
    append(b" is left", to)?;
    append_at(file, left.position, to)?;
    append(before_word(left.coming), to)?;
    append_coming(VALUE_BYTES, left.coming, value, to)
}

/// Appends who goes on, and where.
fn append_goes(file: &[u8], other: Turn, to: &mut Vec<u8>) -> Result<(), AllocError>
    ensures appended { OnOk result
        (to.new.items ≡ to.old.items ++ spec.goes_text file.now other) }
    ensures front { take (length to.old.items) to.new.items ≡ to.old.items }
    ensures capacity { vec_capacity to.old ≤ vec_capacity to.new }
    ensures full { OnErr result
        (vec_capacity to.old < length (to.old.items ++ spec.goes_text file.now other)) }
{
    append(b"; context ", to)?;
    append_number(other.context, to)?;
    append(b" goes on", to)?;
    append_at(file, other.position, to)?;
    append(again_text(other.coming), to)
}

/// Appends behind how many steps a cut is.
fn append_behind(cut: &CutLine, to: &mut Vec<u8>) -> Result<(), AllocError>
    ensures appended { OnOk result (to.new.items ≡ to.old.items ++ spec.behind_text cut.now) }
    ensures front { take (length to.old.items) to.new.items ≡ to.old.items }
    ensures capacity { vec_capacity to.old ≤ vec_capacity to.new }
    ensures full { OnErr result
        (vec_capacity to.old < length (to.old.items ++ spec.behind_text cut.now)) }
{
    append(b"  behind step ", to)?;
    append_number(cut.behind, to)
}

/// Appends the line of a cut:
///
/// ```text
///   behind step NUMBER context NUMBER is left at PLACE before TEXT; context NUMBER goes on at PLACE
/// ```
///
/// Of a value that the context which is left would execute the text is given, of which at most 30
/// bytes are shown.
///
/// `AllocError`: a growth was refused; what stood before stays.
#[tactic(auto, unfolding(crate::specs::Cuts::cut_line))]
pub fn append_cut_line(
    file: &[u8],
    cut: &CutLine,
    value: &[u8],
    to: &mut Vec<u8>,
) -> Result<(), AllocError>
    ensures appended { OnOk result
        (to.new.items ≡ to.old.items ++ spec.cut_line file.now cut.now value.now) }
    ensures front { take (length to.old.items) to.new.items ≡ to.old.items }
    ensures capacity { vec_capacity to.old ≤ vec_capacity to.new }
    ensures full { OnErr result
        (vec_capacity to.old < length (to.old.items ++ spec.cut_line file.now cut.now value.now)) }
{
    append_behind(cut, to)?;
    append_left(file, cut.left, value, to)?;
    append_goes(file, cut.other, to)?;
    append(b"\n", to)
}
