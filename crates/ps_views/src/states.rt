//! The lines that tell the state of a run: the world behind so many steps.

ghost use Rattle.std.specs.Prelude.{◌≡◌, ◌<◌, ◌≤◌, ◌++◌, take, length, OnOk, OnErr, vec_capacity};
ghost use Rattle.ps_views.specs.States as states;
ghost use Rattle.ps_views.specs.States.{birth_text, context_text, dictionary_text, head_text};
ghost use Rattle.ps_views.specs.States.{lock_text, next_text, operand_text, owned_text};
ghost use Rattle.ps_views.specs.States.{printed_text, status_text, steps_text};

use crate::bytes::{append, append_number};
use crate::frames::{Coming, append_coming};
use crate::lines::{append_at, append_label};
use ps_places::Position;
use std::alloc::AllocError;

/// How many bytes of the text of a value are shown that a context executes next.
const NEXT_BYTES: usize = 60;

/// What the first lines of a state tell.
#[derive(Clone, Copy, Debug, PartialEq, Eq)]
pub struct StateHead {
    /// How many steps were made, of how many.
    pub step: u64,
    pub steps: u64,
    /// How many bytes they printed, and how many line ends are among these.
    pub bytes: usize,
    pub lines: usize,
}

/// Whether a context may go on, and what it waits for. Locks and conditions are told by their birth
/// numbers, contexts by their identifiers.
#[derive(Clone, Copy, Debug, PartialEq, Eq)]
pub enum StatusLine {
    Ready,
    Finished,
    /// It waits in `monitor` for a lock that a context has.
    InMonitor { lock: u64, owner: u32 },
    /// It waits in `join` for a context that isn't finished.
    InJoin { context: u32 },
    /// It waits for a condition, and takes the lock again behind that.
    ForCondition { condition: u64, lock: u64 },
    /// It was notified, and a context has the lock that it takes again.
    Notified { lock: u64, owner: u32 },
}

/// What the line of a context tells.
#[derive(Clone, Copy, Debug, PartialEq, Eq)]
pub struct ContextHead {
    pub identifier: u32,
    pub is_detached: bool,
    pub status: StatusLine,
}

/// Appends how many steps were made.
fn append_steps(step: u64, steps: u64, to: &mut Vec<u8>) -> Result<(), AllocError>
    ensures appended { OnOk result (to.new.items ≡ to.old.items ++ steps_text step steps) }
    ensures front { take (length to.old.items) to.new.items ≡ to.old.items }
    ensures capacity { vec_capacity to.old ≤ vec_capacity to.new }
    ensures full { OnErr result
        (vec_capacity to.old < length (to.old.items ++ steps_text step steps)) }
{
    append(b"step ", to)?;
    append_number(step, to)?;
    append(b" of ", to)?;
    append_number(steps, to)?;
    append(b"\n", to)
}

/// Appends what they printed.
fn append_printed(bytes: usize, lines: usize, to: &mut Vec<u8>) -> Result<(), AllocError>
    ensures appended { OnOk result (to.new.items ≡ to.old.items ++ printed_text bytes lines) }
    ensures front { take (length to.old.items) to.new.items ≡ to.old.items }
    ensures capacity { vec_capacity to.old ≤ vec_capacity to.new }
    ensures full { OnErr result
        (vec_capacity to.old < length (to.old.items ++ printed_text bytes lines)) }
{
    append(b"printed ", to)?;
    append_number(bytes, to)?;
    append(b" bytes in ", to)?;
    append_number(lines, to)?;
    append(b" lines\n", to)
}

/// Appends the first lines of a state:
///
/// ```text
/// step N of N
/// printed N bytes in N lines
/// ```
///
/// `AllocError`: a growth was refused; what stood before stays.
#[tactic(auto, unfolding(crate::specs::States::head_text))]
pub fn append_head(head: StateHead, to: &mut Vec<u8>) -> Result<(), AllocError>
    ensures appended { OnOk result (to.new.items ≡ to.old.items ++ head_text head) }
    ensures front { take (length to.old.items) to.new.items ≡ to.old.items }
    ensures capacity { vec_capacity to.old ≤ vec_capacity to.new }
    ensures full { OnErr result (vec_capacity to.old < length (to.old.items ++ head_text head)) }
{
    append_steps(head.step, head.steps, to)?;
    append_printed(head.bytes, head.lines, to)
}

/// Appends a lock and the context that has it.
fn append_owned(lock: u64, owner: u32, to: &mut Vec<u8>) -> Result<(), AllocError>
    ensures appended { OnOk result (to.new.items ≡ to.old.items ++ owned_text lock owner) }
    ensures front { take (length to.old.items) to.new.items ≡ to.old.items }
    ensures capacity { vec_capacity to.old ≤ vec_capacity to.new }
    ensures full { OnErr result
        (vec_capacity to.old < length (to.old.items ++ owned_text lock owner)) }
{
    append_number(lock, to)?;
    append(b", which context ", to)?;
    append_number(owner, to)?;
    append(b" has", to)
}

/// Appends whether a context may go on, and what it waits for.
pub(crate) fn append_status(status: StatusLine, to: &mut Vec<u8>) -> Result<(), AllocError>
    ensures appended { OnOk result (to.new.items ≡ to.old.items ++ status_text status) }
    ensures front { take (length to.old.items) to.new.items ≡ to.old.items }
    ensures capacity { vec_capacity to.old ≤ vec_capacity to.new }
    ensures full { OnErr result
        (vec_capacity to.old < length (to.old.items ++ status_text status)) }
{
    match status {
        StatusLine::Ready => append(b"ready", to),
        StatusLine::Finished => append(b"finished", to),
        StatusLine::InMonitor { lock, owner } => {
            append(b"waits in monitor for lock ", to)?;
            append_owned(lock, owner, to)
        }
        StatusLine::InJoin { context } => {
            append(b"waits in join for context ", to)?;
            append_number(context, to)
        }
        StatusLine::ForCondition { condition, lock } => {
            append(b"waits for condition ", to)?;
            append_number(condition, to)?;
            append(b", to retake lock ", to)?;
            append_number(lock, to)
        }
        StatusLine::Notified { lock, owner } => {
            append(b"was notified, waits for lock ", to)?;
            append_owned(lock, owner, to)
        }
    }
}

/// What stands between a context and its status.
fn detached_text(is_detached: bool) -> &'static [u8]
    ensures { result.now ≡ states.detached_text is_detached }
{
    if is_detached { b" (detached) " } else { b" " }
}

/// Appends the line of a context: `context N[ (detached)] STATUS`.
///
/// `AllocError`: a growth was refused; what stood before stays.
#[tactic(auto, unfolding(crate::specs::States::context_text))]
pub fn append_context(head: ContextHead, to: &mut Vec<u8>) -> Result<(), AllocError>
    ensures appended { OnOk result (to.new.items ≡ to.old.items ++ context_text head) }
    ensures front { take (length to.old.items) to.new.items ≡ to.old.items }
    ensures capacity { vec_capacity to.old ≤ vec_capacity to.new }
    ensures full { OnErr result (vec_capacity to.old < length (to.old.items ++ context_text head)) }
{
    append(b"context ", to)?;
    append_number(head.identifier, to)?;
    append(detached_text(head.is_detached), to)?;
    append_status(head.status, to)?;
    append(b"\n", to)
}

/// Appends the line of what a context does next, `next TEXT[ at FILE:LINE:COLUMN]`. Of a value that
/// it executes the text is given, of which at most 60 bytes are shown.
///
/// `AllocError`: a growth was refused; what stood before stays.
#[tactic(auto, unfolding(crate::specs::States::next_text))]
pub fn append_next(
    file: &[u8],
    coming: Coming,
    value: &[u8],
    position: Option<Position>,
    to: &mut Vec<u8>,
) -> Result<(), AllocError>
    ensures appended { OnOk result
        (to.new.items ≡ to.old.items ++ next_text file.now coming value.now position) }
    ensures front { take (length to.old.items) to.new.items ≡ to.old.items }
    ensures capacity { vec_capacity to.old ≤ vec_capacity to.new }
    ensures full { OnErr result (vec_capacity to.old
        < length (to.old.items ++ next_text file.now coming value.now position)) }
{
    append(b"  next ", to)?;
    append_coming(NEXT_BYTES, coming, value, to)?;
    append_at(file, position, to)?;
    append(b"\n", to)
}

/// Appends the number of a lock or a condition, where there is one.
fn append_birth(birth: Option<u64>, to: &mut Vec<u8>) -> Result<(), AllocError>
    ensures appended { OnOk result (to.new.items ≡ to.old.items ++ birth_text birth) }
    ensures front { take (length to.old.items) to.new.items ≡ to.old.items }
    ensures capacity { vec_capacity to.old ≤ vec_capacity to.new }
    ensures full { OnErr result (vec_capacity to.old < length (to.old.items ++ birth_text birth)) }
{
    let Some(birth) = birth else {
        return Ok(());
    };
    append(b" ", to)?;
    append_number(birth, to)
}

/// Appends the line of an operand by its text, `operand TEXT`, and behind a lock or a condition its
/// birth number.
///
/// `AllocError`: a growth was refused; what stood before stays.
#[tactic(auto, unfolding(crate::specs::States::operand_text))]
pub fn append_operand(value: &[u8], birth: Option<u64>, to: &mut Vec<u8>) -> Result<(), AllocError>
    ensures appended { OnOk result (to.new.items ≡ to.old.items ++ operand_text value.now birth) }
    ensures front { take (length to.old.items) to.new.items ≡ to.old.items }
    ensures capacity { vec_capacity to.old ≤ vec_capacity to.new }
    ensures full { OnErr result
        (vec_capacity to.old < length (to.old.items ++ operand_text value.now birth)) }
{
    append(b"  operand", to)?;
    append_label(Some(value), to)?;
    append_birth(birth, to)?;
    append(b"\n", to)
}

/// Appends what the line of a dictionary begins with, `dictionary dict N:`. Its keys follow, each
/// as a label.
///
/// `AllocError`: a growth was refused; what stood before stays.
#[tactic(auto, unfolding(crate::specs::States::dictionary_text))]
pub fn append_dictionary(birth: u64, to: &mut Vec<u8>) -> Result<(), AllocError>
    ensures appended { OnOk result (to.new.items ≡ to.old.items ++ dictionary_text birth) }
    ensures front { take (length to.old.items) to.new.items ≡ to.old.items }
    ensures capacity { vec_capacity to.old ≤ vec_capacity to.new }
    ensures full { OnErr result
        (vec_capacity to.old < length (to.old.items ++ dictionary_text birth)) }
{
    append(b"  dictionary dict ", to)?;
    append_number(birth, to)?;
    append(b":", to)
}

/// Appends the line of a lock that a context has: `lock N of context N`.
///
/// `AllocError`: a growth was refused; what stood before stays.
#[tactic(auto, unfolding(crate::specs::States::lock_text))]
pub fn append_lock(lock: u64, owner: u32, to: &mut Vec<u8>) -> Result<(), AllocError>
    ensures appended { OnOk result (to.new.items ≡ to.old.items ++ lock_text lock owner) }
    ensures front { take (length to.old.items) to.new.items ≡ to.old.items }
    ensures capacity { vec_capacity to.old ≤ vec_capacity to.new }
    ensures full { OnErr result
        (vec_capacity to.old < length (to.old.items ++ lock_text lock owner)) }
{
    append(b"lock ", to)?;
    append_number(lock, to)?;
    append(b" of context ", to)?;
    append_number(owner, to)?;
    append(b"\n", to)
}
