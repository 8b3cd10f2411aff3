//! The line that tells a step of a run.

ghost use Rattle.std.specs.Prelude.{◌≡◌, ◌<◌, ◌≤◌, ◌++◌, take, length, OnOk, OnErr, vec_capacity};
ghost use Rattle.ps_views.specs.Frames.{coming_text};
ghost use Rattle.ps_views.specs.Lines.{at_left, cut_line};
ghost use Rattle.ps_views.specs.Steps.{behind_bar, doing_text, remark_text, numbers_text};
ghost use Rattle.ps_views.specs.Steps.{place_text, seen_text, step_line};

use crate::bytes::{append, append_number, append_repeated};
use crate::frames::{Coming, append_coming};
use crate::lines::{append_cut, append_right};
use crate::states::{StatusLine, append_status};
use ps_language::errors::{ErrorName, error_text};
use ps_places::Position;
use std::alloc::AllocError;

/// How many bytes of the text of a value are shown that a step executes, and of an operand.
const VALUE_BYTES: usize = 30;

const OPERAND_BYTES: usize = 24;

/// How wide the columns are of steps, contexts, places and what is done.
const STEP_WIDTH: usize = 6;

const CONTEXT_WIDTH: usize = 2;

const PLACE_WIDTH: usize = 7;

const DOING_WIDTH: usize = 18;

/// A step of a run.
#[derive(Clone, Copy, Debug, PartialEq, Eq)]
pub struct StepLine {
    /// Its number, from 1.
    pub step: u64,
    /// The identifier of its context.
    pub context: u32,
    /// Where that stands in the program which it takes, as far as it is known.
    pub position: Option<Position>,
    pub coming: Coming,
}

/// What others see of a step, but for what it prints.
#[derive(Clone, Copy, Debug, PartialEq, Eq)]
pub enum Remark {
    /// A context begins, by its identifier.
    Starts(u32),
    /// The context takes a lock, by its birth number, or frees it.
    Takes(u64),
    Frees(u64),
    /// It raises an error.
    Raises(ErrorName),
    /// It waits behind the step.
    Waits(StatusLine),
    Finishes,
    Ends,
}

/// Appends the line and the column of a place, or a dash where it isn't known.
fn append_place_column(position: Option<Position>, to: &mut Vec<u8>) -> Result<(), AllocError>
    ensures appended { OnOk result (to.new.items ≡ to.old.items ++ place_text position) }
    ensures front { take (length to.old.items) to.new.items ≡ to.old.items }
    ensures capacity { vec_capacity to.old ≤ vec_capacity to.new }
    ensures full { OnErr result
        (vec_capacity to.old < length (to.old.items ++ place_text position)) }
{
    let Some(position) = position else {
        return append(b"-", to);
    };
    append_number(position.line, to)?;
    append(b":", to)?;
    append_number(position.column, to)
}

/// The same with spaces behind it.
fn append_place_left(position: Option<Position>, to: &mut Vec<u8>) -> Result<(), AllocError>
    ensures appended { OnOk result
        (to.new.items ≡ to.old.items ++ at_left 7 (place_text position)) }
    ensures front { take (length to.old.items) to.new.items ≡ to.old.items }
    ensures capacity { vec_capacity to.old ≤ vec_capacity to.new }
    ensures full { OnErr result
        (vec_capacity to.old < length (to.old.items ++ at_left 7 (place_text position))) }
{
    let start = to.len();
    append_place_column(position, to)?;
    let used = to.len() - start;
    append_repeated(b' ', PLACE_WIDTH.saturating_sub(used), to)
}

/// What a step does, with spaces behind it.
fn append_coming_left(coming: Coming, value: &[u8], to: &mut Vec<u8>) -> Result<(), AllocError>
    ensures appended { OnOk result
        (to.new.items ≡ to.old.items ++ at_left 18 (coming_text 30 coming value.now)) }
    ensures front { take (length to.old.items) to.new.items ≡ to.old.items }
    ensures capacity { vec_capacity to.old ≤ vec_capacity to.new }
    ensures full { OnErr result (vec_capacity to.old
        < length (to.old.items ++ at_left 18 (coming_text 30 coming value.now))) }
{
    let start = to.len();
    append_step_coming(coming, value, to)?;
    let used = to.len() - start;
    append_repeated(b' ', DOING_WIDTH.saturating_sub(used), to)
}

/// Appends the columns of the step and its context.
fn append_numbers(told: &StepLine, to: &mut Vec<u8>) -> Result<(), AllocError>
    ensures appended { OnOk result (to.new.items ≡ to.old.items ++ numbers_text told.now) }
    ensures front { take (length to.old.items) to.new.items ≡ to.old.items }
    ensures capacity { vec_capacity to.old ≤ vec_capacity to.new }
    ensures full { OnErr result
        (vec_capacity to.old < length (to.old.items ++ numbers_text told.now)) }
{
    append_right(told.step, STEP_WIDTH, to)?;
    append(b" ", to)?;
    append_right(told.context, CONTEXT_WIDTH, to)?;
    append(b"  ", to)
}

/// Appends the columns of the place and of what is done.
fn append_doing(told: &StepLine, value: &[u8], to: &mut Vec<u8>) -> Result<(), AllocError>
    ensures appended { OnOk result (to.new.items ≡ to.old.items ++ doing_text told.now value.now) }
    ensures front { take (length to.old.items) to.new.items ≡ to.old.items }
    ensures capacity { vec_capacity to.old ≤ vec_capacity to.new }
    ensures full { OnErr result
        (vec_capacity to.old < length (to.old.items ++ doing_text told.now value.now)) }
{
    append_place_left(told.position, to)?;
    append(b" ", to)?;
    append_coming_left(told.coming, value, to)?;
    append(b" |", to)
}

/// Appends what others see of a step, where there is something.
fn append_seen(remarks: &[u8], to: &mut Vec<u8>) -> Result<(), AllocError>
    ensures appended { OnOk result (to.new.items ≡ to.old.items ++ seen_text remarks.now) }
    ensures front { take (length to.old.items) to.new.items ≡ to.old.items }
    ensures capacity { vec_capacity to.old ≤ vec_capacity to.new }
    ensures full { OnErr result
        (vec_capacity to.old < length (to.old.items ++ seen_text remarks.now)) }
{
    if remarks.is_empty() {
        return Ok(());
    }
    append(b"   -- ", to)?;
    append(remarks, to)
}

/// Appends what stands behind the bar.
fn append_behind(operands: &[u8], remarks: &[u8], to: &mut Vec<u8>) -> Result<(), AllocError>
    ensures appended { OnOk result
        (to.new.items ≡ to.old.items ++ behind_bar operands.now remarks.now) }
    ensures front { take (length to.old.items) to.new.items ≡ to.old.items }
    ensures capacity { vec_capacity to.old ≤ vec_capacity to.new }
    ensures full { OnErr result
        (vec_capacity to.old < length (to.old.items ++ behind_bar operands.now remarks.now)) }
{
    if operands.is_empty() && remarks.is_empty() {
        return Ok(());
    }
    append(b" ", to)?;
    append(operands, to)?;
    append_seen(remarks, to)
}

/// Appends the line of a step:
///
/// ```text
/// NUMBER CONTEXT LINE:COLUMN DOES | OPERANDS   -- REMARKS
/// ```
///
/// Of a value that it executes the text is given, of which at most 30 bytes are shown; the operands
/// and remarks are texts that `append_step_operand` and `append_remark` made.
///
/// `AllocError`: a growth was refused; what stood before stays.
#[tactic(auto, unfolding(crate::specs::Steps::step_line))]
pub fn append_step_line(
    told: &StepLine,
    value: &[u8],
    operands: &[u8],
    remarks: &[u8],
    to: &mut Vec<u8>,
) -> Result<(), AllocError>
    ensures appended { OnOk result (to.new.items ≡ to.old.items
        ++ step_line told.now value.now operands.now remarks.now) }
    ensures front { take (length to.old.items) to.new.items ≡ to.old.items }
    ensures capacity { vec_capacity to.old ≤ vec_capacity to.new }
    ensures full { OnErr result (vec_capacity to.old < length (to.old.items
        ++ step_line told.now value.now operands.now remarks.now)) }
{
    append_numbers(told, to)?;
    append_doing(told, value, to)?;
    append_behind(operands, remarks, to)?;
    append(b"\n", to)
}

/// Appends what others see of a step.
///
/// `AllocError`: a growth was refused; what stood before stays.
pub fn append_remark(remark: Remark, to: &mut Vec<u8>) -> Result<(), AllocError>
    ensures appended { OnOk result (to.new.items ≡ to.old.items ++ remark_text remark) }
    ensures front { take (length to.old.items) to.new.items ≡ to.old.items }
    ensures capacity { vec_capacity to.old ≤ vec_capacity to.new }
    ensures full { OnErr result
        (vec_capacity to.old < length (to.old.items ++ remark_text remark)) }
{
    match remark {
        Remark::Starts(context) => {
            append(b"starts context ", to)?;
            append_number(context, to)
        }
        Remark::Takes(lock) => {
            append(b"takes lock ", to)?;
            append_number(lock, to)
        }
        Remark::Frees(lock) => {
            append(b"frees lock ", to)?;
            append_number(lock, to)
        }
        Remark::Raises(error) => {
            append(b"error ", to)?;
            append(error_text(error), to)
        }
        Remark::Waits(status) => append_status(status, to),
        Remark::Finishes => append(b"finishes", to),
        Remark::Ends => append(b"ends", to),
    }
}

/// Appends what a step does, as its line tells it: of the text of a value that it executes at most
/// 30 bytes.
///
/// `AllocError`: a growth was refused; what stood before stays.
pub fn append_step_coming(coming: Coming, value: &[u8], to: &mut Vec<u8>) -> Result<(), AllocError>
    ensures appended { OnOk result
        (to.new.items ≡ to.old.items ++ coming_text 30 coming value.now) }
    ensures front { take (length to.old.items) to.new.items ≡ to.old.items }
    ensures capacity { vec_capacity to.old ≤ vec_capacity to.new }
    ensures full { OnErr result
        (vec_capacity to.old < length (to.old.items ++ coming_text 30 coming value.now)) }
{
    append_coming(VALUE_BYTES, coming, value, to)
}

/// Appends the text of an operand in a step's line, in at most 24 bytes.
///
/// `AllocError`: a growth was refused; what stood before stays.
pub fn append_step_operand(value: &[u8], to: &mut Vec<u8>) -> Result<(), AllocError>
    ensures appended { OnOk result (to.new.items ≡ to.old.items ++ cut_line 24 value.now) }
    ensures front { take (length to.old.items) to.new.items ≡ to.old.items }
    ensures capacity { vec_capacity to.old ≤ vec_capacity to.new }
    ensures full { OnErr result
        (vec_capacity to.old < length (to.old.items ++ cut_line 24 value.now)) }
{
    append_cut(value, OPERAND_BYTES, to)
}
