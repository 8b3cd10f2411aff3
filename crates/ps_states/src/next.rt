//! What the next step of a context does, and where that stands in the program.

ghost use Rattle.std.specs.Prelude.{◌≡◌, ◌≤◌, ◌+◌, ℕ, List, IfOk, IfSome, length};
ghost use Rattle.ps_language.specs.Access.{bytes, part_bytes};
ghost use Rattle.ps_language.specs.Value.{Store};
ghost use Rattle.ps_mem.specs.Heap.{Heap, birth_at};
ghost use Rattle.ps_mem.specs.Meaning.{part_of};
ghost use Rattle.ps_mem.specs.Shows.{AreValues, IsSound, Shows};
ghost use Rattle.ps_ops_operands.specs.Changes.{values_in};
ghost use Rattle.ps_ops_control.specs.Frames.{AreFrames, AreFramesWithin, IsFrame, IsFrameWithin};
ghost use Rattle.ps_ops_control.specs.Frames.{IsSourceAt, IsSourceWithin, source_of};
ghost use Rattle.ps_language.specs.World.{text_frame};
ghost use Rattle.ps_ops_control.specs.Frames.{IsHeldText, frame_of, frames_in};
ghost use Rattle.ps_states.specs.Charts as charts;
ghost use Rattle.ps_states.specs.Chosen.{chart_of, next_shown};
ghost use Rattle.ps_ctx_table.specs.Worlds.{context_of};
ghost use Rattle.ps_states.specs.Held.{IsMemberHeld, IsMemberShown};
ghost use Rattle.ps_states.specs.Next as spec;

use crate::charts::{Chart, element_position, next_token, object_position, token_bytes};
use crate::frames::frame_line;
use crate::values::full_text_of;
use ps_ctx_readers::births::birth_of;
use ps_ctx_readers::frames::view_of;
use ps_ctx_table::members::{Course, Member};
use ps_mem::Memory;
use ps_ops_control::frames::{Frame, Frames, Source};
use ps_ops_operands::Operands;
use ps_ops_operands::readers::integer_of;
use ps_ops_state::lent::Runtime;
use ps_places::{Position, position_of};
use ps_seq::arrays::element;
use ps_seq::strings::append_bytes;
use ps_views::Coming;
use ps_word::values::Part;
use std::alloc::{AllocError, Global};

/// What the next step of a context does, the text of the value that it executes, and where that
/// stands in the program, as far as that is known.
#[derive(Drop)]
pub(crate) struct Next {
    pub(crate) coming: Coming,
    pub(crate) value: Vec<u8>,
    pub(crate) position: Option<Position>,
}

/// What is no value.
pub(crate) fn bare(alloc: Global, coming: Coming) -> Next
    ensures { next_shown result ≡ spec.bare coming }
{
    Next {
        coming,
        value: Vec::new(alloc),
        position: None,
    }
}

/// The token that begins at a place of a text.
fn token_of(
    alloc: Global,
    text: &[u8],
    begin: usize,
    position: Option<Position>,
) -> Result<Next, AllocError>
    requires { begin ≤ length text.now }
    ensures { IfOk result (λ next. next_shown next
        ≡ spec.executing (charts.token_bytes text.now begin) position) }
{
    let mut value = Vec::new(alloc);
    value.extend_from_slice(token_bytes(text, begin))?;
    Ok(Next {
        coming: Coming::Value,
        value,
        position,
    })
}

/// The next token of the program.
fn program_next(chart: &Chart<'_>, at: usize) -> Result<Next, AllocError>
    ensures { IfOk result (λ next. next_shown next
        ≡ spec.program_next (chart_of chart.now) (charts.next_token chart.now.program.now at)) }
{
    match next_token(chart.program, at) {
        None => Ok(bare(chart.alloc, Coming::ProgramEnd)),
        Some(begin) => {
            let position = Some(position_of(chart.program, begin));
            token_of(chart.alloc, chart.program, begin, position)
        }
    }
}

/// The next token of a text that a string is, whose own place is told.
fn string_next(
    alloc: Global,
    position: Option<Position>,
    text: &[u8],
    at: usize,
) -> Result<Next, AllocError>
    ensures { IfOk result (λ next. next_shown next
        ≡ spec.string_next position text.now (charts.next_token text.now at)) }
{
    match next_token(text, at) {
        None => Ok(bare(alloc, Coming::TextEnd)),
        Some(begin) => token_of(alloc, text, begin, position),
    }
}

/// The next token of a string. The memory is only read.
fn part_next<M: Memory>(
    chart: &Chart<'_>,
    part: Part,
    at: usize,
    memory: &mut M,
) -> Result<Next, AllocError>
    requires sound { IsSound (M.heap memory.old) }
    requires held { IsHeldText (M.heap memory.old) part }
    ensures heap { M.heap memory.new ≡ M.heap memory.old }
    ensures grants { M.grants memory.new ≡ M.grants memory.old }
    ensures next { (names : List (List ℕ)) (s : Store) → Shows (M.heap memory.old) names s
        → part.offset + part.length ≤ length (bytes s (birth_at (M.heap memory.old) part.address))
        → IfOk result (λ next. next_shown next ≡ spec.string_next
        (charts.object_position (chart_of chart.now) (birth_at (M.heap memory.old) part.address))
        (part_bytes s (part_of (birth_at (M.heap memory.old)) part))
        (charts.next_token (part_bytes s (part_of (birth_at (M.heap memory.old)) part)) at)) }
{
    let position = object_position(chart, birth_of(memory, part.address));
    let mut text = Vec::new(chart.alloc);
    append_bytes(memory, part, &mut text)?;
    string_next(chart.alloc, position, text.as_slice(), at)
}

/// The next token of the program, or of a string. The memory is only read.
fn source_next<M: Memory>(
    chart: &Chart<'_>,
    source: Source,
    at: usize,
    memory: &mut M,
) -> Result<Next, AllocError>
    requires sound { IsSound (M.heap memory.old) }
    requires held { (size : ℕ) × IsSourceAt (M.heap memory.old) size source at }
    ensures heap { M.heap memory.new ≡ M.heap memory.old }
    ensures grants { M.grants memory.new ≡ M.grants memory.old }
    ensures next { (names : List (List ℕ)) (s : Store) → Shows (M.heap memory.old) names s
        → IsSourceWithin (birth_at (M.heap memory.old)) s source
        → IfOk result (λ next. next_shown next ≡ spec.frame_next (chart_of chart.now) s
        (text_frame (source_of (birth_at (M.heap memory.old)) source) at)) }
{
    match source {
        Source::Program => program_next(chart, at),
        Source::Text(part) => part_next(chart, part, at, memory),
    }
}

/// The next element of a procedure. The memory is only read.
fn element_next<M: Memory>(
    chart: &Chart<'_>,
    rest: Part,
    runtime: &mut Runtime<M>,
) -> Result<Next, AllocError>
    requires sound { IsSound (M.heap runtime.old.memory) }
    requires held { IsFrame (M.heap runtime.old.memory) 0 (Frame.Procedure rest) }
    ensures heap { M.heap runtime.new.memory ≡ M.heap runtime.old.memory }
    ensures grants { M.grants runtime.new.memory ≡ M.grants runtime.old.memory }
    ensures shared { runtime.new.shared ≡ runtime.old.shared }
    ensures next { (s : Store) → Shows (M.heap runtime.old.memory) runtime.old.shared.names s
        → IfOk result (λ next. next_shown next ≡ spec.frame_next (chart_of chart.now) s
        (frame_of (birth_at (M.heap runtime.old.memory)) runtime.old.shared.names
        (Frame.Procedure rest))) }
{
    let birth = birth_of(&mut runtime.memory, rest.address);
    let word = element(&mut runtime.memory, rest, 0);
    let value = full_text_of(chart.alloc, word, runtime)?;
    Ok(Next {
        coming: Coming::Value,
        value,
        position: element_position(chart, birth, rest.offset as usize),
    })
}

/// A step by a frame. The memory is only read. Fails where a growth is refused.
fn frame_next<M: Memory>(
    chart: &Chart<'_>,
    frame: Frame,
    runtime: &mut Runtime<M>,
) -> Result<Next, AllocError>
    requires sound { IsSound (M.heap runtime.old.memory) }
    requires held { (size : ℕ) × IsFrame (M.heap runtime.old.memory) size frame }
    ensures heap { M.heap runtime.new.memory ≡ M.heap runtime.old.memory }
    ensures grants { M.grants runtime.new.memory ≡ M.grants runtime.old.memory }
    ensures shared { runtime.new.shared ≡ runtime.old.shared }
    ensures next { (s : Store) → Shows (M.heap runtime.old.memory) runtime.old.shared.names s
        → IsFrameWithin (birth_at (M.heap runtime.old.memory)) runtime.old.shared.names s frame
        → IfOk result (λ next. next_shown next ≡ spec.frame_next (chart_of chart.now) s
        (frame_of (birth_at (M.heap runtime.old.memory)) runtime.old.shared.names frame)) }
{
    match frame {
        Frame::Text { source, at } => source_next(chart, source, at, &mut runtime.memory),
        Frame::Procedure { rest } => element_next(chart, rest, runtime),
        Frame::Pending { word } => {
            let value = full_text_of(chart.alloc, word, runtime)?;
            Ok(Next {
                coming: Coming::Value,
                value,
                position: None,
            })
        }
        _ => {
            let view = view_of(frame, &mut runtime.memory);
            Ok(bare(chart.alloc, Coming::Turn(frame_line(chart, view))))
        }
    }
}

/// A step of a running context. The memory is only read.
fn running_next<M: Memory>(
    chart: &Chart<'_>,
    frames: &Frames,
    runtime: &mut Runtime<M>,
) -> Result<Next, AllocError>
    requires sound { IsSound (M.heap runtime.old.memory) }
    requires held { (size : ℕ) × AreFrames (M.heap runtime.old.memory) size frames.now }
    ensures heap { M.heap runtime.new.memory ≡ M.heap runtime.old.memory }
    ensures grants { M.grants runtime.new.memory ≡ M.grants runtime.old.memory }
    ensures shared { runtime.new.shared ≡ runtime.old.shared }
    ensures next { (s : Store) → Shows (M.heap runtime.old.memory) runtime.old.shared.names s
        → AreFramesWithin (M.heap runtime.old.memory) runtime.old.shared.names s frames.now
        → IfOk result (λ next. next_shown next ≡ spec.running_next (chart_of chart.now) s
        (frames_in (M.heap runtime.old.memory) runtime.old.shared.names frames.now)) }
{
    match frames.top() {
        Some(frame) => frame_next(chart, frame, runtime),
        None => Ok(bare(chart.alloc, Coming::Nothing)),
    }
}

/// A step of an unwinding. The memory is only read.
fn unwinding_next<M: Memory>(chart: &Chart<'_>, frames: &Frames, memory: &mut M) -> Next
    requires sound { IsSound (M.heap memory.old) }
    requires held { (size : ℕ) × AreFrames (M.heap memory.old) size frames.now }
    ensures heap { M.heap memory.new ≡ M.heap memory.old }
    ensures grants { M.grants memory.new ≡ M.grants memory.old }
    ensures next { (names : List (List ℕ)) → next_shown result
        ≡ spec.unwinding_next (chart_of chart.now)
        (frames_in (M.heap memory.old) names frames.now) }
{
    match frames.top() {
        Some(frame) => {
            let view = view_of(frame, memory);
            bare(chart.alloc, Coming::Unwinding(frame_line(chart, view)))
        }
        None => bare(chart.alloc, Coming::Unwound),
    }
}

/// A call that is tried again.
fn tried_next(operands: &Operands) -> Coming
    ensures { (h : Heap) (names : List (List ℕ))
        → result ≡ spec.tried_next (values_in h names operands.now) }
{
    match operands.top() {
        Some(top) => {
            if integer_of(top).is_some() {
                Coming::Joining
            } else {
                Coming::Entering
            }
        }
        None => Coming::Joining,
    }
}

/// What the next step of a context does. The memory is only read. Fails where a growth is refused.
#[tactic(auto, unfolding(crate::specs::Next::next_of))]
pub(crate) fn next_of<M: Memory>(
    chart: &Chart<'_>,
    member: &Member,
    runtime: &mut Runtime<M>,
) -> Result<Next, AllocError>
    requires sound { IsSound (M.heap runtime.old.memory) }
    requires held { IsMemberHeld (M.heap runtime.old.memory) member.now }
    ensures heap { M.heap runtime.new.memory ≡ M.heap runtime.old.memory }
    ensures grants { M.grants runtime.new.memory ≡ M.grants runtime.old.memory }
    ensures shared { runtime.new.shared ≡ runtime.old.shared }
    ensures next { (s : Store)
        → IsMemberShown (M.heap runtime.old.memory) runtime.old.shared.names s member.now
        → IfOk result (λ next. next_shown next ≡ spec.next_of (chart_of chart.now) s
        (context_of (M.heap runtime.old.memory) runtime.old.shared.names member.now)) }
{
    match member.course {
        Course::Running => running_next(chart, &member.context.frames, runtime),
        Course::Unwinding(_) => {
            Ok(unwinding_next(chart, &member.context.frames, &mut runtime.memory))
        }
        Course::Again => Ok(bare(chart.alloc, tried_next(&member.context.operands))),
        Course::Waiting {
            lock: _,
            condition: _,
        } => Ok(bare(chart.alloc, Coming::Nothing)),
        Course::Retaking { lock: _ } => Ok(bare(chart.alloc, Coming::Retaking)),
        Course::Finished => Ok(bare(chart.alloc, Coming::Nothing)),
    }
}
