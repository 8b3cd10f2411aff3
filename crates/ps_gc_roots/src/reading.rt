//! The roots of contexts are read into a list that a caller has made: none of it takes memory.

ghost use Rattle.std.specs.Prelude.{◌≡◌, ◌+◌, ◌≤◌, [], ◌∷◌, ◌++◌, flat_map, vec_len, vec_capacity};
ghost use Rattle.std.specs.List.{AllByRecursion};
ghost use Rattle.ps_language.specs.Limits.{operand_limit};
ghost use Rattle.ps_word.specs.Format.{IsContent};
ghost use Rattle.ps_gc_roots.specs.Formats.{AreInFormat, IsCourseInFormat, IsFrameInFormat};
ghost use Rattle.ps_gc_roots.specs.Formats.{IsMemberInFormat};
ghost use Rattle.ps_gc_roots.specs.Roots.{literal, roots_in, roots_of_course, roots_of_frame};
ghost use Rattle.ps_gc_roots.specs.Roots.{roots_of_member};

use ps_ctx_table::contexts::Contexts;
use ps_ctx_table::members::{Course, Member};
use ps_ctx_table::table::CONTEXT_LIMIT;
use ps_ops_control::frames::{Frame, Frames, Source};
use ps_stacks::{DICTIONARY_LIMIT, FRAME_LIMIT, OPERAND_LIMIT, Stack};
use ps_word::values::Content;
use ps_word::words::Word;

/// How many roots one context has at most: each frame has two, and beside the stacks there are
/// `$error` and what the context waits for.
const MEMBER_LIMIT: usize = OPERAND_LIMIT + DICTIONARY_LIMIT + 2 * FRAME_LIMIT + 3;

/// How many roots all contexts have at most.
pub const ROOT_LIMIT: usize = CONTEXT_LIMIT * MEMBER_LIMIT;

/// Adds the literal word of a content.
#[inline]
fn read_content(content: Content, roots: &mut Vec<Word>)
    requires format { IsContent content }
    requires room { vec_len roots.old + 1 ≤ vec_capacity roots.old }
    ensures roots { roots.new.items ≡ roots.old.items ++ literal content ∷ [] }
    ensures longer { vec_len roots.new ≡ vec_len roots.old + 1 }
    ensures capacity { vec_capacity roots.new ≡ vec_capacity roots.old }
{
    roots.push_reserved(Word::literal(content));
}

/// Adds the words of a stack, the topmost first.
fn read_words<const LIMIT: usize>(words: &Stack<Word, LIMIT>, roots: &mut Vec<Word>)
    requires room { vec_len roots.old + LIMIT ≤ vec_capacity roots.old }
    ensures roots { roots.new.items ≡ roots.old.items ++ words.now }
    ensures longer { vec_len roots.new ≤ vec_len roots.old + LIMIT }
    ensures capacity { vec_capacity roots.new ≡ vec_capacity roots.old }
{
    for depth in 0..words.len() {
        let Some(word) = words.peek(depth) else {
            unreachable!()
        };
        roots.push_reserved(word);
    }
}

/// Adds the roots of a frame.
fn read_frame(frame: Frame, roots: &mut Vec<Word>)
    requires format { IsFrameInFormat frame }
    requires room { vec_len roots.old + 2 ≤ vec_capacity roots.old }
    ensures roots { roots.new.items ≡ roots.old.items ++ roots_of_frame frame }
    ensures longer { vec_len roots.new ≤ vec_len roots.old + 2 }
    ensures capacity { vec_capacity roots.new ≡ vec_capacity roots.old }
{
    match frame {
        Frame::Text {
            source: Source::Program,
            ..
        }
        | Frame::Stopped => {}
        Frame::Text {
            source: Source::Text(part),
            ..
        } => read_content(Content::Text(part), roots),
        Frame::Procedure { rest } => read_content(Content::Array(rest), roots),
        Frame::Pending { word } => roots.push_reserved(word),
        Frame::Repeat { body, .. } | Frame::Loop { body } | Frame::For { body, .. } => {
            read_content(Content::Array(body), roots);
        }
        Frame::Forall { over, body, .. } => {
            roots.push_reserved(over);
            read_content(Content::Array(body), roots);
        }
        Frame::Monitor { lock } => read_content(Content::Lock(lock), roots),
        Frame::Bind { over, .. } => read_content(Content::Array(over), roots),
    }
}

/// Adds the roots of frames, those of the topmost first.
fn read_frames(frames: &Frames, roots: &mut Vec<Word>)
    requires format { AllByRecursion IsFrameInFormat frames.now }
    requires room { vec_len roots.old + operand_limit ≤ vec_capacity roots.old }
    ensures roots { roots.new.items ≡ roots.old.items ++ flat_map roots_of_frame frames.now }
    ensures longer { vec_len roots.new ≤ vec_len roots.old + operand_limit }
    ensures capacity { vec_capacity roots.new ≡ vec_capacity roots.old }
{
    for depth in 0..frames.len() {
        let Some(frame) = frames.peek(depth) else {
            unreachable!()
        };
        read_frame(frame, roots);
    }
}

/// Adds the lock and the condition that a context waits for.
fn read_course(course: Course, roots: &mut Vec<Word>)
    requires format { IsCourseInFormat course }
    requires room { vec_len roots.old + 2 ≤ vec_capacity roots.old }
    ensures roots { roots.new.items ≡ roots.old.items ++ roots_of_course course }
    ensures longer { vec_len roots.new ≤ vec_len roots.old + 2 }
    ensures capacity { vec_capacity roots.new ≡ vec_capacity roots.old }
{
    match course {
        Course::Running | Course::Unwinding(_) | Course::Again | Course::Finished => {}
        Course::Waiting { lock, condition } => {
            read_content(Content::Lock(lock), roots);
            read_content(Content::Condition(condition), roots);
        }
        Course::Retaking { lock } => read_content(Content::Lock(lock), roots),
    }
}

/// Adds the roots of a context.
fn read_member(member: &Member, roots: &mut Vec<Word>)
    requires format { IsMemberInFormat member.now }
    requires room { vec_len roots.old + MEMBER_LIMIT ≤ vec_capacity roots.old }
    ensures roots { roots.new.items ≡ roots.old.items ++ roots_of_member member.now }
    ensures longer { vec_len roots.new ≤ vec_len roots.old + MEMBER_LIMIT }
    ensures capacity { vec_capacity roots.new ≡ vec_capacity roots.old }
{
    read_words(&member.context.operands, roots);
    read_words(&member.context.dictionaries, roots);
    read_frames(&member.context.frames, roots);
    read_content(Content::Dictionary(member.context.error_dictionary), roots);
    read_course(member.course, roots);
}

/// Reads the roots of all contexts, by identifiers, in the place of what a list holds, which has
/// room for `ROOT_LIMIT` of them.
pub fn read_roots(contexts: &Contexts, roots: &mut Vec<Word>)
    requires format { AreInFormat contexts.now.table }
    requires room { ROOT_LIMIT ≤ vec_capacity roots.old }
    ensures roots { roots.new.items ≡ roots_in contexts.now.table }
    ensures few { vec_len roots.new ≤ ROOT_LIMIT }
    ensures capacity { vec_capacity roots.new ≡ vec_capacity roots.old }
{
    let left = contexts.table.left();
    prove!(left <= CONTEXT_LIMIT);
    roots.clear();
    for member in contexts.table.items() {
        read_member(member, roots);
    }
}
