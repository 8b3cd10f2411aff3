//! The roots of contexts are written back from a list, in the order in which they were read.

ghost use Rattle.std.specs.Prelude.{◌≡◌, ◌+◌, ◌≤◌, flat_map, length, map, take};
ghost use Rattle.ps_word.specs.Format.{address_in};
ghost use Rattle.ps_gc_roots.specs.Renamed.{BeginWith, Renaming, renamed_context, renamed_course};
ghost use Rattle.ps_gc_roots.specs.Renamed.{renamed_frame, renamed_member, renamed_members};
ghost use Rattle.ps_gc_roots.specs.Roots.{roots_in, roots_of_context, roots_of_course, roots_of_frame};
ghost use Rattle.ps_gc_roots.specs.Roots.{roots_of_member};

use ps_ctx_table::contexts::Contexts;
use ps_ctx_table::members::{Course, Member};
use ps_ctx_table::table::Table;
use ps_ops_control::frames::{Frame, Frames, Source};
use ps_ops_state::lent::Context;
use ps_stacks::{FRAME_LIMIT, Stack};
use ps_word::values::Part;
use ps_word::words::Word;

/// A part of the object that a root names.
#[inline]
fn led(part: Part, root: Word) -> Part
    ensures { result ≡ record part { address = address_in root.0 } }
{
    Part {
        address: root.low_address(),
        ..part
    }
}

/// Puts other words in the place of those of a stack, the topmost first, and tells how many they
/// are.
fn write_words<const LIMIT: usize>(words: &mut Stack<Word, LIMIT>, roots: &[Word]) -> usize
    requires { length words.old ≤ length roots.now }
    ensures count { result ≡ length words.old }
    ensures words { words.new ≡ take (length words.old) roots.now }
{
    let count = words.len();
    words.clear();
    for place in (0..count).rev() {
        words.push_reserved(roots[place]);
    }
    count
}

/// How many roots a frame has.
fn count_of(frame: Frame) -> usize
    ensures count { result ≡ length (roots_of_frame frame) }
    ensures within { result ≤ 2 }
{
    match frame {
        Frame::Text {
            source: Source::Program,
            ..
        }
        | Frame::Stopped => 0,
        Frame::Forall { .. } => 2,
        _ => 1,
    }
}

/// A frame whose roots are these.
fn write_frame(frame: Frame, roots: &[Word]) -> Frame
    requires { length (roots_of_frame frame) ≤ length roots.now }
    ensures { (rename : Renaming) → BeginWith rename (roots_of_frame frame) roots.now
        → result ≡ renamed_frame rename frame }
{
    match frame {
        Frame::Text {
            source: Source::Program,
            ..
        }
        | Frame::Stopped => frame,
        Frame::Text {
            source: Source::Text(part),
            at,
        } => Frame::Text {
            source: Source::Text(led(part, roots[0])),
            at,
        },
        Frame::Procedure { rest } => Frame::Procedure {
            rest: led(rest, roots[0]),
        },
        Frame::Pending { word: _ } => Frame::Pending { word: roots[0] },
        Frame::Repeat { count, body } => Frame::Repeat {
            count,
            body: led(body, roots[0]),
        },
        Frame::Loop { body } => Frame::Loop {
            body: led(body, roots[0]),
        },
        Frame::For {
            control,
            increment,
            limit,
            body,
        } => Frame::For {
            control,
            increment,
            limit,
            body: led(body, roots[0]),
        },
        Frame::Forall { over: _, at, body } => Frame::Forall {
            over: roots[0],
            at,
            body: led(body, roots[1]),
        },
        Frame::Monitor { lock: _ } => Frame::Monitor {
            lock: roots[0].low_address(),
        },
        Frame::Bind { over, at, depth } => Frame::Bind {
            over: led(over, roots[0]),
            at,
            depth,
        },
    }
}

/// Writes the roots of frames, those of the topmost first, and tells how many they are. It calls
/// itself for the frames below, at most 250 deep.
fn write_frames(frames: &mut Frames, roots: &[Word]) -> usize
    requires { length (flat_map roots_of_frame frames.old) ≤ length roots.now }
    ensures count { result ≡ length (flat_map roots_of_frame frames.old) }
    ensures depth { length frames.new ≡ length frames.old }
    ensures renamed { (rename : Renaming)
        → BeginWith rename (flat_map roots_of_frame frames.old) roots.now
        → frames.new ≡ map (renamed_frame rename) frames.old }
{
    let depth = frames.len();
    let Some(frame) = frames.top() else {
        return 0;
    };
    prove!(depth <= FRAME_LIMIT);
    let count = count_of(frame);
    frames.discard(1);
    let below = write_frames(frames, &roots[count..]);
    frames.push_reserved(write_frame(frame, roots));
    count + below
}

/// Writes the roots of a context, without those of what it waits for, and tells how many they are.
fn write_context(context: &mut Context, roots: &[Word]) -> usize
    requires { length (roots_of_context context.old) ≤ length roots.now }
    ensures count { result ≡ length (roots_of_context context.old) }
    ensures renamed { (rename : Renaming)
        → BeginWith rename (roots_of_context context.old) roots.now
        → context.new ≡ renamed_context rename context.old }
{
    let operands = write_words(&mut context.operands, roots);
    let stacks = operands + write_words(&mut context.dictionaries, &roots[operands..]);
    let all = stacks + write_frames(&mut context.frames, &roots[stacks..]);
    context.error_dictionary = roots[all].low_address();
    all + 1
}

/// How many roots there are in what a context waits for.
fn course_count(course: Course) -> usize
    ensures { result ≡ length (roots_of_course course) }
{
    match course {
        Course::Running | Course::Unwinding(_) | Course::Again | Course::Finished => 0,
        Course::Waiting { .. } => 2,
        Course::Retaking { .. } => 1,
    }
}

/// How far a context is that waits for what these roots name.
fn write_course(course: Course, roots: &[Word]) -> Course
    requires { length (roots_of_course course) ≤ length roots.now }
    ensures { (rename : Renaming) → BeginWith rename (roots_of_course course) roots.now
        → result ≡ renamed_course rename course }
{
    match course {
        Course::Running | Course::Unwinding(_) | Course::Again | Course::Finished => course,
        Course::Waiting { .. } => Course::Waiting {
            lock: roots[0].low_address(),
            condition: roots[1].low_address(),
        },
        Course::Retaking { .. } => Course::Retaking {
            lock: roots[0].low_address(),
        },
    }
}

/// Writes the roots of a context, and tells how many they are.
fn write_member(member: &mut Member, roots: &[Word]) -> usize
    requires { length (roots_of_member member.old) ≤ length roots.now }
    ensures count { result ≡ length (roots_of_member member.old) }
    ensures renamed { (rename : Renaming) → BeginWith rename (roots_of_member member.old) roots.now
        → member.new ≡ renamed_member rename member.old }
{
    let held = write_context(&mut member.context, roots);
    let waits = course_count(member.course);
    member.course = write_course(member.course, &roots[held..]);
    held + waits
}

/// Writes the roots of all that are left in a table, by identifiers.
fn write_members(table: &mut Table<Member>, roots: &[Word])
    requires { length (roots_in table.old) ≤ length roots.now }
    ensures { (rename : Renaming) → BeginWith rename (roots_in table.old) roots.now
        → table.new ≡ renamed_members rename table.old }
{
    let mut identifier = 0;
    let mut at = 0;
    while let Some(next) = table.next(identifier) {
        at += write_member(table.get_mut(next), &roots[at..]);
        identifier = next;
    }
}

/// Writes words in the places of the roots of all contexts, as `read_roots` lists them: where each
/// root was renamed, all contexts are as before, with their roots renamed.
pub fn write_roots(contexts: &mut Contexts, roots: &[Word])
    requires { length roots.now ≡ length (roots_in contexts.old.table) }
    ensures table { (rename : Renaming) → roots.now ≡ map rename (roots_in contexts.old.table)
        → contexts.new.table ≡ renamed_members rename contexts.old.table }
    ensures faulted { contexts.new.has_faulted ≡ contexts.old.has_faulted }
{
    write_members(&mut contexts.table, roots);
}
