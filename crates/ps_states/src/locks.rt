//! The locks that contexts have, and their lines.

ghost use Rattle.std.specs.Prelude.{◌≡◌, ◌++◌, ◌^◌, ◌<◌, ℕ, List, IfOk, OnOk};
ghost use Rattle.std.specs.List.{flat_map};
ghost use Rattle.ps_language.specs.Value.{Store};
ghost use Rattle.ps_mem.specs.Heap.{birth_at};
ghost use Rattle.ps_mem.specs.Shows.{IsSound, Shows};
ghost use Rattle.ps_ops_control.specs.Frames.{AreFrames, IsFrame, frame_of};
ghost use Rattle.ps_ctx_table.specs.Worlds.{context_of};
ghost use Rattle.ps_views.specs.States.{lock_text};
ghost use Rattle.ps_states.specs.Held.{IsMemberHeld};
ghost use Rattle.ps_states.specs.States as states;

use ps_ctx_operators::locks::owner;
use ps_ctx_readers::births::birth_of;
use ps_ctx_table::members::Member;
use ps_mem::Memory;
use ps_ops_control::frames::Frame;
use ps_views::append_lock;
use std::alloc::{AllocError, Global};

/// Pushes the birth number of the lock of a frame, where the context has it. The memory is only
/// read. Fails where a growth is refused.
fn push_held<M: Memory>(
    identifier: u32,
    frame: Frame,
    memory: &mut M,
    locks: &mut Vec<u64>,
) -> Result<(), AllocError>
    requires sound { IsSound (M.heap memory.old) }
    requires held { (size : ℕ) × IsFrame (M.heap memory.old) size frame }
    ensures heap { M.heap memory.new ≡ M.heap memory.old }
    ensures grants { M.grants memory.new ≡ M.grants memory.old }
    ensures lock { (names : List (List ℕ)) (s : Store) → Shows (M.heap memory.old) names s
        → OnOk result (locks.new.items ≡ locks.old.items ++ states.held_lock s identifier
        (frame_of (birth_at (M.heap memory.old)) names frame)) }
{
    let Frame::Monitor { lock } = frame else {
        return Ok(());
    };
    let has = owner(memory, lock);
    if has == 0 || has != identifier {
        return Ok(());
    }
    locks.push(birth_of(memory, lock))?;
    Ok(())
}

/// The birth numbers of the locks that a context has, the outermost first. The memory is only read.
/// Fails where a growth is refused.
pub(crate) fn locks_of<M: Memory>(
    alloc: Global,
    identifier: u32,
    member: &Member,
    memory: &mut M,
) -> Result<Vec<u64>, AllocError>
    requires sound { IsSound (M.heap memory.old) }
    requires held { IsMemberHeld (M.heap memory.old) member.now }
    ensures heap { M.heap memory.new ≡ M.heap memory.old }
    ensures grants { M.grants memory.new ≡ M.grants memory.old }
    ensures locks { (names : List (List ℕ)) (s : Store) → Shows (M.heap memory.old) names s
        → IfOk result (λ locks. locks.items ≡ states.locks_of s identifier
        (context_of (M.heap memory.old) names member.now)) }
{
    let mut locks = Vec::new(alloc);
    let frames = &member.context.frames;
    let held = frames.topmost(frames.len());
    for frame in held {
        push_held(identifier, *frame, memory, &mut locks)?;
    }
    Ok(locks)
}

/// Appends the lines of locks that a context has. Fails where a growth is refused.
fn append_held(identifier: u32, locks: &[u64], to: &mut Vec<u8>) -> Result<(), AllocError>
    ensures { OnOk result (to.new.items ≡ to.old.items
        ++ flat_map (λ lock. lock_text lock identifier) locks.now) }
{
    for lock in locks {
        append_lock(*lock, identifier, to)?;
    }
    Ok(())
}

/// Appends the lines of the locks that a context has, the outermost first. The memory is only read.
/// Fails where a growth is refused.
pub(crate) fn append_locks<M: Memory>(
    alloc: Global,
    identifier: u32,
    member: &Member,
    memory: &mut M,
    to: &mut Vec<u8>,
) -> Result<(), AllocError>
    requires sound { IsSound (M.heap memory.old) }
    requires held { IsMemberHeld (M.heap memory.old) member.now }
    ensures heap { M.heap memory.new ≡ M.heap memory.old }
    ensures grants { M.grants memory.new ≡ M.grants memory.old }
    ensures lines { (names : List (List ℕ)) (s : Store) → Shows (M.heap memory.old) names s
        → OnOk result (to.new.items ≡ to.old.items ++ states.lock_lines s identifier
        (context_of (M.heap memory.old) names member.now)) }
{
    let locks = locks_of(alloc, identifier, member, memory)?;
    append_held(identifier, locks.as_slice(), to)
}
