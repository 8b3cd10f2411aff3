//! Whether a context may go on, and what it waits for.

ghost use Rattle.std.specs.Prelude.{◌≡◌, ◌^◌, ◌<◌, ℕ, ℤ, List, if◌then◌else◌};
ghost use Rattle.ps_language.specs.Contexts as language;
ghost use Rattle.ps_language.specs.Value.{Store};
ghost use Rattle.ps_language.specs.declared.kinds.Kind.TheVariants.{Lock as LockKind};
ghost use Rattle.ps_mem.specs.Heap.{birth_at};
ghost use Rattle.ps_mem.specs.References.{StandsAs};
ghost use Rattle.ps_mem.specs.Shows.{AreValues, IsSound, Shows};
ghost use Rattle.ps_ops_operands.specs.Changes.{values_in};
ghost use Rattle.ps_ctx_table.specs.Desks.{IsCourseHeld};
ghost use Rattle.ps_ctx_table.specs.Worlds.{context_of, status_of};
ghost use Rattle.ps_states.specs.Held.{IsMemberHeld};
ghost use Rattle.ps_states.specs.Statuses as statuses;
ghost use Rattle.ps_views.specs.declared.states.StatusLine.TheVariants as lines;

use ps_ctx_operators::locks::owner;
use ps_ctx_operators::readers::lock_of;
use ps_ctx_readers::births::birth_of;
use ps_ctx_table::members::{Course, Member};
use ps_mem::Memory;
use ps_ops_operands::Operands;
use ps_ops_operands::readers::integer_of;
use ps_views::StatusLine;

/// Who has a lock; 0 where it is free. The memory is only read.
fn owner_or_none<M: Memory>(lock: u32, memory: &mut M) -> u32
    requires sound { IsSound (M.heap memory.old) }
    requires known { StandsAs (M.heap memory.old) LockKind lock 1 }
    ensures heap { M.heap memory.new ≡ M.heap memory.old }
    ensures grants { M.grants memory.new ≡ M.grants memory.old }
    ensures owner { (names : List (List ℕ)) (s : Store) → Shows (M.heap memory.old) names s
        → result ≡ statuses.owner_or_none s (birth_at (M.heap memory.old) lock) }
{
    owner(memory, lock)
}

/// The identifier that an integer is.
fn identifier_of(number: i32) -> u32
    ensures { result ≡ language.identifier_of number }
{
    u32::try_from(number).unwrap_or(0)
}

/// The lock that a call of `monitor` waits for. The memory is only read.
fn lock_line<M: Memory>(operands: &Operands, memory: &mut M) -> StatusLine
    requires sound { IsSound (M.heap memory.old) }
    requires held { AreValues (M.heap memory.old) operands.now }
    ensures heap { M.heap memory.new ≡ M.heap memory.old }
    ensures grants { M.grants memory.new ≡ M.grants memory.old }
    ensures line { (names : List (List ℕ)) (s : Store) → Shows (M.heap memory.old) names s
        → result ≡ statuses.lock_line s
        (statuses.lock_below (values_in (M.heap memory.old) names operands.now)) }
{
    let Some((_body, second)) = operands.top_two() else {
        return StatusLine::InMonitor { lock: 0, owner: 0 };
    };
    match lock_of(second) {
        Some(lock) => StatusLine::InMonitor {
            lock: birth_of(memory, lock),
            owner: owner_or_none(lock, memory),
        },
        None => StatusLine::InMonitor { lock: 0, owner: 0 },
    }
}

/// What is waited for in a call that is tried again. The memory is only read.
fn tried_line<M: Memory>(operands: &Operands, memory: &mut M) -> StatusLine
    requires sound { IsSound (M.heap memory.old) }
    requires held { AreValues (M.heap memory.old) operands.now }
    ensures heap { M.heap memory.new ≡ M.heap memory.old }
    ensures grants { M.grants memory.new ≡ M.grants memory.old }
    ensures line { (names : List (List ℕ)) (s : Store) → Shows (M.heap memory.old) names s
        → result ≡ statuses.tried_line s (values_in (M.heap memory.old) names operands.now) }
{
    let Some(top) = operands.top() else {
        return StatusLine::InJoin { context: 0 };
    };
    match integer_of(top) {
        Some(number) => StatusLine::InJoin {
            context: identifier_of(number),
        },
        None => lock_line(operands, memory),
    }
}

/// What a context waits for that may not go on. The memory is only read.
fn waiting_line<M: Memory>(operands: &Operands, course: Course, memory: &mut M) -> StatusLine
    requires sound { IsSound (M.heap memory.old) }
    requires operands { AreValues (M.heap memory.old) operands.now }
    requires course { IsCourseHeld (M.heap memory.old) course }
    ensures heap { M.heap memory.new ≡ M.heap memory.old }
    ensures grants { M.grants memory.new ≡ M.grants memory.old }
    ensures line { (names : List (List ℕ)) (s : Store) → Shows (M.heap memory.old) names s
        → result ≡ statuses.waiting_line s (values_in (M.heap memory.old) names operands.now)
        (status_of (birth_at (M.heap memory.old)) course) }
{
    match course {
        Course::Running | Course::Unwinding(_) => StatusLine::Ready,
        Course::Again => tried_line(operands, memory),
        Course::Waiting { lock, condition } => StatusLine::ForCondition {
            condition: birth_of(memory, condition),
            lock: birth_of(memory, lock),
        },
        Course::Retaking { lock } => StatusLine::Notified {
            lock: birth_of(memory, lock),
            owner: owner_or_none(lock, memory),
        },
        Course::Finished => StatusLine::Finished,
    }
}

/// Whether a context may go on, and what it waits for. The memory is only read.
#[tactic(auto, unfolding(crate::specs::Statuses::status_line))]
pub(crate) fn status_line<M: Memory>(is_ready: bool, member: &Member, memory: &mut M) -> StatusLine
    requires sound { IsSound (M.heap memory.old) }
    requires held { IsMemberHeld (M.heap memory.old) member.now }
    ensures heap { M.heap memory.new ≡ M.heap memory.old }
    ensures grants { M.grants memory.new ≡ M.grants memory.old }
    ensures line { (names : List (List ℕ)) (s : Store) → Shows (M.heap memory.old) names s
        → result ≡ statuses.status_line s is_ready
        (context_of (M.heap memory.old) names member.now) }
{
    if is_ready {
        return StatusLine::Ready;
    }
    waiting_line(&member.context.operands, member.course, memory)
}
