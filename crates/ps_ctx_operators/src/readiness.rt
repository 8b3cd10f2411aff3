//! Which contexts may step: those that wait for nothing (PLRM2, 7.1).

ghost use Rattle.std.specs.Prelude.{◌≡◌, ℕ, List};
ghost use Rattle.ps_language.specs.Effect.{Call, Scene};
ghost use Rattle.ps_language.specs.Locks.{is_ready, is_wait, retried};
ghost use Rattle.ps_language.specs.World.{World};
ghost use Rattle.ps_mem.specs.Shows.{AreValues, IsSound, Shows};
ghost use Rattle.ps_ops_operands.specs.Changes.{values_in};
ghost use Rattle.ps_ctx_operators.specs.Rows.{is_waiting, monitor_part};
ghost use Rattle.ps_ctx_table.specs.Desks.{IsSteady, IsWorld};
ghost use Rattle.ps_ctx_table.specs.Worlds.{contexts_in};
ghost use Rattle.ps_ctx.specs.Calls.{over_of};

use crate::join_waits::join_waits;
use crate::locks::owner;
use crate::readers::lock_of;
use ps_ctx_table::contexts::Contexts;
use ps_ctx_table::members::Course;
use ps_mem::Memory;
use ps_ops_control::readers::procedure_of;
use ps_ops_operands::Operands;
use ps_ops_operands::access::is_executable;
use ps_ops_state::lent::Runtime;
use ps_word::values::Content;

/// Whether `monitor` with these operands waits: nothing is wrong with them, and the lock is
/// another's. The memory is only read.
fn monitor_waits<M: Memory>(caller: u32, operands: &Operands, memory: &mut M) -> bool
    requires sound { IsSound (M.heap memory.old) }
    requires values { AreValues (M.heap memory.old) operands.now }
    ensures heap { M.heap memory.new ≡ M.heap memory.old }
    ensures grants { M.grants memory.new ≡ M.grants memory.old }
    ensures waits { (names : List (List ℕ)) (scene : Scene)
        → Shows (M.heap memory.old) names scene.store → result ≡ is_waiting
        (monitor_part caller (values_in (M.heap memory.old) names operands.now) scene) }
{
    let Some((top, second)) = operands.top_two() else {
        return false;
    };
    let Some(body) = procedure_of(top) else {
        return false;
    };
    let Some(lock) = lock_of(second) else {
        return false;
    };
    if !is_executable(body.access) {
        return false;
    }
    let owned_by = owner(memory, lock);
    owned_by != 0 && owned_by != caller
}

/// Whether what is tried again with these operands waits again: `join` with an identifier on top,
/// `monitor` with anything else. The memory is only read.
#[inline(never)]
fn waits_again<M: Memory>(
    caller: u32,
    operands: &Operands,
    contexts: &Contexts,
    memory: &mut M,
) -> bool
    requires sound { IsSound (M.heap memory.old) }
    requires values { AreValues (M.heap memory.old) operands.now }
    ensures heap { M.heap memory.new ≡ M.heap memory.old }
    ensures grants { M.grants memory.new ≡ M.grants memory.old }
    ensures waits { (names : List (List ℕ)) (call : Call) → call.caller ≡ caller
        → Shows (M.heap memory.old) names call.world.store
        → call.world.contexts ≡ contexts_in (M.heap memory.old) names contexts.now.table
        → result ≡ is_wait
        ((retried (values_in (M.heap memory.old) names operands.now)).deed
        (values_in (M.heap memory.old) names operands.now) call) }
{
    let Some(top) = operands.top() else {
        return false;
    };
    match top.content() {
        Content::Integer(_) => join_waits(caller, operands, contexts),
        _ => monitor_waits(caller, operands, memory),
    }
}

/// Whether the context of an identifier may step: one that runs or is unwinding, one whose
/// `monitor` or `join` wouldn't wait now, or one whose lock is free. The memory is only read.
#[inline(always)]
pub fn is_ready<M: Memory>(identifier: u32, contexts: &Contexts, runtime: &mut Runtime<M>) -> bool
    requires steady { IsSteady (over_of M.heap M.grants runtime.old contexts.now) }
    ensures heap { M.heap runtime.new.memory ≡ M.heap runtime.old.memory }
    ensures grants { M.grants runtime.new.memory ≡ M.grants runtime.old.memory }
    ensures shared { runtime.new.shared ≡ runtime.old.shared }
    ensures ready { (w : World)
        → IsWorld (over_of M.heap M.grants runtime.old contexts.now) w
        → result ≡ is_ready w identifier }
{
    let Some(member) = contexts.table.get(identifier) else {
        return false;
    };
    match member.course {
        Course::Running => true,
        Course::Unwinding(_) => true,
        Course::Again => !waits_again(
            identifier,
            &member.context.operands,
            contexts,
            &mut runtime.memory,
        ),
        Course::Waiting { .. } => false,
        Course::Retaking { lock } => owner(&mut runtime.memory, lock) == 0,
        Course::Finished => false,
    }
}
