//! What each operator on contexts, locks and memory does to the world is what its caller's part
//! leaves, and what is done to other contexts.

ghost use Rattle.std.specs.Prelude.{◌≡◌, ◌==◌, Bool, not, length, if◌then◌else◌};
ghost use Rattle.ps_language.specs.Contexts.{currentcontext_row, vmstatus_row, vmreclaim_row};
ghost use Rattle.ps_language.specs.Contexts.{new_row, fork_row, join_row, detach_row};
ghost use Rattle.ps_language.specs.Contexts.{named_context, is_finished, with_detached};
ghost use Rattle.ps_language.specs.Contexts.{without_context, doing};
ghost use Rattle.ps_language.specs.Effect.{Call, nothing, turn_ends, shows_memory, wishes, does};
ghost use Rattle.ps_language.specs.Effect.{waits};
ghost use Rattle.ps_language.specs.Locks.{monitor_row, wait_row, notify_row, with_notified};
ghost use Rattle.ps_language.specs.Locks.{is_wait};
ghost use Rattle.ps_language.specs.Outcome.{leaves, given, given_that, and_then};
ghost use Rattle.ps_language.specs.Value.{Object};
ghost use Rattle.ps_language.specs.World.{waiting};
ghost use Rattle.ps_language.specs.declared.errors.ErrorName.TheVariants.{InvalidContext};
ghost use Rattle.ps_language.specs.declared.errors.ErrorName.TheVariants.{TypeCheck};
ghost use Rattle.ps_ctx_operators.specs.Deeds.{scene_at, part_at, with_scene_as, with_scene_of};
ghost use Rattle.ps_ctx_operators.specs.Deeds.{after_part, scene_deed, free_seat};
ghost use Rattle.ps_ctx_operators.specs.Deeds.{with_context_more, forked};
ghost use Rattle.ps_ctx_operators.specs.Rows as rows;

/// The deed of each operator, by the row of its caller's part.
pub fn deed_laws()
    // The caller alone is changed.
    ensures currentcontext { (call : Call) → currentcontext_row call.context.operands call
        ≡ scene_deed nothing call (part_at call (rows.currentcontext_caller call.caller)) }
    ensures vmstatus { (call : Call) → vmstatus_row call.context.operands call
        ≡ scene_deed shows_memory call (part_at call (rows.vmstatus_caller call.shown)) }
    ensures vmreclaim { (call : Call) → vmreclaim_row call.context.operands call
        ≡ after_part (part_at call rows.vmreclaim_caller) λ scene.
        given (rows.wished call.context.operands) TypeCheck λ number.
        leaves (does (wishes number) (with_scene_of call scene)) }
    ensures new { (object : Object) (call : Call) → new_row object call.context.operands call
        ≡ scene_deed nothing call (part_at call (rows.new_caller object)) }
    // A caller that waits is as it was, and tries again.
    ensures monitor { (call : Call) → monitor_row call.context.operands call
        ≡ (if rows.is_waiting (rows.monitor_part call.caller call.context.operands (scene_at call))
        then leaves waits
        else scene_deed nothing call (part_at call (rows.monitor_caller call.caller))) }
    ensures waits { (call : Call) → is_wait (monitor_row call.context.operands call)
        ≡ rows.is_waiting (rows.monitor_part call.caller call.context.operands (scene_at call)) }
    // A condition is waited for, or all who wait for it are told.
    ensures wait { (call : Call) → wait_row call.context.operands call
        ≡ after_part (part_at call (rows.wait_caller call.caller)) λ scene.
        given (rows.waited call.context.operands) TypeCheck λ both.
        leaves (does turn_ends (with_scene_as (waiting both.0 both.1) call scene)) }
    ensures notify { (call : Call) → notify_row call.context.operands call
        ≡ after_part (part_at call rows.notify_caller) λ scene.
        given (rows.notified_condition call.context.operands) TypeCheck λ condition.
        doing (with_notified condition (with_scene_of call scene)) }
    // Another context begins, ends, or is left by itself.
    ensures fork { (call : Call) → fork_row call.context.operands call
        ≡ after_part (part_at call (rows.fork_caller (free_seat call.world))) λ scene.
        given (forked call.context call.context.operands (length call.world.store)) TypeCheck
        λ context. doing (with_context_more context (with_scene_of call scene)) }
    ensures join { (call : Call) → join_row call.context.operands call
        ≡ and_then (rows.identifier_operand call.context.operands) λ identifier.
        given (named_context identifier call.world) InvalidContext λ other.
        given_that (not (identifier == call.caller)) InvalidContext
        (if is_finished other.status then
        after_part (part_at call (rows.join_caller other.operands))
        (λ scene. doing (without_context identifier (with_scene_of call scene)))
        else leaves waits) }
    ensures detach { (call : Call) → detach_row call.context.operands call
        ≡ and_then (rows.identifier_operand call.context.operands) λ identifier.
        given (named_context identifier call.world) InvalidContext λ other.
        after_part (part_at call rows.detach_caller) λ scene.
        doing (with_detached identifier (with_scene_of call scene)) }
{}
