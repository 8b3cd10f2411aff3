//! What is done over a memory by one context, in the world of all (PLRM2, 7.1).

ghost use Rattle.std.specs.Prelude.{◌≡◌, ℕ, ℤ, Bool, suc, true, not, nat_eq, Option, option_map};
ghost use Rattle.std.specs.Prelude.{Some, Ok, Err, ◌++◌, ◌∷◌, [], None};
ghost use Rattle.ps_language.specs.declared.kinds.Kind.TheVariants.{Condition};
ghost use Rattle.ps_language.specs.Contexts.{named_context, with_context, without_context};
ghost use Rattle.ps_language.specs.Locks.{with_notified};
ghost use Rattle.ps_language.specs.Machines.{turn_as, may_end, settled};
ghost use Rattle.ps_language.specs.Step.{machine_of, with_machine, lifted, after_own, stepped};
ghost use Rattle.ps_language.specs.StepValues.{Turn};
ghost use Rattle.ps_language.specs.Value.{Store};
ghost use Rattle.ps_language.specs.World.{Machine, World};
ghost use Rattle.ps_language.specs.Worlds.{after_moves};
ghost use Rattle.ps_mem.specs.Heap.{birth_at};
ghost use Rattle.ps_mem.specs.Keeps.{Keeps};
ghost use Rattle.ps_mem.specs.References.{StandsAs};
ghost use Rattle.ps_ops_operands.specs.declared.failure.NotMade.{NotMade as AReason};
ghost use Rattle.ps_ops_state.specs.declared.lent.Attempt.{Attempt as AnAttempt};
ghost use Rattle.ps_ops_state.specs.Acts.{Asked, Lasts, Stays};
ghost use Rattle.ps_ops_state.specs.Lent.{Lent, scene_of, around_of, IsShown, IsGood};
ghost use Rattle.ps_step_outcome.specs.declared.turned.Turned.{Turned as ATurned};
ghost use Rattle.ps_step_outcome.specs.declared.turned.Turned.TheVariants.{Goes};
ghost use Rattle.ps_step_outcome.specs.Turns.{Turns, reached_by};
ghost use Rattle.ps_ctx_table.specs.declared.members.Course.{Course as ACourse};
ghost use Rattle.ps_ctx_table.specs.declared.members.Course.TheVariants.{Running};
ghost use Rattle.ps_ctx_table.specs.declared.members.Member.{Member as AMember};
ghost use Rattle.ps_ctx_table.specs.Seats.{item_at, with_item};
ghost use Rattle.ps_ctx_table.specs.Worlds.{status_of, context_of};
ghost use Rattle.ps_ctx_table.specs.Desks.{Desk, lent_to, desk_after, desk_of, desk_turned};
ghost use Rattle.ps_ctx_table.specs.Desks.{desk_unmade, IsWorld, IsLentBy, IsCourseHeld, IsSteady};
ghost use Rattle.ps_ctx_table.specs.Desks.{machine_reached, member_left, named_member};
ghost use Rattle.ps_ctx_table.specs.Desks.{turned_member, notified_members, returned};
ghost use Rattle.ps_ctx_table.specs.Moves.{OwnSteps, plain_moves};

/// The desk of all contexts is a world's, and goes on being one.
pub fn desk_laws()
    // One context of which there is no other, as at the start of a program.
    ensures first { (l : Lent) (course : ACourse) (is_detached has_faulted : Bool) (lines : ℕ)
        (machine : Machine)
        → IsLentBy l is_detached (status_of (birth_at l.heap) course) lines machine
        → has_faulted ≡ not (nat_eq lines 0)
        → IsWorld (desk_of l (Some (record {
          context = returned l;
          course = course;
          is_detached = is_detached;
        }) ∷ []) has_faulted)
        (record {
          program = l.program;
          store = machine.store;
          contexts = Some machine.context ∷ [];
          printed = machine.printed;
          error_lines = machine.error_lines;
          names = machine.names;
        }) }
    // The turn of one that runs or is unwinding is the world's step, to where it is put back or
    // leaves an operator to the world.
    ensures turn { (d : Desk) (w : World) (identifier : ℕ) (member : AMember)
        (asks : Lent → Store → Asked) (turn : Lent → Store → Turn) (attempt : AnAttempt)
        (new : Lent)
        (turned : ATurned) (shown : Option (ℤ × ℤ)) → IsWorld d w → IsSteady d
        → item_at d.members identifier ≡ Some member
        → Turns asks turn attempt (Ok turned) (lent_to d member.context) new
        → may_end (status_of (birth_at d.heap) member.course) ≡ true
        → turn (lent_to d member.context) w.store
        ≡ turn_as (around_of (lent_to d member.context))
        (status_of (birth_at d.heap) member.course)
        (scene_of (lent_to d member.context) w.store).frames
        (scene_of (lent_to d member.context) w.store)
        → (next : Machine)
        × (stepped w identifier attempt.refused shown
        ≡ after_own identifier attempt.refused shown w (reached_by turned next))
        × IsWorld (desk_turned d identifier member new turned)
        (with_machine identifier w (machine_reached (reached_by turned next)))
        × IsSteady (desk_turned d identifier member new turned) }
    // One that was not made leaves the world.
    ensures unmade { (d : Desk) (w : World) (identifier : ℕ) (member : AMember)
        (asks : Lent → Store → Asked) (turn : Lent → Store → Turn) (attempt : AnAttempt)
        (new : Lent)
        (reason : AReason) → IsWorld d w → IsSteady d
        → item_at d.members identifier ≡ Some member
        → Turns asks turn attempt (Err reason) (lent_to d member.context) new
        → IsWorld (desk_unmade d identifier member new) w
        × IsSteady (desk_unmade d identifier member new) }
    // What is lent of a machine that one came to by own steps is the world's after as many moves.
    ensures moves { (d : Desk) (w : World) (identifier : ℕ) (member : AMember) (new : Lent)
        (course : ACourse) (made : ℕ) (next : Machine) → IsWorld d w → IsSteady d
        → item_at d.members identifier ≡ Some member → Keeps d.heap new.heap
        → Stays (lent_to d member.context) new → IsGood new → IsCourseHeld new.heap course
        → OwnSteps w.program (suc made) (machine_of w (context_of d.heap d.names member)) next
        → Lasts w.store next.store
        → IsLentBy new member.is_detached (status_of (birth_at new.heap) course) w.error_lines next
        → IsWorld (desk_after d identifier member new course d.has_faulted)
        (after_moves w (plain_moves identifier (suc made)))
        × IsSteady (desk_after d identifier member new course d.has_faulted) }
    // One settles.
    ensures settles { (d : Desk) (w : World) (identifier : ℕ) (member : AMember) → IsWorld d w
        → item_at d.members identifier ≡ Some member → member.course ≡ Running
        → IsWorld (record d {
          members =
              with_item d.members identifier (member_left (turned_member Goes member));
        })
        (lifted identifier settled w) }
    // One more.
    ensures more { (d : Desk) (w : World) (member : AMember) → IsWorld d w
        → IsShown (lent_to d member.context) w.store
        → IsWorld (record d { members = d.members ++ Some member ∷ [] })
        (record w { contexts = w.contexts ++ Some (context_of d.heap d.names member) ∷ [] }) }
    // One is gone.
    ensures gone { (d : Desk) (w : World) (identifier : ℕ) → IsWorld d w
        → IsWorld (record d { members = with_item d.members identifier None })
        (without_context identifier w) }
    // Another is in its place.
    ensures changed { (d : Desk) (w : World) (identifier : ℕ) (member : AMember) → IsWorld d w
        → IsShown (lent_to d member.context) w.store
        → IsWorld (record d { members = with_item d.members identifier (member_left member) })
        (with_context identifier (context_of d.heap d.names member) w) }
    // The context that may be named.
    ensures named { (d : Desk) (w : World) (identifier : ℕ) → IsWorld d w
        → named_context identifier w
        ≡ option_map (context_of d.heap d.names) (named_member d.members identifier) }
    // A condition is notified.
    ensures notified { (d : Desk) (w : World) (condition : ℕ) → IsWorld d w → IsSteady d
        → StandsAs d.heap Condition condition 1
        → IsWorld (record d { members = notified_members condition d.members })
        (with_notified (birth_at d.heap condition) w) }
{}
