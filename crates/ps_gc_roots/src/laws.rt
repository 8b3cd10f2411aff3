//! What contexts keep while a collector moves the objects of their memory.

ghost use Rattle.std.specs.Prelude.{Option};
ghost use Rattle.ps_mem.specs.Heap.{Heap, Grants};
ghost use Rattle.ps_mem.specs.Shows.{AreValues};
ghost use Rattle.ps_mem.specs.Stands.{IsAddressed};
ghost use Rattle.ps_core_laws.specs.Moves.{Forwarding, IsMovedTo, HaveReplicas};
ghost use Rattle.ps_core_laws.specs.Reached.{MovesReached};
ghost use Rattle.ps_language.specs.World.{World};
ghost use Rattle.ps_ctx_table.specs.Desks.{Desk, IsSteady, IsWorld};
ghost use Rattle.ps_ctx.specs.declared.worlds.Calling.{Calling as ACalling};
ghost use Rattle.ps_ctx.specs.Held.{held};
ghost use Rattle.ps_gc_roots.specs.Formats.{AreInFormat};
ghost use Rattle.ps_gc_roots.specs.Moved.{KeepsWorlds, UsesLive};
ghost use Rattle.ps_gc_roots.specs.Renamed.{moved_desk};
ghost use Rattle.ps_gc_roots.specs.Roots.{roots_in};

/// The roots are values of the memory, and contexts whose roots are led to the replicas are at the
/// worlds that they were at.
pub fn root_laws()
    // What a collector is handed as roots are values.
    ensures values { (d : Desk) → IsSteady d → IsAddressed d.heap
        → AreValues d.heap (roots_in d.members) }
    // All parts and addresses have places in words.
    ensures formats { (d : Desk) → IsSteady d → IsAddressed d.heap → AreInFormat d.members }
    // After a move with all that the roots refer to, under any grants.
    ensures moved { (d : Desk) (now : Heap) (grants : Grants) (forward : Forwarding)
        (calling : Option ACalling) → IsMovedTo d.heap now forward
        → HaveReplicas forward (roots_in d.members) → IsAddressed d.heap → IsSteady d
        → KeepsWorlds (held d calling) (held (moved_desk d now grants forward) calling) }
    // After a move of just what the roots reach, what is used is what lives in their world.
    ensures lives { (d : Desk) (now : Heap) (forward : Forwarding) (w : World)
        → IsMovedTo d.heap now forward → HaveReplicas forward (roots_in d.members)
        → MovesReached d.heap forward (roots_in d.members) → IsAddressed d.heap → IsSteady d
        → IsWorld d w → UsesLive now w }
    // Under other grants, as where a cycle is opened.
    ensures granted { (d : Desk) (grants : Grants) (calling : Option ACalling)
        → KeepsWorlds (held d calling) (held (record d { grants = grants }) calling) }
{}
