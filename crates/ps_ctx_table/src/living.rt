//! What lives in a world, and the memory that shows it (PLRM2, 3.7, 8, `vmstatus`).

ghost use Rattle.std.specs.Prelude.{◌≡◌, ◌-◌, ◌≤◌, ℕ, Some, ◌∷◌, [], drop, length};
ghost use Rattle.ps_language.specs.Contexts.{context_at};
ghost use Rattle.ps_language.specs.Live.{IsReachable, Live};
ghost use Rattle.ps_language.specs.World.{Context, World};
ghost use Rattle.ps_language.specs.Worlds.{system_value, user_value};
ghost use Rattle.ps_mem.specs.Heap.{standing_words};
ghost use Rattle.ps_mem.specs.Stands.{IsAddressed, IsStanding};
ghost use Rattle.ps_ctx_table.specs.Desks.{Desk, IsWorld, IsSteady};

/// What lives in a world stands in each memory that shows it. The world has a context whose lowest
/// dictionaries are `userdict` and `systemdict`.
pub fn living_laws()
    // An object that is reachable stands.
    ensures stands { (d : Desk) (w : World) (identifier : ℕ) (context : Context) (birth : ℕ)
        → IsWorld d w → IsSteady d → context_at w identifier ≡ Some context
        → drop (length context.dictionaries - 2) context.dictionaries
        ≡ user_value ∷ system_value ∷ []
        → IsReachable w birth → IsStanding d.heap birth }
    // All that lives needs at most the words that stand.
    ensures words { (d : Desk) (w : World) (identifier : ℕ) (context : Context) (words : ℕ)
        → IsWorld d w → IsSteady d → IsAddressed d.heap → context_at w identifier ≡ Some context
        → drop (length context.dictionaries - 2) context.dictionaries
        ≡ user_value ∷ system_value ∷ []
        → Live w words → words ≤ standing_words d.heap }
{}
