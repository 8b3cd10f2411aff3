//! What a step may want of objects is what the language says that it asks for.

ghost use Rattle.std.specs.Prelude.{◌≡◌, ◌≤◌, ℕ, true, false};
ghost use Rattle.ps_language.specs.Effect.{Around, Scene};
ghost use Rattle.ps_language.specs.Live.{asked_words, asked_births};
ghost use Rattle.ps_language.specs.Locks.{is_ready};
ghost use Rattle.ps_language.specs.World.{Status, World};
ghost use Rattle.ps_ops_state.specs.Acts.{Asked};
ghost use Rattle.ps_ctx.specs.Needs.{step_wants};

/// Where an unrefused step may want words, these are the words of the objects and bodies that it
/// makes, and its birth numbers are theirs.
pub fn wanting_laws()
    ensures words { (asks : Status → Around → Scene → Asked) (w : World) (identifier : ℕ)
        → is_ready w identifier ≡ true → 1 ≤ (step_wants asks identifier false w).words
        → (step_wants asks identifier false w).words ≡ asked_words w identifier }
    ensures births { (asks : Status → Around → Scene → Asked) (w : World) (identifier : ℕ)
        → is_ready w identifier ≡ true → 1 ≤ (step_wants asks identifier false w).words
        → (step_wants asks identifier false w).births ≡ asked_births w identifier }
{}
