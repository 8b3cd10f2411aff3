//! What a context by itself is in the world of all contexts.

ghost use Rattle.std.specs.Prelude.{◌≡◌, ℕ, true, List};
ghost use Rattle.ps_language.specs.Schedules.{moves};
ghost use Rattle.ps_language.specs.Worlds.{starting_world, all_ready, printed, world};
ghost use Rattle.ps_language.specs.declared.schedules.Entry.{Entry};
ghost use Rattle.ps_ctx_start.specs.Starts.{first_machine};
ghost use Rattle.ps_step_interpreter.specs.Alone.{alone_machine, alone_printed, all_alone_ready};
ghost use Rattle.ps_step_interpreter.specs.Owns.{alone_world, are_own};

/// A schedule that leaves no operator to the world: a run of the whole language is one of its first
/// context by itself.
pub fn alone_laws()
    // The world after it has that context alone, with its store, names and lines of errors.
    ensures world { (program : List ℕ) (schedule : List Entry)
        → are_own program (first_machine program) (moves schedule) ≡ true
        → world program schedule ≡ alone_world program (alone_machine program schedule) }
    // It prints the same bytes.
    ensures prints { (program : List ℕ) (schedule : List Entry)
        → are_own program (first_machine program) (moves schedule) ≡ true
        → printed program schedule ≡ alone_printed program schedule }
    // And the same steps are made.
    ensures ready { (program : List ℕ) (schedule : List Entry)
        → are_own program (first_machine program) (moves schedule) ≡ true
        → all_ready (starting_world program) (moves schedule)
        ≡ all_alone_ready program (first_machine program) (moves schedule) }
{}
