//! What holds of a window of a text, and of steps that take no memory.

ghost use Rattle.std.specs.Prelude.{◌≡◌, ℕ, ◌<◌, ◌++◌, ◌∷◌, Bool, false, List, length};
ghost use Rattle.ps_language.specs.Scan.{scan};
ghost use Rattle.ps_language.specs.StepFrames.{element_at};
ghost use Rattle.ps_language.specs.Token.{Token, found};
ghost use Rattle.ps_language.specs.Value.{Part};
ghost use Rattle.ps_language.specs.World.{Frame, procedure_frame, running, Machine};
ghost use Rattle.ps_step_interpreter.specs.Needs.{wants_memory};
ghost use Rattle.ps_step_execute.specs.Frugal.{IsFrugalElement};
ghost use Rattle.ps_step_execute.specs.Values.{Asks};
ghost use Rattle.ps_step.specs.Steps.{own_asks};

/// A token that ends before its window does is that of the whole text: what follows the window
/// can't change it (PLRM2, 3.2).
pub fn window_is_whole()
    ensures { (window more : List ℕ) (at : ℕ) (token : Token) (end : ℕ)
        → scan window at ≡ found token end → end < length window
        → scan (window ++ more) at ≡ found token end }
{}

/// A step by a literal, a procedure or a frugal operator, as the next element of a procedure above
/// another frame, takes no memory, also where it meets an error (PLRM2, 3.5).
pub fn frugal_steps()
    ensures { (asks : Asks) (program : List ℕ) (refused : Bool) (machine : Machine) (rest : Part)
        (frame : Frame) (below : List Frame) → machine.context.status ≡ running
        → machine.context.frames ≡ procedure_frame rest ∷ frame ∷ below
        → IsFrugalElement asks (element_at machine.store rest 0)
        → wants_memory (own_asks asks) program refused machine ≡ false }
{}
