//! What holds of every step and of every schedule.

ghost use Rattle.std.specs.Prelude.{◌≡◌, ℕ, ℤ, ◌<◌, ◌≤◌, ◌++◌, Some, true, false, List, [], ◌∷◌};
ghost use Rattle.std.specs.Prelude.{Option, replicate};
ghost use Rattle.ps_language.specs.Contexts.{context_at};
ghost use Rattle.ps_language.specs.Effect.{Around, Calling, Scene};
ghost use Rattle.ps_language.specs.Keeping.{Keeps, PrintsOn, stays};
ghost use Rattle.ps_language.specs.Live.{Live};
ghost use Rattle.ps_language.specs.Locks.{is_ready};
ghost use Rattle.ps_language.specs.Lowest.{HaveFirstDictionaries};
ghost use Rattle.ps_language.specs.Machines.{turn_as, after_turn, erred, own_step, leaves_to_world};
ghost use Rattle.ps_language.specs.Objects.{lacks_room, made_between};
ghost use Rattle.ps_language.specs.Schedules.{Move, moves, plain_move, added, is_longest, Begins};
ghost use Rattle.ps_language.specs.Step.{machine_of, stepped, with_machine};
ghost use Rattle.ps_language.specs.StepValues.{tries};
ghost use Rattle.ps_language.specs.Value.{Value};
ghost use Rattle.ps_language.specs.World.{Context, Machine, Status, World};
ghost use Rattle.ps_language.specs.Worlds.{starting_world, after_move, after_moves, printed};
ghost use Rattle.ps_language.specs.Worlds.{recorded, world};
ghost use Rattle.ps_language.specs.declared.errors.ErrorName.TheVariants.{VmError};
ghost use Rattle.ps_language.specs.declared.schedules.Entry.{Entry};

/// The laws of the language: what an error leaves, what a refusal changes, what a schedule says.
pub fn language_laws()
    // After an error, and where an operator is left to the world, the operands, the dictionary
    // stack and the objects are as they were.
    ensures kept { (around : Around) (status : Status) (scene : Scene)
        → Keeps (stays scene) (turn_as around status scene.frames scene) }
    // A refused step that asks for no room is the ordinary one.
    ensures unasked { (now : World) (context : ℕ) (shown : Option (ℤ × ℤ))
        → made_between now.store (stepped now context false shown).world.store ≡ 0
        → stepped now context true shown ≡ stepped now context false shown }
    // A refused turn that asks for room is a VMerror, and keeps the names that it formed.
    ensures refused { (machine : Machine) (command : Value) (kept scene : Scene) (output : List ℕ)
        → lacks_room true kept.store scene.store ≡ true
        → after_turn true machine (tries command kept scene output) ≡ erred machine VmError command
        (record kept { names = scene.names }) }
    // A step of a context that isn't ready changes nothing.
    ensures unready { (now : World) (move : Move) → is_ready now move.context ≡ false
        → after_move now move ≡ now }
    // What was shown to a step may be left out where no vmstatus acted.
    ensures recorded { (now : World) (move : Move)
        → after_move now (recorded now move) ≡ after_move now move }
    // A schedule goes on from the world after its beginning.
    ensures onward { (program : List ℕ) (first second : List Entry)
        → world program (first ++ second) ≡ after_moves (world program first) (moves second) }
    // A step more is the last one, and a schedule of the longest entries stays one.
    ensures more { (schedule : List Entry) (move : Move)
        → moves (added schedule move) ≡ moves schedule ++ move ∷ [] }
    ensures longest { (schedule : List Entry) (move : Move) → is_longest schedule ≡ true
        → is_longest (added schedule move) ≡ true }
    // Entries, and then fewer ordinary steps than the next entry has, are a beginning.
    ensures begins { (before after : List Entry) (entry : Entry) (few : ℕ) (part : List Entry)
        → moves part ≡ replicate few (plain_move entry.context) → few < entry.steps
        → Begins (before ++ part) (before ++ entry ∷ after) }
    // A schedule prints what its beginning prints, and then perhaps more.
    ensures prints { (program : List ℕ) (part whole : List Entry) → Begins part whole
        → PrintsOn (printed program part) (printed program whole) }
    // What a world needs is one number, which there is, and at the start it is 528 words.
    ensures live { (now : World) (m n : ℕ) → Live now m → Live now n → m ≡ n }
    ensures start { (program : List ℕ) → Live (starting_world program) 528 }
    ensures exists { (now : World) → (words : ℕ) × Live now words }
    // No more lives once the element of an operator that is left to the world is taken.
    ensures taken { (now : World) (identifier : ℕ) (context : Context) (calling : Calling)
        (left : Machine) (m n : ℕ) → context_at now identifier ≡ Some context
        → own_step now.program false (machine_of now context) ≡ leaves_to_world calling left
        → Live (with_machine identifier now left) m → Live now n → m ≤ n }
    // Userdict above systemdict are the lowest dictionaries of each context, after every schedule.
    ensures lowest { (program : List ℕ) (steps : List Move)
        → HaveFirstDictionaries (after_moves (starting_world program) steps) }
{}
