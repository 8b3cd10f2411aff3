//! What a search by worlds asks of the runs that it makes.

ghost use Rattle.std.specs.Prelude.{◌≡◌, ◌++◌, ◌∷◌, ◌↔◌, [], ℕ, List, None, IsSome, IfSome, IfNone, IfOk, OnOk, length, true};
ghost use Rattle.ps_searches.specs.Searches.{Prices, IsNextAbove, IsNoneAbove};
ghost use Rattle.ps_searches.specs.Graphs.{IsKept};

use std::alloc::AllocError;
use std::hash::Hash;

/// Runs that can be made again and again from one start, where each step may be one of several
/// contexts', numbered from 1, and that tell where they are: by an image. Where two images are
/// equal, neither tells its run from where the other's is, and so nothing that follows does.
pub trait RunGraph {
    /// A run under way.
    type Run: Drop;

    /// How a run ended.
    type Ending: Eq + Hash + Drop;

    /// The steps of a run.
    type Schedule: Drop;

    /// What tells where a run is.
    type Image: Eq + Hash + Drop;

    /// Which steps can be made behind each path: those that have a price, whatever it is.
    ghost price: { Self → Prices };

    /// A schedule's run ends so.
    ghost Ends: { Self → (schedule : List ℕ) → Self.Ending → Type 0 };

    /// A schedule has these steps, each of them one of this context, as the graph makes it.
    ghost Makes: { Self.Schedule → (path : List ℕ) → Type 0 };

    /// How many steps it has.
    ghost steps: { Self.Schedule → ℕ };

    /// It is a run of these.
    ghost IsOf: { Self → Self.Run → Type 0 };

    /// The contexts of its own steps so far.
    ghost path: { Self.Run → List ℕ };

    /// A run is where this path leads, which may be another path than its own.
    ghost IsAt: { Self → Self.Run → (path : List ℕ) → Type 0 };

    /// An image is of where this path leads.
    ghost IsImage: { Self → Self.Image → (path : List ℕ) → Type 0 };

    /// A run before its first step.
    fn start(&self) -> Result<Self::Run, AllocError>
        ensures of { IfOk result (λ run. IsOf self.now run) }
        ensures path { IfOk result (λ run. path run ≡ []) }
        ensures at { IfOk result (λ run. IsAt self.now run []) };

    /// A run of the steps of a schedule, where it is seen to be wherever the image is of; None where
    /// it isn't seen.
    fn run_to(
        &self,
        image: &Self::Image,
        schedule: &Self::Schedule,
    ) -> Result<Option<Self::Run>, AllocError>
        requires { IsKept (price self.now) (IsImage self.now) Makes steps
            (image.now, schedule.now) }
        ensures of { IfOk result (λ found. IfSome found (λ run. IsOf self.now run)) }
        ensures path { IfOk result (λ found. IfSome found
            (λ run. (made : List ℕ) → Makes schedule.now made → path run ≡ made)) }
        ensures at { IfOk result (λ found. IfSome found
            (λ run. (made : List ℕ) → IsImage self.now image.now made → IsAt self.now run made)) };

    /// The least context above another that can step.
    fn next(&self, run: &mut Self::Run, after: u32) -> Option<u32>
        requires { IsOf self.now run.old }
        ensures same { run.new ≡ run.old }
        ensures some { IfSome result (λ next. (made : List ℕ) → IsAt self.now run.old made
            → IsNextAbove (price self.now) made after next) }
        ensures none { IfNone result ((made : List ℕ) → IsAt self.now run.old made
            → IsNoneAbove (price self.now) made after) };

    /// Makes a step of a context that can step.
    fn step(&self, run: &mut Self::Run, context: u32) -> Result<(), AllocError>
        requires of { IsOf self.now run.old }
        requires can { IsSome (price self.now (path run.old) context) }
        ensures of { OnOk result (IsOf self.now run.new) }
        ensures path { OnOk result (path run.new ≡ path run.old ++ context ∷ []) }
        ensures at { OnOk result ((made : List ℕ) → IsAt self.now run.old made
            → IsAt self.now run.new (made ++ context ∷ [])) };

    /// What tells where it is.
    fn image(&self, run: &mut Self::Run) -> Result<Self::Image, AllocError>
        requires { IsOf self.now run.old }
        ensures same { run.new ≡ run.old }
        ensures image { IfOk result (λ image. (made : List ℕ) → IsAt self.now run.old made
            → IsImage self.now image made) };

    /// Its own steps so far.
    fn schedule(&self, run: &Self::Run) -> Result<Self::Schedule, AllocError>
        requires { IsOf self.now run.now }
        ensures { IfOk result (λ schedule. Makes schedule (path run.now)) };

    /// How it ends here, and under which schedule.
    fn end(&self, run: Self::Run) -> Result<(Self::Ending, Self::Schedule), AllocError>
        requires { IsOf self.now run }
        ensures ends { IfOk result
            (λ end. (made : List ℕ) → IsAt self.now run made → Ends self.now made end.0) }
        ensures makes { IfOk result (λ end. Makes end.1 (path run)) };

    /// No context has the number 0.
    ghost from_one: { (graph : Self) (path : List ℕ) → price graph path 0 ≡ None };

    /// A path that it has is as long.
    ghost counts: { (schedule : Self.Schedule) (path : List ℕ) → Makes schedule path
        → length path ≡ steps schedule };

    /// A run ends as all that is equal to its ending, and as nothing else.
    ghost equal: { (graph : Self) (schedule : List ℕ) (a b : Self.Ending) → Ends graph schedule a
        → (Ends graph schedule b ↔ (Self.Ending.eq a b ≡ true)) };

    /// Equal images are of the same.
    ghost alike: { (graph : Self) (a b : Self.Image) (path : List ℕ) → Self.Image.eq a b ≡ true
        → IsImage graph a path → IsImage graph b path };
}
