//! What a search asks of the runs that it makes.

ghost use Rattle.std.specs.Prelude.{◌≡◌, ◌++◌, ◌∷◌, ◌↔◌, [], ℕ, List, Option, None, Some, IsSome, IfSome, IfNone, IfOk, OnOk, true};
ghost use Rattle.ps_searches.specs.Searches.{Prices, IsOver, IsFree, IsNextAbove, IsNoneAbove, IsEnd};

use std::alloc::AllocError;
use std::hash::Hash;

/// Runs that can be made again and again from one start, where each step may be one of several
/// contexts', numbered from 1.
pub trait RunTree {
    /// A run under way.
    type Run: Drop;

    /// How a run ended.
    type Ending: Eq + Hash + Drop;

    /// The steps of a run.
    type Schedule: Drop;

    /// What a step costs behind each path.
    ghost price: { Self → Prices };

    /// A schedule's run ends so.
    ghost Ends: { Self → (schedule : List ℕ) → Self.Ending → Type 0 };

    /// A schedule has these steps, each of them one of this context, as the tree makes it.
    ghost Makes: { Self.Schedule → (path : List ℕ) → Type 0 };

    /// It is a run of these.
    ghost IsOf: { Self → Self.Run → Type 0 };

    /// The contexts of its steps so far.
    ghost path: { Self.Run → List ℕ };

    /// A run before its first step.
    fn start(&self) -> Result<Self::Run, AllocError>
        ensures of { IfOk result (λ run. IsOf self.now run) }
        ensures path { IfOk result (λ run. path run ≡ []) };

    /// Another run, whose steps were the same.
    fn again(&self, run: &Self::Run) -> Result<Self::Run, AllocError>
        requires { IsOf self.now run.now }
        ensures of { IfOk result (λ other. IsOf self.now other) }
        ensures path { IfOk result (λ other. path other ≡ path run.now) };

    /// The context whose step costs nothing; None where no context can step.
    fn first(&self, run: &mut Self::Run) -> Option<u32>
        requires { IsOf self.now run.old }
        ensures of { IsOf self.now run.new }
        ensures path { path run.new ≡ path run.old }
        ensures free { IfSome result (λ context. IsFree (price self.now) (path run.old) context) }
        ensures over { IfNone result (IsOver (price self.now) (path run.old)) };

    /// The least context above another that can step.
    fn next(&self, run: &mut Self::Run, after: u32) -> Option<u32>
        requires { IsOf self.now run.old }
        ensures of { IsOf self.now run.new }
        ensures path { path run.new ≡ path run.old }
        ensures some { IfSome result
            (λ next. IsNextAbove (price self.now) (path run.old) after next) }
        ensures none { IfNone result (IsNoneAbove (price self.now) (path run.old) after) };

    /// What a step of a context costs that can step.
    fn price(&self, run: &mut Self::Run, context: u32) -> u32
        requires of { IsOf self.now run.old }
        requires can { IsSome (price self.now (path run.old) context) }
        ensures of { IsOf self.now run.new }
        ensures path { path run.new ≡ path run.old }
        ensures price { price self.now (path run.old) context ≡ Some result };

    /// Makes a step of a context that can step.
    fn step(&self, run: &mut Self::Run, context: u32) -> Result<(), AllocError>
        requires of { IsOf self.now run.old }
        requires can { IsSome (price self.now (path run.old) context) }
        ensures of { OnOk result (IsOf self.now run.new) }
        ensures path { OnOk result (path run.new ≡ path run.old ++ context ∷ []) };

    /// Goes on by the steps that cost nothing, at most so many, as far as any context can step; and
    /// how the run ended then, under which schedule.
    fn finish(
        &self,
        run: Self::Run,
        steps: u32,
    ) -> Result<(Self::Ending, Self::Schedule), AllocError>
        requires { IsOf self.now run }
        ensures { IfOk result (λ end. IsEnd (price self.now) (Ends self.now) Makes steps (path run)
            end.0 end.1) };

    /// No context has the number 0.
    ghost from_one: { (tree : Self) (path : List ℕ) → price tree path 0 ≡ None };

    /// A run ends as all that is equal to its ending, and as nothing else.
    ghost equal: { (tree : Self) (schedule : List ℕ) (a b : Self.Ending) → Ends tree schedule a
        → (Ends tree schedule b ↔ (Self.Ending.eq a b ≡ true)) };
}

/// Is told how far a search is.
pub trait Watcher {
    /// So many runs were made to their end, and so many endings told; the last cost so much.
    fn run_ended(&mut self, runs: u64, endings: usize, price: u32);

    /// So many worlds were told apart, and so many of them followed, with so many endings.
    fn world_followed(&mut self, worlds: usize, followed: usize, endings: usize);

    /// The search is over.
    fn search_ended(&mut self);
}

/// Nobody is told.
#[derive(Clone, Copy, Drop)]
pub struct NoWatcher;

impl Watcher for NoWatcher {
    fn run_ended(&mut self, _runs: u64, _endings: usize, _price: u32) {}

    fn world_followed(&mut self, _worlds: usize, _followed: usize, _endings: usize) {}

    fn search_ended(&mut self) {}
}
