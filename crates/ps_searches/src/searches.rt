//! A search: along the steps that cost nothing, and from each other step that can be paid.

ghost use Rattle.std.specs.Prelude.{◌≡◌, ◌+◌, ◌-◌, ◌<◌, ◌≤◌, ◌++◌, ◌∷◌, [], ℕ, length, Some, IsSome, All, IfOk, OnOk, IsErrOf};
ghost use Rattle.ps_searches.specs.Searches.{EveryEnding, IsTold, AllTold, MayGoOn, GoesOn, IsCounted, IsUsedUp};

use crate::found::{Bounds, Found, Search};
use crate::trees::{RunTree, Watcher};
use std::alloc::{AllocError, Global};

/// Why a search doesn't go on.
#[derive(Clone, Copy, Debug, PartialEq, Eq)]
enum Stop {
    /// A growth was refused.
    Memory,
    /// One run more was to be made than may be.
    Runs,
}

impl From<AllocError> for Stop {
    ghost use Rattle.std.specs.Prelude.{◌≡◌};
    ghost use Rattle.ps_searches.specs.declared.searches.Stop.TheVariants.{Memory};

    ghost from_gives = { λ _ stop. stop ≡ Memory };

    fn from(_: AllocError) -> Stop {
        Stop::Memory
    }
}

/// Goes on with a run to its end, by the steps that cost nothing, and tells how it ended.
fn tell_end<T: RunTree, W: Watcher + Drop>(
    tree: &T,
    run: T::Run,
    left: u32,
    search: &mut Search<T::Ending, T::Schedule, W>,
) -> Result<(), Stop>
    requires of { T.IsOf tree.now run }
    requires may { MayGoOn (T.price tree.now) (T.Ends tree.now) T.Makes search.old
        (T.path run) left 0 }
    ensures on { GoesOn (T.price tree.now) (T.Ends tree.now) T.Makes search.old search.new }
    ensures all { OnOk result (AllTold (T.price tree.now) (T.Ends tree.now) left 0 (T.path run)
        search.new.endings.entries) }
    ensures met { IsErrOf result Stop.Runs → IsUsedUp search.new }
    ensures one { OnOk result (1 ≤ search.new.runs) }
{
    if search.runs >= search.bounds.runs {
        return Err(Stop::Runs);
    }
    let (ending, schedule) = tree.finish(run, left)?;
    search.tell(ending, schedule)?;
    Ok(())
}

/// What is left to a run: steps, and what they are to cost.
#[derive(Clone, Copy)]
struct Rest {
    steps: u32,
    price: u32,
}

/// Tells how the runs end that go on from this one with at most so many steps more, and cost exactly
/// so much more.
#[cycle(explore)]
fn explore<T: RunTree, W: Watcher + Drop>(
    tree: &T,
    mut run: T::Run,
    mut rest: Rest,
    search: &mut Search<T::Ending, T::Schedule, W>,
) -> Result<(), Stop>
    requires of { T.IsOf tree.now run }
    requires may { MayGoOn (T.price tree.now) (T.Ends tree.now) T.Makes search.old
        (T.path run) rest.steps rest.price }
    ensures on { GoesOn (T.price tree.now) (T.Ends tree.now) T.Makes search.old search.new }
    ensures all { OnOk result (AllTold (T.price tree.now) (T.Ends tree.now) rest.steps rest.price
        (T.path run) search.new.endings.entries) }
    ensures met { IsErrOf result Stop.Runs → IsUsedUp search.new }
    ensures one { OnOk result (rest.price ≡ 0 → 1 ≤ search.new.runs) }
{
    if rest.price == 0 {
        return tell_end(tree, run, rest.steps, search);
    }
    while rest.steps > 0 {
        let Some(first) = tree.first(&mut run) else {
            return Ok(());
        };
        let mut after = 0;
        while let Some(context) = tree.next(&mut run, after) {
            after = context;
            if context == first {
                continue;
            }
            explore_other(tree, &mut run, context, rest, search)?;
        }
        tree.step(&mut run, first)?;
        rest.steps -= 1;
    }
    Ok(())
}

/// Tells how the runs end that go on by a step of this context, if that can be paid.
#[cycle(explore)]
fn explore_other<T: RunTree, W: Watcher + Drop>(
    tree: &T,
    run: &mut T::Run,
    context: u32,
    rest: Rest,
    search: &mut Search<T::Ending, T::Schedule, W>,
) -> Result<(), Stop>
    requires of { T.IsOf tree.now run.old }
    requires can { IsSome (T.price tree.now (T.path run.old) context) }
    requires some { 0 < rest.steps }
    requires may { MayGoOn (T.price tree.now) (T.Ends tree.now) T.Makes search.old
        (T.path run.old) rest.steps rest.price }
    ensures of { T.IsOf tree.now run.new }
    ensures path { T.path run.new ≡ T.path run.old }
    ensures on { GoesOn (T.price tree.now) (T.Ends tree.now) T.Makes search.old search.new }
    ensures all { OnOk result ((one : ℕ) → T.price tree.now (T.path run.old) context ≡ Some one
        → one ≤ rest.price → AllTold (T.price tree.now) (T.Ends tree.now) (rest.steps - 1)
        (rest.price - one) (T.path run.old ++ context ∷ []) search.new.endings.entries) }
    ensures met { IsErrOf result Stop.Runs → IsUsedUp search.new }
{
    let one = tree.price(run, context);
    if one > rest.price {
        return Ok(());
    }
    let mut other = tree.again(run)?;
    tree.step(&mut other, context)?;
    let behind = Rest {
        steps: rest.steps - 1,
        price: rest.price - one,
    };
    explore(tree, other, behind, search)
}

/// Explores the runs of a tree within these bounds, those that cost nothing first: each ending is
/// told once, with the cheapest schedule whose run ends so.
///
/// Where as many runs were made as may be and one more was to be made, the search is over, and the
/// schedules of the price that was looked at, and of those above it, weren't all explored.
/// `AllocError`: a growth was refused.
pub fn search<T: RunTree, W: Watcher + Drop>(
    alloc: Global,
    tree: &T,
    bounds: Bounds,
    watcher: W,
) -> Result<Found<T::Ending, T::Schedule>, AllocError>
    ensures every { IfOk result (λ found. EveryEnding (T.price tree.now) (T.Ends tree.now)
        bounds.steps found.below found.endings.entries) }
    ensures each { IfOk result (λ found. All (IsTold (T.price tree.now) (T.Ends tree.now) T.Makes
        bounds.steps) found.endings.entries) }
    ensures below { IfOk result (λ found. found.below ≤ bounds.price + 1) }
    ensures met { IfOk result (λ found. found.below ≤ bounds.price → found.runs ≡ bounds.runs) }
    ensures runs { IfOk result (λ found. found.runs ≤ bounds.runs) }
    ensures fewer { IfOk result (λ found. length found.endings.entries ≤ found.runs) }
    ensures some { 1 ≤ bounds.runs → IfOk result (λ found. 1 ≤ length found.endings.entries) }
{
    let mut search = Search::new(alloc, bounds, watcher);
    let found = explore_all(tree, &mut search);
    search.watcher.search_ended();
    let below = found?;
    Ok(Found {
        endings: search.endings,
        runs: search.runs,
        below,
    })
}

/// Explores price by price; below which price all was explored.
fn explore_all<T: RunTree, W: Watcher + Drop>(
    tree: &T,
    search: &mut Search<T::Ending, T::Schedule, W>,
) -> Result<u64, AllocError>
    requires none { search.old.endings.entries ≡ [] }
    requires runs { search.old.runs ≡ 0 }
    ensures every { IfOk result (λ below. EveryEnding (T.price tree.now) (T.Ends tree.now)
        search.old.bounds.steps below search.new.endings.entries) }
    ensures each { All (IsTold (T.price tree.now) (T.Ends tree.now) T.Makes
        search.old.bounds.steps) search.new.endings.entries }
    ensures below { IfOk result (λ below. below ≤ search.old.bounds.price + 1) }
    ensures met { IfOk result (λ below. below ≤ search.old.bounds.price → IsUsedUp search.new) }
    ensures runs { IsCounted search.new }
    ensures one { 1 ≤ search.old.bounds.runs → OnOk result (1 ≤ search.new.runs) }
    ensures bounds { search.new.bounds ≡ search.old.bounds }
{
    let most = search.bounds.price;
    let mut below: u64 = 0;
    while below <= u64::from(most) {
        search.price = below as u32;
        let run = tree.start()?;
        let rest = Rest {
            steps: search.bounds.steps,
            price: search.price,
        };
        match explore(tree, run, rest, search) {
            Ok(()) => below += 1,
            Err(Stop::Runs) => return Ok(below),
            Err(Stop::Memory) => return Err(AllocError),
        }
    }
    Ok(below)
}
