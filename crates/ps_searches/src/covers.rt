//! A search by worlds: each is kept once, and each context that can step is followed from it.

ghost use Rattle.std.specs.Prelude.{◌≡◌, ◌+◌, ◌*◌, ◌^◌, ◌<◌, ◌≤◌, [], ℕ, List, length, All, IfOk, OnOk, IsErrOf};
ghost use Rattle.ps_searches.specs.Searches.{IsProper, Keeps};
ghost use Rattle.ps_searches.specs.Graphs.{EveryEnd, IsEndOf, IsKept, AreKept, AreNear, AreNearTo, AreAll, IsKnown, IsFollowed, IsToldAt, AreFollowed, IsComeTo, AreBetween, AddsWays, AreWorlds, Grows};

use crate::found::add_ending;
use crate::graphs::RunGraph;
use crate::trees::Watcher;
use indexmap::IndexMap;
use std::alloc::{AllocError, Global};
use std::hash::Hash;

/// How far a search by worlds came.
#[derive(Clone, Copy, Debug, PartialEq, Eq)]
pub enum Extent {
    /// Each world was followed.
    All,
    /// One more was to be kept than may be.
    Most,
    /// A run made again wasn't seen to be where it was before.
    Lost,
}

/// What a search by worlds has found.
#[derive(Drop)]
pub struct Covered<E: Eq + Hash, S> {
    /// Each ending once, and a shortest schedule whose run ends so.
    pub endings: IndexMap<E, S>,
    /// How many worlds were told apart.
    pub worlds: usize,
    /// How many steps between them were followed.
    pub steps: u64,
    /// How far it came.
    pub extent: Extent,
}

/// Why a search doesn't go on.
#[derive(Clone, Copy, Debug, PartialEq, Eq)]
enum Halt {
    /// A growth was refused.
    Memory,
    /// One world more was to be kept than may be.
    Most,
    /// A run made again wasn't seen to be where it was before.
    Lost,
}

impl From<AllocError> for Halt {
    ghost use Rattle.std.specs.Prelude.{◌≡◌};
    ghost use Rattle.ps_searches.specs.declared.covers.Halt.TheVariants.{Memory};

    ghost from_gives = { λ _ halt. halt ≡ Memory };

    fn from(_: AllocError) -> Halt {
        Halt::Memory
    }
}

/// A search under way.
#[derive(Drop)]
struct Coverage<I: Eq + Hash, E: Eq + Hash, S> {
    /// The most worlds that are kept.
    most: u32,
    /// An image of each world, and a schedule that leads there.
    kept: IndexMap<I, S>,
    endings: IndexMap<E, S>,
    /// How many steps were followed.
    steps: u64,
}

impl<I: Eq + Hash + Drop, E: Eq + Hash + Drop, S: Drop> Coverage<I, E, S> {
    /// No world yet.
    fn new(alloc: Global, most: u32) -> Self
        ensures most { result.most ≡ most }
        ensures kept { result.kept.entries ≡ [] }
        ensures endings { result.endings.entries ≡ [] }
        ensures steps { result.steps ≡ 0 }
    {
        Coverage {
            most,
            kept: IndexMap::new(alloc),
            endings: IndexMap::new(alloc),
            steps: 0,
        }
    }
}

/// Keeps where a run is, unless it is known.
fn keep<G: RunGraph>(
    graph: &G,
    run: &mut G::Run,
    most: u32,
    kept: &mut IndexMap<G::Image, G::Schedule>,
) -> Result<(), Halt>
    requires of { G.IsOf graph.now run.old }
    requires proper { IsProper (G.price graph.now) [] (G.path run.old) }
    requires here { G.IsAt graph.now run.old (G.path run.old) }
    requires kept { AreKept (G.price graph.now) (G.IsImage graph.now) G.Makes G.steps most
        kept.old.entries }
    requires near { AreNear (G.price graph.now) (G.IsImage graph.now) G.Makes G.steps
        kept.old.entries (length (G.path run.old)) }
    ensures kept { AreKept (G.price graph.now) (G.IsImage graph.now) G.Makes G.steps most
        kept.new.entries }
    ensures near { AreNear (G.price graph.now) (G.IsImage graph.now) G.Makes G.steps
        kept.new.entries (length (G.path run.old)) }
    ensures grows { Grows kept.old.entries kept.new.entries }
    ensures known { OnOk result ((path : List ℕ) → G.IsAt graph.now run.old path
        → IsKnown (G.price graph.now) (G.IsImage graph.now) G.Makes G.steps kept.new.entries
        (length (G.path run.old)) path) }
    ensures met { IsErrOf result Halt.Most → length kept.new.entries ≡ most }
{
    let image = graph.image(run)?;
    if kept.contains_key(&image) {
        return Ok(());
    }
    if kept.len() >= most as usize {
        return Err(Halt::Most);
    }
    let schedule = graph.schedule(run)?;
    match kept.insert(image, schedule) {
        Ok(_) => Ok(()),
        Err(_) => Err(Halt::Memory),
    }
}

/// A run that is where the world at a place is.
fn come_to<G: RunGraph>(
    graph: &G,
    kept: &IndexMap<G::Image, G::Schedule>,
    place: usize,
) -> Result<G::Run, Halt>
    requires each { All (IsKept (G.price graph.now) (G.IsImage graph.now) G.Makes G.steps)
        kept.now.entries }
    requires within { place < length kept.now.entries }
    ensures of { IfOk result (λ run. G.IsOf graph.now run) }
    ensures at { IfOk result (λ run. IsComeTo (G.price graph.now) (G.IsImage graph.now) G.Makes
        G.steps (G.IsAt graph.now run) kept.now.entries place (G.path run)) }
    ensures no_bound { IsErrOf result Halt.Most → ⊥ }
{
    let Some((image, schedule)) = kept.get_index(place) else {
        unreachable!()
    };
    match graph.run_to(image, schedule)? {
        Some(run) => Ok(run),
        None => Err(Halt::Lost),
    }
}

/// Follows each context that can step where a run is, from the world at a place.
fn follow_each<G: RunGraph>(
    graph: &G,
    run: &mut G::Run,
    place: usize,
    cover: &mut Coverage<G::Image, G::Ending, G::Schedule>,
) -> Result<(), Halt>
    requires of { G.IsOf graph.now run.old }
    requires at { IsComeTo (G.price graph.now) (G.IsImage graph.now) G.Makes G.steps
        (G.IsAt graph.now run.old) cover.old.kept.entries place (G.path run.old) }
    requires within { place < length cover.old.kept.entries }
    requires kept { AreKept (G.price graph.now) (G.IsImage graph.now) G.Makes G.steps
        cover.old.most cover.old.kept.entries }
    requires near { AreNear (G.price graph.now) (G.IsImage graph.now) G.Makes G.steps
        cover.old.kept.entries (length (G.path run.old) + 1) }
    requires steps { cover.old.steps ≤ place * 2 ^ 32 }
    ensures kept { AreKept (G.price graph.now) (G.IsImage graph.now) G.Makes G.steps
        cover.new.most cover.new.kept.entries }
    ensures near { OnOk result (AreNear (G.price graph.now) (G.IsImage graph.now) G.Makes
        G.steps cover.new.kept.entries (length (G.path run.old) + 1)) }
    ensures grows { Grows cover.old.kept.entries cover.new.kept.entries }
    ensures followed { OnOk result (IsFollowed (G.price graph.now) (G.IsImage graph.now) G.Makes
        G.steps cover.new.kept.entries place) }
    ensures met { IsErrOf result Halt.Most → length cover.new.kept.entries ≡ cover.new.most }
    ensures most { cover.new.most ≡ cover.old.most }
    ensures endings { cover.new.endings ≡ cover.old.endings }
    ensures steps { cover.new.steps ≤ place * 2 ^ 32 + 2 ^ 32 }
    ensures ways { OnOk result (AddsWays (G.price graph.now) (G.IsImage graph.now) G.Makes G.steps
        cover.old.kept.entries place cover.old.steps cover.new.steps) }
{
    let mut after = 0;
    while let Some(context) = graph.next(run, after) {
        after = context;
        let mut other = come_to(graph, &cover.kept, place)?;
        graph.step(&mut other, context)?;
        cover.steps += 1;
        keep(graph, &mut other, cover.most, &mut cover.kept)?;
    }
    Ok(())
}

/// Follows the world at a place: each context that can step there or, where none can, how its runs
/// end.
fn follow<G: RunGraph>(
    graph: &G,
    place: usize,
    cover: &mut Coverage<G::Image, G::Ending, G::Schedule>,
) -> Result<(), Halt>
    requires within { place < length cover.old.kept.entries }
    requires kept { AreKept (G.price graph.now) (G.IsImage graph.now) G.Makes G.steps
        cover.old.most cover.old.kept.entries }
    requires before { AreFollowed (G.price graph.now) (G.IsImage graph.now) G.Makes G.steps
        (G.Ends graph.now) cover.old.kept.entries cover.old.endings.entries place }
    requires each { All (IsEndOf (G.price graph.now) (G.Ends graph.now) G.Makes)
        cover.old.endings.entries }
    requires steps { cover.old.steps ≤ place * 2 ^ 32 }
    ensures kept { AreKept (G.price graph.now) (G.IsImage graph.now) G.Makes G.steps
        cover.new.most cover.new.kept.entries }
    ensures each { All (IsEndOf (G.price graph.now) (G.Ends graph.now) G.Makes)
        cover.new.endings.entries }
    ensures grows { Grows cover.old.kept.entries cover.new.kept.entries }
    ensures keeps { Keeps (G.Ends graph.now) cover.old.endings.entries cover.new.endings.entries }
    ensures near { OnOk result (AreNearTo (G.price graph.now) (G.IsImage graph.now) G.Makes
        G.steps cover.old.kept.entries place cover.new.kept.entries) }
    ensures followed { OnOk result (IsFollowed (G.price graph.now) (G.IsImage graph.now) G.Makes
        G.steps cover.new.kept.entries place) }
    ensures told { OnOk result (IsToldAt (G.price graph.now) (G.IsImage graph.now) G.Makes
        G.steps (G.Ends graph.now) cover.new.kept.entries cover.new.endings.entries place) }
    ensures met { IsErrOf result Halt.Most → length cover.new.kept.entries ≡ cover.new.most }
    ensures most { cover.new.most ≡ cover.old.most }
    ensures fewer { length cover.new.endings.entries ≤ length cover.old.endings.entries + 1 }
    ensures steps { cover.new.steps ≤ place * 2 ^ 32 + 2 ^ 32 }
    ensures ways { OnOk result (AddsWays (G.price graph.now) (G.IsImage graph.now) G.Makes G.steps
        cover.old.kept.entries place cover.old.steps cover.new.steps) }
{
    let mut run = come_to(graph, &cover.kept, place)?;
    let Some(_) = graph.next(&mut run, 0) else {
        let (ending, schedule) = graph.end(run)?;
        add_ending(&mut cover.endings, ending, schedule)?;
        return Ok(());
    };
    follow_each(graph, &mut run, place, cover)
}

/// Follows each world, and tells a watcher of it.
fn cover_all<G: RunGraph, W: Watcher>(
    graph: &G,
    cover: &mut Coverage<G::Image, G::Ending, G::Schedule>,
    watcher: &mut W,
) -> Result<(), Halt>
    requires kept { cover.old.kept.entries ≡ [] }
    requires endings { cover.old.endings.entries ≡ [] }
    requires steps { cover.old.steps ≡ 0 }
    ensures every { OnOk result (EveryEnd (G.price graph.now) (G.Ends graph.now)
        cover.new.endings.entries) }
    ensures each { All (IsEndOf (G.price graph.now) (G.Ends graph.now) G.Makes)
        cover.new.endings.entries }
    ensures all { OnOk result (AreAll (G.price graph.now) (G.IsImage graph.now) G.Makes G.steps
        cover.new.kept.entries) }
    ensures kept { AreKept (G.price graph.now) (G.IsImage graph.now) G.Makes G.steps
        cover.old.most cover.new.kept.entries }
    ensures between { OnOk result (AreBetween (G.price graph.now) (G.IsImage graph.now) G.Makes
        G.steps cover.new.kept.entries (length cover.new.kept.entries) cover.new.steps) }
    ensures met { IsErrOf result Halt.Most → length cover.new.kept.entries ≡ cover.old.most }
    ensures fewer { length cover.new.endings.entries ≤ length cover.new.kept.entries }
{
    let mut run = graph.start()?;
    keep(graph, &mut run, cover.most, &mut cover.kept)?;
    let mut place = 0;
    while place < cover.kept.len() {
        follow(graph, place, cover)?;
        place += 1;
        watcher.world_followed(cover.kept.len(), place, cover.endings.len());
    }
    Ok(())
}

/// Looks for every world that the runs of a graph come to, and tells how they end: each ending
/// once, with a schedule whose run ends so and as few steps as any such.
///
/// At most so many worlds are kept, and there are no more endings than worlds. Where each was
/// followed, there is no other ending, and no other world: of no schedule, however long. A watcher is
/// told how far it is. `AllocError`: a growth was refused.
pub fn cover<G: RunGraph, W: Watcher>(
    alloc: Global,
    graph: &G,
    most: u32,
    watcher: &mut W,
) -> Result<Covered<G::Ending, G::Schedule>, AllocError>
    ensures every { IfOk result (λ covered. covered.extent ≡ Extent.All
        → EveryEnd (G.price graph.now) (G.Ends graph.now) covered.endings.entries) }
    ensures each { IfOk result (λ covered. All (IsEndOf (G.price graph.now) (G.Ends graph.now)
        G.Makes) covered.endings.entries) }
    ensures worlds { IfOk result (λ covered. AreWorlds (G.price graph.now) (G.IsImage graph.now)
        G.Makes G.steps G.Image.eq covered.worlds covered.steps (covered.extent ≡ Extent.All)) }
    ensures within { IfOk result (λ covered. covered.worlds ≤ most) }
    ensures fewer { IfOk result (λ covered. length covered.endings.entries ≤ covered.worlds) }
    ensures met { IfOk result (λ covered. covered.extent ≡ Extent.Most → covered.worlds ≡ most) }
{
    let mut cover = Coverage::new(alloc, most);
    let halt = cover_all(graph, &mut cover, watcher);
    watcher.search_ended();
    let extent = match halt {
        Ok(()) => Extent::All,
        Err(Halt::Most) => Extent::Most,
        Err(Halt::Lost) => Extent::Lost,
        Err(Halt::Memory) => return Err(AllocError),
    };
    Ok(Covered {
        worlds: cover.kept.len(),
        endings: cover.endings,
        steps: cover.steps,
        extent,
    })
}
