//! What a search has found.

ghost use Rattle.std.specs.Prelude.{◌≡◌, ◌+◌, ◌<◌, [], OnOk, OnErr};
ghost use Rattle.ps_searches.specs.Searches.{AddsEnding};

use crate::trees::Watcher;
use indexmap::IndexMap;
use std::alloc::{AllocError, Global};
use std::hash::Hash;

/// The cheapest schedule whose run ended so.
#[derive(Clone, Copy, Debug, PartialEq, Eq, Drop)]
pub struct Told<S> {
    /// What its steps cost together.
    pub price: u32,
    pub schedule: S,
}

/// How the runs of a search ended.
#[derive(Drop)]
pub struct Found<E: Eq + Hash, S> {
    /// Each ending once, by rising price, and the cheapest schedule of each.
    pub endings: IndexMap<E, Told<S>>,
    /// How many runs were made to their end.
    pub runs: u64,
    /// The schedules that cost less than this were all explored.
    pub below: u64,
}

/// How far a search goes.
#[derive(Clone, Copy, Debug, PartialEq, Eq)]
pub struct Bounds {
    /// The most steps of a run.
    pub steps: u32,
    /// The most that a schedule costs.
    pub price: u32,
    /// The most runs that are made to their end.
    pub runs: u64,
}

/// Keeps an ending where none before it was equal, with what is told of it. Fails where that finds
/// no room; nothing is kept then.
pub(crate) fn add_ending<E: Eq + Hash + Drop, V: Drop>(
    endings: &mut IndexMap<E, V>,
    ending: E,
    told: V,
) -> Result<(), AllocError>
    ensures added { OnOk result (AddsEnding E.eq endings.old.entries (ending, told)
        endings.new.entries) }
    ensures none { OnErr result (endings.new.entries ≡ endings.old.entries) }
{
    if !endings.contains_key(&ending) {
        endings.insert(ending, told)?;
    }
    Ok(())
}

/// A search under way.
#[derive(Drop)]
pub(crate) struct Search<E: Eq + Hash, S, W> {
    pub(crate) bounds: Bounds,
    pub(crate) endings: IndexMap<E, Told<S>>,
    /// How many runs were made to their end.
    pub(crate) runs: u64,
    /// What the schedules cost that are looked for.
    pub(crate) price: u32,
    pub(crate) watcher: W,
}

impl<E: Eq + Hash + Drop, S: Drop, W: Watcher + Drop> Search<E, S, W> {
    /// No run yet.
    pub(crate) fn new(alloc: Global, bounds: Bounds, watcher: W) -> Self
        ensures endings { result.endings.entries ≡ [] }
        ensures runs { result.runs ≡ 0 }
        ensures bounds { result.bounds ≡ bounds }
    {
        Search {
            bounds,
            endings: IndexMap::new(alloc),
            runs: 0,
            price: 0,
            watcher,
        }
    }

    /// A run ended so: it is counted, and its ending is kept where none before it was equal. Fails
    /// where that finds no room; neither is done then.
    pub(crate) fn tell(&mut self, ending: E, schedule: S) -> Result<(), AllocError>
        requires { self.old.runs < self.old.bounds.runs }
        ensures endings { OnOk result (AddsEnding E.eq self.old.endings.entries
            (ending, record { price = self.old.price; schedule = schedule })
            self.new.endings.entries) }
        ensures none { OnErr result (self.new.endings.entries ≡ self.old.endings.entries) }
        ensures runs { OnOk result (self.new.runs ≡ self.old.runs + 1) }
        ensures no_run { OnErr result (self.new.runs ≡ self.old.runs) }
        ensures bounds { self.new.bounds ≡ self.old.bounds }
        ensures price { self.new.price ≡ self.old.price }
    {
        let price = self.price;
        add_ending(&mut self.endings, ending, Told { price, schedule })?;
        self.runs += 1;
        self.watcher.run_ended(self.runs, self.endings.len(), price);
        Ok(())
    }
}
