//! Every way on which a run may go, up to a price: a bounded search over runs that are made again
//! from their start (delay bounding; the form is this profile's own).
//!
//! Why so:
//! - Nothing here knows what a run is. Behind each path of contexts one step costs nothing, and the
//!   others cost what the tree of runs says (`RunTree`).
//! - A search goes along the steps that cost nothing, and calls itself for each other step that can
//!   be paid. So each level holds one run, none is copied, and there are as many levels as the
//!   price.
//! - Prices are looked at in turn, 0 first, and each round tells the schedules of exactly its price.
//!   So each schedule is told once, an ending is kept with the cheapest one, and a search that was
//!   cut short still tells up to which price it was whole.
//! - Where nothing is left to be paid the run goes on by itself (`finish`): most steps of a search
//!   are made there, at full speed.
//! - The bound on runs is met only where one more is to be made. So a search that could be whole is.
//! - A search by worlds (`cover`) keeps each world once, by an image, and follows each context that
//!   can step from it. Where no step leads out of what is kept, no schedule does, however long; so it
//!   has no bound on steps or price.
//! - A run may be where other paths lead than its own. So what is asked of a step is asked for every
//!   path whose world the run is at (`RunGraph`), and nothing of two runs that were never made.
#![tactic(auto)]

mod covers;
mod found;
mod graphs;
mod searches;
mod trees;

pub use covers::{Covered, Extent, cover};
pub use found::{Bounds, Found, Told};
pub use graphs::RunGraph;
pub use searches::search;
pub use trees::{NoWatcher, RunTree, Watcher};
