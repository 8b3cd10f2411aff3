//! Every order of a program's steps, by the worlds that its runs come to (PLRM2, 7.1).
//!
//! Why so:
//! - Where two orders lead to the same world, all that follows is the same. So each world is kept
//!   once, by its image, and there is no bound on cuts or on steps: a context that spins comes back
//!   to a world that is known.
//! - An image has what a world is read from (`IsWorld`), and nothing else: not how much room a
//!   memory has, nor how often a list has grown.
//! - A run is over a memory of its own, and no vault: what is asked of a step is asked for each
//!   world that the run is at, and a vault tells of one alone.
//! - Which contexts are ready is looked for once behind the steps of a run, and kept beside it. So
//!   asking for the next one changes nothing.
//! - Each world is come to by making its schedule again, so that no world is kept whole. A run that
//!   isn't seen to be where it was before is told as such (`Extent::Lost`), and never followed.
//! - Most of a memory is the words of systemdict, which stand first and don't change. So an image
//!   has how many of its first words are those of the start, and only the others (`Image`).
#![tactic(auto)]

mod exploring;
mod graphs;
mod images;
mod members;
mod memories;
mod names;
mod runs;

pub use exploring::explore_worlds;
pub use images::Image;
