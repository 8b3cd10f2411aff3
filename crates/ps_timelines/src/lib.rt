//! A run as a picture: a lane for each context, over the steps of the run, as SVG.
//!
//! Why so:
//! - A picture is told by plain data: for each lane and series the intervals of steps. So this
//!   crate knows neither contexts nor schedules, and whoever walks along a run makes an interval
//!   only where something changes.
//! - What a column shows is told by exact shares (`share`): a step and a column are counted in
//!   parts of which both have a whole number. So all numbers are whole, and the code divides as the
//!   definitions do.
//! - A path is drawn edge by edge: what stands at an edge follows from the levels of its two
//!   columns alone (`edge_text`). So neighbours of one level are one stretch, and a picture is as
//!   large as its lanes, however long the run is.
//! - Lanes and arrows are moved to their place by groups, and styles stand at one place. So most
//!   of the text is the same in each lane. There is no script in it.
#![tactic(auto)]

mod arrows;
mod bytes;
mod columns;
mod keys;
mod lanes;
mod levels;
mod moments;
mod notes;
mod pictures;
mod series;

pub use arrows::Arrow;
pub use columns::Interval;
pub use lanes::{ErrorLabel, Lane};
pub use levels::LaneIntervals;
pub use moments::{Moment, State};
pub use pictures::{Timeline, append_picture};
