//! How far a context is.

use ps_ops_control::frames::Cause;
use ps_step_outcome::world_operators::WorldOperator;

/// How far a context is.
#[derive(Clone, Copy, Debug, PartialEq, Eq)]
pub enum AloneCourse {
    Running,
    /// Frames are taken off, for a cause.
    Unwinding(Cause),
    /// The element of an operator that is left to the world is taken, and its error waits to be
    /// noted.
    Calling(WorldOperator),
    Finished,
}
