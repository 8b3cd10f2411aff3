//! What a step that was made came to.

use crate::world_operators::WorldOperator;
use ps_ops_control::frames::Cause;

/// What a step that was made came to.
#[derive(Clone, Copy, Debug, PartialEq, Eq)]
pub enum Turned {
    /// The context goes on, or ends where no frame is left.
    Goes,
    /// An operator on contexts, locks or the shown memory is left to the world; its element is
    /// taken, and nothing else has changed.
    Calls(WorldOperator),
    /// An unwinding begins or goes on; a frame is left.
    Breaks(Cause),
    /// The context ends by an unwinding.
    Ends {
        /// Whether the line of its error was printed.
        told: bool,
    },
}
