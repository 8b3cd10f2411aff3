//! What a context does in a step of a run, as its lane shows it.

ghost use Rattle.std.specs.Prelude.{◌≡◌};
ghost use Rattle.ps_timelines.specs.Moments as moments;

use crate::series::Series;

/// What a context is in during a step.
#[derive(Clone, Copy, Debug, PartialEq, Eq)]
pub enum State {
    /// It makes the step.
    Steps,
    /// It may go on, and another makes the step.
    Ready,
    /// It waits for a lock, for a condition, or for another context to join.
    Lock,
    Condition,
    Join,
    /// It isn't made yet, or it is finished or ended.
    Away,
}

/// What a context does in a step.
#[derive(Clone, Copy, Debug, PartialEq, Eq)]
pub struct Moment {
    pub state: State,
    /// Whether it has a lock.
    pub owner: bool,
    /// Whether it makes the step, and that prints.
    pub prints: bool,
    /// Whether it makes the step, and that fails.
    pub fails: bool,
}

/// Whether a step is marked in a series.
pub(crate) fn is_marked(series: Series, moment: Moment) -> bool
    ensures { result ≡ moments.is_marked series moment }
{
    match series {
        Series::Ready => matches!(moment.state, State::Ready),
        Series::Lock => matches!(moment.state, State::Lock),
        Series::Condition => matches!(moment.state, State::Condition),
        Series::Join => matches!(moment.state, State::Join),
        Series::Steps => matches!(moment.state, State::Steps),
        Series::Owner => moment.owner,
        Series::Print => moment.prints,
        Series::Error => moment.fails,
    }
}
