//! Why the run of elements breaks off at an operator.

ghost use Rattle.std.specs.Prelude.{◌≡◌};
ghost use Rattle.ps_ops_state.specs.Breaks as breaks;

use ps_language::errors::ErrorName;
use ps_ops_control::frames::Cause;
use ps_ops_operands::failure::{Failure, NotMade};
use thiserror::Error;

/// Why an operator did not leave its context running.
#[derive(Clone, Copy, Debug, PartialEq, Eq, Error)]
pub enum Break {
    /// An unwinding begins (PLRM2, 8: exit, stop, quit).
    #[error("an unwinding begins")]
    Unwinds(Cause),
    /// An error of the language (PLRM2, 3.10). But for names that a refused step formed, nothing
    /// has changed.
    #[error("an error of the language")]
    Raises(ErrorName),
    /// The step can't be made; nothing has changed, and it may be tried again.
    #[error(transparent)]
    NotMade(NotMade),
}

/// What an operator that is always made came to.
#[inline(always)]
pub fn made(outcome: Result<(), ErrorName>) -> Result<(), Break>
    ensures { result ≡ breaks.made outcome }
{
    match outcome {
        Ok(()) => Ok(()),
        Err(error) => Err(Break::Raises(error)),
    }
}

/// What an operator that may not be made came to.
#[inline(always)]
pub fn tried(outcome: Result<(), Failure>) -> Result<(), Break>
    ensures { result ≡ breaks.tried outcome }
{
    match outcome {
        Ok(()) => Ok(()),
        Err(Failure::Error(error)) => Err(Break::Raises(error)),
        Err(Failure::NotMade(reason)) => Err(Break::NotMade(reason)),
    }
}
