//! How the program ends: the exit status, and the line that belongs to it.

ghost use Rattle.std.specs.Prelude.{◌≡◌};
ghost use Rattle.ps_run.specs.Telling.{Tells};
ghost use Rattle.ps_run.specs.Driving as driving;

use crate::outputs::Telling;
use ps_vault::Outcome;

/// How the program ends, as an exit status.
#[derive(Clone, Copy, Debug, PartialEq, Eq)]
pub(crate) enum Status {
    Finished,
    Faulted,
    /// A fault of the command line, of a file or of an output.
    Usage,
    AllWaiting,
    StepsOut,
    Memory,
}

/// The exit status as a number.
pub(crate) fn number_of(status: Status) -> u8
    ensures { result ≡ driving.number_of status }
{
    status as u8
}

/// The exit status of a run that ended so.
pub(crate) fn status_of(outcome: Outcome) -> Status
    ensures { result ≡ driving.status_of outcome }
{
    match outcome {
        Outcome::Finished => Status::Finished,
        Outcome::Faulted => Status::Faulted,
        Outcome::AllWaiting => Status::AllWaiting,
        Outcome::StepsOut => Status::StepsOut,
        Outcome::Memory => Status::Memory,
    }
}

/// What an outcome is called.
pub(crate) fn called(outcome: Outcome) -> &'static [u8]
    ensures { result.now ≡ driving.outcome_text outcome }
{
    match outcome {
        Outcome::Finished => b"finished",
        Outcome::Faulted => b"finished with errors",
        Outcome::AllWaiting => b"all contexts wait",
        Outcome::StepsOut => b"steps used up",
        Outcome::Memory => b"out of memory",
    }
}

/// Tells the line that belongs to a status, where it has one.
pub(crate) fn end<X: Telling>(err: &mut X, status: Status) -> Status
    ensures status { result ≡ status }
    ensures told { Tells (X.told err.old) (X.told err.new) (driving.line_of status) }
{
    err.tell(line_of(status).as_bytes());
    status
}

/// The line that belongs to a status, with its newline; empty where it has none.
pub(crate) fn line_of(status: Status) -> &'static str
    ensures { result.now ≡ driving.line_of status }
{
    match status {
        Status::AllWaiting => "dpsrun: all contexts wait\n",
        Status::StepsOut => "dpsrun: steps used up\n",
        Status::Memory => "dpsrun: out of memory\n",
        Status::Finished | Status::Faulted | Status::Usage => "",
    }
}
