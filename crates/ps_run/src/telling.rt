//! What is told of a command line that is refused.

ghost use Rattle.std.specs.Prelude.{◌≡◌, ◌⊎◌};
ghost use Rattle.clap.specs.Values.{kind_of};
ghost use Rattle.ps_run.specs.Driving as driving;
ghost use Rattle.ps_run.specs.Telling.{Tells};

use crate::outputs::Telling;
use crate::statuses::{Status, end, number_of};
use clap::Error;
use clap::error::ErrorKind;
use ps_run_options::no_text;
use std::alloc::Global;

/// Tells that the words of a command line are no text, and gives the exit status: 2, or 5 where
/// there is no memory to tell it.
pub fn refuse_no_text<X: Telling>(alloc: Global, err: &mut X) -> u8
    ensures { (result ≡ 2) ⊎ (result ≡ 5) }
{
    match no_text(alloc) {
        Ok(error) => number_of(refuse(alloc, &error, err)),
        Err(_) => number_of(end(err, Status::Memory)),
    }
}

/// Tells why the words were not read: a fault of theirs, or want of memory.
pub(crate) fn refuse<X: Telling>(alloc: Global, error: &Error, err: &mut X) -> Status
    ensures { ((result ≡ Status.Memory)
        × Tells (X.told err.old) (X.told err.new) (driving.line_of Status.Memory))
        ⊎ ((result ≡ Status.Usage) × ¬ (kind_of error.now ≡ ErrorKind.OutOfMemory)) }
{
    if error.kind() == ErrorKind::OutOfMemory {
        return end(err, Status::Memory);
    }
    let Ok(text) = format!(in alloc; "{error}") else {
        return end(err, Status::Memory);
    };
    err.tell(text.as_bytes());
    Status::Usage
}
