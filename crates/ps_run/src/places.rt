//! What is told of the places of a run's errors.

ghost use Rattle.std.specs.Prelude.{◌≡◌, IfOk, IfSome, is_some};
ghost use Rattle.ps_run.specs.Driving as driving;
ghost use Rattle.ps_run.specs.Driving.{ArePlaces, names_of, told_of};

use ps_ctx::deeds::Deeds;
use ps_ctx::makers::Makers;
use ps_run_options::{Options, ProgramSource};
use ps_step_interpreter::interprets::Interpret;
use ps_vault::{ANY_OUTPUT, Outcome, Report, Setup};
use ps_walks::{Rerun, WalkFault, places_of};
use std::alloc::{AllocError, Global};
use std::hash::RandomState;

/// What is told of the places of a run's errors.
#[derive(Drop)]
pub(crate) enum Places {
    /// Nothing is to be told.
    Unasked,
    /// These lines.
    Told(Vec<u8>),
    /// That the run can't be made again.
    Untold(WalkFault),
}

impl Places {
    /// The bytes that are told.
    pub(crate) fn text(&self) -> &[u8]
        ensures { result.now ≡ told_of self.now }
    {
        match self {
            Places::Unasked => b"",
            Places::Told(text) => text.as_slice(),
            Places::Untold(WalkFault::Memory) => b"dpsrun: no places: out of memory\n",
            Places::Untold(WalkFault::TooLarge) => {
                b"dpsrun: no places: the run is too large to be made again\n"
            }
        }
    }
}

/// A program that can be run again: who makes its steps, and the keys of its table of names.
#[derive(Drop)]
pub(crate) struct Again<'a, S: Drop, D: Drop> {
    pub(crate) makers: Makers<S, D>,
    pub(crate) program: &'a [u8],
    pub(crate) keys: RandomState,
}

/// The program once more, where that is asked for. Fails for want of memory.
pub(crate) fn again_of<'a, S: Clone + Drop, D: Clone + Drop>(
    is_asked: bool,
    makers: &Makers<S, D>,
    program: &'a [u8],
    keys: RandomState,
) -> Result<Option<Again<'a, S, D>>, AllocError>
    ensures asked { IfOk result (λ again. is_some again ≡ is_asked) }
    ensures program { IfOk result
        (λ again. IfSome again (λ one. one.program.now ≡ program.entry.now)) }
{
    if !is_asked {
        return Ok(None);
    }
    let makers = Makers {
        steps: makers.steps.clone()?,
        operators: makers.operators.clone()?,
    };
    Ok(Some(Again {
        makers,
        program,
        keys,
    }))
}

/// A program that is run again for the places of its errors, and for its picture, where each is asked
/// for.
#[derive(Drop)]
pub(crate) struct SecondRuns<'a, S: Drop, D: Drop> {
    pub(crate) places: Option<Again<'a, S, D>>,
    pub(crate) picture: Option<Again<'a, S, D>>,
}

/// The program once more for each of what is asked for. Fails for want of memory.
pub(crate) fn second_runs_of<'a, S: Clone + Drop, D: Clone + Drop>(
    options: &Options<'_>,
    makers: &Makers<S, D>,
    program: &'a [u8],
    keys: RandomState,
) -> Result<SecondRuns<'a, S, D>, AllocError>
    ensures places { IfOk result (λ again. is_some again.places ≡ options.now.places) }
    ensures picture { IfOk result
        (λ again. is_some again.picture ≡ is_some options.now.timeline_file) }
    ensures program { IfOk result
        (λ again. IfSome again.picture (λ one. one.program.now ≡ program.entry.now)) }
{
    Ok(SecondRuns {
        places: again_of(options.places, makers, program, keys)?,
        picture: again_of(options.timeline_file.is_some(), makers, program, keys)?,
    })
}

/// What the program is called where things in it are told.
pub(crate) fn program_name<'a>(options: &Options<'a>) -> &'a [u8]
    ensures { result.now ≡ driving.program_name (names_of options.now) }
{
    match options.source {
        ProgramSource::File(name) => name.as_bytes(),
        ProgramSource::Text(_) => b"-e",
    }
}

/// What is told of the places of the errors of a run.
pub(crate) fn places_in<S: Interpret + Drop, D: Deeds + Drop>(
    alloc: Global,
    again: Option<Again<'_, S, D>>,
    options: &Options<'_>,
    report: &Report,
) -> Places
    requires asked { is_some again ≡ options.now.places }
    ensures { ArePlaces options.now.places report.now (told_of result) }
{
    let Some(
        Again {
            makers,
            program,
            keys,
        },
    ) = again
    else {
        return Places::Unasked;
    };
    if report.outcome == Outcome::Finished {
        return Places::Unasked;
    }
    let setup = Setup {
        keys,
        output: ANY_OUTPUT,
    };
    let run = Rerun {
        makers,
        program,
        setup,
        file: program_name(options),
    };
    match places_of(alloc, run, report.schedule.entries()) {
        Ok(text) => Places::Told(text),
        Err(fault) => Places::Untold(fault),
    }
}
