//! The text of the place of an error.

use crate::raised::{CallSite, Raised};
use ps_names::{NameId, Names};
use ps_places::position_of;
use ps_views::{Caller, ErrorPlace, append_place, spot_at};
use ps_word::words::Word;
use std::alloc::{AllocError, Global};

/// The text of a name.
fn text_of<'n>(name: Option<Word>, names: &'n Names) -> Option<&'n [u8]> {
    let number = name?.as_name()?;
    Some(names.text(NameId(number)))
}

/// A program, by the name of its file, and the names of its run.
#[derive(Clone, Copy)]
pub(crate) struct NamedProgram<'t> {
    pub(crate) file: &'t [u8],
    pub(crate) program: &'t [u8],
    pub(crate) names: &'t Names,
}

/// What these places are told as: one for those that are equal, one behind another.
fn callers_of<'s>(
    alloc: Global,
    places: &[CallSite],
    source: NamedProgram<'s>,
) -> Result<Vec<Caller<'s>>, AllocError> {
    let mut callers: Vec<Caller<'s>> = Vec::new(alloc);
    let mut last: Option<CallSite> = None;
    for place in places {
        let again = match last {
            Some(before) => before == *place,
            None => false,
        };
        if again {
            count_again(&mut callers);
        } else {
            callers.push(Caller {
                position: position_of(source.program, place.begin),
                procedure: text_of(place.procedure, source.names),
                times: 1,
            })?;
        }
        last = Some(*place);
    }
    Ok(callers)
}

/// Counts the last caller once more.
fn count_again(callers: &mut Vec<Caller<'_>>) {
    if let Some(caller) = callers.last_mut() {
        caller.times = caller.times.saturating_add(1);
    }
}

/// Appends the text of the place of an error of a context.
pub(crate) fn append_raised(
    alloc: Global,
    context: u32,
    raised: &Raised,
    source: NamedProgram<'_>,
    to: &mut Vec<u8>,
) -> Result<(), AllocError> {
    let Some(error) = raised.error else {
        return Ok(());
    };
    let (spot, behind) = match raised.trail.as_slice().split_first() {
        Some((place, behind)) => {
            let procedure = text_of(place.procedure, source.names);
            (
                Some(spot_at(source.program, place.begin, procedure)),
                behind,
            )
        }
        None => (None, raised.trail.as_slice()),
    };
    let callers = callers_of(alloc, behind, source)?;
    let place = ErrorPlace {
        file: source.file,
        error,
        command: match &raised.command {
            Some(text) => Some(text.as_slice()),
            None => None,
        },
        context,
        step: raised.step,
        spot,
        callers: callers.as_slice(),
    };
    append_place(&place, to)
}
