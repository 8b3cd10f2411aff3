//! The export that tells where a context of a run raised its last error.

ghost use Rattle.ps_run_hosts.specs.Places.{IsPlaceBy};

use crate::makers;
use ps_run_hosts::{HostEntry, HostPlace, PastRun, code_of_refusal, hand_place, settings_of};
use std::alloc::Global;

/// Tells where a context raised its last error under the steps of a schedule, which are made again
/// (`hand_place`). Of the settings the keys and the bound on the output count. With 16 a number is out
/// of its range; then nothing is told.
#[unsafe(no_mangle)]
pub extern "C" fn tallowmarch_error_place(
    alloc: Global,
    program: &[u8],
    settings: &[u64],
    given: &[HostEntry],
    context: u32,
    place: &mut HostPlace,
) -> u32
    ensures { IsPlaceBy settings.now program.now place.old place.new result }
{
    match settings_of(settings) {
        Ok(by) => {
            let past = PastRun {
                makers: makers(alloc),
                program,
                settings: &by,
                given,
            };
            hand_place(alloc, past, context, place)
        }
        Err(refusal) => code_of_refusal(refusal),
    }
}
