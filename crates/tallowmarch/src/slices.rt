//! The exports for runs that stand between a host's calls.
//!
//! Each takes what the handle has out, and puts it back. So between two calls the handle alone has it.

ghost use Rattle.std.specs.Prelude.{◌≡◌, None};
ghost use Rattle.ps_run_hosts.specs.Handles.{HasStarted, IsAdvancedIn, IsCountedIn, IsPrintedIn, IsScheduledIn, IsStartedIn};
ghost use Rattle.ps_run_hosts.specs.Hosts.{IsMadeOf};
ghost use Rattle.tallowmarch.specs.Handles.{told};

use crate::engines::Engine;
use crate::handles::Run;
use crate::makers;
use ps_ctx_operators::operators::WorldOperators;
use ps_ops::operators::Operators;
use ps_run_hosts::{HostEntry, Refusal, code_of_refusal, settings_of, start_for};
use ps_run_workers::SpaceRun;
use ps_step::steps::Steps;
use ps_step_interpreter::interprets::Interpret;
use std::alloc::Global;

/// Starts a run by a host's numbers (`start_for`).
fn start_by(
    alloc: Global,
    program: &[u8],
    numbers: &[u64],
) -> Result<SpaceRun<Steps<Operators>, WorldOperators>, Refusal>
    ensures { IsMadeOf numbers.now (HasStarted program.now) result }
{
    match settings_of(numbers) {
        Ok(by) => start_for(alloc, makers(alloc), program, &by),
        Err(refusal) => Err(refusal),
    }
}

/// Starts a run of a program that stands in a handle until it is closed, and tells 0. No step of it is
/// made, and the program is copied. 16: a number of the settings is out of its range, or asks for
/// memory that grows. 17: there is no room to start with. 21: a run stands there already, and goes on
/// standing.
#[unsafe(no_mangle)]
pub extern "C" fn tallowmarch_start(
    alloc: Global,
    program: &[u8],
    settings: &[u64],
    run: &mut Run,
) -> u32
    ensures { IsStartedIn program.now settings.now (told run.old.handle.value)
        (told run.new.handle.value) result }
{
    if let Some(engine) = run.take(alloc) {
        if engine.run.is_some() {
            run.put(engine);
            return code_of_refusal(Refusal::Open);
        }
    }
    let made = start_by(alloc, program, settings);
    let begun = match made {
        Ok(begun) => begun,
        Err(refusal) => return code_of_refusal(refusal),
    };
    let Ok(engine) = Box::new(alloc, Engine { run: Some(begun) }) else {
        return code_of_refusal(Refusal::NoRoom);
    };
    run.put(engine);
    0
}

/// Makes a slice of the run that stands, of at most so many steps, and tells how it ended, as the code
/// of a run that ends here: with 4 it may go on, and with 5 it may try again. A slice cuts no turn: where
/// slices lie can't be seen in bytes and schedule. 16: no step is asked for. 20: no run stands.
#[unsafe(no_mangle)]
pub extern "C" fn tallowmarch_advance(alloc: Global, run: &mut Run, steps: u32) -> u32
    ensures { IsAdvancedIn ⟦<Steps<Operators> as Interpret>⟧.asks steps
        (told run.old.handle.value) (told run.new.handle.value) result }
{
    let Some(mut engine) = run.take(alloc) else {
        return code_of_refusal(Refusal::Closed);
    };
    let code = engine.advance(steps);
    run.put(engine);
    code
}

/// Writes what the run printed from a place on, as many bytes as there is room for, and tells how many
/// it printed in all so far: 0 where none stands.
#[unsafe(no_mangle)]
pub extern "C" fn tallowmarch_printed(
    alloc: Global,
    run: &mut Run,
    from: usize,
    room: &mut [u8],
) -> usize
    ensures same { told run.new.handle.value ≡ told run.old.handle.value }
    ensures printed { IsPrintedIn (told run.old.handle.value) from room.old room.new result }
{
    let Some(engine) = run.take(alloc) else {
        return 0;
    };
    let count = engine.printed(from, room);
    run.put(engine);
    count
}

/// Writes the entries of the run's schedule from a place on, as many as there is room for, and tells
/// how many there are in all so far: 0 where none stands. The next slice's steps may join the last one.
#[unsafe(no_mangle)]
pub extern "C" fn tallowmarch_entries(
    alloc: Global,
    run: &mut Run,
    from: usize,
    room: &mut [HostEntry],
) -> usize
    ensures same { told run.new.handle.value ≡ told run.old.handle.value }
    ensures entries { IsScheduledIn (told run.old.handle.value) from room.old room.new result }
{
    let Some(engine) = run.take(alloc) else {
        return 0;
    };
    let count = engine.schedule(from, room);
    run.put(engine);
    count
}

/// Tells how much the run came to so far, and 0; 20 where none stands: then nothing is written.
#[unsafe(no_mangle)]
pub extern "C" fn tallowmarch_counts_of(alloc: Global, run: &mut Run, counts: &mut [u64]) -> u32
    ensures same { told run.new.handle.value ≡ told run.old.handle.value }
    ensures counts { IsCountedIn (told run.old.handle.value) counts.old counts.new result }
{
    let Some(engine) = run.take(alloc) else {
        return code_of_refusal(Refusal::Closed);
    };
    let code = engine.counts(counts);
    run.put(engine);
    code
}

/// Frees all that the run has. None stands then; a second call does nothing.
#[unsafe(no_mangle)]
pub extern "C" fn tallowmarch_close(alloc: Global, run: &mut Run)
    ensures { run.new.handle.value ≡ None }
{
    let _ = run.take(alloc);
}
