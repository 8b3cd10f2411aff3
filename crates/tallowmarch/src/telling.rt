//! The exports that tell of the values of a run that stands: operands, definitions, and the last error.
//!
//! Each tells a code. 0: the value is told, and its bytes are written. 24: it is told, and the room has
//! no place for its bytes. 22: no context has the identifier, or it is ended. 23: the context has no
//! value there. 20: no run stands. In the last three cases the value stays as it was, and in the last
//! four the room does.

ghost use Rattle.std.specs.Prelude.{◌≡◌};
ghost use Rattle.ps_run_hosts.specs.Values.{IsValueIn};
ghost use Rattle.tallowmarch.specs.Handles.{told};

use crate::handles::Run;
use ps_ctx_readers::views::Place;
use ps_run_hosts::{HostValue, Refusal, code_of_refusal};
use std::alloc::Global;

/// Tells of what a context of the run has at a place.
fn tell(
    alloc: Global,
    run: &mut Run,
    asked: (u32, Place<'_>),
    value: &mut HostValue,
    room: &mut [u8],
) -> u32
    ensures same { told run.new.handle.value ≡ told run.old.handle.value }
    ensures told { IsValueIn (told run.old.handle.value) asked.entry.0 asked.entry.1
        (record { value = value.old; bytes = room.old })
        (record { value = value.new; bytes = room.new }) result }
{
    let Some(mut engine) = run.take(alloc) else {
        return code_of_refusal(Refusal::Closed);
    };
    let code = engine.value(asked.0, asked.1, value, room);
    run.put(engine);
    code
}

/// Tells of the operand of a context below so many others: the topmost is that below 0.
#[unsafe(no_mangle)]
pub extern "C" fn tallowmarch_operand(
    alloc: Global,
    run: &mut Run,
    context: u32,
    depth: usize,
    value: &mut HostValue,
    room: &mut [u8],
) -> u32
    ensures same { told run.new.handle.value ≡ told run.old.handle.value }
    ensures told { IsValueIn (told run.old.handle.value) context (Place.Operand depth)
        (record { value = value.old; bytes = room.old })
        (record { value = value.new; bytes = room.new }) result }
{
    tell(alloc, run, (context, Place::Operand(depth)), value, room)
}

/// Tells of what `userdict` has under the name of these bytes. The dictionary is shared: any context
/// that is left may be asked.
#[unsafe(no_mangle)]
pub extern "C" fn tallowmarch_definition(
    alloc: Global,
    run: &mut Run,
    context: u32,
    name: &[u8],
    value: &mut HostValue,
    room: &mut [u8],
) -> u32
    ensures same { told run.new.handle.value ≡ told run.old.handle.value }
    ensures told { IsValueIn (told run.old.handle.value) context (Place.Definition name.entry)
        (record { value = value.old; bytes = room.old })
        (record { value = value.new; bytes = room.new }) result }
{
    tell(alloc, run, (context, Place::Definition(name)), value, room)
}

/// Tells of the name of a context's last error, as its `$error` has it under `errorname`: null before
/// the first.
#[unsafe(no_mangle)]
pub extern "C" fn tallowmarch_error_name(
    alloc: Global,
    run: &mut Run,
    context: u32,
    value: &mut HostValue,
    room: &mut [u8],
) -> u32
    ensures same { told run.new.handle.value ≡ told run.old.handle.value }
    ensures told { IsValueIn (told run.old.handle.value) context Place.ErrorName
        (record { value = value.old; bytes = room.old })
        (record { value = value.new; bytes = room.new }) result }
{
    tell(alloc, run, (context, Place::ErrorName), value, room)
}

/// Tells of what raised a context's last error, as its `$error` has it under `command`: null before the
/// first.
#[unsafe(no_mangle)]
pub extern "C" fn tallowmarch_error_command(
    alloc: Global,
    run: &mut Run,
    context: u32,
    value: &mut HostValue,
    room: &mut [u8],
) -> u32
    ensures same { told run.new.handle.value ≡ told run.old.handle.value }
    ensures told { IsValueIn (told run.old.handle.value) context Place.ErrorCommand
        (record { value = value.old; bytes = room.old })
        (record { value = value.new; bytes = room.new }) result }
{
    tell(alloc, run, (context, Place::ErrorCommand), value, room)
}
