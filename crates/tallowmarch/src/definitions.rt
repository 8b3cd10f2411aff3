//! The exports that give the text of a definition, which a host puts before a program.
//!
//! Each tells a code. 0: the text is written, as much of it as there is room for, and its number of bytes
//! is told. 25: the name is none that a program can have. 26: the string is too long. 17: memory was
//! refused. In the last three cases nothing is written.

ghost use Rattle.std.specs.Prelude.{◌==◌, not};
ghost use Rattle.ps_run_hosts.specs.Definitions.{IsDefinedIn};

use ps_prologues::DefinedValue;
use ps_run_hosts::hand_definition;
use std::alloc::Global;

/// The text that defines a name as an integer: `/NAME 5 def` and a line feed.
#[unsafe(no_mangle)]
pub extern "C" fn tallowmarch_define_integer(
    alloc: Global,
    name: &[u8],
    number: i32,
    room: &mut [u8],
    size: &mut u64,
) -> u32
    ensures { IsDefinedIn name.now (DefinedValue.Integer number)
        (record { text = room.old; size = size.old })
        (record { text = room.new; size = size.new }) result }
{
    hand_definition(alloc, name, DefinedValue::Integer(number), room, size)
}

/// The text that defines a name as a boolean, which is true where the number isn't 0: `/NAME true def`
/// and a line feed.
#[unsafe(no_mangle)]
pub extern "C" fn tallowmarch_define_boolean(
    alloc: Global,
    name: &[u8],
    truth: u32,
    room: &mut [u8],
    size: &mut u64,
) -> u32
    ensures { IsDefinedIn name.now (DefinedValue.Boolean (not (truth == 0)))
        (record { text = room.old; size = size.old })
        (record { text = room.new; size = size.new }) result }
{
    hand_definition(alloc, name, DefinedValue::Boolean(truth != 0), room, size)
}

/// The text that defines a name as a string of these bytes: `/NAME <68656c6c6f> def` and a line feed.
#[unsafe(no_mangle)]
pub extern "C" fn tallowmarch_define_string(
    alloc: Global,
    name: &[u8],
    bytes: &[u8],
    room: &mut [u8],
    size: &mut u64,
) -> u32
    ensures { IsDefinedIn name.now (DefinedValue.Text bytes.entry)
        (record { text = room.old; size = size.old })
        (record { text = room.new; size = size.new }) result }
{
    hand_definition(alloc, name, DefinedValue::Text(bytes), room, size)
}
