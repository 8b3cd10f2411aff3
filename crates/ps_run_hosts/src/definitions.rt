//! Definitions that a host puts before a program, as text.

ghost use Rattle.std.specs.Prelude.{◌≡◌};
ghost use Rattle.ps_run_hosts.specs.Definitions as spec;
ghost use Rattle.ps_run_hosts.specs.Definitions.{IsDefinedIn};

use crate::handing::hand;
use ps_prologues::{DefinedValue, DefinitionFault, definition};
use std::alloc::Global;

/// The code of a fault: 25, the name is none that a program can have; 26, the string is too long; 17,
/// memory was refused.
fn code_of_fault(fault: DefinitionFault) -> u32
    ensures { result ≡ spec.code_of_fault fault }
{
    match fault {
        DefinitionFault::BadName => 25,
        DefinitionFault::TooLong => 26,
        DefinitionFault::Memory => 17,
    }
}

/// Writes the text of a definition, as much as there is room for, tells how many bytes it has, and gives
/// 0. 25: the name is none that a program can have. 26: the string is too long. 17: memory was refused.
/// Then nothing is written.
pub fn hand_definition(
    alloc: Global,
    name: &[u8],
    value: DefinedValue<'_>,
    room: &mut [u8],
    size: &mut u64,
) -> u32
    ensures { IsDefinedIn name.now value.entry
        (record { text = room.old; size = size.old })
        (record { text = room.new; size = size.new }) result }
{
    let text = match definition(alloc, name, value) {
        Ok(text) => text,
        Err(fault) => return code_of_fault(fault),
    };
    hand(text.as_slice(), room);
    *size = text.len() as u64;
    0
}
