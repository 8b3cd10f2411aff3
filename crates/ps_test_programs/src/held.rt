//! A log that is closed between two steps.

use crate::fakes::task_of;
use crate::rows::Verdict;
use crate::runs::CONFIG;
use ps_gc::{Inside, SerialSpaces};
use ps_mem::Slot;
use ps_ops_operands::failure::NotMade;
use ps_vault::{ANY_ENTRIES, Closing, Config, Room, RootList, Vault};
use std::alloc::{AllocError, Global};
use std::hash::RandomState;

/// The first context, and the slot of its log.
const FIRST: u32 = 1;

const SLOT: u32 = 1;

/// More steps than any row needs.
const AMPLE: u32 = 100;

/// Whether a closed log holds the first store of a program up until its cycle has ended, in a space
/// of so many words, and the program prints this then. Fails for want of memory.
pub fn held_up(
    alloc: Global,
    keys: RandomState,
    program: &[u8],
    printed: &[u8],
    space: u32,
) -> Result<Verdict, AllocError> {
    if !(Config { space, ..CONFIG }).is_within() {
        return Ok(Verdict::Different);
    }
    let memory = SerialSpaces::new(alloc, space)?;
    let mut roots = RootList::new(alloc)?;
    let mut vault = Vault::new(
        alloc,
        memory,
        task_of(alloc, keys, program),
        Room {
            first: 4,
            most: ANY_ENTRIES,
        },
    )?;
    if vault.is_open() || !vault.open_cycle() {
        return Ok(Verdict::Different);
    }
    vault.hand_over(&mut Inside, &mut roots);
    let first = vault.close_log(Slot::of(SLOT));
    let again = vault.close_log(Slot::of(SLOT));
    vault.reserve_entries(FIRST)?;
    if !vault.is_ready(FIRST) {
        return Ok(Verdict::Different);
    }
    let held = vault.advance(FIRST, AMPLE, true);
    let stays_open = vault.is_open();
    let has_ended = vault.end_cycle(&mut Inside, &mut roots);
    let is_shut = !vault.is_open();
    if vault.caller().is_some() || !vault.is_ready(FIRST) {
        return Ok(Verdict::Different);
    }
    let turn = vault.turns(FIRST, AMPLE, AMPLE);
    let text = vault.into_printed();
    if held.told == Err(NotMade::Memory) || turn.is_held_up() {
        return Ok(Verdict::WantsMemory);
    }
    let is_closed = first == Closing::Closed && again == Closing::Closed;
    let is_held = held.told == Err(NotMade::LogClosed) && stays_open;
    let is_ended = has_ended && is_shut;
    Ok(Verdict::of(is_closed && is_held && is_ended && text.as_slice() == printed))
}
