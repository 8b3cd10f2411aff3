//! A whole program over the two seats on one thread, with a whole cycle behind each of its steps.

ghost use Rattle.std.specs.Prelude.{◌≡◌};

use crate::sides::{SPACE, Seats};
use anyhow::{Result, bail};
use ps_ctx::deeds::Deeds;
use ps_ctx::makers::Makers;
use ps_gc::{Naming, named_seats};
use ps_gc_roots::ROOT_LIMIT;
use ps_step_interpreter::interprets::Interpret;
use ps_vault::{ANY_ENTRIES, Outcome, Room, RootList, Setup, Task, Vault};
use std::alloc::Global;
use std::hash::RandomState;

/// More steps than a row's program makes.
const MOST_STEPS: u32 = 10000;

/// What a run came to.
#[derive(Drop)]
pub struct Stressed {
    pub printed: Vec<u8>,
    pub outcome: Outcome,
    pub made: u32,
    pub flips: u32,
}

/// Runs a program by who makes its steps, each of which is followed by `stop_all`.
pub fn stress<J: Naming, S: Interpret + Drop, D: Deeds + Drop>(
    alloc: Global,
    makers: Makers<S, D>,
    keys: RandomState,
    seats: Seats,
    program: &[u8],
) -> Result<Stressed>
    requires { seats.vm.seat.table_id ≡ J.table }
{
    let Seats { vm, gc } = seats;
    let (memory, mut copier) = named_seats::<J>(alloc, vm, gc, SPACE, ROOT_LIMIT)?;
    let mut roots = RootList::new(alloc)?;
    let mut vault = Vault::new(
        alloc,
        memory,
        Task {
            makers,
            program,
            setup: Setup::unbounded(keys),
        },
        Room::of_run(ANY_ENTRIES),
    )?;
    let mut made: u32 = 0;
    'step: for _ in 0..MOST_STEPS {
        let Some(context) = vault.next_ready(0) else {
            break;
        };
        vault.reserve_entries(context)?;
        if let Err(reason) = vault.step(context, false, None) {
            bail!("a step is not made: {reason}");
        }
        made = made.saturating_add(1);
        vault.stop_all(&mut copier, &mut roots);
    }
    let outcome = match vault.next_ready(0) {
        None => vault.outcome(false),
        Some(_) => bail!("steps are left"),
    };
    let flips = vault.counts().flips;
    let printed = vault.into_printed();
    Ok(Stressed {
        printed,
        outcome,
        made,
        flips,
    })
}
