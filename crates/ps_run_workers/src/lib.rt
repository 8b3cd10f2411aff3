//! Runs of a program in a space that is collected, by workers that take turns under one lock, with a
//! collector on a thread of its own beside them.
//!
//! One lock, the baton, is round the vault and the mutator's seat. The collector and its seat are its
//! thread's. It is lent to the vault, under the lock, to be handed roots and to flip.
//!
//! Why so:
//! - A worker makes up to `TURNS` turns in one hold of the baton, since handing it on costs as much
//!   as some turns. Nothing is lost by it: one worker steps at a time. A hold ends after `STEPS`, so
//!   that what was printed is shown, and in a cycle after `STEPS_IN_CYCLE`, for the collector's
//!   thread. It may end in the middle of a turn: the next one goes on with it (`rest`), so where a
//!   hold ends can't be seen in a schedule. Nor does an error that is caught end a turn.
//! - A cycle is opened behind many steps and not behind each: a test in the loop of a turn would cost
//!   each step. It is opened where more than half is used of what the last one left free. Where most
//!   of a space lives for good, a cycle behind each turn would free nothing.
//! - Workers that ran unchecked would fill the space before it is copied, and each cycle would end in
//!   one long hold. So they wait where they are ahead of the collector (`Pace`).
//! - A busy program would put the flip off for ever: its roots of now are never all copied. So where
//!   a try finds one that isn't, workers wait until what the roots of now reach is copied
//!   (`Cycle::Stopped`).
//! - The collector's thread looks whether it is called where the lock happens to be free
//!   (`try_lock`). It may not wait for it: a worker may stand in the middle of an operator, and what
//!   it waits for may be the collector.
//! - A step that finds no room is tried again after a whole collection, and then refused, in the hold
//!   that collects: else another context could take the room.
//! - The baton keeps that its outcome is that of its vault's world, since what a lock holds is
//!   known by its type alone. So its type also names the run (`Origin`): its program, its numbers
//!   and what its viewer had seen.
//! - Who watches is shown what was printed by the worker that has the lock, behind its turns, so in
//!   order and each byte once. A viewer that is slow holds the others up. Nothing is shown before
//!   all threads are started, since a run whose thread can't be started prints nothing.
//! - `run_serial` is over plain words, and its collector works between steps: a host that wants no
//!   thread needs no shared word, each of which is dearer. The baton is the same.
//! - `run_alone` is that with no lock: a host's thread makes the turns itself. So it may be called
//!   where nothing may wait, and its return is proved. It takes from a schedule whose turns come
//!   first, and makes them as its own: so a turn that the schedule ends in goes on behind it, as it
//!   would in a run that wasn't cut.
//! - A run that stands (`Standing`) is a baton that is taken apart between slices, and put together for
//!   each: its vault is lent the program that the run owns. The baton's type names what it goes on
//!   from, so what was made before stays its beginning. No one has to change the crates below.
//! - Over plain words the collector acts behind whole turns, behind a `vmreclaim` and, in an open cycle,
//!   behind each step, and not wherever a batch of steps happened to end. So where slices lie can't be
//!   seen in what `vmstatus` shows.
//! - Each memory gets marks of names here (`Marked`), around what is given.
//! - A gate is a memory around a memory (`Gated`) and a collector around a collector
//!   (`GatedCollector`), so a run without one pays nothing. That it is told of each store is shown by
//!   tests alone.
#![tactic(auto)]

mod batons;
mod cycles;
mod gates;
mod loops;
mod origins;
mod paces;
mod pauses;
mod runs;
mod serial;
mod serving;
mod standing;
mod waits;

pub use gates::Gate;
pub use runs::{SpaceRun, run, run_alone, run_gated, run_serial, run_shown, stand};
pub use standing::Standing;
