//! The mutator's seat and the collector's, and the words that they step through: a memory whose
//! words a collector copies meanwhile. No call waits.
//!
//! The words are shared, a table of atomic words with two seats, or plain, with one seat that has
//! both parts (`Words`). Whatever the seats do in whatever order: some interleaving of their steps
//! is a run of the collector's machine, the words are those of its state, and the part that each
//! seat knows is that state's (`Shows`). So the laws of runs hold between any two steps.
//!
//! Why so:
//! - A seat's calls say that they stay at their table, and repeat the clauses of `Memory`, since
//!   the clauses of an `impl` replace the trait's. So the module `memory` has that contract a
//!   second time.
//! - What a seat's call did is its view; `Memory` says nothing of events. So only `permit`, the
//!   calls of `VmSeat` itself and the steps below them name their events.
//! - Plain words keep no history. So each plain load or store also loads one word that means
//!   nothing, and the view notes the step by it.
//! - Proofs of a seat's methods cite the lemmas behind `law` and don't call it: such a call in each
//!   load would have to be inlined away. So these lemmas are `pub`.
//! - The flip is a call of the seat that has both parts, lent the mutator's numbers
//!   (`store_cycle`): it alone knows both where the replicas end and what the roots are. Who calls
//!   it names the roots (`StepNaming`), since the store's word doesn't have them.
//! - `counts` gives the 32 heads and not their sum, which may not fit one number. Whoever adds them
//!   knows a bound.
#![tactic(auto)]

mod collector;
mod copies;
mod cycles;
mod flips;
mod gc_steps;
mod hands;
mod joins;
mod looks;
mod memory;
mod mirror;
mod mutator;
mod objects;
mod plain_words;
mod plays;
mod reads;
mod shared;
mod steps;
mod stores;
mod words;
mod writes;

pub use collector::GcSeat;
pub use joins::{join, part};
pub use mirror::Mirror;
pub use mutator::VmSeat;
pub use plain_words::PlainWords;
pub use plays::{Heap, StepNaming, View};
pub use shared::SharedSeats;
pub use words::{SharedTable, SharedWords, Words};
