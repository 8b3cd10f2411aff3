//! Dictionaries in any memory.
//!
//! Why so:
//! - A put is planned first (`plan_put`): how many records and words it takes depends on what is
//!   there, and a step asks before it writes. `put` wants the plan that was made in this memory.
//! - The entries of an error are one call (`put_error`). Three puts would take up to nine records,
//!   and a step may put five; so new pairs wait and go in together.
//! - The index is part of what makes a dictionary sound, and not of what a memory shows. So a
//!   search asks for soundness alone, and a change of a body and its index is proved as one.
//! - A search looks at a share of the index's places (`looks_in`), and then goes through the pairs
//!   in order. A key that is there mostly stands near its place, and a full index tells little of
//!   an absent one.
//! - The name of an operator is looked for in dictionaries that never had it, and a full one has no
//!   null to end a search at. The memory's marks tell it, and they are asked only where the first
//!   place has another key: most searches end before.
//! - The first place is looked at in line and all others by a call (`near_position`,
//!   `indexed_position`). Most searches end at the first.
//! - Two words are the same key by their bits without access and attribute (`is_same_key`): names
//!   by number, objects by address. A string is no key; it becomes a name before.
//! - `remainder` finds a key's first place by a mask or one difference where it can, and by a
//!   division only else. The first capacity of `userdict` therefore stands in its code.
//! - A copy is put together outside the memory and written as one body, so its final count is known
//!   before anything is asked for. It costs a list for the whole body.
//! - `remove` stores the index as one range, so it takes the caller's list and may want memory.
//!   Nothing has changed where the list can't grow.
#![tactic(auto)]

mod appends;
mod bodies;
pub mod cells;
pub mod changes;
pub mod copies;
pub mod dictionaries;
pub mod entries;
mod fills;
pub mod index;
pub mod keys;
pub mod makes;
mod merges;
pub mod plans;
pub mod removals;
