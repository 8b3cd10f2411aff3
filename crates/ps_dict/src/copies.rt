//! The pairs of one dictionary put into another (PLRM2, 8 'copy'): a step reads, and asks for
//! records and room, before it writes anything.

ghost use Rattle.std.specs.Prelude.{◌≡◌, ◌≢◌, ◌↔◌, ℕ, ◌+◌, ◌*◌, ◌/◌, ◌^◌, ◌<◌, ◌≤◌, List, [], None, Some, IfOk, OnErr, length, vec_capacity};
ghost use Rattle.std.specs.List.{AllPairs};
ghost use Rattle.ps_language.specs.Limits.{capacity_limit};
ghost use Rattle.ps_language.specs.Value.{Store, Dictionary};
ghost use Rattle.ps_language.specs.Access.{dictionary_at, with_dictionary};
ghost use Rattle.ps_language.specs.Dictionaries.{grown_capacity, holding, put_pairs};
ghost use Rattle.ps_mem.specs.Heap.{birth_at};
ghost use Rattle.ps_mem.specs.Index.{pairs_of_words};
ghost use Rattle.ps_mem.specs.Keeps.{Keeps};
ghost use Rattle.ps_mem.specs.References.{StandsAs};
ghost use Rattle.ps_mem.specs.Shows.{AreValues, IsSound, Shows};
ghost use Rattle.ps_dict.specs.Merges as merges;
ghost use Rattle.ps_dict.specs.Merges.{body_plan, merge_plan_at, merge_planned, merge_words_at, merge_room, planned_words};
ghost use Rattle.ps_dict.specs.Puts.{AfterChange};

use crate::bodies::{Size, complete_body, write_new, write_over};
use crate::dictionaries::{capacity, length};
use crate::merges::{merge_words, merged_count};
use crate::plans::{CAPACITY_LIMIT, next_capacity};
use ps_language::kinds::Kind;
use ps_mem::{Memory, Slot};
use ps_word::words::Word;
use std::alloc::AllocError;

/// Two dictionaries by their addresses: the pairs of one are put into the other.
#[derive(Clone, Copy)]
pub struct Merge {
    /// The dictionary that the pairs go into.
    pub to: u32,
    /// The dictionary whose pairs these are.
    pub from: u32,
}

/// What putting the pairs of one dictionary into another does.
#[derive(Clone, Copy, Debug, PartialEq, Eq)]
pub enum MergePlan {
    /// The source has no pairs, and nothing changes.
    Keep,
    /// So many pairs are written over the body that there is.
    Rewrite { count: u32 },
    /// So many pairs go into a new body of this capacity.
    Grow { count: u32, capacity: u32 },
    /// They would be more than 21,845.
    Full,
}

impl MergePlan {
    /// How many records the put asks for: those of the body and of the number of pairs, or that of
    /// the fields.
    pub fn records(self) -> u32
        ensures { result ≡ merges.records_of self }
    {
        match self {
            MergePlan::Keep | MergePlan::Full => 0,
            MergePlan::Rewrite { .. } => 2,
            MergePlan::Grow { .. } => 1,
        }
    }

    /// How many words of room the put asks for: those of a new body with its header.
    pub fn words(self) -> u32
        requires { (count capacity : ℕ) → self ≡ MergePlan.Grow count capacity
            → capacity ≤ capacity_limit }
        ensures { result ≡ merges.words_of self }
    {
        match self {
            MergePlan::Grow { capacity, .. } => 2 + 3 * capacity,
            MergePlan::Keep | MergePlan::Rewrite { .. } | MergePlan::Full => 0,
        }
    }
}

/// What so many pairs, one at least, do to a dictionary of a capacity.
fn plan_of(count: u32, capacity: u32) -> MergePlan
    requires { capacity ≤ capacity_limit }
    ensures plan { result ≡ body_plan count capacity }
    ensures limit { (pairs grown : ℕ) → result ≡ MergePlan.Grow pairs grown
        → grown ≤ capacity_limit }
{
    if count <= capacity {
        MergePlan::Rewrite { count }
    } else if count <= CAPACITY_LIMIT {
        let grown = next_capacity(capacity, count);
        MergePlan::Grow {
            count,
            capacity: grown,
        }
    } else {
        MergePlan::Full
    }
}

/// What the pairs put together, given by their words, do to a dictionary of a capacity; the list
/// becomes the words of the whole body. `AllocError`: the list lacks room for those, and its growth
/// was refused; it is empty then.
fn plan_body<M: Memory>(
    memory: &mut M,
    capacity: u32,
    scratch: &mut Vec<Word>,
) -> Result<MergePlan, AllocError>
    requires limit { capacity ≤ capacity_limit }
    requires few { length scratch.old.items < 2 ^ 31 }
    requires even { 2 * (length scratch.old.items / 2) ≡ length scratch.old.items }
    requires held { AreValues (M.heap memory.old) scratch.old.items }
    ensures heap { M.heap memory.new ≡ M.heap memory.old }
    ensures grants { M.grants memory.new ≡ M.grants memory.old }
    ensures plan { IfOk result (λ plan. plan ≡ body_plan (length scratch.old.items / 2) capacity) }
    ensures words { IfOk result
        (λ plan. scratch.new.items ≡ planned_words plan (birth_at (M.heap memory.old)) capacity
        (pairs_of_words scratch.old.items)) }
    ensures empty { OnErr result (scratch.new.items ≡ []) }
    ensures full { OnErr result
        (vec_capacity scratch.old < 3 * grown_capacity capacity (length scratch.old.items / 2)) }
    ensures room { vec_capacity scratch.old ≤ vec_capacity scratch.new }
{
    let count = (scratch.len() / 2) as u32;
    let plan = plan_of(count, capacity);
    match plan {
        MergePlan::Rewrite { .. } => complete_body(memory, capacity, scratch)?,
        MergePlan::Grow {
            capacity: grown,
            ..
        } => complete_body(memory, grown, scratch)?,
        MergePlan::Keep | MergePlan::Full => scratch.clear(),
    }
    Ok(plan)
}

/// What putting the pairs of `from` into `to` in order will do; the words of the whole body are put
/// together in `scratch`, which is empty before. `Full` exactly where the pairs would be too many.
///
/// `AllocError`: the list lacks room for the words of the pairs of both, or for those of the whole
/// body, and its growth was refused; it is empty then.
pub fn plan_merge<M: Memory>(
    memory: &mut M,
    merge: Merge,
    scratch: &mut Vec<Word>,
) -> Result<MergePlan, AllocError>
    requires sound { IsSound (M.heap memory.old) }
    requires target { StandsAs (M.heap memory.old) Kind.Dictionary merge.to 4 }
    requires source { StandsAs (M.heap memory.old) Kind.Dictionary merge.from 4 }
    requires empty { scratch.old.items ≡ [] }
    ensures heap { M.heap memory.new ≡ M.heap memory.old }
    ensures grants { M.grants memory.new ≡ M.grants memory.old }
    ensures plan { IfOk result
        (λ plan. plan ≡ merge_plan_at (M.heap memory.old) merge.to merge.from) }
    ensures words { IfOk result
        (λ plan. scratch.new.items ≡ merge_words_at (M.heap memory.old) merge.to merge.from plan) }
    ensures limit { IfOk result
        (λ plan. (count capacity : ℕ) → plan ≡ MergePlan.Grow count capacity
        → capacity ≤ capacity_limit) }
    ensures value { (names : List (List ℕ)) (s : Store) → Shows (M.heap memory.old) names s
        → AllPairs (λ first later. first ≢ later) names → IfOk result
        (λ plan. plan ≡ merge_planned (dictionary_at s (birth_at (M.heap memory.old) merge.to))
        (dictionary_at s (birth_at (M.heap memory.old) merge.from))) }
    ensures full { (names : List (List ℕ)) (s : Store) → Shows (M.heap memory.old) names s
        → AllPairs (λ first later. first ≢ later) names → IfOk result
        (λ plan. (plan ≡ MergePlan.Full) ↔
        (holding (dictionary_at s (birth_at (M.heap memory.old) merge.to))
        (put_pairs (dictionary_at s (birth_at (M.heap memory.old) merge.to)).pairs
        (dictionary_at s (birth_at (M.heap memory.old) merge.from)).pairs) ≡ None)) }
    ensures empty { OnErr result (scratch.new.items ≡ []) }
    ensures short { OnErr result
        (vec_capacity scratch.old < merge_room (M.heap memory.old) merge.to merge.from) }
    ensures room { vec_capacity scratch.old ≤ vec_capacity scratch.new }
{
    if length(memory, merge.from) == 0 {
        return Ok(MergePlan::Keep);
    }
    let capacity = capacity(memory, merge.to);
    merge_words(memory, merge, scratch)?;
    plan_body(memory, capacity, scratch)
}

/// The plan of `plan_merge` by a count of the pairs, which takes no list.
pub fn count_merge<M: Memory>(memory: &mut M, merge: Merge) -> MergePlan
    requires sound { IsSound (M.heap memory.old) }
    requires target { StandsAs (M.heap memory.old) Kind.Dictionary merge.to 4 }
    requires source { StandsAs (M.heap memory.old) Kind.Dictionary merge.from 4 }
    ensures heap { M.heap memory.new ≡ M.heap memory.old }
    ensures grants { M.grants memory.new ≡ M.grants memory.old }
    ensures plan { result ≡ merge_plan_at (M.heap memory.old) merge.to merge.from }
    ensures limit { (count capacity : ℕ) → result ≡ MergePlan.Grow count capacity
        → capacity ≤ capacity_limit }
    ensures value { (names : List (List ℕ)) (s : Store) → Shows (M.heap memory.old) names s
        → AllPairs (λ first later. first ≢ later) names
        → result ≡ merge_planned (dictionary_at s (birth_at (M.heap memory.old) merge.to))
        (dictionary_at s (birth_at (M.heap memory.old) merge.from)) }
{
    let more = length(memory, merge.from);
    if more == 0 {
        return MergePlan::Keep;
    }
    let capacity = capacity(memory, merge.to);
    let count = merged_count(memory, merge);
    plan_of(count, capacity)
}

/// Puts the pairs of `from` into `to` in order, as `plan_merge` planned it in this memory, by the
/// words that it put together: a present key keeps its place and its object, and new ones go last,
/// in their order. The dictionary grows once, by the number of pairs that it has then. The plan's
/// records, at most two, are granted in the slot, and its words.
pub fn put_merged<M: Memory>(
    memory: &mut M,
    slot: Slot,
    merge: Merge,
    plan: MergePlan,
    words: &[Word],
)
    requires plan { plan ≡ merge_plan_at (M.heap memory.old) merge.to merge.from }
    requires possible { plan ≢ MergePlan.Full }
    requires words { words.now ≡ merge_words_at (M.heap memory.old) merge.to merge.from plan }
    requires granted { merges.records_of plan ≤ (M.grants memory.old).records slot }
    requires room { merges.words_of plan ≤ (M.grants memory.old).words }
    requires sound { IsSound (M.heap memory.old) }
    requires target { StandsAs (M.heap memory.old) Kind.Dictionary merge.to 4 }
    requires source { StandsAs (M.heap memory.old) Kind.Dictionary merge.from 4 }
    ensures sound { IsSound (M.heap memory.new) }
    ensures keeps { Keeps (M.heap memory.old) (M.heap memory.new) }
    ensures grants { AfterChange (M.grants memory.old) (M.grants memory.new) slot
        (merges.records_of plan) (merges.words_of plan) }
    ensures shows { (names : List (List ℕ)) (s : Store) → Shows (M.heap memory.old) names s
        → AllPairs (λ first later. first ≢ later) names → (d : Dictionary)
        → holding (dictionary_at s (birth_at (M.heap memory.old) merge.to))
        (put_pairs (dictionary_at s (birth_at (M.heap memory.old) merge.to)).pairs
        (dictionary_at s (birth_at (M.heap memory.old) merge.from)).pairs) ≡ Some d
        → Shows (M.heap memory.new) names
        (with_dictionary s (birth_at (M.heap memory.old) merge.to) d) }
{
    match plan {
        MergePlan::Rewrite { count } => write_over(memory, slot, merge.to, count, words),
        MergePlan::Grow { count, capacity } => {
            write_new(memory, slot, merge.to, Size { count, capacity }, words)
        }
        MergePlan::Keep | MergePlan::Full => {}
    }
}
