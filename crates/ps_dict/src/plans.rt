//! What a put will do (PLRM2, 3.3.9 and 8: put, def, store): a step reads and asks for records and
//! room before it writes anything.

ghost use Rattle.std.specs.Prelude.{◌≡◌, ◌≢◌, ◌↔◌, ◌+◌, ◌<◌, ◌≤◌, ◌^◌, ℕ, List, None};
ghost use Rattle.std.specs.List.{AllPairs};
ghost use Rattle.ps_language.specs.Limits.{capacity_limit};
ghost use Rattle.ps_language.specs.Value.{Store, Value};
ghost use Rattle.ps_language.specs.Access.{dictionary_at};
ghost use Rattle.ps_language.specs.Dictionaries.{grown_capacity, holding, put_pair};
ghost use Rattle.ps_mem.specs.Heap.{birth_at};
ghost use Rattle.ps_mem.specs.References.{StandsAs};
ghost use Rattle.ps_mem.specs.Meaning.{value_of};
ghost use Rattle.ps_mem.specs.Shows.{IsValue, IsSound, IsWithin, Shows};
ghost use Rattle.ps_dict.specs.Puts as puts;
ghost use Rattle.ps_dict.specs.Puts.{planned, plan_at};

use crate::dictionaries::{capacity, length, put_position};
use ps_language::kinds::Kind;
use ps_mem::Memory;
use ps_word::words::Word;

/// The pairs that a dictionary may have (PLRM2, appendix B).
pub const CAPACITY_LIMIT: u32 = 21845;

/// What a put of a key does.
#[derive(Clone, Copy, Debug, PartialEq, Eq)]
pub enum PutPlan {
    /// The key is there, at this place, and keeps its place and its object: its value is replaced.
    Replace(u32),
    /// The pair goes last, where there is room.
    Append,
    /// The pair goes last, in a new body of this capacity.
    Grow(u32),
    /// The dictionary already has 21,845 pairs, and the key is new.
    Full,
}

impl PutPlan {
    /// How many records the put asks for.
    #[inline(always)]
    pub fn records(self) -> u32
        ensures { result ≡ puts.records_of self }
    {
        match self {
            PutPlan::Replace(_) | PutPlan::Grow(_) => 1,
            PutPlan::Append => 3,
            PutPlan::Full => 0,
        }
    }

    /// How many words of room the put asks for: those of a new body with its header.
    #[inline(always)]
    pub fn words(self) -> u32
        requires { (capacity : ℕ) → self ≡ PutPlan.Grow capacity → capacity ≤ capacity_limit }
        ensures { result ≡ puts.words_of self }
    {
        match self {
            PutPlan::Grow(capacity) => 2 + 3 * capacity,
            PutPlan::Replace(_) | PutPlan::Append | PutPlan::Full => 0,
        }
    }
}

/// The capacity of a dictionary that is to have a pair more than its capacity: twice the capacity
/// and four, at most 21,845.
pub(crate) fn next_capacity(capacity: u32, count: u32) -> u32
    requires full { capacity < count }
    requires limit { capacity < capacity_limit }
    requires few { count ≤ capacity_limit }
    ensures { result ≡ grown_capacity capacity count }
{
    count.max(2 * capacity + 4).min(CAPACITY_LIMIT)
}

/// What a put of a key will do. `Full` exactly where the pairs would be too many.
#[inline(always)]
pub fn plan_put<M: Memory>(memory: &mut M, address: u32, key: Word) -> PutPlan
    requires sound { IsSound (M.heap memory.old) }
    requires known { StandsAs (M.heap memory.old) Kind.Dictionary address 4 }
    requires held { IsValue (M.heap memory.old) key }
    ensures heap { M.heap memory.new ≡ M.heap memory.old }
    ensures grants { M.grants memory.new ≡ M.grants memory.old }
    ensures words { result ≡ plan_at (M.heap memory.old) address key }
    ensures limit { (capacity : ℕ) → result ≡ PutPlan.Grow capacity → capacity ≤ capacity_limit }
    ensures value { (names : List (List ℕ)) (s : Store) → Shows (M.heap memory.old) names s
        → AllPairs (λ first later. first ≢ later) names
        → IsWithin (birth_at (M.heap memory.old)) names s key
        → result ≡ planned (dictionary_at s (birth_at (M.heap memory.old) address))
        (value_of (birth_at (M.heap memory.old)) names key) }
    ensures full { (names : List (List ℕ)) (s : Store) → Shows (M.heap memory.old) names s
        → AllPairs (λ first later. first ≢ later) names
        → IsWithin (birth_at (M.heap memory.old)) names s key → (value : Value)
        → (result ≡ PutPlan.Full) ↔
        (holding (dictionary_at s (birth_at (M.heap memory.old) address))
        (put_pair (dictionary_at s (birth_at (M.heap memory.old) address)).pairs
        (value_of (birth_at (M.heap memory.old)) names key, value)) ≡ None) }
{
    let place = put_position(memory, address, key);
    let count = length(memory, address);
    let capacity = capacity(memory, address);
    plan_of(place, count, capacity)
}

/// By the place of the key, the number of pairs and the capacity.
#[inline(always)]
fn plan_of(place: Option<u32>, count: u32, capacity: u32) -> PutPlan
    requires { count ≤ capacity }
    ensures plan { result ≡ puts.plan_from place count capacity }
    ensures limit { (grown : ℕ) → result ≡ PutPlan.Grow grown → grown ≤ capacity_limit }
{
    match place {
        Some(place) => PutPlan::Replace(place),
        None => if count >= CAPACITY_LIMIT {
            PutPlan::Full
        } else if count < capacity {
            PutPlan::Append
        } else {
            PutPlan::Grow(next_capacity(capacity, count + 1))
        },
    }
}
