//! The entries of an error, put into a `$error` dictionary, which never grows by it (PLRM2, 3.10).

ghost use Rattle.std.specs.Prelude.{◌≡◌, ◌≢◌, ℕ, ◌+◌, ◌-◌, ◌*◌, ◌/◌, ◌++◌, ◌<◌, ◌≤◌, List, [], ◌∷◌, Option, length, map, take};
ghost use Rattle.std.specs.List.{AllPairs};
ghost use Rattle.ps_language.specs.declared.errors.ErrorName.{ErrorName};
ghost use Rattle.ps_language.specs.Value.{Store, Value};
ghost use Rattle.ps_language.specs.Access.{dictionary_at, with_dictionary};
ghost use Rattle.ps_language.specs.StepErrors.{with_error};
ghost use Rattle.ps_word.specs.declared.words.Word.{Word as TheWord};
ghost use Rattle.ps_mem.specs.Heap.{Heap, birth_at, object_at};
ghost use Rattle.ps_mem.specs.Index.{pairs_of_words};
ghost use Rattle.ps_mem.specs.Keeps.{Keeps};
ghost use Rattle.ps_mem.specs.References.{StandsAs};
ghost use Rattle.ps_mem.specs.Meaning.{value_of};
ghost use Rattle.ps_mem.specs.Shows.{IsValue, AreValues, IsSound, AreWithin, Shows, pair_of, words_of_pairs};
ghost use Rattle.ps_dict.specs.Places.{count_at, capacity_at, body_at};
ghost use Rattle.ps_dict.specs.Puts.{AfterChange};
ghost use Rattle.ps_dict.specs.Entries.{AreApart, added_records, entry_pairs, error_entries, error_plan_at, error_planned, error_records, one_where_there, waiting_with, with_entries, with_value_at};

use crate::appends::append_pairs;
use crate::changes::replace_value;
use crate::dictionaries::{capacity, length, position};
use ps_language::kinds::Kind;
use ps_mem::{Memory, Slot};
use ps_word::words::Word;

/// The entries of an error: each a key with its value.
#[derive(Clone, Copy)]
pub struct ErrorEntries {
    pub newerror: (Word, Word),
    pub errorname: (Word, Word),
    pub command: (Word, Word),
}

/// What putting the entries of an error into a dictionary does.
#[derive(Clone, Copy, Debug, PartialEq, Eq)]
pub struct ErrorPlan {
    /// The place of the key of `newerror`, where the dictionary has it.
    pub newerror: Option<u32>,
    /// The place of the key of `errorname`.
    pub errorname: Option<u32>,
    /// The place of the key of `command`.
    pub command: Option<u32>,
    /// How many pairs more there is room for.
    pub room: u32,
}

#[inline]
fn one_where_there(place: Option<u32>) -> u32
    ensures { result ≡ one_where_there place }
{
    place.is_some() as u32
}

impl ErrorPlan {
    /// How many records the entries ask for: one for each key that is there; of the others as many
    /// as have room go in with one record each, and two for all of them. At most five.
    pub fn records(self) -> u32
        ensures answer { result ≡ error_records self }
        ensures most { result ≤ 5 }
    {
        let present = one_where_there(self.newerror)
            + one_where_there(self.errorname)
            + one_where_there(self.command);
        let added = (3 - present).min(self.room);
        if added == 0 {
            present
        } else {
            present + added + 2
        }
    }
}

/// What putting the entries of an error into a dictionary will do.
pub fn plan_error<M: Memory>(memory: &mut M, address: u32, entries: ErrorEntries) -> ErrorPlan
    requires sound { IsSound (M.heap memory.old) }
    requires known { StandsAs (M.heap memory.old) Kind.Dictionary address 4 }
    requires held { AreValues (M.heap memory.old) (words_of_pairs (entry_pairs entries)) }
    ensures heap { M.heap memory.new ≡ M.heap memory.old }
    ensures grants { M.grants memory.new ≡ M.grants memory.old }
    ensures words { result ≡ error_plan_at (M.heap memory.old) address entries }
    ensures value { (names : List (List ℕ)) (s : Store) → Shows (M.heap memory.old) names s
        → AllPairs (λ first later. first ≢ later) names
        → AreWithin (M.heap memory.old) names s (words_of_pairs (entry_pairs entries))
        → result ≡ error_planned (dictionary_at s (birth_at (M.heap memory.old) address))
        (value_of (birth_at (M.heap memory.old)) names entries.newerror.0)
        (value_of (birth_at (M.heap memory.old)) names entries.errorname.0)
        (value_of (birth_at (M.heap memory.old)) names entries.command.0) }
{
    let newerror = position(memory, address, entries.newerror.0);
    let errorname = position(memory, address, entries.errorname.0);
    let command = position(memory, address, entries.command.0);
    let count = length(memory, address);
    let capacity = capacity(memory, address);
    ErrorPlan {
        newerror,
        errorname,
        command,
        room: capacity - count,
    }
}

/// New pairs that wait to be put behind those of a dictionary.
#[derive(Drop)]
struct Waiting {
    /// Key before value, in the first places.
    words: [Word; 6],
    /// How many words wait.
    count: u32,
    ghost few: { count ≤ 6 },
}

impl Waiting {
    fn none() -> Waiting
        ensures none { result.count ≡ 0 }
    {
        Waiting {
            words: [Word::null(); 6],
            count: 0,
        }
    }

    fn add(&mut self, entry: (Word, Word))
        requires room { self.old.count ≤ 4 }
        ensures words { take self.new.count self.new.words ≡ take self.old.count self.old.words
            ++ entry.0 ∷ entry.1 ∷ [] }
        ensures count { self.new.count ≡ self.old.count + 2 }
    {
        self.words[self.count as usize] = entry.0;
        self.words[self.count as usize + 1] = entry.1;
        self.count += 2;
    }
}

/// An entry as it is planned.
#[derive(Clone, Copy)]
struct PlannedEntry {
    /// The key with its value.
    entry: (Word, Word),
    /// The place of the key, where the dictionary has it.
    place: Option<u32>,
    /// How many pairs more there is room for.
    room: u32,
}

/// Puts in the value of a key that is there, with one record in a cycle; the pair of an absent key
/// waits, where so many pairs have room.
fn put_entry<M: Memory>(
    memory: &mut M,
    slot: Slot,
    address: u32,
    planned: PlannedEntry,
    waiting: &mut Waiting,
)
    requires granted { one_where_there planned.place ≤ (M.grants memory.old).records slot }
    requires sound { IsSound (M.heap memory.old) }
    requires known { StandsAs (M.heap memory.old) Kind.Dictionary address 4 }
    requires place { (at : ℕ) → planned.place ≡ Option.Some at
        → at < count_at (M.heap memory.old) address }
    requires held { IsValue (M.heap memory.old) planned.entry.1 }
    requires few { waiting.old.count ≤ 4 }
    ensures heap { M.heap memory.new ≡ with_value_at (M.heap memory.old) address
        planned.place planned.entry.1 }
    ensures grants { AfterChange (M.grants memory.old) (M.grants memory.new) slot
        (one_where_there planned.place) 0 }
    ensures words { take waiting.new.count waiting.new.words ≡ waiting_with
        planned.place planned.room planned.entry (take waiting.old.count waiting.old.words) }
    ensures most { waiting.new.count ≤ waiting.old.count + 2 }
{
    match planned.place {
        Some(place) => replace_value(memory, slot, address, place, planned.entry.1),
        None => if waiting.count / 2 < planned.room {
            waiting.add(planned.entry);
        },
    }
}

/// Puts the pairs that wait behind those of a dictionary that has room for them.
fn append_waiting<M: Memory>(memory: &mut M, slot: Slot, address: u32, waiting: &Waiting)
    requires granted { added_records (length (take waiting.now.count waiting.now.words) / 2) ≤
        (M.grants memory.old).records slot }
    requires even { 2 * (length (take waiting.now.count waiting.now.words) / 2) ≡ length
        (take waiting.now.count waiting.now.words) }
    requires sound { IsSound (M.heap memory.old) }
    requires known { StandsAs (M.heap memory.old) Kind.Dictionary address 4 }
    requires room { count_at (M.heap memory.old) address
        + length (take waiting.now.count waiting.now.words) / 2 ≤ capacity_at (M.heap memory.old)
        address }
    requires held { AreValues (M.heap memory.old) (take waiting.now.count waiting.now.words) }
    ensures sound { IsSound (M.heap memory.new) }
    ensures keeps { Keeps (M.heap memory.old) (M.heap memory.new) }
    ensures births { birth_at (M.heap memory.new) ≡ birth_at (M.heap memory.old) }
    ensures others { (other : ℕ) → address ≢ other → body_at (M.heap memory.old) address ≢ other
        → object_at (M.heap memory.new) other ≡ object_at (M.heap memory.old) other }
    ensures grants { AfterChange (M.grants memory.old) (M.grants memory.new) slot
        (added_records (length (take waiting.now.count waiting.now.words) / 2)) 0 }
    ensures shows { (names : List (List ℕ)) (s : Store) → Shows (M.heap memory.old) names s
        → AreWithin (M.heap memory.old) names s (take waiting.now.count waiting.now.words)
        → let d = dictionary_at s (birth_at (M.heap memory.old) address) in
        Shows (M.heap memory.new) names
        (with_dictionary s (birth_at (M.heap memory.old) address)
        (record d {
          pairs = d.pairs
              ++ map (pair_of (birth_at (M.heap memory.old)) names)
              (pairs_of_words (take waiting.now.count waiting.now.words));
        })) }
{
    let count = waiting.count as usize;
    if count != 0 {
        append_pairs(memory, slot, address, &waiting.words[..count]);
    }
}

/// Puts the entries of an error into a dictionary, as `plan_error` planned it in this memory. A key
/// that is there keeps its place and its object; an absent one goes last where there is room, and
/// nowhere else. The dictionary doesn't grow, and no room is asked for. The plan's records, at most
/// five, are granted in the slot.
pub fn put_error<M: Memory>(
    memory: &mut M,
    slot: Slot,
    address: u32,
    plan: ErrorPlan,
    entries: ErrorEntries,
)
    requires plan { plan ≡ error_plan_at (M.heap memory.old) address entries }
    requires apart { AreApart entries }
    requires granted { error_records plan ≤ (M.grants memory.old).records slot }
    requires sound { IsSound (M.heap memory.old) }
    requires known { StandsAs (M.heap memory.old) Kind.Dictionary address 4 }
    requires held { AreValues (M.heap memory.old) (words_of_pairs (entry_pairs entries)) }
    ensures sound { IsSound (M.heap memory.new) }
    ensures keeps { Keeps (M.heap memory.old) (M.heap memory.new) }
    ensures births { birth_at (M.heap memory.new) ≡ birth_at (M.heap memory.old) }
    ensures others { (other : ℕ) → address ≢ other → body_at (M.heap memory.old) address ≢ other
        → object_at (M.heap memory.new) other ≡ object_at (M.heap memory.old) other }
    ensures grants { AfterChange (M.grants memory.old) (M.grants memory.new) slot
        (error_records plan) 0 }
    ensures shows { (names : List (List ℕ)) (s : Store) → Shows (M.heap memory.old) names s
        → AllPairs (λ first later. first ≢ later) names
        → AreWithin (M.heap memory.old) names s (words_of_pairs (entry_pairs entries))
        → Shows (M.heap memory.new) names
        (with_dictionary s (birth_at (M.heap memory.old) address)
        (with_entries (map (pair_of (birth_at (M.heap memory.old)) names) (entry_pairs entries))
        (dictionary_at s (birth_at (M.heap memory.old) address)))) }
    ensures error { (names : List (List ℕ)) (s : Store) → Shows (M.heap memory.old) names s
        → AllPairs (λ first later. first ≢ later) names
        → AreWithin (M.heap memory.old) names s (words_of_pairs (entry_pairs entries))
        → (error : ErrorName) (command : Value)
        → map (pair_of (birth_at (M.heap memory.old)) names) (entry_pairs entries) ≡ error_entries
        error command
        → Shows (M.heap memory.new) names
        (with_error error command (birth_at (M.heap memory.old) address) s) }
{
    let mut waiting = Waiting::none();
    let planned = PlannedEntry {
        entry: entries.newerror,
        place: plan.newerror,
        room: plan.room,
    };
    put_entry(memory, slot, address, planned, &mut waiting);
    let planned = PlannedEntry {
        entry: entries.errorname,
        place: plan.errorname,
        room: plan.room,
    };
    put_entry(memory, slot, address, planned, &mut waiting);
    let planned = PlannedEntry {
        entry: entries.command,
        place: plan.command,
        room: plan.room,
    };
    put_entry(memory, slot, address, planned, &mut waiting);
    append_waiting(memory, slot, address, &waiting);
}
