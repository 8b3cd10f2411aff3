//! Two arrays or two strings, and a copy of what one of them holds.

ghost use Rattle.std.specs.Prelude.{◌≡◌, ℕ, ◌+◌, ◌<◌, ◌≤◌, ◌^◌, List, min, option_map, Some, IfSome, OnOk, OnErr, IfErr};
ghost use Rattle.ps_language.specs.Readers as language;
ghost use Rattle.ps_language.specs.RowsSequences as sequences;
ghost use Rattle.ps_language.specs.Value.{Store};
ghost use Rattle.ps_word.specs.Format.{IsWord, content_in};
ghost use Rattle.ps_mem.specs.Heap.{Heap, birth_at};
ghost use Rattle.ps_mem.specs.Keeps.{Keeps};
ghost use Rattle.ps_mem.specs.Meaning.{part_of, value_of};
ghost use Rattle.ps_mem.specs.Shows.{IsSound, IsValue, IsWithin, Shows};
ghost use Rattle.ps_ops_operands.specs.Changes.{KeepsLogsWithin, spent};
ghost use Rattle.ps_ops_state.specs.Acts.{IsAtLeast};
ghost use Rattle.ps_ops_state.specs.Lent.{rooms_of, IsEmpty};
ghost use Rattle.ps_ops_sequences.specs.Asks.{IsStoreReason};
ghost use Rattle.ps_ops_sequences.specs.Pairs as pairs;
ghost use Rattle.ps_ops_sequences.specs.Pairs.{IsPair, IsPairWithin};

use ps_mem::{Memory, Slot};
use ps_ops_operands::failure::NotMade;
use ps_ops_operands::permits::permitted;
use ps_ops_operands::readers::{array_of, string_interval, string_of, with_part};
use ps_ops_state::lent::Scratch;
use ps_seq::arrays::{copy_elements, interval};
use ps_seq::strings::copy_bytes;
use ps_word::values::Part;
use ps_word::words::Word;
use std::alloc::AllocError;

/// What two sequences are.
#[derive(Clone, Copy, Debug, PartialEq, Eq)]
pub enum Sequence {
    Arrays,
    Strings,
}

/// Two sequences of one type, of which one is copied into the other.
#[derive(Clone, Copy, Debug, PartialEq, Eq)]
pub struct SequencePair {
    pub of: Sequence,
    pub from: Part,
    pub to: Part,
}

/// Two arrays or two strings.
pub fn pair_of(source: Word, target: Word) -> Option<SequencePair>
    ensures parts { (births : ℕ → ℕ) (names : List (List ℕ)) → sequences.as_pair
        (value_of births names source) (value_of births names target) ≡ option_map
        (λ pair. (part_of births pair.from, part_of births pair.to)) result }
    ensures from { (births : ℕ → ℕ) (names : List (List ℕ)) → IfSome result (λ pair.
        pairs.read_as pair.of (value_of births names source) ≡ Some (part_of births pair.from)) }
    ensures to { (births : ℕ → ℕ) (names : List (List ℕ)) → IfSome result (λ pair.
        pairs.read_as pair.of (value_of births names target) ≡ Some (part_of births pair.to)) }
    ensures word { IfSome result (λ pair. pairs.part_in pair.of (content_in target.0)
        ≡ Some pair.to) }
    ensures stands { (h : Heap) → IsValue h source → IsValue h target → IfSome result (IsPair h) }
    ensures within { (births : ℕ → ℕ) (names : List (List ℕ)) (s : Store)
        → IsWithin births names s source → IsWithin births names s target
        → IfSome result (IsPairWithin births s) }
    ensures end { IsWord target.0
        → IfSome result (λ pair. pair.to.offset + pair.to.length < 2 ^ 16) }
{
    if let Some(to) = array_of(target) {
        return match array_of(source) {
            Some(from) => Some(SequencePair {
                of: Sequence::Arrays,
                from,
                to,
            }),
            None => None,
        };
    }
    let Some(to) = string_of(target) else {
        return None;
    };
    match string_of(source) {
        Some(from) => Some(SequencePair {
            of: Sequence::Strings,
            from,
            to,
        }),
        None => None,
    }
}

/// As many elements or bytes from the front of the second of a pair on as the first has, with the
/// attribute of the second.
pub fn front_of(target: Word, pair: SequencePair) -> Word
    requires word { IsWord target.0 }
    requires target { pairs.part_in pair.of (content_in target.0) ≡ Some pair.to }
    requires end { pair.to.offset + pair.to.length < 2 ^ 16 }
    requires fits { pair.from.length ≤ pair.to.length }
    ensures value { (births : ℕ → ℕ) (names : List (List ℕ)) → value_of births names result
        ≡ language.with_part (value_of births names target)
        (language.part_at (part_of births pair.to) 0 pair.from.length) }
    ensures held { (h : Heap) → IsValue h target → IsValue h result }
    ensures within { (births : ℕ → ℕ) (names : List (List ℕ)) (s : Store)
        → IsWithin births names s target → IsWithin births names s result }
{
    match pair.of {
        Sequence::Arrays => with_part(target, pair.to, interval(pair.to, 0, pair.from.length)),
        Sequence::Strings => string_interval(target, pair.to, 0, pair.from.length),
    }
}

/// Writes what the first of a pair holds into the second from a place on, as if all was read first,
/// with one record where there is something. The lists of `scratch` are empty before and after.
///
/// Each `NotMade` is for what it asks for; nothing has changed then.
pub fn copy_contents<M: Memory>(
    memory: &mut M,
    slot: Slot,
    pair: SequencePair,
    place: u16,
    scratch: &mut Scratch,
) -> Result<(), NotMade>
    requires sound { IsSound (M.heap memory.old) }
    requires pair { IsPair (M.heap memory.old) pair }
    requires place { place + pair.from.length ≤ pair.to.length }
    requires empty { IsEmpty scratch.old }
    ensures sound { IsSound (M.heap memory.new) }
    ensures keeps { Keeps (M.heap memory.old) (M.heap memory.new) }
    ensures shows { (names : List (List ℕ)) (s : Store) → Shows (M.heap memory.old) names s
        → IsPairWithin (birth_at (M.heap memory.old)) s pair → OnOk result
        (Shows (M.heap memory.new) names
        (pairs.pair_written (birth_at (M.heap memory.old)) s pair place)) }
    ensures same { OnErr result (M.heap memory.new ≡ M.heap memory.old) }
    ensures spends { KeepsLogsWithin (spent result (min 1 pair.from.length)) (M.grants memory.old)
        (M.grants memory.new) slot }
    ensures reason { IfErr result (IsStoreReason pair.of pair.from.length scratch.old slot
        (M.grants memory.old) (M.grants memory.new)) }
    ensures empty { IsEmpty scratch.new }
    ensures room { IsAtLeast (rooms_of scratch.old) (rooms_of scratch.new) }
{
    if pair.from.length == 0 {
        return Ok(());
    }
    permitted(memory, slot, 1)?;
    match pair.of {
        Sequence::Arrays => {
            copy_elements(memory, slot, pair.from, pair.to, place);
            Ok(())
        }
        Sequence::Strings => match copy_bytes(
            memory,
            slot,
            pair.from,
            pair.to,
            place,
            &mut scratch.text,
            &mut scratch.words,
        ) {
            Ok(()) => Ok(()),
            Err(AllocError) => Err(NotMade::Memory),
        },
    }
}
