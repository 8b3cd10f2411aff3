//! Texts of values in strings (PLRM2, 8 'cvs').

ghost use Rattle.std.specs.Prelude.{◌≡◌, ℕ, ◌+◌, ◌<◌, ◌≤◌, ◌^◌, List, [], length, min, OnOk, OnErr, IfErr, IfSome, vec_capacity};
ghost use Rattle.ps_language.specs.Access.{bytes, part_bytes, with_part_bytes};
ghost use Rattle.ps_language.specs.Rows.{changing_row};
ghost use Rattle.ps_language.specs.RowsTypes.{cvs_row};
ghost use Rattle.ps_language.specs.Texts.{plain_text};
ghost use Rattle.ps_language.specs.Value.{Store};
ghost use Rattle.ps_mem.specs.Heap.{Heap, birth_at};
ghost use Rattle.ps_mem.specs.Keeps.{Keeps};
ghost use Rattle.ps_mem.specs.References.{StandsAs, words_for};
ghost use Rattle.ps_mem.specs.Meaning.{part_of, value_of};
ghost use Rattle.ps_mem.specs.Shows.{IsSound, IsValue, IsWithin, Shows};
ghost use Rattle.ps_ops_operands.specs.Changes.{KeepsLogsWithin, spent};
ghost use Rattle.ps_ops_state.specs.Acts.{Acts, IsAtLeast};
ghost use Rattle.ps_ops_state.specs.Lent.{lent_of, rooms_of, IsEmpty, IsGood};
ghost use Rattle.ps_ops_values.specs.Asks.{cvs_asks};
ghost use Rattle.ps_ops_values.specs.TextReads.{IsTextReason, ReadsText};

use ps_language::errors::ErrorName;
use ps_language::kinds::Kind;
use ps_mem::{Memory, Slot};
use ps_names::Names;
use ps_ops_operands::access::{is_readable, is_writable};
use ps_ops_operands::failure::NotMade;
use ps_ops_operands::permits::{permitted, records_for};
use ps_ops_operands::readers::{string_interval, string_of};
use ps_ops_sequences::pairs::{Sequence, SequencePair, copy_contents};
use ps_ops_state::breaks::Break;
use ps_ops_state::lent::{Attempt, Context, Runtime, Scratch};
use ps_seq::strings::set_bytes;
use ps_text::plain::{append_plain, plain_length};
use ps_word::values::Part;
use ps_word::words::Word;
use std::alloc::AllocError;

/// The part of a string that may be read, whose text is its bytes.
#[inline]
fn readable_part(word: Word) -> Option<Part>
    ensures text { (births : ℕ → ℕ) (names : List (List ℕ)) (s : Store) → IfSome result
        (λ part. plain_text s (value_of births names word) ≡ part_bytes s (part_of births part)) }
    ensures stands { (h : Heap) → IsValue h word → IfSome result
        (λ part. StandsAs h Kind.Text part.address (words_for (part.offset + part.length))) }
    ensures within { (births : ℕ → ℕ) (names : List (List ℕ)) (s : Store)
        → IsWithin births names s word → IfSome result (λ part. part.offset + part.length ≤
        length (bytes s (births part.address))) }
{
    match string_of(word) {
        Some(part) if is_readable(part.access) => Some(part),
        _ => None,
    }
}

/// Why a text was not read.
#[derive(Clone, Copy, Debug, PartialEq, Eq)]
enum TextFault {
    /// It has more bytes than it may.
    TooLong,
    /// A growth was refused.
    Memory,
}

/// Reads the text of a value, as `=` shows it, into an empty list, which a fault leaves empty.
///
/// `TooLong`: the text has more than so many bytes. `Memory`: it has no more, but the list lacks
/// room for them, and its growth was refused.
fn read_text<M: Memory>(
    memory: &mut M,
    names: &Names,
    word: Word,
    most: u16,
    text: &mut Vec<u8>,
) -> Result<(), TextFault>
    requires sound { IsSound (M.heap memory.old) }
    requires held { IsValue (M.heap memory.old) word }
    requires empty { text.old.items ≡ [] }
    ensures heap { M.heap memory.new ≡ M.heap memory.old }
    ensures grants { M.grants memory.new ≡ M.grants memory.old }
    ensures reads { (s : Store) → Shows (M.heap memory.old) names.now s
        → IsWithin (birth_at (M.heap memory.old)) names.now s word → ReadsText result most
        (vec_capacity text.old) text.new.items (plain_text s
        (value_of (birth_at (M.heap memory.old)) names.now word)) }
    ensures few { OnOk result (length text.new.items ≤ most) }
    ensures empty { OnErr result (text.new.items ≡ []) }
    ensures room { vec_capacity text.old ≤ vec_capacity text.new }
{
    let Ok(()) = append_plain(memory, names, word, &[], text) else {
        if plain_length(names, word) > most as usize {
            return Err(TextFault::TooLong);
        }
        return Err(TextFault::Memory);
    };
    if text.len() > most as usize {
        text.clear();
        return Err(TextFault::TooLong);
    }
    Ok(())
}

/// How many bytes were read, which are few.
#[inline]
fn count_of(text: &Vec<u8>) -> u16
    requires { length text.now.items < 2 ^ 16 }
    ensures { result ≡ length text.now.items }
{
    text.len() as u16
}

/// Writes the text that was read into the front of a string, with one record where there is some.
/// The lists are empty after.
///
/// Each `NotMade` is for what it asks for; nothing has changed then.
fn write_text<M: Memory>(
    memory: &mut M,
    slot: Slot,
    part: Part,
    scratch: &mut Scratch,
) -> Result<(), NotMade>
    requires sound { IsSound (M.heap memory.old) }
    requires known { StandsAs (M.heap memory.old) Kind.Text part.address (words_for
        (part.offset + part.length)) }
    requires fits { length scratch.old.text.items ≤ part.length }
    requires sought { scratch.old.sought.items ≡ [] }
    requires words { scratch.old.words.items ≡ [] }
    ensures sound { IsSound (M.heap memory.new) }
    ensures keeps { Keeps (M.heap memory.old) (M.heap memory.new) }
    ensures shows { (names : List (List ℕ)) (s : Store) → Shows (M.heap memory.old) names s
        → part.offset + part.length ≤ length (bytes s (birth_at (M.heap memory.old) part.address))
        → OnOk result (Shows (M.heap memory.new) names (with_part_bytes s
        (part_of (birth_at (M.heap memory.old)) part) 0 scratch.old.text.items)) }
    ensures same { OnErr result (M.heap memory.new ≡ M.heap memory.old) }
    ensures spends { KeepsLogsWithin (spent result (min 1 (length scratch.old.text.items)))
        (M.grants memory.old) (M.grants memory.new) slot }
    ensures reason { IfErr result (λ reason. IsTextReason reason (length scratch.old.text.items)
        (vec_capacity scratch.old.words) slot (M.grants memory.old) (M.grants memory.new)) }
    ensures empty { IsEmpty scratch.new }
    ensures room { IsAtLeast (rooms_of scratch.old) (rooms_of scratch.new) }
{
    let asked = records_for(scratch.text.len() as u16);
    if let Err(reason) = permitted(memory, slot, asked) {
        scratch.text.clear();
        return Err(reason);
    }
    let written = set_bytes(
        memory,
        slot,
        part,
        0,
        scratch.text.as_slice(),
        &mut scratch.words,
    );
    scratch.text.clear();
    match written {
        Ok(()) => Ok(()),
        Err(AllocError) => Err(NotMade::Memory),
    }
}

/// `x S cvs T`: the text of `x`, as `=` shows it, at the front of `S`, and that part of `S`. Raises
/// `stackunderflow`, `typecheck`, `invalidaccess`, and `rangecheck` where the text is longer than
/// `S`. Not made where there is some text and the log takes no record, or a list for it can't grow.
pub fn cvs<M: Memory>(
    context: &mut Context,
    runtime: &mut Runtime<M>,
    attempt: Attempt,
) -> Result<(), Break>
    requires good { IsGood (lent_of M.heap M.grants context.old runtime.old) }
    ensures acts { Acts cvs_asks (changing_row cvs_row) attempt result
        (lent_of M.heap M.grants context.old runtime.old)
        (lent_of M.heap M.grants context.new runtime.new) }
    ensures frames { context.new.frames ≡ context.old.frames }
{
    let Some((target, word)) = context.operands.top_two() else {
        return Err(Break::Raises(ErrorName::StackUnderflow));
    };
    let Some(part) = string_of(target) else {
        return Err(Break::Raises(ErrorName::TypeCheck));
    };
    if !is_writable(part.access) {
        return Err(Break::Raises(ErrorName::InvalidAccess));
    }
    if let Some(from) = readable_part(word) {
        if from.length > part.length {
            return Err(Break::Raises(ErrorName::RangeCheck));
        }
        let pair = SequencePair {
            of: Sequence::Strings,
            from,
            to: part,
        };
        let scratch = &mut runtime.shared.scratch;
        if let Err(reason) = copy_contents(&mut runtime.memory, attempt.slot, pair, 0, scratch) {
            return Err(Break::NotMade(reason));
        }
        context
            .operands
            .replace(2, string_interval(target, part, 0, from.length));
        return Ok(());
    }
    let shared = &mut runtime.shared;
    match read_text(
        &mut runtime.memory,
        &shared.names,
        word,
        part.length,
        &mut shared.scratch.text,
    ) {
        Ok(()) => {}
        Err(TextFault::TooLong) => return Err(Break::Raises(ErrorName::RangeCheck)),
        Err(TextFault::Memory) => return Err(Break::NotMade(NotMade::Memory)),
    }
    let count = count_of(&shared.scratch.text);
    if let Err(reason) = write_text(&mut runtime.memory, attempt.slot, part, &mut shared.scratch) {
        return Err(Break::NotMade(reason));
    }
    context
        .operands
        .replace(2, string_interval(target, part, 0, count));
    Ok(())
}
