//! The operators that search strings (PLRM2, 8 'Operators': String).

ghost use Rattle.std.specs.Prelude.{◌≡◌, ◌⊎◌, ℕ, ◌+◌, ◌<◌, ◌≤◌, ◌^◌, ◌&&◌, List, [], length, nat_eq, is_some, IsTrue, Some, IfSome, IfOk, OnErr, vec_capacity};
ghost use Rattle.std.specs.List.{starts_with};
ghost use Rattle.ps_language.specs.Limits.{operand_limit};
ghost use Rattle.ps_language.specs.Value.{Store};
ghost use Rattle.ps_language.specs.Access.{bytes, part_bytes};
ghost use Rattle.ps_language.specs.Access as language;
ghost use Rattle.ps_language.specs.RowsSequences as sequences;
ghost use Rattle.memchr.specs.Find.{OccursAt, FindsNeedle, IsFirstByte, is_byte};
ghost use Rattle.ps_mem.specs.Heap.{Heap, birth_at};
ghost use Rattle.ps_mem.specs.References.{StandsAs, words_for};
ghost use Rattle.ps_mem.specs.Meaning.{part_of};
ghost use Rattle.ps_mem.specs.Shows.{IsSound, IsReady, Shows};
ghost use Rattle.ps_word.specs.Format.{IsWord, content_in};
ghost use Rattle.ps_word.specs.Readers as readers;
ghost use Rattle.ps_ops_operands.specs.Changes.{Observes};
ghost use Rattle.ps_ops_sequences.specs.Searches.{Searches, IsFound};

use crate::reads::read_bytes;
use memchr::memmem;
use memchr::memmem::Finder;
use ps_language::access::Access;
use ps_language::errors::ErrorName;
use ps_language::kinds::Kind;
use ps_mem::Memory;
use ps_ops_operands::access::is_readable;
use ps_ops_operands::failure::{Failure, NotMade};
use ps_ops_operands::plain::push_within;
use ps_ops_operands::ranges::SEQUENCE_LIMIT;
use ps_ops_operands::readers::{string_interval, string_of};
use ps_ops_operands::{Operands, plain};
use ps_seq::arrays::interval;
use ps_seq::strings::{append_bytes, byte, compare_bytes};
use ps_stacks::OPERAND_LIMIT;
use ps_word::values::Part;
use ps_word::words::Word;
use std::alloc::AllocError;
use std::cmp::Ordering;

/// Bytes of a string that are read before the first look for others, beside as many as are sought.
const FIRST_WINDOW: usize = 32;

/// Whether a part of a string begins with the bytes of another. The memory stays as it is.
fn begins_with<M: Memory>(memory: &mut M, part: Part, wanted: Part) -> bool
    requires sound { IsSound (M.heap memory.old) }
    requires part { StandsAs (M.heap memory.old) Kind.Text part.address (words_for
        (part.offset + part.length)) }
    requires wanted { StandsAs (M.heap memory.old) Kind.Text wanted.address (words_for
        (wanted.offset + wanted.length)) }
    requires end { part.offset + part.length < 2 ^ 16 }
    ensures heap { M.heap memory.new ≡ M.heap memory.old }
    ensures grants { M.grants memory.new ≡ M.grants memory.old }
    ensures value { (names : List (List ℕ)) (s : Store) → Shows (M.heap memory.old) names s
        → part.offset + part.length ≤ length (bytes s (birth_at (M.heap memory.old) part.address))
        → wanted.offset + wanted.length ≤ length (bytes s (birth_at
        (M.heap memory.old) wanted.address)) → result ≡ starts_with nat_eq (part_bytes s (part_of
        (birth_at (M.heap memory.old)) part)) (part_bytes s (part_of (birth_at
        (M.heap memory.old)) wanted)) }
    ensures fits { IsTrue result → wanted.length ≤ part.length }
{
    if wanted.length > part.length {
        return false;
    }
    compare_bytes(memory, interval(part, 0, wanted.length), wanted) == Ordering::Equal
}

/// `S T anchorsearch behind match true` where `S` begins with `T`, else `S false`. What is pushed
/// shares the bytes of `S`. Raises `stackunderflow`, `typecheck` where one is no string,
/// `invalidaccess`, and `stackoverflow` where the parts and `true` don't fit.
pub fn anchorsearch<M: Memory>(operands: &mut Operands, memory: &mut M) -> Result<(), ErrorName>
    requires ready { IsReady (M.heap memory.old) operands.old }
    ensures heap { M.heap memory.new ≡ M.heap memory.old }
    ensures grants { M.grants memory.new ≡ M.grants memory.old }
    ensures does { Observes sequences.anchorsearch_row result
        (M.heap memory.old) operands.old operands.new }
    ensures ready { IsReady (M.heap memory.old) operands.new }
{
    let Some((sought, string)) = operands.top_two() else {
        return Err(ErrorName::StackUnderflow);
    };
    let Some(wanted) = string_of(sought) else {
        return Err(ErrorName::TypeCheck);
    };
    let Some(part) = string_of(string) else {
        return Err(ErrorName::TypeCheck);
    };
    if !are_readable(wanted.access, part.access) {
        return Err(ErrorName::InvalidAccess);
    }
    if !begins_with(memory, part, wanted) {
        operands.replace(1, plain::boolean(false));
        return Ok(());
    }
    if operands.is_full() {
        return Err(ErrorName::StackOverflow);
    }
    let count = wanted.length;
    let matched = string_interval(string, part, 0, count);
    let behind = string_interval(string, part, count, part.length - count);
    operands.replace(2, behind);
    push_within(operands, matched);
    push_within(operands, plain::boolean(true));
    Ok(())
}

/// The first place of a text from `from` on that has the bytes sought.
fn find_behind(text: &[u8], from: usize, sought: &Finder) -> Option<usize>
    requires { from ≤ length text.now }
    ensures { FindsNeedle text.now sought.now from result }
{
    let place = sought.find(&text[from..])?;
    Some(from + place)
}

/// The first place of a part of a string that has the bytes sought, if one has. The part is read
/// by windows, each of four times as many bytes as all before it, so what is read is at most some
/// four times what stands before the match. The memory stays as it is; `text` holds what was read.
///
/// `AllocError`: `text` lacks room for the bytes of the part, and its growth was refused.
fn find_by_windows<M: Memory>(
    memory: &mut M,
    part: Part,
    sought: &[u8],
    text: &mut Vec<u8>,
) -> Result<Option<usize>, AllocError>
    requires sound { IsSound (M.heap memory.old) }
    requires part { StandsAs (M.heap memory.old) Kind.Text part.address (words_for
        (part.offset + part.length)) }
    requires end { part.offset + part.length < 2 ^ 16 }
    requires sought { length sought.now < 2 ^ 16 }
    requires text { text.old.items ≡ [] }
    ensures heap { M.heap memory.new ≡ M.heap memory.old }
    ensures grants { M.grants memory.new ≡ M.grants memory.old }
    ensures value { (names : List (List ℕ)) (s : Store) → Shows (M.heap memory.old) names s
        → part.offset + part.length ≤ length (bytes s (birth_at (M.heap memory.old) part.address))
        → IfOk result (λ found. found ≡ sequences.place_of sought.now (part_bytes s (part_of
        (birth_at (M.heap memory.old)) part))) }
    ensures fits { IfOk result (λ found. IfSome found (λ place. place + length sought.now ≤
        part.length)) }
    ensures full { OnErr result (vec_capacity text.old < part.length) }
    ensures room { vec_capacity text.old ≤ vec_capacity text.new }
{
    let finder = Finder::new(sought);
    let overlap = sought.len().saturating_sub(1);
    let length = part.length as usize;
    let mut from = 0;
    loop {
        let end = text.len();
        let more = (FIRST_WINDOW + sought.len() + 3 * end).min(length - end);
        append_bytes(memory, interval(part, end as u16, more as u16), text)?;
        let found = find_behind(text.as_slice(), from, &finder);
        if found.is_some() || text.len() == length {
            return Ok(found);
        }
        from = text.len().saturating_sub(overlap);
    }
}

/// The first place of a part of a string that is a byte, if one is. The memory stays as it is.
fn find_byte<M: Memory>(memory: &mut M, part: Part, sought: u8) -> Option<u16>
    requires sound { IsSound (M.heap memory.old) }
    requires part { StandsAs (M.heap memory.old) Kind.Text part.address (words_for
        (part.offset + part.length)) }
    ensures heap { M.heap memory.new ≡ M.heap memory.old }
    ensures grants { M.grants memory.new ≡ M.grants memory.old }
    ensures value { (names : List (List ℕ)) (s : Store) → Shows (M.heap memory.old) names s
        → part.offset + part.length ≤ length (bytes s (birth_at (M.heap memory.old) part.address))
        → IsFirstByte (is_byte sought) (part_bytes s (part_of (birth_at
        (M.heap memory.old)) part)) result }
    ensures within { IfSome result (λ place. place < part.length) }
{
    for index in 0..part.length {
        if byte(memory, part, index) == sought {
            return Some(index);
        }
    }
    None
}

/// The first place of a part of a string that has the bytes of another, where they stand at the
/// first byte that could begin them, and that is near. `None` says nothing: they have to be sought.
/// The memory stays as it is.
fn find_early<M: Memory>(memory: &mut M, part: Part, wanted: Part) -> Option<u16>
    requires sound { IsSound (M.heap memory.old) }
    requires part { StandsAs (M.heap memory.old) Kind.Text part.address (words_for
        (part.offset + part.length)) }
    requires wanted { StandsAs (M.heap memory.old) Kind.Text wanted.address (words_for
        (wanted.offset + wanted.length)) }
    requires end { part.offset + part.length < 2 ^ 16 }
    ensures heap { M.heap memory.new ≡ M.heap memory.old }
    ensures grants { M.grants memory.new ≡ M.grants memory.old }
    ensures value { (names : List (List ℕ)) (s : Store) → Shows (M.heap memory.old) names s
        → part.offset + part.length ≤ length (bytes s (birth_at (M.heap memory.old) part.address))
        → wanted.offset + wanted.length ≤ length (bytes s (birth_at
        (M.heap memory.old) wanted.address)) → IfSome result (λ place. Some place
        ≡ sequences.place_of (part_bytes s (part_of (birth_at (M.heap memory.old)) wanted))
        (part_bytes s (part_of (birth_at (M.heap memory.old)) part))) }
    ensures fits { IfSome result (λ place. place + wanted.length ≤ part.length) }
{
    if wanted.length == 0 {
        return None;
    }
    let first = byte(memory, wanted, 0);
    let near = part.length.min(FIRST_WINDOW as u16);
    let place = find_byte(memory, interval(part, 0, near), first)?;
    let behind = interval(part, place, part.length - place);
    if wanted.length == 1 || begins_with(memory, behind, wanted) {
        return Some(place);
    }
    None
}

/// The first place of a part of a string that has the bytes of another, if one has. No more of the
/// part is read than must be, but for some windows. The memory stays as it is; the lists are empty
/// before and after, and their room is kept for the next call.
///
/// `AllocError`: `text` lacks room for the bytes of the first part or `sought` for those of the
/// second, and a growth was refused.
fn find_part<M: Memory>(
    memory: &mut M,
    part: Part,
    wanted: Part,
    text: &mut Vec<u8>,
    sought: &mut Vec<u8>,
) -> Result<Option<usize>, AllocError>
    requires sound { IsSound (M.heap memory.old) }
    requires part { StandsAs (M.heap memory.old) Kind.Text part.address (words_for
        (part.offset + part.length)) }
    requires wanted { StandsAs (M.heap memory.old) Kind.Text wanted.address (words_for
        (wanted.offset + wanted.length)) }
    requires end { part.offset + part.length < 2 ^ 16 }
    requires text { text.old.items ≡ [] }
    requires sought { sought.old.items ≡ [] }
    ensures heap { M.heap memory.new ≡ M.heap memory.old }
    ensures grants { M.grants memory.new ≡ M.grants memory.old }
    ensures value { (names : List (List ℕ)) (s : Store) → Shows (M.heap memory.old) names s
        → part.offset + part.length ≤ length (bytes s (birth_at (M.heap memory.old) part.address))
        → wanted.offset + wanted.length ≤ length (bytes s (birth_at
        (M.heap memory.old) wanted.address)) → IfOk result (λ found. found ≡ sequences.place_of
        (part_bytes s (part_of (birth_at (M.heap memory.old)) wanted)) (part_bytes s (part_of
        (birth_at (M.heap memory.old)) part))) }
    ensures fits { IfOk result (λ found. IfSome found (λ place. place + wanted.length ≤
        part.length)) }
    ensures full { OnErr result ((vec_capacity text.old < part.length) ⊎
        (vec_capacity sought.old < wanted.length)) }
    ensures text { text.new.items ≡ [] }
    ensures sought { sought.new.items ≡ [] }
    ensures room { (vec_capacity text.old ≤ vec_capacity text.new) ×
        (vec_capacity sought.old ≤ vec_capacity sought.new) }
{
    if wanted.length > part.length {
        return Ok(None);
    }
    if let Some(place) = find_early(memory, part, wanted) {
        return Ok(Some(place as usize));
    }
    append_bytes(memory, wanted, sought)?;
    let found = find_by_windows(memory, part, sought.as_slice(), text);
    text.clear();
    sought.clear();
    found
}

/// Whether a part of a string has the bytes of another at some place. No memory is taken: both are
/// read onto the stack. The memory stays as it is. Its frame is large, so it isn't the caller's.
#[inline(never)]
fn contains<M: Memory>(memory: &mut M, part: Part, wanted: Part) -> bool
    requires sound { IsSound (M.heap memory.old) }
    requires part { StandsAs (M.heap memory.old) Kind.Text part.address (words_for
        (part.offset + part.length)) }
    requires wanted { StandsAs (M.heap memory.old) Kind.Text wanted.address (words_for
        (wanted.offset + wanted.length)) }
    ensures heap { M.heap memory.new ≡ M.heap memory.old }
    ensures grants { M.grants memory.new ≡ M.grants memory.old }
    ensures value { (names : List (List ℕ)) (s : Store) → Shows (M.heap memory.old) names s
        → part.offset + part.length ≤ length (bytes s (birth_at (M.heap memory.old) part.address))
        → wanted.offset + wanted.length ≤ length (bytes s (birth_at
        (M.heap memory.old) wanted.address)) → result ≡ is_some (sequences.place_of
        (part_bytes s (part_of (birth_at (M.heap memory.old)) wanted)) (part_bytes s (part_of
        (birth_at (M.heap memory.old)) part))) }
{
    let mut text = [0u8; SEQUENCE_LIMIT];
    let mut sought = [0u8; SEQUENCE_LIMIT];
    read_bytes(memory, part, &mut text);
    read_bytes(memory, wanted, &mut sought);
    let needle = &sought[..wanted.length as usize];
    memmem::find(&text[..part.length as usize], needle).is_some()
}

/// `S T search behind match before true` at the first place where `S` has the bytes of `T`, else `S
/// false`. What is pushed shares the bytes of `S`. Raises `stackunderflow`, `typecheck` where one
/// is no string, `invalidaccess`, and `stackoverflow` where the parts and `true` don't fit. Where
/// they wouldn't fit it wants no memory. Not made where `text` lacks room for the bytes of `S` or
/// `sought` for those of `T`, and a growth was refused. The lists are empty before and after; their
/// room is kept for the next call.
pub fn search<M: Memory>(
    operands: &mut Operands,
    memory: &mut M,
    text: &mut Vec<u8>,
    sought: &mut Vec<u8>,
) -> Result<(), Failure>
    requires ready { IsReady (M.heap memory.old) operands.old }
    requires text { text.old.items ≡ [] }
    requires sought { sought.old.items ≡ [] }
    ensures heap { M.heap memory.new ≡ M.heap memory.old }
    ensures grants { M.grants memory.new ≡ M.grants memory.old }
    ensures does { Searches sequences.search_row (vec_capacity text.old)
        (vec_capacity sought.old) result (M.heap memory.old) operands.old operands.new }
    ensures ready { IsReady (M.heap memory.old) operands.new }
    ensures text { text.new.items ≡ [] }
    ensures sought { sought.new.items ≡ [] }
    ensures room { (vec_capacity text.old ≤ vec_capacity text.new) ×
        (vec_capacity sought.old ≤ vec_capacity sought.new) }
{
    let Some((topmost, string)) = operands.top_two() else {
        return Err(Failure::Error(ErrorName::StackUnderflow));
    };
    let Some(wanted) = string_of(topmost) else {
        return Err(Failure::Error(ErrorName::TypeCheck));
    };
    let Some(part) = string_of(string) else {
        return Err(Failure::Error(ErrorName::TypeCheck));
    };
    if !are_readable(wanted.access, part.access) {
        return Err(Failure::Error(ErrorName::InvalidAccess));
    }
    if operands.len() + 2 > OPERAND_LIMIT {
        if contains(memory, part, wanted) {
            return Err(Failure::Error(ErrorName::StackOverflow));
        }
        operands.replace(1, plain::boolean(false));
        return Ok(());
    }
    let Ok(found) = find_part(memory, part, wanted, text, sought) else {
        return Err(Failure::NotMade(NotMade::Memory));
    };
    let Some(place) = found else {
        operands.replace(1, plain::boolean(false));
        return Ok(());
    };
    push_found(operands, string, part, place as u16, wanted.length);
    Ok(())
}

/// Puts what stands behind a match in a string, the match, what stands before it, and `true` in the
/// place of the two topmost operands.
fn push_found(operands: &mut Operands, string: Word, part: Part, place: u16, count: u16)
    requires operands { 2 ≤ length operands.old }
    requires room { length operands.old + 2 ≤ operand_limit }
    requires string { readers.as_text (content_in string.0) ≡ Some part }
    requires word { IsWord string.0 }
    requires end { part.offset + part.length < 2 ^ 16 }
    requires within { place + count ≤ part.length }
    ensures { IsFound operands.old string part place count operands.new }
{
    let end = place + count;
    operands.replace(2, string_interval(string, part, end, part.length - end));
    push_within(operands, string_interval(string, part, place, count));
    push_within(operands, string_interval(string, part, 0, place));
    push_within(operands, plain::boolean(true));
}

/// Whether two accesses both permit reading.
#[inline]
fn are_readable(first: Access, second: Access) -> bool
    ensures { result ≡ language.is_readable first && language.is_readable second }
{
    is_readable(first) && is_readable(second)
}
