//! Strings in any memory, as lists of bytes (PLRM2, 3.3.6 and 8: get, put, getinterval,
//! putinterval, copy, string, eq, gt).

ghost use Rattle.std.specs.Prelude.{◌≡◌, ◌↔◌, ℕ, ◌+◌, ◌-◌, ◌*◌, ◌/◌, ◌^◌, ◌<◌, ◌≤◌, ◌≢◌, ◌%◌, ◌++◌, ◌⊎◌, List, [], ◌∷◌, length, take, drop, replicate, slice_get, slice_range, Some, IfSome, OnOk, OnErr, IsOk, vec_len, vec_capacity};
ghost use Rattle.std.specs.Int.{w64, to_le_bytes};
ghost use Rattle.std.specs.Ordering.{nat_cmp};
ghost use Rattle.std.specs.Cmp.Lexicographic.{slice_cmp};
ghost use Rattle.ps_language.specs.Value.{Store, string_object};
ghost use Rattle.ps_language.specs.Access.{bytes, part_bytes, with_part_bytes, splice};
ghost use Rattle.ps_mem.specs.Heap.{birth_at, fields_at, AfterStore, AfterNew};
ghost use Rattle.ps_mem.specs.Keeps.{Keeps, Extends};
ghost use Rattle.ps_mem.specs.References.{StandsAs, words_for};
ghost use Rattle.ps_mem.specs.Meaning.{part_of};
ghost use Rattle.ps_mem.specs.Strings.{number_of_bytes, words_from};
ghost use Rattle.ps_mem.specs.Shows.{IsSound, Shows};

use crate::reads::read_run;
use ps_language::access::Access;
use ps_language::kinds::Kind;
use ps_mem::{FieldAt, Memory, Slot};
use ps_word::values::Part;
use ps_word::words::Word;
use std::alloc::AllocError;
use std::cmp::Ordering;

/// The bytes of a word.
pub(crate) const BYTES: u32 = 8;

/// How many bytes are put together on the stack before they go to a list at once.
const RUN: usize = 256;

/// The words that so many bytes take.
#[inline]
pub fn words_of_string(length: u16) -> u32
    ensures { result ≡ words_for length }
{
    (length as u32 + BYTES - 1) / BYTES
}

/// The byte at an index of a part of a string. The memory stays as it is.
#[inline]
pub fn byte<M: Memory>(memory: &mut M, part: Part, index: u16) -> u8
    requires sound { IsSound (M.heap memory.old) }
    requires known { StandsAs (M.heap memory.old) Kind.Text part.address (words_for
        (part.offset + part.length)) }
    requires index { index < part.length }
    ensures heap { M.heap memory.new ≡ M.heap memory.old }
    ensures grants { M.grants memory.new ≡ M.grants memory.old }
    ensures value { (names : List (List ℕ)) (s : Store) → Shows (M.heap memory.old) names s
        → part.offset + part.length ≤ length (bytes s (birth_at (M.heap memory.old) part.address))
        → slice_get (bytes s (birth_at (M.heap memory.old) part.address)) (part.offset + index)
        ≡ Some result }
{
    let at = part.offset as u32 + index as u32;
    let word = memory.load(part.address, at / BYTES);
    word.0.to_le_bytes()[(at % BYTES) as usize]
}

/// Appends the bytes of a part to an output, which grows once. The memory stays as it is.
///
/// `AllocError`: the output lacks the room, and its growth was refused; it is as it was.
pub fn append_bytes<M: Memory>(
    memory: &mut M,
    part: Part,
    output: &mut Vec<u8>,
) -> Result<(), AllocError>
    requires sound { IsSound (M.heap memory.old) }
    requires known { StandsAs (M.heap memory.old) Kind.Text part.address (words_for
        (part.offset + part.length)) }
    ensures heap { M.heap memory.new ≡ M.heap memory.old }
    ensures grants { M.grants memory.new ≡ M.grants memory.old }
    ensures value { (names : List (List ℕ)) (s : Store) → Shows (M.heap memory.old) names s
        → part.offset + part.length ≤ length (bytes s (birth_at (M.heap memory.old) part.address))
        → OnOk result (output.new.items ≡ output.old.items ++ part_bytes s (part_of (birth_at
        (M.heap memory.old)) part)) }
    ensures length { OnOk result (vec_len output.new ≡ vec_len output.old + part.length) }
    ensures front { take (length output.old.items) output.new.items ≡ output.old.items }
    ensures unchanged { OnErr result (output.new.items ≡ output.old.items) }
    ensures full { OnErr result (vec_capacity output.old < vec_len output.old + part.length) }
    ensures room { vec_capacity output.old ≤ vec_capacity output.new }
{
    let count = part.length as u32;
    output.reserve(part.length as usize)?;
    let mut run = [0; RUN];
    let mut done = 0;
    while done < count {
        let more = (count - done).min(RUN as u32);
        let bytes = &mut run[..more as usize];
        read_run(memory, part.address, part.offset as u32 + done, bytes);
        output.extend_from_slice(bytes)?;
        done += more;
    }
    Ok(())
}

/// The word of eight bytes.
#[inline]
fn whole_word(bytes: &[u8]) -> Word
    requires { length bytes.now ≡ 8 }
    ensures { result.0 ≡ number_of_bytes bytes.now }
{
    let mut all = [0; 8];
    all.copy_from_slice(&bytes[..8]);
    Word(u64::from_le_bytes(all))
}

/// A word with other bytes from one of its bytes on.
#[inline]
fn with_bytes(word: Word, first: usize, bytes: &[u8]) -> Word
    requires { first + length bytes.now ≤ 8 }
    ensures { result.0 ≡ number_of_bytes (splice (to_le_bytes w64 word.0) first bytes.now) }
{
    if bytes.len() == BYTES as usize {
        return whole_word(bytes);
    }
    let mut all = word.0.to_le_bytes();
    all[first..first + bytes.len()].copy_from_slice(bytes);
    Word(u64::from_le_bytes(all))
}

/// A new string of so many zero bytes, all of it.
pub fn new_string<M: Memory>(memory: &mut M, count: u16) -> Part
    requires words { 2 + words_for count ≤ (M.grants memory.old).words }
    requires births { 1 ≤ (M.grants memory.old).births }
    requires sound { IsSound (M.heap memory.old) }
    ensures part { result ≡ record {
      address = result.address;
      offset = 0;
      length = count;
      access =
          Access.Unlimited;
    } }
    ensures address { result.address < 2 ^ 24 }
    ensures known { StandsAs (M.heap memory.new) Kind.Text result.address (words_for count) }
    ensures sound { IsSound (M.heap memory.new) }
    ensures extends { Extends (M.heap memory.old) (M.heap memory.new) }
    ensures birth { birth_at (M.heap memory.new) result.address ≡ (M.heap memory.old).next }
    ensures grants { AfterNew (M.grants memory.old) (M.grants memory.new) result.address
        (2 + words_for count) 1 }
    ensures shows { (names : List (List ℕ)) (s : Store) → Shows (M.heap memory.old) names s → Shows
        (M.heap memory.new) names (s ++ string_object (replicate count 0) ∷ []) }
{
    let address = memory.alloc(Kind::Text, words_of_string(count));
    Part {
        address,
        offset: 0,
        length: count,
        access: Access::Unlimited,
    }
}

/// A new string of these bytes, all of it.
pub fn make_string<M: Memory>(memory: &mut M, bytes: &[u8]) -> Part
    requires length { length bytes.now < 2 ^ 16 }
    requires words { 2 + words_for (length bytes.now) ≤ (M.grants memory.old).words }
    requires births { 1 ≤ (M.grants memory.old).births }
    requires sound { IsSound (M.heap memory.old) }
    ensures part { result ≡ record {
      address = result.address;
      offset = 0;
      length = length
          bytes.now;
      access = Access.Unlimited;
    } }
    ensures address { result.address < 2 ^ 24 }
    ensures known { StandsAs (M.heap memory.new) Kind.Text result.address (words_for
        (length bytes.now)) }
    ensures sound { IsSound (M.heap memory.new) }
    ensures extends { Extends (M.heap memory.old) (M.heap memory.new) }
    ensures birth { birth_at (M.heap memory.new) result.address ≡ (M.heap memory.old).next }
    ensures grants { AfterNew (M.grants memory.old) (M.grants memory.new) result.address
        (2 + words_for (length bytes.now)) 1 }
    ensures shows { (names : List (List ℕ)) (s : Store) → Shows (M.heap memory.old) names s → Shows
        (M.heap memory.new) names (s ++ string_object bytes.now ∷ []) }
{
    let length = bytes.len();
    let words = words_of_string(length as u16);
    let address = memory.alloc(Kind::Text, words);
    for index in 0..words {
        let first = (index * BYTES) as usize;
        let end = (first + BYTES as usize).min(length);
        memory.fill(address, index, with_bytes(Word(0), 0, &bytes[first..end]));
    }
    Part {
        address,
        offset: 0,
        length: length as u16,
        access: Access::Unlimited,
    }
}

/// Puts a byte at an index of a part of a string, with one record in a cycle.
#[inline]
pub fn set_byte<M: Memory>(memory: &mut M, slot: Slot, part: Part, index: u16, byte: u8)
    requires granted { 1 ≤ (M.grants memory.old).records slot }
    requires sound { IsSound (M.heap memory.old) }
    requires known { StandsAs (M.heap memory.old) Kind.Text part.address (words_for
        (part.offset + part.length)) }
    requires index { index < part.length }
    ensures sound { IsSound (M.heap memory.new) }
    ensures keeps { Keeps (M.heap memory.old) (M.heap memory.new) }
    ensures births { birth_at (M.heap memory.new) ≡ birth_at (M.heap memory.old) }
    ensures grants { AfterStore (M.grants memory.old) (M.grants memory.new) slot }
    ensures shows { (names : List (List ℕ)) (s : Store) → Shows (M.heap memory.old) names s
        → part.offset + part.length ≤ length (bytes s (birth_at (M.heap memory.old) part.address))
        → Shows (M.heap memory.new) names (with_part_bytes s (part_of (birth_at
        (M.heap memory.old)) part) index (byte ∷ [])) }
{
    let place = part.offset as u32 + index as u32;
    let word = memory.load(part.address, place / BYTES);
    let changed = with_bytes(word, (place % BYTES) as usize, &[byte]);
    memory.store(slot, part.address, place / BYTES, &[changed]);
}

/// Puts the words that bytes make, eight a word, into a list of as many words.
#[inline]
fn fill_words(text: &[u8], words: &mut [Word])
    requires { length text.now ≡ 8 * length words.old }
    ensures { words.new ≡ words_from (length words.old) text.now }
{
    for index in 0..words.len() {
        words[index] = whole_word(&text[8 * index..8 * index + 8]);
    }
}

/// Pushes the words that bytes make, eight a word.
///
/// `AllocError`: the list of words lacks the room, and its growth was refused.
fn push_words(text: &[u8], words: &mut Vec<Word>) -> Result<(), AllocError>
    requires { length text.now % 8 ≡ 0 }
    ensures items { OnOk result (words.new.items ≡ words.old.items ++ words_from
        (length text.now / 8) text.now) }
    ensures length { OnOk result (vec_len words.new ≡ vec_len words.old + length text.now / 8) }
    ensures full { OnErr result (vec_capacity words.old < vec_len words.old + length text.now / 8) }
    ensures room { vec_capacity words.old ≤ vec_capacity words.new }
{
    let count = text.len() / 8;
    words.reserve(count)?;
    let mut run = [Word(0); RUN / 8];
    let mut done = 0;
    while done < count {
        let more = (count - done).min(RUN / 8);
        let part = &mut run[..more];
        fill_words(&text[8 * done..8 * (done + more)], part);
        words.extend_from_slice(part)?;
        done += more;
    }
    Ok(())
}

/// Pushes the words of a string that bytes are put into from a place on, with these bytes in them.
///
/// `AllocError`: the list of words lacks the room, and its growth was refused; it is as it was.
fn changed_words<M: Memory>(
    memory: &mut M,
    address: u32,
    place: u32,
    text: &[u8],
    words: &mut Vec<Word>,
) -> Result<(), AllocError>
    requires known { StandsAs (M.heap memory.old) Kind.Text address (words_for
        (place + length text.now)) }
    requires place { place + length text.now < 2 ^ 20 }
    requires some { 1 ≤ length text.now }
    requires empty { words.old.items ≡ [] }
    ensures heap { M.heap memory.new ≡ M.heap memory.old }
    ensures grants { M.grants memory.new ≡ M.grants memory.old }
    ensures count { OnOk result (length words.new.items ≡ words_for
        (place + length text.now) - place / 8) }
    ensures value { (names : List (List ℕ)) (s : Store) → Shows (M.heap memory.old) names s
        → place + length text.now ≤ length (bytes s (birth_at (M.heap memory.old) address))
        → OnOk result (words.new.items ≡ words_from (words_for
        (place + length text.now) - place / 8) (drop (8 * (place / 8)) (splice (bytes s (birth_at
        (M.heap memory.old) address)) place text.now))) }
    ensures unchanged { OnErr result (words.new.items ≡ words.old.items) }
    ensures full { OnErr result (vec_capacity words.old < words_for
        (place + length text.now) - place / 8) }
    ensures room { vec_capacity words.old ≤ vec_capacity words.new }
{
    let end = place + text.len() as u32;
    let first = place / BYTES;
    let last = (end + BYTES - 1) / BYTES;
    let whole = end / BYTES;
    words.reserve((last - first) as usize)?;
    let mut index = first;
    while index < last {
        if place <= index * BYTES && index < whole {
            let from = (index * BYTES - place) as usize;
            push_words(&text[from..(whole * BYTES - place) as usize], words)?;
            index = whole;
        } else {
            let start = place.max(index * BYTES);
            let stop = end.min(index * BYTES + BYTES);
            let chunk = &text[(start - place) as usize..(stop - place) as usize];
            let word = memory.load(address, index);
            words.push_reserved(with_bytes(word, (start - index * BYTES) as usize, chunk));
            index += 1;
        }
    }
    Ok(())
}

/// Puts bytes into a part of a string from a place on, by one store with one record in a cycle.
/// Where there are none, nothing is done and no record is put. `scratch` is empty before and after;
/// its room is kept for the next call.
///
/// `AllocError`: `scratch` lacks room for the words that have these bytes, and its growth was
/// refused; nothing has changed.
pub fn set_bytes<M: Memory>(
    memory: &mut M,
    slot: Slot,
    part: Part,
    place: u16,
    text: &[u8],
    scratch: &mut Vec<Word>,
) -> Result<(), AllocError>
    requires granted { 1 ≤ length text.now → 1 ≤ (M.grants memory.old).records slot }
    requires sound { IsSound (M.heap memory.old) }
    requires known { StandsAs (M.heap memory.old) Kind.Text part.address (words_for
        (part.offset + part.length)) }
    requires place { place + length text.now ≤ part.length }
    requires scratch { scratch.old.items ≡ [] }
    ensures sound { IsSound (M.heap memory.new) }
    ensures keeps { Keeps (M.heap memory.old) (M.heap memory.new) }
    ensures births { birth_at (M.heap memory.new) ≡ birth_at (M.heap memory.old) }
    ensures grants { AfterStore (M.grants memory.old) (M.grants memory.new) slot }
    ensures shows { (names : List (List ℕ)) (s : Store) → Shows (M.heap memory.old) names s
        → part.offset + part.length ≤ length (bytes s (birth_at (M.heap memory.old) part.address))
        → OnOk result (Shows (M.heap memory.new) names (with_part_bytes s (part_of (birth_at
        (M.heap memory.old)) part) place text.now)) }
    ensures nothing { length text.now ≡ 0 → (IsOk result) × (M.heap memory.new ≡ M.heap memory.old)
        × (M.grants memory.new ≡ M.grants memory.old) }
    ensures unchanged { OnErr result ((M.heap memory.new ≡ M.heap memory.old) × (M.grants memory.new
        ≡ M.grants memory.old)) }
    ensures full { OnErr result (vec_capacity scratch.old < words_for
        (part.offset + place + length text.now) - (part.offset + place) / 8) }
    ensures scratch { scratch.new.items ≡ [] }
    ensures room { vec_capacity scratch.old ≤ vec_capacity scratch.new }
{
    if text.is_empty() {
        return Ok(());
    }
    let at = part.offset as u32 + place as u32;
    changed_words(memory, part.address, at, text, scratch)?;
    memory.store(slot, part.address, at / BYTES, scratch.as_slice());
    scratch.clear();
    Ok(())
}

/// Copies all bytes of one part of a string into another from a place on, as if all were read
/// first, by one store or copy with one record in a cycle; the two may be of one string. Where
/// there are none, nothing is done and no record is put. The scratch lists are empty before and
/// after; their room is kept for the next call.
///
/// `AllocError`: `read` lacks room for these bytes or `scratch` for the words that have them, and a
/// growth was refused; nothing has changed.
pub fn copy_bytes<M: Memory>(
    memory: &mut M,
    slot: Slot,
    from: Part,
    to: Part,
    place: u16,
    read: &mut Vec<u8>,
    scratch: &mut Vec<Word>,
) -> Result<(), AllocError>
    requires granted { 1 ≤ from.length → 1 ≤ (M.grants memory.old).records slot }
    requires sound { IsSound (M.heap memory.old) }
    requires source { StandsAs (M.heap memory.old) Kind.Text from.address (words_for
        (from.offset + from.length)) }
    requires target { StandsAs (M.heap memory.old) Kind.Text to.address (words_for
        (to.offset + to.length)) }
    requires place { place + from.length ≤ to.length }
    requires read { read.old.items ≡ [] }
    requires scratch { scratch.old.items ≡ [] }
    ensures sound { IsSound (M.heap memory.new) }
    ensures keeps { Keeps (M.heap memory.old) (M.heap memory.new) }
    ensures births { birth_at (M.heap memory.new) ≡ birth_at (M.heap memory.old) }
    ensures grants { AfterStore (M.grants memory.old) (M.grants memory.new) slot }
    ensures shows { (names : List (List ℕ)) (s : Store) → Shows (M.heap memory.old) names s
        → from.offset + from.length ≤ length (bytes s (birth_at (M.heap memory.old) from.address))
        → to.offset + to.length ≤ length (bytes s (birth_at (M.heap memory.old) to.address))
        → OnOk result (Shows (M.heap memory.new) names (with_part_bytes s (part_of (birth_at
        (M.heap memory.old)) to) place (part_bytes s (part_of (birth_at
        (M.heap memory.old)) from)))) }
    ensures nothing { from.length ≡ 0 → (IsOk result) × (M.heap memory.new ≡ M.heap memory.old) ×
        (M.grants memory.new ≡ M.grants memory.old) }
    ensures unchanged { OnErr result ((M.heap memory.new ≡ M.heap memory.old) × (M.grants memory.new
        ≡ M.grants memory.old)) }
    ensures full { OnErr result ((vec_capacity read.old < from.length) ⊎
        (vec_capacity scratch.old < words_for (to.offset + place + from.length) -
        (to.offset + place) / 8)) }
    ensures read { read.new.items ≡ [] }
    ensures scratch { scratch.new.items ≡ [] }
    ensures room { (vec_capacity read.old ≤ vec_capacity read.new) ×
        (vec_capacity scratch.old ≤ vec_capacity scratch.new) }
{
    let source = from.offset as u32;
    let target = to.offset as u32 + place as u32;
    let count = from.length as u32;
    if source % BYTES == 0 && target % BYTES == 0 && count % BYTES == 0 && count > 0 {
        let from_field = FieldAt {
            address: from.address,
            place: source / BYTES,
        };
        let to_field = FieldAt {
            address: to.address,
            place: target / BYTES,
        };
        memory.copy(slot, from_field, to_field, count / BYTES);
        return Ok(());
    }
    append_bytes(memory, from, read)?;
    let copied = set_bytes(memory, slot, to, place, read.as_slice(), scratch);
    read.clear();
    copied
}

/// The eight bytes from one of a word's bytes on, those behind its last from the word behind it.
#[inline]
fn joined(low: Word, high: Word, first: u32) -> Word
    requires { first < 8 }
    ensures { to_le_bytes w64 result.0 ≡ slice_range (to_le_bytes w64 low.0
        ++ to_le_bytes w64 high.0) first (first + 8) }
{
    let both = u128::from(high.0) << 64 | u128::from(low.0);
    Word(((both >> (BYTES * first)) % (1 << 64)) as u64)
}

/// A word that begins with so many bytes of a string, from a place on. No word behind those that
/// have them is loaded. The memory stays as it is.
#[inline]
fn word_from<M: Memory>(memory: &mut M, address: u32, place: u32, count: u32) -> Word
    requires known { StandsAs (M.heap memory.old) Kind.Text address (words_for (place + count)) }
    requires place { place + count < 2 ^ 20 }
    requires some { 1 ≤ count }
    requires word { count ≤ 8 }
    ensures heap { M.heap memory.new ≡ M.heap memory.old }
    ensures grants { M.grants memory.new ≡ M.grants memory.old }
    ensures value { (names : List (List ℕ)) (s : Store) → Shows (M.heap memory.old) names s
        → place + count ≤ length (bytes s (birth_at (M.heap memory.old) address))
        → take count (to_le_bytes w64 result.0) ≡ slice_range (bytes s (birth_at
        (M.heap memory.old) address)) place (place + count) }
{
    let first = place % BYTES;
    let low = memory.load(address, place / BYTES);
    if first + count <= BYTES {
        return joined(low, Word(0), first);
    }
    let high = memory.load(address, place / BYTES + 1);
    joined(low, high, first)
}

/// How the first bytes of a word, so many, compare with as many of another. Where the words are the
/// same, no byte is looked at.
#[inline]
fn compare_runs(left: Word, right: Word, count: u32) -> Ordering
    requires { count ≤ 8 }
    ensures { result ≡ slice_cmp nat_cmp (take count (to_le_bytes w64 left.0)) (take count
        (to_le_bytes w64 right.0)) }
{
    if left.0 == right.0 {
        return Ordering::Equal;
    }
    let left_bytes = left.0.to_le_bytes();
    let right_bytes = right.0.to_le_bytes();
    let left_run = &left_bytes[..count as usize];
    let right_run = &right_bytes[..count as usize];
    left_run.cmp(&right_run)
}

/// Compares the bytes of two parts in order, as the language orders strings: a proper beginning is
/// less. A turn compares what one word of the first has. The memory stays as it is.
pub fn compare_bytes<M: Memory>(memory: &mut M, left: Part, right: Part) -> Ordering
    requires sound { IsSound (M.heap memory.old) }
    requires left { StandsAs (M.heap memory.old) Kind.Text left.address (words_for
        (left.offset + left.length)) }
    requires right { StandsAs (M.heap memory.old) Kind.Text right.address (words_for
        (right.offset + right.length)) }
    ensures heap { M.heap memory.new ≡ M.heap memory.old }
    ensures grants { M.grants memory.new ≡ M.grants memory.old }
    ensures order { (names : List (List ℕ)) (s : Store) → Shows (M.heap memory.old) names s
        → left.offset + left.length ≤ length (bytes s (birth_at (M.heap memory.old) left.address))
        → right.offset + right.length ≤ length (bytes s (birth_at
        (M.heap memory.old) right.address)) → result ≡ slice_cmp nat_cmp (part_bytes s (part_of
        (birth_at (M.heap memory.old)) left)) (part_bytes s (part_of (birth_at
        (M.heap memory.old)) right)) }
    ensures equal { (names : List (List ℕ)) (s : Store) → Shows (M.heap memory.old) names s
        → left.offset + left.length ≤ length (bytes s (birth_at (M.heap memory.old) left.address))
        → right.offset + right.length ≤ length (bytes s (birth_at
        (M.heap memory.old) right.address)) → (result ≡ Ordering.Equal) ↔ (part_bytes s (part_of
        (birth_at (M.heap memory.old)) left) ≡ part_bytes s (part_of (birth_at
        (M.heap memory.old)) right)) }
{
    if left.address == right.address && left.offset == right.offset && left.length == right.length {
        return Ordering::Equal;
    }
    let shared = left.length.min(right.length) as u32;
    let mut index = 0;
    while index < shared {
        let left_place = left.offset as u32 + index;
        let right_place = right.offset as u32 + index;
        let count = (BYTES - left_place % BYTES).min(shared - index);
        let left_word = word_from(memory, left.address, left_place, count);
        let right_word = word_from(memory, right.address, right_place, count);
        let order = compare_runs(left_word, right_word, count);
        if order != Ordering::Equal {
            return order;
        }
        index += count;
    }
    left.length.cmp(&right.length)
}
