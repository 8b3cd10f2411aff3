//! The text of `=`, `stack` and `cvs`.

ghost use Rattle.std.specs.Prelude.{◌≡◌, ◌<◌, ◌≤◌, ◌+◌, ◌++◌, ℕ, List, take, length, OnOk, OnErr};
ghost use Rattle.std.specs.Prelude.{vec_capacity};
ghost use Rattle.std.specs.Fmt.{signed_decimal};
ghost use Rattle.ps_language.specs.Access.{bytes, part_bytes};
ghost use Rattle.ps_language.specs.Texts.{plain_text_in, plain_text};
ghost use Rattle.ps_language.specs.Value.{Store, string_value};
ghost use Rattle.ps_mem.specs.Heap.{birth_at};
ghost use Rattle.ps_mem.specs.References.{IsKnownContent, StandsAs, words_for};
ghost use Rattle.ps_mem.specs.Meaning.{what_of, value_of, part_of};
ghost use Rattle.ps_mem.specs.Shows.{IsValue, IsSound, IsWithinContent, IsWithin, Shows};

use crate::appends::{add, append_ended, boolean_text, is_readable};
use itoa::Buffer;
use ps_language::kinds::Kind;
use ps_language::operators::operator_name;
use ps_mem::Memory;
use ps_names::{NameId, Names};
use ps_seq::strings::append_bytes;
use ps_word::values::{Content, Part};
use ps_word::words::Word;
use std::alloc::AllocError;

/// The text of what has none.
pub const NO_TEXT: &[u8] = b"--nostringval--";

/// Appends an integer in decimal and what ends it; where the growth is refused nothing changes.
fn append_decimal(number: i32, ending: &[u8], output: &mut Vec<u8>) -> Result<(), AllocError>
    requires short { length ending.now ≤ 1 }
    ensures capacity { vec_capacity output.old ≤ vec_capacity output.new }
    ensures ok { OnOk result
        (output.new.items ≡ output.old.items ++ (signed_decimal number ++ ending.now)) }
    ensures full { OnErr result (vec_capacity output.old
        < length (output.old.items ++ (signed_decimal number ++ ending.now))) }
    ensures front { take (length output.old.items) output.new.items ≡ output.old.items }
    ensures err { OnErr result (output.new.items ≡ output.old.items) }
    ensures stays { OnErr result (vec_capacity output.new ≡ vec_capacity output.old) }
{
    let mut buffer = Buffer::new();
    append_ended(buffer.format(number).as_bytes(), ending, output)
}

/// Appends the bytes of a part of a string and what ends them, by one growth. Where that is refused
/// nothing changes.
fn append_part<M: Memory>(
    memory: &mut M,
    part: Part,
    ending: &[u8],
    output: &mut Vec<u8>,
) -> Result<(), AllocError>
    requires sound { IsSound (M.heap memory.old) }
    requires known { StandsAs (M.heap memory.old) Kind.Text part.address
        (words_for (part.offset + part.length)) }
    requires short { length ending.now ≤ 1 }
    ensures heap { M.heap memory.new ≡ M.heap memory.old }
    ensures grants { M.grants memory.new ≡ M.grants memory.old }
    ensures capacity { vec_capacity output.old ≤ vec_capacity output.new }
    ensures ok { (names : List (List ℕ)) (s : Store) → Shows (M.heap memory.old) names s
        → part.offset + part.length ≤ length (bytes s (birth_at (M.heap memory.old) part.address))
        → OnOk result (output.new.items ≡ output.old.items
        ++ (part_bytes s (part_of (birth_at (M.heap memory.old)) part) ++ ending.now)) }
    ensures full { OnErr result (vec_capacity output.old
        < length output.old.items + (part.length + length ending.now)) }
    ensures front { take (length output.old.items) output.new.items ≡ output.old.items }
    ensures err { OnErr result (output.new.items ≡ output.old.items) }
    ensures stays { OnErr result (vec_capacity output.new ≡ vec_capacity output.old) }
{
    output.reserve(part.length as usize + ending.len())?;
    let _ = append_bytes(memory, part, output);
    add(ending, output);
    Ok(())
}

/// Appends the bytes of a part of a string, or `NO_TEXT` for what can't be read, and what ends
/// them.
/// Where the growth is refused nothing changes.
fn append_text<M: Memory>(
    memory: &mut M,
    part: Part,
    ending: &[u8],
    output: &mut Vec<u8>,
) -> Result<(), AllocError>
    requires sound { IsSound (M.heap memory.old) }
    requires known { StandsAs (M.heap memory.old) Kind.Text part.address
        (words_for (part.offset + part.length)) }
    requires short { length ending.now ≤ 1 }
    ensures heap { M.heap memory.new ≡ M.heap memory.old }
    ensures grants { M.grants memory.new ≡ M.grants memory.old }
    ensures capacity { vec_capacity output.old ≤ vec_capacity output.new }
    ensures ok { (names : List (List ℕ)) (s : Store) → Shows (M.heap memory.old) names s
        → part.offset + part.length ≤ length (bytes s (birth_at (M.heap memory.old) part.address))
        → OnOk result (output.new.items ≡ output.old.items ++ (plain_text_in s
        (string_value (part_of (birth_at (M.heap memory.old)) part)) ++ ending.now)) }
    ensures full { (names : List (List ℕ)) (s : Store) → Shows (M.heap memory.old) names s
        → part.offset + part.length ≤ length (bytes s (birth_at (M.heap memory.old) part.address))
        → OnErr result (vec_capacity output.old < length (output.old.items ++ (plain_text_in s
        (string_value (part_of (birth_at (M.heap memory.old)) part)) ++ ending.now))) }
    ensures front { take (length output.old.items) output.new.items ≡ output.old.items }
    ensures err { OnErr result (output.new.items ≡ output.old.items) }
    ensures stays { OnErr result (vec_capacity output.new ≡ vec_capacity output.old) }
{
    if !is_readable(part.access) {
        return append_ended(NO_TEXT, ending, output);
    }
    append_part(memory, part, ending, output)
}

/// Appends the text of a content as `=` shows it, and what ends it. Where the growth is refused
/// nothing changes.
fn append_content<M: Memory>(
    memory: &mut M,
    names: &Names,
    content: Content,
    ending: &[u8],
    output: &mut Vec<u8>,
) -> Result<(), AllocError>
    requires sound { IsSound (M.heap memory.old) }
    requires known { IsKnownContent (M.heap memory.old) content }
    requires short { length ending.now ≤ 1 }
    ensures heap { M.heap memory.new ≡ M.heap memory.old }
    ensures grants { M.grants memory.new ≡ M.grants memory.old }
    ensures capacity { vec_capacity output.old ≤ vec_capacity output.new }
    ensures ok { (s : Store) → Shows (M.heap memory.old) names.now s
        → IsWithinContent (birth_at (M.heap memory.old)) names.now s content
        → OnOk result (output.new.items ≡ output.old.items ++ (plain_text_in s
        (what_of (birth_at (M.heap memory.old)) names.now content) ++ ending.now)) }
    ensures full { (s : Store) → Shows (M.heap memory.old) names.now s
        → IsWithinContent (birth_at (M.heap memory.old)) names.now s content
        → OnErr result (vec_capacity output.old < length (output.old.items ++ (plain_text_in s
        (what_of (birth_at (M.heap memory.old)) names.now content) ++ ending.now))) }
    ensures front { take (length output.old.items) output.new.items ≡ output.old.items }
    ensures err { OnErr result (output.new.items ≡ output.old.items) }
    ensures stays { OnErr result (vec_capacity output.new ≡ vec_capacity output.old) }
{
    match content {
        Content::Integer(number) => append_decimal(number, ending, output),
        Content::Boolean(truth) => append_ended(boolean_text(truth), ending, output),
        Content::Name(number) => append_ended(names.text(NameId(number)), ending, output),
        Content::Operator(operator) => append_ended(operator_name(operator), ending, output),
        Content::Text(part) => append_text(memory, part, ending, output),
        Content::Null
        | Content::Mark
        | Content::Array(_)
        | Content::Dictionary(_)
        | Content::Lock(_)
        | Content::Condition(_)
        | Content::Body(_) => append_ended(NO_TEXT, ending, output),
    }
}

/// Appends the text of a value as `=` shows it and what ends it, one byte at most. The memory is
/// only read.
///
/// `AllocError`: the output has no room for both, and its one growth was refused; it is as it was.
pub fn append_plain<M: Memory>(
    memory: &mut M,
    names: &Names,
    word: Word,
    ending: &[u8],
    output: &mut Vec<u8>,
) -> Result<(), AllocError>
    requires sound { IsSound (M.heap memory.old) }
    requires held { IsValue (M.heap memory.old) word }
    requires short { length ending.now ≤ 1 }
    ensures heap { M.heap memory.new ≡ M.heap memory.old }
    ensures grants { M.grants memory.new ≡ M.grants memory.old }
    ensures capacity { vec_capacity output.old ≤ vec_capacity output.new }
    ensures ok { (s : Store) → Shows (M.heap memory.old) names.now s
        → IsWithin (birth_at (M.heap memory.old)) names.now s word
        → OnOk result (output.new.items ≡ output.old.items ++ (plain_text s
        (value_of (birth_at (M.heap memory.old)) names.now word) ++ ending.now)) }
    ensures full { (s : Store) → Shows (M.heap memory.old) names.now s
        → IsWithin (birth_at (M.heap memory.old)) names.now s word
        → OnErr result (vec_capacity output.old < length (output.old.items ++ (plain_text s
        (value_of (birth_at (M.heap memory.old)) names.now word) ++ ending.now))) }
    ensures front { take (length output.old.items) output.new.items ≡ output.old.items }
    ensures err { OnErr result (output.new.items ≡ output.old.items) }
    ensures stays { OnErr result (vec_capacity output.new ≡ vec_capacity output.old) }
{
    append_content(memory, names, word.content(), ending, output)
}

/// How many bytes the text of a content has, as `=` shows it.
fn content_length(names: &Names, content: Content) -> usize
    ensures { (births : ℕ → ℕ) (s : Store) → IsWithinContent births names.now s content
        → result ≡ length (plain_text_in s (what_of births names.now content)) }
{
    match content {
        Content::Integer(number) => {
            let mut buffer = Buffer::new();
            buffer.format(number).len()
        }
        Content::Boolean(truth) => boolean_text(truth).len(),
        Content::Name(number) => names.text(NameId(number)).len(),
        Content::Operator(operator) => operator_name(operator).len(),
        Content::Text(part) => {
            if is_readable(part.access) {
                part.length as usize
            } else {
                NO_TEXT.len()
            }
        }
        Content::Null
        | Content::Mark
        | Content::Array(_)
        | Content::Dictionary(_)
        | Content::Lock(_)
        | Content::Condition(_)
        | Content::Body(_) => NO_TEXT.len(),
    }
}

/// How many bytes the text of a value has, as `=` shows it. It takes no memory.
pub fn plain_length(names: &Names, word: Word) -> usize
    ensures { (births : ℕ → ℕ) (s : Store) → IsWithin births names.now s word
        → result ≡ length (plain_text s (value_of births names.now word)) }
{
    content_length(names, word.content())
}
