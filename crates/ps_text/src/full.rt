//! The text of `==` and `pstack`.

ghost use Rattle.std.specs.Prelude.{◌≡◌, ◌<◌, ◌≤◌, ◌+◌, ◌++◌, ℕ, List, map, take, length, codes};
ghost use Rattle.std.specs.Prelude.{if◌then◌else◌, OnOk, OnErr, vec_capacity};
ghost use Rattle.std.specs.List.{join_with_byte};
ghost use Rattle.ps_language.specs.Access.{part_elements};
ghost use Rattle.ps_language.specs.Texts.{full_text};
ghost use Rattle.ps_language.specs.Value.{Store};
ghost use Rattle.ps_word.specs.Format.{IsContent};
ghost use Rattle.ps_mem.specs.Heap.{birth_at};
ghost use Rattle.ps_mem.specs.References.{IsKnownContent, StandsAs};
ghost use Rattle.ps_mem.specs.Meaning.{what_of, value_of, part_of};
ghost use Rattle.ps_mem.specs.Shows.{IsValue, IsSound, IsWithinContent, IsWithin, Shows};
ghost use Rattle.ps_text.specs.Shown.{GoesOn, simple_text, text_to};

use crate::appends::{
    append_cut, append_integer, append_name, append_operator, append_separator, boolean_text,
    is_readable,
};
use crate::escapes::append_string;
use ps_language::kinds::Kind;
use ps_mem::Memory;
use ps_names::Names;
use ps_seq::arrays::element;
use ps_word::values::{Content, Part};
use ps_word::words::Word;
use std::alloc::AllocError;

/// How many bytes of the text of a value are shown by `==`.
pub const SHOWN_LIMIT: usize = 65_535;

/// How deep `==` goes into arrays in arrays.
pub const NESTING_LIMIT: u8 = 32;

/// What a value is printed with.
#[derive(Clone, Copy)]
struct Printer<'a> {
    names: &'a Names,
    /// The length at which the output is cut, in bytes.
    end: usize,
}

/// What an array begins with: a procedure stands in braces.
fn opening(executable: bool) -> &'static [u8]
    ensures { result.now ≡ (if executable then codes "{" else codes "[") }
{
    if executable { b"{" } else { b"[" }
}

/// What an array ends with.
fn closing(executable: bool) -> &'static [u8]
    ensures { result.now ≡ (if executable then codes "}" else codes "]") }
{
    if executable { b"}" } else { b"]" }
}

/// Appends the text of what isn't gone into, as far as it fits: of an array `-array-`.
fn append_simple<M: Memory>(
    memory: &mut M,
    printer: &Printer<'_>,
    content: Content,
    executable: bool,
    output: &mut Vec<u8>,
) -> Result<(), AllocError>
    requires sound { IsSound (M.heap memory.old) }
    requires known { IsKnownContent (M.heap memory.old) content }
    requires format { IsContent content }
    requires short { length output.old.items ≤ printer.now.end }
    ensures heap { M.heap memory.new ≡ M.heap memory.old }
    ensures grants { M.grants memory.new ≡ M.grants memory.old }
    ensures goes_on { GoesOn printer.now.end output.old.items output.new.items }
    ensures capacity { vec_capacity output.old ≤ vec_capacity output.new }
    ensures ok { (s : Store) → Shows (M.heap memory.old) printer.now.names.now s
        → IsWithinContent (birth_at (M.heap memory.old)) printer.now.names.now s content
        → OnOk result (output.new.items ≡ take printer.now.end (output.old.items ++ simple_text s
        executable (what_of (birth_at (M.heap memory.old)) printer.now.names.now content))) }
    ensures full { (s : Store) → Shows (M.heap memory.old) printer.now.names.now s
        → IsWithinContent (birth_at (M.heap memory.old)) printer.now.names.now s content
        → OnErr result (vec_capacity output.old < length (take printer.now.end (output.old.items
        ++ simple_text s executable
        (what_of (birth_at (M.heap memory.old)) printer.now.names.now content)))) }
{
    let names = printer.names;
    let end = printer.end;
    match content {
        Content::Null | Content::Body(_) => append_cut(b"null", end, output),
        Content::Mark => append_cut(b"-mark-", end, output),
        Content::Integer(number) => append_integer(number, end, output),
        Content::Boolean(truth) => append_cut(boolean_text(truth), end, output),
        Content::Name(number) => append_name(names, number, executable, end, output),
        Content::Operator(operator) => append_operator(operator, end, output),
        Content::Array(_) => append_cut(b"-array-", end, output),
        Content::Text(part) => append_string(memory, part, end, output),
        Content::Dictionary(_) => append_cut(b"-dict-", end, output),
        Content::Lock(_) => append_cut(b"-lock-", end, output),
        Content::Condition(_) => append_cut(b"-condition-", end, output),
    }
}

/// Appends the text of a value, as far as it fits, with arrays gone into so many deep.
#[cycle(values)]
fn append_value<M: Memory>(
    memory: &mut M,
    printer: &Printer<'_>,
    word: Word,
    depth: u8,
    output: &mut Vec<u8>,
) -> Result<(), AllocError>
    requires sound { IsSound (M.heap memory.old) }
    requires held { IsValue (M.heap memory.old) word }
    requires short { length output.old.items ≤ printer.now.end }
    ensures heap { M.heap memory.new ≡ M.heap memory.old }
    ensures grants { M.grants memory.new ≡ M.grants memory.old }
    ensures goes_on { GoesOn printer.now.end output.old.items output.new.items }
    ensures capacity { vec_capacity output.old ≤ vec_capacity output.new }
    ensures ok { (s : Store) → Shows (M.heap memory.old) printer.now.names.now s
        → IsWithin (birth_at (M.heap memory.old)) printer.now.names.now s word
        → OnOk result (output.new.items ≡ take printer.now.end (output.old.items
        ++ text_to depth s (value_of (birth_at (M.heap memory.old)) printer.now.names.now word))) }
    ensures full { (s : Store) → Shows (M.heap memory.old) printer.now.names.now s
        → IsWithin (birth_at (M.heap memory.old)) printer.now.names.now s word
        → OnErr result (vec_capacity output.old < length (take printer.now.end (output.old.items
        ++ text_to depth s (value_of (birth_at (M.heap memory.old)) printer.now.names.now word)))) }
{
    let end = printer.end;
    let content = word.content();
    let executable = word.is_executable();
    let Content::Array(part) = content else {
        return append_simple(memory, printer, content, executable, output);
    };
    if depth == 0 || !is_readable(part.access) {
        return append_cut(b"-array-", end, output);
    }
    append_cut(opening(executable), end, output)?;
    append_elements(memory, printer, part, depth - 1, output)?;
    append_cut(closing(executable), end, output)
}

/// Appends the texts of the elements of a part of an array with a space between, as far as they
/// fit. Once the text is full no more is read.
#[cycle(values)]
fn append_elements<M: Memory>(
    memory: &mut M,
    printer: &Printer<'_>,
    part: Part,
    depth: u8,
    output: &mut Vec<u8>,
) -> Result<(), AllocError>
    requires sound { IsSound (M.heap memory.old) }
    requires known { StandsAs (M.heap memory.old) Kind.Array part.address (part.offset +
        part.length) }
    requires short { length output.old.items ≤ printer.now.end }
    ensures heap { M.heap memory.new ≡ M.heap memory.old }
    ensures grants { M.grants memory.new ≡ M.grants memory.old }
    ensures goes_on { GoesOn printer.now.end output.old.items output.new.items }
    ensures capacity { vec_capacity output.old ≤ vec_capacity output.new }
    ensures ok { (s : Store) → Shows (M.heap memory.old) printer.now.names.now s
        → OnOk result (output.new.items ≡ take printer.now.end (output.old.items
        ++ join_with_byte 32 (map (text_to depth s) (part_elements s
        (part_of (birth_at (M.heap memory.old)) part))))) }
    ensures full { (s : Store) → Shows (M.heap memory.old) printer.now.names.now s
        → OnErr result (vec_capacity output.old < length (take printer.now.end (output.old.items
        ++ join_with_byte 32 (map (text_to depth s) (part_elements s
        (part_of (birth_at (M.heap memory.old)) part)))))) }
{
    let end = printer.end;
    for index in 0..part.length {
        if output.len() >= end {
            return Ok(());
        }
        let word = element(memory, part, index);
        append_separator(index, end, output)?;
        append_value(memory, printer, word, depth, output)?;
    }
    Ok(())
}

/// Appends the text of a value as `==` shows it: its first `SHOWN_LIMIT` bytes, with arrays gone
/// into `NESTING_LIMIT` deep. The memory is
/// only read. Once the text is full nothing more is gone into, so an array that holds itself takes
/// no longer than another.
///
/// `AllocError`: the output has no room for the text, and its growth was refused; it is as it was.
pub fn append_full<M: Memory>(
    memory: &mut M,
    names: &Names,
    word: Word,
    output: &mut Vec<u8>,
) -> Result<(), AllocError>
    requires sound { IsSound (M.heap memory.old) }
    requires held { IsValue (M.heap memory.old) word }
    ensures heap { M.heap memory.new ≡ M.heap memory.old }
    ensures grants { M.grants memory.new ≡ M.grants memory.old }
    ensures capacity { vec_capacity output.old ≤ vec_capacity output.new }
    ensures ok { (s : Store) → Shows (M.heap memory.old) names.now s → IsWithin (birth_at (M.heap
        memory.old)) names.now s word → OnOk result (output.new.items ≡ output.old.items
        ++ full_text s (value_of (birth_at (M.heap memory.old)) names.now word)) }
    ensures full { (s : Store) → Shows (M.heap memory.old) names.now s → IsWithin (birth_at (M.heap
        memory.old)) names.now s word → let text =
        full_text s (value_of (birth_at (M.heap memory.old)) names.now word) in
        OnErr result (vec_capacity output.old < length (output.old.items ++ text)) }
    ensures front { take (length output.old.items) output.new.items ≡ output.old.items }
    ensures err { OnErr result (output.new.items ≡ output.old.items) }
{
    let start = output.len();
    let end = start + SHOWN_LIMIT;
    let printer = Printer { names, end };
    if append_value(memory, &printer, word, NESTING_LIMIT, output).is_err() {
        output.truncate(start);
        return Err(AllocError);
    }
    Ok(())
}
