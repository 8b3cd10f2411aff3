//! Lines of texts.

ghost use Rattle.std.specs.Prelude.{◌≡◌, ◌<◌, ◌≤◌, ◌++◌, ◌∷◌, [], map, take, reverse, length, OnOk};
ghost use Rattle.std.specs.Prelude.{OnErr, vec_capacity};
ghost use Rattle.std.specs.List.{flat_map};
ghost use Rattle.ps_language.specs.RowsOutput.{line};
ghost use Rattle.ps_language.specs.Texts.{plain_text, full_text};
ghost use Rattle.ps_language.specs.Value.{Store};
ghost use Rattle.ps_mem.specs.Heap.{birth_at};
ghost use Rattle.ps_mem.specs.Meaning.{value_of};
ghost use Rattle.ps_mem.specs.Shows.{IsValue, AreValues, IsSound, IsWithin, AreWithin, Shows};
ghost use Rattle.ps_text.specs.Forms.{text_as};

use crate::appends::append;
use crate::full::append_full;
use crate::plain::append_plain;
use ps_mem::Memory;
use ps_names::Names;
use ps_word::words::Word;
use std::alloc::AllocError;

/// How a value is shown.
#[derive(Clone, Copy, Debug, PartialEq, Eq)]
pub enum Form {
    /// As by `=` and `stack`.
    Plain,
    /// As by `==` and `pstack`.
    Full,
}

/// Appends the end of a line that begins at `start`; where the growth is refused, the line is taken
/// away.
fn end_line(start: usize, output: &mut Vec<u8>) -> Result<(), AllocError>
    ensures capacity { vec_capacity output.old ≤ vec_capacity output.new }
    ensures ok { OnOk result (output.new.items ≡ output.old.items ++ 10 ∷ []) }
    ensures full { OnErr result (vec_capacity output.old < length (output.old.items ++ 10 ∷ [])) }
    ensures err { OnErr result (output.new.items ≡ take start output.old.items) }
{
    if append(b"\n", output).is_err() {
        output.truncate(start);
        return Err(AllocError);
    }
    Ok(())
}

/// Appends a text as `=` shows it and the end of its line. The memory is only read.
///
/// `AllocError`: the output has no room for the line, and its one growth was refused; it is as it
/// was, and takes no more.
pub fn append_plain_line<M: Memory>(
    memory: &mut M,
    names: &Names,
    word: Word,
    output: &mut Vec<u8>,
) -> Result<(), AllocError>
    requires sound { IsSound (M.heap memory.old) }
    requires held { IsValue (M.heap memory.old) word }
    ensures heap { M.heap memory.new ≡ M.heap memory.old }
    ensures grants { M.grants memory.new ≡ M.grants memory.old }
    ensures capacity { vec_capacity output.old ≤ vec_capacity output.new }
    ensures ok { (s : Store) → Shows (M.heap memory.old) names.now s → IsWithin (birth_at (M.heap
        memory.old)) names.now s word → OnOk result (output.new.items ≡ output.old.items ++ line
        plain_text s (value_of (birth_at (M.heap memory.old)) names.now word)) }
    ensures full { (s : Store) → Shows (M.heap memory.old) names.now s → IsWithin (birth_at (M.heap
        memory.old)) names.now s word → OnErr result (vec_capacity output.old < length
        (output.old.items ++ line plain_text s (value_of (birth_at (M.heap memory.old)) names.now
        word))) }
    ensures front { take (length output.old.items) output.new.items ≡ output.old.items }
    ensures err { OnErr result (output.new.items ≡ output.old.items) }
    ensures stays { OnErr result (vec_capacity output.new ≡ vec_capacity output.old) }
{
    append_plain(memory, names, word, b"\n", output)
}

/// Appends a text as `==` shows it and the end of its line. The memory is only read.
///
/// `AllocError`: the output has no room for the line, and its growth was refused; it is as it was.
pub fn append_full_line<M: Memory>(
    memory: &mut M,
    names: &Names,
    word: Word,
    output: &mut Vec<u8>,
) -> Result<(), AllocError>
    requires sound { IsSound (M.heap memory.old) }
    requires held { IsValue (M.heap memory.old) word }
    ensures heap { M.heap memory.new ≡ M.heap memory.old }
    ensures grants { M.grants memory.new ≡ M.grants memory.old }
    ensures capacity { vec_capacity output.old ≤ vec_capacity output.new }
    ensures ok { (s : Store) → Shows (M.heap memory.old) names.now s → IsWithin (birth_at (M.heap
        memory.old)) names.now s word → OnOk result (output.new.items ≡ output.old.items ++ line
        full_text s (value_of (birth_at (M.heap memory.old)) names.now word)) }
    ensures full { (s : Store) → Shows (M.heap memory.old) names.now s → IsWithin (birth_at (M.heap
        memory.old)) names.now s word → OnErr result (vec_capacity output.old < length
        (output.old.items ++ line full_text s (value_of (birth_at (M.heap memory.old)) names.now
        word))) }
    ensures front { take (length output.old.items) output.new.items ≡ output.old.items }
    ensures err { OnErr result (output.new.items ≡ output.old.items) }
{
    let start = output.len();
    append_full(memory, names, word, output)?;
    end_line(start, output)
}

/// A line of either form.
fn append_line<M: Memory>(
    memory: &mut M,
    names: &Names,
    word: Word,
    form: Form,
    output: &mut Vec<u8>,
) -> Result<(), AllocError>
    requires sound { IsSound (M.heap memory.old) }
    requires held { IsValue (M.heap memory.old) word }
    ensures heap { M.heap memory.new ≡ M.heap memory.old }
    ensures grants { M.grants memory.new ≡ M.grants memory.old }
    ensures capacity { vec_capacity output.old ≤ vec_capacity output.new }
    ensures ok { (s : Store) → Shows (M.heap memory.old) names.now s → IsWithin (birth_at (M.heap
        memory.old)) names.now s word → OnOk result (output.new.items ≡ output.old.items ++ line
        (text_as form) s (value_of (birth_at (M.heap memory.old)) names.now word)) }
    ensures full { (s : Store) → Shows (M.heap memory.old) names.now s → IsWithin (birth_at (M.heap
        memory.old)) names.now s word → OnErr result (vec_capacity output.old < length
        (output.old.items ++ line (text_as form) s (value_of (birth_at (M.heap memory.old))
        names.now word))) }
    ensures front { take (length output.old.items) output.new.items ≡ output.old.items }
    ensures err { OnErr result (output.new.items ≡ output.old.items) }
{
    match form {
        Form::Plain => append_plain_line(memory, names, word, output),
        Form::Full => append_full_line(memory, names, word, output),
    }
}

/// Appends a line for each value from the last, the topmost of an operand stack, down to the first,
/// as `stack` (`Form::Plain`) and `pstack`
/// (`Form::Full`) show them. The memory is only read.
///
/// `AllocError`: the output has no room for the lines, and a growth was refused; it is as it was.
pub fn append_stack<M: Memory>(
    memory: &mut M,
    names: &Names,
    words: &[Word],
    form: Form,
    output: &mut Vec<u8>,
) -> Result<(), AllocError>
    requires sound { IsSound (M.heap memory.old) }
    requires held { AreValues (M.heap memory.old) words.now }
    ensures heap { M.heap memory.new ≡ M.heap memory.old }
    ensures grants { M.grants memory.new ≡ M.grants memory.old }
    ensures capacity { vec_capacity output.old ≤ vec_capacity output.new }
    ensures ok { (s : Store) → Shows (M.heap memory.old) names.now s → AreWithin (M.heap memory.old)
        names.now s words.now → OnOk result (output.new.items ≡ output.old.items ++ flat_map (line
        (text_as form) s) (map (value_of (birth_at (M.heap memory.old)) names.now) (reverse
        words.now))) }
    ensures full { (s : Store) → Shows (M.heap memory.old) names.now s → AreWithin (M.heap
        memory.old) names.now s words.now → OnErr result (vec_capacity output.old < length
        (output.old.items ++ flat_map (line (text_as form) s) (map (value_of (birth_at (M.heap
        memory.old)) names.now) (reverse words.now)))) }
    ensures front { take (length output.old.items) output.new.items ≡ output.old.items }
    ensures err { OnErr result (output.new.items ≡ output.old.items) }
{
    let start = output.len();
    let mut rest = words;
    while let Some((word, below)) = rest.split_last() {
        if append_line(memory, names, *word, form, output).is_err() {
            output.truncate(start);
            return Err(AllocError);
        }
        rest = below;
    }
    Ok(())
}
