//! The line of an error that nothing caught (PLRM2, 3.10).

ghost use Rattle.std.specs.Prelude.{◌≡◌, ◌<◌, ◌≤◌, ◌++◌, List, [], IfSome, OnOk, OnErr, codes};
ghost use Rattle.std.specs.Prelude.{take, length, option_map, vec_capacity};
ghost use Rattle.ps_language.specs.Value.{Store};
ghost use Rattle.ps_mem.specs.Heap.{birth_at};
ghost use Rattle.ps_mem.specs.Meaning.{value_of};
ghost use Rattle.ps_mem.specs.Shows.{IsValue, IsSound, IsWithin, Shows};
ghost use Rattle.ps_text.specs.Errors.{Appends, error_line_by, text_or_none};

use crate::appends::append;
use crate::plain::{NO_TEXT, append_plain};
use ps_mem::Memory;
use ps_names::Names;
use ps_word::words::Word;
use std::alloc::AllocError;

/// What stands around the error's name and its command.
const OPENING: &[u8] = b"%%[ Error: ";

const BLAME: &[u8] = b"; OffendingCommand: ";

const CLOSING: &[u8] = b" ]%%\n";

/// Appends the text of a value as `=` shows it, or of none.
fn append_value<M: Memory>(
    memory: &mut M,
    names: &Names,
    value: Option<Word>,
    output: &mut Vec<u8>,
) -> Result<(), AllocError>
    requires sound { IsSound (M.heap memory.old) }
    requires held { IfSome value (IsValue (M.heap memory.old)) }
    ensures heap { M.heap memory.new ≡ M.heap memory.old }
    ensures grants { M.grants memory.new ≡ M.grants memory.old }
    ensures front { take (length output.old.items) output.new.items ≡ output.old.items }
    ensures appends { (s : Store) → Shows (M.heap memory.old) names.now s
        → IfSome value (IsWithin (birth_at (M.heap memory.old)) names.now s)
        → Appends result
        (text_or_none s (option_map (value_of (birth_at (M.heap memory.old)) names.now) value))
        output.old.items output.new.items (vec_capacity output.old) (vec_capacity output.new) }
    ensures capacity { vec_capacity output.old ≤ vec_capacity output.new }
{
    match value {
        Some(word) => append_plain(memory, names, word, b"", output),
        None => append(NO_TEXT, output),
    }
}

/// Appends the parts of the line, as far as there is room.
fn append_parts<M: Memory>(
    memory: &mut M,
    names: &Names,
    name: Option<Word>,
    command: Option<Word>,
    output: &mut Vec<u8>,
) -> Result<(), AllocError>
    requires sound { IsSound (M.heap memory.old) }
    requires name { IfSome name (IsValue (M.heap memory.old)) }
    requires command { IfSome command (IsValue (M.heap memory.old)) }
    ensures heap { M.heap memory.new ≡ M.heap memory.old }
    ensures grants { M.grants memory.new ≡ M.grants memory.old }
    ensures front { take (length output.old.items) output.new.items ≡ output.old.items }
    ensures appends { (s : Store) → Shows (M.heap memory.old) names.now s
        → IfSome name (IsWithin (birth_at (M.heap memory.old)) names.now s)
        → IfSome command (IsWithin (birth_at (M.heap memory.old)) names.now s)
        → Appends result (error_line_by s
        (option_map (value_of (birth_at (M.heap memory.old)) names.now) name)
        (option_map (value_of (birth_at (M.heap memory.old)) names.now) command))
        output.old.items output.new.items (vec_capacity output.old) (vec_capacity output.new) }
    ensures capacity { vec_capacity output.old ≤ vec_capacity output.new }
{
    append(OPENING, output)?;
    append_value(memory, names, name, output)?;
    append(BLAME, output)?;
    append_value(memory, names, command, output)?;
    append(CLOSING, output)
}

/// Appends the line of an error by what stands under the keys of its name and its command. The
/// memory is only read.
///
/// `AllocError`: the output has no room for the line, and a growth was refused; its bytes are as
/// they were.
pub fn append_error_line<M: Memory>(
    memory: &mut M,
    names: &Names,
    name: Option<Word>,
    command: Option<Word>,
    output: &mut Vec<u8>,
) -> Result<(), AllocError>
    requires sound { IsSound (M.heap memory.old) }
    requires name { IfSome name (IsValue (M.heap memory.old)) }
    requires command { IfSome command (IsValue (M.heap memory.old)) }
    ensures heap { M.heap memory.new ≡ M.heap memory.old }
    ensures grants { M.grants memory.new ≡ M.grants memory.old }
    ensures front { take (length output.old.items) output.new.items ≡ output.old.items }
    ensures err { OnErr result (output.new.items ≡ output.old.items) }
    ensures appends { (s : Store) → Shows (M.heap memory.old) names.now s
        → IfSome name (IsWithin (birth_at (M.heap memory.old)) names.now s)
        → IfSome command (IsWithin (birth_at (M.heap memory.old)) names.now s)
        → Appends result (error_line_by s
        (option_map (value_of (birth_at (M.heap memory.old)) names.now) name)
        (option_map (value_of (birth_at (M.heap memory.old)) names.now) command))
        output.old.items output.new.items (vec_capacity output.old) (vec_capacity output.new) }
    ensures capacity { vec_capacity output.old ≤ vec_capacity output.new }
{
    let start = output.len();
    match append_parts(memory, names, name, command, output) {
        Ok(()) => Ok(()),
        Err(AllocError) => {
            output.truncate(start);
            Err(AllocError)
        }
    }
}
