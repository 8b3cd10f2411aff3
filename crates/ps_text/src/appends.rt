//! Pieces of texts behind an output: whole, or as far as they fit before an end.

ghost use Rattle.std.specs.Prelude.{◌≡◌, ◌+◌, ◌<◌, ◌≤◌, ◌++◌, take, length, codes, if◌then◌else◌};
ghost use Rattle.std.specs.Prelude.{OnOk, OnErr, vec_capacity};
ghost use Rattle.std.specs.Fmt.{signed_decimal};
ghost use Rattle.ps_language.specs.Access as language;
ghost use Rattle.ps_language.specs.Operators as operators;
ghost use Rattle.ps_language.specs.Texts as texts;
ghost use Rattle.ps_mem.specs.Meaning.{text_of_name};
ghost use Rattle.ps_text.specs.Shown.{GoesOn, separator};

use itoa::Buffer;
use ps_language::access::Access;
use ps_language::operators::{Operator, operator_name};
use ps_names::{NameId, Names};
use std::alloc::AllocError;

/// Whether an access permits reading.
#[inline]
pub fn is_readable(access: Access) -> bool
    ensures { result ≡ language.is_readable access }
{
    match access {
        Access::Unlimited | Access::ReadOnly => true,
        Access::ExecuteOnly | Access::NoAccess => false,
    }
}

/// The text of a boolean.
#[inline]
pub fn boolean_text(truth: bool) -> &'static [u8]
    ensures { result.now ≡ texts.boolean_text truth }
{
    if truth { b"true" } else { b"false" }
}

/// Appends bytes; where the growth is refused nothing changes.
#[inline]
pub fn append(bytes: &[u8], output: &mut Vec<u8>) -> Result<(), AllocError>
    ensures capacity { vec_capacity output.old ≤ vec_capacity output.new }
    ensures ok { OnOk result (output.new.items ≡ output.old.items ++ bytes.now) }
    ensures full { OnErr result (vec_capacity output.old < length (output.old.items ++ bytes.now)) }
    ensures front { take (length output.old.items) output.new.items ≡ output.old.items }
    ensures err { OnErr result (output.new.items ≡ output.old.items) }
{
    output.extend_from_slice(bytes)
}

/// Appends bytes for which there is room.
#[inline]
pub(crate) fn add(bytes: &[u8], output: &mut Vec<u8>)
    requires { length output.old.items + length bytes.now ≤ vec_capacity output.old }
    ensures items { output.new.items ≡ output.old.items ++ bytes.now }
    ensures capacity { vec_capacity output.old ≤ vec_capacity output.new }
{
    let _ = output.extend_from_slice(bytes);
}

/// Appends bytes and what ends them, by one growth; where that is refused nothing changes.
#[inline]
pub fn append_ended(bytes: &[u8], ending: &[u8], output: &mut Vec<u8>) -> Result<(), AllocError>
    requires short { length ending.now ≤ 1 }
    ensures capacity { vec_capacity output.old ≤ vec_capacity output.new }
    ensures ok { OnOk result (output.new.items ≡ output.old.items ++ (bytes.now ++ ending.now)) }
    ensures full { OnErr result
        (vec_capacity output.old < length (output.old.items ++ (bytes.now ++ ending.now))) }
    ensures front { take (length output.old.items) output.new.items ≡ output.old.items }
    ensures err { OnErr result (output.new.items ≡ output.old.items) }
    ensures stays { OnErr result (vec_capacity output.new ≡ vec_capacity output.old) }
{
    output.reserve(bytes.len() + ending.len())?;
    add(bytes, output);
    add(ending, output);
    Ok(())
}

/// Appends as many of the bytes as fit before the end, a length of the output. Where the growth is
/// refused nothing changes.
#[inline]
pub fn append_cut(bytes: &[u8], end: usize, output: &mut Vec<u8>) -> Result<(), AllocError>
    requires { length output.old.items ≤ end }
    ensures goes_on { GoesOn end output.old.items output.new.items }
    ensures capacity { vec_capacity output.old ≤ vec_capacity output.new }
    ensures ok { OnOk result (output.new.items ≡ take end (output.old.items ++ bytes.now)) }
    ensures full { OnErr result (vec_capacity output.old < length (take end (output.old.items
        ++ bytes.now))) }
{
    let room = end - output.len();
    let count = bytes.len().min(room);
    output.extend_from_slice(&bytes[..count])
}

/// Appends an integer in decimal, as far as it fits.
pub fn append_integer(number: i32, end: usize, output: &mut Vec<u8>) -> Result<(), AllocError>
    requires { length output.old.items ≤ end }
    ensures goes_on { GoesOn end output.old.items output.new.items }
    ensures capacity { vec_capacity output.old ≤ vec_capacity output.new }
    ensures ok { OnOk result (output.new.items ≡ take end (output.old.items ++ signed_decimal
        number)) }
    ensures full { OnErr result (vec_capacity output.old < length (take end (output.old.items
        ++ signed_decimal number))) }
{
    let mut buffer = Buffer::new();
    append_cut(buffer.format(number).as_bytes(), end, output)
}

/// Appends the text of the name of a number, a literal one behind a slash, as far as it fits.
pub fn append_name(
    names: &Names,
    number: u16,
    executable: bool,
    end: usize,
    output: &mut Vec<u8>,
) -> Result<(), AllocError>
    requires { length output.old.items ≤ end }
    ensures goes_on { GoesOn end output.old.items output.new.items }
    ensures capacity { vec_capacity output.old ≤ vec_capacity output.new }
    ensures ok { OnOk result (output.new.items ≡ take end (output.old.items ++ (if executable then
        text_of_name names.now number else codes "/" ++ text_of_name names.now number))) }
    ensures full { OnErr result (vec_capacity output.old < length (take end (output.old.items ++ (if
        executable then text_of_name names.now number else codes "/" ++ text_of_name names.now
        number)))) }
{
    if !executable {
        append_cut(b"/", end, output)?;
    }
    append_cut(names.text(NameId(number)), end, output)
}

/// Appends the name of an operator between two dashes and two, as far as it fits.
pub fn append_operator(
    operator: Operator,
    end: usize,
    output: &mut Vec<u8>,
) -> Result<(), AllocError>
    requires { length output.old.items ≤ end }
    ensures goes_on { GoesOn end output.old.items output.new.items }
    ensures capacity { vec_capacity output.old ≤ vec_capacity output.new }
    ensures ok { OnOk result (output.new.items ≡ take end (output.old.items ++ (codes "--"
        ++ operators.operator_name operator ++ codes "--"))) }
    ensures full { OnErr result (vec_capacity output.old < length (take end (output.old.items
        ++ (codes "--" ++ operators.operator_name operator ++ codes "--")))) }
{
    append_cut(b"--", end, output)?;
    append_cut(operator_name(operator), end, output)?;
    append_cut(b"--", end, output)
}

/// Appends what stands before the element of an index, as far as it fits.
#[inline]
pub fn append_separator(index: u16, end: usize, output: &mut Vec<u8>) -> Result<(), AllocError>
    requires { length output.old.items ≤ end }
    ensures goes_on { GoesOn end output.old.items output.new.items }
    ensures capacity { vec_capacity output.old ≤ vec_capacity output.new }
    ensures ok { OnOk result (output.new.items ≡ take end (output.old.items ++ separator index)) }
    ensures full { OnErr result (vec_capacity output.old < length (take end (output.old.items
        ++ separator index))) }
{
    if index == 0 {
        return Ok(());
    }
    append_cut(b" ", end, output)
}
