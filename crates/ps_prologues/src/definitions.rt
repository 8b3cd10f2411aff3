//! The text of a definition.

ghost use Rattle.std.specs.Prelude.{◌≡◌, ◌↔◌, ◌++◌, ◌<◌, IfErr, IfOk, IsTrue, OnOk};
ghost use Rattle.ps_language.specs.Bytes as bytes;
ghost use Rattle.ps_language.specs.Syntax.{EachIs};
ghost use Rattle.ps_prologues.specs.Prologues as spec;
ghost use Rattle.ps_prologues.specs.Prologues.{FitsLimit, IsNameText, IsNoDefinition, definition_text, value_text, hex_text};

use itoa::Buffer;
use std::alloc::{AllocError, Global};
use thiserror::Error;

/// What a name is defined as.
#[derive(Clone, Copy, Debug)]
pub enum DefinedValue<'a> {
    Integer(i32),
    Boolean(bool),
    /// A string of these bytes, at most 65,535.
    Text(&'a [u8]),
}

/// Why a definition has no text.
#[derive(Clone, Copy, Debug, PartialEq, Eq, Error)]
pub enum DefinitionFault {
    /// The scanner reads no such name: it has white space or one of `( ) < > [ ] { } / %`, or more than
    /// 127 bytes.
    #[error("the name is none that a program can have")]
    BadName,
    /// The string has more than 65,535 bytes.
    #[error("the string is too long")]
    TooLong,
    #[error("memory was refused")]
    Memory,
}

/// The most bytes of a name, and of a string (PLRM2, appendix B).
const NAME_LIMIT: usize = 127;

const STRING_LIMIT: usize = 65_535;

/// Whether a byte may stand in a name.
fn is_regular(byte: u8) -> bool
    ensures { result ≡ bytes.is_regular byte }
{
    !matches!(
        byte,
        0 | 9
            | 10
            | 12
            | 13
            | 32
            | b'('
            | b')'
            | b'<'
            | b'>'
            | b'['
            | b']'
            | b'{'
            | b'}'
            | b'/'
            | b'%'
    )
}

/// Whether each byte may stand in a name.
fn are_regular(name: &[u8]) -> bool
    ensures { IsTrue result ↔ EachIs bytes.is_regular name.now }
{
    let mut left = name;
    while let Some((first, behind)) = left.split_first() {
        if !is_regular(*first) {
            return false;
        }
        left = behind;
    }
    true
}

/// Whether the scanner reads these bytes as a name behind a slash.
fn is_name(name: &[u8]) -> bool
    ensures { IsTrue result ↔ IsNameText name.now }
{
    name.len() <= NAME_LIMIT && are_regular(name)
}

/// The digit of a number below 16.
fn hex_digit(number: u8) -> u8
    requires { number < 16 }
    ensures { result ≡ spec.hex_digit number }
{
    if number < 10 {
        48 + number
    } else {
        87 + number
    }
}

/// Appends two digits for each byte.
fn append_hex(bytes: &[u8], output: &mut Vec<u8>) -> Result<(), AllocError>
    ensures ok { OnOk result (output.new.items ≡ output.old.items ++ hex_text bytes.now) }
{
    for byte in bytes {
        output.push(hex_digit(*byte / 16))?;
        output.push(hex_digit(*byte % 16))?;
    }
    Ok(())
}

/// Appends the text of a value.
fn append_value(value: DefinedValue<'_>, output: &mut Vec<u8>) -> Result<(), AllocError>
    ensures ok { OnOk result (output.new.items ≡ output.old.items ++ value_text value.entry) }
{
    match value {
        DefinedValue::Integer(number) => {
            let mut buffer = Buffer::new();
            output.extend_from_slice(buffer.format(number).as_bytes())
        }
        DefinedValue::Boolean(truth) => {
            let text: &[u8] = if truth { b"true" } else { b"false" };
            output.extend_from_slice(text)
        }
        DefinedValue::Text(bytes) => {
            output.push(b'<')?;
            append_hex(bytes, output)?;
            output.push(b'>')?;
            Ok(())
        }
    }
}

/// Appends the text of a definition.
fn append_parts(
    name: &[u8],
    value: DefinedValue<'_>,
    output: &mut Vec<u8>,
) -> Result<(), AllocError>
    ensures ok { OnOk result
        (output.new.items ≡ output.old.items ++ definition_text name.now value.entry) }
{
    output.push(b'/')?;
    output.extend_from_slice(name)?;
    output.push(b' ')?;
    append_value(value, output)?;
    output.extend_from_slice(b" def\n")
}

/// Whether a string isn't too long.
fn fits(value: DefinedValue<'_>) -> bool
    ensures { IsTrue result ↔ FitsLimit value.entry }
{
    match value {
        DefinedValue::Text(bytes) => bytes.len() <= STRING_LIMIT,
        DefinedValue::Integer(_) | DefinedValue::Boolean(_) => true,
    }
}

/// The text of a definition, to be put before a program: `/NAME VALUE def` and a line feed. Each text
/// may follow another.
///
/// `BadName`: the scanner reads no such name. `TooLong`: the name is one, but the string has more bytes
/// than a string may have. `Memory`: memory was refused.
pub fn definition(
    alloc: Global,
    name: &[u8],
    value: DefinedValue<'_>,
) -> Result<Vec<u8>, DefinitionFault>
    ensures text { IfOk result (λ text. text.items ≡ definition_text name.now value.entry) }
    ensures sound { IfOk result (λ _. IsNameText name.now × FitsLimit value.entry) }
    ensures fault { IfErr result (IsNoDefinition name.now value.entry) }
{
    if !is_name(name) {
        return Err(DefinitionFault::BadName);
    }
    if !fits(value) {
        return Err(DefinitionFault::TooLong);
    }
    let mut text = Vec::new(alloc);
    match append_parts(name, value, &mut text) {
        Ok(()) => Ok(text),
        Err(AllocError) => Err(DefinitionFault::Memory),
    }
}
