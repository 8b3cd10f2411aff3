//! The bits of a value's word by its parts: type, content, access, and where each of them stands.
#![tactic(auto)]

ghost use Rattle.std.specs.Prelude.{◌≡◌};
ghost use Rattle.ps_word.specs.Format as layout;
ghost use Rattle.ps_word.specs.Format.{IsContent};

use crate::values::{Content, Part, access_number};
use ps_language::operators::number_of;

/// The lowest bit of the type's number.
pub(crate) const TYPE: u64 = 1 << 60;

/// The flag of an executable value.
pub(crate) const EXECUTABLE: u64 = 1 << 59;

/// The word of the first operator, executable.
pub(crate) const OPERATOR: u64 = 5 * TYPE + EXECUTABLE;

/// The word of a procedure whose other bits are zero: an executable array with every access.
pub(crate) const PROCEDURE: u64 = 6 * TYPE + EXECUTABLE;

/// The lowest bit of the access's number.
pub(crate) const ACCESS: u64 = 1 << 57;

/// The lowest bit above an address.
pub(crate) const REFERENCE: u64 = 1 << 56;

/// The lowest bit of an address.
pub(crate) const ADDRESS: u64 = 1 << 32;

/// The lowest bit of a part's offset.
pub(crate) const OFFSET: u64 = 1 << 16;

/// The bits of a part, below those of the attribute.
#[inline]
pub(crate) fn part_bits(part: Part) -> u64
    requires { layout.IsPart part }
    ensures { result ≡ layout.part_bits part }
{
    access_number(part.access) as u64 * ACCESS
        + part.address as u64 * ADDRESS
        + part.offset as u64 * OFFSET
        + part.length as u64
}

/// The number of a content's type.
#[inline]
pub(crate) fn type_number(content: Content) -> u64
    ensures { result ≡ layout.type_number content }
{
    match content {
        Content::Null => 0,
        Content::Integer(_) => 1,
        Content::Boolean(_) => 2,
        Content::Mark => 3,
        Content::Name(_) => 4,
        Content::Operator(_) => 5,
        Content::Array(_) => 6,
        Content::Text(_) => 7,
        Content::Dictionary(_) => 8,
        Content::Lock(_) => 9,
        Content::Condition(_) => 10,
        Content::Body(_) => 11,
    }
}

/// The bits of a content, below those of the attribute.
#[inline]
pub(crate) fn content_bits(content: Content) -> u64
    requires { IsContent content }
    ensures { result ≡ layout.content_bits content }
{
    match content {
        Content::Null | Content::Mark => 0,
        Content::Integer(value) => value.cast_unsigned() as u64,
        Content::Boolean(value) => value as u64,
        Content::Name(number) => number as u64,
        Content::Operator(operator) => number_of(operator) as u64,
        Content::Array(part) | Content::Text(part) => part_bits(part),
        Content::Dictionary(address)
        | Content::Lock(address)
        | Content::Condition(address)
        | Content::Body(address) => address as u64 * ADDRESS,
    }
}
