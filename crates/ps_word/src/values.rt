//! Values as words hold them.
#![tactic(auto)]

ghost use Rattle.std.specs.Prelude.{◌≡◌, ◌↔◌, IsTrue};
ghost use Rattle.ps_word.specs.Format as format;

use ps_language::access::Access;
use ps_language::operators::Operator;

/// The number of an access, below 4: the more it takes away, the higher (PLRM2, 3.3.2).
#[inline]
pub fn access_number(access: Access) -> u32
    ensures { result ≡ format.access_number access }
{
    access as u32
}

/// The access that a number says; from 3 on it is none.
#[inline]
pub fn access_of(number: u32) -> Access
    ensures { result ≡ format.access_of number }
{
    match number {
        0 => Access::Unlimited,
        1 => Access::ReadOnly,
        2 => Access::ExecuteOnly,
        _ => Access::NoAccess,
    }
}

/// A part of an array or of a string, which shares its object (PLRM2, 3.3.1 and 3.6): the address
/// of the object, where the part begins in it and how many elements or bytes it has, and what may
/// be done with it.
#[derive(Clone, Copy, Debug, PartialEq, Eq, Hash)]
pub struct Part {
    /// Below 2^24.
    pub address: u32,
    pub offset: u16,
    /// At most 65,535 less the offset.
    pub length: u16,
    pub access: Access,
}

impl Part {
    /// Whether the address is below 2^24 and the part ends at or below 65,535.
    #[inline]
    pub fn is_in_format(self) -> bool
        ensures { IsTrue result ↔ format.IsPart self }
    {
        self.address < 1 << 24 && self.offset as u32 + (self.length as u32) < 1 << 16
    }
}

/// What a value is, but for its attribute.
#[derive(Clone, Copy, Debug, PartialEq, Eq)]
pub enum Content {
    Null,
    Integer(i32),
    Boolean(bool),
    Mark,
    /// A name by its number, at most 65,534.
    Name(u16),
    Operator(Operator),
    Array(Part),
    /// A string.
    Text(Part),
    /// By the address of the object, below 2^24, as the next three.
    Dictionary(u32),
    Lock(u32),
    Condition(u32),
    /// The pairs of a dictionary; no program sees one, and it is never executable.
    Body(u32),
}

/// A value with its attribute (PLRM2, 3.3.2).
#[derive(Clone, Copy, Debug, PartialEq, Eq)]
pub struct Value {
    pub content: Content,
    pub executable: bool,
}
