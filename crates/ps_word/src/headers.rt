//! The words in front of an object's fields.
#![tactic(auto)]

ghost use Rattle.std.specs.Prelude.{◌≡◌, ◌↔◌};
ghost use Rattle.ps_word.specs.Headers as layout;

use crate::words::Word;
use ps_language::kinds::Kind;

/// Birth numbers are below it: in a header they have bits 0 to 39.
pub const BIRTH_LIMIT: u64 = 1 << 40;

/// The numbers of cycles are below it.
pub const CYCLE_LIMIT: u64 = 1 << 32;

const KIND: u64 = 1 << 60;

const FIELDS: u64 = 1 << 40;

const CYCLE: u64 = 1 << 24;

/// The first word of an object: what it is, how many words its fields take (below 2^20), and its
/// birth number (below 2^40).
#[derive(Clone, Copy, Debug, PartialEq, Eq)]
pub struct Header {
    pub kind: Kind,
    pub fields: u32,
    pub birth: u64,
}

/// The second word of an object, its forwarding word (Nettles and O'Toole, PLDI 1993, 2): in which
/// cycle it got a replica, and at which address (below 2^24) that is. A new object has cycle 0,
/// which is none.
#[derive(Clone, Copy, Debug, PartialEq, Eq)]
pub struct Forward {
    pub cycle: u32,
    pub address: u32,
}

#[inline]
fn number_of(kind: Kind) -> u64
    ensures { result ≡ layout.kind_number kind }
{
    match kind {
        Kind::Array => 6,
        Kind::Text => 7,
        Kind::Dictionary => 8,
        Kind::Lock => 9,
        Kind::Condition => 10,
        Kind::Body => 11,
    }
}

#[inline]
fn kind_of(number: u64) -> Option<Kind>
    ensures { (kind : Kind) → (result ≡ Some kind) ↔ (layout.kind_number kind ≡ number) }
{
    match number {
        6 => Some(Kind::Array),
        7 => Some(Kind::Text),
        8 => Some(Kind::Dictionary),
        9 => Some(Kind::Lock),
        10 => Some(Kind::Condition),
        11 => Some(Kind::Body),
        _ => None,
    }
}

/// The number of the kind that a first header says.
#[inline]
pub fn kind_in(header: u64) -> u64
    ensures { result ≡ layout.kind_in header }
{
    header / KIND
}

/// The number of fields that a first header says.
#[inline]
pub fn fields_in(header: u64) -> u64
    ensures { result ≡ layout.fields_in header }
{
    (header / FIELDS) % (1 << 20)
}

/// The birth number that a first header says.
#[inline]
pub fn birth_in(header: u64) -> u64
    ensures { result ≡ layout.birth_in header }
{
    header % BIRTH_LIMIT
}

impl Header {
    /// The word of a header whose numbers fit their places.
    #[inline]
    pub fn pack(self) -> Word
        requires { layout.IsHeader self }
        ensures { result.0 ≡ layout.header_packed self }
    {
        Word(number_of(self.kind) * KIND + self.fields as u64 * FIELDS + self.birth)
    }

    /// The header whose word this is, and none where it is no header's.
    #[inline]
    pub fn unpack(word: Word) -> Option<Header>
        ensures { (header : Header) → (result ≡ Some header)
            ↔ (layout.IsHeader header × (layout.header_packed header ≡ word.0)) }
    {
        match kind_of(kind_in(word.0)) {
            Some(kind) => Some(Header {
                kind,
                fields: fields_in(word.0) as u32,
                birth: birth_in(word.0),
            }),
            None => None,
        }
    }
}

impl Forward {
    /// The word of a forwarding word whose address fits its place.
    #[inline]
    pub fn pack(self) -> Word
        requires { layout.IsForward self }
        ensures { result.0 ≡ layout.forward_packed self }
    {
        Word(self.cycle as u64 * CYCLE + self.address as u64)
    }

    /// The forwarding word whose number this is, and none where it is no forwarding word's.
    #[inline]
    pub fn unpack(word: Word) -> Option<Forward>
        ensures { (forward : Forward) → (result ≡ Some forward)
            ↔ (layout.IsForward forward × (layout.forward_packed forward ≡ word.0)) }
    {
        let cycle = word.0 / CYCLE;
        if cycle >= CYCLE_LIMIT {
            return None;
        }
        Some(Forward {
            cycle: cycle as u32,
            address: (word.0 % CYCLE) as u32,
        })
    }
}
