//! Packed words: made of values, read back, and read and changed in place.
#![tactic(auto)]

ghost use Rattle.std.specs.Prelude.{◌≡◌, ◌↔◌, ◌<◌, ◌%◌, ◌^◌, ◌&&◌, true, false, None, IsSome};
ghost use Rattle.std.specs.Prelude.{IsTrue, IfSome, is_some};
ghost use Rattle.ps_word.specs.Format as layout;
ghost use Rattle.ps_word.specs.Format.{value_in, content_in, IsWord, IsInFormat, IsContent};
ghost use Rattle.ps_word.specs.Readers as readers;

use crate::bits::{
    ACCESS, ADDRESS, EXECUTABLE, OFFSET, OPERATOR, PROCEDURE, REFERENCE, TYPE, content_bits,
    type_number,
};
use crate::values::{Content, Part, Value, access_number, access_of};
use ps_language::access::Access;
use ps_language::kinds::Kind;
use ps_language::operators::{OPERATORS, Operator, operator_at, operator_of};

/// A word of memory.
#[derive(Clone, Copy, Debug, PartialEq, Eq, Hash)]
pub struct Word(pub u64);

impl Value {
    /// Whether the layout has a word for the value: a reference's address is below 2^24, a part
    /// ends at or below 65,535, a name's number is at most 65,534, and a dictionary's body isn't
    /// executable.
    #[inline]
    pub fn is_in_format(self) -> bool
        ensures { IsTrue result ↔ IsInFormat self }
    {
        match self.content {
            Content::Null
            | Content::Integer(_)
            | Content::Boolean(_)
            | Content::Mark
            | Content::Operator(_) => true,
            Content::Name(number) => number < 65535,
            Content::Array(part) | Content::Text(part) => part.is_in_format(),
            Content::Dictionary(address) | Content::Lock(address) | Content::Condition(address) =>
                address < 1 << 24,
            Content::Body(address) => address < 1 << 24 && !self.executable,
        }
    }

    /// The word of the value.
    #[inline]
    pub fn pack(self) -> Word
        requires { IsInFormat self }
        ensures number { result.0 ≡ layout.packed self }
        ensures value { value_in result.0 ≡ self }
        ensures word { IsWord result.0 }
    {
        Word(
            type_number(self.content) * TYPE
                + self.executable as u64 * EXECUTABLE
                + content_bits(self.content),
        )
    }
}

impl Word {
    /// The word of a literal value of this content.
    #[inline]
    pub fn literal(content: Content) -> Word
        requires { IsContent content }
        ensures value { value_in result.0 ≡ record { content = content; executable = false } }
        ensures word { IsWord result.0 }
    {
        Value {
            content,
            executable: false,
        }
        .pack()
    }

    /// The word of a null.
    #[inline]
    pub fn null() -> Word
        ensures value { value_in result.0 ≡ record { content = Content.Null; executable = false } }
        ensures word { IsWord result.0 }
    {
        Word::literal(Content::Null)
    }

    /// The word of a mark.
    #[inline]
    pub fn mark() -> Word
        ensures value { value_in result.0 ≡ record { content = Content.Mark; executable = false } }
        ensures word { IsWord result.0 }
    {
        Word::literal(Content::Mark)
    }

    /// The word of a literal integer.
    #[inline]
    pub fn integer(value: i32) -> Word
        ensures value { value_in result.0
            ≡ record { content = Content.Integer value; executable = false } }
        ensures word { IsWord result.0 }
    {
        Word::literal(Content::Integer(value))
    }

    /// The word of a literal boolean.
    #[inline]
    pub fn boolean(value: bool) -> Word
        ensures value { value_in result.0
            ≡ record { content = Content.Boolean value; executable = false } }
        ensures word { IsWord result.0 }
    {
        Word::literal(Content::Boolean(value))
    }

    /// What the bits say: for a word of the layout its value. Bits that the layout leaves zero
    /// aren't looked at; `unpack` does.
    #[inline]
    pub fn value(self) -> Value
        ensures { result ≡ value_in self.0 }
    {
        Value {
            content: self.content(),
            executable: self.is_executable(),
        }
    }

    /// The value whose word this is, and none where it is no value's.
    #[inline]
    pub fn unpack(self) -> Option<Value>
        ensures exact { (value : Value) → (result ≡ Some value)
            ↔ (IsInFormat value × (layout.packed value ≡ self.0)) }
        ensures value { IfSome result (λ value. value ≡ value_in self.0) }
        ensures word { IsSome result ↔ IsWord self.0 }
    {
        let value = self.value();
        if !value.is_in_format() {
            return None;
        }
        let number = value.pack().0;
        if number == self.0 { Some(value) } else { None }
    }

    /// What the bits say of the value but for its attribute.
    #[inline]
    pub fn content(self) -> Content
        ensures { result ≡ content_in self.0 }
    {
        match self.0 / TYPE {
            1 => Content::Integer(self.low_integer()),
            2 => Content::Boolean(self.0 % 2 == 1),
            3 => Content::Mark,
            4 => Content::Name((self.0 % (1 << 16)) as u16),
            5 => Content::Operator(operator_of((self.0 % (1 << 8)) as u8)),
            6 => Content::Array(self.part()),
            7 => Content::Text(self.part()),
            8 => Content::Dictionary(self.low_address()),
            9 => Content::Lock(self.low_address()),
            10 => Content::Condition(self.low_address()),
            11 => Content::Body(self.low_address()),
            _ => Content::Null,
        }
    }

    /// The operator of a word of the layout, where it is one and executable: by one test of the
    /// type, the attribute and the number, behind which the number needs no test.
    #[inline(always)]
    pub fn executable_operator(self) -> Option<Operator>
        requires word { IsWord self.0 }
        ensures operator { IfSome result (λ operator. (layout.executable_in self.0 ≡ true)
            × (content_in self.0 ≡ Content.Operator operator)) }
        ensures other { result ≡ None → layout.executable_in self.0 ≡ true
            → readers.as_operator (content_in self.0) ≡ None }
    {
        let number = self.0.wrapping_sub(OPERATOR);
        if number < OPERATORS as u64 {
            Some(operator_at(number as u8))
        } else {
            None
        }
    }

    /// The part of a procedure that may be executed, where it is one: by one test of the type, the
    /// attribute and the access (PLRM2, 3.3.2, 3.3.3).
    #[inline]
    pub fn as_enterable(self) -> Option<Part>
        ensures { result ≡ readers.as_enterable (layout.executable_in self.0)
            (content_in self.0) }
    {
        if (self.0 / ACCESS).wrapping_sub(PROCEDURE / ACCESS) < 3 {
            Some(self.part())
        } else {
            None
        }
    }

    /// Whether the value is executable.
    #[inline]
    pub fn is_executable(self) -> bool
        ensures { result ≡ layout.executable_in self.0 }
    {
        (self.0 / EXECUTABLE) % 2 == 1
    }

    /// What the low 32 bits say as a natural number, whatever the word is.
    #[inline(always)]
    pub fn low_natural(self) -> u32
        ensures { result ≡ self.0 % 2 ^ 32 }
    {
        (self.0 % (1 << 32)) as u32
    }

    #[inline]
    fn low_integer(self) -> i32
        ensures { result ≡ layout.integer_in self.0 }
    {
        self.low_natural().cast_signed()
    }

    /// What stands in the places of a reference's address, whatever the word is.
    #[inline(always)]
    pub fn low_address(self) -> u32
        ensures { result ≡ layout.address_in self.0 }
    {
        ((self.0 / ADDRESS) % (1 << 24)) as u32
    }

    #[inline]
    fn part(self) -> Part
        ensures { result ≡ layout.part_in self.0 }
    {
        Part {
            address: self.low_address(),
            offset: ((self.0 / OFFSET) % (1 << 16)) as u16,
            length: (self.0 % (1 << 16)) as u16,
            access: access_of(((self.0 / ACCESS) % 4) as u32),
        }
    }

    /// Whether it is a null.
    #[inline]
    pub fn is_null(self) -> bool
        ensures { IsWord self.0 → result ≡ readers.is_null (content_in self.0) }
    {
        self.0 / TYPE == 0
    }

    /// Whether it is a mark.
    #[inline]
    pub fn is_mark(self) -> bool
        ensures { result ≡ readers.is_mark (content_in self.0) }
    {
        self.0 / TYPE == 3
    }

    /// The integer, where it is one.
    #[inline]
    pub fn as_integer(self) -> Option<i32>
        ensures { result ≡ readers.as_integer (content_in self.0) }
    {
        if self.0 / TYPE == 1 {
            Some(self.low_integer())
        } else {
            None
        }
    }

    /// The integers, where both are integers: by one test of the types.
    #[inline]
    pub fn both_integers(self, other: Word) -> Option<(i32, i32)>
        ensures { result ≡ readers.both_integers (content_in self.0) (content_in other.0) }
    {
        if self.0.wrapping_sub(TYPE) | other.0.wrapping_sub(TYPE) < TYPE {
            Some((self.low_integer(), other.low_integer()))
        } else {
            None
        }
    }

    /// The boolean, where it is one.
    #[inline]
    pub fn as_boolean(self) -> Option<bool>
        ensures { result ≡ readers.as_boolean (content_in self.0) }
    {
        if self.0 / TYPE == 2 {
            Some(self.0 % 2 == 1)
        } else {
            None
        }
    }

    /// The number of the name, where it is one.
    #[inline]
    pub fn as_name(self) -> Option<u16>
        ensures { result ≡ readers.as_name (content_in self.0) }
    {
        if self.0 / TYPE == 4 {
            Some((self.0 % (1 << 16)) as u16)
        } else {
            None
        }
    }

    /// The operator, where it is one.
    #[inline]
    pub fn as_operator(self) -> Option<Operator>
        ensures { result ≡ readers.as_operator (content_in self.0) }
    {
        if self.0 / TYPE == 5 {
            Some(operator_of((self.0 % (1 << 8)) as u8))
        } else {
            None
        }
    }

    /// The part of an array, where it is one.
    #[inline]
    pub fn as_array(self) -> Option<Part>
        ensures { result ≡ readers.as_array (content_in self.0) }
    {
        if self.0 / TYPE == 6 {
            Some(self.part())
        } else {
            None
        }
    }

    /// The part of a string, where it is one.
    #[inline]
    pub fn as_text(self) -> Option<Part>
        ensures { result ≡ readers.as_text (content_in self.0) }
    {
        if self.0 / TYPE == 7 {
            Some(self.part())
        } else {
            None
        }
    }

    /// The address of the dictionary, where it is one.
    #[inline]
    pub fn as_dictionary(self) -> Option<u32>
        ensures { result ≡ readers.as_dictionary (content_in self.0) }
    {
        if self.0 / TYPE == 8 {
            Some(self.low_address())
        } else {
            None
        }
    }

    /// The address of the lock, where it is one.
    #[inline]
    pub fn as_lock(self) -> Option<u32>
        ensures { result ≡ readers.as_lock (content_in self.0) }
    {
        if self.0 / TYPE == 9 {
            Some(self.low_address())
        } else {
            None
        }
    }

    /// The address of the condition, where it is one.
    #[inline]
    pub fn as_condition(self) -> Option<u32>
        ensures { result ≡ readers.as_condition (content_in self.0) }
    {
        if self.0 / TYPE == 10 {
            Some(self.low_address())
        } else {
            None
        }
    }

    /// The part of an array or of a string, where it is one of them.
    #[inline]
    pub fn as_part(self) -> Option<Part>
        ensures { result ≡ readers.as_part (content_in self.0) }
    {
        match self.0 / TYPE {
            6 => Some(self.part()),
            7 => Some(self.part()),
            _ => None,
        }
    }

    /// The address of the object that it refers to, where it refers to one.
    #[inline]
    pub fn address(self) -> Option<u32>
        ensures { result ≡ readers.address_of (content_in self.0) }
    {
        if self.is_reference() {
            Some(self.low_address())
        } else {
            None
        }
    }

    /// Whether it refers to an object.
    #[inline]
    pub fn is_reference(self) -> bool
        ensures number { result ≡ readers.is_reference self.0 }
        ensures content { result ≡ is_some (readers.address_of (content_in self.0)) }
    {
        let number = self.0 / TYPE;
        number >= 6 && number <= 11
    }

    /// The kind of the object that it refers to, where it refers to one.
    #[inline]
    pub fn kind(self) -> Option<Kind>
        ensures { result ≡ readers.kind_of (content_in self.0) }
    {
        match self.0 / TYPE {
            6 => Some(Kind::Array),
            7 => Some(Kind::Text),
            8 => Some(Kind::Dictionary),
            9 => Some(Kind::Lock),
            10 => Some(Kind::Condition),
            11 => Some(Kind::Body),
            _ => None,
        }
    }

    /// The same value with this attribute. A dictionary's body has a word only where it is literal.
    #[inline]
    pub fn with_executable(self, executable: bool) -> Word
        ensures value { value_in result.0 ≡ record (value_in self.0) { executable = executable } }
        ensures word { IsWord self.0 → layout.is_body (content_in self.0) && executable ≡ false
            → IsWord result.0 }
    {
        Word((self.0 / TYPE) * TYPE + executable as u64 * EXECUTABLE + self.0 % EXECUTABLE)
    }

    /// The same array or string with this access.
    #[inline]
    pub fn with_access(self, access: Access) -> Word
        requires word { IsWord self.0 }
        requires part { IsSome (readers.as_part (content_in self.0)) }
        ensures value { value_in result.0
            ≡ record (value_in self.0) {
              content =
                  readers.with_access (content_in self.0) access;
            } }
        ensures word { IsWord result.0 }
    {
        Word(
            (self.0 / EXECUTABLE) * EXECUTABLE
                + access_number(access) as u64 * ACCESS
                + self.0 % ACCESS,
        )
    }

    /// The word with this address, which is below 2^24, in the places of a reference's.
    #[inline]
    #[tactic(auto, unfolding(crate::specs::Readers::readdressed))]
    pub fn readdressed(self, address: u32) -> Word
        requires { address < 2 ^ 24 }
        ensures { result.0 ≡ readers.readdressed self.0 address }
    {
        Word((self.0 / REFERENCE) * REFERENCE + address as u64 * ADDRESS + self.0 % ADDRESS)
    }
}
