//! What is asked of the values of a context, and what is told of one.

/// Where a context has a value.
#[derive(Clone, Copy, Debug)]
pub enum Place<'a> {
    /// On its operand stack, below so many others.
    Operand(usize),
    /// Under `errorname`, in its `$error`.
    ErrorName,
    /// Under `command`, in its `$error`.
    ErrorCommand,
    /// Under the name of these bytes, in `userdict`, which all contexts share.
    Definition(&'a [u8]),
}

/// What a value is but for its attribute: a simple one as it is, and of another how much it holds.
#[derive(Clone, Copy, Debug, PartialEq, Eq)]
pub enum WhatView {
    Null,
    Mark,
    Integer { number: i32 },
    Boolean { truth: bool },
    /// A name of so many bytes.
    Name { length: usize },
    /// An operator, whose name has so many bytes.
    Operator { length: usize },
    /// An array or a procedure, or a part of one, of so many elements.
    Array { length: u16 },
    /// A string, or a part of one, of so many bytes.
    Text { length: u16 },
    /// A dictionary of so many pairs.
    Dictionary { length: u32 },
    Lock,
    Condition,
}

/// A value as it is seen, without addresses.
#[derive(Clone, Copy, Debug, PartialEq, Eq)]
pub struct ValueView {
    pub what: WhatView,
    /// Its attribute: an executable array is a procedure (PLRM2, 3.3.2).
    pub executable: bool,
}

/// What is told of a value.
#[derive(Clone, Copy, Debug, PartialEq, Eq)]
pub struct ToldValue {
    pub view: ValueView,
    /// Whether the room had place for all of its bytes: else none were written.
    pub whole: bool,
}

/// Why nothing is told of a value.
#[derive(Clone, Copy, Debug, PartialEq, Eq)]
pub enum Untold {
    /// No context has this identifier, or it is ended.
    NoContext,
    /// The context has no value there.
    NoValue,
}
