//! Tokens, their spans and their limits.

ghost use Rattle.std.specs.Prelude.{◌≡◌, slice_range};

use thiserror::Error;

/// A part of a text: the bytes from `start` up to `end`.
#[derive(Clone, Copy, Debug, PartialEq, Eq)]
pub struct Span {
    pub start: usize,
    pub end: usize,
}

impl Span {
    /// The bytes of the span in its text; of another text, those that it has.
    pub fn of<'a>(self, text: &'a [u8]) -> &'a [u8]
        ensures { result.now ≡ slice_range text.now self.start self.end }
    {
        let end = self.end.min(text.len());
        let start = self.start.min(end);
        &text[start..end]
    }
}

/// The most bytes of a name (PLRM2, appendix B).
pub const NAME_LIMIT: usize = 127;

/// The most bytes of a string and elements of a procedure (PLRM2, appendix B).
pub const SEQUENCE_LIMIT: usize = 65535;

/// How deep procedures may stand in one another (PLRM2, appendix B).
pub const NESTING_LIMIT: u8 = 32;

/// What a token is.
#[derive(Debug, Drop)]
pub enum TokenKind {
    Integer(i32),
    LiteralName(Span),
    ExecutableName(Span),
    ImmediateName(Span),
    Text(Vec<u8>),
    Procedure(Vec<TokenKind>),
}

/// A token and the place right behind it.
#[derive(Debug, Drop)]
pub struct Token {
    pub kind: TokenKind,
    pub end: usize,
}

/// Why there is no token.
#[derive(Clone, Copy, Debug, PartialEq, Eq, Error)]
pub enum ScanFault {
    #[error("the text breaks the grammar")]
    Syntax,
    #[error("a number, a name, a string or a procedure is past its limit")]
    Limit,
    #[error("out of memory")]
    Memory,
}
