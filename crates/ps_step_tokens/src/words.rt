//! The word as which a token is done, where it forms no name (PLRM2, 3.2.2, 3.5).

ghost use Rattle.std.specs.Prelude.{◌≡◌, is_some, IfSome};
ghost use Rattle.std.specs.List.{list_any};
ghost use Rattle.std.specs.Str.{bytes_eq};
ghost use Rattle.ps_names.specs.Names.{AreNames};
ghost use Rattle.ps_scan.specs.Shown.{token_of};
ghost use Rattle.ps_step_tokens.specs.Names.{is_executed};
ghost use Rattle.ps_step_tokens.specs.Short.{IsShort};
ghost use Rattle.ps_step_tokens.specs.Words.{has_word, IsDoneAs, IsMet};

use crate::names::{NameKind, name_word};
use ps_names::Names;
use ps_ops_operands::plain;
use ps_scan::TokenKind;
use ps_word::words::Word;

/// The word of a name that was met.
#[inline(always)]
fn met_word(kind: NameKind, text: &[u8], names: &Names) -> Option<Word>
    ensures word { IfSome result (IsMet names.now text.now (is_executed kind)) }
    ensures known { is_some result ≡ list_any (bytes_eq text.now) names.now }
    ensures names { AreNames names.now }
{
    let id = names.find(text)?;
    Some(name_word(id, kind.is_executed()))
}

/// The word as which a token is done, just as an element of a procedure: of a number, and of a name
/// that was met and doesn't stand behind `//`. `None`: the token is another, or its name is new. It
/// takes no memory.
#[inline(always)]
pub fn word_of(kind: &TokenKind, text: &[u8], names: &Names) -> Option<Word>
    requires short { IsShort (token_of text.now kind.now) }
    ensures done { IfSome result (IsDoneAs names.now (token_of text.now kind.now)) }
    ensures known { is_some result ≡ has_word names.now (token_of text.now kind.now) }
{
    match kind {
        TokenKind::Integer(number) => Some(plain::integer(*number)),
        TokenKind::ExecutableName(span) => met_word(NameKind::Executable, span.of(text), names),
        TokenKind::LiteralName(span) => met_word(NameKind::Literal, span.of(text), names),
        TokenKind::ImmediateName(_) | TokenKind::Text(_) | TokenKind::Procedure(_) => None,
    }
}
