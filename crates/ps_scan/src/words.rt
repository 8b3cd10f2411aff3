//! Words: numbers, executable and literal names, names looked up at once (PLRM2, 3.2.2).

ghost use Rattle.std.specs.Prelude.{◌≡◌, IfSome, ◌+◌, ◌-◌, ◌<◌, ◌≤◌, length, drop, slice_index};
ghost use Rattle.std.specs.Prelude.{slice_range, true, MatchResult};
ghost use Rattle.ps_language.specs.Bytes.{is_regular};
ghost use Rattle.ps_language.specs.Scan.{regular_start, simple_by, after_slash};
ghost use Rattle.ps_scan.specs.Shown.{IsAnswer, ReadsName};

use crate::numbers::{Number, number_of};
use crate::spans::run_end;
use crate::tokens::{NAME_LIMIT, ScanFault, Span, Token, TokenKind};

/// A number or an executable name: a run of regular bytes.
#[inline(always)]
pub(crate) fn word_token(bytes: &[u8], at: usize) -> Result<Token, ScanFault>
    requires inside { at < length bytes.now }
    requires regular { is_regular (slice_index bytes.now at) ≡ true }
    ensures { IsAnswer ⊥ bytes.now at result
        (simple_by regular_start (slice_index bytes.now at) (drop (at + 1) bytes.now)) }
{
    let end = run_end(bytes, at + 1);
    match number_of(&bytes[at..end]) {
        Number::Integer(number) => Ok(Token {
            kind: TokenKind::Integer(number),
            end,
        }),
        Number::PastLimits => Err(ScanFault::Limit),
        Number::NoNumber => {
            if end - at > NAME_LIMIT {
                return Err(ScanFault::Limit);
            }
            Ok(Token {
                kind: TokenKind::ExecutableName(Span { start: at, end }),
                end,
            })
        }
    }
}

/// The run of regular bytes from a place on, unless it is too long for a name.
fn name_from(bytes: &[u8], start: usize) -> Option<Span>
    requires { start ≤ length bytes.now }
    ensures reading { ReadsName bytes.now start result }
    ensures place { IfSome result (λ span. (start ≤ span.end) × (span.end ≤ length bytes.now)) }
{
    let end = run_end(bytes, start);
    if end - start > NAME_LIMIT {
        return None;
    }
    Some(Span { start, end })
}

/// A literal name behind a slash, or behind two the name of a value that is looked up at once.
pub(crate) fn slash_token(bytes: &[u8], at: usize) -> Result<Token, ScanFault>
    requires { at < length bytes.now }
    ensures { IsAnswer ⊥ bytes.now at result (after_slash (drop (at + 1) bytes.now)) }
{
    let start = at + 1;
    if start < bytes.len() {
        if bytes[start] == b'/' {
            return match name_from(bytes, start + 1) {
                Some(name) => Ok(Token {
                    kind: TokenKind::ImmediateName(name),
                    end: name.end,
                }),
                None => Err(ScanFault::Limit),
            };
        }
    }
    match name_from(bytes, start) {
        Some(name) => Ok(Token {
            kind: TokenKind::LiteralName(name),
            end: name.end,
        }),
        None => Err(ScanFault::Limit),
    }
}
