//! Whether the names of a procedure are too many, told without memory.

ghost use Rattle.std.specs.Prelude.{◌≡◌, ◌≤◌, ◌+◌, ℕ, List, true, fold, length, nat_le, option_map};
ghost use Rattle.ps_language.specs.Dictionaries.{meet};
ghost use Rattle.ps_language.specs.Limits.{names_limit};
ghost use Rattle.ps_language.specs.StepTokens.{names_in};
ghost use Rattle.ps_scan.specs.Shown.{part_of};
ghost use Rattle.ps_step_tokens.specs.Fitting.{IsLeast, is_before, is_new, lesser};
ghost use Rattle.ps_step_tokens.specs.Procedures.{procedure_words, token_in, tokens_in};

use crate::room::room_of;
use ps_names::{NAMES_LIMIT, Names};
use ps_scan::{Span, TokenKind};

/// Whether a text comes before another, byte by byte.
fn is_before(first: &[u8], later: &[u8]) -> bool
    ensures { result ≡ is_before first.now later.now }
{
    first.cmp(later).is_lt()
}

/// Whether a name was not met, and comes behind the last one.
fn is_new(names: &Names, text: &[u8], last: Option<Span>, name: Span) -> bool
    ensures { result ≡ is_new names.now (option_map (part_of text.now) last)
        (part_of text.now name) }
{
    let name = name.of(text);
    if names.find(name).is_some() {
        return false;
    }
    match last {
        Some(last) => is_before(last.of(text), name),
        None => true,
    }
}

/// The lesser of two names, or the one that is there.
fn lesser(text: &[u8], first: Option<Span>, other: Option<Span>) -> Option<Span>
    ensures { option_map (part_of text.now) result
        ≡ lesser (option_map (part_of text.now) first) (option_map (part_of text.now) other) }
{
    let Some(span) = first else {
        return other;
    };
    let Some(second) = other else {
        return first;
    };
    if is_before(second.of(text), span.of(text)) {
        other
    } else {
        first
    }
}

/// The least of a procedure's names that were not met and come behind the last one, those within
/// it too. `None`: there is none.
#[cycle(fitting)]
fn next_name(names: &Names, text: &[u8], elements: &[TokenKind], last: Option<Span>) -> Option<Span>
    ensures { IsLeast (is_new names.now (option_map (part_of text.now) last))
        (names_in (tokens_in text.now elements.now)) (option_map (part_of text.now) result) }
{
    let mut least = None;
    for element in elements {
        let next = next_of_element(names, text, element, last);
        least = lesser(text, least, next);
    }
    least
}

/// The same of one element.
#[cycle(fitting)]
fn next_of_element(
    names: &Names,
    text: &[u8],
    element: &TokenKind,
    last: Option<Span>,
) -> Option<Span>
    ensures { IsLeast (is_new names.now (option_map (part_of text.now) last))
        (names_in (token_in text.now element.now)) (option_map (part_of text.now) result) }
{
    match element {
        TokenKind::LiteralName(span)
        | TokenKind::ExecutableName(span)
        | TokenKind::ImmediateName(span) => {
            let name = *span;
            if is_new(names, text, last, name) {
                Some(name)
            } else {
                None
            }
        }
        TokenKind::Procedure(inner) => next_name(names, text, inner, last),
        TokenKind::Integer(_) | TokenKind::Text(_) => None,
    }
}

/// Whether the names are few enough by the number of elements alone.
fn surely_fit(names: &Names, elements: &[TokenKind]) -> bool
    ensures { result ≡ true → (text : List ℕ)
        → length names.now + procedure_words (tokens_in text elements.now) ≤ names_limit }
{
    match room_of(elements) {
        Some(room) => names.len() + room.words as usize <= NAMES_LIMIT,
        None => false,
    }
}

/// Whether all names of a procedure may be met, those within it too. Where they might be too many
/// the new ones are counted, from the least on.
pub(crate) fn names_fit(names: &Names, text: &[u8], elements: &[TokenKind]) -> bool
    ensures { result ≡ nat_le (length
        (fold meet names.now (names_in (tokens_in text.now elements.now)))) names_limit }
{
    let count = names.len();
    if surely_fit(names, elements) {
        return true;
    }
    let mut last = None;
    for _place in count..NAMES_LIMIT {
        let next = next_name(names, text, elements, last);
        if next.is_none() {
            return true;
        }
        last = next;
    }
    next_name(names, text, elements, last).is_none()
}
