//! The room that a procedure's objects take.

ghost use Rattle.std.specs.Prelude.{◌≡◌, ◌≤◌, ◌^◌, ◌+◌, ◌/◌, ℕ, List, IfSome, IfNone};
ghost use Rattle.ps_scan.specs.Shown.{token_of};
ghost use Rattle.ps_step_tokens.specs.Procedures.{procedure_births, procedure_words, token_births};
ghost use Rattle.ps_step_tokens.specs.Procedures.{token_words, tokens_in};

use ps_scan::TokenKind;

/// What new objects take of a memory.
#[derive(Clone, Copy, Debug, PartialEq, Eq)]
pub(crate) struct Room {
    pub words: u32,
    pub births: u32,
}

/// What a string of so many bytes takes. `None`: the words are past 32 bits.
fn string_room(length: usize) -> Option<Room>
    ensures words { IfSome result (λ room. room.words ≡ 2 + (length + 7) / 8) }
    ensures births { IfSome result (λ room. room.births ≡ 1) }
    ensures fewer { IfSome result (λ room. room.births ≤ room.words) }
    ensures past { IfNone result (2 ^ 32 ≤ 2 + (length + 7) / 8) }
{
    let words = length.checked_add(7)? / 8;
    if words > u32::MAX as usize - 2 {
        return None;
    }
    Some(Room {
        words: 2 + words as u32,
        births: 1,
    })
}

/// What the objects of a procedure take, its own and those within it. `None`: the words are past 32
/// bits.
#[cycle(room)]
pub(crate) fn room_of(elements: &[TokenKind]) -> Option<Room>
    ensures words { IfSome result (λ room. (text : List ℕ)
        → room.words ≡ procedure_words (tokens_in text elements.now)) }
    ensures births { IfSome result (λ room. (text : List ℕ)
        → room.births ≡ procedure_births (tokens_in text elements.now)) }
    ensures fewer { IfSome result (λ room. room.births ≤ room.words) }
    ensures past { IfNone result ((text : List ℕ)
        → 2 ^ 32 ≤ procedure_words (tokens_in text elements.now)) }
{
    let mut words: u32 = 2;
    let mut births: u32 = 1;
    for element in elements {
        let inner = element_room(element)?;
        words = words.checked_add(1)?;
        words = words.checked_add(inner.words)?;
        births += inner.births;
    }
    Some(Room { words, births })
}

/// What the objects of an element take. `None`: the words are past 32 bits.
#[cycle(room)]
fn element_room(element: &TokenKind) -> Option<Room>
    ensures words { IfSome result (λ room. (text : List ℕ)
        → room.words ≡ token_words (token_of text element.now)) }
    ensures births { IfSome result (λ room. (text : List ℕ)
        → room.births ≡ token_births (token_of text element.now)) }
    ensures fewer { IfSome result (λ room. room.births ≤ room.words) }
    ensures past { IfNone result ((text : List ℕ)
        → 2 ^ 32 ≤ token_words (token_of text element.now)) }
{
    match element {
        TokenKind::Text(bytes) => string_room(bytes.len()),
        TokenKind::Procedure(inner) => room_of(inner),
        TokenKind::Integer(_)
        | TokenKind::LiteralName(_)
        | TokenKind::ExecutableName(_)
        | TokenKind::ImmediateName(_) => Some(Room {
            words: 0,
            births: 0,
        }),
    }
}
