//! The objects of a procedure (PLRM2, 3.2.2, 3.11).

ghost use Rattle.std.specs.Prelude.{◌≡◌, ◌≤◌, ◌<◌, ◌+◌, ◌∷◌, ◌++◌, [], true, vec_len, vec_capacity};
ghost use Rattle.std.specs.List.{list_any};
ghost use Rattle.std.specs.Str.{bytes_eq};
ghost use Rattle.ps_language.specs.StepTokens.{names_in, value_or_null};
ghost use Rattle.ps_language.specs.Token.{procedure_token};
ghost use Rattle.ps_language.specs.Value.{Store};
ghost use Rattle.ps_names.specs.Names.{AreNames};
ghost use Rattle.ps_mem.specs.Heap.{SameLogs, birth_at};
ghost use Rattle.ps_mem.specs.Meaning.{value_of};
ghost use Rattle.ps_mem.specs.Shows.{AreValues, AreWithin, IsSound, IsValue, IsWithin, Shows};
ghost use Rattle.ps_scan.specs.Shown.{token_of};
ghost use Rattle.ps_step_tokens.specs.Made.{AreMet, IsMade, IsMetWord, one_made, whole_made};
ghost use Rattle.ps_step_tokens.specs.Missing.{look_by};
ghost use Rattle.ps_step_tokens.specs.Procedures.{procedure_births, procedure_words, token_births};
ghost use Rattle.ps_step_tokens.specs.Procedures.{token_in, token_words, tokens_in};
ghost use Rattle.ps_step_tokens.specs.Short.{IsShort};

use crate::names::name_word;
use ps_mem::Memory;
use ps_names::Names;
use ps_ops_operands::plain;
use ps_ops_operands::readers::{array_word, string_word};
use ps_ops_state::lent::Dictionaries;
use ps_scan::TokenKind;
use ps_seq::arrays::make_array;
use ps_seq::strings::make_string;
use ps_step_lookup::lookups::look_up;
use ps_word::words::Word;

/// The word of a name that was met.
fn met_word(names: &Names, text: &[u8], executable: bool) -> Word
    requires { list_any (bytes_eq text.now) names.now ≡ true }
    ensures word { IsMetWord names.now text.now executable result }
    ensures names { AreNames names.now }
{
    let Some(id) = names.find(text) else {
        unreachable!();
    };
    name_word(id, executable)
}

/// The value of a name behind `//`, or a null where it has none. The memory stays as it is.
fn value_word<M: Memory>(
    memory: &mut M,
    names: &Names,
    dictionaries: &Dictionaries,
    text: &[u8],
) -> Word
    requires sound { IsSound (M.heap memory.old) }
    requires dictionaries { AreValues (M.heap memory.old) dictionaries.now }
    requires met { list_any (bytes_eq text.now) names.now ≡ true }
    ensures heap { M.heap memory.new ≡ M.heap memory.old }
    ensures grants { M.grants memory.new ≡ M.grants memory.old }
    ensures held { IsValue (M.heap memory.old) result }
    ensures within { (s : Store) → Shows (M.heap memory.old) names.now s
        → AreWithin (M.heap memory.old) names.now s dictionaries.now
        → IsWithin (birth_at (M.heap memory.old)) names.now s result }
    ensures value { (s : Store) → Shows (M.heap memory.old) names.now s
        → value_of (birth_at (M.heap memory.old)) names.now result ≡ value_or_null
        (look_by (M.heap memory.old) names.now dictionaries.now s text.now) }
{
    let name = met_word(names, text, true);
    match look_up(memory, dictionaries, Some(name)) {
        Ok(Some(found)) => found.1,
        Ok(None) => plain::null(),
        Err(_) => plain::null(),
    }
}

/// Makes the objects of a procedure, inner before outer and left to right, in room that is granted,
/// and gives the word of the outermost, an executable array. The words are put together above what
/// a list holds, which stays.
#[cycle(making)]
pub(crate) fn make_elements<M: Memory>(
    memory: &mut M,
    names: &Names,
    dictionaries: &Dictionaries,
    text: &[u8],
    elements: &[TokenKind],
    words: &mut Vec<Word>,
) -> Word
    requires sound { IsSound (M.heap memory.old) }
    requires dictionaries { AreValues (M.heap memory.old) dictionaries.now }
    requires met { AreMet names.now (names_in (tokens_in text.now elements.now)) }
    requires short { IsShort (procedure_token (tokens_in text.now elements.now)) }
    requires words { procedure_words (tokens_in text.now elements.now)
        ≤ (M.grants memory.old).words }
    requires births { procedure_births (tokens_in text.now elements.now)
        ≤ (M.grants memory.old).births }
    requires list { vec_len words.old + procedure_words (tokens_in text.now elements.now)
        ≤ vec_capacity words.old }
    ensures made { IsMade (whole_made (tokens_in text.now elements.now)) names.now dictionaries.now
        (M.heap memory.old) (M.heap memory.new) result }
    ensures words { (M.grants memory.old).words
        ≤ (M.grants memory.new).words + procedure_words (tokens_in text.now elements.now) }
    ensures births { (M.grants memory.old).births
        ≤ (M.grants memory.new).births + procedure_births (tokens_in text.now elements.now) }
    ensures logs { SameLogs (M.grants memory.old) (M.grants memory.new) }
    ensures items { words.new.items ≡ words.old.items }
    ensures capacity { vec_capacity words.old ≤ vec_capacity words.new }
{
    let start = words.len();
    for element in elements {
        let word = make_element(memory, names, dictionaries, text, element, words);
        add_word(words, word);
    }
    let part = make_array(memory, &words[start..]);
    words.truncate(start);
    array_word(part, true)
}

/// The word of an element, with the objects that it needs.
#[cycle(making)]
fn make_element<M: Memory>(
    memory: &mut M,
    names: &Names,
    dictionaries: &Dictionaries,
    text: &[u8],
    element: &TokenKind,
    words: &mut Vec<Word>,
) -> Word
    requires sound { IsSound (M.heap memory.old) }
    requires dictionaries { AreValues (M.heap memory.old) dictionaries.now }
    requires met { AreMet names.now (names_in (token_in text.now element.now)) }
    requires short { IsShort (token_of text.now element.now) }
    requires words { token_words (token_of text.now element.now) ≤ (M.grants memory.old).words }
    requires births { token_births (token_of text.now element.now) ≤ (M.grants memory.old).births }
    requires list { vec_len words.old + token_words (token_of text.now element.now)
        ≤ vec_capacity words.old }
    ensures made { IsMade (one_made (token_of text.now element.now)) names.now dictionaries.now
        (M.heap memory.old) (M.heap memory.new) result }
    ensures words { (M.grants memory.old).words
        ≤ (M.grants memory.new).words + token_words (token_of text.now element.now) }
    ensures births { (M.grants memory.old).births
        ≤ (M.grants memory.new).births + token_births (token_of text.now element.now) }
    ensures logs { SameLogs (M.grants memory.old) (M.grants memory.new) }
    ensures items { words.new.items ≡ words.old.items }
    ensures capacity { vec_capacity words.old ≤ vec_capacity words.new }
{
    match element {
        TokenKind::Integer(number) => {
            let number = *number;
            plain::integer(number)
        }
        TokenKind::LiteralName(span) => met_word(names, span.of(text), false),
        TokenKind::ExecutableName(span) => met_word(names, span.of(text), true),
        TokenKind::ImmediateName(span) => value_word(memory, names, dictionaries, span.of(text)),
        TokenKind::Text(bytes) => {
            let part = make_string(memory, bytes);
            string_word(part, false)
        }
        TokenKind::Procedure(inner) => make_elements(
            memory,
            names,
            dictionaries,
            text,
            inner,
            words,
        ),
    }
}

/// Adds a word where there is room for it.
fn add_word(words: &mut Vec<Word>, word: Word)
    requires { vec_len words.old < vec_capacity words.old }
    ensures items { words.new.items ≡ words.old.items ++ word ∷ [] }
    ensures capacity { vec_capacity words.old ≤ vec_capacity words.new }
{
    let _ = words.push(word);
}
