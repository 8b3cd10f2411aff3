//! The pairs of the first dictionaries as words (PLRM2, 3.7, 3.10).

ghost use Rattle.std.specs.Prelude.{◌≡◌, ◌+◌, ◌≤◌, ◌<◌, ◌^◌, ◌++◌, [], ◌∷◌, true, false, length, map, vec_capacity};
ghost use Rattle.ps_language.specs.Operators.{every_operator};
ghost use Rattle.ps_word.specs.Format.{IsInFormat};
ghost use Rattle.ps_mem.specs.Shows.{words_of_pairs};
ghost use Rattle.ps_ctx_start.specs.Words as pairs;

use ps_language::operators::{OPERATORS, operator_of};
use ps_names::first::{
    COMMAND, ERRORNAME, FALSE, FIRST_OPERATOR, NEWERROR, NULL, SYSTEMDICT, TRUE, USERDICT,
};
use ps_word::values::{Content, Value};
use ps_word::words::Word;

/// How many words the pairs of the operators are.
const OPERATOR_WORDS: usize = 2 * OPERATORS as usize;

/// How many words the pairs of systemdict are.
pub const SYSTEM_WORDS: usize = OPERATOR_WORDS + 10;

/// The word of a content.
pub fn word_of(content: Content, executable: bool) -> Word
    requires format { IsInFormat (record { content = content; executable = executable }) }
    ensures { result ≡ pairs.word_of content executable }
{
    let value = Value {
        content,
        executable,
    };
    value.pack()
}

/// The word of the literal name of a number.
fn name_word(number: u16) -> Word
    requires { number < 65535 }
    ensures { result ≡ pairs.word_of (Content.Name number) false }
{
    word_of(Content::Name(number), false)
}

/// Pushes a name by its number and its value, for which there is room.
fn push_pair(words: &mut Vec<Word>, number: u16, value: Word)
    requires number { number < 65535 }
    requires room { length words.old.items + 2 ≤ vec_capacity words.old }
    ensures words { words.new.items ≡ words.old.items
        ++ pairs.word_of (Content.Name number) false ∷ value ∷ [] }
    ensures capacity { vec_capacity words.new ≡ vec_capacity words.old }
{
    words.push_reserved(name_word(number));
    words.push_reserved(value);
}

/// Pushes the pairs of the operators, by their numbers, onto an empty list that has room.
fn push_operators(words: &mut Vec<Word>)
    requires empty { words.old.items ≡ [] }
    requires room { OPERATOR_WORDS ≤ vec_capacity words.old }
    ensures words { words.new.items ≡ words_of_pairs (map pairs.operator_words every_operator) }
    ensures capacity { vec_capacity words.new ≡ vec_capacity words.old }
{
    for number in 0..OPERATORS {
        let operator = word_of(Content::Operator(operator_of(number)), true);
        push_pair(words, FIRST_OPERATOR + number as u16, operator);
    }
}

/// Pushes the pairs of systemdict onto an empty list that has room: the operators by their numbers,
/// then the values, of which two refer to systemdict and userdict.
pub fn push_system_words(words: &mut Vec<Word>, system: u32, user: u32)
    requires empty { words.old.items ≡ [] }
    requires room { SYSTEM_WORDS ≤ vec_capacity words.old }
    requires system { system < 2 ^ 24 }
    requires user { user < 2 ^ 24 }
    ensures words { words.new.items ≡ words_of_pairs (pairs.system_words system user) }
    ensures capacity { vec_capacity words.new ≡ vec_capacity words.old }
{
    push_operators(words);
    push_pair(words, TRUE, word_of(Content::Boolean(true), false));
    push_pair(words, FALSE, word_of(Content::Boolean(false), false));
    push_pair(words, NULL, word_of(Content::Null, false));
    push_pair(
        words,
        SYSTEMDICT,
        word_of(Content::Dictionary(system), false),
    );
    push_pair(words, USERDICT, word_of(Content::Dictionary(user), false));
}

/// The pairs of `$error` before the first error.
pub fn error_words() -> [Word; 6]
    ensures { result ≡ words_of_pairs pairs.error_words }
{
    let newerror = word_of(Content::Boolean(false), false);
    let null = word_of(Content::Null, false);
    [
        name_word(NEWERROR),
        newerror,
        name_word(ERRORNAME),
        null,
        name_word(COMMAND),
        null,
    ]
}
