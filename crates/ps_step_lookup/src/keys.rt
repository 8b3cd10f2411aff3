//! Keys as dictionaries have them: a string stands for the name of its characters (PLRM2, 3.3.9).

ghost use Rattle.std.specs.Prelude.{◌≡◌, ℕ, ◌+◌, ◌<◌, List, Some, None, IfSome, false};
ghost use Rattle.ps_language.specs.Access as language;
ghost use Rattle.ps_language.specs.Limits.{names_limit};
ghost use Rattle.ps_language.specs.Readers as readers;
ghost use Rattle.ps_mem.specs.Heap.{Heap, birth_at};
ghost use Rattle.ps_mem.specs.Meaning.{value_of};
ghost use Rattle.ps_mem.specs.References.{StandsAs, words_for};
ghost use Rattle.ps_mem.specs.Shows.{IsSound, IsValue};
ghost use Rattle.ps_names.specs.Names.{AreNames};
ghost use Rattle.ps_word.specs.Format.{value_in, IsWord};
ghost use Rattle.ps_step_lookup.specs.Keys.{IsKeyOf, IsFormable, IsKeyWord, IsTextKey, Forms, word_in};

use arrayvec::ArrayVec;
use ps_language::errors::ErrorName;
use ps_language::kinds::Kind;
use ps_mem::Memory;
use ps_names::{NAME_LIMIT, Names, NamesFault};
use ps_ops_operands::access::is_readable;
use ps_ops_operands::failure::NotMade;
use ps_ops_operands::readers::string_of;
use ps_ops_state::breaks::Break;
use ps_seq::strings::byte;
use ps_word::values::{Content, Part};
use ps_word::words::Word;

/// A key under the names met.
#[derive(Drop)]
pub enum Key {
    /// The key itself, or the literal name of a string's characters.
    Met(Word),
    /// The characters of a string, of which no name was met.
    Unmet(ArrayVec<u8, NAME_LIMIT>),
    /// A string of more characters than a name may have.
    TooLong,
}

impl Key {
    /// The word that a dictionary may have as this key; none of a name that was not met.
    #[inline]
    pub fn word(&self) -> Option<Word>
        ensures { result ≡ word_in self.now }
    {
        match self {
            Key::Met(word) => Some(*word),
            Key::Unmet(_) | Key::TooLong => None,
        }
    }
}

/// Whether a key is a null, which no dictionary has.
#[inline]
pub fn is_null(word: Word) -> bool
    ensures { (h : Heap) (names : List (List ℕ)) → IsValue h word
        → readers.is_null (value_of (birth_at h) names word) ≡ result }
{
    word.is_null()
}

/// Whether a key may be read: a string's access says so, and nothing else is read.
#[inline(always)]
pub fn is_readable_key(word: Word) -> bool
    ensures { (births : ℕ → ℕ) (names : List (List ℕ))
        → language.may_read_text (value_of births names word) ≡ result }
{
    match string_of(word) {
        Some(part) => is_readable(part.access),
        None => true,
    }
}

/// A key under the names met. The memory stays as it is, and none is taken.
#[inline(always)]
pub fn read_key<M: Memory>(memory: &mut M, names: &Names, word: Word) -> Key
    requires sound { IsSound (M.heap memory.old) }
    requires held { IsValue (M.heap memory.old) word }
    requires names { AreNames names.now }
    ensures heap { M.heap memory.new ≡ M.heap memory.old }
    ensures grants { M.grants memory.new ≡ M.grants memory.old }
    ensures key { IsKeyOf (M.heap memory.old) names.now word result }
{
    match string_of(word) {
        Some(part) => text_key(memory, names, part),
        None => Key::Met(word),
    }
}

/// The same of a string.
#[inline(never)]
fn text_key<M: Memory>(memory: &mut M, names: &Names, part: Part) -> Key
    requires sound { IsSound (M.heap memory.old) }
    requires known { StandsAs (M.heap memory.old) Kind.Text part.address (words_for
        (part.offset + part.length)) }
    ensures heap { M.heap memory.new ≡ M.heap memory.old }
    ensures grants { M.grants memory.new ≡ M.grants memory.old }
    ensures word { IsKeyWord (M.heap memory.old) names.now result }
    ensures key { IsTextKey (M.heap memory.old) names.now part result }
{
    if part.length as usize > NAME_LIMIT {
        return Key::TooLong;
    }
    let mut text = ArrayVec::new();
    for index in 0..part.length {
        text.push(byte(memory, part, index));
    }
    match names.find(text.as_slice()) {
        Some(id) => Key::Met(Word::literal(Content::Name(id.0))),
        None => Key::Unmet(text),
    }
}

/// The literal name of a number.
#[inline]
pub fn name_word(number: usize) -> Word
    requires { number < names_limit }
    ensures value { value_in result.0
        ≡ record { content = Content.Name number; executable = false } }
    ensures word { IsWord result.0 }
{
    Word::literal(Content::Name(number as u16))
}

/// Meets the name of a key.
///
/// Raises `limitcheck` where it is too long, or no more names may be met. Not made, by `Memory`,
/// where a growth is refused. No name is met then.
pub fn form_key(names: &mut Names, key: &Key) -> Result<(), Break>
    requires formable { IsFormable names.old key.now }
    requires names { AreNames names.old }
    ensures { Forms names.old names.new key.now result }
{
    match key {
        Key::Met(_) => Ok(()),
        Key::Unmet(text) => match names.intern(text.as_slice()) {
            Ok(_) => Ok(()),
            Err(NamesFault::Memory) => Err(Break::NotMade(NotMade::Memory)),
            Err(NamesFault::Full | NamesFault::TooLong) => Err(Break::Raises(
                ErrorName::LimitCheck,
            )),
        },
        Key::TooLong => Err(Break::Raises(ErrorName::LimitCheck)),
    }
}
