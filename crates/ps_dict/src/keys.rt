//! Keys by their words.

ghost use Rattle.std.specs.Prelude.{◌≡◌, ◌+◌, ◌*◌, ◌/◌, ◌%◌, ◌^◌, false, None};
ghost use Rattle.ps_word.specs.Format.{IsWord, is_body, content_in};
ghost use Rattle.ps_word.specs.Readers as readers;
ghost use Rattle.ps_dict.specs.Keys.{same_words};

use ps_word::words::Word;

const TYPE: u64 = 1 << 60;

const STRING: u64 = 7;

/// Bits 57 and 58 are the access and bit 59 the attribute: what lies below them is the content.
const CONTENT: u64 = 1 << 57;

/// A word without its access and its attribute.
#[inline(always)]
fn bare(word: Word) -> u64
    ensures { result ≡ word.0 / 2 ^ 60 * 2 ^ 60 + word.0 % 2 ^ 57 }
{
    word.0 - word.0 / CONTENT % 8 * CONTENT
}

/// Whether two words are the same key (PLRM2, 3.3.9 and 8 'eq'): values of one type, names by their
/// numbers, arrays by object, place and length. Attribute and access don't matter, and a string is
/// the same as nothing. The words are values': neither is a body.
#[inline(always)]
pub fn is_same_key(left: Word, right: Word) -> bool
    requires left { IsWord left.0 }
    requires right { IsWord right.0 }
    requires visible { is_body (content_in left.0) ≡ false }
    ensures { result ≡ same_words left right }
{
    if right.0 / TYPE == STRING {
        return false;
    }
    are_alike(left, right)
}

/// The same where the second is no string: their bits but for access and attribute tell.
#[inline(always)]
pub(crate) fn are_alike(left: Word, right: Word) -> bool
    requires left { IsWord left.0 }
    requires right { IsWord right.0 }
    requires visible { is_body (content_in left.0) ≡ false }
    requires other { readers.as_text (content_in right.0) ≡ None }
    ensures { result ≡ same_words left right }
{
    bare(left) == bare(right)
}
