//! The entry of a line.

ghost use Rattle.std.specs.Prelude.{◌≡◌, ◌≢◌, ◌++◌, ◌∷◌, ℤ, Bool, List, ℕ, Option, Some, IfSome};
ghost use Rattle.std.specs.Prelude.{IfNone, IsTrue, ◌↔◌};
ghost use Rattle.ps_language.specs.declared.schedules.Entry.{Entry};
ghost use Rattle.ps_run_schedules.specs.Texts.{IsEntry, IsShown, line_of, flag_of, ending_of, pair_of};
ghost use Rattle.ps_run_schedules.specs.Texts.{BeginsNoLine};

use crate::fields::field;
use ps_language::schedules::Entry;

/// The most words that a `vmstatus` shows.
const MOST_WORDS: u32 = 2147483647;

/// Whether an entry has a line: it has a step or more, of a context's identifier, and a pair that
/// it shows is of numbers of words from 1.
pub fn is_entry(entry: &Entry) -> bool
    ensures { IsTrue result ↔ IsEntry entry.now }
{
    let is_shown = match entry.shown {
        Some((used, most)) => used >= 1 && most >= 1,
        None => true,
    };
    is_shown && entry.context >= 1 && entry.steps >= 1
}

/// The entry whose line the bytes begin with, and what stands behind the line; none where they
/// begin with no entry's line.
pub(crate) fn entry<'a>(bytes: &'a [u8]) -> Option<(Entry, &'a [u8])>
    ensures entry { IfSome result (λ found. IsEntry found.0) }
    ensures found { IfSome result (λ found. bytes.now ≡ line_of found.0 ++ found.1.now) }
    ensures none { IfNone result (BeginsNoLine bytes.now) }
{
    let (context, behind) = field(bytes, u32::MAX, b' ')?;
    let (steps, behind) = field(behind, u32::MAX, b' ')?;
    let (refused, behind) = flag(behind)?;
    let (shown, rest) = shown(behind)?;
    Some((
        Entry {
            context,
            steps,
            refused,
            shown,
        },
        rest,
    ))
}

/// The flag with whose digit the bytes begin, and what stands behind it.
fn flag<'a>(bytes: &'a [u8]) -> Option<(bool, &'a [u8])>
    ensures found { IfSome result (λ found. bytes.now ≡ flag_of found.0 ∷ found.1.now) }
    ensures none { IfNone result ((truth : Bool) (rest : List ℕ)
        → bytes.now ≢ flag_of truth ∷ rest) }
{
    match bytes {
        [b'0', rest @ ..] => Some((false, rest)),
        [b'1', rest @ ..] => Some((true, rest)),
        _ => None,
    }
}

/// The pair that the end of a line has, or none where it has none, and what stands behind the line;
/// none where the bytes begin with no end of a line.
fn shown<'a>(bytes: &'a [u8]) -> Option<(Option<(i32, i32)>, &'a [u8])>
    ensures shown { IfSome result (λ found. IsShown found.0) }
    ensures found { IfSome result (λ found. bytes.now ≡ ending_of found.0 ++ found.1.now) }
    ensures none { IfNone result
        ((shown : Option (ℤ × ℤ)) → IsShown shown → (rest : List ℕ)
        → bytes.now ≢ ending_of shown ++ rest) }
{
    match bytes {
        [b'\n', rest @ ..] => Some((None, rest)),
        [b' ', behind @ ..] => {
            let (pair, rest) = pair(behind)?;
            Some((Some(pair), rest))
        }
        _ => None,
    }
}

/// The pair of words that the bytes begin with, up to the end of the line, and what stands behind
/// it; none where they begin with no such pair.
fn pair<'a>(bytes: &'a [u8]) -> Option<((i32, i32), &'a [u8])>
    ensures shown { IfSome result (λ found. IsShown (Some found.0)) }
    ensures found { IfSome result (λ found. bytes.now ≡ pair_of found.0 ++ found.1.now) }
    ensures none { IfNone result
        ((pair : ℤ × ℤ) → IsShown (Some pair) → (rest : List ℕ)
        → bytes.now ≢ pair_of pair ++ rest) }
{
    let (used, behind) = field(bytes, MOST_WORDS, b' ')?;
    let (most, rest) = field(behind, MOST_WORDS, b'\n')?;
    Some(((used as i32, most as i32), rest))
}
