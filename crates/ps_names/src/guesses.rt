//! Which name a text may be: one that every run knows, or one that was met later.
//!
//! It is a guess alone. Whoever asks compares the texts, so nothing that is answered depends on it.

ghost use Rattle.std.specs.Prelude.{◌<◌};

use crate::names::NameId;

/// How many marks there are.
const MARKS: usize = 256;

/// The number of a first name by its mark. Where some share a mark it is one of them, and else 0.
/// The factors of the mark were sought so that few names share one, and none that is common.
static NUMBERS: [u8; MARKS] = [
    34, 0, 105, 0, 0, 0, 92, 49, 0, 72, 0, 39, 33, 0, 47, 0, 116, 0, 0, 0, 79, 0, 7, 97, 96, 0, 48,
    0, 0, 0, 44, 59, 0, 62, 10, 0, 1, 40, 119, 35, 0, 0, 9, 0, 0, 0, 103, 0, 0, 61, 8, 0, 69, 0,
    108, 0, 129, 0, 51, 0, 0, 0, 130, 85, 6, 78, 0, 0, 0, 107, 0, 0, 89, 0, 0, 30, 0, 43, 121, 0,
    0, 37, 0, 0, 0, 65, 126, 63, 122, 75, 67, 0, 0, 0, 0, 0, 54, 0, 80, 101, 94, 41, 0, 104, 0, 0,
    0, 88, 71, 73, 0, 0, 90, 106, 131, 98, 57, 0, 0, 32, 16, 91, 0, 55, 0, 0, 0, 0, 86, 0, 24, 0,
    0, 82, 17, 19, 110, 0, 0, 99, 76, 74, 0, 0, 25, 45, 0, 0, 0, 0, 58, 0, 64, 36, 29, 77, 0, 56,
    0, 0, 0, 125, 0, 66, 22, 0, 114, 0, 0, 95, 0, 0, 50, 0, 0, 0, 0, 0, 0, 83, 0, 0, 0, 0, 0, 0,
    42, 118, 0, 0, 0, 0, 0, 0, 0, 117, 0, 0, 0, 0, 0, 68, 14, 93, 0, 0, 0, 0, 2, 70, 81, 12, 0, 87,
    0, 84, 112, 0, 0, 115, 31, 0, 0, 124, 0, 0, 109, 0, 0, 100, 0, 0, 0, 0, 0, 53, 20, 27, 0, 0, 0,
    0, 52, 0, 128, 46, 0, 38, 123, 0, 0, 0, 0, 0, 0, 102,
];

/// The mark of a text, by its first byte, the one behind it, its last and its length.
#[inline(always)]
fn mark_of(text: &[u8]) -> usize
    ensures { result < 256 }
{
    let length = text.len();
    if length == 0 {
        return 0;
    }
    let first = text[0] as usize;
    let second = if length == 1 { first } else { text[1] as usize };
    let last = text[length - 1] as usize;
    (101 * first + 209 * second + 113 * last + 248 * (length % 256)) % 256
}

/// The number that a text has, if it is a name that every run knows; else any.
#[inline(always)]
pub(crate) fn guess(text: &[u8]) -> NameId {
    NameId(u16::from(NUMBERS[mark_of(text)]))
}

/// The numbers of the names that were met last, by their marks.
#[derive(Clone, Copy, Debug)]
pub(crate) struct RecentNames {
    numbers: [u16; MARKS],
}

impl RecentNames {
    /// None was met.
    pub(crate) fn none() -> RecentNames {
        RecentNames {
            numbers: [0; MARKS],
        }
    }

    /// The number that a text has, if of those with its mark it is the one that was met last; else
    /// any.
    #[inline(always)]
    pub(crate) fn guess(&self, text: &[u8]) -> NameId {
        NameId(self.numbers[mark_of(text)])
    }

    /// A text was met as a name of this number.
    pub(crate) fn note(&mut self, text: &[u8], id: NameId) {
        self.numbers[mark_of(text)] = id.0;
    }
}
