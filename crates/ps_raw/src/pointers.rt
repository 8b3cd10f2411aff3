//! Raw pointers that stay inside one small function each: signatures and clauses name slices and
//! numbers alone.

ghost use Rattle.std.specs.Prelude.{◌≡◌, ◌+◌, ◌<◌, ◌≤◌, ◌++◌, length, slice_index, slice_set};
ghost use Rattle.std.specs.Prelude.{slice_range, take, drop};

/// The word at an index.
#[inline]
pub(crate) fn read_at(words: &[u64], index: usize) -> u64
    requires { index < length words.now }
    ensures { result ≡ slice_index words.now index }
{
    let start = words.as_ptr();
    unsafe { *start.add(index) }
}

/// Puts a word at an index.
#[inline]
pub(crate) fn write_at(words: &mut [u64], index: usize, word: u64)
    requires { index < length words.old }
    ensures { words.new ≡ slice_set words.old index word }
{
    let start = words.as_mut_ptr();
    unsafe {
        let at = start.add(index);
        *at = word;
    }
}

/// Moves `count` words from `from` on to the places from `to` on, which begin no later, the first
/// word first.
pub(crate) fn move_down(words: &mut [u64], from: usize, to: usize, count: usize)
    requires lower { to ≤ from }
    requires source { from + count ≤ length words.old }
    ensures { words.new ≡ take to words.old
        ++ (slice_range words.old from (from + count) ++ drop (to + count) words.old) }
{
    for i in 0..count {
        let word = read_at(words, from + i);
        write_at(words, to + i, word);
    }
}

/// Moves `count` words from `from` on to the places from `to` on, which begin no earlier, the last
/// word first.
pub(crate) fn move_up(words: &mut [u64], from: usize, to: usize, count: usize)
    requires higher { from ≤ to }
    requires target { to + count ≤ length words.old }
    ensures { words.new ≡ take to words.old
        ++ (slice_range words.old from (from + count) ++ drop (to + count) words.old) }
{
    for i in (0..count).rev() {
        let word = read_at(words, from + i);
        write_at(words, to + i, word);
    }
}
