//! The words of one stack go over to another.

ghost use Rattle.std.specs.Prelude.{◌≡◌, ◌+◌, ◌≤◌, ◌++◌, length, reverse};

use ps_stacks::Stack;
use ps_word::words::Word;

/// Pushes all of these words, for which there is room; the last is the topmost then.
pub(crate) fn push_all<const LIMIT: usize>(stack: &mut Stack<Word, LIMIT>, words: &[Word])
    requires { length stack.old + length words.now ≤ LIMIT }
    ensures { stack.new ≡ reverse words.now ++ stack.old }
{
    for word in words {
        stack.push_reserved(*word);
    }
}
