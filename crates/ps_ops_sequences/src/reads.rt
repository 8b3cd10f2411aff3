//! Bytes of strings that are read onto the stack, where an operator may take no memory.

ghost use Rattle.std.specs.Prelude.{◌≡◌, ℕ, ◌+◌, ◌≤◌, List, length, take};
ghost use Rattle.ps_language.specs.Access.{bytes, part_bytes};
ghost use Rattle.ps_language.specs.Value.{Store};
ghost use Rattle.ps_mem.specs.Heap.{birth_at};
ghost use Rattle.ps_mem.specs.Meaning.{part_of};
ghost use Rattle.ps_mem.specs.References.{StandsAs, words_for};
ghost use Rattle.ps_mem.specs.Shows.{IsSound, Shows};

use ps_language::kinds::Kind;
use ps_mem::Memory;
use ps_seq::reads::read_part;
use ps_word::values::Part;

/// Reads the bytes of a part of a string into the front of a list, which is at least as long. The
/// memory stays as it is.
pub fn read_bytes<M: Memory>(memory: &mut M, part: Part, text: &mut [u8])
    requires sound { IsSound (M.heap memory.old) }
    requires known { StandsAs (M.heap memory.old) Kind.Text part.address (words_for
        (part.offset + part.length)) }
    requires fits { part.length ≤ length text.old }
    ensures heap { M.heap memory.new ≡ M.heap memory.old }
    ensures grants { M.grants memory.new ≡ M.grants memory.old }
    ensures length { length text.new ≡ length text.old }
    ensures value { (names : List (List ℕ)) (s : Store) → Shows (M.heap memory.old) names s
        → part.offset + part.length ≤ length (bytes s (birth_at (M.heap memory.old) part.address))
        → take part.length text.new
        ≡ part_bytes s (part_of (birth_at (M.heap memory.old)) part) }
{
    read_part(memory, part, &mut text[..part.length as usize]);
}
