//! Numbers that strings' characters write (PLRM2, 8 'cvi').

ghost use Rattle.std.specs.Prelude.{◌≡◌, ℕ, ◌+◌, ◌≤◌, List, length};
ghost use Rattle.ps_language.specs.Access.{bytes, part_bytes};
ghost use Rattle.ps_language.specs.Rows.{reading_row};
ghost use Rattle.ps_language.specs.RowsTypes.{cvi_row};
ghost use Rattle.ps_language.specs.Scan.{scan};
ghost use Rattle.ps_language.specs.Value.{Store};
ghost use Rattle.ps_mem.specs.Heap.{birth_at};
ghost use Rattle.ps_mem.specs.Meaning.{part_of};
ghost use Rattle.ps_mem.specs.References.{StandsAs, words_for};
ghost use Rattle.ps_mem.specs.Shows.{IsSound, Shows};
ghost use Rattle.ps_scan.specs.Passed.{number_of};
ghost use Rattle.ps_ops_state.specs.Acts.{Acts, nothing_asked};
ghost use Rattle.ps_ops_state.specs.Lent.{lent_of, IsGood};

use ps_language::errors::ErrorName;
use ps_language::kinds::Kind;
use ps_mem::Memory;
use ps_ops_operands::access::is_readable;
use ps_ops_operands::plain;
use ps_ops_operands::ranges::SEQUENCE_LIMIT;
use ps_ops_operands::readers::{integer_of, string_of};
use ps_ops_sequences::reads::read_bytes;
use ps_ops_state::breaks::Break;
use ps_ops_state::lent::{Attempt, Context, Runtime};
use ps_scan::{NumberFault, first_number};
use ps_word::values::Part;

/// How many bytes the strings have for which little room is taken.
const SHORT: usize = 64;

/// The number that the first token of a string is, whose bytes are read into the front of a list.
/// The memory stays as it is.
fn number_within<M: Memory>(memory: &mut M, part: Part, text: &mut [u8]) -> Result<i32, NumberFault>
    requires sound { IsSound (M.heap memory.old) }
    requires known { StandsAs (M.heap memory.old) Kind.Text part.address (words_for
        (part.offset + part.length)) }
    requires fits { part.length ≤ length text.old }
    ensures heap { M.heap memory.new ≡ M.heap memory.old }
    ensures grants { M.grants memory.new ≡ M.grants memory.old }
    ensures value { (names : List (List ℕ)) (s : Store) → Shows (M.heap memory.old) names s
        → part.offset + part.length ≤ length (bytes s (birth_at (M.heap memory.old) part.address))
        → result ≡ number_of (scan (part_bytes s (part_of (birth_at (M.heap memory.old)) part)) 0) }
{
    read_bytes(memory, part, text);
    first_number(&text[..part.length as usize])
}

/// The same by a list of its own on the stack, short where the string is. No memory is taken.
fn number_of_string<M: Memory>(memory: &mut M, part: Part) -> Result<i32, NumberFault>
    requires sound { IsSound (M.heap memory.old) }
    requires known { StandsAs (M.heap memory.old) Kind.Text part.address (words_for
        (part.offset + part.length)) }
    ensures heap { M.heap memory.new ≡ M.heap memory.old }
    ensures grants { M.grants memory.new ≡ M.grants memory.old }
    ensures value { (names : List (List ℕ)) (s : Store) → Shows (M.heap memory.old) names s
        → part.offset + part.length ≤ length (bytes s (birth_at (M.heap memory.old) part.address))
        → result ≡ number_of (scan (part_bytes s (part_of (birth_at (M.heap memory.old)) part)) 0) }
{
    if part.length as usize <= SHORT {
        let mut text = [0u8; SHORT];
        return number_within(memory, part, &mut text);
    }
    number_of_long_string(memory, part)
}

/// The same of a string however long. Its frame is large, so it isn't the caller's.
#[inline(never)]
fn number_of_long_string<M: Memory>(memory: &mut M, part: Part) -> Result<i32, NumberFault>
    requires sound { IsSound (M.heap memory.old) }
    requires known { StandsAs (M.heap memory.old) Kind.Text part.address (words_for
        (part.offset + part.length)) }
    ensures heap { M.heap memory.new ≡ M.heap memory.old }
    ensures grants { M.grants memory.new ≡ M.grants memory.old }
    ensures value { (names : List (List ℕ)) (s : Store) → Shows (M.heap memory.old) names s
        → part.offset + part.length ≤ length (bytes s (birth_at (M.heap memory.old) part.address))
        → result ≡ number_of (scan (part_bytes s (part_of (birth_at (M.heap memory.old)) part)) 0) }
{
    let mut text = [0u8; SEQUENCE_LIMIT];
    number_within(memory, part, &mut text)
}

/// `x cvi i`: an integer as it is, or the integer that is the first token of a string.
///
/// Raises `stackunderflow`, `typecheck` where `x` is neither, or the first token of a string is no
/// number or there is none, `invalidaccess`, and what the scanner raises: `syntaxerror`, and
/// `limitcheck` of a number past 32 bits, a real, or another token that is too long.
pub fn cvi<M: Memory>(context: &mut Context, runtime: &mut Runtime<M>) -> Result<(), Break>
    requires good { IsGood (lent_of M.heap M.grants context.old runtime.old) }
    ensures acts { (attempt : Attempt) → Acts nothing_asked (reading_row (cvi_row scan)) attempt
        result
        (lent_of M.heap M.grants context.old runtime.old)
        (lent_of M.heap M.grants context.new runtime.new) }
    ensures frames { context.new.frames ≡ context.old.frames }
{
    let Some(word) = context.operands.top() else {
        return Err(Break::Raises(ErrorName::StackUnderflow));
    };
    if integer_of(word).is_some() {
        return Ok(());
    }
    let Some(part) = string_of(word) else {
        return Err(Break::Raises(ErrorName::TypeCheck));
    };
    if !is_readable(part.access) {
        return Err(Break::Raises(ErrorName::InvalidAccess));
    }
    match number_of_string(&mut runtime.memory, part) {
        Ok(number) => {
            context.operands.replace(1, plain::integer(number));
            Ok(())
        }
        Err(NumberFault::NoNumber) => Err(Break::Raises(ErrorName::TypeCheck)),
        Err(NumberFault::Syntax) => Err(Break::Raises(ErrorName::SyntaxError)),
        Err(NumberFault::Limit) => Err(Break::Raises(ErrorName::LimitCheck)),
    }
}
