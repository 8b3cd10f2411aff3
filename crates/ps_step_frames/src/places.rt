//! What a turn of `forall` pushes (PLRM2, 8 'forall').

ghost use Rattle.std.specs.Prelude.{◌≡◌, ◌<◌, ◌^◌, IfSome};
ghost use Rattle.ps_word.specs.Format.{content_in};
ghost use Rattle.ps_mem.specs.Shows.{IsSound, IsValue};
ghost use Rattle.ps_ops_control.specs.Turns.{IsPushed};

use ps_dict::dictionaries::pair;
use ps_mem::Memory;
use ps_ops_control::turns::TurnOperands;
use ps_ops_operands::plain;
use ps_seq::arrays::element;
use ps_seq::strings::byte;
use ps_word::values::{Content, Part};
use ps_word::words::Word;

/// The element at a place of an array; none past the last. The memory is only read.
#[inline(always)]
fn element_at<M: Memory>(over: Word, part: Part, at: usize, memory: &mut M) -> Option<TurnOperands>
    requires sound { IsSound (M.heap memory.old) }
    requires held { IsValue (M.heap memory.old) over }
    requires array { content_in over.0 ≡ Content.Array part }
    ensures heap { M.heap memory.new ≡ M.heap memory.old }
    ensures grants { M.grants memory.new ≡ M.grants memory.old }
    ensures pushed { IsPushed (M.heap memory.old) over at result }
    ensures place { IfSome result (λ pushed. at < 2 ^ 32) }
{
    if at >= part.length as usize {
        return None;
    }
    Some(TurnOperands::One(element(memory, part, at as u16)))
}

/// The byte at a place of a string; none past the last. The memory is only read.
#[inline(always)]
fn byte_at<M: Memory>(over: Word, part: Part, at: usize, memory: &mut M) -> Option<TurnOperands>
    requires sound { IsSound (M.heap memory.old) }
    requires held { IsValue (M.heap memory.old) over }
    requires text { content_in over.0 ≡ Content.Text part }
    ensures heap { M.heap memory.new ≡ M.heap memory.old }
    ensures grants { M.grants memory.new ≡ M.grants memory.old }
    ensures pushed { IsPushed (M.heap memory.old) over at result }
    ensures place { IfSome result (λ pushed. at < 2 ^ 32) }
{
    if at >= part.length as usize {
        return None;
    }
    let found = byte(memory, part, at as u16);
    Some(TurnOperands::One(plain::integer(i32::from(found))))
}

/// The pair at a place of a dictionary; none past the last. The memory is only read.
#[inline]
fn pair_at<M: Memory>(over: Word, address: u32, at: usize, memory: &mut M) -> Option<TurnOperands>
    requires sound { IsSound (M.heap memory.old) }
    requires held { IsValue (M.heap memory.old) over }
    requires dictionary { content_in over.0 ≡ Content.Dictionary address }
    ensures heap { M.heap memory.new ≡ M.heap memory.old }
    ensures grants { M.grants memory.new ≡ M.grants memory.old }
    ensures pushed { IsPushed (M.heap memory.old) over at result }
    ensures place { IfSome result (λ pushed. at < 2 ^ 32) }
{
    let Ok(place) = u32::try_from(at) else {
        return None;
    };
    let Some((key, value)) = pair(memory, address, place) else {
        return None;
    };
    Some(TurnOperands::Pair { key, value })
}

/// What a turn of `forall` pushes: the element, the byte or the pair at a place; none past the
/// last. The memory is only read.
#[inline(always)]
pub fn operands_at<M: Memory>(over: Word, at: usize, memory: &mut M) -> Option<TurnOperands>
    requires sound { IsSound (M.heap memory.old) }
    requires held { IsValue (M.heap memory.old) over }
    ensures heap { M.heap memory.new ≡ M.heap memory.old }
    ensures grants { M.grants memory.new ≡ M.grants memory.old }
    ensures pushed { IsPushed (M.heap memory.old) over at result }
    ensures place { IfSome result (λ pushed. at < 2 ^ 32) }
{
    match over.content() {
        Content::Array(part) => element_at(over, part, at, memory),
        Content::Text(part) => byte_at(over, part, at, memory),
        Content::Dictionary(address) => pair_at(over, address, at, memory),
        _ => None,
    }
}
