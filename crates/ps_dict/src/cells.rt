//! A memory is told where the value of a name stands, so that later it is known without a search.

ghost use Rattle.std.specs.Prelude.{◌≡◌, ◌<◌, ◌≤◌, ◌-◌, IfSome, length, option_map};
ghost use Rattle.ps_mem.specs.Cells.{cell_at, IsOpen};
ghost use Rattle.ps_mem.specs.Heap.{fields_at};
ghost use Rattle.ps_mem.specs.Shows.{IsSound, IsValue};
ghost use Rattle.ps_mem.specs.References.{StandsAs};
ghost use Rattle.ps_dict.specs.Places.{body_at, pairs_at, place_of};

use crate::dictionaries::{access, body, position};
use ps_language::access::Access;
use ps_language::kinds::Kind;
use ps_mem::Memory;
use ps_mem::cells::{CELLS, Cell, DictionaryPair, DictionaryPlace};
use ps_word::words::Word;

/// The dictionary that a word refers to, where it can be read.
fn opened<M: Memory>(memory: &mut M, word: Word) -> Option<DictionaryPlace>
    requires sound { IsSound (M.heap memory.old) }
    requires held { IsValue (M.heap memory.old) word }
    ensures heap { M.heap memory.new ≡ M.heap memory.old }
    ensures grants { M.grants memory.new ≡ M.grants memory.old }
    ensures open { IfSome result (IsOpen (M.heap memory.old)) }
    ensures known { IfSome result (λ place.
        StandsAs (M.heap memory.old) Kind.Dictionary place.address 4) }
    ensures word { IfSome result (λ place. place.word ≡ word) }
{
    let address = word.as_dictionary()?;
    let access = access(memory, address);
    let body = body(memory, address);
    let place = DictionaryPlace {
        word,
        address,
        body,
    };
    match access {
        Access::Unlimited => Some(place),
        Access::ReadOnly => Some(place),
        Access::ExecuteOnly => None,
        Access::NoAccess => None,
    }
}

/// Where the value of a key stands in a dictionary, if it has the key.
fn value_cell<M: Memory>(memory: &mut M, dictionary: DictionaryPlace, key: Word) -> Option<Cell>
    requires sound { IsSound (M.heap memory.old) }
    requires known { StandsAs (M.heap memory.old) Kind.Dictionary dictionary.address 4 }
    requires body { dictionary.body ≡ body_at (M.heap memory.old) dictionary.address }
    requires key { IsValue (M.heap memory.old) key }
    ensures heap { M.heap memory.new ≡ M.heap memory.old }
    ensures grants { M.grants memory.new ≡ M.grants memory.old }
    ensures first { result ≡ option_map (cell_at dictionary.body)
        (place_of (pairs_at (M.heap memory.old) dictionary.address) key) }
    ensures from { IfSome result (λ cell. cell.body ≤ cell.at) }
    ensures within { IfSome result (λ cell. cell.at - cell.body
        < length (fields_at (M.heap memory.old) cell.body)) }
{
    let place = position(memory, dictionary.address, key)?;
    Some(Cell {
        body: dictionary.body,
        at: dictionary.body + (2 * place + 1),
    })
}

/// Tells the memory where the value of a name stands, if the upper one of two dictionaries has it
/// as a key, or else the lower one, and both can be read.
#[inline(never)]
pub fn keep_cell<M: Memory>(memory: &mut M, upper: Word, lower: Word, key: Word)
    requires sound { IsSound (M.heap memory.old) }
    requires upper { IsValue (M.heap memory.old) upper }
    requires lower { IsValue (M.heap memory.old) lower }
    requires key { IsValue (M.heap memory.old) key }
    ensures heap { M.heap memory.new ≡ M.heap memory.old }
    ensures grants { M.grants memory.new ≡ M.grants memory.old }
{
    let Some(name) = key.as_name() else {
        return;
    };
    if name >= CELLS {
        return;
    }
    let Some(upper) = opened(memory, upper) else {
        return;
    };
    let Some(lower) = opened(memory, lower) else {
        return;
    };
    let pair = DictionaryPair { upper, lower };
    match value_cell(memory, upper, key) {
        Some(cell) => memory.keep(pair, name, cell),
        None => if let Some(cell) = value_cell(memory, lower, key) {
            memory.keep(pair, name, cell);
        }
    }
}
