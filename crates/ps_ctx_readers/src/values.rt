//! The values that a context has, and what is told of each. Nothing is changed, no memory is taken, and
//! no address is told.
//!
//! Who looks from outside may see what a program may not: access isn't asked for.

ghost use Rattle.std.specs.Prelude.{◌≡◌, ◌+◌, ◌≤◌, ℕ, List, Some, IfSome, length, nat_le, option_map};
ghost use Rattle.ps_language.specs.Access.{bytes, dictionary_at, part_bytes};
ghost use Rattle.ps_language.specs.Dictionaries.{find};
ghost use Rattle.ps_language.specs.Lowest.{HasFirstDictionaries};
ghost use Rattle.ps_language.specs.Readers.{literal_name};
ghost use Rattle.ps_language.specs.Value.{Store};
ghost use Rattle.ps_language.specs.Worlds.{userdict};
ghost use Rattle.ps_mem.specs.Heap.{Heap, birth_at};
ghost use Rattle.ps_mem.specs.Meaning.{part_of, value_of, what_of};
ghost use Rattle.ps_mem.specs.References.{IsKnownContent, StandsAs, words_for};
ghost use Rattle.ps_mem.specs.Shows.{AreValues, AreWithin, IsSound, IsValue, IsWithin, IsWithinContent, Shows};
ghost use Rattle.ps_ops_operands.specs.Changes.{values_in};
ghost use Rattle.ps_ops_operands.specs.FirstNames.{BeginWithFirst};
ghost use Rattle.ps_names.specs.Names.{AreNames};
ghost use Rattle.ps_step_lookup.specs.Lookups.{IsSought};
ghost use Rattle.ps_ctx_table.specs.Worlds.{context_of};
ghost use Rattle.ps_ctx_readers.specs.Values as spec;
ghost use Rattle.ps_ctx_readers.specs.Values.{written};

use crate::errors::last_error;
use crate::views::{Place, ToldValue, ValueView, WhatView};
use ps_ctx_table::members::Member;
use ps_dict::dictionaries::length;
use ps_language::kinds::Kind;
use ps_language::operators::operator_name;
use ps_mem::Memory;
use ps_names::{NameId, Names};
use ps_ops_state::lent::Dictionaries;
use ps_seq::reads::read_part;
use ps_step_lookup::lookups::find_in;
use ps_word::values::{Content, Part};
use ps_word::words::Word;

/// What a value is, but for its attribute. The memory is only read.
fn what_view<M: Memory>(content: Content, names: &Names, memory: &mut M) -> WhatView
    requires sound { IsSound (M.heap memory.old) }
    requires known { IsKnownContent (M.heap memory.old) content }
    ensures heap { M.heap memory.new ≡ M.heap memory.old }
    ensures grants { M.grants memory.new ≡ M.grants memory.old }
    ensures view { (s : Store) → Shows (M.heap memory.old) names.now s → result
        ≡ spec.what_seen s (what_of (birth_at (M.heap memory.old)) names.now content) }
{
    match content {
        Content::Null | Content::Body(_) => WhatView::Null,
        Content::Mark => WhatView::Mark,
        Content::Integer(number) => WhatView::Integer { number },
        Content::Boolean(truth) => WhatView::Boolean { truth },
        Content::Name(number) => WhatView::Name {
            length: names.text(NameId(number)).len(),
        },
        Content::Operator(operator) => WhatView::Operator {
            length: operator_name(operator).len(),
        },
        Content::Array(part) => WhatView::Array {
            length: part.length,
        },
        Content::Text(part) => WhatView::Text {
            length: part.length,
        },
        Content::Dictionary(address) => WhatView::Dictionary {
            length: length(memory, address),
        },
        Content::Lock(_) => WhatView::Lock,
        Content::Condition(_) => WhatView::Condition,
    }
}

/// Writes bytes to the front of a room, if it has place for all of them, and tells whether it has.
fn write_bytes(bytes: &[u8], room: &mut [u8]) -> bool
    ensures written { room.new ≡ written bytes.now room.old }
    ensures whole { result ≡ nat_le (length bytes.now) (length room.old) }
{
    let count = bytes.len();
    let whole = count <= room.len();
    if whole {
        room[..count].copy_from_slice(bytes);
    }
    whole
}

/// The same of the bytes of a string. The memory is only read.
fn write_part<M: Memory>(part: Part, memory: &mut M, room: &mut [u8]) -> bool
    requires sound { IsSound (M.heap memory.old) }
    requires known { StandsAs (M.heap memory.old) Kind.Text part.address (words_for
        (part.offset + part.length)) }
    ensures heap { M.heap memory.new ≡ M.heap memory.old }
    ensures grants { M.grants memory.new ≡ M.grants memory.old }
    ensures written { (names : List (List ℕ)) (s : Store) → Shows (M.heap memory.old) names s
        → part.offset + part.length ≤ length (bytes s (birth_at (M.heap memory.old) part.address))
        → room.new
        ≡ written (part_bytes s (part_of (birth_at (M.heap memory.old)) part)) room.old }
    ensures whole { result ≡ nat_le part.length (length room.old) }
{
    let count = usize::from(part.length);
    let whole = count <= room.len();
    if whole {
        read_part(memory, part, &mut room[..count]);
    }
    whole
}

/// The same of what a value is.
fn write_content<M: Memory>(
    content: Content,
    names: &Names,
    memory: &mut M,
    room: &mut [u8],
) -> bool
    requires sound { IsSound (M.heap memory.old) }
    requires known { IsKnownContent (M.heap memory.old) content }
    ensures heap { M.heap memory.new ≡ M.heap memory.old }
    ensures grants { M.grants memory.new ≡ M.grants memory.old }
    ensures bytes { (s : Store) → Shows (M.heap memory.old) names.now s
        → IsWithinContent (birth_at (M.heap memory.old)) names.now s content
        → spec.IsWritten (spec.bytes_seen s (what_of (birth_at (M.heap memory.old)) names.now
        content)) room.old room.new result }
{
    match content {
        Content::Name(number) => write_bytes(names.text(NameId(number)), room),
        Content::Operator(operator) => write_bytes(operator_name(operator), room),
        Content::Text(part) => write_part(part, memory, room),
        Content::Null
        | Content::Body(_)
        | Content::Mark
        | Content::Integer(_)
        | Content::Boolean(_)
        | Content::Array(_)
        | Content::Dictionary(_)
        | Content::Lock(_)
        | Content::Condition(_) => write_bytes(&[], room),
    }
}

/// Tells of a value. Its bytes, which are those of a string, or of the name that a name or an operator
/// is, are written to the front of a room, if it has place for all of them. The memory is only read.
pub fn tell_value<M: Memory>(
    word: Word,
    names: &Names,
    memory: &mut M,
    room: &mut [u8],
) -> ToldValue
    requires sound { IsSound (M.heap memory.old) }
    requires held { IsValue (M.heap memory.old) word }
    ensures heap { M.heap memory.new ≡ M.heap memory.old }
    ensures grants { M.grants memory.new ≡ M.grants memory.old }
    ensures told { (s : Store) → Shows (M.heap memory.old) names.now s
        → IsWithin (birth_at (M.heap memory.old)) names.now s word
        → spec.IsToldOf s (value_of (birth_at (M.heap memory.old)) names.now word)
        room.old room.new result }
{
    let content = word.content();
    let view = ValueView {
        what: what_view(content, names, memory),
        executable: word.is_executable(),
    };
    let whole = write_content(content, names, memory, room);
    ToldValue { view, whole }
}

/// The address of `userdict`: the second of a dictionary stack from below.
fn user_dictionary(dictionaries: &Dictionaries) -> Option<u32>
    ensures stands { (h : Heap) → AreValues h dictionaries.now
        → IfSome result (λ address. StandsAs h Kind.Dictionary address 4) }
    ensures birth { (h : Heap) (names : List (List ℕ))
        → HasFirstDictionaries (values_in h names dictionaries.now)
        → option_map (birth_at h) result ≡ Some userdict }
{
    let above = dictionaries.len().saturating_sub(2);
    match dictionaries.peek(above) {
        Some(user) => user.as_dictionary(),
        None => None,
    }
}

/// The word of the literal name of these bytes, if it was met.
fn key_word(key: &[u8], names: &Names) -> Option<Word>
    ensures held { (h : Heap) → IfSome result (IsValue h) }
    ensures sought { (births : ℕ → ℕ) (s : Store)
        → IsSought births names.now s result (literal_name key.now) }
    ensures names { AreNames names.now }
{
    match names.find(key) {
        Some(id) => Some(Word::literal(Content::Name(id.0))),
        None => None,
    }
}

/// What `userdict` has under the name of these bytes. The memory is only read.
fn definition<M: Memory>(
    dictionaries: &Dictionaries,
    key: &[u8],
    names: &Names,
    memory: &mut M,
) -> Option<Word>
    requires sound { IsSound (M.heap memory.old) }
    requires held { AreValues (M.heap memory.old) dictionaries.now }
    ensures heap { M.heap memory.new ≡ M.heap memory.old }
    ensures grants { M.grants memory.new ≡ M.grants memory.old }
    ensures held { IfSome result (IsValue (M.heap memory.old)) }
    ensures within { (s : Store) → Shows (M.heap memory.old) names.now s
        → IfSome result (IsWithin (birth_at (M.heap memory.old)) names.now s) }
    ensures value { (s : Store) → Shows (M.heap memory.old) names.now s
        → HasFirstDictionaries (values_in (M.heap memory.old) names.now dictionaries.now)
        → option_map (value_of (birth_at (M.heap memory.old)) names.now) result
        ≡ find (dictionary_at s userdict).pairs (literal_name key.now) }
{
    let Some(address) = user_dictionary(dictionaries) else {
        return None;
    };
    find_in(memory, address, key_word(key, names))
}

/// What a context has at a place. The memory is only read.
pub fn word_in<M: Memory>(
    member: &Member,
    place: Place<'_>,
    names: &Names,
    memory: &mut M,
) -> Option<Word>
    requires sound { IsSound (M.heap memory.old) }
    requires operands { AreValues (M.heap memory.old) member.now.context.operands }
    requires dictionaries { AreValues (M.heap memory.old) member.now.context.dictionaries }
    requires known { StandsAs (M.heap memory.old) Kind.Dictionary
        member.now.context.error_dictionary 4 }
    ensures heap { M.heap memory.new ≡ M.heap memory.old }
    ensures grants { M.grants memory.new ≡ M.grants memory.old }
    ensures held { IfSome result (IsValue (M.heap memory.old)) }
    ensures within { (s : Store) → Shows (M.heap memory.old) names.now s
        → AreWithin (M.heap memory.old) names.now s member.now.context.operands
        → IfSome result (IsWithin (birth_at (M.heap memory.old)) names.now s) }
    ensures value { (s : Store) → AreNames names.now → BeginWithFirst names.now
        → Shows (M.heap memory.old) names.now s → HasFirstDictionaries
        (values_in (M.heap memory.old) names.now member.now.context.dictionaries)
        → option_map (value_of (birth_at (M.heap memory.old)) names.now) result
        ≡ spec.value_in place.entry s (context_of (M.heap memory.old) names.now member.now) }
{
    let context = &member.context;
    match place {
        Place::Operand(depth) => context.operands.peek(depth),
        Place::ErrorName => last_error(memory, context.error_dictionary).name,
        Place::ErrorCommand => last_error(memory, context.error_dictionary).command,
        Place::Definition(key) => definition(&context.dictionaries, key, names, memory),
    }
}
