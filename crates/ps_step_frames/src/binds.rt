//! The elements of a procedure as `bind` leaves them (PLRM2, 3.11, 8 'bind').

ghost use Rattle.std.specs.Prelude.{◌≡◌, ℕ, ◌+◌, ◌≤◌, List, [], Some, true, vec_capacity};
ghost use Rattle.ps_language.specs.StepValues.{is_executable_name};
ghost use Rattle.ps_word.specs.Format.{content_in, executable_in, IsWord};
ghost use Rattle.ps_mem.specs.Heap.{Heap};
ghost use Rattle.ps_mem.specs.Meaning.{value_of};
ghost use Rattle.ps_mem.specs.Shows.{AreValues, IsSound, IsValue};
ghost use Rattle.ps_ops_control.specs.Frames.{IsHeld};
ghost use Rattle.ps_step_frames.specs.Binds as binds;
ghost use Rattle.ps_step_frames.specs.Binds.{Binds, BindsAll};

use ps_language::access::Access;
use ps_mem::Memory;
use ps_ops_operands::access::is_writable;
use ps_ops_operands::readers::array_word;
use ps_ops_state::lent::Dictionaries;
use ps_seq::arrays::element;
use ps_step_lookup::lookups::look_up;
use ps_word::values::{Content, Part};
use ps_word::words::Word;

/// An element as `bind` leaves it.
#[derive(Clone, Copy, Debug, PartialEq, Eq)]
pub enum Bound {
    /// It stays.
    Kept,
    /// A name gives way to the operator that it stands for.
    Replaced(Word),
    /// A procedure that may be written is made read-only, and is gone into next.
    Entered { procedure: Word, inner: Part },
}

/// An executable name. The memory is only read.
///
/// None: a dictionary on the way to its value can't be read.
fn bind_name<M: Memory>(word: Word, dictionaries: &Dictionaries, memory: &mut M) -> Option<Bound>
    requires sound { IsSound (M.heap memory.old) }
    requires dictionaries { AreValues (M.heap memory.old) dictionaries.now }
    requires held { IsValue (M.heap memory.old) word }
    requires name { (births : ℕ → ℕ) (names : List (List ℕ))
        → is_executable_name (value_of births names word) ≡ true }
    ensures heap { M.heap memory.new ≡ M.heap memory.old }
    ensures grants { M.grants memory.new ≡ M.grants memory.old }
    ensures binds { Binds (M.heap memory.old) dictionaries.now word result }
{
    match look_up(memory, dictionaries, Some(word)) {
        Ok(Some(found)) => match found.1.as_operator() {
            Some(_) => Some(Bound::Replaced(found.1)),
            None => Some(Bound::Kept),
        },
        Ok(None) => Some(Bound::Kept),
        Err(_) => None,
    }
}

/// A procedure.
fn bind_procedure(word: Word, part: Part, dictionaries: &Dictionaries) -> Bound
    requires word { IsWord word.0 }
    requires executable { executable_in word.0 ≡ true }
    requires array { content_in word.0 ≡ Content.Array part }
    ensures { (h : Heap) → IsValue h word → Binds h dictionaries.now word (Some result) }
{
    if !is_writable(part.access) {
        return Bound::Kept;
    }
    let read_only = Part {
        access: Access::ReadOnly,
        ..part
    };
    Bound::Entered {
        procedure: array_word(read_only, true),
        inner: part,
    }
}

/// An element: the name of an operator is replaced, a procedure that may be written is gone into,
/// and all else stays. The memory is only read.
///
/// None: a dictionary on the way to the value of a name can't be read.
pub fn bind_element<M: Memory>(
    word: Word,
    dictionaries: &Dictionaries,
    memory: &mut M,
) -> Option<Bound>
    requires sound { IsSound (M.heap memory.old) }
    requires dictionaries { AreValues (M.heap memory.old) dictionaries.now }
    requires held { IsValue (M.heap memory.old) word }
    ensures heap { M.heap memory.new ≡ M.heap memory.old }
    ensures grants { M.grants memory.new ≡ M.grants memory.old }
    ensures binds { Binds (M.heap memory.old) dictionaries.now word result }
{
    if !word.is_executable() {
        return Some(Bound::Kept);
    }
    match word.content() {
        Content::Name(_) => bind_name(word, dictionaries, memory),
        Content::Array(part) => Some(bind_procedure(word, part, dictionaries)),
        _ => Some(Bound::Kept),
    }
}

/// The word that is left of an element.
#[inline]
fn word_left(word: Word, bound: Bound) -> Word
    ensures { result ≡ binds.word_left word bound }
{
    match bound {
        Bound::Kept => word,
        Bound::Replaced(operator) => operator,
        Bound::Entered { procedure, .. } => procedure,
    }
}

/// The procedure that is gone into.
#[inline]
fn inner_of(bound: Bound) -> Option<Part>
    ensures { result ≡ binds.inner_of bound }
{
    match bound {
        Bound::Entered { inner, .. } => Some(inner),
        Bound::Kept | Bound::Replaced(_) => None,
    }
}

/// Whether something was replaced before, or is now.
#[inline]
fn changed_by(before: bool, bound: Bound) -> bool
    ensures { result ≡ binds.changed_by before bound }
{
    match bound {
        Bound::Kept => before,
        Bound::Replaced(_) | Bound::Entered { .. } => true,
    }
}

/// What `bind` came to at elements of a procedure.
#[derive(Clone, Copy, Debug, PartialEq, Eq)]
pub struct Bindings {
    /// The procedure that is gone into next; none at the end.
    pub inner: Option<Part>,
    /// Whether an element was replaced.
    pub changed: bool,
}

/// The elements of a procedure from a place on, up to the end or the next procedure that is gone
/// into, as `bind` leaves them: their words are pushed. The memory is only read.
///
/// None: a dictionary on the way to the value of a name can't be read.
pub fn bind_elements<M: Memory>(
    over: Part,
    at: u16,
    dictionaries: &Dictionaries,
    memory: &mut M,
    words: &mut Vec<Word>,
) -> Option<Bindings>
    requires sound { IsSound (M.heap memory.old) }
    requires dictionaries { AreValues (M.heap memory.old) dictionaries.now }
    requires held { IsHeld (M.heap memory.old) over }
    requires at { at ≤ over.length }
    requires empty { words.old.items ≡ [] }
    requires room { over.length ≤ vec_capacity words.old + at }
    ensures heap { M.heap memory.new ≡ M.heap memory.old }
    ensures grants { M.grants memory.new ≡ M.grants memory.old }
    ensures binds { BindsAll (M.heap memory.old) dictionaries.now over at result words.new.items }
    ensures capacity { vec_capacity words.new ≡ vec_capacity words.old }
{
    let mut changed = false;
    for place in at..over.length {
        let word = element(memory, over, place);
        let Some(bound) = bind_element(word, dictionaries, memory) else {
            return None;
        };
        words.push_reserved(word_left(word, bound));
        changed = changed_by(changed, bound);
        if let Some(inner) = inner_of(bound) {
            return Some(Bindings {
                inner: Some(inner),
                changed,
            });
        }
    }
    Some(Bindings {
        inner: None,
        changed,
    })
}
