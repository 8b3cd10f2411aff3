//! The operators that put a key with its value into a dictionary (PLRM2, 8 'Operators':
//! Dictionary).

ghost use Rattle.std.specs.Prelude.{◌≡◌, ◌≢◌, ◌<◌, ℕ, List, Some, IfOk, IfSome, AllPairs};
ghost use Rattle.ps_language.specs.Dictionaries as language;
ghost use Rattle.ps_language.specs.Rows.{looking_row, naming_row};
ghost use Rattle.ps_language.specs.RowsDictionaries as rows;
ghost use Rattle.ps_language.specs.Value.{Store, Value};
ghost use Rattle.ps_stacks.specs.Tops.{first_three_of};
ghost use Rattle.ps_word.specs.Format.{content_in};
ghost use Rattle.ps_word.specs.Readers as readers;
ghost use Rattle.ps_mem.specs.Heap.{birth_at};
ghost use Rattle.ps_mem.specs.Shows.{AreValues, IsSound, IsValue, Shows};
ghost use Rattle.ps_ops_operands.specs.Changes.{values_in};
ghost use Rattle.ps_ops_state.specs.Acts.{Acts};
ghost use Rattle.ps_ops_state.specs.Lent.{lent_of, IsGood};
ghost use Rattle.ps_step_lookup.specs.Lookups.{IsSought};
ghost use Rattle.ps_ops_dictionaries.specs.Asks.{def_asks, put_asks, store_asks};
ghost use Rattle.ps_ops_dictionaries.specs.Places.{IsPlaced};

use crate::puts::{Entry, put_entry, put_key};
use ps_language::errors::ErrorName;
use ps_mem::Memory;
use ps_ops_state::breaks::Break;
use ps_ops_state::lent::{Attempt, Context, Dictionaries, Runtime};
use ps_step_lookup::keys::{is_null, is_readable_key, read_key};
use ps_step_lookup::lookups::look_up;
use ps_word::words::Word;

/// `k x def`: into the current dictionary; a string's name is formed.
///
/// Raises `stackunderflow`, `typecheck` of a null, `invalidaccess` where the key may not be read or
/// the dictionary not written, `limitcheck` of a name and where the pairs would be too many, and
/// `VMerror` in a refused step. Not made for want of memory for a name, of records or of room.
#[inline(always)]
pub fn def<M: Memory>(
    context: &mut Context,
    runtime: &mut Runtime<M>,
    attempt: Attempt,
) -> Result<(), Break>
    requires good { IsGood (lent_of M.heap M.grants context.old runtime.old) }
    ensures acts { Acts def_asks (looking_row rows.def_row) attempt result
        (lent_of M.heap M.grants context.old runtime.old)
        (lent_of M.heap M.grants context.new runtime.new) }
    ensures frames { context.new.frames ≡ context.old.frames }
{
    let Some((value, key)) = context.operands.top_two() else {
        return Err(Break::Raises(ErrorName::StackUnderflow));
    };
    if is_null(key) {
        return Err(Break::Raises(ErrorName::TypeCheck));
    }
    let Some(dictionary) = context.dictionaries.top() else {
        return Err(Break::Raises(ErrorName::TypeCheck));
    };
    let Some(address) = dictionary.as_dictionary() else {
        return Err(Break::Raises(ErrorName::TypeCheck));
    };
    if !is_readable_key(key) {
        return Err(Break::Raises(ErrorName::InvalidAccess));
    }
    let entry = Entry {
        address,
        key,
        value,
        operands: 2,
    };
    put_entry(context, runtime, attempt, entry)
}

/// The same by a call.
#[inline(never)]
pub fn def_apart<M: Memory>(
    context: &mut Context,
    runtime: &mut Runtime<M>,
    attempt: Attempt,
) -> Result<(), Break>
    requires good { IsGood (lent_of M.heap M.grants context.old runtime.old) }
    ensures acts { Acts def_asks (looking_row rows.def_row) attempt result
        (lent_of M.heap M.grants context.old runtime.old)
        (lent_of M.heap M.grants context.new runtime.new) }
    ensures frames { context.new.frames ≡ context.old.frames }
{
    def(context, runtime, attempt)
}

/// `D k x put` into a dictionary, given by its word and its address.
///
/// Raises and is not made as `def`.
pub fn put_into_dictionary<M: Memory>(
    context: &mut Context,
    runtime: &mut Runtime<M>,
    attempt: Attempt,
    operands: (Word, Word, Word),
    address: u32,
) -> Result<(), Break>
    requires operands { Some operands ≡ first_three_of context.old.operands }
    requires address { Some address ≡ readers.as_dictionary (content_in operands.2.0) }
    requires good { IsGood (lent_of M.heap M.grants context.old runtime.old) }
    ensures acts { Acts put_asks (naming_row rows.put_row) attempt result
        (lent_of M.heap M.grants context.old runtime.old)
        (lent_of M.heap M.grants context.new runtime.new) }
    ensures frames { context.new.frames ≡ context.old.frames }
{
    let (value, key, _) = operands;
    if is_null(key) {
        return Err(Break::Raises(ErrorName::TypeCheck));
    }
    if !is_readable_key(key) {
        return Err(Break::Raises(ErrorName::InvalidAccess));
    }
    let entry = Entry {
        address,
        key,
        value,
        operands: 3,
    };
    put_entry(context, runtime, attempt, entry)
}

/// Where `store` puts a key: the dictionary where it was found, else the current one. Raises
/// `invalidaccess` as `look_up`.
fn storing_place<M: Memory>(
    memory: &mut M,
    dictionaries: &Dictionaries,
    key: Option<Word>,
) -> Result<Option<Word>, ErrorName>
    requires sound { IsSound (M.heap memory.old) }
    requires dictionaries { AreValues (M.heap memory.old) dictionaries.now }
    requires key { IfSome key (IsValue (M.heap memory.old)) }
    ensures heap { M.heap memory.new ≡ M.heap memory.old }
    ensures grants { M.grants memory.new ≡ M.grants memory.old }
    ensures held { IfOk result (λ place. IfSome place (IsValue (M.heap memory.old))) }
    ensures value { (names : List (List ℕ)) (s : Store) (k : Value)
        → Shows (M.heap memory.old) names s → AllPairs (λ first later. first ≢ later) names
        → IsSought (birth_at (M.heap memory.old)) names s key k
        → IsPlaced (birth_at (M.heap memory.old)) names
        (language.look_up s (values_in (M.heap memory.old) names dictionaries.now) k)
        (values_in (M.heap memory.old) names dictionaries.now) result }
{
    match look_up(memory, dictionaries, key) {
        Ok(Some(found)) => Ok(Some(found.0)),
        Ok(None) => Ok(dictionaries.top()),
        Err(error) => Err(error),
    }
}

/// `k x store`: into the topmost dictionary that has the key, else into the current one; a string's
/// name is formed.
///
/// Raises and is not made as `def`, and raises `invalidaccess` where a dictionary that can't be
/// read is come to first.
pub fn store<M: Memory>(
    context: &mut Context,
    runtime: &mut Runtime<M>,
    attempt: Attempt,
) -> Result<(), Break>
    requires good { IsGood (lent_of M.heap M.grants context.old runtime.old) }
    ensures acts { Acts store_asks (looking_row rows.store_row) attempt result
        (lent_of M.heap M.grants context.old runtime.old)
        (lent_of M.heap M.grants context.new runtime.new) }
    ensures frames { context.new.frames ≡ context.old.frames }
{
    let Some((value, key)) = context.operands.top_two() else {
        return Err(Break::Raises(ErrorName::StackUnderflow));
    };
    if is_null(key) {
        return Err(Break::Raises(ErrorName::TypeCheck));
    }
    if !is_readable_key(key) {
        return Err(Break::Raises(ErrorName::InvalidAccess));
    }
    let read = read_key(&mut runtime.memory, &runtime.shared.names, key);
    match storing_place(&mut runtime.memory, &context.dictionaries, read.word()) {
        Ok(Some(dictionary)) => {
            let Some(address) = dictionary.as_dictionary() else {
                return Err(Break::Raises(ErrorName::TypeCheck));
            };
            let entry = Entry {
                address,
                key,
                value,
                operands: 2,
            };
            put_key(context, runtime, attempt, entry, &read)
        }
        Ok(None) => Err(Break::Raises(ErrorName::TypeCheck)),
        Err(error) => Err(Break::Raises(error)),
    }
}
