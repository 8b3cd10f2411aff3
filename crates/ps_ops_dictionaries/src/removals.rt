//! The operator that takes a key out of a dictionary (PLRM2, 8 'Operators': Dictionary).

ghost use Rattle.std.specs.Prelude.{◌≡◌, ◌<◌, ◌≤◌, length};
ghost use Rattle.ps_language.specs.Rows.{naming_row};
ghost use Rattle.ps_language.specs.RowsDictionaries as rows;
ghost use Rattle.ps_language.specs.Value.{Store};
ghost use Rattle.ps_mem.specs.Heap.{birth_at};
ghost use Rattle.ps_mem.specs.References.{StandsAs};
ghost use Rattle.ps_mem.specs.Shows.{IsValue, IsWithin};
ghost use Rattle.ps_ops_state.specs.Acts.{Acts};
ghost use Rattle.ps_ops_state.specs.Lent.{lent_of, IsGood, IsShown};
ghost use Rattle.ps_ops_dictionaries.specs.Asks.{undef_asks};
ghost use Rattle.ps_ops_dictionaries.specs.Removals.{removing, removing_asks};

use crate::puts::asked;
use ps_dict::dictionaries::{access, position};
use ps_dict::removals::{removal_records, remove};
use ps_language::errors::ErrorName;
use ps_language::kinds::Kind;
use ps_mem::{Memory, Slot};
use ps_ops_operands::access::is_writable;
use ps_ops_operands::failure::NotMade;
use ps_ops_state::breaks::Break;
use ps_ops_state::lent::{Attempt, Context, Runtime};
use ps_step_lookup::keys::{form_key, is_null, is_readable_key, read_key};
use ps_word::words::Word;

/// Takes a key that was met out of the dictionary at an address; an absent one changes nothing. Not
/// made for want of records, or of room for the index.
fn remove_key<M: Memory>(
    context: &mut Context,
    runtime: &mut Runtime<M>,
    slot: Slot,
    address: u32,
    key: Word,
) -> Result<(), Break>
    requires good { IsGood (lent_of M.heap M.grants context.old runtime.old) }
    requires known { StandsAs (M.heap runtime.old.memory) Kind.Dictionary address 4 }
    requires key { IsValue (M.heap runtime.old.memory) key }
    requires operands { 2 ≤ length context.old.operands }
    ensures acts { (attempt : Attempt) → attempt.slot ≡ slot
        → ((store : Store) → IsShown
        (lent_of M.heap M.grants context.old runtime.old) store
        → IsWithin (birth_at (M.heap runtime.old.memory)) runtime.old.shared.names store key)
        → Acts (removing_asks (birth_at (M.heap runtime.old.memory)) address key)
        (removing (birth_at (M.heap runtime.old.memory)) address key) attempt result
        (lent_of M.heap M.grants context.old runtime.old)
        (lent_of M.heap M.grants context.new runtime.new) }
{
    let Some(place) = position(&mut runtime.memory, address, key) else {
        context.operands.discard(2);
        return Ok(());
    };
    let records = removal_records(&mut runtime.memory, address, place);
    if let Err(reason) = asked(&mut runtime.memory, slot, records, 0) {
        return Err(Break::NotMade(reason));
    }
    let words = &mut runtime.shared.scratch.words;
    match remove(&mut runtime.memory, slot, address, place, words) {
        Ok(()) => {
            context.operands.discard(2);
            Ok(())
        }
        Err(_) => Err(Break::NotMade(NotMade::Memory)),
    }
}

/// `D k undef`: takes a key out of a dictionary; an absent one changes nothing. A string's name is
/// formed.
///
/// Raises `stackunderflow`, `typecheck`, `invalidaccess`, and `limitcheck` of a name. Not made for
/// want of memory for a name, of records, or of room for the index.
pub fn undef<M: Memory>(
    context: &mut Context,
    runtime: &mut Runtime<M>,
    attempt: Attempt,
) -> Result<(), Break>
    requires good { IsGood (lent_of M.heap M.grants context.old runtime.old) }
    ensures acts { Acts undef_asks (naming_row rows.undef_row) attempt result
        (lent_of M.heap M.grants context.old runtime.old)
        (lent_of M.heap M.grants context.new runtime.new) }
{
    let Some((key, dictionary)) = context.operands.top_two() else {
        return Err(Break::Raises(ErrorName::StackUnderflow));
    };
    if is_null(key) {
        return Err(Break::Raises(ErrorName::TypeCheck));
    }
    let Some(address) = dictionary.as_dictionary() else {
        return Err(Break::Raises(ErrorName::TypeCheck));
    };
    if !is_readable_key(key) {
        return Err(Break::Raises(ErrorName::InvalidAccess));
    }
    if !is_writable(access(&mut runtime.memory, address)) {
        return Err(Break::Raises(ErrorName::InvalidAccess));
    }
    let read = read_key(&mut runtime.memory, &runtime.shared.names, key);
    match read.word() {
        Some(word) => remove_key(context, runtime, attempt.slot, address, word),
        None => {
            form_key(&mut runtime.shared.names, &read)?;
            context.operands.discard(2);
            Ok(())
        }
    }
}
