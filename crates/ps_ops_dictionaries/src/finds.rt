//! The operators that look for a key (PLRM2, 8 'Operators': Dictionary).

ghost use Rattle.std.specs.Prelude.{◌≡◌, Some, Ok, true, false};
ghost use Rattle.ps_language.specs.Rows.{looking_row, naming_row};
ghost use Rattle.ps_language.specs.RowsDictionaries as rows;
ghost use Rattle.ps_stacks.specs.Tops.{first_two_of};
ghost use Rattle.ps_word.specs.Format.{content_in};
ghost use Rattle.ps_word.specs.Readers as readers;
ghost use Rattle.ps_ops_state.specs.Acts.{Acts, nothing_asked};
ghost use Rattle.ps_mem.specs.Shows.{IsReady};
ghost use Rattle.ps_ops_state.specs.Lent.{lent_of, IsGood, Lent};

use ps_dict::dictionaries::access;
use ps_language::errors::ErrorName;
use ps_mem::Memory;
use ps_ops_operands::Operands;
use ps_ops_operands::access::is_readable;
use ps_ops_operands::plain::boolean;
use ps_ops_state::breaks::Break;
use ps_ops_state::lent::{Attempt, Context, Runtime};
use ps_step_lookup::keys::{form_key, is_null, is_readable_key, read_key};
use ps_step_lookup::lookups::{find_in, look_up};
use ps_word::words::Word;

/// `D k known t`: whether a dictionary has a key; a string's name is formed.
///
/// Raises `stackunderflow`, `typecheck`, `invalidaccess`, and `limitcheck` of a name. Not made, by
/// `Memory`, where the growth for a name is refused.
pub fn known<M: Memory>(context: &mut Context, runtime: &mut Runtime<M>) -> Result<(), Break>
    requires good { IsGood (lent_of M.heap M.grants context.old runtime.old) }
    ensures acts { (attempt : Attempt) → Acts nothing_asked (naming_row rows.known_row) attempt
        result
        (lent_of M.heap M.grants context.old runtime.old)
        (lent_of M.heap M.grants context.new runtime.new) }
    ensures frames { context.new.frames ≡ context.old.frames }
{
    let Some((key, dictionary)) = context.operands.top_two() else {
        return Err(Break::Raises(ErrorName::StackUnderflow));
    };
    if is_null(key) {
        return Err(Break::Raises(ErrorName::TypeCheck));
    }
    let Some(address) = dictionary.as_dictionary() else {
        return Err(Break::Raises(ErrorName::TypeCheck));
    };
    if !is_readable_key(key) {
        return Err(Break::Raises(ErrorName::InvalidAccess));
    }
    if !is_readable(access(&mut runtime.memory, address)) {
        return Err(Break::Raises(ErrorName::InvalidAccess));
    }
    let sought = read_key(&mut runtime.memory, &runtime.shared.names, key);
    let found = find_in(&mut runtime.memory, address, sought.word()).is_some();
    match form_key(&mut runtime.shared.names, &sought) {
        Ok(()) => {
            context.operands.replace(2, boolean(found));
            Ok(())
        }
        Err(fault) => Err(fault),
    }
}

/// `D k get x` of a dictionary, given by its word and its address.
///
/// Raises `typecheck` of a null, `invalidaccess`, and `undefined` where the key is absent.
pub fn get_from_dictionary<M: Memory>(
    context: &mut Context,
    runtime: &mut Runtime<M>,
    key: Word,
    dictionary: Word,
    address: u32,
) -> Result<(), Break>
    requires operands { Some (key, dictionary) ≡ first_two_of context.old.operands }
    requires address { Some address ≡ readers.as_dictionary (content_in dictionary.0) }
    requires good { IsGood (lent_of M.heap M.grants context.old runtime.old) }
    ensures acts { (attempt : Attempt) → Acts nothing_asked (naming_row rows.get_row) attempt result
        (lent_of M.heap M.grants context.old runtime.old)
        (lent_of M.heap M.grants context.new runtime.new) }
    ensures frames { context.new.frames ≡ context.old.frames }
{
    if is_null(key) {
        return Err(Break::Raises(ErrorName::TypeCheck));
    }
    if !is_readable_key(key) {
        return Err(Break::Raises(ErrorName::InvalidAccess));
    }
    if !is_readable(access(&mut runtime.memory, address)) {
        return Err(Break::Raises(ErrorName::InvalidAccess));
    }
    let sought = read_key(&mut runtime.memory, &runtime.shared.names, key);
    match find_in(&mut runtime.memory, address, sought.word()) {
        Some(value) => {
            context.operands.replace(2, value);
            Ok(())
        }
        None => Err(Break::Raises(ErrorName::Undefined)),
    }
}

/// `D k get x` of a dictionary whose key is no string, where it raises no error. Else nothing has
/// changed, and the answer is no.
#[inline(never)]
pub fn get_value_quickly<M: Memory>(operands: &mut Operands, memory: &mut M) -> bool
    requires ready { IsReady (M.heap memory.old) operands.old }
    ensures heap { M.heap memory.new ≡ M.heap memory.old }
    ensures grants { M.grants memory.new ≡ M.grants memory.old }
    ensures same { result ≡ false → operands.new ≡ operands.old }
    ensures acts { result ≡ true → (l : Lent) (attempt : Attempt)
        → IsGood (record l { heap = M.heap memory.old; operands = operands.old })
        → Acts nothing_asked (naming_row rows.get_row) attempt (Ok tt)
        (record l { heap = M.heap memory.old; operands = operands.old })
        (record l { heap = M.heap memory.old; operands = operands.new }) }
{
    let Some((key, dictionary)) = operands.top_two() else {
        return false;
    };
    let Some(address) = dictionary.as_dictionary() else {
        return false;
    };
    if is_null(key) || key.as_text().is_some() {
        return false;
    }
    if !is_readable(access(memory, address)) {
        return false;
    }
    match find_in(memory, address, Some(key)) {
        Some(value) => {
            operands.replace(2, value);
            true
        }
        None => false,
    }
}

/// `k load x`: the value of a key in the topmost dictionary that has it.
///
/// Raises `stackunderflow`, `typecheck`, `invalidaccess`, and `undefined` where none has it.
pub fn load<M: Memory>(context: &mut Context, runtime: &mut Runtime<M>) -> Result<(), Break>
    requires good { IsGood (lent_of M.heap M.grants context.old runtime.old) }
    ensures acts { (attempt : Attempt) → Acts nothing_asked (looking_row rows.load_row) attempt
        result
        (lent_of M.heap M.grants context.old runtime.old)
        (lent_of M.heap M.grants context.new runtime.new) }
    ensures frames { context.new.frames ≡ context.old.frames }
{
    let Some(key) = context.operands.top() else {
        return Err(Break::Raises(ErrorName::StackUnderflow));
    };
    if is_null(key) {
        return Err(Break::Raises(ErrorName::TypeCheck));
    }
    if !is_readable_key(key) {
        return Err(Break::Raises(ErrorName::InvalidAccess));
    }
    let sought = read_key(&mut runtime.memory, &runtime.shared.names, key);
    match look_up(&mut runtime.memory, &context.dictionaries, sought.word()) {
        Ok(Some(found)) => {
            context.operands.replace(1, found.1);
            Ok(())
        }
        Ok(None) => Err(Break::Raises(ErrorName::Undefined)),
        Err(error) => Err(Break::Raises(error)),
    }
}

/// `k where D true`: the topmost dictionary that has a key, or `false`, for which a string's name
/// is formed.
///
/// Raises `stackunderflow`, `typecheck`, `invalidaccess`, `limitcheck` of a name, and
/// `stackoverflow`. Not made, by `Memory`, where the growth for a name is refused.
pub fn where_key<M: Memory>(context: &mut Context, runtime: &mut Runtime<M>) -> Result<(), Break>
    requires good { IsGood (lent_of M.heap M.grants context.old runtime.old) }
    ensures acts { (attempt : Attempt) → Acts nothing_asked (looking_row rows.where_row) attempt
        result
        (lent_of M.heap M.grants context.old runtime.old)
        (lent_of M.heap M.grants context.new runtime.new) }
    ensures frames { context.new.frames ≡ context.old.frames }
{
    let Some(key) = context.operands.top() else {
        return Err(Break::Raises(ErrorName::StackUnderflow));
    };
    if is_null(key) {
        return Err(Break::Raises(ErrorName::TypeCheck));
    }
    if !is_readable_key(key) {
        return Err(Break::Raises(ErrorName::InvalidAccess));
    }
    let sought = read_key(&mut runtime.memory, &runtime.shared.names, key);
    match look_up(&mut runtime.memory, &context.dictionaries, sought.word()) {
        Ok(Some(found)) => {
            if context.operands.is_full() {
                return Err(Break::Raises(ErrorName::StackOverflow));
            }
            context.operands.replace(1, found.0);
            context.operands.push_reserved(boolean(true));
            Ok(())
        }
        Ok(None) => match form_key(&mut runtime.shared.names, &sought) {
            Ok(()) => {
                context.operands.replace(1, boolean(false));
                Ok(())
            }
            Err(fault) => Err(fault),
        },
        Err(error) => Err(Break::Raises(error)),
    }
}
