//! Access that is taken away (PLRM2, 8 'readonly', 'noaccess').

ghost use Rattle.std.specs.Prelude.{◌≡◌, ℕ, ◌<◌, List, OnOk, OnErr, IfErr};
ghost use Rattle.ps_language.specs.Access.{dictionary_at, with_dictionary};
ghost use Rattle.ps_language.specs.Rows.{changing_row};
ghost use Rattle.ps_language.specs.RowsTypes as rows;
ghost use Rattle.ps_language.specs.Value.{Store};
ghost use Rattle.ps_mem.specs.Heap.{birth_at};
ghost use Rattle.ps_mem.specs.Keeps.{Keeps};
ghost use Rattle.ps_mem.specs.References.{StandsAs};
ghost use Rattle.ps_mem.specs.Shows.{IsSound, Shows};
ghost use Rattle.ps_ops_operands.specs.Changes.{IsRecordReason, KeepsLogsWithin, spent};
ghost use Rattle.ps_ops_state.specs.Acts.{Acts};
ghost use Rattle.ps_ops_state.specs.Lent.{lent_of, IsGood};
ghost use Rattle.ps_ops_sequences.specs.Asks.{reduce_asks};

use ps_dict::changes::set_access;
use ps_dict::dictionaries::access;
use ps_language::access::Access;
use ps_language::errors::ErrorName;
use ps_language::kinds::Kind;
use ps_mem::{Memory, Slot};
use ps_ops_operands::failure::NotMade;
use ps_ops_operands::permits::permitted;
use ps_ops_state::breaks::Break;
use ps_ops_state::lent::{Attempt, Context, Runtime};
use ps_ops_types::attributes::reduces_to;

/// Gives a dictionary another access, with one record. Not made where the log takes none; nothing
/// has changed then.
fn reduce_dictionary<M: Memory>(
    memory: &mut M,
    slot: Slot,
    address: u32,
    reduced: Access,
) -> Result<(), NotMade>
    requires sound { IsSound (M.heap memory.old) }
    requires known { StandsAs (M.heap memory.old) Kind.Dictionary address 4 }
    ensures sound { IsSound (M.heap memory.new) }
    ensures keeps { Keeps (M.heap memory.old) (M.heap memory.new) }
    ensures shows { (names : List (List ℕ)) (s : Store) → Shows (M.heap memory.old) names s
        → OnOk result (Shows (M.heap memory.new) names
        (with_dictionary s (birth_at (M.heap memory.old) address)
        (record (dictionary_at s (birth_at (M.heap memory.old) address)) { access = reduced }))) }
    ensures same { OnErr result (M.heap memory.new ≡ M.heap memory.old) }
    ensures spends { KeepsLogsWithin (spent result 1) (M.grants memory.old) (M.grants memory.new)
        slot }
    ensures reason { IfErr result (λ reason. IsRecordReason reason 1 slot (M.grants memory.old)
        (M.grants memory.new)) }
{
    permitted(memory, slot, 1)?;
    set_access(memory, slot, address, reduced);
    Ok(())
}

/// An array or a string with less access, or a dictionary whose object has less. Raises
/// `stackunderflow`, `typecheck`, and `invalidaccess` where less is permitted already. Not made
/// where a dictionary's access is stored and the log takes no record.
fn reduce<M: Memory>(
    context: &mut Context,
    runtime: &mut Runtime<M>,
    attempt: Attempt,
    reduced: Access,
) -> Result<(), Break>
    requires good { IsGood (lent_of M.heap M.grants context.old runtime.old) }
    ensures { Acts reduce_asks (changing_row (rows.reduce_row reduced)) attempt result
        (lent_of M.heap M.grants context.old runtime.old)
        (lent_of M.heap M.grants context.new runtime.new) }
{
    let Some(word) = context.operands.top() else {
        return Err(Break::Raises(ErrorName::StackUnderflow));
    };
    if let Some(part) = word.as_part() {
        if !reduces_to(part.access, reduced) {
            return Err(Break::Raises(ErrorName::InvalidAccess));
        }
        context.operands.replace(1, word.with_access(reduced));
        return Ok(());
    }
    let Some(address) = word.as_dictionary() else {
        return Err(Break::Raises(ErrorName::TypeCheck));
    };
    if !reduces_to(access(&mut runtime.memory, address), reduced) {
        return Err(Break::Raises(ErrorName::InvalidAccess));
    }
    match reduce_dictionary(&mut runtime.memory, attempt.slot, address, reduced) {
        Ok(()) => Ok(()),
        Err(reason) => Err(Break::NotMade(reason)),
    }
}

/// `X readonly X`: an array or a string that can't be written, or a dictionary whose object can't
/// be. Raises `stackunderflow`, `typecheck`, and `invalidaccess` where less is permitted already.
/// Not made where a dictionary's access is stored and the log takes no record.
pub fn readonly<M: Memory>(
    context: &mut Context,
    runtime: &mut Runtime<M>,
    attempt: Attempt,
) -> Result<(), Break>
    requires good { IsGood (lent_of M.heap M.grants context.old runtime.old) }
    ensures { Acts reduce_asks (changing_row rows.readonly_row) attempt result
        (lent_of M.heap M.grants context.old runtime.old)
        (lent_of M.heap M.grants context.new runtime.new) }
{
    reduce(context, runtime, attempt, Access::ReadOnly)
}

/// `X noaccess X`: an array or a string of which nothing can be done, or a dictionary whose object
/// is so. Raises `stackunderflow` and `typecheck`. Not made as `readonly`.
pub fn noaccess<M: Memory>(
    context: &mut Context,
    runtime: &mut Runtime<M>,
    attempt: Attempt,
) -> Result<(), Break>
    requires good { IsGood (lent_of M.heap M.grants context.old runtime.old) }
    ensures { Acts reduce_asks (changing_row rows.noaccess_row) attempt result
        (lent_of M.heap M.grants context.old runtime.old)
        (lent_of M.heap M.grants context.new runtime.new) }
{
    reduce(context, runtime, attempt, Access::NoAccess)
}
