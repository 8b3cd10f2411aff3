//! The operator that puts the pairs of one dictionary into another (PLRM2, 8 'copy').

ghost use Rattle.std.specs.Prelude.{◌≡◌, ◌≢◌, ◌<◌, ◌⊎◌, IsTrue, Some, true, OnOk, IfErr};
ghost use Rattle.ps_language.specs.Rows.{changing_row};
ghost use Rattle.ps_language.specs.RowsSequences as rows;
ghost use Rattle.ps_stacks.specs.Tops.{first_two_of};
ghost use Rattle.ps_word.specs.Format.{content_in};
ghost use Rattle.ps_word.specs.Readers as readers;
ghost use Rattle.ps_mem.specs.References.{StandsAs};
ghost use Rattle.ps_mem.specs.Shows.{IsSound};
ghost use Rattle.ps_dict.specs.Merges as merges;
ghost use Rattle.ps_dict.specs.Merges.{merge_plan_at};
ghost use Rattle.ps_ops_state.specs.Acts.{Acts};
ghost use Rattle.ps_ops_state.specs.Lent.{lent_of, IsGood};
ghost use Rattle.ps_ops_dictionaries.specs.Asks.{copy_asks};

use crate::puts::asked;
use ps_dict::copies::{Merge, MergePlan, count_merge, plan_merge, put_merged};
use ps_dict::dictionaries::{access, length};
use ps_dict::plans::CAPACITY_LIMIT;
use ps_language::errors::ErrorName;
use ps_language::kinds::Kind;
use ps_mem::Memory;
use ps_ops_operands::access::may_copy;
use ps_ops_operands::failure::NotMade;
use ps_ops_state::breaks::Break;
use ps_ops_state::lent::{Attempt, Context, Runtime};
use ps_word::words::Word;

/// Whether the pairs of one dictionary may be put into another. Raises `limitcheck` where they
/// would be too many, and `VMerror` in a refused step that would make a new body. They are counted
/// only where one of the two may come.
fn test_merge<M: Memory>(memory: &mut M, refused: bool, merge: Merge) -> Result<(), ErrorName>
    requires sound { IsSound (M.heap memory.old) }
    requires target { StandsAs (M.heap memory.old) Kind.Dictionary merge.to 4 }
    requires source { StandsAs (M.heap memory.old) Kind.Dictionary merge.from 4 }
    ensures heap { M.heap memory.new ≡ M.heap memory.old }
    ensures grants { M.grants memory.new ≡ M.grants memory.old }
    ensures possible { OnOk result
        (merge_plan_at (M.heap memory.old) merge.to merge.from ≢ MergePlan.Full) }
    ensures room { OnOk result (IsTrue refused
        → merges.words_of (merge_plan_at (M.heap memory.old) merge.to merge.from) ≡ 0) }
    ensures error { IfErr result (λ error.
        ((error ≡ ErrorName.LimitCheck)
        × (merge_plan_at (M.heap memory.old) merge.to merge.from ≡ MergePlan.Full))
        ⊎ ((error ≡ ErrorName.VmError)
        × (merge_plan_at (M.heap memory.old) merge.to merge.from ≢ MergePlan.Full)
        × (refused ≡ true)
        × (0 < merges.words_of (merge_plan_at (M.heap memory.old) merge.to merge.from)))) }
{
    if !refused && length(memory, merge.to) + length(memory, merge.from) <= CAPACITY_LIMIT {
        return Ok(());
    }
    let plan = count_merge(memory, merge);
    if matches!(plan, MergePlan::Full) {
        return Err(ErrorName::LimitCheck);
    }
    if refused && plan.words() > 0 {
        return Err(ErrorName::VmError);
    }
    Ok(())
}

/// `D E copy E`: the pairs of one dictionary put into another in order, given by their words and
/// addresses.
///
/// Raises `invalidaccess`, `limitcheck` where the pairs would be too many, and `VMerror` in a
/// refused step that would make a new body. Not made for want of room in which they are put
/// together, of records, or of room for the new body.
pub fn copy_dictionary<M: Memory>(
    context: &mut Context,
    runtime: &mut Runtime<M>,
    attempt: Attempt,
    operands: (Word, Word),
    to: u32,
    from: u32,
) -> Result<(), Break>
    requires operands { Some operands ≡ first_two_of context.old.operands }
    requires target { Some to ≡ readers.as_dictionary (content_in operands.0.0) }
    requires source { Some from ≡ readers.as_dictionary (content_in operands.1.0) }
    requires good { IsGood (lent_of M.heap M.grants context.old runtime.old) }
    ensures acts { Acts copy_asks (changing_row rows.copy_row) attempt result
        (lent_of M.heap M.grants context.old runtime.old)
        (lent_of M.heap M.grants context.new runtime.new) }
{
    let readable = access(&mut runtime.memory, from);
    let writable = access(&mut runtime.memory, to);
    if !may_copy(readable, writable) {
        return Err(Break::Raises(ErrorName::InvalidAccess));
    }
    let merge = Merge { to, from };
    if let Err(error) = test_merge(&mut runtime.memory, attempt.refused, merge) {
        return Err(Break::Raises(error));
    }
    let Ok(plan) = plan_merge(
        &mut runtime.memory,
        merge,
        &mut runtime.shared.scratch.words,
    ) else {
        return Err(Break::NotMade(NotMade::Memory));
    };
    match asked(
        &mut runtime.memory,
        attempt.slot,
        plan.records(),
        plan.words(),
    ) {
        Ok(()) => {
            put_merged(
                &mut runtime.memory,
                attempt.slot,
                merge,
                plan,
                runtime.shared.scratch.words.as_slice(),
            );
            runtime.shared.scratch.words.clear();
            context.operands.replace(2, operands.0);
            Ok(())
        }
        Err(reason) => {
            runtime.shared.scratch.words.clear();
            Err(Break::NotMade(reason))
        }
    }
}
