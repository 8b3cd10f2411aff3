//! Locks and conditions in a memory, and the operators that make them (PLRM2, 7.1, 8 'Operators':
//! Multiple Execution Contexts).

ghost use Rattle.std.specs.Prelude.{◌≡◌, ◌<◌, ◌≤◌, ◌^◌, ◌++◌, ◌∷◌, [], ℕ, List};
ghost use Rattle.ps_language.specs.Objects.{reference_to};
ghost use Rattle.ps_language.specs.Owners.{owner_of, with_owner};
ghost use Rattle.ps_language.specs.Readers.{literal};
ghost use Rattle.ps_language.specs.Value.{Store};
ghost use Rattle.ps_mem.specs.Heap.{Heap, AfterNew, AfterStore, birth_at};
ghost use Rattle.ps_mem.specs.Keeps.{Extends, Keeps};
ghost use Rattle.ps_mem.specs.Meaning.{value_of};
ghost use Rattle.ps_mem.specs.References.{StandsAs};
ghost use Rattle.ps_mem.specs.Shows.{IsReady, IsSound, IsValue, IsWithin, Shows};
ghost use Rattle.ps_ops_operands.specs.Changes.{KeepsLogsWithin, Makes};
ghost use Rattle.ps_ops_state.specs.Acts.{Acts, nothing_asked};
ghost use Rattle.ps_ops_state.specs.Lent.{lent_of, IsGood};
ghost use Rattle.ps_ctx_operators.specs.Rows as rows;
ghost use Rattle.ps_ctx_operators.specs.Singles as singles;

use crate::identifiers::identifier_of;
use ps_language::errors::ErrorName;
use ps_language::kinds::Kind;
use ps_mem::{Memory, Slot};
use ps_ops_operands::Operands;
use ps_ops_operands::failure::Failure;
use ps_ops_operands::permits::granted;
use ps_ops_state::breaks::{Break, tried};
use ps_ops_state::lent::{Attempt, Context, Runtime};
use ps_word::values::Content;
use ps_word::words::Word;

// ---- the owner of a lock

/// The owner of a lock, by its identifier, which is at least 1; 0 where the lock is free. The
/// memory is only read.
pub fn owner<M: Memory>(memory: &mut M, lock: u32) -> u32
    requires sound { IsSound (M.heap memory.old) }
    requires known { StandsAs (M.heap memory.old) Kind.Lock lock 1 }
    ensures heap { M.heap memory.new ≡ M.heap memory.old }
    ensures grants { M.grants memory.new ≡ M.grants memory.old }
    ensures below { result < 2 ^ 31 }
    ensures value { (names : List (List ℕ)) (s : Store) → Shows (M.heap memory.old) names s
        → owner_of s (birth_at (M.heap memory.old) lock) ≡ singles.owner_by result }
{
    match memory.load(lock, 0).as_integer() {
        Some(number) => identifier_of(number),
        None => 0,
    }
}

/// Gives a lock to a context, or frees it where the identifier is 0, with one record in a cycle.
pub fn set_owner<M: Memory>(memory: &mut M, slot: Slot, lock: u32, owner: u32)
    requires granted { 1 ≤ (M.grants memory.old).records slot }
    requires sound { IsSound (M.heap memory.old) }
    requires known { StandsAs (M.heap memory.old) Kind.Lock lock 1 }
    requires owner { owner < 2 ^ 31 }
    ensures sound { IsSound (M.heap memory.new) }
    ensures keeps { Keeps (M.heap memory.old) (M.heap memory.new) }
    ensures births { birth_at (M.heap memory.new) ≡ birth_at (M.heap memory.old) }
    ensures grants { AfterStore (M.grants memory.old) (M.grants memory.new) slot }
    ensures shows { (names : List (List ℕ)) (s : Store) → Shows (M.heap memory.old) names s
        → Shows (M.heap memory.new) names
        (with_owner s (birth_at (M.heap memory.old) lock) (singles.owner_by owner)) }
{
    memory.store(slot, lock, 0, &[Word::integer(owner as i32)]);
}

// ---- new locks and conditions

/// An object of one field.
#[derive(Clone, Copy, Debug, PartialEq, Eq)]
pub enum Single {
    /// Free, as it is new.
    Lock,
    Condition,
}

/// The literal reference to one.
fn single_word(single: Single, address: u32) -> Word
    requires { address < 2 ^ 24 }
    ensures value { (births : ℕ → ℕ) (names : List (List ℕ)) → value_of births names result
        ≡ literal (reference_to (singles.object_of single) (births address)) }
    ensures held { (h : Heap) → StandsAs h (singles.kind_of single) address 1
        → IsValue h result }
    ensures within { (births : ℕ → ℕ) (names : List (List ℕ)) (store : Store)
        → IsWithin births names store result }
{
    match single {
        Single::Lock => Word::literal(Content::Lock(address)),
        Single::Condition => Word::literal(Content::Condition(address)),
    }
}

/// A new lock, which is free: 3 words.
fn make_lock<M: Memory>(memory: &mut M) -> u32
    requires words { 3 ≤ (M.grants memory.old).words }
    requires births { 1 ≤ (M.grants memory.old).births }
    requires sound { IsSound (M.heap memory.old) }
    ensures address { result < 2 ^ 24 }
    ensures known { StandsAs (M.heap memory.new) Kind.Lock result 1 }
    ensures sound { IsSound (M.heap memory.new) }
    ensures extends { Extends (M.heap memory.old) (M.heap memory.new) }
    ensures birth { birth_at (M.heap memory.new) result ≡ (M.heap memory.old).next }
    ensures grants { AfterNew (M.grants memory.old) (M.grants memory.new) result 3 1 }
    ensures shows { (names : List (List ℕ)) (s : Store) → Shows (M.heap memory.old) names s
        → Shows (M.heap memory.new) names (s ++ singles.object_of Single.Lock ∷ []) }
{
    let address = memory.alloc(Kind::Lock, 1);
    memory.fill(address, 0, Word::integer(0));
    address
}

/// A new condition: 3 words.
fn make_condition<M: Memory>(memory: &mut M) -> u32
    requires words { 3 ≤ (M.grants memory.old).words }
    requires births { 1 ≤ (M.grants memory.old).births }
    requires sound { IsSound (M.heap memory.old) }
    ensures address { result < 2 ^ 24 }
    ensures known { StandsAs (M.heap memory.new) Kind.Condition result 1 }
    ensures sound { IsSound (M.heap memory.new) }
    ensures extends { Extends (M.heap memory.old) (M.heap memory.new) }
    ensures birth { birth_at (M.heap memory.new) result ≡ (M.heap memory.old).next }
    ensures grants { AfterNew (M.grants memory.old) (M.grants memory.new) result 3 1 }
    ensures shows { (names : List (List ℕ)) (s : Store) → Shows (M.heap memory.old) names s
        → Shows (M.heap memory.new) names (s ++ singles.object_of Single.Condition ∷ []) }
{
    memory.alloc(Kind::Condition, 1)
}

/// A new object of one field: 3 words.
fn make_single<M: Memory>(memory: &mut M, single: Single) -> u32
    requires words { 3 ≤ (M.grants memory.old).words }
    requires births { 1 ≤ (M.grants memory.old).births }
    requires sound { IsSound (M.heap memory.old) }
    ensures address { result < 2 ^ 24 }
    ensures known { StandsAs (M.heap memory.new) (singles.kind_of single) result 1 }
    ensures sound { IsSound (M.heap memory.new) }
    ensures extends { Extends (M.heap memory.old) (M.heap memory.new) }
    ensures birth { birth_at (M.heap memory.new) result ≡ (M.heap memory.old).next }
    ensures grants { AfterNew (M.grants memory.old) (M.grants memory.new) result 3 1 }
    ensures shows { (names : List (List ℕ)) (s : Store) → Shows (M.heap memory.old) names s
        → Shows (M.heap memory.new) names (s ++ singles.object_of single ∷ []) }
{
    match single {
        Single::Lock => make_lock(memory),
        Single::Condition => make_condition(memory),
    }
}

/// A new object of one field is pushed. Raises `stackoverflow`, and `VMerror` in a refused step.
/// Not made where there is no room.
fn push_single<M: Memory>(
    single: Single,
    operands: &mut Operands,
    memory: &mut M,
    slot: Slot,
    refused: bool,
) -> Result<(), Failure>
    requires ready { IsReady (M.heap memory.old) operands.old }
    ensures does { Makes (rows.new_part (singles.object_of single)) refused result
        (M.heap memory.old) (M.heap memory.new) operands.old operands.new }
    ensures spends { KeepsLogsWithin 0 (M.grants memory.old) (M.grants memory.new) slot }
    ensures ready { IsReady (M.heap memory.new) operands.new }
    ensures keeps { Keeps (M.heap memory.old) (M.heap memory.new) }
{
    if operands.is_full() {
        return Err(Failure::Error(ErrorName::StackOverflow));
    }
    if refused {
        return Err(Failure::Error(ErrorName::VmError));
    }
    if let Err(reason) = granted(memory, 3, 1) {
        return Err(Failure::NotMade(reason));
    }
    let address = make_single(memory, single);
    operands.push_reserved(single_word(single, address));
    Ok(())
}

/// `lock L`: a new lock, which is free. Raises `stackoverflow`, and `VMerror` in a refused step.
/// `NeedSpace`: its 3 words or its birth number have no room. `Memory`: a growth was refused.
pub fn new_lock<M: Memory>(
    context: &mut Context,
    runtime: &mut Runtime<M>,
    attempt: Attempt,
) -> Result<(), Break>
    requires good { IsGood (lent_of M.heap M.grants context.old runtime.old) }
    ensures acts { Acts nothing_asked (rows.new_caller (singles.object_of Single.Lock)) attempt
        result
        (lent_of M.heap M.grants context.old runtime.old)
        (lent_of M.heap M.grants context.new runtime.new) }
{
    tried(push_single(
        Single::Lock,
        &mut context.operands,
        &mut runtime.memory,
        attempt.slot,
        attempt.refused,
    ))
}

/// `condition C`: a new condition. Raises `stackoverflow`, and `VMerror` in a refused step.
/// `NeedSpace`: its 3 words or its birth number have no room. `Memory`: a growth was refused.
pub fn new_condition<M: Memory>(
    context: &mut Context,
    runtime: &mut Runtime<M>,
    attempt: Attempt,
) -> Result<(), Break>
    requires good { IsGood (lent_of M.heap M.grants context.old runtime.old) }
    ensures acts { Acts nothing_asked (rows.new_caller (singles.object_of Single.Condition)) attempt
        result (lent_of M.heap M.grants context.old runtime.old)
        (lent_of M.heap M.grants context.new runtime.new) }
{
    tried(push_single(
        Single::Condition,
        &mut context.operands,
        &mut runtime.memory,
        attempt.slot,
        attempt.refused,
    ))
}
