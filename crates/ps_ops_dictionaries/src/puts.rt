//! The operators that put a key with its value into a dictionary (PLRM2, 8 'Operators':
//! Dictionary).

ghost use Rattle.std.specs.Prelude.{◌≡◌, ◌≢◌, ◌<◌, ◌≤◌, ℕ, IsTrue, List, None, length, OnOk, IfErr};
ghost use Rattle.std.specs.Prelude.{true, false};
ghost use Rattle.ps_language.specs.Limits.{capacity_limit};
ghost use Rattle.ps_language.specs.Value.{Store};
ghost use Rattle.ps_mem.specs.Heap.{birth_at};
ghost use Rattle.ps_mem.specs.References.{StandsAs};
ghost use Rattle.ps_mem.specs.Shows.{AreWithin, IsValue, IsWithin};
ghost use Rattle.ps_dict.specs.Puts as puts;
ghost use Rattle.ps_dict.specs.Puts.{plan_at};
ghost use Rattle.ps_ops_operands.specs.Changes.{KeepsLogsWithin};
ghost use Rattle.ps_ops_state.specs.Acts.{Acts};
ghost use Rattle.ps_ops_state.specs.Lent.{lent_of, IsGood, IsShown};
ghost use Rattle.ps_step_lookup.specs.Keys.{IsKeyOf, word_in};
ghost use Rattle.ps_ops_dictionaries.specs.Puts.{IsLack, IsRefusal, putting, putting_asks};
ghost use Rattle.ps_ops_dictionaries.specs.Puts.{putting_key, putting_key_asks};
ghost use Rattle.ps_ops_dictionaries.specs.Puts.{putting_where_writable};

use ps_dict::changes::put;
use ps_dict::dictionaries::{access, length};
use ps_dict::plans::{CAPACITY_LIMIT, PutPlan, plan_put};
use ps_language::errors::ErrorName;
use ps_language::kinds::Kind;
use ps_mem::{Memory, Slot};
use ps_names::Names;
use ps_ops_operands::access::is_writable;
use ps_ops_operands::failure::NotMade;
use ps_ops_operands::permits::{MOST_RECORDS, granted, permitted};
use ps_ops_operands::readers::string_of;
use ps_ops_state::breaks::Break;
use ps_ops_state::lent::{Attempt, Context, Runtime};
use ps_step_lookup::keys::{Key, form_key, name_word, read_key};
use ps_word::words::Word;

/// A pair that is put into the dictionary at an address, and how many operands go.
#[derive(Clone, Copy)]
pub(crate) struct Entry {
    pub address: u32,
    pub key: Word,
    pub value: Word,
    pub operands: usize,
}

/// Asks for so many records and words of a body.
#[inline(always)]
pub(crate) fn asked<M: Memory>(
    memory: &mut M,
    slot: Slot,
    records: u32,
    words: u32,
) -> Result<(), NotMade>
    ensures heap { M.heap memory.new ≡ M.heap memory.old }
    ensures logs { KeepsLogsWithin 0 (M.grants memory.old) (M.grants memory.new) slot }
    ensures granted { OnOk result ((records ≤ (M.grants memory.new).records slot)
        × (words ≤ (M.grants memory.new).words)) }
    ensures open { OnOk result (1 ≤ records → (M.grants memory.new).closed slot ≡ false) }
    ensures reason { IfErr result
        (IsLack records words slot (M.heap memory.old) (M.grants memory.old)
        (M.grants memory.new)) }
{
    if let Err(reason) = permitted(memory, slot, records) {
        return Err(reason);
    }
    if words == 0 {
        return Ok(());
    }
    granted(memory, words, 0)
}

/// Puts a pair as it was planned. Not made for want of records, or of room for a new body.
#[inline(always)]
fn put_planned<M: Memory>(
    context: &mut Context,
    runtime: &mut Runtime<M>,
    slot: Slot,
    plan: PutPlan,
    entry: Entry,
) -> Result<(), Break>
    requires good { IsGood (lent_of M.heap M.grants context.old runtime.old) }
    requires plan { plan ≡ plan_at (M.heap runtime.old.memory) entry.address entry.key }
    requires possible { plan ≢ PutPlan.Full }
    requires limit { (capacity : ℕ) → plan ≡ PutPlan.Grow capacity → capacity ≤ capacity_limit }
    requires known { StandsAs (M.heap runtime.old.memory) Kind.Dictionary entry.address 4 }
    requires key { IsValue (M.heap runtime.old.memory) entry.key }
    requires value { IsValue (M.heap runtime.old.memory) entry.value }
    requires operands { entry.operands ≤ length context.old.operands }
    ensures acts { (attempt : Attempt) → attempt.slot ≡ slot
        → (IsTrue attempt.refused → puts.words_of plan ≡ 0)
        → ((store : Store) → IsShown
        (lent_of M.heap M.grants context.old runtime.old) store
        → IsWithin (birth_at (M.heap runtime.old.memory)) runtime.old.shared.names store entry.key
        × IsWithin (birth_at (M.heap runtime.old.memory)) runtime.old.shared.names store
        entry.value)
        → Acts (putting_asks (birth_at (M.heap runtime.old.memory)) entry.address entry.key)
        (putting (birth_at (M.heap runtime.old.memory)) entry.address entry.key entry.value
        entry.operands)
        attempt result
        (lent_of M.heap M.grants context.old runtime.old)
        (lent_of M.heap M.grants context.new runtime.new) }
    ensures unmade { IfErr result (λ break. (reason : NotMade) × (break ≡ Break.NotMade reason)) }
    ensures frames { context.new.frames ≡ context.old.frames }
{
    match asked(&mut runtime.memory, slot, plan.records(), plan.words()) {
        Ok(()) => {
            let memory = &mut runtime.memory;
            put(memory, slot, entry.address, plan, entry.key, entry.value);
            context.operands.discard(entry.operands);
            Ok(())
        }
        Err(reason) => Err(Break::NotMade(reason)),
    }
}

/// Whether a step is refused the room of a new body.
#[inline]
fn is_refused(attempt: Attempt, plan: PutPlan) -> bool
    requires limit { (capacity : ℕ) → plan ≡ PutPlan.Grow capacity → capacity ≤ capacity_limit }
    ensures yes { IsTrue result → (attempt.refused ≡ true) × (0 < puts.words_of plan) }
    ensures no { result ≡ false → IsTrue attempt.refused → puts.words_of plan ≡ 0 }
{
    attempt.refused && plan.words() > 0
}

/// Puts a pair whose key is new, as it was planned. Raises `VMerror` in a refused step that would
/// make a new body. Not made as `put_planned`. It is a call, so that the replacing of a value makes
/// no room for what this needs.
#[inline(never)]
fn put_new<M: Memory>(
    context: &mut Context,
    runtime: &mut Runtime<M>,
    attempt: Attempt,
    plan: PutPlan,
    entry: Entry,
) -> Result<(), Break>
    requires good { IsGood (lent_of M.heap M.grants context.old runtime.old) }
    requires plan { plan ≡ plan_at (M.heap runtime.old.memory) entry.address entry.key }
    requires possible { plan ≢ PutPlan.Full }
    requires limit { (capacity : ℕ) → plan ≡ PutPlan.Grow capacity → capacity ≤ capacity_limit }
    requires known { StandsAs (M.heap runtime.old.memory) Kind.Dictionary entry.address 4 }
    requires key { IsValue (M.heap runtime.old.memory) entry.key }
    requires value { IsValue (M.heap runtime.old.memory) entry.value }
    requires operands { entry.operands ≤ length context.old.operands }
    ensures acts { ((store : Store) → IsShown
        (lent_of M.heap M.grants context.old runtime.old) store
        → IsWithin (birth_at (M.heap runtime.old.memory)) runtime.old.shared.names store entry.key
        × IsWithin (birth_at (M.heap runtime.old.memory)) runtime.old.shared.names store
        entry.value)
        → Acts (putting_asks (birth_at (M.heap runtime.old.memory)) entry.address entry.key)
        (putting (birth_at (M.heap runtime.old.memory)) entry.address entry.key entry.value
        entry.operands)
        attempt result
        (lent_of M.heap M.grants context.old runtime.old)
        (lent_of M.heap M.grants context.new runtime.new) }
    ensures frames { context.new.frames ≡ context.old.frames }
{
    let slot = attempt.slot;
    if is_refused(attempt, plan) {
        return Err(Break::Raises(ErrorName::VmError));
    }
    put_planned(context, runtime, slot, plan, entry)
}

/// Puts a pair. Raises `limitcheck` where the pairs would be too many, and `VMerror` in a refused
/// step that would make a new body. Not made as `put_planned`.
#[inline(always)]
fn put_met<M: Memory>(
    context: &mut Context,
    runtime: &mut Runtime<M>,
    attempt: Attempt,
    entry: Entry,
) -> Result<(), Break>
    requires good { IsGood (lent_of M.heap M.grants context.old runtime.old) }
    requires known { StandsAs (M.heap runtime.old.memory) Kind.Dictionary entry.address 4 }
    requires key { IsValue (M.heap runtime.old.memory) entry.key }
    requires value { IsValue (M.heap runtime.old.memory) entry.value }
    requires operands { entry.operands ≤ length context.old.operands }
    ensures acts { ((store : Store) → IsShown
        (lent_of M.heap M.grants context.old runtime.old) store
        → IsWithin (birth_at (M.heap runtime.old.memory)) runtime.old.shared.names store entry.key
        × IsWithin (birth_at (M.heap runtime.old.memory)) runtime.old.shared.names store
        entry.value)
        → Acts (putting_asks (birth_at (M.heap runtime.old.memory)) entry.address entry.key)
        (putting (birth_at (M.heap runtime.old.memory)) entry.address entry.key entry.value
        entry.operands)
        attempt result
        (lent_of M.heap M.grants context.old runtime.old)
        (lent_of M.heap M.grants context.new runtime.new) }
    ensures frames { context.new.frames ≡ context.old.frames }
{
    let slot = attempt.slot;
    let plan = plan_put(&mut runtime.memory, entry.address, entry.key);
    match plan {
        PutPlan::Replace(_) => put_planned(context, runtime, slot, plan, entry),
        PutPlan::Full => Err(Break::Raises(ErrorName::LimitCheck)),
        // A copy, so that the entry itself needs no address.
        _ => put_new(context, runtime, attempt, plan, Entry { ..entry }),
    }
}

/// Raises `VMerror` in a refused step that formed a name, once its note has its records; else the
/// names are cut to so many, and the step is not made.
pub(crate) fn refuse<M: Memory>(
    names: &mut Names,
    memory: &mut M,
    slot: Slot,
    count: usize,
) -> Break
    ensures heap { M.heap memory.new ≡ M.heap memory.old }
    ensures logs { KeepsLogsWithin 0 (M.grants memory.old) (M.grants memory.new) slot }
    ensures refused { IsRefusal slot (M.heap memory.old) names.old names.new count
        (M.grants memory.old) (M.grants memory.new) result }
{
    match asked(memory, slot, MOST_RECORDS, 0) {
        Ok(()) => Break::Raises(ErrorName::VmError),
        Err(reason) => {
            names.truncate(count);
            Break::NotMade(reason)
        }
    }
}

/// Puts a pair whose key is a string of which no name was met; its name is formed.
///
/// Raises `limitcheck`, and `VMerror` as `put_met`. Not made as `put_planned`, or for want of
/// memory for the name; it is not formed then.
#[inline(never)]
fn put_unmet<M: Memory>(
    context: &mut Context,
    runtime: &mut Runtime<M>,
    attempt: Attempt,
    entry: Entry,
    read: &Key,
) -> Result<(), Break>
    requires good { IsGood (lent_of M.heap M.grants context.old runtime.old) }
    requires known { StandsAs (M.heap runtime.old.memory) Kind.Dictionary entry.address 4 }
    requires key { IsKeyOf (M.heap runtime.old.memory) runtime.old.shared.names entry.key read.now }
    requires unmet { word_in read.now ≡ None }
    requires value { IsValue (M.heap runtime.old.memory) entry.value }
    requires operands { entry.operands ≤ length context.old.operands }
    requires inside { (names : List (List ℕ)) (store : Store)
        → AreWithin (M.heap runtime.old.memory) names store context.old.operands
        → IsWithin (birth_at (M.heap runtime.old.memory)) names store entry.key
        × IsWithin (birth_at (M.heap runtime.old.memory)) names store entry.value }
    ensures acts { Acts (putting_key_asks (birth_at (M.heap runtime.old.memory)) entry.address
        entry.key)
        (putting_key (birth_at (M.heap runtime.old.memory)) entry.address entry.key entry.value
        entry.operands) attempt result
        (lent_of M.heap M.grants context.old runtime.old)
        (lent_of M.heap M.grants context.new runtime.new) }
    ensures frames { context.new.frames ≡ context.old.frames }
{
    let slot = attempt.slot;
    if length(&mut runtime.memory, entry.address) >= CAPACITY_LIMIT {
        return Err(Break::Raises(ErrorName::LimitCheck));
    }
    let count = runtime.shared.names.len();
    form_key(&mut runtime.shared.names, read)?;
    let key = name_word(count);
    let named = Entry { key, ..entry };
    let plan = plan_put(&mut runtime.memory, entry.address, key);
    if is_refused(attempt, plan) {
        return Err(refuse(&mut runtime.shared.names, &mut runtime.memory, slot, count));
    }
    match put_planned(context, runtime, slot, plan, named) {
        Ok(()) => Ok(()),
        Err(fault) => {
            runtime.shared.names.truncate(count);
            Err(fault)
        }
    }
}

/// Puts a pair whose key was read.
///
/// Raises `invalidaccess` where the dictionary may not be written, `limitcheck` of a name and where
/// the pairs would be too many, and `VMerror` in a refused step that would make a new body. Not
/// made for want of memory for a name, of records, or of room for a new body.
#[inline(always)]
pub(crate) fn put_key<M: Memory>(
    context: &mut Context,
    runtime: &mut Runtime<M>,
    attempt: Attempt,
    entry: Entry,
    read: &Key,
) -> Result<(), Break>
    requires good { IsGood (lent_of M.heap M.grants context.old runtime.old) }
    requires known { StandsAs (M.heap runtime.old.memory) Kind.Dictionary entry.address 4 }
    requires key { IsKeyOf (M.heap runtime.old.memory) runtime.old.shared.names entry.key read.now }
    requires value { IsValue (M.heap runtime.old.memory) entry.value }
    requires operands { entry.operands ≤ length context.old.operands }
    requires inside { (names : List (List ℕ)) (store : Store)
        → AreWithin (M.heap runtime.old.memory) names store context.old.operands
        → IsWithin (birth_at (M.heap runtime.old.memory)) names store entry.key
        × IsWithin (birth_at (M.heap runtime.old.memory)) names store entry.value }
    ensures acts { Acts (putting_key_asks (birth_at (M.heap runtime.old.memory)) entry.address
        entry.key)
        (putting_where_writable (birth_at (M.heap runtime.old.memory)) entry.address entry.key
        entry.value
        entry.operands) attempt result
        (lent_of M.heap M.grants context.old runtime.old)
        (lent_of M.heap M.grants context.new runtime.new) }
    ensures frames { context.new.frames ≡ context.old.frames }
{
    if !is_writable(access(&mut runtime.memory, entry.address)) {
        return Err(Break::Raises(ErrorName::InvalidAccess));
    }
    match read.word() {
        Some(key) => put_met(context, runtime, attempt, Entry { key, ..entry }),
        None => put_unmet(context, runtime, attempt, entry, read),
    }
}

/// Puts a pair whose key is no string.
///
/// Raises `invalidaccess` where the dictionary may not be written, `limitcheck` and `VMerror` as
/// `put_met`. Not made as `put_planned`.
#[inline(always)]
fn put_word<M: Memory>(
    context: &mut Context,
    runtime: &mut Runtime<M>,
    attempt: Attempt,
    entry: Entry,
) -> Result<(), Break>
    requires good { IsGood (lent_of M.heap M.grants context.old runtime.old) }
    requires known { StandsAs (M.heap runtime.old.memory) Kind.Dictionary entry.address 4 }
    requires key { IsKeyOf (M.heap runtime.old.memory) runtime.old.shared.names entry.key
        (Key.Met entry.key) }
    requires value { IsValue (M.heap runtime.old.memory) entry.value }
    requires operands { entry.operands ≤ length context.old.operands }
    requires inside { (names : List (List ℕ)) (store : Store)
        → AreWithin (M.heap runtime.old.memory) names store context.old.operands
        → IsWithin (birth_at (M.heap runtime.old.memory)) names store entry.key
        × IsWithin (birth_at (M.heap runtime.old.memory)) names store entry.value }
    ensures acts { Acts (putting_key_asks (birth_at (M.heap runtime.old.memory)) entry.address
        entry.key)
        (putting_where_writable (birth_at (M.heap runtime.old.memory)) entry.address entry.key
        entry.value
        entry.operands) attempt result
        (lent_of M.heap M.grants context.old runtime.old)
        (lent_of M.heap M.grants context.new runtime.new) }
    ensures frames { context.new.frames ≡ context.old.frames }
{
    if is_writable(access(&mut runtime.memory, entry.address)) {
        put_met(context, runtime, attempt, entry)
    } else {
        Err(Break::Raises(ErrorName::InvalidAccess))
    }
}

/// Puts a pair whose key is read first, by a call.
///
/// Raises and is not made as `put_key`.
#[inline(never)]
fn put_read<M: Memory>(
    context: &mut Context,
    runtime: &mut Runtime<M>,
    attempt: Attempt,
    entry: Entry,
) -> Result<(), Break>
    requires good { IsGood (lent_of M.heap M.grants context.old runtime.old) }
    requires known { StandsAs (M.heap runtime.old.memory) Kind.Dictionary entry.address 4 }
    requires key { IsValue (M.heap runtime.old.memory) entry.key }
    requires value { IsValue (M.heap runtime.old.memory) entry.value }
    requires operands { entry.operands ≤ length context.old.operands }
    requires inside { (names : List (List ℕ)) (store : Store)
        → AreWithin (M.heap runtime.old.memory) names store context.old.operands
        → IsWithin (birth_at (M.heap runtime.old.memory)) names store entry.key
        × IsWithin (birth_at (M.heap runtime.old.memory)) names store entry.value }
    ensures acts { Acts (putting_key_asks (birth_at (M.heap runtime.old.memory)) entry.address
        entry.key)
        (putting_where_writable (birth_at (M.heap runtime.old.memory)) entry.address entry.key
        entry.value
        entry.operands) attempt result
        (lent_of M.heap M.grants context.old runtime.old)
        (lent_of M.heap M.grants context.new runtime.new) }
    ensures frames { context.new.frames ≡ context.old.frames }
{
    let read = read_key(&mut runtime.memory, &runtime.shared.names, entry.key);
    put_key(context, runtime, attempt, entry, &read)
}

/// Puts a pair whose key is read first: a string stands for the name of its characters.
///
/// Raises and is not made as `put_key`.
#[inline(always)]
pub(crate) fn put_entry<M: Memory>(
    context: &mut Context,
    runtime: &mut Runtime<M>,
    attempt: Attempt,
    entry: Entry,
) -> Result<(), Break>
    requires good { IsGood (lent_of M.heap M.grants context.old runtime.old) }
    requires known { StandsAs (M.heap runtime.old.memory) Kind.Dictionary entry.address 4 }
    requires key { IsValue (M.heap runtime.old.memory) entry.key }
    requires value { IsValue (M.heap runtime.old.memory) entry.value }
    requires operands { entry.operands ≤ length context.old.operands }
    requires inside { (names : List (List ℕ)) (store : Store)
        → AreWithin (M.heap runtime.old.memory) names store context.old.operands
        → IsWithin (birth_at (M.heap runtime.old.memory)) names store entry.key
        × IsWithin (birth_at (M.heap runtime.old.memory)) names store entry.value }
    ensures acts { Acts (putting_key_asks (birth_at (M.heap runtime.old.memory)) entry.address
        entry.key)
        (putting_where_writable (birth_at (M.heap runtime.old.memory)) entry.address entry.key
        entry.value
        entry.operands) attempt result
        (lent_of M.heap M.grants context.old runtime.old)
        (lent_of M.heap M.grants context.new runtime.new) }
    ensures frames { context.new.frames ≡ context.old.frames }
{
    match string_of(entry.key) {
        None => put_word(context, runtime, attempt, entry),
        Some(_) => put_read(context, runtime, attempt, Entry { ..entry }),
    }
}
