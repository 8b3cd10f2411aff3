//! The cycles of a collector over the memory of all contexts, which is lent to whoever has both.

ghost use Rattle.std.specs.Prelude.{◌≡◌, ◌≤◌, true, false, Option, vec_capacity};
ghost use Rattle.ps_language.specs.World.{World};
ghost use Rattle.ps_core_laws.specs.MemoryLaws.{AfterOpen};
ghost use Rattle.ps_core_laws.specs.Collected.{IsQuiet, flipped_space, may_open, one_more_if, stopped};
ghost use Rattle.ps_core_laws.specs.Tries.{sides_of};
ghost use Rattle.ps_ctx_table.specs.Desks.{IsSteady, IsWorld};
ghost use Rattle.ps_ctx.specs.declared.worlds.Calling.{Calling as ACalling};
ghost use Rattle.ps_ctx.specs.Calls.{over_of};
ghost use Rattle.ps_ctx.specs.Held.{held};
ghost use Rattle.ps_gc_roots.specs.Moved.{KeepsWorlds, UsesLive};
ghost use Rattle.ps_gc_roots.specs.Roots.{roots_in};
ghost use Rattle.ps_gc_roots.specs.Tries.{IsFlipOf};
ghost use Rattle.ps_gc_roots.specs.declared.reading.TheConstants.{ROOT_LIMIT};

use crate::reading::{ROOT_LIMIT, read_roots};
use crate::writing::write_roots;
use ps_core_laws::Unready;
use ps_core_laws::sides::{Collects, LoggedMemory};
use ps_ctx_table::contexts::Contexts;
use ps_ops_state::lent::Runtime;
use ps_word::words::Word;
use std::alloc::{AllocError, Global};

/// A list with room for the roots of all contexts.
#[derive(Drop)]
pub struct RootList {
    pub(crate) words: Vec<Word>,
    ghost room: { ROOT_LIMIT ≤ vec_capacity words },
}

impl RootList {
    /// An empty list. `AllocError`: its room can't be had.
    pub fn new(alloc: Global) -> Result<RootList, AllocError> {
        let words = Vec::with_capacity(alloc, ROOT_LIMIT)?;
        Ok(RootList { words })
    }
}

/// Opens a cycle exactly where none is open and cycles are left. False: the memory is as before.
pub fn open_cycle<M: LoggedMemory>(runtime: &mut Runtime<M>, contexts: &Contexts) -> bool
    requires steady { IsSteady (over_of M.heap M.grants runtime.old contexts.now) }
    ensures answer { result
        ≡ may_open (M.grants runtime.old.memory).cycle_open (M.heap runtime.old.memory).space.flips }
    ensures heap { M.heap runtime.new.memory ≡ M.heap runtime.old.memory }
    ensures opened { result ≡ true → AfterOpen (M.grants runtime.old.memory)
        (M.grants runtime.new.memory) }
    ensures same { result ≡ false → M.grants runtime.new.memory ≡ M.grants runtime.old.memory }
    ensures shared { runtime.new.shared ≡ runtime.old.shared }
    ensures kept { (calling : Option ACalling) → KeepsWorlds
        (held (over_of M.heap M.grants runtime.old contexts.now) calling)
        (held (over_of M.heap M.grants runtime.new contexts.now) calling) }
{
    runtime.memory.open_cycle()
}

/// Hands the roots of all contexts over to the collector.
pub fn hand_over<M: LoggedMemory, C: Collects<M>>(
    runtime: &mut Runtime<M>,
    collector: &mut C,
    contexts: &Contexts,
    roots: &mut RootList,
)
    requires steady { IsSteady (over_of M.heap M.grants runtime.old contexts.now) }
    ensures heap { M.heap runtime.new.memory ≡ M.heap runtime.old.memory }
    ensures grants { M.grants runtime.new.memory ≡ record (M.grants runtime.old.memory)
        { fresh = λ a. false } }
    ensures shared { runtime.new.shared ≡ runtime.old.shared }
    ensures kept { (calling : Option ACalling) → KeepsWorlds
        (held (over_of M.heap M.grants runtime.old contexts.now) calling)
        (held (over_of M.heap M.grants runtime.new contexts.now) calling) }
{
    read_roots(contexts, &mut roots.words);
    hand_read(runtime, collector, contexts, roots);
}

/// Hands the roots of all contexts over to the collector, as a list has them that was read before.
pub fn hand_read<M: LoggedMemory, C: Collects<M>>(
    runtime: &mut Runtime<M>,
    collector: &mut C,
    contexts: &Contexts,
    roots: &RootList,
)
    requires steady { IsSteady (over_of M.heap M.grants runtime.old contexts.now) }
    requires read { roots.now.words.items ≡ roots_in contexts.now.table }
    ensures heap { M.heap runtime.new.memory ≡ M.heap runtime.old.memory }
    ensures grants { M.grants runtime.new.memory ≡ record (M.grants runtime.old.memory)
        { fresh = λ a. false } }
    ensures shared { runtime.new.shared ≡ runtime.old.shared }
    ensures kept { (calling : Option ACalling) → KeepsWorlds
        (held (over_of M.heap M.grants runtime.old contexts.now) calling)
        (held (over_of M.heap M.grants runtime.new contexts.now) calling) }
{
    collector.hand_over(&mut runtime.memory, roots.words.as_slice());
}

/// Ends the open cycle by the flip, where all is ready for it: the objects move, and the roots of
/// all contexts are renamed. What contexts and memory stand for is the same. `Unready` says why
/// that can't come yet: nothing has moved, and the list has the roots of all contexts as they were
/// read.
pub fn try_flip<M: LoggedMemory, C: Collects<M>>(
    runtime: &mut Runtime<M>,
    collector: &mut C,
    contexts: &mut Contexts,
    roots: &mut RootList,
) -> Result<(), Unready>
    requires steady { IsSteady (over_of M.heap M.grants runtime.old contexts.old) }
    requires open { (M.grants runtime.old.memory).cycle_open ≡ true }
    ensures answer { C.answers collector.old runtime.old.memory (roots_in contexts.old.table)
        result }
    ensures flips { IsFlipOf result
        (sides_of M.heap M.grants M.did C.did runtime.old.memory collector.old)
        (sides_of M.heap M.grants M.did C.did runtime.new.memory collector.new)
        contexts.old.table contexts.new.table roots.new.words.items }
    ensures kept { (calling : Option ACalling) → KeepsWorlds
        (held (over_of M.heap M.grants runtime.old contexts.old) calling)
        (held (over_of M.heap M.grants runtime.new contexts.new) calling) }
    ensures shared { runtime.new.shared ≡ runtime.old.shared }
    ensures faulted { contexts.new.has_faulted ≡ contexts.old.has_faulted }
{
    read_roots(contexts, &mut roots.words);
    match collector.try_flip(&mut runtime.memory, roots.words.as_mut_slice()) {
        Err(why) => Err(why),
        Ok(()) => {
            write_roots(contexts, roots.words.as_slice());
            Ok(())
        }
    }
}

/// Ends the open cycle, whatever is left to do: the objects move, and the roots of all contexts are
/// renamed. What contexts and memory stand for is the same. False: no cycle is open, and nothing
/// has moved.
pub fn end_cycle<M: LoggedMemory, C: Collects<M>>(
    runtime: &mut Runtime<M>,
    collector: &mut C,
    contexts: &mut Contexts,
    roots: &mut RootList,
) -> bool
    requires steady { IsSteady (over_of M.heap M.grants runtime.old contexts.old) }
    ensures kept { (calling : Option ACalling) → KeepsWorlds
        (held (over_of M.heap M.grants runtime.old contexts.old) calling)
        (held (over_of M.heap M.grants runtime.new contexts.new) calling) }
    ensures ended { result ≡ (M.grants runtime.old.memory).cycle_open }
    ensures space { (M.heap runtime.new.memory).space
        ≡ flipped_space (one_more_if result) (M.heap runtime.old.memory).space }
    ensures quiet { IsQuiet (M.grants runtime.new.memory) }
    ensures heap { result ≡ false → M.heap runtime.new.memory ≡ M.heap runtime.old.memory }
    ensures grants { result ≡ false → M.grants runtime.new.memory ≡ M.grants runtime.old.memory }
    ensures table { result ≡ false → contexts.new.table ≡ contexts.old.table }
    ensures shared { runtime.new.shared ≡ runtime.old.shared }
    ensures faulted { contexts.new.has_faulted ≡ contexts.old.has_faulted }
{
    if !runtime.memory.is_open() {
        return false;
    }
    read_roots(contexts, &mut roots.words);
    end_read(runtime, collector, contexts, roots);
    true
}

/// Ends the open cycle, whatever is left to do, by the roots of all contexts as a list has them that
/// was read before.
pub fn end_read<M: LoggedMemory, C: Collects<M>>(
    runtime: &mut Runtime<M>,
    collector: &mut C,
    contexts: &mut Contexts,
    roots: &mut RootList,
)
    requires steady { IsSteady (over_of M.heap M.grants runtime.old contexts.old) }
    requires open { (M.grants runtime.old.memory).cycle_open ≡ true }
    requires read { roots.old.words.items ≡ roots_in contexts.old.table }
    ensures kept { (calling : Option ACalling) → KeepsWorlds
        (held (over_of M.heap M.grants runtime.old contexts.old) calling)
        (held (over_of M.heap M.grants runtime.new contexts.new) calling) }
    ensures space { (M.heap runtime.new.memory).space
        ≡ flipped_space (one_more_if true) (M.heap runtime.old.memory).space }
    ensures quiet { IsQuiet (M.grants runtime.new.memory) }
    ensures shared { runtime.new.shared ≡ runtime.old.shared }
    ensures faulted { contexts.new.has_faulted ≡ contexts.old.has_faulted }
{
    collector.end_cycle(&mut runtime.memory, roots.words.as_mut_slice());
    write_roots(contexts, roots.words.as_slice());
}

/// A whole cycle, where none is open and cycles are left: just what the roots of all contexts reach
/// is moved, so what is used then is what lives in the world that they are at. What contexts and
/// memory stand for is the same. False: nothing has moved.
pub fn whole_cycle<M: LoggedMemory, C: Collects<M>>(
    runtime: &mut Runtime<M>,
    collector: &mut C,
    contexts: &mut Contexts,
    roots: &mut RootList,
) -> bool
    requires steady { IsSteady (over_of M.heap M.grants runtime.old contexts.old) }
    ensures kept { (calling : Option ACalling) → KeepsWorlds
        (held (over_of M.heap M.grants runtime.old contexts.old) calling)
        (held (over_of M.heap M.grants runtime.new contexts.new) calling) }
    ensures answer { result
        ≡ may_open (M.grants runtime.old.memory).cycle_open (M.heap runtime.old.memory).space.flips }
    ensures lives { result ≡ true → (w : World)
        → IsWorld (over_of M.heap M.grants runtime.old contexts.old) w
        → UsesLive (M.heap runtime.new.memory) w }
    ensures space { (M.heap runtime.new.memory).space
        ≡ flipped_space (one_more_if result) (M.heap runtime.old.memory).space }
    ensures quiet { result ≡ true → IsQuiet (M.grants runtime.new.memory) }
    ensures heap { result ≡ false → M.heap runtime.new.memory ≡ M.heap runtime.old.memory }
    ensures grants { result ≡ false → M.grants runtime.new.memory ≡ M.grants runtime.old.memory }
    ensures table { result ≡ false → contexts.new.table ≡ contexts.old.table }
    ensures shared { runtime.new.shared ≡ runtime.old.shared }
    ensures faulted { contexts.new.has_faulted ≡ contexts.old.has_faulted }
{
    if runtime.memory.is_open() {
        return false;
    }
    read_roots(contexts, &mut roots.words);
    if !collector.whole_cycle(&mut runtime.memory, roots.words.as_mut_slice()) {
        return false;
    }
    write_roots(contexts, roots.words.as_slice());
    true
}

/// Ends the open cycle, if there is one, and makes a whole one more, if cycles are left: what is
/// used then is what lives. None is open then.
pub fn stop_all<M: LoggedMemory, C: Collects<M>>(
    runtime: &mut Runtime<M>,
    collector: &mut C,
    contexts: &mut Contexts,
    roots: &mut RootList,
)
    requires steady { IsSteady (over_of M.heap M.grants runtime.old contexts.old) }
    ensures kept { (calling : Option ACalling) → KeepsWorlds
        (held (over_of M.heap M.grants runtime.old contexts.old) calling)
        (held (over_of M.heap M.grants runtime.new contexts.new) calling) }
    ensures space { (M.heap runtime.new.memory).space
        ≡ flipped_space (stopped (M.grants runtime.old.memory).cycle_open)
        (M.heap runtime.old.memory).space }
    ensures lives { may_open false (one_more_if (M.grants runtime.old.memory).cycle_open
        (M.heap runtime.old.memory).space.flips) ≡ true → (w : World)
        → IsWorld (over_of M.heap M.grants runtime.old contexts.old) w
        → UsesLive (M.heap runtime.new.memory) w }
    ensures quiet { IsQuiet (M.grants runtime.new.memory) }
    ensures shared { runtime.new.shared ≡ runtime.old.shared }
    ensures faulted { contexts.new.has_faulted ≡ contexts.old.has_faulted }
{
    end_cycle(runtime, collector, contexts, roots);
    whole_cycle(runtime, collector, contexts, roots);
}
