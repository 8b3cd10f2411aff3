//! A program can't see a flip: after it the memory of the mutator's part shows what it showed
//! before, the roots are the same values, and what they reach stands. What may be less is how much
//! is used.
//!
//! It is said twice. First of two heaps alone, of which one has the objects of the other at other
//! addresses, whatever moved them; then of every run of the collector's machine at its flip, which
//! is such a move. Of runs nothing is used but the clauses of `law`, and that no event changes the
//! size of a space.
//!
//! Why so:
//! - A memory and its collector are traits (`sides`) said of heaps alone, so roots, vault and
//!   workers know no seat and no table. Of events they see the list (`did`), and only a try to flip
//!   says what it adds: how many, and that none stores a field (`IsFlip`). The reason why a flip
//!   can't come is the collector's own to say (`answers`), and stands in the clauses of who calls.
//! - How often objects were moved is a number of the space (`Space.flips`), so that each call which
//!   leaves the space, as all of `Memory` do, is known to leave it.
//! - A flip is described for two heaps first, so that the description serves any collector that
//!   moves all that a moved object refers to. It costs two lists of clauses.
ghost use Rattle.ps_core_machine.specs.declared.events.Event.TheVariants.{CycleStore};
ghost use Rattle.ps_core_laws.specs.Runs.{Whenever};
ghost use Rattle.ps_core_laws.specs.Flips.{AtFlip, KeepsNumbers, KeepsReachable};
ghost use Rattle.ps_core_laws.specs.Flips.{RenamesWords, RenamesRoots, OpensLogs, GoesOn};
ghost use Rattle.ps_core_laws.specs.Moves.{IsMovedTo, OfMoves, KeepsObjects, KeepsRoom};
ghost use Rattle.ps_core_laws.specs.Moves.{KeepsWords, KeepsSound, KeepsShown};
ghost use Rattle.ps_core_laws.specs.Moves.{Forwarding, HaveReplicas, moved_words};
ghost use Rattle.ps_core_laws.specs.Reached.{AreReached, MovesReached};
ghost use Rattle.ps_mem.specs.Heap.{Heap};
ghost use Rattle.ps_word.specs.declared.words.Word.{Word};
ghost use Rattle.std.specs.Prelude.{List};

use crate::law;

/// The laws of memories whose objects were moved, by any collector that moves with an object all
/// that it refers to.
pub fn moving_laws()
    // An object that was moved has its kind, its birth number and its number of fields.
    ensures objects { OfMoves KeepsObjects }
    // No more words stand than did.
    ensures room { OfMoves KeepsRoom }
    // Words that refer to what was moved are the same values.
    ensures words { OfMoves KeepsWords }
    // A sound memory stays sound, the indexes of its dictionaries too.
    ensures sound { OfMoves KeepsSound }
    // A memory goes on showing each store that it showed, under the same names.
    ensures shown { OfMoves KeepsShown }
    // Where just what the roots reach was moved, nothing stands but what the renamed roots reach.
    ensures reached { (h now : Heap) (forward : Forwarding) (roots : List Word)
        → IsMovedTo h now forward → HaveReplicas forward roots → MovesReached h forward roots
        → AreReached now (moved_words forward roots) }
{}

/// The laws of the flip: of the memory of the mutator's part before it and after it.
pub fn flip_laws()
    // The flip moves the memory to the replicas, and nothing else stands after it.
    ensures moves { Whenever CycleStore (AtFlip IsMovedTo) }
    // Where its replica is, an object stands of the same kind, birth number and number of fields.
    ensures objects { Whenever CycleStore (AtFlip KeepsObjects) }
    // The next birth number and the space stay; what is used is the words of what stands, and no
    // more than was.
    ensures numbers { Whenever CycleStore KeepsNumbers }
    // What the roots reach has a replica, so that nothing of it is lost.
    ensures reachable { Whenever CycleStore KeepsReachable }
    // Words that refer to nothing, or to what has a replica, are renamed to words that are the same
    // values.
    ensures words { Whenever CycleStore RenamesWords }
    // The roots that the flip leaves are the same values as those that it was handed.
    ensures roots { Whenever CycleStore RenamesRoots }
    // A sound memory stays sound, the indexes of its dictionaries too.
    ensures sound { Whenever CycleStore (AtFlip KeepsSound) }
    // A memory goes on showing each store that it showed, under the same names.
    ensures shown { Whenever CycleStore (AtFlip KeepsShown) }
    // No cycle is open then and no log is closed; what was put stays, and the space that the
    // replicas leave is granted.
    ensures grants { Whenever CycleStore OpensLogs }
    // The mutator's part is that of a run again, so that all laws of such a part hold of it.
    ensures goes_on { Whenever CycleStore GoesOn }
{
    law();
    moving_laws();
}
