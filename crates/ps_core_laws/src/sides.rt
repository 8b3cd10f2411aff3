//! A memory and its collector, cycle by cycle (Nettles and O'Toole, PLDI 1993): whoever makes steps
//! has the memory, and is lent the collector for the calls that both must make.

ghost use Rattle.std.specs.Prelude.{◌≡◌, ◌<◌, ℕ, true, false, List, Result};
ghost use Rattle.ps_word.specs.declared.words.Word.{Word};
ghost use Rattle.ps_record.specs.Format.{slots};
ghost use Rattle.ps_mem.specs.Shows.{AreValues};
ghost use Rattle.ps_mem.specs.Stands.{IsAddressed};
ghost use Rattle.ps_core_laws.specs.MemoryLaws.{AfterClose, AfterOpen};
ghost use Rattle.ps_core_machine.specs.declared.events.Event.{Event};
ghost use Rattle.ps_core_laws.specs.declared.tries.Unready.{Unready};
ghost use Rattle.ps_core_laws.specs.Collected.{IsCollected, IsExact, IsQuiet, may_open};
ghost use Rattle.ps_core_laws.specs.Tries.{IsFlip, sides_of};

use crate::collected::Counts;
use crate::{Closing, Unready};
use ps_mem::{Memory, Slot};
use ps_word::words::Word;

/// A memory whose stores are logged while a cycle is open. A collector copies it meanwhile, and no
/// call of this trait speaks of it: only in calls that are lent both do objects move (`Collects`).
pub trait LoggedMemory: Memory {
    /// The events of the collector's machine that its seat has made, the newest first. Only a try to
    /// flip tells which it adds.
    ghost did: { Self → List Event };

    /// Whether a cycle is open: where none is, no log is closed.
    fn is_open(&self) -> bool
        ensures answer { result ≡ (Self.grants self.now).cycle_open }
        ensures quiet { result ≡ false → IsQuiet (Self.grants self.now) };

    /// Opens a cycle exactly where none is open and cycles are left: no log is closed then, and no
    /// object may be filled. False: nothing has changed.
    fn open_cycle(&mut self) -> bool
        ensures answer { result
            ≡ may_open (Self.grants self.old).cycle_open (Self.heap self.old).space.flips }
        ensures heap { Self.heap self.new ≡ Self.heap self.old }
        ensures opened { result ≡ true → AfterOpen (Self.grants self.old) (Self.grants self.new) }
        ensures same { result ≡ false → Self.grants self.new ≡ Self.grants self.old };

    /// In an open cycle: closes the log of a slot until the cycle ends. It gets a close, and no
    /// object may be filled then; a closed log stays as it is. `LogFull`: its ring has no free
    /// place by the head just loaded, and nothing has changed.
    fn close_log(&mut self, slot: Slot) -> Closing
        requires open { (Self.grants self.old).cycle_open ≡ true }
        ensures heap { Self.heap self.new ≡ Self.heap self.old }
        ensures already { (Self.grants self.old).closed slot ≡ true
            → (result ≡ Closing.Closed) × (Self.grants self.new ≡ Self.grants self.old) }
        ensures closed { (Self.grants self.old).closed slot ≡ false → result ≡ Closing.Closed
            → AfterClose (Self.grants self.old) (Self.grants self.new) slot }
        ensures full { result ≡ Closing.LogFull → ((Self.grants self.old).records slot ≡ 0)
            × (Self.grants self.new ≡ Self.grants self.old) }
        ensures within { slot < slots };

    /// How many cycles were flipped, and how many records were taken, as the words say in this
    /// call. More records may be granted then, since the heads are seen.
    fn counts(&mut self) -> Counts
        ensures heap { Self.heap self.new ≡ Self.heap self.old }
        ensures grants { Self.grants self.new ≡ record (Self.grants self.old)
            { records = (Self.grants self.new).records } }
        ensures flipped { result.flips ≡ (Self.heap self.old).space.flips };

    /// It never grows.
    ghost bounded: { (m : Self) → (Self.heap m).space.grows ≡ false };

    /// What stands has an address of 24 bits.
    ghost addressed: { (m : Self) → IsAddressed (Self.heap m) };
}

/// A collector of memories of one kind, in the calls that are lent the memory. What it does between
/// them leaves the memory as it is seen (`Works`), so no clause speaks of it.
pub trait Collects<M: LoggedMemory> {
    /// The events that its seat has made, the newest first; of one that is inside the memory, those
    /// that it has there.
    ghost did: { Self → M → List Event };

    /// Of a try to flip with these roots, that it comes to this: that it flips, or why it can't yet.
    ghost answers: { Self → M → List Word → Result Unit Unready → Type 0 };

    /// Hands roots over: the collector knows from then on whether a cycle is open, and in a cycle
    /// what they name. No object may be filled then.
    fn hand_over(&mut self, memory: &mut M, roots: &[Word])
        requires values { AreValues (M.heap memory.old) roots.now }
        ensures heap { M.heap memory.new ≡ M.heap memory.old }
        ensures grants { M.grants memory.new ≡ record (M.grants memory.old)
            { fresh = λ a. false } };

    /// Ends the open cycle by the flip, where all is ready for it: the words of the roots are
    /// renamed. `Unready` says why that can't come yet, and nothing has changed.
    fn try_flip(&mut self, memory: &mut M, roots: &mut [Word]) -> Result<(), Unready>
        requires values { AreValues (M.heap memory.old) roots.old }
        requires open { (M.grants memory.old).cycle_open ≡ true }
        ensures answer { Self.answers self.old memory.old roots.old result }
        ensures flips { IsFlip result
            (sides_of M.heap M.grants M.did Self.did memory.old self.old)
            (sides_of M.heap M.grants M.did Self.did memory.new self.new) roots.old roots.new };

    /// A whole cycle, where none is open and cycles are left: just what the roots reach is moved,
    /// and they are renamed. No object may be filled then. False: nothing has changed.
    fn whole_cycle(&mut self, memory: &mut M, roots: &mut [Word]) -> bool
        requires values { AreValues (M.heap memory.old) roots.old }
        ensures answer { result
            ≡ may_open (M.grants memory.old).cycle_open (M.heap memory.old).space.flips }
        ensures exact { result ≡ true
            → IsExact (M.heap memory.old) (M.heap memory.new) roots.old roots.new }
        ensures quiet { result ≡ true → IsQuiet (M.grants memory.new) }
        ensures fresh { result ≡ true → (address : ℕ)
            → (M.grants memory.new).fresh address ≡ false }
        ensures heap { result ≡ false → M.heap memory.new ≡ M.heap memory.old }
        ensures grants { result ≡ false → M.grants memory.new ≡ M.grants memory.old }
        ensures roots { result ≡ false → roots.new ≡ roots.old };

    /// Ends the open cycle, whatever is left to do: all logs are closed and drained, the roots are
    /// copied, and the spaces are exchanged. No object may be filled then. False: no cycle is open,
    /// and nothing has changed.
    fn end_cycle(&mut self, memory: &mut M, roots: &mut [Word]) -> bool
        requires values { AreValues (M.heap memory.old) roots.old }
        ensures ended { result ≡ (M.grants memory.old).cycle_open }
        ensures moved { result ≡ true
            → IsCollected (M.heap memory.old) (M.heap memory.new) roots.old roots.new }
        ensures quiet { IsQuiet (M.grants memory.new) }
        ensures fresh { result ≡ true → (address : ℕ)
            → (M.grants memory.new).fresh address ≡ false }
        ensures heap { result ≡ false → M.heap memory.new ≡ M.heap memory.old }
        ensures grants { result ≡ false → M.grants memory.new ≡ M.grants memory.old }
        ensures roots { result ≡ false → roots.new ≡ roots.old };
}

/// What a collector does by itself, beside the memory. No clause says how far it comes: whether a
/// cycle can be flipped is asked in `Collects::try_flip`.
pub trait Works {
    /// One action. False: it found nothing to do.
    fn act(&mut self) -> bool;

    /// How many words were copied so far.
    fn copied(&self) -> u64;

    /// The logs are looked at anew, also those that had nothing to take.
    fn look_anew(&mut self);
}

/// The collector of a memory that is held in another one, which does more in its calls. It reaches
/// past that one.
#[derive(Drop)]
pub struct Past<C>(pub C);

impl<C: Works> Works for Past<C> {
    fn act(&mut self) -> bool {
        self.0.act()
    }

    fn copied(&self) -> u64 {
        self.0.copied()
    }

    fn look_anew(&mut self) {
        self.0.look_anew();
    }
}
