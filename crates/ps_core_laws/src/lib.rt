//! What holds of every run of the collector as a machine over the atomic steps on its table (`law`);
//! that the mutator's part of it is a memory (`memory`); and that no program sees a flip (`flips`).
//!
//! A run is a list of events from two empty spaces, each permitted where it happened. The laws are
//! told of the state that it leads to (`Always`), of the state in which an event of some form comes
//! (`Whenever`), or of the run itself (`EveryRun`); each for every size of a space from 4,096 to
//! 1,048,576 words (`IsSpace`).
//!
//! Why so:
//! - Neither the laws nor the seats' code stands on the other, so they are proved side by side. A
//!   change of a seat's code checks no law again.
//! - What a seat may rest on is one clause, `kept`, in three records: the mutator's part, the
//!   collector's part, and what ties them. A fact such as "outside a cycle nothing is unlogged" is
//!   a field there.
//! - What is reachable is told of the stores and roots in the list of events, and `noted` says that
//!   the parts note just these. It costs two definitions over lists of events.
//! - A body's birth number is asked for where the body is made (`made`). A flip may leave a body
//!   whose dictionary has no replica, so nothing is asked of a standing one.
#![tactic(auto)]

ghost use Rattle.std.specs.Prelude.{ℕ};
ghost use Rattle.ps_core_machine.specs.declared.events.Event.TheVariants.{CycleStore, ForwardStore};
ghost use Rattle.ps_core_machine.specs.declared.events.Event.TheVariants.{HeaderStore};
ghost use Rattle.ps_core_laws.specs.Laws.{PairsHold, ReplicasAgree, CopyAgrees, NamesStanding};
ghost use Rattle.ps_core_laws.specs.Laws.{TakenBegins, NoneAfterClose, IsOld};
ghost use Rattle.ps_core_laws.specs.Laws.{IsReadyToFlip, Flips, SecondsLead, WordsFollow};
ghost use Rattle.ps_core_laws.specs.Kept.{Kept, IsNumbered};
ghost use Rattle.ps_core_laws.specs.Renaming.{Renames};
ghost use Rattle.ps_core_laws.specs.Reach.{Carries, AreNoted, CopiesReachable};
ghost use Rattle.ps_core_laws.specs.Runs.{EveryRun, Always, Whenever};

mod closing;
pub mod collected;
mod flips;
mod marked;
mod memory;
pub mod sides;
mod tries;

pub use closing::Closing;
pub use flips::{flip_laws, moving_laws};
pub use memory::memory_laws;
pub use tries::Unready;

/// The laws of the collector (Nettles and O'Toole, PLDI 1993, 2 and 3), which hold after every list
/// of permitted events, for every size of a space from 4,096 to 1,048,576 words.
pub fn law()
    // Pairs belong to the open cycle; an original stands, isn't new, and has its replica's kind,
    // birth and number of fields; neither is in two pairs.
    ensures pairs { Always PairsHold }
    // Each filled field of each replica is what now stands in its original, renamed, or its place
    // is due or being copied.
    ensures agreement { Always ReplicasAgree }
    // The word being copied is what now stands at its place, or the place is due.
    ensures copying { Always CopyAgrees }
    // Each reference in a standing object names a standing object, which is new only where the
    // first is.
    ensures references { Always NamesStanding }
    // What was taken of each log is a beginning of what was logged there.
    ensures taken { Always TakenBegins }
    // From a close to the flip of its cycle a log gets no record.
    ensures closed { (space : ℕ) → NoneAfterClose space }
    // No object that gets a replica is new.
    ensures old { (replica : ℕ) → Whenever (λ original. ForwardStore original replica) IsOld }
    // A flip comes only with all logs closed and drained, every field filled, nothing unlogged or
    // being copied, and a replica for every root that it carries.
    ensures ready { Whenever CycleStore IsReadyToFlip }
    // What an object with a replica names has a replica then.
    ensures carries { Whenever CycleStore Carries }
    // The flip makes the replicas the standing objects, with their births and renamed fields, and
    // renames the roots.
    ensures flips { Whenever CycleStore Flips }
    // The second header of a standing object leads to its replica, and of one without replica it is
    // of no open cycle.
    ensures forwarding { Always SecondsLead }
    // The words of the table follow from the parts of the two seats.
    ensures words { Always WordsFollow }
    // What each seat knows of its own part, and what ties the parts: where objects and replicas
    // lie, that they are whole, apart and without gaps; births, closes, heads and rings; what is
    // known.
    ensures kept { Always Kept }
    // A value that names an original is led to its replica; others stay, and so do the words of
    // strings.
    ensures renames { Always Renames }
    // An object is made with the next birth number, and a body with that of a standing dictionary.
    ensures made { Whenever HeaderStore IsNumbered }
    // The parts note whether something was stored since the cycle was opened, and which roots were
    // handed over.
    ensures noted { EveryRun AreNoted }
    // In a cycle without stores, whose flip carries what was handed over, just what is reachable
    // from the roots is copied.
    ensures reachable { EveryRun CopiesReachable }
{}
