//! A context of a world, how far it is, and what the table of contexts is in the definitions.

ghost use Rattle.std.specs.Prelude.{◌≡◌, ℕ, ◌++◌, [], ◌∷◌, List, Option, Some, None, length};
ghost use Rattle.std.specs.Prelude.{option_map};
ghost use Rattle.ps_language.specs.Contexts as contexts;
ghost use Rattle.ps_language.specs.World as world;
ghost use Rattle.ps_mem.specs.Heap.{Heap};
ghost use Rattle.ps_ctx_table.specs.Seats.{item_at, with_item, count_left};
ghost use Rattle.ps_ctx_table.specs.Worlds.{context_of, contexts_in};
ghost use Rattle.ps_ctx_table.specs.Desks.{has_finished, notified_course, notified_member};
ghost use Rattle.ps_ctx_table.specs.declared.members.Member.{Member as AMember};

use crate::table::Change;
use ps_ops_control::frames::Cause;
use ps_ops_state::lent::Context;

/// How far a context is, and what it waits for.
#[derive(Clone, Copy, Debug, PartialEq, Eq, Hash)]
pub enum Course {
    Running,
    /// Frames are taken off, for a cause.
    Unwinding(Cause),
    /// `monitor` or `join` is to be tried again; its operands are still there.
    Again,
    /// It has freed a lock, at an address, and waits for a condition.
    Waiting { lock: u32, condition: u32 },
    /// It was notified, and takes its lock again.
    Retaking { lock: u32 },
    Finished,
}

impl Course {
    /// Whether the context is finished.
    #[inline]
    pub fn is_finished(self) -> bool
        ensures { result ≡ has_finished self }
    {
        matches!(self, Course::Finished)
    }

    /// How far it is once the condition at an address is notified: who waits for it retakes its
    /// lock.
    #[inline]
    fn notified(self, condition: u32) -> Self
        ensures { result ≡ notified_course condition self }
    {
        match self {
            Course::Waiting {
                lock,
                condition: awaited,
            } if awaited == condition => Course::Retaking { lock },
            course => course,
        }
    }
}

/// A context in the table.
#[derive(Drop)]
pub struct Member {
    pub context: Context,
    pub course: Course,
    pub is_detached: bool,
}

/// The condition at an address is notified (PLRM2, 8, `notify`).
#[derive(Clone, Copy, Debug, PartialEq, Eq)]
pub struct Notified {
    pub condition: u32,
}

impl Change<Member> for Notified {
    ghost changed = { λ n. notified_member n.condition };

    fn change(&self, member: &mut Member) {
        member.course = member.course.notified(self.condition);
    }
}

/// The table is that of the definitions, and goes on being it through each change.
pub fn table_laws()
    // As many identifiers were given.
    ensures made { (h : Heap) (names : List (List ℕ)) (members : List (Option AMember))
        → length (contexts_in h names members) ≡ length members }
    // As many contexts count against the limit.
    ensures left { (h : Heap) (names : List (List ℕ)) (members : List (Option AMember))
        → contexts.count_not_ended (contexts_in h names members) ≡ count_left members }
    // The same context stands under each identifier.
    ensures found { (h : Heap) (names : List (List ℕ)) (members : List (Option AMember))
        (w : world.World) (identifier : ℕ) → w.contexts ≡ contexts_in h names members
        → contexts.context_at w identifier
        ≡ option_map (context_of h names) (item_at members identifier) }
    // One more.
    ensures more { (h : Heap) (names : List (List ℕ)) (members : List (Option AMember))
        (member : AMember) → contexts_in h names (members ++ Some member ∷ [])
        ≡ contexts_in h names members ++ Some (context_of h names member) ∷ [] }
    // Another in the place of one, or none.
    ensures changed { (h : Heap) (names : List (List ℕ)) (members : List (Option AMember))
        (identifier : ℕ) (member : Option AMember)
        → contexts_in h names (with_item members identifier member)
        ≡ contexts.contexts_with (contexts_in h names members) identifier
        (option_map (context_of h names) member) }
{}
