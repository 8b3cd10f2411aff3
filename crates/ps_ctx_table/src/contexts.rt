//! All contexts of a world (PLRM2, 7.1).

ghost use Rattle.std.specs.Prelude.{◌≡◌, ℕ, ◌<◌, ◌||◌, List, length, IsSome, OnSome, option_map};
ghost use Rattle.ps_language.specs.World as world;
ghost use Rattle.ps_language.specs.Worlds as worlds;
ghost use Rattle.ps_mem.specs.Heap.{Heap};
ghost use Rattle.ps_ctx_table.specs.Seats.{count_left, item_at};
ghost use Rattle.ps_ctx_table.specs.Worlds.{contexts_in};
ghost use Rattle.ps_ctx_table.specs.Desks.{course_after, named_member, notified_members, seat_in};
ghost use Rattle.ps_ctx_table.specs.Desks.{tells, turned_members};

use crate::members::{Course, Member, Notified};
use crate::table::{CONTEXT_LIMIT, IDENTIFIER_LIMIT, Table};
use ps_ops_control::frames::Frames;
use ps_step_outcome::turned::Turned;

/// All contexts, by identifiers.
#[derive(Drop)]
pub struct Contexts {
    pub table: Table<Member>,
    /// Whether the line of an error was printed.
    pub has_faulted: bool,
}

/// How far a context is after a turn that left these frames; with an operator that is left to the
/// world it still runs.
#[inline]
fn after_turn(turned: Turned, frames: &Frames) -> Course
    ensures { result ≡ course_after turned frames.now }
{
    match turned {
        Turned::Goes => {
            if frames.is_empty() {
                Course::Finished
            } else {
                Course::Running
            }
        }
        Turned::Calls(_) => Course::Running,
        Turned::Breaks(cause) => Course::Unwinding(cause),
        Turned::Ends { told: _ } => Course::Finished,
    }
}

/// Whether it printed the line of an error.
#[inline]
fn tells(turned: Turned) -> bool
    ensures { result ≡ tells turned }
{
    matches!(turned, Turned::Ends { told: true })
}

impl Contexts {
    /// How far a context is after its turn; one that is detached and finished is gone.
    pub fn settle(&mut self, identifier: u32, turned: Turned)
        requires { IsSome (item_at self.old.table identifier) }
        ensures table { self.new.table ≡ turned_members turned identifier self.old.table }
        ensures faulted { self.new.has_faulted ≡ (self.old.has_faulted || tells turned) }
    {
        self.has_faulted |= tells(turned);
        let member = self.table.get_mut(identifier);
        member.course = after_turn(turned, &member.context.frames);
        if member.is_detached && member.course.is_finished() {
            let _ = self.table.remove(identifier);
        }
    }

    /// The context of an identifier, unless it is ended or detached.
    pub fn named(&self, identifier: u32) -> Option<&Member>
        ensures { option_map (λ member. member.now) result
            ≡ named_member self.now.table identifier }
    {
        match self.table.get(identifier) {
            Some(member) => {
                if member.is_detached {
                    None
                } else {
                    Some(member)
                }
            }
            None => None,
        }
    }

    /// The identifier of one more, where the limits allow one (PLRM2, appendix B).
    pub fn seat(&self) -> Option<u32>
        ensures seat { (h : Heap) (names : List (List ℕ))
            → result ≡ seat_in (contexts_in h names self.now.table) }
        ensures few { OnSome result (count_left self.now.table < 32) }
        ensures within { OnSome result (length self.now.table < 2147483647) }
    {
        let made = self.table.made();
        if self.table.left() < CONTEXT_LIMIT && made < IDENTIFIER_LIMIT {
            Some(made + 1)
        } else {
            None
        }
    }

    /// All that wait for the condition at an address retake their locks (PLRM2, 8, `notify`).
    pub fn notify_all(&mut self, condition: u32)
        ensures table { self.new.table ≡ notified_members condition self.old.table }
        ensures faulted { self.new.has_faulted ≡ self.old.has_faulted }
    {
        self.table.change_each(&Notified { condition });
    }

    /// Whether each context is finished or ended.
    pub fn is_all_over(&self) -> bool
        ensures { (h : Heap) (names : List (List ℕ)) (w : world.World)
            → w.contexts ≡ contexts_in h names self.now.table → result ≡ worlds.is_all_over w }
    {
        for member in self.table.items() {
            if !member.course.is_finished() {
                return false;
            }
        }
        true
    }
}
