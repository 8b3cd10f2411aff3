//! What is known of a context just before its step.

ghost use Rattle.std.specs.Prelude.{◌≡◌};
ghost use Rattle.ps_walks.specs.Walks.{IsBefore, Stands};

use crate::seats::Seats;
use crate::taken::{Taken, taken_by};
use ps_ctx::worlds::World;
use ps_ctx_readers::contexts::frame_at;
use ps_ctx_table::members::Course;
use ps_mem::Memory;
use ps_ops_control::frames::Frame;
use ps_ops_state::lent::Runtime;

/// What is known of a context just before its step.
#[derive(Clone, Copy)]
pub(crate) struct Before {
    /// Its identifier.
    pub(crate) context: u32,
    /// Whether it is unwinding.
    pub(crate) unwinding: bool,
    /// Whether it tries a call again, or retakes its lock.
    pub(crate) again: bool,
    /// Its topmost frame.
    pub(crate) frame: Option<Frame>,
    /// The address of its `$error`.
    pub(crate) error_dictionary: Option<u32>,
    /// What its step takes; where it tries a call again, what the first try took.
    pub(crate) taken: Taken,
}

/// What is known of a context just before its step.
pub(crate) fn known_of<M: Memory>(
    context: u32,
    seats: &Seats,
    world: &World,
    runtime: &mut Runtime<M>,
) -> Before
    requires stands { Stands M.heap M.grants runtime.old world.now }
    ensures heap { M.heap runtime.new.memory ≡ M.heap runtime.old.memory }
    ensures grants { M.grants runtime.new.memory ≡ M.grants runtime.old.memory }
    ensures shared { runtime.new.shared ≡ runtime.old.shared }
    ensures held { IsBefore (M.heap runtime.old.memory) result }
{
    let frame = frame_at(&world.contexts, context, 0, runtime);
    let Some(member) = world.contexts.table.get(context) else {
        return Before {
            context,
            unwinding: false,
            again: false,
            frame: None,
            error_dictionary: None,
            taken: Taken::Nothing,
        };
    };
    let again = matches!(member.course, Course::Again | Course::Retaking { .. });
    let unwinding = matches!(member.course, Course::Unwinding(_));
    let taken = if again {
        seats.taken(context)
    } else if unwinding {
        Taken::Nothing
    } else {
        taken_by(frame, runtime.shared.program)
    };
    Before {
        context,
        unwinding,
        again,
        frame: member.context.frames.peek(0),
        error_dictionary: Some(member.context.error_dictionary),
        taken,
    }
}
