//! Which contexts may go on, and what the others wait for, as text.

ghost use Rattle.std.specs.Prelude.{◌≡◌, ◌++◌, [], OnOk};
ghost use Rattle.std.specs.Option.{option_map_or};
ghost use Rattle.ps_language.specs.Contexts.{context_at};
ghost use Rattle.ps_language.specs.World.{World};
ghost use Rattle.ps_ctx_table.specs.Desks.{IsSteady, IsWorld};
ghost use Rattle.ps_ctx.specs.Calls.{over_of};
ghost use Rattle.ps_states.specs.States.{each_context};
ghost use Rattle.ps_states.specs.Waits.{status_in, waits_text};

use crate::states::Crowd;
use crate::statuses::status_line;
use ps_ctx::deeds::Deeds;
use ps_mem::Memory;
use ps_ops_state::lent::Runtime;
use ps_views::{ContextHead, append_context};
use std::alloc::AllocError;

/// Appends the line of the status of the context of an identifier, where it is there. The memory is
/// only read. Fails where a growth is refused.
fn append_status_at<M: Memory, D: Deeds>(
    crowd: &Crowd<'_, D>,
    identifier: u32,
    runtime: &mut Runtime<M>,
    to: &mut Vec<u8>,
) -> Result<(), AllocError>
    requires steady { IsSteady (over_of M.heap M.grants runtime.old crowd.now.contexts.now) }
    ensures heap { M.heap runtime.new.memory ≡ M.heap runtime.old.memory }
    ensures grants { M.grants runtime.new.memory ≡ M.grants runtime.old.memory }
    ensures shared { runtime.new.shared ≡ runtime.old.shared }
    ensures line { (w : World)
        → IsWorld (over_of M.heap M.grants runtime.old crowd.now.contexts.now) w
        → OnOk result (to.new.items ≡ to.old.items ++ option_map_or
        (status_in w identifier) (context_at w identifier) []) }
{
    let Some(member) = crowd.contexts.table.get(identifier) else {
        return Ok(());
    };
    let is_ready = crowd
        .operators
        .is_ready(identifier, crowd.contexts, runtime);
    let head = ContextHead {
        identifier,
        is_detached: member.is_detached,
        status: status_line(is_ready, member, &mut runtime.memory),
    };
    append_context(head, to)
}

/// Appends of each context that isn't ended whether it may go on, or what it waits for, a line each
/// by rising identifiers, as `waits_text` has it. The memory is only read.
///
/// `AllocError`: a growth was refused; a part of the text may have come.
#[tactic(auto, unfolding(crate::specs::Waits::waits_text))]
pub fn append_waits<M: Memory, D: Deeds>(
    crowd: &Crowd<'_, D>,
    runtime: &mut Runtime<M>,
    to: &mut Vec<u8>,
) -> Result<(), AllocError>
    requires steady { IsSteady (over_of M.heap M.grants runtime.old crowd.now.contexts.now) }
    ensures heap { M.heap runtime.new.memory ≡ M.heap runtime.old.memory }
    ensures grants { M.grants runtime.new.memory ≡ M.grants runtime.old.memory }
    ensures shared { runtime.new.shared ≡ runtime.old.shared }
    ensures lines { (w : World)
        → IsWorld (over_of M.heap M.grants runtime.old crowd.now.contexts.now) w
        → OnOk result (to.new.items ≡ to.old.items ++ waits_text w) }
{
    for place in 0..crowd.contexts.table.made() {
        append_status_at(crowd, place + 1, runtime, to)?;
    }
    Ok(())
}
