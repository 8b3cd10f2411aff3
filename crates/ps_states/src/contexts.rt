//! The lines of a context.

ghost use Rattle.std.specs.Prelude.{◌≡◌, ◌++◌, ℕ, List, OnOk};
ghost use Rattle.ps_language.specs.Value.{Store};
ghost use Rattle.ps_mem.specs.Shows.{IsSound};
ghost use Rattle.ps_ctx_table.specs.Worlds.{context_of};
ghost use Rattle.ps_states.specs.Chosen.{chart_of};
ghost use Rattle.ps_states.specs.Held.{IsMemberHeld, IsMemberShown};
ghost use Rattle.ps_states.specs.States as states;

use crate::charts::Chart;
use crate::next::next_of;
use crate::stacks::{append_dictionaries, append_frames, append_operands};
use crate::statuses::status_line;
use ps_ctx_table::members::Member;
use ps_mem::Memory;
use ps_ops_state::lent::Runtime;
use ps_views::{ContextHead, append_context, append_next};
use std::alloc::AllocError;

/// A context of which lines are told: its identifier, and whether it may go on.
#[derive(Clone, Copy, Debug, PartialEq, Eq)]
pub(crate) struct Subject {
    pub(crate) identifier: u32,
    pub(crate) is_ready: bool,
}

/// Appends the line of what a context does next, where it may go on. The memory is only read.
fn append_coming<M: Memory>(
    chart: &Chart<'_>,
    is_ready: bool,
    member: &Member,
    runtime: &mut Runtime<M>,
    to: &mut Vec<u8>,
) -> Result<(), AllocError>
    requires sound { IsSound (M.heap runtime.old.memory) }
    requires held { IsMemberHeld (M.heap runtime.old.memory) member.now }
    ensures heap { M.heap runtime.new.memory ≡ M.heap runtime.old.memory }
    ensures grants { M.grants runtime.new.memory ≡ M.grants runtime.old.memory }
    ensures shared { runtime.new.shared ≡ runtime.old.shared }
    ensures line { (s : Store)
        → IsMemberShown (M.heap runtime.old.memory) runtime.old.shared.names s member.now
        → OnOk result (to.new.items ≡ to.old.items ++ states.next_line (chart_of chart.now) s
        is_ready (context_of (M.heap runtime.old.memory) runtime.old.shared.names member.now)) }
{
    if !is_ready {
        return Ok(());
    }
    let next = next_of(chart, member, runtime)?;
    append_next(
        chart.file,
        next.coming,
        next.value.as_slice(),
        next.position,
        to,
    )
}

/// Appends the lines of the stacks of a context. The memory is only read.
fn append_stacks<M: Memory>(
    chart: &Chart<'_>,
    member: &Member,
    runtime: &mut Runtime<M>,
    to: &mut Vec<u8>,
) -> Result<(), AllocError>
    requires sound { IsSound (M.heap runtime.old.memory) }
    requires held { IsMemberHeld (M.heap runtime.old.memory) member.now }
    ensures heap { M.heap runtime.new.memory ≡ M.heap runtime.old.memory }
    ensures grants { M.grants runtime.new.memory ≡ M.grants runtime.old.memory }
    ensures shared { runtime.new.shared ≡ runtime.old.shared }
    ensures lines { (s : Store)
        → IsMemberShown (M.heap runtime.old.memory) runtime.old.shared.names s member.now
        → OnOk result (to.new.items ≡ to.old.items ++ states.stacks_text (chart_of chart.now) s
        (context_of (M.heap runtime.old.memory) runtime.old.shared.names member.now)) }
{
    let context = &member.context;
    append_operands(chart.alloc, &context.operands, runtime, to)?;
    append_dictionaries(chart.alloc, &context.dictionaries, runtime, to)?;
    append_frames(chart, &context.frames, &context.dictionaries, runtime, to)
}

/// Appends the lines of a context. The memory is only read. Fails where a growth is refused.
#[tactic(auto, unfolding(crate::specs::States::context_lines))]
pub(crate) fn append_lines<M: Memory>(
    chart: &Chart<'_>,
    subject: Subject,
    member: &Member,
    runtime: &mut Runtime<M>,
    to: &mut Vec<u8>,
) -> Result<(), AllocError>
    requires sound { IsSound (M.heap runtime.old.memory) }
    requires held { IsMemberHeld (M.heap runtime.old.memory) member.now }
    ensures heap { M.heap runtime.new.memory ≡ M.heap runtime.old.memory }
    ensures grants { M.grants runtime.new.memory ≡ M.grants runtime.old.memory }
    ensures shared { runtime.new.shared ≡ runtime.old.shared }
    ensures lines { (s : Store)
        → IsMemberShown (M.heap runtime.old.memory) runtime.old.shared.names s member.now
        → OnOk result (to.new.items ≡ to.old.items ++ states.context_lines (chart_of chart.now) s
        subject.is_ready subject.identifier
        (context_of (M.heap runtime.old.memory) runtime.old.shared.names member.now)) }
{
    let head = ContextHead {
        identifier: subject.identifier,
        is_detached: member.is_detached,
        status: status_line(subject.is_ready, member, &mut runtime.memory),
    };
    append_context(head, to)?;
    append_coming(chart, subject.is_ready, member, runtime, to)?;
    append_stacks(chart, member, runtime, to)
}
