//! The line of a cut of a run, by the world before it.

ghost use Rattle.std.specs.Prelude.{◌≡◌, ◌++◌, OnOk};
ghost use Rattle.ps_language.specs.World.{World};
ghost use Rattle.ps_ctx_table.specs.Desks.{IsSteady, IsWorld};
ghost use Rattle.ps_ctx.specs.Calls.{over_of};
ghost use Rattle.ps_states.specs.Chosen.{chart_of, next_shown};
ghost use Rattle.ps_states.specs.Cuts as spec;

use crate::charts::Chart;
use crate::next::Next;
use crate::states::Crowd;
use crate::steps::step_next;
use ps_ctx::deeds::Deeds;
use ps_mem::Memory;
use ps_ops_state::lent::Runtime;
use ps_views::{CutAt, CutLine, Turn, append_cut_line};
use std::alloc::AllocError;

/// A context that could step, by what its next step does.
fn turn_of(context: u32, next: &Next) -> Turn
    ensures { result ≡ spec.turn_of context (next_shown next.now) }
{
    Turn {
        context,
        position: next.position,
        coming: next.coming,
    }
}

/// Appends the line of a cut, as `cut_text` has it: behind how many steps it is, who is left before
/// what, and who goes on. The memory is only read.
///
/// `AllocError`: a growth was refused; a part of the line may have come.
pub fn append_cut<M: Memory, D: Deeds>(
    chart: &Chart<'_>,
    crowd: &Crowd<'_, D>,
    cut: CutAt,
    runtime: &mut Runtime<M>,
    to: &mut Vec<u8>,
) -> Result<(), AllocError>
    requires steady { IsSteady (over_of M.heap M.grants runtime.old crowd.now.contexts.now) }
    ensures heap { M.heap runtime.new.memory ≡ M.heap runtime.old.memory }
    ensures grants { M.grants runtime.new.memory ≡ M.grants runtime.old.memory }
    ensures shared { runtime.new.shared ≡ runtime.old.shared }
    ensures line { (w : World)
        → IsWorld (over_of M.heap M.grants runtime.old crowd.now.contexts.now) w
        → OnOk result (to.new.items ≡ to.old.items ++ spec.cut_text (chart_of chart.now) w cut) }
{
    let left = step_next(chart, crowd, cut.left, runtime)?;
    let other = step_next(chart, crowd, cut.other, runtime)?;
    let line = CutLine {
        behind: cut.behind,
        left: turn_of(cut.left, &left),
        other: turn_of(cut.other, &other),
    };
    append_cut_line(chart.file, &line, left.value.as_slice(), to)
}
