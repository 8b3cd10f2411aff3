//! A frame as a line tells it.

ghost use Rattle.std.specs.Prelude.{◌≡◌};
ghost use Rattle.ps_states.specs.Chosen.{chart_of};
ghost use Rattle.ps_states.specs.Next as next;

use crate::charts::{Chart, element_position, next_token, position_at};
use ps_ctx_readers::frames::FrameView;
use ps_views::FrameLine;

/// A frame as a line tells it.
pub(crate) fn frame_line(chart: &Chart<'_>, view: FrameView) -> FrameLine
    ensures { result ≡ next.frame_line (chart_of chart.now) view }
{
    match view {
        FrameView::Program { at } => FrameLine::Program {
            position: position_at(chart, next_token(chart.program, at)),
        },
        FrameView::Text { birth, at } => FrameLine::Text { birth, at },
        FrameView::Procedure { birth, next, left } => FrameLine::Procedure {
            position: element_position(chart, birth, next as usize),
            left,
        },
        FrameView::Pending => FrameLine::Pending,
        FrameView::Repeat { left } => FrameLine::Repeat { left },
        FrameView::Loop => FrameLine::Loop,
        FrameView::For {
            control,
            increment,
            limit,
        } => FrameLine::For {
            control,
            increment,
            limit,
        },
        FrameView::Forall { at } => FrameLine::Forall { at },
        FrameView::Stopped => FrameLine::Stopped,
        FrameView::Monitor { lock } => FrameLine::Monitor { lock },
        FrameView::Bind => FrameLine::Bind,
    }
}
