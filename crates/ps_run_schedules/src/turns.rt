//! Entries of ordinary steps, and what joins them.

ghost use Rattle.std.specs.Prelude.{◌≡◌, ◌↔◌, IsTrue};
ghost use Rattle.ps_language.specs.Schedules as schedules;
ghost use Rattle.ps_run_schedules.specs.Turns as turning;

use ps_language::schedules::Entry;

/// Whether each step of an entry is an ordinary one: none is refused, and none shows a pair.
#[inline]
pub(crate) fn is_plain(entry: &Entry) -> bool
    ensures { IsTrue result ↔ (entry.now ≡ turning.plain_entry entry.now.context entry.now.steps) }
{
    !entry.refused && entry.shown.is_none()
}

/// Whether a further step of a context joins an entry.
#[inline]
pub(crate) fn joins(entry: &Entry, context: u32) -> bool
    ensures { result ≡ schedules.joins entry.now context }
{
    entry.context == context && !entry.refused && entry.shown.is_none() && entry.steps < u32::MAX
}

/// An entry of so many ordinary steps of a context.
pub(crate) fn plain_entry(context: u32, steps: u32) -> Entry
    ensures { result ≡ turning.plain_entry context steps }
{
    Entry {
        context,
        steps,
        refused: false,
        shown: None,
    }
}
