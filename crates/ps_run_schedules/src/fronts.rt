//! Whether one schedule begins another: by their single steps, however they lie in entries.

ghost use Rattle.std.specs.Prelude.{◌≡◌, ◌↔◌, ◌≤◌, ◌<◌, IsTrue};
ghost use Rattle.ps_language.specs.Schedules.{moves_of, Begins};
ghost use Rattle.ps_run_schedules.specs.Fronts as fronts;

use crate::entries::Entries;
use ps_language::schedules::Entry;

/// An entry of the first steps of another. A step or more, so there is one such entry.
fn front(entry: &Entry, steps: u32) -> Entry
    requires some { 1 ≤ steps }
    requires within { steps ≤ entry.now.steps }
    ensures { moves_of result result.steps ≡ fronts.front entry.now steps }
{
    if steps < entry.steps {
        Entry {
            context: entry.context,
            steps,
            refused: false,
            shown: None,
        }
    } else {
        *entry
    }
}

/// Whether so many first steps of two entries are the same.
fn has_same_front(first: &Entry, second: &Entry, steps: u32) -> bool
    requires some { 1 ≤ steps }
    requires within { (steps ≤ first.now.steps) × (steps ≤ second.now.steps) }
    ensures { IsTrue result ↔ fronts.front first.now steps ≡ fronts.front second.now steps }
{
    front(first, steps) == front(second, steps)
}

/// The steps of an entry behind so many of them.
fn behind(entry: &Entry, steps: u32) -> Entry
    requires { steps ≤ entry.now.steps }
    ensures { result ≡ fronts.behind entry.now steps }
{
    Entry {
        steps: entry.steps - steps,
        ..*entry
    }
}

/// No step.
const NO_STEP: Entry = Entry {
    context: 0,
    steps: 0,
    refused: false,
    shown: None,
};

/// Whether the steps of a schedule are the first steps of another. Where an entry ends doesn't
/// matter, nor one of no steps.
pub fn begins(part: Entries<'_>, whole: Entries<'_>) -> bool
    ensures { IsTrue result ↔ Begins part.entry whole.entry }
{
    let (mut first, mut second) = (NO_STEP, NO_STEP);
    let (mut part_left, mut whole_left) = (part, whole);
    loop {
        if first.steps == 0 {
            let Some(next) = part_left.next() else {
                return true;
            };
            first = next;
        } else if second.steps == 0 {
            let Some(next) = whole_left.next() else {
                return false;
            };
            second = next;
        } else {
            let both = first.steps.min(second.steps);
            if !has_same_front(&first, &second, both) {
                return false;
            }
            first = behind(&first, both);
            second = behind(&second, both);
        }
    }
}
