//! Turns in the order of a schedule: which contexts it has one after another.

ghost use Rattle.std.specs.Prelude.{◌≤◌, IfSome};

use ps_language::schedules::Entry;

/// The contexts of a schedule, in its order, and how many steps each makes there. Only whose turn
/// it is is taken from it: what a step is shown, and whether it is refused, isn't.
///
/// Neighbouring entries of one context are one part. An entry also ends behind a step that was
/// refused or was shown a pair, where the context's turn went on.
#[derive(Clone, Copy)]
pub struct Guide<'a> {
    context: u32,
    /// How many steps are left of the part.
    steps: u64,
    /// The entries behind the part.
    behind: &'a [Entry],
}

impl<'a> Guide<'a> {
    /// A schedule from its start.
    pub fn new(schedule: &'a [Entry]) -> Guide<'a> {
        Guide {
            context: 0,
            steps: 0,
            behind: schedule,
        }
    }

    /// Whose turn is next, and the most steps that it may have; None behind the last step. The last
    /// part has no bound, since the turn that the schedule ends in may go on behind it.
    pub fn next(&mut self) -> Option<(u32, u32)>
        ensures { IfSome result (λ turn. 1 ≤ turn.1) }
    {
        if self.steps == 0 {
            self.take_part();
        }
        if self.steps == 0 {
            return None;
        }
        if self.behind.is_empty() || self.steps > u64::from(u32::MAX) {
            return Some((self.context, u32::MAX));
        }
        Some((self.context, self.steps as u32))
    }

    /// So many steps of the turn that is next were made.
    pub fn pass(&mut self, made: u32) {
        self.steps = self.steps.saturating_sub(u64::from(made));
    }

    /// The next part, if any step is left.
    fn take_part(&mut self) {
        let entries = self.behind;
        for place in 0..entries.len() {
            let entry = entries[place];
            if entry.steps == 0 {
                continue;
            }
            if self.steps > 0 && entry.context != self.context {
                self.behind = &entries[place..];
                return;
            }
            self.context = entry.context;
            self.steps = self.steps.saturating_add(u64::from(entry.steps));
        }
        self.behind = &entries[entries.len()..];
    }
}
