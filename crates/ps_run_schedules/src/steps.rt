//! The steps of a schedule.

ghost use Rattle.std.specs.Prelude.{◌≡◌, ◌-◌, ◌^◌, min};
ghost use Rattle.ps_language.specs.Schedules.{count_of};

use crate::entries::Entries;

/// The steps of a schedule together, up to 18,446,744,073,709,551,615.
pub fn steps_of(schedule: Entries<'_>) -> u64
    ensures { result ≡ min (count_of schedule.entry) (2 ^ 64 - 1) }
{
    let mut steps = 0u64;
    let mut left = schedule;
    while let Some(entry) = left.next() {
        steps = steps.saturating_add(u64::from(entry.steps));
    }
    steps
}
