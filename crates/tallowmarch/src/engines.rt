//! What a handle's block holds: a run of the language that stands, by its steps and operators.

ghost use Rattle.std.specs.Prelude.{◌≡◌};
ghost use Rattle.ps_run_hosts.specs.Handles.{IsAdvancedIn, IsCountedIn, IsPrintedIn, IsScheduledIn};
ghost use Rattle.ps_run_hosts.specs.Values.{IsValueIn};

use ps_ctx_operators::operators::WorldOperators;
use ps_ctx_readers::views::Place;
use ps_ops::operators::Operators;
use ps_run_hosts::{
    HostEntry, HostValue, advance_for, hand_counts, hand_printed, hand_schedule, hand_value,
};
use ps_run_workers::SpaceRun;
use ps_step::steps::Steps;
use ps_step_interpreter::interprets::Interpret;

/// A run that stands, or none.
#[derive(Drop)]
pub struct Engine {
    pub run: Option<SpaceRun<Steps<Operators>, WorldOperators>>,
}

impl Engine {
    /// Makes a slice of it (`advance_for`).
    pub(crate) fn advance(&mut self, steps: u32) -> u32
        ensures { IsAdvancedIn ⟦<Steps<Operators> as Interpret>⟧.asks steps self.old.run
            self.new.run result }
    {
        advance_for(&mut self.run, steps)
    }

    /// Hands out what it printed (`hand_printed`).
    pub(crate) fn printed(&self, from: usize, room: &mut [u8]) -> usize
        ensures { IsPrintedIn self.now.run from room.old room.new result }
    {
        hand_printed(&self.run, from, room)
    }

    /// Hands out its schedule (`hand_schedule`).
    pub(crate) fn schedule(&self, from: usize, room: &mut [HostEntry]) -> usize
        ensures { IsScheduledIn self.now.run from room.old room.new result }
    {
        hand_schedule(&self.run, from, room)
    }

    /// Hands out its counts (`hand_counts`).
    pub(crate) fn counts(&self, counts: &mut [u64]) -> u32
        ensures { IsCountedIn self.now.run counts.old counts.new result }
    {
        hand_counts(&self.run, counts)
    }

    /// Tells of a value (`hand_value`).
    pub(crate) fn value(
        &mut self,
        context: u32,
        place: Place<'_>,
        value: &mut HostValue,
        room: &mut [u8],
    ) -> u32
        ensures same { self.new.run ≡ self.old.run }
        ensures told { IsValueIn self.old.run context place.entry
            (record { value = value.old; bytes = room.old })
            (record { value = value.new; bytes = room.new }) result }
    {
        hand_value(&mut self.run, context, place, value, room)
    }
}
