//! Runs: the machine with the events that it made.
//!
//! Invariant: its events, the oldest first, are a run over a space of one of the sizes, and its
//! state
//! is the one that the run leads to.
#![tactic(auto)]

ghost use Rattle.std.specs.Bool.{Decides};
ghost use Rattle.std.specs.Prelude.{◌≡◌, ◌∷◌, [], IfErr, IfOk, MatchBool, OnOk, slice_index};
ghost use Rattle.ps_core_machine.specs.Steps.{happens};
ghost use Rattle.ps_core_machine.specs.Conditions.{Permitted};
ghost use Rattle.ps_core_laws.specs.Runs.{IsSpace, run};
ghost use Rattle.ps_core.specs.declared.runs.Refused.TheVariants.{NotNow, Memory};

use crate::machine::Machine;
use ps_core_machine::events::Event;
use std::alloc::{AllocError, Global};
use std::marker::Model;

/// Why an event wasn't made.
#[derive(Drop)]
pub enum Refused {
    /// It may not happen now.
    NotNow,
    /// It may happen, but there is no memory for it.
    Memory,
}

/// A run of the collector's machine: its events, and the state that they make.
#[derive(Drop)]
pub struct Core {
    space: u64,
    machine: Machine,
    events: Vec<Event, Global>,
}

impl Model for Core {
    ghost use Rattle.std.specs.Prelude.{◌≡◌, reverse};
    ghost use Rattle.ps_core_laws.specs.Runs.{History, IsSpace, IsRun, run};

    ghost Value = { History };

    ghost view = { λ c. record { space = c.space; events = reverse c.events.items } };

    ghost invariant = { λ c. IsSpace c.space × IsRun c.space (reverse c.events.items)
        × (run c.space (reverse c.events.items) ≡ c.machine) };
}

impl Core {
    /// No events yet, over two empty spaces of `space` words each, from 4,096 to 1,048,576.
    pub fn new(alloc: Global, space: u64) -> Result<Core, AllocError>
        requires { IsSpace space }
        ensures { IfOk result (λ c. c ≡ record { space = space; events = [] }) }
    {
        Ok(Core {
            space,
            machine: Machine::start(alloc, space)?,
            events: Vec::new(alloc),
        })
    }

    /// The word of the table at an index, as the events left it; past the table's end it is zero.
    pub fn word(&self, index: u64) -> u64
        ensures { result ≡ slice_index (run self.now.space self.now.events).words index }
    {
        self.machine.word(index)
    }

    /// Whether the event may happen now.
    pub fn permits(&self, event: &Event) -> bool
        ensures { Decides result (Permitted (run self.now.space self.now.events) event.now) }
    {
        self.machine.permits(event)
    }

    /// The machine after the event.
    fn after(&self, event: &Event) -> Result<Machine, AllocError>
        requires { Permitted (run self.now.space self.now.events) event.now }
        ensures { IfOk result (λ m. m ≡ happens (run self.now.space self.now.events) event.now) }
    {
        let mut next = self.machine.copy()?;
        next.step(event)?;
        Ok(next)
    }

    /// The refusal of an event that may not happen now.
    fn admits(&self, event: &Event) -> Result<(), Refused>
        ensures ok { OnOk result (Permitted (run self.now.space self.now.events) event.now) }
        ensures refused { IfErr result
            (λ e. (e ≡ NotNow) × (Permitted (run self.now.space self.now.events) event.now → ⊥)) }
    {
        if self.permits(event) {
            Ok(())
        } else {
            Err(Refused::NotNow)
        }
    }

    /// Makes the next event, where it may happen now. After a refusal nothing has changed.
    pub fn apply(&mut self, event: Event) -> Result<(), Refused>
        ensures ok { OnOk result (Permitted (run self.old.space self.old.events) event
            × (self.new ≡ record self.old { events = event ∷ self.old.events })) }
        ensures refused { IfErr result
            (λ e. (e ≡ NotNow → Permitted (run self.old.space self.old.events) event → ⊥)
            × (e ≡ Memory → Permitted (run self.old.space self.old.events) event)
            × (self.new ≡ self.old)) }
    {
        self.admits(&event)?;
        match self.after(&event) {
            Err(_) => Err(Refused::Memory),
            Ok(next) => self.keep(event, next),
        }
    }

    /// Keeps the event with the machine that it made.
    fn keep(&mut self, event: Event, next: Machine) -> Result<(), Refused>
        requires may { Permitted (run self.old.space self.old.events) event }
        requires made { next ≡ happens (run self.old.space self.old.events) event }
        ensures ok { OnOk result (self.new ≡ record self.old { events = event ∷ self.old.events }) }
        ensures refused { IfErr result (λ e. (e ≡ Memory) × (self.new ≡ self.old)) }
    {
        match self.events.push(event) {
            Err(_) => Err(Refused::Memory),
            Ok(()) => {
                self.machine = next;
                Ok(())
            }
        }
    }
}
