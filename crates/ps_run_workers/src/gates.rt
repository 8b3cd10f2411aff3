//! A memory that tells a gate of each store before it makes it, and a collector that tells it what it
//! copied.

ghost use Rattle.std.specs.Prelude.{◌≡◌};

use ps_core_laws::collected::Counts;
use ps_core_laws::sides::{Collects, LoggedMemory, Works};
use ps_core_laws::{Closing, Unready};
use ps_language::kinds::Kind;
use ps_mem::marks::Mark;
use ps_mem::{FieldAt, Memory, NeedFault, Permit, Slot};
use ps_word::headers::Header;
use ps_word::words::Word;

/// What is told of the work on a memory. A test can wait in these calls, and so choose where a run
/// stops. Both must return.
pub trait Gate {
    /// A store or a copy comes next; whether a cycle of the collector is open.
    fn store(&self, cycle_open: bool);

    /// The collector's thread has copied so many words so far.
    fn copied(&self, words: u64);
}

/// A memory that is collected, with its gate.
#[derive(Drop)]
pub(crate) struct Gated<'g, M: LoggedMemory + Drop, G: Gate> {
    memory: M,
    gate: &'g G,
}

impl<'g, M: LoggedMemory + Drop, G: Gate> Gated<'g, M, G> {
    /// A memory whose stores are told to this gate.
    pub(crate) fn new(memory: M, gate: &'g G) -> Gated<'g, M, G>
        ensures { result.memory ≡ memory }
    {
        Gated { memory, gate }
    }
}

impl<M: LoggedMemory + Drop, G: Gate> Memory for Gated<'_, M, G> {
    ghost heap = { λ g. M.heap g.memory };

    ghost grants = { λ g. M.grants g.memory };

    fn used(&mut self) -> u32 {
        self.memory.used()
    }

    fn size(&mut self) -> u32 {
        self.memory.size()
    }

    fn room(&mut self, words: u32, births: u32) -> bool {
        self.memory.room(words, births)
    }

    fn need(&mut self, words: u32, births: u32) -> Result<(), NeedFault> {
        self.memory.need(words, births)
    }

    fn alloc(&mut self, kind: Kind, fields: u32) -> u32 {
        self.memory.alloc(kind, fields)
    }

    fn alloc_body(&mut self, dictionary: u32, fields: u32) -> u32 {
        self.memory.alloc_body(dictionary, fields)
    }

    fn header(&mut self, address: u32) -> Header {
        self.memory.header(address)
    }

    fn load(&mut self, address: u32, place: u32) -> Word {
        self.memory.load(address, place)
    }

    fn load_at(&mut self, address: u32, at: usize) -> Word {
        self.memory.load_at(address, at)
    }

    fn fill(&mut self, address: u32, place: u32, word: Word) {
        self.memory.fill(address, place, word);
    }

    fn store(&mut self, slot: Slot, address: u32, place: u32, items: &[Word]) {
        let cycle_open = self.memory.is_open();
        self.gate.store(cycle_open);
        self.memory.store(slot, address, place, items);
    }

    fn copy(&mut self, slot: Slot, from: FieldAt, to: FieldAt, count: u32) {
        let cycle_open = self.memory.is_open();
        self.gate.store(cycle_open);
        self.memory.copy(slot, from, to, count);
    }

    fn permit(&mut self, slot: Slot, count: u32) -> Permit {
        self.memory.permit(slot, count)
    }

    fn mark(&mut self, name: u16) -> Mark {
        self.memory.mark(name)
    }
}

impl<M: LoggedMemory + Drop, G: Gate> LoggedMemory for Gated<'_, M, G> {
    ghost did = { λ g. M.did g.memory };

    fn is_open(&self) -> bool {
        self.memory.is_open()
    }

    fn open_cycle(&mut self) -> bool {
        self.memory.open_cycle()
    }

    fn close_log(&mut self, slot: Slot) -> Closing {
        self.memory.close_log(slot)
    }

    fn counts(&mut self) -> Counts {
        self.memory.counts()
    }

    ghost bounded = { λ g. M.bounded g.memory };

    ghost addressed = { λ g. M.addressed g.memory };
}

/// The collector of such a memory, with its gate.
#[derive(Drop)]
pub(crate) struct GatedCollector<'g, C: Drop, G: Gate> {
    collector: C,
    gate: &'g G,
}

impl<'g, C: Drop, G: Gate> GatedCollector<'g, C, G> {
    /// A collector whose copying is told to this gate.
    pub(crate) fn new(collector: C, gate: &'g G) -> GatedCollector<'g, C, G>
        ensures { result.collector ≡ collector }
    {
        GatedCollector { collector, gate }
    }
}

impl<C: Works + Drop, G: Gate> Works for GatedCollector<'_, C, G> {
    fn act(&mut self) -> bool {
        let before = self.collector.copied();
        let worked = self.collector.act();
        let after = self.collector.copied();
        if after != before {
            self.gate.copied(after);
        }
        worked
    }

    fn copied(&self) -> u64 {
        self.collector.copied()
    }

    fn look_anew(&mut self) {
        self.collector.look_anew();
    }
}

impl<'g, M: LoggedMemory + Drop, G: Gate, C: Collects<M> + Drop> Collects<Gated<'g, M, G>>
    for GatedCollector<'g, C, G> {
    ghost did = { λ c g. C.did c.collector g.memory };

    ghost answers = { λ c g. C.answers c.collector g.memory };

    fn hand_over(&mut self, memory: &mut Gated<'g, M, G>, roots: &[Word]) {
        self.collector.hand_over(&mut memory.memory, roots);
    }

    fn try_flip(
        &mut self,
        memory: &mut Gated<'g, M, G>,
        roots: &mut [Word],
    ) -> Result<(), Unready> {
        self.collector.try_flip(&mut memory.memory, roots)
    }

    fn whole_cycle(&mut self, memory: &mut Gated<'g, M, G>, roots: &mut [Word]) -> bool {
        self.collector.whole_cycle(&mut memory.memory, roots)
    }

    fn end_cycle(&mut self, memory: &mut Gated<'g, M, G>, roots: &mut [Word]) -> bool {
        self.collector.end_cycle(&mut memory.memory, roots)
    }
}
