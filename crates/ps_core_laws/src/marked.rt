//! A memory with marks whose objects a collector moves.
//!
//! Marks go by birth numbers, which objects keep where they move: what covers a memory covers it
//! behind a flip. So no call here changes a mark. Cells go by addresses: all are forgotten at a
//! flip.

ghost use Rattle.std.specs.Prelude.{◌≡◌};

use crate::collected::{CollectedMemory, Counts};
use crate::sides::{Collects, LoggedMemory, Past};
use crate::{Closing, Unready};
use ps_mem::Slot;
use ps_mem::marked::Marked;
use ps_word::words::Word;

impl<M: LoggedMemory + Drop> LoggedMemory for Marked<M> {
    ghost did = { λ m. M.did m.memory };

    fn is_open(&self) -> bool {
        self.memory.is_open()
    }

    fn open_cycle(&mut self) -> bool {
        self.memory.open_cycle()
    }

    fn close_log(&mut self, slot: Slot) -> Closing {
        self.memory.close_log(slot)
    }

    fn counts(&mut self) -> Counts {
        self.memory.counts()
    }

    ghost bounded = { λ m. M.bounded m.memory };

    ghost addressed = { λ m. M.addressed m.memory };
}

impl<M: CollectedMemory + Drop> CollectedMemory for Marked<M> {
    fn work(&mut self, actions: u32) -> bool {
        self.memory.work(actions)
    }
}

impl<M: LoggedMemory + Drop, C: Collects<M>> Collects<Marked<M>> for Past<C> {
    ghost did = { λ past m. C.did past.0 m.memory };

    ghost answers = { λ past m. C.answers past.0 m.memory };

    fn hand_over(&mut self, memory: &mut Marked<M>, roots: &[Word]) {
        self.0.hand_over(&mut memory.memory, roots);
    }

    fn try_flip(&mut self, memory: &mut Marked<M>, roots: &mut [Word]) -> Result<(), Unready> {
        let flipped = self.0.try_flip(&mut memory.memory, roots);
        if flipped.is_ok() {
            memory.cells.forget();
        }
        flipped
    }

    fn whole_cycle(&mut self, memory: &mut Marked<M>, roots: &mut [Word]) -> bool {
        let made = self.0.whole_cycle(&mut memory.memory, roots);
        if made {
            memory.cells.forget();
        }
        made
    }

    fn end_cycle(&mut self, memory: &mut Marked<M>, roots: &mut [Word]) -> bool {
        let ended = self.0.end_cycle(&mut memory.memory, roots);
        if ended {
            memory.cells.forget();
        }
        ended
    }
}
