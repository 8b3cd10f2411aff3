//! The collector of a space that has it inside, as a collector that is lent the space.

ghost use Rattle.ps_core_laws.specs.Stores.{numbers};
ghost use Rattle.ps_gc.specs.Flipping.{Answers};

use crate::endings::{hand, joined_end_cycle, joined_whole_cycle};
use crate::space::CollectedSpace;
use ps_core_laws::Unready;
use ps_core_laws::sides::Collects;
use ps_table::Words;
use ps_word::words::Word;

/// The collector that a space has inside: it is the space that is lent, and this names it alone.
#[derive(Drop)]
pub struct Inside;

impl<W: Words> Collects<CollectedSpace<W>> for Inside {
    ghost did = { λ _ s. s.collector.gc.seat.me.0.gc_events };

    ghost answers = { λ _ s roots. Answers s.collector.gc.seat.me.0.vm
        s.collector.gc.seat.me.0.gc (numbers roots) };

    /// As the collector's; in an open cycle what the roots refer to gets replicas at once.
    fn hand_over(&mut self, memory: &mut CollectedSpace<W>, roots: &[Word]) {
        if memory.mirror.cycle_open {
            hand(&mut memory.collector, &mut memory.mirror, roots);
        } else {
            memory.collector.joined_hand_over(&mut memory.mirror, roots);
        }
    }

    fn try_flip(
        &mut self,
        memory: &mut CollectedSpace<W>,
        roots: &mut [Word],
    ) -> Result<(), Unready> {
        memory.collector.joined_try_flip(&mut memory.mirror, roots)
    }

    fn whole_cycle(&mut self, memory: &mut CollectedSpace<W>, roots: &mut [Word]) -> bool {
        joined_whole_cycle(&mut memory.collector, &mut memory.mirror, roots)
    }

    fn end_cycle(&mut self, memory: &mut CollectedSpace<W>, roots: &mut [Word]) -> bool {
        if !memory.mirror.cycle_open {
            return false;
        }
        joined_end_cycle(&mut memory.collector, &mut memory.mirror, roots);
        true
    }
}
