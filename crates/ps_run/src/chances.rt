//! Turns that are chosen by chance.

use crate::progress::Progress;
use ps_vault::{Choice, TurnOrder};
use rand_core::utils::NextWord;
use rand_pcg::Pcg32;

/// What the choices begin with: each use of the program makes the same ones.
const SEED: u64 = 42;

const STREAM: u64 = 54;

/// Chooses one of the contexts that are ready, and at most a quantum of steps, fewer more often
/// than many. Nothing is claimed of its fairness. Somebody is shown how far the runs are.
#[derive(Drop)]
pub(crate) struct Chances<P: Progress + Drop> {
    generator: Pcg32,
    quantum: u32,
    runs: u32,
    progress: P,
}

impl<P: Progress + Drop> Chances<P> {
    /// The choices of so many runs, from the first on.
    pub(crate) fn new(quantum: u32, runs: u32, progress: P) -> Chances<P> {
        Chances {
            generator: Pcg32::new(SEED, STREAM),
            quantum,
            runs,
            progress,
        }
    }

    /// Takes away what is shown of the runs.
    pub(crate) fn clear(&mut self) {
        self.progress.clear();
    }
}

impl<P: Progress + Drop> TurnOrder for Chances<P> {
    fn choose(&mut self) -> Choice {
        let passed = self.generator.next_word() % 32;
        let quantum = if self.quantum == 0 { 1 } else { self.quantum };
        let most = 1 + self.generator.next_word() % quantum;
        Choice {
            passed,
            steps: 1 + self.generator.next_word() % most,
        }
    }

    fn run_ended(&mut self, made: u32, endings: usize) {
        self.progress.show(made, self.runs, endings);
    }
}
