//! What is run: a program, and who makes its steps.

ghost use Rattle.std.specs.Prelude.{◌≡◌};

use crate::reports::Config;
use ps_ctx::makers::Makers;
use ps_ctx_start::start::Setup;
use std::hash::RandomState;

/// A program, who makes its steps, and what its run is set up with.
#[derive(Drop)]
pub struct Task<'a, S: Drop, D: Drop> {
    pub makers: Makers<S, D>,
    pub program: &'a [u8],
    pub setup: Setup,
}

/// A program, who makes its steps, the numbers of its run, and the keys of its table of names. The
/// keys are for that alone.
#[derive(Drop)]
pub struct Job<'a, S: Drop, D: Drop> {
    pub makers: Makers<S, D>,
    pub program: &'a [u8],
    pub config: Config,
    pub keys: RandomState,
}

impl<'a, S: Drop, D: Drop> Job<'a, S, D> {
    /// Its program and makers, without its numbers but for the most bytes that it may print.
    pub fn into_task(self) -> Task<'a, S, D>
        ensures program { result.program.now ≡ self.entry.program.now }
        ensures output { result.setup.output ≡ self.entry.config.output }
    {
        let Job {
            makers,
            program,
            config,
            keys,
        } = self;
        let setup = Setup {
            keys,
            output: config.output,
        };
        Task {
            makers,
            program,
            setup,
        }
    }
}
