//! The numbers of the other space: where its replicas end, and how far they are scanned.
//!
//! They keep `Copies`: each is what the collector's part says.

use ps_record::SPACES_START;

/// Numbers of the other space, so that no call looks anything up.
#[derive(Drop)]
pub struct ToSpace {
    /// How many words each space has.
    pub space: u64,
    /// How many cycles were flipped.
    pub cycle: u32,
    /// Where the last replica ends, so that the next one begins there.
    pub end: u64,
    /// The replica being scanned, or the end.
    pub at: u64,
    /// How many of its fields are filled.
    pub field: u64,
}

impl ToSpace {
    ghost use Rattle.std.specs.Prelude.{◌≡◌, ◌<◌, ◌^◌};
    ghost use Rattle.ps_core_machine.specs.Steps.{other_base};

    /// The lowest word of that space.
    pub(crate) fn low(&self) -> u64
        requires { self.now.space < 2 ^ 32 }
        ensures { result ≡ other_base self.now.space self.now.cycle }
    {
        SPACES_START + ((self.cycle as u64 + 1) % 2) * self.space
    }
}
