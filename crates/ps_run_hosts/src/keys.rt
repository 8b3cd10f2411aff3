//! Keys that a host gives.

use std::hash::RandomState;
use std::io;
use std::random::RandomSource;

/// Numbers that who wrote a program can't guess: with them it can't fill the table of names so that
/// it is slow. Nothing else depends on them.
#[derive(Clone, Copy, Debug, PartialEq, Eq)]
pub struct Keys {
    pub first: u64,
    pub second: u64,
}

/// Two numbers in the place of random bytes.
#[derive(Drop)]
struct GivenKeys {
    bytes: [u8; 16],
}

impl RandomSource for GivenKeys {
    fn fill_bytes(&self, buffer: &mut [u8]) -> io::Result<()> {
        for part in buffer.chunks_mut(16) {
            let count = part.len();
            if count <= 16 {
                part.copy_from_slice(&self.bytes[..count]);
            }
        }
        Ok(())
    }
}

/// The keys of a table of names, from two numbers. Fails where the table takes none.
pub(crate) fn keys_of(keys: &Keys) -> io::Result<RandomState> {
    let both = u128::from(keys.first) | u128::from(keys.second) << 64;
    RandomState::new(&GivenKeys {
        bytes: both.to_le_bytes(),
    })
}
