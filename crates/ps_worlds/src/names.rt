//! What is kept of the names that a run has met.

ghost use Rattle.std.specs.Prelude.{◌≡◌, ◌∷◌, ◌++◌, [], length, IfOk, OnOk, sum};
ghost use Rattle.ps_language.specs.Worlds.{first_names};
ghost use Rattle.ps_ops_operands.specs.FirstNames.{BeginWithFirst};
ghost use Rattle.ps_worlds.specs.Images.{names_in};

use ps_names::first::FIRST_COUNT;
use ps_names::{NameId, Names};
use std::alloc::{AllocError, Global};

/// The names behind the first ones: how many bytes each has, and the bytes of all, one name behind
/// another.
#[derive(Debug, PartialEq, Eq, Hash, Drop)]
pub struct NamesImage {
    pub lengths: Vec<usize>,
    pub bytes: Vec<u8>,
}

impl NamesImage {
    /// No name yet. It takes no memory.
    fn new(alloc: Global) -> NamesImage
        ensures names { names_in result ≡ first_names }
        ensures whole { sum result.lengths.items ≡ length result.bytes.items }
    {
        NamesImage {
            lengths: Vec::new(alloc),
            bytes: Vec::new(alloc),
        }
    }

    /// One more. `AllocError`: a growth was refused.
    fn push(&mut self, name: &[u8]) -> Result<(), AllocError>
        requires whole { sum self.old.lengths.items ≡ length self.old.bytes.items }
        ensures names { OnOk result (names_in self.new ≡ names_in self.old ++ name.now ∷ []) }
        ensures whole { OnOk result
            (sum self.new.lengths.items ≡ length self.new.bytes.items) }
    {
        self.lengths.push(name.len())?;
        self.bytes.extend_from_slice(name)?;
        Ok(())
    }

    /// Those of a run. `AllocError`: a growth was refused.
    pub(crate) fn of(alloc: Global, names: &Names) -> Result<NamesImage, AllocError>
        requires { BeginWithFirst names.now }
        ensures { IfOk result (λ image. names_in image ≡ names.now) }
    {
        let mut image = NamesImage::new(alloc);
        for number in usize::from(FIRST_COUNT)..names.len() {
            image.push(names.text(NameId(number as u16)))?;
        }
        Ok(image)
    }
}
