//! Where the tokens of a program begin that made objects.

ghost use Rattle.std.specs.Prelude.{◌≡◌, ◌++◌, [], ◌∷◌, ◌↔◌, ◌≤◌, IsTrue, IfSome, OnOk, IfErr};
ghost use Rattle.ps_places.specs.Origins.{AreRising, IsBehind, IsNoteFault, origin_in};
ghost use Rattle.ps_places.specs.Origins as origins;

use crate::objects::{element_begin, object_begin};
use std::alloc::Global;
use std::marker::Model;
use thiserror::Error;

/// A token that made objects: the birth number of the first, and where the token begins.
#[derive(Clone, Copy, Debug, PartialEq, Eq)]
pub struct Origin {
    pub birth: u64,
    pub begin: usize,
}

/// Why an origin isn't noted.
#[derive(Clone, Copy, Debug, PartialEq, Eq, Error)]
pub enum OriginFault {
    /// A growth was refused.
    #[error("out of memory")]
    Memory,
    /// Its birth number or its place isn't above the last one's.
    #[error("the origin isn't behind those that are noted")]
    Unordered,
}

/// The tokens of a program that made objects, in the order of making, seen as the list of their
/// origins. Both the birth numbers and the places rise.
#[derive(Drop)]
pub struct Origins {
    list: Vec<Origin>,
}

impl Model for Origins {
    ghost use Rattle.std.specs.Prelude.{List};
    ghost use Rattle.ps_places.specs.declared.origins.Origin.{Origin};

    ghost Value = { List Origin };

    ghost use Rattle.ps_places.specs.Origins.{AreRising};

    ghost view = { λ origins. origins.list.items };

    ghost invariant = { λ origins. AreRising origins.list.items };
}

/// Whether an origin lies behind all of these, which rise.
fn is_behind(origins: &[Origin], origin: Origin) -> bool
    requires { AreRising origins.now }
    ensures { IsTrue result ↔ IsBehind origin origins.now }
{
    let count = origins.len();
    if count == 0 {
        return true;
    }
    let last = origins[count - 1];
    if origin.birth <= last.birth {
        return false;
    }
    origin.begin > last.begin
}

impl Origins {
    /// None yet. It takes no memory.
    pub fn new(alloc: Global) -> Origins
        ensures { result ≡ [] }
    {
        Origins {
            list: Vec::new(alloc),
        }
    }

    /// Adds an origin behind the others. `Unordered`: its birth number or its place isn't above the
    /// last one's. `Memory`: a growth was refused. After either, nothing has changed.
    pub fn note(&mut self, origin: Origin) -> Result<(), OriginFault>
        ensures noted { OnOk result (self.new ≡ self.old ++ origin ∷ []) }
        ensures behind { OnOk result (IsBehind origin self.old) }
        ensures fault { IfErr result (IsNoteFault origin self.old) }
        ensures kept { IfErr result (λ _. self.new ≡ self.old) }
    {
        if !is_behind(self.list.as_slice(), origin) {
            return Err(OriginFault::Unordered);
        }
        match self.list.push(origin) {
            Ok(()) => Ok(()),
            Err(_) => Err(OriginFault::Memory),
        }
    }

    /// The origin of the object of a birth number: the last one whose first object isn't born
    /// later. `None`: all are. An object that a token didn't make has the origin of the one before
    /// it.
    pub fn find(&self, birth: u64) -> Option<Origin>
        ensures is { result ≡ origin_in birth self.now }
        ensures low { IfSome result (λ origin. origin.birth ≤ birth) }
    {
        let mut low = 0;
        let mut high = self.list.len();
        while low < high {
            let middle = low + (high - low) / 2;
            if self.list[middle].birth <= birth {
                low = middle + 1;
            } else {
                high = middle;
            }
        }
        if low == 0 {
            return None;
        }
        Some(self.list[low - 1])
    }

    /// Where the object of a birth number begins in the program's text. `None`: no token of it made
    /// that object.
    pub fn object_begin(&self, text: &[u8], birth: u64) -> Option<usize>
        ensures { result ≡ origins.object_begin text.now self.now birth }
    {
        match self.find(birth) {
            Some(origin) => object_begin(text, origin.begin, (birth - origin.birth) as usize),
            None => None,
        }
    }

    /// Where the element of an index begins, of the procedure of a birth number, in the program's
    /// text. `None`: no token of it made that procedure, or it has fewer elements.
    pub fn element_begin(&self, text: &[u8], birth: u64, element: usize) -> Option<usize>
        ensures { result ≡ origins.element_begin text.now self.now birth element }
    {
        match self.find(birth) {
            Some(origin) => {
                element_begin(text, origin.begin, (birth - origin.birth) as usize, element)
            }
            None => None,
        }
    }
}
