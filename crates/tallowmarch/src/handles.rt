//! What a host keeps of a run that stands: a block's pointer, and whether there is one.
//!
//! A host declares the struct, of zeros at first, and gives it to one call at a time. It owns a box
//! that the host doesn't see. What its ghost fields state holds of zeros, and behind each call.

ghost use Rattle.std.specs.Prelude.{◌≡◌, ◌==◌, true, Option, Some, None, not, option_map};
ghost use Rattle.tallowmarch.specs.Handles.{loosely, stands};
ghost use Rattle.tallowmarch.specs.declared.engines.Engine.{Engine};

use crate::engines::Engine;
use crate::loose::Loose;
use std::alloc::Global;
use std::marker::Model;

/// A box's pointer, or nothing.
#[repr(C)]
#[derive(Drop)]
pub struct Handle {
    at: *mut u8,
    pub ghost value: { Option Engine },
}

impl Model for Handle {
    ghost also_owns = { λ h. loosely h.at h.value };
}

impl Handle {
    /// Nothing.
    pub fn none() -> Handle
        ensures { result.value ≡ None }
    {
        Handle {
            at: std::ptr::null_mut(),
        }
    }

    /// That of a box that was taken apart.
    pub(crate) fn of_loose(loose: Loose<Engine, Global>) -> Handle
        ensures { result.value ≡ Some loose.value }
    {
        let Loose { at, alloc: _ } = loose;
        Handle { at: at as *mut u8 }
    }

    /// The box, taken apart.
    pub(crate) fn into_loose(self, alloc: Global) -> Loose<Engine, Global>
        requires { stands self.value ≡ true }
        ensures { Some result.value ≡ self.value }
    {
        let Handle { at } = self;
        Loose {
            at: at as *mut Engine,
            alloc,
        }
    }
}

/// What a host declares: 16 bytes, zeros at first.
#[repr(C)]
#[derive(Drop)]
pub struct Run {
    pub handle: Handle,
    /// Not 0 where there is one.
    pub full: u32,
    ghost known: { stands handle.value ≡ not (full == 0) },
}

impl Run {
    /// What there is, taken out.
    pub(crate) fn take(&mut self, alloc: Global) -> Option<Box<Engine>>
        ensures none { self.new.handle.value ≡ None }
        ensures value { option_map (λ b. b.value) result ≡ self.old.handle.value }
    {
        if self.full == 0 {
            return None;
        }
        let handle = std::mem::replace(&mut self.handle, Handle::none());
        self.full = 0;
        Some(handle.into_loose(alloc).into_box())
    }

    /// Puts it there.
    pub(crate) fn put(&mut self, engine: Box<Engine>)
        ensures { self.new.handle.value ≡ Some engine.value }
    {
        self.handle = Handle::of_loose(Loose::of(engine));
        self.full = 1;
    }
}
