//! Images: what tells the world of a run from that of another.

ghost use Rattle.std.specs.Prelude.{IfOk};
ghost use Rattle.ps_ctx_table.specs.Desks.{desk};
ghost use Rattle.ps_ops_operands.specs.FirstNames.{BeginWithFirst};
ghost use Rattle.ps_worlds.specs.Images.{IsImageOf};

use crate::members::{MemberImage, images_of};
use crate::memories::MemoryImage;
use crate::names::NamesImage;
use ps_ctx_table::contexts::Contexts;
use ps_mem::Memory;
use ps_mem::marked::Marked;
use ps_mem::plain::PlainMemory;
use ps_ops_state::lent::Runtime;
use std::alloc::{AllocError, Global};

/// What a world is read from: two runs with equal images are at the same worlds.
#[derive(Debug, PartialEq, Eq, Hash, Drop)]
pub struct Image {
    pub memory: MemoryImage,
    pub names: NamesImage,
    pub printed: Vec<u8>,
    pub has_faulted: bool,
    /// By identifiers.
    pub members: Vec<Option<MemberImage>>,
}

impl Image {
    /// That of all contexts with what they share, beside the words that stood at the start.
    /// `AllocError`: a growth was refused.
    pub(crate) fn of(
        alloc: Global,
        contexts: &Contexts,
        runtime: &Runtime<Marked<PlainMemory>>,
        first: &[u64],
    ) -> Result<Image, AllocError>
        requires { BeginWithFirst runtime.now.shared.names }
        ensures { IfOk result (λ image. IsImageOf first.now
            (desk (⟦<Marked<PlainMemory> as Memory>⟧.heap runtime.now.memory)
            (⟦<Marked<PlainMemory> as Memory>⟧.grants runtime.now.memory) contexts.now.table
            runtime.now.shared contexts.now.has_faulted) image) }
    {
        Ok(Image {
            memory: MemoryImage::of(alloc, &runtime.memory.memory, first)?,
            names: NamesImage::of(alloc, &runtime.shared.names)?,
            printed: runtime.shared.printed.as_slice().to_vec(alloc)?,
            has_faulted: contexts.has_faulted,
            members: images_of(alloc, &contexts.table)?,
        })
    }
}
