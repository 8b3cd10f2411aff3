//! What is kept of the contexts of a world.

ghost use Rattle.std.specs.Prelude.{◌≡◌, IfOk, option_map};
ghost use Rattle.ps_ctx_table.specs.Seats.{item_at};
ghost use Rattle.ps_worlds.specs.Images.{member_in, members_in};

use ps_ctx_table::members::{Course, Member};
use ps_ctx_table::table::Table;
use ps_ops_control::frames::Frame;
use ps_word::words::Word;
use std::alloc::{AllocError, Global};

/// What is kept of a context: its stacks have the topmost last.
#[derive(Debug, PartialEq, Eq, Hash, Drop)]
pub struct MemberImage {
    pub operands: Vec<Word>,
    pub dictionaries: Vec<Word>,
    pub frames: Vec<Frame>,
    /// The address of its own `$error`.
    pub error_dictionary: u32,
    pub course: Course,
    pub is_detached: bool,
}

/// What is kept of a context. `AllocError`: a growth was refused.
fn image_of(alloc: Global, member: &Member) -> Result<MemberImage, AllocError>
    ensures { IfOk result (λ image. member_in image ≡ member.now) }
{
    let context = &member.context;
    let operands = context.operands.topmost(context.operands.len());
    let dictionaries = context.dictionaries.topmost(context.dictionaries.len());
    let frames = context.frames.topmost(context.frames.len());
    Ok(MemberImage {
        operands: operands.to_vec(alloc)?,
        dictionaries: dictionaries.to_vec(alloc)?,
        frames: frames.to_vec(alloc)?,
        error_dictionary: context.error_dictionary,
        course: member.course,
        is_detached: member.is_detached,
    })
}

/// What is kept of the context of an identifier, unless it is gone. `AllocError`: a growth was
/// refused.
fn image_at(
    alloc: Global,
    table: &Table<Member>,
    identifier: u32,
) -> Result<Option<MemberImage>, AllocError>
    ensures { IfOk result (λ image. option_map member_in image
        ≡ item_at table.now identifier) }
{
    match table.get(identifier) {
        Some(member) => Ok(Some(image_of(alloc, member)?)),
        None => Ok(None),
    }
}

/// What is kept of each context, by identifiers; nothing of one that is gone. `AllocError`: a growth
/// was refused.
pub(crate) fn images_of(
    alloc: Global,
    table: &Table<Member>,
) -> Result<Vec<Option<MemberImage>>, AllocError>
    ensures { IfOk result (λ images. members_in images.items ≡ table.now) }
{
    let mut images = Vec::with_capacity(alloc, table.made() as usize)?;
    for behind in 0..table.made() {
        images.push(image_at(alloc, table, behind + 1)?)?;
    }
    Ok(images)
}
