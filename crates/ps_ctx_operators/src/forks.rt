//! A context more, that runs a procedure (PLRM2, 7.1, 8 'fork').

ghost use Rattle.std.specs.Prelude.{◌≡◌, ◌+◌, ◌<◌, ◌≤◌, ◌^◌, ◌++◌, ◌∷◌, [], ℕ, List, Some, Err};
ghost use Rattle.std.specs.Prelude.{IfOk, length, take, drop};
ghost use Rattle.std.specs.Option.{ForSome};
ghost use Rattle.ps_language.specs.Limits.{operand_limit};
ghost use Rattle.ps_ops_state.specs.Acts.{nothing_asked};
ghost use Rattle.ps_ops_state.specs.Lent.{lent_of, IsGood};
ghost use Rattle.ps_ctx_operators.specs.Forks.{procedure_frames, Forks, IsForked};
ghost use Rattle.ps_ctx_operators.specs.Rows as rows;

use crate::stacks::push_all;
use ps_ctx_start::dictionaries::make_error_dictionary;
use ps_language::errors::ErrorName;
use ps_mem::Memory;
use ps_ops_control::frames::{Frame, Frames, push_frame};
use ps_ops_control::readers::procedure_of;
use ps_ops_operands::access::is_executable;
use ps_ops_operands::permits::granted;
use ps_ops_operands::stack_operators::mark_depth;
use ps_ops_operands::{Operands, plain};
use ps_ops_state::breaks::Break;
use ps_ops_state::lent::{Attempt, Context, Dictionaries, Runtime};
use ps_word::values::Part;
use std::alloc::{AllocError, Global};
use thiserror::Error;

/// How many words a new `$error` takes.
const ERROR_WORDS: u32 = 32;

/// Why there is no context more. Nothing has changed.
#[derive(Clone, Copy, Debug, PartialEq, Eq, Error)]
pub enum Unforked {
    /// As of every operator.
    #[error(transparent)]
    Breaks(Break),
    /// The room of its stacks can't be had.
    #[error("no room for the stacks of a context")]
    NoStacks,
}

/// Empty stacks, with all their room. `AllocError`: it can't be had.
fn empty_context(alloc: Global) -> Result<Context, AllocError>
    ensures operands { IfOk result (λ context. context.operands ≡ []) }
    ensures dictionaries { IfOk result (λ context. context.dictionaries ≡ []) }
    ensures frames { IfOk result (λ context. context.frames ≡ []) }
{
    Ok(Context {
        operands: Operands::new(alloc)?,
        dictionaries: Dictionaries::new(alloc)?,
        frames: Frames::new(alloc)?,
        error_dictionary: 0,
    })
}

/// Gives an empty context what it begins with: so many operands, which stand on its parent's stack
/// above a mark and below the procedure, its parent's dictionary stack, and the procedure, unless
/// it is empty.
fn begin(begun: &mut Context, parent: &Context, count: usize, body: Part)
    requires operands { begun.old.operands ≡ [] }
    requires dictionaries { begun.old.dictionaries ≡ [] }
    requires frames { begun.old.frames ≡ [] }
    requires count { count ≤ length parent.now.operands }
    requires small { count ≤ operand_limit }
    ensures operands { begun.new.operands ≡ take count parent.now.operands }
    ensures dictionaries { begun.new.dictionaries ≡ parent.now.dictionaries }
    ensures frames { begun.new.frames ≡ procedure_frames body }
    ensures error { begun.new.error_dictionary ≡ begun.old.error_dictionary }
{
    push_all(&mut begun.operands, parent.operands.topmost(count));
    let dictionaries = parent.dictionaries.len();
    push_all(
        &mut begun.dictionaries,
        parent.dictionaries.topmost(dictionaries),
    );
    if body.length > 0 {
        push_frame(&mut begun.frames, Frame::Procedure { rest: body });
    }
}

/// `m x1..xn P fork i`: a context that runs the procedure over all above the mark, which goes over
/// to it in order, on a copy of its parent's dictionary stack and with a new `$error` of 32 words;
/// of an empty procedure it has no frame. The parent gets its identifier, the seat; `None` is where
/// there may be no context more.
///
/// Raises `stackunderflow`, `typecheck` where `P` is no procedure, `unmatchedmark`, `invalidaccess`
/// where it can't be executed, `limitcheck` where there is no seat, and `VMerror` in a refused
/// step. `NeedSpace`: the words or their birth number have no room. `Memory`: a growth was refused.
/// `NoStacks`: the room of its stacks can't be had.
pub fn fork<M: Memory>(
    seat: Option<u32>,
    alloc: Global,
    context: &mut Context,
    runtime: &mut Runtime<M>,
    attempt: Attempt,
) -> Result<Context, Unforked>
    requires seat { ForSome seat (λ identifier. identifier < 2 ^ 31) }
    requires good { IsGood (lent_of M.heap M.grants context.old runtime.old) }
    ensures forks { Forks seat attempt result
        (lent_of M.heap M.grants context.old runtime.old)
        (lent_of M.heap M.grants context.new runtime.new) }
    ensures forked { IfOk result (λ begun. IsForked
        (lent_of M.heap M.grants context.old runtime.old)
        (lent_of M.heap M.grants begun runtime.new)) }
{
    let Some(top) = context.operands.top() else {
        return Err(Unforked::Breaks(Break::Raises(ErrorName::StackUnderflow)));
    };
    let Some(body) = procedure_of(top) else {
        return Err(Unforked::Breaks(Break::Raises(ErrorName::TypeCheck)));
    };
    let Some(depth) = mark_depth(&context.operands) else {
        return Err(Unforked::Breaks(Break::Raises(ErrorName::UnmatchedMark)));
    };
    if !is_executable(body.access) {
        return Err(Unforked::Breaks(Break::Raises(ErrorName::InvalidAccess)));
    }
    let Some(identifier) = seat else {
        return Err(Unforked::Breaks(Break::Raises(ErrorName::LimitCheck)));
    };
    if attempt.refused {
        return Err(Unforked::Breaks(Break::Raises(ErrorName::VmError)));
    }
    let Ok(mut begun) = empty_context(alloc) else {
        return Err(Unforked::NoStacks);
    };
    if let Err(reason) = granted(&mut runtime.memory, ERROR_WORDS, 1) {
        return Err(Unforked::Breaks(Break::NotMade(reason)));
    }
    begun.error_dictionary = make_error_dictionary(&mut runtime.memory);
    context.operands.discard(1);
    begin(&mut begun, context, depth - 1, body);
    context
        .operands
        .replace(depth, plain::integer(identifier as i32));
    Ok(begun)
}
