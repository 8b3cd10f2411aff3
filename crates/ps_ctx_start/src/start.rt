//! The first context over an empty memory, with what it shares (PLRM2, 3.7, 7.1).

ghost use Rattle.std.specs.Prelude.{◌≡◌, ◌≤◌, ◌<◌, ◌^◌, [], ◌∷◌, false, IfOk, IfErr, OnErr, vec_capacity};
ghost use Rattle.ps_language.specs.Worlds.{first_names};
ghost use Rattle.ps_mem.specs.Heap.{SameLogs};
ghost use Rattle.ps_ops_state.specs.Lent.{lent, IsEmpty};
ghost use Rattle.ps_ctx_start.specs.declared.words.TheConstants.{SYSTEM_WORDS};
ghost use Rattle.ps_ctx_start.specs.Starts.{IsEmptyHeap, IsStartReason, Starts};
ghost use Rattle.ps_ctx_start.specs.Words as pairs;

use crate::dictionaries::{FirstDictionaries, make_dictionaries};
use crate::words::{SYSTEM_WORDS, word_of};
use ps_mem::Memory;
use ps_names::Names;
use ps_ops_control::frames::{Frame, Frames, Source};
use ps_ops_operands::Operands;
use ps_ops_operands::failure::NotMade;
use ps_ops_operands::permits::granted;
use ps_ops_state::lent::{Context, Dictionaries, Scratch, Shared};
use ps_text::outputs::Output;
use ps_word::values::Content;
use std::alloc::{AllocError, Global};
use std::hash::RandomState;

/// How many words the first dictionaries take.
pub const FIRST_WORDS: u32 = 528;

/// How many birth numbers.
pub const FIRST_BIRTHS: u32 = 3;

/// The bound on printed bytes of a run without one: no memory has as many.
pub const ANY_OUTPUT: u64 = u64::MAX;

/// What a run is set up with beside its program.
#[derive(Clone, Copy)]
pub struct Setup {
    /// The keys of its table of names; they are for that alone.
    pub keys: RandomState,
    /// The most bytes that it may print.
    pub output: u64,
}

impl Setup {
    /// These keys, and no bound on what is printed.
    pub fn unbounded(keys: RandomState) -> Setup
        ensures { result.output ≡ ANY_OUTPUT }
    {
        Setup {
            keys,
            output: ANY_OUTPUT,
        }
    }
}

/// The stacks of a context, with all their room.
#[derive(Drop)]
struct Stacks {
    operands: Operands,
    dictionaries: Dictionaries,
    frames: Frames,
}

/// Empty stacks. `AllocError`: their room can't be had.
fn empty_stacks(alloc: Global) -> Result<Stacks, AllocError>
    ensures operands { IfOk result (λ stacks. stacks.operands ≡ []) }
    ensures dictionaries { IfOk result (λ stacks. stacks.dictionaries ≡ []) }
    ensures frames { IfOk result (λ stacks. stacks.frames ≡ []) }
{
    Ok(Stacks {
        operands: Operands::new(alloc)?,
        dictionaries: Dictionaries::new(alloc)?,
        frames: Frames::new(alloc)?,
    })
}

/// The program with the names that every run has met at its start, nothing printed, and empty lists
/// to read into; that of words has room for the pairs of systemdict. `AllocError`: the names or
/// that room can't be had.
fn first_shared<'a>(
    alloc: Global,
    program: &'a [u8],
    setup: Setup,
) -> Result<Shared<'a>, AllocError>
    ensures program { IfOk result (λ shared. shared.program.now ≡ program.now) }
    ensures names { IfOk result (λ shared. shared.names ≡ first_names) }
    ensures printed { IfOk result (λ shared. shared.printed.bytes ≡ []) }
    ensures most { IfOk result (λ shared. shared.printed.most ≡ setup.output) }
    ensures scratch { IfOk result (λ shared. IsEmpty shared.scratch) }
    ensures room { IfOk result (λ shared. SYSTEM_WORDS ≤ vec_capacity shared.scratch.words) }
{
    let names = Names::with_first(alloc, setup.keys)?;
    let words = Vec::with_capacity(alloc, SYSTEM_WORDS)?;
    Ok(Shared {
        program,
        names,
        printed: Output::new(alloc, setup.output),
        scratch: Scratch {
            text: Vec::new(alloc),
            sought: Vec::new(alloc),
            words,
        },
    })
}

/// The first context, about to scan the program, on empty stacks.
fn first_context(stacks: Stacks, made: FirstDictionaries) -> Context
    requires operands { stacks.operands ≡ [] }
    requires dictionaries { stacks.dictionaries ≡ [] }
    requires frames { stacks.frames ≡ [] }
    requires system { made.system < 2 ^ 24 }
    requires user { made.user < 2 ^ 24 }
    ensures operands { result.operands ≡ [] }
    ensures dictionaries { result.dictionaries ≡ pairs.word_of (Content.Dictionary made.user) false
        ∷ pairs.word_of (Content.Dictionary made.system) false ∷ [] }
    ensures frames { result.frames ≡ Frame.Text Source.Program 0 ∷ [] }
    ensures error { result.error_dictionary ≡ made.error }
{
    let Stacks {
        operands,
        mut dictionaries,
        mut frames,
    } = stacks;
    dictionaries.push_reserved(word_of(Content::Dictionary(made.system), false));
    dictionaries.push_reserved(word_of(Content::Dictionary(made.user), false));
    frames.push_reserved(Frame::Text {
        source: Source::Program,
        at: 0,
    });
    Context {
        operands,
        dictionaries,
        frames,
        error_dictionary: made.error,
    }
}

/// Makes what stands at the start of a run of a program, in a memory in which nothing stands:
/// systemdict, userdict and the first context's `$error`, 528 words together, with the first
/// context and what contexts share. No record is put.
///
/// `NeedSpace`: the 528 words or the birth numbers have no room. `Memory`: a growth was refused, of
/// the memory or of a list. There is no other. Nothing was made then.
pub fn start<'a, M: Memory>(
    alloc: Global,
    memory: &mut M,
    program: &'a [u8],
    setup: Setup,
) -> Result<(Context, Shared<'a>), NotMade>
    requires heap { IsEmptyHeap (M.heap memory.old) }
    ensures starts { IfOk result (λ made. Starts program.now
        (lent (M.heap memory.new) (M.grants memory.new) made.0 made.1)) }
    ensures most { IfOk result (λ made. made.1.printed.most ≡ setup.output) }
    ensures space { (M.heap memory.new).space ≡ (M.heap memory.old).space }
    ensures not_made { OnErr result (M.heap memory.new ≡ M.heap memory.old) }
    ensures reason { IfErr result (λ reason. IsStartReason reason (M.heap memory.old)) }
    ensures logs { SameLogs (M.grants memory.old) (M.grants memory.new) }
{
    let Ok(stacks) = empty_stacks(alloc) else {
        return Err(NotMade::Memory);
    };
    let Ok(mut shared) = first_shared(alloc, program, setup) else {
        return Err(NotMade::Memory);
    };
    granted(memory, FIRST_WORDS, FIRST_BIRTHS)?;
    let made = make_dictionaries(memory, &mut shared.scratch.words);
    Ok((first_context(stacks, made), shared))
}
