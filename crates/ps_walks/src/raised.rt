//! An error that a context raised, and what had called what failed.

ghost use Rattle.std.specs.Prelude.{◌≡◌, ◌++◌, ◌∷◌, [], IfOk, OnOk, option_map};
ghost use Rattle.std.specs.Option.{option_and_then};
ghost use Rattle.ps_mem.specs.Meaning.{value_of};
ghost use Rattle.ps_ctx_readers.specs.Names.{procedure_name};
ghost use Rattle.ps_language.specs.World.{World as TheWorld};
ghost use Rattle.ps_mem.specs.Heap.{birth_at};
ghost use Rattle.ps_ctx_table.specs.Desks.{IsWorld};
ghost use Rattle.ps_walks.specs.Places as places;
ghost use Rattle.ps_walks.specs.Places.{are_meant, meant};
ghost use Rattle.ps_walks.specs.Walks.{Stands, desk_in};

use crate::taken::{Taken, last_of};
use ps_ctx::worlds::World;
use ps_ctx_readers::contexts::{frame_at, procedure_name_at};
use ps_ctx_readers::frames::FrameView;
use ps_language::errors::ErrorName;
use ps_mem::Memory;
use ps_ops_state::lent::Runtime;
use ps_places::Origins;
use ps_word::words::Word;
use std::alloc::{AllocError, Global};

/// A place in the program, and the name of the procedure that it is in, where that has one.
#[derive(Clone, Copy, Debug, PartialEq, Eq)]
pub(crate) struct CallSite {
    pub(crate) begin: usize,
    pub(crate) procedure: Option<Word>,
}

/// An error as it was raised.
#[derive(Drop)]
pub(crate) struct Raised {
    /// The number of the step, from 1.
    pub(crate) step: u64,
    pub(crate) error: Option<ErrorName>,
    /// What raised it, as text; nothing where the text of the program did.
    pub(crate) command: Option<Vec<u8>>,
    /// Where it was raised, and then each that had called what is before it.
    pub(crate) trail: Vec<CallSite>,
}

impl Raised {
    /// The place of the step that raised it.
    pub(crate) fn at(&self) -> RaisedAt {
        RaisedAt {
            step: self.step,
            begin: match self.trail.as_slice().first() {
                Some(place) => Some(place.begin),
                None => None,
            },
        }
    }
}

/// Where an error was raised.
#[derive(Clone, Copy, Debug, PartialEq, Eq)]
pub struct RaisedAt {
    /// The number of the step in the run's schedule, from 1.
    pub step: u64,
    /// Where what raised it begins in the program; nothing where that doesn't stand there.
    pub begin: Option<usize>,
}

/// A context, the table of origins, the program, and where the last token begins that was taken from it.
#[derive(Clone, Copy)]
pub(crate) struct Map<'m> {
    pub(crate) context: u32,
    pub(crate) program: &'m [u8],
    pub(crate) origins: &'m Origins,
    pub(crate) token: usize,
}

/// Where a step of a context that took this stands, and each frame that it left, as far as they
/// stand in the program.
pub(crate) fn trail_of<M: Memory>(
    alloc: Global,
    taken: Taken,
    map: Map<'_>,
    world: &World,
    runtime: &mut Runtime<M>,
) -> Result<Vec<CallSite>, AllocError>
    requires stands { Stands M.heap M.grants runtime.old world.now }
    ensures heap { M.heap runtime.new.memory ≡ M.heap runtime.old.memory }
    ensures grants { M.grants runtime.new.memory ≡ M.grants runtime.old.memory }
    ensures shared { runtime.new.shared ≡ runtime.old.shared }
    ensures trail { IfOk result (λ trail. (w : TheWorld)
        → IsWorld (desk_in M.heap M.grants runtime.old world.now) w
        → are_meant (birth_at (M.heap runtime.old.memory)) runtime.old.shared.names trail.items
        ≡ places.trail_of map.entry w taken) }
{
    let mut trail = Vec::new(alloc);
    push_call(&mut trail, taken, map, world, runtime)?;
    for depth in 0..usize::MAX {
        let Some(frame) = frame_at(&world.contexts, map.context, depth, runtime) else {
            return Ok(trail);
        };
        let last = last_of(frame, map.token);
        let caller = if depth == 0 {
            caller_of(taken, last)
        } else {
            last
        };
        push_call(&mut trail, caller, map, world, runtime)?;
    }
    // No memory has so many frames.
    Err(AllocError)
}

/// What the topmost frame took last, unless it is what was taken.
fn caller_of(taken: Taken, last: Taken) -> Taken
    ensures { result ≡ places.caller_of taken last }
{
    if is_same(taken, last) {
        Taken::Nothing
    } else {
        last
    }
}

/// Whether one is the very element, token or string that the other is.
fn is_same(taken: Taken, last: Taken) -> bool
    ensures { result ≡ places.is_same taken last }
{
    match (taken, last) {
        (Taken::Token(begin), Taken::Token(other)) => begin == other,
        (Taken::Text(birth), Taken::Text(other)) => birth == other,
        (
            Taken::Element { birth, index },
            Taken::Element {
                birth: other,
                index: place,
            },
        ) => birth == other && index == place,
        _ => false,
    }
}

/// Pushes the place of what a context took behind others, if that stands in the program.
#[tactic(auto, unfolding(crate::specs::Places::calls_of))]
fn push_call<M: Memory>(
    trail: &mut Vec<CallSite>,
    taken: Taken,
    map: Map<'_>,
    world: &World,
    runtime: &mut Runtime<M>,
) -> Result<(), AllocError>
    requires stands { Stands M.heap M.grants runtime.old world.now }
    ensures heap { M.heap runtime.new.memory ≡ M.heap runtime.old.memory }
    ensures grants { M.grants runtime.new.memory ≡ M.grants runtime.old.memory }
    ensures shared { runtime.new.shared ≡ runtime.old.shared }
    ensures pushed { OnOk result ((w : TheWorld)
        → IsWorld (desk_in M.heap M.grants runtime.old world.now) w
        → are_meant (birth_at (M.heap runtime.old.memory)) runtime.old.shared.names trail.new.items
        ≡ are_meant (birth_at (M.heap runtime.old.memory)) runtime.old.shared.names trail.old.items
        ++ places.calls_of map.entry w (taken ∷ [])) }
{
    if let Some(place) = place_of(taken, map, world, runtime) {
        trail.push(place)?;
    }
    Ok(())
}

/// The name of the procedure that something is an element of, where it is one's and that has a name.
fn procedure_of<M: Memory>(
    taken: Taken,
    map: Map<'_>,
    world: &World,
    runtime: &mut Runtime<M>,
) -> Option<Word>
    requires stands { Stands M.heap M.grants runtime.old world.now }
    ensures heap { M.heap runtime.new.memory ≡ M.heap runtime.old.memory }
    ensures grants { M.grants runtime.new.memory ≡ M.grants runtime.old.memory }
    ensures shared { runtime.new.shared ≡ runtime.old.shared }
    ensures name { (w : TheWorld)
        → IsWorld (desk_in M.heap M.grants runtime.old world.now) w → option_map
        (value_of (birth_at (M.heap runtime.old.memory)) runtime.old.shared.names) result
        ≡ option_and_then (procedure_name w map.entry.context) (places.procedure_of taken) }
{
    match taken.procedure() {
        Some(birth) => procedure_name_at(&world.contexts, map.context, birth, runtime),
        None => None,
    }
}

/// Where something stands that a context took, if it stands in the program.
fn place_of<M: Memory>(
    taken: Taken,
    map: Map<'_>,
    world: &World,
    runtime: &mut Runtime<M>,
) -> Option<CallSite>
    requires stands { Stands M.heap M.grants runtime.old world.now }
    ensures heap { M.heap runtime.new.memory ≡ M.heap runtime.old.memory }
    ensures grants { M.grants runtime.new.memory ≡ M.grants runtime.old.memory }
    ensures shared { runtime.new.shared ≡ runtime.old.shared }
    ensures place { (w : TheWorld)
        → IsWorld (desk_in M.heap M.grants runtime.old world.now) w
        → option_map (meant (birth_at (M.heap runtime.old.memory)) runtime.old.shared.names) result
        ≡ places.call_of map.entry w taken }
{
    let begin = taken.place(map.program, map.origins)?;
    let procedure = procedure_of(taken, map, world, runtime);
    Some(CallSite { begin, procedure })
}
