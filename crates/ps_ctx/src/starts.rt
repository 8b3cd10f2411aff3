//! All contexts at the start of a run: the first one, and what all will share (PLRM2, 3.7, 7.1).

ghost use Rattle.std.specs.Prelude.{◌≡◌, None, IfOk, IfErr, OnErr};
ghost use Rattle.ps_language.specs.Worlds.{starting_world};
ghost use Rattle.ps_mem.specs.Heap.{SameLogs};
ghost use Rattle.ps_ctx_start.specs.Starts.{IsEmptyHeap, IsStartReason};
ghost use Rattle.ps_ctx_table.specs.Desks.{IsWorld};
ghost use Rattle.ps_ctx.specs.Calls.{over};
ghost use Rattle.ps_ctx.specs.Held.{held, IsSteadyHeld};

use crate::worlds::World;
use ps_ctx_start::start::{Setup, start};
use ps_ctx_table::contexts::Contexts;
use ps_ctx_table::members::{Course, Member};
use ps_ctx_table::table::Table;
use ps_mem::Memory;
use ps_ops_operands::failure::NotMade;
use ps_ops_state::lent::Shared;
use std::alloc::Global;

/// The first context of a program before its first step, and what contexts share beside the memory, over a memory in
/// which nothing stands.
///
/// `NeedSpace`: the first objects have no room. `Memory`: a growth was refused. There is no other,
/// and nothing was made then.
pub fn start_world<'a, M: Memory>(
    alloc: Global,
    memory: &mut M,
    program: &'a [u8],
    setup: Setup,
) -> Result<(World, Shared<'a>), NotMade>
    requires heap { IsEmptyHeap (M.heap memory.old) }
    ensures at { IfOk result (λ made. IsWorld
        (over (M.heap memory.new) (M.grants memory.new) made.1 made.0.contexts)
        (starting_world program.now)) }
    ensures steady { IfOk result (λ made. IsSteadyHeld
        (held (over (M.heap memory.new) (M.grants memory.new) made.1 made.0.contexts) None)) }
    ensures calling { IfOk result (λ made. made.0.calling ≡ None) }
    ensures program { IfOk result (λ made. made.1.program.now ≡ program.now) }
    ensures most { IfOk result (λ made. made.1.printed.most ≡ setup.output) }
    ensures space { (M.heap memory.new).space ≡ (M.heap memory.old).space }
    ensures not_made { OnErr result (M.heap memory.new ≡ M.heap memory.old) }
    ensures reason { IfErr result (λ reason. IsStartReason reason (M.heap memory.old)) }
    ensures logs { SameLogs (M.grants memory.old) (M.grants memory.new) }
{
    let Ok(mut table) = Table::new(alloc) else {
        return Err(NotMade::Memory);
    };
    let (context, shared) = start(alloc, memory, program, setup)?;
    table.push_reserved(Member {
        context,
        course: Course::Running,
        is_detached: false,
    });
    let contexts = Contexts {
        table,
        has_faulted: false,
    };
    let world = World {
        contexts,
        calling: None,
    };
    Ok((world, shared))
}
