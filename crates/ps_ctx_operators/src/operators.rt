//! The operators that are left to the world, in one dispatch.

use crate::callers::{current_context, give_way, new_condition, new_lock, vm_reclaim, vm_status};
use crate::detaching::call_detach;
use crate::endings::end;
use crate::entering::call_monitor;
use crate::forking::call_fork;
use crate::joining::call_join;
use crate::notifying::call_notify;
use crate::readiness::is_ready;
use crate::retaking::retake;
use crate::waiting::call_wait;
use ps_ctx::deeds::Deeds;
use ps_ctx::notes::Note;
use ps_ctx::worlds::Calling;
use ps_ctx_table::contexts::Contexts;
use ps_mem::Memory;
use ps_ops_operands::failure::NotMade;
use ps_ops_state::lent::{Attempt, Runtime};
use ps_step_outcome::world_operators::WorldOperator;
use std::alloc::Global;

/// Who does them; the stacks of a new context have their room from this allocator.
#[derive(Clone, Copy)]
pub struct WorldOperators {
    pub alloc: Global,
}

impl Deeds for WorldOperators {
    fn call<M: Memory>(
        &mut self,
        calling: Calling,
        contexts: &mut Contexts,
        runtime: &mut Runtime<M>,
        attempt: Attempt,
        shown: Option<(i32, i32)>,
    ) -> Result<Note, NotMade> {
        let caller = calling.caller;
        let same_attempt = attempt;
        match calling.operator {
            WorldOperator::Fork => call_fork(caller, self.alloc, contexts, runtime, attempt, shown),
            WorldOperator::Join => call_join(caller, contexts, runtime, attempt, shown),
            WorldOperator::Detach => call_detach(caller, contexts, runtime, attempt, shown),
            WorldOperator::Monitor => call_monitor(caller, contexts, runtime, attempt, shown),
            WorldOperator::Wait => call_wait(caller, contexts, runtime, attempt, shown),
            WorldOperator::Notify => call_notify(caller, contexts, runtime, attempt, shown),
            WorldOperator::CurrentContext => {
                let done = current_context(caller, contexts, runtime);
                end(calling, done, contexts, runtime, attempt)
            }
            WorldOperator::VmStatus => {
                let done = vm_status(caller, shown, contexts, runtime);
                end(calling, done, contexts, runtime, attempt)
            }
            WorldOperator::VmReclaim => {
                let done = vm_reclaim(caller, contexts, runtime);
                end(calling, done, contexts, runtime, attempt)
            }
            WorldOperator::Lock => {
                let done = new_lock(caller, contexts, runtime, attempt);
                end(calling, done, contexts, runtime, same_attempt)
            }
            WorldOperator::Condition => {
                let done = new_condition(caller, contexts, runtime, attempt);
                end(calling, done, contexts, runtime, same_attempt)
            }
            WorldOperator::Yield => {
                let done = give_way();
                end(calling, done, contexts, runtime, attempt)
            }
        }
    }

    fn retake<M: Memory>(
        &mut self,
        caller: u32,
        contexts: &mut Contexts,
        runtime: &mut Runtime<M>,
        attempt: Attempt,
    ) -> Result<(), NotMade> {
        retake(caller, contexts, runtime, attempt)
    }

    fn is_ready<M: Memory>(
        &self,
        identifier: u32,
        contexts: &Contexts,
        runtime: &mut Runtime<M>,
    ) -> bool {
        is_ready(identifier, contexts, runtime)
    }
}
