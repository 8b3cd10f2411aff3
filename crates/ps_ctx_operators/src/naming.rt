//! The context that an operator names (PLRM2, 7.1).

ghost use Rattle.ps_ctx.specs.Calls.{RunsAt};
ghost use Rattle.ps_ctx_operators.specs.Named.{Names};

use crate::identifiers::context_operand;
use ps_ctx_table::contexts::Contexts;
use ps_language::errors::ErrorName;

/// The identifier on top of the caller's operands, which is left there, of a context that may be
/// named. Raises `stackunderflow`, `typecheck`, and `invalidcontext` where there is no such
/// context, or it is ended or detached (PLRM2, 8 'join', 'detach').
pub(crate) fn named_operand(caller: u32, contexts: &Contexts) -> Result<u32, ErrorName>
    requires runs { RunsAt caller contexts.now.table }
    ensures { Names caller result contexts.now.table }
{
    let Some(member) = contexts.table.get(caller) else {
        unreachable!()
    };
    match context_operand(&member.context.operands) {
        Ok(identifier) => {
            if contexts.named(identifier).is_some() {
                Ok(identifier)
            } else {
                Err(ErrorName::InvalidContext)
            }
        }
        Err(error) => Err(error),
    }
}
