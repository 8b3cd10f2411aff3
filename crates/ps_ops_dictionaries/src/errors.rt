//! The dictionary of errors of a context (PLRM2, 3.10.1 '$error').

ghost use Rattle.std.specs.Prelude.{◌≡◌};
ghost use Rattle.ps_language.specs.Rows.{around_row};
ghost use Rattle.ps_language.specs.RowsDictionaries as rows;
ghost use Rattle.ps_ops_state.specs.Acts.{Acts, nothing_asked};
ghost use Rattle.ps_ops_state.specs.Lent.{lent_of, IsGood};

use crate::makes::dictionary_word;
use ps_mem::Memory;
use ps_ops_operands::stack_operators::push;
use ps_ops_state::breaks::{Break, made};
use ps_ops_state::lent::{Attempt, Context, Runtime};

/// `$error D`: the context's own. Raises `stackoverflow`.
pub fn error_dictionary<M: Memory>(
    context: &mut Context,
    runtime: &mut Runtime<M>,
) -> Result<(), Break>
    requires good { IsGood (lent_of M.heap M.grants context.old runtime.old) }
    ensures acts { (attempt : Attempt)
        → Acts nothing_asked (around_row (λ around. rows.error_row around.error_dictionary)) attempt
        result (lent_of M.heap M.grants context.old runtime.old)
        (lent_of M.heap M.grants context.new runtime.new) }
{
    let word = dictionary_word(context.error_dictionary);
    made(push(&mut context.operands, word))
}
