//! Strings that are looked for in others (PLRM2, 8 'search').

ghost use Rattle.std.specs.Prelude.{◌≡◌};
ghost use Rattle.ps_language.specs.Rows.{reading_row};
ghost use Rattle.ps_language.specs.RowsSequences.{search_row};
ghost use Rattle.ps_ops_state.specs.Acts.{Acts};
ghost use Rattle.ps_ops_state.specs.Lent.{lent_of, IsGood};
ghost use Rattle.ps_ops_sequences.specs.Asks.{search_asks};

use crate::string_searches;
use ps_mem::Memory;
use ps_ops_state::breaks::{Break, tried};
use ps_ops_state::lent::{Attempt, Context, Runtime};

/// `S T search behind match before true` at the first place where `S` has the bytes of `T`, else
/// `S false`. Raises `stackunderflow`, `typecheck`, `invalidaccess` and `stackoverflow`. Not made
/// where a list for the bytes of either can't grow.
pub fn search<M: Memory>(context: &mut Context, runtime: &mut Runtime<M>) -> Result<(), Break>
    requires good { IsGood (lent_of M.heap M.grants context.old runtime.old) }
    ensures acts { (attempt : Attempt) → Acts search_asks (reading_row search_row) attempt result
        (lent_of M.heap M.grants context.old runtime.old)
        (lent_of M.heap M.grants context.new runtime.new) }
    ensures frames { context.new.frames ≡ context.old.frames }
{
    let scratch = &mut runtime.shared.scratch;
    tried(string_searches::search(
        &mut context.operands,
        &mut runtime.memory,
        &mut scratch.text,
        &mut scratch.sought,
    ))
}
