//! Names of strings' characters (PLRM2, 8 'cvn').

ghost use Rattle.std.specs.Prelude.{◌≡◌, ◌<◌, ◌^◌, None};
ghost use Rattle.ps_language.specs.Limits.{names_limit};
ghost use Rattle.ps_language.specs.Rows.{naming_row};
ghost use Rattle.ps_language.specs.RowsTypes.{cvn_row};
ghost use Rattle.ps_ops_state.specs.Acts.{Acts, nothing_asked};
ghost use Rattle.ps_ops_state.specs.Lent.{lent_of, IsGood};
ghost use Rattle.ps_step_lookup.specs.Keys.{word_in};
ghost use Rattle.ps_ops_values.specs.Formed.{IsFormedWord};

use ps_language::errors::ErrorName;
use ps_mem::Memory;
use ps_ops_operands::access::is_readable;
use ps_ops_operands::readers::string_of;
use ps_ops_state::breaks::Break;
use ps_ops_state::lent::{Attempt, Context, Runtime};
use ps_step_lookup::keys::{Key, form_key, name_word, read_key};
use ps_word::words::Word;

/// The literal name of a key that was formed where so many names had been met.
#[inline]
fn formed_word(key: &Key, count: usize) -> Word
    requires { word_in key.now ≡ None → count < names_limit }
    ensures { IsFormedWord key.now count result }
{
    match key {
        Key::Met(word) => *word,
        Key::Unmet(_) | Key::TooLong => name_word(count),
    }
}

/// `S cvn N`: the name of the characters of `S`, with the attribute of `S`.
///
/// Raises `stackunderflow`, `typecheck` where `S` is no string, `invalidaccess`, and `limitcheck`
/// where it is too long for a name or no more names may be met. Not made, by `Memory`, where the
/// growth for a name is refused.
pub fn cvn<M: Memory>(context: &mut Context, runtime: &mut Runtime<M>) -> Result<(), Break>
    requires good { IsGood (lent_of M.heap M.grants context.old runtime.old) }
    ensures acts { (attempt : Attempt) → Acts nothing_asked (naming_row cvn_row) attempt result
        (lent_of M.heap M.grants context.old runtime.old)
        (lent_of M.heap M.grants context.new runtime.new) }
    ensures frames { context.new.frames ≡ context.old.frames }
{
    let Some(string) = context.operands.top() else {
        return Err(Break::Raises(ErrorName::StackUnderflow));
    };
    let Some(part) = string_of(string) else {
        return Err(Break::Raises(ErrorName::TypeCheck));
    };
    if !is_readable(part.access) {
        return Err(Break::Raises(ErrorName::InvalidAccess));
    }
    let key = read_key(&mut runtime.memory, &runtime.shared.names, string);
    let count = runtime.shared.names.len();
    if let Err(fault) = form_key(&mut runtime.shared.names, &key) {
        return Err(fault);
    }
    let name = formed_word(&key, count);
    context
        .operands
        .replace(1, name.with_executable(string.is_executable()));
    Ok(())
}
