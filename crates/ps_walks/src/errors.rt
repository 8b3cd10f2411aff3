//! The name and the command of an error as `$error` has them.

ghost use Rattle.std.specs.Prelude.{◌≡◌, IfSome};
ghost use Rattle.ps_mem.specs.Shows.{IsSound, IsValue};
ghost use Rattle.ps_walks.specs.Errors as errors;

use ps_ctx_readers::errors::LastError;
use ps_language::errors::ErrorName;
use ps_mem::Memory;
use ps_ops_state::lent::Runtime;
use ps_text::plain::append_plain;
use ps_word::words::Word;
use std::alloc::{AllocError, Global};

/// The errors by the numbers of their names.
const ERRORS: [ErrorName; 16] = [
    ErrorName::DictStackOverflow,
    ErrorName::DictStackUnderflow,
    ErrorName::ExecStackOverflow,
    ErrorName::InvalidAccess,
    ErrorName::InvalidContext,
    ErrorName::InvalidExit,
    ErrorName::LimitCheck,
    ErrorName::RangeCheck,
    ErrorName::StackOverflow,
    ErrorName::StackUnderflow,
    ErrorName::SyntaxError,
    ErrorName::TypeCheck,
    ErrorName::Undefined,
    ErrorName::UndefinedResult,
    ErrorName::UnmatchedMark,
    ErrorName::VmError,
];

/// The error of a name, if it is one's.
pub(crate) fn error_of(word: Option<Word>) -> Option<ErrorName>
    ensures { result ≡ errors.error_of word }
{
    let number = word?.as_name()? as usize;
    if number < ERRORS.len() {
        Some(ERRORS[number])
    } else {
        None
    }
}

/// What raised an error, as `=` shows it; nothing where it is null, or not there.
pub(crate) fn command_of<M: Memory>(
    alloc: Global,
    error: LastError,
    runtime: &mut Runtime<M>,
) -> Result<Option<Vec<u8>>, AllocError>
    requires sound { IsSound (M.heap runtime.old.memory) }
    requires held { IfSome error.command (IsValue (M.heap runtime.old.memory)) }
    ensures heap { M.heap runtime.new.memory ≡ M.heap runtime.old.memory }
    ensures grants { M.grants runtime.new.memory ≡ M.grants runtime.old.memory }
    ensures shared { runtime.new.shared ≡ runtime.old.shared }
{
    let Some(word) = error.command else {
        return Ok(None);
    };
    if word.is_null() {
        return Ok(None);
    }
    let mut text = Vec::new(alloc);
    append_plain(
        &mut runtime.memory,
        &runtime.shared.names,
        word,
        b"",
        &mut text,
    )?;
    Ok(Some(text))
}
