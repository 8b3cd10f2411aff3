//! Names behind `//` in a procedure that have no value to be had (PLRM2, 3.11).

ghost use Rattle.std.specs.Prelude.{◌≡◌, ◌<◌, ◌≤◌, length, option_map, IfSome};
ghost use Rattle.ps_language.specs.Limits.{name_limit};
ghost use Rattle.ps_language.specs.StepTokens.{missing_in};
ghost use Rattle.ps_language.specs.Value.{Store};
ghost use Rattle.ps_names.specs.Names.{AreNames};
ghost use Rattle.ps_mem.specs.Heap.{Heap};
ghost use Rattle.ps_mem.specs.Shows.{AreValues, IsSound, IsValue, Shows};
ghost use Rattle.ps_scan.specs.Shown.{part_of, token_of};
ghost use Rattle.ps_ops_state.specs.Lent.{lent_of, IsGood};
ghost use Rattle.ps_step_outcome.specs.Turns.{Turns, nothing_more};
ghost use Rattle.ps_step_tokens.specs.Missing.{IsMetKey, error_of, look_by, missing_of, missing_turn};
ghost use Rattle.ps_step_tokens.specs.Procedures.{token_in, tokens_in};
ghost use Rattle.ps_step_tokens.specs.Short.{AreShort, IsShort};

use crate::names::name_word;
use ps_language::errors::ErrorName;
use ps_mem::Memory;
use ps_names::{Names, NamesFault};
use ps_ops_operands::failure::NotMade;
use ps_ops_operands::plain;
use ps_ops_state::lent::{Attempt, Context, Dictionaries, Runtime};
use ps_scan::{Span, TokenKind};
use ps_step_lookup::lookups::look_up;
use ps_step_outcome::raises::raise;
use ps_step_outcome::turned::Turned;
use ps_word::words::Word;

/// A name that has no value to be had, by its place in a text, and why.
#[derive(Clone, Copy, Debug, PartialEq, Eq)]
pub(crate) struct MissingName {
    pub span: Span,
    pub error: ErrorName,
}

/// The word of a name as a key, where it was met.
fn met_key(names: &Names, text: &[u8]) -> Option<Word>
    ensures held { (h : Heap) → IfSome result (IsValue h) }
    ensures key { IsMetKey names.now text.now result }
    ensures names { AreNames names.now }
{
    match names.find(text) {
        Some(id) => Some(name_word(id, true)),
        None => None,
    }
}

/// Why a name has no value: `Undefined`, or `InvalidAccess` where a dictionary on the way to it
/// can't be read. No name is met.
fn look_up_error<M: Memory>(
    memory: &mut M,
    names: &Names,
    dictionaries: &Dictionaries,
    text: &[u8],
) -> Option<ErrorName>
    requires sound { IsSound (M.heap memory.old) }
    requires dictionaries { AreValues (M.heap memory.old) dictionaries.now }
    ensures heap { M.heap memory.new ≡ M.heap memory.old }
    ensures grants { M.grants memory.new ≡ M.grants memory.old }
    ensures value { (s : Store) → Shows (M.heap memory.old) names.now s → result
        ≡ error_of (look_by (M.heap memory.old) names.now dictionaries.now s text.now) }
{
    let key = met_key(names, text);
    match look_up(memory, dictionaries, key) {
        Ok(Some(_)) => None,
        Ok(None) => Some(ErrorName::Undefined),
        Err(_) => Some(ErrorName::InvalidAccess),
    }
}

/// The first such name of a procedure, those within it too.
#[cycle(missing)]
pub(crate) fn first_missing<M: Memory>(
    memory: &mut M,
    names: &Names,
    dictionaries: &Dictionaries,
    text: &[u8],
    elements: &[TokenKind],
) -> Option<MissingName>
    requires sound { IsSound (M.heap memory.old) }
    requires dictionaries { AreValues (M.heap memory.old) dictionaries.now }
    requires short { AreShort (tokens_in text.now elements.now) }
    ensures heap { M.heap memory.new ≡ M.heap memory.old }
    ensures grants { M.grants memory.new ≡ M.grants memory.old }
    ensures short { IfSome result
        (λ missing. length (part_of text.now missing.span) ≤ name_limit) }
    ensures value { (s : Store) → Shows (M.heap memory.old) names.now s
        → option_map (missing_of text.now) result
        ≡ missing_in (look_by (M.heap memory.old) names.now dictionaries.now s)
        (tokens_in text.now elements.now) }
{
    for element in elements {
        let missing = element_missing(memory, names, dictionaries, text, element);
        if missing.is_some() {
            return missing;
        }
    }
    None
}

/// The same of one element.
#[cycle(missing)]
fn element_missing<M: Memory>(
    memory: &mut M,
    names: &Names,
    dictionaries: &Dictionaries,
    text: &[u8],
    element: &TokenKind,
) -> Option<MissingName>
    requires sound { IsSound (M.heap memory.old) }
    requires dictionaries { AreValues (M.heap memory.old) dictionaries.now }
    requires short { IsShort (token_of text.now element.now) }
    ensures heap { M.heap memory.new ≡ M.heap memory.old }
    ensures grants { M.grants memory.new ≡ M.grants memory.old }
    ensures short { IfSome result
        (λ missing. length (part_of text.now missing.span) ≤ name_limit) }
    ensures value { (s : Store) → Shows (M.heap memory.old) names.now s
        → option_map (missing_of text.now) result
        ≡ missing_in (look_by (M.heap memory.old) names.now dictionaries.now s)
        (token_in text.now element.now) }
{
    match element {
        TokenKind::ImmediateName(span) => {
            let span = *span;
            let error = look_up_error(memory, names, dictionaries, span.of(text))?;
            Some(MissingName { span, error })
        }
        TokenKind::Procedure(inner) => first_missing(memory, names, dictionaries, text, inner),
        TokenKind::Integer(_)
        | TokenKind::LiteralName(_)
        | TokenKind::ExecutableName(_)
        | TokenKind::Text(_) => None,
    }
}

/// A missing name is met, and its error is raised with it as the command.
///
/// Raises `limitcheck` with the command null where it is new and no more names may be met.
///
/// `Memory`: the name is new, and a growth for it was refused. Not made, with nothing changed: also
/// as the note of an error.
pub(crate) fn raise_missing<M: Memory>(
    error: ErrorName,
    text: &[u8],
    context: &mut Context,
    runtime: &mut Runtime<M>,
    attempt: Attempt,
) -> Result<Turned, NotMade>
    requires good { IsGood (lent_of M.heap M.grants context.old runtime.old) }
    requires short { length text.now ≤ name_limit }
    ensures { Turns nothing_more (missing_turn error text.now) attempt result
        (lent_of M.heap M.grants context.old runtime.old)
        (lent_of M.heap M.grants context.new runtime.new) }
{
    let count = runtime.shared.names.len();
    match runtime.shared.names.intern(text) {
        Ok(id) => match raise(error, name_word(id, true), context, runtime, attempt) {
            Ok(turned) => Ok(turned),
            Err(reason) => {
                runtime.shared.names.truncate(count);
                Err(reason)
            }
        },
        Err(NamesFault::Full) => raise(
            ErrorName::LimitCheck,
            plain::null(),
            context,
            runtime,
            attempt,
        ),
        Err(NamesFault::Memory) => Err(NotMade::Memory),
        Err(NamesFault::TooLong) => unreachable!(),
    }
}
