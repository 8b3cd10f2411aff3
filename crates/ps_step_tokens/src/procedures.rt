//! A token that is a procedure (PLRM2, 3.2.2, 3.11).

ghost use Rattle.std.specs.Prelude.{◌≡◌, ◌<◌, length};
ghost use Rattle.ps_language.specs.Limits.{operand_limit};
ghost use Rattle.ps_language.specs.StepTokens.{names_in};
ghost use Rattle.ps_language.specs.Token.{procedure_token};
ghost use Rattle.ps_ops_state.specs.Lent.{lent_of, IsGood};
ghost use Rattle.ps_step_outcome.specs.Turns.{Turns};
ghost use Rattle.ps_step_tokens.specs.Made.{AreMet, formed_asks, formed_turn, named_asks, named_turn};
ghost use Rattle.ps_step_tokens.specs.Procedures.{tokens_in};
ghost use Rattle.ps_step_tokens.specs.Short.{IsShort};
ghost use Rattle.ps_step_tokens.specs.Tokens.{procedure_asks, token_turn};

use crate::forming::meet_names;
use crate::missing::{first_missing, raise_missing};
use crate::objects::make_elements;
use crate::room::room_of;
use ps_language::errors::ErrorName;
use ps_mem::Memory;
use ps_names::NamesFault;
use ps_ops_operands::failure::NotMade;
use ps_ops_operands::permits::granted;
use ps_ops_operands::plain;
use ps_ops_state::lent::{Attempt, Context, Runtime};
use ps_scan::TokenKind;
use ps_step_outcome::raises::raise;
use ps_step_outcome::turned::Turned;

/// The objects of a procedure whose names are met are made, and it becomes an operand.
///
/// Raises `VMerror` with the command null in a refused step.
///
/// `NeedSpace`: the words of the objects have no room. `Memory`: a growth of the memory or of the
/// list for the words was refused, or the words are past 32 bits. Not made, with nothing changed:
/// also as the note of an error.
fn do_formed<M: Memory>(
    elements: &[TokenKind],
    text: &[u8],
    context: &mut Context,
    runtime: &mut Runtime<M>,
    attempt: Attempt,
) -> Result<Turned, NotMade>
    requires good { IsGood (lent_of M.heap M.grants context.old runtime.old) }
    requires short { IsShort (procedure_token (tokens_in text.now elements.now)) }
    requires met { AreMet runtime.old.shared.names (names_in (tokens_in text.now elements.now)) }
    requires few { length context.old.operands < operand_limit }
    ensures { Turns (formed_asks (tokens_in text.now elements.now))
        (formed_turn (tokens_in text.now elements.now)) attempt result
        (lent_of M.heap M.grants context.old runtime.old)
        (lent_of M.heap M.grants context.new runtime.new) }
{
    if attempt.refused {
        return raise(ErrorName::VmError, plain::null(), context, runtime, attempt);
    }
    let Some(room) = room_of(elements) else {
        return Err(NotMade::Memory);
    };
    if let Err(reason) = granted(&mut runtime.memory, room.words, room.births) {
        return Err(reason);
    }
    if runtime
        .shared
        .scratch
        .words
        .reserve(room.words as usize)
        .is_err()
    {
        return Err(NotMade::Memory);
    }
    let shared = &mut runtime.shared;
    let word = make_elements(
        &mut runtime.memory,
        &shared.names,
        &context.dictionaries,
        text,
        elements,
        &mut shared.scratch.words,
    );
    context.operands.push_reserved(word);
    Ok(Turned::Goes)
}

/// The names of a procedure are met in order, its objects are made, and it becomes an operand.
///
/// Raises with the command null `limitcheck` where the names would be too many, and `VMerror` in a
/// refused step, whose names stay.
///
/// Not made, with nothing changed: as `do_procedure`.
fn do_named<M: Memory>(
    elements: &[TokenKind],
    text: &[u8],
    context: &mut Context,
    runtime: &mut Runtime<M>,
    attempt: Attempt,
) -> Result<Turned, NotMade>
    requires good { IsGood (lent_of M.heap M.grants context.old runtime.old) }
    requires short { IsShort (procedure_token (tokens_in text.now elements.now)) }
    requires few { length context.old.operands < operand_limit }
    ensures { Turns (named_asks (tokens_in text.now elements.now))
        (named_turn (tokens_in text.now elements.now)) attempt result
        (lent_of M.heap M.grants context.old runtime.old)
        (lent_of M.heap M.grants context.new runtime.new) }
{
    let count = runtime.shared.names.len();
    match meet_names(&mut runtime.shared.names, text, elements) {
        Ok(()) => match do_formed(elements, text, context, runtime, attempt) {
            Ok(turned) => Ok(turned),
            Err(reason) => {
                runtime.shared.names.truncate(count);
                Err(reason)
            }
        },
        Err(NamesFault::Full) => raise(
            ErrorName::LimitCheck,
            plain::null(),
            context,
            runtime,
            attempt,
        ),
        Err(NamesFault::Memory) => Err(NotMade::Memory),
        Err(NamesFault::TooLong) => unreachable!(),
    }
}

/// A new procedure becomes an operand, whose names behind `//` are replaced by their values.
///
/// Raises with the command null `stackoverflow` where 500 operands stand; with the name as the
/// command `undefined` or `invalidaccess` for the first name behind `//` that has no value to be
/// had, and meets that name alone; with the command null `limitcheck` where its names would be too
/// many, and `VMerror` in a refused step, whose names stay.
///
/// `NeedSpace`: the words of the objects have no room. `Memory`: a growth of the memory, of the
/// names or of the list for the words was refused, or the words are past 32 bits. Not made, with
/// nothing changed: also as the note of an error.
#[inline(never)]
pub fn do_procedure<M: Memory>(
    elements: &[TokenKind],
    text: &[u8],
    context: &mut Context,
    runtime: &mut Runtime<M>,
    attempt: Attempt,
) -> Result<Turned, NotMade>
    requires good { IsGood (lent_of M.heap M.grants context.old runtime.old) }
    requires short { IsShort (procedure_token (tokens_in text.now elements.now)) }
    ensures { Turns (procedure_asks (tokens_in text.now elements.now))
        (token_turn (procedure_token (tokens_in text.now elements.now))) attempt result
        (lent_of M.heap M.grants context.old runtime.old)
        (lent_of M.heap M.grants context.new runtime.new) }
{
    if context.operands.is_full() {
        return raise(
            ErrorName::StackOverflow,
            plain::null(),
            context,
            runtime,
            attempt,
        );
    }
    let missing = first_missing(
        &mut runtime.memory,
        &runtime.shared.names,
        &context.dictionaries,
        text,
        elements,
    );
    if let Some(name) = missing {
        let span = name.span;
        return raise_missing(name.error, span.of(text), context, runtime, attempt);
    }
    do_named(elements, text, context, runtime, attempt)
}
