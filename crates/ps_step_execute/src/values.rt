//! A value is executed, and an element of a procedure is done (PLRM2, 3.5).

ghost use Rattle.std.specs.Prelude.{◌≡◌, ◌<◌, ◌∷◌, [], ℕ, List, true};
ghost use Rattle.ps_language.specs.StepValues.{is_executable_name};
ghost use Rattle.ps_word.specs.Format.{content_in};
ghost use Rattle.ps_mem.specs.Meaning.{value_of};
ghost use Rattle.ps_mem.specs.Shows.{IsValue};
ghost use Rattle.ps_ops_state.specs.Lent.{lent_of, IsGood};
ghost use Rattle.ps_step_outcome.specs.Turns.{TurnsWith};
ghost use Rattle.ps_step_execute.specs.Values.{done_turn, executed_asks, executed_turn};
ghost use Rattle.ps_step_execute.specs.Values.{executed_what_turn, treated_asks, treated_turn, word_asks};

use crate::enters::{enter, scan_string};
use crate::operates::Operate;
use crate::pushes::{push_frame, push_value};
use ps_language::errors::ErrorName;
use ps_mem::Memory;
use ps_ops_control::frames::Frame;
use ps_ops_operands::failure::NotMade;
use ps_ops_state::lent::{Attempt, Context, Runtime};
use ps_step_lookup::lookups::look_up;
use ps_step_outcome::raises::raise;
use ps_step_outcome::turned::Turned;
use ps_word::values::Content;
use ps_word::words::Word;

/// An executable value by its content: a name waits in a frame of its own, an operator acts, a null
/// does nothing, a procedure is entered, a string is scanned, and all else becomes an operand.
#[inline(always)]
fn execute_content<O: Operate, M: Memory>(
    content: Content,
    word: Word,
    command: Word,
    context: &mut Context,
    runtime: &mut Runtime<M>,
    attempt: Attempt,
) -> Result<Turned, NotMade>
    requires good { IsGood (lent_of M.heap M.grants context.old runtime.old) }
    requires word { IsValue (M.heap runtime.old.memory) word }
    requires command { IsValue (M.heap runtime.old.memory) command }
    requires content { content ≡ content_in word.0 }
    ensures { TurnsWith (word ∷ command ∷ []) [] (word_asks O.asks word)
        (executed_what_turn command word) attempt result
        (lent_of M.heap M.grants context.old runtime.old)
        (lent_of M.heap M.grants context.new runtime.new) }
{
    match content {
        Content::Name(_) => {
            push_frame(Frame::Pending { word }, command, context, runtime, attempt)
        }
        Content::Operator(operator) => O::operate(operator, context, runtime, attempt),
        Content::Null | Content::Body(_) => Ok(Turned::Goes),
        Content::Array(part) => enter(part, command, context, runtime, attempt),
        Content::Text(part) => scan_string(part, command, context, runtime, attempt),
        Content::Integer(_)
        | Content::Boolean(_)
        | Content::Mark
        | Content::Dictionary(_)
        | Content::Lock(_)
        | Content::Condition(_) => push_value(word, command, context, runtime, attempt),
    }
}

/// A value as a name gives it: a literal one becomes an operand, and a name waits.
///
/// Raises with the command `stackoverflow`, `execstackoverflow`, and `invalidaccess` where a
/// procedure or a string can't be executed; or what an operator raises.
///
/// Not made, with nothing changed: as an operator, or the note of an error.
#[inline(always)]
pub fn treat<O: Operate, M: Memory>(
    word: Word,
    command: Word,
    context: &mut Context,
    runtime: &mut Runtime<M>,
    attempt: Attempt,
) -> Result<Turned, NotMade>
    requires good { IsGood (lent_of M.heap M.grants context.old runtime.old) }
    requires word { IsValue (M.heap runtime.old.memory) word }
    requires command { IsValue (M.heap runtime.old.memory) command }
    ensures { TurnsWith (word ∷ command ∷ []) [] (treated_asks O.asks word)
        (treated_turn command word) attempt result
        (lent_of M.heap M.grants context.old runtime.old)
        (lent_of M.heap M.grants context.new runtime.new) }
{
    if !word.is_executable() {
        return push_value(word, command, context, runtime, attempt);
    }
    let content = word.content();
    execute_content::<O, M>(content, word, command, context, runtime, attempt)
}

/// An executable name is looked up, and its value is treated.
///
/// Raises with the command `undefined` where it has no value, `invalidaccess` where a dictionary on
/// the way to it can't be read, and what `treat` raises.
///
/// Not made, with nothing changed: as an operator, or the note of an error.
#[inline(never)]
pub fn execute_name<O: Operate, M: Memory>(
    word: Word,
    command: Word,
    context: &mut Context,
    runtime: &mut Runtime<M>,
    attempt: Attempt,
) -> Result<Turned, NotMade>
    requires good { IsGood (lent_of M.heap M.grants context.old runtime.old) }
    requires word { IsValue (M.heap runtime.old.memory) word }
    requires command { IsValue (M.heap runtime.old.memory) command }
    requires name { (births : ℕ → ℕ) (names : List (List ℕ))
        → is_executable_name (value_of births names word) ≡ true }
    ensures { TurnsWith (word ∷ command ∷ []) [] (executed_asks O.asks word)
        (executed_turn command word) attempt result
        (lent_of M.heap M.grants context.old runtime.old)
        (lent_of M.heap M.grants context.new runtime.new) }
{
    match look_up(&mut runtime.memory, &context.dictionaries, Some(word)) {
        Ok(Some(found)) => treat::<O, M>(found.1, command, context, runtime, attempt),
        Ok(None) => raise(ErrorName::Undefined, command, context, runtime, attempt),
        Err(_) => raise(ErrorName::InvalidAccess, command, context, runtime, attempt),
    }
}

/// Executes a value: an executable name is looked up, and its value is treated in the same step.
///
/// Raises with the command `undefined` for a name that has no value, `invalidaccess` where a
/// dictionary on the way to it can't be read, and what `treat` raises.
///
/// Not made, with nothing changed: as an operator, or the note of an error.
pub fn execute<O: Operate, M: Memory>(
    word: Word,
    command: Word,
    context: &mut Context,
    runtime: &mut Runtime<M>,
    attempt: Attempt,
) -> Result<Turned, NotMade>
    requires good { IsGood (lent_of M.heap M.grants context.old runtime.old) }
    requires word { IsValue (M.heap runtime.old.memory) word }
    requires command { IsValue (M.heap runtime.old.memory) command }
    ensures { TurnsWith (word ∷ command ∷ []) [] (executed_asks O.asks word)
        (executed_turn command word) attempt result
        (lent_of M.heap M.grants context.old runtime.old)
        (lent_of M.heap M.grants context.new runtime.new) }
{
    if !word.is_executable() {
        return push_value(word, command, context, runtime, attempt);
    }
    match word.content() {
        Content::Name(_) => execute_name::<O, M>(word, command, context, runtime, attempt),
        content => execute_content::<O, M>(content, word, command, context, runtime, attempt),
    }
}

/// Does an element: a procedure becomes an operand, and everything else is executed.
///
/// Raises and is not made as `execute`.
#[inline(always)]
pub fn do_element<O: Operate, M: Memory>(
    word: Word,
    command: Word,
    context: &mut Context,
    runtime: &mut Runtime<M>,
    attempt: Attempt,
) -> Result<Turned, NotMade>
    requires good { IsGood (lent_of M.heap M.grants context.old runtime.old) }
    requires word { IsValue (M.heap runtime.old.memory) word }
    requires command { IsValue (M.heap runtime.old.memory) command }
    ensures { TurnsWith (word ∷ command ∷ []) [] (executed_asks O.asks word)
        (done_turn command word) attempt result
        (lent_of M.heap M.grants context.old runtime.old)
        (lent_of M.heap M.grants context.new runtime.new) }
{
    if !word.is_executable() {
        return push_value(word, command, context, runtime, attempt);
    }
    match word.content() {
        Content::Name(_) => execute_name::<O, M>(word, command, context, runtime, attempt),
        Content::Array(_) => push_value(word, command, context, runtime, attempt),
        content => execute_content::<O, M>(content, word, command, context, runtime, attempt),
    }
}
