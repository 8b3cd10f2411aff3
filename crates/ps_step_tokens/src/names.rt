//! Tokens that are names (PLRM2, 3.2.2, 3.5, 3.11).

ghost use Rattle.std.specs.Prelude.{◌≡◌, ◌<◌, ◌≤◌, length};
ghost use Rattle.ps_language.specs.Limits.{name_limit, names_limit};
ghost use Rattle.ps_word.specs.Format.{value_in, IsWord};
ghost use Rattle.ps_ops_state.specs.Lent.{lent_of, IsGood};
ghost use Rattle.ps_step_outcome.specs.Turns.{Turns};
ghost use Rattle.ps_step_execute.specs.Values.{IsLent};
ghost use Rattle.ps_step_tokens.specs.Names.{IsName, is_executed, met_asks, met_turn, name_token};
ghost use Rattle.ps_step_tokens.specs.Tokens.{token_asks, token_turn};

use ps_language::errors::ErrorName;
use ps_mem::Memory;
use ps_names::{NameId, NamesFault};
use ps_ops_operands::failure::NotMade;
use ps_ops_operands::plain;
use ps_ops_state::lent::{Attempt, Context, Runtime};
use ps_step_execute::operates::Operate;
use ps_step_execute::pushes::push_value;
use ps_step_execute::values::{do_element, execute_name};
use ps_step_lookup::lookups::look_up;
use ps_step_outcome::raises::raise;
use ps_step_outcome::turned::Turned;
use ps_word::values::{Content, Value};
use ps_word::words::Word;

/// What is done with the name of a token.
#[derive(Clone, Copy, Debug, PartialEq, Eq)]
pub enum NameKind {
    /// It becomes an operand.
    Literal,
    /// It is executed.
    Executable,
    /// Its value is done in its place.
    Immediate,
}

impl NameKind {
    /// Whether the word of the name is executable.
    #[inline]
    pub(crate) fn is_executed(self) -> bool
        ensures { result ≡ is_executed self }
    {
        match self {
            NameKind::Literal => false,
            NameKind::Executable | NameKind::Immediate => true,
        }
    }
}

/// The word of a name.
#[inline]
pub(crate) fn name_word(id: NameId, executable: bool) -> Word
    requires { id.0 < names_limit }
    ensures value { value_in result.0
        ≡ record { content = Content.Name id.0; executable = executable } }
    ensures word { IsWord result.0 }
{
    let value = Value {
        content: Content::Name(id.0),
        executable,
    };
    value.pack()
}

/// The value of a name is done in its place.
#[inline(never)]
fn do_value<O: Operate, M: Memory>(
    word: Word,
    context: &mut Context,
    runtime: &mut Runtime<M>,
    attempt: Attempt,
) -> Result<Turned, NotMade>
    requires good { IsGood (lent_of M.heap M.grants context.old runtime.old) }
    requires word { IsLent
        (lent_of M.heap M.grants context.old runtime.old) word }
    ensures { Turns (met_asks O.asks NameKind.Immediate word) (met_turn NameKind.Immediate word)
        attempt result
        (lent_of M.heap M.grants context.old runtime.old)
        (lent_of M.heap M.grants context.new runtime.new) }
{
    match look_up(&mut runtime.memory, &context.dictionaries, Some(word)) {
        Ok(Some(found)) => do_element::<O, M>(found.1, word, context, runtime, attempt),
        Ok(None) => raise(ErrorName::Undefined, word, context, runtime, attempt),
        Err(_) => raise(ErrorName::InvalidAccess, word, context, runtime, attempt),
    }
}

/// What is done with a name that was met.
#[inline(always)]
fn do_met<O: Operate, M: Memory>(
    kind: NameKind,
    word: Word,
    context: &mut Context,
    runtime: &mut Runtime<M>,
    attempt: Attempt,
) -> Result<Turned, NotMade>
    requires good { IsGood (lent_of M.heap M.grants context.old runtime.old) }
    requires word { IsLent
        (lent_of M.heap M.grants context.old runtime.old) word }
    requires name { IsName (is_executed kind) word }
    ensures { Turns (met_asks O.asks kind word) (met_turn kind word) attempt result
        (lent_of M.heap M.grants context.old runtime.old)
        (lent_of M.heap M.grants context.new runtime.new) }
{
    match kind {
        NameKind::Literal => push_value(word, word, context, runtime, attempt),
        NameKind::Executable => execute_name::<O, M>(word, word, context, runtime, attempt),
        NameKind::Immediate => do_value::<O, M>(word, context, runtime, attempt),
    }
}

/// A name is met, and done by its kind: a literal one becomes an operand, an executable one is
/// executed, and the value of one behind `//` is done in its place.
///
/// Raises `limitcheck` with the command null where the name is new and no more may be met; with the
/// name as the command `stackoverflow`, `undefined`, and `invalidaccess` where a dictionary on the
/// way to its value can't be read, and what its value raises.
///
/// `Memory`: the name is new, and a growth for it was refused. Not made, with nothing changed: also
/// as what is done with the name, which is taken back.
#[inline(always)]
pub fn do_name<O: Operate, M: Memory>(
    kind: NameKind,
    text: &[u8],
    context: &mut Context,
    runtime: &mut Runtime<M>,
    attempt: Attempt,
) -> Result<Turned, NotMade>
    requires good { IsGood (lent_of M.heap M.grants context.old runtime.old) }
    requires short { length text.now ≤ name_limit }
    ensures { Turns (token_asks O.asks (name_token kind text.now))
        (token_turn (name_token kind text.now)) attempt result
        (lent_of M.heap M.grants context.old runtime.old)
        (lent_of M.heap M.grants context.new runtime.new) }
{
    let count = runtime.shared.names.len();
    match runtime.shared.names.intern(text) {
        Ok(id) => {
            let word = name_word(id, kind.is_executed());
            match do_met::<O, M>(kind, word, context, runtime, attempt) {
                Ok(turned) => Ok(turned),
                Err(reason) => {
                    runtime.shared.names.truncate(count);
                    Err(reason)
                }
            }
        }
        Err(NamesFault::Full) => raise(
            ErrorName::LimitCheck,
            plain::null(),
            context,
            runtime,
            attempt,
        ),
        Err(NamesFault::Memory) => Err(NotMade::Memory),
        Err(NamesFault::TooLong) => unreachable!(),
    }
}
