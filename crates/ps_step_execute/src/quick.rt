//! An element of a procedure is done by operands and frames alone, or it is known as which value it
//! is treated (PLRM2, 3.5).

ghost use Rattle.std.specs.Prelude.{◌≡◌, IsTrue};
ghost use Rattle.ps_word.specs.declared.values.Part.{Part as ThePart};
ghost use Rattle.ps_mem.specs.Shows.{IsValue};
ghost use Rattle.ps_ops_state.specs.Lent.{IsGood, Lent};
ghost use Rattle.ps_step_execute.specs.Quick.{ComesTo, came_or};
ghost use Rattle.ps_step_execute.specs.Values.{among};

use crate::ahead::treat_ahead;
use crate::operates::Operate;
use crate::pushes::push_quickly;
use ps_mem::Memory;
use ps_ops_control::ahead::Ahead;
use ps_ops_operands::Operands;
use ps_ops_state::lent::Dictionaries;
use ps_step_lookup::lookups::look_up_name;
use ps_word::values::{Content, Part};
use ps_word::words::Word;

/// What the fast path came to, by operands and frames alone.
#[derive(Clone, Copy, Debug, PartialEq, Eq)]
pub enum Fast<T> {
    /// All of it is done.
    Done,
    /// It is done, and this procedure is entered, which isn't empty. Its frame isn't pushed.
    Enters(Part),
    /// Nothing has changed, and what is to be treated is known.
    Treats(T),
    /// Nothing has changed, and no more is known: it is left to the slow path.
    Slow,
}

/// What an element came to ahead, or this.
#[inline]
fn came_or(came: Ahead, left: Fast<Word>) -> Fast<Word>
    ensures { result ≡ came_or came left }
{
    match came {
        Ahead::Goes => Fast::Done,
        Ahead::Enters(body) => Fast::Enters(body),
        Ahead::Left => left,
    }
}

/// Does an element by operands and frames alone, where that raises no error: a literal value or a
/// procedure becomes an operand, an operator acts ahead, and a name is looked up and its value
/// treated ahead, over what is good for some context. A procedure is entered only where one may be.
/// Else it tells as which value the element is treated. The memory stays as it is.
#[inline(always)]
pub fn do_quickly<O: Operate, M: Memory>(
    word: Word,
    dictionaries: &Dictionaries,
    operands: &mut Operands,
    memory: &mut M,
    may_enter: bool,
) -> Fast<Word>
    requires good { (l : Lent) × IsGood (record (among (M.heap memory.old) dictionaries.now l)
        { operands = operands.old }) }
    requires word { IsValue (M.heap memory.old) word }
    ensures heap { M.heap memory.new ≡ M.heap memory.old }
    ensures grants { M.grants memory.new ≡ M.grants memory.old }
    ensures comes { ComesTo O.asks (M.heap memory.old) dictionaries.now word result operands.old
        operands.new }
    ensures enters { (body : ThePart) → result ≡ Fast.Enters body → IsTrue may_enter }
{
    if !word.is_executable() {
        let came = Ahead::of(push_quickly(word, operands));
        return came_or(came, Fast::Treats(word));
    }
    if let Some(operator) = word.executable_operator() {
        let came = O::operate_ahead(operator, operands, memory, may_enter);
        return came_or(came, Fast::Treats(word));
    }
    // Asked for before a name: what a look-up keeps would else be kept beside a procedure.
    if let Content::Array(_) = word.content() {
        let came = Ahead::of(push_quickly(word, operands));
        return came_or(came, Fast::Slow);
    }
    match word.content() {
        Content::Name(name) => {
            let Some(value) = look_up_name(memory, dictionaries, word, name) else {
                return Fast::Slow;
            };
            let came = treat_ahead::<O, M>(value, operands, memory, may_enter);
            came_or(came, Fast::Treats(value))
        }
        _ => Fast::Treats(word),
    }
}
