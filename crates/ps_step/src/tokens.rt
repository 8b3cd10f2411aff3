//! Tokens that are done by operands alone (PLRM2, 3.2, 3.5).

ghost use Rattle.std.specs.Prelude.{◌≡◌, Some, Ok, ⊤, IsNone, List, length};
ghost use Rattle.ps_mem.specs.Heap.{Heap};
ghost use Rattle.ps_word.specs.declared.words.Word.{Word};
ghost use Rattle.ps_step_execute.specs.Values.{Asks, among};
ghost use Rattle.ps_ops_state.specs.Lent.{IsGood, Lent};
ghost use Rattle.ps_ops_control.specs.Frames.{IsSourceAt};
ghost use Rattle.ps_scan.specs.Shown.{token_of};
ghost use Rattle.ps_step_tokens.specs.Short.{IsShort};
ghost use Rattle.ps_step.specs.Reading.{Reads, ReadsWord, read_to_end};
ghost use Rattle.ps_step.specs.Texts.{IsTaken};
ghost use Rattle.ps_step.specs.Windows.{IsWindow};

use crate::sources::{Cursor, scan_word, scanned_bytes};
use crate::windows::Window;
use ps_mem::Memory;
use ps_names::Names;
use ps_ops_operands::Operands;
use ps_ops_state::lent::{Dictionaries, Shared};
use ps_scan::{ScanFault, Token};
use ps_step_execute::operates::Operate;
use ps_step_execute::pushes::push_quickly;
use ps_step_execute::quick::{Fast, do_quickly};
use ps_step_frames::elements::Element;
use ps_step_tokens::words::word_of;

/// Does a token by operands alone, where that raises no error and forms no name, and tells where it
/// ends. Else nothing has changed, and the error is its word with the value as which that is treated,
/// and where it ends, where its name was met and looked up. The memory stays as it is.
#[inline(always)]
fn do_ahead<O: Operate, M: Memory>(
    token: &Token,
    text: &[u8],
    dictionaries: &Dictionaries,
    names: &Names,
    operands: &mut Operands,
    memory: &mut M,
) -> Result<usize, Option<(Element, usize)>>
    requires good { (l : Lent) × IsGood (record (among (M.heap memory.old) dictionaries.now l)
        { operands = operands.old }) }
    requires short { IsShort (token_of text.now token.now.kind) }
    ensures heap { M.heap memory.new ≡ M.heap memory.old }
    ensures grants { M.grants memory.new ≡ M.grants memory.old }
    ensures reads { Reads O.asks (M.heap memory.old) dictionaries.now names.now text.now result
        (Ok (Some token.now)) operands.old operands.new }
{
    let Some(word) = word_of(&token.kind, text, names) else {
        return Err(None);
    };
    let end = token.end;
    match do_quickly::<O, M>(word, dictionaries, operands, memory, false) {
        Fast::Done => Ok(end),
        Fast::Enters(_) => unreachable!(),
        Fast::Treats(value) => Err(Some((Element { word, value }, end))),
        Fast::Slow => Err(None),
    }
}

/// A token that was scanned becomes an operand, where it is a literal number or a literal name that
/// was met, and there is room; then it ends at the place that is told. Else nothing has changed.
#[inline(always)]
pub fn literal_ahead(
    scanned: &Result<Option<Token>, ScanFault>,
    text: &[u8],
    names: &Names,
    operands: &mut Operands,
) -> Option<usize>
    requires short { IsTaken (λ end. ⊤) text.now scanned.now }
    ensures reads { (asks : Asks) (heap : Heap) (dictionaries : List Word) → Reads asks heap
        dictionaries names.now text.now (read_to_end result) scanned.now operands.old operands.new }
    ensures kept { IsNone result → operands.new ≡ operands.old }
{
    match scanned {
        Ok(Some(token)) => {
            let word = word_of(&token.kind, text, names)?;
            if word.is_executable() {
                return None;
            }
            if push_quickly(word, operands) {
                Some(token.end)
            } else {
                None
            }
        }
        _ => None,
    }
}

/// Does the next token of the program, or of what was read of a string, where it is a number or an
/// executable name, by operands alone, where that raises no error and forms no name, and tells where
/// it ends. Else nothing has changed, and the error is its word with the value as which that is
/// treated, and where it ends, where its name was met and looked up. The memory stays as it is.
#[inline(always)]
pub fn word_ahead<O: Operate, M: Memory>(
    cursor: Cursor,
    window: &Window,
    dictionaries: &Dictionaries,
    shared: &Shared,
    operands: &mut Operands,
    memory: &mut M,
) -> Result<usize, Option<(Element, usize)>>
    requires good { (l : Lent) × IsGood (record (among (M.heap memory.old) dictionaries.now l)
        { operands = operands.old }) }
    requires place { IsSourceAt (M.heap memory.old) (length shared.now.program.now) cursor.source
        cursor.at }
    requires window { IsWindow (M.heap memory.old) cursor.source window.now }
    ensures heap { M.heap memory.new ≡ M.heap memory.old }
    ensures grants { M.grants memory.new ≡ M.grants memory.old }
    ensures reads { ReadsWord O.asks (M.heap memory.old) dictionaries.now shared.now.names
        shared.now.program.now window.now.bytes.items cursor.source cursor.at result operands.old
        operands.new }
{
    let Some(token) = scan_word(cursor, shared.program, window, memory) else {
        return Err(None);
    };
    let text = scanned_bytes(cursor.source, shared.program, window);
    do_ahead::<O, M>(&token, text, dictionaries, &shared.names, operands, memory)
}
