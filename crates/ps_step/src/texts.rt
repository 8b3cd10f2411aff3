//! A step by a text: its next token is taken and done (PLRM2, 3.2, 3.5).

ghost use Rattle.std.specs.Prelude.{◌≡◌, ℕ, ◌<◌, ◌≤◌, ◌+◌, ◌-◌, ◌^◌, ⊤, drop, length, Some, OnOk};
ghost use Rattle.ps_language.specs.Token.{found};
ghost use Rattle.ps_ops_state.specs.Lent.{lent_of, IsGood, IsShown};
ghost use Rattle.ps_ops_control.specs.Frames.{IsSourceAt, source_of};
ghost use Rattle.ps_mem.specs.Heap.{birth_at};
ghost use Rattle.ps_language.specs.Value.{Store};
ghost use Rattle.ps_scan.specs.Shown.{token_of};
ghost use Rattle.ps_stacks.specs.Tops.{first_of};
ghost use Rattle.ps_step_tokens.specs.Short.{IsShort};
ghost use Rattle.ps_step_outcome.specs.Turns.{Turns};
ghost use Rattle.ps_step_frames.specs.Steps.{running_turn};
ghost use Rattle.ps_step.specs.Reading.{read_to, IsRead, Takes};
ghost use Rattle.ps_step.specs.Texts.{IsFaulty, IsScanned, Starves, IsTaken, scan_at};
ghost use Rattle.ps_step.specs.Texts.{scanned_asks, text_asks};
ghost use Rattle.ps_step.specs.Windows.{IsWindow};

use crate::sources::{Cursor, scan_source, scanned_bytes};
use crate::tokens::{literal_ahead, word_ahead};
use crate::windows::Window;
use ps_language::errors::ErrorName;
use ps_mem::Memory;
use ps_ops_control::frames::{Frame, replace_top};
use ps_ops_operands::failure::NotMade;
use ps_ops_operands::plain;
use ps_ops_state::lent::{Attempt, Context, Runtime};
use ps_scan::{ScanFault, Token};
use ps_step_execute::operates::Operate;
use ps_step_execute::values::treat;
use ps_step_frames::elements::Element;
use ps_step_frames::frames::drop_top;
use ps_step_outcome::raises::raise;
use ps_step_outcome::turned::Turned;
use ps_step_tokens::tokens::do_token;

/// A token that was scanned is taken, and done.
///
/// Not made, with nothing changed: as the token.
#[inline(always)]
fn take_token<O: Operate, M: Memory>(
    cursor: Cursor,
    token: &Token,
    text: &[u8],
    context: &mut Context,
    runtime: &mut Runtime<M>,
    attempt: Attempt,
) -> Result<Turned, NotMade>
    requires good { IsGood (lent_of M.heap M.grants context.old runtime.old) }
    requires top { first_of context.old.frames ≡ Some (Frame.Text cursor.source cursor.at) }
    requires short { IsShort (token_of text.now token.now.kind) }
    requires further { IsSourceAt (M.heap runtime.old.memory)
        (length runtime.old.shared.program.now) cursor.source token.now.end }
    requires scanned { (s : Store) → IsShown
        (lent_of M.heap M.grants context.old runtime.old) s
        → scan_at cursor.source cursor.at
        (lent_of M.heap M.grants context.old runtime.old) s
        ≡ found (token_of text.now token.now.kind) token.now.end }
    ensures { Turns (λ l s.
        scanned_asks O.asks cursor.source (drop 1 context.old.frames) (scan_at cursor.source
        cursor.at l s) l s)
        running_turn attempt result
        (lent_of M.heap M.grants context.old runtime.old)
        (lent_of M.heap M.grants context.new runtime.new) }
{
    replace_top(
        &mut context.frames,
        Frame::Text {
            source: cursor.source,
            at: token.end,
        },
    );
    match do_token::<O, M>(&token.kind, text, context, runtime, attempt) {
        Ok(turned) => Ok(turned),
        Err(reason) => {
            replace_top(
                &mut context.frames,
                Frame::Text {
                    source: cursor.source,
                    at: cursor.at,
                },
            );
            Err(reason)
        }
    }
}

/// A fault is raised, with the command null: `syntaxerror` or `limitcheck`.
///
/// `Memory`: there was none to scan. Not made, with nothing changed: also as the note of an error.
#[inline(never)]
fn fault_turn<O: Operate, M: Memory>(
    cursor: Cursor,
    fault: ScanFault,
    context: &mut Context,
    runtime: &mut Runtime<M>,
    attempt: Attempt,
) -> Result<Turned, NotMade>
    requires good { IsGood (lent_of M.heap M.grants context.old runtime.old) }
    requires top { first_of context.old.frames ≡ Some (Frame.Text cursor.source cursor.at) }
    requires fault { (s : Store) → IsShown
        (lent_of M.heap M.grants context.old runtime.old) s
        → let outcome = scan_at cursor.source cursor.at
        (lent_of M.heap M.grants context.old runtime.old) s in
        IsFaulty (Starves (source_of (birth_at (M.heap runtime.old.memory)) cursor.source) outcome)
        fault
        outcome }
    ensures { Turns (text_asks O.asks cursor.source cursor.at (drop 1 context.old.frames))
        running_turn attempt
        result
        (lent_of M.heap M.grants context.old runtime.old)
        (lent_of M.heap M.grants context.new runtime.new) }
{
    match fault {
        ScanFault::Syntax => raise(
            ErrorName::SyntaxError,
            plain::null(),
            context,
            runtime,
            attempt,
        ),
        ScanFault::Limit => raise(
            ErrorName::LimitCheck,
            plain::null(),
            context,
            runtime,
            attempt,
        ),
        ScanFault::Memory => Err(NotMade::Memory),
    }
}

/// What was scanned of a text is taken: a token is done; with none left the frame goes. Raises
/// `syntaxerror` and `limitcheck` with the command null where there is a fault, and what the token
/// raises.
///
/// `Memory`: there was none to scan. Not made, with nothing changed: also as the token, or the note
/// of an error.
#[inline(never)]
fn scanned_turn<O: Operate, M: Memory>(
    cursor: &Cursor,
    scanned: Result<Option<Token>, ScanFault>,
    text: &[u8],
    context: &mut Context,
    runtime: &mut Runtime<M>,
    attempt: Attempt,
) -> Result<Turned, NotMade>
    requires good { IsGood (lent_of M.heap M.grants context.old runtime.old) }
    requires top { first_of context.old.frames ≡ Some (Frame.Text cursor.now.source cursor.now.at) }
    requires scanned { (s : Store) → IsShown
        (lent_of M.heap M.grants context.old runtime.old) s
        → let outcome = scan_at cursor.now.source cursor.now.at
        (lent_of M.heap M.grants context.old runtime.old) s in
        IsScanned (Starves (source_of (birth_at (M.heap runtime.old.memory)) cursor.now.source)
        outcome)
        text.now
        scanned outcome }
    requires token { IsTaken
        (IsSourceAt (M.heap runtime.old.memory) (length runtime.old.shared.program.now)
        cursor.now.source)
        text.now
        scanned }
    ensures { Turns (text_asks O.asks cursor.now.source cursor.now.at (drop 1 context.old.frames))
        running_turn
        attempt
        result
        (lent_of M.heap M.grants context.old runtime.old)
        (lent_of M.heap M.grants context.new runtime.new) }
{
    match scanned {
        Ok(None) => {
            drop_top(&mut context.frames);
            Ok(Turned::Goes)
        }
        Ok(Some(token)) => take_token::<O, M>(*cursor, &token, text, context, runtime, attempt),
        Err(fault) => fault_turn::<O, M>(*cursor, fault, context, runtime, attempt),
    }
}

/// A token is done as its value is treated, and the frame of the text goes on behind it. Raises
/// what the value raises, with the token's word as the command.
///
/// Not made, with nothing changed but for the frame, which is read up to the token: as the value.
#[inline(never)]
fn treat_token<O: Operate, M: Memory>(
    cursor: &Cursor,
    element: Element,
    end: usize,
    context: &mut Context,
    runtime: &mut Runtime<M>,
    attempt: Attempt,
) -> Result<Turned, NotMade>
    requires framed { 1 ≤ length context.old.frames }
    requires good { IsGood (read_to cursor.now.source cursor.now.at
        (lent_of M.heap M.grants context.old runtime.old)) }
    requires read { IsRead O.asks cursor.now.source cursor.now.at element.word element.value end
        (read_to cursor.now.source cursor.now.at
        (lent_of M.heap M.grants context.old runtime.old)) }
    ensures { Turns (text_asks O.asks cursor.now.source cursor.now.at (drop 1 context.old.frames))
        running_turn
        attempt
        result (read_to cursor.now.source cursor.now.at
        (lent_of M.heap M.grants context.old runtime.old))
        (lent_of M.heap M.grants context.new runtime.new) }
{
    let behind = Frame::Text {
        source: cursor.source,
        at: end,
    };
    replace_top(&mut context.frames, behind);
    match treat::<O, M>(element.value, element.word, context, runtime, attempt) {
        Ok(turned) => Ok(turned),
        Err(reason) => {
            let before = Frame::Text {
                source: cursor.source,
                at: cursor.at,
            };
            replace_top(&mut context.frames, before);
            Err(reason)
        }
    }
}

/// What was scanned of a text behind a place is taken: a literal is pushed, and the memory stays as
/// it is; or the frame goes on from that place and the turn is made. It tells where a token ends that
/// was done by operands alone; else what the turn came to is the error.
#[inline(always)]
fn take_scanned<O: Operate, M: Memory>(
    cursor: &Cursor,
    scanned: Result<Option<Token>, ScanFault>,
    text: &[u8],
    context: &mut Context,
    runtime: &mut Runtime<M>,
    attempt: Attempt,
) -> Result<usize, Result<Turned, NotMade>>
    requires framed { 1 ≤ length context.old.frames }
    requires good { IsGood (read_to cursor.now.source cursor.now.at
        (lent_of M.heap M.grants context.old runtime.old)) }
    requires scanned { (s : Store) → IsShown (read_to cursor.now.source cursor.now.at
        (lent_of M.heap M.grants context.old runtime.old)) s
        → let outcome = scan_at cursor.now.source cursor.now.at
        (lent_of M.heap M.grants context.old runtime.old) s in
        IsScanned (Starves (source_of (birth_at (M.heap runtime.old.memory)) cursor.now.source)
        outcome)
        text.now
        scanned outcome }
    requires token { IsTaken
        (IsSourceAt (M.heap runtime.old.memory) (length runtime.old.shared.program.now)
        cursor.now.source)
        text.now
        scanned }
    ensures takes { Takes O.asks cursor.now.source cursor.now.at attempt result
        (lent_of M.heap M.grants context.old runtime.old)
        (lent_of M.heap M.grants context.new runtime.new) }
    ensures heap { OnOk result (M.heap runtime.new.memory ≡ M.heap runtime.old.memory) }
{
    match literal_ahead(&scanned, text, &runtime.shared.names, &mut context.operands) {
        Some(end) => Ok(end),
        None => {
            let top = Frame::Text {
                source: cursor.source,
                at: cursor.at,
            };
            replace_top(&mut context.frames, top);
            Err(scanned_turn::<O, M>(cursor, scanned, text, context, runtime, attempt))
        }
    }
}

/// The next token of a text behind a place is taken. Where the window doesn't have it, a string is
/// read into it as it stands now, as far as the token takes. It tells what `take_scanned` does.
#[inline(always)]
fn take_next<O: Operate, M: Memory>(
    cursor: &Cursor,
    window: &mut Window,
    context: &mut Context,
    runtime: &mut Runtime<M>,
    attempt: Attempt,
) -> Result<usize, Result<Turned, NotMade>>
    requires framed { 1 ≤ length context.old.frames }
    requires good { IsGood (read_to cursor.now.source cursor.now.at
        (lent_of M.heap M.grants context.old runtime.old)) }
    requires window { IsWindow (M.heap runtime.old.memory) cursor.now.source window.old }
    ensures takes { Takes O.asks cursor.now.source cursor.now.at attempt result
        (lent_of M.heap M.grants context.old runtime.old)
        (lent_of M.heap M.grants context.new runtime.new) }
    ensures window { OnOk result
        (IsWindow (M.heap runtime.new.memory) cursor.now.source window.new) }
{
    let alloc = *runtime.shared.scratch.text.allocator();
    let program = runtime.shared.program;
    let scanned = scan_source(*cursor, program, window, &mut runtime.memory, alloc);
    let text = scanned_bytes(cursor.source, program, window);
    take_scanned::<O, M>(cursor, scanned, text, context, runtime, attempt)
}

/// The next token of a text behind a place is taken, as `take_next` does, but a number or an
/// executable name is scanned in line. It tells where a token ends that was done by operands alone;
/// else what the turn came to is the error.
#[inline(always)]
pub fn read_token<O: Operate, M: Memory>(
    cursor: &Cursor,
    window: &mut Window,
    context: &mut Context,
    runtime: &mut Runtime<M>,
    attempt: Attempt,
) -> Result<usize, Result<Turned, NotMade>>
    requires framed { 1 ≤ length context.old.frames }
    requires good { IsGood (read_to cursor.now.source cursor.now.at
        (lent_of M.heap M.grants context.old runtime.old)) }
    requires window { IsWindow (M.heap runtime.old.memory) cursor.now.source window.old }
    ensures takes { Takes O.asks cursor.now.source cursor.now.at attempt result
        (lent_of M.heap M.grants context.old runtime.old)
        (lent_of M.heap M.grants context.new runtime.new) }
    ensures window { OnOk result
        (IsWindow (M.heap runtime.new.memory) cursor.now.source window.new) }
{
    let dictionaries = &context.dictionaries;
    let operands = &mut context.operands;
    let shared = &runtime.shared;
    let memory = &mut runtime.memory;
    match word_ahead::<O, M>(*cursor, window, dictionaries, shared, operands, memory) {
        Ok(end) => Ok(end),
        Err(Some((element, end))) => Err(treat_token::<O, M>(
            cursor, element, end, context, runtime, attempt,
        )),
        Err(None) => take_next::<O, M>(cursor, window, context, runtime, attempt),
    }
}

/// A step by the topmost frame, a text: its next token is taken and done; with none left the frame
/// goes. A string is read into the window as it stands now, as far as the token takes. Raises
/// `syntaxerror` and `limitcheck` with the command null where the text breaks the grammar or a
/// limit, and what the token raises.
///
/// `Memory`: a growth was refused, for the string, or for a string or a procedure that is read. Not
/// made, with nothing changed: also as the token, or the note of an error.
pub fn text_turn<O: Operate, M: Memory>(
    cursor: Cursor,
    window: &mut Window,
    context: &mut Context,
    runtime: &mut Runtime<M>,
    attempt: Attempt,
) -> Result<Turned, NotMade>
    requires good { IsGood (lent_of M.heap M.grants context.old runtime.old) }
    requires top { first_of context.old.frames ≡ Some (Frame.Text cursor.source cursor.at) }
    ensures { Turns (text_asks O.asks cursor.source cursor.at (drop 1 context.old.frames))
        running_turn attempt
        result
        (lent_of M.heap M.grants context.old runtime.old)
        (lent_of M.heap M.grants context.new runtime.new) }
{
    let alloc = *runtime.shared.scratch.text.allocator();
    let program = runtime.shared.program;
    window.start = 0;
    window.bytes.clear();
    let scanned = scan_source(cursor, program, window, &mut runtime.memory, alloc);
    let text = scanned_bytes(cursor.source, program, window);
    scanned_turn::<O, M>(&cursor, scanned, text, context, runtime, attempt)
}
