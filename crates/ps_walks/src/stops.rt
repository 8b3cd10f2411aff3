//! Whether what a step takes is the operator `stop`.

ghost use Rattle.std.specs.Prelude.{◌≡◌, ◌+◌, ℕ};
ghost use Rattle.ps_mem.specs.Shows.{AreValues, IsSound, IsValue};
ghost use Rattle.ps_names.specs.Names.{AreNames};
ghost use Rattle.ps_word.specs.Format.{content_in};
ghost use Rattle.ps_mem.specs.References.{StandsAs, words_for};
ghost use Rattle.ps_ops_control.specs.Frames.{IsFrame};
ghost use Rattle.ps_walks.specs.Walks.{IsBefore, Stands};

use crate::before::Before;
use ps_ctx::worlds::World;
use ps_language::kinds::Kind;
use ps_language::operators::Operator;
use ps_mem::Memory;
use ps_ops_control::frames::{Frame, Source};
use ps_ops_state::lent::{Dictionaries, Runtime};
use ps_scan::{Token, TokenKind, next_token};
use ps_seq::arrays::element;
use ps_seq::strings::append_bytes;
use ps_step_lookup::keys::name_word;
use ps_step_lookup::lookups::look_up_name;
use ps_word::values::{Content, Part};
use ps_word::words::Word;
use std::alloc::{AllocError, Global};

/// Whether a name stands for `stop`.
fn name_stops<M: Memory>(
    word: Word,
    number: u16,
    dictionaries: &Dictionaries,
    memory: &mut M,
) -> bool
    requires sound { IsSound (M.heap memory.old) }
    requires dictionaries { AreValues (M.heap memory.old) dictionaries.now }
    requires held { IsValue (M.heap memory.old) word }
    requires name { content_in word.0 ≡ Content.Name number }
    ensures heap { M.heap memory.new ≡ M.heap memory.old }
    ensures grants { M.grants memory.new ≡ M.grants memory.old }
{
    match look_up_name(memory, dictionaries, word, number) {
        Some(value) => value.is_executable() && value.as_operator() == Some(Operator::Stop),
        None => false,
    }
}

/// Whether executing a value does `stop`: the operator, or a name that stands for it.
fn is_stop<M: Memory>(word: Word, dictionaries: &Dictionaries, memory: &mut M) -> bool
    requires sound { IsSound (M.heap memory.old) }
    requires dictionaries { AreValues (M.heap memory.old) dictionaries.now }
    requires held { IsValue (M.heap memory.old) word }
    ensures heap { M.heap memory.new ≡ M.heap memory.old }
    ensures grants { M.grants memory.new ≡ M.grants memory.old }
{
    if !word.is_executable() {
        return false;
    }
    match word.as_name() {
        Some(number) => name_stops(word, number, dictionaries, memory),
        None => word.as_operator() == Some(Operator::Stop),
    }
}

/// The name that a token executes, in its text.
fn name_in<'t>(token: &Token, text: &'t [u8]) -> Option<&'t [u8]> {
    match &token.kind {
        TokenKind::ExecutableName(span) => Some(span.of(text)),
        TokenKind::ImmediateName(span) => Some(span.of(text)),
        TokenKind::Integer(_)
        | TokenKind::LiteralName(_)
        | TokenKind::Text(_)
        | TokenKind::Procedure(_) => None,
    }
}

/// Whether the next token of a text does `stop`.
fn text_stops<M: Memory>(
    alloc: Global,
    text: &[u8],
    at: usize,
    dictionaries: &Dictionaries,
    runtime: &mut Runtime<M>,
) -> bool
    requires sound { IsSound (M.heap runtime.old.memory) }
    requires names { AreNames runtime.old.shared.names }
    requires dictionaries { AreValues (M.heap runtime.old.memory) dictionaries.now }
    ensures heap { M.heap runtime.new.memory ≡ M.heap runtime.old.memory }
    ensures grants { M.grants runtime.new.memory ≡ M.grants runtime.old.memory }
    ensures shared { runtime.new.shared ≡ runtime.old.shared }
{
    if at > text.len() {
        return false;
    }
    let Ok(Some(token)) = next_token(alloc, text, at) else {
        return false;
    };
    let Some(name) = name_in(&token, text) else {
        return false;
    };
    let Some(id) = runtime.shared.names.find(name) else {
        return false;
    };
    let word = name_word(id.0 as usize);
    name_stops(word, id.0, dictionaries, &mut runtime.memory)
}

/// Whether the next token of a string does `stop`.
fn string_stops<M: Memory>(
    alloc: Global,
    part: Part,
    at: usize,
    dictionaries: &Dictionaries,
    runtime: &mut Runtime<M>,
) -> Result<bool, AllocError>
    requires sound { IsSound (M.heap runtime.old.memory) }
    requires names { AreNames runtime.old.shared.names }
    requires dictionaries { AreValues (M.heap runtime.old.memory) dictionaries.now }
    requires known { StandsAs (M.heap runtime.old.memory) Kind.Text part.address
        (words_for (part.offset + part.length)) }
    ensures heap { M.heap runtime.new.memory ≡ M.heap runtime.old.memory }
    ensures grants { M.grants runtime.new.memory ≡ M.grants runtime.old.memory }
    ensures shared { runtime.new.shared ≡ runtime.old.shared }
{
    let mut text = Vec::new(alloc);
    append_bytes(&mut runtime.memory, part, &mut text)?;
    Ok(text_stops(alloc, text.as_slice(), at, dictionaries, runtime))
}

/// Whether a step by a frame does `stop`. The dictionaries are those of its context.
pub(crate) fn frame_stops<M: Memory>(
    alloc: Global,
    frame: Frame,
    dictionaries: &Dictionaries,
    runtime: &mut Runtime<M>,
) -> Result<bool, AllocError>
    requires sound { IsSound (M.heap runtime.old.memory) }
    requires names { AreNames runtime.old.shared.names }
    requires dictionaries { AreValues (M.heap runtime.old.memory) dictionaries.now }
    requires frame { (size : ℕ) × IsFrame (M.heap runtime.old.memory) size frame }
    ensures heap { M.heap runtime.new.memory ≡ M.heap runtime.old.memory }
    ensures grants { M.grants runtime.new.memory ≡ M.grants runtime.old.memory }
    ensures shared { runtime.new.shared ≡ runtime.old.shared }
{
    match frame {
        Frame::Text {
            source: Source::Program,
            at,
        } => {
            let program = runtime.shared.program;
            Ok(text_stops(alloc, program, at, dictionaries, runtime))
        }
        Frame::Text {
            source: Source::Text(part),
            at,
        } => string_stops(alloc, part, at, dictionaries, runtime),
        Frame::Procedure { rest } => {
            let word = element(&mut runtime.memory, rest, 0);
            Ok(is_stop(word, dictionaries, &mut runtime.memory))
        }
        Frame::Pending { word } => Ok(is_stop(word, dictionaries, &mut runtime.memory)),
        _ => Ok(false),
    }
}

/// Whether a step behind which a context stops raised no error: it went on with an unwinding, or
/// did `stop`.
pub(crate) fn has_stopped<M: Memory>(
    alloc: Global,
    before: Before,
    world: &World,
    runtime: &mut Runtime<M>,
) -> Result<bool, AllocError>
    requires stands { Stands M.heap M.grants runtime.old world.now }
    requires held { IsBefore (M.heap runtime.old.memory) before }
    ensures heap { M.heap runtime.new.memory ≡ M.heap runtime.old.memory }
    ensures grants { M.grants runtime.new.memory ≡ M.grants runtime.old.memory }
    ensures shared { runtime.new.shared ≡ runtime.old.shared }
{
    let Some(frame) = before.frame else {
        return Ok(false);
    };
    if before.again {
        return Ok(false);
    }
    if before.unwinding {
        return Ok(frame != Frame::Stopped);
    }
    let Some(member) = world.contexts.table.get(before.context) else {
        return Ok(false);
    };
    frame_stops(alloc, frame, &member.context.dictionaries, runtime)
}
