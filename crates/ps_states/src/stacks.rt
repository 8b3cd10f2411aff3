//! The lines of the stacks of a context.

ghost use Rattle.std.specs.Prelude.{◌≡◌, ◌++◌, ℕ, List, IfOk, OnOk, option_map, true};
ghost use Rattle.std.specs.List.{flat_map};
ghost use Rattle.ps_language.specs.Access.{dictionary_at};
ghost use Rattle.ps_language.specs.StepValues as values;
ghost use Rattle.ps_language.specs.Texts.{plain_text};
ghost use Rattle.ps_language.specs.Value.{Store};
ghost use Rattle.ps_language.specs.declared.kinds.Kind.TheVariants.{Dictionary as DictionaryKind};
ghost use Rattle.ps_mem.specs.Heap.{birth_at};
ghost use Rattle.ps_mem.specs.Meaning.{value_of};
ghost use Rattle.ps_mem.specs.References.{StandsAs};
ghost use Rattle.ps_mem.specs.Shows.{AreValues, AreWithin, IsSound, IsValue, IsWithin, Shows};
ghost use Rattle.ps_ops_control.specs.Frames.{AreFrames, AreFramesWithin, IsFrame, IsFrameWithin};
ghost use Rattle.ps_ops_control.specs.Frames.{frame_of, frames_in};
ghost use Rattle.ps_ops_operands.specs.Changes.{values_in};
ghost use Rattle.ps_states.specs.Chosen.{chart_of};
ghost use Rattle.ps_states.specs.States as states;

use crate::charts::Chart;
use crate::frames::frame_line;
use crate::values::{full_text_of, told_birth};
use ps_ctx_readers::births::birth_of;
use ps_ctx_readers::frames::view_of;
use ps_ctx_readers::names::procedure_name;
use ps_dict::dictionaries::{length as pairs_of, pair};
use ps_mem::Memory;
use ps_names::{NameId, Names};
use ps_ops_control::frames::{Frame, Frames};
use ps_ops_operands::Operands;
use ps_ops_state::lent::{Dictionaries, Runtime};
use ps_views::{append_dictionary, append_frame, append_label, append_operand};
use ps_word::words::Word;
use std::alloc::{AllocError, Global};

/// Appends the line of an operand. The memory is only read. Fails where a growth is refused.
fn append_one<M: Memory>(
    alloc: Global,
    word: Word,
    runtime: &mut Runtime<M>,
    to: &mut Vec<u8>,
) -> Result<(), AllocError>
    requires sound { IsSound (M.heap runtime.old.memory) }
    requires held { IsValue (M.heap runtime.old.memory) word }
    ensures heap { M.heap runtime.new.memory ≡ M.heap runtime.old.memory }
    ensures grants { M.grants runtime.new.memory ≡ M.grants runtime.old.memory }
    ensures shared { runtime.new.shared ≡ runtime.old.shared }
    ensures line { (s : Store) → Shows (M.heap runtime.old.memory) runtime.old.shared.names s
        → IsWithin (birth_at (M.heap runtime.old.memory)) runtime.old.shared.names s word
        → OnOk result (to.new.items ≡ to.old.items ++ states.operand_line s
        (value_of (birth_at (M.heap runtime.old.memory)) runtime.old.shared.names word)) }
{
    let value = full_text_of(alloc, word, runtime)?;
    let birth = told_birth(word, &mut runtime.memory);
    append_operand(value.as_slice(), birth, to)
}

/// Appends the lines of operands, the topmost first. The memory is only read. Fails where a growth
/// is refused.
pub(crate) fn append_operands<M: Memory>(
    alloc: Global,
    operands: &Operands,
    runtime: &mut Runtime<M>,
    to: &mut Vec<u8>,
) -> Result<(), AllocError>
    requires sound { IsSound (M.heap runtime.old.memory) }
    requires held { AreValues (M.heap runtime.old.memory) operands.now }
    ensures heap { M.heap runtime.new.memory ≡ M.heap runtime.old.memory }
    ensures grants { M.grants runtime.new.memory ≡ M.grants runtime.old.memory }
    ensures shared { runtime.new.shared ≡ runtime.old.shared }
    ensures lines { (s : Store) → Shows (M.heap runtime.old.memory) runtime.old.shared.names s
        → AreWithin (M.heap runtime.old.memory) runtime.old.shared.names s operands.now
        → OnOk result (to.new.items ≡ to.old.items ++ flat_map (states.operand_line s)
        (values_in (M.heap runtime.old.memory) runtime.old.shared.names operands.now)) }
{
    for depth in 0..operands.len() {
        let Some(word) = operands.peek(depth) else {
            return Ok(());
        };
        append_one(alloc, word, runtime, to)?;
    }
    Ok(())
}

/// How many keys of a dictionary are told.
const KEYS_TOLD: u32 = 6;

/// Appends the end of a line with so many keys. Fails where a growth is refused.
fn append_end(count: u32, to: &mut Vec<u8>) -> Result<(), AllocError>
    ensures { OnOk result (to.new.items ≡ to.old.items ++ states.keys_end count) }
{
    if count > KEYS_TOLD {
        to.extend_from_slice(b" ..\n")
    } else {
        to.extend_from_slice(b"\n")
    }
}

/// Appends the keys of a dictionary and the end of their line. The memory is only read. Fails where
/// a growth is refused.
fn append_keys<M: Memory>(
    alloc: Global,
    address: u32,
    runtime: &mut Runtime<M>,
    to: &mut Vec<u8>,
) -> Result<(), AllocError>
    requires sound { IsSound (M.heap runtime.old.memory) }
    requires known { StandsAs (M.heap runtime.old.memory) DictionaryKind address 4 }
    ensures heap { M.heap runtime.new.memory ≡ M.heap runtime.old.memory }
    ensures grants { M.grants runtime.new.memory ≡ M.grants runtime.old.memory }
    ensures shared { runtime.new.shared ≡ runtime.old.shared }
    ensures keys { (s : Store) → Shows (M.heap runtime.old.memory) runtime.old.shared.names s
        → OnOk result (to.new.items ≡ to.old.items ++ states.keys_text s
        (dictionary_at s (birth_at (M.heap runtime.old.memory) address)).pairs) }
{
    let count = pairs_of(&mut runtime.memory, address);
    for place in 0..count.min(KEYS_TOLD) {
        let Some((key, _value)) = pair(&mut runtime.memory, address, place) else {
            return Ok(());
        };
        let text = full_text_of(alloc, key, runtime)?;
        append_label(Some(text.as_slice()), to)?;
    }
    append_end(count, to)
}

/// Appends the line of what stands on the dictionary stack, but of the two dictionaries that every
/// program has. The memory is only read. Fails where a growth is refused.
fn append_own<M: Memory>(
    alloc: Global,
    word: Word,
    runtime: &mut Runtime<M>,
    to: &mut Vec<u8>,
) -> Result<(), AllocError>
    requires sound { IsSound (M.heap runtime.old.memory) }
    requires held { IsValue (M.heap runtime.old.memory) word }
    ensures heap { M.heap runtime.new.memory ≡ M.heap runtime.old.memory }
    ensures grants { M.grants runtime.new.memory ≡ M.grants runtime.old.memory }
    ensures shared { runtime.new.shared ≡ runtime.old.shared }
    ensures line { (s : Store) → Shows (M.heap runtime.old.memory) runtime.old.shared.names s
        → OnOk result (to.new.items ≡ to.old.items ++ states.dictionary_line s
        (value_of (birth_at (M.heap runtime.old.memory)) runtime.old.shared.names word)) }
{
    let Some(address) = word.as_dictionary() else {
        return Ok(());
    };
    let birth = birth_of(&mut runtime.memory, address);
    if birth <= 1 {
        return Ok(());
    }
    append_dictionary(birth, to)?;
    append_keys(alloc, address, runtime, to)
}

/// Appends the lines of dictionaries, the topmost first. The memory is only read. Fails where a
/// growth is refused.
pub(crate) fn append_dictionaries<M: Memory>(
    alloc: Global,
    dictionaries: &Dictionaries,
    runtime: &mut Runtime<M>,
    to: &mut Vec<u8>,
) -> Result<(), AllocError>
    requires sound { IsSound (M.heap runtime.old.memory) }
    requires held { AreValues (M.heap runtime.old.memory) dictionaries.now }
    ensures heap { M.heap runtime.new.memory ≡ M.heap runtime.old.memory }
    ensures grants { M.grants runtime.new.memory ≡ M.grants runtime.old.memory }
    ensures shared { runtime.new.shared ≡ runtime.old.shared }
    ensures lines { (s : Store) → Shows (M.heap runtime.old.memory) runtime.old.shared.names s
        → OnOk result (to.new.items ≡ to.old.items ++ flat_map (states.dictionary_line s)
        (values_in (M.heap runtime.old.memory) runtime.old.shared.names dictionaries.now)) }
{
    for depth in 0..dictionaries.len() {
        let Some(word) = dictionaries.peek(depth) else {
            return Ok(());
        };
        append_own(alloc, word, runtime, to)?;
    }
    Ok(())
}

/// The text of a name that a procedure has.
fn name_text(alloc: Global, name: Word, names: &Names) -> Result<Vec<u8>, AllocError>
    ensures { (births : ℕ → ℕ) (s : Store)
        → values.name_in (value_of births names.now name).what ≡ true
        → IfOk result (λ text. text.items ≡ plain_text s (value_of births names.now name)) }
{
    let mut text = Vec::new(alloc);
    if let Some(number) = name.as_name() {
        text.extend_from_slice(names.text(NameId(number)))?;
    }
    Ok(text)
}

/// The text behind a frame: the name of a procedure, or the text of what is pending. The memory is
/// only read. Fails where a growth is refused.
fn label_of<M: Memory>(
    alloc: Global,
    frame: Frame,
    dictionaries: &Dictionaries,
    runtime: &mut Runtime<M>,
) -> Result<Option<Vec<u8>>, AllocError>
    requires sound { IsSound (M.heap runtime.old.memory) }
    requires dictionaries { AreValues (M.heap runtime.old.memory) dictionaries.now }
    requires held { (size : ℕ) × IsFrame (M.heap runtime.old.memory) size frame }
    ensures heap { M.heap runtime.new.memory ≡ M.heap runtime.old.memory }
    ensures grants { M.grants runtime.new.memory ≡ M.grants runtime.old.memory }
    ensures shared { runtime.new.shared ≡ runtime.old.shared }
    ensures label { (s : Store) → Shows (M.heap runtime.old.memory) runtime.old.shared.names s
        → IsFrameWithin (birth_at (M.heap runtime.old.memory)) runtime.old.shared.names s frame
        → IfOk result (λ label. option_map (λ text. text.items) label ≡ states.frame_label s
        (values_in (M.heap runtime.old.memory) runtime.old.shared.names dictionaries.now)
        (frame_of (birth_at (M.heap runtime.old.memory)) runtime.old.shared.names frame)) }
{
    match frame {
        Frame::Procedure { rest } => {
            let birth = birth_of(&mut runtime.memory, rest.address);
            match procedure_name(dictionaries, birth, &mut runtime.memory) {
                Some(name) => Ok(Some(name_text(alloc, name, &runtime.shared.names)?)),
                None => Ok(None),
            }
        }
        Frame::Pending { word } => Ok(Some(full_text_of(alloc, word, runtime)?)),
        _ => Ok(None),
    }
}

/// Appends the line of a frame of a context with these dictionaries. The memory is only read. Fails
/// where a growth is refused.
fn append_level<M: Memory>(
    chart: &Chart<'_>,
    frame: Frame,
    dictionaries: &Dictionaries,
    runtime: &mut Runtime<M>,
    to: &mut Vec<u8>,
) -> Result<(), AllocError>
    requires sound { IsSound (M.heap runtime.old.memory) }
    requires dictionaries { AreValues (M.heap runtime.old.memory) dictionaries.now }
    requires held { (size : ℕ) × IsFrame (M.heap runtime.old.memory) size frame }
    ensures heap { M.heap runtime.new.memory ≡ M.heap runtime.old.memory }
    ensures grants { M.grants runtime.new.memory ≡ M.grants runtime.old.memory }
    ensures shared { runtime.new.shared ≡ runtime.old.shared }
    ensures line { (s : Store) → Shows (M.heap runtime.old.memory) runtime.old.shared.names s
        → IsFrameWithin (birth_at (M.heap runtime.old.memory)) runtime.old.shared.names s frame
        → OnOk result (to.new.items ≡ to.old.items ++ states.frame_told (chart_of chart.now) s
        (values_in (M.heap runtime.old.memory) runtime.old.shared.names dictionaries.now)
        (frame_of (birth_at (M.heap runtime.old.memory)) runtime.old.shared.names frame)) }
{
    let label = label_of(chart.alloc, frame, dictionaries, runtime)?;
    let view = view_of(frame, &mut runtime.memory);
    let line = frame_line(chart, view);
    match &label {
        Some(text) => append_frame(chart.file, line, Some(text.as_slice()), to),
        None => append_frame(chart.file, line, None, to),
    }
}

/// Appends the lines of frames of a context with these dictionaries, the topmost first. The memory
/// is only read. Fails where a growth is refused.
pub(crate) fn append_frames<M: Memory>(
    chart: &Chart<'_>,
    frames: &Frames,
    dictionaries: &Dictionaries,
    runtime: &mut Runtime<M>,
    to: &mut Vec<u8>,
) -> Result<(), AllocError>
    requires sound { IsSound (M.heap runtime.old.memory) }
    requires dictionaries { AreValues (M.heap runtime.old.memory) dictionaries.now }
    requires held { (size : ℕ) × AreFrames (M.heap runtime.old.memory) size frames.now }
    ensures heap { M.heap runtime.new.memory ≡ M.heap runtime.old.memory }
    ensures grants { M.grants runtime.new.memory ≡ M.grants runtime.old.memory }
    ensures shared { runtime.new.shared ≡ runtime.old.shared }
    ensures lines { (s : Store) → Shows (M.heap runtime.old.memory) runtime.old.shared.names s
        → AreFramesWithin (M.heap runtime.old.memory) runtime.old.shared.names s frames.now
        → OnOk result (to.new.items ≡ to.old.items ++ flat_map (states.frame_told
        (chart_of chart.now) s
        (values_in (M.heap runtime.old.memory) runtime.old.shared.names dictionaries.now))
        (frames_in (M.heap runtime.old.memory) runtime.old.shared.names frames.now)) }
{
    for depth in 0..frames.len() {
        let Some(frame) = frames.peek(depth) else {
            return Ok(());
        };
        append_level(chart, frame, dictionaries, runtime, to)?;
    }
    Ok(())
}
