//! Rows of layouts: what stands in a word, bit by bit, as `{:?}` writes it.
//!
//! `as-value WORD TEXT`, `as-header WORD TEXT`, `as-forward WORD TEXT`: what a word of memory is,
//! if it is that; the word is again what the value is packed into. `as-record NUMBER WORD TEXT`:
//! what a word is as the record of this number of a log. The word is again what that is packed
//! into, and it is no record a lap later. `ring SLOT NUMBER PLACE`: where in the table a record
//! stands. `lap NUMBER BIT`: its lap bit.

use crate::machine::number_of;
use ps_record::slots::Slot;
use ps_record::{PackedRecord, Record, SLOTS, lap_of, ring_place};
use ps_word::headers::{Forward, Header};
use ps_word::words::Word;
use std::alloc::{AllocError, Global};
use std::fmt::Debug;

/// The records of a ring.
const LAP: u64 = 256;

/// Whether something is written so.
fn is_shown<T: Debug>(alloc: Global, it: &T, text: &str) -> Result<bool, AllocError> {
    Ok(format!(in alloc; "{it:?}")?.as_str() == text)
}

/// Whether a word is this as a value.
fn is_value(alloc: Global, word: Word, text: &str) -> Result<bool, AllocError> {
    let value = word.unpack();
    let is_same = match value {
        Some(value) => value.is_in_format() && value.pack() == word,
        None => true,
    };
    Ok(is_same && is_shown(alloc, &value, text)?)
}

/// Whether a record is packed into this word as the one of this number of a log.
fn is_packed(record: Record, number: u64, word: PackedRecord) -> bool {
    match record {
        Record::Close => word.is_close() && record.pack(number) == word,
        Record::Place {
            address,
            first,
            count,
        } => {
            let fits = address < 1 << 24 && count > 0 && first <= u16::MAX - count;
            let is_read = (word.addr(), word.off(), word.count()) == (address, first, count);
            fits && is_read && !word.is_close() && record.pack(number) == word
        }
    }
}

/// Whether a word is this as the record of this number of a log.
fn is_record(
    alloc: Global,
    number: u64,
    word: PackedRecord,
    text: &str,
) -> Result<bool, AllocError> {
    let record = word.read(number);
    let is_same = match record {
        Some(record) => {
            record == word.record()
                && is_packed(record, number, word)
                && word.read(number.wrapping_add(LAP)).is_none()
                && word.lap() == (lap_of(number) == 1)
        }
        None => true,
    };
    Ok(is_same && is_shown(alloc, &record, text)?)
}

/// Whether the row of this name, with this number and what stands behind it, is so; none where it
/// is the row of no layout.
pub fn layout_row(
    alloc: Global,
    name: &str,
    number: u64,
    rest: &str,
) -> Result<Option<bool>, AllocError> {
    let (second, text) = rest.split_once(' ').unwrap_or((rest, ""));
    Ok(Some(match name {
        "as-value" => is_value(alloc, Word(number), rest)?,
        "as-header" => is_shown(alloc, &Header::unpack(Word(number)), rest)?,
        "as-forward" => is_shown(alloc, &Forward::unpack(Word(number)), rest)?,
        "as-record" => is_record(alloc, number, PackedRecord(number_of(second)), text)?,
        "ring" => ring_place(Slot::numbered(number % SLOTS), number_of(second)) == number_of(text),
        "lap" => lap_of(number) == number_of(second),
        _ => return Ok(None),
    }))
}
