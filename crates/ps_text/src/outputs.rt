//! What a program prints, with a bound: an output never has more bytes than it may have.

ghost use Rattle.std.specs.Prelude.{◌≡◌, ℕ, ◌+◌, ◌<◌, ◌≤◌, List, [], IfSome, OnOk, OnErr, take};
ghost use Rattle.std.specs.Prelude.{map, reverse, length, option_map, vec_capacity};
ghost use Rattle.std.specs.List.{flat_map};
ghost use Rattle.ps_language.specs.Access.{bytes, part_bytes};
ghost use Rattle.ps_language.specs.RowsOutput.{line};
ghost use Rattle.ps_language.specs.Texts.{plain_text, full_text};
ghost use Rattle.ps_language.specs.Value.{Store};
ghost use Rattle.ps_mem.specs.Heap.{birth_at};
ghost use Rattle.ps_mem.specs.Meaning.{part_of, value_of};
ghost use Rattle.ps_mem.specs.References.{StandsAs, words_for};
ghost use Rattle.ps_mem.specs.Shows.{IsValue, AreValues, IsSound, IsWithin, AreWithin, Shows};
ghost use Rattle.ps_text.specs.Errors.{error_line_by};
ghost use Rattle.ps_text.specs.Forms.{text_as};
ghost use Rattle.ps_text.specs.Printed.{Prints, StaysBounded};

use crate::errors;
use crate::lines::{self, Form};
use ps_language::kinds::Kind;
use ps_mem::Memory;
use ps_names::Names;
use ps_seq::strings;
use ps_word::values::Part;
use ps_word::words::Word;
use std::alloc::{AllocError, Global};
use std::marker::Model;

/// The bytes that a program printed, at most so many, seen as these, their bound, and how many more
/// find room before memory is asked for or the bound is passed.
#[derive(Drop)]
pub struct Output {
    bytes: Vec<u8>,
    most: u64,
}

impl Model for Output {
    ghost use Rattle.std.specs.Prelude.{◌≤◌, ◌-◌, length, min, vec_capacity};
    ghost use Rattle.ps_text.specs.Printed.{Printed};

    ghost Value = { Printed };

    ghost view = { λ o. record {
      bytes = o.bytes.items;
      most = o.most;
      room = min (vec_capacity o.bytes) o.most - length o.bytes.items;
    } };

    ghost invariant = { λ o. length o.bytes.items ≤ o.most };
}

/// Takes away what stands behind a length of bytes that are more than there may be.
///
/// `AllocError`: they are more.
fn settle(bytes: &mut Vec<u8>, most: u64, start: usize) -> Result<(), AllocError>
    requires { start ≤ length bytes.old.items }
    ensures ok { OnOk result (bytes.new.items ≡ bytes.old.items) }
    ensures within { OnOk result (length bytes.old.items ≤ most) }
    ensures err { OnErr result (bytes.new.items ≡ take start bytes.old.items) }
    ensures full { OnErr result (most < length bytes.old.items) }
    ensures capacity { vec_capacity bytes.old ≤ vec_capacity bytes.new }
{
    if bytes.len() as u64 > most {
        bytes.truncate(start);
        return Err(AllocError);
    }
    Ok(())
}

impl Output {
    /// Nothing printed yet, and at most so many bytes to come. It takes no memory.
    pub fn new(alloc: Global, most: u64) -> Output
        ensures bytes { result.bytes ≡ [] }
        ensures most { result.most ≡ most }
    {
        Output {
            bytes: Vec::new(alloc),
            most,
        }
    }

    /// The bytes that were printed so far.
    pub fn as_slice(&self) -> &[u8]
        ensures { result.now ≡ self.now.bytes }
    {
        self.bytes.as_slice()
    }

    /// The printed bytes, at the end.
    pub fn into_bytes(self) -> Vec<u8>
        ensures bytes { result.items ≡ self.bytes }
        ensures within { length result.items ≤ self.most }
    {
        let Output { bytes, .. } = self;
        bytes
    }

    /// Prints the bytes of a part of a string. The memory is only read.
    ///
    /// `AllocError`: they are more than may be printed, or the output lacks the room and its growth
    /// was refused; it is as it was.
    pub fn print_part<M: Memory>(&mut self, memory: &mut M, part: Part) -> Result<(), AllocError>
        requires sound { IsSound (M.heap memory.old) }
        requires known { StandsAs (M.heap memory.old) Kind.Text part.address (words_for
            (part.offset + part.length)) }
        ensures heap { M.heap memory.new ≡ M.heap memory.old }
        ensures grants { M.grants memory.new ≡ M.grants memory.old }
        ensures bounded { StaysBounded self.old self.new }
        ensures err { OnErr result (self.new.bytes ≡ self.old.bytes) }
        ensures prints { (names : List (List ℕ)) (s : Store) → Shows (M.heap memory.old) names s
            → part.offset + part.length
            ≤ length (bytes s (birth_at (M.heap memory.old) part.address))
            → Prints result (part_bytes s (part_of (birth_at (M.heap memory.old)) part))
            self.old self.new }
    {
        if part.length as u64 > self.most - self.bytes.len() as u64 {
            return Err(AllocError);
        }
        strings::append_bytes(memory, part, &mut self.bytes)
    }

    /// Prints a text as `=` shows it and the end of its line. The memory is only read.
    ///
    /// `AllocError`: as for `print_part`.
    pub fn print_plain_line<M: Memory>(
        &mut self,
        memory: &mut M,
        names: &Names,
        word: Word,
    ) -> Result<(), AllocError>
        requires sound { IsSound (M.heap memory.old) }
        requires held { IsValue (M.heap memory.old) word }
        ensures heap { M.heap memory.new ≡ M.heap memory.old }
        ensures grants { M.grants memory.new ≡ M.grants memory.old }
        ensures bounded { StaysBounded self.old self.new }
        ensures err { OnErr result (self.new.bytes ≡ self.old.bytes) }
        ensures prints { (s : Store) → Shows (M.heap memory.old) names.now s
            → IsWithin (birth_at (M.heap memory.old)) names.now s word
            → Prints result
            (line plain_text s (value_of (birth_at (M.heap memory.old)) names.now word))
            self.old self.new }
    {
        let start = self.bytes.len();
        lines::append_plain_line(memory, names, word, &mut self.bytes)?;
        settle(&mut self.bytes, self.most, start)
    }

    /// Prints a text as `==` shows it and the end of its line. The memory is only read.
    ///
    /// `AllocError`: as for `print_part`.
    pub fn print_full_line<M: Memory>(
        &mut self,
        memory: &mut M,
        names: &Names,
        word: Word,
    ) -> Result<(), AllocError>
        requires sound { IsSound (M.heap memory.old) }
        requires held { IsValue (M.heap memory.old) word }
        ensures heap { M.heap memory.new ≡ M.heap memory.old }
        ensures grants { M.grants memory.new ≡ M.grants memory.old }
        ensures bounded { StaysBounded self.old self.new }
        ensures err { OnErr result (self.new.bytes ≡ self.old.bytes) }
        ensures prints { (s : Store) → Shows (M.heap memory.old) names.now s
            → IsWithin (birth_at (M.heap memory.old)) names.now s word
            → Prints result
            (line full_text s (value_of (birth_at (M.heap memory.old)) names.now word))
            self.old self.new }
    {
        let start = self.bytes.len();
        lines::append_full_line(memory, names, word, &mut self.bytes)?;
        settle(&mut self.bytes, self.most, start)
    }

    /// Prints a line for each value from the last, the topmost of an operand stack, down to the
    /// first, as `stack` (`Form::Plain`) and `pstack` (`Form::Full`) show them. The memory is only
    /// read.
    ///
    /// `AllocError`: as for `print_part`.
    pub fn print_stack<M: Memory>(
        &mut self,
        memory: &mut M,
        names: &Names,
        words: &[Word],
        form: Form,
    ) -> Result<(), AllocError>
        requires sound { IsSound (M.heap memory.old) }
        requires held { AreValues (M.heap memory.old) words.now }
        ensures heap { M.heap memory.new ≡ M.heap memory.old }
        ensures grants { M.grants memory.new ≡ M.grants memory.old }
        ensures bounded { StaysBounded self.old self.new }
        ensures err { OnErr result (self.new.bytes ≡ self.old.bytes) }
        ensures prints { (s : Store) → Shows (M.heap memory.old) names.now s
            → AreWithin (M.heap memory.old) names.now s words.now
            → Prints result (flat_map (line (text_as form) s)
            (map (value_of (birth_at (M.heap memory.old)) names.now) (reverse words.now)))
            self.old self.new }
    {
        let start = self.bytes.len();
        lines::append_stack(memory, names, words, form, &mut self.bytes)?;
        settle(&mut self.bytes, self.most, start)
    }

    /// Prints the line of an error by what stands under the keys of its name and its command. The
    /// memory is only read.
    ///
    /// `AllocError`: as for `print_part`.
    pub fn print_error_line<M: Memory>(
        &mut self,
        memory: &mut M,
        names: &Names,
        name: Option<Word>,
        command: Option<Word>,
    ) -> Result<(), AllocError>
        requires sound { IsSound (M.heap memory.old) }
        requires name { IfSome name (IsValue (M.heap memory.old)) }
        requires command { IfSome command (IsValue (M.heap memory.old)) }
        ensures heap { M.heap memory.new ≡ M.heap memory.old }
        ensures grants { M.grants memory.new ≡ M.grants memory.old }
        ensures bounded { StaysBounded self.old self.new }
        ensures err { OnErr result (self.new.bytes ≡ self.old.bytes) }
        ensures prints { (s : Store) → Shows (M.heap memory.old) names.now s
            → IfSome name (IsWithin (birth_at (M.heap memory.old)) names.now s)
            → IfSome command (IsWithin (birth_at (M.heap memory.old)) names.now s)
            → Prints result (error_line_by s
            (option_map (value_of (birth_at (M.heap memory.old)) names.now) name)
            (option_map (value_of (birth_at (M.heap memory.old)) names.now) command))
            self.old self.new }
    {
        let start = self.bytes.len();
        errors::append_error_line(memory, names, name, command, &mut self.bytes)?;
        settle(&mut self.bytes, self.most, start)
    }
}
