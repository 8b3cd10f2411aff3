//! The files that the program reads and writes, by name.

ghost use Rattle.std.specs.Prelude.{◌≡◌, ◌≢◌, ◌≤◌, ℕ, Bool, true, List, Option, Some, None, OnOk, OnErr, IfErr, IfSome, option_map};
ghost use Rattle.ps_run.specs.Driving as driving;

use std::fmt;
use thiserror::Error;

/// The most bytes of a program file.
pub const MOST_PROGRAM_BYTES: usize = 16_777_215;

/// Why a file was not read.
#[derive(Clone, Copy, Debug, PartialEq, Eq)]
pub enum ReadFault {
    /// No file has the name.
    NotFound,
    /// It is a folder.
    Folder,
    /// The name is empty.
    Nameless,
    /// It may not be read.
    Denied,
    /// It has more bytes than a program may.
    TooLong,
    /// It can't be opened, or a read fails, for another reason.
    NoRead,
    /// Memory is wanted for its bytes.
    Memory,
}

impl ReadFault {
    /// What is said of the file; nothing, where memory is wanted.
    pub fn reason(self) -> Option<&'static str>
        ensures { option_map (λ reason. reason.now) result ≡ driving.reason_of self }
    {
        match self {
            ReadFault::NotFound => Some("does not exist"),
            ReadFault::Folder => Some("is a folder"),
            ReadFault::Nameless => Some("is an empty name"),
            ReadFault::Denied => Some("may not be read"),
            ReadFault::TooLong => Some("is longer than 16777215 bytes"),
            ReadFault::NoRead => Some("can't be opened or read"),
            ReadFault::Memory => None,
        }
    }
}

impl fmt::Display for ReadFault {
    fn fmt<W: fmt::Write>(&self, f: &mut fmt::Formatter<W>) -> fmt::Result {
        match self.reason() {
            Some(reason) => write!(f, "the file {reason}"),
            None => f.write_str("out of memory"),
        }
    }
}

/// Why a file was not written.
#[derive(Clone, Copy, Debug, PartialEq, Eq, Error)]
pub enum WriteFault {
    #[error("the file can't be written")]
    NoWrite,
}

/// Files by name, of which one may be open to be read from its beginning to its end.
pub trait FileSet {
    ghost use Rattle.ps_run.specs.declared.files.ReadFault.{ReadFault};
    ghost use Rattle.ps_run.specs.Parts.{ReadsNext};
    ghost use Rattle.std.specs.Str.{bytes_eq};

    /// The bytes of the file of a name, where they are known: of the system's files they are not.
    ghost contents: { Self → List ℕ → Option (List ℕ) } = { λ _ _. None };

    /// What is left to be read of the file that is open, where it is known.
    ghost left: { Self → Option (List ℕ) } = { λ _. None };

    /// Why the last read that failed did.
    ghost last_fault: { Self → Option ReadFault };

    /// Whether a write failed.
    ghost is_unwritten: { Self → Bool };

    /// Opens a file, in the place of any that is open. A file that is known is refused only for
    /// want of memory; no file changes.
    fn open(&mut self, name: &str) -> Result<(), ReadFault>
        ensures left { OnOk result (left self.new ≡ contents self.old name.now) }
        ensures fault { IfErr result
            (λ fault. IfSome (contents self.old name.now) (λ known. fault ≡ ReadFault.Memory)) }
        ensures kept { contents self.new ≡ contents self.old }
        ensures failed { IfErr result (λ fault. last_fault self.new ≡ Some fault) }
        ensures succeeded { OnOk result (last_fault self.new ≡ last_fault self.old) }
        ensures writes { is_unwritten self.new ≡ is_unwritten self.old };

    /// Appends the next bytes of the file that is open, up to `most` of them: some where some are
    /// left. A file that is known is refused only for want of memory; no file changes.
    fn read_on(&mut self, most: usize, bytes: &mut Vec<u8>) -> Result<(), ReadFault>
        requires some { 1 ≤ most }
        ensures next { OnOk result (IfSome (left self.old)
            (λ known. ReadsNext known (left self.new) bytes.old.items bytes.new.items)) }
        ensures fault { IfErr result
            (λ fault. IfSome (left self.old) (λ known. fault ≡ ReadFault.Memory)) }
        ensures kept { contents self.new ≡ contents self.old }
        ensures failed { IfErr result (λ fault. last_fault self.new ≡ Some fault) }
        ensures succeeded { OnOk result (last_fault self.new ≡ last_fault self.old) }
        ensures writes { is_unwritten self.new ≡ is_unwritten self.old };

    /// Whether the file of a name has these bytes and no others. False where there is none, and
    /// where that can't be told.
    fn holds(&self, name: &str, bytes: &[u8]) -> bool
        ensures { IfSome (contents self.now name.now)
            (λ known. result ≡ bytes_eq known bytes.now) };

    /// Makes a file of these bytes, in the place of any that has the name. No other file changes.
    fn write(&mut self, name: &str, bytes: &[u8]) -> Result<(), WriteFault>
        ensures written { OnOk result
            (IfSome (contents self.new name.now) (λ known. known ≡ bytes.now)) }
        ensures kept { (other : List ℕ) → other ≢ name.now
            → contents self.new other ≡ contents self.old other }
        ensures failed { OnErr result (is_unwritten self.new ≡ true) }
        ensures succeeded { OnOk result (is_unwritten self.new ≡ is_unwritten self.old) }
        ensures reads { last_fault self.new ≡ last_fault self.old };
}
