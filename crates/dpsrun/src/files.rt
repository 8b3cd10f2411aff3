//! The system's files, as the program reads and writes them.

ghost use Rattle.std.specs.Prelude.{◌≡◌, ◌≤◌};
ghost use Rattle.std.specs.IoError.{error_kind};
ghost use Rattle.dpsrun.specs.Faults as faults;

use crate::readers::{read_part, reads};
use ps_run::{FileSet, ReadFault, WriteFault};
use std::fs::{self, File, Files, Metadata};
use std::io::{self, ErrorKind, Lock, StdinLock, Write};
use std::os::unix::fs::{MetadataExt, fchown};

/// The name that stands for standard input where a file is read.
const STANDARD_INPUT: &str = "-";

/// How many names beside that of a file are tried.
const BESIDE_NAMES: u32 = 16;

/// The file that is open, if one is.
#[derive(Drop)]
enum Opened {
    Nothing,
    File(File),
    Input(StdinLock<'static>),
}

impl Opened {
    /// Appends the next bytes of the file, up to `most` of them.
    fn read_part(&mut self, most: usize, bytes: &mut Vec<u8>) -> Result<(), ReadFault>
        requires { 1 ≤ most }
    {
        let read = match self {
            Opened::Nothing => return Err(ReadFault::NoRead),
            Opened::File(file) => read_part(file, most, bytes),
            Opened::Input(input) => read_part(input, most, bytes),
        };
        read.map_err(|error| fault_of(&error))
    }
}

/// The files of the system. Where one is read, `-` is standard input.
#[derive(Drop)]
pub struct SystemFiles<'a> {
    rt: &'a HostRuntime,
    opened: Opened,
    /// Why the last read that failed did.
    last_fault: Option<ReadFault>,
    /// Whether a write failed.
    unwritten: bool,
}

impl<'a> SystemFiles<'a> {
    /// Files of which none was read or written yet.
    pub fn new(rt: &'a HostRuntime) -> SystemFiles<'a> {
        SystemFiles {
            rt,
            opened: Opened::Nothing,
            last_fault: None,
            unwritten: false,
        }
    }

    /// The file of a name, opened.
    fn opened(&self, name: &str) -> Result<Opened, ReadFault> {
        if name.is_empty() {
            return Err(ReadFault::Nameless);
        }
        if name == STANDARD_INPUT {
            return Ok(Opened::Input(self.rt.stdin().lock()));
        }
        match File::open(self.rt, name) {
            Ok(file) => Ok(Opened::File(file)),
            Err(error) => Err(fault_of(&error)),
        }
    }
}

/// Why a file was not read, by the system's answer.
fn fault_of(error: &io::Error) -> ReadFault
    ensures { result ≡ faults.fault_of (error_kind error.now) }
{
    match error.kind() {
        ErrorKind::NotFound => ReadFault::NotFound,
        ErrorKind::IsADirectory => ReadFault::Folder,
        ErrorKind::PermissionDenied => ReadFault::Denied,
        ErrorKind::OutOfMemory => ReadFault::Memory,
        _ => ReadFault::NoRead,
    }
}

/// Whether an ordinary file has just these bytes, also one behind a link. No other is opened.
fn is_file_of(rt: &HostRuntime, name: &str, bytes: &[u8]) -> io::Result<bool> {
    let known = rt.metadata(name)?;
    if !known.is_file() || known.len() != bytes.len() as u64 {
        return Ok(false);
    }
    reads(&mut File::open(rt, name)?, bytes)
}

/// Makes a file beside that of a name, to be put in its place: of that name with `.part` and a
/// number behind it, which no file had.
fn file_beside(rt: &HostRuntime, name: &str) -> io::Result<(String, File)> {
    for number in 1..=BESIDE_NAMES {
        let beside = format!(in rt.alloc(); "{name}.part{number}")?;
        match File::create_new(rt, beside.as_str()) {
            Ok(file) => return Ok((beside, file)),
            Err(error) if error.kind() == ErrorKind::AlreadyExists => {}
            Err(error) => return Err(error),
        }
    }
    Err(io::Error::from(ErrorKind::AlreadyExists))
}

/// Whether this failure to make a file beside one leaves it open that the one itself can be written:
/// the folder takes no new file, or none of a longer name, or each name is taken.
fn is_of_name(error: &io::Error) -> bool
    ensures { result ≡ faults.is_of_name (error_kind error.now) }
{
    matches!(
        error.kind(),
        ErrorKind::PermissionDenied | ErrorKind::AlreadyExists | ErrorKind::InvalidFilename
    )
}

/// Gives a file the owner, the group and the mode of another, as far as they differ.
fn become_as(file: &File, old: &Metadata) -> io::Result<()> {
    let new = file.metadata()?;
    if new.uid() != old.uid() || new.gid() != old.gid() {
        fchown(file, Some(old.uid()), Some(old.gid()))?;
    }
    file.set_permissions(old.permissions())
}

/// Writes these bytes and lets a file take a name.
fn take_name(
    rt: &HostRuntime,
    file: &mut File,
    names: (&str, &str),
    bytes: &[u8],
) -> io::Result<()> {
    file.write_all(bytes)?;
    fs::rename(rt, names.0, names.1)
}

/// Puts bytes in the place of a file, or makes it: they are written beside it, and what has them
/// takes its name, with the owner and the mode of the old one. Where that fails, as on a full disk,
/// the file is as it was. Where no such file can be made beside it, it is written itself.
fn replace_file(
    rt: &HostRuntime,
    name: &str,
    old: Option<&Metadata>,
    bytes: &[u8],
) -> io::Result<()> {
    let (beside, mut file) = match file_beside(rt, name) {
        Ok(made) => made,
        Err(error) if is_of_name(&error) => return fs::write(rt, name, bytes),
        Err(error) => return Err(error),
    };
    if let Some(old) = old {
        if become_as(&file, old).is_err() {
            fs::remove_file(rt, beside.as_str())?;
            return fs::write(rt, name, bytes);
        }
    }
    let written = take_name(rt, &mut file, (beside.as_str(), name), bytes);
    if written.is_err() {
        let _ = fs::remove_file(rt, beside.as_str());
    }
    written
}

/// Writes a file: an ordinary one that may be written, or one that isn't there, is replaced, and
/// another takes the bytes: a device, a pipe, a link, or a file of several names, all of which are
/// to have them. One that may only be read stays.
fn write_file(rt: &HostRuntime, name: &str, bytes: &[u8]) -> io::Result<()> {
    match rt.symlink_metadata(name) {
        Ok(known) if known.is_file() && known.nlink() <= 1 => {
            File::options().append(true).open(rt, name)?;
            replace_file(rt, name, Some(&known), bytes)
        }
        Err(error) if error.kind() == ErrorKind::NotFound => replace_file(rt, name, None, bytes),
        Ok(_) | Err(_) => fs::write(rt, name, bytes),
    }
}

impl FileSet for SystemFiles<'_> {
    ghost last_fault = { λ files. files.last_fault };

    ghost is_unwritten = { λ files. files.unwritten };

    fn open(&mut self, name: &str) -> Result<(), ReadFault> {
        match self.opened(name) {
            Ok(opened) => {
                self.opened = opened;
                Ok(())
            }
            Err(fault) => {
                self.last_fault = Some(fault);
                Err(fault)
            }
        }
    }

    fn read_on(&mut self, most: usize, bytes: &mut Vec<u8>) -> Result<(), ReadFault> {
        let read = self.opened.read_part(most, bytes);
        if let Err(fault) = &read {
            self.last_fault = Some(*fault);
        }
        read
    }

    fn holds(&self, name: &str, bytes: &[u8]) -> bool {
        match is_file_of(self.rt, name, bytes) {
            Ok(is) => is,
            Err(_) => false,
        }
    }

    fn write(&mut self, name: &str, bytes: &[u8]) -> Result<(), WriteFault> {
        if write_file(self.rt, name, bytes).is_err() {
            self.unwritten = true;
            return Err(WriteFault::NoWrite);
        }
        Ok(())
    }
}
