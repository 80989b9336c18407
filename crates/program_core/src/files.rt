//! The files that are read and written: a named file, or a standard stream.

ghost use Rattle.std.specs.Prelude.{◌≡◌, ◌↔◌, IfOk, IsTrue, OnErr, option_map, string_bytes, true};
ghost use Rattle.program_core.specs.Run.{IsRegular, names_file, reads_file, writes_file};

use std::fs::{self, File, FileType};
use std::io::{self, Read, Stdin, Stdout, Write};
use std::os::fd::{AsRawFd, RawFd};

/// The file name that stands for a standard stream.
const STREAM: &str = "-";

#[derive(Drop)]
pub enum Readable {
    Stream(Stdin),
    /// A named file, and its type, if that was requested and the system reports it.
    File(File, Option<FileType>),
}

impl Readable {
    /// Opens standard input if there is no name or the name is `-`, and otherwise the file with that name.
    pub(crate) fn open(rt: &HostRuntime, name: &Option<String>) -> io::Result<Readable>
        ensures chosen { IfOk result (λ input. reads_file input ≡ names_file
            (option_map string_bytes name.now)) }
        ensures fails { OnErr result (names_file (option_map string_bytes name.now) ≡ true) }
    {
        match name {
            Some(name) if name.as_str() != STREAM => {
                let file = fs::open(rt, name.as_str())?;
                Ok(Readable::File(file, None))
            }
            _ => Ok(Readable::Stream(rt.stdin())),
        }
    }
}

impl Readable {
    /// The same file with its type, if requested: determining the type takes as long as opening the file.
    pub(crate) fn with_type(self, is_wanted: bool) -> Readable
        ensures { reads_file result ≡ reads_file self }
    {
        if !is_wanted {
            return self;
        }
        match self {
            Readable::File(file, _) => {
                let kind = type_of(&file);
                Readable::File(file, kind)
            }
            Readable::Stream(stream) => Readable::Stream(stream),
        }
    }

    /// Whether its bytes can be read again from the first one on: it is a regular file given by name. A pipe returns
    /// its bytes only once, even if it has a name.
    pub(crate) fn is_regular(&self) -> bool
        ensures { IsTrue result ↔ IsRegular self.now }
    {
        match self {
            Readable::File(_, Some(kind)) => kind.is_file(),
            _ => false,
        }
    }
}

/// The type of an open file.
fn type_of(file: &File) -> Option<FileType> {
    match file.metadata() {
        Ok(metadata) => Some(metadata.file_type()),
        Err(_) => None,
    }
}

impl Read for Readable {
    fn read(&mut self, buf: &mut [u8]) -> io::Result<usize> {
        match self {
            Readable::Stream(stream) => stream.read(buf),
            Readable::File(file, _) => file.read(buf),
        }
    }
}

#[derive(Drop)]
pub enum Writable {
    Stream(Stdout),
    File(File),
}

impl Writable {
    /// Opens standard output if there is no name or the name is `-`, and otherwise creates or truncates the file with
    /// that name.
    pub(crate) fn create(rt: &HostRuntime, name: &Option<String>) -> io::Result<Writable>
        ensures chosen { IfOk result (λ output. writes_file output ≡ names_file
            (option_map string_bytes name.now)) }
        ensures fails { OnErr result (names_file (option_map string_bytes name.now) ≡ true) }
    {
        match name {
            Some(name) if name.as_str() != STREAM => Ok(Writable::File(fs::create(
                rt,
                name.as_str(),
            )?)),
            _ => Ok(Writable::Stream(rt.stdout())),
        }
    }
}

impl Write for Writable {
    fn write(&mut self, buf: &[u8]) -> io::Result<usize> {
        match self {
            Writable::Stream(stream) => stream.write(buf),
            Writable::File(file) => file.write(buf),
        }
    }

    fn flush(&mut self) -> io::Result<()> {
        match self {
            Writable::Stream(stream) => stream.flush(),
            Writable::File(file) => file.flush(),
        }
    }
}

/// The greatest file descriptor of a standard stream.
const LAST_STREAM: RawFd = 2;

/// Files in place of those standard streams that are closed. While they are open, no other file gets the descriptor of
/// a standard stream, so no message is written into it.
#[derive(Drop)]
pub struct Places {
    first: Option<File>,
    second: Option<File>,
    third: Option<File>,
}

impl Places {
    /// Opens files in the free places.
    pub fn open(rt: &HostRuntime) -> Places {
        let first = open_place(rt);
        if first.is_none() {
            return Places {
                first,
                second: None,
                third: None,
            };
        }
        Places {
            first,
            second: open_place(rt),
            third: open_place(rt),
        }
    }
}

/// A file at the lowest free descriptor, if that is a standard stream's. Reading it returns nothing, and writing fails.
fn open_place(rt: &HostRuntime) -> Option<File> {
    let file = match fs::open(rt, "/dev/null") {
        Ok(file) => file,
        Err(_) => fs::open(rt, "/").ok()?,
    };
    if file.as_raw_fd() <= LAST_STREAM {
        Some(file)
    } else {
        None
    }
}
