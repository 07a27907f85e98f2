// Pipes and devices, to which bytes are written as they come. To open one could wait for ever.

use crate::locks::Locks;
use std::fs::{Metadata, OpenOptions};
use std::io;
use std::io::ErrorKind;
use std::os::unix::fs::{FileTypeExt, MetadataExt};

/// How the names of files begin that were opened for the program, as a shell's `>(..)`.
const OPENED: &str = "/dev/fd/";

/// Whether a name is that of what was opened for the program, as standard output.
pub fn is_handed(name: &str) -> bool {
    name == "/dev/stdout" || name == "/dev/stderr" || name.starts_with(OPENED)
}

/// What is answered where nothing takes the bytes: a kind that the system never gives.
fn untaken() -> io::Error {
    io::Error::from(ErrorKind::InvalidData)
}

/// Whether a call failed for that.
pub fn is_untaken(error: &io::Error) -> bool {
    error.kind() == ErrorKind::InvalidData
}

/// The numbers of a device: which driver has it, and which of that driver's it is.
fn numbers(device: u64) -> (u64, u64) {
    (device / 256 % 4096, device % 256)
}

/// Whether bytes may go to a device of these numbers: /dev/null, or a terminal at which somebody
/// is. A serial port is none, nor is a disk.
fn takes_bytes(device: u64) -> bool {
    match numbers(device) {
        // null; terminals of the console; the process's own, and the console; those of windows
        (1, minor) => minor == 3,
        (4, minor) => minor < 64,
        (5, minor) => minor < 2,
        (major, _) => 136 <= major && major < 144,
    }
}

/// Opens what is told of, and is no file, to write it. A pipe that nobody reads is refused, and any
/// device but a terminal and /dev/null.
pub fn open_stream<R: Locks>(rt: &R, name: &str, told: &Metadata) -> io::Result<R::File> {
    let kind = told.file_type();
    if kind.is_fifo() {
        return open_pipe(rt, name);
    }
    let is_device = kind.is_char_device() || kind.is_block_device();
    if is_device && !is_handed(name) && !(kind.is_char_device() && takes_bytes(told.rdev())) {
        return Err(untaken());
    }
    OpenOptions::new().write(true).open(rt, name)
}

/// Opens a pipe that somebody reads to write it.
fn open_pipe<R: Locks>(rt: &R, name: &str) -> io::Result<R::File> {
    // while this end reads, none has to be waited for
    let both = OpenOptions::new().read(true).write(true).open(rt, name)?;
    let pipe = OpenOptions::new().write(true).open(rt, name)?;
    drop(both);
    if rt.is_read(&pipe) {
        Ok(pipe)
    } else {
        Err(untaken())
    }
}
