// What a journal held whose file went away, or what was cut off it, in a file of its own.

use crate::files::sync_folder;
use crate::replacement::ALONE;
use std::fmt::{Display, Formatter};
use std::fs::{Files, OpenFile, OpenOptions};
use std::io::{ErrorKind, Write};
use std::os::unix::fs::OpenOptionsExt;
use std::path::Path;
use std::{fmt, fs, io};

/// How many names are tried.
const NAMES: u32 = 100;

/// The name of a file that has what a journal of this name held: that one's, an ending, and a number.
#[derive(Clone, Copy, Debug)]
pub struct Rescued<'n> {
    name: &'n str,
    /// Whether it has what was cut off, of a journal that is still there.
    is_cut: bool,
    number: u32,
}

impl Display for Rescued<'_> {
    fn fmt<W: fmt::Write>(&self, f: &mut Formatter<W>) -> fmt::Result {
        let ending = if self.is_cut { "cut" } else { "rescued" };
        match self.number {
            0 => write!(f, "{}.{ending}", self.name),
            number => write!(f, "{}.{ending}{number}", self.name),
        }
    }
}

/// Puts bytes into a new file beside the one of this name, or in the working folder where that one's
/// is gone, and answers its name.
pub fn rescue<'n, R: Files + AllocGlobal>(
    rt: &R,
    name: &'n str,
    is_cut: bool,
    bytes: &[u8],
) -> io::Result<Rescued<'n>> {
    match rescue_beside(rt, name, is_cut, bytes) {
        Err(e) if e.kind() == ErrorKind::NotFound => match Path::new(name).file_name() {
            Some(last) => rescue_beside(rt, last, is_cut, bytes),
            None => Err(e),
        },
        done => done,
    }
}

/// The same beside that file, by the first name that is free.
fn rescue_beside<'n, R: Files + AllocGlobal>(
    rt: &R,
    name: &'n str,
    is_cut: bool,
    bytes: &[u8],
) -> io::Result<Rescued<'n>> {
    for number in 0..NAMES {
        let new = Rescued {
            name,
            is_cut,
            number,
        };
        match write_new(rt, format!(in rt.alloc(); "{new}")?.as_str(), bytes) {
            Ok(()) => return Ok(new),
            Err(e) if e.kind() == ErrorKind::AlreadyExists => {}
            Err(e) => return Err(e),
        }
    }
    Err(io::Error::from(ErrorKind::AlreadyExists))
}

/// Writes a new file, which its user alone may use, and answers once it is on the disk.
fn write_new<R: Files>(rt: &R, name: &str, bytes: &[u8]) -> io::Result<()> {
    let mut options = OpenOptions::new();
    options.write(true).create_new(true).mode(ALONE);
    let mut file = options.open(rt, name)?;
    let written = match file.write_all(bytes) {
        Ok(()) => file.sync_all(),
        Err(e) => Err(e),
    };
    match written {
        Ok(()) => sync_folder(rt, name),
        Err(e) => {
            let _ = fs::remove_file(rt, name);
            Err(e)
        }
    }
}
