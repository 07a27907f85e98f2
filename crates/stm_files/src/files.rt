// Files that are read up to an end, and the folder that a file is in.
ghost use Rattle.std.specs.Prelude.{◌≡◌, IfOk, IfSome, take};

use crate::names::folder_of;
use std::alloc::Global;
use std::fs::{File, Files, OpenFile, OpenOptions};
use std::io::{ErrorKind, Read};
use std::{fs, io};

/// The name of what the program is given to read.
const STANDARD_INPUT: &str = "/dev/stdin";

/// How the names of files begin that were opened for the program, as a shell's `<(..)`.
const OPENED: &str = "/dev/fd/";

/// Reads a source to its end, or so many bytes of it.
pub fn read_up_to<S: Read + Drop>(alloc: Global, source: S, most: u64) -> io::Result<Vec<u8>>
    ensures { IfOk result
        (λ bytes. IfSome (S.remaining source) (λ told. bytes.items ≡ take most told)) }
{
    let mut bytes = Vec::new(alloc);
    source.take(most).read_to_end(&mut bytes)?;
    Ok(bytes)
}

/// Reads a source to its end, which has to come after so many bytes at most.
#[tactic(auto, using(crate::proofs::Whole::whole))]
pub fn read_at_most<S: Read + Drop>(alloc: Global, source: S, most: u32) -> io::Result<Vec<u8>>
    ensures { IfOk result (λ bytes. IfSome (S.remaining source) (λ told. bytes.items ≡ told)) }
{
    let most = u64::from(most);
    let bytes = read_up_to(alloc, source, most + 1)?;
    if bytes.len() as u64 > most {
        return Err(io::Error::from(ErrorKind::InvalidData));
    }
    Ok(bytes)
}

/// The bytes of the file of this name, which has so many at most. It is a regular one, or what was
/// opened for the program, as standard input, which may be a pipe.
pub fn read_file<R: Files + AllocGlobal>(rt: &R, name: &str, most: u32) -> io::Result<Vec<u8>> {
    if name == STANDARD_INPUT || name.starts_with(OPENED) {
        return read_at_most(rt.alloc(), File::open(rt, name)?, most);
    }
    match open_if_there(rt, name)? {
        Some(file) => read_at_most(rt.alloc(), file, most),
        None => Err(io::Error::from(ErrorKind::NotFound)),
    }
}

/// Whether there is a regular file of this name. What is there and is none, as a pipe, a
/// socket or a device, is an error: to open it could wait for ever.
fn is_regular<R: Files>(rt: &R, name: &str) -> io::Result<bool> {
    match fs::metadata(rt, name) {
        Ok(told) if told.is_file() => Ok(true),
        Ok(_) => Err(io::Error::from(ErrorKind::InvalidInput)),
        Err(e) if e.kind() == ErrorKind::NotFound => Ok(false),
        Err(e) => Err(e),
    }
}

/// Opens a regular file to read it; none where there is none of this name.
pub fn open_if_there<R: Files>(rt: &R, name: &str) -> io::Result<Option<R::File>> {
    if !is_regular(rt, name)? {
        return Ok(None);
    }
    Ok(Some(File::open(rt, name)?))
}

/// The same, on a handle that may write too, where the file may be written: there are file systems
/// that lock no other.
pub fn open_to_hold<R: Files>(rt: &R, name: &str) -> io::Result<Option<R::File>> {
    if !is_regular(rt, name)? {
        return Ok(None);
    }
    match OpenOptions::new().read(true).append(true).open(rt, name) {
        Err(e) if may_be_read(e.kind()) => Ok(Some(File::open(rt, name)?)),
        opened => Ok(Some(opened?)),
    }
}

/// Whether a file that can't be opened to write it may be one to read.
fn may_be_read(kind: ErrorKind) -> bool {
    kind == ErrorKind::PermissionDenied || kind == ErrorKind::ReadOnlyFilesystem
}

/// Whether there is a file of this name, or it can't be told.
pub fn is_there<R: Files>(rt: &R, name: &str) -> bool {
    match fs::metadata(rt, name) {
        Ok(_) => true,
        Err(e) => e.kind() != ErrorKind::NotFound,
    }
}

/// Removes a file, also on the disk, where it is there.
pub fn remove_if_there<R: Files>(rt: &R, name: &str) -> io::Result<()> {
    match fs::remove_file(rt, name) {
        Ok(()) => sync_folder(rt, name),
        Err(e) if e.kind() == ErrorKind::NotFound => Ok(()),
        Err(e) => Err(e),
    }
}

/// Puts on the disk which files the file's folder has.
pub fn sync_folder<R: Files>(rt: &R, name: &str) -> io::Result<()> {
    File::open(rt, folder_of(name))?.sync_all()
}
