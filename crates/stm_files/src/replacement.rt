// Bytes that stand on the disk beside a file, ready to take its place.

use crate::files::sync_folder;
use crate::names::resolve;
use std::alloc::{AllocError, Global};
use std::fs::{Files, Metadata, OpenFile, OpenOptions};
use std::io::{ErrorKind, Write};
use std::os::unix::fs::{MetadataExt, OpenOptionsExt, lchown};
use std::path::PathBuf;
use std::{fs, io};

/// How many names are tried for the file beside.
const NAMES: u32 = 10_000;

/// Who may use a file: nobody else, as before it has the mode of the one whose place it takes.
pub const ALONE: u32 = 0o600;

/// Anyone may use a file, as far as the process's mask lets them.
pub const ANYONE: u32 = 0o666;

/// Bytes that stand on the disk beside a file, ready to take its place: all of them, or, where that
/// fails or never comes, none. What a symbolic link names is replaced, and the link stays.
#[derive(Drop)]
pub struct Replacement<R: Files> {
    target: PathBuf,
    beside: String,
    file: R::File,
}

impl<R: Files + AllocGlobal> Replacement<R> {
    /// Writes bytes beside the file of this name, and puts them on the disk. Where that file is
    /// there, its mode is kept, and its owner and group as far as the system lets them; else
    /// these may use it.
    pub fn prepare(rt: &R, name: &str, bytes: &[u8], mode: u32) -> io::Result<Replacement<R>> {
        let mut beside = Replacement::begin(rt, name, mode)?;
        match beside.fill(rt, bytes) {
            Ok(()) => Ok(beside),
            Err(e) => {
                beside.discard(rt);
                Err(e)
            }
        }
    }

    /// Makes an empty file beside the file of this name, for bytes that come one after another. It
    /// has to be ended before it takes the place.
    pub fn begin(rt: &R, name: &str, mode: u32) -> io::Result<Replacement<R>> {
        let target = resolve(rt, name)?;
        let (beside, file) = create_beside(rt, target.as_path().as_str(), mode)?;
        Ok(Replacement {
            target,
            beside,
            file,
        })
    }

    /// Writes the bytes, and answers once they are on the disk.
    fn fill(&mut self, rt: &R, bytes: &[u8]) -> io::Result<()> {
        self.write(bytes)?;
        self.end(rt)
    }

    /// Writes bytes more.
    pub fn write(&mut self, bytes: &[u8]) -> io::Result<()> {
        self.file.write_all(bytes)
    }

    /// Gives the file the rights of the one whose place it takes, and answers once all that was
    /// written is on the disk.
    pub fn end(&mut self, rt: &R) -> io::Result<()> {
        if let Ok(told) = fs::metadata(rt, self.target.as_path()) {
            keep_rights(rt, &told, self.beside.as_str(), &mut self.file)?;
        }
        self.file.sync_all()
    }

    /// The path of the file beside.
    pub fn path(&self) -> &str {
        self.beside.as_str()
    }

    /// The file that holds the bytes.
    pub fn file(&self) -> &R::File {
        &self.file
    }

    /// The path of the file whose place is taken.
    pub fn target(&self) -> &str {
        self.target.as_path().as_str()
    }

    /// Takes the place, also on the disk, and answers the file, open.
    pub fn place(self, rt: &R) -> io::Result<R::File> {
        self.take_place(rt)?;
        Ok(self.file)
    }

    fn take_place(&self, rt: &R) -> io::Result<()> {
        if let Err(e) = fs::rename(rt, self.beside.as_str(), self.target.as_path()) {
            let _ = fs::remove_file(rt, self.beside.as_str());
            return Err(e);
        }
        sync_folder(rt, self.target())
    }

    /// Takes the place where no file is, and answers the file, open; none where one was
    /// made there in the meantime.
    pub fn place_new(self, rt: &R) -> io::Result<Option<R::File>> {
        Ok(if self.take_new_place(rt)? {
            Some(self.file)
        } else {
            None
        })
    }

    /// Whether it took the place; false where a file was made there in the meantime.
    fn take_new_place(&self, rt: &R) -> io::Result<bool> {
        let done = match fs::hard_link(rt, self.beside.as_str(), self.target()) {
            Ok(()) => Ok(true),
            Err(e) if e.kind() == ErrorKind::AlreadyExists => Ok(false),
            // a file system without hard links
            Err(_) => match fs::rename(rt, self.beside.as_str(), self.target()) {
                Ok(()) => return Ok(true),
                Err(e) => Err(e),
            },
        };
        let _ = fs::remove_file(rt, self.beside.as_str());
        done
    }

    /// Leaves the file as it is.
    pub fn discard(self, rt: &R) {
        let _ = fs::remove_file(rt, self.beside.as_str());
    }
}

/// Whether a file could be made beside this one. It is made, and removed.
pub fn try_beside<R: Files + AllocGlobal>(rt: &R, name: &str) -> io::Result<()> {
    let target = resolve(rt, name)?;
    let (beside, _file) = create_beside(rt, target.as_path().as_str(), ALONE)?;
    fs::remove_file(rt, beside.as_str())
}

/// The name of a file beside another. It tells whose it is: a file that a user may have isn't taken
/// for one that a program left.
fn name_beside(alloc: Global, target: &str, count: u32) -> Result<String, AllocError> {
    format!(in alloc; "{target}.stmflash-{count}.new")
}

/// Removes what programs left beside the file of this name that were killed before it took the
/// place, as far as the system lets it.
pub fn remove_leftovers<R: Files + AllocGlobal>(rt: &R, name: &str) {
    let Ok(target) = resolve(rt, name) else {
        return;
    };
    for count in 0..NAMES {
        let Ok(beside) = name_beside(rt.alloc(), target.as_path().as_str(), count) else {
            return;
        };
        if fs::remove_file(rt, beside.as_str()).is_err() {
            return;
        }
    }
}

/// Makes a file beside another, under a name that none has, for these to use where there is no other.
fn create_beside<R: Files + AllocGlobal>(
    rt: &R,
    target: &str,
    mode: u32,
) -> io::Result<(String, R::File)> {
    let mode = if fs::metadata(rt, target).is_ok() {
        ALONE
    } else {
        mode
    };
    for count in 0..NAMES {
        let beside = name_beside(rt.alloc(), target, count)?;
        let mut options = OpenOptions::new();
        match options
            .write(true)
            .create_new(true)
            .mode(mode)
            .open(rt, beside.as_str())
        {
            Ok(file) => return Ok((beside, file)),
            Err(e) if e.kind() == ErrorKind::AlreadyExists => {}
            Err(e) => return Err(e),
        }
    }
    Err(io::Error::from(ErrorKind::AlreadyExists))
}

/// Gives a file the owner, the group and the mode that another has; the first two as far
/// as the system lets them.
fn keep_rights<R: Files>(
    rt: &R,
    told: &Metadata,
    beside: &str,
    file: &mut R::File,
) -> io::Result<()> {
    let made = file.metadata()?;
    if made.uid() != told.uid() && lchown(rt, beside, Some(told.uid()), None).is_err() {
        // the owner is who runs the program
    }
    if made.gid() != told.gid() && lchown(rt, beside, None, Some(told.gid())).is_err() {
        // a group that its owner isn't in
    }
    file.set_permissions(told.permissions())
}
