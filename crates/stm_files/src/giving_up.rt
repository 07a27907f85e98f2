// A journal that is given up: its file is removed, or renamed.
ghost use Rattle.std.specs.Prelude.{◌≡◌, false};
ghost use Rattle.stm_journal.specs.States.{is_unfinished};

use crate::file_fault::FileFault;
use crate::files::sync_folder;
use crate::names::{is_one, is_same_place, resolve};
use std::fs::{Files, Metadata};
use std::io::ErrorKind;
use std::os::unix::fs::MetadataExt;
use std::{fs, io};
use stm_journal::Journal;

/// Removes the file of a journal, or renames it to a name that isn't there: of one that was read, and
/// none of whose writes and erases is unfinished.
pub fn give_up_journal<'a, R: Files + AllocGlobal>(
    rt: &R,
    _journal: &Journal,
    name: &'a str,
    to: Option<&'a str>,
) -> Result<(), FileFault<'a>>
    requires finished { is_unfinished _journal.now.state ≡ false }
{
    match to {
        Some(to) => rename(rt, name, to),
        None => remove(rt, name),
    }
}

/// Removes a file that was there, and answers once that is on the disk. A symbolic link is followed.
fn remove<'a, R: Files + AllocGlobal>(rt: &R, name: &'a str) -> Result<(), FileFault<'a>> {
    match remove_behind_links(rt, name) {
        Ok(()) => Ok(()),
        Err(e) => Err(FileFault::of_file(&e, FileFault::CannotWrite(name))),
    }
}

/// The same, with the system's fault.
fn remove_behind_links<R: Files + AllocGlobal>(rt: &R, name: &str) -> io::Result<()> {
    let path = resolve(rt, name)?;
    let path = path.as_path().as_str();
    fs::remove_file(rt, path)?;
    sync_folder(rt, path)
}

/// Renames a file to a name that isn't there, and answers once that is on the disk. A symbolic
/// link is followed. The file gets the new name first, and a file that is made there meanwhile stays.
fn rename<'a, R: Files + AllocGlobal>(
    rt: &R,
    name: &'a str,
    to: &'a str,
) -> Result<(), FileFault<'a>> {
    match rename_unless_there(rt, name, to) {
        Ok(()) => Ok(()),
        Err(e) => Err(FileFault::of_file(&e, FileFault::CannotWrite(to))),
    }
}

/// The same, with the system's fault.
fn rename_unless_there<R: Files + AllocGlobal>(rt: &R, name: &str, to: &str) -> io::Result<()> {
    match fs::symlink_metadata(rt, to) {
        Ok(told) => end_renaming(rt, name, to, &told),
        Err(e) if e.kind() != ErrorKind::NotFound => Err(e),
        Err(_) => begin_renaming(rt, name, to),
    }
}

/// Renames a file to a name that wasn't there.
fn begin_renaming<R: Files + AllocGlobal>(rt: &R, name: &str, to: &str) -> io::Result<()> {
    let path = resolve(rt, name)?;
    give_name(rt, path.as_path().as_str(), to)
}

/// Gives a file a new name, and takes the old one from it.
fn give_name<R: Files>(rt: &R, path: &str, to: &str) -> io::Result<()> {
    match fs::hard_link(rt, path, to) {
        Ok(()) => take_name(rt, path, to),
        Err(e) if e.kind() == ErrorKind::AlreadyExists => Err(e),
        // a file system without hard links
        Err(_) => {
            fs::rename(rt, path, to)?;
            sync_folder(rt, to)?;
            sync_folder(rt, path)
        }
    }
}

/// Takes the old name from a file that has a new one too, once the new one is on the disk. Where it
/// can't be taken, the file has the old one alone.
fn take_name<R: Files>(rt: &R, path: &str, to: &str) -> io::Result<()> {
    sync_folder(rt, to)?;
    if let Err(e) = fs::remove_file(rt, path) {
        let _ = fs::remove_file(rt, to);
        return Err(e);
    }
    sync_folder(rt, path)
}

/// Goes on with a renaming that was broken off when the file had both names. Any other
/// file of the new name stays.
fn end_renaming<R: Files + AllocGlobal>(
    rt: &R,
    name: &str,
    to: &str,
    told: &Metadata,
) -> io::Result<()> {
    let path = fs::canonicalize(rt, name)?;
    end_renaming_at(rt, path.as_str(), to, told)
}

/// The same, at the path behind the name's symbolic links.
fn end_renaming_at<R: Files + AllocGlobal>(
    rt: &R,
    path: &str,
    to: &str,
    told: &Metadata,
) -> io::Result<()> {
    let named = fs::symlink_metadata(rt, path)?;
    let has_both = is_one(&named, told) && told.nlink() > 1;
    if !has_both || is_same_place(rt, path, to)? {
        return Err(io::Error::from(ErrorKind::AlreadyExists));
    }
    take_name(rt, path, to)
}
