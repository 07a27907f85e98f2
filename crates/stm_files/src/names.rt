// Which file a name means, and whether two names mean one.

use std::fs::{Files, Metadata, OpenFile};
use std::io::ErrorKind;
use std::os::unix::fs::MetadataExt;
use std::path::{Path, PathBuf};
use std::{fs, io};

/// How many symbolic links are followed one after another.
pub const LINKS: u32 = 40;

/// The path of the file that a name means, behind its symbolic links. Where there is no such file,
/// the path at which it would be made.
pub fn resolve<R: Files + AllocGlobal>(rt: &R, name: &str) -> io::Result<PathBuf> {
    match fs::canonicalize(rt, name) {
        Ok(path) => Ok(path),
        Err(e) if e.kind() == ErrorKind::NotFound => follow(rt, name),
        Err(e) => Err(e),
    }
}

/// The path that symbolic links lead to, where nothing is there.
fn follow<R: Files + AllocGlobal>(rt: &R, name: &str) -> io::Result<PathBuf> {
    let mut path = PathBuf::from_str(rt.alloc(), name)?;
    for _ in 0..LINKS {
        match follow_one(rt, path.as_path())? {
            Some(further) => path = further,
            None => return Ok(path),
        }
    }
    Err(io::Error::from(ErrorKind::InvalidInput))
}

/// The path that the symbolic link of this one leads to; none where it is no link.
pub fn follow_one<R: Files + AllocGlobal>(rt: &R, path: Path<'_>) -> io::Result<Option<PathBuf>> {
    match fs::read_link(rt, path) {
        Ok(target) => Ok(Some(folder_of(path.as_str()).join(rt.alloc(), target.as_path())?)),
        Err(_) => Ok(None),
    }
}

/// The folder that a file of this name is in.
pub fn folder_of(name: &str) -> Path<'_> {
    match Path::new(name).parent() {
        Some(folder) if !folder.as_str().is_empty() => folder,
        _ => Path::new("."),
    }
}

/// Whether two files that are there are one.
pub fn is_one(first: &Metadata, second: &Metadata) -> bool {
    first.dev() == second.dev() && first.ino() == second.ino()
}

/// Whether an open file is the one that a name means now.
pub fn is_named<R: Files>(rt: &R, file: &R::File, name: &str) -> bool {
    match (file.metadata(), fs::metadata(rt, name)) {
        (Ok(opened), Ok(named)) => is_one(&opened, &named),
        _ => false,
    }
}

/// Whether two names mean one file. Files that are there are compared by device and
/// inode, so that links of either kind are followed; of two that are not there, the
/// folders are, and the names in them.
pub fn is_same_file<R: Files + AllocGlobal>(rt: &R, one: &str, other: &str) -> bool {
    if one == other {
        return true;
    }
    match (fs::metadata(rt, one), fs::metadata(rt, other)) {
        (Ok(first), Ok(second)) => is_one(&first, &second),
        (Err(_), Err(_)) => is_same_place(rt, one, other).unwrap_or(false),
        _ => false,
    }
}

/// Whether two names are one: of files that are not there, whether they would be made as one.
pub fn is_same_place<R: Files + AllocGlobal>(rt: &R, one: &str, other: &str) -> io::Result<bool> {
    let (first, second) = (follow(rt, one)?, follow(rt, other)?);
    is_same_path(rt, first.as_path(), second.as_path())
}

/// Whether two paths of files that are not there are one: the folders are, and the names in them.
fn is_same_path<R: Files>(rt: &R, first: Path<'_>, second: Path<'_>) -> io::Result<bool> {
    if first.file_name() != second.file_name() {
        return Ok(false);
    }
    let folder = fs::metadata(rt, folder_of(first.as_str()))?;
    let other = fs::metadata(rt, folder_of(second.as_str()))?;
    Ok(is_one(&folder, &other))
}
