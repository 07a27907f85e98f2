// Whose a file is, and who else may write it: what is in a journal is what an undo flashes.
ghost use Rattle.std.specs.Prelude.{◌≡◌, ◌<◌};
ghost use Rattle.stm_files.specs.Owners.{doubt_of, has_bit, is_ours, is_replaceable};
ghost use Rattle.stm_files.specs.Owners.{may_others_write};

use crate::locks::Locks;
use crate::names::{LINKS, folder_of, follow_one};
use crate::unusable::Unusable;
use std::fmt::{Display, Formatter};
use std::fs::Metadata;
use std::io::ErrorKind;
use std::os::unix::fs::{FileTypeExt, MetadataExt};
use std::path::PathBuf;
use std::{fmt, fs, io};

/// The user who may do anything.
const ROOT: u32 = 0;

/// What belongs to who runs the program.
const OWN: &str = "/proc/self";

/// Who runs the program.
#[derive(Clone, Copy)]
pub struct Users {
    own: u32,
    /// Who called sudo, for root; else the same.
    caller: u32,
}

/// Whose a file is, by the numbers of its user and its group, and what they and all others may do.
#[derive(Clone, Copy)]
pub struct Rights {
    user: u32,
    group: u32,
    mode: u32,
}

/// Why a file isn't used unless a word allows it.
#[derive(Clone, Copy, Debug, PartialEq, Eq)]
pub enum Doubt {
    /// It is another user's, of this number.
    Owner(u32),
    /// Others may write it.
    Writable,
    /// Others may put another in its place.
    Replaceable,
    /// Its name is a symbolic link that another user has made, of this number.
    Link(u32),
}

impl Display for Doubt {
    fn fmt<W: fmt::Write>(&self, f: &mut Formatter<W>) -> fmt::Result {
        match self {
            Doubt::Owner(user) => write!(f, "is user {user}'s: chown it, or --trust-journal"),
            Doubt::Writable => {
                f.write_str("may be written by others: chmod go-w it, or --trust-journal")
            }
            Doubt::Replaceable => f.write_str(
                "is in a folder that others may write: chmod go-w that, or --trust-journal",
            ),
            Doubt::Link(user) => write!(
                f,
                "is a link of user {user}: name what it leads to, or --trust-journal"
            ),
        }
    }
}

impl Users {
    /// Asks the system who runs the program.
    fn ask<R: Locks>(rt: &R) -> Users {
        let own = match fs::metadata(rt, OWN) {
            Ok(told) => told.uid(),
            // a system without users
            Err(_) => ROOT,
        };
        let caller = match rt.caller() {
            Some(caller) if own == ROOT => caller,
            _ => own,
        };
        Users { own, caller }
    }

    /// Whether a user's files are ours. Root's are: root may write any.
    fn have(self, user: u32) -> bool
        ensures { result ≡ is_ours self user }
    {
        user == ROOT || user == self.own || user == self.caller
    }
}

impl Rights {
    fn of(told: &Metadata) -> Rights {
        Rights {
            user: told.uid(),
            group: told.gid(),
            mode: kept_mode(told),
        }
    }
}

/// The mode of a file that keeps what is written; a device keeps nothing, and lets nobody spoil it.
fn kept_mode(told: &Metadata) -> u32 {
    if told.file_type().is_char_device() {
        0
    } else {
        told.mode()
    }
}

/// Whether a mode has a bit.
fn has_bit(mode: u32, bit: u32) -> bool
    requires { 0 < bit }
    ensures { result ≡ has_bit mode bit }
{
    mode / bit % 2 == 1
}

/// Whether others than its user may write a file. A group of the user's number is that user's
/// alone, as Debian makes one for each, and so is one of our number.
fn may_others_write(users: Users, file: Rights) -> bool
    ensures { result ≡ may_others_write users file }
{
    let is_private = file.group == file.user || users.have(file.group);
    has_bit(file.mode, 0o002) || (has_bit(file.mode, 0o020) && !is_private)
}

/// Whether others may replace the files of a folder. Those of a sticky one are replaced by their
/// own users alone.
fn is_replaceable(users: Users, folder: Rights) -> bool
    ensures { result ≡ is_replaceable users folder }
{
    may_others_write(users, folder) && !has_bit(folder.mode, 0o1000)
}

/// Why a file isn't used, by its own rights.
fn doubt_of(users: Users, file: Rights) -> Option<Doubt>
    ensures { result ≡ doubt_of users file }
{
    if !users.have(file.user) {
        Some(Doubt::Owner(file.user))
    } else if may_others_write(users, file) {
        Some(Doubt::Writable)
    } else {
        None
    }
}

/// Why what a name means isn't used, by each symbolic link at its end, and by the folder of each
/// and of the file.
fn doubt_way<R: Locks + AllocGlobal>(
    rt: &R,
    users: Users,
    name: &str,
) -> io::Result<Option<Doubt>> {
    let mut path = PathBuf::from_str(rt.alloc(), name)?;
    for _ in 0..LINKS {
        let folder = fs::metadata(rt, folder_of(path.as_path().as_str()))?;
        if is_replaceable(users, Rights::of(&folder)) {
            return Ok(Some(Doubt::Replaceable));
        }
        match fs::symlink_metadata(rt, path.as_path()) {
            Ok(told) if told.is_symlink() && !users.have(told.uid()) => {
                return Ok(Some(Doubt::Link(told.uid())));
            }
            _ => {}
        }
        match follow_one(rt, path.as_path())? {
            Some(further) => path = further,
            None => return Ok(None),
        }
    }
    Ok(None)
}

/// Why a file isn't used without a word, by what is told of it where it's there, and by its name.
/// Of a file that is to be made, its place alone counts.
pub fn doubt_at<R: Locks + AllocGlobal>(
    rt: &R,
    told: Option<&Metadata>,
    name: &str,
) -> io::Result<Option<Doubt>> {
    let users = Users::ask(rt);
    if let Some(told) = told {
        let own = doubt_of(users, Rights::of(told));
        if own.is_some() {
            return Ok(own);
        }
    }
    match doubt_way(rt, users, name) {
        // a place that isn't there, or that nobody gets to, is refused by who wants a file there
        Err(e) if e.kind() != ErrorKind::OutOfMemory => Ok(None),
        looked => looked,
    }
}

/// Why a folder of journals isn't used without a word. Whose it is doesn't count: each journal's
/// user does.
pub fn doubt_folder<R: Locks>(rt: &R, name: &str) -> Option<Doubt> {
    match fs::metadata(rt, name) {
        Ok(told) if is_replaceable(Users::ask(rt), Rights::of(&told)) => Some(Doubt::Writable),
        _ => None,
    }
}

/// Refuses a journal that isn't used without a word, unless one allows it.
pub fn check_journal_owner<R: Locks + AllocGlobal>(
    rt: &R,
    told: Option<&Metadata>,
    name: &str,
    trusts_others: bool,
) -> Result<(), Unusable> {
    if trusts_others {
        return Ok(());
    }
    match doubt_at(rt, told, name) {
        Ok(None) => Ok(()),
        Ok(Some(doubt)) => Err(Unusable::NotTrusted(doubt)),
        Err(e) => Err(Unusable::Unread(e)),
    }
}
