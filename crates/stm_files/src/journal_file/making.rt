// Opening the file of a journal, and making it.
ghost use Rattle.std.specs.Prelude.{◌≡◌, ◌||◌, IfOk, IfSome, true};

use crate::files::{open_to_hold, sync_folder};
use crate::held::Held;
use crate::journal_file::JournalFile;
use crate::journal_file::ending::moved;
use crate::locks::Locks;
use crate::names::{is_named, is_one, resolve};
use crate::owners::check_journal_owner;
use crate::replacement::ALONE;
use crate::unusable::Unusable;
use std::fs::{OpenFile, OpenOptions};
use std::io;
use std::io::ErrorKind;
use std::os::unix::fs::OpenOptionsExt;

/// Up to how many bytes of a journal that is added to are kept in memory.
const HELD: u64 = 1 << 26;

impl<'a, R: Locks + AllocGlobal> JournalFile<'a, R> {
    /// Opens the file to add at its end, and makes it where it is not there. Its
    /// name is on the disk then, and what it holds.
    pub(crate) fn begin(&mut self) -> io::Result<R::File>
        ensures known { self.new.known ≡ self.old.known }
        ensures failed { self.new.has_failed ≡ self.old.has_failed }
        ensures without { self.new.without_lock ≡ self.old.without_lock }
        ensures board { self.new.names_board ≡ self.old.names_board }
    {
        let target = resolve(self.rt, self.name)?;
        self.begin_at(target.as_path().as_str())
    }

    /// The same, at the path behind the name's symbolic links.
    fn begin_at(&mut self, path: &str) -> io::Result<R::File>
        ensures known { self.new.known ≡ self.old.known }
        ensures failed { self.new.has_failed ≡ self.old.has_failed }
        ensures without { self.new.without_lock ≡ self.old.without_lock }
        ensures board { self.new.names_board ≡ self.old.names_board }
    {
        if self.reading.is_none() {
            self.make(path)?;
        }
        let file = OpenOptions::new().append(true).open(self.rt, path)?;
        self.check_read(&file)?;
        if self.end > 0 {
            // what a program wrote that was killed may be in memory alone
            file.sync_all()?;
        }
        sync_folder(self.rt, path)?;
        if self.end <= HELD {
            self.text = self.read().ok();
        }
        Ok(file)
    }

    /// Makes the file, so that this program has it.
    fn make(&mut self, path: &str) -> io::Result<()>
        ensures known { self.new.known ≡ self.old.known }
        ensures failed { self.new.has_failed ≡ self.old.has_failed }
        ensures without { self.new.without_lock ≡ self.old.without_lock }
        ensures board { self.new.names_board ≡ self.old.names_board }
    {
        match self.make_held(path) {
            Ok(held) => {
                self.reading = Some(held);
                Ok(())
            }
            Err(Unusable::Unread(e)) => Err(e),
            Err(why) => {
                self.refusal = Some(why);
                Err(io::Error::from(ErrorKind::Other))
            }
        }
    }

    /// The same, where its name still leads to a place that is trusted.
    fn make_held(&self, path: &str) -> Result<Held<R>, Unusable>
        ensures { IfOk result (λ held. (held.is_locked || self.now.without_lock) ≡ true) }
    {
        check_journal_owner(self.rt, None, self.name, self.trusts_others)?;
        make_held(self.rt, path, self.without_lock)
    }

    /// Refuses a file that isn't the one that is read.
    fn check_read(&self, file: &R::File) -> io::Result<()> {
        match &self.reading {
            Some(read) if is_one(&read.file().metadata()?, &file.metadata()?) => Ok(()),
            _ => Err(moved()),
        }
    }
}

/// Opens the file of this name for this program alone, and tells how long it is; none where there
/// is none. One that is no journal is refused, and one that others have or may write.
pub(crate) fn open_held<R: Locks + AllocGlobal>(
    rt: &R,
    name: &str,
    without_lock: bool,
    trusts_others: bool,
) -> Result<Option<(Held<R>, u64)>, Unusable>
    ensures { IfOk result (λ opened. IfSome opened
        (λ pair. (pair.0.is_locked || without_lock) ≡ true)) }
{
    let file = match open_to_hold(rt, name) {
        Ok(Some(file)) => file,
        Ok(None) => {
            check_journal_owner(rt, None, name, trusts_others)?;
            return Ok(None);
        }
        Err(e) => return Err(Unusable::Unread(e)),
    };
    check_opened(rt, &file, name, trusts_others)?;
    let mut held = Held::claim(rt, file, without_lock)?;
    if !is_named(rt, held.file(), name) {
        return Err(Unusable::InUse);
    }
    held.refuse_other()?;
    match held.file().metadata() {
        Ok(told) => Ok(Some((held, told.len()))),
        Err(e) => Err(Unusable::Unread(e)),
    }
}

/// Refuses an open file that others have or may write, by what the system tells of it itself.
fn check_opened<R: Locks + AllocGlobal>(
    rt: &R,
    file: &R::File,
    name: &str,
    trusts_others: bool,
) -> Result<(), Unusable> {
    match file.metadata() {
        Ok(told) => check_journal_owner(rt, Some(&told), name, trusts_others),
        Err(e) => Err(Unusable::Unread(e)),
    }
}

/// Makes a file for this program alone, where none is. Nobody else may use it: it will hold what was
/// in the flash.
fn make_held<R: Locks>(rt: &R, path: &str, without_lock: bool) -> Result<Held<R>, Unusable>
    ensures { IfOk result (λ held. (held.is_locked || without_lock) ≡ true) }
{
    let mut options = OpenOptions::new();
    options.read(true).append(true).create_new(true).mode(ALONE);
    match options.open(rt, path) {
        Ok(file) => Held::claim(rt, file, without_lock),
        Err(e) if e.kind() == ErrorKind::AlreadyExists => Err(Unusable::InUse),
        Err(e) => Err(Unusable::Unread(e)),
    }
}
