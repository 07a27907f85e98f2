// Whether what was added to a journal's file stays there, and how a journal ends.
ghost use Rattle.std.specs.Prelude.{◌≡◌, OnOk, false};
ghost use Rattle.stm_journal.specs.States.{is_unfinished};
ghost use Rattle.stm_files.specs.Locks.{IsHeld};

use crate::file_fault::FileFault;
use crate::giving_up::give_up_journal;
use crate::journal_file::{JournalFile, Writing};
use crate::locks::Locks;
use crate::names::is_one;
use crate::rescue::{Rescued, rescue};
use crate::unusable::Unusable;
use std::fs::OpenFile;
use std::io::ErrorKind;
use std::{fs, io, mem};
use stm_journal::Journal;

/// What is answered where the file isn't the one any more that was read and added to: a kind that the
/// system never gives.
pub fn moved() -> io::Error {
    io::Error::from(ErrorKind::InvalidData)
}

/// Whether a call failed for that.
pub fn is_moved(error: &io::Error) -> bool {
    error.kind() == ErrorKind::InvalidData
}

/// Whether a name leads nowhere.
fn is_no_name(kind: ErrorKind) -> bool {
    kind == ErrorKind::NotFound || kind == ErrorKind::NotADirectory
}

impl<'a, R: Locks + AllocGlobal> JournalFile<'a, R> {
    /// Puts what the file of this name held into another, and answers that one's name; none where there was
    /// nothing, or it can't be.
    pub fn rescue<'n>(&mut self, name: &'n str) -> Option<Rescued<'n>> {
        let text = match mem::replace(&mut self.text, None) {
            Some(text) => Ok(text),
            None => self.read(),
        };
        match text {
            Ok(text) if !text.is_empty() => rescue(self.rt, name, false, text.as_slice()).ok(),
            _ => None,
        }
    }

    /// Ends the journal, by its name: the file is removed, or renamed to a name that isn't there, and
    /// from then on it isn't there. It has to be the one still that was read and added to.
    /// None of what it says is unfinished.
    pub fn end<'w>(
        &mut self,
        journal: &Journal,
        name: &'w str,
        to: Option<&'w str>,
    ) -> Result<(), FileFault<'w>>
        requires finished { is_unfinished journal.now.state ≡ false }
    {
        if !self.stays() {
            return Err(FileFault::Journal(self.take_reason()));
        }
        give_up_journal(self.rt, journal, name, to)?;
        self.writing = Writing::Unopened;
        self.reading = None;
        self.end = 0;
        self.names_board = false;
        Ok(())
    }
}

impl<'a, R: Locks> JournalFile<'a, R> {
    /// Refuses to go on with a file to which its name doesn't lead any more, or whose length isn't
    /// the one that is known: what is added there would be lost, or stand behind what
    /// isn't known.
    pub(crate) fn check_place(&self, file: &R::File) -> io::Result<()>
        ensures { OnOk result (IsHeld self.now.without_lock self.now.lock) }
    {
        if self.reading.is_none() {
            return Err(moved());
        }
        let told = file.metadata()?;
        match fs::metadata(self.rt, self.name) {
            Ok(named) if is_one(&told, &named) && told.len() == self.end => Ok(()),
            Ok(_) => Err(moved()),
            Err(e) if is_no_name(e.kind()) => Err(moved()),
            Err(e) => Err(e),
        }
    }

    /// Whether all that was added is still there, in the place that its name leads to.
    pub fn stays(&mut self) -> bool
        ensures { self.new ≡ self.old }
    {
        let answer = match &self.writing {
            Writing::Open(file) => self.check_place(file),
            _ => Ok(()),
        };
        match answer {
            Ok(()) => true,
            Err(e) => {
                self.reason = Some(e);
                false
            }
        }
    }

    /// Refuses a file that isn't the one any more that was opened and read.
    pub fn check_unchanged(&self) -> io::Result<()> {
        match &self.reading {
            Some(held) => self.check_place(held.file()),
            None => Err(moved()),
        }
    }

    /// Keeps why the first call failed, since none does more behind it, and hands its kind on.
    pub(crate) fn failed_by(&mut self, e: io::Error) -> io::Error
        ensures { self.new ≡ self.old }
    {
        let kind = e.kind();
        if self.reason.is_none() {
            self.reason = Some(e);
        }
        io::Error::from(kind)
    }

    /// Whether the file is there.
    pub fn is_there(&self) -> bool {
        self.reading.is_some()
    }

    /// Why the file can't be had: it wasn't there at first, and was to be made.
    pub fn take_refusal(&mut self) -> Option<Unusable>
        ensures { self.new ≡ self.old }
    {
        mem::replace(&mut self.refusal, None)
    }

    /// Why an append failed, or what was added doesn't stay.
    pub fn take_reason(&mut self) -> Option<io::Error>
        ensures { self.new ≡ self.old }
    {
        mem::replace(&mut self.reason, None)
    }
}
