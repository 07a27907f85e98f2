// Why the program failed, and what it says of it.
ghost use Rattle.std.specs.Prelude.{◌≡◌, ◌≤◌};
ghost use Rattle.stm_work.specs.BrokenOff.{is_broken_off};
ghost use Rattle.stm_work.specs.Content.{NamesImage};
ghost use Rattle.stm_work.specs.ExitStatus.{status_of};
ghost use Rattle.stm_work.specs.declared.failure.Failure.TheVariants.{Session, Hex, Memory, Raw};

use crate::otherwise::Otherwise;
use std::alloc::{AllocError, AllocFailed};
use std::fmt::{Debug, Display, Formatter};
use std::io::ErrorKind;
use std::{fmt, io};
use stm_chip::TableFault;
use stm_files::{Doubt, FileFault, Foreign, Reason, Rescued, Unusable, is_moved};
use stm_image::{HexFault, RawFault};
use stm_session::Fault;
use stm_words::UsageFault;
use thiserror::Error;

/// Why the program failed. Names are those that the words gave.
#[derive(Drop, Error)]
pub enum Failure<'a> {
    /// The session was refused or broken off.
    #[error("{0}")]
    Session(Fault),
    /// The chip table is refused.
    #[error("{0}")]
    Table(TableFault),
    /// The text of a chip table that no word names is refused.
    #[error("{1}, in {0}")]
    StandingTable(&'a str, TableFault),
    /// The HEX text of an image is refused.
    #[error("{0}")]
    Hex(HexFault),
    /// The raw bytes of an image are refused.
    #[error("{0}")]
    Raw(RawFault),
    /// The file of an image is no raw image, by how it begins.
    #[error("image is not raw: {0}")]
    NotRaw(Foreign),
    /// The HEX text of one of several images is refused.
    #[error("{1}, in {0}")]
    HexIn(&'a str, HexFault),
    /// The raw bytes of one of several images are refused.
    #[error("{1}, in {0}")]
    RawIn(&'a str, RawFault),
    /// The file of one of several images is no raw image, by how it begins.
    #[error("image is not raw: {1}, in {0}")]
    NotRawIn(&'a str, Foreign),
    /// One of several images is longer than the place that its word gives.
    #[error("address outside the flash, in {0}")]
    OutOfPlace(&'a str),
    /// Two images have another byte at an address.
    #[error("images {0} and {1} differ at {2:08X}")]
    ImagesDiffer(&'a str, &'a str, u32),
    /// There was no memory for what the program keeps.
    #[error("out of memory")]
    Memory,
    /// A file is there and can't be read.
    #[error("cannot read {0}")]
    CannotRead(&'a str),
    /// The file of a simulator's line can't be read.
    #[error("cannot read {0}.line")]
    CannotReadLine(&'a str),
    /// A file can't be written.
    #[error("cannot write {0}")]
    CannotWrite(&'a str),
    /// It is a regular file that was opened for the program, which would be replaced.
    #[error("cannot write {0}, a file that is open already: name the file, or say - for standard output")]
    IsOpened(&'a str),
    /// It is a journal, which would be replaced.
    #[error("cannot write {0}, a journal: name another file")]
    IsJournal(&'a str),
    /// A journal can't be moved there.
    #[error("cannot write {0}: it is on another file system than the journal")]
    OtherFileSystem(&'a str),
    /// Standard output leads to a file that is read, or that the program writes itself.
    #[error("standard output leads to {0}: send it elsewhere")]
    OutLeads(&'a str),
    /// Standard error does. It is told nowhere: what is told would be in that file.
    #[error("standard error leads to {0}: send it elsewhere")]
    ErrLeads(&'a str),
    /// What is there takes no bytes.
    #[error("cannot write {0}: it is no file, terminal or pipe that is read")]
    NoOutput(&'a str),
    /// The file that says which board a simulator is can't be written.
    #[error("cannot write {0}.board")]
    CannotWriteBoard(&'a str),
    /// The file of a simulator's line can't be written.
    #[error("cannot write {0}.line")]
    CannotWriteLine(&'a str),
    /// Another program has the journal of this name.
    #[error("journal is in use")]
    JournalInUse(&'a str),
    /// The journal's file has bytes, and is no journal.
    #[error("{0} is no journal: name another, or move it away")]
    NoJournal(&'a str),
    /// A file is another user's, or others may write it, and no word allows that.
    #[error("{0} {1}")]
    NotTrusted(&'a str, Doubt),
    /// Of this page this segment of the journal has other digits than it kept.
    #[error("page {0} of segment {1} has another CRC in the journal than when it was kept; undo by a copy of \
        the journal, or --trust-journal")]
    PageDamaged(u16, u32),
    /// This page holds something else than this segment left there, which an undo takes.
    #[error("page {0} isn't as segment {1} left it; --trust-journal to undo all the same")]
    PageChanged(u16, u32),
    /// The system gives no lock on a file.
    #[error("cannot lock {0}: {1}; --no-lock if no other program has it")]
    CannotLock(&'a str, Reason),
    /// The journal couldn't be read, or added to.
    #[error("journal failed")]
    JournalFailed(Reason),
    /// The journal's file isn't the one any more that was read and added to.
    #[error("journal failed")]
    JournalMoved,
    /// The same, and what it held is in a file of this name.
    #[error("journal failed")]
    JournalRescued(Rescued<'a>),
    /// Another program has the simulator's files.
    #[error("simulator file is in use")]
    SimulatorInUse,
    /// The flash has another length than the chip's, or the line's file another form.
    #[error("bad simulator file {0}")]
    BadSimulatorFile(&'a str),
    /// The file that says which board a simulator is can't be read.
    #[error("cannot read {0}.board")]
    CannotReadBoard(&'a str),
    /// That file has another form.
    #[error("bad simulator file {0}.board")]
    BadBoardFile(&'a str),
    /// Nothing answers at a socket, or it can't be made.
    #[error("cannot connect {0}")]
    CannotConnect(&'a str),
    /// The device is a character device of the system, as a serial port is, and no socket.
    #[error("cannot connect {0}")]
    IsPort(&'a str),
    /// The device is another board than the one that is wanted.
    #[error("device is another board")]
    OtherBoard,
    /// A board is wanted, and the device doesn't tell which it is.
    #[error("device tells no board")]
    NoBoard,
    /// A device was silent for too long, or didn't take what was sent.
    #[error("no answer from the device")]
    NoAnswer,
    /// The session is watched, and the device does otherwise than the model.
    #[error("the board does otherwise than the model: {0}; undo what was begun, then \
        stmflash-trial")]
    Otherwise(Otherwise),
    /// The journal of a folder is bad.
    #[error("{1}, in {0}")]
    InJournal(&'a str, Fault),
    /// A line of the journal is bad, and a crash of the PC may have left it and what follows.
    #[error("bad journal line {0}")]
    UnsyncedEnd(u64),
    /// The same of the journal of this name, in a folder.
    #[error("bad journal line {1}, in {0}")]
    UnsyncedEndIn(&'a str, u64),
    /// The first line of a folder's journal doesn't name the board whose name the file has.
    #[error("{0} doesn't name its board")]
    Misnamed(&'a str),
    /// Journals of a folder are unfinished or can't be used, and the device may be a board of theirs.
    #[error("unfinished or bad: {0}; say --board and all digits of the board that is here")]
    BegunJournals(&'a str),
    /// The device tells no unique id, by which a folder's journal could be known.
    #[error("the board tells no unique id: --journal names its journal")]
    NoUnique,
    /// The words can't be done.
    #[error("{0}")]
    Usage(UsageFault<'a>),
    /// It was asked whether to go on, and the answer wasn't yes.
    #[error("not confirmed, nothing was sent")]
    Unconfirmed,
    /// A simulator was stopped, as it was asked for.
    #[error("stopped")]
    Stopped,
}

impl<'a> Debug for Failure<'a> {
    fn fmt<W: fmt::Write>(&self, f: &mut Formatter<W>) -> fmt::Result {
        Display::fmt(self, f)
    }
}

impl<'a> Failure<'a> {
    /// The program's exit status: 2 for what its words ask, 3 for a stop that was
    /// asked for, 1 for all else.
    pub fn status(&self) -> u8
        ensures status { result ≡ status_of self.now }
        ensures failed { 1 ≤ result }
    {
        match self {
            Failure::Usage(_) => 2,
            Failure::Stopped => 3,
            _ => 1,
        }
    }

    /// The same of one of several images: it names that.
    pub fn of_image(self, name: &'a str) -> Failure<'a>
        ensures { NamesImage result }
    {
        match self {
            Failure::Hex(fault) => Failure::HexIn(name, fault),
            Failure::Raw(fault) => Failure::RawIn(name, fault),
            Failure::NotRaw(what) => Failure::NotRawIn(name, what),
            Failure::Session(Fault::OutOfFlash) => Failure::OutOfPlace(name),
            Failure::Usage(UsageFault::RangeNeedsRaw) => {
                Failure::Usage(UsageFault::HexAtPlace(name))
            }
            other => other,
        }
    }

    /// Whether a session was broken off by its line or by a device that doesn't follow the
    /// protocol, so that another may do what it was to do.
    pub fn is_broken_off(&self) -> bool
        ensures { result ≡ is_broken_off self.now }
    {
        matches!(
            self,
            Failure::Session(Fault::Line) | Failure::Session(Fault::Device) | Failure::NoAnswer
        )
    }

    /// What an error of a file is, where it is named so.
    pub fn of_file(error: &io::Error, named: Failure<'a>) -> Failure<'a> {
        if error.kind() == ErrorKind::OutOfMemory {
            Failure::Memory
        } else {
            named
        }
    }
}

impl<'a> Failure<'a> {
    /// Why the journal of this name can't be used.
    pub fn of_journal(why: Unusable, name: &'a str) -> Failure<'a> {
        match why {
            Unusable::InUse => Failure::JournalInUse(name),
            Unusable::Unlockable(e) => Failure::CannotLock(name, Reason(e)),
            Unusable::NoJournal => Failure::NoJournal(name),
            Unusable::NotTrusted(doubt) => Failure::NotTrusted(name, doubt),
            Unusable::Unread(e) => Failure::of_file(&e, Failure::CannotRead(name)),
        }
    }

    /// Why the simulator's file of this name can't be used.
    pub fn of_simulator(why: Unusable, name: &'a str) -> Failure<'a> {
        match why {
            Unusable::InUse => Failure::SimulatorInUse,
            why => Failure::of_journal(why, name),
        }
    }

    /// Why the journal failed, where the system told it.
    pub fn of_reason(reason: Option<io::Error>) -> Failure<'a> {
        match reason {
            Some(e) if e.kind() == ErrorKind::OutOfMemory => Failure::Memory,
            Some(e) if is_moved(&e) => Failure::JournalMoved,
            Some(e) => Failure::JournalFailed(Reason(e)),
            None => Failure::Session(Fault::Journal),
        }
    }
}

impl<'a> From<FileFault<'a>> for Failure<'a> {
    fn from(fault: FileFault<'a>) -> Self {
        match fault {
            FileFault::Memory => Failure::Memory,
            FileFault::CannotRead(name) => Failure::CannotRead(name),
            FileFault::CannotWrite(name) => Failure::CannotWrite(name),
            FileFault::CannotReadLine(name) => Failure::CannotReadLine(name),
            FileFault::CannotWriteLine(name) => Failure::CannotWriteLine(name),
            FileFault::CannotReadBoard(name) => Failure::CannotReadBoard(name),
            FileFault::CannotWriteBoard(name) => Failure::CannotWriteBoard(name),
            FileFault::BadSimulatorFile(name) => Failure::BadSimulatorFile(name),
            FileFault::BadBoardFile(name) => Failure::BadBoardFile(name),
            FileFault::SimulatorUnusable(name, why) => Failure::of_simulator(why, name),
            FileFault::NoDevice => Failure::Session(Fault::Device),
            FileFault::Journal(reason) => Failure::of_reason(reason),
        }
    }
}

impl From<Fault> for Failure<'_> {
    ghost from_gives = { λ fault failure. failure ≡ Session fault };

    fn from(fault: Fault) -> Self {
        Failure::Session(fault)
    }
}

impl<'a> From<UsageFault<'a>> for Failure<'a> {
    fn from(fault: UsageFault<'a>) -> Self {
        Failure::Usage(fault)
    }
}

impl From<TableFault> for Failure<'_> {
    fn from(fault: TableFault) -> Self {
        Failure::Table(fault)
    }
}

impl From<HexFault> for Failure<'_> {
    ghost from_gives = { λ fault failure. failure ≡ Hex fault };

    fn from(fault: HexFault) -> Self {
        Failure::Hex(fault)
    }
}

impl From<RawFault> for Failure<'_> {
    ghost from_gives = { λ fault failure. failure ≡ Raw fault };

    fn from(fault: RawFault) -> Self {
        Failure::Raw(fault)
    }
}

impl From<AllocError> for Failure<'_> {
    ghost from_gives = { λ _ failure. failure ≡ Memory };

    fn from(_: AllocError) -> Self {
        Failure::Memory
    }
}

impl<T: Drop> From<AllocFailed<T>> for Failure<'_> {
    fn from(_failed: AllocFailed<T>) -> Self {
        Failure::Memory
    }
}
