// What is wrong with words that `clap` takes.

use thiserror::Error;

/// What is wrong with words that `clap` takes.
#[derive(Debug, Drop, Error)]
pub enum UsageFault<'a> {
    /// The word is no number, or one out of its range.
    #[error("usage: bad number {0}")]
    BadNumber(&'a str),
    /// The word names no device.
    #[error("usage: bad device {0}")]
    BadDevice(&'a str),
    /// The word is no unique id of a board, nor the end of one.
    #[error("usage: bad board {0}")]
    BadBoard(&'a str),
    /// The word is no unique id of a device.
    #[error("usage: bad unique id {0}")]
    BadUnique(&'a str),
    /// The unique id of a simulator has another length, in bytes, than the chip's.
    #[error("usage: unique id {0} is not {1} bytes")]
    UniqueLength(&'a str, u8),
    /// A simulator is to tell a unique id, and the table names no place for it of this chip's.
    #[error("usage: chip {0:04X} has no unique in the table")]
    NoUnique(u16),
    /// A simulator is to tell its size, and the table names no place for it of this chip's.
    #[error("usage: chip {0:04X} has no size_at in the table")]
    NoSize(u16),
    /// A simulator is to have a write-protected page that its chip doesn't have.
    #[error("usage: chip {0:04X} has no page {1}")]
    NoPage(u16, u16),
    /// A board is wanted, and the device isn't to be asked which it is.
    #[error("usage: give --board or --no-board, not both")]
    BoardUnasked,
    /// Neither a journal nor a folder of journals is named.
    #[error("usage: give --journal or --journals")]
    NoJournal,
    /// Both are.
    #[error("usage: give --journal or --journals, not both")]
    TwoJournals,
    /// A folder of journals is named, and the device isn't to be asked which board it is.
    #[error("usage: give --journals or --no-board, not both")]
    FolderUnasked,
    /// A journal is to be cut behind a crash, and a folder of journals is named.
    #[error("usage: give --journals or --recover, not both")]
    RecoversOne,
    /// A place is named for an image that isn't raw.
    #[error("usage: -S needs a raw image")]
    RangeNeedsRaw,
    /// One of several images has a place, and is HEX.
    #[error("usage: -S needs a raw image: {0} is HEX")]
    HexAtPlace(&'a str),
    /// A raw image among others has no place, and the table's chips don't begin at one address.
    #[error("usage: give {0}@ADDRESS")]
    GivePlace(&'a str),
    /// A stop is asked for, and the device is no simulator in the process.
    #[error("usage: --stop needs a simulator")]
    StopNeedsSimulator,
    /// A Go is asked for behind a write whose journal isn't kept.
    #[error("usage: --go needs --keep or --keep-to")]
    GoNeedsKeep,
    /// A journal is to be cut, and to go to another name.
    #[error("usage: give TO or --last, not both")]
    LastTakesNoName,
    /// An undo is to go back to the newest change, and so many.
    #[error("usage: give COUNT or --to-change, not both")]
    ChangeTakesNoCount,
    /// A part that isn't whole words is to be summed up.
    #[error("usage: {0} is not whole words of 4 bytes")]
    NotWholeWords(&'a str),
    /// Blank stretches are to be left out of raw bytes.
    #[error("usage: --skip-blank needs HEX")]
    BlankNeedsHex,
    /// An erase of neither all pages nor some is asked for, or of both.
    #[error("usage: give pages or --all")]
    GivePages,
    /// Another protection than the write protection is to be changed in a session that was stopped.
    #[error("usage: --in-session goes with write-unprotect alone")]
    InSessionUnprotects,
    /// The write protection is to be taken off in a session that was stopped, and the device to be
    /// asked something before.
    #[error("usage: --in-session asks the board nothing first: no --board, --journals or --watch")]
    InSessionUnasked,
    /// A variable of the environment is no text.
    #[error("usage: {0} is not text")]
    NotText(&'a str),
    /// The words are none of the command set, which `clap` would have told.
    #[error("usage: unknown words")]
    UnknownWords,
}
