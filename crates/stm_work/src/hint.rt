// What came on a line that failed, by name, and what to do.

ghost use Rattle.std.specs.Prelude.{◌≡◌};
ghost use Rattle.stm_work.specs.ToldJson.{told_in_line};

use crate::failure::Failure;
use crate::work::Next;
use stm_session::Fault;
use thiserror::Error;

/// What came, as far as it tells why a session was broken off, and what to do.
#[derive(Clone, Copy, Debug, PartialEq, Eq, Error)]
pub enum Hint {
    /// Nothing came since the session began.
    #[error("nothing came: is the board in its bootloader, with power?")]
    Silent,
    /// What came is just what was sent.
    #[error("the line echoes: are RX and TX joined?")]
    Echo,
    /// What came begins with no answer, or came before anything was sent.
    #[error("bytes came that are no answer: is the board in its bootloader, is the speed right?")]
    NoAnswer,
    /// Just 76 came, by which some bootloaders say that they are busy.
    #[error("the board says that it is busy (76): wait, and try again; stmflash can't use one that \
        says so each time")]
    Busy,
    /// So many bytes of id were told, and not two.
    #[error("the board tells an id of {0} bytes: stmflash knows ids of 2 bytes alone, and can't use it")]
    IdOf(u16),
    /// A NACK came for the code of Read Memory.
    #[error("the device refused to read: is its flash readout-protected?")]
    ReadRefused,
    /// A NACK came for the code of Write Memory.
    #[error("the device refused to write: is its flash readout-protected?")]
    WriteRefused,
    /// A NACK came for the code of Erase Memory or of Extended Erase Memory.
    #[error("the device refused to erase: is its flash readout-protected?")]
    EraseRefused,
    /// A NACK came for the address of a read, or for its count.
    #[error("address {0:08X}: the device refused to read it: is the flash readout-protected, or smaller?")]
    ReadRefusedAt(u32),
    /// A NACK came for the address of a write, or for its data.
    #[error("address {0:08X}: the device refused to write it: is its page write-protected? If so: \
        protect write-unprotect --in-session, undo 1")]
    WriteRefusedAt(u32),
    /// A NACK came for the number of a page that was to be erased.
    #[error("page {0}: the device refused to erase it: is it write-protected? If so: protect \
        write-unprotect --in-session, undo 1")]
    PageRefused(u16),
    /// A page doesn't hold what an undo wrote.
    #[error("undo again; if it stays so, the flash may be worn out, or the page write-protected")]
    UndoAgain,
    /// Another board answered in an undo.
    #[error("undo again, at the board that was asked first")]
    UndoAtFirst,
    /// The write protection was to be taken off while there is something to undo.
    #[error("to undo what a write-protected page refuses: protect write-unprotect --in-session, \
        undo 1")]
    InSession,
    /// What was written has bytes of an erase, in the block at this address.
    #[error("at {0:08X} the image holds bytes that a device which loses power in the midst would take \
        for an erase; use -v, and reset before an undo")]
    LikeErase(u32),
    /// The same, so many bytes behind the flash's first.
    #[error("at {0:08X} of the flash the image holds bytes that a device which loses power in the midst \
        would take for an erase; use -v, and reset before an undo")]
    LikeEraseBehind(u32),
    /// The write protection was taken off, and there may be something to undo.
    #[error("the board resets itself; now: undo 1")]
    NowUndo,
}

impl Hint {
    /// What is to be done behind a fault of a work, which the line's turns don't tell.
    pub fn behind(failure: &Failure, next: Next) -> Option<Hint> {
        match failure {
            Failure::Session(Fault::NotHeld(_)) => Some(Hint::UndoAgain),
            Failure::Session(Fault::BoardChanged) if next == Next::UndoAgain => {
                Some(Hint::UndoAtFirst)
            }
            Failure::Session(Fault::InSession) if next == Next::Unprotecting => {
                Some(Hint::InSession)
            }
            _ => None,
        }
    }

    /// What is to be done behind a work that was done.
    pub fn behind_done(next: Next) -> Option<Hint> {
        match next {
            Next::Undo => Some(Hint::NowUndo),
            _ => None,
        }
    }

    /// The same, where it tells more of what was done.
    pub fn of_done(self) -> Option<Hint> {
        match self {
            Hint::NowUndo => Some(self),
            _ => None,
        }
    }

    /// The same in a line of JSON, which tells too what the bytes that were written look like.
    pub fn in_line(self) -> Option<Hint>
        ensures { result ≡ told_in_line self }
    {
        match self {
            Hint::NowUndo | Hint::LikeErase(_) | Hint::LikeEraseBehind(_) => Some(self),
            _ => None,
        }
    }

    /// The same, where it tells more of a failure.
    pub fn of(self, failure: &Failure) -> Option<Hint> {
        let is_told = match failure {
            Failure::Session(fault) => self.is_behind(*fault),
            // what the device refused, or that it is busy
            Failure::Otherwise(_) => !matches!(
                self,
                Hint::Silent
                    | Hint::Echo
                    | Hint::NoAnswer
                    | Hint::IdOf(_)
                    | Hint::LikeErase(_)
                    | Hint::LikeEraseBehind(_)
            ),
            Failure::NoAnswer => true,
            _ => false,
        };
        if is_told { Some(self) } else { None }
    }

    /// Whether it tells more of a session's fault. That nothing came says nothing of a line that was
    /// closed.
    fn is_behind(self, fault: Fault) -> bool {
        match fault {
            Fault::Line => !matches!(self, Hint::Silent),
            Fault::Device => true,
            Fault::NotHeld(_) => matches!(self, Hint::UndoAgain),
            Fault::BoardChanged => matches!(self, Hint::UndoAtFirst),
            Fault::InSession => matches!(self, Hint::InSession),
            _ => false,
        }
    }
}
