// What is told behind a fault, or behind what was done, in a line of its own.

use crate::failure::Failure;
use crate::hint::Hint;
use stm_files::{Reason, Rescued};
use thiserror::Error;

/// What is told behind a fault, or behind what was done, in a line of its own.
#[derive(Clone, Copy, Debug, Error)]
pub enum Behind<'f> {
    /// What came on the line, or what is to be done.
    #[error("{0}")]
    Hint(Hint),
    /// Why the system did not do what it was asked for.
    #[error("{0}")]
    Reason(&'f Reason),
    /// The journal's file went away.
    #[error("it was moved, replaced, cut or added to")]
    Moved,
    /// The same, and what it held is in a file of this name.
    #[error("it was moved, replaced, cut or added to; what it held is in {0}: undo 1 --journal {0}, if log says unfinished")]
    Rescued(&'f Rescued<'f>),
    /// A crash of the PC may have left the journal's bad end.
    #[error("a crash of the PC may have left it: undo 1 --recover cuts it off, and keeps it beside")]
    UnsyncedEnd,
    /// The same of the journal of this name.
    #[error("a crash of the PC may have left it: undo 1 --recover --journal {0} cuts it off, and keeps it beside")]
    UnsyncedEndIn(&'f str),
    /// The journal of this name is in use.
    #[error("another program has {0}: wait until it ends")]
    InUse(&'f str),
    /// The device is a port, of this name.
    #[error("serial ports want stmflash-line {0} -- stmflash .. (no --device)")]
    Port(&'f str),
}

impl<'f> Behind<'f> {
    /// What tells more of a failure: the failure itself, or else the hint.
    pub fn failure(failure: &'f Failure, hint: Option<Hint>) -> Option<Behind<'f>> {
        match (failure, hint) {
            (Failure::JournalFailed(reason), _) => Some(Behind::Reason(reason)),
            (Failure::JournalMoved, _) => Some(Behind::Moved),
            (Failure::JournalRescued(file), _) => Some(Behind::Rescued(file)),
            (Failure::UnsyncedEnd(_), _) => Some(Behind::UnsyncedEnd),
            (Failure::UnsyncedEndIn(name, _), _) => Some(Behind::UnsyncedEndIn(name)),
            (Failure::JournalInUse(name), _) => Some(Behind::InUse(name)),
            (Failure::IsPort(name), _) => Some(Behind::Port(name)),
            (_, Some(hint)) => hint.of(failure).map(|it| Behind::Hint(it)),
            _ => None,
        }
    }

    /// What is to be done behind what was done.
    pub fn done(hint: Option<Hint>) -> Option<Behind<'f>> {
        let Some(hint) = hint else { return None };
        hint.of_done().map(|it| Behind::Hint(it))
    }
}
