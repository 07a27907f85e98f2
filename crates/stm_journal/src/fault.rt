// Why a call of a journal was not done.
ghost use Rattle.std.specs.Prelude.{◌≡◌};
ghost use Rattle.stm_journal.specs.declared.fault.JournalFault.TheVariants.{Memory};

use std::alloc::AllocError;
use thiserror::Error;

/// Why a call of a journal was not done.
#[derive(Clone, Copy, Debug, PartialEq, Eq, Error)]
pub enum JournalFault {
    /// A call of the Rig failed, and its count of journal failures rose. The
    /// journal has to be loaded again.
    #[error("journal failed")]
    File,
    /// This whole line is not a line of the format, or is not allowed in its place;
    /// it is the first such line.
    #[error("bad journal line {0}")]
    Bad(u64),
    /// The header names another device.
    #[error("journal of another device")]
    OtherDevice,
    /// The header names another board: one with another unique id.
    #[error("journal of another board")]
    OtherBoard,
    /// There was no memory.
    #[error("out of memory")]
    Memory,
}

impl From<AllocError> for JournalFault {
    ghost from_gives = { λ _ e. e ≡ Memory };

    fn from(_: AllocError) -> Self {
        JournalFault::Memory
    }
}
