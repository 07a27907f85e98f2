// Why a session was refused, or broken off.
ghost use Rattle.std.specs.Prelude.{◌≡◌};
ghost use Rattle.stm_session.specs.declared.fault.Fault.TheVariants.{Memory};
ghost use Rattle.stm_session.specs.Fault.{fault_of, fault_of_journal};

use std::alloc::{AllocError, AllocFailed};
use stm_journal::JournalFault;
use stm_wire::WireFault;
use thiserror::Error;

/// Why a session was refused, or broken off.
#[derive(Clone, Copy, Debug, PartialEq, Eq, Error)]
pub enum Fault {
    /// A call on the line failed, and the Rig's count of such failures rose.
    #[error("line failed")]
    Line,
    /// A call on the journal failed, and the Rig's count of such failures rose.
    #[error("journal failed")]
    Journal,
    /// There was no memory for what the session keeps.
    #[error("out of memory")]
    Memory,
    /// The newest segment of the journal hasn't ended: it must be undone first.
    #[error("unfinished command, undo first")]
    Unfinished,
    /// The table has no chip with this product id.
    #[error("unknown chip {0:04X}")]
    UnknownChip(u16),
    /// A command names a place outside the chip's flash.
    #[error("address outside the flash")]
    OutOfFlash,
    /// The device doesn't list the command that erases pages of its chip.
    #[error("no erase command")]
    NoErase,
    /// The journal is open, and what was asked can't be undone.
    #[error("journal is open, refused")]
    InSession,
    /// This is the least address where the flash hasn't the image's byte.
    #[error("differs at {0:08X}")]
    Differs(u32),
    /// This page was given bytes that a segment keeps, and on being read again it told others.
    #[error("page {0} does not hold what was written")]
    NotHeld(u16),
    /// The device refused, stayed quiet, or answered what the protocol doesn't have.
    #[error("device does not follow the protocol")]
    Device,
    /// This line of the journal isn't allowed in its place, or keeps a page that the chip hasn't.
    #[error("bad journal line {0}")]
    BadJournal(u64),
    /// The journal's header names another device.
    #[error("journal belongs to another device")]
    OtherDevice,
    /// The journal's header names another board than the device told: one with another unique id.
    /// The header is compared as the journal is loaded, and where a device is asked which it is.
    #[error("journal is of another board")]
    OtherBoard,
    /// The device told its unique id before the session, and on being asked once more, before the
    /// first command or page or behind a segment's last frame, it tells another one or refuses.
    #[error("another board answers than at first")]
    BoardChanged,
    /// The journal has no room for so many segments more.
    #[error("journal is full")]
    Full,
}

impl From<AllocError> for Fault {
    ghost from_gives = { λ _ fault. fault ≡ Memory };

    fn from(_: AllocError) -> Self {
        Fault::Memory
    }
}

impl<T: Drop> From<AllocFailed<T>> for Fault {
    ghost from_gives = { λ _ fault. fault ≡ Memory };

    fn from(_failed: AllocFailed<T>) -> Self {
        Fault::Memory
    }
}

impl From<WireFault> for Fault {
    ghost from_gives = { λ wire fault. fault ≡ fault_of wire };

    fn from(fault: WireFault) -> Self {
        match fault {
            WireFault::Line => Fault::Line,
            WireFault::Nack | WireFault::Quiet | WireFault::Garbled => Fault::Device,
        }
    }
}

impl From<JournalFault> for Fault {
    ghost from_gives = { λ journal fault. fault ≡ fault_of_journal journal };

    fn from(fault: JournalFault) -> Self {
        match fault {
            JournalFault::File => Fault::Journal,
            JournalFault::Bad(line) => Fault::BadJournal(line),
            JournalFault::OtherDevice => Fault::OtherDevice,
            JournalFault::OtherBoard => Fault::OtherBoard,
            JournalFault::Memory => Fault::Memory,
        }
    }
}
