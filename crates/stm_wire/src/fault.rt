// Why a call on a line, or a command over it, was not done.
ghost use Rattle.std.specs.Prelude.{◌≡◌};
ghost use Rattle.stm_wire.specs.declared.fault.WireFault.TheVariants.{Line};

use thiserror::Error;

/// Why a call of a Rig was not done.
#[derive(Clone, Copy, Debug, PartialEq, Eq, Error)]
pub enum RigFault {
    /// The line to the device failed: a byte was not sent, or none could be taken.
    #[error("line failed")]
    Line,
    /// The journal's file failed: bytes were not added, or could not be read.
    #[error("journal failed")]
    File,
    /// The Rig was told to stop before this step.
    #[error("stopped")]
    Stopped,
}

/// Why a command of the bootloader was not done.
#[derive(Clone, Copy, Debug, PartialEq, Eq, Error)]
pub enum WireFault {
    /// A call of the Rig failed, and its count of line failures rose.
    #[error("line failed")]
    Line,
    /// The device refused: a NACK came where an acknowledgement was due.
    #[error("refused by the device")]
    Nack,
    /// No byte came in the time that was given.
    #[error("no answer")]
    Quiet,
    /// Another byte came than the protocol has at this place.
    #[error("unexpected answer")]
    Garbled,
}

impl From<RigFault> for WireFault {
    ghost from_gives = { λ _ e. e ≡ Line };

    fn from(_: RigFault) -> Self {
        WireFault::Line
    }
}
