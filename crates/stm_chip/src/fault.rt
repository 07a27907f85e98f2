// Why a table is refused, and why pages cannot be planned.
ghost use Rattle.std.specs.Prelude.{◌≡◌};
ghost use Rattle.stm_chip.specs.declared.fault.TableFault.TheVariants.{Memory};
ghost use Rattle.stm_chip.specs.declared.fault.PlanFault.TheVariants.{Memory as PlanMemory};

use std::alloc::{AllocError, AllocFailed};
use thiserror::Error;

/// Why the text of a chip table is refused. Entries are counted from 1; the
/// first faulty one decides.
#[derive(Clone, Copy, Debug, PartialEq, Eq, Error)]
pub enum TableFault {
    /// The text is no TOML.
    #[error("table: syntax")]
    Syntax,
    /// An entry lacks a key, or has one of another kind; 0: there is no array of
    /// tables at the key `chip`.
    #[error("table: chip {0}: missing")]
    Missing(u64),
    /// An entry breaks a limit of chips.
    #[error("table: chip {0}: limit")]
    Limit(u64),
    /// An entry has the id of an earlier one.
    #[error("table: chip {0}: twice")]
    TwiceId(u64),
    /// There was too little memory to read the table.
    #[error("out of memory")]
    Memory,
}

impl From<AllocError> for TableFault {
    ghost from_gives = { λ _ e. e ≡ Memory };

    fn from(_: AllocError) -> Self {
        TableFault::Memory
    }
}

impl<T: Drop> From<AllocFailed<T>> for TableFault {
    ghost from_gives = { λ _ e. e ≡ Memory };

    fn from(_: AllocFailed<T>) -> Self {
        TableFault::Memory
    }
}

/// Why pages cannot be planned.
#[derive(Clone, Copy, Debug, PartialEq, Eq, Error)]
pub enum PlanFault {
    /// A place of the image lies outside the chip's flash.
    #[error("address outside the flash")]
    OutOfFlash,
    /// There was too little memory for the plan.
    #[error("out of memory")]
    Memory,
}

impl From<AllocError> for PlanFault {
    ghost from_gives = { λ _ e. e ≡ PlanMemory };

    fn from(_: AllocError) -> Self {
        PlanFault::Memory
    }
}

impl<T: Drop> From<AllocFailed<T>> for PlanFault {
    ghost from_gives = { λ _ e. e ≡ PlanMemory };

    fn from(_: AllocFailed<T>) -> Self {
        PlanFault::Memory
    }
}
