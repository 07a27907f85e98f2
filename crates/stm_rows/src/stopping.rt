// What ends an act before it has its answer: its words, memory, or the fault of a library, which is
// its answer then.
use std::alloc::{AllocError, AllocFailed};
use std::io;
use stm_chip::TableFault;
use stm_image::{HexFault, RawFault};
use stm_journal::JournalFault;
use stm_session::Fault;
use stm_wire::{RigFault, WireFault};

/// Why an act has no answer of its own.
#[derive(Clone, Copy)]
pub enum Stop {
    /// Its words aren't of the grammar, or name what isn't there.
    Words,
    Memory,
    Rig(RigFault),
    Wire(WireFault),
    Hex(HexFault),
    Raw(RawFault),
    Table(TableFault),
    Journal(JournalFault),
    Session(Fault),
}

impl From<AllocError> for Stop {
    fn from(_fault: AllocError) -> Stop {
        Stop::Memory
    }
}

impl<T: Drop> From<AllocFailed<T>> for Stop {
    fn from(_fault: AllocFailed<T>) -> Stop {
        Stop::Memory
    }
}

impl From<io::Error> for Stop {
    fn from(_fault: io::Error) -> Stop {
        Stop::Memory
    }
}

impl From<RigFault> for Stop {
    fn from(fault: RigFault) -> Stop {
        Stop::Rig(fault)
    }
}

impl From<WireFault> for Stop {
    fn from(fault: WireFault) -> Stop {
        Stop::Wire(fault)
    }
}

impl From<HexFault> for Stop {
    fn from(fault: HexFault) -> Stop {
        Stop::Hex(fault)
    }
}

impl From<RawFault> for Stop {
    fn from(fault: RawFault) -> Stop {
        Stop::Raw(fault)
    }
}

impl From<TableFault> for Stop {
    fn from(fault: TableFault) -> Stop {
        Stop::Table(fault)
    }
}

impl From<JournalFault> for Stop {
    fn from(fault: JournalFault) -> Stop {
        Stop::Journal(fault)
    }
}

impl From<Fault> for Stop {
    fn from(fault: Fault) -> Stop {
        Stop::Session(fault)
    }
}

impl Stop {
    /// What is told of it where it ends a row.
    pub fn text(self) -> &'static str {
        match self {
            Stop::Memory => "out of memory",
            _ => "no such words",
        }
    }

    /// Tells it where it is an answer.
    pub fn tell(self, told: &mut String) -> Result<(), AllocError> {
        match self {
            Stop::Words | Stop::Memory => told.push_str(self.text()),
            Stop::Rig(fault) => write!(told, "{fault}"),
            Stop::Wire(fault) => write!(told, "{fault}"),
            Stop::Hex(fault) => write!(told, "{fault}"),
            Stop::Raw(fault) => write!(told, "{fault}"),
            Stop::Table(fault) => write!(told, "{fault}"),
            Stop::Journal(fault) => write!(told, "{fault}"),
            Stop::Session(fault) => write!(told, "{fault}"),
        }
    }
}
