// The name that a fault has wherever programs read it. It stays when its text changes.
use crate::failure::Failure;
use stm_session::Fault;

impl Failure<'_> {
    /// Its name: small letters and `_`.
    pub fn name(&self) -> &'static str {
        match self {
            Failure::Session(fault) => name_of(*fault),
            Failure::Table(_) | Failure::StandingTable(..) => "bad_table",
            Failure::Hex(_) | Failure::HexIn(..) => "bad_hex",
            Failure::Raw(_) | Failure::RawIn(..) => "bad_raw",
            Failure::NotRaw(_) | Failure::NotRawIn(..) => "not_raw",
            Failure::OutOfPlace(_) => "out_of_flash",
            Failure::ImagesDiffer(..) => "images_differ",
            Failure::Memory => "out_of_memory",
            Failure::CannotRead(_) | Failure::CannotReadLine(_) | Failure::CannotReadBoard(_) =>
                "cannot_read",
            Failure::CannotWrite(_) | Failure::CannotWriteBoard(_) | Failure::CannotWriteLine(_) =>
                "cannot_write",
            Failure::NoOutput(_) | Failure::IsOpened(_) | Failure::IsJournal(_) => "cannot_write",
            Failure::OutLeads(_) | Failure::ErrLeads(_) | Failure::OtherFileSystem(_) =>
                "cannot_write",
            Failure::JournalInUse(_) => "journal_in_use",
            Failure::NoJournal(_) => "no_journal",
            Failure::NotTrusted(..) => "not_trusted",
            Failure::PageDamaged(..) => "page_damaged",
            Failure::PageChanged(..) => "page_changed",
            Failure::CannotLock(..) => "cannot_lock",
            Failure::JournalFailed(_) | Failure::JournalMoved | Failure::JournalRescued(_) =>
                "journal_failed",
            Failure::SimulatorInUse => "simulator_in_use",
            Failure::BadSimulatorFile(_) | Failure::BadBoardFile(_) => "bad_simulator_file",
            Failure::CannotConnect(_) => "cannot_connect",
            Failure::IsPort(_) => "is_port",
            Failure::OtherBoard => "other_board",
            Failure::NoBoard => "no_board",
            Failure::NoAnswer => "no_answer",
            Failure::Otherwise(_) => "does_otherwise",
            Failure::InJournal(_, fault) => name_of(*fault),
            Failure::UnsyncedEnd(_) | Failure::UnsyncedEndIn(..) => "bad_journal",
            Failure::Misnamed(_) => "misnamed_journal",
            Failure::BegunJournals(_) => "unfinished_journals",
            Failure::NoUnique => "no_unique_id",
            Failure::Usage(_) => "usage",
            Failure::Unconfirmed => "unconfirmed",
            Failure::Stopped => "stopped",
        }
    }
}

/// The name of a session's fault.
fn name_of(fault: Fault) -> &'static str {
    match fault {
        Fault::Line => "line_failed",
        Fault::Journal => "journal_failed",
        Fault::Memory => "out_of_memory",
        Fault::Unfinished => "unfinished",
        Fault::UnknownChip(_) => "unknown_chip",
        Fault::OutOfFlash => "out_of_flash",
        Fault::NoErase => "no_erase_command",
        Fault::InSession => "journal_open",
        Fault::Differs(_) => "differs",
        Fault::NotHeld(_) => "not_held",
        Fault::Device => "no_protocol",
        Fault::BadJournal(_) => "bad_journal",
        Fault::OtherDevice => "other_device",
        Fault::OtherBoard => "journal_of_other_board",
        Fault::BoardChanged => "board_changed",
        Fault::Full => "journal_full",
    }
}
