// The options that every use of a device has.
ghost use Rattle.std.specs.Prelude.{◌≡◌, IfOk, IsSome, false, true};
ghost use Rattle.clap.specs.Words.{found_of};
ghost use Rattle.stm_words.specs.Request.{AreOptions, is_simulator};

use crate::board_digits::board_digits;
use crate::device::Device;
use crate::environment::Environment;
use crate::given::{flag, is_word, number_to, spare_number, spare_number_to, word};
use crate::journal_place::JournalPlace;
use crate::progress::Progress;
use crate::table_names::TableNames;
use crate::usage_fault::UsageFault;
use clap::ArgMatches;

/// The options that every use of a device has.
#[derive(Clone, Copy)]
pub struct Options<'a> {
    /// The files of the chip tables.
    pub table: TableNames<'a>,
    pub device: Device<'a>,
    /// The file of the journal, or the folder that has it.
    pub journal: &'a str,
    /// Whether it is a folder, in which the journal has the name of the device's board.
    pub in_folder: bool,
    /// How long a reply may take, in milliseconds: 1 to 60,000.
    pub wait: u32,
    /// How many bits a second the line has, where that is known: 1 to 4,000,000.
    pub baud: Option<u32>,
    /// After how many seconds without an answer the line is given up, where that is said; 0: never.
    pub give_up: Option<u32>,
    /// The unique id of the board that is wanted, or its last digits: 1 to 64 hexadecimal digits.
    pub board: Option<&'a str>,
    /// Whether the device isn't asked which board it is. No board is wanted then.
    pub without_board: bool,
    /// Whether the device was reset since the last session.
    pub is_fresh: bool,
    /// Whether no other program has the files, so that they need no lock where there is none.
    pub without_lock: bool,
    /// Whether files are used also where others have them, or may write them.
    pub trusts_others: bool,
    /// Whether each reply has to be one that a device of the stated model could give.
    pub watches: bool,
    /// Whether the end of the journal is cut off first that a crash of the PC left.
    pub recovers: bool,
    /// What is shown while the session runs.
    pub progress: Progress,
    /// After how many steps a simulator is stopped.
    pub stop: Option<u32>,
}

impl<'a> Options<'a> {
    /// The options that the words of a subcommand give. The environment says that the device is
    /// fresh, that it isn't asked which board it is, and that the files need no lock, where the
    /// words don't, and name no board.
    pub fn parse(
        environment: Environment<'a>,
        given: &ArgMatches<'a>,
    ) -> Result<Options<'a>, UsageFault<'a>>
        ensures { IfOk result (AreOptions environment.entry (found_of given.now)) }
    {
        let table = TableNames::parse(environment, given)?;
        let device = word(given, "device")?;
        let Some(device) = Device::parse(device) else {
            return Err(UsageFault::BadDevice(device));
        };
        let place = JournalPlace::parse(given)?;
        if place.name.is_empty() && !place.is_folder {
            return Err(UsageFault::NoJournal);
        }
        let wait = number_to(given, "wait", 60_000)?;
        let baud = spare_number_to(given, "baud", 4_000_000)?;
        let give_up = spare_number(given, "give-up")?;
        let board = board_digits(given)?;
        let names_board = is_word(given, "board") || is_word(given, "journals");
        let without_board = flag(given, "no-board") || environment.without_board && !names_board;
        if board.is_some() && without_board {
            return Err(UsageFault::BoardUnasked);
        }
        if place.is_folder && without_board {
            return Err(UsageFault::FolderUnasked);
        }
        let recovers = flag(given, "recover");
        if place.is_folder && recovers {
            return Err(UsageFault::RecoversOne);
        }
        Ok(Options {
            table,
            device,
            journal: place.name,
            in_folder: place.is_folder,
            wait,
            baud,
            give_up,
            board,
            without_board,
            is_fresh: flag(given, "fresh") || environment.is_fresh,
            without_lock: flag(given, "no-lock") || environment.without_lock,
            trusts_others: flag(given, "trust-journal"),
            watches: flag(given, "watch"),
            recovers,
            progress: Progress::of(flag(given, "progress"), flag(given, "quiet")),
            stop: spare_number(given, "stop")?,
        })
    }

    /// Whether a stop is asked for, of a device that is no simulator in the process.
    pub fn has_vain_stop(&self) -> bool
        ensures { result ≡ false → IsSome self.now.stop → is_simulator self.now.device ≡ true }
    {
        self.stop.is_some() && matches!(self.device, Device::Socket(_))
    }
}
