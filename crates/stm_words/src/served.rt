// A simulator that is to be served on a socket.
ghost use Rattle.std.specs.Prelude.{IfOk};
ghost use Rattle.clap.specs.Words.{found_of};
ghost use Rattle.stm_words.specs.Request.{NamesServed};

use crate::board_digits::unique_digits;
use crate::device::parse_id;
use crate::environment::Environment;
use crate::given::{flag, number_to, pages, spare_number_to, word};
use crate::mode::parse_mode;
use crate::table_names::TableNames;
use crate::unfit::Unfit;
use crate::usage_fault::UsageFault;
use clap::ArgMatches;
use std::alloc::Global;

/// A simulator that is to be served on a socket.
#[derive(Drop)]
pub struct Served<'a> {
    /// The files of the chip tables.
    pub table: TableNames<'a>,
    /// The number of the chip.
    pub id: u16,
    /// The file that holds the flash.
    pub flash: &'a str,
    /// The unique id that the simulator gets: the hexadecimal digits of 8 to 32 bytes. None: that
    /// which it has.
    pub unique: Option<&'a str>,
    /// How many KiB of flash it gets: 1 to 65,534. None: what it has.
    pub size: Option<u32>,
    /// The numbers of the pages that are write-protected, as the words name them.
    pub protected: Vec<u16>,
    /// Whether Readout Protect takes effect.
    pub readout_protection: bool,
    /// The path of the socket.
    pub socket: &'a str,
    /// The mode of the socket: who may connect.
    pub mode: u32,
    /// How many clients, one after the other: 1 to 1,000,000.
    pub clients: u32,
    /// Whether no other program has the file, so that it needs no lock where there is none.
    pub without_lock: bool,
}

impl<'a> Served<'a> {
    /// The simulator that the words of `sim` name. The environment says that its file needs no lock,
    /// where the words don't.
    pub fn parse(
        alloc: Global,
        environment: Environment<'a>,
        given: &ArgMatches<'a>,
    ) -> Result<Served<'a>, Unfit<'a>>
        ensures { IfOk result (NamesServed environment.entry (found_of given.now)) }
    {
        let table = TableNames::parse(environment, given)?;
        let id = word(given, "id")?;
        let Some(id) = parse_id(id) else {
            return Err(Unfit::Usage(UsageFault::BadNumber(id)));
        };
        let flash = word(given, "flash")?;
        let unique = unique_digits(given)?;
        let size = spare_number_to(given, "size", 65_534)?;
        let protected = pages(alloc, given, "protected")?;
        let socket = word(given, "socket")?;
        let mode = word(given, "mode")?;
        let Some(mode) = parse_mode(mode) else {
            return Err(Unfit::Usage(UsageFault::BadNumber(mode)));
        };
        Ok(Served {
            table,
            id,
            flash,
            unique,
            size,
            protected,
            readout_protection: flag(given, "readout-protection"),
            socket,
            mode,
            clients: number_to(given, "clients", 1_000_000)?,
            without_lock: flag(given, "no-lock") || environment.without_lock,
        })
    }
}
