// What is asked of a device.
ghost use Rattle.std.specs.Prelude.{◌≡◌, IfOk, codes};
ghost use Rattle.clap.specs.Words.{found_of};
ghost use Rattle.stm_words.specs.Request.{IsTask, goes_in_session, is_hex_name, wants_pages};

use crate::extent::Extent;
use crate::given::{flag, number, pages, range, word, word_range};
use crate::image_file::ImageFile;
use crate::range::Range;
use crate::unfit::Unfit;
use crate::usage_fault::UsageFault;
use clap::ArgMatches;
use std::alloc::Global;

/// What is asked of a device.
#[derive(Drop)]
pub enum Task<'a> {
    /// Tells what the device is; raw: what it says itself, whether or not the table has it.
    Info {
        is_raw: bool,
    },
    /// Reads the whole flash or a part of it into a file.
    Read {
        range: Option<Range>,
        out: &'a str,
    },
    /// Reads the whole flash or a part of it into a file of HEX; blank stretches may be left out.
    ReadHex {
        range: Option<Range>,
        out: &'a str,
        skips_blank: bool,
    },
    /// Tells the CRC of the whole flash or of a part of it, which is whole words.
    Sum(Option<Range>),
    /// Writes images as one, and verifies it where that is asked for.
    Write {
        images: Vec<ImageFile<'a>>,
        verifies: bool,
    },
    /// Compares the flash with images.
    Verify(Vec<ImageFile<'a>>),
    /// Erases pages: all, or these.
    Erase {
        is_all: bool,
        pages: Vec<u16>,
    },
    /// Undoes writes and erases as far back as is said, and reads what it gave back again where that
    /// is asked for.
    Undo {
        extent: Extent,
        verifies: bool,
    },
    /// Lets the device run what stands at this address.
    Go(u32),
    /// Changes the protection of this name; where that is sure, nobody is asked before. The write
    /// protection may be taken off in a session that was stopped.
    Protect {
        kind: &'a str,
        is_sure: bool,
        in_session: bool,
    },
}

impl<'a> Task<'a> {
    /// What the subcommand of this name asks of a device. A name that is none of a
    /// device's subcommands is refused.
    pub fn parse(alloc: Global, name: &str, given: &ArgMatches<'a>) -> Result<Task<'a>, Unfit<'a>>
        ensures { IfOk result (IsTask name.now (found_of given.now)) }
    {
        match name {
            "info" => Ok(Task::Info {
                is_raw: flag(given, "raw"),
            }),
            "read" => Task::parse_read(given),
            "crc" => Ok(Task::Sum(word_range(given)?)),
            "write" => Ok(Task::Write {
                images: ImageFile::parse_all(alloc, given)?,
                verifies: flag(given, "check"),
            }),
            "verify" => Ok(Task::Verify(ImageFile::parse_all(alloc, given)?)),
            "erase" => Ok(Task::Erase {
                is_all: flag(given, "all"),
                pages: pages(alloc, given, "PAGE")?,
            }),
            "undo" => Ok(Task::Undo {
                extent: Extent::parse(given)?,
                verifies: flag(given, "check"),
            }),
            "go" => Ok(Task::Go(number(given, "ADDRESS")?)),
            "protect" => Ok(Task::parse_protect(given)?),
            _ => Err(Unfit::Usage(UsageFault::UnknownWords)),
        }
    }

    /// What `read` is to read, and how. A file whose name ends in `.hex`, of either case, is one
    /// of HEX.
    fn parse_read(given: &ArgMatches<'a>) -> Result<Task<'a>, Unfit<'a>>
        ensures { IfOk result (IsTask (codes "read") (found_of given.now)) }
    {
        let range = range(given)?;
        let out = word(given, "OUT")?;
        let skips_blank = flag(given, "skip-blank");
        if flag(given, "hex") || is_hex_name(out) {
            return Ok(Task::ReadHex {
                range,
                out,
                skips_blank,
            });
        }
        if skips_blank {
            return Err(Unfit::Usage(UsageFault::BlankNeedsHex));
        }
        Ok(Task::Read { range, out })
    }

    /// Which protection `protect` names, and whether in a session that was stopped: by that word the
    /// write protection is taken off, and no other is changed.
    fn parse_protect(given: &ArgMatches<'a>) -> Result<Task<'a>, UsageFault<'a>>
        ensures { IfOk result (IsTask (codes "protect") (found_of given.now)) }
    {
        let kind = word(given, "KIND")?;
        let in_session = flag(given, "in-session");
        if in_session && kind != "write-unprotect" {
            return Err(UsageFault::InSessionUnprotects);
        }
        Ok(Task::Protect {
            kind,
            is_sure: flag(given, "yes"),
            in_session,
        })
    }

    /// Whether it may be done where a session was stopped.
    pub fn goes_in_session(&self) -> bool
        ensures { result ≡ goes_in_session self.now }
    {
        matches!(
            self,
            Task::Protect {
                in_session: true,
                ..
            }
        )
    }

    /// Whether it is an erase of neither all pages nor some, or of both.
    pub fn wants_pages(&self) -> bool
        ensures { result ≡ wants_pages self.now }
    {
        match self {
            Task::Erase { is_all, pages } => *is_all != pages.is_empty(),
            _ => false,
        }
    }
}

/// Whether a file of this name is one of HEX.
fn is_hex_name(name: &str) -> bool
    ensures { result ≡ is_hex_name name.now }
{
    let bytes = name.as_bytes();
    bytes[bytes.len().saturating_sub(4)..].eq_ignore_ascii_case(b".hex")
}
