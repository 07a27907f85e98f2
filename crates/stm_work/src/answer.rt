// What came of the words, and how it is told.
ghost use Rattle.std.specs.Io.KnownBytes.{Appends};
ghost use Rattle.std.specs.Prelude.{◌≡◌, ◌++◌, IfOk, OnOk, Some};
ghost use Rattle.stm_work.specs.Answer.{IsBeside, IsToldBeside};
ghost use Rattle.stm_work.specs.DeviceText.{board_text, info_text, table_text, told_text};
ghost use Rattle.stm_work.specs.Printing.{board_text_of, erased_text, kept_text, left_text};
ghost use Rattle.stm_work.specs.Printing.{sum_text, answer_text, tried_text, tried_text_of};
ghost use Rattle.stm_work.specs.Printing.{again_text, behind_text, undone_head, undone_text};
ghost use Rattle.stm_work.specs.Printing.{of_them_text, partly_text, seen_text, verified_head};
ghost use Rattle.stm_work.specs.Printing.{verified_text, written_text};
ghost use Rattle.stm_work.specs.TriedBoards.{table_texts};

use crate::chip_tables::ChipTables;
use crate::device_text::{print_beside, print_board, print_info, print_told};
use crate::failure::Failure;
use std::alloc::Global;
use std::io;
use std::io::Write;
use stm_chip::TableFault;
use stm_files::Escaped;
use stm_session::{Board, Info, Told};
use stm_words::TableNames;

/// What came of the words.
#[derive(Drop)]
pub enum Answer {
    /// Nothing that is told.
    Nothing,
    /// What the device is, and how many real boards with its chip were tried, where the chip table
    /// says so.
    Told {
        info: Info,
        tried: Option<usize>,
    },
    /// What the device says itself, and the chip table that was read, by its name as it is printed.
    Identified {
        told: Told,
        table: Option<String>,
    },
    /// Bytes of the flash.
    Bytes(Vec<u8>),
    /// How many bytes were read into a file, and their CRC.
    Filed {
        bytes: usize,
        crc: u32,
    },
    /// The CRC of bytes of the flash.
    Sum(u32),
    /// The number of a write's segment, how many pages it changed, how many bytes the image has, and
    /// their CRC; how many of them were read again, where it was verified.
    Written {
        segment: u32,
        pages: u32,
        bytes: usize,
        crc: u32,
        again: Option<usize>,
    },
    /// Of how many bytes the flash has the image's, and their CRC.
    Verified {
        bytes: usize,
        crc: u32,
    },
    /// The number of an erase's segment, and how many pages it changed.
    Erased {
        segment: u32,
        pages: u32,
    },
    /// How many segments were undone, and how many bytes were read again, where they were.
    Undone {
        count: u32,
        bytes: Option<u64>,
    },
    /// The same, which of them had changed nothing, by their numbers, and how many can still be
    /// undone.
    UndoneBeside {
        count: u32,
        bytes: Option<u64>,
        unchanged: Vec<u32>,
        left: u32,
    },
    /// What a journal says, in lines, and its segments as a list of JSON, where it is told.
    Logged {
        text: Vec<u8>,
        segments: Vec<u8>,
    },
    /// How many segments stay, and how many can still be undone, where some were left.
    Kept {
        count: u32,
        left: Option<u32>,
    },
}

impl Answer {
    /// What the device is, with what the chip tables say of boards that were tried; what it says
    /// itself, with the names of the tables; any other answer as it is.
    pub fn beside<'a>(
        self,
        alloc: Global,
        names: TableNames,
        tables: &ChipTables<'a>,
    ) -> Result<Answer, Failure<'a>>
        ensures { IfOk result (IsBeside (table_texts tables.now) self) }
    {
        match self {
            Answer::Told { info, .. } => Ok(told_beside(alloc, info, tables)?),
            Answer::Identified { told, .. } => Ok(Answer::Identified {
                told,
                table: Some(format!(in alloc; "{}", Escaped(names))?),
            }),
            answer => Ok(answer),
        }
    }

    /// Prints which board the device is, where it is told what it is.
    pub fn print_board<O: Write>(&self, board: &Board, out: &mut O) -> io::Result<()>
        ensures { OnOk result (Appends (O.contents out.old) (O.contents out.new)
            (board_text_of self.now board.now)) }
    {
        match self {
            Answer::Told { info, .. } => print_board(board, Some(info.size), out),
            Answer::Identified { .. } => print_board(board, None, out),
            _ => Ok(()),
        }
    }

    /// Prints how many boards were tried, where it is told what the device is.
    pub fn print_tried<O: Write>(&self, out: &mut O) -> io::Result<()>
        ensures { OnOk result (Appends (O.contents out.old) (O.contents out.new)
            (tried_text_of self.now)) }
    {
        match self {
            Answer::Told {
                tried: Some(tried),
                ..
            } => print_tried_boards(*tried, out),
            _ => Ok(()),
        }
    }

    /// Prints what is told on standard output.
    pub fn print<O: Write>(&self, out: &mut O) -> io::Result<()>
        ensures { OnOk result (Appends (O.contents out.old) (O.contents out.new)
            (answer_text self.now)) }
    {
        match self {
            Answer::Told { info, .. } => print_info(info, out),
            Answer::Identified {
                told,
                table: Some(table),
            } => print_beside(told, table.as_str(), out),
            Answer::Identified { told, .. } => print_told(told, out),
            Answer::Written {
                segment,
                pages,
                bytes,
                again: Some(again),
                ..
            } => print_written_and_verified(*segment, *pages, *bytes, *again, out),
            Answer::Written { segment, pages, .. } => print_written(*segment, *pages, out),
            Answer::Sum(crc) => print_sum(*crc, out),
            Answer::Verified { bytes, .. } => print_verified(*bytes, out),
            Answer::Erased { segment, pages } => print_erased(*segment, *pages, out),
            Answer::Undone { count, bytes } | Answer::UndoneBeside { count, bytes, .. } => {
                print_undone(*count, *bytes, out)
            }
            Answer::Kept {
                count,
                left: Some(left),
            } => print_kept_but(*count, *left, out),
            Answer::Kept { count, .. } => print_kept(*count, out),
            Answer::Logged { text: bytes, .. } | Answer::Bytes(bytes) => {
                out.write_all(bytes.as_slice())
            }
            Answer::Nothing | Answer::Filed { .. } => Ok(()),
        }
    }
}

/// What a device is, and how many real boards with its chip were tried, where that is told.
fn told_beside(alloc: Global, info: Info, tables: &ChipTables<'_>) -> Result<Answer, TableFault>
    ensures { IfOk result (IsToldBeside (table_texts tables.now) info) }
{
    let tried = tables.tried(alloc, info.id)?;
    Ok(Answer::Told { info, tried })
}

/// Prints the line of the boards that were tried.
fn print_tried_boards<O: Write>(tried: usize, out: &mut O) -> io::Result<()>
    ensures { OnOk result (Appends (O.contents out.old) (O.contents out.new)
        (tried_text tried)) }
{
    match tried {
        0 => writeln!(out, "tried on no board yet"),
        1 => writeln!(out, "tried on 1 board"),
        _ => writeln!(out, "tried on {tried} boards"),
    }
}

/// Prints the line of a write.
fn print_written<O: Write>(segment: u32, pages: u32, out: &mut O) -> io::Result<()>
    ensures { OnOk result (Appends (O.contents out.old) (O.contents out.new)
        (written_text segment pages)) }
{
    writeln!(out, "segment {segment}: {pages} pages written")
}

/// Prints the line of a CRC.
#[tactic(auto, using(crate::proofs::UpperHex::hex_8))]
fn print_sum<O: Write>(crc: u32, out: &mut O) -> io::Result<()>
    ensures { OnOk result (Appends (O.contents out.old) (O.contents out.new)
        (sum_text crc)) }
{
    writeln!(out, "crc {crc:08X}")
}

/// Prints the line of a verify.
fn print_verified<O: Write>(bytes: usize, out: &mut O) -> io::Result<()>
    ensures { OnOk result (Appends (O.contents out.old) (O.contents out.new)
        (verified_text bytes)) }
{
    writeln!(out, "verified {bytes} bytes")
}

/// Prints the beginning of that line.
fn print_verified_head<O: Write>(bytes: usize, out: &mut O) -> io::Result<()>
    ensures { OnOk result (Appends (O.contents out.old) (O.contents out.new)
        (verified_head bytes)) }
{
    write!(out, "verified {bytes} bytes")
}

/// Prints the line of a verify behind a write, which read so many of the bytes again.
#[tactic(auto, using(crate::proofs::TextParts::ends))]
fn print_seen<O: Write>(bytes: usize, again: usize, out: &mut O) -> io::Result<()>
    ensures { OnOk result (Appends (O.contents out.old) (O.contents out.new)
        (seen_text bytes again)) }
{
    if again == bytes {
        return print_verified(bytes, out);
    }
    print_verified_head(bytes, out)?;
    print_partly(again as u64, out)
}

/// Prints the end of that line, where it didn't read all of them again.
fn print_partly<O: Write>(again: u64, out: &mut O) -> io::Result<()>
    ensures { OnOk result (Appends (O.contents out.old) (O.contents out.new)
        (partly_text again)) }
{
    print_behind(again, out)?;
    print_of_them(out)
}

/// Prints what that was.
fn print_of_them<O: Write>(out: &mut O) -> io::Result<()>
    ensures { OnOk result (Appends (O.contents out.old) (O.contents out.new) of_them_text) }
{
    writeln!(out, " of them again")
}

/// Prints the lines of a write and of a verify.
fn print_written_and_verified<O: Write>(
    segment: u32,
    pages: u32,
    bytes: usize,
    again: usize,
    out: &mut O,
) -> io::Result<()>
    ensures { OnOk result (Appends (O.contents out.old) (O.contents out.new)
        (written_text segment pages ++ seen_text bytes again)) }
{
    print_written(segment, pages, out)?;
    print_seen(bytes, again, out)
}

/// Prints the line of an erase.
fn print_erased<O: Write>(segment: u32, pages: u32, out: &mut O) -> io::Result<()>
    ensures { OnOk result (Appends (O.contents out.old) (O.contents out.new)
        (erased_text segment pages)) }
{
    writeln!(out, "segment {segment}: {pages} pages erased")
}

/// Prints the line of an undo, which may have been verified.
#[tactic(auto, using(crate::proofs::TextParts::ends))]
fn print_undone<O: Write>(count: u32, bytes: Option<u64>, out: &mut O) -> io::Result<()>
    ensures { OnOk result (Appends (O.contents out.old) (O.contents out.new)
        (undone_text count bytes)) }
{
    print_undone_head(count, out)?;
    match bytes {
        Some(bytes) => print_again(bytes, out),
        None => writeln!(out),
    }
}

/// Prints the beginning of that line.
fn print_undone_head<O: Write>(count: u32, out: &mut O) -> io::Result<()>
    ensures { OnOk result (Appends (O.contents out.old) (O.contents out.new)
        (undone_head count)) }
{
    write!(out, "undone {count}")
}

/// Prints the end of that line.
fn print_again<O: Write>(bytes: u64, out: &mut O) -> io::Result<()>
    ensures { OnOk result (Appends (O.contents out.old) (O.contents out.new)
        (behind_text bytes ++ again_text)) }
{
    print_behind(bytes, out)?;
    print_again_words(out)
}

/// Prints how many bytes were read again, behind that.
fn print_behind<O: Write>(bytes: u64, out: &mut O) -> io::Result<()>
    ensures { OnOk result (Appends (O.contents out.old) (O.contents out.new)
        (behind_text bytes)) }
{
    write!(out, ", {bytes}")
}

/// Prints what that was.
fn print_again_words<O: Write>(out: &mut O) -> io::Result<()>
    ensures { OnOk result (Appends (O.contents out.old) (O.contents out.new) again_text) }
{
    writeln!(out, " bytes verified")
}

/// Prints the line of what stays.
pub fn print_kept<O: Write>(count: u32, out: &mut O) -> io::Result<()>
    ensures { OnOk result (Appends (O.contents out.old) (O.contents out.new)
        (kept_text count)) }
{
    writeln!(out, "kept {count}")
}

/// Prints the same, and how many can still be undone.
fn print_kept_but<O: Write>(count: u32, left: u32, out: &mut O) -> io::Result<()>
    ensures { OnOk result (Appends (O.contents out.old) (O.contents out.new)
        (kept_text count ++ left_text left)) }
{
    print_kept(count, out)?;
    print_left(left, out)
}

/// Prints the line of what can still be undone.
fn print_left<O: Write>(left: u32, out: &mut O) -> io::Result<()>
    ensures { OnOk result (Appends (O.contents out.old) (O.contents out.new) (left_text left)) }
{
    writeln!(out, "{left} can be undone")
}
