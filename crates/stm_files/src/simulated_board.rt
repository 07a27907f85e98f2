// Which board a simulator is: a file beside that of its flash says so, where it is there.
ghost use Rattle.std.specs.Prelude.{◌≡◌};
ghost use Rattle.stm_wire.specs.Chip.{at_places};
ghost use Rattle.stm_wire.specs.Places.{no_places};

use crate::file_fault::FileFault;
use crate::files::{open_if_there, read_up_to};
use crate::replacement::{ALONE, Replacement, remove_leftovers};
use crate::simulator_names::board_file;
use hex::FromHexError;
use std::alloc::{AllocError, Global};
use std::fs::Files;
use std::io;
use stm_wire::{BoardPlaces, Chip, UniqueId};

/// How many bytes the file has at most: more than its two lines have.
const MOST: u64 = 256;

/// What the file says: the unique id of the board, and how many KiB its flash has.
#[derive(Clone, Copy)]
pub struct SimulatedBoard {
    unique: UniqueId,
    size: Option<u32>,
}

impl SimulatedBoard {
    /// One of which nothing is said.
    pub fn new() -> SimulatedBoard {
        SimulatedBoard {
            unique: UniqueId::none(),
            size: None,
        }
    }

    /// The board with this unique id, and so many KiB; what isn't given stays.
    pub fn with(self, unique: Option<UniqueId>, size: Option<u32>) -> SimulatedBoard {
        SimulatedBoard {
            unique: unique.unwrap_or(self.unique),
            size: size.or(self.size),
        }
    }

    /// The chip of this board, with the pages of its size.
    pub fn chip_of(&self, chip: Chip) -> Chip {
        let cut = match self.size {
            Some(kib) => chip.cut(kib),
            None => chip,
        };
        cut.of_board(self.unique)
    }

    /// The text of its file.
    fn text(&self, alloc: Global) -> Result<String, AllocError> {
        let mut text = String::new(alloc);
        if !self.unique.is_none() {
            let digits = hex::encode_upper(alloc, self.unique.as_bytes())?;
            text.push_str("unique ")?;
            text.push_str(digits.as_str())?;
            text.push_str("\n")?;
        }
        if let Some(kib) = self.size {
            let line = format!(in alloc; "size {kib}\n")?;
            text.push_str(line.as_str())?;
        }
        Ok(text)
    }

    /// Writes the file beside the flash of this name, on the disk; of what a program left there that
    /// was killed nothing stays.
    pub fn store<'a, R: Files + AllocGlobal>(
        &self,
        rt: &R,
        file: &'a str,
    ) -> Result<(), FileFault<'a>> {
        let name = board_file(rt.alloc(), file)?;
        let text = self.text(rt.alloc())?;
        remove_leftovers(rt, name.as_str());
        let beside = match Replacement::prepare(rt, name.as_str(), text.as_bytes(), ALONE) {
            Ok(beside) => beside,
            Err(e) => return Err(FileFault::of_file(&e, FileFault::CannotWriteBoard(file))),
        };
        match beside.place(rt) {
            Ok(_) => Ok(()),
            Err(e) => Err(FileFault::of_file(&e, FileFault::CannotWriteBoard(file))),
        }
    }
}

/// The unique id that these digits write, where they are 8 to 32 bytes.
pub fn unique_of(alloc: Global, digits: &[u8]) -> Result<Option<UniqueId>, AllocError> {
    match hex::decode(alloc, digits) {
        Ok(bytes) => Ok(UniqueId::of(bytes.as_slice())),
        Err(FromHexError::OutOfMemory) => Err(AllocError),
        Err(_) => Ok(None),
    }
}

/// The number that these digits write, at most five of them.
fn size_of(digits: &[u8]) -> Option<u32> {
    if digits.is_empty() || digits.len() > 5 {
        return None;
    }
    let mut size: u32 = 0;
    for digit in digits {
        if !digit.is_ascii_digit() {
            return None;
        }
        size = size
            .saturating_mul(10)
            .saturating_add(u32::from(digit.saturating_sub(b'0')));
    }
    Some(size)
}

/// The board with what one more line says: `unique` and digits, or `size` and a number. None where
/// the line has another form.
fn with_line(
    alloc: Global,
    board: SimulatedBoard,
    line: &[u8],
) -> Result<Option<SimulatedBoard>, AllocError> {
    if line.is_empty() {
        return Ok(Some(board));
    }
    if let Some(digits) = line.strip_prefix(b"unique ") {
        return Ok(match unique_of(alloc, digits)? {
            Some(unique) => Some(SimulatedBoard { unique, ..board }),
            None => None,
        });
    }
    match line.strip_prefix(b"size ") {
        Some(digits) => Ok(match size_of(digits) {
            Some(size) => Some(SimulatedBoard {
                size: Some(size),
                ..board
            }),
            None => None,
        }),
        None => Ok(None),
    }
}

/// The board that a text says. None where it has another form, or is too long.
fn board_of(alloc: Global, text: &[u8]) -> Result<Option<SimulatedBoard>, AllocError> {
    if text.len() as u64 > MOST {
        return Ok(None);
    }
    let mut board = SimulatedBoard::new();
    for line in text.split(|byte| *byte == b'\n') {
        match with_line(alloc, board, line)? {
            Some(next) => board = next,
            None => return Ok(None),
        }
    }
    Ok(Some(board))
}

/// The text of the file, up to one byte more than it may have; None where it isn't there.
fn read_board<R: Files + AllocGlobal>(rt: &R, name: &str) -> io::Result<Option<Vec<u8>>> {
    match open_if_there(rt, name)? {
        Some(file) => Ok(Some(read_up_to(rt.alloc(), file, MOST + 1)?)),
        None => Ok(None),
    }
}

/// The chip of a device that tells no board.
fn without_board(chip: Chip) -> Chip
    ensures { result ≡ at_places no_places chip }
{
    let Some(chip) = chip.at_places(BoardPlaces::none()) else {
        unreachable!()
    };
    chip
}

/// What the file beside the flash of this name says; None where it isn't there.
pub fn stored_board<'a, R: Files + AllocGlobal>(
    rt: &R,
    file: &'a str,
) -> Result<Option<SimulatedBoard>, FileFault<'a>> {
    let name = board_file(rt.alloc(), file)?;
    let text = match read_board(rt, name.as_str()) {
        Ok(text) => text,
        Err(e) => return Err(FileFault::of_file(&e, FileFault::CannotReadBoard(file))),
    };
    let Some(text) = text else {
        return Ok(None);
    };
    match board_of(rt.alloc(), text.as_slice())? {
        Some(board) => Ok(Some(board)),
        None => Err(FileFault::BadBoardFile(file)),
    }
}

/// The chip of the simulator whose flash has this name: that of the board which the file beside it
/// says, with the pages of its size; without that file, one that tells no board.
pub fn simulated_chip<'a, R: Files + AllocGlobal>(
    rt: &R,
    file: &'a str,
    chip: Chip,
) -> Result<Chip, FileFault<'a>> {
    match stored_board(rt, file)? {
        Some(board) => Ok(board.chip_of(chip)),
        None => Ok(without_board(chip)),
    }
}
