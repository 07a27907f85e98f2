// What a row is played on: a table of chips, a line to a device, and one to another device aside.
use crate::bytes::{bytes_of, count_of, id_of, parts};
use crate::line::Line;
use crate::stopping::Stop;
use std::alloc::Global;
use std::fs;
use stm_chip::{Table, read_table};
use stm_session::Board;
use stm_sim::MemoryRig;
use stm_wire::{Chip, UniqueId};

/// A table, its name, and the text of its file.
#[derive(Drop)]
struct Tabled {
    name: String,
    text: Vec<u8>,
    table: Table,
}

/// All tables of a file of rows.
#[derive(Drop)]
pub struct Tables {
    alloc: Global,
    all: Vec<Tabled>,
}

/// The unique id of these words, and how many KiB there are.
fn told(alloc: Global, words: &[&str]) -> Result<(UniqueId, Option<u32>), Stop> {
    let [unique, rest @ ..] = words else {
        return Ok((UniqueId::none(), None));
    };
    let unique = UniqueId::of(&bytes_of(alloc, &[*unique])?).ok_or(Stop::Words)?;
    match rest {
        [] => Ok((unique, None)),
        [kib, ..] => Ok((unique, Some(count_of(kib)?))),
    }
}

/// The chip of a board that told this unique id, and so many KiB.
fn of_board(chip: Chip, unique: UniqueId, kib: Option<u32>) -> Chip {
    match kib {
        Some(kib) => chip.cut(kib).of_board(unique),
        None => chip.of_board(unique),
    }
}

/// The table of a text, or that of a board of one of its chips.
fn table_of(alloc: Global, text: &[u8], words: &[&str]) -> Result<Table, Stop> {
    let table = read_table(alloc, text)?;
    let [id, board @ ..] = words else {
        return Ok(table);
    };
    let (unique, kib) = told(alloc, board)?;
    let chip = copy_of(&table, id)?;
    Ok(table.with_chip(of_board(chip, unique, kib)))
}

fn copy_of(table: &Table, id: &str) -> Result<Chip, Stop> {
    let chip = table.find(id_of(id)?).ok_or(Stop::Words)?;
    Ok(chip.clone()?)
}

impl Tables {
    pub fn new(alloc: Global) -> Tables {
        Tables {
            alloc,
            all: Vec::new(alloc),
        }
    }

    /// Reads `NAME FILE [ID UNIQUE [KIB]]`: a file's table, or that of a board of one of its chips.
    pub fn read(&mut self, rt: &HostRuntime, words: &[&str]) -> Result<(), Stop> {
        let [name, file, rest @ ..] = words else {
            return Err(Stop::Words);
        };
        let text = fs::read(rt, *file)?;
        let table = table_of(self.alloc, &text, rest)?;
        let name = String::from_str(self.alloc, name)?;
        self.all.push(Tabled { name, text, table })?;
        Ok(())
    }

    /// The table in this place as a board makes it that told this of one of its chips.
    pub fn own(&self, place: usize, id: &str, board: Board) -> Result<Table, Stop> {
        let tabled = self.all.get(place).ok_or(Stop::Words)?;
        let chip = board.chip_of(copy_of(&tabled.table, id)?);
        Ok(read_table(self.alloc, &tabled.text)?.with_chip(chip))
    }

    /// Where the table of this name stands.
    pub fn place(&self, name: &str) -> Result<usize, Stop> {
        for (place, tabled) in self.all.iter().enumerate() {
            if tabled.name.as_str() == name {
                return Ok(place);
            }
        }
        Err(Stop::Words)
    }

    pub fn at(&self, place: usize) -> Result<&Table, Stop> {
        match self.all.get(place) {
            Some(tabled) => Ok(&tabled.table),
            None => Err(Stop::Words),
        }
    }
}

/// A fresh device with this chip, this flash and this journal.
fn device(alloc: Global, chip: Chip, flash: Vec<u8>, journal: Vec<u8>) -> Result<Line, Stop> {
    match MemoryRig::new(alloc, chip, flash, journal) {
        Some(memory) => Ok(Line::new(memory, Vec::new(alloc))),
        None => Err(Stop::Words),
    }
}

/// The devices of a row, once there are any.
#[derive(Drop)]
pub struct Stage {
    pub alloc: Global,
    /// Where the table of the sessions stands.
    pub table: usize,
    /// The table as the board makes it, once it was asked for.
    pub own: Option<Table>,
    pub line: Option<Line>,
    aside: Option<Line>,
    /// How many calls there were before the newest session.
    pub before: usize,
    /// The flash that the journal keeps, once it was asked for.
    pub kept: Vec<u8>,
}

impl Stage {
    pub fn new(alloc: Global) -> Stage {
        Stage {
            alloc,
            table: 0,
            own: None,
            line: None,
            aside: None,
            before: 0,
            kept: Vec::new(alloc),
        }
    }

    /// The table of sessions from now on.
    pub fn take_table(&mut self, tables: &Tables, words: &[&str]) -> Result<(), Stop> {
        self.table = tables.place(words.first().ok_or(Stop::Words)?)?;
        self.own = None;
        Ok(())
    }

    /// The line to the device.
    pub fn line(&mut self) -> Result<&mut Line, Stop> {
        self.line.as_mut().ok_or(Stop::Words)
    }

    /// Makes the device of `ID FLASH.. [| JOURNAL..]`.
    pub fn make(&mut self, tables: &Tables, words: &[&str]) -> Result<(), Stop> {
        let [id, rest @ ..] = words else {
            return Err(Stop::Words);
        };
        let (flash, journal) = parts(rest);
        let chip = copy_of(tables.at(self.table)?, id)?;
        let flash = bytes_of(self.alloc, flash)?;
        let journal = bytes_of(self.alloc, journal)?;
        self.line = Some(device(self.alloc, chip, flash, journal)?);
        self.before = 0;
        Ok(())
    }

    /// Puts the device aside, and makes another one, `ID FLASH..`, with a copy of its journal.
    pub fn put_aside(&mut self, tables: &Tables, words: &[&str]) -> Result<(), Stop> {
        let [id, flash @ ..] = words else {
            return Err(Stop::Words);
        };
        let chip = copy_of(tables.at(self.table)?, id)?;
        let flash = bytes_of(self.alloc, flash)?;
        let journal = Vec::from_slice(self.alloc, self.line()?.memory.journal())?;
        let other = device(self.alloc, chip, flash, journal)?;
        self.aside = self.line.replace(other);
        self.before = 0;
        Ok(())
    }

    /// The device aside comes back, and the other one goes.
    pub fn bring_back(&mut self) {
        self.line = self.aside.take();
        self.before = 0;
    }

    /// Whether the flash is the one that the journal keeps.
    pub fn is_kept(&self) -> bool {
        match &self.line {
            Some(line) => line.memory.flash() == self.kept.as_slice(),
            None => false,
        }
    }
}
