// The names of a simulator's files.

use crate::file_fault::FileFault;
use crate::names::is_same_file;
use std::alloc::{AllocError, Global};
use std::fs::Files;

/// The name of the file that tells where a simulator stands.
pub fn line_name(alloc: Global, file: &str) -> Result<String, AllocError> {
    format!(in alloc; "{file}.line")
}

/// The name of the file that says which board a simulator is.
pub fn board_file(alloc: Global, file: &str) -> Result<String, AllocError> {
    format!(in alloc; "{file}.board")
}

/// The names of a simulator's files: of its flash and its line, which are written, and of its
/// board, which only words of `sim` write.
#[derive(Drop)]
pub struct SimulatorNames<'a> {
    flash: &'a str,
    line: String,
    board: String,
}

impl<'a> SimulatorNames<'a> {
    /// Those of the simulator whose flash has this name.
    pub fn of(alloc: Global, flash: &'a str) -> Result<SimulatorNames<'a>, AllocError> {
        let line = line_name(alloc, flash)?;
        let board = board_file(alloc, flash)?;
        Ok(SimulatorNames { flash, line, board })
    }

    /// The name of the file that tells where it stands.
    pub fn line(&self) -> &str {
        self.line.as_str()
    }

    /// The name of the file that says which board it is.
    pub fn board(&self) -> &str {
        self.board.as_str()
    }

    /// Whether a name is that of one of the files.
    pub fn have<R: Files + AllocGlobal>(&self, rt: &R, name: &str) -> bool {
        is_same_file(rt, name, self.flash)
            || is_same_file(rt, name, self.line.as_str())
            || is_same_file(rt, name, self.board.as_str())
    }

    /// Refuses a file that is to be written and is another of them.
    pub fn check<R: Files + AllocGlobal>(&self, rt: &R) -> Result<(), FileFault<'a>> {
        let line = self.line.as_str();
        let board = self.board.as_str();
        if is_same_file(rt, self.flash, board) {
            return Err(FileFault::CannotWrite(self.flash));
        }
        if is_same_file(rt, line, self.flash) || is_same_file(rt, line, board) {
            return Err(FileFault::CannotWriteLine(self.flash));
        }
        Ok(())
    }
}
