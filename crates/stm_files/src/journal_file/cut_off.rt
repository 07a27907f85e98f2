// The end of a journal that is cut off, once what stood there is in a file of its own.

use crate::journal_file::JournalFile;
use crate::journal_file::ending::moved;
use crate::locks::Locks;
use crate::rescue::{Rescued, rescue};
use std::fs::OpenFile;
use std::{fs, io};

impl<'a, R: Locks + AllocGlobal> JournalFile<'a, R> {
    /// Cuts the file, which has these bytes, to so many of them, once the others are in a new file
    /// beside the one of this name, and answers that new one's name. All is on the disk then.
    pub fn cut_off<'n>(
        &mut self,
        name: &'n str,
        bytes: &[u8],
        at: usize,
    ) -> io::Result<Rescued<'n>> {
        let rest = match bytes.get(at..) {
            Some(rest) if self.end == bytes.len() as u64 => rest,
            _ => return Err(moved()),
        };
        self.check_unchanged()?;
        let beside = rescue(self.rt, name, true, rest)?;
        if let Err(e) = self.shorten(at as u64) {
            let _ = fs::remove_file(self.rt, format!(in self.rt.alloc(); "{beside}")?.as_str());
            return Err(e);
        }
        Ok(beside)
    }

    /// Cuts the file to this length, also on the disk.
    fn shorten(&mut self, length: u64) -> io::Result<()> {
        let Some(held) = &self.reading else {
            return Err(moved());
        };
        held.file().set_len(length)?;
        self.end = length;
        held.file().sync_all()
    }
}
