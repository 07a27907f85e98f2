// A file of which one call fails.
ghost use Rattle.std.specs.Prelude.{None, []};

use std::alloc::Global;
use std::io;
use stm_disk::{GrowingFile, MemoryFile};

/// A call of a file, of an append with how many bytes were handed in.
#[derive(Clone, Copy, Debug, PartialEq, Eq)]
pub enum FileCall {
    Append(usize),
    Sync,
}

/// A file in memory whose calls are kept, and of which one fails. An append that fails has added
/// all but the last byte.
#[derive(Drop)]
pub struct FailingFile {
    file: MemoryFile,
    calls: Vec<FileCall>,
    fails: usize,
}

impl FailingFile {
    /// An empty file whose call of this number fails, counted from 1; 0: none does.
    pub fn new(alloc: Global, fails: usize) -> FailingFile {
        FailingFile {
            file: MemoryFile::new(alloc),
            calls: Vec::new(alloc),
            fails,
        }
    }

    /// Its bytes.
    pub fn bytes(&self) -> &[u8] {
        self.file.bytes()
    }

    /// All calls so far, in order.
    pub fn calls(&self) -> &[FileCall] {
        &self.calls
    }

    /// Keeps a call, and answers whether it fails.
    fn enter(&mut self, call: FileCall) -> io::Result<bool> {
        self.calls.push(call)?;
        Ok(self.calls.len() == self.fails)
    }
}

impl GrowingFile for FailingFile {
    ghost view = { λ file. record {
      is_honest = ⊥;
      seen = [];
      synced = 0;
      moment = 0;
      left_since = λ t left. Unit {0};
      known = None;
    } };

    fn append(&mut self, bytes: &[u8]) -> io::Result<()> {
        if !self.enter(FileCall::Append(bytes.len()))? {
            return self.file.append(bytes);
        }
        self.file.append(&bytes[..bytes.len().saturating_sub(1)])?;
        Err(io::Error::from(io::ErrorKind::StorageFull))
    }

    fn sync(&mut self) -> io::Result<()> {
        if !self.enter(FileCall::Sync)? {
            return self.file.sync();
        }
        Err(io::Error::from(io::ErrorKind::StorageFull))
    }

    ghost model = { λ file honest. absurd honest };
}
