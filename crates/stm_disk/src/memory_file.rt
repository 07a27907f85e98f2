// A file in memory, of which a crash may leave all that the model allows.
ghost use Rattle.std.specs.Prelude.{◌≡◌, []};
ghost use Rattle.stm_disk.specs.MemoryFile.{IsFileInMemory, file_state};
ghost use Rattle.stm_disk.specs.lemmas.MemoryFileLaws.{is_model};

use crate::GrowingFile;
use std::alloc::Global;
use std::io;

/// The greatest length of a file.
const LONGEST: usize = 0x7FFF_FFFF_FFFF_FFFF;

/// A file in memory, which follows the model. It keeps of each moment how many bytes were synced,
/// and how many there were, so that it can tell what a crash at that moment may have left.
#[derive(Drop)]
pub struct MemoryFile {
    bytes: Vec<u8>,
    synced: usize,
    past: Vec<(usize, usize)>,
}

impl MemoryFile {
    /// An empty file.
    pub fn new(alloc: Global) -> MemoryFile
        ensures empty { result.bytes.items ≡ [] }
        ensures honest { IsFileInMemory result.bytes.items result.synced result.past.items }
    {
        MemoryFile {
            bytes: Vec::new(alloc),
            synced: 0,
            past: Vec::new(alloc),
        }
    }

    /// Its bytes.
    pub fn bytes(&self) -> &[u8]
        ensures { result.now ≡ self.now.bytes.items }
    {
        &self.bytes
    }
}

impl GrowingFile for MemoryFile {
    ghost view = { λ m. file_state m.bytes.items m.synced m.past.items };

    fn append(&mut self, bytes: &[u8]) -> io::Result<()> {
        let size = self.bytes.len();
        if size > LONGEST || bytes.len() > LONGEST - size {
            return Err(io::Error::from(io::ErrorKind::FileTooLarge));
        }
        self.past.push((self.synced, size))?;
        self.bytes.extend_from_slice(bytes)?;
        Ok(())
    }

    fn sync(&mut self) -> io::Result<()> {
        let size = self.bytes.len();
        self.past.push((self.synced, size))?;
        self.synced = size;
        Ok(())
    }

    ghost model = { λ m. is_model m.bytes.items m.synced m.past.items };
}
