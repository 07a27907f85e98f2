// A file that is added to at its end, as a file on a disk.
ghost use Rattle.stm_files.specs.DiskFile.{told_file};
ghost use Rattle.stm_files.specs.lemmas.DiskFileLaws.{never_honest};

use std::fs::OpenFile;
use std::io;
use std::io::Write;
use stm_disk::GrowingFile;

/// A file of the system's, or of a runtime, which is open to be added to at its end. Nothing here
/// vouches for its disk: what a crash leaves of it follows the model as far as the disk does.
#[derive(Drop)]
pub struct DiskFile<F> {
    pub file: F,
    /// A sync has failed: what was added may be gone from the disk, though reads still give it.
    pub is_unsynced: bool,
}

impl<F: Write + OpenFile> GrowingFile for DiskFile<F> {
    ghost view = { λ disk. told_file (F.contents disk.file) };

    fn append(&mut self, bytes: &[u8]) -> io::Result<()> {
        self.file.write_all(bytes)
    }

    fn sync(&mut self) -> io::Result<()> {
        let synced = self.file.sync_all();
        self.is_unsynced = synced.is_err();
        synced
    }

    ghost model = { λ disk. never_honest (F.contents disk.file) };
}
