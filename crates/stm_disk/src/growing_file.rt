// A file that grows on a disk.
ghost use Rattle.std.specs.Prelude.{◌≡◌, OnOk};
ghost use Rattle.std.specs.Io.KnownBytes.{Appends};
ghost use Rattle.stm_disk.specs.GrowingFile.{FileState, GrowsHonestly, SyncsHonestly, FollowsFileModel};

use std::io;

/// A file that only grows, on a disk. Contracts see it through its view.
///
/// A file that follows the model, called honest, keeps these rules, and every theorem on crashes
/// has that as its premise. The disk writes sectors of 512 bytes, each whole or not at all, and
/// those that no sync has answered for at any time and in any order; the file's length may be on
/// the disk before its bytes are. What isn't written yet reads as NUL, or as bytes of another file
/// without an LF. What a sync answered for stays, also where bytes are added behind it.
pub trait GrowingFile {
    /// What it is now: whether it follows the model, its bytes, how many are synced, the moment,
    /// what a crash since a moment may have left, and what is known of it anyway.
    ghost view: { Self → FileState };

    /// Adds these bytes at the end. Where it fails, a beginning of them may have been added.
    fn append(&mut self, bytes: &[u8]) -> io::Result<()>
        ensures known { OnOk result
            (Appends (view self.old).known (view self.new).known bytes.now) }
        ensures honest { (view self.old).is_honest
            → GrowsHonestly bytes.now result (view self.old) (view self.new) };

    /// Answers once all bytes are on the disk. After a sync that failed nothing more may be asked
    /// of the file.
    fn sync(&mut self) -> io::Result<()>
        ensures known { OnOk result ((view self.new).known ≡ (view self.old).known) }
        ensures honest { (view self.old).is_honest
            → SyncsHonestly result (view self.old) (view self.new) };

    // What is so of an honest file at each moment.
    ghost model: { (file : Self) → (view file).is_honest → FollowsFileModel (view file) };
}
