// What is added to a file, in pieces that a crash of the PC leaves as a beginning of its lines.
ghost use Rattle.std.specs.Prelude.{◌≡◌, ◌≤◌, ◌<◌, length, take, OnOk};
ghost use Rattle.std.specs.Io.KnownBytes.{Appends};
ghost use Rattle.stm_disk.specs.Sectors.{LinesEndWhole, StopsAtLineEnd};
ghost use Rattle.stm_disk.specs.Lines.{IsSynced, AddsHonestly};

use crate::GrowingFile;
use std::io;

/// How many bytes of a disk are written whole or not at all, at least.
pub const SECTOR: u64 = 512;

/// What ends a line.
pub const LF: u8 = b'\n';

/// Adds bytes at the end of a file, which is at this place, and answers once they are on the disk.
/// Whatever a crash leaves of them, no line is there whole unless all in front of it is.
pub fn add_lines<F: GrowingFile>(file: &mut F, at: u64, bytes: &[u8]) -> io::Result<()>
    ensures known { OnOk result
        (Appends (F.view file.old).known (F.view file.new).known bytes.now) }
    ensures honest { (F.view file.old).is_honest → IsSynced at (F.view file.old)
        → AddsHonestly bytes.now result (F.view file.old) (F.view file.new) }
{
    let mut done = 0;
    while done < bytes.len() {
        let place = at.saturating_add(done as u64);
        let rest = &bytes[done..];
        let count = piece(place, rest);
        add_piece(file, place, &rest[..count])?;
        done += count;
    }
    Ok(())
}

/// Adds a piece at the end of a file, which is at this place, and answers once it is on the disk.
fn add_piece<F: GrowingFile>(file: &mut F, at: u64, piece: &[u8]) -> io::Result<()>
    requires { LinesEndWhole at piece.now }
    ensures known { OnOk result
        (Appends (F.view file.old).known (F.view file.new).known piece.now) }
    ensures honest { (F.view file.old).is_honest → IsSynced at (F.view file.old)
        → AddsHonestly piece.now result (F.view file.old) (F.view file.new) }
{
    let _ = at;
    file.append(piece)?;
    file.sync()
}

/// How many of these bytes, which are to stand in a file from this place on, can be added at once:
/// all, or those before the first LF that stands in another sector than the first of them.
fn piece(at: u64, bytes: &[u8]) -> usize
    ensures within { result ≤ length bytes.now }
    ensures some { 0 < length bytes.now → 0 < result }
    ensures whole { LinesEndWhole at (take result bytes.now) }
    ensures most { StopsAtLineEnd bytes.now result }
{
    let room = (SECTOR - at % SECTOR) as usize;
    if bytes.len() <= room {
        return bytes.len();
    }
    for i in room..bytes.len() {
        if bytes[i] == LF {
            return i;
        }
    }
    bytes.len()
}
