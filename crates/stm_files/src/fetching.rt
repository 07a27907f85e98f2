// Bytes from a place of a file.
ghost use Rattle.std.specs.Prelude.{◌≡◌, ◌≤◌, ◌<◌, length, IfOk};
ghost use Rattle.std.specs.Io.KnownBytes.{IsAtEnd};

use std::io;
use std::io::{ErrorKind, Read, Seek, SeekFrom};

/// Reads from a place on. A signal that comes while it is read is no end of it.
pub fn fetch_from<F: Read + Seek>(file: &mut F, at: u64, buf: &mut [u8]) -> io::Result<usize>
    ensures length { length buf.new ≡ length buf.old }
    ensures within { IfOk result (λ n. n ≤ length buf.old) }
    ensures end { 0 < length buf.old → IfOk result (λ n. n ≡ 0 → IsAtEnd (F.remaining file.new)) }
{
    file.seek(SeekFrom::Start(at))?;
    for _ in 0..u64::MAX {
        match file.read(buf) {
            Err(e) if e.kind() == ErrorKind::Interrupted => {}
            answer => return answer,
        }
    }
    Err(io::Error::from(ErrorKind::Interrupted))
}
