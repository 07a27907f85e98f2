// The end of a journal that a crash of the PC may have left, and that no session counts on.
ghost use Rattle.std.specs.Prelude.{◌≡◌, ◌≤◌, ◌==◌, length, position};
ghost use Rattle.stm_disk.specs.UnsyncedEnd.{lines_size, unsynced_end};

use crate::lines::{LF, SECTOR};

/// Where the first LF stands.
fn first_lf(bytes: &[u8]) -> Option<usize>
    ensures { result ≡ position (λ b. b == 10) bytes.now }
{
    bytes.iter().position(|b| *b == LF)
}

/// How many bytes the first so many lines have, with the LF that ends each.
pub fn lines_size(bytes: &[u8], lines: u64) -> usize
    ensures size { result ≡ lines_size lines bytes.now }
    ensures within { result ≤ length bytes.now }
{
    let mut at = 0;
    let mut left = lines;
    while left > 0 {
        match first_lf(&bytes[at..]) {
            Some(lf) => at += lf + 1,
            None => return bytes.len(),
        }
        left -= 1;
    }
    at
}

/// Where the text of a journal is to be cut before its first bad line, which has this number: where
/// something stands in front of it, from there on no more than one append can leave, and a sector
/// begins in that line, which may never have been written. A rotten line within a sector, and one
/// with more behind it, stay.
pub fn unsynced_end(bytes: &[u8], line: u64, longest: u64) -> Option<usize>
    ensures { result ≡ unsynced_end longest line bytes.now }
{
    let at = lines_size(bytes, line.saturating_sub(1));
    let rest = &bytes[at..];
    let into = (SECTOR - at as u64 % SECTOR) % SECTOR;
    if at > 0 && rest.len() as u64 <= longest && into < lines_size(rest, 1) as u64 {
        Some(at)
    } else {
        None
    }
}
