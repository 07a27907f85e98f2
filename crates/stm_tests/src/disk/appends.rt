// Lines that are added to a file, in pieces.
use crate::disk::failing_file::FileCall::{Append, Sync};
use crate::disk::failing_file::{FailingFile, FileCall};
use std::alloc::Global;
use std::test::Fail;
use stm_disk::add_lines;

/// So many bytes, each x, and then these.
fn line(alloc: Global, count: usize, end: &[u8]) -> Result<Vec<u8>, Fail> {
    let mut bytes = vec![in alloc; b'x'; count]?;
    bytes.extend_from_slice(end)?;
    Ok(bytes)
}

/// Where lines begin, how many x they have, what is behind these, and the calls that add them: an
/// LF that stands in another sector than the first byte is added only once all in front of it is
/// on the disk.
const PIECES: [(u64, usize, &[u8], &[FileCall]); 5] = [
    (0, 0, b"", &[]),
    (0, 3, b"\nx\n", &[Append(6), Sync]),
    (0, 511, b"\nx\n", &[Append(513), Sync, Append(1), Sync]),
    (510, 2, b"\nx\n", &[Append(2), Sync, Append(3), Sync]),
    (511, 600, b"", &[Append(600), Sync]),
];

/// The first of these whose calls are others.
fn first_other(alloc: Global) -> Result<Option<usize>, Fail> {
    for (number, (at, count, end, calls)) in PIECES.iter().enumerate() {
        let mut file = FailingFile::new(alloc, 0);
        let bytes = line(alloc, *count, *end)?;
        add_lines(&mut file, *at, &bytes)?;
        if file.calls() != *calls || file.bytes() != bytes.as_slice() {
            return Ok(Some(number));
        }
    }
    Ok(None)
}

#[test]
fn no_lf_is_on_the_disk_before_its_line(rt: HostRuntime) -> Result<(), Fail> {
    assert_eq!(rt; first_other(rt.alloc())?, None);
    Ok(())
}
