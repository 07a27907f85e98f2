// A device in memory, with its journal in a file.
use crate::disk::failing_file::FailingFile;
use crate::watch::watched::device;
use std::test::Fail;
use stm_disk::{DiskRig, memory_disk};
use stm_wire::{Patience, Rig, RigFault, WireFault, connect, get_id};

/// The device's id, between two appends, and the first bytes of the journal then.
fn ask<R: Rig>(rig: &mut R) -> Result<(u16, [u8; 12], usize), WireFault> {
    rig.append(b"open 1\n")?;
    connect(rig)?;
    let id = get_id(rig)?;
    rig.append(b"end 1\n")?;
    let mut bytes = [0; 12];
    let count = rig.fetch(2, &mut bytes)?;
    Ok((id, bytes, count))
}

#[test]
fn journal_and_file_have_the_same_bytes(rt: HostRuntime) -> Result<(), Fail> {
    let mut rig = memory_disk(rt.alloc(), device(rt.alloc())?);
    assert_eq!(rt; ask(&mut rig)?, (0xA01, *b"en 1\nend 1\n\0", 11));
    let (line, file) = rig.into_parts();
    assert_eq!(rt; line.journal(), b"open 1\nend 1\n".as_slice());
    assert_eq!(rt; file.bytes(), b"open 1\nend 1\n".as_slice());
    Ok(())
}

/// Which call of the file fails, and what is there of "open 1\n" and "end 1\n" then, in the line's
/// own journal and in the file.
const FAILURES: [(usize, &[u8], &[u8]); 4] = [
    (1, b"open 1\n", b"open 1"),
    (2, b"open 1\n", b"open 1\n"),
    (3, b"open 1\nend 1\n", b"open 1\nend 1"),
    (4, b"open 1\nend 1\n", b"open 1\nend 1\n"),
];

/// Whether each call is refused.
fn refuses<R: Rig>(rig: &mut R) -> bool {
    rig.put(0x7F) == Err(RigFault::Line)
        && rig.get(Patience::Brief) == Err(RigFault::Line)
        && rig.append(b"x") == Err(RigFault::File)
        && rig.fetch(0, &mut [0; 8]) == Err(RigFault::File)
}

#[test]
fn nothing_is_done_once_an_append_has_failed(rt: HostRuntime) -> Result<(), Fail> {
    for (fails, journal, bytes) in FAILURES {
        let file = FailingFile::new(rt.alloc(), fails);
        let mut rig = DiskRig::new(device(rt.alloc())?, file, 0);
        let is_broken_off = ask(&mut rig).is_err();
        let is_refused = refuses(&mut rig);
        let (line, file) = rig.into_parts();
        assert_eq!(rt;
            (is_broken_off, is_refused, line.journal(), file.bytes()),
            (true, true, journal, bytes),
            "call {fails}"
        );
    }
    Ok(())
}
