// A session's record, heard byte by byte.
use crate::watch::watched::{chip, device, write};
use std::alloc::Global;
use std::test::Fail;
use stm_watch::Watch;
use stm_wire::{RigCall, connect, get_commands};

/// Feeds what was put, hears what came, the byte of one number complemented, and answers the number
/// of the first byte that is refused; the first to come is 1.
fn first_refused(watch: &mut Watch, calls: &[RigCall], complemented: u32) -> Option<u32> {
    let mut number = 0u32;
    for call in calls {
        match *call {
            RigCall::Put(byte) => watch.feed(byte),
            RigCall::Get(Some(byte)) => {
                number = number.saturating_add(1);
                let came = if number == complemented { !byte } else { byte };
                if !watch.hear(came) {
                    return Some(number);
                }
            }
            _ => {}
        }
    }
    None
}

/// The first byte that is refused of a page that is read, erased, written twice and read twice, and
/// whether all that is watched to its end.
fn heard(alloc: Global, complemented: u32) -> Result<(Option<u32>, bool), Fail> {
    let mut rig = device(alloc)?;
    connect(&mut rig)?;
    let commands = get_commands(&mut rig)?;
    let begins = rig.calls().len();
    write(&mut rig)?;
    let codes = Vec::from_slice(alloc, &commands.codes[..usize::from(commands.count)])?;
    let mut watch = Watch::new(alloc, chip(alloc)?, commands.version, codes)?;
    let calls = rig.calls();
    let since = &calls[begins.min(calls.len())..];
    let refused = first_refused(&mut watch, since, complemented);
    Ok((refused, watch.is_watching()))
}

/// Which byte comes complemented, and which is refused. Eight bytes of a flash of which nothing is
/// known come as 4 to 11; 12 acknowledges the erase. The page that was written comes as 23 to 30
/// and as 34 to 41; of its first four bytes, over which was written twice, nothing is known before.
const BYTES: [(u32, Option<u32>); 10] = [
    (0, None),
    (1, Some(1)),
    (4, None),
    (11, None),
    (12, Some(12)),
    (19, Some(19)),
    (23, Some(34)),
    (27, Some(27)),
    (34, Some(34)),
    (41, Some(41)),
];

#[test]
fn each_byte_that_came_was_due(rt: HostRuntime) -> Result<(), Fail> {
    for (complemented, refused) in BYTES {
        assert_eq!(rt;
            heard(rt.alloc(), complemented)?,
            (refused, true),
            "byte {complemented}"
        );
    }
    Ok(())
}
