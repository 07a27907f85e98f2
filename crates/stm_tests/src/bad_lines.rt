// Bad lines of the simulator: one that answers from a list, and one that complements a byte.
use crate::journal::rig_with;
use crate::verdicts::{passes, passes_as};
use std::alloc::Global;
use std::test::Fail;
use stm_sim::{FlipRig, ListRig};
use stm_wire::{Patience, Rig, RigCall, RigFault, WireFault, get_id};

const RECORDED: &[RigCall] = &[
    RigCall::Put(0x05),
    RigCall::Get(Some(0x79)),
    RigCall::Get(None),
    RigCall::Append(2),
    RigCall::Fetch,
    RigCall::Get(Some(0x1F)),
    RigCall::Get(None),
];

/// Two bytes are appended; and what a line gives of its journal then, over four of 07.
fn appended<L: Rig>(line: &mut L) -> Result<(usize, [u8; 4]), RigFault> {
    let mut bytes = [7; 4];
    line.append(&[1, 2])?;
    let count = line.fetch(0, &mut bytes)?;
    Ok((count, bytes))
}

/// Whether a line answers 79, nothing and 1F, and records that.
fn is_listed(line: &mut ListRig) -> bool {
    line.put(0x05) == Ok(())
        && line.get(Patience::Brief) == Ok(Some(0x79))
        && line.get(Patience::Long) == Ok(None)
        && appended(line) == Ok((0, [7; 4]))
        && line.get(Patience::Brief) == Ok(Some(0x1F))
        && line.get(Patience::Brief) == Ok(None)
        && line.calls() == RECORDED
}

#[test]
fn a_list_line_gives_its_answers_in_order(rt: HostRuntime) -> Result<(), Fail> {
    let replies = vec![in rt.alloc(); Some(0x79), None, Some(0x1F)]?;
    passes(is_listed(&mut ListRig::new(rt.alloc(), replies)))
}

/// Whether a device is connected on this line.
fn connects(line: &mut FlipRig) -> bool {
    line.put(0x7F) == Ok(()) && line.get(Patience::Brief) == Ok(Some(0x79))
}

/// Whether the second byte of an id comes complemented, once, and is recorded as it came.
fn is_id_flipped(line: &mut FlipRig) -> bool {
    connects(line)
        && get_id(line) == Ok(0x04ED)
        && get_id(line) == Ok(0x0412)
        && appended(line) == Ok((2, [1, 2, 7, 7]))
        && line.calls().get(7) == Some(&RigCall::Get(Some(0xED)))
}

/// Whether an acknowledgement does.
fn is_garbled(line: &mut FlipRig) -> bool {
    connects(line)
        && get_id(line) == Err(WireFault::Garbled)
        && line.calls().get(4) == Some(&RigCall::Get(Some(0x86)))
}

/// A line to a fresh device, of which this byte that comes is complemented.
fn flipping(alloc: Global, due: u64) -> Result<FlipRig, Fail> {
    Ok(FlipRig::new(alloc, rig_with(alloc, b"")?, due))
}

#[test]
fn a_flipping_line_complements_one_byte(rt: HostRuntime) -> Result<(), Fail> {
    passes_as("an id", is_id_flipped(&mut flipping(rt.alloc(), 5)?))?;
    passes(is_garbled(&mut flipping(rt.alloc(), 2)?))
}
