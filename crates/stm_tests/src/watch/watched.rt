// A Rig in memory, and one of which a byte comes complemented, both watched.
use std::alloc::Global;
use std::test::Fail;
use stm_sim::{FlipRig, MemoryRig};
use stm_watch::{Refusal, Watch, WatchRig};
use stm_wire::{
    Chip, EraseKind, Patience, Rig, RigFault, WireFault, connect, erase_page, get_commands,
    program, read,
};

const BASE: u32 = 0x0800_0000;

const PAGES: usize = 4;

pub fn chip(alloc: Global) -> Result<Chip, Fail> {
    let sizes = vec![in alloc; 256; PAGES]?;
    Ok(Chip::new(0xA01, BASE, sizes, EraseKind::Extended, 0xFF).ok_or("limits")?)
}

/// A device whose flash is all 00.
pub fn device(alloc: Global) -> Result<MemoryRig, Fail> {
    let flash = vec![in alloc; 0x00; PAGES * 256]?;
    Ok(MemoryRig::new(alloc, chip(alloc)?, flash, Vec::new(alloc)).ok_or("length")?)
}

/// A Rig that is connected, and watched from there on.
fn watched<R: Rig + Drop>(alloc: Global, mut rig: R) -> Result<WatchRig<R>, Fail> {
    connect(&mut rig)?;
    let commands = get_commands(&mut rig)?;
    let codes = Vec::from_slice(alloc, &commands.codes[..usize::from(commands.count)])?;
    let watch = Watch::new(alloc, chip(alloc)?, commands.version, codes)?;
    Ok(WatchRig::new(rig, watch))
}

/// The bytes at an address, after the page was read, erased, and a part of it written.
pub fn write<R: Rig>(rig: &mut R) -> Result<[u8; 8], WireFault> {
    let mut bytes = [0; 8];
    read(rig, BASE, &mut bytes)?;
    erase_page(rig, EraseKind::Extended, 0)?;
    program(rig, BASE, &[1, 2, 3, 4])?;
    program(rig, BASE, &[0, 3, 3, 4])?;
    read(rig, BASE, &mut bytes)?;
    read(rig, BASE, &mut bytes)?;
    Ok(bytes)
}

#[test]
fn the_simulator_is_never_refused(rt: HostRuntime) -> Result<(), Fail> {
    let mut rig = watched(rt.alloc(), device(rt.alloc())?)?;
    assert_eq!(rt; write(&mut rig)?, [0, 2, 3, 4, 0xFF, 0xFF, 0xFF, 0xFF]);
    assert_eq!(rt; rig.refusal(), None);
    assert!(rt; rig.watch().is_watching());
    Ok(())
}

#[test]
fn a_byte_that_stood_there_before_is_refused(rt: HostRuntime) -> Result<(), Fail> {
    // 1 byte connects, 13 tell the codes, and each read of a byte brings four: the eighth of these
    // comes complemented
    let line = FlipRig::new(rt.alloc(), device(rt.alloc())?, 22);
    let mut rig = watched(rt.alloc(), line)?;
    let mut byte = [0; 1];
    read(&mut rig, BASE, &mut byte)?;
    assert_eq!(rt;
        read(&mut rig, BASE, &mut byte).err(),
        Some(WireFault::Line)
    );
    let due = Some(0);
    assert_eq!(rt;
        rig.refusal(),
        Some(Refusal {
            due,
            came: 0xFF,
            address: Some(BASE)
        })
    );
    Ok(())
}

#[test]
fn a_complemented_byte_is_refused(rt: HostRuntime) -> Result<(), Fail> {
    // 1 byte connects, 13 tell the codes, and 11 are the first read: the next acknowledges an erase
    let line = FlipRig::new(rt.alloc(), device(rt.alloc())?, 26);
    let mut rig = watched(rt.alloc(), line)?;
    assert_eq!(rt; write(&mut rig).err(), Some(WireFault::Line));
    let due = Some(0x79);
    assert_eq!(rt;
        rig.refusal(),
        Some(Refusal {
            due,
            came: 0x86,
            address: None
        })
    );
    assert_eq!(rt; rig.put(0), Err(RigFault::Line));
    assert_eq!(rt; rig.get(Patience::Brief), Err(RigFault::Line));
    assert_eq!(rt; rig.append(&[1]), Err(RigFault::File));
    Ok(())
}
