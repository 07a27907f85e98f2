// What each fault says to a user.
use std::fmt::Display;
use std::test::Fail;
use stm_chip::{PlanFault, TableFault};
use stm_image::{HexFault, RawFault};
use stm_journal::JournalFault;
use stm_session::Fault;
use stm_wire::{RigFault, WireFault};

fn says<F: Display + Copy>(rt: &HostRuntime, fault: F, want: &str) -> Result<(), Fail> {
    let text = format!(in rt.alloc(); "{fault}")?;
    if text.as_str() == want {
        Ok(())
    } else {
        Err(Fail::new(format_args!("{text}, where {want} is due")))
    }
}

fn all_say<F: Display + Copy>(rt: &HostRuntime, rows: &[(F, &str)]) -> Result<(), Fail> {
    for (fault, want) in rows {
        says(rt, *fault, want)?;
    }
    Ok(())
}

const HEX: &[(HexFault, &str)] = &[
    (HexFault::BadDigit(7), "hex record 7: bad digit"),
    (HexFault::Short(7), "hex record 7: short"),
    (HexFault::Checksum(7), "hex record 7: checksum"),
    (HexFault::Kind(7), "hex record 7: type"),
    (HexFault::Length(7), "hex record 7: length"),
    (HexFault::Conflict(7), "hex record 7: conflict"),
    (HexFault::NoEnd(7), "hex record 7: no end"),
    (HexFault::NoColon(7), "hex record 7: no colon"),
    (HexFault::Memory(7), "out of memory"),
];

const RAW: &[(RawFault, &str)] = &[
    (RawFault::PastEnd, "image past the end"),
    (RawFault::Memory, "out of memory"),
];

const RIG: &[(RigFault, &str)] = &[
    (RigFault::Line, "line failed"),
    (RigFault::File, "journal failed"),
    (RigFault::Stopped, "stopped"),
];

const WIRE: &[(WireFault, &str)] = &[
    (WireFault::Line, "line failed"),
    (WireFault::Nack, "refused by the device"),
    (WireFault::Quiet, "no answer"),
    (WireFault::Garbled, "unexpected answer"),
];

const TABLES: &[(TableFault, &str)] = &[
    (TableFault::Syntax, "table: syntax"),
    (TableFault::Missing(2), "table: chip 2: missing"),
    (TableFault::Limit(2), "table: chip 2: limit"),
    (TableFault::TwiceId(2), "table: chip 2: twice"),
    (TableFault::Memory, "out of memory"),
];

const PLANS: &[(PlanFault, &str)] = &[
    (PlanFault::OutOfFlash, "address outside the flash"),
    (PlanFault::Memory, "out of memory"),
];

const JOURNALS: &[(JournalFault, &str)] = &[
    (JournalFault::File, "journal failed"),
    (JournalFault::Bad(12), "bad journal line 12"),
    (JournalFault::OtherDevice, "journal of another device"),
    (JournalFault::OtherBoard, "journal of another board"),
    (JournalFault::Memory, "out of memory"),
];

const SESSIONS: &[(Fault, &str)] = &[
    (Fault::Line, "line failed"),
    (Fault::Journal, "journal failed"),
    (Fault::Memory, "out of memory"),
    (Fault::Unfinished, "unfinished command, undo first"),
    (Fault::UnknownChip(0x0042), "unknown chip 0042"),
    (Fault::OutOfFlash, "address outside the flash"),
    (Fault::NoErase, "no erase command"),
    (Fault::InSession, "journal is open, refused"),
    (Fault::Differs(0x0800_00AB), "differs at 080000AB"),
    (Fault::NotHeld(7), "page 7 does not hold what was written"),
    (Fault::Device, "device does not follow the protocol"),
    (Fault::BadJournal(12), "bad journal line 12"),
    (Fault::OtherDevice, "journal belongs to another device"),
    (Fault::OtherBoard, "journal is of another board"),
    (Fault::BoardChanged, "another board answers than at first"),
    (Fault::Full, "journal is full"),
];

#[test]
fn texts_of_faults(rt: HostRuntime) -> Result<(), Fail> {
    all_say(&rt, HEX)?;
    all_say(&rt, RAW)?;
    all_say(&rt, RIG)?;
    all_say(&rt, WIRE)?;
    all_say(&rt, TABLES)?;
    all_say(&rt, PLANS)?;
    all_say(&rt, JOURNALS)?;
    all_say(&rt, SESSIONS)
}
