//! Changes a device in memory and undoes the changes, so that `tools/allocations` can refuse each
//! of its allocations in turn.
//!
//! It says one line, whatever was refused, where each call answered as it may, the flash was what
//! each Ok answer promises, and in the end what it was at first; and otherwise what was wrong, with
//! status 1. With a word it says each answer before that.
#![tactic(auto)]

use std::alloc::Global;
use std::process::ExitCode;
use std::{env, io};
use stm_chip::{Table, read_table};
use stm_image::read_raw;
use stm_session::{Command, Fault, Outcome, run, undo};
use stm_sim::MemoryRig;

/// Its pages are 256 bytes long, and it is erased by 44.
const TABLE: &str = r#"
[[chip]]
id = 0xA01
base = 0x08000000
pages = [[256, 256]]
erase = "extended"
"#;

const RIGHT: &str = "each answer as it may be, and the flash as promised";

/// A change of page 0.
#[derive(Clone, Copy)]
enum Change {
    /// These bytes are written at its start.
    Write([u8; 4]),
    Erase,
}

/// The changes of each case, of which each is a segment. The flash is 00 at first,
/// and there is no journal.
const CASES: [&[Change]; 3] = [
    &[Change::Write([1, 2, 3, 4])],
    &[Change::Erase],
    &[Change::Write([5, 6, 7, 8]), Change::Write([1, 2, 3, 4])],
];

/// How often an undo may fail before one has to succeed: more often than allocations are refused.
const TRIES: u32 = 100;

/// What page 0 holds: its first four bytes, and each byte behind them. Each other page holds 00.
#[derive(Clone, Copy)]
struct Page {
    head: [u8; 4],
    rest: u8,
}

/// Page 0 after these changes.
fn page_after(changes: &[Change]) -> Page {
    let mut page = Page {
        head: [0; 4],
        rest: 0,
    };
    for change in changes {
        match change {
            Change::Write(bytes) => {
                let head = *bytes;
                page.head = head;
            }
            Change::Erase => {
                page = Page {
                    head: [0xFF; 4],
                    rest: 0xFF,
                }
            }
        }
    }
    page
}

/// Whether a flash holds just what these changes make of it.
fn is_flash_after(flash: &[u8], changes: &[Change]) -> bool {
    let page = page_after(changes);
    for (i, byte) in flash.iter().enumerate() {
        let wanted = match page.head.get(i) {
            Some(head) => *head,
            None if i < 256 => page.rest,
            None => 0,
        };
        if *byte != wanted {
            return false;
        }
    }
    flash.len() == 65536
}

/// A device with a flash of 00; None where memory was refused.
fn device(alloc: Global, table: &Table) -> Option<MemoryRig> {
    let chip = table.find(0xA01)?.clone().ok()?;
    let flash = Vec::from_elem(alloc, 0, 65536).ok()?;
    MemoryRig::new(alloc, chip, flash, Vec::new(alloc))
}

/// A change as a command; None where memory was refused.
fn command_of(alloc: Global, change: Change) -> Option<[Command; 1]> {
    match change {
        Change::Write(head) => Some([Command::Write(read_raw(alloc, &head, 0x0800_0000).ok()?)]),
        Change::Erase => Some([Command::Erase(Vec::from_slice(alloc, &[0]).ok()?)]),
    }
}

/// One case: the device, and what was found.
#[derive(Drop)]
struct Case<'a> {
    rt: &'a HostRuntime,
    rig: MemoryRig,
    changes: &'a [Change],
    /// How many of the changes stand; None where that isn't known.
    standing: Option<usize>,
    tells: bool,
    is_right: bool,
}

impl<'a> Case<'a> {
    /// Says what was wrong.
    fn wrong(&mut self, what: &str) -> io::Result<()> {
        self.is_right = false;
        println!(self.rt; "wrong: {what}")
    }

    /// Looks at a failed call: memory was refused to the session, or to the device and its journal.
    fn failed(&mut self, fault: Fault) -> io::Result<()> {
        self.standing = None;
        if self.tells {
            println!(self.rt; "{fault}")?;
        }
        match fault {
            Fault::Memory | Fault::Line | Fault::Journal => Ok(()),
            _ => self.wrong("another fault"),
        }
    }

    /// Looks at the flash.
    fn look(&mut self) -> io::Result<()> {
        let Some(standing) = self.standing else {
            return Ok(());
        };
        let changes = self.changes.get(..standing).unwrap_or(&[]);
        if is_flash_after(self.rig.flash(), changes) {
            Ok(())
        } else {
            self.wrong("another flash")
        }
    }

    /// Makes the k-th change, counted from 0; and answers whether the next one is to be made.
    fn change(&mut self, table: &Table, k: usize, change: Change) -> io::Result<bool> {
        let Some(commands) = command_of(self.rt.alloc(), change) else {
            return Ok(false);
        };
        match run(self.rt.alloc(), &mut self.rig, table, &commands) {
            Ok(report) => {
                let (Some(Outcome::Written { segment, pages })
                | Some(Outcome::Erased { segment, pages })) = report.outcomes.first()
                else {
                    self.wrong("another outcome")?;
                    return Ok(false);
                };
                if self.tells {
                    println!(self.rt; "segment {segment}, pages {pages}")?;
                }
                if *segment as usize != k.saturating_add(1) || *pages != 1 {
                    self.wrong("another segment")?;
                }
                self.standing = Some(k.saturating_add(1));
                self.look()?;
                Ok(true)
            }
            Err(fault) => {
                self.failed(fault)?;
                Ok(false)
            }
        }
    }

    /// Undoes so many segments, or all where the count is 0; and answers whether that was done.
    fn undo(&mut self, table: &Table, count: u32) -> io::Result<bool> {
        match undo(self.rt.alloc(), &mut self.rig, table, count) {
            Ok(taken) => {
                if self.tells {
                    println!(self.rt; "taken back {taken}")?;
                }
                let taken = taken as usize;
                match self.standing {
                    Some(standing) => {
                        let most = if count == 0 { standing } else { count as usize };
                        if taken != standing.min(most) {
                            self.wrong("another count")?;
                        }
                        self.standing = Some(standing.saturating_sub(taken));
                    }
                    None if count == 0 => self.standing = Some(0),
                    None => {}
                }
                self.look()?;
                Ok(true)
            }
            Err(fault) => {
                self.failed(fault)?;
                Ok(false)
            }
        }
    }

    /// Undoes the newest segment, if it can, and then all.
    fn undo_segment(&mut self, table: &Table) -> io::Result<()> {
        self.undo(table, 1)?;
        for _time in 0..TRIES {
            if self.undo(table, 0)? {
                return Ok(());
            }
        }
        self.wrong("not taken back")
    }

    /// Makes the changes until one fails, and undoes them.
    fn run(&mut self, table: &Table) -> io::Result<()> {
        for (k, change) in self.changes.iter().enumerate() {
            if !self.change(table, k, *change)? {
                break;
            }
        }
        self.undo_segment(table)
    }
}

/// Whether all cases were right. A case whose device finds no memory begins nothing.
fn are_right(rt: &HostRuntime, tells: bool) -> io::Result<bool> {
    let Ok(table) = read_table(rt.alloc(), TABLE.as_bytes()) else {
        return Ok(true);
    };
    let mut are_right = true;
    for changes in CASES {
        if let Some(rig) = device(rt.alloc(), &table) {
            let mut case = Case {
                rt,
                rig,
                changes,
                standing: Some(0),
                tells,
                is_right: true,
            };
            case.run(&table)?;
            are_right = are_right && case.is_right;
        }
    }
    Ok(are_right)
}

fn main(rt: HostRuntime) -> ExitCode {
    let tells = match env::args(&rt) {
        Ok(words) => words.len() > 1,
        Err(_) => false,
    };
    match are_right(&rt, tells) {
        Ok(true) if println!(rt; "{RIGHT}").is_ok() => ExitCode::SUCCESS,
        _ => ExitCode::FAILURE,
    }
}
