// Does sessions over a simulator in memory, so that a script of `bench/` can time them, and tells
// what the last of them put on the line.
//
// `VERB TABLE ID RAW` makes a device of the table's chip ID (decimal) with an erased flash. VERB
// is `nothing`, or the last of these calls, of which those before it are made too: `write` writes
// the raw file from the chip's base on; then `rewrite` writes it again, `verify` compares it,
// `read` reads as many bytes, or `undo` undoes all.
use crate::tables::{chip_of, table_of};
use std::{fs, io};
use stm_chip::Table;
use stm_image::{Image, read_raw};
use stm_session::{Command, run, undo};
use stm_sim::MemoryRig;
use stm_wire::{Chip, RigCall};

const USAGE: &str =
    "usage: sessions nothing, write, rewrite, verify, read or undo, and TABLE ID RAW";

// What is measured: a table, the image, and a device that is written.
#[derive(Drop)]
struct Bench {
    table: Table,
    image: Image,
    rig: MemoryRig,
    base: u32,
    size: u32,
}

// The image of a file from this address on, and its size, or `None` once it is told that it is
// none.
fn image_of(rt: &HostRuntime, raw: &str, base: u32) -> io::Result<Option<(Image, u32)>> {
    let bytes = fs::read(rt, raw)?;
    if let Ok(image) = read_raw(rt.alloc(), bytes.as_slice(), base) {
        return Ok(Some((image, u32::try_from(bytes.len()).unwrap_or(0))));
    }
    println!(rt; "{raw}: no image")?;
    Ok(None)
}

// A device of this chip, with an erased flash.
fn device(rt: &HostRuntime, chip: Chip) -> io::Result<Option<MemoryRig>> {
    let flash = vec![in rt.alloc(); chip.erased(); chip.flash_size() as usize]?;
    Ok(MemoryRig::new(rt.alloc(), chip, flash, Vec::new(rt.alloc())))
}

// A device of the table's chip with this number, and the image of this file, or `None` once
// it is told what is wrong.
fn bench_of(rt: &HostRuntime, name: &str, id: &str, raw: &str) -> io::Result<Option<Bench>> {
    let Some(table) = table_of(rt, name)? else {
        return Ok(None);
    };
    let Some(chip) = chip_of(rt, name, &table, id)? else {
        return Ok(None);
    };
    let base = chip.base();
    let Some((image, size)) = image_of(rt, raw, base)? else {
        return Ok(None);
    };
    Ok(device(rt, chip)?.map(|rig| Bench {
        table,
        image,
        rig,
        base,
        size,
    }))
}

impl Bench {
    // Does one command, and tells its fault.
    fn run(&mut self, rt: &HostRuntime, command: Command) -> io::Result<()> {
        match run(rt.alloc(), &mut self.rig, &self.table, &[command]) {
            Ok(_) => Ok(()),
            Err(fault) => println!(rt; "{fault}"),
        }
    }

    fn write(&mut self, rt: &HostRuntime) -> io::Result<()> {
        let image = self.image.clone()?;
        self.run(rt, Command::Write(image))
    }

    fn verify(&mut self, rt: &HostRuntime) -> io::Result<()> {
        let image = self.image.clone()?;
        self.run(rt, Command::Verify(image))
    }

    fn read(&mut self, rt: &HostRuntime) -> io::Result<()> {
        let start = self.base;
        let length = self.size;
        self.run(rt, Command::Read { start, length })
    }

    fn undo(&mut self, rt: &HostRuntime) -> io::Result<()> {
        match undo(rt.alloc(), &mut self.rig, &self.table, 0) {
            Ok(_) => Ok(()),
            Err(fault) => println!(rt; "{fault}"),
        }
    }

    // What the calls from this one on put on the line: bytes put, bytes that came, and
    // how often the line turned.
    fn tell(&self, rt: &HostRuntime, start: usize) -> io::Result<()> {
        let mut puts = 0u64;
        let mut gets = 0u64;
        let mut turns = 0u64;
        let mut has_put = false;
        for call in self.rig.calls().iter().skip(start) {
            match call {
                RigCall::Put(_) => {
                    puts = puts.saturating_add(1);
                    has_put = true;
                }
                RigCall::Get(Some(_)) => {
                    gets = gets.saturating_add(1);
                    if has_put {
                        turns = turns.saturating_add(1);
                    }
                    has_put = false;
                }
                _ => {}
            }
        }
        println!(rt; "{puts} bytes put, {gets} bytes came, {turns} turns")
    }
}

// Makes the calls up to the one of this name, and tells what that one put on the line.
fn measure(rt: &HostRuntime, bench: &mut Bench, verb: &str) -> io::Result<()> {
    if verb == "nothing" {
        return Ok(());
    }
    let mut start = bench.rig.calls().len();
    bench.write(rt)?;
    if verb != "write" {
        start = bench.rig.calls().len();
    }
    match verb {
        "write" => {}
        "rewrite" => bench.write(rt)?,
        "verify" => bench.verify(rt)?,
        "read" => bench.read(rt)?,
        "undo" => bench.undo(rt)?,
        _ => println!(rt; "{USAGE}")?,
    }
    bench.tell(rt, start)
}

/// Does what the words say.
pub fn work(rt: &HostRuntime, words: &[String]) -> io::Result<()> {
    let [verb, table, id, raw] = words else {
        return println!(rt; "{USAGE}");
    };
    match bench_of(rt, table.as_str(), id.as_str(), raw.as_str())? {
        Some(mut bench) => measure(rt, &mut bench, verb.as_str()),
        None => Ok(()),
    }
}
