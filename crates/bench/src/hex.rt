// Reads and writes HEX files by `stm_image`, so that `bench/hex` can time it beside other tools.
//
// - `read HEX` tells how many bytes a HEX file holds.
// - `write RAW START HEX` writes a raw file as a HEX file, from the address START (decimal) on.
// - `copy RAW START HEX` writes a copy of that image, so that a copy is made at its size.
// - `compare RAW START HEX..` tells which HEX files hold just the raw file's bytes from START on.
use std::{fs, io};
use stm_image::{Image, read_hex, read_raw, write_hex};

const USAGE: &str =
    "usage: hex read HEX, write RAW START HEX, copy RAW START HEX or compare RAW START HEX..";

// The image of a HEX file, or `None` once its fault is told.
fn hex_image(rt: &HostRuntime, name: &str) -> io::Result<Option<Image>> {
    let text = fs::read(rt, name)?;
    match read_hex(rt.alloc(), text.as_slice()) {
        Ok(image) => Ok(Some(image)),
        Err(fault) => {
            println!(rt; "{name}: {fault}")?;
            Ok(None)
        }
    }
}

// The image of a raw file, or `None` once its fault is told.
fn raw_image(rt: &HostRuntime, name: &str, start: &str) -> io::Result<Option<Image>> {
    let Ok(start) = start.parse::<u32>() else {
        println!(rt; "{USAGE}")?;
        return Ok(None);
    };
    let bytes = fs::read(rt, name)?;
    match read_raw(rt.alloc(), bytes.as_slice(), start) {
        Ok(image) => Ok(Some(image)),
        Err(fault) => {
            println!(rt; "{name}: {fault}")?;
            Ok(None)
        }
    }
}

// Whether two images hold the same pairs.
fn are_same(first: &Image, second: &Image) -> bool {
    let mut from = Some(0u32);
    for _ in 0..first.len() {
        let Some(address) = from else { return false };
        let Some((at, byte)) = first.next_from(address) else {
            return false
        };
        if second.next_from(address) != Some((at, byte)) {
            return false;
        }
        from = at.checked_add(1);
    }
    first.len() == second.len()
}

// Tells how many bytes a HEX file holds.
fn read(rt: &HostRuntime, name: &str) -> io::Result<()> {
    if let Some(image) = hex_image(rt, name)? {
        let count = image.len();
        println!(rt; "{name}: {count} bytes")?;
    }
    Ok(())
}

// Writes a raw file as a HEX file.
fn write(rt: &HostRuntime, raw: &str, start: &str, hex: &str) -> io::Result<()> {
    if let Some(image) = raw_image(rt, raw, start)? {
        let text = write_hex(rt.alloc(), &image)?;
        fs::write(rt, hex, text.as_slice())?;
    }
    Ok(())
}

// Writes a copy of a raw file's image as a HEX file.
fn copy(rt: &HostRuntime, raw: &str, start: &str, hex: &str) -> io::Result<()> {
    if let Some(image) = raw_image(rt, raw, start)? {
        let copied = image.clone()?;
        drop(image);
        let text = write_hex(rt.alloc(), &copied)?;
        fs::write(rt, hex, text.as_slice())?;
    }
    Ok(())
}

// Tells which HEX files hold just the bytes of a raw file.
fn compare(rt: &HostRuntime, raw: &str, start: &str, names: &[String]) -> io::Result<()> {
    let Some(wanted) = raw_image(rt, raw, start)? else {
        return Ok(());
    };
    for name in names {
        if let Some(image) = hex_image(rt, name.as_str())? {
            let verdict = if are_same(&image, &wanted) {
                "the same bytes"
            } else {
                "other bytes"
            };
            println!(rt; "{name}: {verdict}")?;
        }
    }
    Ok(())
}

/// Does what the words say.
pub fn work(rt: &HostRuntime, words: &[String]) -> io::Result<()> {
    match words {
        [verb, hex] if verb.as_str() == "read" => read(rt, hex.as_str()),
        [verb, raw, start, hex] if verb.as_str() == "write" => {
            write(rt, raw.as_str(), start.as_str(), hex.as_str())
        }
        [verb, raw, start, hex] if verb.as_str() == "copy" => {
            copy(rt, raw.as_str(), start.as_str(), hex.as_str())
        }
        [verb, raw, start, names @ ..] if verb.as_str() == "compare" => {
            compare(rt, raw.as_str(), start.as_str(), names)
        }
        _ => println!(rt; "{USAGE}"),
    }
}
