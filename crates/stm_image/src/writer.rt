//! Writes the canonical text of an image.
ghost use Rattle.std.specs.Prelude.{◌≡◌, ◌<◌, ◌≤◌, ◌+◌, ◌/◌, ◌%◌, ◌^◌, ◌++◌, length, IfOk, OnOk};
ghost use Rattle.stm_image.specs.Canon.{canon, line, upper_line};
ghost use Rattle.stm_image.specs.Parts.{IsRecordPart, IsTextWritten};

use crate::Image;
use crate::lines::{put_line, put_upper};
use std::alloc::{AllocError, Global};

// How many of the bytes that stand together from an address on go into one record.
fn part_len(at: u64, left: usize) -> usize
    requires { 0 < left }
    ensures { IsRecordPart at left result }
{
    let edge = (65536 - at % 65536) as usize;
    if edge <= 16 && edge <= left {
        return edge;
    }
    if left <= 16 {
        return left;
    }
    16
}

// Adds the lines of a part.
fn put_part(text: &mut Vec<u8>, upper: u16, start: u32, bytes: &[u8]) -> Result<u16, AllocError>
    requires { length bytes.now ≤ 16 }
    ensures lines { OnOk result (text.new.items
        ≡ text.old.items ++ upper_line upper (start / 65536) ++ line (start % 65536) 0 bytes.now) }
    ensures upper { IfOk result (λ high. high ≡ start / 65536) }
{
    let high = (start / 65536) as u16;
    put_upper(text, upper, high)?;
    put_line(text, (start % 65536) as u16, 0, bytes)?;
    Ok(high)
}

// Adds the lines of a run.
fn put_run(text: &mut Vec<u8>, upper: u16, start: u32, bytes: &[u8]) -> Result<u16, AllocError>
    requires { start + length bytes.now ≤ 2 ^ 32 }
    ensures { IfOk result
        (λ high. IsTextWritten text.old.items upper start bytes.now text.new.items high) }
{
    let mut high = upper;
    let mut at = u64::from(start);
    let mut rest = bytes;
    'parts: while !rest.is_empty() {
        let (part, after) = rest.split_at(part_len(at, rest.len()));
        high = put_part(text, high, at as u32, part)?;
        at += part.len() as u64;
        rest = after;
    }
    Ok(high)
}

/// The canonical HEX text of an image, as `docs/FORMATS.md` gives it: `read_hex` of it gives the image.
pub fn write_hex(alloc: Global, image: &Image) -> Result<Vec<u8>, AllocError>
    ensures { IfOk result (λ text. text.items ≡ canon image.now) }
{
    let runs = image.runs();
    let bytes = runs.bytes.as_slice();
    let list = runs.list.as_slice();
    // room for whole records; scattered pairs need more
    let room = (bytes.len() / 16).saturating_add(2).saturating_mul(45);
    let mut text = Vec::with_capacity(alloc, room)?;
    let mut upper = 0u16;
    for run in list {
        upper = put_run(&mut text, upper, run.first, run.bytes_in(bytes))?;
    }
    put_line(&mut text, 0, 1, &[])?;
    Ok(text)
}
