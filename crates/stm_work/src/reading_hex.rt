// Reading the flash, or a part of it, as Intel HEX.
ghost use Rattle.std.specs.Prelude.{◌≡◌, IfOk, is_some};
ghost use Rattle.stm_image.specs.Canon.{canon};
ghost use Rattle.stm_image.specs.Pairs.{Pairs};
ghost use Rattle.stm_work.specs.declared.failure.Failure.TheVariants.{Session};
ghost use Rattle.stm_work.specs.Conduct.{AsksThenGoesOn};
ghost use Rattle.stm_work.specs.ReadingFor.{IsHexOf, ReadsAsHex, ReadsPartAsHex, part_of};

use crate::answer::Answer;
use crate::failure::Failure;
use crate::reading::{part_given, read_bytes, start_given, to_the_end};
use std::alloc::{AllocError, Global};
use stm_chip::Table;
use stm_image::{read_hex, read_raw, write_hex};
use stm_session::{Fault, Info, info};
use stm_wire::Rig;
use stm_words::Range;

/// Reads the whole flash or a part of it, and answers its canonical HEX text. The device is asked
/// where its flash lies, and what an erased byte is: lines of these may be left out.
pub fn read_as_hex<'a, L: Rig>(
    alloc: Global,
    rig: &mut L,
    table: &Table,
    range: Option<Range>,
    skips_blank: bool,
) -> Result<Answer, Failure<'a>>
    ensures { AsksThenGoesOn L.view table.now (λ fault. Session fault)
        (ReadsAsHex L.view table.now range skips_blank) rig.old rig.new result }
{
    let told = info(alloc, rig, table)?;
    let blank = if skips_blank { Some(told.erased) } else { None };
    read_part(alloc, rig, table, part_of(range, &told), blank)
}

/// The part that a range names of a device that told where its flash lies.
fn part_of(range: Option<Range>, told: &Info) -> Option<(u32, u32)>
    ensures { result ≡ part_of range told.now }
{
    match part_given(range) {
        Some(part) => Some(part),
        None => to_the_end(start_given(range), told.base, told.size),
    }
}

/// Reads a part, and answers its HEX text, without lines of blank bytes where these are named.
fn read_part<'a, L: Rig>(
    alloc: Global,
    rig: &mut L,
    table: &Table,
    part: Option<(u32, u32)>,
    blank: Option<u8>,
) -> Result<Answer, Failure<'a>>
    ensures { ReadsPartAsHex L.view table.now (is_some blank) part rig.old rig.new result }
{
    let Some((start, length)) = part else {
        return Err(Failure::Session(Fault::OutOfFlash));
    };
    let Answer::Bytes(bytes) = read_bytes(alloc, rig, table, start, length)? else {
        unreachable!()
    };
    Ok(Answer::Bytes(hex_text(alloc, bytes.as_slice(), start, blank)?))
}

/// The HEX text of bytes from a place on, without lines of blank bytes where these are named.
fn hex_text<'a>(
    alloc: Global,
    bytes: &[u8],
    start: u32,
    blank: Option<u8>,
) -> Result<Vec<u8>, Failure<'a>>
    ensures { IfOk result (λ text. IsHexOf (is_some blank) start bytes.now text.items) }
{
    let image = read_raw(alloc, bytes, start)?;
    let text = write_hex(alloc, &image)?;
    match blank {
        Some(blank) => without_blank(alloc, text.as_slice(), blank),
        None => Ok(text),
    }
}

/// The canonical HEX text of what is left of a text once its lines of blank data are out.
fn without_blank<'a>(alloc: Global, text: &[u8], blank: u8) -> Result<Vec<u8>, Failure<'a>>
    ensures { IfOk result (λ text. (image : Pairs) × (text.items ≡ canon image)) }
{
    let rest = lines_with_data(alloc, text, blank)?;
    let image = read_hex(alloc, rest.as_slice())?;
    Ok(write_hex(alloc, &image)?)
}

/// The lines of a text but those whose data are blank.
fn lines_with_data(alloc: Global, text: &[u8], blank: u8) -> Result<Vec<u8>, AllocError> {
    let mut rest = Vec::new(alloc);
    for line in text.split(|byte| *byte == b'\n') {
        if !line.is_empty() && !is_blank(line, blank) {
            rest.extend_from_slice(line)?;
            rest.push(b'\n')?;
        }
    }
    Ok(rest)
}

/// Whether a record of data has blank bytes alone: of its digits, those of the kind
/// are 00, and each byte's are the blank's.
fn is_blank(line: &[u8], blank: u8) -> bool {
    let digit = if blank == 0xFF { b'F' } else { b'0' };
    match line {
        [b':', _, _, _, _, _, _, b'0', b'0', data @ .., _, _] if !data.is_empty() => {
            data.iter().all(|c| *c == digit)
        }
        _ => false,
    }
}
