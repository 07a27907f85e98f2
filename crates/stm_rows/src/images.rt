// Images of words: `hex BYTES..`, what a text means, or `raw START BYTES..`.
//
// `pairs IMAGE` tells its bytes behind their addresses, each look-up asked; `writes IMAGE` its text, in
// which / ends a line; `lays IMAGE | ADDRESS BYTES.. | BYTES..` whether a copy, laid over bytes from an
// address on, makes the others of them; `differs IMAGE | ADDRESS BYTES..` where it first has another
// byte; `joined IMAGE | IMAGE` what both texts mean, one behind the other. A fault is told by its text.
use crate::bytes::{bytes_of, hexadecimal, parts};
use crate::stopping::Stop;
use std::alloc::Global;
use stm_image::{Image, read_hex, read_raw, write_hex};

/// The image of these words.
pub fn image_of(alloc: Global, words: &[&str]) -> Result<Image, Stop> {
    match words {
        ["hex", text @ ..] => Ok(read_hex(alloc, &bytes_of(alloc, text)?)?),
        ["raw", start, bytes @ ..] => {
            let start = hexadecimal(start)?;
            Ok(read_raw(alloc, &bytes_of(alloc, bytes)?, start)?)
        }
        _ => Err(Stop::Words),
    }
}

/// Tells the bytes of an image behind their addresses, and answers how many there are.
fn tell_pairs(image: &Image, told: &mut String) -> Result<usize, Stop> {
    let mut from = Some(0_u32);
    let mut count = 0_usize;
    for _i in 0..u64::MAX {
        let Some(least) = from else { break };
        let Some((address, byte)) = image.next_from(least) else {
            break;
        };
        if count == 0 {
            write!(told, "{address:08X} ")?;
        } else if address != least {
            write!(told, " {address:08X} ")?;
        }
        write!(told, "{byte:02X}")?;
        if image.get(address) != Some(byte) {
            told.push_str("?")?;
        }
        count = count.saturating_add(1);
        from = address.checked_add(1);
    }
    Ok(count)
}

fn pairs(image: &Image, told: &mut String) -> Result<(), Stop> {
    image.rises();
    let count = tell_pairs(image, told)?;
    if count != image.len() || (count == 0) != image.is_empty() {
        told.push_str(", another count")?;
    }
    if count == 0 {
        told.push_str("nothing")?;
    }
    Ok(())
}

/// A text with / in the place of each LF.
fn shown(text: &[u8], told: &mut String) -> Result<(), Stop> {
    for byte in text {
        let byte = if *byte == b'\n' { b'/' } else { *byte };
        told.push(char::from(byte))?;
    }
    Ok(())
}

/// Whether an image over these bytes from an address on makes those.
fn lays(
    alloc: Global,
    image: Image,
    address: u32,
    bytes: &mut [u8],
    due: &[&str],
) -> Result<bool, Stop> {
    if u64::from(address).saturating_add(bytes.len() as u64) > 0x1_0000_0000 {
        return Err(Stop::Words);
    }
    image.lay(address, bytes);
    Ok(bytes_of(alloc, due)?.as_slice() == bytes)
}

/// Tells of an image and bytes at an address.
fn beside(
    alloc: Global,
    image: &Image,
    verb: &str,
    words: &[&str],
    told: &mut String,
) -> Result<(), Stop> {
    let (over, due) = parts(words);
    let [address, bytes @ ..] = over else {
        return Err(Stop::Words);
    };
    let address = hexadecimal(address)?;
    let mut bytes = bytes_of(alloc, bytes)?;
    if verb == "lays" {
        let is_so = lays(alloc, image.clone()?, address, &mut bytes, due)?;
        return Ok(told.push_str(if is_so { "so" } else { "other bytes" })?);
    }
    match image.first_difference(address, &bytes) {
        Some(place) => Ok(write!(told, "{place:08X}")?),
        None => Ok(told.push_str("nowhere")?),
    }
}

/// What a text means without its last record, and another one behind it.
fn joined(alloc: Global, image: &Image, other: &Image, told: &mut String) -> Result<(), Stop> {
    let mut text = write_hex(alloc, image)?;
    text.truncate(text.len().saturating_sub(12));
    text.extend_from_slice(&write_hex(alloc, other)?)?;
    pairs(&read_hex(alloc, &text)?, told)
}

/// Tells what is asked of an image; false: it's another word.
pub fn tell_image(
    alloc: Global,
    verb: &str,
    words: &[&str],
    told: &mut String,
) -> Result<bool, Stop> {
    if !matches!(verb, "pairs" | "writes" | "lays" | "differs" | "joined") {
        return Ok(false);
    }
    let (image, rest) = parts(words);
    let image = image_of(alloc, image)?;
    match verb {
        "pairs" => pairs(&image, told)?,
        "writes" => shown(&write_hex(alloc, &image)?, told)?,
        "joined" => joined(alloc, &image, &image_of(alloc, rest)?, told)?,
        _ => beside(alloc, &image, verb, rest, told)?,
    }
    Ok(true)
}
