// Where a simulator stands between two runs, and the line of its file that says so.
ghost use Rattle.std.specs.Prelude.{◌≡◌, ◌&&◌, ◌||◌, nat_le, nat_lt, length, option_map, IfOk};
ghost use Rattle.std.specs.Prelude.{List, ℕ};
ghost use Rattle.std.specs.List.{list_all};
ghost use Rattle.std.specs.Result.{result_ok};
ghost use Rattle.hex.specs.Hex.{decode_of, encode_upper};
ghost use Rattle.stm_files.specs.Standing.{are_upper_pairs, is_upper_hex, standing_line, phase_from};
ghost use Rattle.stm_files.specs.Standing.{standing_phase, rest_of_digits, standing_of};

use crate::files::{open_if_there, read_up_to};
use hex::FromHexError;
use std::alloc::{AllocError, Global};
use std::fs::Files;
use std::io;

/// The line of a device that waits for 7F.
const FRESH: &[u8] = b"fresh\n";

/// The line of one that is connected, where no byte came since its last verdict.
const IDLE: &[u8] = b"idle\n";

/// The line of one that left the bootloader.
const GONE: &[u8] = b"gone\n";

/// How many bytes the file that tells where a simulator stands is read to: more than any line has,
/// whose longest has two digits for each byte of a list of 65,520 pages.
const LINE: u64 = 524_288;

/// Where a simulator stands between two runs. Bytes that it owes are lost.
#[derive(Drop)]
pub enum Standing {
    /// It waits for 7F.
    Fresh,
    /// It is connected, with these bytes since its last verdict.
    Connected(Vec<u8>),
    /// It left the bootloader.
    Gone,
}

fn is_upper_hex(c: u8) -> bool
    ensures { result ≡ is_upper_hex c }
{
    (48 <= c && c <= 57) || (65 <= c && c <= 70)
}

fn are_all_upper(digits: &[u8]) -> bool
    ensures { result ≡ list_all is_upper_hex digits.now }
{
    digits.iter().all(|c| is_upper_hex(*c))
}

fn are_upper_pairs(digits: &[u8]) -> bool
    ensures { result ≡ are_upper_pairs digits.now }
{
    !digits.is_empty() && are_all_upper(digits)
}

/// The rest that upper-case digits write, at least one byte.
fn rest_of(alloc: Global, digits: &[u8]) -> Result<Option<Standing>, AllocError>
    ensures { IfOk result (λ standing. option_map standing_phase standing ≡ rest_of_digits digits.now) }
{
    if !are_upper_pairs(digits) {
        return Ok(None);
    }
    match hex::decode(alloc, digits) {
        Ok(rest) => Ok(Some(Standing::Connected(rest))),
        Err(FromHexError::OutOfMemory) => Err(AllocError),
        Err(_) => Ok(None),
    }
}

impl Standing {
    /// What a line says: `fresh`, `idle`, `gone`, or `rest` and the rest's bytes in upper-case
    /// digits. None where it has another form.
    pub fn parse(alloc: Global, line: &[u8]) -> Result<Option<Standing>, AllocError>
        ensures { IfOk result (λ standing. option_map standing_phase standing ≡ standing_of line.now) }
    {
        if line == FRESH {
            return Ok(Some(Standing::Fresh));
        }
        if line == IDLE {
            return Ok(Some(Standing::Connected(Vec::new(alloc))));
        }
        if line == GONE {
            return Ok(Some(Standing::Gone));
        }
        let Some(words) = line.strip_suffix(b"\n") else {
            return Ok(None);
        };
        match words.strip_prefix(b"rest ") {
            Some(digits) => rest_of(alloc, digits),
            None => Ok(None),
        }
    }
}

/// Where a simulator stands by the file of its line; none where that has another form. Without the
/// file the device is fresh.
pub fn read_standing<R: Files + AllocGlobal>(rt: &R, name: &str) -> io::Result<Option<Standing>> {
    let Some(file) = open_if_there(rt, name)? else {
        return Ok(Some(Standing::Fresh));
    };
    let line = read_up_to(rt.alloc(), file, LINE)?;
    Ok(Standing::parse(rt.alloc(), line.as_slice())?)
}

/// The line of a device that is gone, or else connected with this rest, or else fresh.
pub fn standing_line(
    alloc: Global,
    is_gone: bool,
    rest: Option<&[u8]>,
) -> Result<Vec<u8>, AllocError>
    ensures { IfOk result
        (λ line. line.items ≡ standing_line (phase_from is_gone (option_map (λ r. r.now) rest.entry))) }
{
    if is_gone {
        return Vec::from_slice(alloc, GONE);
    }
    match rest {
        None => Vec::from_slice(alloc, FRESH),
        Some(bytes) if bytes.is_empty() => Vec::from_slice(alloc, IDLE),
        Some(bytes) => {
            let mut line = Vec::from_slice(alloc, b"rest ")?;
            let digits = hex::encode_upper(alloc, bytes)?;
            line.extend_from_slice(digits.as_bytes())?;
            line.push(b'\n')?;
            Ok(line)
        }
    }
}
