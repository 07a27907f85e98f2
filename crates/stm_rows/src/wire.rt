// Calls of a line, and commands of the bootloader with no session around them, behind the word `wire`.
//
// Answered `done`: `put BYTES..`; `append BYTES..`; `settle BYTE MOST`; `settle-under erase|program N MOST`, or
// with `-` for the intent; `connect`; `program ADDRESS BYTES..`, 4 to 256 of them; `erase page|extended BYTE`;
// `protect CODE`; `go ADDRESS`. `get brief|long`: the byte, or `quiet`; `fetch AT`: how many of four bytes of
// the journal came, over 07; `exchange BYTES..`: all replies to them; `verdict BYTES..`: what the device makes
// of the last one, `early` where it makes something of one before; `id`; `commands`; `read ADDRESS`: 8 bytes.
use crate::bytes::{byte_of, bytes_of, count_of, hexadecimal, number, page};
use crate::chips::kind_of;
use crate::journals::tell_bytes;
use crate::line::Line;
use crate::sessions::{protection, tell_codes};
use crate::stopping::Stop;
use std::alloc::Global;
use stm_wire::{
    Intent, Patience, Rig, connect, erase_page, get_commands, get_id, go, program, protect, read,
    settle, settle_under,
};

fn put_all(line: &mut Line, bytes: &[u8]) -> Result<(), Stop> {
    for byte in bytes {
        line.put(*byte)?;
    }
    Ok(())
}

fn get(line: &mut Line, words: &[&str], told: &mut String) -> Result<(), Stop> {
    let patience = match words {
        ["brief"] => Patience::Brief,
        ["long"] => Patience::Long,
        _ => return Err(Stop::Words),
    };
    match line.get(patience)? {
        Some(byte) => Ok(write!(told, "{byte:02X}")?),
        None => Ok(told.push_str("quiet")?),
    }
}

fn fetch(line: &mut Line, at: u64, told: &mut String) -> Result<(), Stop> {
    let mut bytes = [0x07; 4];
    let count = line.fetch(at, &mut bytes)?;
    write!(told, "{count} ")?;
    tell_bytes(&bytes, told)
}

fn exchange(line: &mut Line, bytes: &[u8], told: &mut String) -> Result<(), Stop> {
    put_all(line, bytes)?;
    for _i in 0..u64::MAX {
        let Some(byte) = line.get(Patience::Brief)? else {
            break;
        };
        write!(told, "{byte:02X}")?;
    }
    Ok(())
}

/// What the device makes of a byte, once all that it owes then was taken.
fn verdict_after(line: &mut Line, byte: u8) -> Result<&'static str, Stop> {
    line.put(byte)?;
    let mut last = None;
    for _i in 0..u64::MAX {
        match line.get(Patience::Brief)? {
            Some(reply) => last = Some(reply),
            None => break,
        }
    }
    Ok(match line.memory.rest() {
        Some([]) if last == Some(0x1F) => "refused",
        Some([]) => "done",
        Some(_) => "open",
        None if line.memory.is_gone() => "gone",
        None => "fresh",
    })
}

/// Tells the verdict on these bytes; the device is reset and connected then, unless it awaits a list.
fn verdict(line: &mut Line, bytes: &[u8], told: &mut String) -> Result<(), Stop> {
    let mut verdict = "open";
    for byte in bytes {
        if verdict != "open" {
            return Ok(told.push_str("early")?);
        }
        verdict = verdict_after(line, *byte)?;
    }
    if verdict != "done" && verdict != "refused" {
        line.memory.reset();
        line.put(0x7F)?;
        line.get(Patience::Brief)?;
    }
    Ok(told.push_str(verdict)?)
}

fn settles_under(line: &mut Line, words: &[&str]) -> Result<(), Stop> {
    let (intent, most) = match words {
        ["-", most] => (None, most),
        ["erase", n, most] => (Some(Intent::Erase(page(n)?)), most),
        ["program", n, most] => (Some(Intent::Program(page(n)?)), most),
        _ => return Err(Stop::Words),
    };
    Ok(settle_under(line, intent, count_of(most)?)?)
}

fn programs(line: &mut Line, address: u32, bytes: &[u8]) -> Result<(), Stop> {
    if bytes.len() < 4 || bytes.len() > 256 || bytes.len() % 4 != 0 {
        return Err(Stop::Words);
    }
    Ok(program(line, address, bytes)?)
}

/// Does what is answered by `done` alone; false: it's another word.
fn done(alloc: Global, line: &mut Line, verb: &str, words: &[&str]) -> Result<bool, Stop> {
    match (verb, words) {
        ("put", _) => put_all(line, &bytes_of(alloc, words)?)?,
        ("append", _) => line.append(&bytes_of(alloc, words)?)?,
        ("settle", [byte, most]) => settle(line, byte_of(&[*byte])?, count_of(most)?)?,
        ("settle-under", _) => settles_under(line, words)?,
        ("connect", []) => connect(line)?,
        ("program", [address, bytes @ ..]) => {
            programs(line, hexadecimal(address)?, &bytes_of(alloc, bytes)?)?;
        }
        ("erase", [kind, n]) => erase_page(line, kind_of(kind)?, u16::from(byte_of(&[*n])?))?,
        ("protect", _) => protect(line, protection(words)?)?,
        ("go", [address]) => go(line, hexadecimal(address)?)?,
        _ => return Ok(false),
    }
    Ok(true)
}

fn asked(
    alloc: Global,
    line: &mut Line,
    verb: &str,
    words: &[&str],
    told: &mut String,
) -> Result<(), Stop> {
    match (verb, words) {
        ("get", _) => get(line, words, told),
        ("fetch", [at]) => fetch(line, number(at)?, told),
        ("exchange", _) => exchange(line, &bytes_of(alloc, words)?, told),
        ("verdict", _) => verdict(line, &bytes_of(alloc, words)?, told),
        ("id", []) => {
            let id = get_id(line)?;
            Ok(write!(told, "{id:04X}")?)
        }
        ("commands", []) => tell_codes(&get_commands(line)?, told),
        ("read", [address]) => {
            let mut bytes = [0; 8];
            read(line, hexadecimal(address)?, &mut bytes)?;
            tell_bytes(&bytes, told)
        }
        _ => Err(Stop::Words),
    }
}

/// Does a call of a line, and tells what it answers.
pub fn wire(alloc: Global, line: &mut Line, words: &[&str], told: &mut String) -> Result<(), Stop> {
    let [verb, rest @ ..] = words else {
        return Err(Stop::Words);
    };
    if done(alloc, line, verb, rest)? {
        return Ok(told.push_str("done")?);
    }
    asked(alloc, line, verb, rest, told)
}
