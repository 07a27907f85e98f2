// What is done with the devices of a row that is no call of a session.
//
// `chip ID FLASH.. [| JOURNAL..]` makes a device, of which there is none by `no-chip` and these; `aside ID
// FLASH..` puts it aside, and makes another one with a copy of its journal; `back`; `use TABLE`. `stop STEPS`, `free`, `reset`, `send BYTES..`:
// 7F and these come, and nobody takes the replies; `connected`: one reply is taken; `room COUNT`: for so
// many entries of the record; `lose COUNT` replies; `power BYTE`, `power-all BYTE`: a loss of power, the
// page at work or all that are kept hold this byte then; `fail put|get|append COUNT`; `bad KIND NUMBER..`:
// the line is bad from now on (`line.rt`), at the byte that the numbers add up to; `list BYTES|-..`: what
// comes in place of what the device says, and where it is quiet; `nothing`; `keeps BYTE COUNT`: the
// flash that the journal keeps has other bytes at most in so many places; `back-to-kept`. `is-list BYTES..`,
// `no-list BYTES..`: whether a session that settles with 7F may put these (`sent_lists.rt`).
use crate::bytes::{byte_of, bytes_of, number, number_at};
use crate::kept::{kept_flash, others};
use crate::line::{Line, Trouble};
use crate::power::lose_power;
use crate::sent_lists::is_sent_list;
use crate::stage::{Stage, Tables};
use crate::stopping::Stop;
use std::alloc::Global;
use stm_sim::MemoryRig;
use stm_wire::{Patience, Rig};

/// Whether all could be put.
fn send(rig: &mut MemoryRig, bytes: &[u8]) -> bool {
    let mut is_sent = rig.put(0x7F).is_ok();
    for byte in bytes {
        is_sent = is_sent && rig.put(*byte).is_ok();
    }
    is_sent
}

/// So many bytes that the device owes are lost, or all where it owes fewer.
fn lose(rig: &mut MemoryRig, count: u64) {
    for _i in 0..count {
        if rig.get(Patience::Brief).ok().flatten().is_none() {
            return;
        }
    }
}

fn fail(rig: &mut MemoryRig, words: &[&str]) -> Result<(), Stop> {
    let k = number_at(words, 1)?;
    match words.first() {
        Some(&"put") => rig.fail_put(k),
        Some(&"get") => rig.fail_get(k),
        Some(&"append") => rig.fail_append(k),
        _ => return Err(Stop::Words),
    }
    Ok(())
}

fn trouble(word: &str) -> Result<Trouble, Stop> {
    match word {
        "none" => Ok(Trouble::None),
        "complemented" => Ok(Trouble::Complemented),
        "lost" => Ok(Trouble::Lost),
        "silent" => Ok(Trouble::Silence),
        "echo" => Ok(Trouble::Echoes),
        "list" => Ok(Trouble::Lists),
        _ => match word.split_once(':') {
            Some(("becomes", byte)) => Ok(Trouble::Becomes(byte_of(&[byte])?)),
            Some(("answers", byte)) => Ok(Trouble::Answers(byte_of(&[byte])?)),
            Some(("chatters", byte)) => Ok(Trouble::Chatters(byte_of(&[byte])?)),
            _ => Err(Stop::Words),
        },
    }
}

fn turn(line: &mut Line, words: &[&str]) -> Result<(), Stop> {
    let [kind, numbers @ ..] = words else {
        return Err(Stop::Words);
    };
    let mut due = 0_u64;
    for word in numbers {
        due = due.saturating_add(number(word)?);
    }
    line.turn(trouble(kind)?, due);
    Ok(())
}

/// Adds what comes: bytes, or - where it is quiet.
fn add(alloc: Global, list: &mut Vec<Option<u8>>, words: &[&str]) -> Result<(), Stop> {
    for word in words {
        if *word == "-" {
            list.push(None)?;
        } else {
            add_all(list, &bytes_of(alloc, &[*word])?)?;
        }
    }
    Ok(())
}

fn add_all(list: &mut Vec<Option<u8>>, bytes: &[u8]) -> Result<(), Stop> {
    for byte in bytes {
        list.push(Some(*byte))?;
    }
    Ok(())
}

/// What is done with a line.
fn with_line(
    alloc: Global,
    line: &mut Line,
    verb: &str,
    words: &[&str],
) -> Result<Option<bool>, Stop> {
    match verb {
        "stop" => line.memory.stop_after(number_at(words, 0)?),
        "free" => line.memory.stop_after(u64::MAX),
        "reset" => line.memory.reset(),
        "lose" => lose(&mut line.memory, number_at(words, 0)?),
        "power" => lose_power(alloc, &mut line.memory, byte_of(words)?, false)?,
        "power-all" => lose_power(alloc, &mut line.memory, byte_of(words)?, true)?,
        "fail" => fail(&mut line.memory, words)?,
        "bad" => turn(line, words)?,
        "list" => {
            add(alloc, &mut line.other.list, words)?;
            line.turn(Trouble::Lists, 0);
        }
        "room" => line.memory.reserve_calls(number_at(words, 0)? as usize)?,
        "send" => return Ok(Some(send(&mut line.memory, &bytes_of(alloc, words)?))),
        "connected" => return Ok(Some(line.memory.get(Patience::Long).is_ok())),
        _ => return Ok(None),
    }
    Ok(Some(true))
}

/// The flash that the journal keeps, and whether it has other bytes in few places.
fn keep(stage: &mut Stage, words: &[&str]) -> Result<bool, Stop> {
    let alloc = stage.alloc;
    let first = byte_of(words)?;
    let kept = kept_flash(alloc, &mut stage.line()?.memory, first)?;
    let is_well = others(&kept, first).0 <= number_at(words, 1)?;
    stage.kept = kept;
    Ok(is_well)
}

/// Whether it could be done; None: it's another word.
pub fn act(
    stage: &mut Stage,
    tables: &Tables,
    verb: &str,
    words: &[&str],
) -> Result<Option<bool>, Stop> {
    let alloc = stage.alloc;
    match verb {
        "chip" => stage.make(tables, words)?,
        "no-chip" => return Ok(Some(stage.make(tables, words).is_err())),
        "aside" => stage.put_aside(tables, words)?,
        "back" => stage.bring_back(),
        "nothing" => {}
        "is-list" => return Ok(Some(is_sent_list(&bytes_of(alloc, words)?, 0x7F))),
        "no-list" => return Ok(Some(!is_sent_list(&bytes_of(alloc, words)?, 0x7F))),
        "use" => stage.take_table(tables, words)?,
        "keeps" => return Ok(Some(keep(stage, words)?)),
        "back-to-kept" => return Ok(Some(stage.is_kept())),
        _ => return with_line(alloc, stage.line()?, verb, words),
    }
    Ok(Some(true))
}
