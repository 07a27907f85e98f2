// The commands of a run as words, with a ; between them, and what they answer as text.
//
// `write ADDRESS BYTES..`, `verify ADDRESS BYTES..`, `erase PAGE..`, `read ADDRESS LENGTH`. What is
// told: `written SEGMENT PAGES`, `erased SEGMENT PAGES`, `verified`, `read LENGTH` where the bytes
// are the flash's, and how many aren't and the first of those where some aren't.
use crate::bytes::{bytes_of, count_of, hexadecimal, page};
use crate::stopping::Stop;
use std::alloc::Global;
use stm_image::{Image, read_raw};
use stm_session::{Command, Outcome};
use stm_sim::MemoryRig;

fn image(alloc: Global, words: &[&str]) -> Result<Image, Stop> {
    let [address, bytes @ ..] = words else {
        return Err(Stop::Words);
    };
    let start = hexadecimal(address)?;
    Ok(read_raw(alloc, &bytes_of(alloc, bytes)?, start)?)
}

fn pages(alloc: Global, words: &[&str]) -> Result<Vec<u16>, Stop> {
    let mut pages = Vec::new(alloc);
    for word in words {
        pages.push(page(word)?)?;
    }
    Ok(pages)
}

fn part(words: &[&str]) -> Result<Command, Stop> {
    let start = hexadecimal(words.first().ok_or(Stop::Words)?)?;
    let length = count_of(words.get(1).ok_or(Stop::Words)?)?;
    Ok(Command::Read { start, length })
}

fn command(alloc: Global, words: &[&str]) -> Result<Command, Stop> {
    let [verb, rest @ ..] = words else {
        return Err(Stop::Words);
    };
    match *verb {
        "write" => Ok(Command::Write(image(alloc, rest)?)),
        "verify" => Ok(Command::Verify(image(alloc, rest)?)),
        "erase" => Ok(Command::Erase(pages(alloc, rest)?)),
        "read" => part(rest),
        _ => Err(Stop::Words),
    }
}

/// Adds the commands of these words.
pub fn add_commands(
    alloc: Global,
    words: &[&str],
    commands: &mut Vec<Command>,
) -> Result<(), Stop> {
    for part in words.split(|word| *word == ";") {
        if !part.is_empty() {
            commands.push(command(alloc, part)?)?;
        }
    }
    Ok(())
}

/// In how many places there is another byte, and the first of them.
fn others(bytes: &[u8], held: &[u8]) -> (usize, usize) {
    let mut count = 0_usize;
    let mut first = 0_usize;
    for (place, byte) in bytes.iter().enumerate() {
        if held.get(place) != Some(byte) {
            if count == 0 {
                first = place;
            }
            count = count.saturating_add(1);
        }
    }
    (count, first)
}

fn tell_read(
    bytes: &[u8],
    command: Option<&Command>,
    rig: &MemoryRig,
    told: &mut String,
) -> Result<(), Stop> {
    let Some(Command::Read { start, length: _ }) = command else {
        return Err(Stop::Words);
    };
    let place = start.saturating_sub(rig.chip().base()) as usize;
    let (count, first) = others(bytes, rig.flash().get(place..).unwrap_or(&[]));
    let size = bytes.len();
    write!(told, "read {size}")?;
    if count > 0 {
        write!(told, ", {count} other at {first}")?;
    }
    Ok(())
}

fn tell_outcome(
    outcome: &Outcome,
    command: Option<&Command>,
    rig: &MemoryRig,
    told: &mut String,
) -> Result<(), Stop> {
    match outcome {
        Outcome::Written { segment, pages } => Ok(write!(told, "written {segment} {pages}")?),
        Outcome::Erased { segment, pages } => Ok(write!(told, "erased {segment} {pages}")?),
        Outcome::Verified => Ok(told.push_str("verified")?),
        Outcome::Read(bytes) => tell_read(bytes, command, rig, told),
    }
}

/// What the commands answered.
pub fn tell_outcomes(
    outcomes: &[Outcome],
    commands: &[Command],
    rig: &MemoryRig,
    told: &mut String,
) -> Result<(), Stop> {
    for (place, outcome) in outcomes.iter().enumerate() {
        if place > 0 {
            told.push_str("; ")?;
        }
        tell_outcome(outcome, commands.get(place), rig, told)?;
    }
    Ok(())
}
