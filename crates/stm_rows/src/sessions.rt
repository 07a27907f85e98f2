// The calls of a session as words, and what they answer as text.
use crate::bytes::{count_of, hexadecimal};
use crate::commands::{add_commands, tell_outcomes};
use crate::journals::tell_bytes;
use crate::line::Line;
use crate::stopping::Stop;
use std::alloc::Global;
use stm_chip::Table;
use stm_journal::Journal;
use stm_session::{
    Board, Command, Greeting, Info, ask_board, go, greet, identify, info, protect, run, undo,
    undo_verified, unprotect_fresh,
};
use stm_weak::undo_segment;
use stm_wire::{Commands, EraseKind, Protection};

/// The version and the codes.
pub fn tell_codes(commands: &Commands, told: &mut String) -> Result<(), Stop> {
    let version = commands.version;
    let count = usize::from(commands.count);
    write!(told, "{version:02X} ")?;
    tell_bytes(commands.codes.get(..count).unwrap_or(&[]), told)
}

fn tell_info(info: &Info, told: &mut String) -> Result<(), Stop> {
    let (id, base, pages, size) = (info.id, info.base, info.pages, info.size);
    let kind = match info.kind {
        EraseKind::Page => "page",
        EraseKind::Extended => "extended",
    };
    write!(told, "{id:04X} {base:08X} {pages} {size} {kind} ")?;
    tell_codes(&info.commands, told)
}

/// The id, the unique id and the size, or - for what wasn't told.
pub fn tell_board(board: &Board, told: &mut String) -> Result<(), Stop> {
    let id = board.id;
    write!(told, "{id:04X} ")?;
    if board.unique.is_none() {
        told.push('-')?;
    }
    tell_bytes(board.unique.as_bytes(), told)?;
    match board.size {
        Some(size) => Ok(write!(told, " {size}")?),
        None => Ok(told.push_str(" -")?),
    }
}

fn runs(
    alloc: Global,
    line: &mut Line,
    table: &Table,
    commands: &[Command],
    told: &mut String,
) -> Result<(), Stop> {
    let report = run(alloc, line, table, commands)?;
    tell_outcomes(&report.outcomes, commands, &line.memory, told)
}

pub fn protection(words: &[&str]) -> Result<Protection, Stop> {
    match words {
        ["73"] => Ok(Protection::WriteUnprotect),
        ["82"] => Ok(Protection::ReadoutProtect),
        ["92"] => Ok(Protection::ReadoutUnprotect),
        _ => Err(Stop::Words),
    }
}

/// An undo that fails is done once more.
fn undo_or_again(alloc: Global, line: &mut Line, table: &Table) -> Result<(), Stop> {
    if undo(alloc, line, table, 0).is_err() {
        undo(alloc, line, table, 0)?;
    }
    Ok(())
}

/// An undo, or a greeting ahead of one; false: it's another call.
fn undoing(
    alloc: Global,
    line: &mut Line,
    table: &Table,
    verb: &str,
    words: &[&str],
    told: &mut String,
) -> Result<bool, Stop> {
    let count = match verb {
        "undo" => {
            let count = count_of(words.first().ok_or(Stop::Words)?)?;
            undo(alloc, line, table, count)?
        }
        "undo-weak" => undo_segment(alloc, line, table, 0)?,
        "undo-verified" => {
            let returned = undo_verified(alloc, line, table, 0)?;
            let (segments, bytes) = (returned.segments, returned.bytes);
            write!(told, "{segments}, {bytes} bytes")?;
            return Ok(true);
        }
        _ => return Ok(false),
    };
    write!(told, "{count}")?;
    Ok(true)
}

/// A question; false: it's another call.
fn asking(
    alloc: Global,
    line: &mut Line,
    table: &Table,
    verb: &str,
    told: &mut String,
) -> Result<bool, Stop> {
    match verb {
        "info" => tell_info(&info(alloc, line, table)?, told)?,
        "identify" => {
            let answer = identify(alloc, line)?;
            let id = answer.id;
            write!(told, "{id:04X} ")?;
            tell_codes(&answer.commands, told)?;
        }
        "board" => tell_board(&ask_board(alloc, line, table)?, told)?,
        "load" => {
            let journal = Journal::load(alloc, line)?;
            let (depth, entries) = (journal.depth(), journal.entries());
            write!(told, "{depth} {entries}")?;
        }
        "greet" => {
            let is_sent = greet(alloc, line, table, Greeting::Plain)?;
            write!(told, "{is_sent}")?;
        }
        _ => return Ok(false),
    }
    Ok(true)
}

/// What is answered by `done` alone; false: it's another call.
fn doing(
    alloc: Global,
    line: &mut Line,
    table: &Table,
    verb: &str,
    words: &[&str],
) -> Result<bool, Stop> {
    match verb {
        "go" => go(alloc, line, hexadecimal(words.first().ok_or(Stop::Words)?)?)?,
        "protect" => protect(alloc, line, protection(words)?)?,
        "unprotect-fresh" => unprotect_fresh(alloc, line)?,
        "undo-or-again" => undo_or_again(alloc, line, table)?,
        _ => return Ok(false),
    }
    Ok(true)
}

/// Does a call, and tells what it answers; false: it's none.
pub fn call(
    alloc: Global,
    line: &mut Line,
    table: &Table,
    verb: &str,
    words: &[&str],
    told: &mut String,
) -> Result<bool, Stop> {
    if verb == "run" {
        let mut commands = Vec::new(alloc);
        add_commands(alloc, words, &mut commands)?;
        runs(alloc, line, table, &commands, told)?;
        return Ok(true);
    }
    if doing(alloc, line, table, verb, words)? {
        told.push_str("done")?;
        return Ok(true);
    }
    Ok(undoing(alloc, line, table, verb, words, told)? || asking(alloc, line, table, verb, told)?)
}
